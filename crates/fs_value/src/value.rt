//! Values, as fields have them.
use crate::fields::Fields;
use crate::values::Values;
use fs_path::{Bytes, DocName, Text};
use fs_time::Micros;
use std::alloc::{AllocError, Global};

/// The value of a field (`google.firestore.v1.Value`). Contracts see its `Data`, by `view`.
/// (docs/DECISIONS.md, "Values are one plain enum over lists of their own types".)
#[cycle(value)]
#[derive(Drop)]
pub enum Value {
    Null,
    Boolean(bool),
    Integer(i64),
    Timestamp(Micros),
    String(Text),
    Bytes(Bytes),
    Reference(DocName),
    Array(Values),
    Map(Fields),
}

const _: () = prove!(size_of::<Value>() <= 32);

impl Value {
    ghost use Rattle.std.specs.Prelude.{◌≡◌, IfOk};
    ghost use Rattle.fs_value.specs.View.{view};

    #[cycle(copy)]
    pub fn copy(&self, alloc: Global) -> Result<Value, AllocError>
        ensures { IfOk result (λ w. view w ≡ view self.now) }
    {
        match self {
            Value::Null => Ok(Value::Null),
            Value::Boolean(b) => Ok(Value::Boolean(*b)),
            Value::Integer(n) => Ok(Value::Integer(*n)),
            Value::Timestamp(t) => Ok(Value::Timestamp(*t)),
            Value::String(text) => Ok(Value::String(text.copy(alloc)?)),
            Value::Bytes(bytes) => Ok(Value::Bytes(bytes.copy(alloc)?)),
            Value::Reference(name) => Ok(Value::Reference(name.copy(alloc)?)),
            Value::Array(values) => Ok(Value::Array(values.copy(alloc)?)),
            Value::Map(fields) => Ok(Value::Map(fields.copy(alloc)?)),
        }
    }
}
