//! The transforms of a write, which change a field by what it was before.
use fs_path::{Copied, FieldPath, List};
use fs_value::Values;
use std::alloc::{AllocError, Global};

/// What is done to a field. (v1 reference, "DocumentTransform.FieldTransform".)
#[derive(Drop)]
pub enum Operation {
    /// The field becomes the time of the commit, in whole milliseconds (`setToServerValue: REQUEST_TIME`).
    RequestTime,
    /// This is added to the field, up to the ends of 64 bits.
    Increment(i64),
    /// The field becomes the larger of itself and this.
    Maximum(i64),
    /// The field becomes the smaller of itself and this.
    Minimum(i64),
    /// These are appended to the field's array, each unless it is there (`appendMissingElements`).
    AppendMissing(Values),
    /// These are taken out of the field's array, wherever they stand (`removeAllFromArray`).
    RemoveAll(Values),
}

impl Operation {
    ghost use Rattle.std.specs.Prelude.{◌≡◌, IfOk};

    pub fn copy(&self, alloc: Global) -> Result<Operation, AllocError>
        ensures { IfOk result (λ o. o ≡ self.now) }
    {
        Ok(match self {
            Operation::RequestTime => Operation::RequestTime,
            Operation::Increment(n) => Operation::Increment(*n),
            Operation::Maximum(n) => Operation::Maximum(*n),
            Operation::Minimum(n) => Operation::Minimum(*n),
            Operation::AppendMissing(values) => Operation::AppendMissing(values.copy(alloc)?),
            Operation::RemoveAll(values) => Operation::RemoveAll(values.copy(alloc)?),
        })
    }
}

/// An operation on the field at a path.
#[derive(Drop)]
pub struct Transform {
    pub path: FieldPath,
    pub operation: Operation,
}

impl Transform {
    ghost use Rattle.std.specs.Prelude.{◌≡◌, IfOk};

    pub fn copy(&self, alloc: Global) -> Result<Transform, AllocError>
        ensures { IfOk result (λ t. t ≡ self.now) }
    {
        Ok(Transform {
            path: self.path.copy(alloc)?,
            operation: self.operation.copy(alloc)?,
        })
    }
}

/// The transforms of a write, in the order in which they are made.
pub type Transforms = List<Transform>;

impl Copied for Transform {
    fn copy(&self, alloc: Global) -> Result<Transform, AllocError> {
        self.copy(alloc)
    }
}
