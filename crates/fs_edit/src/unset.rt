//! What stands at a field path in opened fields, taken out.
ghost use Rattle.std.specs.Prelude.{◌≡◌, IfOk, OnOk, is_some};
ghost use Rattle.fs_value.specs.FieldPaths.{map_fields, unset_fields, unset_below};
ghost use Rattle.fs_edit.specs.OpenView.{open_view};

use crate::open_fields::{Open, OpenFields};
use fs_path::{FieldPath, Text};
use fs_value::Value;
use std::alloc::{AllocError, Global};
use std::mem::replace;

impl OpenFields {
    /// Takes out the value at a path. The maps on the way stay, even if they have no fields left. Where a value on the way
    /// isn't there or is no map, nothing is done. It refuses only for want of memory.
    pub fn unset(self, alloc: Global, path: &FieldPath) -> Result<OpenFields, AllocError>
        ensures { IfOk result (λ fs. fs ≡ unset_fields path.now.parts self) }
    {
        let mut fields = self;
        unset_at(alloc, &mut fields, path.parts.as_slice())?;
        Ok(fields)
    }
}

#[cycle(unset)]
fn unset_at(alloc: Global, fields: &mut OpenFields, names: &[Text]) -> Result<(), AllocError>
    ensures { OnOk result (fields.new ≡ unset_fields names.now fields.old) }
{
    match names {
        [] => Ok(()),
        [key] => {
            fields.remove(key);
            Ok(())
        }
        [key, rest @ ..] => match fields.entries.get_mut(key) {
            Some(place) => unset_inside(alloc, place, rest),
            None => Ok(()),
        },
    }
}

#[cycle(unset)]
fn unset_inside(alloc: Global, place: &mut Open, names: &[Text]) -> Result<(), AllocError>
    ensures { OnOk result (open_view place.new ≡ unset_below names.now (open_view place.old)) }
{
    if is_map(place) {
        let mut inner = replace(place, Open::Whole(Value::Null)).into_fields(alloc)?;
        unset_at(alloc, &mut inner, names)?;
        *place = Open::Map(inner);
    }
    Ok(())
}

fn is_map(place: &Open) -> bool
    ensures { result ≡ is_some (map_fields (open_view place.now)) }
{
    match place {
        Open::Map(_) => true,
        Open::Whole(Value::Map(_)) => true,
        _ => false,
    }
}
