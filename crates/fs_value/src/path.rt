//! The value at a field path such as `address.city`: read, set and taken out, in the fields of a document.
ghost use Rattle.std.specs.Prelude.{◌≡◌, ◌≢◌, ℕ, ◌<◌, ◌∷◌, ◌++◌, IfOk, OnOk, OnErr, IsTrue, List, Some, None, [], length, option_map};
ghost use Rattle.fs_value.specs.Data.{Data};
ghost use Rattle.fs_value.specs.Ordered.{is_ordered};
ghost use Rattle.fs_value.specs.FieldPaths.{map_of, fields_below, get_fields, set_fields, unset_fields, unset_below, without, IsApart};
ghost use Rattle.fs_value.specs.SetBelow.{set_below};
ghost use Rattle.fs_value.specs.View.{view};

use crate::fields::Fields;
use crate::value::Value;
use fs_path::{FieldPath, Text};
use std::alloc::{AllocError, Global};

/// The value at a path, or none: where a value on the way isn't there or is no map, nothing is below it. It takes no
/// memory.
pub fn get<'a>(fields: &'a Fields, path: &FieldPath) -> Option<&'a Value>
    ensures { option_map (λ v. view v.now) result ≡ get_fields path.now.parts fields.now }
{
    get_at(fields, path.parts.as_slice())
}

fn get_at<'a>(fields: &'a Fields, names: &[Text]) -> Option<&'a Value>
    ensures { option_map (λ v. view v.now) result ≡ get_fields names.now fields.now }
{
    match names {
        [] => None,
        [key] => fields.find(key.as_str()),
        [key, rest @ ..] => {
            let there = fields.find(key.as_str())?;
            match there {
                Value::Map(inner) => get_at(inner, rest),
                _ => None,
            }
        }
    }
}

/// Sets the value at a path, in place. The maps on the way are made where they aren't there, and a value there that is no
/// map gives way to one. It refuses only for want of memory, and leaves the fields as they were.
pub fn set(alloc: Global, fields: &mut Fields, path: &FieldPath, v: Value) -> Result<(), AllocError>
    ensures ok { OnOk result (fields.new ≡ set_fields path.now.parts (view v) fields.old) }
    ensures err { OnErr result (fields.new ≡ fields.old) }
{
    set_at(alloc, fields, path.parts.as_slice(), v)
}

#[cycle(set)]
fn set_at(alloc: Global, fields: &mut Fields, names: &[Text], v: Value) -> Result<(), AllocError>
    ensures ok { OnOk result (fields.new ≡ set_fields names.now (view v) fields.old) }
    ensures err { OnErr result (fields.new ≡ fields.old) }
{
    match names {
        [] => Ok(()),
        [key, rest @ ..] => match fields.place(key.as_str()) {
            Ok(i) => set_inside(alloc, &mut fields.items[i].value, rest, v),
            Err(_) => {
                let made = value_with(alloc, rest, v)?;
                fields.put(key.copy(alloc)?, made)
            }
        },
    }
}

// Sets a value, or one in the map that it is or gives way to.
#[cycle(set)]
fn set_inside(alloc: Global, value: &mut Value, names: &[Text], v: Value) -> Result<(), AllocError>
    ensures ok { OnOk result (view value.new ≡ set_below names.now (view v) (Some (view value.old))) }
    ensures err { OnErr result (view value.new ≡ view value.old) }
{
    if let Value::Map(fields) = value {
        if !names.is_empty() {
            return set_at(alloc, fields, names, v);
        }
    }
    *value = value_with(alloc, names, v)?;
    Ok(())
}

// The value itself where no name is left, and else a map with nothing but it at the path.
#[cycle(set)]
fn value_with(alloc: Global, names: &[Text], v: Value) -> Result<Value, AllocError>
    ensures { IfOk result (λ w. view w ≡ set_below names.now (view v) None) }
{
    if names.is_empty() {
        return Ok(v);
    }
    let mut fields = Fields::new(alloc);
    set_at(alloc, &mut fields, names, v)?;
    Ok(Value::Map(fields))
}

/// Takes out the value at a path, in place. The maps on the way stay, even if they have no fields left. Where a value on
/// the way isn't there or is no map, nothing is done. It takes no memory.
pub fn unset(fields: &mut Fields, path: &FieldPath)
    ensures { fields.new ≡ unset_fields path.now.parts fields.old }
{
    unset_at(fields, path.parts.as_slice());
}

#[cycle(unset)]
fn unset_at(fields: &mut Fields, names: &[Text])
    ensures { fields.new ≡ unset_fields names.now fields.old }
{
    match names {
        [] => {}
        [key] => remove(fields, key),
        [key, rest @ ..] => {
            if let Ok(i) = fields.place(key.as_str()) {
                unset_inside(&mut fields.items[i].value, rest);
            }
        }
    }
}

#[cycle(unset)]
fn unset_inside(value: &mut Value, names: &[Text])
    ensures { view value.new ≡ unset_below names.now (view value.old) }
{
    if let Value::Map(fields) = value {
        unset_at(fields, names);
    }
}

// Takes out the field at a key, if there is one.
fn remove(fields: &mut Fields, key: &Text)
    ensures { fields.new ≡ without key.now fields.old }
{
    match fields.place(key.as_str()) {
        Ok(i) => drop(fields.items.remove(i)),
        Err(_) => {}
    }
}

/// The laws of setting and taking out at a path, for all fields and paths. A value that is set is there, and one that is
/// taken out isn't. What is at a path of which neither begins the other is as before. A value on the way is afterwards a
/// map with the rest of the path set in it, or without the rest if it was a map, and other keys of it stay. Where nothing
/// is at a path, taking it out changes nothing.
pub fn paths_are_lawful()
    ensures set_there { (p : List (List ℕ)) (v : Data) (fs : List (List ℕ × Data)) → 0 < length p
        → get_fields p (set_fields p v fs) ≡ Some v }
    ensures unset_gone { (p : List (List ℕ)) (fs : List (List ℕ × Data)) → get_fields p (unset_fields p fs) ≡ None }
    ensures set_apart { (p : List (List ℕ)) (q : List (List ℕ)) (v : Data) (fs : List (List ℕ × Data)) → IsApart p q
        → get_fields q (set_fields p v fs) ≡ get_fields q fs }
    ensures unset_apart { (p : List (List ℕ)) (q : List (List ℕ)) (fs : List (List ℕ × Data)) → IsApart p q
        → get_fields q (unset_fields p fs) ≡ get_fields q fs }
    ensures set_way { (p : List (List ℕ)) (q : List (List ℕ)) (v : Data) (fs : List (List ℕ × Data)) → 0 < length p → 0 < length q
        → get_fields p (set_fields (p ++ q) v fs) ≡ Some (map_of (set_fields q v (fields_below (get_fields p fs)))) }
    ensures unset_way { (p : List (List ℕ)) (q : List (List ℕ)) (fs : List (List ℕ × Data)) → 0 < length p → 0 < length q
        → get_fields p (unset_fields (p ++ q) fs) ≡ option_map (unset_below q) (get_fields p fs) }
    ensures unset_absent { (p : List (List ℕ)) (fs : List (List ℕ × Data)) → IsTrue (is_ordered (map_of fs))
        → get_fields p fs ≡ None → unset_fields p fs ≡ fs }
    ensures set_keys { (p : List (List ℕ)) (ks : List (List ℕ)) (k : List ℕ) (l : List ℕ) (v : Data) (fs : List (List ℕ × Data)) → l ≢ k
        → get_fields (p ++ l ∷ []) (set_fields (p ++ k ∷ ks) v fs) ≡ get_fields (p ++ l ∷ []) fs }
    ensures unset_keys { (p : List (List ℕ)) (ks : List (List ℕ)) (k : List ℕ) (l : List ℕ) (fs : List (List ℕ × Data)) → l ≢ k
        → get_fields (p ++ l ∷ []) (unset_fields (p ++ k ∷ ks) fs) ≡ get_fields (p ++ l ∷ []) fs }
{}
