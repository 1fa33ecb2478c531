//! Documents with nothing but what is at some paths.
ghost use Rattle.std.specs.Prelude.{◌≡◌, ◌≤◌, IfOk, false, length, map, option_map, true};
ghost use Rattle.std.specs.List.{AllWithin};
ghost use Rattle.std.specs.Option.{option_to_list};
ghost use Rattle.fs_value.specs.View.{view, field_view};
ghost use Rattle.fs_value.specs.Data.{members_of};
ghost use Rattle.fs_query.specs.PathsBehind.{NamesInOrder, is_before};
ghost use Rattle.fs_query.specs.Project.{projected, kept, kept_of, rests, rest_behind, ends_here};

use fs_path::{FieldPath, Paths, Text};
use fs_value::{Document, Field, Fields, SharedFields, Value};
use std::alloc::{AllocError, Global};

/// A document with exactly what is at these paths of it. A path that leads to nothing leaves nothing behind, also no empty
/// map on the way. (v1 reference, "StructuredQuery.Projection" and "DocumentMask".)
pub fn project(alloc: Global, d: &Document, paths: &Paths) -> Result<Document, AllocError>
    ensures { IfOk result (λ e. e ≡ projected d.now paths.now) }
{
    let mut parts = parts_of(alloc, paths.as_slice())?;
    let fields = kept(alloc, &mut parts, d.fields.as_fields())?;
    Ok(Document {
        fields: SharedFields::of(alloc, fields)?,
        name: d.name.copy(alloc)?,
        created: d.created,
        updated: d.updated,
    })
}

// The names on each path.
fn parts_of(alloc: Global, paths: &[FieldPath]) -> Result<Vec<&[Text]>, AllocError>
    ensures { IfOk result (λ v. map (λ p. p.now) v.items ≡ map (λ p. p.parts) paths.now) }
{
    let mut parts = Vec::with_capacity(alloc, paths.len())?;
    for path in paths {
        parts.push(path.parts.as_slice())?;
    }
    Ok(parts)
}

// What paths keep of fields. They are sorted, so that those which begin with a field's key stand together:
//
//     a.b, c, a.c, b     sorted: a.b, a.c, b, c      behind `a`: b, c
#[cycle(kept)]
fn kept(alloc: Global, paths: &mut Vec<&[Text]>, fields: &Fields) -> Result<Fields, AllocError>
    ensures { IfOk result (λ fs. fs ≡ kept (map (λ p. p.now) paths.old.items) (members_of fields.now)) }
{
    paths.sort()?;
    kept_in_order(alloc, paths.as_slice(), fields)
}

#[cycle(kept)]
fn kept_in_order(alloc: Global, paths: &[&[Text]], fields: &Fields) -> Result<Fields, AllocError>
    requires { NamesInOrder paths.now }
    ensures { IfOk result (λ fs. fs ≡ kept (map (λ p. p.now) paths.now) (members_of fields.now)) }
{
    let mut all = Vec::new(alloc);
    for field in fields.as_slice() {
        let mut rests = rests(alloc, field.key.as_str(), paths)?;
        if let Some(left) = kept_of(alloc, &mut rests, field)? {
            all.push(left)?;
        }
    }
    Ok(Fields::of(all))
}

// What the rests of paths behind its key keep of a field.
#[cycle(kept)]
fn kept_of(
    alloc: Global,
    rests: &mut Vec<&[Text]>,
    field: &Field,
) -> Result<Option<Field>, AllocError>
    ensures { IfOk result (λ f. option_to_list (option_map field_view f)
        ≡ kept_of (map (λ p. p.now) rests.old.items) field.now.key (view field.now.value)) }
{
    if ends_here(rests.as_slice()) {
        return Ok(Some(field.copy(alloc)?));
    }
    if let Value::Map(fields) = &field.value {
        let inner = kept(alloc, rests, fields)?;
        if !inner.is_empty() {
            let key = field.key.copy(alloc)?;
            return Ok(Some(Field {
                key,
                value: Value::Map(inner),
            }));
        }
    }
    Ok(None)
}

// The rests of the paths that begin with a key, of paths in order.
fn rests<'a>(alloc: Global, key: &str, paths: &[&'a [Text]]) -> Result<Vec<&'a [Text]>, AllocError>
    requires { NamesInOrder paths.now }
    ensures { IfOk result (λ v. map (λ p. p.now) v.items ≡ rests key.now (map (λ p. p.now) paths.now)) }
{
    let from = first_not_before(key, paths);
    rests_in_front(alloc, key, &paths[from..])
}

// How many of them stand in front of those that begin with a key.
fn first_not_before(key: &str, paths: &[&[Text]]) -> usize
    requires { NamesInOrder paths.now }
    ensures within { result ≤ length paths.now }
    ensures before { AllWithin (λ p. is_before key.now p.now ≡ true) paths.now 0 result }
    ensures others { AllWithin (λ p. is_before key.now p.now ≡ false) paths.now result (length paths.now) }
{
    paths.partition_point(|path| is_before(key, *path))
}

fn is_before(key: &str, path: &[Text]) -> bool
    ensures { result ≡ is_before key.now path.now }
{
    match path {
        [first, ..] => first.as_str() < key,
        [] => true,
    }
}

// The same, where none stands in front of those that begin with the key.
fn rests_in_front<'a>(
    alloc: Global,
    key: &str,
    paths: &[&'a [Text]],
) -> Result<Vec<&'a [Text]>, AllocError>
    requires rise { NamesInOrder paths.now }
    requires begun { AllWithin (λ p. is_before key.now p.now ≡ false) paths.now 0 (length paths.now) }
    ensures { IfOk result (λ v. map (λ p. p.now) v.items ≡ rests key.now (map (λ p. p.now) paths.now)) }
{
    let mut all = Vec::new(alloc);
    for path in paths {
        match rest_behind(key, *path) {
            Some(rest) => all.push(rest)?,
            None => return Ok(all),
        }
    }
    Ok(all)
}

// What follows a key, if a path begins with it.
fn rest_behind<'a>(key: &str, path: &'a [Text]) -> Option<&'a [Text]>
    ensures { option_to_list (option_map (λ p. p.now) result) ≡ rest_behind key.now path.now }
{
    match path {
        [first, rest @ ..] if first.as_str() == key => Some(rest),
        _ => None,
    }
}

fn ends_here(paths: &[&[Text]]) -> bool
    ensures { result ≡ ends_here (map (λ p. p.now) paths.now) }
{
    for path in paths {
        if path.is_empty() {
            return true;
        }
    }
    false
}
