//! The members of an object: which may be there, which have to be, and in which spelling.
ghost use Rattle.std.specs.Prelude.{◌≡◌, ◌++◌, ℕ, List, Option, map, None, option_map, IfSome, false, option_and_then, Some, if◌then◌else◌};
ghost use Rattle.std.specs.Bool.{OnFalse};
ghost use Rattle.std.specs.List.{list_any};
ghost use Rattle.fs_path.specs.Way.{place_of};
ghost use Rattle.fs_json.specs.Names.{snake_of, spells};
ghost use Rattle.serde_json.specs.Data.{Data, Members};
ghost use Rattle.serde_json.specs.View.{view as json, members_view};
ghost use Rattle.serde_json.specs.Find.{get_member};
ghost use Rattle.fs_json.specs.Answer.{Gives};
ghost use Rattle.fs_json.specs.Spellings.{second_at, second_given};
ghost use Rattle.fs_json.specs.Members.{at_most_one_at, chosen, first_twice, first_wrong, given_at, is_given, is_second, is_there, member_at, first_spelled, none_or_one, one_of_at, only_at, required_at, unbuilt_at};

use crate::bad::Bad;
use crate::names::{is_second_spelling, is_snake, spells};
use fs_path::{Rule, Text, Way};
use serde_json::{Map, Value};
use std::alloc::Global;

/// The member of this name, which is given in lowerCamelCase and may stand in snake_case too. One whose value is null
/// counts as absent, but for `nullValue`. Both spellings together are refused at the second. (proto3 JSON, "JSON
/// Options".)
///
/// At the way `x` the member `aB` of `{"aB":2}` and of `{"a_b":2}` is 2, of `{"aB":null,"a_b":2}` too, and that of
/// `{"aB":null}` and of `{"ab":2}` is none. `{"a_b":1,"aB":2}` is refused at `x.a_b`.
/// (docs/DECISIONS.md, "A null member counts as absent".)
pub fn member<'a>(
    alloc: Global,
    v: &'a Value,
    name: &str,
    way: &Way<'_>,
) -> Result<Option<&'a Value>, Bad>
    ensures { Gives (λ found. option_map (λ x. json x.now) found) result
        (member_at name.now (json v.now) (place_of way.now)) }
{
    let Value::Object(members) = v else {
        return Ok(None);
    };
    match given_in(members, name) {
        (first, None) => Ok(first),
        (None, Some((_, second))) => Ok(Some(second)),
        (Some(_), Some((key, _))) => Err(Bad::at(alloc, Rule::G, &way.member(key))),
    }
}

/// The member of this name, which has to be there. Where it is absent, its own place is at fault.
pub fn required<'a>(
    alloc: Global,
    v: &'a Value,
    name: &str,
    way: &Way<'_>,
) -> Result<&'a Value, Bad>
    ensures { Gives (λ found. json found.now) result
        (required_at name.now (json v.now) (place_of way.now)) }
{
    match member(alloc, v, name, way)? {
        Some(found) => Ok(found),
        None => Err(Bad::at(alloc, Rule::G, &way.member(name))),
    }
}

/// The one member that is there of these names, by its name. Where none is there, or more than one, the object is at
/// fault.
pub fn one_of<'a, 'n>(
    alloc: Global,
    v: &'a Value,
    names: &[&'n str],
    way: &Way<'_>,
) -> Result<(&'n str, &'a Value), Bad>
    ensures { Gives {Y = List ℕ × Data} (λ one. (one.0.now, json one.1.now)) result
        (one_of_at (map (λ n. n.now) names.now) (json v.now) (place_of way.now)) }
{
    match at_most_one_of(alloc, v, names, way)? {
        Some(one) => Ok(one),
        None => Err(Bad::at(alloc, Rule::G, way)),
    }
}

/// The member that is there of these names, by its name, if any is. Where more than one is there, the object is at
/// fault.
pub fn at_most_one_of<'a, 'n>(
    alloc: Global,
    v: &'a Value,
    names: &[&'n str],
    way: &Way<'_>,
) -> Result<Option<(&'n str, &'a Value)>, Bad>
    ensures { Gives {Y = Option (List ℕ × Data)}
        (λ found. option_map (λ one. (one.0.now, json one.1.now)) found) result
        (at_most_one_at (map (λ n. n.now) names.now) (json v.now) (place_of way.now)) }
{
    if let Value::Object(members) = v
        && let Some(found) = chosen(members, names)
    {
        return Ok(found);
    }
    Err(Bad::at(alloc, Rule::G, way))
}

/// Refuses a value that isn't an object, a member of none of these names, and a member that is given in both spellings,
/// in this order and at the first such key in the order of bytes.
///
/// With the one name `aB` at the way `x`, `{"a_b":null}` passes, `{"a_b":1,"aB":2}` is refused at `x.a_b`, and
/// `{"a_b":1,"aB":2,"c":null}` at `x.c`.
/// (docs/DECISIONS.md, "An unknown member, then a member in two spellings, is refused first".)
pub fn only(alloc: Global, v: &Value, names: &[&str], way: &Way<'_>) -> Result<(), Bad>
    ensures { Gives (λ u. u) result (only_at (map (λ n. n.now) names.now) (json v.now) (place_of way.now)) }
{
    only_of_two(alloc, v, names, &[], way)
}

/// The same where the names stand in two lists.
pub fn only_of_two(
    alloc: Global,
    v: &Value,
    these: &[&str],
    those: &[&str],
    way: &Way<'_>,
) -> Result<(), Bad>
    ensures { Gives (λ u. u) result (only_at (map (λ n. n.now) these.now ++ map (λ n. n.now) those.now)
        (json v.now) (place_of way.now)) }
{
    let Value::Object(members) = v else {
        return Err(Bad::at(alloc, Rule::G, way));
    };
    match first_wrong(members, these, those) {
        Some(key) => Err(Bad::at(alloc, Rule::G, &way.member(key))),
        None => Ok(()),
    }
}

/// Refuses the first of these members that is there, whatever its value: each is one of Firestore's that isn't built.
pub fn refuse_unbuilt(alloc: Global, v: &Value, names: &[&str], way: &Way<'_>) -> Result<(), Bad>
    ensures { Gives (λ u. u) result (unbuilt_at (map (λ n. n.now) names.now) (json v.now) (place_of way.now)) }
{
    match names {
        [] => Ok(()),
        [name, rest @ ..] => match member(alloc, v, name, way)? {
            Some(_) => Err(Bad::Method(Text::from_str(alloc, name)?)),
            None => refuse_unbuilt(alloc, v, rest, way),
        },
    }
}

/// Whether an object has a member under this very key, with a value that isn't null. What is no object has none.
///
/// It tells the form of an object whose other spellings and members are looked at only later: in `{"clock":1}` there is a
/// `clock`, in `{"clock":null}` there is none.
pub fn is_there(v: &Value, key: &str) -> bool
    ensures { result ≡ is_there key.now (json v.now) }
{
    match v.get(key) {
        Some(found) => !found.is_null(),
        None => false,
    }
}

/// Whether a member counts as there.
fn is_given(key: &str, v: &Value) -> bool
    ensures { result ≡ is_given key.now (json v.now) }
{
    match v {
        Value::Null => spells("nullValue", key),
        _ => true,
    }
}

/// The member under this very key, if it counts as there.
fn given_at<'a>(members: &'a Map<String, Value>, key: &str) -> Option<&'a Value>
    ensures { option_map (λ x. json x.now) result
        ≡ given_at key.now (members_view members.now.entries) }
{
    given(key, found_at(members, key))
}

// What stands under a key, if it counts as there.
fn given<'a>(key: &str, found: Option<&'a Value>) -> Option<&'a Value>
    ensures { option_map (λ x. json x.now) result
        ≡ option_and_then (λ d. if is_given key.now d then Some d else None) (option_map (λ x. json x.now) found.entry) }
{
    match found {
        Some(v) => if is_given(key, v) { Some(v) } else { None },
        None => None,
    }
}

fn found_at<'a>(members: &'a Map<String, Value>, key: &str) -> Option<&'a Value>
    ensures { option_map (λ x. json x.now) result
        ≡ get_member key.now (members_view members.now.entries) }
{
    members.get(key)
}

// The member under the name itself, and that under its second spelling with its key, each if it counts as there.
fn given_in<'a>(
    members: &'a Map<String, Value>,
    name: &str,
) -> (Option<&'a Value>, Option<(&'a str, &'a Value)>)
    ensures first { option_map (λ x. json x.now) result.0 ≡ given_at name.now (members_view members.now.entries) }
    ensures second { option_map (λ x. json x.1.now) result.1 ≡ second_given name.now (members_view members.now.entries) }
    ensures key { IfSome result.1 (λ x. x.0.now ≡ snake_of name.now) }
{
    let (first, second) = found_in(members, name);
    let second = match second {
        Some((key, v)) => if is_given(key, v) {
            Some((key, v))
        } else {
            None
        },
        None => None,
    };
    (given(name, first), second)
}

// Both, whether or not they count as there. Of `{"aB":2,"a_b":null}` they are those of `aB`, and of `{"a":1}` that of `a` alone.
fn found_in<'a>(
    members: &'a Map<String, Value>,
    name: &str,
) -> (Option<&'a Value>, Option<(&'a str, &'a Value)>)
    ensures first { option_map (λ x. json x.now) result.0 ≡ get_member name.now (members_view members.now.entries) }
    ensures second { option_map (λ x. json x.1.now) result.1 ≡ second_at name.now (members_view members.now.entries) }
    ensures key { IfSome result.1 (λ x. x.0.now ≡ snake_of name.now) }
{
    let mut first = None;
    let mut second = None;
    for (key, v) in members.iter() {
        if name == key.as_str() {
            first = first.or(Some(v));
        } else if is_second_spelling(name, key.as_str()) {
            second = second.or(Some((key.as_str(), v)));
        }
    }
    (first, second)
}

// The first key of no name, and else the first by which a member is given a second time.
fn first_wrong<'a>(
    members: &'a Map<String, Value>,
    these: &[&str],
    those: &[&str],
) -> Option<&'a str>
    ensures { option_map (λ key. key.now) result
        ≡ first_wrong (map (λ n. n.now) these.now ++ map (λ n. n.now) those.now) (members_view members.now.entries) }
{
    let mut may_be_twice = false;
    for (key, _) in members.iter() {
        if !is_known_of_two(these, those, key.as_str()) {
            return Some(key.as_str());
        }
        may_be_twice = may_be_twice || may_be_second(key.as_str());
    }
    if may_be_twice {
        first_twice(members, these, those)
    } else {
        None
    }
}

fn is_known_of_two(these: &[&str], those: &[&str], key: &str) -> bool
    ensures { result ≡ list_any (λ name. spells name key.now) (map (λ n. n.now) these.now ++ map (λ n. n.now) those.now) }
{
    is_known(these, key) || is_known(those, key)
}

fn is_known(names: &[&str], key: &str) -> bool
    ensures { result ≡ list_any (λ name. spells name key.now) (map (λ n. n.now) names.now) }
{
    for name in names {
        if spells(name, key) {
            return true;
        }
    }
    false
}

fn first_twice<'a>(
    members: &'a Map<String, Value>,
    these: &[&str],
    those: &[&str],
) -> Option<&'a str>
    ensures { let all = members_view members.now.entries in
        option_map (λ key. key.now) result ≡ first_twice (map (λ n. n.now) these.now ++ map (λ n. n.now) those.now) all all }
{
    for (key, v) in members.iter() {
        if is_given(key.as_str(), v) && is_second_of_two(members, these, those, key.as_str()) {
            return Some(key.as_str());
        }
    }
    None
}

fn is_second_of_two(members: &Map<String, Value>, these: &[&str], those: &[&str], key: &str) -> bool
    ensures { result ≡ is_second (map (λ n. n.now) these.now ++ map (λ n. n.now) those.now) (members_view members.now.entries) key.now }
{
    may_be_second(key) && (is_second(members, these, key) || is_second(members, those, key))
}

// Whether a key can be a name's second spelling: one without a `_`, as most are, is spelled as the name itself.
// (docs/DECISIONS.md, "A key without a `_` is never looked at as a second spelling".)
fn may_be_second(key: &str) -> bool
    ensures { OnFalse result ((names : List (List ℕ)) (all : Members) → is_second names all key.now ≡ false) }
{
    key.as_bytes().contains(&b'_')
}

fn is_second(members: &Map<String, Value>, names: &[&str], key: &str) -> bool
    ensures { result ≡ is_second (map (λ n. n.now) names.now) (members_view members.now.entries) key.now }
{
    for name in names {
        if is_snake(name.as_bytes(), key.as_bytes())
            && *name != key
            && given_at(members, name).is_some()
        {
            return true;
        }
    }
    false
}

// `None` where more than one is there.
fn chosen<'a, 'n>(
    members: &'a Map<String, Value>,
    names: &[&'n str],
) -> Option<Option<(&'n str, &'a Value)>>
    ensures { option_map {U = Option (List ℕ × Data)}
        (λ found. option_map (λ one. (one.0.now, json one.1.now)) found) result
        ≡ none_or_one (chosen (map (λ n. n.now) names.now) (members_view members.now.entries)) }
{
    let mut found = None;
    for (key, v) in members.iter() {
        if let Some(name) = chosen_by(names, key.as_str(), v) {
            if found.is_some() {
                return None;
            }
            found = Some((name, v));
        }
    }
    Some(found)
}

/// The name that the key spells, if the member counts as there.
fn chosen_by<'n>(names: &[&'n str], key: &str, v: &Value) -> Option<&'n str>
    ensures { option_map (λ name. name.now) result
        ≡ (if is_given key.now (json v.now) then first_spelled (map (λ n. n.now) names.now) key.now else None) }
{
    match first_spelled(names, key) {
        Some(name) => if is_given(key, v) { Some(name) } else { None },
        None => None,
    }
}

fn first_spelled<'n>(names: &[&'n str], key: &str) -> Option<&'n str>
    ensures { option_map (λ name. name.now) result
        ≡ first_spelled (map (λ n. n.now) names.now) key.now }
{
    for name in names {
        if spells(name, key) {
            return Some(*name);
        }
    }
    None
}
