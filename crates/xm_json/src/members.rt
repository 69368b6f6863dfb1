//! Members of an object: that they are there and have their form, and that there are no others.

ghost use Rattle.std.specs.BTreeMap.{keys};
ghost use Rattle.std.specs.List.{list_all, list_any};
ghost use Rattle.std.specs.Prelude.{◌≡◌, ◌≤◌, IfOk, map, string_bytes};
ghost use Rattle.std.specs.Str.{bytes_eq};
ghost use Rattle.serde_json.specs.Find.{get};
ghost use Rattle.serde_json.specs.View.{members_view, view};
ghost use Rattle.xm_model.specs.Steps.{demand};
ghost use Rattle.xm_json.specs.Gives.{Gives};
ghost use Rattle.xm_json.specs.Lent.{lent_texts};
ghost use Rattle.xm_json.specs.Members as spec;
ghost use Rattle.xm_json.specs.Path.{member_of};

use crate::fault::PathFault;
use crate::path::{member_path, member_text};
use crate::values::{list_at, texts_at};
use serde_json::{Map, Value};
use std::alloc::Global;
use xm_model::Text;

/// The member `key`, whose path is `path`.
pub fn required<'v>(
    alloc: Global,
    path: &str,
    key: &str,
    object: &'v Value,
) -> Result<&'v Value, PathFault>
    ensures { Gives (λ value. view value.now) result (demand (get key.now (view object.now)) path.now) }
{
    match object.get(key) {
        Some(value) => Ok(value),
        None => Err(PathFault::Broken(Text::from_bytes(alloc, path.as_bytes())?)),
    }
}

/// The member `key` of the object at `path`, a text.
#[tactic(auto, unfolding(crate::specs::Members::text_member))]
pub fn text_member<'v>(
    alloc: Global,
    path: &str,
    key: &str,
    object: &'v Value,
) -> Result<&'v str, PathFault>
    ensures { Gives (λ text. text.now) result (spec.text_member path.now key.now (view object.now)) }
{
    match object.get(key).and_then(Value::as_str) {
        Some(text) => Ok(text),
        None => Err(PathFault::Broken(member_text(alloc, path, key)?)),
    }
}

/// The member `key` of the object at `path`, a whole number.
#[tactic(auto, unfolding(crate::specs::Members::number_member))]
pub fn number_member(alloc: Global, path: &str, key: &str, object: &Value) -> Result<u64, PathFault>
    ensures { Gives (λ n. n) result (spec.number_member path.now key.now (view object.now)) }
{
    match object.get(key).and_then(Value::as_u64) {
        Some(number) => Ok(number),
        None => Err(PathFault::Broken(member_text(alloc, path, key)?)),
    }
}

/// The member `key` of the object at `path`, a whole number of at most `greatest`.
#[tactic(auto, unfolding(crate::specs::Members::small_number_member))]
pub fn small_number_member(
    alloc: Global,
    path: &str,
    key: &str,
    greatest: u64,
    object: &Value,
) -> Result<u64, PathFault>
    ensures number { Gives (λ n. n) result (spec.small_number_member greatest path.now key.now (view object.now)) }
    ensures within { IfOk result (λ n. n ≤ greatest) }
{
    match object.get(key).and_then(Value::as_u64) {
        Some(number) if number <= greatest => Ok(number),
        _ => Err(PathFault::Broken(member_text(alloc, path, key)?)),
    }
}

/// The member `key` of the object at `path`, a list.
#[tactic(auto, unfolding(crate::specs::Members::list_member))]
pub fn list_member<'v>(
    alloc: Global,
    path: &str,
    key: &str,
    object: &'v Value,
) -> Result<&'v [Value], PathFault>
    ensures { Gives (λ items. map view items.now) result (spec.list_member path.now key.now (view object.now)) }
{
    let path = member_path(alloc, path, key)?;
    let value = required(alloc, path.as_str(), key, object)?;
    list_at(alloc, path.as_str(), value)
}

/// The member `key` of the object at `path`, a list of texts.
#[tactic(auto, unfolding(crate::specs::Members::texts_member))]
pub fn texts_member<'v>(
    alloc: Global,
    path: &str,
    key: &str,
    object: &'v Value,
) -> Result<Vec<&'v str>, PathFault>
    ensures { Gives (λ texts. lent_texts texts.items) result (spec.texts_member path.now key.now (view object.now)) }
{
    let path = member_path(alloc, path, key)?;
    let value = required(alloc, path.as_str(), key, object)?;
    texts_at(alloc, path.as_str(), value)
}

fn is_among(names: &[&str], key: &str) -> bool
    ensures { result ≡ list_any (λ n. bytes_eq key.now n.now) names.now }
{
    names.iter().any(|name| key == *name)
}

fn keys_are_among(members: &Map<String, Value>, names: &[&str]) -> bool
    ensures { result ≡ list_all (λ k. list_any (λ n. bytes_eq (string_bytes k) n.now) names.now)
        (keys members.now) }
{
    members.keys().all(|key| is_among(names, key.as_str()))
}

fn has_only(names: &[&str], members: &Map<String, Value>) -> bool
    ensures { result ≡ spec.has_only (lent_texts names.now) (members_view members.now.entries) }
{
    keys_are_among(members, names)
}

/// The value at `path` is an object with no other members than these.
#[tactic(auto, unfolding(crate::specs::Members::only))]
pub fn only(alloc: Global, path: &str, names: &[&str], object: &Value) -> Result<(), PathFault>
    ensures { Gives (λ _. tt) result (spec.only path.now (lent_texts names.now) (view object.now)) }
{
    match object.as_object() {
        Some(members) if has_only(names, members) => Ok(()),
        _ => Err(PathFault::Broken(Text::from_bytes(alloc, path.as_bytes())?)),
    }
}
