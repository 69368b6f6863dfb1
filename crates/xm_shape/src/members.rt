//! Names, lists of names and maps of colours, as values at a path and as members of an object.

ghost use Rattle.std.specs.Prelude.{◌≡◌, ◌++◌, IfOk, map, string_bytes};
ghost use Rattle.serde_json.specs.View.{members_view, view};
ghost use Rattle.xm_json.specs.Gives.{Gives};
ghost use Rattle.xm_json.specs.Lent.{lent_texts};
ghost use Rattle.xm_json.specs.Members as members;
ghost use Rattle.xm_json.specs.Path.{member_of};
ghost use Rattle.xm_json.specs.Values as values;
ghost use Rattle.xm_shape.specs.Views.{names_of, table_of};
ghost use Rattle.xm_shape.specs.Shape as spec;

use crate::named_net::MapEntry;
use serde_json::{Map, Value};
use std::alloc::Global;
use xm_json::{PathFault, member_path, member_text, text_member, texts_at, texts_member};
use xm_model::{OutOfMemory, Text};

/// The member `key` of the object at `path`, a name.
pub fn name_member(
    alloc: Global,
    path: &str,
    key: &str,
    object: &Value,
) -> Result<String, PathFault>
    ensures { Gives string_bytes result (members.text_member path.now key.now (view object.now)) }
{
    let text = text_member(alloc, path, key, object)?;
    Ok(String::from_str(alloc, text)?)
}

fn names_from(alloc: Global, texts: &[&str]) -> Result<Vec<String>, OutOfMemory>
    ensures { IfOk result (λ names. names_of names.items ≡ lent_texts texts.now) }
{
    let mut names = Vec::with_capacity(alloc, texts.len())?;
    for text in texts {
        names.push(String::from_str(alloc, text)?)?;
    }
    Ok(names)
}

/// The value at `path`, a list of names.
pub fn names_at(alloc: Global, path: &str, value: &Value) -> Result<Vec<String>, PathFault>
    ensures { Gives (λ names. names_of names.items) result (values.texts_at path.now (view value.now)) }
{
    let texts = texts_at(alloc, path, value)?;
    Ok(names_from(alloc, &texts)?)
}

/// The member `key` of the object at `path`, a list of names.
pub fn names_member(
    alloc: Global,
    path: &str,
    key: &str,
    object: &Value,
) -> Result<Vec<String>, PathFault>
    ensures { Gives (λ names. names_of names.items) result (members.texts_member path.now key.now (view object.now)) }
{
    let texts = texts_member(alloc, path, key, object)?;
    Ok(names_from(alloc, &texts)?)
}

fn map_entry_at(alloc: Global, path: &str, key: &str, value: &Value) -> Result<MapEntry, PathFault>
    ensures image { Gives (λ image. string_bytes image.image) result
        (values.text_at (member_of path.now key.now) (view value.now)) }
    ensures colour { IfOk result (λ image. string_bytes image.colour ≡ key.now) }
{
    match value.as_str() {
        Some(text) => Ok(MapEntry {
            colour: String::from_str(alloc, key)?,
            image: String::from_str(alloc, text)?,
        }),
        None => Err(PathFault::Broken(member_text(alloc, path, key)?)),
    }
}

fn map_entries_of(
    alloc: Global,
    path: &str,
    members: &Map<String, Value>,
) -> Result<Vec<MapEntry>, PathFault>
    ensures { Gives (λ images. table_of images.items) result
        (spec.map_entries_in path.now (members_view members.now.entries)) }
{
    let mut images = Vec::new(alloc);
    for (key, value) in members.iter() {
        let image = map_entry_at(alloc, path, key.as_str(), value)?;
        images.push(image)?;
    }
    Ok(images)
}

/// The value at `path`, a map of colours.
#[tactic(auto, unfolding(crate::specs::Shape::table_at))]
fn table_at(alloc: Global, path: &str, value: &Value) -> Result<Vec<MapEntry>, PathFault>
    ensures { Gives (λ images. table_of images.items) result (spec.table_at path.now (view value.now)) }
{
    match value.as_object() {
        Some(members) => map_entries_of(alloc, path, members),
        None => Err(PathFault::Broken(Text::from_bytes(alloc, path.as_bytes())?)),
    }
}

/// The member `key` of the object at `path`, a map of colours, which is empty where it is missing.
#[tactic(auto, unfolding(crate::specs::Shape::table_member))]
pub fn table_member(
    alloc: Global,
    path: &str,
    key: &str,
    object: &Value,
) -> Result<Vec<MapEntry>, PathFault>
    ensures { Gives (λ images. table_of images.items) result
        (spec.table_member path.now key.now (view object.now)) }
{
    let Some(value) = object.get(key) else {
        return Ok(Vec::new(alloc));
    };
    let place = member_path(alloc, path, key)?;
    table_at(alloc, place.as_str(), value)
}
