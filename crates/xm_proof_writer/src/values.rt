//! Texts, numbers, lists and objects as values of JSON.

ghost use Rattle.std.specs.Prelude.{◌≡◌, IfOk, map};
ghost use Rattle.serde_json.specs.Data.{member, no_members, object, string};
ghost use Rattle.serde_json.specs.View.{members_view, view};
ghost use Rattle.xm_proof_writer.specs.Writing as spec;

use itoa::Buffer;
use serde_json::{Map, Value};
use std::alloc::Global;
use xm_model::OutOfMemory;
use xm_writer::put;

pub fn text_value(alloc: Global, text: &str) -> Result<Value, OutOfMemory>
    ensures { IfOk result (λ v. view v ≡ string text.now) }
{
    Ok(Value::String(String::from_str(alloc, text)?))
}

/// The number as a decimal text.
pub fn number_value(alloc: Global, number: &i128) -> Result<Value, OutOfMemory>
    ensures { IfOk result (λ v. view v ≡ spec.number_data number.now) }
{
    let mut buffer = Buffer::new();
    text_value(alloc, buffer.format(*number))
}

/// A place of a list, or a count.
pub fn place_value(place: u32) -> Value
    ensures { view result ≡ spec.place_data place }
{
    Value::from(u64::from(place))
}

pub fn list_value(values: Vec<Value>) -> Value
    ensures { view result ≡ spec.list_data (map view values.items) }
{
    Value::Array(values)
}

pub fn object_value(members: Map<String, Value>) -> Value
    ensures { view result ≡ object (members_view members.entries) }
{
    Value::Object(members)
}

/// The object with one member.
pub fn member_value(alloc: Global, key: &str, value: Value) -> Result<Value, OutOfMemory>
    ensures { IfOk result (λ v. view v ≡ object (member key.now (view value) no_members)) }
{
    let mut members = Map::new(alloc);
    put(alloc, &mut members, key, value)?;
    Ok(object_value(members))
}
