//! Numbers within a value.

ghost use Rattle.std.specs.Prelude.{◌≡◌};
ghost use Rattle.serde_json.specs.View.{items_view, members_view, view};
ghost use Rattle.xm_json.specs.WholeNumbers as spec;

use serde_json::{Map, Value};

/// Whether each number in the value is whole, with or without a sign, and of 64 bits.
#[cycle(whole)]
pub fn has_whole(value: &Value) -> bool
    ensures { result ≡ spec.has_whole (view value.now) }
{
    match value {
        Value::Number(number) => number.is_u64() || number.is_i64(),
        Value::Array(items) => items_have_whole(items),
        Value::Object(members) => members_have_whole(members),
        _ => true,
    }
}

#[cycle(whole)]
fn items_have_whole(items: &Vec<Value>) -> bool
    ensures { result ≡ spec.items_have_whole (items_view items.now.items) }
{
    for item in items {
        if !has_whole(item) {
            return false;
        }
    }
    true
}

#[cycle(whole)]
fn members_have_whole(members: &Map<String, Value>) -> bool
    ensures { result ≡ spec.members_have_whole (members_view members.now.entries) }
{
    for (_key, value) in members.iter() {
        if !has_whole(value) {
            return false;
        }
    }
    true
}
