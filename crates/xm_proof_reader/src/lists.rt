//! Lists of fewer than 2^32 items, and the break of a form at a path.

ghost use Rattle.std.specs.Prelude.{◌≡◌, ◌<◌, ◌^◌, IfOk, length, map};
ghost use Rattle.serde_json.specs.View.{view};
ghost use Rattle.xm_json.specs.Gives.{Gives};
ghost use Rattle.xm_proof_reader.specs.Reading as spec;

use serde_json::Value;
use std::alloc::Global;
use xm_json::{PathFault, list_at, member_path, required};
use xm_model::Text;

/// A list has fewer items.
const ITEM_LIMIT: usize = 1 << 32;

/// The value at `path`, a list of fewer than 2^32 items.
#[tactic(auto, unfolding(crate::specs::Reading::items_at))]
fn items_at<'v>(alloc: Global, path: &str, value: &'v Value) -> Result<&'v [Value], PathFault>
    ensures exact { Gives (λ items. map view items.now) result (spec.items_at path.now (view value.now)) }
    ensures short { IfOk result (λ items. length items.now < 2 ^ 32) }
{
    let items = list_at(alloc, path, value)?;
    if items.len() >= ITEM_LIMIT {
        return Err(PathFault::Broken(Text::from_bytes(alloc, path.as_bytes())?));
    }
    Ok(items)
}

/// The member `key` of the object at `path`, such a list.
#[tactic(auto, unfolding(crate::specs::Reading::items_member))]
pub fn items_member<'v>(
    alloc: Global,
    path: &str,
    key: &str,
    object: &'v Value,
) -> Result<&'v [Value], PathFault>
    ensures exact { Gives (λ items. map view items.now) result
        (spec.items_member path.now key.now (view object.now)) }
    ensures short { IfOk result (λ items. length items.now < 2 ^ 32) }
{
    let path = member_path(alloc, path, key)?;
    let value = required(alloc, path.as_str(), key, object)?;
    items_at(alloc, path.as_str(), value)
}
