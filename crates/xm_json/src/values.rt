//! The value at a path: a text, a whole number, a list, a list of texts.

ghost use Rattle.std.specs.Prelude.{◌≡◌, ◌≤◌, IfOk, length, map};
ghost use Rattle.serde_json.specs.View.{view};
ghost use Rattle.xm_json.specs.Gives.{Gives};
ghost use Rattle.xm_json.specs.Lent.{lent_texts};
ghost use Rattle.xm_json.specs.Path.{place_of};
ghost use Rattle.xm_json.specs.Values as spec;

use crate::fault::PathFault;
use crate::path::place_text;
use serde_json::Value;
use std::alloc::Global;
use xm_model::Text;

/// The value at `path`, a text.
pub fn text_at<'v>(alloc: Global, path: &str, value: &'v Value) -> Result<&'v str, PathFault>
    ensures { Gives (λ text. text.now) result (spec.text_at path.now (view value.now)) }
{
    match value.as_str() {
        Some(text) => Ok(text),
        None => Err(PathFault::Broken(Text::from_bytes(alloc, path.as_bytes())?)),
    }
}

/// The value at `path`, a whole number.
pub fn number_at(alloc: Global, path: &str, value: &Value) -> Result<u64, PathFault>
    ensures { Gives (λ n. n) result (spec.number_at path.now (view value.now)) }
{
    match value.as_u64() {
        Some(number) => Ok(number),
        None => Err(PathFault::Broken(Text::from_bytes(alloc, path.as_bytes())?)),
    }
}

/// The value at `path`, a whole number of at most `greatest`.
pub fn small_number_at(
    alloc: Global,
    path: &str,
    greatest: u64,
    value: &Value,
) -> Result<u64, PathFault>
    ensures number { Gives (λ n. n) result (spec.small_number_at greatest path.now (view value.now)) }
    ensures within { IfOk result (λ n. n ≤ greatest) }
{
    match value.as_u64() {
        Some(number) if number <= greatest => Ok(number),
        _ => Err(PathFault::Broken(Text::from_bytes(alloc, path.as_bytes())?)),
    }
}

/// The value at `path`, a list.
#[tactic(auto, using(crate::proofs::Items::listed))]
pub fn list_at<'v>(alloc: Global, path: &str, value: &'v Value) -> Result<&'v [Value], PathFault>
    ensures { Gives (λ items. map view items.now) result (spec.list_at path.now (view value.now)) }
{
    match value.as_array() {
        Some(items) => Ok(items.as_slice()),
        None => Err(PathFault::Broken(Text::from_bytes(alloc, path.as_bytes())?)),
    }
}

fn text_at_place<'v>(
    alloc: Global,
    path: &str,
    place: usize,
    value: &'v Value,
) -> Result<&'v str, PathFault>
    ensures { Gives (λ text. text.now) result (spec.text_at (place_of path.now place) (view value.now)) }
{
    match value.as_str() {
        Some(text) => Ok(text),
        None => Err(PathFault::Broken(place_text(alloc, path, place)?)),
    }
}

/// The items of the list at `path`, which are texts.
#[tactic(auto, unfolding(crate::specs::Values::texts_in))]
pub fn texts_in<'v>(
    alloc: Global,
    path: &str,
    items: &'v [Value],
) -> Result<Vec<&'v str>, PathFault>
    ensures exact { Gives (λ texts. lent_texts texts.items) result (spec.texts_in path.now (map view items.now)) }
    ensures whole { IfOk result (λ texts. length (lent_texts texts.items) ≡ length items.now) }
{
    let mut texts = Vec::with_capacity(alloc, items.len())?;
    for (place, item) in items.iter().enumerate() {
        let text = text_at_place(alloc, path, place, item)?;
        texts.push(text)?;
    }
    Ok(texts)
}

/// The value at `path`, a list of texts.
#[tactic(auto, unfolding(crate::specs::Values::texts_at))]
pub fn texts_at<'v>(alloc: Global, path: &str, value: &'v Value) -> Result<Vec<&'v str>, PathFault>
    ensures { Gives (λ texts. lent_texts texts.items) result (spec.texts_at path.now (view value.now)) }
{
    let items = list_at(alloc, path, value)?;
    texts_in(alloc, path, items)
}
