//! Items of sums.

ghost use Rattle.std.specs.Prelude.{◌≡◌, map};
ghost use Rattle.serde_json.specs.View.{view};
ghost use Rattle.xm_json.specs.Gives.{Gives};
ghost use Rattle.xm_json.specs.Path.{place_of};
ghost use Rattle.xm_proof_reader.specs.Views.{known_of};
ghost use Rattle.xm_proof_reader.specs.Reading as spec;

use crate::found::at_place;
use crate::known::{Known, queue_in};
use crate::literals::{literal_at_place, queue_and_colour};
use crate::numbers::{number_in, place_at_place};
use serde_json::Value;
use std::alloc::Global;
use xm_json::{PathFault, list_at, text_at};
use xm_model::Text;
use xm_proof::Item;

/// An item of three: a word, a lemma's place, a queue or a literal, and a number.
#[tactic(auto, unfolding(crate::specs::Reading::short_item))]
fn short_item(
    alloc: Global,
    known: &Known<'_>,
    path: &str,
    first: &Value,
    second: &Value,
    third: &Value,
) -> Result<Item, PathFault>
    ensures { Gives (λ i. i) result
        (spec.short_item (known_of known.now) path.now (view first.now) (view second.now) (view third.now)) }
{
    match text_at(alloc, path, first)? {
        "lemma" => {
            let place = place_at_place(alloc, path, 1, second)?;
            let number = at_place(alloc, path, 2, number_in(third))?;
            Ok(Item::Lemma(place, number))
        }
        "cap" => {
            let q = at_place(alloc, path, 1, queue_in(known, second))?;
            let number = at_place(alloc, path, 2, number_in(third))?;
            Ok(Item::Cap(q, number))
        }
        "path" => {
            let lit = literal_at_place(alloc, known, path, 1, second)?;
            let number = at_place(alloc, path, 2, number_in(third))?;
            Ok(Item::Path(lit, number))
        }
        _ => Err(PathFault::Broken(Text::from_bytes(alloc, path.as_bytes())?)),
    }
}

/// An item of four: a word, a queue, a colour and a number.
#[tactic(auto, unfolding(crate::specs::Reading::long_item))]
fn long_item(
    alloc: Global,
    known: &Known<'_>,
    path: &str,
    first: &Value,
    second: &Value,
    third: &Value,
    fourth: &Value,
) -> Result<Item, PathFault>
    ensures { Gives (λ i. i) result
        (spec.long_item (known_of known.now) path.now (view first.now) (view second.now) (view third.now)
        (view fourth.now)) }
{
    match text_at(alloc, path, first)? {
        "low" => {
            let (q, d) = queue_and_colour(alloc, known, path, 1, second, third)?;
            let number = at_place(alloc, path, 3, number_in(fourth))?;
            Ok(Item::Low(q, d, number))
        }
        _ => Err(PathFault::Broken(Text::from_bytes(alloc, path.as_bytes())?)),
    }
}

fn item_of_items(
    alloc: Global,
    known: &Known<'_>,
    path: &str,
    items: &[Value],
) -> Result<Item, PathFault>
    ensures { Gives (λ i. i) result (spec.item_of_items (known_of known.now) path.now (map view items.now)) }
{
    match items {
        [first, second, third] => short_item(alloc, known, path, first, second, third),
        [first, second, third, fourth] => long_item(
            alloc, known, path, first, second, third, fourth,
        ),
        _ => Err(PathFault::Broken(Text::from_bytes(alloc, path.as_bytes())?)),
    }
}

/// The item at `path`.
#[tactic(auto, unfolding(crate::specs::Reading::item_at))]
pub fn item_at(
    alloc: Global,
    known: &Known<'_>,
    path: &str,
    value: &Value,
) -> Result<Item, PathFault>
    ensures { Gives (λ i. i) result (spec.item_at (known_of known.now) path.now (view value.now)) }
{
    let items = list_at(alloc, path, value)?;
    item_of_items(alloc, known, path, items)
}
