//! Names and literals.

ghost use Rattle.std.specs.Prelude.{◌<◌, map};
ghost use Rattle.serde_json.specs.View.{view};
ghost use Rattle.xm_json.specs.Gives.{Gives};
ghost use Rattle.xm_json.specs.Members as members;
ghost use Rattle.xm_json.specs.Path.{member_of, place_of};
ghost use Rattle.xm_proof_reader.specs.Views.{known_of};
ghost use Rattle.xm_proof_reader.specs.Reading as spec;

use crate::found::{at_path, at_place};
use crate::known::{Known, channel_in, colour_in, queue_in};
use serde_json::Value;
use std::alloc::Global;
use xm_json::{PathFault, list_at, member_path, place_path, required, text_at};
use xm_lits::Lit;
use xm_model::Text;

/// The channel that the member `key` of the object at `path` names.
pub fn channel_member(
    alloc: Global,
    known: &Known<'_>,
    path: &str,
    key: &str,
    object: &Value,
) -> Result<u32, PathFault>
    ensures { Gives (λ c. c) result (members.required (spec.channel_at (known_of known.now))
        (member_of path.now key.now) key.now (view object.now)) }
{
    let path = member_path(alloc, path, key)?;
    let value = required(alloc, path.as_str(), key, object)?;
    at_path(alloc, path.as_str(), channel_in(known, value))
}

/// The colour that the member `key` of the object at `path` names.
pub fn colour_member(
    alloc: Global,
    known: &Known<'_>,
    path: &str,
    key: &str,
    object: &Value,
) -> Result<u8, PathFault>
    ensures { Gives (λ d. d) result (members.required (spec.colour_at (known_of known.now))
        (member_of path.now key.now) key.now (view object.now)) }
{
    let path = member_path(alloc, path, key)?;
    let value = required(alloc, path.as_str(), key, object)?;
    at_path(alloc, path.as_str(), colour_in(known, value))
}

/// A literal of two items: a word, and a channel or a queue.
#[tactic(auto, unfolding(crate::specs::Reading::short_literal))]
fn short_literal(
    alloc: Global,
    known: &Known<'_>,
    path: &str,
    first: &Value,
    second: &Value,
) -> Result<Lit, PathFault>
    ensures { Gives (λ l. l) result
        (spec.short_literal (known_of known.now) path.now (view first.now) (view second.now)) }
{
    match text_at(alloc, path, first)? {
        "Stuck" => Ok(Lit::Stuck(at_place(alloc, path, 1, channel_in(known, second))?)),
        "Full" => Ok(Lit::Full(at_place(alloc, path, 1, queue_in(known, second))?)),
        _ => Err(PathFault::Broken(Text::from_bytes(alloc, path.as_bytes())?)),
    }
}

/// A channel and a colour, which stand behind the word of a literal.
#[tactic(auto, unfolding(crate::specs::Reading::channel_and_colour))]
fn channel_and_colour(
    alloc: Global,
    known: &Known<'_>,
    path: &str,
    first: &Value,
    second: &Value,
) -> Result<(u32, u8), PathFault>
    ensures { Gives (λ pair. pair) result
        (spec.channel_and_colour (known_of known.now) path.now (view first.now) (view second.now)) }
{
    let c = at_place(alloc, path, 1, channel_in(known, first))?;
    let d = at_place(alloc, path, 2, colour_in(known, second))?;
    Ok((c, d))
}

/// A queue and a colour, from a place of the list at `path` on.
#[tactic(auto, unfolding(crate::specs::Reading::queue_and_colour))]
pub fn queue_and_colour(
    alloc: Global,
    known: &Known<'_>,
    path: &str,
    place: usize,
    first: &Value,
    second: &Value,
) -> Result<(u32, u8), PathFault>
    requires { place < 4 }
    ensures { Gives (λ pair. pair) result
        (spec.queue_and_colour (known_of known.now) path.now place (view first.now) (view second.now)) }
{
    let q = at_place(alloc, path, place, queue_in(known, first))?;
    let d = at_place(alloc, path, place + 1, colour_in(known, second))?;
    Ok((q, d))
}

/// A literal of three items: a word, a channel or a queue, and a colour.
#[tactic(auto, unfolding(crate::specs::Reading::long_literal))]
fn long_literal(
    alloc: Global,
    known: &Known<'_>,
    path: &str,
    first: &Value,
    second: &Value,
    third: &Value,
) -> Result<Lit, PathFault>
    ensures { Gives (λ l. l) result
        (spec.long_literal (known_of known.now) path.now (view first.now) (view second.now) (view third.now)) }
{
    match text_at(alloc, path, first)? {
        "Dead" => {
            let (c, d) = channel_and_colour(alloc, known, path, second, third)?;
            Ok(Lit::Dead(c, d))
        }
        "Idle" => {
            let (c, d) = channel_and_colour(alloc, known, path, second, third)?;
            Ok(Lit::Idle(c, d))
        }
        "Has" => {
            let (q, d) = queue_and_colour(alloc, known, path, 1, second, third)?;
            Ok(Lit::Has(q, d))
        }
        "Lacks" => {
            let (q, d) = queue_and_colour(alloc, known, path, 1, second, third)?;
            Ok(Lit::Lacks(q, d))
        }
        _ => Err(PathFault::Broken(Text::from_bytes(alloc, path.as_bytes())?)),
    }
}

fn literal_of_items(
    alloc: Global,
    known: &Known<'_>,
    path: &str,
    items: &[Value],
) -> Result<Lit, PathFault>
    ensures { Gives (λ l. l) result
        (spec.literal_of_items (known_of known.now) path.now (map view items.now)) }
{
    match items {
        [first, second] => short_literal(alloc, known, path, first, second),
        [first, second, third] => long_literal(alloc, known, path, first, second, third),
        _ => Err(PathFault::Broken(Text::from_bytes(alloc, path.as_bytes())?)),
    }
}

/// The literal at `path`.
#[tactic(auto, unfolding(crate::specs::Reading::literal_at))]
fn literal_at(alloc: Global, known: &Known<'_>, path: &str, value: &Value) -> Result<Lit, PathFault>
    ensures { Gives (λ l. l) result (spec.literal_at (known_of known.now) path.now (view value.now)) }
{
    let items = list_at(alloc, path, value)?;
    literal_of_items(alloc, known, path, items)
}

/// The literal at a place of the list at `path`.
pub fn literal_at_place(
    alloc: Global,
    known: &Known<'_>,
    path: &str,
    place: usize,
    value: &Value,
) -> Result<Lit, PathFault>
    ensures { Gives (λ l. l) result
        (spec.literal_at (known_of known.now) (place_of path.now place) (view value.now)) }
{
    let path = place_path(alloc, path, place)?;
    literal_at(alloc, known, path.as_str(), value)
}

/// The literal that is the member `key` of the object at `path`.
#[tactic(auto, unfolding(crate::specs::Reading::literal_member))]
pub fn literal_member(
    alloc: Global,
    known: &Known<'_>,
    path: &str,
    key: &str,
    object: &Value,
) -> Result<Lit, PathFault>
    ensures { Gives (λ l. l) result
        (spec.literal_member (known_of known.now) path.now key.now (view object.now)) }
{
    let path = member_path(alloc, path, key)?;
    let value = required(alloc, path.as_str(), key, object)?;
    literal_at(alloc, known, path.as_str(), value)
}
