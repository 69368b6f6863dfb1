//! Numbers that are written as decimal texts.

ghost use Rattle.std.specs.Prelude.{◌≡◌, ◌&&◌, IfOk, IfSome, Some, None, if◌then◌else◌, option_and_then};
ghost use Rattle.std.specs.Fmt.{signed_decimal};
ghost use Rattle.std.specs.Str.{bytes_eq};
ghost use Rattle.xm_proof.specs.Sums.{fits128};
ghost use Rattle.serde_json.specs.Find.{as_str};
ghost use Rattle.serde_json.specs.View.{view};
ghost use Rattle.xm_json.specs.Gives.{Gives};
ghost use Rattle.xm_json.specs.Path.{place_of};
ghost use Rattle.xm_json.specs.Values.{small_number_at};
ghost use Rattle.xm_proof_reader.specs.Numbers as spec;
ghost use Rattle.xm_proof_reader.specs.Reading as reading;
ghost use Rattle.xm_rows.specs.Row.{Fits128};

use itoa::Buffer;
use serde_json::Value;
use std::alloc::Global;
use xm_json::{PathFault, member_text, place_text};

/// Numbers of this absolute value leave 128 bits.
const TOO_GREAT: u128 = 1 << 127;

/// The number, where its absolute value is at most 2^127 - 1 and the text is how it is written.
fn number_written(number: &i128, text: &str) -> Option<i128>
    ensures { result ≡ (if fits128 number.now && bytes_eq (signed_decimal number.now) text.now
        then Some number.now else None) }
{
    if number.unsigned_abs() >= TOO_GREAT {
        return None;
    }
    let mut buffer = Buffer::new();
    if buffer.format(*number) == text {
        Some(*number)
    } else {
        None
    }
}

/// The number that the text is.
fn number_of(text: &str) -> Option<i128>
    ensures exact { result ≡ spec.number_of text.now }
    ensures fits { IfSome result Fits128 }
{
    let Ok(number) = text.parse::<i128>() else {
        return None;
    };
    number_written(&number, text)
}

/// The number that the value is.
pub fn number_in(value: &Value) -> Option<i128>
    ensures { result ≡ option_and_then spec.number_of (as_str (view value.now)) }
{
    match value.as_str() {
        Some(text) => number_of(text),
        None => None,
    }
}

/// The member `key` of the object at `path`, a number.
#[tactic(auto, unfolding(crate::specs::Reading::number_member))]
pub fn number_member(
    alloc: Global,
    path: &str,
    key: &str,
    object: &Value,
) -> Result<i128, PathFault>
    ensures exact { Gives (λ n. n) result (reading.number_member path.now key.now (view object.now)) }
    ensures fits { IfOk result Fits128 }
{
    match object.get(key).and_then(Value::as_str) {
        Some(text) => match number_of(text) {
            Some(number) => Ok(number),
            None => Err(PathFault::Broken(member_text(alloc, path, key)?)),
        },
        None => Err(PathFault::Broken(member_text(alloc, path, key)?)),
    }
}

/// The place of a list that stands at a place of the list at `path`: a whole number below 2^32.
pub fn place_at_place(
    alloc: Global,
    path: &str,
    place: usize,
    value: &Value,
) -> Result<u32, PathFault>
    ensures { Gives (λ n. n) result
        (small_number_at reading.most_places (place_of path.now place) (view value.now)) }
{
    match value.as_u64() {
        Some(number) if number <= u64::from(u32::MAX) => Ok(number as u32),
        _ => Err(PathFault::Broken(place_text(alloc, path, place)?)),
    }
}
