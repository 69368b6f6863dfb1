//! Draws that are passed over at once.

ghost use Rattle.std.specs.Prelude.{◌≡◌, ℕ, ◌+◌, ◌<◌, ◌^◌, IfOk, IsTrue, Some, slice_get, true};
ghost use Rattle.xm_tape.specs.Draws.{number_after};
ghost use Rattle.xm_tape.specs.Inner.Leaps.{AreStops, IsLeap};

use crate::draws::{INCREMENT, MULTIPLIER};
use std::alloc::Global;
use xm_model::{List, OutOfMemory};

/// So many draws at once: the number after them is the one before times `multiplier` plus `increment`, of 64 bits
/// (Knuth, The Art of Computer Programming, volume 2, 3.2.1).
#[derive(Clone, Copy)]
pub struct Leap {
    pub multiplier: u64,
    pub increment: u64,
}

/// A place of a row, and the draws from behind the stop before, or from the row's beginning, to behind this place.
#[derive(Clone, Copy)]
pub struct Stop {
    pub place: u32,
    pub leap: Leap,
}

/// The stops of a row, and the draws from behind the last to the row's end.
#[derive(Drop)]
pub struct Stops {
    pub stops: List<Stop>,
    pub rest: Leap,
}

/// No draw.
fn no_draw() -> Leap
    ensures { IsLeap 0 result }
{
    Leap {
        multiplier: 1,
        increment: 0,
    }
}

/// One draw more.
fn one_more(leap: Leap) -> Leap
    ensures { (n : ℕ) → IsLeap n leap → IsLeap (n + 1) result }
{
    Leap {
        multiplier: leap.multiplier.wrapping_mul(MULTIPLIER),
        increment: leap
            .increment
            .wrapping_mul(MULTIPLIER)
            .wrapping_add(INCREMENT),
    }
}

/// The number after the leap.
#[inline(always)]
pub fn after(leap: Leap, number: u64) -> u64
    ensures after { (n : ℕ) → IsLeap n leap → result ≡ number_after n number }
    ensures small { result < 2 ^ 64 }
{
    number
        .wrapping_mul(leap.multiplier)
        .wrapping_add(leap.increment)
}

/// Whether a place is wanted.
fn is_wanted(own: &[bool], place: u32) -> bool
    ensures yes { IsTrue result → slice_get own.now place ≡ Some true }
    ensures no { slice_get own.now place ≡ Some true → IsTrue result }
{
    match own.get(place as usize) {
        Some(wanted) => *wanted,
        None => false,
    }
}

/// The stops at the places that are wanted, in a row of so many.
pub fn stops_of(alloc: Global, own: &[bool], width: u32) -> Result<Stops, OutOfMemory>
    ensures { IfOk result (λ it. AreStops own.now width it.stops.items it.rest) }
{
    let mut stops = List::new(alloc);
    let mut rest = no_draw();
    for place in 0..width {
        rest = one_more(rest);
        if is_wanted(own, place) {
            stops.push(Stop { place, leap: rest })?;
            rest = no_draw();
        }
    }
    Ok(Stops { stops, rest })
}
