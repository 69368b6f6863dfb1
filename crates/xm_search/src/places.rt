//! Where to look for a goal.

ghost use Rattle.std.specs.Prelude.{◌≡◌, ◌<◌, ◌≤◌, ℕ, IfOk, length, slice_index};
ghost use Rattle.xm_search.specs.Inner.Places.{AreEarliest, key_of};

use std::alloc::Global;
use xm_lits::Lit;
use xm_model::{List, OutOfMemory};

/// The number of a pair of a channel and a colour that is dead; 0 for another literal.
fn key(lit: &Lit) -> usize
    ensures { result ≡ key_of lit.now }
{
    match *lit {
        Lit::Dead(c, d) => 64 * c as usize + d as usize + 1,
        _ => 0,
    }
}

/// A place before which the literal is none of the goals.
pub fn earliest_of(earliest: &List<u32>, lit: &Lit) -> usize
    ensures { result ≡ slice_index earliest.now.items (key_of lit.now) }
{
    let k = key(lit);
    let earliest = earliest.as_slice();
    if k < earliest.len() {
        earliest[k] as usize
    } else {
        0
    }
}

/// Notes that the goal stands at this place.
fn note(earliest: &mut [u32], goal: &Lit, place: u32)
    ensures here { slice_index earliest.new (key_of goal.now) ≤ place }
    ensures no_later { (k : ℕ) → slice_index earliest.new k ≤ slice_index earliest.old k }
{
    let k = key(goal);
    if k >= earliest.len() || earliest[k] <= place {
        return;
    }
    earliest[k] = place;
}

/// Notes the place of each goal.
fn note_all(earliest: &mut [u32], goals: &[Lit])
    requires { length goals.now < 4294967296 }
    ensures { AreEarliest goals.now earliest.new }
{
    for k in 0..goals.len() {
        note(earliest, &goals[k], k as u32);
    }
}

/// For each pair of a channel and a colour a place before which no goal says that it is dead. Time and memory are linear
/// in the goals and the channels.
pub fn earliest_places(
    alloc: Global,
    goals: &[Lit],
    channels: u32,
) -> Result<List<u32>, OutOfMemory>
    requires { length goals.now < 4294967296 }
    ensures { IfOk result (λ earliest. AreEarliest goals.now earliest.items) }
{
    let keys = channels.saturating_mul(64).saturating_add(1);
    let mut earliest = List::filled(alloc, u32::MAX, keys)?;
    note_all(earliest.as_mut_slice(), goals);
    Ok(earliest)
}
