//! The rows of a column, and which of them is the pivot.

ghost use Rattle.std.specs.Prelude.{◌≡◌, ◌<◌, ◌^◌, ℕ, ◌∷◌, [], ◌++◌, length, slice_get, All, List as Items, IfNone, IfSome, OnOk};
ghost use Rattle.xm_elim.specs.Elimination.{IsCandidate, IsPivot, IsTaken};
ghost use Rattle.xm_elim.specs.Inner.Columns.{AreTakenOf};
ghost use Rattle.xm_model.specs.Membership.{IsIn};
ghost use Rattle.xm_elim.specs.Inner.Places.{ArePlaces, IsBest, IsPlace};
ghost use Rattle.xm_elim.specs.declared.work.Working.{Working};

use crate::rising::in_order;
use crate::work::{Working, is_candidate, is_taken};
use std::alloc::Global;
use xm_model::{List, OutOfMemory};

/// Puts into the list the places among the given ones of rows that work and have an entry in the column. It looks no
/// further into each row than to the column.
fn taken_of(
    rows: &[Working],
    given: &[u32],
    column: u32,
    places: &mut List<u32>,
) -> Result<(), OutOfMemory>
    requires { All (λ p. p < length rows.now) given.now }
    ensures { OnOk result (AreTakenOf rows.now column given.now places.new.items) }
{
    places.truncate(0);
    for p in given {
        if is_taken(&rows[*p as usize], column) {
            places.push(*p)?;
        }
    }
    Ok(())
}

/// Puts into the list the places of the rows that work and have an entry in the column, rising, by those that are
/// noted for it.
pub fn places_at(
    alloc: Global,
    rows: &[Working],
    noted: &[u32],
    column: u32,
    places: &mut List<u32>,
) -> Result<(), OutOfMemory>
    requires few { length rows.now < 2 ^ 20 }
    requires within { All (λ p. p < length rows.now) noted.now }
    requires covers { (j : ℕ) (w : Working) → slice_get rows.now j ≡ Some w → IsTaken column w → IsIn noted.now j }
    ensures { OnOk result (ArePlaces rows.now column places.new.items) }
{
    taken_of(rows, noted, column, places)?;
    in_order(alloc, places)?;
    Ok(())
}

/// How many entries the row has.
fn size(it: &Working) -> usize
    ensures { result ≡ length it.now.row.entries }
{
    it.row.entries().len()
}

/// The better of the best place so far and the next one.
fn better(rows: &[Working], best: Option<u32>, p: u32, column: u32) -> Option<u32>
    requires within { p < length rows.now }
    requires place { IsPlace (length rows.now) best }
    ensures best { (places : Items ℕ) → IsBest rows.now column places best → All (λ j. j < p) places →
        IsBest rows.now column (places ++ p ∷ []) result }
    ensures place { IsPlace (length rows.now) result }
{
    let next = &rows[p as usize];
    if !is_candidate(next, column) {
        return best;
    }
    let Some(b) = best else {
        return Some(p);
    };
    let fewest = size(&rows[b as usize]);
    if fewest <= size(next) {
        return best;
    }
    Some(p)
}

/// The candidate with the fewest entries, and among equals the first, where there is one.
pub fn pivot_of(rows: &[Working], places: &[u32], column: u32) -> Option<u32>
    requires { ArePlaces rows.now column places.now }
    ensures none { IfNone result ((j : ℕ) (v : Working) → slice_get rows.now j ≡ Some v → IsCandidate column v → ⊥) }
    ensures some { IfSome result (λ i. (w : Working) × IsPivot rows.now column i w) }
{
    let mut best: Option<u32> = None;
    for p in places {
        best = better(rows, best, *p, column);
    }
    best
}
