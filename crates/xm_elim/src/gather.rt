//! The lemmas of all pivots.

ghost use Rattle.std.specs.Prelude.{◌≡◌, ◌≢◌, ◌↔◌, ◌<◌, ◌+◌, ◌^◌, ◌≤◌, ℕ, pos, All, IsTrue, IfNone, IfOk, IfSome, OnOk, Some, length, map, slice_get};
ghost use Rattle.xm_elim.specs.Inner.Columns.{Covers};
ghost use Rattle.xm_rows.specs.Columns.{columns_of};
ghost use Rattle.xm_elim.specs.Inner.Places as spec;
ghost use Rattle.xm_elim.specs.Inner.Places.{AreGathered, Leads};
ghost use Rattle.xm_flow.specs.Slots.{AreBelow};
ghost use Rattle.xm_elim.specs.Basis.{AreOver};
ghost use Rattle.xm_elim.specs.Elimination.{IsParted};
ghost use Rattle.xm_elim.specs.declared.work.Status.TheVariants as status;
ghost use Rattle.xm_elim.specs.declared.work.Working.{Working};
ghost use Rattle.xm_flow.specs.ValidLemma.{TestFits, lemma_of};
ghost use Rattle.xm_model.specs.Membership.{IsIn};
ghost use Rattle.xm_rows.specs.Row.{coefficient};

use crate::part::part;
use crate::work::{Status, Working};
use std::alloc::Global;
use xm_flow::{Invariant, Slot, test_fits, test_slots};
use xm_model::{List, OutOfMemory};
use xm_rows::Row;

fn is_pivot_of(it: Status, column: u32) -> bool
    ensures { IsTrue result ↔ (it ≡ status.Pivot column) }
{
    match it {
        Status::Pivot(c) => c == column,
        Status::Waiting | Status::Gone => false,
    }
}

/// The row that was the pivot of a column of packets, if there is one, by the places that are noted for it.
fn pivot_at(rows: &[Working], noted: &[u32], column: u32) -> Option<u32>
    requires within { All (λ p. p < length rows.now) noted.now }
    requires covers { (i : ℕ) (w : Working) → slice_get rows.now i ≡ Some w → w.status ≡ status.Pivot column →
        IsIn noted.now i }
    ensures none { IfNone result ((i : ℕ) (w : Working) → slice_get rows.now i ≡ Some w →
        w.status ≢ status.Pivot column) }
    ensures some { IfSome result (λ i. (w : Working) × ((slice_get rows.now i ≡ Some w)
        × (w.status ≡ status.Pivot column))) }
    ensures within { IfSome result (λ i. i < length rows.now) }
{
    for p in noted {
        if is_pivot_of(rows[*p as usize].status, column) {
            return Some(*p);
        }
    }
    None
}

/// The lemmas of the pivots, and the place of the pivot of the first whose test leaves 128 bits.
#[derive(Drop)]
pub struct Gathered {
    pub lemmas: List<Invariant>,
    pub failed: Option<u32>,
}

/// The first place that fails, after one test more.
fn first_failed(failed: Option<u32>, fits: bool, place: u32) -> Option<u32>
    ensures { result ≡ spec.first_failed failed fits place }
{
    match failed {
        Some(p) => Some(p),
        None => { if fits { None } else { Some(place) } }
    }
}

/// The lemma of a pivot, and whether its test stays within 128 bits. It is lemma number `n`.
fn tested_lemma(
    alloc: Global,
    flow: &[Row],
    row: &Row,
    slots: &mut [Slot],
    moves: u32,
    counts: u32,
    column: u32,
    n: u32,
) -> Result<(Invariant, bool), OutOfMemory>
    requires narrow { moves + counts < 2 ^ 20 }
    requires over { AreOver (moves + counts) flow.now }
    requires whole { length slots.old ≡ moves + counts }
    requires below { AreBelow n slots.old }
    requires leads { Leads moves (moves + counts) column row.now }
    requires bounded { (k : ℕ) → moves + counts + length flow.now ≤ k → coefficient row.now.entries k ≡ pos 0 }
    ensures parted { IfOk result (λ it. IsParted moves counts row.now (lemma_of it.0)) }
    ensures fits { IfOk result (λ it. IsTrue it.1 ↔ TestFits flow.now (lemma_of it.0)) }
    ensures below { OnOk result (AreBelow (n + 1) slots.new) }
{
    let _row = row.entries();
    let lemma = part(alloc, row, moves, counts, column)?;
    let fits = test_fits(slots, n, flow, &lemma);
    Ok((lemma, fits))
}

/// The lemmas of the pivots, in the order of their columns, and which fails its test first.
pub fn gather(
    alloc: Global,
    flow: &[Row],
    rows: &[Working],
    columns: &[List<u32>],
    moves: u32,
    counts: u32,
) -> Result<Gathered, OutOfMemory>
    requires narrow { moves + counts < 2 ^ 20 }
    requires over { AreOver (moves + counts) flow.now }
    requires whole { length columns.now ≡ moves + counts }
    requires covers { Covers rows.now (columns_of columns.now) }
    requires leads { (j : ℕ) (w : Working) (k : ℕ) → slice_get rows.now j ≡ Some w → w.status ≡ status.Pivot k
        → Leads moves (moves + counts) k w.row }
    requires bounded { (j : ℕ) (w : Working) (k : ℕ) → slice_get rows.now j ≡ Some w
        → moves + counts + length flow.now ≤ k → coefficient w.row.entries k ≡ pos 0 }
    ensures { IfOk result (λ it.
        AreGathered moves counts flow.now rows.now counts (map lemma_of it.lemmas.items) it.failed) }
{
    let mut lemmas = List::new(alloc);
    let mut failed = None;
    let mut held = test_slots(alloc, moves + counts)?;
    let slots = held.as_mut_slice();
    for n in 0..counts {
        let column = moves + n;
        if let Some(i) = pivot_at(rows, columns[column as usize].as_slice(), column) {
            let row = &rows[i as usize].row;
            let (lemma, fits) = tested_lemma(
                alloc,
                flow,
                row,
                slots,
                moves,
                counts,
                column,
                n + 1,
            )?;
            failed = first_failed(failed, fits, i);
            lemmas.push(lemma)?;
        }
    }
    Ok(Gathered { lemmas, failed })
}
