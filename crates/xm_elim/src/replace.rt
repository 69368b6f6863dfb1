//! The rows of a column replaced by their cancellations with the pivot.

ghost use Rattle.std.specs.Prelude.{◌≡◌, ◌≢◌, ◌<◌, ℕ, length, pos, slice_get, Some, IfErr, IfOk, OnOk};
ghost use Rattle.xm_elim.specs.Elimination.{IsPivot, OnOverflow};
ghost use Rattle.xm_elim.specs.Inner.Places.{ArePlaces, AreReplaced, IsCancelRefused, IsOneReplaced, IsRefused, IsReplacement, RefusedFirst};
ghost use Rattle.xm_elim.specs.declared.work.Working.{Working};
ghost use Rattle.xm_rows.specs.Combination.{IsCancelled};
ghost use Rattle.xm_rows.specs.Row.{IsRow, coefficient};

use crate::fault::ElimFault;
use crate::work::{Working, copy, is_taken};
use std::alloc::Global;
use xm_rows::{CancelFault, Row, cancel};

/// `r` with the column cancelled by `s`; the refusal carries both.
fn cancelled(alloc: Global, r: &Row, s: &Row, column: u32) -> Result<Row, ElimFault>
    requires first { coefficient r.now.entries column ≢ pos 0 }
    requires second { coefficient s.now.entries column ≢ pos 0 }
    ensures ok { IfOk result (λ t. IsCancelled r.now s.now column t) }
    ensures row { IfOk result IsRow }
    ensures overflow { IfErr result (OnOverflow (IsCancelRefused r.now s.now column)) }
{
    match cancel(alloc, r, s, column) {
        Ok(row) => Ok(row),
        Err(CancelFault::Overflow) => {
            let r = copy(alloc, r)?;
            let s = copy(alloc, s)?;
            Err(ElimFault::Overflow { r, s, column })
        }
        Err(CancelFault::OutOfMemory) => Err(ElimFault::OutOfMemory),
    }
}

/// What row `p` becomes, where it is another than the pivot, works and has an entry in the column.
fn replacement(
    alloc: Global,
    rows: &[Working],
    p: u32,
    pivot: u32,
    column: u32,
) -> Result<Option<Row>, ElimFault>
    requires p_within { p < length rows.now }
    requires pivot_within { pivot < length rows.now }
    requires entry { (w : Working) → slice_get rows.now pivot ≡ Some w → coefficient w.row.entries column ≢ pos 0 }
    ensures ok { IfOk result (IsReplacement column pivot p rows.now) }
    ensures overflow { IfErr result (OnOverflow (IsRefused column pivot p rows.now)) }
{
    let taken = &rows[p as usize];
    if p == pivot || !is_taken(taken, column) {
        return Ok(None);
    }
    let row = cancelled(alloc, &taken.row, &rows[pivot as usize].row, column)?;
    Ok(Some(row))
}

/// Replaces row `p`, where it is another than the pivot, works and has an entry in the column.
fn replace_one(
    alloc: Global,
    rows: &mut [Working],
    p: u32,
    pivot: u32,
    column: u32,
) -> Result<(), ElimFault>
    requires p_within { p < length rows.old }
    requires pivot_within { pivot < length rows.old }
    requires entry { (w : Working) → slice_get rows.old pivot ≡ Some w → coefficient w.row.entries column ≢ pos 0 }
    ensures ok { OnOk result (IsOneReplaced column pivot p rows.old rows.new) }
    ensures overflow { IfErr result (OnOverflow (IsRefused column pivot p rows.old)) }
{
    match replacement(alloc, rows, p, pivot, column) {
        Err(fault) => Err(fault),
        Ok(None) => Ok(()),
        Ok(Some(row)) => {
            rows[p as usize].row = row;
            Ok(())
        }
    }
}

/// Replaces each row that has an entry in the column, but for the pivot, in order.
pub fn replace_all(
    alloc: Global,
    rows: &mut [Working],
    places: &[u32],
    pivot: u32,
    column: u32,
) -> Result<(), ElimFault>
    requires places { ArePlaces rows.old column places.now }
    requires pivot { (w : Working) × IsPivot rows.old column pivot w }
    ensures ok { OnOk result (AreReplaced column pivot rows.old rows.new) }
    ensures overflow { IfErr result (OnOverflow (RefusedFirst column pivot rows.old)) }
{
    for p in places {
        if let Err(fault) = replace_one(alloc, rows, *p, pivot, column) {
            return Err(fault);
        }
    }
    Ok(())
}
