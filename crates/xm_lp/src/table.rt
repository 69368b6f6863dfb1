//! The tableau: its rows, row 0 being the objective's, and the basic column of each.

ghost use Rattle.std.specs.Prelude.{◌≡◌, ◌≢◌, ◌<◌, ◌≤◌, ◌⊎◌, ℕ, Some, length, pos, ◌≤ℤ◌, All, IfSome, IfNone, IsTrue};
ghost use Rattle.std.specs.Prelude.{IsFalse, IsErrOf, OnOk};
ghost use Rattle.std.specs.Option.{ForSome};
ghost use Rattle.xm_lp.specs.declared.table.Ratio.{Ratio};
ghost use Rattle.xm_rows.specs.Row.{coefficient};
ghost use Rattle.xm_lp.specs.Start.{row_at};
ghost use Rattle.xm_lp.specs.Inner.Listing.{AreListed, AreListedBut};
ghost use Rattle.xm_lp.specs.Inner.Part.{ArePartlyCleared, ClearingLeaves, IsReplaced, SomeLeaves};
ghost use Rattle.xm_lp.specs.Inner.Table.{IsBefore, IsRatio, IsRatioAt, tableau_of};
ghost use Rattle.xm_rows.specs.Columns.{columns_of};
ghost use Rattle.xm_lp.specs.Pivot.{IsLast, IsPivotColumn, IsPivotRow, IsPivoted, PivotLeaves, entry_at, constant_at};

use crate::places::{note_rows, take};
use crate::ratio::is_less;
use std::alloc::Global;
use xm_model::List;
use xm_rows::{CancelFault, Row, cancel};

/// A tableau of the simplex method.
#[derive(Drop)]
pub(crate) struct Table {
    pub(crate) rows: List<Row>,
    pub(crate) basics: List<u32>,
}

/// The least column below `artificials` where row 0 has a negative entry.
pub(crate) fn pivot_column(table: &Table, artificials: u32) -> Option<u32>
    requires { 0 < length table.now.rows.items }
    ensures last { IfNone result (IsLast (tableau_of table.now) artificials) }
    ensures column { IfSome result (λ j. IsPivotColumn (tableau_of table.now) artificials j) }
{
    for entry in table.rows.as_slice()[0].entries() {
        if entry.column >= artificials {
            return None;
        }
        if entry.value < 0 {
            return Some(entry.column);
        }
    }
    None
}

/// A row as the ratio test sees it: its constant over its entry, and its basic column.
#[derive(Clone, Copy)]
struct Ratio {
    row: u32,
    constant: i128,
    entry: i128,
    basic: u32,
}

/// Whether `a` comes before `b`: the lesser ratio, and among equals the lesser basic column.
fn precedes(a: &Ratio, b: &Ratio) -> bool
    requires first { IsRatio a.now }
    requires second { IsRatio b.now }
    ensures before { IsTrue result → IsBefore a.now b.now }
    ensures after { IsFalse result → IsBefore b.now a.now }
{
    let (c, e) = (a.constant as u128, a.entry as u128);
    let (d, f) = (b.constant as u128, b.entry as u128);
    if is_less(c, e, d, f) {
        return true;
    }
    if is_less(d, f, c, e) {
        return false;
    }
    a.basic <= b.basic
}

/// The one of both that comes first.
fn first_of(best: Option<Ratio>, ratio: Ratio) -> Ratio
    requires best { ForSome best IsRatio }
    requires ratio { IsRatio ratio }
    ensures one { (result ≡ ratio) ⊎ (best ≡ Some result) }
    ensures before { IsBefore result ratio }
    ensures before_best { (other : Ratio) → best ≡ Some other → IsBefore result other }
{
    match best {
        Some(other) => {
            if precedes(&ratio, &other) {
                ratio
            } else {
                other
            }
        }
        None => ratio,
    }
}

/// Row number `row` as the ratio test sees it, where it has a positive entry in the column.
fn ratio_of(table: &Table, row: u32, column: u32) -> Option<Ratio>
    requires row { row < length table.now.rows.items }
    requires count { length table.now.basics.items ≡ length table.now.rows.items }
    requires constant { 0 < row → pos 0 ≤ℤ constant_at (tableau_of table.now) row }
    ensures some { IfSome result (IsRatioAt (tableau_of table.now) column row) }
    ensures none { IfNone result (0 < row → entry_at (tableau_of table.now) row column ≤ℤ pos 0) }
{
    if row == 0 {
        return None;
    }
    let there = &table.rows.as_slice()[row as usize];
    let entry = there.value_at(column);
    if entry <= 0 {
        return None;
    }
    Some(Ratio {
        row,
        constant: there.constant(),
        entry,
        basic: table.basics.as_slice()[row as usize],
    })
}

/// The row in which column `column` becomes basic, of those that are noted for it.
pub(crate) fn pivot_row(table: &Table, places: &[List<u32>], column: u32) -> Option<u32>
    requires count { length table.now.basics.items ≡ length table.now.rows.items }
    requires constants { (i : ℕ) → 0 < i → i < length table.now.rows.items →
        pos 0 ≤ℤ constant_at (tableau_of table.now) i }
    requires column { column < length places.now }
    requires listed { AreListed table.now.rows.items (columns_of places.now) }
    ensures row { IfSome result (λ i. IsPivotRow (tableau_of table.now) column i) }
    ensures none { IfNone result ((i : ℕ) → 0 < i → i < length table.now.rows.items →
        entry_at (tableau_of table.now) i column ≤ℤ pos 0) }
{
    let mut best: Option<Ratio> = None;
    for row in places[column as usize].as_slice() {
        let Some(ratio) = ratio_of(table, *row, column) else {
            continue;
        };
        best = Some(first_of(best, ratio));
    }
    match best {
        Some(ratio) => Some(ratio.row),
        None => None,
    }
}

/// Cancels `column` in row `h` by row `i`, where row `h` has an entry there.
fn replace(
    alloc: Global,
    rows: &mut List<Row>,
    h: usize,
    i: usize,
    column: u32,
) -> Result<(), CancelFault>
    requires row { h < length rows.old.items }
    requires pivot { i < length rows.old.items }
    requires entry { coefficient (row_at rows.old.items i).entries column ≢ pos 0 }
    ensures ok { OnOk result (IsReplaced rows.old.items rows.new.items h i column) }
    ensures overflow { IsErrOf result CancelFault.Overflow → ClearingLeaves rows.old.items h i column }
{
    let row = &rows.as_slice()[h];
    if row.value_at(column) == 0 {
        return Ok(());
    }
    let cancelled = cancel(alloc, row, &rows.as_slice()[i], column)?;
    rows.as_mut_slice()[h] = cancelled;
    Ok(())
}

/// Cancels `column` in each of these rows by row `i`, where they have an entry there.
fn clear_rows(
    alloc: Global,
    rows: &mut List<Row>,
    list: &[u32],
    i: u32,
    column: u32,
) -> Result<(), CancelFault>
    requires within { All (λ h. h < length rows.old.items) list.now }
    requires pivot { i < length rows.old.items }
    requires entry { coefficient (row_at rows.old.items i).entries column ≢ pos 0 }
    ensures ok { OnOk result (ArePartlyCleared rows.old.items rows.new.items i column list.now) }
    ensures overflow { IsErrOf result CancelFault.Overflow → SomeLeaves rows.old.items i column }
{
    for h in list {
        if *h == i {
            continue;
        }
        if let Err(fault) = replace(alloc, rows, *h as usize, i as usize, column) {
            return Err(fault);
        }
    }
    Ok(())
}

/// Makes `column` basic in row `i`, by the rows that are noted for the column.
fn pivot_by(
    alloc: Global,
    table: &mut Table,
    places: &mut [List<u32>],
    list: &[u32],
    column: u32,
    i: u32,
) -> Result<(), CancelFault>
    requires count { length table.old.basics.items ≡ length table.old.rows.items }
    requires row { i < length table.old.rows.items }
    requires entry { entry_at (tableau_of table.old) i column ≢ pos 0 }
    requires column { column < length places.old }
    requires listed { AreListedBut column list.now table.old.rows.items (columns_of places.old) }
    ensures ok { OnOk result (IsPivoted (tableau_of table.old) column i (tableau_of table.new)) }
    ensures listed { OnOk result (AreListed table.new.rows.items (columns_of places.new)) }
    ensures overflow { IsErrOf result CancelFault.Overflow → PivotLeaves (tableau_of table.old) column i }
{
    note_rows(places, table.rows.as_slice(), list, column, i)?;
    clear_rows(alloc, &mut table.rows, list, i, column)?;
    places[column as usize].push(i)?;
    table.basics.as_mut_slice()[i as usize] = column;
    Ok(())
}

/// Makes `column` basic in row `i`: every other row with an entry there has it cancelled. The rows that are noted for
/// each column are kept up.
pub(crate) fn pivot(
    alloc: Global,
    table: &mut Table,
    places: &mut [List<u32>],
    column: u32,
    i: u32,
) -> Result<(), CancelFault>
    requires count { length table.old.basics.items ≡ length table.old.rows.items }
    requires row { i < length table.old.rows.items }
    requires entry { entry_at (tableau_of table.old) i column ≢ pos 0 }
    requires column { column < length places.old }
    requires listed { AreListed table.old.rows.items (columns_of places.old) }
    ensures ok { OnOk result (IsPivoted (tableau_of table.old) column i (tableau_of table.new)) }
    ensures listed { OnOk result (AreListed table.new.rows.items (columns_of places.new)) }
    ensures overflow { IsErrOf result CancelFault.Overflow → PivotLeaves (tableau_of table.old) column i }
{
    let list = take(alloc, places, column);
    pivot_by(alloc, table, places, list.as_slice(), column, i)
}
