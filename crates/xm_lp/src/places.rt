//! For each column the rows that may have an entry there. A row too many does no harm.

ghost use Rattle.std.specs.Prelude.{◌≡◌, ◌<◌, ◌^◌, [], All, IfOk, OnOk, length, slice_set};
ghost use Rattle.xm_lp.specs.Inner.Listing.{AreListed, AreNoted, IsNoted};
ghost use Rattle.xm_rows.specs.Columns.{columns_of, noted};

use std::alloc::Global;
use std::mem;
use xm_model::{List, OutOfMemory};
use xm_rows::{Row, empty_lists, note, spread};

/// The rows, for each of the first so many columns.
pub(crate) fn rows_by(
    alloc: Global,
    rows: &[Row],
    columns: u32,
) -> Result<List<List<u32>>, OutOfMemory>
    requires { length rows.now < 2 ^ 32 }
    ensures listed { IfOk result (λ lists. AreListed rows.now (columns_of lists.items)) }
    ensures whole { IfOk result (λ lists. length lists.items ≡ columns) }
{
    let mut lists = empty_lists(alloc, columns)?;
    for i in 0..rows.len() {
        spread(lists.as_mut_slice(), &rows[i], &[i as u32])?;
    }
    Ok(lists)
}

/// Takes a column's list, and leaves an empty one.
pub(crate) fn take(alloc: Global, places: &mut [List<u32>], column: u32) -> List<u32>
    requires { column < length places.old }
    ensures list { result.items ≡ noted (columns_of places.old) column }
    ensures rest { columns_of places.new ≡ slice_set (columns_of places.old) column [] }
{
    mem::replace(&mut places[column as usize], List::new(alloc))
}

/// Notes row number `h` for each column of the pivot row where it has no entry.
fn note_fresh(places: &mut [List<u32>], h: u32, row: &Row, pivot: &Row) -> Result<(), OutOfMemory>
    ensures { OnOk result (IsNoted h row.now pivot.now.entries (columns_of places.old) (columns_of places.new)) }
{
    for entry in pivot.entries() {
        if row.value_at(entry.column) != 0 {
            continue;
        }
        note(places, *entry, &[h])?;
    }
    Ok(())
}

/// Notes each of these rows that has an entry in the column: a cancellation by row `i` gives it those of row `i`.
pub(crate) fn note_rows(
    places: &mut [List<u32>],
    rows: &[Row],
    list: &[u32],
    column: u32,
    i: u32,
) -> Result<(), OutOfMemory>
    requires within { All (λ h. h < length rows.now) list.now }
    requires pivot { i < length rows.now }
    ensures { OnOk result (AreNoted rows.now column i list.now (columns_of places.old) (columns_of places.new)) }
{
    for h in list {
        let row = &rows[*h as usize];
        if row.value_at(column) == 0 {
            continue;
        }
        note_fresh(places, *h, row, &rows[i as usize])?;
    }
    Ok(())
}
