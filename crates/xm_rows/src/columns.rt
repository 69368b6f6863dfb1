//! Lists of places of rows, one for each column, in which the rows that have an entry there are noted.

ghost use Rattle.std.specs.Prelude.{◌≡◌, ◌++◌, ◌∷◌, [], All, IfOk, OnOk, length};
ghost use Rattle.xm_rows.specs.Columns.{AreSpread, columns_of};

use crate::row::{Entry, Row};
use std::alloc::Global;
use xm_model::{List, OutOfMemory};

/// Appends the places.
fn append(list: &mut List<u32>, places: &[u32]) -> Result<(), OutOfMemory>
    ensures { OnOk result (list.new.items ≡ list.old.items ++ places.now) }
{
    for p in places {
        list.push(*p)?;
    }
    Ok(())
}

/// Notes the places for the entry's column, where there is a list for it.
pub fn note(columns: &mut [List<u32>], entry: Entry, places: &[u32]) -> Result<(), OutOfMemory>
    ensures { OnOk result (AreSpread places.now (entry ∷ []) (columns_of columns.old) (columns_of columns.new)) }
{
    if entry.column as usize >= columns.len() {
        return Ok(());
    }
    append(&mut columns[entry.column as usize], places)?;
    Ok(())
}

/// Notes the places for each column in which the row has an entry.
pub fn spread(columns: &mut [List<u32>], row: &Row, places: &[u32]) -> Result<(), OutOfMemory>
    ensures { OnOk result (AreSpread places.now row.now.entries (columns_of columns.old) (columns_of columns.new)) }
{
    for entry in row.entries() {
        note(columns, *entry, places)?;
    }
    Ok(())
}

/// So many empty lists.
pub fn empty_lists(alloc: Global, count: u32) -> Result<List<List<u32>>, OutOfMemory>
    ensures empty { IfOk result (λ lists. All (λ l. l.items ≡ []) lists.items) }
    ensures whole { IfOk result (λ lists. length lists.items ≡ count) }
{
    let mut lists = List::new(alloc);
    for _ in 0..count {
        lists.push(List::new(alloc))?;
    }
    Ok(lists)
}
