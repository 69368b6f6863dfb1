//! For each column the places of rows that may have an entry there. None is ever taken off: a place too many does no
//! harm.

ghost use Rattle.std.specs.Prelude.{◌≡◌, ◌<◌, ◌^◌, IfOk, length};
ghost use Rattle.xm_elim.specs.Inner.Columns.{Covers};
ghost use Rattle.xm_rows.specs.Columns.{columns_of};

use crate::work::Working;
use std::alloc::Global;
use xm_model::{List, OutOfMemory};
use xm_rows::{empty_lists, spread};

/// The rows' places, for each of the first so many columns.
pub fn columns_by(
    alloc: Global,
    rows: &[Working],
    base: u32,
) -> Result<List<List<u32>>, OutOfMemory>
    requires { length rows.now < 2 ^ 20 }
    ensures covers { IfOk result (λ lists. Covers rows.now (columns_of lists.items)) }
    ensures whole { IfOk result (λ lists. length lists.items ≡ base) }
{
    let mut lists = empty_lists(alloc, base)?;
    for i in 0..rows.len() {
        spread(lists.as_mut_slice(), &rows[i].row, &[i as u32])?;
    }
    Ok(lists)
}
