//! The elimination, column by column.

ghost use Rattle.std.specs.Prelude.{◌≡◌, ◌+◌, ◌<◌, ◌^◌, All, IfErr, IfOk, OnOk, length};
ghost use Rattle.xm_elim.specs.Elimination as spec;
ghost use Rattle.xm_elim.specs.Elimination.{MeetsOverflow, OnOverflow, Reaches, Step, begun_from};
ghost use Rattle.xm_elim.specs.Inner.Columns.{Covers};
ghost use Rattle.xm_rows.specs.Columns.{columns_of};
ghost use Rattle.xm_elim.specs.Inner.Places.{PassRefused};

use crate::begin::begin;
use crate::columns::columns_by;
use crate::fault::ElimFault;
use crate::pivot::{pivot_of, places_at};
use crate::replace::replace_all;
use crate::work::{Matrix, Status, Working};
use std::alloc::Global;
use xm_model::List;
use xm_rows::{Row, spread};

/// What the pivot of a column becomes.
fn after(moves: u32, column: u32) -> Status
    ensures { result ≡ spec.after moves column }
{
    if column < moves {
        Status::Gone
    } else {
        Status::Pivot(column)
    }
}

/// Eliminates one column. The places of the rows that change are noted for the columns of the pivot. They are put
/// into a list that is used again.
fn pass(
    alloc: Global,
    rows: &mut [Working],
    columns: &mut [List<u32>],
    places: &mut List<u32>,
    moves: u32,
    column: u32,
) -> Result<(), ElimFault>
    requires few { length rows.old < 2 ^ 20 }
    requires within { column < length columns.old }
    requires covers { Covers rows.old (columns_of columns.old) }
    ensures ok { OnOk result (Step moves column rows.old rows.new) }
    ensures covers { OnOk result (Covers rows.new (columns_of columns.new)) }
    ensures overflow { IfErr result (OnOverflow (PassRefused column rows.old)) }
{
    let noted = columns[column as usize].as_slice();
    places_at(alloc, rows, noted, column, places)?;
    let Some(pivot) = pivot_of(rows, places.as_slice(), column) else {
        return Ok(());
    };
    spread(columns, &rows[pivot as usize].row, places.as_slice())?;
    if let Err(fault) = replace_all(alloc, rows, places.as_slice(), pivot, column) {
        return Err(fault);
    }
    rows[pivot as usize].status = after(moves, column);
    Ok(())
}

/// Eliminates the columns of moves from the flow rows, and then those of packets among what is left.
pub fn eliminate(alloc: Global, flow: &[Row], moves: u32, counts: u32) -> Result<Matrix, ElimFault>
    requires few { length flow.now < 2 ^ 20 }
    requires narrow { moves + counts < 2 ^ 20 }
    requires within { All (λ r. All (λ e. e.column < moves + counts) r.entries) flow.now }
    ensures ok { IfOk result (λ it.
        Reaches moves (begun_from (moves + counts) 0 flow.now) (moves + counts) it.rows.items) }
    ensures covers { IfOk result (λ it. Covers it.rows.items (columns_of it.columns.items)) }
    ensures whole { IfOk result (λ it. length it.columns.items ≡ moves + counts) }
    ensures overflow { IfErr result (OnOverflow (MeetsOverflow moves counts flow.now)) }
{
    let base = moves + counts;
    let mut rows = begin(alloc, flow, base)?;
    let mut columns = columns_by(alloc, rows.as_slice(), base)?;
    let mut places = List::new(alloc);
    for column in 0..base {
        let (rows, columns) = (rows.as_mut_slice(), columns.as_mut_slice());
        if let Err(fault) = pass(alloc, rows, columns, &mut places, moves, column) {
            return Err(fault);
        }
    }
    Ok(Matrix { rows, columns })
}
