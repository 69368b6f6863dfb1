//! A row of a part, made that of the next cycle by what differs.

ghost use Rattle.std.specs.Prelude.{◌≡◌, ◌<◌, ◌≤◌, ℕ, cond, drop, length, slice_get, Some};
ghost use Rattle.xm_model.specs.Component.{Component, content_of};
ghost use Rattle.xm_model.specs.Net.{Network};
ghost use Rattle.xm_model.specs.Next.{joined};
ghost use Rattle.xm_parts.specs.Changing.{AllApply, CanApplyAll, HasRoomFor, HasRooms, IsApplied, IsChange, IsPlainChange, IsWithinCapacities, WiresApply, changed, passed, place_of};
ghost use Rattle.xm_parts.specs.Projection.{Row};
ghost use Rattle.xm_parts.specs.Rows.{IsRoomyRow, row_of};
ghost use Rattle.xm_parts.specs.declared.changes.WireChange.{WireChange as WireChangeView};

use crate::changes::{CellChange, Change, WireChange};
use crate::glue::put_cell;
use crate::row::{PartRow, PrimCell};
use xm_model::{Cell, List, Wire};

fn pop(packets: &mut List<u8>, popped: bool)
    ensures items { packets.new.items ≡ cond popped (drop 1 packets.old.items) packets.old.items }
    ensures room { packets.new.room ≡ packets.old.room }
{
    if popped && packets.len() > 0 {
        packets.remove(0);
    }
}

fn append(packets: &mut List<u8>, pushed: Option<u8>)
    requires { length (joined packets.old.items pushed) ≤ packets.old.room }
    ensures items { packets.new.items ≡ joined packets.old.items pushed }
    ensures room { packets.new.room ≡ packets.old.room }
{
    if let Some(colour) = pushed {
        let _ = packets.push(colour);
    }
}

fn place(change: &CellChange) -> u32
    ensures { result ≡ place_of change.now }
{
    match change {
        CellChange::Queue { place, .. } => *place,
        CellChange::Set { place, .. } => *place,
    }
}

/// Makes a cell what the change makes of it.
fn apply_to(change: &CellChange, cell: &mut Cell)
    requires plain { IsPlainChange change.now (content_of cell.old) }
    requires room { HasRoomFor change.now cell.old }
    ensures { IsApplied change.now cell.old cell.new }
{
    match change {
        CellChange::Queue { popped, pushed, .. } => {
            if let Cell::Packets(packets) = cell {
                pop(packets, *popped);
                append(packets, *pushed);
            }
        }
        CellChange::Set { cell: from, .. } => put_cell(from, cell),
    }
}

fn apply_cells(changes: &[CellChange], cells: &mut [PrimCell])
    requires { CanApplyAll cells.old changes.now }
    ensures { AllApply cells.old cells.new changes.now }
{
    for change in changes {
        apply_to(change, &mut cells[place(change) as usize].cell);
    }
}

fn apply_wires(changes: &[WireChange], wires: &mut [Wire])
    requires { (k : ℕ) (c : WireChangeView) → slice_get changes.now k ≡ Some c → c.place < length wires.old }
    ensures { WiresApply wires.old wires.new changes.now }
{
    for change in changes {
        wires[change.place as usize] = change.wire;
    }
}

/// Makes a row the newer one, of which `change` tells what differs. The time is linear in what differs, and no memory
/// is taken.
pub fn apply(row: &mut PartRow, change: &Change)
    requires change { (new : Row) × IsChange (row_of row.old) new change.now }
    requires rooms { HasRooms row.old.cells.items change.now.cells.items }
    ensures row { (new : Row) → IsChange (row_of row.old) new change.now → row_of row.new ≡ new }
    ensures roomy { (net : Network) (label : ℕ → ℕ) (p : ℕ) (new : Row)
        → IsRoomyRow net label p row.old → IsChange (row_of row.old) new change.now → IsWithinCapacities net new
        → IsRoomyRow net label p row.new }
{
    apply_cells(change.cells.as_slice(), row.cells.as_mut_slice());
    apply_wires(change.wires.as_slice(), row.wires.as_mut_slice());
}
