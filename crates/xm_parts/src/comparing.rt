//! How two rows of a part differ.

ghost use Rattle.std.specs.Prelude.{◌≡◌, ◌<◌, ◌≤◌, ◌^◌, ◌∷◌, ◌++◌, [], ℕ, length, IfNone, IfSome, IsTrue, List as Items, Some};
ghost use Rattle.xm_model.specs.Component.{Packets, content_of};
ghost use Rattle.xm_parts.specs.Changing.{AreCellChanges, AreWireChanges, CanBecome, CanChange, CanChangeCells, IsChange, IsChangeOfCell, IsPlain, IsQueueStep};
ghost use Rattle.xm_parts.specs.Rows.{contents_in, row_of};

use crate::changes::{CellChange, Change, WireChange};
use crate::row::{PartRow, PrimCell};
use xm_model::{Cell, List, Wire};

fn last(packets: &[u8]) -> Option<u8>
    ensures { (ps : Items ℕ) (d : ℕ) → packets.now ≡ ps ++ d ∷ [] → result ≡ Some d }
{
    packets.last().copied()
}

fn are_same(old: &[u8], new: &[u8]) -> bool
    ensures yes { IsTrue result → old.now ≡ new.now }
    ensures no { old.now ≡ new.now → IsTrue result }
{
    old == new
}

/// The change of a queue's cell, if it holds other packets.
fn queue_change(place: u32, old: &[u8], new: &[u8]) -> Option<CellChange>
    requires { IsQueueStep old.now new.now }
    ensures none { IfNone result (Packets new.now ≡ Packets old.now) }
    ensures some { IfSome result (IsChangeOfCell place (Packets old.now) (Packets new.now)) }
{
    if are_same(old, new) {
        return None;
    }
    let popped = new.len() <= old.len();
    let pushed = if new.len() < old.len() {
        None
    } else {
        last(new)
    };
    Some(CellChange::Queue {
        place,
        popped,
        pushed,
    })
}

/// Whether two cells, of which neither is a queue's, hold the same.
fn is_same(old: &Cell, new: &Cell) -> bool
    requires { IsPlain (content_of old.now) }
    ensures yes { IsTrue result → content_of new.now ≡ content_of old.now }
    ensures no { content_of new.now ≡ content_of old.now → IsTrue result }
{
    match (old, new) {
        (Cell::Pending(old), Cell::Pending(new)) => *old == *new,
        (Cell::Held(old), Cell::Held(new)) => *old == *new,
        (Cell::Pref(old), Cell::Pref(new)) => *old == *new,
        (Cell::Nothing, Cell::Nothing) => true,
        _ => false,
    }
}

/// A cell that holds the same.
fn plain_copy(cell: &Cell) -> Cell
    requires { IsPlain (content_of cell.now) }
    ensures { content_of result ≡ content_of cell.now }
{
    match cell {
        Cell::Pending(colour) => Cell::Pending(*colour),
        Cell::Held(held) => Cell::Held(*held),
        Cell::Pref(side) => Cell::Pref(*side),
        Cell::Nothing | Cell::Packets(_) => Cell::Nothing,
    }
}

/// The change of a cell that is no queue's, if it holds another thing.
fn plain_change(place: u32, old: &Cell, new: &Cell) -> Option<CellChange>
    requires old { IsPlain (content_of old.now) }
    requires new { IsPlain (content_of new.now) }
    ensures none { IfNone result (content_of new.now ≡ content_of old.now) }
    ensures some { IfSome result (IsChangeOfCell place (content_of old.now) (content_of new.now)) }
{
    if is_same(old, new) {
        return None;
    }
    let cell = plain_copy(new);
    Some(CellChange::Set { place, cell })
}

/// The change of a cell, if it holds another thing.
fn cell_change(place: u32, old: &Cell, new: &Cell) -> Option<CellChange>
    requires { CanBecome (content_of old.now) (content_of new.now) }
    ensures none { IfNone result (content_of new.now ≡ content_of old.now) }
    ensures some { IfSome result (IsChangeOfCell place (content_of old.now) (content_of new.now)) }
{
    match (old, new) {
        (Cell::Packets(old), Cell::Packets(new)) => {
            queue_change(place, old.as_slice(), new.as_slice())
        }
        _ => plain_change(place, old, new),
    }
}

/// Appends an item, for which there is room.
fn push_within<T: Drop>(list: &mut List<T>, item: T)
    requires { length list.old.items < list.old.room }
    ensures items { list.new.items ≡ list.old.items ++ item ∷ [] }
    ensures room { list.new.room ≡ list.old.room }
{
    let _ = list.push(item);
}

fn change_cells(old: &[PrimCell], new: &[PrimCell], out: &mut List<CellChange>)
    requires can { CanChangeCells (contents_in old.now) (contents_in new.now) }
    requires few { length old.now < 2 ^ 32 }
    requires room { length old.now ≤ out.old.room }
    ensures cells { AreCellChanges (contents_in old.now) (contents_in new.now) (length old.now) out.new.items }
    ensures room { out.new.room ≡ out.old.room }
{
    out.truncate(0);
    for k in 0..old.len() {
        if let Some(change) = cell_change(k as u32, &old[k].cell, &new[k].cell) {
            push_within(out, change);
        }
    }
}

fn is_same_wire(old: Wire, new: Wire) -> bool
    ensures yes { IsTrue result → old ≡ new }
    ensures no { old ≡ new → IsTrue result }
{
    old == new
}

fn change_wires(old: &[Wire], new: &[Wire], out: &mut List<WireChange>)
    requires whole { length new.now ≡ length old.now }
    requires few { length old.now < 2 ^ 32 }
    requires room { length old.now ≤ out.old.room }
    ensures wires { AreWireChanges old.now new.now (length old.now) out.new.items }
    ensures room { out.new.room ≡ out.old.room }
{
    out.truncate(0);
    for k in 0..old.len() {
        if !is_same_wire(old[k], new[k]) {
            let place = k as u32;
            let wire = new[k];
            push_within(out, WireChange { place, wire });
        }
    }
}

/// Makes `out` what differs between two rows of one part. The time is linear in the row, and no memory is taken.
pub fn change(old: &PartRow, new: &PartRow, out: &mut Change)
    requires can { CanChange (row_of old.now) (row_of new.now) }
    requires few_cells { length old.now.cells.items < 2 ^ 32 }
    requires few_wires { length old.now.wires.items < 2 ^ 32 }
    requires cells { length old.now.cells.items ≤ out.old.cells.room }
    requires wires { length old.now.wires.items ≤ out.old.wires.room }
    ensures change { IsChange (row_of old.now) (row_of new.now) out.new }
    ensures cells_room { out.new.cells.room ≡ out.old.cells.room }
    ensures wires_room { out.new.wires.room ≡ out.old.wires.room }
{
    change_cells(old.cells.as_slice(), new.cells.as_slice(), &mut out.cells);
    change_wires(old.wires.as_slice(), new.wires.as_slice(), &mut out.wires);
}
