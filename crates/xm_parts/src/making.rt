//! Rows made from a state and a frame, and copies of rows.

ghost use Rattle.std.specs.Prelude.{◌≡◌, ◌<◌, ◌≤◌, ℕ, length, map, slice_get, IfOk, Some};
ghost use Rattle.xm_model.specs.Component.{component_of, content_of};
ghost use Rattle.xm_model.specs.Views.{content_at, signals_of};
ghost use Rattle.xm_model.specs.Net.{capacity_of};
ghost use Rattle.xm_model.specs.Next.{IsFittingState};
ghost use Rattle.xm_parts.specs.Inner.Copied.{AreCellsOf, AreCopies, IsCopy};
ghost use Rattle.xm_parts.specs.Kept.{label_at};
ghost use Rattle.xm_parts.specs.declared.row.PrimCell.{PrimCell};
ghost use Rattle.xm_parts.specs.Partition.{channels_in, prims_in};
ghost use Rattle.xm_parts.specs.Projection.{projection, wire_of};
ghost use Rattle.xm_parts.specs.Rows.{FitsPart, IsRoomyRow, row_of};

use crate::parts::Parts;
use crate::row::{PartRow, PrimCell};
use std::alloc::Global;
use xm_design::Design;
use xm_model::{Cell, Frame, List, OutOfMemory, Prim, State, Wire};
use xm_step::filled;

fn capacity(prim: &Prim) -> u32
    ensures { result ≡ capacity_of (component_of prim.now) }
{
    match prim {
        Prim::Queue { capacity, .. } => *capacity,
        _ => 0,
    }
}

/// A cell that holds the same, with room for so many packets where it holds packets.
fn copied(alloc: Global, capacity: u32, cell: &Cell) -> Result<Cell, OutOfMemory>
    ensures { IfOk result (IsCopy capacity cell.now) }
{
    match cell {
        Cell::Packets(q) => Ok(Cell::Packets(filled(alloc, capacity, q.as_slice())?)),
        Cell::Pending(d) => Ok(Cell::Pending(*d)),
        Cell::Held(held) => Ok(Cell::Held(*held)),
        Cell::Pref(side) => Ok(Cell::Pref(*side)),
        Cell::Nothing => Ok(Cell::Nothing),
    }
}

/// The cells of these primitives.
fn cells_of(
    alloc: Global,
    design: &Design,
    prims: &[u32],
    cells: &[Cell],
) -> Result<List<PrimCell>, OutOfMemory>
    requires whole { length cells.now ≡ length design.now.net.prims }
    requires prims { (k i : ℕ) → slice_get prims.now k ≡ Some i → i < length design.now.net.prims }
    ensures { IfOk result (λ made. AreCellsOf design.now.net prims.now cells.now made.items) }
{
    let net = design.net();
    let mut made = List::new(alloc);
    for k in 0..prims.len() {
        let prim = prims[k];
        let cell = copied(alloc, capacity(net.prim(prim)), &cells[prim as usize])?;
        made.push(PrimCell { prim, cell })?;
    }
    Ok(made)
}

/// The wires of these channels.
fn wires_of(alloc: Global, channels: &[u32], wires: &[Wire]) -> Result<List<Wire>, OutOfMemory>
    requires { (k c : ℕ) → slice_get channels.now k ≡ Some c → c < length wires.now }
    ensures { IfOk result (λ made. made.items ≡ map (wire_of (signals_of wires.now)) channels.now) }
{
    let mut made = List::new(alloc);
    for k in 0..channels.len() {
        made.push(wires[channels[k] as usize])?;
    }
    Ok(made)
}

/// What part `p` has of a state and a frame of the net.
pub fn project(
    alloc: Global,
    design: &Design,
    parts: &Parts,
    p: u32,
    s: &State,
    f: &Frame,
) -> Result<PartRow, OutOfMemory>
    requires design { parts.now.design ≡ design.now }
    requires part { p < parts.now.count }
    requires cells { length s.now.cells.items ≡ length design.now.net.prims }
    requires fitting { IsFittingState design.now.net (content_at s.now.cells.items) }
    requires wires { length f.now.wires.items ≡ design.now.net.channels }
    ensures row { IfOk result (λ row. row_of row ≡ projection design.now.net (label_at parts.now.labels) p
        (content_at s.now.cells.items) (signals_of f.now.wires.items)) }
    ensures roomy { IfOk result (IsRoomyRow design.now.net (label_at parts.now.labels) p) }
{
    let part = parts.part(p);
    let cells = cells_of(alloc, design, part.prims.as_slice(), s.cells.as_slice())?;
    let wires = wires_of(alloc, part.channels.as_slice(), f.wires.as_slice())?;
    Ok(PartRow { cells, wires })
}

fn copies_of(
    alloc: Global,
    design: &Design,
    cells: &[PrimCell],
) -> Result<List<PrimCell>, OutOfMemory>
    requires { (k : ℕ) (x : PrimCell) → slice_get cells.now k ≡ Some x → x.prim < length design.now.net.prims }
    ensures { IfOk result (λ made. AreCopies design.now.net cells.now made.items) }
{
    let net = design.net();
    let mut made = List::new(alloc);
    for k in 0..cells.len() {
        let from = &cells[k];
        let prim = from.prim;
        let cell = copied(alloc, capacity(net.prim(prim)), &from.cell)?;
        made.push(PrimCell { prim, cell })?;
    }
    Ok(made)
}

fn wires_again(alloc: Global, wires: &[Wire]) -> Result<List<Wire>, OutOfMemory>
    ensures { IfOk result (λ made. made.items ≡ wires.now) }
{
    let mut made = List::new(alloc);
    for k in 0..wires.len() {
        made.push(wires[k])?;
    }
    Ok(made)
}

impl PartRow {
    /// An equal row with room for the step of its part.
    pub fn copy(&self, alloc: Global, design: &Design) -> Result<PartRow, OutOfMemory>
        requires fits { (label : ℕ → ℕ) × ((p : ℕ) × FitsPart design.now.net label p self.now) }
        ensures row { IfOk result (λ row. row_of row ≡ row_of self.now) }
        ensures roomy { (label : ℕ → ℕ) (p : ℕ) → IsRoomyRow design.now.net label p self.now
            → IfOk result (IsRoomyRow design.now.net label p) }
    {
        let cells = copies_of(alloc, design, self.cells.as_slice())?;
        let wires = wires_again(alloc, self.wires.as_slice())?;
        Ok(PartRow { cells, wires })
    }
}
