//! What differs between the rows of a part at two consecutive cycles.

ghost use Rattle.std.specs.Prelude.{◌≡◌, ◌<◌, ◌≤◌, [], length, IfOk};
ghost use Rattle.xm_parts.specs.Kept.{label_at};
ghost use Rattle.xm_parts.specs.Partition.{channels_in, prims_in};

use crate::parts::Parts;
use std::alloc::Global;
use xm_design::Design;
use xm_model::{Cell, List, OutOfMemory, Wire};

/// What becomes of the cell at a place of a row: a queue loses its oldest packet or not and then gets one or not, or
/// the cell is replaced.
#[derive(Drop)]
pub enum CellChange {
    Queue {
        place: u32,
        popped: bool,
        pushed: Option<u8>,
    },
    Set {
        place: u32,
        cell: Cell,
    },
}

/// The wire that comes to a place of a row.
#[derive(Clone, Copy)]
pub struct WireChange {
    pub place: u32,
    pub wire: Wire,
}

/// What differs between a row and the next.
#[derive(Drop)]
pub struct Change {
    pub cells: List<CellChange>,
    pub wires: List<WireChange>,
}

impl Change {
    /// No change, with room for each cell and each wire of part `p`.
    pub fn new(alloc: Global, design: &Design, parts: &Parts, p: u32) -> Result<Change, OutOfMemory>
        requires design { parts.now.design ≡ design.now }
        requires part { p < parts.now.count }
        ensures cells { IfOk result (λ change. length (prims_in design.now.net (label_at parts.now.labels) p)
            ≤ change.cells.room) }
        ensures wires { IfOk result (λ change. length (channels_in design.now.net (label_at parts.now.labels) p)
            ≤ change.wires.room) }
        ensures no_cells { IfOk result (λ change. change.cells.items ≡ []) }
        ensures no_wires { IfOk result (λ change. change.wires.items ≡ []) }
    {
        let _net = design.net();
        let part = parts.part(p);
        let mut cells = List::new(alloc);
        cells.reserve(part.prims.len() as u32)?;
        let mut wires = List::new(alloc);
        wires.reserve(part.channels.len() as u32)?;
        Ok(Change { cells, wires })
    }
}
