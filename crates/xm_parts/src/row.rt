//! What a part has of a state and a frame.

use std::marker::Model;
use xm_model::{Cell, Frame, List, Side, State, Wire};
use xm_running::HasCell;

/// The cell of one primitive.
#[derive(Drop)]
pub struct PrimCell {
    pub prim: u32,
    pub cell: Cell,
}

impl HasCell for PrimCell {
    ghost cell = { λ x. x.cell };

    fn pending(&self) -> Option<u8> {
        self.cell.pending()
    }

    fn is_held(&self) -> bool {
        self.cell.is_held()
    }

    fn oldest(&self) -> Option<u8> {
        self.cell.oldest()
    }

    fn count(&self) -> usize {
        self.cell.count()
    }

    fn preferred(&self) -> Side {
        self.cell.preferred()
    }
}

/// The cells of a part's primitives, by number, and the wires of its channels, by number. A queue that two parts
/// share is in the rows of both.
#[derive(Drop)]
pub struct PartRow {
    pub cells: List<PrimCell>,
    pub wires: List<Wire>,
}

/// What moves on the far channel of each queue that is cut from a part, by the queue's number. A contract sees the
/// list.
#[derive(Drop)]
pub struct FarMoves {
    pub(crate) moves: List<Option<u8>>,
}

impl Model for FarMoves {
    ghost use Rattle.std.specs.Prelude.{List, Option, ℕ};

    ghost Value = { List (Option ℕ) };

    ghost view = { λ x. x.moves.items };
}

/// The state and the frame of a whole net at one cycle.
#[derive(Drop)]
pub struct Snapshot {
    pub cycle: u32,
    pub state: State,
    pub frame: Frame,
}
