//! The rows of a part from one cycle on.

ghost use Rattle.std.specs.Prelude.{◌≡◌, ◌<◌, ◌≤◌, ◌∷◌, ◌++◌, [], ℕ, drop, length, suc, IfOk, OnOk};
ghost use Rattle.xm_board.specs.Inner.Logging.{IsLog, IsLogOf, IsRoomyLog};
ghost use Rattle.xm_model.specs.Net.{Network};
ghost use Rattle.xm_parts.specs.Projection.{Row};
ghost use Rattle.xm_parts.specs.Rows.{IsRoomyRow, row_of};

use std::alloc::Global;
use xm_design::Design;
use xm_model::{List, OutOfMemory};
use xm_parts::{Change, PartRow, apply, room_law};

/// The row of the first cycle, and what differs in each cycle since.
#[derive(Drop)]
pub struct RowLog {
    pub(crate) base: PartRow,
    pub(crate) changes: List<Change>,
}

impl RowLog {
    /// The log of one cycle.
    pub fn new(alloc: Global, base: PartRow) -> RowLog
        ensures base { result.base ≡ base }
        ensures changes { result.changes.items ≡ [] }
    {
        RowLog {
            base,
            changes: List::new(alloc),
        }
    }

    /// Makes room for one more cycle. On refusal the log stays.
    pub fn make_room(&mut self) -> Result<(), OutOfMemory>
        ensures base { self.new.base ≡ self.old.base }
        ensures changes { self.new.changes.items ≡ self.old.changes.items }
        ensures room { self.old.changes.room ≤ self.new.changes.room }
        ensures ok { OnOk result (length self.new.changes.items < self.new.changes.room) }
    {
        self.changes.reserve(1)
    }

    /// Appends what differs in the next cycle. There is room for it.
    pub fn push(&mut self, change: Change)
        requires { length self.old.changes.items < self.old.changes.room }
        ensures base { self.new.base ≡ self.old.base }
        ensures changes { self.new.changes.items ≡ self.old.changes.items ++ change ∷ [] }
        ensures room { self.new.changes.room ≡ self.old.changes.room }
    {
        let _ = self.changes.push(change);
    }

    /// Lets the first cycle go. No memory is taken.
    pub fn rise(&mut self)
        requires some { 0 < length self.old.changes.items }
        requires log { IsLog self.old }
        ensures log { (net : Network) (label : ℕ → ℕ) (p : ℕ) (rows : ℕ → Row) → IsRoomyLog net label p rows self.old
            → IsRoomyLog net label p (λ k. rows (suc k)) self.new }
        ensures changes { self.new.changes.items ≡ drop 1 self.old.changes.items }
        ensures room { self.new.changes.room ≡ self.old.changes.room }
    {
        room_law();
        let change = self.changes.remove(0);
        apply(&mut self.base, &change);
    }

    /// A copy of the row of the last cycle, with room for the step of its part.
    pub fn newest(&self, alloc: Global, design: &Design) -> Result<PartRow, OutOfMemory>
        requires { (label : ℕ → ℕ) × ((p : ℕ) × ((rows : ℕ → Row) × IsRoomyLog design.now.net label p rows self.now)) }
        ensures { (label : ℕ → ℕ) (p : ℕ) (rows : ℕ → Row) → IsRoomyLog design.now.net label p rows self.now
            → IfOk result (λ row. (row_of row ≡ rows (length self.now.changes.items))
            × IsRoomyRow design.now.net label p row) }
    {
        room_law();
        let mut row = self.base.copy(alloc, design)?;
        for change in self.changes.as_slice() {
            apply(&mut row, change);
        }
        Ok(row)
    }
}
