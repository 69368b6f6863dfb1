//! The turn, its passes, and what its calls hand out.
ghost use Rattle.std.specs.Prelude.{◌≡◌};

use crate::rule::{About, Lock, Named, View};
use atomic_table::{Seat, Table};
use crossbeam_utils::sync::EventCount;
use std::alloc::Global;

/// A value that one pass at a time holds. `changes` is where passes sleep until another pass has changed the value.
#[derive(Drop)]
pub struct Turn<V: Named> {
    pub(crate) table: Table<Option<V>, View<V::Run>, About<V>, Lock<V>, Global>,
    pub(crate) changes: EventCount,
    ghost sized: { (table.shared.table_id.words ≡ 2) × (table.shared.table_id.slots ≡ 1) },
}

/// The right to try for the turn. It has no bytes. A pass that is dropped keeps its shares, so that the turn's other
/// passes never make a whole one.
#[derive(Drop)]
pub struct Pass<V: Named> {
    pub(crate) seat: Seat<Option<V>, View<V::Run>>,
}

/// A new turn, and the pass that has all its shares.
pub struct Opened<V: Named> {
    pub turn: Turn<V>,
    pub pass: Pass<V>,
}

/// Want of memory for a turn, with the value that came in.
#[derive(Drop)]
pub struct Refused<V: Drop> {
    pub value: V,
}

/// The turn, with its value. It can't be dropped: `Turn::give` and its like spend it.
pub struct Held<V: Named> {
    pub(crate) pass: Pass<V>,
    pub(crate) value: V,
}

/// What one try gives.
pub enum TryTake<V: Named> {
    Held(Held<V>),
    /// Another pass has the turn.
    Busy(Pass<V>),
}
