//! The state of a net as its cycles keep it: packets in rings, which a head leaves in constant time.
#![tactic(auto)]

mod has_cell;
mod ring;
mod slot;

pub use has_cell::{ChangesCell, HasCell, advance_queue};
pub use ring::Ring;
pub use slot::{Running, Slot};
