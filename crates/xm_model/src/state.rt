//! States, frames and choices of a net, each in the order of its primitives or its channels.

use crate::list::List;
use crate::primitive::Side;

/// What a primitive holds between cycles: a queue its packets, the oldest first; a source its pending
/// colour; a sink whether it keeps its readiness; a merge the side that it prefers.
#[derive(Drop)]
pub enum Cell {
    Packets(List<u8>),
    Pending(Option<u8>),
    Held(bool),
    Pref(Side),
    Nothing,
}

/// The state between two cycles: one cell for each primitive, by number.
#[derive(Drop)]
pub struct State {
    pub cells: List<Cell>,
}

/// The signals of one channel in a cycle: `offer` is `irdy` with its data, `ready` is `trdy`.
#[derive(Clone, Copy, PartialEq, Eq, Debug)]
pub struct Wire {
    pub offer: Option<u8>,
    pub ready: bool,
}

/// The signals of a cycle: one wire for each channel, by number.
#[derive(Drop)]
pub struct Frame {
    pub wires: List<Wire>,
}

/// What is chosen for a source or a sink in a cycle. Choices are listed for the sources and sinks alone,
/// in primitive order.
#[derive(Clone, Copy, PartialEq, Eq, Debug)]
pub enum Choice {
    Offer(Option<u8>),
    Ready(bool),
}
