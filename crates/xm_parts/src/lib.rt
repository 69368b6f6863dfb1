//! Partitions of a net, what a part has of a state and a frame, and the step of one part.
#![tactic(auto)]

mod applying;
mod balanced;
mod build;
mod changes;
mod comparing;
mod fault;
mod given;
mod glue;
mod islands_of;
mod laws;
mod making;
mod moves;
mod near;
mod own;
mod part;
mod parts;
mod row;
mod step;

pub use applying::apply;
pub use changes::{CellChange, Change, WireChange};
pub use comparing::change;
pub use fault::PartFault;
pub use glue::Glue;
pub use islands_of::islands;
pub use laws::{
    capacity_law, change_law, choosing_law, far_law, few_law, fit_law, glue_law, part_law, room_law,
};
pub use making::project;
pub use moves::far;
pub use own::own_oracles;
pub use parts::Parts;
pub use row::{FarMoves, PartRow, PrimCell, Snapshot};
pub use step::part_step;
