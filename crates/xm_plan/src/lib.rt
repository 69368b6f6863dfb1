//! A plan of one cycle: operations that make all signals of some primitives, each after those that it needs.
#![tactic(auto)]

mod cells;
mod check;
mod draft;
mod equations;
mod making;
mod operation;
mod plan;
mod row;

pub use cells::{is_ready_at, moved_at, moved_in, offer_at, wire_at};
pub use equations::granted;
pub use plan::Plan;
