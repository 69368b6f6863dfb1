//! Which channels are persistent: rights that are granted by rules over the net, and hold of every run.
#![tactic(auto)]

mod fault;
mod laws;
mod persistencies;
mod persistent;

pub use fault::PersistFault;
pub use laws::{forks_target, grants_hold, grants_hold_of_runs};
pub use persistent::{Persistent, persist};
