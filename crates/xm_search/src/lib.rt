//! The search for proofs that no channel jams.
#![tactic(auto)]

mod ask;
mod bounds;
mod choosing;
mod ends;
mod found;
mod goal;
mod ground;
mod growth;
mod laws;
mod look;
mod near;
mod order;
mod places;
mod searching;
mod walk;

pub use found::{Candidate, Found, SearchFault};
pub use laws::candidates_exclude_trees;
pub use order::goal_order;
pub use searching::search;
