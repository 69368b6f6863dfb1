//! Checks proofs that no channel jams: the first break of a proof, and what a valid one is worth.
#![tactic(auto)]

mod goals;
mod items;
mod laws;
mod lemmas;
mod steps;
mod stop;
mod sums;
mod trees;
mod whole;

pub use laws::{one_verdict, proofs_hold};
pub use whole::check;
