//! Proofs written as JSON: each value is read as the same proof again.
#![tactic(auto)]

mod goals;
mod items;
mod laws;
mod lemmas;
mod literals;
mod nodes;
mod values;
mod write;

pub use laws::{invariants_can_be_written, names_tell};
pub use write::{proof_text, write_proof};
