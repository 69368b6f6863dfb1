//! Proofs read from JSON: the proof that a value is, or the path of its first break.
#![tactic(auto)]

mod fault;
mod found;
mod goals;
mod items;
mod known;
mod lemmas;
mod lists;
mod literals;
mod name_table;
mod nodes;
mod numbers;
mod read;

pub use fault::ProofFault;
pub use known::Known;
pub use name_table::NameTable;
pub use read::read_proof;
