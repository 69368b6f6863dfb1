//! Proofs that no channel of a net jams: lemmas about the packets in queues, and goals with their trees.
//! The types, and what a valid proof is.
#![tactic(auto)]

mod proof;
mod verdict;

pub use proof::{Goal, Item, Node, Proof};
pub use verdict::{ProofPath, Reason, Verdict};
