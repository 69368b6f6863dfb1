//! Printed texts: the text of a check, of invariants, of a verdict, of a snapshot, of what a search finds and of a
//! demonstration, and the lines of error.
#![tactic(auto)]

mod check;
mod demo;
mod invariants;
mod lines;
mod pieces;
mod search;
mod snap;
mod verdict;

pub use check::check_text;
pub use demo::{RunCounts, demo_text};
pub use invariants::{invariant_lines, invariant_text};
pub use lines::{
    colour_line, document_line, form_line, loop_line, overflow_line, persistency_line, pivots_line,
    tape_line, width_line, wiring_line,
};
pub use search::{open_text, spent_text};
pub use snap::snap_text;
pub use verdict::verdict_text;
