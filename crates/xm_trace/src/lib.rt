//! The run of a design under a tape: its moves, round by round, and its text.
#![tactic(auto)]

mod buffer;
mod cycle_lines;
mod labels;
mod laws;
mod pieces;
mod run_text;
mod sums;
mod text;
mod totals;
mod trace;

pub use buffer::Lines;
pub use labels::Labels;
pub use laws::{rounds_follow, rounds_join};
pub use run_text::{RunText, Total};
pub use text::trace_text;
pub use trace::{Move, Trace, note_move, run_all, run_round};
