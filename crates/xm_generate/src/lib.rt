//! Documents to try the program on: lines of stations of any length, drawn from a seed.
#![tactic(auto)]

mod generate;
mod labels;
mod laws;
mod stations;

pub use generate::gen_document;
pub use laws::{generated_runs, ranks_end_loops};
