//! The commands of the program: words and the bytes of a document in, the output of the command, or a status
//! and a line of error, out. The top call is `xmas`.
#![tactic(auto)]

mod answer;
mod budget;
mod call;
mod command;
mod counting;
mod demonstrating;
mod demonstration_words;
mod found;
mod generating;
mod invariants;
mod laws;
mod prepared;
mod prove;
mod refusal;
mod running;
mod simulating;
mod simulation_words;
mod top;
mod verifying;
mod writing;

pub use call::{Call, Demonstration};
pub use command::{Command, Outcome, Simulation, starts_workers};
pub use laws::{
    no_output_of_refused, one_demonstration, one_output, one_refusal, printed_invariants_hold,
    proved_texts_verify, verified_nets_hold,
};
pub use refusal::{Refusal, refuse};
pub use top::{plain, sim_main, xmas};
