//! The core of the partitioned simulator, without threads: how far each part is, and which are out with workers.
#![tactic(auto)]

mod answers;
mod board;
mod board_core;
mod gluing;
mod job;
mod laws;
mod merging;
mod newest;
mod posting;
mod rounds;
mod row_log;
mod starting;
mod taking;
mod two_cycles;

pub use answers::{Posted, Take};
pub use board::Board;
pub use board_core::{BoardCore, Choice};
pub use job::{Done, Job};
pub use laws::{posts_rise, schedules_stand, some_ready};
