//! Workers that share a bench of jobs in a turn, snapshots of it while they work, and the simulation of a net.
#![tactic(auto)]

mod bench;
mod counts;
mod finish;
mod round;
mod rounds;
mod simulating;
mod simulation;
mod snapshots;
mod team;
mod worker;

pub use bench::Bench;
pub use counts::{Watch, least_cycle};
pub use round::run_round;
pub use rounds::{Rounds, SimFault, Simulated, run_rounds};
pub use simulating::{SimulatedRun, simulate};
pub use simulation::Whole;
pub use snapshots::{TrySnapshot, snapshot, try_snapshot};
pub use worker::work;
