//! The tests of the board: the simulator's core, without threads.
#![tactic(auto)]

#[cfg(test)]
mod suites;
