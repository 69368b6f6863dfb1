//! The tests of streams, nets, designs, tapes, cycles, runs, rows, invariants and decisions.
#![tactic(auto)]

#[cfg(test)]
mod suites;
