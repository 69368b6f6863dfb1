//! The tests of turns and workers, with threads.
#![tactic(auto)]

#[cfg(test)]
mod suites;
