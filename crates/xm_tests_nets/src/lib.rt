//! Nets as tables, for the crates of tests.
#![tactic(auto)]

mod nets;

pub use nets::{
    CREDITS, Entry, FORK_JOIN, KNOT, MOVES_X, ONE_WAY_SWITCH, Piece, QUEUES, ROW, WAITS, X, Y,
    allow_of, design_of, may_have, net_of, wiring_fault,
};
