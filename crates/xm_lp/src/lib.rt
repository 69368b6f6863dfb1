//! A decision on linear constraints over columns that are at least 0: a point, or multipliers that refute them.
#![tactic(auto)]

mod answer;
mod decision;
mod laws;
mod places;
mod ratio;
mod simplex;
mod start;
mod table;
mod tally;

pub use decision::{Con, Decision, LpFault};
pub use laws::{rule_is_exact, rule_is_right};
pub use simplex::decide;
