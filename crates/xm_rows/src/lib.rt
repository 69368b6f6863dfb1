//! Exact sparse rows over 128 bits: columns cancelled, primitive rows, left sides at a point, and the rows of a column.
#![tactic(auto)]

mod arithmetic;
mod columns;
mod combine;
mod divisor;
mod evaluate;
mod laws;
mod reduce;
mod row;

pub use arithmetic::{product, sum};
pub use columns::{empty_lists, note, spread};
pub use combine::{CancelFault, cancel};
pub use divisor::gcd;
pub use evaluate::dot;
pub use laws::{
    combination_gives_back_points, combination_keeps_points, first_factor_is_positive,
    one_pair_of_factors, primitive_is_in_lowest_terms, primitive_keeps_points,
};
pub use reduce::primitive;
pub use row::{Entry, Row};
