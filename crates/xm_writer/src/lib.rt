//! Documents as canonical texts, which are read as the same documents again.
#![tactic(auto)]

mod laws;
mod members;
mod primitives;
mod writing;

pub use laws::names_found;
pub use members::{name_value, put};
pub use writing::write_document;
