//! Documents, read exactly: from the bytes of a JSON text, or from a net by its names, to a net with the names
//! of what it numbers, or to the first fault.
#![tactic(auto)]

mod allowing;
mod colouring;
mod document;
mod naming;
mod numbering;
mod reading;
mod sizes;

pub use document::Document;
pub use reading::{read_document, read_value};
pub use xm_shape::{DocFault, Which};
