//! The shape of documents: from a JSON value to a net by its names, or to the first fault of its shape.
#![tactic(auto)]

mod channels;
mod fault;
mod kinds;
mod members;
mod modes;
mod named_net;
mod shape;
mod versions;

pub use channels::{Port, Ports, channel_set, ports_of};
pub use fault::{DocFault, Which};
pub use named_net::{AllowEntry, MapEntry, NamedKind, NamedNet, NamedPrimitive};
pub use shape::named_net_of;
pub use versions::{FAIR_VERSION, FIRST_VERSION, INITIAL_VERSION, NEWEST_VERSION};
