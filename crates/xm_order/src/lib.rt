//! Signals, their dependence, and an order of all signals or a loop, with the laws along an order.
#![tactic(auto)]

mod fault;
mod laws;
mod needs;
mod ring;
mod signal;
mod signal_order;
mod walk;

pub use fault::OrderFault;
pub use laws::{no_loop, one_frame, one_run, settles_all};
pub use signal::Signal;
pub use signal_order::Order;
pub use walk::order;
