//! A lock whose passes know which run the locked value stands for, and how far it was when they last saw it.
#![tactic(auto)]

mod held;
mod passes;
mod rule;
mod steps;
mod turn;

pub use rule::{About, Lock, Named, Phase, View};
pub use turn::{Held, Opened, Pass, Refused, TryTake, Turn};
