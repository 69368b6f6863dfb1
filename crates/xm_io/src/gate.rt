//! Who watches a simulation from outside.

/// Told of what the workers of a simulation do. No clause speaks of what these calls do; they may wait.
pub trait Gate: Sync {
    /// A worker is about to step the part from the cycle. It holds no lock while it is here.
    fn enter(&self, part: u32, cycle: u32);

    /// A count at the cycle was taken.
    fn seen(&self, cycle: u32);
}

/// Lets all pass.
#[derive(Drop)]
pub struct OpenGate;

impl Gate for OpenGate {
    fn enter(&self, _part: u32, _cycle: u32) {}

    fn seen(&self, _cycle: u32) {}
}
