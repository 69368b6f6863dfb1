//! What is kept of one part, so that its step reads nothing else of the net.

use xm_model::{List, Prim};
use xm_plan::Plan;

/// Where the far channel of a cut queue stands: its part, and its place there.
#[derive(Clone, Copy)]
pub struct Cut {
    pub part: u32,
    pub wire: u32,
}

/// One part. `prims` and `channels` are the numbers of its primitives and channels. `locals` are these
/// primitives with each port renamed to the place of its channel in the part; the far channel of the part's cut
/// queue number j has the place of that queue behind those of all its own channels. `plan` makes the signals of its
/// channels, and `planned` are the primitives as the plan sees them: it reads no far channel. `cuts` are its cut
/// queues, in primitive order, and `neighbours` the parts in which their far channels lie.
#[derive(Drop)]
pub struct Part {
    pub prims: List<u32>,
    pub locals: List<Prim>,
    pub channels: List<u32>,
    pub planned: List<Prim>,
    pub plan: Plan,
    pub cuts: List<Cut>,
    pub neighbours: List<u32>,
}
