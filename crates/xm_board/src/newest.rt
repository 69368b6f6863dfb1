//! The newest row of a part, which travels with its job.

use xm_parts::{FarMoves, PartRow};
use xm_tape::PartRows;

/// The newest row of a part, and what its step needs: room for the next row, what moves on the far sides of its cut
/// queues, and the choices of its own sources and sinks in the next cycle.
#[derive(Drop)]
pub struct Newest<'a> {
    pub(crate) row: PartRow,
    pub(crate) spare: PartRow,
    pub(crate) far: FarMoves,
    pub(crate) choices: PartRows<'a>,
}
