//! What moves on the far channels of a part.

use xm_parts::FarMoves;

/// What moves on the far channels of a part in its own cycle and in the next, as far as its neighbours are.
#[derive(Drop)]
pub struct TwoCycles {
    pub(crate) now: FarMoves,
    pub(crate) next: FarMoves,
}
