//! A sink that keeps nothing.

ghost use Rattle.std.specs.Prelude.{None};

use crate::{Failed, Sink};

/// Takes all that is written, keeps nothing, and never fails. It does not tell what it was given.
#[derive(Drop)]
pub struct NoSink;

impl NoSink {
    /// A sink for what nobody reads.
    pub fn new() -> NoSink {
        NoSink
    }
}

impl Sink for NoSink {
    ghost held = { λ _. None };

    ghost faults = { λ _. 0 };

    fn write(&mut self, piece: &[u8]) -> Result<usize, Failed> {
        Ok(piece.len())
    }
}
