//! std's readers and writers as sources and sinks.

ghost use Rattle.std.specs.Prelude.{◌≡◌};

use crate::{Failed, Sink, Source};
use std::io::{Read, Write};

/// A reader or a writer of std with a count of its errors. It tells what is left, or what it holds, where that does.
#[derive(Drop)]
pub struct Counted<T> {
    inner: T,
    faults: u64,
}

/// A reader of std as a source.
pub type StdSource<R> = Counted<R>;

/// A writer of std as a sink. A write that takes nothing of a piece that is not empty is an error too.
pub type StdSink<W> = Counted<W>;

impl<T> Counted<T> {
    /// The reader or writer, with no fault so far.
    pub fn new(inner: T) -> Counted<T>
        ensures inner { result.inner ≡ inner }
        ensures faults { result.faults ≡ 0 }
    {
        Counted { inner, faults: 0 }
    }
}

impl<R: Read> Source for Counted<R> {
    ghost left = { λ s. R.remaining s.inner };

    ghost faults = { λ s. s.faults };

    fn read(&mut self, buf: &mut [u8]) -> Result<usize, Failed> {
        match self.inner.read(buf) {
            Ok(count) => Ok(count),
            Err(_) => {
                self.faults = self.faults.saturating_add(1);
                Err(Failed)
            }
        }
    }
}

impl<W: Write> Sink for Counted<W> {
    ghost held = { λ s. W.contents s.inner };

    ghost faults = { λ s. s.faults };

    fn write(&mut self, piece: &[u8]) -> Result<usize, Failed> {
        match self.inner.write(piece) {
            Ok(count) if count > 0 || piece.is_empty() => Ok(count),
            _ => {
                self.faults = self.faults.saturating_add(1);
                Err(Failed)
            }
        }
    }
}
