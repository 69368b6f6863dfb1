//! The outside as sources and sinks of bytes that count their faults.
#![tactic(auto)]

mod adapters;
mod gate;
mod memory_sink;
mod memory_source;
mod no_sink;
mod transfer;
mod words;

ghost use Rattle.std.specs.Prelude.{ℕ, List, ◌<◌, length, IfOk};
ghost use Rattle.std.specs.declared.option.Option.{Option};
ghost use Rattle.std.specs.Io.{ReadsAtMost, WritesAtMost};
ghost use Rattle.std.specs.Io.KnownBytes.{ReadConsumes, WriteAppends};
ghost use Rattle.xm_io.specs.Faults.{HasCause};

pub use adapters::{Counted, StdSink, StdSource};
pub use gate::{Gate, OpenGate};
pub use memory_sink::MemSink;
pub use memory_source::{CleanSource, MemSource};
pub use no_sink::NoSink;
pub use transfer::{ReadFault, read_all, write_all};
pub use words::Words;

/// The fault of one call of the outside.
#[derive(Clone, Copy, PartialEq, Eq, Debug)]
pub struct Failed;

/// Where bytes come from: what is left, where it tells that, and a count of faults that never falls.
pub trait Source {
    ghost left: { Self → Option (List ℕ) };

    ghost faults: { Self → ℕ };

    /// Moves the next bytes to the front of `buf` and gives their number. 0 into a buffer that is not
    /// empty is the end. `Failed` comes where the call raised the count, and nothing was taken then.
    fn read(&mut self, buf: &mut [u8]) -> Result<usize, Failed>
        ensures bound { ReadsAtMost result buf.new }
        ensures bytes { ReadConsumes (left self.old) (left self.new) result buf.new }
        ensures cause { HasCause (faults self.old) (faults self.new) result };
}

/// Where bytes go: what it holds, where it tells that, and a count of faults that never falls.
pub trait Sink {
    ghost held: { Self → Option (List ℕ) };

    ghost faults: { Self → ℕ };

    /// Appends the first bytes of `piece` and gives their number, at least one of a piece that is not
    /// empty. `Failed` comes where the call raised the count, and nothing was appended then.
    fn write(&mut self, piece: &[u8]) -> Result<usize, Failed>
        ensures bound { WritesAtMost result piece.now }
        ensures moves { IfOk result (λ n. 0 < length piece.now → 0 < n) }
        ensures bytes { WriteAppends (held self.old) (held self.new) result piece.now }
        ensures cause { HasCause (faults self.old) (faults self.new) result };
}
