//! A sink in memory.

ghost use Rattle.std.specs.Prelude.{◌≡◌, ◌<◌, ◌≤◌, Some, [], length, take, Ok, IfOk, IsTrue, IsErr, false};
ghost use Rattle.std.specs.Io.{WritesAtMost};
ghost use Rattle.std.specs.Io.KnownBytes.{WriteAppends};
ghost use Rattle.xm_io.specs.Faults.{HasCause};
ghost use Rattle.xm_io.specs.Memory.{Store, next_write_fails, write_failed, share, write_done};

use crate::memory_source::is_among;
use crate::{Failed, Sink};
use std::alloc::Global;
use std::marker::Model;
use xm_model::{List, OutOfMemory};

/// Bytes in memory, taken in pieces, at most `room` of them in all. It fails in the calls that are
/// listed, counted from 0.
#[derive(Drop)]
pub struct MemSink {
    bytes: Vec<u8>,
    room: u32,
    piece: u32,
    fails: List<u32>,
    calls: u64,
    faults: u64,
}

impl Model for MemSink {
    ghost use Rattle.std.specs.Prelude.{◌≤◌, vec_len};
    ghost use Rattle.std.specs.Vec.{vec_capacity};
    ghost use Rattle.xm_io.specs.Memory.{Store};

    ghost Value = { Store };

    ghost view = { λ s. record {
      held = s.bytes.items;
      room = s.room;
      piece = s.piece;
      fails = s.fails.items;
      calls = s.calls;
      faults = s.faults;
    } };

    ghost invariant = { λ s. (1 ≤ s.piece) × (vec_len s.bytes ≤ s.room) × (s.room ≤ vec_capacity s.bytes) };
}

impl MemSink {
    /// An empty sink, which takes all its memory here.
    pub fn new(
        alloc: Global,
        room: u32,
        piece: u32,
        fails: List<u32>,
    ) -> Result<MemSink, OutOfMemory>
        requires { 1 ≤ piece }
        ensures { IfOk result (λ sink. sink
            ≡ record { held = []; room = room; piece = piece; fails = fails.items; calls = 0; faults = 0 }) }
    {
        Ok(MemSink {
            bytes: Vec::with_capacity(alloc, room as usize)?,
            room,
            piece,
            fails,
            calls: 0,
            faults: 0,
        })
    }

    /// Lends what it holds.
    pub fn held(&self) -> &[u8]
        ensures { result.now ≡ self.now.held }
    {
        self.bytes.as_slice()
    }
}

impl Sink for MemSink {
    ghost held = { λ s. Some s.held };

    ghost faults = { λ s. s.faults };

    fn write(&mut self, piece: &[u8]) -> Result<usize, Failed>
        ensures bound { WritesAtMost result piece.now }
        ensures moves { IfOk result (λ n. 0 < length piece.now → 0 < n) }
        ensures bytes { WriteAppends (Some self.old.held) (Some self.new.held) result piece.now }
        ensures cause { HasCause self.old.faults self.new.faults result }
        ensures refuses { IsTrue (next_write_fails self.old piece.now)
            → IsErr result × (self.new ≡ write_failed self.old) }
        ensures takes { next_write_fails self.old piece.now ≡ false
            → let n = share self.old (length piece.now) in
            (result ≡ Ok n) × (self.new ≡ write_done self.old (take n piece.now)) }
    {
        let call = self.calls;
        self.calls = call.saturating_add(1);
        let free = self.room as usize - self.bytes.len();
        if is_among(self.fails.as_slice(), call) || (free == 0 && !piece.is_empty()) {
            self.faults = self.faults.saturating_add(1);
            return Err(Failed);
        }
        let count = piece.len().min(self.piece as usize).min(free);
        match self.bytes.extend_from_slice(&piece[..count]) {
            Ok(()) => Ok(count),
            Err(_) => unreachable!(),
        }
    }
}
