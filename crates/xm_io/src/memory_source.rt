//! Sources in memory.

ghost use Rattle.std.specs.Prelude.{◌≡◌, ℕ, ◌^◌, ◌<◌, ◌≤◌, min, Some, List, drop, length, Ok, IsTrue, IsOk, IsErr, false};
ghost use Rattle.std.specs.Io.{ReadsAtMost};
ghost use Rattle.std.specs.Io.KnownBytes.{ReadConsumes};
ghost use Rattle.xm_io.specs.Faults.{HasCause};
ghost use Rattle.xm_io.specs.Memory.{Supply, is_listed, next_read_fails, read_failed, gift, read_done, filled};

use crate::{Failed, Source};
use std::marker::Model;
use xm_model::{List, Text};

/// Bytes in memory, given in pieces. It fails in the calls that are listed, counted from 0.
#[derive(Drop)]
pub struct MemSource {
    bytes: Text,
    at: usize,
    piece: u32,
    fails: List<u32>,
    calls: u64,
    faults: u64,
}

impl Model for MemSource {
    ghost use Rattle.std.specs.Prelude.{◌≤◌, drop, length};
    ghost use Rattle.xm_io.specs.Memory.{Supply};

    ghost Value = { Supply };

    ghost view = { λ s. record {
      left = drop s.at s.bytes.items;
      piece = s.piece;
      fails = s.fails.items;
      calls = s.calls;
      faults = s.faults;
    } };

    ghost invariant = { λ s. (1 ≤ s.piece) × (s.at ≤ length s.bytes.items) };
}

impl MemSource {
    /// Gives `bytes`, at most `piece` of them a call, and fails in the calls of `fails`.
    pub fn new(bytes: Text, piece: u32, fails: List<u32>) -> MemSource
        requires { 1 ≤ piece }
        ensures { result ≡ record { left = bytes.items; piece = piece; fails = fails.items; calls = 0; faults = 0 } }
    {
        MemSource {
            bytes,
            at: 0,
            piece,
            fails,
            calls: 0,
            faults: 0,
        }
    }
}

impl Source for MemSource {
    ghost left = { λ s. Some s.left };

    ghost faults = { λ s. s.faults };

    fn read(&mut self, buf: &mut [u8]) -> Result<usize, Failed>
        ensures bound { ReadsAtMost result buf.new }
        ensures bytes { ReadConsumes (Some self.old.left) (Some self.new.left) result buf.new }
        ensures cause { HasCause self.old.faults self.new.faults result }
        ensures listed { IsTrue (next_read_fails self.old)
            → IsErr result × (self.new ≡ read_failed self.old) × (buf.new ≡ buf.old) }
        ensures gives { next_read_fails self.old ≡ false
            → let n = gift self.old (length buf.old) in
            (result ≡ Ok n) × (self.new ≡ read_done self.old n) × (buf.new ≡ filled n self.old.left buf.old) }
    {
        let call = self.calls;
        self.calls = call.saturating_add(1);
        if is_among(self.fails.as_slice(), call) {
            self.faults = self.faults.saturating_add(1);
            return Err(Failed);
        }
        let left = rest_of(&self.bytes, self.at);
        let count = copy_front(left, self.piece as usize, buf);
        self.at += count;
        Ok(count)
    }
}

/// Bytes in memory. Each call gives as many as the buffer takes, and no call fails.
#[derive(Drop)]
pub struct CleanSource {
    bytes: Text,
    at: usize,
}

impl Model for CleanSource {
    ghost use Rattle.std.specs.Prelude.{ℕ, List, ◌≤◌, drop, length};

    ghost Value = { List ℕ };

    ghost view = { λ s. drop s.at s.bytes.items };

    ghost invariant = { λ s. s.at ≤ length s.bytes.items };
}

impl CleanSource {
    /// Gives `bytes`.
    pub fn new(bytes: Text) -> CleanSource
        ensures { result ≡ bytes.items }
    {
        CleanSource { bytes, at: 0 }
    }
}

impl Source for CleanSource {
    ghost left = { λ s. Some s };

    ghost faults = { λ _. 0 };

    fn read(&mut self, buf: &mut [u8]) -> Result<usize, Failed>
        ensures bound { ReadsAtMost result buf.new }
        ensures bytes { ReadConsumes (Some self.old) (Some self.new) result buf.new }
        ensures cause { HasCause 0 0 result }
        ensures never_fails { IsOk result }
        ensures gives { let n = min (length self.old) (length buf.old) in
            (result ≡ Ok n) × (self.new ≡ drop n self.old) × (buf.new ≡ filled n self.old buf.old) }
    {
        let left = rest_of(&self.bytes, self.at);
        let count = copy_front(left, buf.len(), buf);
        self.at += count;
        Ok(count)
    }
}

/// Whether the call is listed.
pub(crate) fn is_among(fails: &[u32], call: u64) -> bool
    ensures { result ≡ is_listed fails.now call }
{
    fails.iter().any(|fail| u64::from(*fail) == call)
}

/// The bytes from this place on.
fn rest_of(bytes: &Text, at: usize) -> &[u8]
    requires { at ≤ length bytes.now.items }
    ensures rest { result.now ≡ drop at bytes.now.items }
    ensures fits { length bytes.now.items < 2 ^ 64 }
{
    &bytes.as_bytes()[at..]
}

/// Copies the first bytes, at most `most` and as many as `buf` takes, and gives their number.
fn copy_front(bytes: &[u8], most: usize, buf: &mut [u8]) -> usize
    ensures count { result ≡ min (min (length bytes.now) most) (length buf.old) }
    ensures copied { buf.new ≡ filled result bytes.now buf.old }
{
    let count = bytes.len().min(most).min(buf.len());
    buf[..count].copy_from_slice(&bytes[..count]);
    count
}
