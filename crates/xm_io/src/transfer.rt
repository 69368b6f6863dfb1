//! Reading a source to its end, and writing all of some bytes into a sink.

ghost use Rattle.std.specs.Prelude.{◌≡◌, ◌≢◌, ◌≤◌, length, IfOk, OnOk, OnErr, Err};
ghost use Rattle.std.specs.Io.KnownBytes.{Appends};
ghost use Rattle.xm_io.specs.Faults.{Rose, HasCause};
ghost use Rattle.xm_io.specs.Bytes.{ReadsWhole, TakesFront, TakesAtMost, TakesMoreThan, AppendsFront};

use crate::{Failed, Sink, Source};
use std::alloc::Global;
use xm_model::{OutOfMemory, Text};

/// Why a source was not read to its end.
#[derive(Clone, Copy, PartialEq, Eq, Debug)]
pub enum ReadFault {
    /// A call of the source failed.
    Failed,
    /// There are more bytes than the limit.
    TooLong,
    /// There was no memory for the bytes.
    OutOfMemory,
}

impl From<OutOfMemory> for ReadFault {
    ghost use Rattle.std.specs.Prelude.{◌≡◌};
    ghost use Rattle.xm_io.specs.declared.transfer.ReadFault.TheVariants.{OutOfMemory};

    ghost from_gives = { λ _ fault. fault ≡ OutOfMemory };

    fn from(_: OutOfMemory) -> ReadFault {
        ReadFault::OutOfMemory
    }
}

/// All bytes up to the end, where there are at most `limit`. It makes at most `limit + 1` reads.
pub fn read_all<S: Source>(alloc: Global, source: &mut S, limit: u32) -> Result<Text, ReadFault>
    ensures whole { IfOk result (λ text. ReadsWhole (S.left source.old) (S.left source.new) text.items) }
    ensures within { IfOk result (λ text. length text.items ≤ limit) }
    ensures unharmed { result ≢ Err ReadFault.Failed → S.faults source.new ≡ S.faults source.old }
    ensures later { S.faults source.old ≤ S.faults source.new }
    ensures failed { result ≡ Err ReadFault.Failed → Rose (S.faults source.old) (S.faults source.new) }
    ensures failed_within { result ≡ Err ReadFault.Failed
        → TakesAtMost limit (S.left source.old) (S.left source.new) }
    ensures too_long { result ≡ Err ReadFault.TooLong
        → TakesMoreThan limit (S.left source.old) (S.left source.new) }
    ensures front { OnErr result (TakesFront (S.left source.old) (S.left source.new)) }
{
    let mut text = Text::new(alloc);
    let mut buf = [0u8; 4096];
    // Each turn but the last takes a byte.
    for _ in 0..u64::from(limit) + 1 {
        let count = match source.read(&mut buf) {
            Ok(count) => count,
            Err(Failed) => return Err(ReadFault::Failed),
        };
        if count == 0 {
            return Ok(text);
        }
        if count > limit as usize - text.as_bytes().len() {
            return Err(ReadFault::TooLong);
        }
        text.push_bytes(&buf[..count])?;
    }
    unreachable!()
}

/// Appends all of `bytes`, or a front of them and a fault.
pub fn write_all<K: Sink>(sink: &mut K, bytes: &[u8]) -> Result<(), Failed>
    ensures cause { HasCause (K.faults sink.old) (K.faults sink.new) result }
    ensures whole { OnOk result (Appends (K.held sink.old) (K.held sink.new) bytes.now) }
    ensures front { OnErr result (AppendsFront (K.held sink.old) (K.held sink.new) bytes.now) }
{
    let mut done = 0;
    while done < bytes.len() {
        done += sink.write(&bytes[done..])?;
    }
    Ok(())
}
