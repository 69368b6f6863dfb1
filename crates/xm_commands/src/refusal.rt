//! Why the program refuses: a status and a line of error for each cause.

ghost use Rattle.std.specs.Prelude.{◌≡◌};
ghost use Rattle.xm_commands.specs.Status.{IsTold, line_of, status_of};
ghost use Rattle.xm_commands.specs.declared.refusal.Refusal.TheVariants as refusals;

use crate::command::Outcome;
use xm_io::{Sink, write_all};
use xm_model::{OutOfMemory, Text};

/// A cause of refusal.
#[derive(Drop)]
pub enum Refusal {
    /// The words are none that the program knows.
    Words,
    /// The bytes are no document: the line of its first fault.
    Document(Text),
    /// The net is not well wired, has a colour that is not allowed, has a loop, has a channel that is not granted a
    /// persistent initiator, or is too wide: the line of that.
    Net(Text),
    /// The tape has a fault: its line.
    Tape(Text),
    /// The proof's form is broken: the line of its first break.
    Proof(Text),
    /// The elimination of the moves left 128 bits: the line of that.
    Overflow(Text),
    /// A call of the source failed.
    Read,
    /// A call of the output failed.
    Write,
    /// There was no memory.
    Memory,
    /// There are more bytes than a document may have.
    TooLong,
}

/// How a command ended: how its output turned out, or why it was refused.
pub type Ended = Result<Outcome, Refusal>;

impl From<OutOfMemory> for Refusal {
    ghost from_gives = { λ _ r. r ≡ refusals.Memory };

    fn from(_: OutOfMemory) -> Refusal {
        Refusal::Memory
    }
}

fn line(refusal: &Refusal) -> &[u8]
    ensures { result.now ≡ line_of refusal.now }
{
    match refusal {
        Refusal::Words => b"words\n",
        Refusal::Document(line)
        | Refusal::Net(line)
        | Refusal::Tape(line)
        | Refusal::Proof(line)
        | Refusal::Overflow(line) => line.as_bytes(),
        Refusal::Read => b"read\n",
        Refusal::Write => b"write\n",
        Refusal::Memory => b"memory\n",
        Refusal::TooLong => b"too long\n",
    }
}

fn status(refusal: &Refusal) -> u8
    ensures { result ≡ status_of refusal.now }
{
    match refusal {
        Refusal::Words => 2,
        Refusal::Document(_) => 3,
        Refusal::Net(_) => 4,
        Refusal::Tape(_) | Refusal::Proof(_) => 5,
        Refusal::Read => 6,
        Refusal::Write => 7,
        Refusal::Overflow(_) => 8,
        Refusal::Memory => 9,
        Refusal::TooLong => 10,
    }
}

/// Writes the refusal's line of error, as far as the sink takes it, and answers its status.
pub fn refuse<E: Sink>(err: &mut E, refusal: &Refusal) -> u8
    ensures status { result ≡ status_of refusal.now }
    ensures told { IsTold (line_of refusal.now) (E.held err.old) (E.held err.new)
        (E.faults err.old) (E.faults err.new) }
{
    let _ = write_all(err, line(refusal));
    status(refusal)
}
