//! The output of a command, written.

ghost use Rattle.std.specs.Io.KnownBytes.{Appends};
ghost use Rattle.std.specs.Prelude.{◌≡◌, ℕ, List as Items, IfErr, IfOk, OnErr, OnOk};
ghost use Rattle.xm_commands.specs.Change.{change};
ghost use Rattle.xm_commands.specs.Inner.Prepared.{IsPrepared};
ghost use Rattle.xm_commands.specs.Inner.WhyEnded.{HasAnswered};
ghost use Rattle.xm_commands.specs.declared.command.Command.TheVariants as command;
ghost use Rattle.xm_io.specs.Bytes.{AppendsFront};
ghost use Rattle.xm_io.specs.Faults.{HasCause};

use crate::command::Outcome;
use crate::prepared::Prepared;
use crate::refusal::{Ended, Refusal};
use std::alloc::Global;
use xm_io::{Failed, Sink, write_all};
use xm_model::{OutOfMemory, Text};
use xm_report::check_text;

/// Writes these bytes.
pub fn write_bytes<K: Sink>(out: &mut K, bytes: &[u8]) -> Result<(), Refusal>
    ensures whole { OnOk result (Appends (K.held out.old) (K.held out.new) bytes.now) }
    ensures front { OnErr result (AppendsFront (K.held out.old) (K.held out.new) bytes.now) }
    ensures cause { HasCause (K.faults out.old) (K.faults out.new) result }
    ensures only { IfErr result (λ refusal. refusal ≡ Refusal.Write) }
{
    match write_all(out, bytes) {
        Ok(()) => Ok(()),
        Err(Failed) => Err(Refusal::Write),
    }
}

/// Writes a text, which turned out so.
pub fn write_text<K: Sink>(out: &mut K, text: &Text, turned: Outcome) -> Ended
    ensures turned { IfOk result (λ it. it ≡ turned) }
    ensures whole { OnOk result (Appends (K.held out.old) (K.held out.new) text.now.items) }
    ensures front { OnErr result (AppendsFront (K.held out.old) (K.held out.new) text.now.items) }
    ensures cause { HasCause (K.faults out.old) (K.faults out.new) result }
    ensures only { IfErr result (λ refusal. refusal ≡ Refusal.Write) }
{
    match write_bytes(out, text.as_bytes()) {
        Ok(()) => Ok(turned),
        Err(refusal) => Err(refusal),
    }
}

/// Writes the text of the check.
pub fn write_check<K: Sink>(alloc: Global, prepared: &Prepared, out: &mut K) -> Ended
    ensures { (bytes : Items ℕ) → IsPrepared bytes prepared.now
        → HasAnswered bytes command.Check (change K.held K.faults out.old out.new) result }
{
    match check_text(alloc, &prepared.names, &prepared.design) {
        Ok(text) => write_text(out, &text, Outcome::Yes),
        Err(OutOfMemory) => Err(Refusal::Memory),
    }
}
