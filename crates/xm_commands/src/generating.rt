//! The document of a line of stations, written.

ghost use Rattle.std.specs.Prelude.{◌≤◌};
ghost use Rattle.xm_commands.specs.Change.{change};
ghost use Rattle.xm_commands.specs.Inner.CallEnded.{HasDrawn};
ghost use Rattle.xm_commands.specs.declared.call.Call.TheVariants as call;

use crate::command::Outcome;
use crate::refusal::{Ended, Refusal};
use crate::writing::write_text;
use std::alloc::Global;
use xm_generate::gen_document;
use xm_io::Sink;
use xm_model::OutOfMemory;

/// Writes the document of a line of so many stations, drawn from this seed.
pub fn write_generated<K: Sink>(alloc: Global, size: u32, seed: u64, out: &mut K) -> Ended
    requires low { 2 ≤ size }
    requires high { size ≤ 600 }
    ensures { HasDrawn (call.Generate size seed) (change K.held K.faults out.old out.new) result }
{
    match gen_document(alloc, size, seed) {
        Ok(text) => write_text(out, &text, Outcome::Yes),
        Err(OutOfMemory) => Err(Refusal::Memory),
    }
}
