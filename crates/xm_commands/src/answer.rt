//! What a command writes for the bytes of a document, or why it refuses them.

ghost use Rattle.std.specs.Prelude.{◌≡◌, ℕ, List as Items, IfErr, Ok, OnOk};
ghost use Rattle.xm_commands.specs.Change.{change};
ghost use Rattle.xm_commands.specs.Inner.Plain.{IsPlain};
ghost use Rattle.xm_commands.specs.Inner.Prepared.{IsPrepared, IsRefusedAs, is_want_of_tape};
ghost use Rattle.xm_commands.specs.Inner.WhyEnded.{HasAnswered};
ghost use Rattle.xm_commands.specs.Output.{IsDesignOf};
ghost use Rattle.xm_commands.specs.Refusal.{AsksForTape};
ghost use Rattle.xm_commands.specs.declared.command.Command.TheVariants as command;
ghost use Rattle.xm_design.specs.Designed.{Designed};
ghost use Rattle.xm_model.specs.Naming.{IsNamed, naming_of};
ghost use Rattle.xm_netlist.specs.Doc.{Doc};
ghost use Rattle.xm_netlist.specs.Reading.{document_in};
ghost use Rattle.xm_tape.specs.Gives as tape;
ghost use Rattle.xm_tape.specs.Reading.{tape_in};

use crate::command::{Command, Outcome};
use crate::invariants::write_invariants;
use crate::prepared::{Prepared, prepare};
use crate::prove::write_search;
use crate::refusal::{Ended, Refusal};
use crate::running::write_run;
use crate::verifying::write_verdict;
use crate::writing::write_check;
use std::alloc::Global;
use xm_io::Sink;
use xm_model::OutOfMemory;
use xm_order::one_run;
use xm_report::tape_line;
use xm_tape::{TapeFault, read_tape};

fn is_memory(fault: &TapeFault) -> bool
    ensures { result ≡ is_want_of_tape fault.now }
{
    matches!(fault, TapeFault::OutOfMemory)
}

/// The refusal of a tape.
pub fn tape_refusal(alloc: Global, fault: &TapeFault) -> Refusal
    ensures { (bytes : Items ℕ) (it : Command) (doc : Doc) (design : Designed) → document_in bytes ≡ Ok doc
        → IsDesignOf doc design → AsksForTape it → tape.Fails fault.now (tape_in doc.net doc.tape)
        → IsRefusedAs bytes it result }
{
    if is_memory(fault) {
        return Refusal::Memory;
    }
    match tape_line(alloc, fault) {
        Ok(line) => Refusal::Tape(line),
        Err(OutOfMemory) => Refusal::Memory,
    }
}

/// Reads the tape and writes the text of its run.
fn answer_run<K: Sink>(alloc: Global, prepared: &Prepared, out: &mut K) -> Ended
    requires { IsNamed prepared.now.design.net (naming_of prepared.now.names) }
    ensures { (bytes : Items ℕ) → IsPrepared bytes prepared.now
        → HasAnswered bytes command.Run (change K.held K.faults out.old out.new) result }
{
    one_run();
    prepared.design.net().is_net();
    match read_tape(alloc, &prepared.design, prepared.tape.as_ref()) {
        Ok(tape) => write_run(alloc, &prepared.design, &prepared.names, &tape, out),
        Err(fault) => Err(tape_refusal(alloc, &fault)),
    }
}

/// Writes the output of a command, other than `sim`, for a document that was prepared.
fn answer_prepared<K: Sink>(
    alloc: Global,
    command: Command,
    bytes: &[u8],
    prepared: &Prepared,
    out: &mut K,
) -> Ended
    requires prepared { IsPrepared bytes.now prepared.now }
    requires named { IsNamed prepared.now.design.net (naming_of prepared.now.names) }
    requires plain { IsPlain command }
    ensures { HasAnswered bytes.now command (change K.held K.faults out.old out.new) result }
{
    match command {
        Command::Check => write_check(alloc, prepared, out),
        Command::Run => answer_run(alloc, prepared, out),
        Command::Inv => write_invariants(alloc, prepared, out),
        Command::Verify => write_verdict(alloc, prepared, out),
        Command::Prove(budget) => write_search(alloc, bytes, prepared, budget, out),
        Command::Simulate(_) => unreachable!(),
    }
}

/// Writes the output of a command, other than `sim`, for the bytes. A refusal for the document, its net, its tape, its
/// proof or its invariants leaves `out`.
pub fn answer<K: Sink>(alloc: Global, command: Command, bytes: &[u8], out: &mut K) -> Ended
    requires { IsPlain command }
    ensures { HasAnswered bytes.now command (change K.held K.faults out.old out.new) result }
{
    match prepare(alloc, bytes) {
        Ok(prepared) => answer_prepared(alloc, command, bytes, &prepared, out),
        Err(refusal) => Err(refusal),
    }
}
