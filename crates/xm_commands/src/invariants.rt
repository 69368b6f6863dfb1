//! The invariants of a design, written.

ghost use Rattle.std.specs.Prelude.{◌≡◌, ℕ, List as Items, Ok, map};
ghost use Rattle.xm_commands.specs.Change.{change};
ghost use Rattle.xm_commands.specs.Inner.Invariants.{IsFlowFault, IsOverflow};
ghost use Rattle.xm_commands.specs.Inner.Prepared.{IsPrepared, IsRefusedAs};
ghost use Rattle.xm_commands.specs.Inner.WhyEnded.{HasAnswered};
ghost use Rattle.xm_commands.specs.Output.{AreInvariants, HasFlow, IsDesignOf};
ghost use Rattle.xm_commands.specs.Refusal.{AsksForFlow, AsksForInvariants};
ghost use Rattle.xm_commands.specs.declared.command.Command.TheVariants as command;
ghost use Rattle.xm_design.specs.Designed.{Designed};
ghost use Rattle.xm_flow.specs.FlowRows.{Flow};
ghost use Rattle.xm_flow.specs.ValidLemma.{lemma_of};
ghost use Rattle.xm_netlist.specs.Doc.{Doc};
ghost use Rattle.xm_netlist.specs.Reading.{document_in};

use crate::command::{Command, Outcome};
use crate::prepared::Prepared;
use crate::refusal::{Ended, Refusal};
use crate::writing::write_text;
use std::alloc::Global;
use xm_elim::{ElimFault, invariants};
use xm_flow::{FlowFault, FlowRows, Invariant, flow};
use xm_io::Sink;
use xm_model::OutOfMemory;
use xm_report::{invariant_text, overflow_line, width_line};

/// The refusal of a net without flow rows.
pub fn flow_refusal(alloc: Global, fault: FlowFault) -> Refusal
    ensures { (bytes : Items ℕ) (it : Command) (doc : Doc) (design : Designed) → document_in bytes ≡ Ok doc
        → IsDesignOf doc design → AsksForFlow it doc design → IsFlowFault design fault
        → IsRefusedAs bytes it result }
{
    match fault {
        FlowFault::TooWide(pairs) => match width_line(alloc, pairs) {
            Ok(line) => Refusal::Net(line),
            Err(OutOfMemory) => Refusal::Memory,
        },
        FlowFault::OutOfMemory => Refusal::Memory,
    }
}

/// The refusal of an elimination without an end.
pub fn elimination_refusal(alloc: Global, fault: &ElimFault) -> Refusal
    ensures { (bytes : Items ℕ) (it : Command) (doc : Doc) (design : Designed) (rows : Flow)
        → document_in bytes ≡ Ok doc → IsDesignOf doc design → AsksForInvariants it doc design → HasFlow design rows
        → IsOverflow design rows fault.now → IsRefusedAs bytes it result }
{
    match fault {
        ElimFault::Overflow { column, .. } => match overflow_line(alloc, *column) {
            Ok(line) => Refusal::Overflow(line),
            Err(OutOfMemory) => Refusal::Memory,
        },
        ElimFault::OutOfMemory => Refusal::Memory,
    }
}

/// Writes the text of these invariants.
fn write_invariant_text<K: Sink>(
    alloc: Global,
    prepared: &Prepared,
    lemmas: &[Invariant],
    out: &mut K,
) -> Ended
    requires { AreInvariants prepared.now.design (map lemma_of lemmas.now) }
    ensures { (bytes : Items ℕ) → IsPrepared bytes prepared.now
        → HasAnswered bytes command.Inv (change K.held K.faults out.old out.new) result }
{
    match invariant_text(alloc, &prepared.names, &prepared.design, lemmas) {
        Ok(text) => write_text(out, &text, Outcome::Yes),
        Err(OutOfMemory) => Err(Refusal::Memory),
    }
}

/// Writes the text of the invariants of these flow rows.
fn write_lemmas<K: Sink>(alloc: Global, prepared: &Prepared, rows: &FlowRows, out: &mut K) -> Ended
    requires { HasFlow prepared.now.design rows.now }
    ensures { (bytes : Items ℕ) → IsPrepared bytes prepared.now
        → HasAnswered bytes command.Inv (change K.held K.faults out.old out.new) result }
{
    match invariants(alloc, &prepared.design, rows) {
        Ok(lemmas) => write_invariant_text(alloc, prepared, lemmas.as_slice(), out),
        Err(fault) => Err(elimination_refusal(alloc, &fault)),
    }
}

/// Writes the text of the invariants of a document that was prepared.
pub fn write_invariants<K: Sink>(alloc: Global, prepared: &Prepared, out: &mut K) -> Ended
    ensures { (bytes : Items ℕ) → IsPrepared bytes prepared.now
        → HasAnswered bytes command.Inv (change K.held K.faults out.old out.new) result }
{
    match flow(alloc, &prepared.design) {
        Ok(rows) => write_lemmas(alloc, prepared, &rows, out),
        Err(fault) => Err(flow_refusal(alloc, fault)),
    }
}
