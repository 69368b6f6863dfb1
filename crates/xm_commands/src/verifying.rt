//! The verdict on a document's proof, written.

ghost use Rattle.std.specs.Prelude.{◌≡◌, ℕ, List as Items, Ok};
ghost use Rattle.xm_check.specs.Break.{IsVerdict};
ghost use Rattle.xm_commands.specs.Change.{change};
ghost use Rattle.xm_commands.specs.Inner.Prepared.{IsPrepared, IsRefusedAs};
ghost use Rattle.xm_commands.specs.Inner.Verifying.{IsPersistFault, proof_read};
ghost use Rattle.xm_commands.specs.Inner.WhyEnded.{HasAnswered};
ghost use Rattle.xm_commands.specs.Output.{HasFlow, IsDesignOf, IsVerdictOf, outcome_of, proof_of};
ghost use Rattle.xm_commands.specs.Refusal.{AsksForRights};
ghost use Rattle.xm_commands.specs.declared.command.Command.{Command as Called};
ghost use Rattle.xm_commands.specs.declared.command.Command.TheVariants as command;
ghost use Rattle.xm_design.specs.Designed.{Designed};
ghost use Rattle.xm_json.specs.Gives.{FailsBy};
ghost use Rattle.xm_model.specs.Naming.{naming_of};
ghost use Rattle.xm_netlist.specs.Doc.{Doc};
ghost use Rattle.xm_netlist.specs.Reading.{document_in};
ghost use Rattle.xm_persist.specs.Rights.{AllGranted};
ghost use Rattle.xm_proof.specs.Argument.{argument_of};
ghost use Rattle.xm_proof.specs.Form.{IsFormed};
ghost use Rattle.xm_proof_reader.specs.Gives.{path_of};
ghost use Rattle.xm_proof_reader.specs.Known.{known_by};
ghost use Rattle.xm_proof_reader.specs.Views.{known_of};

use crate::command::Outcome;
use crate::invariants::flow_refusal;
use crate::prepared::Prepared;
use crate::refusal::{Ended, Refusal};
use crate::writing::write_text;
use std::alloc::Global;
use xm_check::check;
use xm_flow::{FlowRows, flow};
use xm_io::Sink;
use xm_model::{Names, OutOfMemory};
use xm_persist::{PersistFault, persist};
use xm_proof::{Proof, Verdict};
use xm_proof_reader::{Known, ProofFault, read_proof};
use xm_report::{form_line, persistency_line, verdict_text};

/// The refusal of a proof whose form is broken.
fn form_refusal(alloc: Global, fault: &ProofFault) -> Refusal
    ensures { (bytes : Items ℕ) (doc : Doc) (design : Designed) → document_in bytes ≡ Ok doc → IsDesignOf doc design
        → FailsBy path_of fault.now (proof_of doc design) → IsRefusedAs bytes command.Verify result }
{
    match fault {
        ProofFault::Form(path) => match form_line(alloc, path) {
            Ok(line) => Refusal::Proof(line),
            Err(OutOfMemory) => Refusal::Memory,
        },
        ProofFault::OutOfMemory => Refusal::Memory,
    }
}

/// The refusal of a net of which a channel is granted no persistent initiator.
pub fn persistency_refusal(alloc: Global, names: &Names, fault: PersistFault) -> Refusal
    ensures { (bytes : Items ℕ) (it : Called) (doc : Doc) (design : Designed) → document_in bytes ≡ Ok doc
        → naming_of names.now ≡ doc.names → IsDesignOf doc design → AsksForRights it doc design
        → IsPersistFault design.net fault → IsRefusedAs bytes it result }
{
    match fault {
        PersistFault::NotPersistent(c) => match persistency_line(alloc, names, c) {
            Ok(line) => Refusal::Net(line),
            Err(OutOfMemory) => Refusal::Memory,
        },
        PersistFault::OutOfMemory => Refusal::Memory,
    }
}

fn outcome(verdict: Verdict) -> Outcome
    ensures { result ≡ outcome_of verdict }
{
    match verdict {
        Verdict::Yes => Outcome::Yes,
        Verdict::No(_, _) => Outcome::No,
    }
}

/// Writes the text of the verdict.
fn write_said<K: Sink>(alloc: Global, prepared: &Prepared, verdict: Verdict, out: &mut K) -> Ended
    ensures { (bytes : Items ℕ) (is : IsPrepared bytes prepared.now)
        → IsVerdictOf is.doc prepared.now.design verdict
        → HasAnswered bytes command.Verify (change K.held K.faults out.old out.new) result }
{
    match verdict_text(alloc, verdict) {
        Ok(text) => write_text(out, &text, outcome(verdict)),
        Err(OutOfMemory) => Err(Refusal::Memory),
    }
}

/// Writes the verdict on the proof over these flow rows.
fn write_checked<K: Sink>(
    alloc: Global,
    prepared: &Prepared,
    rows: &FlowRows,
    proof: &Proof,
    out: &mut K,
) -> Ended
    requires granted { AllGranted prepared.now.design.net }
    requires rows { HasFlow prepared.now.design rows.now }
    requires proof { proof_read prepared.now ≡ Ok (argument_of proof.now) }
    requires formed { IsFormed (argument_of proof.now) }
    ensures { (bytes : Items ℕ) → IsPrepared bytes prepared.now
        → HasAnswered bytes command.Verify (change K.held K.faults out.old out.new) result }
{
    match check(alloc, &prepared.design, rows, proof) {
        Ok(verdict) => write_said(alloc, prepared, verdict, out),
        Err(OutOfMemory) => Err(Refusal::Memory),
    }
}

/// Writes the verdict on the proof of a net whose channels are granted persistent initiators.
fn answer_persistent<K: Sink>(
    alloc: Global,
    prepared: &Prepared,
    proof: &Proof,
    out: &mut K,
) -> Ended
    requires granted { AllGranted prepared.now.design.net }
    requires proof { proof_read prepared.now ≡ Ok (argument_of proof.now) }
    requires formed { IsFormed (argument_of proof.now) }
    ensures { (bytes : Items ℕ) → IsPrepared bytes prepared.now
        → HasAnswered bytes command.Verify (change K.held K.faults out.old out.new) result }
{
    match flow(alloc, &prepared.design) {
        Ok(rows) => write_checked(alloc, prepared, &rows, proof, out),
        Err(fault) => Err(flow_refusal(alloc, fault)),
    }
}

/// Writes the verdict on the proof.
fn answer_proof<K: Sink>(alloc: Global, prepared: &Prepared, proof: &Proof, out: &mut K) -> Ended
    requires proof { proof_read prepared.now ≡ Ok (argument_of proof.now) }
    requires formed { IsFormed (argument_of proof.now) }
    ensures { (bytes : Items ℕ) → IsPrepared bytes prepared.now
        → HasAnswered bytes command.Verify (change K.held K.faults out.old out.new) result }
{
    match persist(alloc, &prepared.design) {
        Ok(_persistent) => answer_persistent(alloc, prepared, proof, out),
        Err(fault) => Err(persistency_refusal(alloc, &prepared.names, fault)),
    }
}

/// Writes the verdict on the proof of a document that was prepared, of whose names this is known.
fn answer_known<K: Sink>(
    alloc: Global,
    prepared: &Prepared,
    known: &Known<'_>,
    out: &mut K,
) -> Ended
    requires { known_of known.now ≡ known_by prepared.now.design (naming_of prepared.now.names) }
    ensures { (bytes : Items ℕ) → IsPrepared bytes prepared.now
        → HasAnswered bytes command.Verify (change K.held K.faults out.old out.new) result }
{
    match read_proof(alloc, known, prepared.proof.as_ref()) {
        Ok(proof) => answer_proof(alloc, prepared, &proof, out),
        Err(fault) => Err(form_refusal(alloc, &fault)),
    }
}

/// Writes the verdict on the proof of a document that was prepared.
pub fn write_verdict<K: Sink>(alloc: Global, prepared: &Prepared, out: &mut K) -> Ended
    ensures { (bytes : Items ℕ) → IsPrepared bytes prepared.now
        → HasAnswered bytes command.Verify (change K.held K.faults out.old out.new) result }
{
    match Known::new(alloc, &prepared.design, &prepared.names) {
        Ok(known) => answer_known(alloc, prepared, &known, out),
        Err(OutOfMemory) => Err(Refusal::Memory),
    }
}
