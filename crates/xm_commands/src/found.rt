//! What a search for a proof found, written.

ghost use Rattle.serde_json.specs.View.{view};
ghost use Rattle.serde_json.specs.Written.{compact_text};
ghost use Rattle.std.specs.Prelude.{◌≡◌, ℕ, List as Items, IfOk, Ok, length, map};
ghost use Rattle.xm_commands.specs.Change.{change};
ghost use Rattle.xm_commands.specs.Inner.Prepared.{IsPrepared};
ghost use Rattle.xm_commands.specs.Inner.Proving.{AreCited, IsValueOf, known_in};
ghost use Rattle.xm_commands.specs.Inner.WhyEnded.{HasAnswered};
ghost use Rattle.xm_commands.specs.Output.{IsSearched, with_proof as proved};
ghost use Rattle.xm_commands.specs.declared.command.Command.TheVariants as command;
ghost use Rattle.xm_flow.specs.Holding.{queue_pair_count};
ghost use Rattle.xm_flow.specs.ValidLemma.{Lemma, lemma_of};
ghost use Rattle.xm_model.specs.Naming.{naming_of};
ghost use Rattle.xm_netlist.specs.Doc.{Doc};
ghost use Rattle.xm_netlist.specs.Documented.{doc_of};
ghost use Rattle.xm_netlist.specs.Reading.{document_in};
ghost use Rattle.xm_netlist.specs.Valid.{IsPart};
ghost use Rattle.xm_proof.specs.Argument.{argument_of};
ghost use Rattle.xm_proof_writer.specs.Writable.{CanBeWritten};
ghost use Rattle.xm_proof_writer.specs.Writing.{proof_data};
ghost use Rattle.xm_report.specs.Search.{spent_text as text_of_spent};
ghost use Rattle.xm_search.specs.Searched.{IsFound, IsFull, IsOfForm, IsOpen, IsSpent};
ghost use Rattle.xm_writer.specs.Writing.{text_of};

use crate::command::Outcome;
use crate::prepared::Prepared;
use crate::refusal::{Ended, Refusal};
use crate::writing::write_text;
use serde_json::Value;
use std::alloc::Global;
use xm_flow::Invariant;
use xm_io::Sink;
use xm_model::{OutOfMemory, Text};
use xm_netlist::{Document, read_document};
use xm_proof::{Goal, Proof};
use xm_proof_reader::Known;
use xm_proof_writer::{invariants_can_be_written, names_tell, proof_text, write_proof};
use xm_report::{open_text, spent_text};
use xm_search::{Candidate, Found};
use xm_writer::write_document;

/// The document with this proof in the place of its own.
fn with_proof(document: Document, proof: Value) -> Document
    ensures { doc_of result ≡ proved (doc_of document) (view proof) }
{
    let Document {
        net,
        names,
        allow,
        tape,
        proof: _,
    } = document;
    Document {
        net,
        names,
        allow,
        tape,
        proof: Some(proof),
    }
}

/// The text of the document of these bytes with this proof. The document was read before, and fails now only for want
/// of memory.
fn document_text(alloc: Global, bytes: &[u8], proof: Value) -> Result<Text, OutOfMemory>
    requires { IsPart (view proof) }
    ensures text { (doc : Doc) → document_in bytes.now ≡ Ok doc
        → IfOk result (λ text. text.items ≡ text_of (proved doc (view proof))) }
    ensures again { (doc : Doc) → document_in bytes.now ≡ Ok doc
        → IfOk result (λ text. document_in text.items ≡ Ok (proved doc (view proof))) }
{
    match read_document(alloc, bytes) {
        Ok(document) => write_document(alloc, &with_proof(document, proof)),
        Err(_fault) => Err(OutOfMemory),
    }
}

/// The value of the proof.
fn proof_value(alloc: Global, prepared: &Prepared, proof: &Proof) -> Result<Value, OutOfMemory>
    requires { CanBeWritten (known_in prepared.now) (argument_of proof.now) }
    ensures { IfOk result (λ value. IsValueOf (known_in prepared.now) (argument_of proof.now) (view value)) }
{
    let known = Known::new(alloc, &prepared.design, &prepared.names)?;
    write_proof(alloc, &known, proof)
}

/// Writes the document with the proof.
fn write_proved<K: Sink>(
    alloc: Global,
    bytes: &[u8],
    prepared: &Prepared,
    proof: &Proof,
    out: &mut K,
) -> Ended
    requires prepared { IsPrepared bytes.now prepared.now }
    requires cited { AreCited prepared.now.design (argument_of proof.now).lemmas }
    requires form { IsOfForm prepared.now.design (argument_of proof.now).lemmas (argument_of proof.now) }
    ensures { (budget : ℕ)
        → IsFull prepared.now.design (argument_of proof.now).lemmas budget (argument_of proof.now)
        → HasAnswered bytes.now (command.Prove budget) (change K.held K.faults out.old out.new) result }
{
    names_tell();
    invariants_can_be_written();
    match proof_value(alloc, prepared, proof) {
        Ok(value) => match document_text(alloc, bytes, value) {
            Ok(text) => write_text(out, &text, Outcome::Yes),
            Err(OutOfMemory) => Err(Refusal::Memory),
        },
        Err(OutOfMemory) => Err(Refusal::Memory),
    }
}

/// Writes the candidate.
fn write_open<K: Sink>(
    alloc: Global,
    bytes: &[u8],
    prepared: &Prepared,
    candidate: &Candidate,
    out: &mut K,
) -> Ended
    requires prepared { IsPrepared bytes.now prepared.now }
    requires counts { length candidate.now.counts.items ≡ queue_pair_count prepared.now.design }
    ensures { (budget : ℕ) (lemmas : Items Lemma) → IsSearched prepared.now.design lemmas
        → IsOpen prepared.now.design lemmas candidate.now.goal candidate.now.lits.items candidate.now.denominator
        candidate.now.counts.items
        → HasAnswered bytes.now (command.Prove budget) (change K.held K.faults out.old out.new) result }
{
    match open_text(
        alloc,
        &prepared.names,
        &prepared.design,
        &candidate.goal,
        candidate.lits.as_slice(),
        candidate.counts.as_slice(),
        candidate.denominator,
    ) {
        Ok(text) => write_text(out, &text, Outcome::No),
        Err(OutOfMemory) => Err(Refusal::Memory),
    }
}

/// The text of a partial proof, with its last goal, in so many nodes and pivots.
fn partial_text(
    alloc: Global,
    prepared: &Prepared,
    partial: &Proof,
    last: &Goal,
    nodes: u64,
    pivots: u64,
) -> Result<Text, OutOfMemory>
    requires { CanBeWritten (known_in prepared.now) (argument_of partial.now) }
    ensures { IfOk result (λ text. text.items ≡ text_of_spent (naming_of prepared.now.names) nodes pivots last.now.lit
        (compact_text (proof_data (known_in prepared.now) (argument_of partial.now)))) }
{
    let known = Known::new(alloc, &prepared.design, &prepared.names)?;
    let proof = proof_text(alloc, &known, partial)?;
    spent_text(
        alloc,
        &prepared.names,
        nodes,
        pivots,
        &last.lit,
        proof.as_bytes(),
    )
}

/// Writes how far the budget went.
fn write_spent<K: Sink>(
    alloc: Global,
    bytes: &[u8],
    prepared: &Prepared,
    partial: &Proof,
    nodes: u64,
    pivots: u64,
    out: &mut K,
) -> Ended
    requires prepared { IsPrepared bytes.now prepared.now }
    requires form { IsOfForm prepared.now.design (argument_of partial.now).lemmas (argument_of partial.now) }
    requires cited { AreCited prepared.now.design (argument_of partial.now).lemmas }
    ensures { (budget : ℕ)
        → IsSpent prepared.now.design (argument_of partial.now).lemmas budget (argument_of partial.now) nodes pivots
        → HasAnswered bytes.now (command.Prove budget) (change K.held K.faults out.old out.new) result }
{
    names_tell();
    invariants_can_be_written();
    match partial.goals.as_slice() {
        [.., last] => match partial_text(alloc, prepared, partial, last, nodes, pivots) {
            Ok(text) => write_text(out, &text, Outcome::No),
            Err(OutOfMemory) => Err(Refusal::Memory),
        },
        [] => Err(Refusal::Memory),
    }
}

/// Writes what was found.
pub fn write_found<K: Sink>(
    alloc: Global,
    bytes: &[u8],
    prepared: &Prepared,
    lemmas: &[Invariant],
    budget: u64,
    found: &Found,
    out: &mut K,
) -> Ended
    requires prepared { IsPrepared bytes.now prepared.now }
    requires cited { AreCited prepared.now.design (map lemma_of lemmas.now) }
    requires found { IsFound prepared.now.design (map lemma_of lemmas.now) budget found.now }
    ensures { HasAnswered bytes.now (command.Prove budget) (change K.held K.faults out.old out.new) result }
{
    match found {
        Found::Proved(proof) => write_proved(alloc, bytes, prepared, proof, out),
        Found::Open(candidate) => write_open(alloc, bytes, prepared, candidate, out),
        Found::Spent {
            partial,
            nodes,
            pivots,
        } => write_spent(alloc, bytes, prepared, partial, *nodes, *pivots, out),
    }
}
