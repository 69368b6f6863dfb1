//! The search for a proof, of a document that was prepared.

ghost use Rattle.std.specs.Prelude.{◌≡◌, ℕ, List as Items, Ok, map};
ghost use Rattle.xm_commands.specs.Change.{change};
ghost use Rattle.xm_commands.specs.Inner.Plain.{IsPlain};
ghost use Rattle.xm_commands.specs.Inner.Prepared.{IsPrepared, IsRefusedAs};
ghost use Rattle.xm_commands.specs.Inner.Proving.{AreCited};
ghost use Rattle.xm_commands.specs.Inner.WhyEnded.{HasAnswered};
ghost use Rattle.xm_commands.specs.Output.{HasFlow, IsDesignOf, IsSearched};
ghost use Rattle.xm_commands.specs.declared.command.Command.TheVariants as command;
ghost use Rattle.xm_design.specs.Designed.{Designed};
ghost use Rattle.xm_flow.specs.ValidLemma.{Lemma, lemma_of};
ghost use Rattle.xm_netlist.specs.Doc.{Doc};
ghost use Rattle.xm_netlist.specs.Reading.{document_in};
ghost use Rattle.xm_persist.specs.Rights.{AllGranted};
ghost use Rattle.xm_search.specs.Searched.{IsFault};

use crate::found::write_found;
use crate::invariants::{elimination_refusal, flow_refusal};
use crate::prepared::Prepared;
use crate::refusal::{Ended, Refusal};
use crate::verifying::persistency_refusal;
use std::alloc::Global;
use xm_elim::invariants;
use xm_flow::{FlowRows, Invariant, flow};
use xm_io::Sink;
use xm_model::OutOfMemory;
use xm_persist::persist;
use xm_report::pivots_line;
use xm_search::{SearchFault, search};

/// The refusal of a search whose tableau leaves 128 bits.
fn search_refusal(alloc: Global, fault: &SearchFault) -> Refusal
    ensures { (bytes : Items ℕ) (budget : ℕ) (doc : Doc) (design : Designed) (lemmas : Items Lemma)
        → document_in bytes ≡ Ok doc → IsDesignOf doc design → IsSearched design lemmas
        → IsFault design lemmas fault.now → IsRefusedAs bytes (command.Prove budget) result }
{
    match fault {
        SearchFault::Overflow { pivots, .. } => match pivots_line(alloc, *pivots) {
            Ok(line) => Refusal::Overflow(line),
            Err(OutOfMemory) => Refusal::Memory,
        },
        SearchFault::OutOfMemory => Refusal::Memory,
    }
}

/// Writes what a search with these lemmas finds.
fn write_searched<K: Sink>(
    alloc: Global,
    bytes: &[u8],
    prepared: &Prepared,
    lemmas: &[Invariant],
    budget: u64,
    out: &mut K,
) -> Ended
    requires prepared { IsPrepared bytes.now prepared.now }
    requires cited { AreCited prepared.now.design (map lemma_of lemmas.now) }
    requires plain { IsPlain (command.Prove budget) }
    ensures { HasAnswered bytes.now (command.Prove budget) (change K.held K.faults out.old out.new) result }
{
    match search(alloc, &prepared.design, lemmas, budget) {
        Ok(found) => write_found(alloc, bytes, prepared, lemmas, budget, &found, out),
        Err(fault) => Err(search_refusal(alloc, &fault)),
    }
}

/// Writes what a search over these flow rows finds.
fn search_rows<K: Sink>(
    alloc: Global,
    bytes: &[u8],
    prepared: &Prepared,
    rows: &FlowRows,
    budget: u64,
    out: &mut K,
) -> Ended
    requires prepared { IsPrepared bytes.now prepared.now }
    requires granted { AllGranted prepared.now.design.net }
    requires rows { HasFlow prepared.now.design rows.now }
    requires plain { IsPlain (command.Prove budget) }
    ensures { HasAnswered bytes.now (command.Prove budget) (change K.held K.faults out.old out.new) result }
{
    match invariants(alloc, &prepared.design, rows) {
        Ok(lemmas) => write_searched(alloc, bytes, prepared, lemmas.as_slice(), budget, out),
        Err(fault) => Err(elimination_refusal(alloc, &fault)),
    }
}

/// Writes what a search in so many nodes and pivots finds for a document that was prepared of these bytes.
pub fn write_search<K: Sink>(
    alloc: Global,
    bytes: &[u8],
    prepared: &Prepared,
    budget: u64,
    out: &mut K,
) -> Ended
    requires prepared { IsPrepared bytes.now prepared.now }
    requires plain { IsPlain (command.Prove budget) }
    ensures { HasAnswered bytes.now (command.Prove budget) (change K.held K.faults out.old out.new) result }
{
    match persist(alloc, &prepared.design) {
        Ok(_persistent) => match flow(alloc, &prepared.design) {
            Ok(rows) => search_rows(alloc, bytes, prepared, &rows, budget, out),
            Err(fault) => Err(flow_refusal(alloc, fault)),
        },
        Err(fault) => Err(persistency_refusal(alloc, &prepared.names, fault)),
    }
}
