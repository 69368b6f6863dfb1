//! Lemmas of a proof against the flow rows.

ghost use Rattle.std.specs.Prelude.{◌≡◌, ◌<◌, ◌+◌, ◌^◌, ◌↔◌, All, IfNone, IfOk, IfSome, IsTrue, length, map};
ghost use Rattle.xm_check.specs.Break.{IsFirstLemmaBreak, LemmaBreaks};
ghost use Rattle.xm_check.specs.Inner.Queues.{AreOver, IsOver};
ghost use Rattle.xm_design.specs.Designed.{Designed};
ghost use Rattle.xm_flow.specs.Holding.{IsFlowOf};
ghost use Rattle.xm_flow.specs.Slots.{AreBelow};
ghost use Rattle.xm_flow.specs.ValidLemma.{lemma_of};
ghost use Rattle.xm_proof.specs.Valid.{AreLemmas, IsLemma};

use std::alloc::Global;
use xm_flow::{FlowRows, Invariant, Part, Slot, Tested, test_lemma, test_slots};
use xm_model::OutOfMemory;
use xm_proof::Reason;
use xm_rows::Entry;

/// Whether the parts are of flow rows, of which there are so many.
fn are_parts(parts: &[Part], rows: usize) -> bool
    ensures { IsTrue result ↔ All (λ p. p.flow < rows) parts.now }
{
    for part in parts {
        if part.flow as usize >= rows {
            return false;
        }
    }
    true
}

/// Whether the entries are in one of so many columns.
fn are_over(entries: &[Entry], columns: u32) -> bool
    ensures { IsTrue result ↔ IsOver columns entries.now }
{
    for entry in entries {
        if entry.column >= columns {
            return false;
        }
    }
    true
}

/// Tests lemma number `n`; why it breaks, if it does. Before it the slots are those of earlier lemmas.
fn check_lemma(slots: &mut [Slot], n: u32, flow: &FlowRows, lemma: &Invariant) -> Option<Reason>
    requires whole { length slots.old ≡ flow.now.moves + flow.now.counts }
    requires within { All (λ r. All (λ e. e.column < flow.now.moves + flow.now.counts) r.entries) flow.now.rows }
    requires below { AreBelow n slots.old }
    ensures none { IfNone result ((it : Designed) → IsFlowOf it flow.now
        → IsLemma it flow.now.rows (lemma_of lemma.now)) }
    ensures some { IfSome result (λ why. (it : Designed) → IsFlowOf it flow.now
        → LemmaBreaks it flow.now.rows (lemma_of lemma.now) why) }
    ensures over { IfNone result (IsOver flow.now.counts lemma.now.row.entries) }
    ensures below { IfNone result (AreBelow (n + 1) slots.new) }
{
    if lemma.scale <= 0 {
        return Some(Reason::Scale);
    }
    let rows = flow.rows().as_slice();
    if !are_parts(lemma.parts.as_slice(), rows.len()) {
        return Some(Reason::Lemma);
    }
    if !are_over(lemma.row.entries(), flow.counts()) {
        return Some(Reason::Lemma);
    }
    match test_lemma(slots, n, rows, flow.moves(), flow.counts(), lemma) {
        Tested::Leaves => Some(Reason::Overflow),
        Tested::Differs => Some(Reason::Lemma),
        Tested::Holds => None,
    }
}

/// Tests the lemmas in order: the first that breaks, by its place, and why.
pub fn check_lemmas(
    alloc: Global,
    flow: &FlowRows,
    lemmas: &[Invariant],
) -> Result<Option<(u32, Reason)>, OutOfMemory>
    requires few { length lemmas.now < 2 ^ 32 }
    requires within { All (λ r. All (λ e. e.column < flow.now.moves + flow.now.counts) r.entries) flow.now.rows }
    ensures none { IfOk result (λ first. IfNone first ((it : Designed) → IsFlowOf it flow.now
        → AreLemmas it flow.now.rows (map lemma_of lemmas.now))) }
    ensures some { IfOk result (λ first. IfSome first (λ at. (it : Designed) → IsFlowOf it flow.now
        → IsFirstLemmaBreak it flow.now.rows (map lemma_of lemmas.now) at.0 at.1)) }
    ensures over { IfOk result (λ first. IfNone first (AreOver flow.now.counts lemmas.now)) }
{
    let _rows = flow.rows();
    let mut held = test_slots(alloc, flow.moves() + flow.counts())?;
    let slots = held.as_mut_slice();
    for k in 0..lemmas.len() {
        if let Some(why) = check_lemma(slots, k as u32 + 1, flow, &lemmas[k]) {
            return Ok(Some((k as u32, why)));
        }
    }
    Ok(None)
}
