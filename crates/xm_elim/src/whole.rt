//! The invariants of a design.

ghost use Rattle.std.specs.Prelude.{ℕ, All, IfErr, IfOk, IsErr, map};
ghost use Rattle.xm_elim.specs.Basis.{IsReducedBasis};
ghost use Rattle.xm_elim.specs.Elimination.{ElimOverflows, EndsWith, OnOverflow};
ghost use Rattle.xm_elim.specs.Ordered.{IsOrdered};
ghost use Rattle.xm_flow.specs.Holding.{IsFlowOf, pair_count, queue_pair_count};
ghost use Rattle.xm_flow.specs.ValidLemma.{lemma_of};
ghost use Rattle.xm_rows.specs.Row.{SparseRow};

use crate::fault::ElimFault;
use crate::solve::lemmas_of;
use std::alloc::Global;
use xm_design::Design;
use xm_flow::{FlowRows, Invariant, flow_holds};
use xm_model::List;

/// All that the flow rows of a design say of packets alone: a reduced basis of it, and how each row of the
/// basis follows from flow rows. `Overflow` comes exactly where the elimination meets a cancellation that
/// leaves 128 bits, and carries the first such. Each row of the basis is then tested as a checker of proofs
/// tests a lemma: where the factors times the flow rows, added up part by part, or the scale times the row
/// leave 128 bits, that counts as a cancellation of that pivot's working row with itself.
pub fn invariants(
    alloc: Global,
    design: &Design,
    rows: &FlowRows,
) -> Result<List<Invariant>, ElimFault>
    requires { IsFlowOf design.now rows.now }
    ensures basis { let moves = pair_count design.now in let counts = queue_pair_count design.now in
        IfOk result (λ lemmas. IsReducedBasis moves counts rows.now.rows (map lemma_of lemmas.items)) }
    ensures ordered { IfOk result (λ lemmas. All IsOrdered (map lemma_of lemmas.items)) }
    ensures ends { let moves = pair_count design.now in let counts = queue_pair_count design.now in
        IfOk result (λ lemmas. EndsWith moves counts rows.now.rows (map lemma_of lemmas.items)) }
    ensures overflow { let moves = pair_count design.now in let counts = queue_pair_count design.now in
        IfErr result (OnOverflow (ElimOverflows moves counts rows.now.rows)) }
    ensures meets { let moves = pair_count design.now in let counts = queue_pair_count design.now in
        (r s : SparseRow) (column : ℕ) → ElimOverflows moves counts rows.now.rows r s column → IsErr result }
{
    flow_holds();
    let _net = design.net();
    let flow = rows.rows().as_slice();
    lemmas_of(alloc, flow, rows.moves(), rows.counts())
}
