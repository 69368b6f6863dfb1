//! The elimination over plain rows, from flow rows to a reduced basis.

ghost use Rattle.std.specs.Prelude.{◌≡◌, ◌+◌, ◌<◌, ◌^◌, ℕ, All, IfErr, IfOk, IfSome, IsErr, None, length, map};
ghost use Rattle.xm_elim.specs.Basis.{AreOver, IsConsistent, IsReducedBasis};
ghost use Rattle.xm_elim.specs.Elimination.{ElimOverflows, EndsWith, OnOverflow, Reaches, begun_from};
ghost use Rattle.xm_elim.specs.Inner.Columns.{Covers};
ghost use Rattle.xm_rows.specs.Columns.{columns_of};
ghost use Rattle.xm_elim.specs.Ordered.{IsOrdered};
ghost use Rattle.xm_elim.specs.Inner.Places.{IsPivotPlace, IsPlaceRefused, IsTestRefused};
ghost use Rattle.xm_elim.specs.declared.work.Status.TheVariants as status;
ghost use Rattle.xm_flow.specs.ValidLemma.{lemma_of};
ghost use Rattle.xm_rows.specs.Row.{SparseRow};

use crate::eliminate::eliminate;
use crate::fault::ElimFault;
use crate::gather::{Gathered, gather};
use crate::laws::ends_exclude;
use crate::work::{Matrix, Status, Working, copy};
use std::alloc::Global;
use xm_flow::Invariant;
use xm_model::List;
use xm_rows::{
    Row, combination_gives_back_points, combination_keeps_points, first_factor_is_positive,
};

/// The refusal of a pivot whose lemma fails its test: its working row with itself, at its column.
fn refused(alloc: Global, it: &Working) -> Result<List<Invariant>, ElimFault>
    requires { (column : ℕ) × (it.now.status ≡ status.Pivot column) }
    ensures error { IsErr result }
    ensures overflow { IfErr result (OnOverflow (IsTestRefused it.now)) }
{
    let Status::Pivot(column) = it.status else {
        unreachable!();
    };
    let r = copy(alloc, &it.row)?;
    let s = copy(alloc, &it.row)?;
    Err(ElimFault::Overflow { r, s, column })
}

/// The lemmas, unless one fails its test.
fn tested(alloc: Global, rows: &[Working], gathered: Gathered) -> Result<List<Invariant>, ElimFault>
    requires { IfSome gathered.failed (IsPivotPlace rows.now) }
    ensures ok { IfOk result (λ lemmas. (lemmas ≡ gathered.lemmas) × (gathered.failed ≡ None)) }
    ensures overflow { IfErr result (OnOverflow (IsPlaceRefused rows.now gathered.failed)) }
{
    match gathered.failed {
        None => Ok(gathered.lemmas),
        Some(p) => refused(alloc, &rows[p as usize]),
    }
}

/// What the eliminated rows leave: the lemmas of their pivots, each of which is tested.
fn lemmas_left(
    alloc: Global,
    flow: &[Row],
    it: &Matrix,
    moves: u32,
    counts: u32,
) -> Result<List<Invariant>, ElimFault>
    requires narrow { moves + counts < 2 ^ 20 }
    requires over { AreOver (moves + counts) flow.now }
    requires consistent { IsConsistent flow.now }
    requires reaches { Reaches moves (begun_from (moves + counts) 0 flow.now) (moves + counts) it.now.rows.items }
    requires covers { Covers it.now.rows.items (columns_of it.now.columns.items) }
    requires whole { length it.now.columns.items ≡ moves + counts }
    ensures ends { IfOk result (λ lemmas. EndsWith moves counts flow.now (map lemma_of lemmas.items)) }
    ensures basis { IfOk result (λ lemmas. IsReducedBasis moves counts flow.now (map lemma_of lemmas.items)) }
    ensures ordered { IfOk result (λ lemmas. All IsOrdered (map lemma_of lemmas.items)) }
    ensures overflow { IfErr result (OnOverflow (ElimOverflows moves counts flow.now)) }
    ensures meets { (r s : SparseRow) (column : ℕ) → ElimOverflows moves counts flow.now r s column → IsErr result }
{
    ends_exclude();
    combination_keeps_points();
    combination_gives_back_points();
    first_factor_is_positive();
    let rows = it.rows.as_slice();
    let gathered = gather(alloc, flow, rows, it.columns.as_slice(), moves, counts)?;
    match tested(alloc, rows, gathered) {
        Ok(lemmas) => Ok(lemmas),
        Err(fault) => Err(fault),
    }
}

/// What the elimination leaves of rows over so many columns of moves and then so many of packets.
pub fn lemmas_of(
    alloc: Global,
    flow: &[Row],
    moves: u32,
    counts: u32,
) -> Result<List<Invariant>, ElimFault>
    requires few { length flow.now < 2 ^ 20 }
    requires narrow { moves + counts < 2 ^ 20 }
    requires over { AreOver (moves + counts) flow.now }
    requires consistent { IsConsistent flow.now }
    ensures ends { IfOk result (λ lemmas. EndsWith moves counts flow.now (map lemma_of lemmas.items)) }
    ensures basis { IfOk result (λ lemmas. IsReducedBasis moves counts flow.now (map lemma_of lemmas.items)) }
    ensures ordered { IfOk result (λ lemmas. All IsOrdered (map lemma_of lemmas.items)) }
    ensures overflow { IfErr result (OnOverflow (ElimOverflows moves counts flow.now)) }
    ensures meets { (r s : SparseRow) (column : ℕ) → ElimOverflows moves counts flow.now r s column → IsErr result }
{
    match eliminate(alloc, flow, moves, counts) {
        Err(fault) => Err(fault),
        Ok(it) => lemmas_left(alloc, flow, &it, moves, counts),
    }
}
