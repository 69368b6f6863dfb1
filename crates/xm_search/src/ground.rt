//! What the search of one goal shares with that of the others.

ghost use Rattle.std.specs.Prelude.{◌≡◌, ◌++◌, ◌∷◌, ◌<◌, ◌≤◌, [], All, IfOk, OnOk, length, map};
ghost use Rattle.xm_flow.specs.Holding.{queue_pair_count};
ghost use Rattle.xm_flow.specs.ValidLemma.{lemma_of};
ghost use Rattle.xm_search.specs.Inner.Ground.{IsGround, lemmas_of};
ghost use Rattle.xm_search.specs.Inner.Places.{AreEarliest};

use crate::bounds::{Bounds, copy, shared_bounds};
use crate::near::rows_by_column;
use crate::places::earliest_places;
use std::alloc::Global;
use xm_design::Design;
use xm_flow::{Invariant, Part, queue_pairs};
use xm_lits::Lit;
use xm_model::{List, OutOfMemory};

/// The lemmas, the queue pairs, the constraints of the lemmas and the capacities, for each pair the constraints that have
/// an entry in its column, and for each goal a place before which it does not stand.
#[derive(Drop)]
pub struct Ground {
    pub lemmas: List<Invariant>,
    pub pairs: List<(u32, u8)>,
    pub shared: Bounds,
    pub places: List<List<u32>>,
    pub earliest: List<u32>,
}

/// The search numbers fewer queue pairs.
const MOST_PAIRS: usize = 1048576;

/// The same parts.
fn copy_parts(alloc: Global, parts: &[Part]) -> Result<List<Part>, OutOfMemory>
    ensures { IfOk result (λ list. list.items ≡ parts.now) }
{
    let mut list = List::new(alloc);
    for part in parts {
        list.push(*part)?;
    }
    Ok(list)
}

/// Appends the same lemma.
fn push_lemma(
    alloc: Global,
    lemmas: &mut List<Invariant>,
    lemma: &Invariant,
) -> Result<(), OutOfMemory>
    ensures { OnOk result (map lemma_of lemmas.new.items ≡ map lemma_of lemmas.old.items ++ lemma_of lemma.now ∷ []) }
{
    let row = copy(alloc, &lemma.row)?;
    let parts = copy_parts(alloc, lemma.parts.as_slice())?;
    lemmas.push(Invariant {
        row,
        scale: lemma.scale,
        parts,
    })
}

/// The same lemmas.
fn copy_lemmas(alloc: Global, lemmas: &[Invariant]) -> Result<List<Invariant>, OutOfMemory>
    ensures { IfOk result (λ list. map lemma_of list.items ≡ map lemma_of lemmas.now) }
{
    let mut list = List::new(alloc);
    for i in 0..lemmas.len() {
        push_lemma(alloc, &mut list, &lemmas[i])?;
    }
    Ok(list)
}

/// What the search of these goals shares, with these lemmas.
pub fn ground_of(
    alloc: Global,
    design: &Design,
    lemmas: &[Invariant],
    goals: &[Lit],
) -> Result<Ground, OutOfMemory>
    requires few_goals { length goals.now < 4294967296 }
    requires few { length lemmas.now ≤ queue_pair_count design.now }
    requires within { All (λ l. All (λ e. e.column < queue_pair_count design.now) l.row.entries)
        (map lemma_of lemmas.now) }
    ensures ground { IfOk result (IsGround design.now) }
    ensures lemmas { IfOk result (λ g. lemmas_of g ≡ map lemma_of lemmas.now) }
    ensures earliest { IfOk result (λ g. AreEarliest goals.now g.earliest.items) }
{
    let pairs = queue_pairs(alloc, design)?;
    if pairs.len() >= MOST_PAIRS {
        return Err(OutOfMemory);
    }
    let lemmas = copy_lemmas(alloc, lemmas)?;
    let shared = shared_bounds(alloc, design, pairs.as_slice(), lemmas.as_slice())?;
    let places = rows_by_column(alloc, shared.cons.as_slice(), pairs.len() as u32)?;
    let earliest = earliest_places(alloc, goals, design.net().channels())?;
    Ok(Ground {
        lemmas,
        pairs,
        shared,
        places,
        earliest,
    })
}
