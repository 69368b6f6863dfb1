//! The constraints near some.

ghost use Rattle.std.specs.Prelude.{◌≡◌, ◌++◌, ◌<◌, [], ◌∷◌, List as Items, OnOk, length, slice_index_or};
ghost use Rattle.xm_lp.specs.declared.decision.Con.{Con as Constraint};
ghost use Rattle.xm_design.specs.Designed.{Designed};
ghost use Rattle.xm_flow.specs.ValidLemma.{Lemma};
ghost use Rattle.xm_lits.specs.declared.literal.Lit.{Lit as Literal};
ghost use Rattle.xm_search.specs.Inner.Named.{AreNamed};

use crate::bounds::{Bounds, push_copy};
use std::alloc::Global;
use xm_lp::Con;
use xm_model::{List, OutOfMemory};

/// How many constraints are near at most.
const MOST_NEAR: usize = 64;

/// Notes constraint `i` for each column where it has an entry.
fn note(places: &mut List<List<u32>>, con: &Con, i: u32) -> Result<(), OutOfMemory> {
    for entry in con.row.entries() {
        let column = entry.column as usize;
        if column < places.len() {
            places.as_mut_slice()[column].push(i)?;
        }
    }
    Ok(())
}

/// For each column the constraints that have an entry there.
pub fn rows_by_column(
    alloc: Global,
    cons: &[Con],
    columns: u32,
) -> Result<List<List<u32>>, OutOfMemory> {
    let mut places = List::new(alloc);
    for _ in 0..columns {
        places.push(List::new(alloc))?;
    }
    for (i, con) in cons.iter().enumerate() {
        if i > u32::MAX as usize {
            return Err(OutOfMemory);
        }
        note(&mut places, con, i as u32)?;
    }
    Ok(places)
}

/// Picks those of the rows that were not picked, while there are few.
fn pick(picked: &mut List<u32>, rows: &[u32]) -> Result<(), OutOfMemory> {
    for row in rows {
        if picked.len() < MOST_NEAR && !picked.as_slice().contains(row) {
            picked.push(*row)?;
        }
    }
    Ok(())
}

/// Picks the constraints that share a column with this one.
fn pick_beside(picked: &mut List<u32>, places: &[List<u32>], con: &Con) -> Result<(), OutOfMemory> {
    for entry in con.row.entries() {
        if let Some(rows) = places.get(entry.column as usize) {
            pick(picked, rows.as_slice())?;
        }
    }
    Ok(())
}

/// The constraints that share a column with one of these, with one of those that are picked, and so on.
fn near(
    alloc: Global,
    shared: &[Con],
    places: &[List<u32>],
    cons: &[Con],
) -> Result<List<u32>, OutOfMemory> {
    let mut picked = List::new(alloc);
    for con in cons {
        pick_beside(&mut picked, places, con)?;
    }
    for k in 0..MOST_NEAR {
        let next = picked.as_slice().get(k).copied();
        if let Some(row) = next {
            if let Some(con) = shared.get(row as usize) {
                pick_beside(&mut picked, places, con)?;
            }
        }
    }
    Ok(picked)
}

/// Appends shared constraint `i`.
fn push_shared(
    alloc: Global,
    bounds: &mut Bounds,
    shared: &Bounds,
    i: usize,
) -> Result<(), OutOfMemory>
    requires here { i < length shared.now.cons.items }
    requires count { length shared.now.items.items ≡ length shared.now.cons.items }
    ensures cons { (none : Constraint) → OnOk result (bounds.new.cons.items
        ≡ bounds.old.cons.items ++ slice_index_or shared.now.cons.items i none ∷ []) }
    ensures named { (it : Designed) (lemmas : Items Lemma) (path : Items Literal) → AreNamed it lemmas path shared.now
        → AreNamed it lemmas path bounds.old → OnOk result (AreNamed it lemmas path bounds.new) }
{
    let (cons, items) = (shared.cons.as_slice(), shared.items.as_slice());
    push_copy(alloc, bounds, &cons[i], items[i])
}

/// Appends all shared constraints.
pub fn push_all(alloc: Global, bounds: &mut Bounds, shared: &Bounds) -> Result<(), OutOfMemory>
    requires { length shared.now.items.items ≡ length shared.now.cons.items }
    ensures cons { OnOk result (bounds.new.cons.items ≡ bounds.old.cons.items ++ shared.now.cons.items) }
    ensures named { (it : Designed) (lemmas : Items Lemma) (path : Items Literal) → AreNamed it lemmas path shared.now
        → AreNamed it lemmas path bounds.old → OnOk result (AreNamed it lemmas path bounds.new) }
{
    for i in 0..shared.cons.len() {
        push_shared(alloc, bounds, shared, i)?;
    }
    Ok(())
}

/// Appends those of the shared constraints that are near the bounds.
pub fn push_near(
    alloc: Global,
    bounds: &mut Bounds,
    shared: &Bounds,
    places: &[List<u32>],
) -> Result<(), OutOfMemory>
    requires { length shared.now.items.items ≡ length shared.now.cons.items }
    ensures { (it : Designed) (lemmas : Items Lemma) (path : Items Literal) → AreNamed it lemmas path shared.now
        → AreNamed it lemmas path bounds.old → OnOk result (AreNamed it lemmas path bounds.new) }
{
    let picked = near(
        alloc,
        shared.cons.as_slice(),
        places,
        bounds.cons.as_slice(),
    )?;
    for row in picked.as_slice() {
        let i = *row as usize;
        if i < shared.cons.len() {
            push_shared(alloc, bounds, shared, i)?;
        }
    }
    Ok(())
}
