//! The test that flow rows make a lemma, and whether it stays within 128 bits.

ghost use Rattle.std.specs.Prelude.{◌≡◌, ◌<◌, ◌⊎◌, ◌↔◌, ◌+◌, ◌^◌, ◌+ℤ◌, ◌*ℤ◌, ◌<ℤ◌, pos, All, IfOk, IfSome, IfNone, IsTrue, length};
ghost use Rattle.xm_flow.specs.Inner.Testing.{AreAdded, AreWeighed, EntriesLeave, IsAdded, IsMet, IsPartAdded, IsScaled, PartLeaves, PartsFit, scaled_at, sum_at, sum_in};
ghost use Rattle.xm_flow.specs.Slots.{AreBelow};
ghost use Rattle.xm_flow.specs.Tested.{IsTested};
ghost use Rattle.xm_flow.specs.ValidLemma.{IsValid, TestFits, flow_at, lemma_of};
ghost use Rattle.xm_rows.specs.Row.{Fits128, IsRising, IsRow};

use crate::invariant::{Invariant, Part};
use std::alloc::Global;
use xm_model::{List, OutOfMemory};
use xm_rows::{Entry, Row, product, sum};

/// A sum in a column, of the lemma with this number. For any other lemma it stands for 0, so no slot need be cleared.
#[derive(Clone, Copy, Debug)]
pub struct Slot {
    pub lemma: u32,
    pub sum: i128,
}

/// What the slot holds for lemma `n`.
fn sum_of(slot: Slot, n: u32) -> i128
    ensures { result ≡ sum_in n slot }
{
    if slot.lemma == n { slot.sum } else { 0 }
}

/// Adds the term in the column, unless that leaves 128 bits.
fn add(slots: &mut [Slot], n: u32, column: u32, term: i128) -> bool
    requires { column < length slots.old }
    ensures added { IsTrue result → IsAdded n column term slots.old slots.new }
    ensures fits { IsTrue result ↔ Fits128 (sum_at n slots.old column +ℤ term) }
    ensures below { AreBelow (n + 1) slots.old → AreBelow (n + 1) slots.new }
{
    let Some(total) = sum(sum_of(slots[column as usize], n), term) else {
        return false;
    };
    slots[column as usize] = Slot {
        lemma: n,
        sum: total,
    };
    true
}

/// Adds the factor times the entries, unless a product or a sum leaves 128 bits.
fn add_entries(slots: &mut [Slot], n: u32, factor: i128, entries: &[Entry]) -> bool
    requires within { All (λ e. e.column < length slots.old) entries.now }
    requires rising { IsRising entries.now }
    ensures added { IsTrue result → AreAdded n factor entries.now slots.old slots.new }
    ensures leaves { IsTrue result ⊎ EntriesLeave n factor entries.now slots.old }
    ensures below { AreBelow (n + 1) slots.old → AreBelow (n + 1) slots.new }
{
    for entry in entries {
        let Some(term) = product(factor, entry.value) else {
            return false;
        };
        if !add(slots, n, entry.column, term) {
            return false;
        }
    }
    true
}

/// Adds the part's flow row, taken as often as its factor says, and gives the constants' sum so far, unless something
/// leaves 128 bits.
fn add_part(slots: &mut [Slot], n: u32, flow: &[Row], part: Part, total: i128) -> Option<i128>
    requires place { part.flow < length flow.now }
    requires rows { All IsRow flow.now }
    requires within { All (λ r. All (λ e. e.column < length slots.old) r.entries) flow.now }
    ensures added { IfSome result (IsPartAdded n flow.now part total slots.old slots.new) }
    ensures leaves { IfNone result (PartLeaves n flow.now part total slots.old) }
    ensures below { AreBelow (n + 1) slots.old → AreBelow (n + 1) slots.new }
{
    let row = &flow[part.flow as usize];
    if !add_entries(slots, n, part.factor, row.entries()) {
        return None;
    }
    let Some(term) = product(part.factor, row.constant()) else {
        return None;
    };
    let Some(next) = sum(total, term) else {
        return None;
    };
    Some(next)
}

/// Adds up the parts, column by column in the slots, and gives the sum of their constants, unless something leaves 128
/// bits.
fn weigh(slots: &mut [Slot], n: u32, flow: &[Row], parts: &[Part]) -> Option<i128>
    requires places { All (λ p. p.flow < length flow.now) parts.now }
    requires rows { All IsRow flow.now }
    requires within { All (λ r. All (λ e. e.column < length slots.old) r.entries) flow.now }
    requires below { AreBelow n slots.old }
    ensures weighed { IfSome result (AreWeighed n flow.now parts.now slots.new) }
    ensures leaves { IfNone result (¬ PartsFit flow.now parts.now) }
    ensures below { AreBelow (n + 1) slots.new }
{
    let mut total = 0;
    for part in parts {
        let Some(next) = add_part(slots, n, flow, *part, total) else {
            return None;
        };
        total = next;
    }
    Some(total)
}

/// Whether the product stays within 128 bits.
fn is_product(a: i128, b: i128) -> bool
    ensures { IsTrue result ↔ Fits128 (a *ℤ b) }
{
    product(a, b).is_some()
}

/// Whether the row stays within 128 bits, taken as often as the scale says.
fn scales(it: &Invariant) -> bool
    ensures { IsTrue result ↔ IsScaled (lemma_of it.now) }
{
    for entry in it.row.entries() {
        if !is_product(it.scale, entry.value) {
            return false;
        }
    }
    is_product(it.scale, it.row.constant())
}

/// Whether the test that the parts make lemma number `n` stays within 128 bits. Before it the slots are those of
/// earlier lemmas, one for each column of the flow rows.
pub fn test_fits(slots: &mut [Slot], n: u32, flow: &[Row], it: &Invariant) -> bool
    requires places { All (λ p. p.flow < length flow.now) it.now.parts.items }
    requires rows { All IsRow flow.now }
    requires within { All (λ r. All (λ e. e.column < length slots.old) r.entries) flow.now }
    requires below { AreBelow n slots.old }
    ensures fits { IsTrue result ↔ TestFits flow.now (lemma_of it.now) }
    ensures below { AreBelow (n + 1) slots.new }
{
    if weigh(slots, n, flow, it.parts.as_slice()).is_none() {
        return false;
    }
    scales(it)
}

/// What the test that parts make a lemma shows: a number leaves 128 bits, or the two sides differ, or the lemma holds.
#[derive(Clone, Copy, PartialEq, Eq, Debug)]
pub enum Tested {
    Leaves,
    Differs,
    Holds,
}

/// What the scale times the row has in a column of flow rows, of which so many are moves.
fn scaled(it: &Invariant, moves: u32, column: u32) -> i128
    requires { IsScaled (lemma_of it.now) }
    ensures { result ≡ scaled_at moves (lemma_of it.now) column }
{
    let _row = it.row.entries();
    if column < moves {
        return 0;
    }
    it.scale * it.row.value_at(column - moves)
}

/// Whether the column has the same on both sides.
fn is_met(slots: &[Slot], n: u32, moves: u32, it: &Invariant, column: u32) -> bool
    requires column { column < length slots.now }
    requires scaled { IsScaled (lemma_of it.now) }
    ensures { IsTrue result ↔ IsMet n moves (lemma_of it.now) slots.now column }
{
    sum_of(slots[column as usize], n) == scaled(it, moves, column)
}

/// Whether each column of a flow row has.
fn are_met(slots: &[Slot], n: u32, moves: u32, it: &Invariant, entries: &[Entry]) -> bool
    requires within { All (λ e. e.column < length slots.now) entries.now }
    requires scaled { IsScaled (lemma_of it.now) }
    ensures { IsTrue result ↔ All (λ e. IsMet n moves (lemma_of it.now) slots.now e.column) entries.now }
{
    for entry in entries {
        if !is_met(slots, n, moves, it, entry.column) {
            return false;
        }
    }
    true
}

/// Whether each column of the parts' flow rows has.
fn parts_met(slots: &[Slot], n: u32, flow: &[Row], moves: u32, it: &Invariant) -> bool
    requires places { All (λ p. p.flow < length flow.now) it.now.parts.items }
    requires within { All (λ r. All (λ e. e.column < length slots.now) r.entries) flow.now }
    requires scaled { IsScaled (lemma_of it.now) }
    ensures { IsTrue result ↔ All (λ p. All (λ e. IsMet n moves (lemma_of it.now) slots.now e.column)
        (flow_at flow.now p.flow).entries) it.now.parts.items }
{
    for part in it.parts.as_slice() {
        if !are_met(slots, n, moves, it, flow[part.flow as usize].entries()) {
            return false;
        }
    }
    true
}

/// Whether each column of the lemma's row has.
fn row_met(slots: &[Slot], n: u32, moves: u32, it: &Invariant) -> bool
    requires within { All (λ e. moves + e.column < length slots.now) it.now.row.entries }
    requires few { length slots.now < 2 ^ 20 }
    requires scaled { IsScaled (lemma_of it.now) }
    ensures { IsTrue result ↔ All (λ e. IsMet n moves (lemma_of it.now) slots.now (moves + e.column))
        it.now.row.entries }
{
    for entry in it.row.entries() {
        if !is_met(slots, n, moves, it, moves + entry.column) {
            return false;
        }
    }
    true
}

/// Whether the parts, whose sums stand in the slots, make the lemma.
fn is_made(
    slots: &[Slot],
    n: u32,
    flow: &[Row],
    moves: u32,
    counts: u32,
    it: &Invariant,
    total: i128,
) -> bool
    requires whole { length slots.now ≡ moves + counts }
    requires few { moves + counts < 2 ^ 20 }
    requires places { All (λ p. p.flow < length flow.now) it.now.parts.items }
    requires within { All (λ r. All (λ e. e.column < moves + counts) r.entries) flow.now }
    requires counts { All (λ e. e.column < counts) it.now.row.entries }
    requires positive { pos 0 <ℤ it.now.scale }
    requires scaled { IsScaled (lemma_of it.now) }
    requires weighed { AreWeighed n flow.now it.now.parts.items slots.now total }
    ensures { IsTrue result ↔ IsValid moves counts flow.now (lemma_of it.now) }
{
    if total != it.scale * it.row.constant() {
        return false;
    }
    if !row_met(slots, n, moves, it) {
        return false;
    }
    parts_met(slots, n, flow, moves, it)
}

/// Tests that the parts make lemma number `n`, over so many columns of moves and then so many of packets. Before it the
/// slots are those of earlier lemmas, one for each column.
pub fn test_lemma(
    slots: &mut [Slot],
    n: u32,
    flow: &[Row],
    moves: u32,
    counts: u32,
    it: &Invariant,
) -> Tested
    requires whole { length slots.old ≡ moves + counts }
    requires few { moves + counts < 2 ^ 20 }
    requires places { All (λ p. p.flow < length flow.now) it.now.parts.items }
    requires rows { All IsRow flow.now }
    requires within { All (λ r. All (λ e. e.column < moves + counts) r.entries) flow.now }
    requires counts { All (λ e. e.column < counts) it.now.row.entries }
    requires positive { pos 0 <ℤ it.now.scale }
    requires below { AreBelow n slots.old }
    ensures tested { IsTested moves counts flow.now (lemma_of it.now) result }
    ensures below { AreBelow (n + 1) slots.new }
{
    let Some(total) = weigh(slots, n, flow, it.parts.as_slice()) else {
        return Tested::Leaves;
    };
    if !scales(it) {
        return Tested::Leaves;
    }
    if is_made(slots, n, flow, moves, counts, it, total) {
        return Tested::Holds;
    }
    Tested::Differs
}

/// A slot for each column.
pub fn test_slots(alloc: Global, columns: u32) -> Result<List<Slot>, OutOfMemory>
    ensures whole { IfOk result (λ slots. length slots.items ≡ columns) }
    ensures below { IfOk result (λ slots. AreBelow 1 slots.items) }
{
    let slots = List::filled(alloc, Slot { lemma: 0, sum: 0 }, columns)?;
    Ok(slots)
}
