//! What the tableau says of a path.

ghost use Rattle.std.specs.Prelude.{◌≡◌, ◌≤◌, ◌<◌, ◌++◌, ◌∷◌, [], List as Items, IfOk, OnOk, length};
ghost use Rattle.std.specs.Prelude.{IfSome};
ghost use Rattle.xm_design.specs.Designed.{Designed};
ghost use Rattle.xm_flow.specs.ValidLemma.{Lemma};
ghost use Rattle.xm_lits.specs.declared.literal.Lit.{Lit as Literal};
ghost use Rattle.xm_proof.specs.Tests.{queue_columns};
ghost use Rattle.xm_proof.specs.Valid.{Closes};
ghost use Rattle.xm_search.specs.Constraints.{constraints};
ghost use Rattle.xm_search.specs.Inner.Fitting.{FitsAnswer, FitsItems};
ghost use Rattle.xm_search.specs.Inner.Named.{AreNamed, AreShared};
ghost use Rattle.xm_search.specs.Inner.Taken.{ClosesBy, Says, all_taken, lows_taken, taken};

use crate::bounds::{Bounds, no_bounds, push_literals};
use crate::near::{push_all, push_near};
use std::alloc::Global;
use xm_design::Design;
use xm_lits::Lit;
use xm_lp::{Decision, LpFault, decide};
use xm_model::{List, OutOfMemory};
use xm_proof::Item;

/// What the tableau says of constraints: they add up to `0 at least 1`, a point meets them, a pivot more is needed, or
/// 128 bits are left; with the pivots made.
#[derive(Drop)]
pub enum Answer {
    Sum(List<Item>, u64),
    Point {
        denominator: i128,
        counts: List<i128>,
        pivots: u64,
    },
    Spent(u64),
    Overflow(u64),
}

/// Constraints on a path are fewer.
const MOST_CONSTRAINTS: usize = 1073741824;

/// How many pivots are made at most where no budget counts them.
const MOST_PIVOTS: u64 = 1000;

/// The item, taken so often.
fn taken_item(item: Item, times: i128) -> Item
    ensures { result ≡ taken item times }
{
    match item {
        Item::Lemma(k, _) => Item::Lemma(k, times),
        Item::Cap(q, _) => Item::Cap(q, times),
        Item::Low(q, d, _) => Item::Low(q, d, times),
        Item::Path(lit, _) => Item::Path(lit, times),
    }
}

/// Appends the item, so often taken, unless that is 0.
fn push_item(items: &mut List<Item>, name: &Item, times: &i128) -> Result<(), OutOfMemory>
    ensures { OnOk result (items.new.items ≡ items.old.items ++ all_taken (name.now ∷ []) (times.now ∷ [])) }
{
    if *times == 0 {
        return Ok(());
    }
    items.push(taken_item(*name, *times))
}

/// Appends the items, so often taken, but for those that are not.
fn push_taken(
    items: &mut List<Item>,
    names: &[Item],
    multipliers: &[i128],
) -> Result<(), OutOfMemory>
    requires { length multipliers.now ≡ length names.now }
    ensures { OnOk result (items.new.items ≡ items.old.items ++ all_taken names.now multipliers.now) }
{
    for i in 0..names.len() {
        push_item(items, &names[i], &multipliers[i])?;
    }
    Ok(())
}

/// Appends that the count of the pair is at least 0, so often taken, unless that is 0.
fn push_low(items: &mut List<Item>, pair: (u32, u8), times: &i128) -> Result<(), OutOfMemory>
    ensures { OnOk result (items.new.items ≡ items.old.items ++ lows_taken (pair ∷ []) (times.now ∷ [])) }
{
    if *times == 0 {
        return Ok(());
    }
    items.push(Item::Low(pair.0, pair.1, *times))
}

/// Appends that the counts of the pairs are at least 0, so often taken, but for those that are not.
fn push_lows(items: &mut List<Item>, pairs: &[(u32, u8)], lows: &[i128]) -> Result<(), OutOfMemory>
    requires { length lows.now ≡ length pairs.now }
    ensures { OnOk result (items.new.items ≡ items.old.items ++ lows_taken pairs.now lows.now) }
{
    for k in 0..pairs.len() {
        push_low(items, pairs[k], &lows[k])?;
    }
    Ok(())
}

/// The items of a sum.
fn sum_items(
    alloc: Global,
    names: &[Item],
    pairs: &[(u32, u8)],
    multipliers: &[i128],
    lows: &[i128],
) -> Result<List<Item>, OutOfMemory>
    requires multipliers { length multipliers.now ≡ length names.now }
    requires lows { length lows.now ≡ length pairs.now }
    ensures { IfOk result (λ items. items.items
        ≡ all_taken names.now multipliers.now ++ lows_taken pairs.now lows.now) }
{
    let mut items = List::new(alloc);
    push_taken(&mut items, names, multipliers)?;
    push_lows(&mut items, pairs, lows)?;
    Ok(items)
}

/// What the tableau says of named constraints.
fn answer_of(
    alloc: Global,
    bounds: &Bounds,
    design: &Design,
    pairs: &[(u32, u8)],
    left: u64,
) -> Result<Answer, OutOfMemory>
    requires few { length pairs.now < 1048576 }
    requires pairs { pairs.now ≡ queue_columns design.now }
    requires named { (lemmas : Items Lemma) × ((path : Items Literal) × AreNamed design.now lemmas path bounds.now) }
    ensures says { IfOk result (Says bounds.now.cons.items (length pairs.now) left) }
    ensures closes { (lemmas : Items Lemma) (path : Items Literal) → AreNamed design.now lemmas path bounds.now
        → IfOk result (ClosesBy design.now lemmas path) }
    ensures fits { IfOk result FitsAnswer }
{
    design.is_designed();
    if bounds.cons.len() > MOST_CONSTRAINTS {
        return Err(OutOfMemory);
    }
    match decide(alloc, &bounds.cons, pairs.len() as u32, left) {
        Ok(
            Decision::Infeasible {
                multipliers,
                lows,
                pivots,
            },
        ) => {
            let (names, times) = (bounds.items.as_slice(), multipliers.as_slice());
            let items = sum_items(alloc, names, pairs, times, lows.as_slice())?;
            Ok(Answer::Sum(items, pivots))
        }
        Ok(
            Decision::Point {
                denominator,
                counts,
                pivots,
            },
        ) => Ok(Answer::Point {
            denominator,
            counts,
            pivots,
        }),
        Ok(Decision::Spent(pivots)) => Ok(Answer::Spent(pivots)),
        Err(LpFault::Overflow(pivots)) => Ok(Answer::Overflow(pivots)),
        Err(LpFault::OutOfMemory) => Err(OutOfMemory),
    }
}

/// What the tableau says of the constraints of the path, with so many pivots left.
pub fn ask(
    alloc: Global,
    shared: &Bounds,
    design: &Design,
    pairs: &[(u32, u8)],
    path: &[Lit],
    left: u64,
) -> Result<Answer, OutOfMemory>
    requires few { length pairs.now < 1048576 }
    requires pairs { pairs.now ≡ queue_columns design.now }
    requires shared { (lemmas : Items Lemma) × AreShared design.now lemmas shared.now }
    ensures says { (lemmas : Items Lemma) → AreShared design.now lemmas shared.now
        → IfOk result (Says (constraints design.now lemmas path.now) (length pairs.now) left) }
    ensures closes { (lemmas : Items Lemma) → AreShared design.now lemmas shared.now
        → IfOk result (ClosesBy design.now lemmas path.now) }
    ensures fits { IfOk result FitsAnswer }
{
    let mut bounds = no_bounds(alloc);
    push_all(alloc, &mut bounds, shared)?;
    push_literals(alloc, &mut bounds, design, pairs, path)?;
    answer_of(alloc, &bounds, design, pairs, left)
}

/// A sum that closes the path, where one is found near what its literals say.
pub fn near_sum(
    alloc: Global,
    shared: &Bounds,
    places: &[List<u32>],
    design: &Design,
    pairs: &[(u32, u8)],
    path: &[Lit],
) -> Result<Option<List<Item>>, OutOfMemory>
    requires few { length pairs.now < 1048576 }
    requires pairs { pairs.now ≡ queue_columns design.now }
    requires shared { (lemmas : Items Lemma) × AreShared design.now lemmas shared.now }
    ensures closes { (lemmas : Items Lemma) → AreShared design.now lemmas shared.now
        → IfOk result (λ found. IfSome found (λ items. Closes design.now lemmas path.now items.items)) }
    ensures fits { IfOk result (λ found. IfSome found (λ items. FitsItems items.items)) }
{
    let mut bounds = no_bounds(alloc);
    push_literals(alloc, &mut bounds, design, pairs, path)?;
    push_near(alloc, &mut bounds, shared, places)?;
    match answer_of(alloc, &bounds, design, pairs, MOST_PIVOTS)? {
        Answer::Sum(items, _) => Ok(Some(items)),
        _ => Ok(None),
    }
}
