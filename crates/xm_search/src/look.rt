//! What is seen on a path.

ghost use Rattle.std.specs.Prelude.{◌≡◌, ◌<◌, List as Items, IfOk, IfNone, IfSome, length};
ghost use Rattle.xm_flow.specs.ValidLemma.{Lemma};
ghost use Rattle.xm_lits.specs.declared.literal.Lit.{Lit as Literal};
ghost use Rattle.xm_proof.specs.Argument.{step_of};
ghost use Rattle.xm_proof.specs.Valid.{Closes};
ghost use Rattle.xm_search.specs.Inner.Choosing.{AllAnswered, split_by};
ghost use Rattle.xm_search.specs.Inner.Fitting.{FitsItems};
ghost use Rattle.xm_search.specs.Inner.Ground.{IsGround, lemmas_of};
ghost use Rattle.xm_search.specs.Inner.Looking.{EndsPath, IsSeen};
ghost use Rattle.xm_search.specs.Inner.Places.{AreEarliest};
ghost use Rattle.xm_search.specs.Partial.{IsUndecided};

use crate::ask::{Answer, ask, near_sum};
use crate::choosing::{Chosen, best_rule, end_rule};
use crate::ends::{cited, clash_node};
use crate::ground::Ground;
use std::alloc::Global;
use xm_design::Design;
use xm_lits::Lit;
use xm_model::{List, OutOfMemory};
use xm_proof::{Item, Node};

/// A node ends the path, with so many pivots made; or it is split by a rule; or it is a candidate, with these counts; or a
/// pivot more is needed than are left; or 128 bits are left after so many pivots.
#[derive(Drop)]
pub enum Look {
    Ends(Node, u64),
    Splits(Chosen),
    Point {
        denominator: i128,
        counts: List<i128>,
    },
    Spent,
    Overflow(u64),
}

/// Whether the literal speaks of a queue.
fn speaks(lit: &Lit) -> bool {
    match lit {
        Lit::Full(_) | Lit::Has(_, _) | Lit::Lacks(_, _) => true,
        _ => false,
    }
}

/// Whether one of the last two literals speaks of a queue.
fn ends_with_queue(path: &[Lit]) -> bool {
    let count = path.len();
    if count >= 2 && speaks(&path[count - 2]) {
        return true;
    }
    count >= 1 && speaks(&path[count - 1])
}

/// A sum that closes the path, where one is found near what its last literals say of queues.
fn quick_sum(
    alloc: Global,
    design: &Design,
    ground: &Ground,
    path: &[Lit],
) -> Result<Option<List<Item>>, OutOfMemory>
    requires { IsGround design.now ground.now }
    ensures closes { IfOk result (λ found. IfSome found (λ items.
        Closes design.now (lemmas_of ground.now) path.now items.items)) }
    ensures fits { IfOk result (λ found. IfSome found (λ items. FitsItems items.items)) }
{
    if !ends_with_queue(path) {
        return Ok(None);
    }
    let (places, pairs) = (ground.places.as_slice(), ground.pairs.as_slice());
    near_sum(alloc, &ground.shared, places, design, pairs, path)
}

/// The split by a rule.
pub fn split_node(chosen: &Chosen) -> Result<Node, OutOfMemory>
    ensures { IfOk result (λ node. step_of node ≡ split_by chosen.now) }
{
    let kids = chosen.rule.alternatives.len();
    if kids > u32::MAX as usize {
        return Err(OutOfMemory);
    }
    Ok(Node::Split {
        rule: chosen.rule.name,
        on: chosen.on,
        via: chosen.rule.via,
        kids: kids as u32,
    })
}

/// What ends the path at once, where something does: a clash, an earlier goal, or a rule without alternatives.
fn ending(
    alloc: Global,
    design: &Design,
    before: &[Lit],
    earliest: &List<u32>,
    path: &List<Lit>,
) -> Result<Option<Node>, OutOfMemory>
    requires few { length before.now < 4294967296 }
    requires earliest { AreEarliest before.now earliest.now.items }
    ensures none { IfOk result (λ found. IfNone found (IsUndecided design.now before.now path.now.items)) }
    ensures some { (lemmas : Items Lemma) → IfOk result (λ found. IfSome found (λ node.
        EndsPath design.now lemmas before.now path.now.items (step_of node))) }
{
    if let Some(node) = clash_node(design, path)? {
        return Ok(Some(node));
    }
    if let Some(k) = cited(before, earliest, path.as_slice()) {
        return Ok(Some(Node::Cite(k)));
    }
    match end_rule(alloc, design, path.as_slice())? {
        Some(chosen) => Ok(Some(split_node(&chosen)?)),
        None => Ok(None),
    }
}

/// What the tableau says of a path whose rules all have an alternative on it.
fn look_at_point(
    alloc: Global,
    design: &Design,
    ground: &Ground,
    path: &[Lit],
    left: u64,
) -> Result<Look, OutOfMemory>
    requires { IsGround design.now ground.now }
    ensures { (before : Items Literal) → IsUndecided design.now before path.now → AllAnswered design.now path.now
        → IfOk result (IsSeen design.now (lemmas_of ground.now) before path.now left) }
{
    match ask(
        alloc,
        &ground.shared,
        design,
        ground.pairs.as_slice(),
        path,
        left,
    )? {
        Answer::Sum(items, pivots) => Ok(Look::Ends(Node::Sum(items), pivots)),
        Answer::Point {
            denominator,
            counts,
            ..
        } => Ok(Look::Point {
            denominator,
            counts,
        }),
        Answer::Spent(_) => Ok(Look::Spent),
        Answer::Overflow(pivots) => Ok(Look::Overflow(pivots)),
    }
}

/// What is seen on a path that nothing ends at once: a sum near its last literals, a rule to split by, or what the tableau
/// says.
fn look_further(
    alloc: Global,
    design: &Design,
    ground: &Ground,
    path: &[Lit],
    left: u64,
) -> Result<Look, OutOfMemory>
    requires { IsGround design.now ground.now }
    ensures { (before : Items Literal) → IsUndecided design.now before path.now
        → IfOk result (IsSeen design.now (lemmas_of ground.now) before path.now left) }
{
    if let Some(items) = quick_sum(alloc, design, ground, path)? {
        return Ok(Look::Ends(Node::Sum(items), 0));
    }
    match best_rule(alloc, design, path)? {
        Some(chosen) => Ok(Look::Splits(chosen)),
        None => look_at_point(alloc, design, ground, path, left),
    }
}

/// What is seen on a path, with so many pivots left.
pub fn look_at(
    alloc: Global,
    design: &Design,
    ground: &Ground,
    before: &[Lit],
    path: &List<Lit>,
    left: u64,
) -> Result<Look, OutOfMemory>
    requires ground { IsGround design.now ground.now }
    requires few { length before.now < 4294967296 }
    requires earliest { AreEarliest before.now ground.now.earliest.items }
    ensures { IfOk result (IsSeen design.now (lemmas_of ground.now) before.now path.now.items left) }
{
    if let Some(node) = ending(alloc, design, before, &ground.earliest, path)? {
        return Ok(Look::Ends(node, 0));
    }
    look_further(alloc, design, ground, path.as_slice(), left)
}
