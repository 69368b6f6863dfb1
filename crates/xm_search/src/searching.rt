//! The search for a proof.

ghost use Rattle.std.specs.Prelude.{◌≡◌, ◌+◌, ◌-◌, ◌∷◌, ◌≤◌, ◌<◌, ◌^◌, [], ℕ, All, IfErr, IfOk, List as Items, length, map};
ghost use Rattle.xm_flow.specs.Holding.{most_pairs, pair_count, queue_pair_count};
ghost use Rattle.xm_flow.specs.ValidLemma.{lemma_of};
ghost use Rattle.xm_lits.specs.declared.literal.Lit.{Lit as Literal};
ghost use Rattle.xm_persist.specs.Rights.{AllGranted};
ghost use Rattle.xm_proof.specs.declared.proof.Node.TheVariants as node;
ghost use Rattle.xm_search.specs.GoalOrder.{IsGoalOrder};
ghost use Rattle.xm_search.specs.Inner.Ground.{IsGround, lemmas_of};
ghost use Rattle.xm_search.specs.Inner.Places.{AreEarliest};
ghost use Rattle.xm_search.specs.Inner.Progress.{Adds, FitsFound, IsHalted, IsNext, IsProgress, TakesIn};
ghost use Rattle.xm_search.specs.Searched.{IsFault, IsFound};

use crate::found::{Candidate, Found, SearchFault};
use crate::goal::{GoalFound, search_goal};
use crate::ground::{Ground, ground_of};
use crate::order::goal_order;
use std::alloc::Global;
use xm_design::Design;
use xm_flow::Invariant;
use xm_lits::Lit;
use xm_model::{List, OutOfMemory};
use xm_proof::{Goal, Node, Proof};

/// The goals that are done with, in so many nodes and pivots.
#[derive(Drop)]
pub struct Progress {
    pub goals: List<Goal>,
    pub nodes: u64,
    pub pivots: u64,
}

/// After a goal the search goes on, or a goal has a candidate, or the budget is spent.
#[derive(Drop)]
pub enum Next {
    On(Progress),
    Open(Candidate),
    Spent(Progress),
}

/// The goals with one more, in so many nodes and pivots more.
fn add_goal(
    progress: Progress,
    lit: Lit,
    tree: List<Node>,
    nodes: u64,
    pivots: u64,
) -> Result<Progress, OutOfMemory>
    requires nodes { progress.nodes + nodes < 2 ^ 64 }
    requires pivots { progress.pivots + pivots < 2 ^ 64 }
    ensures { IfOk result (Adds progress lit tree.items nodes pivots) }
{
    let Progress {
        mut goals,
        nodes: n,
        pivots: p,
    } = progress;
    goals.push(Goal { lit, tree })?;
    Ok(Progress {
        goals,
        nodes: n + nodes,
        pivots: p + pivots,
    })
}

/// An open root that is not paid.
fn open_root(alloc: Global) -> Result<List<Node>, OutOfMemory>
    ensures { IfOk result (λ tree. tree.items ≡ node.Open ∷ []) }
{
    let mut tree = List::new(alloc);
    tree.push(Node::Open)?;
    Ok(tree)
}

/// Takes in what is found for a goal.
fn take_found(progress: Progress, lit: Lit, found: GoalFound) -> Result<Next, OutOfMemory>
    requires { FitsFound progress found }
    ensures { IfOk result (TakesIn progress lit found) }
{
    match found {
        GoalFound::Tree {
            tree,
            nodes,
            pivots,
        } => Ok(Next::On(add_goal(progress, lit, tree, nodes, pivots)?)),
        GoalFound::Open(candidate) => Ok(Next::Open(candidate)),
        GoalFound::Spent {
            tree,
            nodes,
            pivots,
        } => Ok(Next::Spent(add_goal(progress, lit, tree, nodes, pivots)?)),
    }
}

/// Searches the goal at this place of the order, with what is left of the budget.
fn search_next(
    alloc: Global,
    design: &Design,
    ground: &Ground,
    order: &[Lit],
    place: usize,
    budget: u64,
    progress: Progress,
) -> Result<Next, SearchFault>
    requires ground { IsGround design.now ground.now }
    requires few { length order.now < 4294967296 }
    requires earliest { AreEarliest order.now ground.now.earliest.items }
    requires order { IsGoalOrder design.now order.now }
    requires place { place < length order.now }
    requires budget { 1 ≤ budget }
    requires progress { IsProgress design.now (lemmas_of ground.now) order.now budget place progress }
    ensures next { IfOk result (IsNext design.now (lemmas_of ground.now) order.now budget place) }
    ensures fault { IfErr result (IsFault design.now (lemmas_of ground.now)) }
{
    let lit = order[place];
    let left = budget - progress.nodes - progress.pivots;
    if left == 0 {
        let tree = open_root(alloc)?;
        return Ok(Next::Spent(add_goal(progress, lit, tree, 0, 0)?));
    }
    match search_goal(alloc, design, ground, &order[..place], lit, left) {
        Ok(found) => Ok(take_found(progress, lit, found)?),
        Err(fault) => Err(fault),
    }
}

/// All goals are refuted.
fn proved(design: &Design, ground: Ground, progress: Progress) -> Found
    requires { IsGround design.now ground }
    ensures { (order : Items Literal) (budget : ℕ) → IsGoalOrder design.now order → length order < 4294967296
        → budget ≤ 10000000 → IsProgress design.now (lemmas_of ground) order budget (length order) progress
        → IsFound design.now (lemmas_of ground) budget result }
{
    design.is_designed();
    design.colours();
    let Ground { lemmas, .. } = ground;
    let Progress { goals, .. } = progress;
    Found::Proved(Proof { lemmas, goals })
}

/// The budget is spent.
fn halted(design: &Design, ground: Ground, progress: Progress) -> Found
    requires { IsGround design.now ground }
    ensures { (order : Items Literal) (budget : ℕ) → IsGoalOrder design.now order → length order < 4294967296
        → budget ≤ 10000000 → IsHalted design.now (lemmas_of ground) order budget progress
        → IsFound design.now (lemmas_of ground) budget result }
{
    design.is_designed();
    design.colours();
    let Ground { lemmas, .. } = ground;
    let Progress {
        goals,
        nodes,
        pivots,
    } = progress;
    Found::Spent {
        partial: Proof { lemmas, goals },
        nodes,
        pivots,
    }
}

/// Searches the goals in order.
fn search_all(
    alloc: Global,
    design: &Design,
    ground: Ground,
    order: &[Lit],
    budget: u64,
) -> Result<Found, SearchFault>
    requires ground { IsGround design.now ground }
    requires few { length order.now < 4294967296 }
    requires earliest { AreEarliest order.now ground.earliest.items }
    requires order { IsGoalOrder design.now order.now }
    requires low { 1 ≤ budget }
    requires high { budget ≤ 10000000 }
    ensures found { IfOk result (IsFound design.now (lemmas_of ground) budget) }
    ensures fault { IfErr result (IsFault design.now (lemmas_of ground)) }
{
    let mut progress = Progress {
        goals: List::new(alloc),
        nodes: 0,
        pivots: 0,
    };
    for place in 0..order.len() {
        progress = match search_next(alloc, design, &ground, order, place, budget, progress)? {
            Next::On(more) => more,
            Next::Open(candidate) => return Ok(Found::Open(candidate)),
            Next::Spent(more) => return Ok(halted(design, ground, more)),
        };
    }
    Ok(proved(design, ground, progress))
}

/// Searches a proof that no channel jams, with these lemmas, in at most so many nodes and pivots.
pub fn search(
    alloc: Global,
    design: &Design,
    lemmas: &[Invariant],
    budget: u64,
) -> Result<Found, SearchFault>
    requires granted { AllGranted design.now.net }
    requires narrow { pair_count design.now ≤ most_pairs }
    requires few { length lemmas.now ≤ queue_pair_count design.now }
    requires within { All (λ l. All (λ e. e.column < queue_pair_count design.now) l.row.entries)
        (map lemma_of lemmas.now) }
    requires low { 1 ≤ budget }
    requires high { budget ≤ 10000000 }
    ensures found { IfOk result (IsFound design.now (map lemma_of lemmas.now) budget) }
    ensures fault { IfErr result (IsFault design.now (map lemma_of lemmas.now)) }
{
    let order = goal_order(alloc, design)?;
    let goals = order.as_slice();
    if goals.len() > u32::MAX as usize {
        return Err(SearchFault::OutOfMemory);
    }
    let ground = ground_of(alloc, design, lemmas, goals)?;
    search_all(alloc, design, ground, goals, budget)
}
