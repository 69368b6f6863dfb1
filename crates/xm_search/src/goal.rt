//! The search of one goal.

ghost use Rattle.std.specs.Prelude.{◌≡◌, ◌+◌, ◌<◌, ◌≤◌, ◌^◌, [], ◌∷◌, ℕ, List as Items, IfErr, IfOk, length};
ghost use Rattle.xm_design.specs.Designed.{Designed};
ghost use Rattle.xm_flow.specs.ValidLemma.{Lemma};
ghost use Rattle.xm_lits.specs.declared.literal.Lit.{Lit as Literal};
ghost use Rattle.xm_search.specs.Inner.Goals.{IsFaultOn, IsGoalFound, IsTurned, IsWithin, SplitsOrStops, StopsAs};
ghost use Rattle.xm_search.specs.Inner.Ground.{IsGround, lemmas_of};
ghost use Rattle.xm_search.specs.Inner.Growing.{BeginsWith, IsGrown, IsUnderWay, pending, steps_of};
ghost use Rattle.xm_search.specs.Inner.Looking.{IsSeen};
ghost use Rattle.xm_search.specs.Inner.Places.{AreEarliest};
ghost use Rattle.xm_search.specs.Trees.{root};

use crate::choosing::Chosen;
use crate::found::{Candidate, SearchFault};
use crate::ground::Ground;
use crate::growth::{Growth, close, next_path, split, stopped};
use crate::look::{Look, look_at};
use std::alloc::Global;
use xm_design::Design;
use xm_lits::Lit;
use xm_model::{List, OutOfMemory};
use xm_proof::Node;

/// What is found for a goal: a tree, a candidate, or that the budget is spent.
#[derive(Drop)]
pub enum GoalFound {
    Tree {
        tree: List<Node>,
        nodes: u64,
        pivots: u64,
    },
    Open(Candidate),
    Spent {
        tree: List<Node>,
        nodes: u64,
        pivots: u64,
    },
}

/// After a step the tree goes on growing, or something is found.
#[derive(Drop)]
pub enum Turned {
    On(Growth),
    Found(GoalFound),
}

/// The tree as it stands, with so many nodes and pivots more.
fn stop(growth: Growth, more_nodes: u64, more_pivots: u64) -> Result<GoalFound, OutOfMemory>
    requires nodes { growth.nodes + more_nodes < 2 ^ 64 }
    requires pivots { growth.pivots + more_pivots < 2 ^ 64 }
    ensures { IfOk result (StopsAs growth more_nodes more_pivots) }
{
    let (nodes, pivots) = (growth.nodes + more_nodes, growth.pivots + more_pivots);
    let tree = stopped(growth)?;
    Ok(GoalFound::Spent {
        tree,
        nodes,
        pivots,
    })
}

/// Splits the path by the rule, where so many nodes are left as it has alternatives.
fn follow_split(
    alloc: Global,
    growth: Growth,
    path: &[Lit],
    rule: &Chosen,
    left: u64,
) -> Result<Turned, OutOfMemory>
    requires { growth.nodes + growth.pivots + left < 2 ^ 64 }
    ensures { IfOk result (SplitsOrStops growth path.now rule.now left) }
{
    let kids = rule.rule.alternatives.len() as u64;
    if left < kids {
        return Ok(Turned::Found(stop(growth, left, 0)?));
    }
    Ok(Turned::On(split(alloc, growth, path, rule)?))
}

/// Follows what is seen on the path, with so many nodes and pivots left.
fn follow(
    alloc: Global,
    growth: Growth,
    goal: Lit,
    path: List<Lit>,
    left: u64,
    seen: Look,
) -> Result<Turned, SearchFault>
    requires numbers { growth.nodes + growth.pivots + left < 2 ^ 64 }
    requires within { IsWithin left seen }
    ensures turned { (it : Designed) (lemmas : Items Lemma) (before : Items Literal) (budget : ℕ)
        → IsGrown it lemmas before goal budget (steps_of growth) (path.items ∷ pending growth) growth.nodes growth.pivots
        → IsSeen it lemmas before path.items left seen → growth.nodes + growth.pivots + left ≡ budget
        → IfOk result (IsTurned it lemmas before goal budget (length growth.done.items)) }
    ensures fault { (it : Designed) (lemmas : Items Lemma) (before : Items Literal)
        → IsSeen it lemmas before path.items left seen → BeginsWith goal path.items
        → IfErr result (IsFaultOn it lemmas goal) }
{
    match seen {
        Look::Ends(node, pivots) => Ok(Turned::On(close(growth, node, pivots)?)),
        Look::Splits(rule) => Ok(follow_split(alloc, growth, path.as_slice(), &rule, left)?),
        Look::Point {
            denominator,
            counts,
        } => Ok(Turned::Found(GoalFound::Open(Candidate {
            goal,
            lits: path,
            denominator,
            counts,
        }))),
        Look::Spent => Ok(Turned::Found(stop(growth, 0, left)?)),
        Look::Overflow(pivots) => Err(SearchFault::Overflow { path, pivots }),
    }
}

/// One step, on the next path.
fn turn(
    alloc: Global,
    design: &Design,
    ground: &Ground,
    before: &[Lit],
    goal: Lit,
    budget: u64,
    growth: Growth,
) -> Result<Turned, SearchFault>
    requires ground { IsGround design.now ground.now }
    requires few { length before.now < 4294967296 }
    requires earliest { AreEarliest before.now ground.now.earliest.items }
    requires some { 0 < length growth.leaves.items }
    requires grown { IsUnderWay design.now (lemmas_of ground.now) before.now goal budget growth }
    ensures turned { IfOk result (IsTurned design.now (lemmas_of ground.now) before.now goal budget
        (length growth.done.items)) }
    ensures fault { IfErr result (IsFaultOn design.now (lemmas_of ground.now) goal) }
{
    let Growth {
        done,
        mut leaves,
        nodes,
        pivots,
    } = growth;
    let path = next_path(&mut leaves)?;
    let left = budget - nodes - pivots;
    let seen = look_at(alloc, design, ground, before, &path, left)?;
    let growth = Growth {
        done,
        leaves,
        nodes,
        pivots,
    };
    follow(alloc, growth, goal, path, left, seen)
}

/// The root alone.
fn planted(alloc: Global, goal: Lit) -> Result<Growth, OutOfMemory>
    ensures done { IfOk result (λ g. g.done.items ≡ []) }
    ensures leaves { IfOk result (λ g. pending g ≡ root goal) }
    ensures nodes { IfOk result (λ g. g.nodes ≡ 1) }
    ensures pivots { IfOk result (λ g. g.pivots ≡ 0) }
{
    let mut path = List::new(alloc);
    path.push(goal)?;
    let mut leaves = List::new(alloc);
    leaves.push(path)?;
    Ok(Growth {
        done: List::new(alloc),
        leaves,
        nodes: 1,
        pivots: 0,
    })
}

/// Searches a tree for the goal, with the goals before it to cite, in at most so many nodes and pivots.
pub fn search_goal(
    alloc: Global,
    design: &Design,
    ground: &Ground,
    before: &[Lit],
    goal: Lit,
    budget: u64,
) -> Result<GoalFound, SearchFault>
    requires ground { IsGround design.now ground.now }
    requires few { length before.now < 4294967296 }
    requires earliest { AreEarliest before.now ground.now.earliest.items }
    requires budget { 1 ≤ budget }
    ensures found { IfOk result (IsGoalFound design.now (lemmas_of ground.now) before.now goal budget) }
    ensures fault { IfErr result (IsFaultOn design.now (lemmas_of ground.now) goal) }
{
    let mut growth = planted(alloc, goal)?;
    while !growth.leaves.is_empty() {
        growth = match turn(alloc, design, ground, before, goal, budget, growth)? {
            Turned::On(more) => more,
            Turned::Found(found) => return Ok(found),
        };
    }
    let Growth {
        done,
        nodes,
        pivots,
        ..
    } = growth;
    Ok(GoalFound::Tree {
        tree: done,
        nodes,
        pivots,
    })
}
