//! Trees of a proof, step by step.

ghost use Rattle.std.specs.Prelude.{◌≡◌, ◌≤◌, ◌<◌, ◌++◌, ◌∷◌, [], length, map, reverse, IfOk, OnOk};
ghost use Rattle.xm_check.specs.Break as broken;
ghost use Rattle.xm_check.specs.Inner.Gives.{Gives, GivesAt};
ghost use Rattle.xm_check.specs.Inner.Walking.{AreNested, IsWalking, next_test, paths_of};
ghost use Rattle.xm_flow.specs.ValidLemma as lemmas;
ghost use Rattle.xm_proof.specs.Argument as argument;
ghost use Rattle.xm_proof.specs.Sums.{no_sums};
ghost use Rattle.xm_proof.specs.Tests.{queue_columns};
ghost use Rattle.xm_check.specs.Inner.Queues.{AreOver};

use crate::steps::{Given, check_step};
use crate::stop::{Halt, Stop, at};
use crate::sums::Sums;
use std::alloc::Global;
use xm_lits::Lit;
use xm_model::{List, OutOfMemory};
use xm_proof::{Node, ProofPath};

/// A path that is left to refute: so many literals of the path at hand, and then these.
#[derive(Drop)]
pub struct Left {
    base: u32,
    lits: List<Lit>,
}

/// The path at hand, the paths that are left, the next one last, and sums that are nothing.
#[derive(Drop)]
pub struct Walk {
    path: List<Lit>,
    left: List<Left>,
    sums: Sums,
}

/// One path of one literal is left.
fn start(alloc: Global, lit: Lit, sums: Sums) -> Result<Walk, OutOfMemory>
    ensures left { IfOk result (λ walk. paths_of walk.path.items (reverse walk.left.items) ≡ (lit ∷ []) ∷ []) }
    ensures walk { IfOk result (λ walk. IsWalking walk) }
    ensures sums { IfOk result (λ walk. walk.sums ≡ sums) }
{
    let mut lits = List::new(alloc);
    lits.push(lit)?;
    let mut left = List::new(alloc);
    left.push(Left { base: 0, lits })?;
    Ok(Walk {
        path: List::new(alloc),
        left,
        sums,
    })
}

/// The literals, behind those of the path.
fn extend(path: &mut List<Lit>, lits: &[Lit]) -> Result<(), OutOfMemory>
    ensures { OnOk result (path.new.items ≡ path.old.items ++ lits.now) }
{
    for lit in lits {
        path.push(*lit)?;
    }
    Ok(())
}

/// The path at hand, longer by each of the alternatives, is left.
fn leave(left: &mut List<Left>, base: u32, alternatives: List<List<Lit>>) -> Result<(), OutOfMemory>
    requires { length alternatives.items < 4294967296 }
    ensures { OnOk result (reverse left.new.items ≡ map (λ lits. record { base = base; lits = lits })
        alternatives.items ++ reverse left.old.items) }
{
    let mut alternatives = alternatives;
    while !alternatives.is_empty() {
        let lits = alternatives.remove(alternatives.len() as u32 - 1);
        left.push(Left { base, lits })?;
    }
    Ok(())
}

/// The number, where it fits.
fn counted(n: usize) -> Result<u32, OutOfMemory>
    ensures { IfOk result (λ count. count ≡ n) }
{
    if n > u32::MAX as usize {
        return Err(OutOfMemory);
    }
    Ok(n as u32)
}

/// Tests a step on the path at hand.
fn check_here(
    alloc: Global,
    given: &Given,
    path: List<Lit>,
    left: List<Left>,
    node: &Node,
    sums: Sums,
) -> Result<Walk, Stop>
    requires nested { AreNested (length path.items) (reverse left.items) }
    requires lemmas { AreOver (length (queue_columns given.now.design.now)) given.now.lemmas.now }
    requires sums { sums ≡ no_sums (length (queue_columns given.now.design.now)) }
    ensures verdict { Gives (λ walk. paths_of walk.path.items (reverse walk.left.items)) result (next_test
        given.now.design.now (map lemmas.lemma_of given.now.lemmas.now) (map (λ goal. goal.lit) given.now.before.now)
        (argument.step_of node.now) (path.items ∷ paths_of path.items (reverse left.items))) }
    ensures walk { IfOk result (λ walk. IsWalking walk) }
    ensures sums { IfOk result (λ walk. walk.sums ≡ no_sums (length (queue_columns given.now.design.now))) }
{
    let mut left = left;
    let step = check_step(alloc, given, path.as_slice(), node, sums)?;
    let base = counted(path.len())?;
    let _kids = counted(step.alternatives.len())?;
    leave(&mut left, base, step.alternatives)?;
    Ok(Walk {
        path,
        left,
        sums: step.sums,
    })
}

/// Tests a step on the next path.
fn check_next(alloc: Global, given: &Given, walk: Walk, node: &Node) -> Result<Walk, Stop>
    requires walk { IsWalking walk }
    requires lemmas { AreOver (length (queue_columns given.now.design.now)) given.now.lemmas.now }
    requires sums { walk.sums ≡ no_sums (length (queue_columns given.now.design.now)) }
    ensures verdict { Gives (λ walk. paths_of walk.path.items (reverse walk.left.items)) result (next_test
        given.now.design.now (map lemmas.lemma_of given.now.lemmas.now) (map (λ goal. goal.lit) given.now.before.now)
        (argument.step_of node.now) (paths_of walk.path.items (reverse walk.left.items))) }
    ensures walk { IfOk result (λ walk. IsWalking walk) }
    ensures sums { IfOk result (λ walk. walk.sums ≡ no_sums (length (queue_columns given.now.design.now))) }
{
    let Walk {
        mut path,
        mut left,
        sums,
    } = walk;
    let count = counted(left.len())?;
    if count == 0 {
        return Ok(Walk { path, left, sums });
    }
    let Left { base, lits } = left.remove(count - 1);
    path.truncate(base);
    extend(&mut path, lits.as_slice())?;
    check_here(alloc, given, path, left, node, sums)
}

/// Tests the steps of goal number `k`, and hands the sums back; the first that breaks, and why.
pub fn check_tree(
    alloc: Global,
    given: &Given,
    k: u32,
    lit: Lit,
    nodes: &[Node],
    sums: Sums,
) -> Result<Sums, Halt>
    requires few { length nodes.now < 4294967296 }
    requires lemmas { AreOver (length (queue_columns given.now.design.now)) given.now.lemmas.now }
    requires sums { sums ≡ no_sums (length (queue_columns given.now.design.now)) }
    ensures verdict { GivesAt result (broken.steps_test given.now.design.now (map lemmas.lemma_of
        given.now.lemmas.now) (map (λ goal. goal.lit) given.now.before.now) k 0 (map argument.step_of nodes.now)
        ((lit ∷ []) ∷ [])) }
    ensures sums { IfOk result (λ sums. sums ≡ no_sums (length (queue_columns given.now.design.now))) }
{
    let Ok(mut walk) = start(alloc, lit, sums) else {
        return Err(Halt::OutOfMemory);
    };
    for (i, node) in nodes.iter().enumerate() {
        match check_next(alloc, given, walk, node) {
            Ok(next) => walk = next,
            Err(stop) => return Err(at(ProofPath::Node(k, i as u32), stop)),
        }
    }
    let Walk { sums, .. } = walk;
    Ok(sums)
}
