//! A tree that grows.

ghost use Rattle.std.specs.Prelude.{◌≡◌, ◌+◌, ◌<◌, ◌≤◌, ◌^◌, ◌++◌, ◌∷◌, [], ℕ, suc, List as Items, IfOk, OnOk, length, map};
ghost use Rattle.xm_lits.specs.Inference.{alternatives_of};
ghost use Rattle.xm_proof.specs.Argument.{Open as OpenStep, step_of};
ghost use Rattle.xm_proof.specs.Tests as tests;
ghost use Rattle.xm_search.specs.Inner.Growing.{Grows, Splits, stacked};

use crate::choosing::Chosen;
use crate::look::split_node;
use std::alloc::Global;
use xm_lits::Lit;
use xm_model::{List, OutOfMemory};
use xm_proof::Node;

/// A tree that grows: its first nodes in preorder, and the paths of the open leaves behind them, of which the next is the
/// last; how many nodes and pivots are paid.
#[derive(Drop)]
pub struct Growth {
    pub done: List<Node>,
    pub leaves: List<List<Lit>>,
    pub nodes: u64,
    pub pivots: u64,
}

/// Takes the next path off the stack.
pub fn next_path(leaves: &mut List<List<Lit>>) -> Result<List<Lit>, OutOfMemory>
    requires { 0 < length leaves.old.items }
    ensures { IfOk result (λ path. stacked leaves.old.items [] ≡ path.items ∷ stacked leaves.new.items []) }
{
    let count = leaves.len();
    if count > u32::MAX as usize {
        return Err(OutOfMemory);
    }
    Ok(leaves.remove(count as u32 - 1))
}

/// Appends these literals.
fn push_lits(path: &mut List<Lit>, lits: &[Lit]) -> Result<(), OutOfMemory>
    ensures { OnOk result (path.new.items ≡ path.old.items ++ lits.now) }
{
    for lit in lits {
        path.push(*lit)?;
    }
    Ok(())
}

/// The path, longer by these literals.
fn longer(alloc: Global, path: &[Lit], more: &[Lit]) -> Result<List<Lit>, OutOfMemory>
    ensures { IfOk result (λ longer. longer.items ≡ path.now ++ more.now) }
{
    let mut longer = List::new(alloc);
    push_lits(&mut longer, path)?;
    push_lits(&mut longer, more)?;
    Ok(longer)
}

/// Puts the path, longer by each of the alternatives, on the stack, so that the first comes next.
fn push_kids(
    alloc: Global,
    leaves: &mut List<List<Lit>>,
    path: &[Lit],
    alternatives: &[List<Lit>],
) -> Result<(), OutOfMemory>
    ensures { OnOk result (stacked leaves.new.items []
        ≡ tests.longer path.now (alternatives_of alternatives.now) ++ stacked leaves.old.items []) }
{
    let count = alternatives.len();
    for i in 0..count {
        let kid = longer(alloc, path, alternatives[count - 1 - i].as_slice())?;
        leaves.push(kid)?;
    }
    Ok(())
}

/// Puts a node that ends the next path, with so many pivots made on it.
pub fn close(growth: Growth, node: Node, pivots: u64) -> Result<Growth, OutOfMemory>
    requires { growth.pivots + pivots < 2 ^ 64 }
    ensures { IfOk result (Grows growth (step_of node) [] 0 pivots) }
{
    let Growth {
        mut done,
        leaves,
        nodes,
        pivots: made,
    } = growth;
    done.push(node)?;
    Ok(Growth {
        done,
        leaves,
        nodes,
        pivots: made + pivots,
    })
}

/// Splits the next path, which is this one, by the rule.
pub fn split(
    alloc: Global,
    growth: Growth,
    path: &[Lit],
    chosen: &Chosen,
) -> Result<Growth, OutOfMemory>
    requires { growth.nodes + length chosen.now.rule.alternatives.items < 2 ^ 64 }
    ensures { IfOk result (Splits growth path.now chosen.now) }
{
    let Growth {
        mut done,
        mut leaves,
        nodes,
        pivots,
    } = growth;
    let alternatives = chosen.rule.alternatives.as_slice();
    done.push(split_node(chosen)?)?;
    push_kids(alloc, &mut leaves, path, alternatives)?;
    Ok(Growth {
        done,
        leaves,
        nodes: nodes + alternatives.len() as u64,
        pivots,
    })
}

/// Appends an open leaf for each path.
fn push_open(done: &mut List<Node>, leaves: &[List<Lit>]) -> Result<(), OutOfMemory>
    ensures { OnOk result (map step_of done.new.items
        ≡ map step_of done.old.items ++ map (λ _. OpenStep) leaves.now) }
{
    for _path in leaves {
        done.push(Node::Open)?;
    }
    Ok(())
}

/// The whole tree, with an open leaf on the next path and on each of those behind it.
pub fn stopped(growth: Growth) -> Result<List<Node>, OutOfMemory>
    ensures { IfOk result (λ tree. map step_of tree.items
        ≡ (map step_of growth.done.items ++ OpenStep ∷ []) ++ map (λ _. OpenStep) growth.leaves.items) }
{
    let Growth {
        mut done,
        leaves,
        ..
    } = growth;
    done.push(Node::Open)?;
    push_open(&mut done, leaves.as_slice())?;
    Ok(done)
}
