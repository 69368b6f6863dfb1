//! What ends a path at once.

ghost use Rattle.std.specs.Prelude.{◌≡◌, ◌⊎◌, ◌<◌, false, List as Items, None, Some, IfOk, IfNone, IfSome, length};
ghost use Rattle.std.specs.Prelude.{slice_get};
ghost use Rattle.xm_design.specs.Designed.{Designed};
ghost use Rattle.xm_flow.specs.ValidLemma.{Lemma};
ghost use Rattle.xm_lits.specs.Paths.{IsClashOn};
ghost use Rattle.xm_lits.specs.Paths as paths;
ghost use Rattle.xm_lits.specs.declared.literal.Lit.{Lit as Literal};
ghost use Rattle.xm_proof.specs.Argument.{step_of};
ghost use Rattle.xm_proof.specs.Valid.{Cites};
ghost use Rattle.xm_search.specs.Inner.Looking.{EndsPath, IsConsistent, any_goal};
ghost use Rattle.xm_search.specs.Inner.Places.{AreEarliest};

use crate::places::earliest_of;
use xm_design::Design;
use xm_lits::{Clash, Lit, are_same, clash};
use xm_model::{List, OutOfMemory};
use xm_proof::Node;

/// The node that ends the path by this clash.
fn node_of(path: &[Lit], found: Clash) -> Node
    requires { (it : Designed) × IsClashOn it path.now found }
    ensures { (it : Designed) (lemmas : Items Lemma) (before : Items Literal) → IsClashOn it path.now found
        → EndsPath it lemmas before path.now (step_of result) }
{
    match found {
        Clash::Pair(i, j) => Node::Clash(path[i as usize], Some(path[j as usize])),
        Clash::Outside(i) => Node::Clash(path[i as usize], None),
        Clash::Eager(c) => Node::Eager(c),
    }
}

/// The node that ends the path by a clash, where it holds one.
pub fn clash_node(design: &Design, path: &List<Lit>) -> Result<Option<Node>, OutOfMemory>
    ensures none { IfOk result (λ node. IfNone node (IsConsistent design.now path.now.items)) }
    ensures some { (lemmas : Items Lemma) (before : Items Literal) → IfOk result (λ node. IfSome node (λ n.
        EndsPath design.now lemmas before path.now.items (step_of n))) }
{
    if path.len() > u32::MAX as usize {
        return Err(OutOfMemory);
    }
    match clash(design, path) {
        Some(found) => Ok(Some(node_of(path.as_slice(), found))),
        None => Ok(None),
    }
}

/// The first place of the literal among the goals.
fn place_of(before: &[Lit], earliest: &List<u32>, lit: &Lit) -> Option<u32>
    requires few { length before.now < 4294967296 }
    requires earliest { AreEarliest before.now earliest.now.items }
    ensures none { IfNone result (paths.is_on_path before.now lit.now ≡ false) }
    ensures some { IfSome result (λ k. slice_get before.now k ≡ Some lit.now) }
{
    for k in earliest_of(earliest, lit)..before.len() {
        if are_same(&before[k], lit) {
            return Some(k as u32);
        }
    }
    None
}

/// The lesser of two places.
fn lesser(one: Option<u32>, other: Option<u32>) -> Option<u32>
    ensures none { IfNone result ((one ≡ None) × (other ≡ None)) }
    ensures some { IfSome result (λ k. (one ≡ Some k) ⊎ (other ≡ Some k)) }
{
    match (one, other) {
        (Some(k), Some(n)) => { if n < k { Some(n) } else { Some(k) } }
        (Some(k), None) => Some(k),
        (None, found) => found,
    }
}

/// The place of the first goal that is on the path.
pub fn cited(before: &[Lit], earliest: &List<u32>, path: &[Lit]) -> Option<u32>
    requires few { length before.now < 4294967296 }
    requires earliest { AreEarliest before.now earliest.now.items }
    ensures none { IfNone result (any_goal path.now before.now ≡ false) }
    ensures some { IfSome result (Cites before.now path.now) }
{
    let mut least = None;
    for lit in path {
        least = lesser(least, place_of(before, earliest, lit));
    }
    least
}
