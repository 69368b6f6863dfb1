//! A depth-first walk over the channels of a net, from each to those that come next behind it.

ghost use Rattle.std.specs.Prelude.{◌≡◌, ◌-◌, ◌<◌, [], ◌∷◌, ◌++◌, ℕ, List as Items, IfOk, IfNone, IfSome, Some};
ghost use Rattle.std.specs.Prelude.{length, take, slice_get, slice_set, slice_index_or, true};
ghost use Rattle.std.specs.List.{range_with_len};
ghost use Rattle.xm_model.specs.Component.{component_of};
ghost use Rattle.xm_model.specs.Net.{outputs};
ghost use Rattle.xm_search.specs.GoalOrder.{onward};
ghost use Rattle.xm_search.specs.Inner.Walking.{AreMarks, IsOver, IsPartWay, IsUnderWay};
ghost use Rattle.xm_search.specs.Inner.Walking.{IsWalked, first_unmarked, steps_left};
ghost use Rattle.xm_search.specs.Walk.{IsLeavingOrder};

use std::alloc::Global;
use xm_model::{List, Net, OutOfMemory, Prim};

/// The channels that were left, in order; the path, of which each channel was entered from the one before; and for
/// each channel whether it was seen.
#[derive(Drop)]
pub struct Walk {
    left: List<u32>,
    path: List<u32>,
    seen: List<bool>,
}

/// The channel, where it is not marked.
fn unmarked(seen: &[bool], c: u32) -> Option<u32>
    ensures { result ≡ first_unmarked seen.now (c ∷ []) }
{
    if c as usize >= seen.len() {
        return None;
    }
    if seen[c as usize] { None } else { Some(c) }
}

/// The first output of the primitive that is not marked.
fn next_output(seen: &[bool], prim: &Prim) -> Option<u32>
    ensures { result ≡ first_unmarked seen.now (outputs (component_of prim.now)) }
{
    match prim {
        Prim::Sink { .. } => None,
        Prim::Source { out, .. }
        | Prim::Queue { out, .. }
        | Prim::Function { out, .. }
        | Prim::Join { out, .. }
        | Prim::Merge { out, .. } => unmarked(seen, *out),
        Prim::Fork { a, b, .. } | Prim::Switch { a, b, .. } => match unmarked(seen, *a) {
            Some(c) => Some(c),
            None => unmarked(seen, *b),
        },
    }
}

/// Enters a channel that was not seen.
fn enter(walk: Walk, c: u32) -> Result<Walk, OutOfMemory>
    requires { c < length walk.seen.items }
    ensures left { IfOk result (λ w. w.left.items ≡ walk.left.items) }
    ensures path { IfOk result (λ w. w.path.items ≡ walk.path.items ++ c ∷ []) }
    ensures seen { IfOk result (λ w. w.seen.items ≡ slice_set walk.seen.items c true) }
{
    let Walk {
        left,
        mut path,
        mut seen,
    } = walk;
    path.push(c)?;
    seen.as_mut_slice()[c as usize] = true;
    Ok(Walk { left, path, seen })
}

/// Leaves the last channel of the path.
fn leave(walk: Walk, last: u32) -> Result<Walk, OutOfMemory>
    requires { 0 < length walk.path.items }
    ensures left { IfOk result (λ w. w.left.items ≡ walk.left.items ++ last ∷ []) }
    ensures path { IfOk result (λ w. w.path.items ≡ take (length walk.path.items - 1) walk.path.items) }
    ensures seen { IfOk result (λ w. w.seen.items ≡ walk.seen.items) }
{
    let Walk {
        mut left,
        mut path,
        seen,
    } = walk;
    let count = path.len();
    if count > u32::MAX as usize {
        return Err(OutOfMemory);
    }
    left.push(last)?;
    path.truncate(count as u32 - 1);
    Ok(Walk { left, path, seen })
}

/// The last channel of the path.
fn last_of(path: &[u32]) -> u32
    requires { 0 < length path.now }
    ensures { slice_get path.now (length path.now - 1) ≡ Some result }
{
    path[path.len() - 1]
}

/// One step from the last channel of the path: on to the first that comes next and was not seen, or, where all were, it
/// is left.
fn step(walk: Walk, net: &Net) -> Result<Walk, OutOfMemory>
    requires some { 0 < length walk.path.items }
    requires over { IsOver net.now walk }
    ensures over { IfOk result (IsOver net.now) }
    ensures less { IfOk result (λ w. steps_left w < steps_left walk) }
    ensures under_way { (before : Items ℕ) (root : ℕ) (old : Items ℕ)
        → IsUnderWay (onward net.now) before root old walk
        → IfOk result (IsUnderWay (onward net.now) before root old) }
{
    net.is_net();
    let last = last_of(walk.path.as_slice());
    let prim = net.prim(net.target(last));
    match next_output(walk.seen.as_slice(), prim) {
        Some(c) => enter(walk, c),
        None => leave(walk, last),
    }
}

/// Walks from a channel, unless it was seen.
fn visit(walk: Walk, net: &Net, root: u32) -> Result<Walk, OutOfMemory>
    requires over { IsOver net.now walk }
    requires path { walk.path.items ≡ [] }
    requires root { root < net.now.channels }
    ensures over { IfOk result (IsOver net.now) }
    ensures path { IfOk result (λ w. w.path.items ≡ []) }
    ensures walked { (before : Items ℕ) → AreMarks before walk.seen.items
        → IfOk result (IsWalked (onward net.now) before root walk.left.items) }
{
    if walk.seen.as_slice()[root as usize] {
        return Ok(walk);
    }
    let mut walk = enter(walk, root)?;
    while !walk.path.is_empty() {
        walk = step(walk, net)?;
    }
    Ok(walk)
}

/// The channels in the order in which a walk from each channel in turn leaves them. Time and memory are linear in the
/// channels, and the path of the walk stands on the heap.
pub fn leaving_order(alloc: Global, net: &Net) -> Result<List<u32>, OutOfMemory>
    ensures { IfOk result (λ order. IsLeavingOrder (onward net.now) (range_with_len 0 net.now.channels) order.items) }
{
    let channels = net.channels();
    let mut walk = Walk {
        left: List::new(alloc),
        path: List::new(alloc),
        seen: List::filled(alloc, false, channels)?,
    };
    for c in 0..channels {
        walk = visit(walk, net, c)?;
    }
    let Walk { left, .. } = walk;
    Ok(left)
}
