//! Whether a list of tasks is an order in which each can be done.

ghost use Rattle.std.specs.Prelude.{◌≡◌, ◌^◌, ◌<◌, cond, true, length, map, slice_index, IsTrue};
ghost use Rattle.xm_model.specs.Component.{component_of};
ghost use Rattle.xm_order.specs.Loop.{rank};
ghost use Rattle.xm_plan.specs.Inner.Checks as spec;
ghost use Rattle.xm_plan.specs.Inner.Checks.{AreAmong, IsAmong, IsInOrder, stands_by};
ghost use Rattle.xm_plan.specs.Schedule.{IsSchedule, SameTasks};

use xm_design::Task;
use xm_model::Prim;
use xm_order::Signal;

/// The rank of a signal in the order offer 0, ready 0, offer 1, and so on.
pub fn rank(it: Signal) -> usize
    ensures { result ≡ rank it }
{
    match it {
        Signal::Offer(c) => 2 * c as usize,
        Signal::Ready(c) => 2 * c as usize + 1,
    }
}

fn is_output(prim: &Prim, place: u32) -> bool
    ensures { result ≡ spec.is_output (component_of prim.now) place }
{
    match prim {
        Prim::Source { out, .. }
        | Prim::Queue { out, .. }
        | Prim::Function { out, .. }
        | Prim::Join { out, .. }
        | Prim::Merge { out, .. } => *out == place,
        Prim::Sink { .. } => false,
        Prim::Fork { a, b, .. } | Prim::Switch { a, b, .. } => *a == place || *b == place,
    }
}

fn is_input(prim: &Prim, place: u32) -> bool
    ensures { result ≡ spec.is_input (component_of prim.now) place }
{
    match prim {
        Prim::Source { .. } => false,
        Prim::Sink { input, .. }
        | Prim::Queue { input, .. }
        | Prim::Function { input, .. }
        | Prim::Fork { input, .. }
        | Prim::Switch { input, .. } => *input == place,
        Prim::Join { a, b, .. } | Prim::Merge { a, b, .. } => *a == place || *b == place,
    }
}

/// Whether the primitive makes this signal.
pub fn is_maker(prim: &Prim, signal: Signal) -> bool
    ensures { result ≡ spec.is_maker (component_of prim.now) signal }
{
    match signal {
        Signal::Offer(c) => is_output(prim, c),
        Signal::Ready(c) => is_input(prim, c),
    }
}

/// Where the signal stands, counted from 1; 0 where it is not known to stand anywhere.
pub fn position_of(positions: &[u32], signal: Signal) -> usize
    ensures { result ≡ slice_index positions.now (rank signal) }
{
    match positions.get(rank(signal)) {
        Some(position) => *position as usize,
        None => 0,
    }
}

fn stands(positions: &[u32], k: usize, signal: Signal) -> bool
    ensures { result ≡ stands_by positions.now k signal }
{
    position_of(positions, signal) <= k
}

/// Whether all that a primitive's offer needs stand among the first `k`, or nowhere.
fn offer_follows(prim: &Prim, place: u32, positions: &[u32], k: usize) -> bool
    ensures { result ≡ spec.offer_follows (stands_by positions.now k) (component_of prim.now) place }
{
    match prim {
        Prim::Source { .. } | Prim::Sink { .. } | Prim::Queue { .. } => true,
        Prim::Function { input, .. } | Prim::Switch { input, .. } => {
            stands(positions, k, Signal::Offer(*input))
        }
        Prim::Fork { input, a, b, .. } => {
            stands(positions, k, Signal::Offer(*input))
                && stands_if(place == *a, positions, k, Signal::Ready(*b))
                && stands_if(place == *b, positions, k, Signal::Ready(*a))
        }
        Prim::Join { a, b, .. } | Prim::Merge { a, b, .. } => {
            stands(positions, k, Signal::Offer(*a)) && stands(positions, k, Signal::Offer(*b))
        }
    }
}

fn stands_if(test: bool, positions: &[u32], k: usize, signal: Signal) -> bool
    ensures { result ≡ cond test (stands_by positions.now k signal) true }
{
    if test {
        stands(positions, k, signal)
    } else {
        true
    }
}

/// Whether all that a primitive's readiness needs stand among the first `k`, or nowhere.
fn ready_follows(prim: &Prim, place: u32, positions: &[u32], k: usize) -> bool
    ensures { result ≡ spec.ready_follows (stands_by positions.now k) (component_of prim.now) place }
{
    match prim {
        Prim::Source { .. } | Prim::Sink { .. } | Prim::Queue { .. } => true,
        Prim::Function { out, .. } => stands(positions, k, Signal::Ready(*out)),
        Prim::Fork { a, b, .. } => {
            stands(positions, k, Signal::Ready(*a)) && stands(positions, k, Signal::Ready(*b))
        }
        Prim::Join { a, b, out, .. } => {
            stands(positions, k, Signal::Ready(*out))
                && stands_if(place == *a, positions, k, Signal::Offer(*b))
                && stands_if(place == *b, positions, k, Signal::Offer(*a))
        }
        Prim::Switch { input, a, b, .. } => {
            stands(positions, k, Signal::Offer(*input))
                && stands(positions, k, Signal::Ready(*a))
                && stands(positions, k, Signal::Ready(*b))
        }
        Prim::Merge { a, b, out } => {
            stands(positions, k, Signal::Offer(*a))
                && stands(positions, k, Signal::Offer(*b))
                && stands(positions, k, Signal::Ready(*out))
        }
    }
}

/// Whether all that a primitive's signal needs stand among the first `k`, or nowhere.
pub fn follows(prim: &Prim, signal: Signal, positions: &[u32], k: usize) -> bool
    ensures { result ≡ spec.follows (stands_by positions.now k) (component_of prim.now) signal }
{
    match signal {
        Signal::Offer(c) => offer_follows(prim, c, positions, k),
        Signal::Ready(c) => ready_follows(prim, c, positions, k),
    }
}

/// Whether the task, which is number `k`, stands where its signal is said to stand, and after all that it needs.
fn is_in_order(prims: &[Prim], positions: &[u32], task: Task, k: usize) -> bool
    requires { k < 2 ^ 32 }
    ensures { IsTrue result → IsInOrder (map component_of prims.now) positions.now task k }
{
    let p = task.prim as usize;
    if p >= prims.len() {
        return false;
    }
    let prim = &prims[p];
    is_maker(prim, task.signal)
        && position_of(positions, task.signal) == k + 1
        && follows(prim, task.signal, positions, k)
}

/// Whether all tasks do.
pub fn is_schedule(prims: &[Prim], positions: &[u32], tasks: &[Task]) -> bool
    requires { length tasks.now < 2 ^ 32 }
    ensures { IsTrue result → IsSchedule (map component_of prims.now) tasks.now }
{
    for k in 0..tasks.len() {
        if !is_in_order(prims, positions, tasks[k], k) {
            return false;
        }
    }
    true
}

/// Whether the task is the one that stands where its signal is said to stand.
fn is_among(tasks: &[Task], positions: &[u32], task: Task) -> bool
    ensures { IsTrue result → IsAmong tasks.now task }
{
    let position = position_of(positions, task.signal);
    if position == 0 || position > tasks.len() {
        return false;
    }
    let there = tasks[position - 1];
    there.signal == task.signal && there.prim == task.prim
}

/// Whether each of these tasks is one of the others.
fn are_among(tasks: &[Task], positions: &[u32], others: &[Task]) -> bool
    ensures { IsTrue result → AreAmong tasks.now others.now }
{
    for task in others {
        if !is_among(tasks, positions, *task) {
            return false;
        }
    }
    true
}

/// Whether both are the same tasks, where these are the positions in each.
pub fn are_same(first: &[Task], first_at: &[u32], second: &[Task], second_at: &[u32]) -> bool
    ensures { IsTrue result → SameTasks first.now second.now }
{
    are_among(second, second_at, first) && are_among(first, first_at, second)
}
