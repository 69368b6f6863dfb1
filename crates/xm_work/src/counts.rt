//! Counts: snapshots that the caller of a simulation takes while the workers work.
ghost use Rattle.std.specs.Prelude.{◌≡◌, ℕ, ◌<◌, ◌≤◌, ◌^◌, IfOk, IfSome, IsTrue, vec_len, length, ◌++◌, ◌∷◌, []};
ghost use Rattle.xm_turn.specs.Passes.{IsPassOf, knows, IsFree};
ghost use Rattle.xm_turn.specs.Views.{IsLater};
ghost use Rattle.xm_work.specs.Passes.{Returns};
ghost use Rattle.xm_work.specs.Counts as spec;
ghost use Rattle.xm_work.specs.Counts.{AreCounts, NoneMissing};
ghost use Rattle.xm_work.specs.Inner.Counting.{AreCountsOf};

use crate::bench::Bench;
use crate::snapshots::snapshot;
use std::sync::Wait;
use std::sync::atomic::AtomicBool;
use std::sync::atomic::Ordering::SeqCst;
use xm_io::Gate;
use xm_model::OutOfMemory;
use xm_turn::{Named, Pass, Turn};

/// How many counts are wanted over how many cycles of a run, and the last cycle of this round.
#[derive(Drop)]
pub struct Watch {
    pub wanted: u32,
    pub cycles: u32,
    pub last: u32,
    ghost some: { 0 < cycles },
}

/// The least cycle of a count, by its number from 0 on.
#[tactic(auto, unfolding(crate::specs::Counts::least_cycle))]
pub fn least_cycle(count: u32, wanted: u32, cycles: u32) -> u32
    requires count { count < wanted }
    requires cycles { 0 < cycles }
    ensures { result ≡ spec.least_cycle wanted cycles count }
{
    if wanted == 1 {
        return cycles - 1;
    }
    let least = u64::from(count) * u64::from(cycles - 1) / u64::from(wanted - 1);
    least as u32
}

/// Waits until the pass has seen the cycle, and says whether it has. It has not where the workers ended.
fn wait_for_cycle<B: Bench, R: Wait>(
    rt: &R,
    turn: &Turn<B>,
    pass: Pass<B>,
    cycle: u32,
    ended: &AtomicBool,
) -> (Pass<B>, bool)
    requires pass { IsPassOf turn.now pass × IsFree pass }
    ensures pass { Returns turn.now (knows pass) result.0 }
    ensures seen { IsTrue result.1 → cycle ≤ (knows result.0).seen }
{
    let mut pass = pass;
    for _ in rt.forever() {
        let change = turn.next_change();
        if turn.look(&mut pass) >= u64::from(cycle) {
            return (pass, true);
        }
        if ended.load(SeqCst) {
            return (pass, false);
        }
        change.wait(rt);
    }
    (pass, false)
}

/// Ends the work of all, by a refusal.
fn stop<B: Bench, R: Wait>(rt: &R, turn: &Turn<B>, pass: Pass<B>, refusal: OutOfMemory) -> Pass<B>
    requires pass { IsPassOf turn.now pass × IsFree pass }
    ensures pass { Returns turn.now (knows pass) result }
{
    let mut held = turn.take(rt, pass);
    held.value().stop(refusal);
    turn.give(held)
}

/// The counts with one more.
fn with_count<S: Drop>(counts: Vec<S>, count: S) -> Result<Vec<S>, OutOfMemory>
    ensures { IfOk result (λ v. v.items ≡ counts.items ++ count ∷ []) }
{
    let mut counts = counts;
    counts.push(count)?;
    Ok(counts)
}

/// Takes the next count, whose least cycle the pass has seen.
fn take_count<B: Bench, G: Gate, R: Wait>(
    rt: &R,
    turn: &Turn<B>,
    pass: Pass<B>,
    watch: &Watch,
    counts: Vec<B::Snapshot>,
    gate: &G,
) -> (Pass<B>, Result<Vec<B::Snapshot>, OutOfMemory>)
    requires pass { IsPassOf turn.now pass × IsFree pass }
    requires counts { AreCountsOf B.is_of B.cycle_of watch.now.wanted watch.now.cycles (knows pass) (knows pass).seen
        counts.items }
    requires few { vec_len counts < watch.now.wanted }
    requires due { spec.least_cycle watch.now.wanted watch.now.cycles (vec_len counts) ≤ (knows pass).seen }
    ensures pass { Returns turn.now (knows pass) result.0 }
    ensures counts { IfOk result.1 (λ ss. AreCountsOf B.is_of B.cycle_of watch.now.wanted watch.now.cycles (knows pass)
        (knows result.0).seen ss.items) }
{
    let (pass, taken) = snapshot(rt, turn, pass);
    match taken {
        Ok(count) => {
            gate.seen(B::snapshot_cycle(&count));
            (pass, with_count(counts, count))
        }
        Err(refusal) => (pass, Err(refusal)),
    }
}

/// Takes each count of the round as its cycle comes, until the workers have ended.
pub(crate) fn take_counts<B: Bench, G: Gate, R: Wait>(
    rt: &R,
    turn: &Turn<B>,
    pass: Pass<B>,
    watch: &Watch,
    counts: Vec<B::Snapshot>,
    ended: &AtomicBool,
    gate: &G,
) -> (Pass<B>, Result<Vec<B::Snapshot>, OutOfMemory>)
    requires pass { IsPassOf turn.now pass × IsFree pass }
    requires counts { AreCountsOf B.is_of B.cycle_of watch.now.wanted watch.now.cycles (knows pass) (knows pass).seen
        counts.items }
    ensures pass { Returns turn.now (knows pass) result.0 }
    ensures counts { IfOk result.1 (λ ss. AreCountsOf B.is_of B.cycle_of watch.now.wanted watch.now.cycles (knows pass)
        (knows result.0).seen ss.items) }
{
    let mut pass = pass;
    let mut counts = counts;
    for _ in rt.forever() {
        if counts.len() >= watch.wanted as usize {
            break;
        }
        let least = least_cycle(counts.len() as u32, watch.wanted, watch.cycles);
        if least > watch.last {
            break;
        }
        let (back, seen) = wait_for_cycle(rt, turn, pass, least, ended);
        pass = back;
        if !seen {
            break;
        }
        let (back, taken) = take_count(rt, turn, pass, watch, counts, gate);
        pass = back;
        match taken {
            Ok(more) => counts = more,
            Err(refusal) => return (stop(rt, turn, pass, refusal), Err(refusal)),
        }
    }
    (pass, Ok(counts))
}
