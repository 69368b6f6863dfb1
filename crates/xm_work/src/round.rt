//! One round of a simulation.
ghost use Rattle.std.specs.Prelude.{◌≡◌, ℕ, ◌<◌, ◌≤◌, ◌+◌, ◌^◌, All, vec_len, IfOk, IfSome, Some, length};
ghost use Rattle.xm_turn.specs.Passes.{IsPassOf, knows, IsFree, IsWhole, Names};
ghost use Rattle.xm_turn.specs.Views.{IsLater};
ghost use Rattle.crossbeam_utils.specs.Padded.{padded_value};
ghost use Rattle.xm_work.specs.Passes.{Returns};
ghost use Rattle.xm_work.specs.Inner.Team.{AllReturn, AreFree, AreWorkers, IsWorker, IsCut};
ghost use Rattle.xm_work.specs.Inner.Counting.{AreCountsOf};
ghost use Rattle.xm_work.specs.Counts.{AreCounts, NoneMissing};

use crate::bench::Bench;
use crate::counts::Watch;
use crate::finish::{finish, finish_counts};
use crate::team::{join_all, run_all, split_all};
use std::alloc::Global;
use std::sync::Wait;
use std::thread::Threads;
use xm_io::Gate;
use xm_model::OutOfMemory;
use xm_turn::{Named, Opened, Turn};

/// Brings a bench to the last cycle of its run, by as many workers as are wanted, each in a thread of its own, in a
/// turn of its own. The caller takes the counts of the round while they work, and finishes what they leave. Want of
/// memory is the answer too where passes were lost with the results of their threads, or where the bench was stopped.
pub fn run_round<B: Bench, G: Gate, R: Threads + Wait + Sync>(
    rt: &R,
    alloc: Global,
    bench: B,
    workers: u32,
    watch: &Watch,
    counts: Vec<B::Snapshot>,
    gate: &G,
) -> Result<(B, Vec<B::Snapshot>), OutOfMemory>
    requires workers { workers < 2 ^ 31 }
    requires last { B.target (B.run bench) ≡ watch.now.last }
    requires counts { AreCounts B.is_of B.cycle_of watch.now.wanted watch.now.cycles (B.run bench) (B.floor_of bench)
        counts.items }
    ensures run { IfOk result (λ r. B.run r.0 ≡ B.run bench) }
    ensures floor { IfOk result (λ r. B.floor_of r.0 ≡ watch.now.last) }
    ensures counts { IfOk result (λ r. AreCounts B.is_of B.cycle_of watch.now.wanted watch.now.cycles (B.run bench)
        watch.now.last r.1.items) }
    ensures none_missing { IfOk result (λ r.
        NoneMissing watch.now.wanted watch.now.cycles watch.now.last r.1.items) }
{
    let opened = Turn::open(alloc, bench, workers + 1);
    let Ok(Opened { turn, mut pass }) = opened else {
        return Err(OutOfMemory);
    };
    let seats = split_all(alloc, &turn, &mut pass, workers)?;
    let (mut pass, seats, counts) = run_all(rt, &turn, pass, seats, watch, counts, gate);
    let Ok(seats) = seats else {
        return Err(OutOfMemory);
    };
    let counts = counts?;
    join_all(&turn, &mut pass, seats);
    let bench = finish(rt, turn.close(pass), gate)?;
    let counts = finish_counts(&bench, watch, counts, gate)?;
    Ok((bench, counts))
}
