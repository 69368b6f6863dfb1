//! A pass for each worker, and the workers' threads.
ghost use Rattle.std.specs.Prelude.{◌≡◌, ℕ, ◌<◌, ◌≤◌, ◌+◌, All, vec_len, IfOk, IfSome, length};
ghost use Rattle.std.specs.Thread.{IsSync};
ghost use Rattle.xm_turn.specs.Passes.{IsPassOf, knows, IsFree};
ghost use Rattle.xm_turn.specs.Views.{IsLater};
ghost use Rattle.crossbeam_utils.specs.Padded.{padded_value};
ghost use Rattle.xm_work.specs.Passes.{Returns};
ghost use Rattle.xm_work.specs.Inner.Team.{AllReturn, AreFree, AreWorkers, IsWorker, IsCut};
ghost use Rattle.xm_work.specs.Inner.Counting.{AreCountsOf};
ghost use Rattle.xm_work.specs.Counts.{AreCounts};

use crate::bench::Bench;
use crate::counts::{Watch, take_counts};
use crate::worker::work;
use crossbeam_utils::CachePadded;
use std::alloc::{AllocError, Global};
use std::sync::Wait;
use std::sync::atomic::AtomicBool;
use std::sync::atomic::Ordering::SeqCst;
use std::thread;
use std::thread::Threads;
use xm_io::Gate;
use xm_model::OutOfMemory;
use xm_turn::{Named, Pass, Turn};

/// A pass for each worker, split off the caller's.
pub(crate) fn split_all<V: Named>(
    alloc: Global,
    turn: &Turn<V>,
    pass: &mut Pass<V>,
    workers: u32,
) -> Result<Vec<CachePadded<Pass<V>>>, AllocError>
    requires pass { IsPassOf turn.now pass.old × IsFree pass.old }
    requires shares { workers < (knows pass.old).shares }
    ensures pass { IfOk result (λ v.
        IsPassOf turn.now pass.new × IsFree pass.new × IsCut (knows pass.old) workers (knows pass.new)) }
    ensures len { IfOk result (λ v. vec_len v ≡ workers) }
    ensures each { IfOk result (λ v. AreWorkers turn.now (knows pass.old) v.items) }
{
    let mut seats = Vec::new(alloc);
    for _ in 0..workers {
        seats.push(CachePadded::new(turn.split(pass)))?;
    }
    Ok(seats)
}

/// Puts the passes together again.
pub(crate) fn join_all<V: Named>(
    turn: &Turn<V>,
    pass: &mut Pass<V>,
    mut seats: Vec<CachePadded<Pass<V>>>,
)
    requires pass { IsPassOf turn.now pass.old × IsFree pass.old }
    requires seats { AreWorkers turn.now (knows pass.old) seats.items }
    ensures pass { IsPassOf turn.now pass.new × IsFree pass.new }
    ensures shares { (knows pass.new).shares ≡ (knows pass.old).shares + vec_len seats }
    ensures run { (knows pass.new).run ≡ (knows pass.old).run }
    ensures all { (knows pass.new).all ≡ (knows pass.old).all }
    ensures seen { (knows pass.old).seen ≤ (knows pass.new).seen }
{
    while let Some(seat) = seats.pop() {
        turn.join(pass, seat.into_inner());
    }
}

/// One worker. Where it met want of memory the bench was stopped, so its answer is not needed.
fn run_one<B: Bench, G: Gate, R: Wait>(
    rt: &R,
    turn: &Turn<B>,
    seat: CachePadded<Pass<B>>,
    gate: &G,
) -> CachePadded<Pass<B>>
    requires pass { IsPassOf turn.now (padded_value seat) × IsFree (padded_value seat) }
    ensures pass { Returns turn.now (knows (padded_value seat)) (padded_value result) }
{
    let (pass, _) = work(rt, turn, seat.into_inner(), gate);
    CachePadded::new(pass)
}

/// Every worker in a thread, and a word to the caller once they have ended.
fn run_each<B: Bench, G: Gate, R: Threads + Wait + Sync>(
    rt: &R,
    turn: &Turn<B>,
    seats: Vec<CachePadded<Pass<B>>>,
    ended: &AtomicBool,
    gate: &G,
) -> Result<Vec<CachePadded<Pass<B>>>, AllocError>
    requires seats { AreFree turn.now seats.items }
    ensures len { IfOk result (λ v. vec_len v ≡ vec_len seats) }
    ensures each { IfOk result (λ v. AllReturn turn.now seats.items v.items) }
{
    let seats = thread::map_vec(
        rt,
        seats,
        &|seat: CachePadded<Pass<B>>| -> CachePadded<Pass<B>>
            requires { IsPassOf turn.now (padded_value seat) × IsFree (padded_value seat) }
            ensures { Returns turn.entry.now (knows (padded_value seat)) (padded_value result) }
        { run_one(rt, turn, seat, gate) },
    );
    ended.store(true, SeqCst);
    turn.wake_all();
    seats
}

/// Runs the workers, while the caller takes its counts.
pub(crate) fn run_all<B: Bench, G: Gate, R: Threads + Wait + Sync>(
    rt: &R,
    turn: &Turn<B>,
    pass: Pass<B>,
    seats: Vec<CachePadded<Pass<B>>>,
    watch: &Watch,
    counts: Vec<B::Snapshot>,
    gate: &G,
) -> (
    Pass<B>,
    Result<Vec<CachePadded<Pass<B>>>, AllocError>,
    Result<Vec<B::Snapshot>, OutOfMemory>,
)
    requires pass { IsPassOf turn.now pass × IsFree pass }
    requires seats { AreFree turn.now seats.items }
    requires counts { AreCountsOf B.is_of B.cycle_of watch.now.wanted watch.now.cycles (knows pass) (knows pass).seen
        counts.items }
    ensures pass { Returns turn.now (knows pass) result.0 }
    ensures len { IfOk result.1 (λ v. vec_len v ≡ vec_len seats) }
    ensures each { IfOk result.1 (λ v. AllReturn turn.now seats.items v.items) }
    ensures counts { IfOk result.2 (λ ss. AreCountsOf B.is_of B.cycle_of watch.now.wanted watch.now.cycles (knows pass)
        (knows result.0).seen ss.items) }
{
    let ended = AtomicBool::new(false);
    let (seats, (pass, counts)) = thread::join(
        rt,
        || -> Result<Vec<CachePadded<Pass<B>>>, AllocError>
            requires { IsSync R.row × IsSync G.row × AreFree turn.now seats.items }
            ensures { IfOk result (λ v. (vec_len v ≡ vec_len seats) × AllReturn turn.entry.now seats.items v.items) }
        { run_each(rt, turn, seats, &ended, gate) },
        || -> (Pass<B>, Result<Vec<B::Snapshot>, OutOfMemory>)
            requires { IsPassOf turn.now pass × IsFree pass × AreCountsOf B.is_of B.cycle_of watch.now.wanted
                watch.now.cycles (knows pass) (knows pass).seen counts.items }
            ensures { Returns turn.entry.now (knows pass) result.0 × IfOk result.1 (λ ss. AreCountsOf B.is_of B.cycle_of
                watch.entry.now.wanted watch.entry.now.cycles (knows pass) (knows result.0).seen ss.items) }
        { take_counts(rt, turn, pass, watch, counts, &ended, gate) },
    );
    (pass, seats, counts)
}
