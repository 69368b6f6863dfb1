//! What any number of workers make of a ring.

ghost use Rattle.std.specs.Prelude.{◌≡◌, ◌<◌};

use super::ring::{Ring, Sums};
use std::alloc::Global;
use std::sync::Wait;
use std::sync::atomic::Ordering::SeqCst;
use std::sync::atomic::{AtomicBool, AtomicU64};
use std::thread;
use std::thread::Threads;
use xm_io::{Gate, MemSink, OpenGate};
use xm_model::{List, OutOfMemory};
use xm_work::{SimFault, Simulated, Watch, run_round, run_rounds};

const MARKS: [u64; 4] = [3, 5, 7, 100];

/// The sums of a ring of four parts after three cycles.
const WANTED: [u64; 4] = [0, 15, 30, 45];

/// The sums of a ring of four parts after three cycles, and its counts.
fn worked<G: Gate, R: Threads + Wait + Sync>(
    rt: &R,
    alloc: Global,
    workers: u32,
    wanted: u32,
    gate: &G,
) -> Result<(Vec<u64>, Vec<Sums>), OutOfMemory>
    requires { workers < 64 }
{
    let ring = Ring::new(alloc, &MARKS, 4, 3)?;
    let watch = Watch {
        wanted,
        cycles: 4,
        last: 3,
    };
    let (ring, counts) = run_round(rt, alloc, ring, workers, &watch, Vec::new(alloc), gate)?;
    Ok((ring.sums, counts))
}

fn are_counts(counts: &[Sums]) -> bool {
    match counts {
        [_, second, last] => {
            second.cycle >= 1
                && second.cycle <= 3
                && last.cycle == 3
                && last.sums.as_slice() == WANTED.as_slice()
        }
        _ => false,
    }
}

fn is_worked<R: Threads + Wait + Sync>(rt: &R, alloc: Global, workers: u32) -> bool
    requires { workers < 64 }
{
    match worked(rt, alloc, workers, 3, &OpenGate) {
        Ok((sums, counts)) => sums.as_slice() == WANTED.as_slice() && are_counts(&counts),
        Err(_) => false,
    }
}

#[test]
fn any_number_of_workers_gives_the_same(rt: HostRuntime) {
    for workers in [0u32, 1, 2, 8] {
        assert!(rt; is_worked(&rt, rt.alloc(), workers));
    }
}

/// How often a worker looks whether another has come, before it gives up.
const TURNS: u32 = 10_000_000;

/// Holds whoever enters with part 0 until another part has entered.
#[derive(Drop)]
struct Meeting {
    others: AtomicU64,
    gave_up: AtomicBool,
    seen: AtomicU64,
}

impl Gate for Meeting {
    fn enter(&self, part: u32, _cycle: u32) {
        if part != 0 {
            self.others.store(1, SeqCst);
            return;
        }
        for _ in 0..TURNS {
            if self.others.load(SeqCst) > 0 {
                return;
            }
            thread::yield_now();
        }
        self.gave_up.store(true, SeqCst);
    }

    fn seen(&self, cycle: u32) {
        self.seen.fetch_add(u64::from(cycle) + 1, SeqCst);
    }
}

fn meets<R: Threads + Wait + Sync>(rt: &R, alloc: Global, gate: &Meeting) -> bool {
    match worked(rt, alloc, 2, 1, gate) {
        Ok((sums, _)) => sums.as_slice() == WANTED.as_slice(),
        Err(_) => false,
    }
}

#[test]
fn two_workers_meet(rt: HostRuntime) {
    let gate = Meeting {
        others: AtomicU64::new(0),
        gave_up: AtomicBool::new(false),
        seen: AtomicU64::new(0),
    };
    assert!(rt; meets(&rt, rt.alloc(), &gate));
    assert!(rt; !gate.gave_up.load(SeqCst));
    assert!(rt; gate.seen.load(SeqCst) == 4);
}

fn is_whole(it: &Simulated<Ring<'_>, Sums>) -> bool {
    it.bench.sums.as_slice() == [0u64, 115, 230, 345].as_slice() && it.counts.len() == 4
}

/// Whether 2,500 cycles of a ring end without a fault, or with this one.
fn is_simulated<R: Threads + Wait + Sync>(
    rt: &R,
    alloc: Global,
    ring: Ring<'_>,
    out: &mut MemSink,
    fault: Option<SimFault>,
) -> bool
    requires { (ring.target ≡ 1023) × (ring.next_line ≡ 0) }
{
    match run_rounds(rt, alloc, ring, 3, 4, 2_500, out, &OpenGate) {
        Ok(it) => fault.is_none() && is_whole(&it),
        Err(found) => fault == Some(found),
    }
}

/// The same of a sink with these failing calls, which then holds so many bytes.
fn is_written<R: Threads + Wait + Sync>(
    rt: &R,
    alloc: Global,
    fails: List<u32>,
    fault: Option<SimFault>,
    written: usize,
) -> Result<bool, OutOfMemory> {
    let mut out = MemSink::new(alloc, 4096, 1000, fails)?;
    let ring = Ring::new(alloc, &MARKS, 4, 1_023)?;
    Ok(is_simulated(rt, alloc, ring, &mut out, fault) && out.held().len() == written)
}

fn fails_at(alloc: Global, call: u32) -> Result<List<u32>, OutOfMemory> {
    let mut fails = List::new(alloc);
    fails.push(call)?;
    Ok(fails)
}

fn is_written_whole<R: Threads + Wait + Sync>(rt: &R, alloc: Global) -> bool {
    is_written(rt, alloc, List::new(alloc), None, 2_500).is_ok_and(|holds| holds)
}

/// The first round is written in two pieces, and the second fails at its first.
fn is_written_to_a_front<R: Threads + Wait + Sync>(rt: &R, alloc: Global) -> bool {
    match fails_at(alloc, 2) {
        Ok(fails) => is_written(rt, alloc, fails, Some(SimFault::Write), 1_024).is_ok_and(
            |holds| holds,
        ),
        Err(OutOfMemory) => false,
    }
}

#[test]
fn the_text_leaves_round_by_round(rt: HostRuntime) {
    assert!(rt; is_written_whole(&rt, rt.alloc()));
    assert!(rt; is_written_to_a_front(&rt, rt.alloc()));
}
