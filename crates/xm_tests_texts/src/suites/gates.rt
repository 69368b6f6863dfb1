//! Simulations under gates that watch them or hold a part: the run is printed, and rounds and snapshots come in time.

ghost use Rattle.std.specs.Prelude.{None};

use super::commands::lines_of;
use super::inputs::{CYCLES_100, CYCLES_2500, FORK_JOIN, FOUR_QUEUES};
use super::simulations::{simulate, writes_run, written};
use std::alloc::Global;
use std::sync::Wait;
use std::sync::atomic::Ordering::SeqCst;
use std::sync::atomic::{AtomicBool, AtomicU64};
use std::thread;
use std::thread::Threads;
use xm_io::{Failed, Gate, NoSink, OpenGate, Sink};

/// How often a worker looks whether what it waits for has come, before it gives up.
const TURNS: u32 = 10_000_000;

/// A part and a cycle that it is entered with.
type Entry = (u32, u32);

/// Holds one entry until another has come; or, where no other is named, until two snapshots have.
#[derive(Drop)]
struct Hold {
    held: Entry,
    awaited: Option<Entry>,
    wanted: u64,
    came: AtomicU64,
    is_met: AtomicBool,
}

impl Hold {
    fn until_entry(held: Entry, awaited: Entry) -> Hold {
        Hold {
            held,
            awaited: Some(awaited),
            wanted: 1,
            came: AtomicU64::new(0),
            is_met: AtomicBool::new(false),
        }
    }

    fn until_snapshots(held: Entry) -> Hold {
        Hold {
            held,
            awaited: None,
            wanted: 2,
            came: AtomicU64::new(0),
            is_met: AtomicBool::new(false),
        }
    }

    fn wait(&self) {
        for _ in 0..TURNS {
            if self.came.load(SeqCst) >= self.wanted {
                self.is_met.store(true, SeqCst);
                return;
            }
            thread::yield_now();
        }
    }
}

impl Gate for Hold {
    fn enter(&self, part: u32, cycle: u32) {
        if self.awaited == Some((part, cycle)) {
            self.came.fetch_add(1, SeqCst);
        }
        if self.held == (part, cycle) {
            self.wait();
        }
    }

    fn seen(&self, _cycle: u32) {
        if self.awaited.is_none() {
            self.came.fetch_add(1, SeqCst);
        }
    }
}

/// Whether the run is printed where one entry is held until another, and that came.
fn meets<R: Threads + Wait + Sync>(rt: &R, alloc: Global, held: Entry, awaited: Entry) -> bool {
    let hold = Hold::until_entry(held, awaited);
    let line = "sim --parts 4 --workers 3";
    writes_run(rt, alloc, line, &[FOUR_QUEUES, CYCLES_100], &hold) && hold.is_met.load(SeqCst)
}

#[test]
fn a_held_part_is_met_by_another(rt: HostRuntime) {
    assert!(rt; meets(&rt, rt.alloc(), (0, 0), (1, 0)));
    assert!(rt; meets(&rt, rt.alloc(), (0, 1), (2, 2)));
}

fn begins_with_run<R: Threads + Wait + Sync>(rt: &R, alloc: Global, hold: &Hold) -> bool {
    let line = "sim --parts 4 --workers 3 --watch 3";
    let document = [FOUR_QUEUES, CYCLES_100];
    match (
        written(rt, alloc, "run", &document, &OpenGate),
        written(rt, alloc, line, &document, hold),
    ) {
        (Some(run), Some(out)) => out.held().starts_with(run.held()),
        _ => false,
    }
}

#[test]
fn snapshots_are_taken_while_a_part_is_held(rt: HostRuntime) {
    let hold = Hold::until_snapshots((0, 50));
    assert!(rt; begins_with_run(&rt, rt.alloc(), &hold));
    assert!(rt; hold.is_met.load(SeqCst));
}

/// What is printed for the fork and the join with three snapshots, of which two were taken before the first step.
const WATCHED: &str = "0 c0:req c1:req c2:req\n1 c3:req c4:req c5:req\nsum c0.req 1\nsum c1.req 1\n\
    sum c2.req 1\nsum c3.req 1\nsum c4.req 1\nsum c5.req 1\nend 2\ninv 1*Qd.req -1*Qt.req = 0\n\
    snap 0\nsnap 0\nsnap 1 Qd.req=1 Qt.req=1\n";

fn is_watched<R: Threads + Wait + Sync>(rt: &R, alloc: Global) -> bool {
    let hold = Hold::until_snapshots((0, 0));
    let line = "sim --parts 2 --workers 2 --watch 3";
    match written(rt, alloc, line, &[FORK_JOIN], &hold) {
        Some(out) => out.held() == WATCHED.as_bytes(),
        None => false,
    }
}

#[test]
fn a_held_part_is_seen_where_it_stands(rt: HostRuntime) {
    assert!(rt; is_watched(&rt, rt.alloc()));
}

/// How often each of four parts was entered, and whether each time with its next cycle.
#[derive(Drop)]
struct Entries {
    counts: [AtomicU64; 4],
    is_broken: AtomicBool,
}

impl Entries {
    fn new() -> Entries {
        Entries {
            counts: [
                AtomicU64::new(0),
                AtomicU64::new(0),
                AtomicU64::new(0),
                AtomicU64::new(0),
            ],
            is_broken: AtomicBool::new(false),
        }
    }

    fn are_all(&self, count: u64) -> bool {
        !self.is_broken.load(SeqCst) && self.counts.iter().all(|it| it.load(SeqCst) == count)
    }
}

impl Gate for Entries {
    fn enter(&self, part: u32, cycle: u32) {
        let is_next = match self.counts.get(part as usize) {
            Some(count) => count.fetch_add(1, SeqCst) == u64::from(cycle),
            None => false,
        };
        if !is_next {
            self.is_broken.store(true, SeqCst);
        }
    }

    fn seen(&self, _cycle: u32) {}
}

/// A run of 100 cycles has 99 steps.
fn enters_all<R: Threads + Wait + Sync>(rt: &R, alloc: Global) -> bool {
    let entries = Entries::new();
    let line = "sim --parts 4 --workers 3";
    writes_run(rt, alloc, line, &[FOUR_QUEUES, CYCLES_100], &entries) && entries.are_all(99)
}

#[test]
fn every_part_is_entered_with_every_cycle(rt: HostRuntime) {
    assert!(rt; enters_all(&rt, rt.alloc()));
}

/// An output that counts the lines it takes, and tells nothing of them.
#[derive(Drop)]
struct LineCount<'a> {
    lines: &'a AtomicU64,
}

impl<'a> Sink for LineCount<'a> {
    ghost held = { λ _. None };

    ghost faults = { λ _. 0 };

    fn write(&mut self, piece: &[u8]) -> Result<usize, Failed> {
        self.lines.fetch_add(lines_of(piece) as u64, SeqCst);
        Ok(piece.len())
    }
}

/// Finds how many lines were written when part 0 enters cycle 1,024.
#[derive(Drop)]
struct SecondRound<'a> {
    lines: &'a AtomicU64,
    found: AtomicU64,
}

impl<'a> Gate for SecondRound<'a> {
    fn enter(&self, part: u32, cycle: u32) {
        if part == 0 && cycle == 1_024 {
            self.found.store(self.lines.load(SeqCst), SeqCst);
        }
    }

    fn seen(&self, _cycle: u32) {}
}

/// Behind the lines of the cycles stand five sums and the end.
fn leaves_in_rounds<R: Threads + Wait + Sync>(rt: &R, alloc: Global) -> bool {
    let lines = AtomicU64::new(0);
    let gate = SecondRound {
        lines: &lines,
        found: AtomicU64::new(0),
    };
    let mut out = LineCount { lines: &lines };
    let line = "sim --parts 2 --workers 2";
    let document = [FOUR_QUEUES, CYCLES_2500];
    simulate(
        rt,
        alloc,
        line,
        &document,
        &mut out,
        &mut NoSink::new(),
        &gate,
    ) == Some(0)
        && gate.found.load(SeqCst) == 1_024
        && lines.load(SeqCst) == 2_506
}

#[test]
fn the_first_round_leaves_before_the_second_begins(rt: HostRuntime) {
    assert!(rt; leaves_in_rounds(&rt, rt.alloc()));
}
