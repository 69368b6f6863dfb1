//! Demonstrations by the top call: what `demo` prints, and words that are none.

use super::commands::{Answer, NO_CALL, failing, wide};
use super::inputs::STREAM;
use super::simulations::{gives, is_simulated};
use std::alloc::Global;
use std::sync::Wait;
use std::thread::Threads;
use xm_io::MemSink;
use xm_model::OutOfMemory;

/// The smallest line, of seed 0: its moves are what the `sum` lines of `run` add up to.
const SMALLEST: &str = concat!(
    "demo 2 0\nprimitives 3\nchannels 2\ncycles 1000\n",
    "moves 987\ndelivered 493\nend\n"
);

const PRINTED: Answer = Answer {
    status: 0,
    out: SMALLEST,
    err: "",
};

/// Words that call for it, in as many parts and by as many workers as they please.
const WORDS: [&str; 3] = [
    "demo --size 2 --seed 0 --parts 1 --workers 1",
    "demo --workers=2 --parts=3 --seed=0 --size=2",
    "demo --parts 64 --size 2 --workers 3 --seed 0",
];

/// The source has a document, which is not read.
fn all_print_the_smallest<R: Threads + Wait + Sync>(rt: &R, alloc: Global) -> bool {
    WORDS
        .iter()
        .all(|line| is_simulated(rt, alloc, *line, STREAM, PRINTED))
}

#[test]
fn the_smallest_demonstration_is_printed(rt: HostRuntime) {
    assert!(rt; all_print_the_smallest(&rt, rt.alloc()));
}

/// Four hundred stations: the moves are what the `sum` lines of `run` add up to.
const FOUR_HUNDRED: Answer = Answer {
    status: 0,
    out: concat!(
        "demo 400 7\nprimitives 2391\nchannels 2390\ncycles 1000\n",
        "moves 13547\ndelivered 997\nend\n"
    ),
    err: "",
};

fn prints_four_hundred<R: Threads + Wait + Sync>(rt: &R, alloc: Global) -> bool {
    is_simulated(
        rt,
        alloc,
        "demo --size 400 --seed 7 --parts 8 --workers 4",
        "",
        FOUR_HUNDRED,
    ) && is_simulated(
        rt,
        alloc,
        "demo --size 400 --seed 7 --parts 1 --workers 1",
        "",
        FOUR_HUNDRED,
    )
}

#[test]
fn parts_and_workers_change_nothing(rt: HostRuntime) {
    assert!(rt; prints_four_hundred(&rt, rt.alloc()));
}

/// Words that are no call: a value that is out of range, missing, given twice or no number, and further words.
const NO_CALLS: [&str; 14] = [
    "demo",
    "demo --size 2 --seed 0",
    "demo --size 2 --seed 0 --parts 1",
    "demo --size 2 --parts 1 --workers 1",
    "demo --seed 0 --parts 1 --workers 1",
    "demo --size 1 --seed 0 --parts 1 --workers 1",
    "demo --size 601 --seed 0 --parts 1 --workers 1",
    "demo --size 2 --seed 18446744073709551616 --parts 1 --workers 1",
    "demo --size 2 --seed 0 --parts 0 --workers 1",
    "demo --size 2 --seed 0 --parts 65 --workers 1",
    "demo --size 2 --seed 0 --parts 1 --workers 0",
    "demo --size 2 --seed 0 --parts 1 --workers 65",
    "demo --size 2 --seed 0 --parts 1 --workers 1 --seed 0",
    "demo --size 2 --seed 0 --parts 1 --workers 1 --watch 0",
];

fn all_are_no_calls<R: Threads + Wait + Sync>(rt: &R, alloc: Global) -> bool {
    NO_CALLS
        .iter()
        .all(|line| is_simulated(rt, alloc, *line, STREAM, NO_CALL))
}

#[test]
fn other_words_are_no_demonstration(rt: HostRuntime) {
    assert!(rt; all_are_no_calls(&rt, rt.alloc()));
}

/// The first five bytes are written.
const FRONT: Answer = Answer {
    status: 7,
    out: "demo ",
    err: "write\n",
};

/// An output that takes pieces of five bytes, of which the second call fails.
fn failing_output(alloc: Global) -> Result<MemSink, OutOfMemory> {
    MemSink::new(alloc, 1000, 5, failing(alloc, true)?)
}

fn leaves_a_front<R: Threads + Wait + Sync>(rt: &R, alloc: Global) -> bool {
    match (failing_output(alloc), wide(alloc, None)) {
        (Ok(mut out), Ok(mut err)) => gives(rt, alloc, WORDS[0], "", &mut out, &mut err, FRONT),
        _ => false,
    }
}

#[test]
fn a_fault_of_the_output_is_told(rt: HostRuntime) {
    assert!(rt; leaves_a_front(&rt, rt.alloc()));
}
