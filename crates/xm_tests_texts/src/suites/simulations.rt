//! Simulations by the top call: what `sim` prints, and what it refuses.

use super::commands::{Answer, NO_CALL, failing, wide};
use super::helpers::{joined, words_in};
use super::inputs::*;
use std::alloc::Global;
use std::sync::Wait;
use std::thread::Threads;
use xm_commands::xmas;
use xm_io::{CleanSource, Gate, MemSink, NoSink, OpenGate, Sink, Words};
use xm_model::OutOfMemory;

/// The status of the words of this line, with a document in pieces.
pub fn simulate<K: Sink, E: Sink, G: Gate, R: Threads + Wait + Sync>(
    rt: &R,
    alloc: Global,
    line: &str,
    document: &[&str],
    out: &mut K,
    err: &mut E,
    gate: &G,
) -> Option<u8> {
    match (words_in(alloc, line), joined(alloc, document)) {
        (Ok(words), Ok(document)) => {
            let mut source = CleanSource::new(document);
            Some(xmas(rt, alloc, &Words { words }, &mut source, out, err, gate))
        }
        _ => None,
    }
}

/// What the words of this line write for a document in pieces, where they end with status 0.
pub fn written<G: Gate, R: Threads + Wait + Sync>(
    rt: &R,
    alloc: Global,
    line: &str,
    document: &[&str],
    gate: &G,
) -> Option<MemSink> {
    match wide(alloc, None) {
        Ok(mut out) => {
            match simulate(
                rt,
                alloc,
                line,
                document,
                &mut out,
                &mut NoSink::new(),
                gate,
            ) {
                Some(0) => Some(out),
                _ => None,
            }
        }
        Err(OutOfMemory) => None,
    }
}

/// Whether the words of this line write just what `run` does.
pub fn writes_run<G: Gate, R: Threads + Wait + Sync>(
    rt: &R,
    alloc: Global,
    line: &str,
    document: &[&str],
    gate: &G,
) -> bool {
    match (
        written(rt, alloc, "run", document, &OpenGate),
        written(rt, alloc, line, document, gate),
    ) {
        (Some(run), Some(out)) => run.held() == out.held(),
        _ => false,
    }
}

pub fn gives<R: Threads + Wait + Sync>(
    rt: &R,
    alloc: Global,
    line: &str,
    document: &str,
    out: &mut MemSink,
    err: &mut MemSink,
    answer: Answer,
) -> bool {
    simulate(rt, alloc, line, &[document], out, err, &OpenGate) == Some(answer.status)
        && out.held() == answer.out.as_bytes()
        && err.held() == answer.err.as_bytes()
}

/// Whether the words of this line, with the document, have this answer.
pub fn is_simulated<R: Threads + Wait + Sync>(
    rt: &R,
    alloc: Global,
    line: &str,
    document: &str,
    answer: Answer,
) -> bool {
    match (wide(alloc, None), wide(alloc, None)) {
        (Ok(mut out), Ok(mut err)) => gives(rt, alloc, line, document, &mut out, &mut err, answer),
        _ => false,
    }
}

/// What `run` prints for the stream.
const RUN: &str = "0 c0:req\n1 c1:req\nsum c0.req 1\nsum c1.req 1\nend 2\n";

/// The same with one snapshot. The stream has no invariants.
const WATCHED: &str = "0 c0:req\n1 c1:req\nsum c0.req 1\nsum c1.req 1\nend 2\nsnap 1 Q.req=1\n";

/// The words of simulations, their documents, and the answers.
const CASES: [(&str, &str, Answer<'static>); 8] = [
    (
        "sim --parts 2 --workers 2",
        STREAM,
        Answer {
            status: 0,
            out: RUN,
            err: "",
        },
    ),
    (
        "sim --watch=1 --parts=1 --workers=1",
        STREAM,
        Answer {
            status: 0,
            out: WATCHED,
            err: "",
        },
    ),
    (
        "sim --parts 2 --workers 2",
        NO_CYCLES,
        Answer {
            status: 0,
            out: "end 0\n",
            err: "",
        },
    ),
    ("sim", STREAM, NO_CALL),
    ("sim --parts 2", STREAM, NO_CALL),
    ("sim --parts 65 --workers 1", STREAM, NO_CALL),
    ("sim --parts 2 --workers 2 --watch 10001", STREAM, NO_CALL),
    (
        "sim --parts 2 --workers 2",
        NO_TAPE,
        Answer {
            status: 5,
            out: "",
            err: "tape: shape tape\n",
        },
    ),
];

fn all_are_simulated<R: Threads + Wait + Sync>(rt: &R, alloc: Global) -> bool {
    CASES
        .iter()
        .all(|case| is_simulated(rt, alloc, case.0, case.1, case.2))
}

#[test]
fn simulations_have_their_status(rt: HostRuntime) {
    assert!(rt; all_are_simulated(&rt, rt.alloc()));
}

/// Words, and the pieces of a document.
const RUNS: [(&str, [&str; 2]); 4] = [
    ("sim --parts 3 --workers 2", [THREE_ROUNDS, ""]),
    ("sim --parts 4 --workers 3", [FOUR_QUEUES, CYCLES_100]),
    ("sim --parts 1 --workers 64", [FOUR_QUEUES, CYCLES_100]),
    ("sim --parts 64 --workers 1", [FOUR_QUEUES, CYCLES_100]),
];

fn all_write_runs<R: Threads + Wait + Sync>(rt: &R, alloc: Global) -> bool {
    RUNS.iter()
        .all(|case| writes_run(rt, alloc, case.0, &case.1, &OpenGate))
}

#[test]
fn any_parts_and_workers_print_the_run(rt: HostRuntime) {
    assert!(rt; all_write_runs(&rt, rt.alloc()));
}

/// An output that takes pieces of 4,096 bytes, of which the second call fails.
fn short(alloc: Global) -> Result<MemSink, OutOfMemory> {
    MemSink::new(alloc, 100_000, 4_096, failing(alloc, true)?)
}

fn leaves_front<R: Threads + Wait + Sync>(
    rt: &R,
    alloc: Global,
    run: &MemSink,
    out: &mut MemSink,
) -> bool {
    let line = "sim --parts 2 --workers 2";
    let document = [FOUR_QUEUES, CYCLES_2500];
    simulate(
        rt,
        alloc,
        line,
        &document,
        out,
        &mut NoSink::new(),
        &OpenGate,
    ) == Some(7)
        && out.held().len() == 4_096
        && run.held().starts_with(out.held())
}

/// Whether an output that fails holds the front of a run that came before.
fn holds_front<R: Threads + Wait + Sync>(rt: &R, alloc: Global) -> bool {
    match (
        written(rt, alloc, "run", &[FOUR_QUEUES, CYCLES_2500], &OpenGate),
        short(alloc),
    ) {
        (Some(run), Ok(mut out)) => leaves_front(rt, alloc, &run, &mut out),
        _ => false,
    }
}

#[test]
fn a_failed_output_holds_the_front_of_the_run(rt: HostRuntime) {
    assert!(rt; holds_front(&rt, rt.alloc()));
}
