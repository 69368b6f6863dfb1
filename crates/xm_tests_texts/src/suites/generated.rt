//! The command that prints a line of stations, and words that are none.

use super::commands::{Answer, NO_CALL, SOUND, WITHOUT_OUTPUT, WITHOUT_SOURCE, is_answered, wide};
use super::helpers::{plain_status, words_in};
use super::inputs::STREAM;
use super::lines::{TWO_STATIONS, has_numbers};
use std::alloc::Global;
use xm_io::{CleanSource, MemSink, Words};
use xm_model::{List, OutOfMemory, Text};

/// The smallest line, of seed 0.
const PRINTED: Answer = Answer {
    status: 0,
    out: TWO_STATIONS,
    err: "",
};

/// Where the output fails, the first five bytes are written.
const FRONT: Answer = Answer {
    status: 7,
    out: "{\"col",
    err: "write\n",
};

/// Words that call for it.
const SMALLEST: [&str; 4] = [
    "gen --size 2 --seed 0",
    "gen --seed 0 --size 2",
    "gen --size=2 --seed=0",
    "gen --seed=0 --size 2",
];

/// Words that are no call: a size or a seed that is out of range, missing, given twice or no number, and further words.
const NO_CALLS: [&str; 16] = [
    "gen",
    "gen --size 2",
    "gen --seed 0",
    "gen --size 1 --seed 0",
    "gen --size 601 --seed 0",
    "gen --size 0 --seed 0",
    "gen --size 2 --seed 18446744073709551616",
    "gen --size 2 --seed -1",
    "gen --size 2 --size 2 --seed 0",
    "gen --size 2 --seed 0 --seed=0",
    "gen --size 2 --seed",
    "gen --size two --seed 0",
    "gen --size 02 --seed 0",
    "gen --size 2 --seed 0 x",
    "gen 2 0",
    "check --size 2 --seed 0",
];

fn all_print_the_smallest(alloc: Global) -> bool {
    SMALLEST.iter().all(|line| is_answered(alloc, *line, b"".as_slice(), SOUND, PRINTED))
}

#[test]
fn the_smallest_line_is_printed(rt: HostRuntime) {
    assert!(rt; all_print_the_smallest(rt.alloc()));
}

/// The source has a document, and its second call fails.
fn prints_without_a_source(alloc: Global) -> bool {
    is_answered(
        alloc,
        SMALLEST[0],
        STREAM.as_bytes(),
        WITHOUT_SOURCE,
        PRINTED,
    )
}

#[test]
fn the_source_is_not_read(rt: HostRuntime) {
    assert!(rt; prints_without_a_source(rt.alloc()));
}

fn leaves_a_front(alloc: Global) -> bool {
    is_answered(alloc, SMALLEST[0], b"".as_slice(), WITHOUT_OUTPUT, FRONT)
}

#[test]
fn a_fault_of_the_output_is_told(rt: HostRuntime) {
    assert!(rt; leaves_a_front(rt.alloc()));
}

fn all_are_no_calls(alloc: Global) -> bool {
    NO_CALLS.iter().all(|line| is_answered(alloc, *line, STREAM.as_bytes(), SOUND, NO_CALL))
}

#[test]
fn other_sizes_and_seeds_are_refused(rt: HostRuntime) {
    assert!(rt; all_are_no_calls(rt.alloc()));
}

/// The status for these words.
fn status_for(
    alloc: Global,
    words: List<Text>,
    out: &mut MemSink,
    err: &mut MemSink,
) -> Option<u8> {
    let mut source = CleanSource::new(Text::new(alloc));
    plain_status(alloc, &Words { words }, &mut source, out, err)
}

/// Whether these words print a document with so many primitives and channels.
fn print(alloc: Global, words: List<Text>, out: &mut MemSink, numbers: (usize, u32)) -> bool {
    match wide(alloc, None) {
        Ok(mut err) => {
            status_for(alloc, words, out, &mut err) == Some(0)
                && has_numbers(alloc, out.held(), numbers.0, numbers.1)
        }
        Err(OutOfMemory) => false,
    }
}

fn prints(alloc: Global, line: &str, numbers: (usize, u32)) -> bool {
    match (words_in(alloc, line), wide(alloc, None)) {
        (Ok(words), Ok(mut out)) => print(alloc, words, &mut out, numbers),
        _ => false,
    }
}

#[test]
fn four_hundred_stations_are_printed(rt: HostRuntime) {
    assert!(rt; prints(rt.alloc(), "gen --size 400 --seed 7", (2391, 2390)));
}

#[test]
fn the_longest_line_and_the_last_seed_are_printed(rt: HostRuntime) {
    assert!(rt;
        prints(
            rt.alloc(),
            "gen --size 600 --seed 18446744073709551615",
            (3591, 3590)
        )
    );
}
