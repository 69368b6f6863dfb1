//! The top call over memory: each status with its output and its line of error.

use super::helpers::{plain_status, words_in};
use super::inputs::*;
use std::alloc::Global;
use xm_design::Design;
use xm_io::{CleanSource, MemSink, MemSource, Source, Words};
use xm_model::{List, Names, OutOfMemory, Text};
use xm_netlist::{Document, read_document};
use xm_step::Evaluator;
use xm_tape::{Tape, read_tape};
use xm_trace::{run_all, trace_text};

/// What a call answers, writes and tells.
#[derive(Clone, Copy)]
pub struct Answer<'a> {
    pub status: u8,
    pub out: &'a str,
    pub err: &'a str,
}

/// What words that make no call get.
pub const NO_CALL: Answer = Answer {
    status: 2,
    out: "",
    err: "words\n",
};

/// A source that gives pieces of ten bytes and an output that takes pieces of five, of which the second
/// call may fail.
#[derive(Clone, Copy)]
pub struct Outside {
    source_fails: bool,
    out_fails: bool,
}

/// Neither fails.
pub const SOUND: Outside = Outside {
    source_fails: false,
    out_fails: false,
};

/// The source fails.
pub const WITHOUT_SOURCE: Outside = Outside {
    source_fails: true,
    out_fails: false,
};

/// The output fails.
pub const WITHOUT_OUTPUT: Outside = Outside {
    source_fails: false,
    out_fails: true,
};

/// No call, or call 1 alone.
pub fn failing(alloc: Global, is_failing: bool) -> Result<List<u32>, OutOfMemory> {
    let mut calls = List::new(alloc);
    if is_failing {
        calls.push(1)?;
    }
    Ok(calls)
}

fn source_of(alloc: Global, document: &[u8], is_failing: bool) -> Result<MemSource, OutOfMemory> {
    let calls = failing(alloc, is_failing)?;
    let text = Text::from_bytes(alloc, document)?;
    Ok(MemSource::new(text, 10, calls))
}

fn out_of(alloc: Global, is_failing: bool) -> Result<MemSink, OutOfMemory> {
    let calls = failing(alloc, is_failing)?;
    MemSink::new(alloc, 1000, 5, calls)
}

fn err_of(alloc: Global) -> Result<MemSink, OutOfMemory> {
    MemSink::new(alloc, 1000, 1000, List::new(alloc))
}

fn gives<S: Source>(
    alloc: Global,
    words: &Words,
    source: &mut S,
    out: &mut MemSink,
    err: &mut MemSink,
    answer: Answer,
) -> bool {
    plain_status(alloc, words, source, out, err) == Some(answer.status)
        && out.held() == answer.out.as_bytes()
        && err.held() == answer.err.as_bytes()
}

fn gives_into<S: Source>(
    alloc: Global,
    words: &Words,
    source: &mut S,
    out: &mut MemSink,
    answer: Answer,
) -> bool {
    err_of(alloc).is_ok_and(|mut err| gives(alloc, words, source, out, &mut err, answer))
}

fn gives_from<S: Source>(
    alloc: Global,
    words: &Words,
    source: &mut S,
    out_fails: bool,
    answer: Answer,
) -> bool {
    out_of(alloc, out_fails).is_ok_and(|mut out| gives_into(alloc, words, source, &mut out, answer))
}

fn answers(
    alloc: Global,
    words: &Words,
    document: &[u8],
    outside: Outside,
    answer: Answer,
) -> bool {
    let source = source_of(alloc, document, outside.source_fails);
    source.is_ok_and(|mut source| gives_from(alloc, words, &mut source, outside.out_fails, answer))
}

/// Whether the words of this line, with the document, have this answer.
pub fn is_answered(
    alloc: Global,
    line: &str,
    document: &[u8],
    outside: Outside,
    answer: Answer,
) -> bool {
    words_in(alloc, line).is_ok_and(|words| answers(
        alloc,
        &Words { words },
        document,
        outside,
        answer,
    ))
}

fn is_printed(alloc: Global, line: &str, document: &str, text: &str) -> bool {
    let answer = Answer {
        status: 0,
        out: text,
        err: "",
    };
    is_answered(alloc, line, document.as_bytes(), SOUND, answer)
}

/// Words, a document, and the output. What is printed of the last three runs was made by a program that was
/// written apart from this one, and the invariants were worked out by hand.
const OUTPUTS: [(&str, &str, &str); 10] = [
    (
        "run",
        STREAM,
        "0 c0:req\n1 c1:req\nsum c0.req 1\nsum c1.req 1\nend 2\n",
    ),
    (
        "check",
        SWITCH,
        "primitives 4\nchannels 3\noracles 3\npairs 2\nc0 req\nc1\nc2 req\nend\n",
    ),
    ("run", MERGE_BOTH_AT_FIRST, MERGE_BOTH_AT_FIRST_PRINTED),
    ("run", DRAWN_ROWS, DRAWN_ROWS_PRINTED),
    ("run", ALL_MARKS, ALL_MARKS_PRINTED),
    ("inv", FORK_JOIN, "inv 1*Qd.req -1*Qt.req = 0\nend 1\n"),
    ("inv", NO_TAPE, "end 0\n"),
    ("inv", CREDITS, "inv 1*Qd.req 1*Qc.req = 2\nend 1\n"),
    ("inv", SELF_FED, "inv 1*Q.x = 1\nend 1\n"),
    ("inv", UNSENT, "end 0\n"),
];

fn all_are_printed(alloc: Global) -> bool {
    OUTPUTS
        .iter()
        .all(|case| is_printed(alloc, case.0, case.1, case.2))
}

fn is_told(alloc: Global, line: &str, document: &str, status: u8, told: &str) -> bool {
    let answer = Answer {
        status,
        out: "",
        err: told,
    };
    is_answered(alloc, line, document.as_bytes(), SOUND, answer)
}

#[test]
fn outputs_are_printed(rt: HostRuntime) {
    assert!(rt; all_are_printed(rt.alloc()));
}

/// Words that are no command.
const NO_COMMANDS: [&str; 6] = ["", "simulate", "check x", "run --", "inv x", "verify x"];

/// Words, a document, the status, and the line of error.
const REFUSALS: [(&str, &str, u8, &str); 8] = [
    ("run", CUT, 3, "document: not JSON\n"),
    (
        "check",
        UNKNOWN_KIND,
        3,
        "document: unknown kind net.0.kind\n",
    ),
    ("run", TWO_TARGETS, 4, "net: two targets c0 K1 K2\n"),
    ("check", REFUSED_COLOUR, 4, "net: colour c1 req\n"),
    ("run", NO_TAPE, 5, "tape: shape tape\n"),
    ("run", BAD_MARK, 5, "tape: mark 1 0\n"),
    ("verify", STREAM, 5, "proof: form proof\n"),
    ("verify", FREE_SINK, 4, "net: not persistent c1\n"),
];

fn all_are_refused(alloc: Global) -> bool {
    NO_COMMANDS
        .iter()
        .all(|words| is_told(alloc, *words, STREAM, 2, "words\n"))
        && REFUSALS
            .iter()
            .all(|case| is_told(alloc, case.0, case.1, case.2, case.3))
}

#[test]
fn refusals_have_their_status_and_line(rt: HostRuntime) {
    assert!(rt; all_are_refused(rt.alloc()));
}

/// The dependence of a fork's and a join's signals has two loops, and either may be told.
#[test]
fn a_loop_is_told(rt: HostRuntime) {
    let offered = is_told(rt.alloc(), "run", LOOP, 4, "net: loop offer c1, ready c2\n");
    let readied = is_told(rt.alloc(), "run", LOOP, 4, "net: loop ready c1, offer c2\n");
    assert!(rt; offered || readied);
}

/// A fault of the source, and one of the output, with what is answered then.
const FAULTS: [(Outside, Answer); 2] = [
    (
        WITHOUT_SOURCE,
        Answer {
            status: 6,
            out: "",
            err: "read\n",
        },
    ),
    (
        WITHOUT_OUTPUT,
        Answer {
            status: 7,
            out: "0 c0:",
            err: "write\n",
        },
    ),
];

fn all_faults_are_told(alloc: Global) -> bool {
    FAULTS.iter().all(|case| is_answered(alloc, "run", STREAM.as_bytes(), case.0, case.1))
}

#[test]
fn faults_of_streams_have_their_status(rt: HostRuntime) {
    assert!(rt; all_faults_are_told(rt.alloc()));
}

/// The status of `run` on this document.
fn status_into(alloc: Global, document: Text, out: &mut MemSink, err: &mut MemSink) -> Option<u8> {
    match words_in(alloc, "run") {
        Ok(words) => {
            let mut source = CleanSource::new(document);
            plain_status(alloc, &Words { words }, &mut source, out, err)
        }
        Err(OutOfMemory) => None,
    }
}

fn status_out(alloc: Global, document: Text, out: &mut MemSink) -> Option<u8> {
    match err_of(alloc) {
        Ok(mut err) => status_into(alloc, document, out, &mut err),
        Err(OutOfMemory) => None,
    }
}

/// An output that takes a whole round in one call, and may fail in one.
pub fn wide(alloc: Global, fails: Option<u32>) -> Result<MemSink, OutOfMemory> {
    let mut calls = List::new(alloc);
    if let Some(call) = fails {
        calls.push(call)?;
    }
    MemSink::new(alloc, 2_000_000, 2_000_000, calls)
}

/// How many lines there are.
pub fn lines_of(bytes: &[u8]) -> usize {
    bytes.iter().filter(|byte| **byte == b'\n').count()
}

fn leaves(alloc: Global, document: Text, out: &mut MemSink, lines: usize) -> bool {
    status_out(alloc, document, out) == Some(7) && lines_of(out.held()) == lines
}

/// Whether three rounds leave so many lines where the output fails in this call.
fn leaves_lines(alloc: Global, call: u32, lines: usize) -> bool {
    match (
        wide(alloc, Some(call)),
        Text::from_bytes(alloc, THREE_ROUNDS.as_bytes()),
    ) {
        (Ok(mut out), Ok(document)) => leaves(alloc, document, &mut out, lines),
        _ => false,
    }
}

/// A call of the output, and how many lines it holds where that call fails: with two channels a round has
/// 16,384 cycles.
const CUTS: [(u32, usize); 4] = [(0, 0), (1, 16_384), (2, 32_768), (3, 40_000)];

fn all_leave_their_lines(alloc: Global) -> bool {
    CUTS.iter().all(|case| leaves_lines(alloc, case.0, case.1))
}

#[test]
fn rounds_leave_one_by_one(rt: HostRuntime) {
    assert!(rt; all_leave_their_lines(rt.alloc()));
}

fn writes(alloc: Global, document: Text, out: &mut MemSink, text: &[u8]) -> bool {
    status_out(alloc, document, out) == Some(0) && out.held() == text
}

fn rounds_write(alloc: Global, text: &[u8]) -> bool {
    match (
        wide(alloc, None),
        Text::from_bytes(alloc, THREE_ROUNDS.as_bytes()),
    ) {
        (Ok(mut out), Ok(document)) => writes(alloc, document, &mut out, text),
        _ => false,
    }
}

/// The text of the tape's run, made at once, where the names are few and the run is short.
fn text_at_once(
    alloc: Global,
    evaluator: &Evaluator<'_>,
    names: &Names,
    tape: &Tape,
) -> Option<Text> {
    evaluator.design().net().is_net();
    if names.channels.len() > 2 || names.colours.len() > 1 || tape.cycles() > 40_000 {
        return None;
    }
    match run_all(alloc, evaluator, tape) {
        Ok(trace) => trace_text(alloc, names, &trace).ok(),
        Err(OutOfMemory) => None,
    }
}

fn text_of_run(alloc: Global, document: Document) -> Option<Text> {
    let names = document.names;
    let tape = document.tape;
    let design = Design::new(alloc, document.net, &document.allow).ok()?;
    let tape = read_tape(alloc, &design, tape.as_ref()).ok()?;
    let evaluator = Evaluator::new(alloc, &design).ok()?;
    text_at_once(alloc, &evaluator, &names, &tape)
}

fn rounds_write_it(alloc: Global, document: Document) -> bool {
    text_of_run(alloc, document).is_some_and(|text| rounds_write(alloc, text.as_bytes()))
}

#[test]
fn rounds_make_the_whole_text(rt: HostRuntime) {
    let alloc = rt.alloc();
    let document = read_document(alloc, THREE_ROUNDS.as_bytes());
    assert!(rt; document.is_ok_and(|document| rounds_write_it(alloc, document)));
}

fn writes_long_names(alloc: Global) -> bool {
    match (
        wide(alloc, None),
        Text::from_bytes(alloc, LONG_NAMES.as_bytes()),
    ) {
        (Ok(mut out), Ok(document)) => writes(
            alloc,
            document,
            &mut out,
            LONG_NAMES_TEXT.as_bytes(),
        ),
        _ => false,
    }
}

#[test]
fn names_of_sixteen_bytes_and_more_are_written(rt: HostRuntime) {
    assert!(rt; writes_long_names(rt.alloc()));
}

/// 64 spaces.
const SPACES: &[u8] = b"                                                                ";

/// The stream's document, with spaces behind it up to so many bytes.
fn padded(alloc: Global, count: usize) -> Result<Text, OutOfMemory> {
    let mut text = Text::from_bytes(alloc, STREAM.as_bytes())?;
    let more = count.saturating_sub(STREAM.len());
    for _ in 0..more / 64 {
        text.push_bytes(SPACES)?;
    }
    for _ in 0..more % 64 {
        text.push_bytes(b" ")?;
    }
    Ok(text)
}

/// The status of `run` on the stream's document, padded to so many bytes.
fn status_of_padded(alloc: Global, count: usize) -> Option<u8> {
    match (wide(alloc, None), padded(alloc, count)) {
        (Ok(mut out), Ok(document)) => status_out(alloc, document, &mut out),
        _ => None,
    }
}

#[test]
fn sixteen_mebibytes_are_read(rt: HostRuntime) {
    assert!(rt; status_of_padded(rt.alloc(), 16_777_216) == Some(0));
}

#[test]
fn no_more_than_sixteen_mebibytes_are_read(rt: HostRuntime) {
    assert!(rt; status_of_padded(rt.alloc(), 16_777_217) == Some(10));
}
