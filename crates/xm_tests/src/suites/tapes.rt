//! Tapes of a source, a queue and a sink in a row, and their first faults.

use super::nets::{Piece, ROW, design_of};
use serde_json::Value;
use std::alloc::Global;
use xm_design::Design;
use xm_model::{Choice, OutOfMemory, SinkMode, SourceMode};
use xm_tape::{Tape, TapeFault, read_tape};

/// A tape takes at most 4 bytes a choice.
const _: () = prove!(size_of::<Choice>() <= 4);

/// What reading a tape gives: how many rows the stem has, how often the cycle comes and how many rows it
/// has, and how many cycles the run has; or a fault.
#[derive(Clone, Copy)]
enum Answer {
    Read(u32, u32, u32, u32),
    Shape(&'static str),
    Limit(u64),
    Length(u32, u64),
    Mark(u32, u32),
}

fn is_answer(read: &Result<Tape, TapeFault>, expected: &Answer) -> bool {
    match (read, expected) {
        (Ok(tape), Answer::Read(stem, times, cycle, cycles)) => {
            let sizes = (tape.stem_len(), tape.times(), tape.cycle_len());
            sizes == (*stem, *times, *cycle) && tape.cycles() == *cycles
        }
        (Err(TapeFault::TapeShape(path)), Answer::Shape(text)) => path.as_bytes()
            == text.as_bytes(),
        (Err(TapeFault::TapeLimit(count)), Answer::Limit(greatest)) => count == greatest,
        (Err(TapeFault::RowLength(row, bytes)), Answer::Length(at, length)) => row == at
            && bytes == length,
        (Err(TapeFault::BadMark(row, oracle)), Answer::Mark(at, place)) => row == at
            && oracle == place,
        _ => false,
    }
}

/// Tapes as JSON, and what reading answers.
const CASES: [(&str, Answer); 18] = [
    ("5", Answer::Shape("tape")),
    (r#"{"rows":5}"#, Answer::Shape("tape.rows")),
    (r#"{"rows":["01",7]}"#, Answer::Shape("tape.rows.1")),
    (r#"{"rows":[],"x":1}"#, Answer::Shape("tape")),
    (r#"{"stem":[],"times":1}"#, Answer::Shape("tape.cycle")),
    (
        r#"{"stem":[],"cycle":["01"],"times":4294967296}"#,
        Answer::Shape("tape.times"),
    ),
    ("{}", Answer::Shape("tape.cycles")),
    (r#"{"cycles":1}"#, Answer::Shape("tape.seed")),
    (
        r#"{"cycles":4294967296,"seed":0}"#,
        Answer::Shape("tape.cycles"),
    ),
    (r#"{"cycles":10000001,"seed":0}"#, Answer::Limit(10000001)),
    (
        r#"{"stem":[],"cycle":["01",".."],"times":5000001}"#,
        Answer::Limit(10000002),
    ),
    (r#"{"rows":["0"]}"#, Answer::Length(0, 1)),
    (r#"{"rows":["01","1."]}"#, Answer::Mark(1, 0)),
    (r#"{"rows":["0x"]}"#, Answer::Mark(0, 1)),
    (
        r#"{"stem":["01"],"cycle":["0"],"times":0}"#,
        Answer::Length(1, 1),
    ),
    (r#"{"rows":["01",".."]}"#, Answer::Read(2, 0, 0, 2)),
    (
        r#"{"stem":[],"cycle":["01",".."],"times":2}"#,
        Answer::Read(0, 2, 2, 4),
    ),
    (r#"{"cycles":1,"seed":0}"#, Answer::Read(1, 0, 0, 1)),
];

/// Whether reading the text as a tape of the design gives this.
fn gives(alloc: Global, design: &Design, text: &str, expected: &Answer) -> bool {
    let value = Value::from_str(alloc, text);
    value.is_ok_and(|value| is_answer(&read_tape(alloc, design, Some(&value)), expected))
}

fn all_cases_hold(alloc: Global, design: &Design) -> bool {
    asks_for_a_tape(alloc, design)
        && CASES
            .iter()
            .all(|case| gives(alloc, design, case.0, &case.1))
}

fn asks_for_a_tape(alloc: Global, design: &Design) -> bool {
    is_answer(&read_tape(alloc, design, None), &Answer::Shape("tape"))
}

#[test]
fn the_first_fault_is_told(rt: HostRuntime) {
    let alloc = rt.alloc();
    let design = design_of(alloc, &ROW, 2, 1);
    assert!(rt; design.is_some_and(|design| all_cases_hold(alloc, &design)));
}

/// Whether cycle `t` has these choices.
fn chooses(alloc: Global, tape: &Tape, t: u32, expected: &[Choice]) -> bool {
    if t >= tape.cycles() {
        return false;
    }
    match tape.rows(alloc, t) {
        Ok(rows) => rows.row() == expected,
        Err(OutOfMemory) => false,
    }
}

/// Whether the first cycle has these choices, the second none, and the third those of the first, as far as
/// the tape goes.
fn goes_on_from(alloc: Global, tape: &Tape, first: &[Choice]) -> bool {
    let idle = [Choice::Offer(None), Choice::Ready(false)];
    chooses(alloc, tape, 0, first)
        && (tape.cycles() < 2 || chooses(alloc, tape, 1, &idle))
        && (tape.cycles() < 4 || chooses(alloc, tape, 2, first))
}

fn begins_with(alloc: Global, read: &Result<Tape, TapeFault>, first: &[Choice]) -> bool {
    match read {
        Ok(tape) => goes_on_from(alloc, tape, first),
        Err(_) => false,
    }
}

fn reads_on_from(alloc: Global, design: &Design, text: &str, first: &[Choice]) -> bool {
    let value = Value::from_str(alloc, text);
    value.is_ok_and(|value| begins_with(alloc, &read_tape(alloc, design, Some(&value)), first))
}

/// Tapes as JSON, and the choices of their first cycles.
const FIRSTS: [(&str, [Choice; 2]); 3] = [
    (
        r#"{"rows":["01",".."]}"#,
        [Choice::Offer(Some(0)), Choice::Ready(true)],
    ),
    (
        r#"{"stem":[],"cycle":["01",".."],"times":2}"#,
        [Choice::Offer(Some(0)), Choice::Ready(true)],
    ),
    (
        r#"{"cycles":1,"seed":0}"#,
        [Choice::Offer(Some(0)), Choice::Ready(false)],
    ),
];

fn all_rows_come(alloc: Global, design: &Design) -> bool {
    FIRSTS
        .iter()
        .all(|case| reads_on_from(alloc, design, case.0, &case.1))
}

#[test]
fn rows_are_given_cycle_by_cycle(rt: HostRuntime) {
    let alloc = rt.alloc();
    let design = design_of(alloc, &ROW, 2, 1);
    assert!(rt; design.is_some_and(|design| all_rows_come(alloc, &design)));
}

/// As many colours as a source may offer.
const COLOURS: [u8; 36] = [
    0, 1, 2, 3, 4, 5, 6, 7, 8, 9, 10, 11, 12, 13, 14, 15, 16, 17, 18, 19, 20, 21, 22, 23, 24, 25,
    26, 27, 28, 29, 30, 31, 32, 33, 34, 35,
];

/// The generator's numbers from the seed 0 on are 1442695040888963407, 1876011003808476466,
/// 11166244414315200793 and 7401132627792533940. The upper 31 bits of each are drawn from: of 37 offers,
/// of which the first is none, and of 2.
fn draws_four(alloc: Global, design: &Design) -> bool {
    let net = design.net();
    net.is_net();
    match Tape::seeded(alloc, design, 2, 0) {
        Ok(tape) => chooses(
            alloc,
            &tape,
            0,
            &[Choice::Offer(Some(0)), Choice::Ready(false)],
        ) && chooses(
            alloc,
            &tape,
            1,
            &[Choice::Offer(Some(11)), Choice::Ready(false)],
        ),
        Err(_) => false,
    }
}

const DRAWN: [Piece; 2] = [
    Piece::Source(0, &COLOURS, SourceMode::Keep),
    Piece::Sink(0, SinkMode::Keep),
];

#[test]
fn rows_are_drawn_by_the_generators_numbers(rt: HostRuntime) {
    let alloc = rt.alloc();
    let design = design_of(alloc, &DRAWN, 1, 36);
    assert!(rt; design.is_some_and(|design| draws_four(alloc, &design)));
}
