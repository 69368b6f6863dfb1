//! Runs, and their texts.

use super::names::names_of;
use super::nets::{ROW, design_of};
use std::alloc::Global;
use xm_design::Design;
use xm_model::{List, Names, OutOfMemory, Text};
use xm_step::{Evaluator, reset};
use xm_tape::Tape;
use xm_trace::{Move, RunText, Total, Trace, rounds_follow, run_all, run_round, trace_text};

fn row_names(alloc: Global) -> Result<Names, OutOfMemory> {
    names_of(alloc, &["c0", "c1"], &["req"])
}

/// A run of 2,500 cycles, or one in which a packet is sent, and then taken from the queue by the sink, which
/// stayed ready.
#[derive(Clone, Copy)]
enum Case {
    Packet,
    ManyCycles,
}

/// What is made of a run as one round: its moves, the lines of its cycles, and what follows them.
#[derive(Clone, Copy)]
struct Round<'a> {
    trace: &'a Trace,
    lines: &'a Text,
    end: &'a Text,
}

/// The moves of the tape's run, made at once, where the run is short.
fn trace_of(
    alloc: Global,
    evaluator: &Evaluator<'_>,
    tape: &Tape,
) -> Result<Option<Trace>, OutOfMemory> {
    let net = evaluator.design().net();
    net.is_net();
    if tape.cycles() > 10_000 {
        return Ok(None);
    }
    Ok(Some(run_all(alloc, evaluator, tape)?))
}

/// The text of these moves.
fn text_of(alloc: Global, names: &Names, trace: &Trace) -> Option<Text> {
    if names.channels.len() > 2 || names.colours.len() > 1 {
        return None;
    }
    trace_text(alloc, names, trace).ok()
}

/// How many of the moves are of this colour on this channel.
fn count_of(moves: &[Move], total: &Total) -> u64 {
    let mut count = 0u64;
    for it in moves {
        if it.channel == total.channel && it.colour == total.colour && count < u64::MAX {
            count += 1;
        }
    }
    count
}

/// Whether each sum is that of its moves.
fn are_sums(totals: &[Total], moves: &[Move]) -> bool {
    totals
        .iter()
        .all(|total| count_of(moves, total) == total.count)
}

/// Whether the text is the lines of the round and what follows them.
fn is_joined(text: &[u8], round: Round) -> bool {
    let lines = round.lines.as_bytes();
    let end = round.end.as_bytes();
    text.starts_with(lines)
        && text.ends_with(end)
        && text.len().checked_sub(lines.len()) == Some(end.len())
}

/// Whether the moves and the text that are made at once are those of the round.
fn agrees(alloc: Global, names: &Names, trace: &Trace, round: Round) -> bool {
    trace.cycles == round.trace.cycles
        && trace.moves.as_slice() == round.trace.moves.as_slice()
        && text_of(alloc, names, trace).is_some_and(|text| is_joined(text.as_bytes(), round))
}

fn agrees_at_once(
    alloc: Global,
    evaluator: &Evaluator<'_>,
    tape: &Tape,
    names: &Names,
    round: Round,
) -> bool {
    match trace_of(alloc, evaluator, tape) {
        Ok(Some(trace)) => agrees(alloc, names, &trace, round),
        _ => false,
    }
}

fn written(alloc: Global, design: &Design) -> Option<Tape> {
    Tape::written(alloc, design, &["01", ".."], &[], 0).ok()
}

fn seeded(alloc: Global, design: &Design) -> Option<Tape> {
    let net = design.net();
    net.is_net();
    Tape::seeded(alloc, design, 2500, 1).ok()
}

fn tape_in(alloc: Global, design: &Design, case: Case) -> Option<Tape> {
    match case {
        Case::Packet => written(alloc, design),
        Case::ManyCycles => seeded(alloc, design),
    }
}

/// Whether the moves are those of a packet on channel 0 in cycle 0, and on channel 1 in cycle 1.
fn are_of_a_packet(moves: &[Move]) -> bool {
    match moves {
        [first, second] => (first.cycle, first.channel, first.colour) == (0, 0, 0)
            && (second.cycle, second.channel, second.colour) == (1, 1, 0),
        _ => false,
    }
}

fn is_in(round: Round, case: Case) -> bool {
    match case {
        Case::Packet => {
            are_of_a_packet(round.trace.moves.as_slice())
                && round.lines.as_bytes() == b"0 c0:req\n1 c1:req\n".as_slice()
                && round.end.as_bytes() == b"sum c0.req 1\nsum c1.req 1\nend 2\n".as_slice()
        }
        Case::ManyCycles => round.trace.cycles == 2500,
    }
}

/// Whether each colour on each of two channels has its sum.
fn has_sums(alloc: Global, told: &RunText, moves: &[Move]) -> bool {
    let totals = told.totals(alloc);
    totals.is_ok_and(|totals| totals.len() == 2 && are_sums(totals.as_slice(), moves))
}

/// Whether the tape's run, made as one round and made at once, is that of the case, where the names are those
/// of the design and the run is short.
fn is_run_of(
    alloc: Global,
    evaluator: &Evaluator<'_>,
    tape: &Tape,
    names: &Names,
    case: Case,
) -> bool {
    let design = evaluator.design();
    let net = design.net();
    net.is_net();
    if names.channels.len() != net.channels() as usize {
        return false;
    }
    if names.colours.len() != net.colours() as usize {
        return false;
    }
    if tape.cycles() > 10_000 {
        return false;
    }
    rounds_follow();
    let Ok(mut state) = reset(alloc, design) else {
        return false;
    };
    let Ok(mut told) = RunText::new(alloc, design) else {
        return false;
    };
    let Ok(trace) = run_round(alloc, evaluator, tape, &mut state, 0, tape.cycles()) else {
        return false;
    };
    match (told.add(alloc, names, &trace), told.end(alloc, names)) {
        (Ok(lines), Ok(end)) => {
            let round = Round {
                trace: &trace,
                lines: &lines,
                end: &end,
            };
            is_in(round, case)
                && has_sums(alloc, &told, trace.moves.as_slice())
                && agrees_at_once(alloc, evaluator, tape, names, round)
        }
        _ => false,
    }
}

fn is_run_by(alloc: Global, evaluator: &Evaluator<'_>, names: &Names, case: Case) -> bool {
    tape_in(alloc, evaluator.design(), case).is_some_and(|tape| is_run_of(
        alloc, evaluator, &tape, names, case,
    ))
}

fn is_run(alloc: Global, design: &Design, names: &Names, case: Case) -> bool {
    match Evaluator::new(alloc, design) {
        Ok(evaluator) => is_run_by(alloc, &evaluator, names, case),
        Err(OutOfMemory) => false,
    }
}

fn row_is_run(alloc: Global, names: &Names, case: Case) -> bool {
    design_of(alloc, &ROW, 2, 1).is_some_and(|design| is_run(alloc, &design, names, case))
}

fn holds(alloc: Global, case: Case) -> bool {
    row_names(alloc).is_ok_and(|names| row_is_run(alloc, &names, case))
}

#[test]
fn a_packet_is_traced(rt: HostRuntime) {
    assert!(rt; holds(rt.alloc(), Case::Packet));
}

#[test]
fn a_round_makes_the_whole_text(rt: HostRuntime) {
    assert!(rt; holds(rt.alloc(), Case::ManyCycles));
}
