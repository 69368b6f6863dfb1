//! Two cycles, one after the other, of nets with each kind of primitive.

use super::nets::{MOVES_X, Piece, ROW, WAITS, X, Y, design_of};
use std::alloc::Global;
use xm_design::Design;
use xm_model::{Choice, Frame, OutOfMemory, Side, SinkMode, SourceMode, Wire};
use xm_step::{Evaluator, blank, reset, step};

const OFFERS_X: Choice = Choice::Offer(Some(X));

const OFFERS_Y: Choice = Choice::Offer(Some(Y));

const SILENT: Choice = Choice::Offer(None);

const READY: Choice = Choice::Ready(true);

const CLOSED: Choice = Choice::Ready(false);

/// A channel on which y moves.
const MOVES_Y: Wire = Wire {
    offer: Some(Y),
    ready: true,
};

/// A channel on which x is offered and refused.
const STALLS_X: Wire = Wire {
    offer: Some(X),
    ready: false,
};

/// A channel on which y is offered and refused.
const STALLS_Y: Wire = Wire {
    offer: Some(Y),
    ready: false,
};

const IDLE: Wire = Wire {
    offer: None,
    ready: false,
};

/// The frame of the second of two cycles.
fn second_frame(
    alloc: Global,
    design: &Design,
    first: &[Choice],
    second: &[Choice],
) -> Result<Frame, OutOfMemory> {
    let evaluator = Evaluator::new(alloc, design)?;
    let mut state = reset(alloc, design)?;
    let mut frame = blank(alloc, design)?;
    step(&evaluator, &mut state, first, &mut frame);
    step(&evaluator, &mut state, second, &mut frame);
    Ok(frame)
}

fn has_wires(
    alloc: Global,
    design: &Design,
    first: &[Choice],
    second: &[Choice],
    wires: &[Wire],
) -> bool {
    second_frame(alloc, design, first, second).is_ok_and(|frame| frame.wires.as_slice() == wires)
}

/// A net of two colours, the choices of two cycles, and the signals of the second.
#[derive(Clone, Copy)]
struct Case<'a> {
    pieces: &'a [Piece<'a>],
    channels: u32,
    first: &'a [Choice],
    second: &'a [Choice],
    wires: &'a [Wire],
}

fn gives(alloc: Global, case: Case) -> bool {
    let design = design_of(alloc, case.pieces, case.channels, 2);
    design.is_some_and(|design| has_wires(alloc, &design, case.first, case.second, case.wires))
}

/// A full queue, from which its packet leaves in the second cycle to a sink that has kept its readiness.
const QUEUE: Case = Case {
    pieces: &ROW,
    channels: 2,
    first: &[OFFERS_X, READY],
    second: &[SILENT, CLOSED],
    wires: &[IDLE, MOVES_X],
};

/// A fork whose maps keep their colours.
const KEEPING_FORK: [Piece; 4] = [
    Piece::Source(0, &[X, Y], SourceMode::Keep),
    Piece::Fork(0, 1, 2, &[X, Y], &[X, Y]),
    Piece::Sink(1, SinkMode::Free),
    Piece::Sink(2, SinkMode::Free),
];

/// Side b is refused in the first cycle, and then the packet goes both ways.
const FORK: Case = Case {
    pieces: &KEEPING_FORK,
    channels: 3,
    first: &[OFFERS_Y, READY, CLOSED],
    second: &[SILENT, READY, READY],
    wires: &[MOVES_Y, MOVES_Y, MOVES_Y],
};

/// Side b refuses: then nothing is offered on side a.
const REFUSED_FORK: Case = Case {
    pieces: &KEEPING_FORK,
    channels: 3,
    first: &[SILENT, READY, READY],
    second: &[OFFERS_X, READY, CLOSED],
    wires: &[STALLS_X, WAITS, STALLS_X],
};

/// A fork whose first map changes x into y.
const MAPPING_FORK: Case = Case {
    pieces: &[
        Piece::Source(0, &[X, Y], SourceMode::Free),
        Piece::Fork(0, 1, 2, &[Y, Y], &[X, Y]),
        Piece::Sink(1, SinkMode::Free),
        Piece::Sink(2, SinkMode::Free),
    ],
    channels: 3,
    first: &[SILENT, CLOSED, CLOSED],
    second: &[OFFERS_X, READY, READY],
    wires: &[MOVES_X, MOVES_Y, MOVES_X],
};

/// A function that turns x and y, from a source that offers in every cycle.
const FUNCTION: Case = Case {
    pieces: &[
        Piece::Source(0, &[X, Y], SourceMode::Eager),
        Piece::Function(0, 1, &[Y, X]),
        Piece::Sink(1, SinkMode::Keep),
    ],
    channels: 2,
    first: &[SILENT, READY],
    second: &[SILENT, READY],
    wires: &[MOVES_X, MOVES_Y],
};

/// A join that hands on the colour of its side b, once both offer.
const JOIN: Case = Case {
    pieces: &[
        Piece::Source(0, &[X], SourceMode::Keep),
        Piece::Source(1, &[Y], SourceMode::Fair),
        Piece::Join(0, 1, 2, Side::B),
        Piece::Sink(2, SinkMode::Keep),
    ],
    channels: 3,
    first: &[OFFERS_X, SILENT, READY],
    second: &[SILENT, OFFERS_Y, CLOSED],
    wires: &[MOVES_X, MOVES_Y, MOVES_Y],
};

/// A switch that sends x to its side a and y to its side b.
const SWITCH: Case = Case {
    pieces: &[
        Piece::Source(0, &[X, Y], SourceMode::Keep),
        Piece::Switch(0, 1, 2, &[true, false]),
        Piece::Sink(1, SinkMode::Free),
        Piece::Sink(2, SinkMode::Free),
    ],
    channels: 3,
    first: &[OFFERS_X, READY, CLOSED],
    second: &[OFFERS_Y, CLOSED, READY],
    wires: &[MOVES_Y, IDLE, MOVES_Y],
};

const MERGE: [Piece; 4] = [
    Piece::Source(0, &[X], SourceMode::Keep),
    Piece::Source(1, &[Y], SourceMode::Keep),
    Piece::Merge(0, 1, 2),
    Piece::Sink(2, SinkMode::Free),
];

/// A merge whose side a was granted and refused is granted again, though side b offers too.
const STALLED_MERGE: Case = Case {
    pieces: &MERGE,
    channels: 3,
    first: &[OFFERS_X, SILENT, CLOSED],
    second: &[SILENT, OFFERS_Y, READY],
    wires: &[MOVES_X, STALLS_Y, MOVES_X],
};

/// After a move from side a the merge prefers side b.
const TURNED_MERGE: Case = Case {
    pieces: &MERGE,
    channels: 3,
    first: &[OFFERS_X, OFFERS_Y, READY],
    second: &[OFFERS_X, SILENT, READY],
    wires: &[STALLS_X, MOVES_Y, MOVES_Y],
};

/// A fork beside a join: each needs a signal of the other first, so that they are made signal by signal.
const KNOT: [Piece; 6] = [
    Piece::Source(0, &[X], SourceMode::Keep),
    Piece::Fork(0, 1, 2, &[X, Y], &[X, Y]),
    Piece::Sink(1, SinkMode::Free),
    Piece::Source(3, &[X], SourceMode::Keep),
    Piece::Join(3, 2, 4, Side::A),
    Piece::Sink(4, SinkMode::Free),
];

const MOVING_KNOT: Case = Case {
    pieces: &KNOT,
    channels: 5,
    first: &[OFFERS_X, CLOSED, OFFERS_X, CLOSED],
    second: &[SILENT, READY, SILENT, READY],
    wires: &[MOVES_X, MOVES_X, MOVES_X, MOVES_X, MOVES_X],
};

const STALLED_KNOT: Case = Case {
    pieces: &KNOT,
    channels: 5,
    first: &[OFFERS_X, CLOSED, OFFERS_X, CLOSED],
    second: &[SILENT, READY, SILENT, CLOSED],
    wires: &[STALLS_X, WAITS, STALLS_X, STALLS_X, STALLS_X],
};

#[test]
fn a_packet_goes_through_a_row(rt: HostRuntime) {
    assert!(rt; gives(rt.alloc(), QUEUE));
}

#[test]
fn a_fork_sends_a_packet_both_ways_or_not_at_all(rt: HostRuntime) {
    assert!(rt; gives(rt.alloc(), FORK));
    assert!(rt; gives(rt.alloc(), REFUSED_FORK));
    assert!(rt; gives(rt.alloc(), MAPPING_FORK));
}

#[test]
fn functions_joins_and_switches_hand_packets_on(rt: HostRuntime) {
    assert!(rt; gives(rt.alloc(), FUNCTION));
    assert!(rt; gives(rt.alloc(), JOIN));
    assert!(rt; gives(rt.alloc(), SWITCH));
}

#[test]
fn a_merge_holds_its_grant_and_then_turns(rt: HostRuntime) {
    assert!(rt; gives(rt.alloc(), STALLED_MERGE));
    assert!(rt; gives(rt.alloc(), TURNED_MERGE));
}

#[test]
fn a_fork_and_a_join_that_need_each_other_are_made_signal_by_signal(rt: HostRuntime) {
    assert!(rt; gives(rt.alloc(), MOVING_KNOT));
    assert!(rt; gives(rt.alloc(), STALLED_KNOT));
}
