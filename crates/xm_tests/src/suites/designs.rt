//! Designs: their orders and numbers, and the first fault of a net that has none.

use super::nets::{Entry, KNOT, Piece, X, Y, allow_of, design_of, may_have, net_of};
use std::alloc::Global;
use xm_design::{Design, NetFault};
use xm_model::{Allow, List, Net, Prim, SinkMode, SourceMode};
use xm_order::Signal;

/// A source, a queue and a sink.
const STREAM: [Piece; 3] = [
    Piece::Source(0, &[X, Y], SourceMode::Keep),
    Piece::Queue(0, 1, 2, &[]),
    Piece::Sink(1, SinkMode::Keep),
];

/// A source, a queue, a function that makes both colours y, a queue and a sink.
const LONGER: [Piece; 5] = [
    Piece::Source(0, &[X, Y], SourceMode::Keep),
    Piece::Queue(0, 1, 2, &[]),
    Piece::Function(1, 2, &[Y, Y]),
    Piece::Queue(2, 3, 2, &[]),
    Piece::Sink(3, SinkMode::Keep),
];

/// The number of a pair, where it is one.
fn pair_number(design: &Design, q: u32, d: u8) -> Option<u32> {
    let net = design.net();
    if q as usize >= net.prims().len() {
        return None;
    }
    match net.prim(q) {
        Prim::Queue { out, .. } => {
            if design.colours().has(*out, d) {
                Some(design.queue_pair(q, d))
            } else {
                None
            }
        }
        _ => None,
    }
}

/// Whether both stand in the order, the first before the second.
fn goes_before(signals: &[Signal], first: Signal, second: Signal) -> bool {
    let first = signals.iter().position(|it| *it == first);
    let second = signals.iter().position(|it| *it == second);
    match (first, second) {
        (Some(j), Some(k)) => j < k,
        _ => false,
    }
}

fn is_made_by(design: &Design, signal: Signal, prim: u32) -> bool {
    let tasks = design.tasks();
    tasks
        .iter()
        .any(|task| task.signal == signal && task.prim == prim)
}

fn has_all_four(signals: &[Signal]) -> bool {
    signals.len() == 4
        && signals.contains(&Signal::Offer(0))
        && signals.contains(&Signal::Ready(0))
        && signals.contains(&Signal::Offer(1))
        && signals.contains(&Signal::Ready(1))
}

fn has_tasks_of_a_stream(design: &Design) -> bool {
    design.tasks().len() == 4
        && is_made_by(design, Signal::Offer(1), 1)
        && is_made_by(design, Signal::Ready(1), 2)
}

fn has_numbers_of_a_stream(design: &Design) -> bool {
    has_all_four(design.order().signals().as_slice())
        && has_tasks_of_a_stream(design)
        && design.oracles() == [0, 1, 1].as_slice()
        && design.oracle_count() == 2
        && pair_number(design, 1, X) == Some(0)
        && pair_number(design, 1, Y) == Some(1)
}

#[test]
fn a_stream_has_its_numbers(rt: HostRuntime) {
    let design = design_of(rt.alloc(), &STREAM, 2, 2);
    assert!(rt; design.is_some_and(|design| has_numbers_of_a_stream(&design)));
}

fn has_prims(net: &Net, count: usize) -> bool {
    net.prims().len() == count
}

#[test]
fn a_design_hands_its_net_back(rt: HostRuntime) {
    let design = design_of(rt.alloc(), &STREAM, 2, 2);
    assert!(rt; design.is_some_and(|design| has_prims(&design.into_net(), 3)));
}

fn has_order_of_the_longer(signals: &[Signal]) -> bool {
    signals.len() == 8
        && goes_before(signals, Signal::Offer(1), Signal::Offer(2))
        && goes_before(signals, Signal::Ready(2), Signal::Ready(1))
}

fn has_pairs_of_the_longer(design: &Design) -> bool {
    pair_number(design, 1, X) == Some(0)
        && pair_number(design, 1, Y) == Some(1)
        && pair_number(design, 3, X).is_none()
        && pair_number(design, 3, Y) == Some(2)
}

fn has_numbers_of_the_longer(design: &Design) -> bool {
    has_order_of_the_longer(design.order().signals().as_slice())
        && design.oracles() == [0, 1, 1, 1, 1].as_slice()
        && design.oracle_count() == 2
        && has_pairs_of_the_longer(design)
}

#[test]
fn a_row_counts_the_pairs_below(rt: HostRuntime) {
    let design = design_of(rt.alloc(), &LONGER, 4, 2);
    assert!(rt; design.is_some_and(|design| has_numbers_of_the_longer(&design)));
}

/// What is told of a net: a pair that is refused, or the signals of a loop of two.
#[derive(Clone, Copy, PartialEq, Eq)]
enum Answer {
    Designed,
    Refused(u32, u8),
    Loop(Signal, Signal),
    Other,
}

fn answer_of(alloc: Global, net: Net, allow: &List<Allow>) -> Answer {
    match Design::new(alloc, net, allow) {
        Ok(_) => Answer::Designed,
        Err(NetFault::Allow(fault)) => Answer::Refused(fault.channel, fault.colour),
        Err(NetFault::CombLoop(found)) => match found.as_slice() {
            [first, second] => Answer::Loop(*first, *second),
            _ => Answer::Other,
        },
        Err(NetFault::OutOfMemory) => Answer::Other,
    }
}

/// What is told of the net of a table with 2 colours and this list of allowed colours.
fn told_of(alloc: Global, pieces: &[Piece], channels: u32, entries: &[Entry]) -> Answer {
    match (net_of(alloc, pieces, channels, 2), allow_of(alloc, entries)) {
        (Some(net), Ok(allow)) => answer_of(alloc, net, &allow),
        _ => Answer::Other,
    }
}

fn all_refused_pairs_are_told(alloc: Global) -> bool {
    let (x, y, both) = ([X], [Y], [X, Y]);
    let cases = [
        ([may_have(0, &both), may_have(1, &both)], Answer::Designed),
        ([may_have(1, &[]), may_have(0, &x)], Answer::Refused(0, Y)),
        (
            [may_have(0, &both), may_have(1, &[])],
            Answer::Refused(1, X),
        ),
        ([may_have(1, &x), may_have(1, &y)], Answer::Refused(1, X)),
    ];
    cases
        .iter()
        .all(|case| told_of(alloc, &STREAM, 2, &case.0) == case.1)
}

#[test]
fn the_first_refused_pair_is_told(rt: HostRuntime) {
    assert!(rt; all_refused_pairs_are_told(rt.alloc()));
}

fn tells_a_loop(alloc: Global) -> bool {
    let found = told_of(alloc, &KNOT, 4, &[may_have(3, &[X, Y])]);
    found == Answer::Loop(Signal::Offer(1), Signal::Ready(2))
        || found == Answer::Loop(Signal::Ready(1), Signal::Offer(2))
}

fn tells_a_pair(alloc: Global) -> bool {
    told_of(alloc, &KNOT, 4, &[may_have(3, &[X])]) == Answer::Refused(3, Y)
}

#[test]
fn a_refused_pair_comes_before_a_loop(rt: HostRuntime) {
    assert!(rt; tells_a_loop(rt.alloc()) && tells_a_pair(rt.alloc()));
}
