//! Which channels are persistent.

use super::nets::{Piece, X, Y, design_of};
use std::alloc::Global;
use xm_design::Design;
use xm_model::{Side, SinkMode, SourceMode};
use xm_persist::{PersistFault, persist};

/// Both colours: what each source offers, and a map that keeps them.
const BOTH: [u8; 2] = [X, Y];

#[derive(Clone, Copy)]
enum Case {
    Stream(SourceMode, SinkMode),
    Row,
    Diamond,
    Meeting(SourceMode),
    Merging(SourceMode, SourceMode),
    OneWay(SourceMode),
    Forking(SinkMode, SinkMode),
    Waiting(SourceMode, SinkMode),
}

/// A source, a queue and a sink.
fn stream(alloc: Global, offers: SourceMode, taking: SinkMode) -> Option<Design> {
    let pieces = [
        Piece::Source(0, &BOTH, offers),
        Piece::Queue(0, 1, 2, &[]),
        Piece::Sink(1, taking),
    ];
    design_of(alloc, &pieces, 2, 2)
}

/// Four queues between a source and a sink.
fn row(alloc: Global) -> Option<Design> {
    let pieces = [
        Piece::Source(0, &BOTH, SourceMode::Keep),
        Piece::Queue(0, 1, 2, &[]),
        Piece::Queue(1, 2, 2, &[]),
        Piece::Queue(2, 3, 2, &[]),
        Piece::Queue(3, 4, 2, &[]),
        Piece::Sink(4, SinkMode::Keep),
    ];
    design_of(alloc, &pieces, 5, 2)
}

/// A fork into two queues, and these into a join.
fn diamond(alloc: Global) -> Option<Design> {
    let pieces = [
        Piece::Source(0, &BOTH, SourceMode::Keep),
        Piece::Fork(0, 1, 2, &BOTH, &BOTH),
        Piece::Queue(1, 3, 2, &[]),
        Piece::Queue(2, 4, 2, &[]),
        Piece::Join(3, 4, 5, Side::A),
        Piece::Sink(5, SinkMode::Free),
    ];
    design_of(alloc, &pieces, 6, 2)
}

/// A queue and a second source into a join, which offers on channel 1.
fn meeting(alloc: Global, second: SourceMode) -> Option<Design> {
    let pieces = [
        Piece::Source(0, &BOTH, SourceMode::Keep),
        Piece::Queue(0, 2, 2, &[]),
        Piece::Source(3, &BOTH, second),
        Piece::Join(2, 3, 1, Side::A),
        Piece::Sink(1, SinkMode::Keep),
    ];
    design_of(alloc, &pieces, 4, 2)
}

/// Two sources into a merge, which offers on channel 0.
fn merging(alloc: Global, first: SourceMode, second: SourceMode) -> Option<Design> {
    let pieces = [
        Piece::Source(1, &BOTH, first),
        Piece::Source(2, &BOTH, second),
        Piece::Merge(1, 2, 0),
        Piece::Sink(0, SinkMode::Keep),
    ];
    design_of(alloc, &pieces, 3, 2)
}

/// A function, which offers on channel 0, and a switch whose side b has no colour.
fn one_way(alloc: Global, offers: SourceMode) -> Option<Design> {
    let pieces = [
        Piece::Source(1, &BOTH, offers),
        Piece::Function(1, 0, &BOTH),
        Piece::Switch(0, 2, 3, &[true, true]),
        Piece::Sink(2, SinkMode::Keep),
        Piece::Sink(3, SinkMode::Keep),
    ];
    design_of(alloc, &pieces, 4, 2)
}

/// A fork into two sinks.
fn forking(alloc: Global, a: SinkMode, b: SinkMode) -> Option<Design> {
    let pieces = [
        Piece::Source(0, &BOTH, SourceMode::Keep),
        Piece::Fork(0, 1, 2, &BOTH, &BOTH),
        Piece::Sink(1, a),
        Piece::Sink(2, b),
    ];
    design_of(alloc, &pieces, 3, 2)
}

/// A fork into a join, where a second source comes in, and into a sink.
fn waiting(alloc: Global, second: SourceMode, behind: SinkMode) -> Option<Design> {
    let pieces = [
        Piece::Source(0, &BOTH, SourceMode::Keep),
        Piece::Fork(0, 1, 2, &BOTH, &BOTH),
        Piece::Source(3, &BOTH, second),
        Piece::Join(1, 3, 4, Side::A),
        Piece::Sink(4, behind),
        Piece::Sink(2, SinkMode::Keep),
    ];
    design_of(alloc, &pieces, 5, 2)
}

fn design_in(alloc: Global, case: Case) -> Option<Design> {
    match case {
        Case::Stream(offers, taking) => stream(alloc, offers, taking),
        Case::Row => row(alloc),
        Case::Diamond => diamond(alloc),
        Case::Meeting(second) => meeting(alloc, second),
        Case::Merging(first, second) => merging(alloc, first, second),
        Case::OneWay(offers) => one_way(alloc, offers),
        Case::Forking(a, b) => forking(alloc, a, b),
        Case::Waiting(second, behind) => waiting(alloc, second, behind),
    }
}

/// What is told of a net; of a persistent one how many channels it has.
#[derive(Clone, Copy, PartialEq, Eq)]
enum Answer {
    Persistent(u32),
    NotPersistent(u32),
    Nothing,
}

fn answer_of(alloc: Global, design: &Design) -> Answer {
    match persist(alloc, design) {
        Ok(persistent) => Answer::Persistent(persistent.net().channels()),
        Err(PersistFault::NotPersistent(c)) => Answer::NotPersistent(c),
        Err(PersistFault::OutOfMemory) => Answer::Nothing,
    }
}

fn told_of(alloc: Global, case: Case) -> Answer {
    match design_in(alloc, case) {
        Some(design) => answer_of(alloc, &design),
        None => Answer::Nothing,
    }
}

const KEEP: SourceMode = SourceMode::Keep;

const FREE: SourceMode = SourceMode::Free;

const KEPT: SinkMode = SinkMode::Keep;

const FREELY: SinkMode = SinkMode::Free;

/// Nets each of whose channels keeps its offer, with their numbers of channels.
const PERSISTENT: [(Case, u32); 10] = [
    (Case::Stream(KEEP, KEPT), 2),
    (Case::Stream(SourceMode::Eager, FREELY), 2),
    (Case::Stream(SourceMode::Fair, KEPT), 2),
    (Case::Row, 5),
    (Case::Diamond, 6),
    (Case::Meeting(KEEP), 4),
    (Case::Merging(KEEP, KEEP), 3),
    (Case::OneWay(KEEP), 4),
    (Case::Forking(KEPT, KEPT), 3),
    (Case::Waiting(KEEP, KEPT), 5),
];

/// Nets with the first channel that does not keep its offer.
const OTHERS: [(Case, u32); 9] = [
    (Case::Stream(FREE, KEPT), 0),
    (Case::Meeting(FREE), 1),
    (Case::Merging(KEEP, FREE), 0),
    (Case::Merging(FREE, KEEP), 0),
    (Case::OneWay(FREE), 0),
    (Case::Forking(FREELY, KEPT), 2),
    (Case::Forking(KEPT, FREELY), 1),
    (Case::Waiting(KEEP, FREELY), 2),
    (Case::Waiting(FREE, KEPT), 2),
];

fn are_persistent(alloc: Global) -> bool {
    PERSISTENT.iter().all(|case| told_of(alloc, case.0) == Answer::Persistent(case.1))
}

#[test]
fn each_channel_keeps_its_offer(rt: HostRuntime) {
    assert!(rt; are_persistent(rt.alloc()));
}

fn are_not_persistent(alloc: Global) -> bool {
    OTHERS.iter().all(|case| told_of(alloc, case.0) == Answer::NotPersistent(case.1))
}

#[test]
fn the_first_channel_that_does_not_is_named(rt: HostRuntime) {
    assert!(rt; are_not_persistent(rt.alloc()));
}
