//! Orders of signals, and loops.

use super::nets::{FORK_JOIN, Piece, X, net_of};
use std::alloc::Global;
use xm_model::{List, Net, OutOfMemory, Side, SinkMode, SourceMode};
use xm_order::{OrderFault, Signal, order};

/// Whether `order` answers a loop, which is one of these two.
fn is_loop(alloc: Global, net: &Net, one: &[Signal], other: &[Signal]) -> bool {
    match order(alloc, net) {
        Err(OrderFault::CombLoop(found)) => found.as_slice() == one || found.as_slice() == other,
        _ => false,
    }
}

/// Whether `order` answers an order of so many signals.
fn has_order(alloc: Global, net: &Net, count: usize) -> bool {
    match order(alloc, net) {
        Ok(order) => order.signals().len() == count,
        Err(_) => false,
    }
}

fn is_looped(
    alloc: Global,
    pieces: &[Piece],
    channels: u32,
    one: &[Signal],
    other: &[Signal],
) -> bool {
    net_of(alloc, pieces, channels, 1).is_some_and(|net| is_loop(alloc, &net, one, other))
}

fn is_ordered(alloc: Global, pieces: &[Piece], channels: u32, count: usize) -> bool {
    net_of(alloc, pieces, channels, 1).is_some_and(|net| has_order(alloc, &net, count))
}

#[test]
fn a_fork_that_closes_in_a_join_is_a_loop(rt: HostRuntime) {
    let one = [Signal::Offer(1), Signal::Ready(2)];
    let other = [Signal::Ready(1), Signal::Offer(2)];
    let pieces = [
        Piece::Source(0, &[X], SourceMode::Keep),
        Piece::Fork(0, 1, 2, &[X], &[X]),
        Piece::Join(1, 2, 3, Side::A),
        Piece::Sink(3, SinkMode::Keep),
    ];
    assert!(rt; is_looped(rt.alloc(), &pieces, 4, &one, &other));
}

#[test]
fn queues_between_fork_and_join_give_an_order(rt: HostRuntime) {
    assert!(rt; is_ordered(rt.alloc(), &FORK_JOIN, 6, 12));
}

#[test]
fn a_function_into_its_own_input_is_a_loop(rt: HostRuntime) {
    let found = [Signal::Offer(0)];
    let pieces = [Piece::Function(0, 0, &[X])];
    assert!(rt; is_looped(rt.alloc(), &pieces, 1, &found, &found));
}

/// A source, 4,094 functions in a row and a sink.
fn long_row(alloc: Global) -> Result<List<Piece<'static>>, OutOfMemory> {
    let mut pieces = List::new(alloc);
    pieces.push(Piece::Source(0, &[X], SourceMode::Keep))?;
    for c in 0..4094 {
        pieces.push(Piece::Function(c, c + 1, &[X]))?;
    }
    pieces.push(Piece::Sink(4094, SinkMode::Keep))?;
    Ok(pieces)
}

fn is_long_row_ordered(alloc: Global) -> bool {
    long_row(alloc).is_ok_and(|pieces| is_ordered(alloc, pieces.as_slice(), 4095, 8190))
}

#[test]
fn the_longest_row_has_an_order(rt: HostRuntime) {
    assert!(rt; is_long_row_ordered(rt.alloc()));
}
