//! The colours of channels, and what a list of allowed colours refuses.

use super::nets::{Entry, ONE_WAY_SWITCH, Piece, X, Y, allow_of, may_have, net_of};
use std::alloc::Global;
use xm_colours::{ColourFault, Colours, allowed, infer};
use xm_model::{List, Net, SinkMode, SourceMode};

/// Whether a channel's colours are just these, which differ.
fn has_just(colours: &Colours, c: u32, wanted: &[u8]) -> bool {
    colours.count(c) as usize == wanted.len() && wanted.iter().all(|d| colours.has(c, *d))
}

/// Whether the colours of the first channels are just these.
fn have_just(colours: &Colours, sets: &[&[u8]]) -> bool {
    for (c, wanted) in sets.iter().enumerate() {
        match u32::try_from(c) {
            Ok(c) if has_just(colours, c, wanted) => {}
            _ => return false,
        }
    }
    true
}

fn infers(alloc: Global, net: &Net, sets: &[&[u8]], pairs: u64) -> bool {
    infer(alloc, net).is_ok_and(|found| have_just(&found, sets) && found.pairs() == pairs)
}

/// Whether a net of so many channels and colours has these sets, one for each channel, and pairs.
fn is_inferred(
    alloc: Global,
    pieces: &[Piece],
    (channels, colours): (u32, u32),
    sets: &[&[u8]],
    pairs: u64,
) -> bool {
    net_of(alloc, pieces, channels, colours).is_some_and(|net| infers(alloc, &net, sets, pairs))
}

/// A source of x, and a queue that begins with y.
const FIRST_Y: [Piece; 3] = [
    Piece::Source(0, &[X], SourceMode::Keep),
    Piece::Queue(0, 1, 2, &[Y]),
    Piece::Sink(1, SinkMode::Keep),
];

#[test]
fn a_side_of_a_switch_may_have_no_colour(rt: HostRuntime) {
    assert!(rt; is_inferred(rt.alloc(), &ONE_WAY_SWITCH, (3, 1), &[&[X], &[], &[X]], 2));
}

#[test]
fn a_queue_gives_what_it_begins_with(rt: HostRuntime) {
    assert!(rt; is_inferred(rt.alloc(), &FIRST_Y, (2, 2), &[&[X], &[X, Y]], 3));
}

/// Whether in the net above y has its place behind x on channel 1, and is nowhere else.
fn has_y_on_one(colours: &Colours) -> bool {
    let elsewhere = colours.has(0, Y) || colours.has(2, X) || colours.has(1, 64);
    !elsewhere && colours.has(1, Y) && colours.place(1, Y) == 1
}

fn is_placed(alloc: Global, net: &Net) -> bool {
    infer(alloc, net).is_ok_and(|colours| has_y_on_one(&colours))
}

#[test]
fn a_colour_has_its_place_among_those_of_its_channel(rt: HostRuntime) {
    let alloc = rt.alloc();
    let net = net_of(alloc, &FIRST_Y, 2, 2);
    assert!(rt; net.is_some_and(|net| is_placed(alloc, &net)));
}

/// The colours go round; on side b of the fork all become y.
#[test]
fn colours_go_round_a_loop(rt: HostRuntime) {
    let pieces = [
        Piece::Source(0, &[X], SourceMode::Keep),
        Piece::Merge(0, 3, 1),
        Piece::Queue(1, 2, 2, &[]),
        Piece::Fork(2, 3, 4, &[X, Y], &[Y, Y]),
        Piece::Sink(4, SinkMode::Keep),
    ];
    let sets = [[X].as_slice(), &[X], &[X], &[X], &[Y]];
    assert!(rt; is_inferred(rt.alloc(), &pieces, (5, 2), &sets, 5));
}

#[test]
fn a_map_may_join_colours(rt: HostRuntime) {
    let pieces = [
        Piece::Source(0, &[X, Y], SourceMode::Keep),
        Piece::Function(0, 1, &[X, X]),
        Piece::Sink(1, SinkMode::Keep),
    ];
    assert!(rt; is_inferred(rt.alloc(), &pieces, (2, 2), &[&[X, Y], &[X]], 3));
}

#[test]
fn a_queue_may_feed_itself(rt: HostRuntime) {
    let without = [Piece::Queue(0, 0, 2, &[])];
    assert!(rt; is_inferred(rt.alloc(), &without, (1, 1), &[&[]], 0));
    let with = [Piece::Queue(0, 0, 2, &[X])];
    assert!(rt; is_inferred(rt.alloc(), &with, (1, 1), &[&[X]], 1));
}

/// Whether the list refuses just this of the net, or nothing.
fn refuses(alloc: Global, net: &Net, entries: &[Entry], wanted: Option<(u32, u8)>) -> bool {
    match (infer(alloc, net), allow_of(alloc, entries)) {
        (Ok(colours), Ok(allow)) => match (allowed(net, &colours, &allow), wanted) {
            (Ok(()), None) => true,
            (Err(ColourFault { channel, colour }), Some(pair)) => (channel, colour) == pair,
            _ => false,
        },
        _ => false,
    }
}

fn are_refused(alloc: Global, net: &Net) -> bool {
    let (x, y, both) = ([X], [Y], [X, Y]);
    let cases = [
        ([may_have(0, &x), may_have(1, &both)], None),
        ([may_have(0, &x), may_have(1, &x)], Some((1, Y))),
        ([may_have(1, &both), may_have(1, &x)], Some((1, Y))),
        ([may_have(1, &x), may_have(1, &y)], Some((1, X))),
        ([may_have(1, &y), may_have(0, &[])], Some((0, X))),
    ];
    cases
        .iter()
        .all(|case| refuses(alloc, net, &case.0, case.1))
}

#[test]
fn the_first_refused_pair_is_named(rt: HostRuntime) {
    let alloc = rt.alloc();
    let net = net_of(alloc, &FIRST_Y, 2, 2);
    assert!(rt; net.is_some_and(|net| are_refused(alloc, &net)));
}

fn refuses_nothing(alloc: Global, net: &Net) -> bool {
    refuses(alloc, net, &[may_have(1, &[]), may_have(2, &[X])], None)
}

#[test]
fn a_channel_without_colours_may_be_allowed_none(rt: HostRuntime) {
    let alloc = rt.alloc();
    let net = net_of(alloc, &ONE_WAY_SWITCH, 3, 1);
    assert!(rt; net.is_some_and(|net| refuses_nothing(alloc, &net)));
}
