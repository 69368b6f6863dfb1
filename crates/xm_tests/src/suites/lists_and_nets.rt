//! Lists, texts and nets.

use super::names::texts_of;
use super::nets::{Piece, X, net_of, wiring_fault};
use std::test::Fail;
use xm_model::{List, Net, OutOfMemory, SinkMode, SourceMode, Text, WiringFault, name_of};

/// Whether 5, 6, 7 are 9 after the first is taken, the rest cut to one and that one overwritten.
fn keeps_its_order(list: &mut List<u8>) -> Result<bool, OutOfMemory> {
    list.reserve(3)?;
    list.push(5)?;
    list.push(6)?;
    list.push(7)?;
    let first = list.remove(0);
    list.truncate(1);
    match list.as_mut_slice() {
        [only] => *only = 9,
        _ => return Ok(false),
    }
    Ok(first == 5 && list.as_slice() == [9].as_slice())
}

#[test]
fn a_list_keeps_its_order(rt: HostRuntime) {
    assert!(rt; keeps_its_order(&mut List::new(rt.alloc())).is_ok_and(|keeps| keeps));
}

#[test]
fn a_list_is_filled_with_one_value(rt: HostRuntime) -> Result<(), Fail> {
    let list = List::filled(rt.alloc(), 7u8, 3)?;
    assert!(rt; list.as_slice() == [7, 7, 7].as_slice());
    Ok(())
}

fn is_written(text: &mut Text) -> Result<bool, OutOfMemory> {
    text.push_bytes(b"end ".as_slice())?;
    text.push_number(-12)?;
    Ok(text.as_bytes() == b"end -12".as_slice())
}

#[test]
fn a_text_takes_bytes_and_numbers(rt: HostRuntime) {
    assert!(rt; is_written(&mut Text::new(rt.alloc())).is_ok_and(|written| written));
}

/// Whether these two names, by number, are the first and the last of a list, and the next is empty.
fn are_named(names: &[Text]) -> bool {
    name_of(names, 0) == b"near".as_slice()
        && name_of(names, 1) == b"far".as_slice()
        && name_of(names, 2) == b"".as_slice()
}

#[test]
fn names_go_by_number(rt: HostRuntime) -> Result<(), Fail> {
    let names = texts_of(rt.alloc(), &["near", "far"])?;
    assert!(rt; are_named(names.as_slice()));
    Ok(())
}

const FAIR_ROW: [Piece; 3] = [
    Piece::Source(0, &[X], SourceMode::Fair),
    Piece::Queue(0, 1, 2, &[X]),
    Piece::Sink(1, SinkMode::Keep),
];

/// Whether channel 1 of two goes from primitive 1 to primitive 2.
fn goes_on(net: &Net) -> bool {
    net.channels() == 2 && net.initiator(1) == 1 && net.target(1) == 2
}

#[test]
fn a_row_is_wired(rt: HostRuntime) {
    assert!(rt; net_of(rt.alloc(), &FAIR_ROW, 2, 1).is_some_and(|net| goes_on(&net)));
}

#[test]
fn two_targets_are_named(rt: HostRuntime) {
    let pieces = [
        Piece::Source(0, &[X], SourceMode::Keep),
        Piece::Sink(0, SinkMode::Keep),
        Piece::Sink(0, SinkMode::Free),
    ];
    let fault = wiring_fault(rt.alloc(), &pieces, 1, 1);
    assert!(rt; fault == Some(WiringFault::TwoTargets(0, 1, 2)));
}
