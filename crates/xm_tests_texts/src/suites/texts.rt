//! The text of a check, and the lines of error.

use super::helpers::is_text;
use std::alloc::Global;
use xm_design::Design;
use xm_model::{Names, Text, WiringFault};
use xm_netlist::{Document, read_document};
use xm_order::Signal;
use xm_report::{check_text, colour_line, document_line, loop_line, tape_line, wiring_line};
use xm_shape::{DocFault, Which};
use xm_tape::TapeFault;

/// A source of x, a queue that begins with y, an empty queue and a sink.
const TWO_QUEUES: &str = r#"{"version":2,"colours":["x","y"],"net":[
    {"kind":"source","name":"in","out":"first","colours":["x"]},
    {"kind":"queue","name":"near","in":"first","out":"middle","capacity":2,"initial":["y"]},
    {"kind":"queue","name":"far","in":"middle","out":"last","capacity":2},
    {"kind":"sink","name":"out","in":"last"}]}"#;

fn names(alloc: Global) -> Option<Names> {
    let document = read_document(alloc, TWO_QUEUES.as_bytes()).ok()?;
    Some(document.names)
}

fn is_checked(alloc: Global, names: &Names, design: &Design) -> bool {
    let text = check_text(alloc, names, design);
    let wanted =
        "primitives 4\nchannels 3\noracles 2\npairs 5\nfirst x\nmiddle x y\nlast x y\nend\n";
    is_text(text, wanted)
}

fn is_checked_document(alloc: Global, document: Document) -> bool {
    let names = document.names;
    let design = Design::new(alloc, document.net, &document.allow);
    design.is_ok_and(|design| is_checked(alloc, &names, &design))
}

#[test]
fn a_check_has_its_text(rt: HostRuntime) {
    let alloc = rt.alloc();
    let document = read_document(alloc, TWO_QUEUES.as_bytes());
    assert!(rt; document.is_ok_and(|document| is_checked_document(alloc, document)));
}

fn is_document_line(alloc: Global, fault: &DocFault, expected: &str) -> bool {
    is_text(document_line(alloc, fault), expected)
}

fn is_path_line(alloc: Global, path: &str, expected: &str) -> bool {
    let path = Text::from_bytes(alloc, path.as_bytes());
    path.is_ok_and(|path| is_document_line(alloc, &DocFault::UnknownKind(path), expected))
}

fn is_wiring_line(alloc: Global, fault: WiringFault, expected: &str) -> bool {
    names(alloc).is_some_and(|names| is_document_line(
        alloc,
        &DocFault::Wiring(fault, names),
        expected,
    ))
}

fn are_document_lines(alloc: Global) -> bool {
    let limit = DocFault::Limit(Which::CapacitySum, 1000001);
    is_document_line(alloc, &DocFault::NotJson, "document: not JSON\n")
        && is_document_line(alloc, &limit, "document: limit capacity-sum 1000001\n")
}

#[test]
fn a_document_fault_has_its_line(rt: HostRuntime) {
    let kind = "document: unknown kind primitives.0.kind\n";
    assert!(rt; is_path_line(rt.alloc(), "primitives.0.kind", kind));
    let wiring = WiringFault::TwoInitiators(1, 0, 2);
    assert!(rt; is_wiring_line(rt.alloc(), wiring, "net: two initiators middle in far\n"));
    assert!(rt; are_document_lines(rt.alloc()));
}

fn is_loop_line(alloc: Global, names: &Names, found: &[Signal], expected: &str) -> bool {
    is_text(loop_line(alloc, names, found), expected)
}

fn are_net_lines(alloc: Global, names: &Names) -> bool {
    let fault = WiringFault::NoTarget(2);
    let knot = [Signal::Offer(1), Signal::Ready(2)];
    is_text(wiring_line(alloc, names, fault), "net: no target last\n")
        && is_text(colour_line(alloc, names, 1, 0), "net: colour middle x\n")
        && is_loop_line(alloc, names, &knot, "net: loop offer middle, ready last\n")
        && is_loop_line(alloc, names, &[Signal::Offer(0)], "net: loop offer first\n")
}

#[test]
fn a_net_fault_has_its_line(rt: HostRuntime) {
    let alloc = rt.alloc();
    assert!(rt; names(alloc).is_some_and(|names| are_net_lines(alloc, &names)));
}

fn is_tape_line(alloc: Global, fault: &TapeFault, expected: &str) -> bool {
    is_text(tape_line(alloc, fault), expected)
}

fn is_tape_path_line(alloc: Global, path: &str, expected: &str) -> bool {
    let path = Text::from_bytes(alloc, path.as_bytes());
    path.is_ok_and(|path| is_tape_line(alloc, &TapeFault::TapeShape(path), expected))
}

fn are_tape_lines(alloc: Global) -> bool {
    is_tape_line(
        alloc,
        &TapeFault::TapeLimit(1000000),
        "tape: limit 1000000\n",
    ) && is_tape_line(
        alloc,
        &TapeFault::RowLength(10, 17),
        "tape: row 10 length 17\n",
    ) && is_tape_line(alloc, &TapeFault::BadMark(2, 0), "tape: mark 2 0\n")
}

#[test]
fn a_tape_fault_has_its_line(rt: HostRuntime) {
    assert!(rt; is_tape_path_line(rt.alloc(), "tape.rows", "tape: shape tape.rows\n"));
    assert!(rt; are_tape_lines(rt.alloc()));
}
