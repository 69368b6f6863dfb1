//! Documents: their shapes, their first faults, their numbers, and their canonical texts.

use self::Answer::{
    BadName, Limit, NotJson, Read, SameName, Shape, UnknownColour, UnknownKind, Wiring,
};
use super::helpers::is_text;
use serde_json::Value;
use std::alloc::Global;
use xm_json::{member_text, place_text};
use xm_model::{Allow, OutOfMemory, Prim, Text, WiringFault};
use xm_netlist::{Document, read_document, read_value};
use xm_shape::{
    DocFault, NamedNet, NamedPrimitive, Ports, Which, channel_set, named_net_of, ports_of,
};
use xm_writer::write_document;

/// One primitive of each kind.
const EIGHT_KINDS: &str = r#"{"version":2,"colours":["x","y"],"net":[
    {"kind":"source","name":"S","out":"c","colours":["x"],"mode":"eager"},
    {"kind":"queue","name":"Q","in":"c","out":"d","capacity":1,"initial":["x"]},
    {"kind":"function","name":"F","in":"d","out":"e","map":{}},
    {"kind":"fork","name":"O","in":"e","a":"f","b":"g","map_a":{"x":"y"}},
    {"kind":"join","name":"J","a":"f","b":"g","out":"h","pass":"a"},
    {"kind":"switch","name":"W","in":"h","a":"i","b":"j","to_a":["x"]},
    {"kind":"merge","name":"M","a":"i","b":"j","out":"k"},
    {"kind":"sink","name":"K","in":"k","mode":"free"}],
    "allow":{"c":["x"]},"tape":{"rows":[1,-2]}}"#;

/// Two colours; a source, a queue with a packet, a function, a switch and two sinks.
const SIX_PRIMITIVES: &str = r#"{"version":2,"colours":["req","ack"],"net":[{
    "kind":"source","name":"S","out":"c","colours":["ack","req"]},{
    "kind":"queue","name":"Q","in":"c","out":"d","capacity":2,"initial":["ack"]},{
    "kind":"function","name":"F","in":"d","out":"e","map":{"req":"ack"}},{
    "kind":"switch","name":"W","in":"e","a":"f","b":"g","to_a":["ack"]},{
    "kind":"sink","name":"K","in":"f"},{
    "kind":"sink","name":"L","in":"g"}],
    "allow":{"e":["ack"],"c":["ack","req"]},"tape":[1]}"#;

/// What reading answers: that it reads, or a fault and where it is.
#[derive(Clone, Copy)]
enum Answer {
    Read,
    NotJson,
    Shape(&'static str),
    UnknownKind(&'static str),
    UnknownColour(&'static str),
    BadName(&'static str),
    SameName(&'static str),
    Limit(Which, u64),
    Wiring(WiringFault),
}

fn is_path(path: &Text, expected: &str) -> bool {
    path.as_bytes() == expected.as_bytes()
}

fn is_fault(fault: &DocFault, expected: Answer) -> bool {
    match (fault, expected) {
        (DocFault::NotJson, NotJson) => true,
        (DocFault::Shape(path), Shape(text)) => is_path(path, text),
        (DocFault::UnknownKind(path), UnknownKind(text)) => is_path(path, text),
        (DocFault::UnknownColour(path), UnknownColour(text)) => is_path(path, text),
        (DocFault::BadName(path), BadName(text)) => is_path(path, text),
        (DocFault::SameName(path), SameName(text)) => is_path(path, text),
        (DocFault::Limit(which, count), Limit(limit, number)) => *which == limit
            && *count == number,
        (DocFault::Wiring(wiring, _), Wiring(found)) => *wiring == found,
        _ => false,
    }
}

fn is_answer<T>(answer: &Result<T, DocFault>, expected: Answer) -> bool {
    match answer {
        Ok(_) => matches!(expected, Read),
        Err(fault) => is_fault(fault, expected),
    }
}

/// Whether the text, which is JSON, has a shape or this fault of one.
fn is_shaped(alloc: Global, text: &str, expected: Answer) -> bool {
    let root = Value::from_str(alloc, text);
    root.is_ok_and(|root| is_answer(&named_net_of(alloc, &root), expected))
}

/// Whether the bytes are read as a document, or have this fault.
fn is_read(alloc: Global, bytes: &[u8], expected: Answer) -> bool {
    is_answer(&read_document(alloc, bytes), expected)
}

/// What is changed into what.
type Change = (&'static str, &'static str);

fn is_shaped_after(alloc: Global, change: Change, expected: Answer) -> bool {
    let text = EIGHT_KINDS.replace(alloc, change.0, change.1);
    text.is_ok_and(|text| is_shaped(alloc, text.as_str(), expected))
}

fn is_read_after(alloc: Global, text: &str, change: Change, expected: Answer) -> bool {
    let text = text.replace(alloc, change.0, change.1);
    text.is_ok_and(|text| is_read(alloc, text.as_bytes(), expected))
}

fn is_read_after_both(alloc: Global, first: Change, second: Change, expected: Answer) -> bool {
    let text = SIX_PRIMITIVES.replace(alloc, first.0, first.1);
    text.is_ok_and(|text| is_read_after(alloc, text.as_str(), second, expected))
}

fn is_named(primitive: Option<&NamedPrimitive>, name: &str) -> bool {
    primitive.is_some_and(|primitive| primitive.name.as_str() == name)
}

fn names_all(net: &NamedNet) -> bool {
    let allowed = match net.allow.as_slice() {
        [only] => only.colours.len() == 1,
        _ => false,
    };
    net.colours.len() == 2
        && net.primitives.len() == 8
        && is_named(net.primitives.get(3), "O")
        && allowed
}

fn is_join(ports: Ports) -> bool {
    ports.first.key == "a" && ports.first.channel == "f" && ports.third.is_some()
}

fn has_join_at(primitives: &[NamedPrimitive], place: usize) -> bool {
    match primitives.get(place) {
        Some(primitive) => is_join(ports_of(&primitive.kind)),
        None => false,
    }
}

fn has_channels(alloc: Global, primitives: &[NamedPrimitive]) -> bool {
    let channels = channel_set(alloc, primitives);
    channels.is_ok_and(|channels| channels.len() == 9 && channels.get_index_of("h") == Some(5))
}

fn is_named_net(alloc: Global, net: &NamedNet) -> bool {
    names_all(net) && has_join_at(&net.primitives, 4) && has_channels(alloc, &net.primitives)
}

fn reads_all(alloc: Global, root: &Value) -> bool {
    named_net_of(alloc, root).is_ok_and(|net| is_named_net(alloc, &net))
}

/// Each kind is read, and the channels stand in the order of their first uses.
fn all_kinds_have_a_shape(alloc: Global) -> bool {
    Value::from_str(alloc, EIGHT_KINDS).is_ok_and(|root| reads_all(alloc, &root))
}

#[test]
fn each_kind_is_named_net(rt: HostRuntime) {
    assert!(rt; all_kinds_have_a_shape(rt.alloc()));
}

/// What is changed into what in the document of all kinds, and where its first fault then is.
const SHAPES: [(&str, &str, &str); 19] = [
    (r#""version":2,"#, "", "version"),
    (r#""version":2"#, r#""version":1.0"#, "version"),
    (r#""version":2"#, r#""version":9"#, "version"),
    (r#""version":2"#, r#""version":1"#, "net.1"),
    (r#"["x","y"]"#, r#"["x",7]"#, "colours.1"),
    (r#""net":["#, r#""net":[5,"#, "net.0"),
    (r#""eager""#, r#""fair""#, "net.0.mode"),
    (r#""out":"d","capacity":1,"#, "", "net.1.out"),
    (r#""capacity":1"#, r#""capacity":-1"#, "net.1.capacity"),
    (r#""capacity":1"#, r#""capacity":1,"x":0"#, "net.1"),
    (
        r#""initial":["x"]"#,
        r#""initial":["x",5]"#,
        "net.1.initial.1",
    ),
    (r#""map":{}"#, r#""map":null"#, "net.2.map"),
    (r#""map":{}"#, r#""map":{"x":5}"#, "net.2.map.x"),
    (r#""pass":"a""#, r#""pass":"c""#, "net.4.pass"),
    (r#""to_a":["x"]"#, r#""to_a":"x""#, "net.5.to_a"),
    (r#""allow":{"c":"#, r#""allow":{"z":"#, "allow"),
    (r#""c":["x"]"#, r#""c":"x""#, "allow.c"),
    (r#""tape":"#, r#""tapes":"#, "-"),
    ("[1,-2]", "[1,-2.5]", "tape"),
];

fn all_have_their_path(alloc: Global) -> bool {
    SHAPES.iter().all(|case| is_shaped_after(alloc, (case.0, case.1), Shape(case.2)))
}

#[test]
fn the_first_fault_of_a_shape_has_its_path(rt: HostRuntime) {
    assert!(rt; all_have_their_path(rt.alloc()));
}

#[test]
fn the_root_has_a_shape_and_allow_comes_before_the_net(rt: HostRuntime) {
    assert!(rt; is_shaped(rt.alloc(), "[]", Shape("-")));
    let text = r#"{"version":1,"colours":[],"net":[5],"allow":5}"#;
    assert!(rt; is_shaped(rt.alloc(), text, Shape("allow")));
}

fn is_fair_from_3(alloc: Global, text: &str) -> bool {
    let text = text.replace(alloc, r#""version":2"#, r#""version":3"#);
    text.is_ok_and(|text| is_shaped(alloc, text.as_str(), Read))
}

fn fair_comes_with_3(alloc: Global) -> bool {
    let text = EIGHT_KINDS.replace(alloc, r#""eager""#, r#""fair""#);
    text.is_ok_and(|text| is_fair_from_3(alloc, text.as_str()))
}

#[test]
fn fair_sources_come_with_version_3(rt: HostRuntime) {
    assert!(rt; fair_comes_with_3(rt.alloc()));
}

#[test]
fn a_kind_that_is_unknown_is_told(rt: HostRuntime) {
    let change = (r#""source""#, r#""pipe""#);
    assert!(rt; is_shaped_after(rt.alloc(), change, UnknownKind("net.0.kind")));
}

#[test]
fn paths_are_joined_by_dots(rt: HostRuntime) {
    assert!(rt; is_text(member_text(rt.alloc(), "net.0", "out"), "net.0.out"));
    assert!(rt; is_text(place_text(rt.alloc(), "net", 12), "net.12"));
}

/// Texts that are no documents, and their first faults.
const NO_DOCUMENTS: [(&str, Answer); 5] = [
    (r#"{"version":1,"net":[{"kind":"sou"#, NotJson),
    (
        r#"{"version":1,"colours":[],"net":[]}"#,
        Limit(Which::Colours, 0),
    ),
    (
        r#"{"version":1,"colours":["x"],"net":[]}"#,
        Limit(Which::Primitives, 0),
    ),
    (
        r#"{"version":1,"colours":["x"],"net":[
            {"kind":"source","name":"S","out":"c","colours":["x"]},
            {"kind":"sink","name":"K","in":"c"},{"kind":"sink","name":"L","in":"c"}]}"#,
        Wiring(WiringFault::TwoTargets(0, 1, 2)),
    ),
    (
        r#"{"version":1,"colours":["x"],"net":[{"kind":"sink","name":"K","in":"c"}]}"#,
        Wiring(WiringFault::NoInitiator(0)),
    ),
];

fn none_are_read(alloc: Global) -> bool {
    is_read(alloc, &[255], NotJson)
        && NO_DOCUMENTS
            .iter()
            .all(|case| is_read(alloc, case.0.as_bytes(), case.1))
}

#[test]
fn bytes_that_are_no_document_have_a_first_fault(rt: HostRuntime) {
    assert!(rt; none_are_read(rt.alloc()));
}

/// A list in a list, and so on, so many deep.
fn nested(alloc: Global, depth: u32) -> Result<Text, OutOfMemory> {
    let mut text = Text::new(alloc);
    for _ in 0..depth {
        text.push_bytes(b"[")?;
    }
    for _ in 0..depth {
        text.push_bytes(b"]")?;
    }
    Ok(text)
}

fn too_deep_is_refused(alloc: Global) -> bool {
    nested(alloc, 128).is_ok_and(|text| is_read(alloc, text.as_bytes(), NotJson))
}

#[test]
fn json_is_at_most_127_deep(rt: HostRuntime) {
    assert!(rt; too_deep_is_refused(rt.alloc()));
}

/// What is changed in the document of six primitives: a name, what a source offers, what a queue begins with, its
/// capacity, and a map of colours.
const NAME: &str = r#""name":"S""#;

const OFFERED: &str = r#"["ack","req"]},{"#;

const INITIAL: &str = r#""initial":["ack"]"#;

const CAPACITY: &str = r#""capacity":2"#;

const MAP: &str = r#"{"req":"ack"}"#;

/// What is changed into what in the document of six primitives, and the answer.
const CHANGES: [(&str, &str, Answer); 22] = [
    (r#""version":2"#, r#""version":3"#, Read),
    (NAME, r#""name":"S.1""#, Read),
    (NAME, r#""name":"abcdefghijklmnopqrstuvwxyz012345""#, Read),
    (
        NAME,
        r#""name":"abcdefghijklmnopqrstuvwxyz0123456""#,
        BadName("net.0.name"),
    ),
    (r#""name":"L""#, r#""name":"K""#, SameName("net.5.name")),
    (r#""out":"d""#, r#""out":"""#, BadName("net.1.out")),
    (
        r#"["req","ack"]"#,
        r#"["req","req"]"#,
        SameName("colours.1"),
    ),
    (r#"["req","ack"]"#, r#"["r.q","ack"]"#, BadName("colours.0")),
    (OFFERED, r#"["ack","ack"]},{"#, SameName("net.0.colours.1")),
    (
        OFFERED,
        r#"["ack","nak"]},{"#,
        UnknownColour("net.0.colours.1"),
    ),
    (OFFERED, r#"[]},{"#, Limit(Which::SourceColours, 0)),
    (
        INITIAL,
        r#""initial":["nak"]"#,
        UnknownColour("net.1.initial.0"),
    ),
    (
        INITIAL,
        r#""initial":["ack","req","ack"]"#,
        Limit(Which::Initial, 3),
    ),
    (CAPACITY, r#""capacity":4096"#, Read),
    (CAPACITY, r#""capacity":4097"#, Limit(Which::Capacity, 4097)),
    (MAP, r#"{"nak":"ack"}"#, UnknownColour("net.2.map")),
    (MAP, r#"{"req":"nak"}"#, UnknownColour("net.2.map.req")),
    (
        r#""to_a":["ack"]"#,
        r#""to_a":["nak"]"#,
        UnknownColour("net.3.to_a.0"),
    ),
    (
        r#""e":["ack"]"#,
        r#""e":["ack","nak"]"#,
        UnknownColour("allow.e.1"),
    ),
    (
        r#""in":"g""#,
        r#""in":"f""#,
        Wiring(WiringFault::TwoTargets(3, 4, 5)),
    ),
    (
        r#""in":"f""#,
        r#""in":"g""#,
        Wiring(WiringFault::NoTarget(3)),
    ),
    (
        r#""out":"d""#,
        r#""out":"c""#,
        Wiring(WiringFault::TwoInitiators(0, 0, 1)),
    ),
];

fn all_changes_are_read(alloc: Global) -> bool {
    is_read(alloc, SIX_PRIMITIVES.as_bytes(), Read)
        && CHANGES.iter().all(|case| is_read_after(alloc, SIX_PRIMITIVES, (case.0, case.1), case.2))
}

#[test]
fn each_change_of_a_document_has_its_first_fault(rt: HostRuntime) {
    assert!(rt; all_changes_are_read(rt.alloc()));
}

const BAD_NAME: Change = (r#""name":"L""#, r#""name":"L!""#);

const UNKNOWN: Change = (INITIAL, r#""initial":["nak"]"#);

const NO_ROOM: Change = (CAPACITY, r#""capacity":0"#);

const NO_TARGET: Change = (r#""in":"f""#, r#""in":"g""#);

const NO_MODE: Change = (r#""in":"g""#, r#""in":"g","mode":5"#);

/// Two changes of the document of six primitives, and its first fault then.
const BOTH_CHANGES: [(Change, Change, Answer); 4] = [
    (BAD_NAME, UNKNOWN, BadName("net.5.name")),
    (UNKNOWN, NO_ROOM, UnknownColour("net.1.initial.0")),
    (NO_ROOM, NO_TARGET, Limit(Which::Capacity, 0)),
    (NO_MODE, BAD_NAME, Shape("net.5.mode")),
];

fn all_first_faults_are_told(alloc: Global) -> bool {
    BOTH_CHANGES
        .iter()
        .all(|case| is_read_after_both(alloc, case.0, case.1, case.2))
}

#[test]
fn of_two_faults_the_first_is_told(rt: HostRuntime) {
    assert!(rt; all_first_faults_are_told(rt.alloc()));
}

fn offers_both(prim: &Prim) -> bool {
    match prim {
        Prim::Source { out, colours, .. } => *out == 0 && colours.as_slice() == [1, 0].as_slice(),
        _ => false,
    }
}

fn makes_ack(prim: &Prim) -> bool {
    match prim {
        Prim::Function { map, .. } => map.as_slice() == [1, 1].as_slice(),
        _ => false,
    }
}

fn sends_ack_to_a(prim: &Prim) -> bool {
    match prim {
        Prim::Switch { a, b, to_a, .. } => *a == 3
            && *b == 4
            && to_a.as_slice() == [false, true].as_slice(),
        _ => false,
    }
}

fn has_numbers(prims: &[Prim]) -> bool {
    match prims {
        [source, _, function, switch, _, _] => offers_both(source)
            && makes_ack(function)
            && sends_ack_to_a(switch),
        _ => false,
    }
}

fn has_allowed(allow: &[Allow]) -> bool {
    match allow {
        [c, e] => c.channel == 0
            && c.colours.as_slice() == [0, 1].as_slice()
            && e.channel == 2
            && e.colours.as_slice() == [1].as_slice(),
        _ => false,
    }
}

fn is_numbered(document: &Document) -> bool {
    has_numbers(document.net.prims().as_slice())
        && has_allowed(document.allow.as_slice())
        && document.names.channels.len() == 5
        && document.tape.is_some()
        && document.proof.is_none()
}

fn six_are_numbered(alloc: Global) -> bool {
    match Value::from_slice(alloc, SIX_PRIMITIVES.as_bytes()) {
        Ok(root) => match read_value(alloc, &root) {
            Ok(document) => is_numbered(&document),
            Err(_) => false,
        },
        Err(_) => false,
    }
}

#[test]
fn a_document_has_its_numbers(rt: HostRuntime) {
    assert!(rt; six_are_numbered(rt.alloc()));
}

const STREAM: &str = concat!(
    r#"{"colours":["req"],"net":[{"colours":["req"],"kind":"source","name":"S","out":"c0"},"#,
    r#"{"capacity":1,"in":"c0","kind":"queue","name":"Q","out":"c1"},"#,
    r#"{"in":"c1","kind":"sink","name":"K"}],"version":1}"#,
    "\n"
);

const SPACED_STREAM: &str = r#" { "version" : 3, "net": [
    {"kind":"source", "name":"S", "mode":"keep", "out":"c0", "colours":["req"]},
    {"kind":"queue", "name":"Q", "in":"c0", "out":"c1", "initial":[], "capacity":1},
    {"kind":"sink", "name":"K", "in":"c1"} ],
    "allow":{}, "colours": ["req"] } "#;

const KINDS: &str = concat!(
    r#"{"allow":{"c0":["rsp"],"c9":["req","rsp"]},"colours":["req","rsp"],"net":["#,
    r#"{"colours":["rsp","req"],"kind":"source","mode":"fair","name":"S","out":"c0"},"#,
    r#"{"colours":["req"],"kind":"source","mode":"eager","name":"T","out":"c1"},"#,
    r#"{"in":"c0","kind":"function","map":{"req":"rsp"},"name":"F","out":"c2"},"#,
    r#"{"a":"c3","b":"c4","in":"c2","kind":"fork","map_a":{"rsp":"req"},"name":"K"},"#,
    r#"{"a":"c3","b":"c1","kind":"join","name":"J","out":"c5","pass":"b"},"#,
    r#"{"a":"c6","b":"c7","in":"c5","kind":"switch","name":"W","to_a":["req"]},"#,
    r#"{"a":"c6","b":"c7","kind":"merge","name":"M","out":"c8"},"#,
    r#"{"capacity":3,"in":"c8","initial":["req"],"kind":"queue","name":"Q","out":"c9"},"#,
    r#"{"in":"c9","kind":"sink","name":"D"},"#,
    r#"{"in":"c4","kind":"sink","mode":"free","name":"E"}],"#,
    r#""proof":[1,-2,{"a":null}],"tape":{"rows":["01",".."]},"version":3}"#,
    "\n"
);

const SPACED_KINDS: &str = r#"{ "version":3, "tape":{ "rows":[ "01", ".." ] },
    "proof":[ 1, -2, { "a":null } ], "allow":{ "c9":[ "rsp", "req" ], "c0":[ "rsp" ] },
    "colours":[ "req", "rsp" ], "net":[
    { "name":"S", "kind":"source", "out":"c0", "colours":[ "rsp", "req" ], "mode":"fair" },
    { "name":"T", "kind":"source", "out":"c1", "colours":[ "req" ], "mode":"eager" },
    { "name":"F", "kind":"function", "in":"c0", "out":"c2", "map":{ "rsp":"rsp", "req":"rsp" } },
    { "name":"K", "kind":"fork", "in":"c2", "a":"c3", "b":"c4", "map_b":{}, "map_a":{ "rsp":"req" } },
    { "name":"J", "kind":"join", "a":"c3", "b":"c1", "out":"c5", "pass":"b" },
    { "name":"W", "kind":"switch", "in":"c5", "a":"c6", "b":"c7", "to_a":[ "req" ] },
    { "name":"M", "kind":"merge", "a":"c6", "b":"c7", "out":"c8" },
    { "name":"Q", "kind":"queue", "in":"c8", "out":"c9", "capacity":3, "initial":[ "req" ] },
    { "name":"D", "kind":"sink", "in":"c9", "mode":"keep" },
    { "name":"E", "kind":"sink", "in":"c4", "mode":"free" } ] }"#;

/// Whether the text is a document whose canonical text is this.
fn is_written(alloc: Global, text: &str, canonical: &str) -> bool {
    match read_document(alloc, text.as_bytes()) {
        Ok(document) => is_text(write_document(alloc, &document), canonical),
        Err(_) => false,
    }
}

#[test]
fn documents_are_written_compact_and_in_byte_order(rt: HostRuntime) {
    assert!(rt; is_written(rt.alloc(), SPACED_STREAM, STREAM));
    assert!(rt; is_written(rt.alloc(), SPACED_KINDS, KINDS));
    assert!(rt; is_written(rt.alloc(), STREAM, STREAM));
    assert!(rt; is_written(rt.alloc(), KINDS, KINDS));
}
