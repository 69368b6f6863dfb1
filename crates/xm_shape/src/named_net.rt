//! A document by its names, before they are numbered.

use xm_model::{Side, SinkMode, SourceMode};

/// A member of a map: a colour, and the colour that it becomes.
#[derive(Drop)]
pub struct MapEntry {
    pub colour: String,
    pub image: String,
}

/// A primitive of a kind; its ports are named by their channels, and its lists and maps by colours.
#[derive(Drop)]
pub enum NamedKind {
    Source {
        out: String,
        colours: Vec<String>,
        mode: SourceMode,
    },
    Sink {
        input: String,
        mode: SinkMode,
    },
    Queue {
        input: String,
        out: String,
        capacity: u64,
        packets: Vec<String>,
    },
    Function {
        input: String,
        out: String,
        table: Vec<MapEntry>,
    },
    Fork {
        input: String,
        a: String,
        b: String,
        table_a: Vec<MapEntry>,
        table_b: Vec<MapEntry>,
    },
    Join {
        a: String,
        b: String,
        out: String,
        pass: Side,
    },
    Switch {
        input: String,
        a: String,
        b: String,
        to_a: Vec<String>,
    },
    Merge {
        a: String,
        b: String,
        out: String,
    },
}

/// A primitive by its names.
#[derive(Drop)]
pub struct NamedPrimitive {
    pub name: String,
    pub kind: NamedKind,
}

/// A channel with the only colours that it may have.
#[derive(Drop)]
pub struct AllowEntry {
    pub channel: String,
    pub colours: Vec<String>,
}

/// A document by its names.
#[derive(Drop)]
pub struct NamedNet {
    pub colours: Vec<String>,
    pub primitives: Vec<NamedPrimitive>,
    pub allow: Vec<AllowEntry>,
}
