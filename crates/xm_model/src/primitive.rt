//! The eight primitives and their ports, after Chatterjee and Kishinevsky (CAV 2010). Channels and colours are named
//! by number. The modes of sources and sinks, a join's `pass` side and initial packets are this project's own.

use crate::list::List;

/// One of the two sides of a join, a switch or a merge.
#[derive(Clone, Copy, PartialEq, Eq, Debug)]
pub enum Side {
    A,
    B,
}

/// How a source offers. `Keep` offers a colour again until it is taken. `Eager` does too, and offers in
/// every cycle. `Free` offers what is chosen for the cycle, and nothing else. `Fair` behaves as `Keep`,
/// and is taken to offer again and again in what is said of deadlock.
#[derive(Clone, Copy, PartialEq, Eq, Debug)]
pub enum SourceMode {
    Keep,
    Eager,
    Free,
    Fair,
}

/// How a sink is ready. `Keep` stays ready until it is used. `Free` is ready where that is chosen for the
/// cycle, and nowhere else.
#[derive(Clone, Copy, PartialEq, Eq, Debug)]
pub enum SinkMode {
    Keep,
    Free,
}

/// One primitive of a net, with the channels of its ports. `colours` of a source are those that it may
/// offer. `initial` are the packets that a queue begins with, the oldest first. `map`, `map_a` and `map_b`
/// give for each colour, by number, the colour that it becomes. `to_a` tells for each colour whether a
/// switch sends it to side a. `pass` is the side of a join whose colour goes on.
#[derive(Drop)]
pub enum Primitive {
    Source {
        out: u32,
        colours: List<u8>,
        mode: SourceMode,
    },
    Sink {
        input: u32,
        mode: SinkMode,
    },
    Queue {
        input: u32,
        out: u32,
        capacity: u32,
        initial: List<u8>,
    },
    Function {
        input: u32,
        out: u32,
        map: List<u8>,
    },
    Fork {
        input: u32,
        a: u32,
        b: u32,
        map_a: List<u8>,
        map_b: List<u8>,
    },
    Join {
        a: u32,
        b: u32,
        out: u32,
        pass: Side,
    },
    Switch {
        input: u32,
        a: u32,
        b: u32,
        to_a: List<bool>,
    },
    Merge {
        a: u32,
        b: u32,
        out: u32,
    },
}

/// The short name of `Primitive`. (An enum cannot itself be called so in the toolchain of today.)
pub type Prim = Primitive;
