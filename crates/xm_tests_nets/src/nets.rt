//! Nets as tables: a line for each primitive. What is built of a table is tested against the limits of a net.

ghost use Rattle.std.specs.Prelude.{◌<◌, ◌≤◌, All, IsTrue, map};
ghost use Rattle.xm_model.specs.Component.{component_of};
ghost use Rattle.xm_model.specs.Net.{IsColourMap, IsWithinLimits, network_of};
ghost use Rattle.xm_tests_nets.specs.Inner.Fitting.{Fits};

use std::alloc::Global;
use xm_design::Design;
use xm_model::{
    Allow, List, MOST_CHANNELS, MOST_COLOURS, MOST_PRIMITIVES, MOST_SOURCE_COLOURS, Net, NewFault,
    OutOfMemory, Prim, Side, SinkMode, SourceMode, Wire, WiringFault,
};

/// The first colour.
pub const X: u8 = 0;

/// The second colour.
pub const Y: u8 = 1;

/// A primitive: its channels in the order in, a, b, out, and then what it has besides.
#[derive(Clone, Copy)]
pub enum Piece<'a> {
    Source(u32, &'a [u8], SourceMode),
    Sink(u32, SinkMode),
    Queue(u32, u32, u32, &'a [u8]),
    Function(u32, u32, &'a [u8]),
    Fork(u32, u32, u32, &'a [u8], &'a [u8]),
    Join(u32, u32, u32, Side),
    Switch(u32, u32, u32, &'a [bool]),
    Merge(u32, u32, u32),
}

/// A source of x, a queue of capacity 1 and a sink in a row: a net of 2 channels and 1 colour.
pub const ROW: [Piece; 3] = [
    Piece::Source(0, &[X], SourceMode::Keep),
    Piece::Queue(0, 1, 1, &[]),
    Piece::Sink(1, SinkMode::Keep),
];

/// Four queues in a row: a net of 5 channels and 1 colour.
pub const QUEUES: [Piece; 6] = [
    Piece::Source(0, &[X], SourceMode::Keep),
    Piece::Queue(0, 1, 1, &[]),
    Piece::Queue(1, 2, 1, &[]),
    Piece::Queue(2, 3, 1, &[]),
    Piece::Queue(3, 4, 1, &[]),
    Piece::Sink(4, SinkMode::Keep),
];

/// A fork whose outputs are joined at once, so that each side waits for the other: a net of 4 channels and
/// 2 colours.
pub const KNOT: [Piece; 4] = [
    Piece::Source(0, &[X, Y], SourceMode::Keep),
    Piece::Fork(0, 1, 2, &[X, Y], &[X, Y]),
    Piece::Join(1, 2, 3, Side::A),
    Piece::Sink(3, SinkMode::Keep),
];

/// A switch that sends its one colour to side b: a net of 3 channels.
pub const ONE_WAY_SWITCH: [Piece; 4] = [
    Piece::Source(0, &[X], SourceMode::Keep),
    Piece::Switch(0, 1, 2, &[false]),
    Piece::Sink(1, SinkMode::Keep),
    Piece::Sink(2, SinkMode::Keep),
];

/// A fork, a queue on each of its sides, and a join: a net of 6 channels and 1 colour.
pub const FORK_JOIN: [Piece; 6] = [
    Piece::Source(0, &[X], SourceMode::Keep),
    Piece::Fork(0, 1, 2, &[X], &[X]),
    Piece::Queue(1, 3, 2, &[]),
    Piece::Queue(2, 4, 2, &[]),
    Piece::Join(3, 4, 5, Side::A),
    Piece::Sink(5, SinkMode::Keep),
];

/// Two credits that go round, and packets that go with one each and give it back on their way to the sink: a net of
/// 6 channels and 1 colour.
pub const CREDITS: [Piece; 6] = [
    Piece::Source(0, &[X], SourceMode::Eager),
    Piece::Join(0, 1, 2, Side::A),
    Piece::Queue(2, 3, 2, &[]),
    Piece::Fork(3, 4, 5, &[X], &[X]),
    Piece::Sink(4, SinkMode::Keep),
    Piece::Queue(5, 1, 2, &[X, X]),
];

/// A channel on which x moves.
pub const MOVES_X: Wire = Wire {
    offer: Some(X),
    ready: true,
};

/// A channel that is ready, where nothing is offered.
pub const WAITS: Wire = Wire {
    offer: None,
    ready: true,
};

fn list_of<T: Copy>(alloc: Global, items: &[T]) -> Result<List<T>, OutOfMemory> {
    let mut list = List::new(alloc);
    for item in items {
        list.push(*item)?;
    }
    Ok(list)
}

fn fork(
    alloc: Global,
    (input, a, b): (u32, u32, u32),
    map_a: &[u8],
    map_b: &[u8],
) -> Result<Prim, OutOfMemory> {
    Ok(Prim::Fork {
        input,
        a,
        b,
        map_a: list_of(alloc, map_a)?,
        map_b: list_of(alloc, map_b)?,
    })
}

fn prim_of(alloc: Global, piece: Piece) -> Result<Prim, OutOfMemory> {
    Ok(match piece {
        Piece::Source(out, colours, mode) => Prim::Source {
            out,
            colours: list_of(alloc, colours)?,
            mode,
        },
        Piece::Sink(input, mode) => Prim::Sink { input, mode },
        Piece::Queue(input, out, capacity, initial) => Prim::Queue {
            input,
            out,
            capacity,
            initial: list_of(alloc, initial)?,
        },
        Piece::Function(input, out, map) => Prim::Function {
            input,
            out,
            map: list_of(alloc, map)?,
        },
        Piece::Fork(input, a, b, map_a, map_b) => fork(alloc, (input, a, b), map_a, map_b)?,
        Piece::Join(a, b, out, pass) => Prim::Join { a, b, out, pass },
        Piece::Switch(input, a, b, to_a) => Prim::Switch {
            input,
            a,
            b,
            to_a: list_of(alloc, to_a)?,
        },
        Piece::Merge(a, b, out) => Prim::Merge { a, b, out },
    })
}

fn prims_of(alloc: Global, pieces: &[Piece]) -> Result<List<Prim>, OutOfMemory> {
    let mut prims = List::new(alloc);
    for piece in pieces {
        prims.push(prim_of(alloc, *piece)?)?;
    }
    Ok(prims)
}

fn are_below(colours: &[u8], count: u32) -> bool
    ensures { IsTrue result → All (λ d. d < count) colours.now }
{
    colours.iter().all(|d| u32::from(*d) < count)
}

fn is_map(map: &[u8], colours: u32) -> bool
    ensures { IsTrue result → IsColourMap colours map.now }
{
    map.len() == colours as usize && are_below(map, colours)
}

/// Whether the primitive's channels and colours are below these numbers, and its sizes small.
fn fits(prim: &Prim, channels: u32, colours: u32) -> bool
    ensures { IsTrue result → Fits channels colours (component_of prim.now) }
{
    match prim {
        Prim::Source {
            out,
            colours: offered,
            ..
        } => {
            *out < channels
                && 0 < offered.len()
                && offered.len() <= MOST_SOURCE_COLOURS as usize
                && are_below(offered.as_slice(), colours)
        }
        Prim::Sink { input, .. } => *input < channels,
        Prim::Queue {
            input,
            out,
            capacity,
            initial,
        } => {
            *input < channels
                && *out < channels
                && 0 < *capacity
                && *capacity <= 200
                && initial.len() <= *capacity as usize
                && are_below(initial.as_slice(), colours)
        }
        Prim::Function { input, out, map } => {
            *input < channels && *out < channels && is_map(map.as_slice(), colours)
        }
        Prim::Fork {
            input,
            a,
            b,
            map_a,
            map_b,
        } => {
            *input < channels
                && *a < channels
                && *b < channels
                && is_map(map_a.as_slice(), colours)
                && is_map(map_b.as_slice(), colours)
        }
        Prim::Join { a, b, out, .. } => *a < channels && *b < channels && *out < channels,
        Prim::Switch { input, a, b, to_a } => {
            *input < channels && *a < channels && *b < channels && to_a.len() == colours as usize
        }
        Prim::Merge { a, b, out } => *a < channels && *b < channels && *out < channels,
    }
}

fn all_fit(prims: &[Prim], channels: u32, colours: u32) -> bool
    ensures { IsTrue result → All (Fits channels colours) (map component_of prims.now) }
{
    for prim in prims {
        if !fits(prim, channels, colours) {
            return false;
        }
    }
    true
}

fn is_within(count: usize, most: u32) -> bool
    ensures { IsTrue result → (0 < count) × (count ≤ most) }
{
    0 < count && count <= most as usize
}

fn are_within_limits(prims: &[Prim], channels: u32, colours: u32) -> bool
    ensures { IsTrue result → IsWithinLimits (network_of prims.now channels colours) }
{
    if !is_within(prims.len(), MOST_PRIMITIVES) {
        return false;
    }
    if !is_within(channels as usize, MOST_CHANNELS) {
        return false;
    }
    if !is_within(colours as usize, MOST_COLOURS) {
        return false;
    }
    all_fit(prims, channels, colours)
}

/// What `Net::new` makes of primitives that keep the limits.
fn made_of(
    alloc: Global,
    prims: List<Prim>,
    channels: u32,
    colours: u32,
) -> Option<Result<Net, NewFault>> {
    if are_within_limits(prims.as_slice(), channels, colours) {
        Some(Net::new(alloc, prims, channels, colours))
    } else {
        None
    }
}

/// What `Net::new` makes of a table.
fn built(
    alloc: Global,
    pieces: &[Piece],
    channels: u32,
    colours: u32,
) -> Option<Result<Net, NewFault>> {
    match prims_of(alloc, pieces) {
        Ok(prims) => made_of(alloc, prims, channels, colours),
        Err(OutOfMemory) => None,
    }
}

/// The net of a table, if it is one.
pub fn net_of(alloc: Global, pieces: &[Piece], channels: u32, colours: u32) -> Option<Net> {
    built(alloc, pieces, channels, colours)?.ok()
}

/// The first fault of a table's wiring.
pub fn wiring_fault(
    alloc: Global,
    pieces: &[Piece],
    channels: u32,
    colours: u32,
) -> Option<WiringFault> {
    match built(alloc, pieces, channels, colours) {
        Some(Err(NewFault::Wiring(fault))) => Some(fault),
        _ => None,
    }
}

/// The design of a table, if it has one.
pub fn design_of(alloc: Global, pieces: &[Piece], channels: u32, colours: u32) -> Option<Design> {
    let net = net_of(alloc, pieces, channels, colours)?;
    Design::new(alloc, net, &List::new(alloc)).ok()
}

/// An entry of a list of allowed colours.
#[derive(Clone, Copy)]
pub struct Entry<'a> {
    pub channel: u32,
    pub colours: &'a [u8],
}

/// The channel may have these colours alone.
pub fn may_have(channel: u32, colours: &[u8]) -> Entry<'_> {
    Entry { channel, colours }
}

fn allow_of_entry(alloc: Global, entry: Entry) -> Result<Allow, OutOfMemory> {
    Ok(Allow {
        channel: entry.channel,
        colours: list_of(alloc, entry.colours)?,
    })
}

/// The list of allowed colours with these entries.
pub fn allow_of(alloc: Global, entries: &[Entry]) -> Result<List<Allow>, OutOfMemory> {
    let mut list = List::new(alloc);
    for entry in entries {
        list.push(allow_of_entry(alloc, *entry)?)?;
    }
    Ok(list)
}
