//! Flow rows of small nets, and invariants in a state.

ghost use Rattle.std.specs.Prelude.{◌<◌, All, IsTrue};
ghost use Rattle.xm_flow.specs.Holding.{IsFlowOf};

use super::nets::{CREDITS, FORK_JOIN, Piece, X, Y, design_of};
use std::alloc::Global;
use xm_design::Design;
use xm_elim::invariants;
use xm_flow::{FlowRows, Invariant, flow, queue_pairs, value};
use xm_model::{Side, SinkMode, SourceMode, State};
use xm_rows::{Entry, Row};
use xm_step::reset;

/// A flow row: its columns with their numbers, and the constant.
#[derive(Clone, Copy)]
struct Wanted<'a> {
    entries: &'a [(u32, i128)],
    constant: i128,
}

fn sum<'a>(entries: &'a [(u32, i128)], constant: i128) -> Wanted<'a> {
    Wanted { entries, constant }
}

/// A queue that feeds itself, with one packet.
pub const SELF_FED: [Piece; 1] = [Piece::Queue(0, 0, 2, &[X])];

/// A switch of two colours whose sides end at sinks.
const SWITCH: [Piece; 4] = [
    Piece::Source(0, &[X, Y], SourceMode::Keep),
    Piece::Switch(0, 1, 2, &[true, false]),
    Piece::Sink(1, SinkMode::Keep),
    Piece::Sink(2, SinkMode::Keep),
];

/// A merge of two colours.
const MERGE: [Piece; 4] = [
    Piece::Source(0, &[X], SourceMode::Keep),
    Piece::Source(1, &[Y], SourceMode::Keep),
    Piece::Merge(0, 1, 2),
    Piece::Sink(2, SinkMode::Keep),
];

/// A function that makes two colours y.
const FUNCTION: [Piece; 3] = [
    Piece::Source(0, &[X, Y], SourceMode::Keep),
    Piece::Function(0, 1, &[Y, Y]),
    Piece::Sink(1, SinkMode::Keep),
];

fn is_entry(entry: &Entry, wanted: &(u32, i128)) -> bool {
    entry.column == wanted.0 && entry.value == wanted.1
}

fn is_row(row: &Row, wanted: &Wanted) -> bool {
    row.constant() == wanted.constant
        && row.entries().len() == wanted.entries.len()
        && row
            .entries()
            .iter()
            .zip(wanted.entries.iter())
            .all(|pair| is_entry(pair.0, pair.1))
}

fn are_rows(rows: &[Row], wanted: &[Wanted]) -> bool {
    rows.len() == wanted.len()
        && rows
            .iter()
            .zip(wanted.iter())
            .all(|pair| is_row(pair.0, pair.1))
}

fn has_rows(alloc: Global, design: &Design, wanted: &[Wanted]) -> bool {
    match flow(alloc, design) {
        Ok(rows) => are_rows(rows.rows().as_slice(), wanted),
        Err(_) => false,
    }
}

/// Whether the net of the table has these flow rows. Its columns are the pairs of a channel and a colour, and
/// then those of a queue and a colour.
fn flows(alloc: Global, pieces: &[Piece], channels: u32, colours: u32, wanted: &[Wanted]) -> bool {
    let design = design_of(alloc, pieces, channels, colours);
    design.is_some_and(|design| has_rows(alloc, &design, wanted))
}

#[test]
fn a_fork_and_a_join_have_their_rows(rt: HostRuntime) {
    let wanted = [
        sum(&[(0, -1), (1, 1)], 0),
        sum(&[(0, -1), (2, 1)], 0),
        sum(&[(1, 1), (3, -1), (6, -1)], 0),
        sum(&[(2, 1), (4, -1), (7, -1)], 0),
        sum(&[(3, -1), (5, 1)], 0),
        sum(&[(3, 1), (4, -1)], 0),
    ];
    assert!(rt; flows(rt.alloc(), &FORK_JOIN, 6, 1, &wanted));
}

#[test]
fn the_moves_of_a_queue_that_feeds_itself_cancel(rt: HostRuntime) {
    assert!(rt; flows(rt.alloc(), &SELF_FED, 1, 1, &[sum(&[(1, -1)], -1)]));
}

#[test]
fn a_switch_has_a_row_for_each_colour(rt: HostRuntime) {
    let wanted = [sum(&[(0, -1), (2, 1)], 0), sum(&[(1, -1), (3, 1)], 0)];
    assert!(rt; flows(rt.alloc(), &SWITCH, 3, 2, &wanted));
}

#[test]
fn a_merge_has_a_row_for_each_colour(rt: HostRuntime) {
    let wanted = [sum(&[(0, -1), (2, 1)], 0), sum(&[(1, -1), (3, 1)], 0)];
    assert!(rt; flows(rt.alloc(), &MERGE, 3, 2, &wanted));
}

#[test]
fn a_function_adds_what_becomes_one_colour(rt: HostRuntime) {
    let wanted = [sum(&[(0, -1), (1, -1), (2, 1)], 0)];
    assert!(rt; flows(rt.alloc(), &FUNCTION, 2, 2, &wanted));
}

fn has_pairs(pairs: &[(u32, u8)]) -> bool {
    match pairs {
        [a, b] => a.0 == 2 && a.1 == X && b.0 == 5 && b.1 == X,
        _ => false,
    }
}

fn lists_pairs(alloc: Global, design: &Design) -> bool {
    queue_pairs(alloc, design).is_ok_and(|pairs| has_pairs(pairs.as_slice()))
}

#[test]
fn queue_pairs_are_listed_by_queue(rt: HostRuntime) {
    let alloc = rt.alloc();
    let design = design_of(alloc, &CREDITS, 6, 1);
    assert!(rt; design.is_some_and(|design| lists_pairs(alloc, &design)));
}

fn are_below(entries: &[Entry], count: u32) -> bool
    ensures { IsTrue result → All (λ e. e.column < count) entries.now }
{
    entries.iter().all(|entry| entry.column < count)
}

/// The left side of the first invariant in the state.
fn first_value(
    design: &Design,
    rows: &FlowRows,
    lemmas: &[Invariant],
    state: &State,
) -> Option<i128>
    requires { IsFlowOf design.now rows.now }
{
    match lemmas {
        [first, ..] if are_below(first.row.entries(), rows.counts()) => {
            value(design, first, state)
        }
        _ => None,
    }
}

fn value_at_reset(alloc: Global, design: &Design, rows: &FlowRows) -> Option<i128>
    requires { IsFlowOf design.now rows.now }
{
    match (invariants(alloc, design, rows), reset(alloc, design)) {
        (Ok(lemmas), Ok(state)) => first_value(design, rows, lemmas.as_slice(), &state),
        _ => None,
    }
}

fn has_value_at_reset(alloc: Global, design: &Design, wanted: i128) -> bool {
    match flow(alloc, design) {
        Ok(rows) => value_at_reset(alloc, design, &rows) == Some(wanted),
        Err(_) => false,
    }
}

#[test]
fn credits_are_two_at_reset(rt: HostRuntime) {
    let alloc = rt.alloc();
    let design = design_of(alloc, &CREDITS, 6, 1);
    assert!(rt; design.is_some_and(|design| has_value_at_reset(alloc, &design, 2)));
}
