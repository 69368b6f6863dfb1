//! Worked bases of invariants, and eliminations of rows that leave 128 bits.

ghost use Rattle.std.specs.Prelude.{IsTrue};
ghost use Rattle.xm_elim.specs.Basis.{AreOver, IsConsistent};
ghost use Rattle.xm_flow.specs.Holding.{IsFlowOf};
ghost use Rattle.xm_tests.specs.Inner.Over.{IsOver};

use super::flow_rows::SELF_FED;
use super::nets::{CREDITS, FORK_JOIN, Piece, ROW, design_of};
use super::rows::{EDGE, HALF, RowParts, at, is_row, of, row_of};
use std::alloc::Global;
use std::process::Abort;
use std::test::Fail;
use xm_design::Design;
use xm_elim::{ElimFault, invariants, lemmas_of};
use xm_flow::{FlowRows, Invariant, flow};
use xm_model::{List, OutOfMemory};
use xm_rows::Row;

fn are(lemmas: &[Invariant], wanted: Option<RowParts>) -> bool {
    match (lemmas, wanted) {
        ([], None) => true,
        ([one], Some(wanted)) => is_row(&one.row, wanted),
        _ => false,
    }
}

fn leave(alloc: Global, design: &Design, rows: &FlowRows, wanted: Option<RowParts>) -> bool
    requires { IsFlowOf design.now rows.now }
{
    match invariants(alloc, design, rows) {
        Ok(lemmas) => are(lemmas.as_slice(), wanted),
        Err(_fault) => false,
    }
}

fn has(alloc: Global, design: &Design, wanted: Option<RowParts>) -> bool {
    match flow(alloc, design) {
        Ok(rows) => leave(alloc, design, &rows, wanted),
        Err(_fault) => false,
    }
}

/// Whether this invariant is the only one of the table's net, or, where none is wanted, it has none.
fn has_only(alloc: Global, pieces: &[Piece], channels: u32, wanted: Option<RowParts>) -> bool {
    match design_of(alloc, pieces, channels, 1) {
        Some(design) => has(alloc, &design, wanted),
        None => false,
    }
}

#[test]
fn a_single_queue_has_no_invariant(rt: HostRuntime) {
    assert!(rt; has_only(rt.alloc(), &ROW, 2, None));
}

#[test]
fn two_queues_between_a_fork_and_a_join_hold_the_same(rt: HostRuntime) {
    let wanted = [at(0, 1), at(1, -1)];
    assert!(rt; has_only(rt.alloc(), &FORK_JOIN, 6, Some(of(&wanted, 0))));
}

#[test]
fn packets_round_a_join_and_a_fork_stay_two(rt: HostRuntime) {
    let wanted = [at(0, 1), at(1, 1)];
    assert!(rt; has_only(rt.alloc(), &CREDITS, 6, Some(of(&wanted, 2))));
}

#[test]
fn a_queue_that_feeds_itself_keeps_its_packet(rt: HostRuntime) {
    assert!(rt; has_only(rt.alloc(), &SELF_FED, 1, Some(of(&[at(0, 1)], 1))));
}

/// Whether the row's columns are below the number, and its constant is 0.
fn is_over(row: &Row, base: u32) -> bool
    ensures { IsTrue result → IsOver base row.now }
{
    let entries = row.entries();
    row.constant() == 0 && entries.iter().all(|entry| entry.column < base)
}

fn are_over(rows: &[Row], base: u32) -> bool
    ensures over { IsTrue result → AreOver base rows.now }
    ensures consistent { IsTrue result → IsConsistent rows.now }
{
    for row in rows {
        if !is_over(row, base) {
            return false;
        }
    }
    true
}

/// The column of the overflow that eliminating these rows meets, whether its rows are the same, and whether there is
/// one.
fn overflow_of(
    rt: &impl Abort,
    alloc: Global,
    rows: &[Row],
    moves: u32,
    counts: u32,
) -> Option<(u32, bool)> {
    assert!(rt; rows.len() < 1024 && moves < 1024 && counts < 1024);
    assert!(rt; are_over(rows, moves + counts));
    match lemmas_of(alloc, rows, moves, counts) {
        Err(ElimFault::Overflow { r, s, column }) => {
            let same = r.entries() == s.entries();
            Some((column, same))
        }
        Ok(_lemmas) => None,
        Err(ElimFault::OutOfMemory) => None,
    }
}

fn rows_of(rt: &impl Abort, alloc: Global, parts: &[RowParts]) -> Result<List<Row>, OutOfMemory> {
    let mut rows = List::new(alloc);
    for part in parts {
        rows.push(row_of(rt, alloc, *part)?)?;
    }
    Ok(rows)
}

/// Whether eliminating rows over so many columns of moves and so many of packets meets this overflow, or none.
fn overflows(
    rt: &impl Abort,
    alloc: Global,
    parts: &[RowParts],
    moves: u32,
    counts: u32,
    wanted: Option<(u32, bool)>,
) -> Result<bool, OutOfMemory> {
    let rows = rows_of(rt, alloc, parts)?;
    Ok(overflow_of(rt, alloc, rows.as_slice(), moves, counts) == wanted)
}

/// Whether the overflow of the second column is told.
fn tells_the_second_column(
    rt: &impl Abort,
    alloc: Global,
    moves: u32,
    counts: u32,
) -> Result<bool, OutOfMemory> {
    let (first, second, third) = ([at(0, 1)], [at(1, HALF), at(2, 1)], [at(1, 3), at(2, HALF)]);
    let rows = [of(&first, 0), of(&second, 0), of(&third, 0)];
    overflows(rt, alloc, &rows, moves, counts, Some((1, false)))
}

#[test]
fn the_column_of_an_overflow_is_told(rt: HostRuntime) -> Result<(), Fail> {
    let moves = tells_the_second_column(&rt, rt.alloc(), 2, 1)?;
    assert!(rt; moves);
    let packets = tells_the_second_column(&rt, rt.alloc(), 0, 3)?;
    assert!(rt; packets);
    Ok(())
}

/// Of a + x, a + y and a - y, where a stands for the edge times a move, 2x is 2a less the others: the elimination
/// fits, and the test of its first lemma does not.
fn tells_a_test(
    rt: &impl Abort,
    alloc: Global,
    edge: i128,
    wanted: Option<(u32, bool)>,
) -> Result<bool, OutOfMemory> {
    let (x, y, less) = (
        [at(0, edge), at(1, 1)],
        [at(0, edge), at(2, 1)],
        [at(0, edge), at(2, -1)],
    );
    overflows(
        rt,
        alloc,
        &[of(&x, 0), of(&y, 0), of(&less, 0)],
        1,
        2,
        wanted,
    )
}

#[test]
fn a_test_that_overflows_is_told_as_a_row_with_itself(rt: HostRuntime) -> Result<(), Fail> {
    let leaves = tells_a_test(&rt, rt.alloc(), EDGE, Some((1, true)))?;
    assert!(rt; leaves);
    let fits = tells_a_test(&rt, rt.alloc(), HALF - 1, None)?;
    assert!(rt; fits);
    Ok(())
}
