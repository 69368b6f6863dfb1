//! Worked cancellations, and numbers at the edge of 128 bits.

use std::alloc::Global;
use std::process::Abort;
use std::test::Fail;
use xm_model::OutOfMemory;
use xm_rows::{CancelFault, Entry, Row, cancel, dot, primitive};

pub const EDGE: i128 = i128::MAX;

pub const HALF: i128 = 0x4000_0000_0000_0000_0000_0000_0000_0000;

pub fn at(column: u32, value: i128) -> Entry {
    Entry { column, value }
}

/// The row with these entries, which are asserted to be those of a row.
fn row(
    rt: &impl Abort,
    alloc: Global,
    entries: &[Entry],
    constant: i128,
) -> Result<Row, OutOfMemory> {
    assert!(rt; constant != i128::MIN);
    let mut lowest: u64 = 0;
    for entry in entries {
        assert!(rt; entry.value != 0);
        assert!(rt; entry.value != i128::MIN);
        assert!(rt; lowest <= entry.column as u64);
        lowest = entry.column as u64 + 1;
    }
    Row::new(alloc, entries, constant)
}

/// A row by its entries and its constant.
#[derive(Clone, Copy)]
pub struct RowParts<'a> {
    entries: &'a [Entry],
    constant: i128,
}

pub fn of(entries: &[Entry], constant: i128) -> RowParts<'_> {
    RowParts { entries, constant }
}

pub fn row_of(rt: &impl Abort, alloc: Global, it: RowParts) -> Result<Row, OutOfMemory> {
    row(rt, alloc, it.entries, it.constant)
}

pub fn is_row(t: &Row, wanted: RowParts) -> bool {
    t.entries() == wanted.entries && t.constant() == wanted.constant
}

/// `cancel`, with its entries in the column asserted.
fn cancelled(
    rt: &impl Abort,
    alloc: Global,
    r: &Row,
    s: &Row,
    column: u32,
) -> Result<Row, CancelFault> {
    assert!(rt; r.value_at(column) != 0);
    assert!(rt; s.value_at(column) != 0);
    cancel(alloc, r, s, column)
}

/// Whether cancelling gives this row, or, where none is wanted, leaves 128 bits.
fn comes_to(
    rt: &impl Abort,
    alloc: Global,
    r: &Row,
    s: &Row,
    column: u32,
    wanted: Option<RowParts>,
) -> bool {
    match (cancelled(rt, alloc, r, s, column), wanted) {
        (Ok(t), Some(wanted)) => is_row(&t, wanted),
        (Err(CancelFault::Overflow), None) => true,
        _ => false,
    }
}

fn comes_to_with(
    rt: &impl Abort,
    alloc: Global,
    r: &Row,
    s: RowParts,
    column: u32,
    wanted: Option<RowParts>,
) -> Result<bool, OutOfMemory> {
    let s = row_of(rt, alloc, s)?;
    Ok(comes_to(rt, alloc, r, &s, column, wanted))
}

/// Whether cancelling the column between these rows gives this row, or leaves 128 bits.
fn cancels(
    rt: &impl Abort,
    alloc: Global,
    r: RowParts,
    s: RowParts,
    column: u32,
    wanted: Option<RowParts>,
) -> Result<bool, OutOfMemory> {
    let r = row_of(rt, alloc, r)?;
    comes_to_with(rt, alloc, &r, s, column, wanted)
}

/// `dot`, with the point asserted to have a number for each column.
fn dot_at(rt: &impl Abort, r: &Row, x: &[u64]) -> Option<i128> {
    for entry in r.entries() {
        assert!(rt; (entry.column as usize) < x.len());
    }
    dot(r, x)
}

#[test]
fn a_column_is_cancelled(rt: HostRuntime) -> Result<(), Fail> {
    let holds = cancels(
        &rt,
        rt.alloc(),
        of(&[at(0, 2), at(1, 1)], 0),
        of(&[at(0, 3), at(1, 1)], 0),
        0,
        Some(of(&[at(1, 1)], 0)),
    )?;
    assert!(rt; holds);
    Ok(())
}

#[test]
fn signs_of_both_rows_count(rt: HostRuntime) -> Result<(), Fail> {
    for (a, b, value, constant) in [(2, 3, 1, -2), (-2, 3, 5, 2), (2, -3, 5, 2), (-2, -3, 1, -2)] {
        let r = [at(0, a), at(1, 1)];
        let s = [at(0, b), at(1, 1)];
        let wanted = [at(1, value)];
        let holds = cancels(
            &rt,
            rt.alloc(),
            of(&r, 0),
            of(&s, 1),
            0,
            Some(of(&wanted, constant)),
        )?;
        assert!(rt; holds, "{a} by {b}");
    }
    Ok(())
}

#[test]
fn a_row_may_become_empty(rt: HostRuntime) -> Result<(), Fail> {
    let entries = [at(4, 1), at(9, -1)];
    for (constant, wanted) in [(0, 0), (3, 1), (-3, -1)] {
        let holds = cancels(
            &rt,
            rt.alloc(),
            of(&entries, constant),
            of(&entries, 0),
            4,
            Some(of(&[], wanted)),
        )?;
        assert!(rt; holds);
    }
    Ok(())
}

#[test]
fn long_rows_are_merged_and_divided(rt: HostRuntime) -> Result<(), Fail> {
    let r = [at(0, 2), at(1, 4), at(3, 2), at(5, 2), at(8, 2)];
    let s = [at(1, 2), at(2, 2), at(3, 1), at(9, 4)];
    let wanted = [at(0, 1), at(2, -2), at(5, 1), at(8, 1), at(9, -4)];
    let holds = cancels(
        &rt,
        rt.alloc(),
        of(&r, 6),
        of(&s, 8),
        1,
        Some(of(&wanted, -5)),
    )?;
    assert!(rt; holds);
    Ok(())
}

#[test]
fn what_leaves_128_bits_is_refused(rt: HostRuntime) -> Result<(), Fail> {
    for (r, s) in [
        ((1, HALF), (2, -HALF)),
        ((1, EDGE), (1, -1)),
        ((1, -EDGE), (1, 1)),
        ((EDGE, 1), (2, 1)),
    ] {
        let r = [at(0, r.0), at(1, r.1)];
        let s = [at(0, s.0), at(1, s.1)];
        let leaves = cancels(&rt, rt.alloc(), of(&r, 0), of(&s, 0), 0, None)?;
        assert!(rt; leaves);
    }
    Ok(())
}

#[test]
fn the_edge_itself_fits(rt: HostRuntime) -> Result<(), Fail> {
    let holds = cancels(
        &rt,
        rt.alloc(),
        of(&[at(0, 1), at(1, EDGE)], -EDGE),
        of(&[at(0, 1), at(2, EDGE)], 0),
        0,
        Some(of(&[at(1, 1), at(2, -1)], -1)),
    )?;
    assert!(rt; holds);
    Ok(())
}

fn is_primitive(
    rt: &impl Abort,
    alloc: Global,
    it: RowParts,
    wanted: RowParts,
) -> Result<bool, OutOfMemory> {
    let mut r = row_of(rt, alloc, it)?;
    primitive(&mut r);
    Ok(is_row(&r, wanted))
}

#[test]
fn a_primitive_row_leads_with_a_positive_value(rt: HostRuntime) -> Result<(), Fail> {
    let holds = is_primitive(
        &rt,
        rt.alloc(),
        of(&[at(2, -4), at(3, 6)], 2),
        of(&[at(2, 2), at(3, -3)], -1),
    )?;
    assert!(rt; holds);
    Ok(())
}

fn sums_to(rt: &impl Abort, r: &Row, x: &[u64], wanted: Option<i128>) -> bool {
    dot_at(rt, r, x) == wanted
}

fn are_sums(rt: &impl Abort, r: &Row) -> bool {
    sums_to(rt, r, &[1, 0, 0], Some(EDGE))
        && sums_to(rt, r, &[1, 0, 1], Some(EDGE - 1))
        && sums_to(rt, r, &[1, 1, 0], None)
        && sums_to(rt, r, &[1, 1, 1], None)
        && sums_to(rt, r, &[2, 0, 0], None)
}

fn is_summed(rt: &impl Abort, alloc: Global) -> Result<bool, OutOfMemory> {
    let r = row(rt, alloc, &[at(0, EDGE), at(1, 1), at(2, -1)], 0)?;
    Ok(are_sums(rt, &r))
}

#[test]
fn a_left_side_is_summed_in_order(rt: HostRuntime) -> Result<(), Fail> {
    let holds = is_summed(&rt, rt.alloc())?;
    assert!(rt; holds);
    Ok(())
}
