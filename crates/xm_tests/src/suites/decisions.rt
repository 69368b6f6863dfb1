//! Worked decisions on linear constraints.

ghost use Rattle.std.specs.Prelude.{◌<◌, All, IsTrue};

use crate::suites::rows::{HALF, RowParts, at, of, row_of};
use std::alloc::Global;
use std::process::Abort;
use std::test::Fail;
use xm_lp::{Con, Decision, LpFault, decide};
use xm_model::{List, OutOfMemory};

/// A constraint by its row.
#[derive(Clone, Copy)]
struct ConParts<'a> {
    row: RowParts<'a>,
    equal: bool,
}

fn at_least<'a>(row: RowParts<'a>) -> ConParts<'a> {
    ConParts { row, equal: false }
}

fn equals<'a>(row: RowParts<'a>) -> ConParts<'a> {
    ConParts { row, equal: true }
}

fn constraints_of(
    rt: &impl Abort,
    alloc: Global,
    parts: &[ConParts],
) -> Result<List<Con>, OutOfMemory> {
    let mut constraints = List::new(alloc);
    for part in parts {
        let row = row_of(rt, alloc, part.row)?;
        constraints.push(Con {
            row,
            equal: part.equal,
        })?;
    }
    Ok(constraints)
}

fn is_below(con: &Con, columns: u32) -> bool
    ensures { IsTrue result → All (λ e. e.column < columns) con.now.row.entries }
{
    for entry in con.row.entries() {
        if entry.column >= columns {
            return false;
        }
    }
    true
}

/// The decision, with all columns asserted to be below `columns`.
fn decided(
    rt: &impl Abort,
    alloc: Global,
    constraints: &List<Con>,
    columns: u32,
    left: u64,
) -> Result<Decision, LpFault> {
    assert!(rt; columns < 1000);
    assert!(rt; constraints.len() < 1000);
    for con in constraints.as_slice() {
        assert!(rt; is_below(con, columns));
    }
    decide(alloc, constraints, columns, left)
}

/// Whether a point is found: its counts over its denominator, after so many pivots.
fn is_point(
    found: Result<Decision, LpFault>,
    denominator: i128,
    counts: &[i128],
    pivots: u64,
) -> bool {
    match found {
        Ok(
            Decision::Point {
                denominator: d,
                counts: c,
                pivots: p,
            },
        ) => d == denominator && c.as_slice() == counts && p == pivots,
        Ok(_other) => false,
        Err(_fault) => false,
    }
}

/// Whether the constraints are refuted by these multipliers and lows, after so many pivots.
fn is_infeasible(
    found: Result<Decision, LpFault>,
    multipliers: &[i128],
    lows: &[i128],
    pivots: u64,
) -> bool {
    match found {
        Ok(
            Decision::Infeasible {
                multipliers: m,
                lows: l,
                pivots: p,
            },
        ) => m.as_slice() == multipliers && l.as_slice() == lows && p == pivots,
        Ok(_other) => false,
        Err(_fault) => false,
    }
}

fn is_spent(found: Result<Decision, LpFault>, pivots: u64) -> bool {
    match found {
        Ok(Decision::Spent(p)) => p == pivots,
        Ok(_other) => false,
        Err(_fault) => false,
    }
}

fn is_overflow(found: Result<Decision, LpFault>, pivots: u64) -> bool {
    match found {
        Err(LpFault::Overflow(p)) => p == pivots,
        Err(LpFault::OutOfMemory) => false,
        Ok(_decision) => false,
    }
}

/// A column of at least 1 is 1, after one pivot.
fn one_is_one(rt: &impl Abort, alloc: Global) -> Result<bool, OutOfMemory> {
    let constraints = constraints_of(rt, alloc, &[at_least(of(&[at(0, 1)], 1))])?;
    Ok(
        is_point(decided(rt, alloc, &constraints, 1, 10), 1, &[1], 1)
            && is_point(decided(rt, alloc, &constraints, 1, 1), 1, &[1], 1)
            && is_spent(decided(rt, alloc, &constraints, 1, 0), 0),
    )
}

/// It is not at most 0 too.
fn is_refuted(rt: &impl Abort, alloc: Global) -> Result<bool, OutOfMemory> {
    let up = [at(0, 1)];
    let down = [at(0, -1)];
    let parts = [at_least(of(&up, 1)), at_least(of(&down, 0))];
    let constraints = constraints_of(rt, alloc, &parts)?;
    Ok(is_infeasible(decided(rt, alloc, &constraints, 1, 10), &[1, 1], &[0], 0))
}

/// First sums may leave 128 bits.
fn overflows(rt: &impl Abort, alloc: Global) -> Result<bool, OutOfMemory> {
    let large = [at(0, HALF)];
    let constraints = constraints_of(
        rt,
        alloc,
        &[at_least(of(&large, 0)), at_least(of(&large, 0))],
    )?;
    Ok(is_overflow(decided(rt, alloc, &constraints, 1, 10), 0))
}

/// Fractions have their least denominator.
fn is_half(rt: &impl Abort, alloc: Global) -> Result<bool, OutOfMemory> {
    let sum = [at(0, 2), at(1, 4)];
    let difference = [at(0, 2), at(1, -2)];
    let parts = [equals(of(&sum, 3)), equals(of(&difference, 0))];
    let constraints = constraints_of(rt, alloc, &parts)?;
    Ok(is_point(decided(rt, alloc, &constraints, 2, 10), 2, &[1, 1], 2))
}

#[test]
fn a_decision_is_a_point_a_refutation_or_an_overflow(rt: HostRuntime) -> Result<(), Fail> {
    let alloc = rt.alloc();
    let point = one_is_one(&rt, alloc)?;
    let refuted = is_refuted(&rt, alloc)?;
    let large = overflows(&rt, alloc)?;
    let fraction = is_half(&rt, alloc)?;
    assert!(rt; point);
    assert!(rt; refuted);
    assert!(rt; large);
    assert!(rt; fraction);
    Ok(())
}
