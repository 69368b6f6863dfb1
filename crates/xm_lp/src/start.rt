//! The first tableau.

ghost use Rattle.std.specs.Prelude.{◌≡◌, ◌+◌, ◌-◌, ◌*◌, ◌^◌, ◌<◌, ◌≤◌, ◌∷◌, ℕ, suc, cond, length, pos, replicate};
ghost use Rattle.std.specs.Prelude.{slice_index, All, IfOk, IfErr};
ghost use Rattle.xm_rows.specs.Row.{Fits128};
ghost use Rattle.xm_lp.specs.Start.{AreBelow, IsStart, artificials, no_row, signed, start_row, start_rows};
ghost use Rattle.xm_lp.specs.Answer.{number_at};
ghost use Rattle.xm_lp.specs.Inner.Minus.{AreMinus, IsTopOf, TopFails};
ghost use Rattle.xm_lp.specs.Inner.Table.{StartFails, tableau_of};

use crate::decision::{Con, LpFault};
use crate::table::Table;
use crate::tally::add_products;
use std::alloc::Global;
use xm_model::{List, OutOfMemory};
use xm_rows::{Entry, Row, sum};

/// The first tableau of the constraints.
pub(crate) fn start(
    alloc: Global,
    constraints: &[Con],
    columns: u32,
    first: u32,
) -> Result<Table, LpFault>
    requires below { AreBelow columns constraints.now }
    requires few { columns + 2 * length constraints.now < 2 ^ 32 - 1 }
    requires first { first ≡ artificials constraints.now columns }
    ensures ok { IfOk result (λ t. IsStart constraints.now columns (tableau_of t)) }
    ensures err { IfErr result (λ fault. StartFails constraints.now columns fault) }
{
    let rows = start_rows(alloc, constraints, columns, first)?;
    let top = top_row(
        alloc,
        &rows.as_slice()[1..],
        first,
        first + constraints.len() as u32,
    )?;
    let mut all = rows;
    all.as_mut_slice()[0] = top;
    let basics = start_basics(alloc, first, constraints.len() as u32)?;
    Ok(Table { rows: all, basics })
}

/// The first artificial column: a slack stands before it for each constraint that is no equation.
pub(crate) fn first_artificial(constraints: &[Con], columns: u32) -> u32
    requires few { columns + 2 * length constraints.now < 2 ^ 32 - 1 }
    ensures { result ≡ artificials constraints.now columns }
{
    let mut slacks = 0;
    for con in constraints {
        if !con.equal {
            slacks += 1;
        }
    }
    columns + slacks
}

/// An empty row for the objective, and the row of each constraint.
fn start_rows(
    alloc: Global,
    constraints: &[Con],
    columns: u32,
    first: u32,
) -> Result<List<Row>, OutOfMemory>
    requires below { AreBelow columns constraints.now }
    requires few { columns + 2 * length constraints.now < 2 ^ 32 - 1 }
    requires first { first ≡ artificials constraints.now columns }
    ensures { IfOk result (λ rows. rows.items ≡ no_row ∷ start_rows columns first constraints.now) }
{
    let mut rows = List::new(alloc);
    rows.push(Row::new(alloc, [].as_slice(), 0)?)?;
    let mut slack = columns;
    let mut own = first;
    for con in constraints {
        rows.push(start_row(alloc, con, slack, own)?)?;
        if !con.equal {
            slack += 1;
        }
        own += 1;
    }
    Ok(rows)
}

/// The row of a constraint: less its slack, with a constant of at least 0, and 1 in its artificial column.
fn start_row(alloc: Global, con: &Con, slack: u32, own: u32) -> Result<Row, OutOfMemory>
    requires below { All (λ e. e.column < slack) con.now.row.entries }
    requires order { cond con.now.equal 0 1 + slack ≤ own }
    ensures { IfOk result (λ r. r ≡ start_row slack own con.now) }
{
    let turn = con.row.constant() < 0;
    let mut entries = List::new(alloc);
    for entry in con.row.entries() {
        entries.push(Entry {
            column: entry.column,
            value: signed(turn, entry.value),
        })?;
    }
    if !con.equal {
        entries.push(Entry {
            column: slack,
            value: signed(turn, -1),
        })?;
    }
    entries.push(Entry {
        column: own,
        value: 1,
    })?;
    Row::new(alloc, entries.as_slice(), signed(turn, con.row.constant()))
}

/// `value`, negated where `turn` is true.
pub(crate) fn signed(turn: bool, value: i128) -> i128
    requires { Fits128 value }
    ensures { result ≡ signed turn value }
{
    if turn { -value } else { value }
}

/// The objective's row: minus the sum of the rows in the columns below the artificials and in the
/// constant, and 1 in its own column.
fn top_row(alloc: Global, rows: &[Row], first: u32, objective: u32) -> Result<Row, LpFault>
    requires { first ≤ objective }
    ensures top { IfOk result (λ top. IsTopOf rows.now first objective top) }
    ensures err { IfErr result (λ fault. TopFails rows.now first fault) }
{
    let mut sums = zeros(alloc, first)?;
    let mut constant = 0;
    for row in rows {
        let Some(total) = sum(constant, row.constant()) else {
            return Err(LpFault::Overflow(0));
        };
        constant = total;
        if !add_products(sums.as_mut_slice(), 1, row) {
            return Err(LpFault::Overflow(0));
        }
    }
    let entries = minus(alloc, sums.as_slice(), objective)?;
    Ok(Row::new(alloc, entries.as_slice(), -constant)?)
}

/// Entries for minus the sums, but for zeros, and 1 in the objective's column.
fn minus(alloc: Global, sums: &[i128], objective: u32) -> Result<List<Entry>, OutOfMemory>
    requires fit { (k : ℕ) → Fits128 (number_at sums.now k) }
    requires order { length sums.now ≤ objective }
    ensures { IfOk result (λ es. AreMinus sums.now objective es.items) }
{
    let mut entries = List::new(alloc);
    let mut column = 0;
    for total in sums {
        if *total != 0 {
            entries.push(Entry {
                column,
                value: -*total,
            })?;
        }
        column += 1;
    }
    entries.push(Entry {
        column: objective,
        value: 1,
    })?;
    Ok(entries)
}

/// `n` zeros.
pub(crate) fn zeros(alloc: Global, n: u32) -> Result<List<i128>, OutOfMemory>
    ensures { IfOk result (λ l. l.items ≡ replicate n (pos 0)) }
{
    let mut list = List::new(alloc);
    list.reserve(n)?;
    for _ in 0..n {
        list.push(0)?;
    }
    Ok(list)
}

/// The artificial columns as basic columns, after the objective's.
fn start_basics(alloc: Global, first: u32, count: u32) -> Result<List<u32>, OutOfMemory>
    requires { first + count < 2 ^ 32 }
    ensures count { IfOk result (λ l. length l.items ≡ suc count) }
    ensures top { IfOk result (λ l. slice_index l.items 0 ≡ first + count) }
    ensures rows { IfOk result (λ l. (i : ℕ) → i < count → slice_index l.items (suc i) ≡ first + i) }
{
    let mut basics = List::new(alloc);
    basics.push(first + count)?;
    for i in 0..count {
        basics.push(first + i)?;
    }
    Ok(basics)
}
