//! Terms added to a row, one after another.

ghost use Rattle.std.specs.Prelude.{◌≡◌, ◌<◌, ◌≤◌, ◌^◌, All, IfOk, OnOk, ℤ, pos};
ghost use Rattle.std.specs.Prelude.{◌+ℤ◌, ◌≢◌, unsigned_abs, length, take, drop, slice_set, remove};
ghost use Rattle.xm_flow.specs.Inner.Building.{IsRowOf, Put};
ghost use Rattle.xm_rows.specs.Row.{Fits128, IsRising};

use std::alloc::Global;
use xm_model::OutOfMemory;
use xm_rows::{Entry, Row};

/// How many entries lie in lower columns.
fn place_of(entries: &[Entry], column: u32) -> usize
    requires { IsRising entries.now }
    ensures within { result ≤ length entries.now }
    ensures low { All (λ e. e.column < column) (take result entries.now) }
    ensures high { All (λ e. column ≤ e.column) (drop result entries.now) }
{
    for i in 0..entries.len() {
        if entries[i].column >= column {
            return i;
        }
    }
    entries.len()
}

/// The sum of two small numbers.
fn sum(a: i128, b: i128) -> i128
    requires first { unsigned_abs a < 2 ^ 64 }
    requires second { unsigned_abs b < 2 ^ 64 }
    ensures { result ≡ a +ℤ b }
{
    a + b
}

/// Inserts a value at its place.
fn insert_at(
    entries: &mut Vec<Entry>,
    p: usize,
    column: u32,
    value: i128,
) -> Result<(), OutOfMemory>
    requires within { p ≤ length entries.old.items }
    requires low { All (λ e. e.column < column) (take p entries.old.items) }
    requires high { All (λ e. column < e.column) (drop p entries.old.items) }
    ensures { OnOk result (Put column value entries.old.items entries.new.items) }
{
    entries.insert(p, Entry { column, value })?;
    Ok(())
}

/// The entry with its value, which is not 0, in place of the one at `p`, or none in its place.
fn replace_at(entries: &mut Vec<Entry>, p: usize, column: u32, sum: i128)
    requires { p < length entries.old.items }
    ensures some { sum ≢ pos 0
        → entries.new.items ≡ slice_set entries.old.items p (record { column = column; value = sum }) }
    ensures none { sum ≡ pos 0 → entries.new.items ≡ remove entries.old.items p }
{
    if sum == 0 {
        entries.remove(p);
        return;
    }
    entries[p] = Entry { column, value: sum };
}

/// Adds a value in a column; values of one column are added, and a sum of 0 is left out.
fn add(entries: &mut Vec<Entry>, column: u32, value: i128) -> Result<(), OutOfMemory>
    requires rising { IsRising entries.old.items }
    requires small { All (λ e. unsigned_abs e.value < 2 ^ 64) entries.old.items }
    requires value { unsigned_abs value < 2 ^ 64 }
    ensures { OnOk result (Put column value entries.old.items entries.new.items) }
{
    let held = entries.as_slice();
    let p = place_of(held, column);
    if p == held.len() {
        return insert_at(entries, p, column, value);
    }
    let there = held[p];
    if there.column > column {
        return insert_at(entries, p, column, value);
    }
    let sum = sum(there.value, value);
    replace_at(entries, p, column, sum);
    Ok(())
}

/// The row of these terms, where those of one column are added.
pub fn row_of(alloc: Global, terms: &[Entry], constant: i128) -> Result<Row, OutOfMemory>
    requires units { All (λ e. unsigned_abs e.value ≡ 1) terms.now }
    requires fits { Fits128 constant }
    ensures { IfOk result (IsRowOf terms.now constant) }
{
    let mut entries = Vec::new(alloc);
    for i in 0..terms.len() {
        let term = terms[i];
        add(&mut entries, term.column, term.value)?;
    }
    let held = entries.as_slice();
    let row = Row::new(alloc, held, constant)?;
    Ok(row)
}
