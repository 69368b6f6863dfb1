//! A pivot parted from its factors: a lemma.

ghost use Rattle.std.specs.Prelude.{◌≡◌, ◌≢◌, ◌<◌, ◌≤◌, ◌+◌, ◌-◌, ◌^◌, ◌*ℤ◌, ℕ, Bool, [], All, IfOk, ℤ, pos, cond, neg_ℤ, unsigned_abs, int_div, length};
ghost use Rattle.std.specs.Int.{is_negative};
ghost use Rattle.xm_elim.specs.Elimination.{IsParted, parts_of};
ghost use Rattle.xm_elim.specs.Inner.Places.{IsReducedPivot, Leads, lowered};
ghost use Rattle.xm_flow.specs.ValidLemma.{lemma_of};
ghost use Rattle.xm_rows.specs.Divisor.{IsPrimitiveOf};
ghost use Rattle.xm_rows.specs.Row.{Fits128, IsRow};

use std::alloc::Global;
use xm_flow::{Invariant, Part};
use xm_model::{List, OutOfMemory};
use xm_rows::{Entry, Row, primitive};

/// The entry with its column counted from the first of packets.
fn lower(entry: Entry, moves: u32) -> Entry
    requires { moves ≤ entry.column }
    ensures { result ≡ record { column = entry.column - moves; value = entry.value } }
{
    Entry {
        column: entry.column - moves,
        value: entry.value,
    }
}

/// The entries over packets, with their columns counted from the first of packets.
fn over_packets(alloc: Global, row: &Row, moves: u32, base: u32) -> Result<List<Entry>, OutOfMemory>
    requires { All (λ e. moves ≤ e.column) row.now.entries }
    ensures { IfOk result (λ entries. entries.items ≡ lowered moves base row.now.entries) }
{
    let mut entries = List::new(alloc);
    for entry in row.entries() {
        if entry.column < base {
            entries.push(lower(*entry, moves))?;
        }
    }
    Ok(entries)
}

/// The factor with its sign turned, or as it is.
fn turned_if(turned: bool, factor: i128) -> i128
    requires { Fits128 factor }
    ensures { result ≡ cond turned (neg_ℤ factor) factor }
{
    if turned { -factor } else { factor }
}

/// The part that a factor makes.
fn part_of(entry: Entry, base: u32, turned: bool) -> Part
    requires column { base ≤ entry.column }
    requires fits { Fits128 entry.value }
    ensures { result ≡ record { flow = entry.column - base; factor = cond turned (neg_ℤ entry.value) entry.value } }
{
    Part {
        flow: entry.column - base,
        factor: turned_if(turned, entry.value),
    }
}

/// The factors, with their signs turned or as they are.
fn parts(alloc: Global, row: &Row, base: u32, turned: bool) -> Result<List<Part>, OutOfMemory>
    ensures { IfOk result (λ parts. parts.items ≡ parts_of base turned row.now.entries) }
{
    let mut parts = List::new(alloc);
    for entry in row.entries() {
        if entry.column >= base {
            parts.push(part_of(*entry, base, turned))?;
        }
    }
    Ok(parts)
}

/// By what the first number is the second times it, which divides it.
fn ratio(whole: i128, divisor: i128) -> i128
    requires fits { Fits128 whole }
    requires nonzero { divisor ≢ pos 0 }
    ensures { result ≡ int_div whole divisor }
{
    whole / divisor
}

fn magnitude(factor: i128) -> i128
    requires { Fits128 factor }
    ensures { result ≡ pos (unsigned_abs factor) }
{
    factor.unsigned_abs() as i128
}

/// The row over packets, made primitive, and by what it was divided.
fn reduced(
    alloc: Global,
    row: &Row,
    moves: u32,
    counts: u32,
    column: u32,
) -> Result<(Row, i128), OutOfMemory>
    requires narrow { moves + counts < 2 ^ 20 }
    requires leads { Leads moves (moves + counts) column row.now }
    ensures { IfOk result (λ it. IsReducedPivot moves counts row.now it.0 it.1) }
{
    let _row = row.entries();
    let entries = over_packets(alloc, row, moves, moves + counts)?;
    let mut reduced = Row::new(alloc, entries.as_slice(), row.constant())?;
    let before = reduced.value_at(column - moves);
    primitive(&mut reduced);
    let factor = ratio(before, reduced.value_at(column - moves));
    let _entries = reduced.entries();
    Ok((reduced, factor))
}

/// The lemma of a pivot that leads in a column of packets.
pub fn part(
    alloc: Global,
    row: &Row,
    moves: u32,
    counts: u32,
    column: u32,
) -> Result<Invariant, OutOfMemory>
    requires narrow { moves + counts < 2 ^ 20 }
    requires leads { Leads moves (moves + counts) column row.now }
    ensures { IfOk result (λ it. IsParted moves counts row.now (lemma_of it)) }
{
    let (reduced, factor) = reduced(alloc, row, moves, counts, column)?;
    let parts = parts(alloc, row, moves + counts, factor < 0)?;
    Ok(Invariant {
        row: reduced,
        scale: magnitude(factor),
        parts,
    })
}
