//! The answer of a tableau that needs no pivot.

ghost use Rattle.std.specs.Prelude.{◌≡◌, ◌+◌, ◌-◌, ◌*◌, ◌^◌, ◌<◌, ◌≤◌, ◌<ℤ◌, ℕ, length, pos, IfOk, IfSome, IfNone};
ghost use Rattle.std.specs.Prelude.{IsTrue, IsFalse};
ghost use Rattle.std.specs.Int.{◌∣◌};
ghost use Rattle.xm_rows.specs.Row.{Fits128};
ghost use Rattle.xm_lp.specs.Answer.{IsDenominator, number_at};
ghost use Rattle.xm_lp.specs.Inner.Denominator.{AreCountsOver, CountLeaves, HasPoint, IsLeastOf};
ghost use Rattle.xm_lp.specs.Inner.Multiple.{IsLeastMultiple};
ghost use Rattle.xm_lp.specs.Inner.Refuted.{AllProductsFit, AreDifferences, AreValues, DifferenceLeaves};
ghost use Rattle.xm_lp.specs.Start.{AreBelow, artificials};
ghost use Rattle.xm_lp.specs.Pivot.{IsLast, constant_at};
ghost use Rattle.xm_lp.specs.Rule.{After, Follows};
ghost use Rattle.xm_lp.specs.Inner.Table.{tableau_of};

use crate::decision::{Con, Decision, LpFault};
use crate::start::{signed, zeros};
use crate::table::Table;
use crate::tally::{add_product, add_products};
use std::alloc::Global;
use xm_model::{List, OutOfMemory};
use xm_rows::{Row, gcd, sum};

/// The point, or the multipliers that refute the constraints.
pub(crate) fn answer(
    alloc: Global,
    constraints: &[Con],
    columns: u32,
    first: u32,
    table: &Table,
    pivots: u64,
) -> Result<Decision, LpFault>
    requires below { AreBelow columns constraints.now }
    requires few { columns + 2 * length constraints.now < 2 ^ 32 - 1 }
    requires first { first ≡ artificials constraints.now columns }
    requires after { After constraints.now columns pivots (tableau_of table.now) }
    requires last { IsLast (tableau_of table.now) first }
    ensures { (left : ℕ) → pivots ≤ left → Follows constraints.now columns left result }
{
    if table.rows.as_slice()[0].constant() < 0 {
        refutation(alloc, constraints, columns, first, table, pivots)
    } else {
        point(alloc, constraints, columns, first, table, pivots)
    }
}

fn refutation(
    alloc: Global,
    constraints: &[Con],
    columns: u32,
    first: u32,
    table: &Table,
    pivots: u64,
) -> Result<Decision, LpFault>
    requires below { AreBelow columns constraints.now }
    requires few { columns + 2 * length constraints.now < 2 ^ 32 - 1 }
    requires first { first ≡ artificials constraints.now columns }
    requires after { After constraints.now columns pivots (tableau_of table.now) }
    requires last { IsLast (tableau_of table.now) first }
    requires negative { constant_at (tableau_of table.now) 0 <ℤ pos 0 }
    ensures { (left : ℕ) → pivots ≤ left → Follows constraints.now columns left result }
{
    let mut lows = dense(
        alloc,
        &table.rows.as_slice()[0],
        first + constraints.len() as u32 + 1,
    )?;
    let Some(multipliers) = multipliers(alloc, constraints, first as usize, lows.as_slice())? else {
        return Err(LpFault::Overflow(pivots));
    };
    if !stays_within(alloc, constraints, columns, multipliers.as_slice())? {
        return Err(LpFault::Overflow(pivots));
    }
    lows.truncate(columns);
    Ok(Decision::Infeasible {
        multipliers,
        lows,
        pivots,
    })
}

/// The value of the row in each of the first `width` columns.
fn dense(alloc: Global, row: &Row, width: u32) -> Result<List<i128>, OutOfMemory>
    ensures { IfOk result (λ values. AreValues row.now width values.items) }
{
    let mut values = zeros(alloc, width)?;
    if !add_products(values.as_mut_slice(), 1, row) {
        unreachable!();
    }
    Ok(values)
}

/// The multiplier of each constraint, or `None` where one leaves 128 bits.
fn multipliers(
    alloc: Global,
    constraints: &[Con],
    first: usize,
    top: &[i128],
) -> Result<Option<List<i128>>, OutOfMemory>
    requires count { length top.now ≡ first + length constraints.now + 1 }
    requires few { length top.now < 2 ^ 32 }
    requires fit { (k : ℕ) → Fits128 (number_at top.now k) }
    ensures some { IfOk result (λ found. IfSome found (λ m. AreDifferences constraints.now top.now first m.items)) }
    ensures none { IfOk result (λ found. IfNone found (DifferenceLeaves constraints.now top.now first)) }
{
    let mut multipliers = List::new(alloc);
    for (i, con) in constraints.iter().enumerate() {
        let Some(value) = sum(top[first + constraints.len()], -top[first + i]) else {
            return Ok(None);
        };
        multipliers.push(signed(con.row.constant() < 0, value))?;
    }
    Ok(Some(multipliers))
}

/// Whether no product of a multiplier and no sum of the first products leaves 128 bits.
fn stays_within(
    alloc: Global,
    constraints: &[Con],
    columns: u32,
    multipliers: &[i128],
) -> Result<bool, OutOfMemory>
    requires { length multipliers.now ≡ length constraints.now }
    ensures within { IfOk result (λ yes. IsTrue yes → AllProductsFit constraints.now columns multipliers.now) }
    ensures leaves { IfOk result (λ yes. IsFalse yes → ¬ AllProductsFit constraints.now columns multipliers.now) }
{
    let mut sums = zeros(alloc, columns)?;
    let mut constant = 0;
    for (i, con) in constraints.iter().enumerate() {
        let Some(total) = add_product(constant, multipliers[i], con.row.constant()) else {
            return Ok(false);
        };
        constant = total;
        if !add_products(sums.as_mut_slice(), multipliers[i], &con.row) {
            return Ok(false);
        }
    }
    Ok(true)
}

fn point(
    alloc: Global,
    constraints: &[Con],
    columns: u32,
    first: u32,
    table: &Table,
    pivots: u64,
) -> Result<Decision, LpFault>
    requires below { AreBelow columns constraints.now }
    requires first { first ≡ artificials constraints.now columns }
    requires after { After constraints.now columns pivots (tableau_of table.now) }
    requires last { IsLast (tableau_of table.now) first }
    requires zero { constant_at (tableau_of table.now) 0 ≡ pos 0 }
    ensures { (left : ℕ) → pivots ≤ left → Follows constraints.now columns left result }
{
    let Some(denominator) = denominator(columns, table) else {
        return Err(LpFault::Overflow(pivots));
    };
    let Some(counts) = counts(alloc, columns, table, denominator)? else {
        return Err(LpFault::Overflow(pivots));
    };
    Ok(Decision::Point {
        denominator: denominator as i128,
        counts,
        pivots,
    })
}

/// The least number by which the value of each basic column below `columns` becomes whole.
fn denominator(columns: u32, table: &Table) -> Option<u128>
    requires { HasPoint columns (tableau_of table.now) }
    ensures least { IfSome result (λ d. IsLeastOf columns (tableau_of table.now) (length table.now.rows.items) d) }
    ensures fits { IfSome result (λ d. d < 2 ^ 127) }
    ensures none { IfNone result ((d : ℕ) →
        IsLeastOf columns (tableau_of table.now) (length table.now.rows.items) d → 2 ^ 127 ≤ d) }
{
    let mut common: u128 = 1;
    for (i, row) in table.rows.as_slice().iter().enumerate() {
        let basic = table.basics.as_slice()[i];
        if basic >= columns {
            continue;
        }
        let entry = row.value_at(basic).unsigned_abs();
        let part = entry / gcd(row.constant().unsigned_abs(), entry);
        let Some(multiple) = least_multiple(common, part) else {
            return None;
        };
        common = multiple;
    }
    Some(common)
}

/// The least common multiple of two positive numbers, or `None` where it leaves 128 bits.
fn least_multiple(a: u128, b: u128) -> Option<u128>
    requires first { 0 < a }
    requires second { 0 < b }
    ensures some { IfSome result (λ m. IsLeastMultiple a b m) }
    ensures fits { IfSome result (λ m. m < 2 ^ 127) }
    ensures none { IfNone result ((m : ℕ) → IsLeastMultiple a b m → 2 ^ 127 ≤ m) }
{
    let Some(multiple) = (a / gcd(a, b)).checked_mul(b) else {
        return None;
    };
    if multiple > i128::MAX as u128 {
        return None;
    }
    Some(multiple)
}

/// The value of each column below `columns`, times the denominator.
fn counts(
    alloc: Global,
    columns: u32,
    table: &Table,
    denominator: u128,
) -> Result<Option<List<i128>>, OutOfMemory>
    requires point { HasPoint columns (tableau_of table.now) }
    requires some { 0 < denominator }
    requires whole { IsDenominator columns (tableau_of table.now) denominator }
    ensures some { IfOk result (λ found. IfSome found (λ l.
        AreCountsOver columns (tableau_of table.now) denominator l.items)) }
    ensures none { IfOk result (λ found. IfNone found (CountLeaves columns (tableau_of table.now) denominator)) }
{
    let mut counts = zeros(alloc, columns)?;
    for (i, row) in table.rows.as_slice().iter().enumerate() {
        let basic = table.basics.as_slice()[i];
        if basic >= columns {
            continue;
        }
        let entry = row.value_at(basic).unsigned_abs();
        let Some(count) = whole(denominator, row.constant().unsigned_abs(), entry) else {
            return Ok(None);
        };
        counts.as_mut_slice()[basic as usize] = count as i128;
    }
    Ok(Some(counts))
}

/// `d * c / e`, which is whole, or `None` where it leaves 128 bits.
fn whole(d: u128, c: u128, e: u128) -> Option<u128>
    requires some { 0 < d }
    requires entry { 0 < e }
    requires divides { e ∣ d * c }
    ensures some { IfSome result (λ n. e * n ≡ d * c) }
    ensures fits { IfSome result (λ n. n < 2 ^ 127) }
    ensures none { IfNone result ((n : ℕ) → e * n ≡ d * c → 2 ^ 127 ≤ n) }
{
    let common = gcd(c, e);
    let Some(count) = (c / common).checked_mul(d / (e / common)) else {
        return None;
    };
    if count > i128::MAX as u128 {
        return None;
    }
    Some(count)
}
