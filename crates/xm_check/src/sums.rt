//! Sums of rows, column by column, within 128 bits.

ghost use Rattle.std.specs.Prelude.{◌≡◌, ◌<◌, ◌++◌, All, cond, length, map, pos};
ghost use Rattle.std.specs.Prelude.{IfOk, OnOk, Some, None, slice_index_or};
ghost use Rattle.xm_check.specs.Inner.Gives.{Gives};
ghost use Rattle.xm_check.specs.Inner.Touched.{cleared, zero_at};
ghost use Rattle.xm_model.specs.Steps as steps;
ghost use Rattle.xm_proof.specs.Sums as spec;

use crate::stop::Stop;
use std::alloc::Global;
use std::marker::Model;
use xm_model::{List, OutOfMemory};
use xm_proof::Reason;
use xm_rows::{Entry, product, sum};

/// What was added so far, for each column by number and for the constants.
/// All columns but the touched are 0, so that no later step looks through all of them.
#[derive(Drop)]
pub struct Sums {
    columns: List<i128>,
    touched: List<u32>,
    constant: i128,
}

impl Model for Sums {
    ghost use Rattle.xm_check.specs.Inner.Touched.{AreTouched};
    ghost use Rattle.xm_proof.specs.Sums as plain;

    ghost Value = { plain.Sums };

    ghost view = { λ s. record { columns = s.columns.items; constant = s.constant } };

    ghost invariant = { λ s. AreTouched s.touched.items s.columns.items };
}

/// The sum and a product.
fn plus_product(so_far: i128, factor: i128, value: i128) -> Option<i128>
    ensures { result ≡ spec.plus_product so_far factor value }
{
    let product = product(factor, value)?;
    sum(so_far, product)
}

/// Adds a product to a column; whether all of it stays in 128 bits.
fn add_entry(columns: &mut [i128], column: usize, factor: i128, value: i128) -> bool
    requires { column < length columns.old }
    ensures { spec.put columns.old column
        (spec.plus_product (slice_index_or columns.old column (pos 0)) factor value) ≡ cond result (Some columns.new)
        None }
{
    match plus_product(columns[column], factor, value) {
        Some(z) => {
            columns[column] = z;
            true
        }
        None => false,
    }
}

/// Adds a row's entries, taken so often; whether all of it stays in 128 bits.
fn add_entries(columns: &mut [i128], factor: i128, entries: &[Entry]) -> bool
    requires { All (λ e. e.column < length columns.old) entries.now }
    ensures { spec.add_entries factor entries.now (Some columns.old) ≡ cond result (Some columns.new) None }
{
    for entry in entries {
        if !add_entry(columns, entry.column as usize, factor, entry.value) {
            return false;
        }
    }
    true
}

/// Notes the columns of a row.
fn touch(touched: &mut List<u32>, entries: &[Entry]) -> Result<(), OutOfMemory>
    ensures { OnOk result (touched.new.items ≡ touched.old.items ++ map (λ e. e.column) entries.now) }
{
    for entry in entries {
        touched.push(entry.column)?;
    }
    Ok(())
}

/// Sets these columns to 0.
fn clear(columns: &mut [i128], touched: &[u32])
    requires { All (λ k. k < length columns.old) touched.now }
    ensures { columns.new ≡ cleared touched.now columns.old }
{
    for k in touched {
        columns[*k as usize] = 0;
    }
}

/// Whether each of these columns is 0.
fn are_zero(columns: &[i128], touched: &[u32]) -> bool
    requires { All (λ k. k < length columns.now) touched.now }
    ensures { result ≡ zero_at columns.now touched.now }
{
    for k in touched {
        if columns[*k as usize] != 0 {
            return false;
        }
    }
    true
}

impl Sums {
    /// Nothing, in so many columns.
    pub fn none(alloc: Global, columns: u32) -> Result<Sums, OutOfMemory>
        ensures { IfOk result (λ sums. sums ≡ spec.no_sums columns) }
    {
        let columns = List::filled(alloc, 0i128, columns)?;
        Ok(Sums {
            columns,
            touched: List::new(alloc),
            constant: 0,
        })
    }

    /// Adds a row, taken so often, where all of it stays in 128 bits. Time is linear in its entries.
    pub fn add(self, factor: i128, entries: &[Entry], constant: i128) -> Result<Sums, Stop>
        requires { All (λ e. e.column < length self.columns) entries.now }
        ensures { Gives (λ sums. sums) result
            (steps.demand (spec.add_row factor (record { entries = entries.now; constant = constant }) self)
            Reason.Overflow) }
    {
        let Sums {
            mut columns,
            mut touched,
            constant: so_far,
        } = self;
        touch(&mut touched, entries)?;
        if !add_entries(columns.as_mut_slice(), factor, entries) {
            return Err(Stop::Break(Reason::Overflow));
        }
        match plus_product(so_far, factor, constant) {
            Some(constant) => Ok(Sums {
                columns,
                touched,
                constant,
            }),
            None => Err(Stop::Break(Reason::Overflow)),
        }
    }

    /// Nothing again. Time is linear in the entries that were added.
    pub fn cleared(self) -> Sums
        ensures { result ≡ spec.no_sums (length self.columns) }
    {
        let Sums {
            mut columns,
            mut touched,
            ..
        } = self;
        clear(columns.as_mut_slice(), touched.as_slice());
        touched.truncate(0);
        Sums {
            columns,
            touched,
            constant: 0,
        }
    }

    /// Whether every column is 0.
    pub fn is_zero(&self) -> bool
        ensures { result ≡ spec.all_zero self.now.columns }
    {
        are_zero(self.columns.as_slice(), self.touched.as_slice())
    }

    /// What the constants add up to.
    pub fn constant(&self) -> i128
        ensures { result ≡ self.now.constant }
    {
        self.constant
    }
}
