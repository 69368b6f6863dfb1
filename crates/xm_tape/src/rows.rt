//! The rows of a tape, one after another.

ghost use Rattle.std.specs.Prelude.{◌≡◌, ℕ, ◌+◌, ◌<◌, ◌^◌, length, IfOk};
ghost use Rattle.xm_tape.specs.Inner.Forms as spec;

use crate::drawn::DrawnTape;
use crate::draws::{draw_row, rows_skipped};
use crate::written::WrittenTape;
use std::alloc::Global;
use std::marker::Model;
use xm_model::{Choice, List, OutOfMemory};

/// A tape whose rows are kept, or one whose rows are drawn.
#[derive(Drop)]
pub enum Form {
    Written(WrittenTape),
    Drawn(DrawnTape),
}

/// Gives the row of one cycle of a tape after another. A contract sees the tape and the cycle. A drawn row is made
/// in the place of the one before.
#[derive(Drop)]
pub struct Rows<'t> {
    form: &'t Form,
    cycle: u32,
    number: u64,
    row: List<Choice>,
}

impl<'t> Model for Rows<'t> {
    ghost use Rattle.std.specs.Prelude.{◌≡◌, ◌+◌, length};
    ghost use Rattle.xm_tape.specs.Place.{Place};

    ghost Value = { Place };

    ghost use Rattle.xm_tape.specs.Inner.Forms.{drawn_row, number_at, taped_of, width_drawn};

    ghost view = { λ it. record { tape = taped_of it.form.now; cycle = it.cycle } };

    ghost invariant = { λ it. (it.number ≡ number_at it.form.now (it.cycle + 1))
        × ((it.row.items ≡ drawn_row it.form.now it.cycle) × (length it.row.items ≡ width_drawn it.form.now)) };
}

/// The number after which the row of this cycle is drawn.
pub fn number_at(form: &Form, cycle: u32) -> u64
    ensures { result ≡ spec.number_at form.now cycle }
{
    match form {
        Form::Written(_) => 0,
        Form::Drawn(tape) => rows_skipped(tape.seed, tape.oracles.len(), cycle),
    }
}

/// A row for the choices that are drawn in place.
pub fn row_for(alloc: Global, form: &Form) -> Result<List<Choice>, OutOfMemory>
    ensures width { IfOk result (λ row. length row.items ≡ spec.width_drawn form.now) }
    ensures few { IfOk result (λ row. length row.items < 2 ^ 32) }
{
    match form {
        Form::Written(_) => Ok(List::new(alloc)),
        Form::Drawn(tape) => {
            let width = tape.oracles.len();
            if width > u32::MAX as usize {
                return Err(OutOfMemory);
            }
            List::filled(alloc, Choice::Ready(false), width as u32)
        }
    }
}

/// Makes the row that is drawn after a number, if it is drawn, and gives the number after it.
fn make_row(form: &Form, number: u64, row: &mut List<Choice>) -> u64
    requires width { length row.old.items ≡ spec.width_drawn form.now }
    ensures row { (t : ℕ) → number ≡ spec.number_at form.now t → row.new.items ≡ spec.drawn_row form.now t }
    ensures number { (t : ℕ) → number ≡ spec.number_at form.now t → result ≡ spec.number_at form.now (t + 1) }
    ensures width { length row.new.items ≡ spec.width_drawn form.now }
{
    match form {
        Form::Written(_) => {
            row.truncate(0);
            0
        }
        Form::Drawn(tape) => draw_row(row.as_mut_slice(), tape.oracles.as_slice(), number),
    }
}

impl<'t> Rows<'t> {
    ghost use Rattle.std.specs.Prelude.{[], ◌+◌, ◌<◌, ◌^◌, slice_index_or, IfOk};
    ghost use Rattle.xm_tape.specs.Inner.Forms.{taped_of};
    ghost use Rattle.xm_tape.specs.Taped.{cycles_of, rows_of};

    pub(crate) fn new(alloc: Global, form: &'t Form, from: u32) -> Result<Rows<'t>, OutOfMemory>
        ensures { IfOk result (λ rows. rows ≡ record { tape = taped_of form.now; cycle = from }) }
    {
        let mut row = row_for(alloc, form)?;
        let number = make_row(form, number_at(form, from), &mut row);
        Ok(Rows {
            form,
            cycle: from,
            number,
            row,
        })
    }

    /// The choices of the cycle, one for each source and sink in primitive order, in constant time.
    pub fn row(&self) -> &[Choice]
        requires { self.now.cycle < cycles_of self.now.tape }
        ensures { result.now ≡ slice_index_or (rows_of self.now.tape) self.now.cycle [] }
    {
        match self.form {
            Form::Written(tape) => tape.at(self.cycle),
            Form::Drawn(_) => self.row.as_slice(),
        }
    }

    /// Goes on to the next cycle, in time that is constant where rows are written, and else linear in the sources
    /// and sinks. It takes no memory.
    pub fn advance(&mut self)
        requires { self.old.cycle + 1 < 2 ^ 32 }
        ensures tape { self.new.tape ≡ self.old.tape }
        ensures cycle { self.new.cycle ≡ self.old.cycle + 1 }
    {
        self.number = make_row(self.form, self.number, &mut self.row);
        self.cycle += 1;
    }
}
