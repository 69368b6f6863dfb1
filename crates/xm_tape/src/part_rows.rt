//! The rows of a tape, one after another, with some of their choices alone.

ghost use Rattle.std.specs.Prelude.{◌≡◌, ℕ, ◌+◌, Bool, List as Wanted, length, IfOk};
ghost use Rattle.xm_tape.specs.Inner.Forms as spec;
ghost use Rattle.xm_tape.specs.Inner.Leaps.{AreStops};
ghost use Rattle.xm_tape.specs.Place.{HasWanted};

use crate::draws::draw_stops;
use crate::leap::{Stops, stops_of};
use crate::rows::{Form, number_at, row_for};
use std::alloc::Global;
use std::marker::Model;
use xm_model::{Choice, List, OutOfMemory};

/// Gives the wanted choices of one cycle of a tape after another. A contract sees the tape, the cycle, and which places
/// of a row are wanted. Drawn choices are made in the place of those before, and the others are passed over.
#[derive(Drop)]
pub struct PartRows<'t> {
    form: &'t Form,
    own: List<bool>,
    stops: Stops,
    cycle: u32,
    number: u64,
    row: List<Choice>,
}

impl<'t> Model for PartRows<'t> {
    ghost use Rattle.std.specs.Prelude.{◌≡◌, ◌+◌, length};
    ghost use Rattle.xm_tape.specs.Place.{HasWanted, PartPlace};

    ghost Value = { PartPlace };

    ghost use Rattle.xm_tape.specs.Inner.Forms.{drawn_row, number_at, taped_of, width_drawn};
    ghost use Rattle.xm_tape.specs.Inner.Leaps.{AreStops};

    ghost view = { λ it. record { tape = taped_of it.form.now; cycle = it.cycle; own = it.own.items } };

    ghost invariant = { λ it. (it.number ≡ number_at it.form.now (it.cycle + 1))
        × (length it.row.items ≡ width_drawn it.form.now)
        × AreStops it.own.items (width_drawn it.form.now) it.stops.stops.items it.stops.rest
        × HasWanted it.own.items (drawn_row it.form.now it.cycle) it.row.items };
}

/// Makes the wanted choices of the row that is drawn after a number, if it is drawn, and gives the number after it.
fn make_wanted(form: &Form, stops: &Stops, number: u64, row: &mut List<Choice>) -> u64
    requires width { length row.old.items ≡ spec.width_drawn form.now }
    requires stops { (own : Wanted Bool) × AreStops own (spec.width_drawn form.now) stops.now.stops.items stops.now.rest }
    ensures row { (own : Wanted Bool) (t : ℕ)
        → AreStops own (spec.width_drawn form.now) stops.now.stops.items stops.now.rest
        → number ≡ spec.number_at form.now t → HasWanted own (spec.drawn_row form.now t) row.new.items }
    ensures number { (t : ℕ) → number ≡ spec.number_at form.now t → result ≡ spec.number_at form.now (t + 1) }
    ensures width { length row.new.items ≡ spec.width_drawn form.now }
{
    match form {
        Form::Written(_) => {
            row.truncate(0);
            0
        }
        Form::Drawn(tape) => draw_stops(row.as_mut_slice(), tape.oracles.as_slice(), stops, number),
    }
}

impl<'t> PartRows<'t> {
    ghost use Rattle.std.specs.Prelude.{[], ◌+◌, ◌<◌, ◌^◌, slice_index_or, IfOk};
    ghost use Rattle.xm_tape.specs.Inner.Forms.{taped_of};
    ghost use Rattle.xm_tape.specs.Taped.{cycles_of, rows_of};

    pub(crate) fn new(
        alloc: Global,
        form: &'t Form,
        from: u32,
        own: List<bool>,
    ) -> Result<PartRows<'t>, OutOfMemory>
        ensures { IfOk result
            (λ rows. rows ≡ record { tape = taped_of form.now; cycle = from; own = own.items }) }
    {
        let mut row = row_for(alloc, form)?;
        let stops = stops_of(alloc, own.as_slice(), row.len() as u32)?;
        let number = make_wanted(form, &stops, number_at(form, from), &mut row);
        Ok(PartRows {
            form,
            own,
            stops,
            cycle: from,
            number,
            row,
        })
    }

    /// As many choices of the cycle as there are sources and sinks, of which those that are wanted are the tape's, in
    /// constant time.
    pub fn row(&self) -> &[Choice]
        requires { self.now.cycle < cycles_of self.now.tape }
        ensures { HasWanted self.now.own (slice_index_or (rows_of self.now.tape) self.now.cycle []) result.now }
    {
        match self.form {
            Form::Written(tape) => tape.at(self.cycle),
            Form::Drawn(_) => self.row.as_slice(),
        }
    }

    /// Goes on to the next cycle, in time that is constant where rows are written, and else linear in the wanted
    /// places. It takes no memory.
    pub fn advance(&mut self)
        requires { self.old.cycle + 1 < 2 ^ 32 }
        ensures tape { self.new.tape ≡ self.old.tape }
        ensures cycle { self.new.cycle ≡ self.old.cycle + 1 }
        ensures own { self.new.own ≡ self.old.own }
    {
        self.number = make_wanted(self.form, &self.stops, self.number, &mut self.row);
        self.cycle += 1;
    }
}
