//! The choices of a run, cycle by cycle.

ghost use Rattle.std.specs.Prelude.{◌≡◌, [], ◌*◌, ◌+◌, ◌<◌, ◌≤◌, ◌^◌, IfOk, length};
ghost use Rattle.xm_json.specs.Lent.{lent_texts};
ghost use Rattle.xm_tape.specs.Draws.{seeded_rows};
ghost use Rattle.xm_tape.specs.Gives.{Gives};
ghost use Rattle.xm_tape.specs.Reading.{repeating, taped_in};
ghost use Rattle.xm_tape.specs.Sizes.{most_cycles, most_cycles_by_channels};

use crate::drawn::drawn_tape;
use crate::fault::TapeFault;
use crate::part_rows::PartRows;
use crate::rows::{Form, Rows};
use crate::written::WrittenTape;
use std::alloc::Global;
use std::marker::Model;
use xm_design::Design;
use xm_model::{List, OutOfMemory};

/// The choices of a run. Rows that are written are kept, each once; of a seeded tape the seed is kept, and what is
/// drawn from it comes row by row.
#[derive(Drop)]
pub struct Tape {
    form: Form,
}

impl Model for Tape {
    ghost use Rattle.xm_tape.specs.Taped.{Taped};

    ghost Value = { Taped };

    ghost use Rattle.xm_tape.specs.Inner.Forms.{taped_of};

    ghost view = { λ t. taped_of t.form };
}

impl Tape {
    ghost use Rattle.xm_tape.specs.Taped.{Fits, cycles_of, rows_of};

    /// The tape that draws its choices from a seed. It keeps no row.
    pub fn seeded(
        alloc: Global,
        design: &Design,
        cycles: u32,
        seed: u64,
    ) -> Result<Tape, OutOfMemory>
        requires few { cycles ≤ most_cycles }
        requires small { cycles * design.now.net.channels ≤ most_cycles_by_channels }
        ensures tape { IfOk result
            (λ tape. tape ≡ record { stem = seeded_rows design.now.net.prims cycles seed; cycle = []; times = 0 }) }
        ensures fits { IfOk result (Fits design.now.net) }
    {
        let tape = drawn_tape(alloc, design, cycles, seed)?;
        Ok(Tape {
            form: Form::Drawn(tape),
        })
    }

    /// The tape of these rows of marks: those of the stem once, and those of the cycle so many times.
    pub fn written(
        alloc: Global,
        design: &Design,
        stem: &[&str],
        cycle: &[&str],
        times: u32,
    ) -> Result<Tape, TapeFault>
        requires few { length stem.now + times * length cycle.now ≤ most_cycles }
        requires counted { length stem.now + length cycle.now < 2 ^ 32 }
        ensures exact { Gives (λ tape. tape) result
            (taped_in design.now.net (repeating (lent_texts stem.now) (lent_texts cycle.now) times)) }
        ensures fits { IfOk result (Fits design.now.net) }
    {
        let tape = WrittenTape::new(alloc, design, stem, cycle, times)?;
        Ok(Tape {
            form: Form::Written(tape),
        })
    }

    /// How many cycles the run has.
    pub fn cycles(&self) -> u32
        ensures number { result ≡ cycles_of self.now }
        ensures rows { result ≡ length (rows_of self.now) }
    {
        match &self.form {
            Form::Written(tape) => tape.cycles(),
            Form::Drawn(tape) => tape.cycles,
        }
    }

    /// The rows from a cycle on, in time that is linear in the draws before it and in memory for one row.
    pub fn rows(&self, alloc: Global, from: u32) -> Result<Rows<'_>, OutOfMemory>
        ensures { IfOk result (λ rows. rows ≡ record { tape = self.now; cycle = from }) }
    {
        Rows::new(alloc, &self.form, from)
    }

    /// The rows from a cycle on, of which the choices at the wanted places alone count. The time is linear in the draws
    /// before it, and in the places of a row.
    pub fn part_rows(
        &self,
        alloc: Global,
        from: u32,
        own: List<bool>,
    ) -> Result<PartRows<'_>, OutOfMemory>
        ensures { IfOk result (λ rows. rows ≡ record { tape = self.now; cycle = from; own = own.items }) }
    {
        PartRows::new(alloc, &self.form, from, own)
    }

    /// How many rows come once, before those that are repeated.
    pub fn stem_len(&self) -> u32
        ensures { result ≡ length self.now.stem }
    {
        match &self.form {
            Form::Written(tape) => tape.stem_len(),
            Form::Drawn(tape) => tape.cycles,
        }
    }

    /// How many rows are repeated.
    pub fn cycle_len(&self) -> u32
        ensures { result ≡ length self.now.cycle }
    {
        match &self.form {
            Form::Written(tape) => tape.cycle_len(),
            Form::Drawn(_) => 0,
        }
    }

    /// How many times they come.
    pub fn times(&self) -> u32
        ensures { result ≡ self.now.times }
    {
        match &self.form {
            Form::Written(tape) => tape.times(),
            Form::Drawn(_) => 0,
        }
    }
}
