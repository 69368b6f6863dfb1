//! The rows of a tape that are written.

ghost use Rattle.std.specs.Prelude.{◌≡◌, [], ◌*◌, ◌+◌, ◌<◌, ◌≤◌, ◌^◌, IfOk, length, slice_index_or};
ghost use Rattle.xm_json.specs.Lent.{lent_texts};
ghost use Rattle.xm_tape.specs.Gives.{Gives};
ghost use Rattle.xm_tape.specs.Reading.{repeating, taped_in};
ghost use Rattle.xm_tape.specs.Sizes.{most_cycles};

use crate::fault::TapeFault;
use crate::marks;
use crate::oracles::oracles_of;
use std::alloc::Global;
use std::marker::Model;
use xm_design::Design;
use xm_model::{Choice, List};

/// The rows that were written for a tape. A row has one choice for each source and sink; it is kept once, however
/// often it is repeated, and takes at most 4 bytes a choice.
#[derive(Drop)]
pub struct WrittenTape {
    width: u32,
    stem: u32,
    cycle: u32,
    times: u32,
    choices: List<Choice>,
}

impl Model for WrittenTape {
    ghost use Rattle.xm_tape.specs.Taped.{Taped};

    ghost Value = { Taped };

    ghost use Rattle.xm_tape.specs.Inner.Flat.{IsKept, taped};

    ghost view = { λ t. taped t.choices.items t.width t.stem t.cycle t.times };

    ghost invariant = { λ t. IsKept t.choices.items t.width t.stem t.cycle t.times };
}

impl WrittenTape {
    ghost use Rattle.xm_tape.specs.Inner.Flat.{row_kept};
    ghost use Rattle.xm_tape.specs.Taped.{Fits, cycles_of, rows_of};

    /// The tape of these rows of marks: those of the stem once, and those of the cycle so many times.
    #[tactic(auto, unfolding(crate::specs::Reading::taped_in))]
    pub fn new(
        alloc: Global,
        design: &Design,
        stem: &[&str],
        cycle: &[&str],
        times: u32,
    ) -> Result<WrittenTape, TapeFault>
        requires few { length stem.now + times * length cycle.now ≤ most_cycles }
        requires counted { length stem.now + length cycle.now < 2 ^ 32 }
        ensures exact { Gives (λ tape. tape) result
            (taped_in design.now.net (repeating (lent_texts stem.now) (lent_texts cycle.now) times)) }
        ensures fits { IfOk result (Fits design.now.net) }
    {
        let oracles = oracles_of(alloc, design)?;
        let mut choices = List::new(alloc);
        marks::push_marked_rows(&mut choices, &oracles, 0, stem)?;
        marks::push_marked_rows(&mut choices, &oracles, stem.len() as u32, cycle)?;
        Ok(WrittenTape {
            choices,
            width: oracles.len() as u32,
            stem: stem.len() as u32,
            cycle: cycle.len() as u32,
            times,
        })
    }

    /// How many cycles the run has.
    #[tactic(auto, using(crate::proofs::Repeating::counts))]
    pub fn cycles(&self) -> u32
        ensures number { result ≡ cycles_of self.now }
        ensures rows { result ≡ length (rows_of self.now) }
    {
        self.stem + self.times * self.cycle
    }

    /// Where the row of cycle `t` stands among the rows that are kept.
    #[tactic(auto, using(crate::proofs::Repeating::counts))]
    fn row(&self, t: u32) -> u32
        requires { t < cycles_of self.now }
        ensures { result ≡ row_kept (length self.now.stem) (length self.now.cycle) t }
    {
        if t < self.stem {
            t
        } else {
            self.stem + (t - self.stem) % self.cycle
        }
    }

    /// The choices of cycle `t`, one for each source and sink in primitive order, in constant time.
    pub fn at(&self, t: u32) -> &[Choice]
        requires { t < cycles_of self.now }
        ensures { result.now ≡ slice_index_or (rows_of self.now) t [] }
    {
        let start = self.row(t) as usize * self.width as usize;
        &self.choices.as_slice()[start..start + self.width as usize]
    }

    /// How many rows come once, before those that are repeated.
    #[tactic(auto, using(crate::proofs::Repeating::counts))]
    pub fn stem_len(&self) -> u32
        ensures { result ≡ length self.now.stem }
    {
        self.stem
    }

    /// How many rows are repeated.
    #[tactic(auto, using(crate::proofs::Repeating::counts))]
    pub fn cycle_len(&self) -> u32
        ensures { result ≡ length self.now.cycle }
    {
        self.cycle
    }

    /// How many times they come.
    pub fn times(&self) -> u32
        ensures { result ≡ self.now.times }
    {
        self.times
    }
}
