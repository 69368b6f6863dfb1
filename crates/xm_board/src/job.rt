//! The step of one part, as a worker does it.

use crate::newest::Newest;
use std::marker::Model;
use xm_design::{Design, fits_hold};
use xm_order::one_run;
use xm_parts::{Change, Parts, change, change_law, choosing_law, few_law, part_step};

/// A part that was handed out, with all that its step needs. A contract sees the run, the part and the cycle that it
/// leaves.
pub struct Job<'a> {
    pub(crate) design: &'a Design,
    pub(crate) parts: &'a Parts,
    pub(crate) part: u32,
    pub(crate) cycle: u32,
    pub(crate) newest: Newest<'a>,
    pub(crate) change: Change,
}

impl<'a> Model for Job<'a> {
    ghost use Rattle.xm_board.specs.Run.{JobName};

    ghost Value = { JobName };

    ghost use Rattle.xm_board.specs.Inner.Jobs.{IsJob, run_in};

    ghost view = { λ j. record {
      run = run_in j.design.now j.parts.now j.newest.choices.tape;
      part = j.part;
      cycle = j.cycle;
    } };

    ghost invariant = { λ j. IsJob j.design.now j.parts.now j.part j.cycle j.newest j.change };
}

/// What was done of a job: the part's row one cycle on. A contract sees the job.
pub struct Done<'a> {
    pub(crate) design: &'a Design,
    pub(crate) parts: &'a Parts,
    pub(crate) part: u32,
    pub(crate) cycle: u32,
    pub(crate) newest: Newest<'a>,
    pub(crate) change: Change,
}

impl<'a> Model for Done<'a> {
    ghost use Rattle.xm_board.specs.Run.{JobName};

    ghost Value = { JobName };

    ghost use Rattle.xm_board.specs.Inner.Jobs.{IsDone, run_in};

    ghost view = { λ d. record {
      run = run_in d.design.now d.parts.now d.newest.choices.tape;
      part = d.part;
      cycle = d.cycle;
    } };

    ghost invariant = { λ d. IsDone d.design.now d.parts.now d.part d.cycle d.newest d.change };
}

impl<'a> Job<'a> {
    ghost use Rattle.std.specs.Prelude.{◌≡◌};

    /// The part that was handed out.
    pub fn part(&self) -> u32
        ensures { result ≡ self.now.part }
    {
        self.part
    }

    /// The cycle that it leaves.
    pub fn cycle(&self) -> u32
        ensures { result ≡ self.now.cycle }
    {
        self.cycle
    }

    /// Does the step. It takes no memory.
    pub fn step(self) -> Done<'a>
        ensures { result ≡ self.entry }
    {
        one_run();
        fits_hold();
        change_law();
        choosing_law();
        few_law();
        let Job {
            design,
            parts,
            part,
            cycle,
            newest,
            change: mut differs,
        } = self;
        let Newest {
            row,
            mut spare,
            far,
            mut choices,
        } = newest;
        design.is_designed();
        part_step(design, parts, part, &row, &far, choices.row(), &mut spare);
        change(&row, &spare, &mut differs);
        choices.advance();
        Done {
            design,
            parts,
            part,
            cycle,
            newest: Newest {
                row: spare,
                spare: row,
                far,
                choices,
            },
            change: differs,
        }
    }
}
