//! The board of a net in parts as a bench, whose run is told in its text.
ghost use Rattle.std.specs.Prelude.{◌≡◌, ◌<◌, ◌*◌, ◌^◌, IfOk, length};
ghost use Rattle.xm_work.specs.Simulating as spec;
ghost use Rattle.xm_work.specs.Simulating.{run_of};

use crate::bench::Bench;
use crate::rounds::Rounds;
use std::alloc::Global;
use std::marker::Model;
use xm_board::{Board, Done, Job, Posted, Take, posts_rise};
use xm_design::Design;
use xm_model::{List, Names, OutOfMemory, Text};
use xm_order::one_run;
use xm_parts::{Parts, Snapshot};
use xm_tape::Tape;
use xm_trace::{RunText, Total, rounds_follow};
use xm_turn::Named;

/// What is simulated: a design and its names, under a tape, in parts.
#[derive(Clone, Copy)]
pub struct Whole<'a> {
    pub design: &'a Design,
    pub names: &'a Names,
    pub tape: &'a Tape,
    pub parts: &'a Parts,
}

/// The run up to the last cycle of a round, and the first cycle whose text was not made so far.
#[derive(Clone, Copy)]
pub struct Run<'a> {
    pub whole: Whole<'a>,
    pub target: u32,
    pub next_line: u32,
}

/// A job of the board, and the run that it belongs to.
pub struct RunJob<'a> {
    job: Job<'a>,
    run: Run<'a>,
    ghost names: { job.run ≡ run_of run.whole },
}

/// What was done of such a job.
pub struct RunDone<'a> {
    done: Done<'a>,
    run: Run<'a>,
    ghost names: { done.run ≡ run_of run.whole },
}

/// A board, and the text of its run: what was made of it, and its lines that were made last.
#[derive(Drop)]
pub struct Simulation<'a> {
    alloc: Global,
    whole: Whole<'a>,
    board: Board<'a>,
    floor: u32,
    text: RunText,
    lines: Text,
}

impl<'a> Model for Simulation<'a> {
    ghost use Rattle.xm_work.specs.Simulating.{IsSimulating, Simulating};

    ghost Value = { Simulating };

    ghost view = { λ it. record {
      whole = it.whole;
      board = it.board;
      floor = it.floor;
      text = it.text;
      lines = it.lines.items;
    } };

    ghost invariant = { λ it. IsSimulating (record {
      whole = it.whole;
      board = it.board;
      floor = it.floor;
      text = it.text;
      lines = it.lines.items;
    }) };
}

impl<'a> Simulation<'a> {
    ghost use Rattle.std.specs.Prelude.{◌≡◌, ◌<◌, ◌*◌, ◌^◌, ℕ, [], IfOk, length};
    ghost use Rattle.xm_model.specs.Naming.{naming_of};
    ghost use Rattle.xm_tape.specs.Taped.{Fits, cycles_of};
    ghost use Rattle.xm_trace.specs.Text.{end_text};
    ghost use Rattle.xm_trace.specs.RunTextState.{totals_of};
    ghost use Rattle.xm_model.specs.Run.{moves};
    ghost use Rattle.xm_model.specs.Component.{Content};
    ghost use Rattle.xm_model.specs.Signals.{Signals};
    ghost use Rattle.xm_trace.specs.Runs.{IsRunOf};

    /// The simulation before its first cycle, in a first round up to a target.
    pub fn new(alloc: Global, whole: Whole<'a>, target: u32) -> Result<Simulation<'a>, OutOfMemory>
        requires design { whole.parts.now.design ≡ whole.design.now }
        requires fits { Fits whole.design.now.net whole.tape.now }
        requires channels { length whole.names.now.channels.items ≡ whole.design.now.net.channels }
        requires colours { length whole.names.now.colours.items ≡ whole.design.now.net.colours }
        requires within { target < cycles_of whole.tape.now }
        requires round { target < 1024 }
        ensures whole { IfOk result (λ it. it.whole ≡ whole.entry) }
        ensures target { IfOk result (λ it. it.board.core.target ≡ target) }
        ensures none { IfOk result (λ it. it.text.cycles ≡ 0) }
    {
        whole.design.is_designed();
        whole.design.net().is_net();
        let board = Board::new(alloc, whole.design, whole.tape, whole.parts, target)?;
        let text = RunText::new(alloc, whole.design)?;
        let floor = board.floor();
        Ok(Simulation {
            alloc,
            whole,
            board,
            floor,
            text,
            lines: Text::new(alloc),
        })
    }

    /// The run that it names.
    fn run(&self) -> Run<'a>
        ensures { result ≡ record {
          whole = self.now.whole;
          target = self.now.board.core.target;
          next_line = self.now.text.cycles;
        } }
    {
        Run {
            whole: self.whole,
            target: self.board.target(),
            next_line: self.text.cycles(),
        }
    }

    /// The lines of the sums, and the last line.
    pub fn end(&self) -> Result<Text, OutOfMemory>
        ensures { (s : ℕ → ℕ → Content) (φ : ℕ → Signals)
            → IsRunOf self.now.whole.design.now.net self.now.whole.tape.now s φ
            → IfOk result (λ text. text.items ≡ end_text (naming_of self.now.whole.names.now) φ self.now.text.cycles) }
    {
        self.text.end(self.alloc, self.whole.names)
    }

    /// How often each colour moved on each channel, where it did.
    pub fn totals(&self) -> Result<List<Total>, OutOfMemory>
        ensures { (s : ℕ → ℕ → Content) (φ : ℕ → Signals)
            → IsRunOf self.now.whole.design.now.net self.now.whole.tape.now s φ
            → IfOk result (λ totals. totals.items ≡ totals_of (λ c d. moves φ c d self.now.text.cycles)
            self.now.whole.design.now.net.colours self.now.whole.design.now.net.channels) }
    {
        self.text.totals(self.alloc)
    }
}

impl<'a> Named for Simulation<'a> {
    type Run = Run<'a>;

    ghost run = { λ it. record {
      whole = it.whole;
      target = it.board.core.target;
      next_line = it.text.cycles;
    } };

    ghost floor_of = { λ it. it.floor };

    fn floor(&self) -> u64 {
        u64::from(self.floor)
    }
}

impl<'a> Bench for Simulation<'a> {
    type Job = RunJob<'a>;

    type Done = RunDone<'a>;

    type Snapshot = Snapshot;

    ghost target = { λ run. run.target };

    ghost job_run = { λ it. it.run };

    ghost done_run = { λ it. it.run };

    ghost cycle_of = { spec.cycle_of };

    ghost is_of = { λ run it. spec.is_snapshot_of run.whole it };

    fn part(it: &RunJob<'a>) -> u32 {
        it.job.part()
    }

    fn cycle(it: &RunJob<'a>) -> u32 {
        it.job.cycle()
    }

    fn step(it: RunJob<'a>) -> RunDone<'a> {
        let RunJob { job, run } = it;
        RunDone {
            done: job.step(),
            run,
        }
    }

    fn take(&mut self) -> Result<Take<RunJob<'a>>, OutOfMemory> {
        let run = self.run();
        match self.board.take(self.alloc)? {
            Take::Job(job) => Ok(Take::Job(RunJob { job, run })),
            Take::NotYet(part) => Ok(Take::NotYet(part)),
            Take::Finished => Ok(Take::Finished),
            Take::Stopped => Ok(Take::Stopped),
        }
    }

    fn post(&mut self, it: RunDone<'a>) -> Posted {
        posts_rise();
        self.board.is_core();
        let RunDone { done, run: _run } = it;
        let posted = self.board.post(done);
        self.floor = self.board.floor();
        posted
    }

    fn recall(&mut self) {
        self.board.recall();
    }

    fn stop(&mut self, refusal: OutOfMemory) {
        self.board.stop(refusal);
    }

    fn snapshot(&self) -> Result<Snapshot, OutOfMemory> {
        self.board.snapshot(self.alloc)
    }

    fn snapshot_cycle(snapshot: &Snapshot) -> u32
        ensures { result ≡ snapshot.now.cycle }
    {
        snapshot.cycle
    }
}

impl<'a> Rounds for Simulation<'a> {
    type Whole = Whole<'a>;

    ghost use Rattle.xm_tape.specs.Taped.{cycles_of as tape_cycles};

    ghost whole = { λ run. run.whole };

    ghost cycles_of = { λ whole. tape_cycles whole.tape.now };

    ghost has_lines = { spec.AreLines };

    ghost next_line = { λ run. run.next_line };

    ghost text_of = { λ it. it.lines };

    fn make_text(&mut self) -> Result<(), OutOfMemory> {
        rounds_follow();
        one_run();
        self.whole.design.is_designed();
        self.board.is_core();
        let _cycles = self.whole.tape.cycles();
        if self.text.cycles() > self.board.target() {
            self.lines = Text::new(self.alloc);
            return Ok(());
        }
        let trace = self.board.trace(self.alloc)?;
        self.lines = self.text.add(self.alloc, self.whole.names, &trace)?;
        Ok(())
    }

    fn text(&self) -> &[u8] {
        self.lines.as_bytes()
    }

    fn next_round(&mut self, last: u32) {
        self.board.is_core();
        self.board.next_round(last);
    }
}
