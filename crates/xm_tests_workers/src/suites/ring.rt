//! A ring of parts that add up marks: a small bench.

ghost use Rattle.std.specs.Prelude.{◌≡◌, ◌≤◌, ◌-◌, ◌^◌, ℕ, suc, IfOk, OnOk, List as Items, [], ◌∷◌, replicate};

use std::alloc::Global;
use xm_board::{Posted, Take};
use xm_model::{List, OutOfMemory};
use xm_turn::Named;
use xm_work::{Bench, Rounds};

/// The run of a ring. No value of it is made.
pub struct Run {
    target: u32,
    next_line: u32,
}

/// The whole run of a ring. No value of it is made.
pub struct Whole;

/// Parts in a ring, each of which may be one cycle ahead of its neighbours at most. In each cycle each adds a mark,
/// times its number, to its sum. A cycle's text is a dot.
#[derive(Drop)]
pub struct Ring<'a> {
    marks: &'a [u64],
    cycles: Vec<u32>,
    out: Vec<bool>,
    pub sums: Vec<u64>,
    target: u32,
    floor: u32,
    next_line: u32,
    text: List<u8>,
    stopped: bool,
}

pub struct Job<'a> {
    part: u32,
    cycle: u32,
    marks: &'a [u64],
    target: u32,
    next_line: u32,
}

pub struct Done {
    part: u32,
    cycle: u32,
    mark: u64,
    target: u32,
    next_line: u32,
}

/// The sums of the parts when the last of them came to a cycle.
#[derive(Drop)]
pub struct Sums {
    pub cycle: u32,
    pub sums: Vec<u64>,
}

impl<'a> Ring<'a> {
    /// A ring of so many parts before its first cycle.
    pub fn new(
        alloc: Global,
        marks: &'a [u64],
        parts: u32,
        target: u32,
    ) -> Result<Ring<'a>, OutOfMemory>
        ensures { IfOk result (λ r. (r.target ≡ target) × (r.floor ≡ 0) × (r.next_line ≡ 0)) }
    {
        let mut cycles = Vec::new(alloc);
        let mut out = Vec::new(alloc);
        let mut sums = Vec::new(alloc);
        for _ in 0..parts {
            cycles.push(0)?;
            out.push(false)?;
            sums.push(0)?;
        }
        Ok(Ring {
            marks,
            cycles,
            out,
            sums,
            target,
            floor: 0,
            next_line: 0,
            text: List::new(alloc),
            stopped: false,
        })
    }

    fn cycle_at(&self, part: usize) -> u32 {
        self.cycles.get(part).copied().unwrap_or(u32::MAX)
    }

    fn is_out(&self, part: usize) -> bool {
        self.out.get(part).copied().unwrap_or(false)
    }

    fn is_ready(&self, part: usize) -> bool {
        let parts = self.cycles.len();
        if parts == 0 {
            return false;
        }
        let cycle = self.cycle_at(part);
        let left = self.cycle_at(if part == 0 { parts - 1 } else { part - 1 });
        let right = self.cycle_at(if part < parts - 1 { part + 1 } else { 0 });
        !self.is_out(part) && cycle < self.target && cycle <= left && cycle <= right
    }

    fn first_ready(&self) -> Option<usize> {
        let mut best = None;
        let mut least = u32::MAX;
        for part in 0..self.cycles.len() {
            if self.is_ready(part) && self.cycle_at(part) < least {
                best = Some(part);
                least = self.cycle_at(part);
            }
        }
        best
    }

    fn least(&self) -> u32 {
        let mut least = self.target;
        for part in 0..self.cycles.len() {
            least = least.min(self.cycle_at(part));
        }
        least
    }

    fn mark_out(&mut self, part: usize, out: bool)
        ensures target { self.new.target ≡ self.old.target }
        ensures next { self.new.next_line ≡ self.old.next_line }
        ensures floor { self.new.floor ≡ self.old.floor }
    {
        if let Some(place) = self.out.get_mut(part) {
            *place = out;
        }
    }

    fn advance(&mut self, part: usize, mark: u64)
        ensures target { self.new.target ≡ self.old.target }
        ensures next { self.new.next_line ≡ self.old.next_line }
        ensures floor { self.old.floor ≤ self.new.floor }
    {
        if let Some(place) = self.cycles.get_mut(part) {
            *place = place.saturating_add(1);
        }
        if let Some(place) = self.sums.get_mut(part) {
            *place = place.wrapping_add(mark);
        }
        self.floor = self.floor.max(self.least());
    }
}

impl<'a> Named for Ring<'a> {
    type Run = Run;

    ghost use Rattle.xm_tests_workers.specs.declared.suites.ring.Run.{Run as RunOf};

    ghost run = { λ r. record { target = r.target; next_line = r.next_line } };

    ghost floor_of = { λ r. r.floor };

    fn floor(&self) -> u64 {
        u64::from(self.floor)
    }
}

impl<'a> Bench for Ring<'a> {
    type Job = Job<'a>;

    type Done = Done;

    type Snapshot = Sums;

    ghost target = { λ r. r.target };

    ghost job_run = { λ j. record { target = j.target; next_line = j.next_line } };

    ghost done_run = { λ d. record { target = d.target; next_line = d.next_line } };

    ghost cycle_of = { λ s. s.cycle };

    ghost is_of = { λ r s. Unit {0} };

    fn part(job: &Job<'a>) -> u32 {
        job.part
    }

    fn cycle(job: &Job<'a>) -> u32 {
        job.cycle
    }

    fn step(job: Job<'a>) -> Done {
        let Job {
            part,
            cycle,
            marks,
            target,
            next_line,
        } = job;
        let mark = match marks.get(cycle as usize) {
            Some(mark) => mark.wrapping_mul(u64::from(part)),
            None => 0,
        };
        Done {
            part,
            cycle,
            mark,
            target,
            next_line,
        }
    }

    fn take(&mut self) -> Result<Take<Job<'a>>, OutOfMemory> {
        if self.stopped {
            return Ok(Take::Stopped);
        }
        if self.floor == self.target {
            return Ok(Take::Finished);
        }
        let Some(part) = self.first_ready() else {
            return Ok(Take::NotYet(0));
        };
        self.mark_out(part, true);
        let cycle = self.cycle_at(part);
        let Ok(part) = u32::try_from(part) else {
            return Ok(Take::NotYet(0));
        };
        Ok(Take::Job(Job {
            part,
            cycle,
            marks: self.marks,
            target: self.target,
            next_line: self.next_line,
        }))
    }

    fn post(&mut self, done: Done) -> Posted {
        let Done {
            part,
            cycle,
            mark,
            target: _,
            next_line: _,
        } = done;
        let part = part as usize;
        if !self.is_out(part) || self.cycle_at(part) != cycle {
            return Posted::Stale;
        }
        self.mark_out(part, false);
        self.advance(part, mark);
        Posted::Taken
    }

    fn recall(&mut self) {
        for out in self.out.iter_mut() {
            *out = false;
        }
    }

    fn stop(&mut self, _refusal: OutOfMemory) {
        self.stopped = true;
    }

    fn snapshot(&self) -> Result<Sums, OutOfMemory> {
        Ok(Sums {
            cycle: self.floor,
            sums: self.sums.clone()?,
        })
    }

    fn snapshot_cycle(snapshot: &Sums) -> u32
        ensures { result ≡ snapshot.now.cycle }
    {
        snapshot.cycle
    }
}

impl<'a> Rounds for Ring<'a> {
    type Whole = Whole;

    ghost use Rattle.xm_tests_workers.specs.declared.suites.ring.Whole.{Whole as WholeOf};
    ghost use Rattle.xm_tests_workers.specs.Inner.Dots.{IsDot};

    ghost whole = { λ r. record {} };

    ghost cycles_of = { λ w. 2 ^ 32 };

    ghost has_lines = { λ w line. IsDot line };

    ghost next_line = { λ r. r.next_line };

    ghost text_of = { λ r. r.text.items };

    fn make_text(&mut self) -> Result<(), OutOfMemory> {
        let Some(next) = self.target.checked_add(1) else {
            return Err(OutOfMemory);
        };
        let alloc = *self.cycles.allocator();
        self.text = List::filled(alloc, b'.', next.saturating_sub(self.next_line))?;
        self.next_line = next;
        Ok(())
    }

    fn text(&self) -> &[u8] {
        self.text.as_slice()
    }

    fn next_round(&mut self, last: u32) {
        self.target = last;
    }
}
