//! How far each part is, and which are out with workers.

ghost use Rattle.std.specs.Prelude.{◌≡◌, ◌<◌, ◌≤◌, [], map, slice_get, slice_index_or};

use std::alloc::Global;
use std::marker::Model;
use xm_model::{List, OutOfMemory};

/// What a take answers: the part that is handed out, or the least part that is out where none can be.
#[derive(Clone, Copy, PartialEq, Eq, Debug)]
pub enum Choice {
    Stopped,
    Finished,
    Job(u32),
    NotYet(u32),
}

/// The parts with their neighbours, their cycles, and whether they are out; whether the board was stopped, the first
/// cycle of its round and the target.
#[derive(Drop)]
pub struct BoardCore {
    neighbours: List<List<u32>>,
    cycles: List<u32>,
    out: List<bool>,
    stopped: bool,
    first: u32,
    target: u32,
}

impl Model for BoardCore {
    ghost use Rattle.std.specs.Prelude.{length, map, ℕ};
    ghost use Rattle.xm_board.specs.Core.{Core, IsCore};
    ghost use Rattle.xm_model.specs.ListView.{ListView};

    ghost Value = { Core };

    ghost view = { λ c. record {
      count = length c.cycles.items;
      neighbours = map (λ (l : ListView ℕ). l.items) c.neighbours.items;
      cycles = c.cycles.items;
      out = c.out.items;
      stopped = c.stopped;
      first = c.first;
      target = c.target;
    } };

    ghost invariant = { λ c. IsCore (record {
      count = length c.cycles.items;
      neighbours = map (λ (l : ListView ℕ). l.items) c.neighbours.items;
      cycles = c.cycles.items;
      out = c.out.items;
      stopped = c.stopped;
      first = c.first;
      target = c.target;
    }) };
}

impl BoardCore {
    ghost use Rattle.xm_board.specs.Answers.{IsChoice};
    ghost use Rattle.xm_board.specs.Core.{AllDone, IsCore, IsFloor, IsMutual, IsReady, cycle as cycle_in, is_out as is_out_in};
    ghost use Rattle.xm_board.specs.Core.{given_back, posted, recalled, rounded, started, stopped, taken};
    ghost use Rattle.std.specs.Prelude.{◌+◌, IfOk, length, true, ℕ};
    ghost use Rattle.xm_model.specs.ListView.{ListView};
    ghost use Rattle.xm_board.specs.Inner.Choosing as spec;

    /// The parts with these neighbours, at the start of a round up to a target.
    pub fn new(
        alloc: Global,
        neighbours: List<List<u32>>,
        target: u32,
    ) -> Result<BoardCore, OutOfMemory>
        requires few { length neighbours.items ≤ 64 }
        requires both_ways { IsMutual (map (λ (l : ListView ℕ). l.items) neighbours.items) }
        requires round { target < 1024 }
        ensures { IfOk result (λ core. core ≡ started (map (λ (l : ListView ℕ). l.items) neighbours.items) target) }
    {
        let count = neighbours.len() as u32;
        let cycles = List::filled(alloc, 0, count)?;
        let out = List::filled(alloc, false, count)?;
        Ok(BoardCore {
            neighbours,
            cycles,
            out,
            stopped: false,
            first: 0,
            target,
        })
    }

    /// The part is handed out.
    pub fn take(&mut self, p: u32)
        requires { IsReady self.old p }
        ensures { self.new ≡ taken self.old p }
    {
        self.out.as_mut_slice()[p as usize] = true;
    }

    /// The part that was handed out comes in, one cycle on.
    pub fn post(&mut self, p: u32)
        requires part { p < self.old.count }
        requires out { is_out_in self.old p ≡ true }
        ensures { self.new ≡ posted self.old p }
    {
        self.is_core();
        let next = self.cycle(p) + 1;
        self.cycles.as_mut_slice()[p as usize] = next;
        self.out.as_mut_slice()[p as usize] = false;
    }

    /// The part comes in as it went out.
    pub fn give_back(&mut self, p: u32)
        requires { p < self.old.count }
        ensures { self.new ≡ given_back self.old p }
    {
        self.out.as_mut_slice()[p as usize] = false;
    }

    /// Every part comes in.
    pub fn recall(&mut self)
        ensures { self.new ≡ recalled self.old }
    {
        self.is_core();
        self.out.as_mut_slice().fill(false);
    }

    /// The next round begins, up to a later target.
    pub fn next_round(&mut self, target: u32)
        requires done { AllDone self.old }
        requires later { self.old.target < target }
        requires near { target ≤ self.old.target + 1024 }
        ensures { self.new ≡ rounded self.old target }
    {
        self.first = self.target + 1;
        self.target = target;
    }

    /// The board is stopped.
    pub fn stop(&mut self)
        ensures { self.new ≡ stopped self.old }
    {
        self.stopped = true;
    }

    /// The call does nothing, and its caller has that the core is one.
    pub fn is_core(&self)
        ensures { IsCore self.now }
    {
        // The invariant is known where a field has been read.
        let _read = self.stopped;
    }

    /// The first cycle of the round.
    pub fn first(&self) -> u32
        ensures { result ≡ self.now.first }
    {
        self.first
    }

    /// The last cycle of the round.
    pub fn target(&self) -> u32
        ensures { result ≡ self.now.target }
    {
        self.target
    }

    /// The cycle of a part.
    pub fn cycle(&self, p: u32) -> u32
        ensures { result ≡ cycle_in self.now p }
    {
        match self.cycles.as_slice().get(p as usize) {
            Some(cycle) => *cycle,
            None => 0,
        }
    }

    /// Whether a part is out.
    pub fn is_out(&self, p: u32) -> bool
        ensures { result ≡ is_out_in self.now p }
    {
        match self.out.as_slice().get(p as usize) {
            Some(out) => *out,
            None => false,
        }
    }

    /// The least cycle of all parts.
    pub fn floor(&self) -> u32
        requires { 0 < self.now.count }
        ensures { IsFloor self.now result }
    {
        self.is_core();
        let mut least = self.cycle(0);
        for p in 1..self.cycles.len() {
            least = least.min(self.cycle(p as u32));
        }
        least
    }

    fn is_behind(&self, cycle: u32, q: u32) -> bool
        ensures { result ≡ spec.is_below cycle (slice_get self.now.cycles q) }
    {
        match self.cycles.as_slice().get(q as usize) {
            Some(other) => *other < cycle,
            None => false,
        }
    }

    fn none_behind(&self, cycle: u32, parts: &[u32]) -> bool
        ensures { result ≡ spec.none_behind self.now.cycles cycle parts.now }
    {
        for q in parts {
            if self.is_behind(cycle, *q) {
                return false;
            }
        }
        true
    }

    fn is_last(&self, p: u32) -> bool
        ensures { result ≡ spec.none_behind self.now.cycles (cycle_in self.now p)
            (slice_index_or self.now.neighbours p []) }
    {
        match self.neighbours.as_slice().get(p as usize) {
            Some(parts) => self.none_behind(self.cycle(p), parts.as_slice()),
            None => true,
        }
    }

    fn is_ready(&self, p: u32) -> bool
        ensures { result ≡ spec.is_ready self.now p }
    {
        !self.is_out(p) && self.cycle(p) < self.target && self.is_last(p)
    }

    fn is_earlier(&self, best: Option<u32>, p: u32) -> bool
        ensures { result ≡ spec.is_earlier self.now best p }
    {
        match best {
            Some(best) => self.cycle(p) < self.cycle(best),
            None => true,
        }
    }

    fn better(&self, best: Option<u32>, p: u32) -> Option<u32>
        ensures { result ≡ spec.better_of self.now best p }
    {
        if self.is_ready(p) && self.is_earlier(best, p) {
            Some(p)
        } else {
            best
        }
    }

    /// The first ready part of the least cycle.
    fn next_ready(&self) -> Option<u32>
        ensures { result ≡ spec.best_below self.now self.now.count }
    {
        self.is_core();
        let mut best = None;
        for p in 0..self.cycles.len() {
            best = self.better(best, p as u32);
        }
        best
    }

    /// The least part that is out.
    fn least_out(&self) -> Option<u32>
        ensures { result ≡ spec.first_mark 0 self.now.out }
    {
        self.is_core();
        for p in 0..self.out.len() {
            if self.out.as_slice()[p] {
                return Some(p as u32);
            }
        }
        None
    }

    /// What a take answers. It looks at each part and its neighbours once.
    pub fn choice(&self) -> Choice
        ensures { IsChoice self.now result }
    {
        self.is_core();
        if self.stopped {
            return Choice::Stopped;
        }
        match self.next_ready() {
            Some(p) => Choice::Job(p),
            None => match self.least_out() {
                Some(p) => Choice::NotYet(p),
                None => Choice::Finished,
            },
        }
    }
}
