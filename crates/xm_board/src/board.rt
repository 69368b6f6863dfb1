//! The board: how far each part is, and what is kept of it.

use crate::answers::{Posted, Take};
use crate::board_core::{BoardCore, Choice};
use crate::gluing::glued;
use crate::job::{Done, Job};
use crate::merging::merged;
use crate::newest::Newest;
use crate::posting::{note_at, push_at, put_newest, rise_if, tell, turn_at};
use crate::rounds::clear_all;
use crate::row_log::RowLog;
use crate::starting::{first_cycle, first_far, first_logs, first_moves, neighbours_of, no_newest};
use crate::taking::{make_move_room, make_row_room, take_newest};
use crate::two_cycles::TwoCycles;
use std::alloc::Global;
use std::marker::Model;
use xm_design::{Design, fits_hold};
use xm_model::{List, OutOfMemory};
use xm_order::one_run;
use xm_parts::{Change, PartRow, Parts, Snapshot, capacity_law, far_law, fit_law};
use xm_tape::Tape;
use xm_trace::{Move, Trace};

/// The simulator's core: of each part its rows from the floor to its own cycle, and its moves of the round. A contract
/// sees the run and the core.
#[derive(Drop)]
pub struct Board<'a> {
    pub(crate) design: &'a Design,
    pub(crate) tape: &'a Tape,
    pub(crate) parts: &'a Parts,
    pub(crate) core: BoardCore,
    pub(crate) floor: u32,
    pub(crate) logs: List<RowLog>,
    pub(crate) moves: List<List<Move>>,
    pub(crate) far: List<TwoCycles>,
    pub(crate) newest: List<Option<Newest<'a>>>,
}

impl<'a> Model for Board<'a> {
    ghost use Rattle.xm_board.specs.Run.{Boarded};

    ghost Value = { Boarded };

    ghost use Rattle.xm_board.specs.Inner.Jobs.{run_in};
    ghost use Rattle.xm_board.specs.Inner.Standing.{IsBoard};

    ghost view = { λ b. record { run = run_in b.design.now b.parts.now b.tape.now; core = b.core } };

    ghost invariant = { λ b. IsBoard b.design.now b.tape.now b.parts.now b.core b.floor b.logs.items b.moves.items
        b.far.items b.newest.items };
}

impl<'a> Board<'a> {
    ghost use Rattle.std.specs.Prelude.{◌≡◌, ◌<◌, ◌≤◌, ◌+◌, ℕ, suc, true, IfOk, IsTrue, OnErr, OnOk};
    ghost use Rattle.xm_board.specs.Answers.{IsCurrent, IsTake, job_at};
    ghost use Rattle.xm_board.specs.Core.{AllDone, IsCore, IsFloor, IsReady, cycle, given_back, is_out as is_out_in, posted, recalled, stopped, taken};
    ghost use Rattle.xm_board.specs.Inner.Jobs.{HasStepped, IsNewest};
    ghost use Rattle.xm_board.specs.Run.{AreChanges, IsNamed, row_at};
    ghost use Rattle.xm_parts.specs.Rows.{row_of};
    ghost use Rattle.xm_model.specs.Component.{Content};
    ghost use Rattle.xm_model.specs.Signals.{Signals};
    ghost use Rattle.xm_tape.specs.Taped.{cycles_of};
    ghost use Rattle.xm_board.specs.Core.{rounded};
    ghost use Rattle.xm_board.specs.declared.answers.Posted.{Posted};
    ghost use Rattle.xm_board.specs.declared.answers.Posted.TheVariants as Posted;
    ghost use Rattle.xm_board.specs.Run.{IsStart};
    ghost use Rattle.xm_tape.specs.Taped.{Fits};
    ghost use Rattle.std.specs.Prelude.{◌-◌, length, map};
    ghost use Rattle.xm_trace.specs.Runs.{AreMovesFrom};
    ghost use Rattle.xm_model.specs.Component.{content_of};
    ghost use Rattle.xm_parts.specs.Gluing.{HoldsAll};

    /// The board of these parts at cycle 0, in a first round up to a target. The first take of each part makes its
    /// newest row.
    pub fn new(
        alloc: Global,
        design: &'a Design,
        tape: &'a Tape,
        parts: &'a Parts,
        target: u32,
    ) -> Result<Board<'a>, OutOfMemory>
        requires design { parts.now.design ≡ design.now }
        requires fits { Fits design.now.net tape.now }
        requires within { target < cycles_of tape.now }
        requires round { target < 1024 }
        ensures run { IfOk result (λ board. board.run
            ≡ record { net = design.now.net; tape = tape.now; labels = parts.now.labels }) }
        ensures core { IfOk result (λ board. IsStart board.run parts.now.count target board.core) }
    {
        fits_hold();
        capacity_law();
        design.is_designed();
        let count = parts.count();
        let near = neighbours_of(alloc, parts)?;
        let first = first_cycle(alloc, design, tape)?;
        let logs = first_logs(alloc, design, parts, &first)?;
        let moves = first_moves(alloc, parts, logs.as_slice())?;
        let far = first_far(alloc, design, parts, logs.as_slice())?;
        let newest = no_newest(alloc, count)?;
        let core = BoardCore::new(alloc, near, target)?;
        Ok(Board {
            design,
            tape,
            parts,
            core,
            floor: 0,
            logs,
            moves,
            far,
            newest,
        })
    }

    /// No part is past the target, and neighbours are at most one cycle apart. The call does nothing, and its caller has
    /// that fact.
    pub fn is_core(&self)
        ensures { IsCore self.now.core }
    {
        self.core.is_core();
    }

    /// The least cycle of all parts.
    pub fn floor(&self) -> u32
        ensures { IsFloor self.now.core result }
    {
        self.floor
    }

    /// The first cycle of the round.
    pub fn first(&self) -> u32
        ensures { result ≡ self.now.core.first }
    {
        self.core.first()
    }

    /// The last cycle of the round.
    pub fn target(&self) -> u32
        ensures { result ≡ self.now.core.target }
    {
        self.core.target()
    }

    /// The cycle of a part.
    pub fn cycle_of(&self, p: u32) -> u32
        ensures { result ≡ cycle self.now.core p }
    {
        self.core.cycle(p)
    }

    /// Whether a part is out.
    pub fn is_out(&self, p: u32) -> bool
        ensures { result ≡ is_out_in self.now.core p }
    {
        self.core.is_out(p)
    }

    /// Takes every part in. What is posted or given back of a job of before is stale then, unless its part is out
    /// again at the same cycle: of these jobs the first that is posted counts, and the other is stale.
    pub fn recall(&mut self)
        ensures run { self.new.run ≡ self.old.run }
        ensures core { self.new.core ≡ recalled self.old.core }
    {
        self.core.recall();
    }

    /// Stops the board, by a refusal that a caller met.
    pub fn stop(&mut self, refusal: OutOfMemory)
        ensures run { self.new.run ≡ self.old.run }
        ensures core { self.new.core ≡ stopped self.old.core }
    {
        let _refusal = refusal;
        self.core.stop();
    }

    /// Whether a job of this part and this cycle is out.
    fn is_current(&self, p: u32, t: u32) -> bool
        ensures yes { IsTrue result → IsCurrent self.now.core p t }
        ensures no { IsCurrent self.now.core p t → IsTrue result }
        ensures part { IsTrue result → p < self.now.core.count }
        ensures core { IsCore self.now.core }
    {
        self.core.is_core();
        self.core.is_out(p) && self.core.cycle(p) == t
    }

    /// Takes a part in as it went out.
    pub fn give_back(&mut self, job: Job<'a>) -> Posted
        requires { job.run ≡ self.old.run }
        ensures run { self.new.run ≡ self.old.run }
        ensures taken { result ≡ Posted.Taken → IsCurrent self.old.core job.entry.part job.entry.cycle
            × (self.new.core ≡ given_back self.old.core job.entry.part) }
        ensures stale { result ≡ Posted.Stale → (IsCurrent self.old.core job.entry.part job.entry.cycle → ⊥)
            × (self.new.core ≡ self.old.core) }
    {
        let Job {
            design: _design,
            parts: _parts,
            part,
            cycle,
            newest,
            change: _change,
        } = job;
        if !self.is_current(part, cycle) {
            return Posted::Stale;
        }
        self.newest.as_mut_slice()[part as usize] = Some(newest);
        self.core.give_back(part);
        Posted::Taken
    }

    /// Takes part `p` in, one cycle on.
    fn put_in(&mut self, p: u32, newest: Newest<'a>, change: Change)
        requires part { p < self.old.core.count }
        requires out { is_out_in self.old.core p ≡ true }
        requires newest { IsNewest self.old.run p (suc (cycle self.old.core p)) newest }
        requires stands { (s : ℕ → ℕ → Content) (φ : ℕ → Signals) → IsNamed self.old.run s φ
            → HasStepped self.old.run s φ p (cycle self.old.core p) newest change }
        ensures run { self.new.run ≡ self.old.run }
        ensures core { self.new.core ≡ posted self.old.core p }
    {
        one_run();
        fits_hold();
        capacity_law();
        self.design.is_designed();
        self.parts.count();
        self.core.is_core();
        let t = self.core.cycle(p) + 1;
        let wires = newest.row.wires.as_slice();
        push_at(&mut self.logs, p, change);
        note_at(&mut self.moves, p, t, self.parts.channels(p), wires);
        turn_at(&mut self.far, p);
        tell(
            self.design,
            self.parts,
            &self.core,
            p,
            t,
            &newest.row,
            self.far.as_mut_slice(),
        );
        put_newest(&mut self.newest, p, newest);
        self.core.post(p);
        let floor = self.core.floor();
        rise_if(&mut self.logs, self.floor < floor);
        self.floor = floor;
    }

    /// Takes in what was done of a job. No memory is taken.
    pub fn post(&mut self, done: Done<'a>) -> Posted
        requires { done.run ≡ self.old.run }
        ensures run { self.new.run ≡ self.old.run }
        ensures taken { result ≡ Posted.Taken → IsCurrent self.old.core done.entry.part done.entry.cycle
            × (self.new.core ≡ posted self.old.core done.entry.part) }
        ensures stale { result ≡ Posted.Stale → (IsCurrent self.old.core done.entry.part done.entry.cycle → ⊥)
            × (self.new.core ≡ self.old.core) }
    {
        let Done {
            design: _design,
            parts: _parts,
            part,
            cycle,
            newest,
            change,
        } = done;
        if !self.is_current(part, cycle) {
            return Posted::Stale;
        }
        self.put_in(part, newest, change);
        Posted::Taken
    }

    /// Hands out part `p`.
    fn hand_out(&mut self, alloc: Global, p: u32) -> Result<Job<'a>, OutOfMemory>
        requires { IsReady self.old.core p }
        ensures run { self.new.run ≡ self.old.run }
        ensures job { IfOk result (λ job. job ≡ job_at self.old p) }
        ensures ok { OnOk result (self.new.core ≡ taken self.old.core p) }
        ensures err { OnErr result (self.new.core ≡ self.old.core) }
    {
        one_run();
        far_law();
        self.design.is_designed();
        self.parts.count();
        self.core.is_core();
        let cycles = self.tape.cycles();
        let cycle = self.core.cycle(p);
        let room = self.parts.channels(p).len() as u32;
        make_row_room(&mut self.logs, p)?;
        make_move_room(&mut self.moves, p, room)?;
        let change = Change::new(alloc, self.design, self.parts, p)?;
        let log = &self.logs.as_slice()[p as usize];
        let mut newest = take_newest(
            alloc,
            self.design,
            self.tape,
            self.parts,
            &mut self.newest,
            log,
            p,
            cycle,
        )?;
        let around = &self.far.as_slice()[p as usize];
        newest.far.put(&around.now);
        self.core.take(p);
        Ok(Job {
            design: self.design,
            parts: self.parts,
            part: p,
            cycle,
            newest,
            change,
        })
    }

    /// Hands out the ready part of the least cycle, the least among equals; else tells that the board is stopped, that
    /// all is done, or for which part to wait. All memory that the step and the post need is taken here.
    pub fn take(&mut self, alloc: Global) -> Result<Take<Job<'a>>, OutOfMemory>
        ensures run { self.new.run ≡ self.old.run }
        ensures take { IfOk result (λ take. IsTake self.old take self.new.core) }
        ensures err { OnErr result (self.new.core ≡ self.old.core) }
    {
        match self.core.choice() {
            Choice::Stopped => Ok(Take::Stopped),
            Choice::Finished => Ok(Take::Finished),
            Choice::NotYet(p) => Ok(Take::NotYet(p)),
            Choice::Job(p) => {
                let job = self.hand_out(alloc, p)?;
                Ok(Take::Job(job))
            }
        }
    }

    /// Begins the next round, up to a later target. It takes no memory, and a stopped board stays so.
    pub fn next_round(&mut self, target: u32)
        requires done { AllDone self.old.core }
        requires later { self.old.core.target < target }
        requires near { target ≤ self.old.core.target + 1024 }
        requires within { target < cycles_of self.old.run.tape }
        ensures run { self.new.run ≡ self.old.run }
        ensures core { self.new.core ≡ rounded self.old.core target }
    {
        clear_all(self.moves.as_mut_slice());
        self.core.next_round(target);
    }

    /// Lends the row of part `p` at the floor.
    pub fn base(&self, p: u32) -> &PartRow
        requires { p < self.now.core.count }
        ensures { (floor : ℕ) (s : ℕ → ℕ → Content) (φ : ℕ → Signals) → IsFloor self.now.core floor
            → IsNamed self.now.run s φ → row_of result.now ≡ row_at self.now.run s φ p floor }
    {
        &self.logs.as_slice()[p as usize].base
    }

    /// Lends what differs in each cycle of part `p` from the floor to its own.
    pub fn changes(&self, p: u32) -> &[Change]
        requires { p < self.now.core.count }
        ensures { (floor : ℕ) → IsFloor self.now.core floor → AreChanges self.now p floor result.now }
    {
        self.logs.as_slice()[p as usize].changes.as_slice()
    }

    /// The state and the frame of the whole network at the floor.
    pub fn snapshot(&self, alloc: Global) -> Result<Snapshot, OutOfMemory>
        ensures floor { IfOk result (λ it. IsFloor self.now.core it.cycle) }
        ensures cells { IfOk result (λ it. length it.state.cells.items ≡ length self.now.run.net.prims) }
        ensures channels { IfOk result (λ it. length it.frame.wires.items ≡ self.now.run.net.channels) }
        ensures holds { (s : ℕ → ℕ → Content) (φ : ℕ → Signals) → IsNamed self.now.run s φ
            → IfOk result (λ it. HoldsAll self.now.run.net (s it.cycle) (φ it.cycle)
            (map content_of it.state.cells.items) it.frame.wires.items) }
    {
        one_run();
        fits_hold();
        fit_law();
        self.design.is_designed();
        self.core.is_core();
        let logs = self.logs.as_slice();
        glued(alloc, self.design, self.parts, logs, self.floor)
    }

    /// The run's moves of the round, by cycle and then channel, where every part is at the target. It takes time that is
    /// linear in the round's cycles and the channels.
    pub fn trace(&self, alloc: Global) -> Result<Trace, OutOfMemory>
        requires { AllDone self.now.core }
        ensures cycles { IfOk result (λ it. it.cycles ≡ suc self.now.core.target - self.now.core.first) }
        ensures moves { IfOk result (λ it. AreMovesFrom self.now.run.net self.now.run.tape self.now.core.first
            (suc self.now.core.target - self.now.core.first) it.moves.items) }
    {
        self.core.is_core();
        let _cycles = self.tape.cycles();
        let from = self.core.first();
        let to = self.core.target() + 1;
        let all = self.moves.as_slice();
        let moves = merged(alloc, self.design, self.parts, all, from, to)?;
        Ok(Trace {
            cycles: to - from,
            moves,
        })
    }
}
