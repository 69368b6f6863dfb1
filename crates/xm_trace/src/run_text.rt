//! The text of a run that is made round by round.

ghost use Rattle.std.specs.Prelude.{◌≡◌, ℕ, ◌+◌, ◌-◌, ◌*◌, ◌^◌, ◌<◌, ◌≤◌, ◌++◌, decimal, length, IfOk, OnOk, OnErr};

use crate::buffer::Lines;
use crate::labels::{Labels, MoveTexts, room_of_moves};
use crate::sums::count_moves;
use crate::text::{push_end, push_round};
use crate::trace::Trace;
use itoa::Buffer;
use std::alloc::Global;
use std::marker::Model;
use xm_design::Design;
use xm_model::{List, Names, OutOfMemory, Text};
use xm_running::Running;
use xm_step::{Evaluator, RunningFrame, running_frame, step_running};
use xm_tape::Rows;

/// How often a colour moved on a channel, where it did.
#[derive(Clone, Copy, PartialEq, Eq, Debug)]
pub struct Total {
    pub channel: u32,
    pub colour: u8,
    pub count: u64,
}

/// The text of a run, round by round. A contract sees how many cycles it has had, of how many channels
/// and colours, and the sums of their moves.
#[derive(Drop)]
pub struct RunText {
    cycles: u32,
    channels: u32,
    colours: u32,
    sums: List<u64>,
}

impl Model for RunText {
    ghost use Rattle.xm_trace.specs.RunTextState.{RunTextState};

    ghost Value = { RunTextState };

    ghost use Rattle.xm_trace.specs.Inner.Table.{IsTable};

    ghost view = { λ it. record {
      cycles = it.cycles;
      channels = it.channels;
      colours = it.colours;
      sums = it.sums.items;
    } };

    ghost invariant = { λ it. IsTable it.channels it.colours it.sums.items };
}

impl RunText {
    ghost use Rattle.xm_model.specs.Component.{Content};
    ghost use Rattle.xm_model.specs.Naming.{Naming, naming_of};
    ghost use Rattle.xm_model.specs.Run.{moves};
    ghost use Rattle.xm_model.specs.Signals.{Signals};
    ghost use Rattle.xm_step.specs.InStep.{IsInStep};
    ghost use Rattle.xm_step.specs.Roomy.{SameRooms};
    ghost use Rattle.xm_step.specs.Still.{AreStill};
    ghost use Rattle.xm_tape.specs.Taped.{cycles_of};
    ghost use Rattle.xm_trace.specs.Inner.Labels.{AreReady, labelled_of, move_room};
    ghost use Rattle.xm_trace.specs.Labels.{AreLabelsOf};
    ghost use Rattle.xm_trace.specs.Rounds.{IsUnderway};
    ghost use Rattle.xm_trace.specs.Runs.{IsRunOf};
    ghost use Rattle.xm_trace.specs.Sums.{sum_at};
    ghost use Rattle.xm_trace.specs.Text.{end_text, round_lines};
    ghost use Rattle.xm_trace.specs.RunTextState.{Follows, FollowsSome, HasHad, IsNamedBy, totals_of};

    /// The text of a run of the design, before its first cycle. It takes 8 bytes for each colour on each
    /// channel.
    pub fn new(alloc: Global, design: &Design) -> Result<RunText, OutOfMemory>
        ensures none { IfOk result (λ it. it.cycles ≡ 0) }
        ensures channels { IfOk result (λ it. it.channels ≡ design.now.net.channels) }
        ensures colours { IfOk result (λ it. it.colours ≡ design.now.net.colours) }
        ensures had { IfOk result (λ it. (φ : ℕ → Signals) → HasHad it φ) }
    {
        let net = design.net();
        let channels = net.channels();
        let colours = net.colours();
        let sums = List::filled(alloc, 0u64, channels * colours)?;
        Ok(RunText {
            cycles: 0,
            channels,
            colours,
            sums,
        })
    }

    /// How many cycles it has had.
    pub fn cycles(&self) -> u32
        ensures { result ≡ self.now.cycles }
    {
        self.cycles
    }

    /// Runs the next cycle, appends its line, for which there is room, and counts its moves.
    fn run_cycle(
        &mut self,
        evaluator: &Evaluator<'_>,
        texts: &MoveTexts,
        rows: &mut Rows<'_>,
        running: &mut Running,
        frame: &mut RunningFrame,
        digits: &[u8],
        lines: &mut Lines,
    )
        requires digits { digits.now ≡ decimal self.old.cycles }
        requires ready { AreReady texts.now }
        requires labels { length (labelled_of texts.now).channels ≡ self.old.channels }
        requires here { IsUnderway evaluator.now.net rows.old.tape self.old running.old.slots.items }
        requires still { AreStill evaluator.now.net.prims running.old.slots.items }
        requires few { (c d : ℕ) → c < self.old.channels → d < self.old.colours
            → sum_at self.old.sums self.old.colours c d < 2 ^ 32 }
        requires row { rows.old.cycle ≡ self.old.cycles }
        requires within { self.old.cycles < cycles_of rows.old.tape }
        requires counted { self.old.cycles + 1 < 2 ^ 32 }
        requires in_step { IsInStep evaluator.now.net running.old.slots.items frame.old }
        requires room { length lines.old.items
            + (length digits.now + evaluator.now.net.channels * move_room texts.now + 1) ≤ lines.old.room }
        ensures here { IsUnderway evaluator.now.net rows.old.tape self.new running.new.slots.items }
        ensures lines { (names : Naming) (s : ℕ → ℕ → Content) (φ : ℕ → Signals)
            → AreLabelsOf names (labelled_of texts.now) → IsRunOf evaluator.now.net rows.old.tape s φ
            → lines.new.items ≡ lines.old.items ++ round_lines names φ self.old.cycles 1 }
        ensures cycles { self.new.cycles ≡ self.old.cycles + 1 }
        ensures tape { rows.new.tape ≡ rows.old.tape }
        ensures row { rows.new.cycle ≡ self.new.cycles }
        ensures channels { self.new.channels ≡ self.old.channels }
        ensures colours { self.new.colours ≡ self.old.colours }
        ensures in_step { IsInStep evaluator.now.net running.new.slots.items frame.new }
        ensures rooms { SameRooms evaluator.now.net.prims running.old.slots.items running.new.slots.items }
        ensures room { running.new.slots.room ≡ running.old.slots.room }
    {
        evaluator.design();
        step_running(evaluator, running, rows.row(), frame);
        lines.put_line(
            self.sums.as_mut_slice(),
            texts,
            self.colours as usize,
            self.cycles,
            digits,
            frame.frame.wires.as_slice(),
        );
        self.cycles += 1;
        rows.advance();
    }

    /// Runs the cycles up to cycle `to` under the rows that follow, appends their lines, one line for each, and counts
    /// their moves, in time that is linear in the channels, the cycles, the moves and the bytes of the lines. What the
    /// lines need beyond their room is taken before each cycle. So after a refusal all that was lent stands as after
    /// some of the cycles, with their lines.
    pub fn run(
        &mut self,
        alloc: Global,
        evaluator: &Evaluator<'_>,
        labels: &Labels,
        rows: &mut Rows<'_>,
        running: &mut Running,
        to: u32,
        lines: &mut Lines,
    ) -> Result<(), OutOfMemory>
        requires labels { length labels.now.channels ≡ self.old.channels }
        requires here { IsUnderway evaluator.now.net rows.old.tape self.old running.old.slots.items }
        requires row { rows.old.cycle ≡ self.old.cycles }
        requires order { self.old.cycles ≤ to }
        requires within { to ≤ cycles_of rows.old.tape }
        ensures here { IsUnderway evaluator.now.net rows.old.tape self.new running.new.slots.items }
        ensures lines { (names : Naming) (s : ℕ → ℕ → Content) (φ : ℕ → Signals)
            → AreLabelsOf names labels.now → IsRunOf evaluator.now.net rows.old.tape s φ
            → lines.new.items
            ≡ lines.old.items ++ round_lines names φ self.old.cycles (self.new.cycles - self.old.cycles) }
        ensures later { self.old.cycles ≤ self.new.cycles }
        ensures within { self.new.cycles ≤ to }
        ensures come { OnOk result (self.new.cycles ≡ to) }
        ensures tape { rows.new.tape ≡ rows.old.tape }
        ensures row { rows.new.cycle ≡ self.new.cycles }
        ensures channels { self.new.channels ≡ self.old.channels }
        ensures colours { self.new.colours ≡ self.old.colours }
        ensures rooms { SameRooms evaluator.now.net.prims running.old.slots.items running.new.slots.items }
        ensures room { running.new.slots.room ≡ running.old.slots.room }
    {
        xm_order::one_run();
        let design = evaluator.design();
        let texts = labels.texts();
        let most = room_of_moves(texts, design.net().channels());
        let mut frame = running_frame(alloc, design)?;
        while self.cycles() < to {
            let mut number = Buffer::new();
            let digits = number.format(self.cycles()).as_bytes();
            lines.reserve(digits.len() + most + 1)?;
            self.run_cycle(evaluator, texts, rows, running, &mut frame, digits, lines);
        }
        Ok(())
    }

    /// The lines of the cycles that follow, one line for each, in time that is linear in the channels, the
    /// cycles, the moves and the bytes of the lines. A refusal leaves the text as it was.
    pub fn add(&mut self, alloc: Global, names: &Names, part: &Trace) -> Result<Text, OutOfMemory>
        requires named { IsNamedBy self.old (naming_of names.now) }
        requires follows { FollowsSome self.old part.now.cycles part.now.moves.items }
        ensures text { (φ : ℕ → Signals) → Follows self.old φ part.now.cycles part.now.moves.items
            → IfOk result (λ text. text.items ≡ round_lines (naming_of names.now) φ self.old.cycles part.now.cycles) }
        ensures had { (φ : ℕ → Signals) → Follows self.old φ part.now.cycles part.now.moves.items
            → OnOk result (HasHad self.new φ) }
        ensures cycles { OnOk result (self.new.cycles ≡ self.old.cycles + part.now.cycles) }
        ensures channels { self.new.channels ≡ self.old.channels }
        ensures colours { self.new.colours ≡ self.old.colours }
        ensures err { OnErr result (self.new ≡ self.old) }
    {
        let mut text = Text::new(alloc);
        push_round(alloc, &mut text, names, self.cycles, part)?;
        count_moves(
            self.sums.as_mut_slice(),
            self.channels as usize,
            self.colours as usize,
            part.moves.as_slice(),
        );
        self.cycles += part.cycles;
        Ok(text)
    }

    /// The lines of the sums, and the last line.
    pub fn end(&self, alloc: Global, names: &Names) -> Result<Text, OutOfMemory>
        requires named { IsNamedBy self.now (naming_of names.now) }
        ensures { (φ : ℕ → Signals) → HasHad self.now φ
            → IfOk result (λ text. text.items ≡ end_text (naming_of names.now) φ self.now.cycles) }
    {
        let mut text = Text::new(alloc);
        push_end(&mut text, names, self.sums.as_slice(), self.cycles)?;
        Ok(text)
    }

    /// The pairs with moves, in pair order, with their sums.
    pub fn totals(&self, alloc: Global) -> Result<List<Total>, OutOfMemory>
        ensures { (φ : ℕ → Signals) → HasHad self.now φ
            → IfOk result (λ totals. totals.items
            ≡ totals_of (λ c d. moves φ c d self.now.cycles) self.now.colours self.now.channels) }
    {
        crate::totals::totals_of(alloc, self.channels, self.colours, self.sums.as_slice())
    }
}
