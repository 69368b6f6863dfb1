//! A run that is written round by round.

ghost use Rattle.std.specs.Io.KnownBytes.{Appends};
ghost use Rattle.std.specs.Prelude.{◌≡◌, ◌+◌, ◌-◌, ◌*◌, ◌^◌, ◌<◌, ◌≤◌, ℕ, List as Items, IfErr, IfOk, OnErr, OnOk, length};
ghost use Rattle.xm_commands.specs.Inner.RunSoFar.{IsBegun};
ghost use Rattle.xm_commands.specs.Inner.WhyEnded.{IsWriteFault};
ghost use Rattle.xm_io.specs.Bytes.{AppendsFront};
ghost use Rattle.xm_model.specs.Component.{Content};
ghost use Rattle.xm_model.specs.Naming.{Naming, naming_of};
ghost use Rattle.xm_model.specs.Signals.{Signals};
ghost use Rattle.xm_tape.specs.Taped.{cycles_of};
ghost use Rattle.xm_trace.specs.Labels.{AreLabelsOf};
ghost use Rattle.xm_trace.specs.Runs.{IsRunOf};
ghost use Rattle.xm_trace.specs.Text.{IsTextOfRun, round_lines};

use crate::command::Outcome;
use crate::refusal::{Ended, Refusal};
use crate::writing::{write_bytes, write_text};
use std::alloc::Global;
use xm_design::Design;
use xm_io::Sink;
use xm_model::Names;
use xm_running::Running;
use xm_step::{Evaluator, reset, running_of};
use xm_tape::{Rows, Tape};
use xm_trace::{Labels, Lines, RunText, rounds_join};

/// A run that was begun: its state and its text after so many cycles, what its lines are made of, and the lines
/// of one round, whose memory serves each.
#[derive(Drop)]
pub(crate) struct RunSoFar {
    running: Running,
    text: RunText,
    labels: Labels,
    lines: Lines,
}

/// The product of cycles and channels that a round has at most, unless one cycle has more.
const ROUND: u32 = 32_768;

/// How many cycles a round has in a net with so many channels, unless the run ends before.
fn round_len(channels: u32) -> u32
    ensures { 0 < result }
{
    (ROUND / channels.max(1)).max(1)
}

/// The cycle past the round that begins with cycle `from`.
fn round_end(channels: u32, from: u32, cycles: u32) -> u32
    requires { from < cycles }
    ensures later { from < result }
    ensures within { result ≤ cycles }
{
    from + round_len(channels).min(cycles - from)
}

/// Runs the cycles up to `to` and writes their lines.
fn write_round<K: Sink>(
    alloc: Global,
    evaluator: &Evaluator<'_>,
    rows: &mut Rows<'_>,
    run: &mut RunSoFar,
    to: u32,
    out: &mut K,
) -> Result<(), Refusal>
    requires underway { IsBegun evaluator.now rows.old.tape run.old }
    requires row { rows.old.cycle ≡ run.old.text.cycles }
    requires later { run.old.text.cycles < to }
    requires within { to ≤ cycles_of rows.old.tape }
    ensures underway { OnOk result (IsBegun evaluator.now rows.old.tape run.new) }
    ensures tape { OnOk result (rows.new.tape ≡ rows.old.tape) }
    ensures row { OnOk result (rows.new.cycle ≡ run.new.text.cycles) }
    ensures labels { run.new.labels ≡ run.old.labels }
    ensures come { OnOk result (run.new.text.cycles ≡ to) }
    ensures whole { (names : Naming) (s : ℕ → ℕ → Content) (φ : ℕ → Signals)
        → AreLabelsOf names run.old.labels → IsRunOf evaluator.now.net rows.old.tape s φ
        → OnOk result (Appends (K.held out.old) (K.held out.new)
        (round_lines names φ run.old.text.cycles (to - run.old.text.cycles))) }
    ensures front { (names : Naming) (s : ℕ → ℕ → Content) (φ : ℕ → Signals)
        → AreLabelsOf names run.old.labels → IsRunOf evaluator.now.net rows.old.tape s φ
        → OnErr result (AppendsFront (K.held out.old) (K.held out.new)
        (round_lines names φ run.old.text.cycles (to - run.old.text.cycles))) }
    ensures unharmed { OnOk result (K.faults out.new ≡ K.faults out.old) }
    ensures cause { IfErr result (IsWriteFault (K.faults out.old) (K.faults out.new)) }
{
    run.lines.clear();
    run.text.run(
        alloc,
        evaluator,
        &run.labels,
        rows,
        &mut run.running,
        to,
        &mut run.lines,
    )?;
    write_bytes(out, run.lines.as_bytes())
}

/// Goes on with a run from its first cycle and writes its text. The lines of a round leave before the next
/// round begins.
fn write_rounds<K: Sink>(
    alloc: Global,
    evaluator: &Evaluator<'_>,
    names: &Names,
    tape: &Tape,
    run: &mut RunSoFar,
    out: &mut K,
) -> Ended
    requires channels { length names.now.channels.items ≡ evaluator.now.net.channels }
    requires colours { length names.now.colours.items ≡ evaluator.now.net.colours }
    requires underway { IsBegun evaluator.now tape.now run.old }
    requires labels { AreLabelsOf (naming_of names.now) run.old.labels }
    requires begins { run.old.text.cycles ≡ 0 }
    ensures turned { IfOk result (λ it. it ≡ Outcome.Yes) }
    ensures whole { (text : Items ℕ) → IsTextOfRun evaluator.now.net (naming_of names.now) tape.now text
        → OnOk result (Appends (K.held out.old) (K.held out.new) text) }
    ensures front { (text : Items ℕ) → IsTextOfRun evaluator.now.net (naming_of names.now) tape.now text
        → OnErr result (AppendsFront (K.held out.old) (K.held out.new) text) }
    ensures unharmed { OnOk result (K.faults out.new ≡ K.faults out.old) }
    ensures cause { IfErr result (IsWriteFault (K.faults out.old) (K.faults out.new)) }
{
    rounds_join();
    let net = evaluator.design().net();
    net.is_net();
    let channels = net.channels();
    let cycles = tape.cycles();
    let mut rows = tape.rows(alloc, 0)?;
    while run.text.cycles() < cycles {
        let to = round_end(channels, run.text.cycles(), cycles);
        write_round(alloc, evaluator, &mut rows, run, to, out)?;
    }
    let end = run.text.end(alloc, names)?;
    write_text(out, &end, Outcome::Yes)
}

/// Runs the tape and writes its text round by round.
pub fn write_run<K: Sink>(
    alloc: Global,
    design: &Design,
    names: &Names,
    tape: &Tape,
    out: &mut K,
) -> Ended
    requires channels { length names.now.channels.items ≡ design.now.net.channels }
    requires colours { length names.now.colours.items ≡ design.now.net.colours }
    requires room { cycles_of tape.now * design.now.net.channels < 2 ^ 32 }
    ensures turned { IfOk result (λ it. it ≡ Outcome.Yes) }
    ensures whole { (text : Items ℕ) → IsTextOfRun design.now.net (naming_of names.now) tape.now text
        → OnOk result (Appends (K.held out.old) (K.held out.new) text) }
    ensures front { (text : Items ℕ) → IsTextOfRun design.now.net (naming_of names.now) tape.now text
        → OnErr result (AppendsFront (K.held out.old) (K.held out.new) text) }
    ensures unharmed { OnOk result (K.faults out.new ≡ K.faults out.old) }
    ensures cause { IfErr result (IsWriteFault (K.faults out.old) (K.faults out.new)) }
{
    let evaluator = Evaluator::new(alloc, design)?;
    let state = reset(alloc, design)?;
    let mut run = RunSoFar {
        running: running_of(alloc, design, &state)?,
        text: RunText::new(alloc, design)?,
        labels: Labels::new(alloc, names)?,
        lines: Lines::new(alloc),
    };
    write_rounds(alloc, &evaluator, names, tape, &mut run, out)
}
