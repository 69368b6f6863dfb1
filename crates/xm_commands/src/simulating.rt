//! The run of a document as workers simulate it in parts, written, with its invariants and snapshots.

ghost use Rattle.std.specs.Io.KnownBytes.{Appends};
ghost use Rattle.std.specs.Prelude.{◌≡◌, ◌<◌, ◌^◌, ◌*◌, ◌++◌, ℕ, List as Items, IfErr, IfOk, OnErr, OnOk, Ok, Some, length, map, slice_get};
ghost use Rattle.xm_commands.specs.Change.{change};
ghost use Rattle.xm_commands.specs.Inner.Prepared.{IsPrepared, IsRefusedAs};
ghost use Rattle.xm_commands.specs.Inner.Simulating.{AreInvariantLines, AreShown, AreTaken, IsShared};
ghost use Rattle.xm_commands.specs.Inner.WhyEnded.{HasAnswered, IsWriteFault};
ghost use Rattle.xm_commands.specs.Output.{HasFlow, snap_lines};
ghost use Rattle.xm_commands.specs.Refusal.{AsksForFlow, AsksForInvariants};
ghost use Rattle.xm_commands.specs.declared.command.Command.{Command};
ghost use Rattle.xm_commands.specs.declared.command.Command.TheVariants as command;
ghost use Rattle.xm_io.specs.Bytes.{AppendsFront};
ghost use Rattle.xm_model.specs.Component.{Content, content_of};
ghost use Rattle.xm_model.specs.Naming.{IsNamed, naming_of};
ghost use Rattle.xm_model.specs.Run.{moves};
ghost use Rattle.xm_model.specs.Signals.{Signals};
ghost use Rattle.xm_report.specs.Snap.{snap_line};
ghost use Rattle.xm_tape.specs.Reading.{tape_in};
ghost use Rattle.xm_tape.specs.Taped.{Fits, cycles_of};
ghost use Rattle.xm_trace.specs.RunTextState.{totals_of};
ghost use Rattle.xm_trace.specs.Runs.{IsRunOf};
ghost use Rattle.xm_trace.specs.Text.{IsTextOfRun};
ghost use Rattle.xm_work.specs.Simulating.{cycle_of};

use crate::answer::tape_refusal;
use crate::command::{Outcome, Simulation};
use crate::invariants::{elimination_refusal, flow_refusal};
use crate::prepared::{Prepared, prepare};
use crate::refusal::{Ended, Refusal};
use crate::running::write_run;
use crate::writing::write_bytes;
use std::alloc::Global;
use std::sync::Wait;
use std::thread::Threads;
use xm_design::Design;
use xm_elim::invariants;
use xm_flow::{FlowRows, flow, lemmas_hold};
use xm_io::{Gate, Sink};
use xm_model::{Names, OutOfMemory, Text};
use xm_order::one_run;
use xm_parts::{Parts, Snapshot};
use xm_report::{invariant_lines, snap_text};
use xm_tape::{Tape, read_tape};
use xm_work::{SimFault, SimulatedRun, Whole, simulate};

/// Writes the line of a snapshot.
fn write_snapshot<K: Sink>(
    alloc: Global,
    names: &Names,
    design: &Design,
    snapshot: &Snapshot,
    out: &mut K,
) -> Result<(), Refusal>
    ensures whole { (s : ℕ → Content) → ((q : ℕ) → q < length design.now.net.prims
        → slice_get (map content_of snapshot.now.state.cells.items) q ≡ Some (s q)) → OnOk result (Appends
        (K.held out.old) (K.held out.new) (snap_line (naming_of names.now) design.now snapshot.now.cycle s)) }
    ensures front { (s : ℕ → Content) → ((q : ℕ) → q < length design.now.net.prims
        → slice_get (map content_of snapshot.now.state.cells.items) q ≡ Some (s q)) → OnErr result (AppendsFront
        (K.held out.old) (K.held out.new) (snap_line (naming_of names.now) design.now snapshot.now.cycle s)) }
    ensures unharmed { OnOk result (K.faults out.new ≡ K.faults out.old) }
    ensures cause { IfErr result (IsWriteFault (K.faults out.old) (K.faults out.new)) }
{
    match snap_text(alloc, names, design, snapshot.cycle, &snapshot.state) {
        Ok(line) => write_bytes(out, line.as_bytes()),
        Err(OutOfMemory) => Err(Refusal::Memory),
    }
}

/// Writes the lines of snapshots.
fn write_snapshots<K: Sink>(
    alloc: Global,
    names: &Names,
    design: &Design,
    snapshots: &[Snapshot],
    out: &mut K,
) -> Result<(), Refusal>
    ensures whole { (s : ℕ → ℕ → Content) → AreShown design.now.net s snapshots.now → OnOk result (Appends
        (K.held out.old) (K.held out.new) (snap_lines (naming_of names.now) design.now s (map cycle_of snapshots.now))) }
    ensures front { (s : ℕ → ℕ → Content) → AreShown design.now.net s snapshots.now → OnErr result (AppendsFront
        (K.held out.old) (K.held out.new) (snap_lines (naming_of names.now) design.now s (map cycle_of snapshots.now))) }
    ensures unharmed { OnOk result (K.faults out.new ≡ K.faults out.old) }
    ensures cause { IfErr result (IsWriteFault (K.faults out.old) (K.faults out.new)) }
{
    for k in 0..snapshots.len() {
        write_snapshot(alloc, names, design, &snapshots[k], out)?;
    }
    Ok(())
}

/// Simulates the run of the tape, which has a cycle, in parts, writes its text, and gives its totals and snapshots.
pub(crate) fn write_parts<K: Sink, G: Gate, R: Threads + Wait + Sync>(
    rt: &R,
    alloc: Global,
    it: &Simulation,
    prepared: &Prepared,
    tape: &Tape,
    out: &mut K,
    gate: &G,
) -> Result<SimulatedRun, Refusal>
    requires shared { IsShared it.now }
    requires named { IsNamed prepared.now.design.net (naming_of prepared.now.names) }
    requires fits { Fits prepared.now.design.net tape.now }
    requires some { 0 < cycles_of tape.now }
    ensures whole { (text : Items ℕ) → IsTextOfRun prepared.now.design.net (naming_of prepared.now.names) tape.now text
        → OnOk result (Appends (K.held out.old) (K.held out.new) text) }
    ensures front { (text : Items ℕ) → IsTextOfRun prepared.now.design.net (naming_of prepared.now.names) tape.now text
        → OnErr result (AppendsFront (K.held out.old) (K.held out.new) text) }
    ensures unharmed { OnOk result (K.faults out.new ≡ K.faults out.old) }
    ensures cause { IfErr result (IsWriteFault (K.faults out.old) (K.faults out.new)) }
    ensures taken { IfOk result (λ told.
        AreTaken prepared.now.design.net tape.now it.now.watch told.snapshots.items) }
    ensures totals { (s : ℕ → ℕ → Content) (φ : ℕ → Signals) → IsRunOf prepared.now.design.net tape.now s φ
        → IfOk result (λ told. told.totals.items ≡ totals_of (λ c d. moves φ c d (cycles_of tape.now))
        prepared.now.design.net.colours prepared.now.design.net.channels) }
{
    let parts = Parts::balanced(alloc, &prepared.design, it.parts)?;
    let whole = Whole {
        design: &prepared.design,
        names: &prepared.names,
        tape,
        parts: &parts,
    };
    match simulate(rt, alloc, whole, it.workers, it.watch, out, gate) {
        Ok(told) => Ok(told),
        Err(SimFault::Write) => Err(Refusal::Write),
        Err(SimFault::OutOfMemory) => Err(Refusal::Memory),
    }
}

/// Writes the text of the run of the tape, and gives the snapshots. A run of no cycle has none, and needs no workers.
fn write_simulated<K: Sink, G: Gate, R: Threads + Wait + Sync>(
    rt: &R,
    alloc: Global,
    it: &Simulation,
    prepared: &Prepared,
    tape: &Tape,
    out: &mut K,
    gate: &G,
) -> Result<Vec<Snapshot>, Refusal>
    requires shared { IsShared it.now }
    requires named { IsNamed prepared.now.design.net (naming_of prepared.now.names) }
    requires fits { Fits prepared.now.design.net tape.now }
    requires room { cycles_of tape.now * prepared.now.design.net.channels < 2 ^ 32 }
    ensures whole { (text : Items ℕ) → IsTextOfRun prepared.now.design.net (naming_of prepared.now.names) tape.now text
        → OnOk result (Appends (K.held out.old) (K.held out.new) text) }
    ensures front { (text : Items ℕ) → IsTextOfRun prepared.now.design.net (naming_of prepared.now.names) tape.now text
        → OnErr result (AppendsFront (K.held out.old) (K.held out.new) text) }
    ensures unharmed { OnOk result (K.faults out.new ≡ K.faults out.old) }
    ensures cause { IfErr result (IsWriteFault (K.faults out.old) (K.faults out.new)) }
    ensures taken { IfOk result (λ snapshots. AreTaken prepared.now.design.net tape.now it.now.watch snapshots.items) }
{
    if tape.cycles() > 0 {
        let told = write_parts(rt, alloc, it, prepared, tape, out, gate)?;
        return Ok(told.snapshots);
    }
    match write_run(alloc, &prepared.design, &prepared.names, tape, out) {
        Ok(_) => Ok(Vec::new(alloc)),
        Err(refusal) => Err(refusal),
    }
}

/// The lines of the invariants of these flow rows.
fn lines_of_rows(alloc: Global, prepared: &Prepared, rows: &FlowRows) -> Result<Text, Refusal>
    requires { HasFlow prepared.now.design rows.now }
    ensures ok { IfOk result (λ text. AreInvariantLines (naming_of prepared.now.names) prepared.now.design text.items) }
    ensures err { (bytes : Items ℕ) (it : Command) (is : IsPrepared bytes prepared.now)
        → AsksForInvariants it is.doc prepared.now.design → IfErr result (IsRefusedAs bytes it) }
{
    match invariants(alloc, &prepared.design, rows) {
        Ok(lemmas) => Ok(invariant_lines(
            alloc,
            &prepared.names,
            &prepared.design,
            lemmas.as_slice(),
        )?),
        Err(fault) => Err(elimination_refusal(alloc, &fault)),
    }
}

/// The lines of the invariants of a document that was prepared.
fn lines_of(alloc: Global, prepared: &Prepared) -> Result<Text, Refusal>
    ensures ok { IfOk result (λ text. AreInvariantLines (naming_of prepared.now.names) prepared.now.design text.items) }
    ensures err { (bytes : Items ℕ) (it : Command) (is : IsPrepared bytes prepared.now)
        → AsksForFlow it is.doc prepared.now.design → AsksForInvariants it is.doc prepared.now.design
        → IfErr result (IsRefusedAs bytes it) }
{
    match flow(alloc, &prepared.design) {
        Ok(rows) => lines_of_rows(alloc, prepared, &rows),
        Err(fault) => Err(flow_refusal(alloc, fault)),
    }
}

/// Writes what stands behind the text of a run: the lines of its invariants, and those of its snapshots.
fn write_rest<K: Sink>(
    alloc: Global,
    prepared: &Prepared,
    lines: &Text,
    snapshots: &[Snapshot],
    out: &mut K,
) -> Ended
    ensures turned { IfOk result (λ it. it ≡ Outcome.Yes) }
    ensures whole { (s : ℕ → ℕ → Content) → AreShown prepared.now.design.net s snapshots.now → OnOk result (Appends
        (K.held out.old) (K.held out.new) (lines.now.items ++ snap_lines (naming_of prepared.now.names)
        prepared.now.design s (map cycle_of snapshots.now))) }
    ensures front { (s : ℕ → ℕ → Content) → AreShown prepared.now.design.net s snapshots.now → OnErr result (AppendsFront
        (K.held out.old) (K.held out.new) (lines.now.items ++ snap_lines (naming_of prepared.now.names)
        prepared.now.design s (map cycle_of snapshots.now))) }
    ensures unharmed { OnOk result (K.faults out.new ≡ K.faults out.old) }
    ensures cause { IfErr result (IsWriteFault (K.faults out.old) (K.faults out.new)) }
{
    write_bytes(out, lines.as_bytes())?;
    write_snapshots(alloc, &prepared.names, &prepared.design, snapshots, out)?;
    Ok(Outcome::Yes)
}

/// Writes the run of a tape, as it is simulated, and behind it these lines of its invariants and its snapshots.
fn write_watched<K: Sink, G: Gate, R: Threads + Wait + Sync>(
    rt: &R,
    alloc: Global,
    it: &Simulation,
    prepared: &Prepared,
    tape: &Tape,
    lines: &Text,
    out: &mut K,
    gate: &G,
) -> Ended
    requires shared { IsShared it.now }
    requires watched { 0 < it.now.watch }
    requires named { IsNamed prepared.now.design.net (naming_of prepared.now.names) }
    requires fits { Fits prepared.now.design.net tape.now }
    requires room { cycles_of tape.now * prepared.now.design.net.channels < 2 ^ 32 }
    requires lines { AreInvariantLines (naming_of prepared.now.names) prepared.now.design lines.now.items }
    ensures { (bytes : Items ℕ) (is : IsPrepared bytes prepared.now) → tape_in is.doc.net is.doc.tape ≡ Ok tape.now
        → HasAnswered bytes (command.Simulate it.now) (change K.held K.faults out.old out.new) result }
{
    one_run();
    lemmas_hold();
    prepared.design.is_designed();
    match write_simulated(rt, alloc, it, prepared, tape, out, gate) {
        Ok(snapshots) => write_rest(alloc, prepared, lines, snapshots.as_slice(), out),
        Err(refusal) => Err(refusal),
    }
}

/// Writes the run of a tape, as it is simulated.
fn write_unwatched<K: Sink, G: Gate, R: Threads + Wait + Sync>(
    rt: &R,
    alloc: Global,
    it: &Simulation,
    prepared: &Prepared,
    tape: &Tape,
    out: &mut K,
    gate: &G,
) -> Ended
    requires shared { IsShared it.now }
    requires unwatched { it.now.watch ≡ 0 }
    requires named { IsNamed prepared.now.design.net (naming_of prepared.now.names) }
    requires fits { Fits prepared.now.design.net tape.now }
    requires room { cycles_of tape.now * prepared.now.design.net.channels < 2 ^ 32 }
    ensures { (bytes : Items ℕ) (is : IsPrepared bytes prepared.now) → tape_in is.doc.net is.doc.tape ≡ Ok tape.now
        → HasAnswered bytes (command.Simulate it.now) (change K.held K.faults out.old out.new) result }
{
    one_run();
    prepared.design.is_designed();
    match write_simulated(rt, alloc, it, prepared, tape, out, gate) {
        Ok(_) => Ok(Outcome::Yes),
        Err(refusal) => Err(refusal),
    }
}

/// Writes the output of a simulation of this tape. The invariants, where they are wanted, are found before anything is
/// written.
fn simulate_tape<K: Sink, G: Gate, R: Threads + Wait + Sync>(
    rt: &R,
    alloc: Global,
    it: &Simulation,
    prepared: &Prepared,
    tape: &Tape,
    out: &mut K,
    gate: &G,
) -> Ended
    requires shared { IsShared it.now }
    requires named { IsNamed prepared.now.design.net (naming_of prepared.now.names) }
    requires fits { Fits prepared.now.design.net tape.now }
    requires room { cycles_of tape.now * prepared.now.design.net.channels < 2 ^ 32 }
    ensures { (bytes : Items ℕ) (is : IsPrepared bytes prepared.now) → tape_in is.doc.net is.doc.tape ≡ Ok tape.now
        → HasAnswered bytes (command.Simulate it.now) (change K.held K.faults out.old out.new) result }
{
    if it.watch == 0 {
        return write_unwatched(rt, alloc, it, prepared, tape, out, gate);
    }
    match lines_of(alloc, prepared) {
        Ok(lines) => write_watched(rt, alloc, it, prepared, tape, &lines, out, gate),
        Err(refusal) => Err(refusal),
    }
}

/// Writes the output of a simulation for a document that was prepared.
fn simulate_prepared<K: Sink, G: Gate, R: Threads + Wait + Sync>(
    rt: &R,
    alloc: Global,
    it: &Simulation,
    prepared: &Prepared,
    out: &mut K,
    gate: &G,
) -> Ended
    requires shared { IsShared it.now }
    requires named { IsNamed prepared.now.design.net (naming_of prepared.now.names) }
    ensures { (bytes : Items ℕ) → IsPrepared bytes prepared.now
        → HasAnswered bytes (command.Simulate it.now) (change K.held K.faults out.old out.new) result }
{
    prepared.design.net().is_net();
    match read_tape(alloc, &prepared.design, prepared.tape.as_ref()) {
        Ok(tape) => simulate_tape(rt, alloc, it, prepared, &tape, out, gate),
        Err(fault) => Err(tape_refusal(alloc, &fault)),
    }
}

/// Writes the output of a simulation for the bytes. A refusal for the document, its net, its tape or its invariants
/// leaves `out`.
pub fn answer_simulation<K: Sink, G: Gate, R: Threads + Wait + Sync>(
    rt: &R,
    alloc: Global,
    it: &Simulation,
    bytes: &[u8],
    out: &mut K,
    gate: &G,
) -> Ended
    requires { IsShared it.now }
    ensures { HasAnswered bytes.now (command.Simulate it.now) (change K.held K.faults out.old out.new) result }
{
    match prepare(alloc, bytes) {
        Ok(prepared) => simulate_prepared(rt, alloc, it, &prepared, out, gate),
        Err(refusal) => Err(refusal),
    }
}
