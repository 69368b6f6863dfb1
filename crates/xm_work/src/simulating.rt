//! The simulation of a net in parts, by workers.
ghost use Rattle.std.specs.Prelude.{◌≡◌, ◌<◌, ◌^◌, ◌-◌, ℕ, List as Items, IfOk, OnErr, OnOk, length};
ghost use Rattle.std.specs.Io.KnownBytes.{Appends};
ghost use Rattle.xm_io.specs.Bytes.{AppendsFront};
ghost use Rattle.xm_io.specs.Faults.{Rose};
ghost use Rattle.xm_model.specs.Component.{Content};
ghost use Rattle.xm_model.specs.Naming.{naming_of};
ghost use Rattle.xm_model.specs.Run.{moves};
ghost use Rattle.xm_model.specs.Signals.{Signals};
ghost use Rattle.xm_tape.specs.Taped.{Fits, cycles_of};
ghost use Rattle.xm_trace.specs.RunTextState.{totals_of};
ghost use Rattle.xm_trace.specs.Runs.{IsRunOf};
ghost use Rattle.xm_trace.specs.Text.{IsTextOfRun, end_text};
ghost use Rattle.xm_work.specs.Counts.{AreCounts, NoneMissing};
ghost use Rattle.xm_work.specs.Rounds.{OnWrite, UnlessWrite};
ghost use Rattle.xm_work.specs.Simulating.{cycle_of, is_snapshot_of};

use crate::rounds::{SimFault, Simulated, round_end, run_rounds};
use crate::simulation::{Simulation, Whole};
use std::alloc::Global;
use std::sync::Wait;
use std::thread::Threads;
use xm_io::{Gate, Sink, write_all};
use xm_model::{List, OutOfMemory};
use xm_order::one_run;
use xm_parts::Snapshot;
use xm_trace::Total;

/// What a simulation tells beside its text: how often each colour moved on each channel where it did, by channel and
/// then colour, and the snapshots.
#[derive(Drop)]
pub struct SimulatedRun {
    pub totals: List<Total>,
    pub snapshots: Vec<Snapshot>,
}

/// Writes what follows the lines of all cycles.
fn write_end<K: Sink>(it: &Simulation<'_>, out: &mut K) -> Result<(), SimFault>
    ensures whole { (s : ℕ → ℕ → Content) (φ : ℕ → Signals)
        → IsRunOf it.now.whole.design.now.net it.now.whole.tape.now s φ → OnOk result (Appends (K.held out.old)
        (K.held out.new) (end_text (naming_of it.now.whole.names.now) φ it.now.text.cycles)) }
    ensures front { (s : ℕ → ℕ → Content) (φ : ℕ → Signals)
        → IsRunOf it.now.whole.design.now.net it.now.whole.tape.now s φ → OnErr result (AppendsFront (K.held out.old)
        (K.held out.new) (end_text (naming_of it.now.whole.names.now) φ it.now.text.cycles)) }
    ensures cause { OnWrite result (Rose (K.faults out.old) (K.faults out.new)) }
    ensures kept { UnlessWrite result (K.faults out.new ≡ K.faults out.old) }
{
    match it.end() {
        Ok(end) => match write_all(out, end.as_bytes()) {
            Ok(()) => Ok(()),
            Err(_) => Err(SimFault::Write),
        },
        Err(_) => Err(SimFault::OutOfMemory),
    }
}

/// What a simulation at the end of its run tells beside its text.
fn finished(it: Simulation<'_>, snapshots: Vec<Snapshot>) -> Result<SimulatedRun, OutOfMemory>
    ensures snapshots { IfOk result (λ it. it.snapshots ≡ snapshots) }
    ensures totals { (s : ℕ → ℕ → Content) (φ : ℕ → Signals)
        → IsRunOf it.entry.whole.design.now.net it.entry.whole.tape.now s φ → IfOk result (λ told. told.totals.items
        ≡ totals_of (λ c d. moves φ c d it.entry.text.cycles) it.entry.whole.design.now.net.colours
        it.entry.whole.design.now.net.channels) }
{
    let totals = it.totals()?;
    Ok(SimulatedRun { totals, snapshots })
}

/// Simulates the run of a tape in parts, by as many workers as are wanted, each in a thread of its own, and appends the
/// text of the run to `out`, where the lines of a round of at most 1,024 cycles leave before the next round begins.
/// While the workers run, the caller takes as many snapshots as are wanted, spread over the run, the last at its last
/// cycle. After a refusal a front of the text was appended; `Write` comes only where `out` had a fault in this call.
pub fn simulate<K: Sink, G: Gate, R: Threads + Wait + Sync>(
    rt: &R,
    alloc: Global,
    whole: Whole<'_>,
    workers: u32,
    watch: u32,
    out: &mut K,
    gate: &G,
) -> Result<SimulatedRun, SimFault>
    requires design { whole.parts.now.design ≡ whole.design.now }
    requires fits { Fits whole.design.now.net whole.tape.now }
    requires channels { length whole.names.now.channels.items ≡ whole.design.now.net.channels }
    requires colours { length whole.names.now.colours.items ≡ whole.design.now.net.colours }
    requires some { 0 < cycles_of whole.tape.now }
    requires workers { workers < 2 ^ 31 }
    ensures text { (text : Items ℕ)
        → IsTextOfRun whole.entry.design.now.net (naming_of whole.entry.names.now) whole.entry.tape.now text
        → OnOk result (Appends (K.held out.old) (K.held out.new) text) }
    ensures front { (text : Items ℕ)
        → IsTextOfRun whole.entry.design.now.net (naming_of whole.entry.names.now) whole.entry.tape.now text
        → OnErr result (AppendsFront (K.held out.old) (K.held out.new) text) }
    ensures cause { OnWrite result (Rose (K.faults out.old) (K.faults out.new)) }
    ensures kept { UnlessWrite result (K.faults out.new ≡ K.faults out.old) }
    ensures totals { (s : ℕ → ℕ → Content) (φ : ℕ → Signals)
        → IsRunOf whole.entry.design.now.net whole.entry.tape.now s φ
        → IfOk result (λ it. it.totals.items ≡ totals_of (λ c d. moves φ c d (cycles_of whole.entry.tape.now))
        whole.entry.design.now.net.colours whole.entry.design.now.net.channels) }
    ensures snapshots { IfOk result (λ told. AreCounts is_snapshot_of cycle_of watch (cycles_of whole.entry.tape.now)
        whole.entry (cycles_of whole.entry.tape.now - 1) told.snapshots.items) }
    ensures none_missing { IfOk result (λ told. NoneMissing watch (cycles_of whole.entry.tape.now)
        (cycles_of whole.entry.tape.now - 1) told.snapshots.items) }
{
    one_run();
    whole.design.is_designed();
    let cycles = whole.tape.cycles();
    let begun = Simulation::new(alloc, whole, round_end(0, cycles))?;
    match run_rounds(rt, alloc, begun, workers, watch, cycles, out, gate) {
        Ok(Simulated { bench, counts }) => {
            write_end(&bench, out)?;
            Ok(finished(bench, counts)?)
        }
        Err(fault) => Err(fault),
    }
}
