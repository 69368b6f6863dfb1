//! What is counted of the run of a document that is drawn, as workers simulate it, written.

ghost use Rattle.std.specs.Prelude.{◌≡◌, ◌<◌, ◌≤◌, IfOk, Ok};
ghost use Rattle.xm_commands.specs.Change.{change};
ghost use Rattle.xm_commands.specs.Demonstrating.{IsDemonstration};
ghost use Rattle.xm_commands.specs.Inner.CallEnded.{HasDrawn, IsDemonstrable};
ghost use Rattle.xm_commands.specs.Inner.Counting.{AreTotals, IsGenerated};
ghost use Rattle.xm_commands.specs.declared.call.Call.TheVariants as call;
ghost use Rattle.xm_commands.specs.declared.refusal.Refusal.TheVariants as refusals;
ghost use Rattle.xm_generate.specs.Generated.{generated};
ghost use Rattle.xm_model.specs.Naming.{IsNamed, naming_of};
ghost use Rattle.xm_tape.specs.Reading.{tape_in};
ghost use Rattle.xm_tape.specs.Sizes.{most_cycles};
ghost use Rattle.xm_tape.specs.Taped.{Fits, cycles_of};
ghost use Rattle.xm_tape.specs.declared.fault.TapeFault.TheVariants as tape_faults;

use crate::call::Demonstration;
use crate::command::{Outcome, Simulation};
use crate::counting::counts_of;
use crate::prepared::{Prepared, prepare};
use crate::refusal::{Ended, Refusal};
use crate::simulating::write_parts;
use crate::writing::write_text;
use std::alloc::Global;
use std::sync::Wait;
use std::thread::Threads;
use xm_generate::{gen_document, generated_runs};
use xm_io::{Gate, NoSink, Sink};
use xm_model::{List, OutOfMemory, Text};
use xm_order::one_run;
use xm_report::demo_text;
use xm_tape::{Tape, TapeFault, read_tape};
use xm_trace::Total;

/// Want of memory, where nothing else can be the cause.
fn only_memory(refusal: &Refusal) -> OutOfMemory
    requires { refusal.now ≡ refusals.Memory }
{
    match refusal {
        Refusal::Memory => OutOfMemory,
        _ => unreachable!(),
    }
}

/// The same of a tape.
fn only_memory_of_tape(fault: &TapeFault) -> OutOfMemory
    requires { fault.now ≡ tape_faults.OutOfMemory }
{
    match fault {
        TapeFault::OutOfMemory => OutOfMemory,
        _ => unreachable!(),
    }
}

/// Simulates the run of the tape, which has a cycle, in parts. Its text goes nowhere.
fn simulated_totals<G: Gate, R: Threads + Wait + Sync>(
    rt: &R,
    alloc: Global,
    it: Demonstration,
    prepared: &Prepared,
    tape: &Tape,
    gate: &G,
) -> Result<List<Total>, OutOfMemory>
    requires demonstrable { IsDemonstrable it }
    requires named { IsNamed prepared.now.design.net (naming_of prepared.now.names) }
    requires fits { Fits prepared.now.design.net tape.now }
    requires some { 0 < cycles_of tape.now }
    ensures { IfOk result (λ totals. AreTotals prepared.now.design.net tape.now totals.items) }
{
    one_run();
    prepared.design.is_designed();
    let simulation = Simulation {
        parts: it.parts,
        workers: it.workers,
        watch: 0,
    };
    let mut nowhere = NoSink::new();
    match write_parts(rt, alloc, &simulation, prepared, tape, &mut nowhere, gate) {
        Ok(told) => Ok(told.totals),
        Err(refusal) => Err(only_memory(&refusal)),
    }
}

/// The text for the tape of the document, which was prepared.
fn text_of_tape<G: Gate, R: Threads + Wait + Sync>(
    rt: &R,
    alloc: Global,
    it: Demonstration,
    prepared: &Prepared,
    tape: &Tape,
    gate: &G,
) -> Result<Text, OutOfMemory>
    requires demonstrable { IsDemonstrable it }
    requires generated { IsGenerated it.size it.seed prepared.now }
    requires fits { Fits prepared.now.design.net tape.now }
    requires few { cycles_of tape.now ≤ most_cycles }
    requires some { 0 < cycles_of tape.now }
    requires tape { tape_in (generated it.size it.seed).net (generated it.size it.seed).tape ≡ Ok tape.now }
    ensures { IfOk result (λ text. IsDemonstration it.size it.seed text.items) }
{
    let totals = simulated_totals(rt, alloc, it, prepared, tape, gate)?;
    let counts = counts_of(prepared.design.net(), tape, totals.as_slice());
    demo_text(alloc, it.size, it.seed, &counts)
}

/// The text for the document, which was prepared.
fn text_of_prepared<G: Gate, R: Threads + Wait + Sync>(
    rt: &R,
    alloc: Global,
    it: Demonstration,
    prepared: &Prepared,
    gate: &G,
) -> Result<Text, OutOfMemory>
    requires demonstrable { IsDemonstrable it }
    requires generated { IsGenerated it.size it.seed prepared.now }
    ensures { IfOk result (λ text. IsDemonstration it.size it.seed text.items) }
{
    generated_runs();
    match read_tape(alloc, &prepared.design, prepared.tape.as_ref()) {
        Ok(tape) => text_of_tape(rt, alloc, it, prepared, &tape, gate),
        Err(fault) => Err(only_memory_of_tape(&fault)),
    }
}

/// The text of a demonstration.
fn demonstration_text<G: Gate, R: Threads + Wait + Sync>(
    rt: &R,
    alloc: Global,
    it: Demonstration,
    gate: &G,
) -> Result<Text, OutOfMemory>
    requires { IsDemonstrable it }
    ensures { IfOk result (λ text. IsDemonstration it.size it.seed text.items) }
{
    generated_runs();
    let document = gen_document(alloc, it.size, it.seed)?;
    match prepare(alloc, document.as_bytes()) {
        Ok(prepared) => text_of_prepared(rt, alloc, it, &prepared, gate),
        Err(refusal) => Err(only_memory(&refusal)),
    }
}

/// Writes the text of a demonstration, which is made whole before.
pub fn write_demonstration<K: Sink, G: Gate, R: Threads + Wait + Sync>(
    rt: &R,
    alloc: Global,
    it: Demonstration,
    out: &mut K,
    gate: &G,
) -> Ended
    requires { IsDemonstrable it }
    ensures { HasDrawn (call.Demonstrate it) (change K.held K.faults out.old out.new) result }
{
    match demonstration_text(rt, alloc, it, gate) {
        Ok(text) => write_text(out, &text, Outcome::Yes),
        Err(OutOfMemory) => Err(Refusal::Memory),
    }
}
