//! The top calls.

ghost use Rattle.std.specs.Prelude.{◌≡◌, Some, false, true};
ghost use Rattle.xm_commands.specs.Calls.{call_of};
ghost use Rattle.xm_commands.specs.Change.{change};
ghost use Rattle.xm_commands.specs.Inner.CallEnded.{HasCalled, HasConcluded, HasRead, IsWithin};
ghost use Rattle.xm_commands.specs.Inner.Plain.{IsPlain};
ghost use Rattle.xm_commands.specs.Inner.Simulating.{IsShared};
ghost use Rattle.xm_commands.specs.Inner.WhyEnded.{HasEnded};
ghost use Rattle.xm_commands.specs.Served.{IsServed};
ghost use Rattle.xm_commands.specs.Words.{is_sim as starts_with_sim, starts_workers as asks_for_workers};
ghost use Rattle.xm_commands.specs.declared.command.Command.TheVariants as command;

use crate::answer::answer;
use crate::call::{Call, read_call};
use crate::command::{Command, Outcome, Simulation, is_sim, starts_workers};
use crate::demonstrating::write_demonstration;
use crate::demonstration_words::read_demonstration;
use crate::generating::write_generated;
use crate::laws::one_output;
use crate::refusal::{Ended, Refusal, refuse};
use crate::simulating::answer_simulation;
use crate::simulation_words::read_simulation;
use std::alloc::Global;
use std::sync::Wait;
use std::thread::Threads;
use xm_elim::ends_exclude;
use xm_io::{Gate, ReadFault, Sink, Source, Words, read_all};
use xm_model::{OutOfMemory, Text};
use xm_order::no_loop;

/// The most bytes that a document may have: 16 MiB.
const LIMIT: u32 = 16_777_216;

/// Reads the source to its end: the bytes of a document.
fn read<S: Source>(alloc: Global, source: &mut S) -> Result<Text, Refusal>
    ensures { HasRead (change S.left S.faults source.old source.new) result }
{
    match read_all(alloc, source, LIMIT) {
        Ok(bytes) => Ok(bytes),
        Err(ReadFault::Failed) => Err(Refusal::Read),
        Err(ReadFault::TooLong) => Err(Refusal::TooLong),
        Err(ReadFault::OutOfMemory) => Err(Refusal::Memory),
    }
}

/// Reads the source to its end and writes the command's output for its bytes.
fn obey<S: Source, K: Sink>(alloc: Global, command: Command, source: &mut S, out: &mut K) -> Ended
    requires { IsPlain command }
    ensures { HasEnded (Some command) (change S.left S.faults source.old source.new)
        (change K.held K.faults out.old out.new) result }
{
    match read(alloc, source) {
        Ok(bytes) => answer(alloc, command, bytes.as_bytes(), out),
        Err(refusal) => Err(refusal),
    }
}

/// Makes the call, other than of `sim` and `demo`.
fn make<S: Source, K: Sink>(alloc: Global, it: Call, source: &mut S, out: &mut K) -> Ended
    requires { IsWithin it }
    ensures { HasCalled (Some it) (change S.left S.faults source.old source.new)
        (change K.held K.faults out.old out.new) result }
{
    match it {
        Call::Obey(command) => obey(alloc, command, source, out),
        Call::Generate { size, seed } => write_generated(alloc, size, seed, out),
        Call::Demonstrate(_) => unreachable!(),
    }
}

/// Makes the call, other than of `sim` and `demo`, that the words make.
fn obey_words<S: Source, K: Sink>(
    alloc: Global,
    words: &Words,
    source: &mut S,
    out: &mut K,
) -> Ended
    requires { asks_for_workers words.now ≡ false }
    ensures { HasCalled (call_of words.now) (change S.left S.faults source.old source.new)
        (change K.held K.faults out.old out.new) result }
{
    match read_call(alloc, words) {
        Ok(Some(it)) => make(alloc, it, source, out),
        Ok(None) => Err(Refusal::Words),
        Err(OutOfMemory) => Err(Refusal::Memory),
    }
}

/// Reads the source to its end and writes the output of a simulation for its bytes.
fn obey_simulation<S: Source, K: Sink, G: Gate, R: Threads + Wait + Sync>(
    rt: &R,
    alloc: Global,
    it: &Simulation,
    source: &mut S,
    out: &mut K,
    gate: &G,
) -> Ended
    requires { IsShared it.now }
    ensures { HasEnded (Some (command.Simulate it.now)) (change S.left S.faults source.old source.new)
        (change K.held K.faults out.old out.new) result }
{
    match read(alloc, source) {
        Ok(bytes) => answer_simulation(rt, alloc, it, bytes.as_bytes(), out, gate),
        Err(refusal) => Err(refusal),
    }
}

/// Makes the simulation that the words ask for.
fn simulate_words<S: Source, K: Sink, G: Gate, R: Threads + Wait + Sync>(
    rt: &R,
    alloc: Global,
    words: &Words,
    source: &mut S,
    out: &mut K,
    gate: &G,
) -> Ended
    requires { starts_with_sim words.now ≡ true }
    ensures { HasCalled (call_of words.now) (change S.left S.faults source.old source.new)
        (change K.held K.faults out.old out.new) result }
{
    match read_simulation(alloc, words) {
        Ok(Some(it)) => obey_simulation(rt, alloc, &it, source, out, gate),
        Ok(None) => Err(Refusal::Words),
        Err(OutOfMemory) => Err(Refusal::Memory),
    }
}

/// Makes the call of `sim` or `demo` that the words make.
fn work_words<S: Source, K: Sink, G: Gate, R: Threads + Wait + Sync>(
    rt: &R,
    alloc: Global,
    words: &Words,
    source: &mut S,
    out: &mut K,
    gate: &G,
) -> Ended
    requires { asks_for_workers words.now ≡ true }
    ensures { HasCalled (call_of words.now) (change S.left S.faults source.old source.new)
        (change K.held K.faults out.old out.new) result }
{
    if is_sim(words) {
        return simulate_words(rt, alloc, words, source, out, gate);
    }
    match read_demonstration(alloc, words) {
        Ok(Some(it)) => write_demonstration(rt, alloc, it, out, gate),
        Ok(None) => Err(Refusal::Words),
        Err(OutOfMemory) => Err(Refusal::Memory),
    }
}

/// The status of how a call ended. A refusal writes its line to `err`.
fn conclude<E: Sink>(ended: &Ended, err: &mut E) -> u8
    ensures { HasConcluded ended.now (change E.held E.faults err.old err.new) result }
{
    match ended {
        Ok(Outcome::Yes) => 0,
        Ok(Outcome::No) => 1,
        Err(refusal) => refuse(err, refusal),
    }
}

/// Does what the words ask for, where the first is neither `sim` nor `demo`. It answers as `xmas`, waits for nothing, and
/// always returns.
pub fn plain<S: Source, K: Sink, E: Sink>(
    alloc: Global,
    words: &Words,
    source: &mut S,
    out: &mut K,
    err: &mut E,
) -> u8
    requires { asks_for_workers words.now ≡ false }
    ensures { IsServed (call_of words.now) (change S.left S.faults source.old source.new)
        (change K.held K.faults out.old out.new) (change E.held E.faults err.old err.new) result }
{
    no_loop();
    ends_exclude();
    one_output();
    let ended = obey_words(alloc, words, source, out);
    conclude(&ended, err)
}

/// Does what the words ask for, where the first is `sim` or `demo`. It answers as `xmas`, and returns if no wait of its
/// threads lasts for ever.
pub fn sim_main<S: Source, K: Sink, E: Sink, G: Gate, R: Threads + Wait + Sync>(
    rt: &R,
    alloc: Global,
    words: &Words,
    source: &mut S,
    out: &mut K,
    err: &mut E,
    gate: &G,
) -> u8
    requires { asks_for_workers words.now ≡ true }
    ensures { IsServed (call_of words.now) (change S.left S.faults source.old source.new)
        (change K.held K.faults out.old out.new) (change E.held E.faults err.old err.new) result }
{
    no_loop();
    ends_exclude();
    one_output();
    let ended = work_words(rt, alloc, words, source, out, gate);
    conclude(&ended, err)
}

/// The call that does all that the program does. It answers the status: 0 where the output was written whole, and 1
/// where that output is a verdict that is no, or a search that found no proof; 2 where the words make no call; 3 where
/// the source's bytes are no document; 4 where the net is not well wired, has a colour that is not allowed, has a loop
/// of its signals, for `verify` and `prove` has a channel that is granted no persistent initiator, or for these, `inv`,
/// and `sim` with snapshots is too wide; 5 where the tape has a fault, or the proof's form is broken; 6 where the source
/// failed; 7 where the output failed; 8 where the elimination for `inv`, `prove`, and `sim` with snapshots, or the
/// search's tableau, leaves 128 bits; 9 for want of memory; 10 where there are more than 16 MiB. Each status but 0 and 1
/// writes its line to `err`, whose faults change no status. The source's faults rise with status 6 alone, and the
/// output's with 7 alone. `gen` and `demo` do not read the source, and answer 0, 7 or 9. `sim` and `demo` start threads,
/// and tell the gate what they do.
pub fn xmas<S: Source, K: Sink, E: Sink, G: Gate, R: Threads + Wait + Sync>(
    rt: &R,
    alloc: Global,
    words: &Words,
    source: &mut S,
    out: &mut K,
    err: &mut E,
    gate: &G,
) -> u8
    ensures { IsServed (call_of words.now) (change S.left S.faults source.old source.new)
        (change K.held K.faults out.old out.new) (change E.held E.faults err.old err.new) result }
{
    if starts_workers(words) {
        sim_main(rt, alloc, words, source, out, err, gate)
    } else {
        plain(alloc, words, source, out, err)
    }
}
