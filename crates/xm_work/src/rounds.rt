//! A simulation in rounds: each has a turn of its own, and its text is written before the next begins.
ghost use Rattle.std.specs.Prelude.{◌≡◌, ℕ, ◌<◌, ◌≤◌, ◌+◌, ◌-◌, ◌^◌, suc, List, IfOk, OnOk, OnErr};
ghost use Rattle.std.specs.Io.KnownBytes.{Appends};
ghost use Rattle.xm_io.specs.Bytes.{AppendsFront};
ghost use Rattle.xm_io.specs.Faults.{Rose};
ghost use Rattle.xm_work.specs.Counts.{AreCounts, NoneMissing};
ghost use Rattle.xm_work.specs.Rounds as rounds;
ghost use Rattle.xm_work.specs.Rounds.{OnWrite, UnlessWrite, lines};

use crate::bench::Bench;
use crate::counts::Watch;
use crate::round::run_round;
use std::alloc::Global;
use std::sync::Wait;
use std::thread::Threads;
use xm_io::{Gate, Sink, write_all};
use xm_model::OutOfMemory;
use xm_turn::Named;

/// The most cycles of a round.
const ROUND: u32 = 1024;

/// A bench whose run goes on after its last cycle, and is told in a text, a piece for each cycle.
pub trait Rounds: Bench {
    /// What a run is a front of: the network, the whole tape and the parts. No value of it is made.
    type Whole;

    ghost whole: { Self.Run → Self.Whole };

    /// How many cycles there are.
    ghost cycles_of: { Self.Whole → ℕ };

    /// The function gives the text of each cycle.
    ghost has_lines: { Self.Whole → (ℕ → List ℕ) → Type 0 };

    /// The first cycle of a run whose text was not made so far.
    ghost next_line: { Self.Run → ℕ };

    /// The text that was made last.
    ghost text_of: { Self → List ℕ };

    /// Makes the text of the cycles whose text was not made so far, up to the last one.
    fn make_text(&mut self) -> Result<(), OutOfMemory>
        requires finished { Self.floor_of self.old ≡ Self.target (Self.run self.old) }
        ensures whole { OnOk result (whole (Self.run self.new) ≡ whole (Self.run self.old)) }
        ensures target { OnOk result (Self.target (Self.run self.new) ≡ Self.target (Self.run self.old)) }
        ensures floor { OnOk result (Self.floor_of self.new ≡ Self.floor_of self.old) }
        ensures next { OnOk result (next_line (Self.run self.new) ≡ suc (Self.target (Self.run self.old))) }
        ensures text { (line : ℕ → List ℕ) → has_lines (whole (Self.run self.old)) line → OnOk result (text_of self.new
            ≡ lines line (next_line (Self.run self.old))
            (suc (Self.target (Self.run self.old)) - next_line (Self.run self.old))) }
        ensures goes_on { OnOk result ((s : Self.Snapshot) → Self.is_of (Self.run self.old) s
            → Self.is_of (Self.run self.new) s) };

    /// Lends the text that was made last.
    fn text(&self) -> &[u8]
        ensures { result.now ≡ text_of self.now };

    /// Goes on to the next round, with a new last cycle.
    fn next_round(&mut self, last: u32)
        requires finished { Self.floor_of self.old ≡ Self.target (Self.run self.old) }
        requires told { next_line (Self.run self.old) ≡ suc (Self.target (Self.run self.old)) }
        requires later { Self.target (Self.run self.old) < last }
        requires near { last ≤ Self.target (Self.run self.old) + rounds.round_cycles }
        requires within { last < cycles_of (whole (Self.run self.old)) }
        ensures whole { whole (Self.run self.new) ≡ whole (Self.run self.old) }
        ensures target { Self.target (Self.run self.new) ≡ last }
        ensures floor { Self.floor_of self.new ≡ Self.floor_of self.old }
        ensures next { next_line (Self.run self.new) ≡ next_line (Self.run self.old) }
        ensures goes_on { (s : Self.Snapshot) → Self.is_of (Self.run self.old) s → Self.is_of (Self.run self.new) s };
}

/// Why a simulation ended.
#[derive(Clone, Copy, PartialEq, Eq, Debug)]
pub enum SimFault {
    /// A write failed.
    Write,
    OutOfMemory,
}

impl From<OutOfMemory> for SimFault {
    ghost use Rattle.std.specs.Prelude.{◌≡◌};
    ghost use Rattle.xm_work.specs.declared.rounds.SimFault.TheVariants as fault;

    ghost from_gives = { λ _ f. f ≡ fault.OutOfMemory };

    fn from(_: OutOfMemory) -> SimFault {
        SimFault::OutOfMemory
    }
}

/// A bench at the end of its run, and the counts that were taken on the way.
#[derive(Drop)]
pub struct Simulated<B: Drop, S: Drop> {
    pub bench: B,
    pub counts: Vec<S>,
}

/// The last cycle of the round that begins at `first`.
pub(crate) fn round_end(first: u32, cycles: u32) -> u32
    requires { first < cycles }
    ensures { result ≡ rounds.round_end first cycles }
{
    if cycles - first <= ROUND {
        cycles - 1
    } else {
        first + (ROUND - 1)
    }
}

/// Makes the text of a round and writes it.
fn write_round<B: Rounds, K: Sink>(bench: &mut B, out: &mut K) -> Result<(), SimFault>
    requires finished { B.floor_of bench.old ≡ B.target (B.run bench.old) }
    ensures whole { OnOk result (B.whole (B.run bench.new) ≡ B.whole (B.run bench.old)) }
    ensures target { OnOk result (B.target (B.run bench.new) ≡ B.target (B.run bench.old)) }
    ensures floor { OnOk result (B.floor_of bench.new ≡ B.floor_of bench.old) }
    ensures next { OnOk result (B.next_line (B.run bench.new) ≡ suc (B.target (B.run bench.old))) }
    ensures goes_on { OnOk result ((s : B.Snapshot) → B.is_of (B.run bench.old) s → B.is_of (B.run bench.new) s) }
    ensures text { (line : ℕ → List ℕ) → B.has_lines (B.whole (B.run bench.old)) line
        → OnOk result (Appends (K.held out.old) (K.held out.new) (lines line (B.next_line (B.run bench.old))
        (suc (B.target (B.run bench.old)) - B.next_line (B.run bench.old)))) }
    ensures front { (line : ℕ → List ℕ) → B.has_lines (B.whole (B.run bench.old)) line
        → OnErr result (AppendsFront (K.held out.old) (K.held out.new) (lines line (B.next_line (B.run bench.old))
        (suc (B.target (B.run bench.old)) - B.next_line (B.run bench.old)))) }
    ensures cause { OnWrite result (Rose (K.faults out.old) (K.faults out.new)) }
    ensures kept { UnlessWrite result (K.faults out.new ≡ K.faults out.old) }
{
    match bench.make_text() {
        Ok(()) => match write_all(out, bench.text()) {
            Ok(()) => Ok(()),
            Err(_) => Err(SimFault::Write),
        },
        Err(_) => Err(SimFault::OutOfMemory),
    }
}

/// Works a round, and writes its text.
fn one_round<B: Rounds, K: Sink, G: Gate, R: Threads + Wait + Sync>(
    rt: &R,
    alloc: Global,
    bench: B,
    workers: u32,
    watch: &Watch,
    counts: Vec<B::Snapshot>,
    out: &mut K,
    gate: &G,
) -> Result<Simulated<B, B::Snapshot>, SimFault>
    requires workers { workers < 2 ^ 31 }
    requires last { B.target (B.run bench) ≡ watch.now.last }
    requires counts { AreCounts B.is_of B.cycle_of watch.now.wanted watch.now.cycles (B.run bench) (B.floor_of bench)
        counts.items }
    ensures whole { IfOk result (λ it. B.whole (B.run it.bench) ≡ B.whole (B.run bench)) }
    ensures target { IfOk result (λ it. B.target (B.run it.bench) ≡ watch.now.last) }
    ensures floor { IfOk result (λ it. B.floor_of it.bench ≡ watch.now.last) }
    ensures next { IfOk result (λ it. B.next_line (B.run it.bench) ≡ suc watch.now.last) }
    ensures counts { IfOk result (λ it. AreCounts B.is_of B.cycle_of watch.now.wanted watch.now.cycles (B.run it.bench)
        watch.now.last it.counts.items) }
    ensures none_missing { IfOk result (λ it.
        NoneMissing watch.now.wanted watch.now.cycles watch.now.last it.counts.items) }
    ensures text { (line : ℕ → List ℕ) → B.has_lines (B.whole (B.run bench)) line
        → OnOk result (Appends (K.held out.old) (K.held out.new)
        (lines line (B.next_line (B.run bench)) (suc watch.now.last - B.next_line (B.run bench)))) }
    ensures front { (line : ℕ → List ℕ) → B.has_lines (B.whole (B.run bench)) line
        → OnErr result (AppendsFront (K.held out.old) (K.held out.new)
        (lines line (B.next_line (B.run bench)) (suc watch.now.last - B.next_line (B.run bench)))) }
    ensures cause { OnWrite result (Rose (K.faults out.old) (K.faults out.new)) }
    ensures kept { UnlessWrite result (K.faults out.new ≡ K.faults out.old) }
{
    match run_round(rt, alloc, bench, workers, watch, counts, gate) {
        Ok((mut bench, counts)) => match write_round(&mut bench, out) {
            Ok(()) => Ok(Simulated { bench, counts }),
            Err(fault) => Err(fault),
        },
        Err(_) => Err(SimFault::OutOfMemory),
    }
}

/// Simulates the first cycles of a run in rounds of at most 1,024, from a bench that stands in the first round, and
/// takes the counts that are wanted. The text of each round is appended to `out` before the next round begins, so that
/// after a refusal a front of the whole text was appended. `Write` comes only where `out` had a fault in this call.
pub fn run_rounds<B: Rounds, K: Sink, G: Gate, R: Threads + Wait + Sync>(
    rt: &R,
    alloc: Global,
    bench: B,
    workers: u32,
    wanted: u32,
    cycles: u32,
    out: &mut K,
    gate: &G,
) -> Result<Simulated<B, B::Snapshot>, SimFault>
    requires workers { workers < 2 ^ 31 }
    requires some { 0 < cycles }
    requires within { cycles ≤ B.cycles_of (B.whole (B.run bench)) }
    requires first { B.target (B.run bench) ≡ rounds.round_end 0 cycles }
    requires none { B.next_line (B.run bench) ≡ 0 }
    ensures whole { IfOk result (λ it. B.whole (B.run it.bench) ≡ B.whole (B.run bench)) }
    ensures target { IfOk result (λ it. B.target (B.run it.bench) ≡ cycles - 1) }
    ensures floor { IfOk result (λ it. B.floor_of it.bench ≡ cycles - 1) }
    ensures next { IfOk result (λ it. B.next_line (B.run it.bench) ≡ cycles) }
    ensures counts { IfOk result (λ it. AreCounts B.is_of B.cycle_of wanted cycles (B.run it.bench) (cycles - 1)
        it.counts.items) }
    ensures none_missing { IfOk result (λ it. NoneMissing wanted cycles (cycles - 1) it.counts.items) }
    ensures text { (line : ℕ → List ℕ) → B.has_lines (B.whole (B.run bench)) line
        → OnOk result (Appends (K.held out.old) (K.held out.new) (lines line 0 cycles)) }
    ensures front { (line : ℕ → List ℕ) → B.has_lines (B.whole (B.run bench)) line
        → OnErr result (AppendsFront (K.held out.old) (K.held out.new) (lines line 0 cycles)) }
    ensures cause { OnWrite result (Rose (K.faults out.old) (K.faults out.new)) }
    ensures kept { UnlessWrite result (K.faults out.new ≡ K.faults out.old) }
{
    let mut bench = bench;
    let mut counts = Vec::new(alloc);
    let mut last = round_end(0, cycles);
    for _ in rt.forever() {
        let watch = Watch {
            wanted,
            cycles,
            last,
        };
        match one_round(rt, alloc, bench, workers, &watch, counts, out, gate) {
            Ok(done) => {
                let Simulated {
                    bench: done,
                    counts: more,
                } = done;
                bench = done;
                counts = more;
            }
            Err(fault) => return Err(fault),
        }
        if last == cycles - 1 {
            return Ok(Simulated { bench, counts });
        }
        last = round_end(last + 1, cycles);
        bench.next_round(last);
    }
    Err(SimFault::OutOfMemory)
}
