//! What the caller does once its workers have ended.
ghost use Rattle.std.specs.Prelude.{◌≡◌, ℕ, ◌<◌, ◌≤◌, IfOk, vec_len, length};
ghost use Rattle.xm_work.specs.Counts as spec;
ghost use Rattle.xm_work.specs.Counts.{AreCounts, NoneMissing};

use crate::bench::Bench;
use crate::counts::{Watch, least_cycle};
use std::sync::Wait;
use xm_board::Take;
use xm_io::Gate;
use xm_model::OutOfMemory;
use xm_turn::Named;

/// Does all that is left. A job that was lost with its worker is recalled.
pub(crate) fn finish<B: Bench, G: Gate, R: Wait>(
    rt: &R,
    bench: B,
    gate: &G,
) -> Result<B, OutOfMemory>
    ensures run { IfOk result (λ b. B.run b ≡ B.run bench) }
    ensures floor { IfOk result (λ b. B.floor_of b ≡ B.target (B.run bench)) }
    ensures later { IfOk result (λ b. B.floor_of bench ≤ B.floor_of b) }
{
    let mut bench = bench;
    for _ in rt.forever() {
        match bench.take() {
            Ok(Take::Job(job)) => {
                gate.enter(B::part(&job), B::cycle(&job));
                let _posted = bench.post(B::step(job));
            }
            Ok(Take::NotYet(_)) => bench.recall(),
            Ok(Take::Finished) => return Ok(bench),
            Ok(Take::Stopped) => break,
            Err(refusal) => return Err(refusal),
        }
    }
    Err(OutOfMemory)
}

/// Takes the counts of the round that are still due.
pub(crate) fn finish_counts<B: Bench, G: Gate>(
    bench: &B,
    watch: &Watch,
    counts: Vec<B::Snapshot>,
    gate: &G,
) -> Result<Vec<B::Snapshot>, OutOfMemory>
    requires last { B.floor_of bench.now ≡ watch.now.last }
    requires counts { AreCounts B.is_of B.cycle_of watch.now.wanted watch.now.cycles (B.run bench.now)
        (B.floor_of bench.now) counts.items }
    ensures counts { IfOk result (λ ss. AreCounts B.is_of B.cycle_of watch.now.wanted watch.now.cycles (B.run bench.now)
        (B.floor_of bench.now) ss.items) }
    ensures none_missing { IfOk result (λ ss. NoneMissing watch.now.wanted watch.now.cycles watch.now.last ss.items) }
{
    let mut counts = counts;
    while counts.len() < watch.wanted as usize {
        let least = least_cycle(counts.len() as u32, watch.wanted, watch.cycles);
        if least > watch.last {
            break;
        }
        let count = bench.snapshot()?;
        gate.seen(B::snapshot_cycle(&count));
        counts.push(count)?;
    }
    Ok(counts)
}
