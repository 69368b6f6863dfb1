//! Snapshots of a bench while its workers work.
ghost use Rattle.std.specs.Prelude.{◌≡◌, ℕ, ◌<◌, ◌≤◌, IfOk, IfSome};
ghost use Rattle.xm_turn.specs.Passes.{IsPassOf, knows, IsFree};
ghost use Rattle.xm_turn.specs.Views.{IsLater};
ghost use Rattle.xm_work.specs.Passes.{Returns};
ghost use Rattle.xm_work.specs.Snapshots.{IsSeen, IfTaken, IfBusy};

use crate::bench::Bench;
use std::sync::Wait;
use xm_model::OutOfMemory;
use xm_turn::{Named, Pass, TryTake, Turn};

/// What one try for a snapshot gives.
#[derive(Drop)]
pub enum TrySnapshot<S: Drop> {
    Taken(S),
    /// Another pass has the turn.
    Busy,
}

/// The snapshot at the floor, which the pass has then seen. It waits for the turn. After a refusal of memory the turn
/// is given back too.
pub fn snapshot<B: Bench, R: Wait>(
    rt: &R,
    turn: &Turn<B>,
    pass: Pass<B>,
) -> (Pass<B>, Result<B::Snapshot, OutOfMemory>)
    requires pass { IsPassOf turn.now pass × IsFree pass }
    ensures pass { Returns turn.now (knows pass) result.0 }
    ensures snapshot { IfOk result.1 (λ s. IsSeen B.is_of B.cycle_of (knows result.0) s) }
{
    let mut held = turn.take(rt, pass);
    let snapshot = held.value().snapshot();
    turn.raise(&mut held);
    (turn.give_quietly(held), snapshot)
}

/// The same with one try for the turn, and without waiting. A whole pass has the turn.
pub fn try_snapshot<B: Bench>(
    turn: &Turn<B>,
    pass: Pass<B>,
) -> (Pass<B>, Result<TrySnapshot<B::Snapshot>, OutOfMemory>)
    requires pass { IsPassOf turn.now pass × IsFree pass }
    ensures pass { Returns turn.now (knows pass) result.0 }
    ensures snapshot { IfTaken result.1 (λ s. IsSeen B.is_of B.cycle_of (knows result.0) s) }
    ensures busy { IfBusy result.1 ((knows result.0 ≡ knows pass) × ((knows pass).shares < (knows pass).all)) }
{
    let mut held = match turn.try_take(pass) {
        TryTake::Held(held) => held,
        TryTake::Busy(pass) => return (pass, Ok(TrySnapshot::Busy)),
    };
    let snapshot = held.value().snapshot();
    turn.raise(&mut held);
    let pass = turn.give_quietly(held);
    match snapshot {
        Ok(snapshot) => (pass, Ok(TrySnapshot::Taken(snapshot))),
        Err(refusal) => (pass, Err(refusal)),
    }
}
