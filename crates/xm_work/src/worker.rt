//! A worker: it takes the turn for a job, gives it back, does the job outside, and takes the turn again to post it.
ghost use Rattle.std.specs.Prelude.{◌≡◌, ℕ, ◌<◌, ◌≤◌, IfOk, IfSome};
ghost use Rattle.xm_turn.specs.Passes.{IsPassOf, knows, IsFree, Names};
ghost use Rattle.xm_turn.specs.Views.{IsLater};
ghost use Rattle.xm_work.specs.Passes.{Returns, HasSeenTarget};
ghost use Rattle.xm_work.specs.Taking.{IfJob, IfFinished};

use crate::bench::Bench;
use std::sync::Wait;
use xm_board::Take;
use xm_io::Gate;
use xm_model::OutOfMemory;
use xm_turn::{Named, Pass, Turn};

/// One turn, for a job. Where there is none yet, the pass sleeps until another pass has changed the bench.
fn take_job<B: Bench, R: Wait>(
    rt: &R,
    turn: &Turn<B>,
    pass: Pass<B>,
) -> (Pass<B>, Result<Take<B::Job>, OutOfMemory>)
    requires pass { IsPassOf turn.now pass × IsFree pass }
    ensures pass { Returns turn.now (knows pass) result.0 }
    ensures job { IfJob result.1 (λ job. Names pass (B.job_run job)) }
    ensures finished { IfFinished result.1 (HasSeenTarget B.target (knows result.0)) }
{
    let mut held = turn.take(rt, pass);
    match held.value().take() {
        Ok(Take::Job(job)) => (turn.give_quietly(held), Ok(Take::Job(job))),
        Ok(Take::NotYet(part)) => (turn.give_and_wait(rt, held), Ok(Take::NotYet(part))),
        Ok(Take::Finished) => {
            turn.raise(&mut held);
            (turn.give(held), Ok(Take::Finished))
        }
        Ok(Take::Stopped) => (turn.give(held), Ok(Take::Stopped)),
        Err(refusal) => {
            held.value().stop(refusal);
            (turn.give(held), Err(refusal))
        }
    }
}

/// One turn, for what a job made.
fn post_done<B: Bench, R: Wait>(rt: &R, turn: &Turn<B>, pass: Pass<B>, done: B::Done) -> Pass<B>
    requires pass { IsPassOf turn.now pass × IsFree pass }
    requires names { Names pass (B.done_run done) }
    ensures pass { Returns turn.now (knows pass) result }
{
    let mut held = turn.take(rt, pass);
    let _posted = held.value().post(done);
    turn.raise(&mut held);
    turn.give(held)
}

/// Takes, steps and posts jobs until the bench says that it is finished, and the pass has then seen the last cycle; or
/// until a caller, this one or another, has met want of memory. The gate is called before each step, outside the turn.
pub fn work<B: Bench, G: Gate, R: Wait>(
    rt: &R,
    turn: &Turn<B>,
    pass: Pass<B>,
    gate: &G,
) -> (Pass<B>, Result<(), OutOfMemory>)
    requires pass { IsPassOf turn.now pass × IsFree pass }
    ensures pass { Returns turn.now (knows pass) result.0 }
    ensures target { IfOk result.1 (λ _. HasSeenTarget B.target (knows result.0)) }
{
    let mut pass = pass;
    for _ in rt.forever() {
        let (back, taken) = take_job(rt, turn, pass);
        pass = back;
        match taken {
            Ok(Take::Job(job)) => {
                gate.enter(B::part(&job), B::cycle(&job));
                pass = post_done(rt, turn, pass, B::step(job));
            }
            Ok(Take::NotYet(_)) => {}
            Ok(Take::Finished) => return (pass, Ok(())),
            Ok(Take::Stopped) => break,
            Err(_) => break,
        }
    }
    (pass, Err(OutOfMemory))
}
