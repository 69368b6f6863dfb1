//! Calls of a board, each with one answer. A job can't be let go: it is posted or given back.

ghost use Rattle.std.specs.Prelude.{◌≡◌, IfSome};
ghost use Rattle.xm_board.specs.Core.{AllDone};
ghost use Rattle.xm_tests_board.specs.Inner.Stays.{Stays};
ghost use Rattle.xm_tests_board.specs.declared.suites.calls.Told.TheVariants as told;

use std::alloc::Global;
use xm_board::{Board, Job, Posted, Take};
use xm_model::OutOfMemory;

/// What a take tells.
#[derive(Clone, Copy, PartialEq, Eq, Debug)]
pub enum Told {
    Job,
    NotYet(u32),
    Finished,
    Stopped,
    Refused,
}

/// Steps and posts a job. Whether it counted.
pub fn posts<'a>(board: &mut Board<'a>, job: Job<'a>) -> bool
    requires { job.run ≡ board.old.run }
    ensures { Stays board.old board.new }
{
    match board.post(job.step()) {
        Posted::Taken => true,
        Posted::Stale => false,
    }
}

/// Gives a job back. Whether it counted.
pub fn returns<'a>(board: &mut Board<'a>, job: Job<'a>) -> bool
    requires { job.run ≡ board.old.run }
    ensures { Stays board.old board.new }
{
    match board.give_back(job) {
        Posted::Taken => true,
        Posted::Stale => false,
    }
}

/// The job that a take hands out, if it does.
pub fn taken<'a>(alloc: Global, board: &mut Board<'a>) -> Option<Job<'a>>
    ensures stays { Stays board.old board.new }
    ensures job { IfSome result (λ job. job.run ≡ board.old.run) }
{
    match board.take(alloc) {
        Ok(Take::Job(job)) => Some(job),
        Ok(Take::NotYet(_)) => None,
        Ok(Take::Finished) => None,
        Ok(Take::Stopped) => None,
        Err(OutOfMemory) => None,
    }
}

/// What a take tells. A job that it hands out is given back.
pub fn tells(alloc: Global, board: &mut Board<'_>) -> Told
    ensures stays { Stays board.old board.new }
    ensures done { result ≡ told.Finished → AllDone board.new.core }
{
    match board.take(alloc) {
        Ok(Take::Job(job)) => {
            returns(board, job);
            Told::Job
        }
        Ok(Take::NotYet(p)) => Told::NotYet(p),
        Ok(Take::Finished) => Told::Finished,
        Ok(Take::Stopped) => Told::Stopped,
        Err(OutOfMemory) => Told::Refused,
    }
}

/// What a take tells. A job that it hands out is stepped and posted.
pub fn goes(alloc: Global, board: &mut Board<'_>) -> Told
    ensures stays { Stays board.old board.new }
    ensures done { result ≡ told.Finished → AllDone board.new.core }
{
    match board.take(alloc) {
        Ok(Take::Job(job)) => {
            posts(board, job);
            Told::Job
        }
        Ok(Take::NotYet(p)) => Told::NotYet(p),
        Ok(Take::Finished) => Told::Finished,
        Ok(Take::Stopped) => Told::Stopped,
        Err(OutOfMemory) => Told::Refused,
    }
}

/// What the first take tells that hands out no job, after so many at most. Each job before it is stepped and posted.
pub fn goes_on(alloc: Global, board: &mut Board<'_>, most: u32) -> Told
    ensures stays { Stays board.old board.new }
    ensures done { result ≡ told.Finished → AllDone board.new.core }
{
    for k in 0..most {
        let _job = k;
        let told = goes(alloc, board);
        if told != Told::Job {
            return told;
        }
    }
    Told::Job
}
