//! All orders in which jobs are taken and posted, one after another.

ghost use Rattle.std.specs.Prelude.{◌≡◌, ◌<◌};
ghost use Rattle.xm_tape.specs.Taped.{Fits, cycles_of};
ghost use Rattle.xm_tests_board.specs.Inner.Stays.{AreOf, Stays};

use super::calls::{Told, posts, returns};
use super::rounds::is_round;
use std::alloc::{AllocError, AllocFailed, Global};
use xm_board::{Board, Job, Take};
use xm_design::Design;
use xm_model::OutOfMemory;
use xm_parts::Parts;
use xm_tape::Tape;
use xm_trace::Move;

/// What is chosen at a turn, from 0 to the last choice.
#[derive(Clone, Copy)]
struct Pick {
    chosen: usize,
    last: usize,
}

/// More turns than an order has.
const MOST_TURNS: usize = 50;

/// More orders than there are.
const MOST_ORDERS: u32 = 10_000;

/// What an order chooses at a turn: the first choice, where it has none yet.
fn choice_at(order: &mut Vec<Pick>, turn: usize, last: usize) -> Result<usize, AllocError> {
    if let Some(pick) = order.get(turn) {
        return Ok(pick.chosen);
    }
    order.push(Pick { chosen: 0, last })?;
    Ok(0)
}

/// The next order, depth first: the last turn that has a later choice takes it, and the turns behind it are open. Whether
/// there is one.
fn turns_on(order: &mut Vec<Pick>) -> bool {
    while let Some(it) = order.pop() {
        if it.chosen < it.last {
            let next = Pick {
                chosen: it.chosen + 1,
                last: it.last,
            };
            return order.push(next).is_ok();
        }
    }
    false
}

/// Puts a job to those that are out. Without memory for it, it is given back.
fn keeps<'a>(board: &mut Board<'a>, jobs: &mut Vec<Job<'a>>, job: Job<'a>) -> Told
    requires jobs { AreOf board.old.run jobs.old.items }
    requires job { job.run ≡ board.old.run }
    ensures stays { Stays board.old board.new }
    ensures jobs { AreOf board.new.run jobs.new.items }
{
    match jobs.push(job) {
        Ok(()) => Told::Job,
        Err(AllocFailed { value }) => {
            returns(board, value);
            Told::Refused
        }
    }
}

/// What a take tells. A job that it hands out is put to those that are out.
fn takes<'a>(alloc: Global, board: &mut Board<'a>, jobs: &mut Vec<Job<'a>>) -> Told
    requires { AreOf board.old.run jobs.old.items }
    ensures stays { Stays board.old board.new }
    ensures jobs { AreOf board.new.run jobs.new.items }
{
    match board.take(alloc) {
        Ok(Take::Job(job)) => keeps(board, jobs, job),
        Ok(Take::NotYet(p)) => Told::NotYet(p),
        Ok(Take::Finished) => Told::Finished,
        Ok(Take::Stopped) => Told::Stopped,
        Err(OutOfMemory) => Told::Refused,
    }
}

/// Steps and posts the job at this place of those that are out; behind them, takes one more.
fn turns<'a>(alloc: Global, board: &mut Board<'a>, jobs: &mut Vec<Job<'a>>, chosen: usize) -> Told
    requires { AreOf board.old.run jobs.old.items }
    ensures stays { Stays board.old board.new }
    ensures jobs { AreOf board.new.run jobs.new.items }
{
    if chosen >= jobs.len() {
        return takes(alloc, board, jobs);
    }
    let job = jobs.remove(chosen);
    if posts(board, job) {
        return Told::Job;
    }
    Told::Refused
}

/// Goes on in this order: what the take tells that ends it. After a take that waits comes a post.
fn goes_in<'a>(
    alloc: Global,
    board: &mut Board<'a>,
    jobs: &mut Vec<Job<'a>>,
    order: &mut Vec<Pick>,
) -> Told
    requires { AreOf board.old.run jobs.old.items }
    ensures stays { Stays board.old board.new }
    ensures jobs { AreOf board.new.run jobs.new.items }
{
    let mut waits = false;
    for turn in 0..MOST_TURNS {
        let last = if waits {
            jobs.len().saturating_sub(1)
        } else {
            jobs.len()
        };
        let Ok(chosen) = choice_at(order, turn, last) else {
            return Told::Refused;
        };
        match turns(alloc, board, jobs, chosen) {
            Told::Job => waits = false,
            Told::NotYet(_) => waits = true,
            end => return end,
        }
    }
    Told::Refused
}

/// Gives all these jobs back.
fn return_all<'a>(board: &mut Board<'a>, mut jobs: Vec<Job<'a>>)
    requires { AreOf board.old.run jobs.items }
    ensures { Stays board.old board.new }
{
    while let Some(job) = jobs.pop() {
        returns(board, job);
    }
    jobs.destroy_empty();
}

/// Whether this order ends where all is done, and then gives the trace of three cycles of the whole.
fn is_whole(alloc: Global, board: &mut Board<'_>, order: &mut Vec<Pick>, whole: &[Move]) -> bool {
    let mut jobs = Vec::new(alloc);
    let end = goes_in(alloc, board, &mut jobs, order);
    return_all(board, jobs);
    end == Told::Finished && is_round(alloc, board, whole, 0, 3)
}

/// The same on a new board.
fn makes_whole(
    alloc: Global,
    design: &Design,
    tape: &Tape,
    parts: &Parts,
    order: &mut Vec<Pick>,
    whole: &[Move],
) -> bool
    requires design { parts.now.design ≡ design.now }
    requires fits { Fits design.now.net tape.now }
    requires within { 2 < cycles_of tape.now }
{
    match Board::new(alloc, design, tape, parts, 2) {
        Ok(mut board) => is_whole(alloc, &mut board, order, whole),
        Err(OutOfMemory) => false,
    }
}

/// How many orders there are, where each gives the trace of three cycles of the whole.
pub fn orders_that_agree(
    alloc: Global,
    design: &Design,
    tape: &Tape,
    parts: &Parts,
    whole: &[Move],
) -> Option<u32>
    requires design { parts.now.design ≡ design.now }
    requires fits { Fits design.now.net tape.now }
    requires within { 2 < cycles_of tape.now }
{
    let mut order = Vec::new(alloc);
    for count in 1..MOST_ORDERS {
        if !makes_whole(alloc, design, tape, parts, &mut order, whole) {
            return None;
        }
        if !turns_on(&mut order) {
            return Some(count);
        }
    }
    None
}
