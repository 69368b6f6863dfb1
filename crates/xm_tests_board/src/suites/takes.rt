//! Takes: in turn, of a part that went out before, and beside a part that is held.

ghost use Rattle.std.specs.Prelude.{◌≡◌, ◌<◌};
ghost use Rattle.xm_tests_board.specs.Inner.Stays.{Stays};

use super::calls::{Told, goes_on, posts, returns, taken, tells};
use std::alloc::Global;
use xm_board::{Board, Job, Posted};
use xm_model::{Cell, OutOfMemory};
use xm_parts::Snapshot;
use xm_tests_nets::{MOVES_X, X};

/// Whether the first two jobs are of part 0 and of part 1, both at cycle 0.
fn are_first(one: &Job<'_>, two: &Job<'_>) -> bool {
    [one.part(), one.cycle(), two.part(), two.cycle()] == [0, 0, 1, 0]
}

/// Part 0 and then part 1 go to cycle 1. The takes between tell for which to wait.
fn go_in_turn<'a>(alloc: Global, board: &mut Board<'a>, one: Job<'a>, two: Job<'a>) -> bool
    requires one { one.run ≡ board.old.run }
    requires two { two.run ≡ board.old.run }
{
    let are_first = are_first(&one, &two);
    let both_out = tells(alloc, board);
    let first = posts(board, one);
    let one_out = tells(alloc, board);
    let low = board.floor();
    let second = posts(board, two);
    let none_out = tells(alloc, board);
    are_first
        && first
        && second
        && [low, board.floor()] == [0, 1]
        && [both_out, one_out, none_out] == [Told::NotYet(0), Told::NotYet(1), Told::Finished]
}

fn goes_beside<'a>(alloc: Global, board: &mut Board<'a>, one: Job<'a>) -> bool
    requires { one.run ≡ board.old.run }
{
    match taken(alloc, board) {
        Some(two) => go_in_turn(alloc, board, one, two),
        None => {
            returns(board, one);
            false
        }
    }
}

fn both_go(alloc: Global, board: &mut Board<'_>) -> bool {
    match taken(alloc, board) {
        Some(one) => goes_beside(alloc, board, one),
        None => false,
    }
}

/// Whether the queue holds x, and channel 1 moves it, in cycle 1.
fn has_passed(snapshot: &Snapshot) -> bool {
    let held = match snapshot.state.cells.as_slice().get(1) {
        Some(Cell::Packets(packets)) => packets.as_slice() == [X].as_slice(),
        _ => false,
    };
    snapshot.cycle == 1 && held && snapshot.frame.wires.as_slice().get(1) == Some(&MOVES_X)
}

fn shows_the_packet(alloc: Global, board: &Board<'_>) -> bool {
    board
        .snapshot(alloc)
        .is_ok_and(|snapshot| has_passed(&snapshot))
}

fn stops(alloc: Global, board: &mut Board<'_>) -> bool {
    board.stop(OutOfMemory);
    tells(alloc, board) == Told::Stopped
}

/// Two parts go one cycle, then the board is seen, and then stopped.
pub fn go_and_stop(alloc: Global, board: &mut Board<'_>) -> bool {
    both_go(alloc, board) && shows_the_packet(alloc, board) && stops(alloc, board)
}

/// Takes a part, and gives it back: it is then in, at cycle 0.
fn comes_back(alloc: Global, board: &mut Board<'_>) -> bool
    ensures { Stays board.old board.new }
{
    match taken(alloc, board) {
        Some(job) => returns(board, job) && !board.is_out(0) && board.cycle_of(0) == 0,
        None => false,
    }
}

/// Of two jobs of part 0 at cycle 0, the first that is posted counts.
fn first_counts<'a>(board: &mut Board<'a>, one: Job<'a>, two: Job<'a>) -> bool
    requires one { one.run ≡ board.old.run }
    requires two { two.run ≡ board.old.run }
{
    let same = [one.part(), one.cycle(), two.part(), two.cycle()] == [0, 0, 0, 0];
    let first = board.post(one.step());
    let second = board.post(two.step());
    same && [first, second] == [Posted::Taken, Posted::Stale] && board.cycle_of(0) == 1
}

fn goes_out_twice<'a>(alloc: Global, board: &mut Board<'a>, one: Job<'a>) -> bool
    requires { one.run ≡ board.old.run }
{
    board.recall();
    match taken(alloc, board) {
        Some(two) => first_counts(board, one, two),
        None => {
            returns(board, one);
            false
        }
    }
}

/// A part is given back, goes out again, is recalled, and goes out once more.
pub fn goes_out_again(alloc: Global, board: &mut Board<'_>) -> bool {
    if !comes_back(alloc, board) {
        return false;
    }
    match taken(alloc, board) {
        Some(one) => goes_out_twice(alloc, board, one),
        None => false,
    }
}

/// Whether part `p`, which has one channel, is at cycle `p`, with as many changes from the floor on.
fn is_ahead(board: &Board<'_>, p: u32) -> bool
    requires { p < board.now.core.count }
{
    board.cycle_of(p) == p && board.base(p).wires.len() == 1 && board.changes(p).len() == p as usize
}

fn are_ahead(board: &Board<'_>) -> bool
    requires { board.now.core.count ≡ 5 }
{
    for p in 0..5 {
        if !is_ahead(board, p) {
            return false;
        }
    }
    true
}

fn is_waited_for<'a>(alloc: Global, board: &mut Board<'a>, job: Job<'a>) -> bool
    requires job { job.run ≡ board.old.run }
    requires count { board.old.core.count ≡ 5 }
{
    let part = job.part();
    let told = goes_on(alloc, board, 100);
    let ahead = are_ahead(board);
    returns(board, job) && part == 0 && told == Told::NotYet(0) && ahead
}

/// Where part 0 of five in a row is held, each goes one cycle further than the one before it.
pub fn run_ahead(alloc: Global, board: &mut Board<'_>) -> bool
    requires { board.old.core.count ≡ 5 }
{
    match taken(alloc, board) {
        Some(job) => is_waited_for(alloc, board, job),
        None => false,
    }
}
