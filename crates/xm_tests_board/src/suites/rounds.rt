//! The traces of rounds, beside the moves of the whole run.

ghost use Rattle.std.specs.Prelude.{◌≡◌, ◌<◌, IsTrue};
ghost use Rattle.xm_board.specs.Core.{AllDone};
ghost use Rattle.xm_tape.specs.Taped.{cycles_of};
ghost use Rattle.xm_tests_board.specs.Inner.Stays.{Stays};

use super::calls::{Told, goes_on};
use std::alloc::Global;
use xm_board::Board;
use xm_trace::{Move, Trace};

/// Whether the trace has so many cycles, and the moves that the whole has in them.
fn is_of_cycles(trace: &Trace, whole: &[Move], first: u32, cycles: u32) -> bool {
    let moves = whole
        .iter()
        .filter(|it| first <= it.cycle && it.cycle - first < cycles);
    trace.cycles == cycles && !trace.moves.is_empty() && moves.eq(trace.moves.as_slice().iter())
}

/// Whether the round, gone to its end, begins at this cycle, has so many, and the moves that the whole has in them.
pub fn is_round(
    alloc: Global,
    board: &mut Board<'_>,
    whole: &[Move],
    first: u32,
    cycles: u32,
) -> bool
    ensures stays { Stays board.old board.new }
    ensures done { IsTrue result → AllDone board.new.core }
{
    match goes_on(alloc, board, 10_000) {
        Told::Finished => {
            board.first() == first
                && board
                    .trace(alloc)
                    .is_ok_and(|trace| is_of_cycles(&trace, whole, first, cycles))
        }
        _ => false,
    }
}

/// The moves of 2,500 cycles come in two rounds and a rest.
pub fn are_rounds(alloc: Global, board: &mut Board<'_>, whole: &[Move]) -> bool
    requires target { board.old.core.target ≡ 1023 }
    requires within { 2499 < cycles_of board.old.run.tape }
{
    if !is_round(alloc, board, whole, 0, 1024) {
        return false;
    }
    board.next_round(2047);
    if !is_round(alloc, board, whole, 1024, 1024) {
        return false;
    }
    board.next_round(2499);
    is_round(alloc, board, whole, 2048, 452) && board.target() == 2499
}
