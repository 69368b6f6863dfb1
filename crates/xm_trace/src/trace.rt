//! The moves of a run.

ghost use Rattle.std.specs.Prelude.{◌≡◌, ◌+◌, ◌-◌, ◌*◌, ◌^◌, ◌<◌, ◌≤◌, ◌++◌, length, IfOk, OnOk, OnErr};
ghost use Rattle.std.specs.Option.{option_to_list};
ghost use Rattle.xm_model.specs.Views.{signals_of};
ghost use Rattle.xm_model.specs.Signals.{only_if};
ghost use Rattle.xm_model.specs.Limits.{most_channels};
ghost use Rattle.xm_step.specs.Roomy.{IsRoomy, SameRooms};
ghost use Rattle.xm_tape.specs.Taped.{cycles_of};
ghost use Rattle.xm_trace.specs.Moves.{cycle_moves, moved_on};
ghost use Rattle.xm_trace.specs.Runs.{AreCellsAt, AreMovesFrom, AreMovesOfRun};

use std::alloc::Global;
use xm_model::{List, OutOfMemory, State, Wire};
use xm_step::{Evaluator, blank, reset, step};
use xm_tape::Tape;

/// A colour moved on a channel in a cycle.
#[derive(Clone, Copy, PartialEq, Eq, Debug)]
pub struct Move {
    pub cycle: u32,
    pub channel: u32,
    pub colour: u8,
}

/// What moved in so many cycles, by cycle and then channel.
#[derive(Drop)]
pub struct Trace {
    pub cycles: u32,
    pub moves: List<Move>,
}

/// The move on the channel in the cycle, if there is one.
pub fn move_on(cycle: u32, channel: u32, wire: Wire) -> Option<Move>
    ensures { option_to_list result ≡ moved_on cycle channel (only_if wire.ready wire.offer) }
{
    // Where a net stands, fewer channels are ready than have an offer.
    if wire.ready
        && let Some(colour) = wire.offer
    {
        return Some(Move {
            cycle,
            channel,
            colour,
        });
    }
    None
}

/// Notes the move on the channel in the cycle, if there is one. There is room for it.
pub fn note_move(moves: &mut List<Move>, cycle: u32, channel: u32, wire: Wire)
    requires { length moves.old.items < moves.old.room }
    ensures items { moves.new.items ≡ moves.old.items ++ moved_on cycle channel (only_if wire.ready wire.offer) }
    ensures few { length moves.new.items ≤ length moves.old.items + 1 }
    ensures room { moves.new.room ≡ moves.old.room }
{
    if let Some(it) = move_on(cycle, channel, wire) {
        let _ = moves.push(it);
    }
}

/// Notes the moves of the cycle, by channel. There is room for one on each. It is not inlined: within its one
/// caller the compiler keeps the variables of this loop on the stack, which cost time in every cycle (measured
/// with callgrind).
#[inline(never)]
fn note_moves(moves: &mut List<Move>, cycle: u32, wires: &[Wire])
    requires channels { length wires.now ≤ most_channels }
    requires room { length moves.old.items + length wires.now ≤ moves.old.room }
    ensures items { moves.new.items ≡ moves.old.items ++ cycle_moves (signals_of wires.now) cycle (length wires.now) }
    ensures few { length moves.new.items ≤ length moves.old.items + length wires.now }
    ensures room { moves.new.room ≡ moves.old.room }
{
    for c in 0..wires.len() {
        note_move(moves, cycle, c as u32, wires[c]);
    }
}

/// The moves of the cycles from `from` to before `to`, and the state past them. A cycle takes time that is
/// linear in the primitives, the channels and the packets of queues, and no memory: room for one move on
/// each channel in each cycle, 12 bytes for one, for one frame and for one row is taken first, so a refusal leaves
/// the state. No room of the state changes. Of a drawn tape the draws before `from` are passed over first.
pub fn run_round(
    alloc: Global,
    evaluator: &Evaluator<'_>,
    tape: &Tape,
    state: &mut State,
    from: u32,
    to: u32,
) -> Result<Trace, OutOfMemory>
    requires roomy { IsRoomy evaluator.now.net.prims state.old.cells.items }
    requires cells { AreCellsAt evaluator.now.net tape.now from state.old.cells.items }
    requires order { from ≤ to }
    requires within { to ≤ cycles_of tape.now }
    requires room { (to - from) * evaluator.now.net.channels < 2 ^ 32 }
    ensures cycles { IfOk result (λ trace. trace.cycles ≡ to - from) }
    ensures moves { IfOk result (λ trace. AreMovesFrom evaluator.now.net tape.now from (to - from) trace.moves.items) }
    ensures cells { OnOk result (AreCellsAt evaluator.now.net tape.now to state.new.cells.items) }
    ensures roomy { OnOk result (IsRoomy evaluator.now.net.prims state.new.cells.items) }
    ensures rooms { OnOk result (SameRooms evaluator.now.net.prims state.old.cells.items state.new.cells.items) }
    ensures room { state.new.cells.room ≡ state.old.cells.room }
    ensures err { OnErr result (state.new ≡ state.old) }
{
    let design = evaluator.design();
    let channels = design.net().channels();
    let mut moves = List::new(alloc);
    moves.reserve((to - from) * channels)?;
    let mut frame = blank(alloc, design)?;
    let mut rows = tape.rows(alloc, from)?;
    for t in from..to {
        step(evaluator, state, rows.row(), &mut frame);
        note_moves(&mut moves, t, frame.wires.as_slice());
        rows.advance();
    }
    Ok(Trace {
        cycles: to - from,
        moves,
    })
}

/// The moves of the tape's run, by cycle and then channel, as one round.
pub fn run_all(alloc: Global, evaluator: &Evaluator<'_>, tape: &Tape) -> Result<Trace, OutOfMemory>
    requires { cycles_of tape.now * evaluator.now.net.channels < 2 ^ 32 }
    ensures cycles { IfOk result (λ trace. trace.cycles ≡ cycles_of tape.now) }
    ensures moves { IfOk result (λ trace. AreMovesOfRun evaluator.now.net tape.now trace.moves.items) }
{
    xm_order::one_run();
    let mut state = reset(alloc, evaluator.design())?;
    run_round(alloc, evaluator, tape, &mut state, 0, tape.cycles())
}
