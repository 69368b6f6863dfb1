//! One cycle of a state as the cycles keep it.

ghost use Rattle.std.specs.Prelude.{◌≡◌, ℕ, ◌≤◌, length, map, IfOk, List as Cells};
ghost use Rattle.xm_model.specs.Component.{component_of};
ghost use Rattle.xm_model.specs.Frame.{IsFrame};
ghost use Rattle.xm_model.specs.Next.{IsFittingState};
ghost use Rattle.xm_model.specs.Run.{ChoicesFit};
ghost use Rattle.xm_model.specs.Signals.{Signals};
ghost use Rattle.xm_model.specs.Views.{IsFrameOf, IsNextOf, choice_at, content_at, signals_of};
ghost use Rattle.xm_model.specs.declared.state.Cell.{Cell as Contained};
ghost use Rattle.xm_order.specs.OneFrame.{SameFrame};
ghost use Rattle.xm_step.specs.InStep.{IsInStep};
ghost use Rattle.xm_step.specs.Inner.Cells.{IsKept, places_in};
ghost use Rattle.xm_step.specs.Roomy.{IsRoomy, IsRoomyCell, SameRooms};
ghost use Rattle.xm_step.specs.Still.{AreStill};

use crate::advance::advance_kept;
use crate::at_reset::blank;
use crate::cycle::solve;
use crate::evaluator::Evaluator;
use std::alloc::Global;
use xm_design::Design;
use xm_model::{Cell, Choice, Frame, List, OutOfMemory, Prim, State};
use xm_running::{HasCell, Running, Slot};

/// How many places the packets of a cell of this primitive need.
fn places_for(prim: &Prim, cell: &Cell) -> usize
    ensures { result ≡ places_in (component_of prim.now) cell.now }
{
    match prim {
        Prim::Queue { capacity, .. } => *capacity as usize,
        _ => cell.count(),
    }
}

/// A slot with the cell of this primitive.
fn slot_of(alloc: Global, prim: &Prim, cell: &Cell) -> Result<Slot, OutOfMemory>
    requires { IsRoomyCell (component_of prim.now) cell.now }
    ensures { IfOk result (IsKept (component_of prim.now) cell.now) }
{
    Slot::from_cell(alloc, cell, places_for(prim, cell))
}

/// The state as the cycles keep it. It takes 40 bytes for each primitive, and one for each place of a queue.
pub fn running_of(alloc: Global, design: &Design, state: &State) -> Result<Running, OutOfMemory>
    requires { IsRoomy design.now.net.prims state.now.cells.items }
    ensures cells { IfOk result (λ it. (p : ℕ) → content_at it.slots.items p ≡ content_at state.now.cells.items p) }
    ensures roomy { IfOk result (λ it. IsRoomy design.now.net.prims it.slots.items) }
{
    let prims = design.net().prims().as_slice();
    let cells = state.cells.as_slice();
    let mut slots = List::new(alloc);
    for p in 0..prims.len() {
        slots.push(slot_of(alloc, &prims[p], &cells[p])?)?;
    }
    Ok(Running { slots })
}

/// A frame that a running state goes on with, and which primitives may have changed since their signals in it were
/// made.
#[derive(Drop)]
pub struct RunningFrame {
    pub frame: Frame,
    pub changed: List<bool>,
}

/// A frame to begin with. It goes with each state.
pub fn running_frame(alloc: Global, design: &Design) -> Result<RunningFrame, OutOfMemory>
    ensures { (cells : Cells Contained) → IfOk result (IsInStep design.now.net cells) }
{
    design.is_designed();
    let frame = blank(alloc, design)?;
    let changed = List::filled(alloc, true, design.net().prims().len() as u32)?;
    Ok(RunningFrame { frame, changed })
}

/// One cycle: `frame` becomes the frame of the state, and then the state the next one. No room changes. What holds
/// nothing is not visited. A queue that has not changed, a source with a pending colour and a sink that is held keep their
/// signals.
pub fn step_running(
    evaluator: &Evaluator,
    running: &mut Running,
    choices: &[Choice],
    frame: &mut RunningFrame,
)
    requires roomy { IsRoomy evaluator.now.net.prims running.old.slots.items }
    requires still { AreStill evaluator.now.net.prims running.old.slots.items }
    requires in_step { IsInStep evaluator.now.net running.old.slots.items frame.old }
    ensures frame { IsFrameOf evaluator.now.net running.old.slots.items choices.now frame.new.frame.wires.items }
    ensures only { (φ : Signals)
        → IsFrame evaluator.now.net (content_at running.old.slots.items) (choice_at evaluator.now.net.prims choices.now)
        φ
        → SameFrame evaluator.now.net φ (signals_of frame.new.frame.wires.items) }
    ensures next { IsNextOf evaluator.now.net running.old.slots.items (signals_of frame.new.frame.wires.items)
        running.new.slots.items }
    ensures roomy { IsRoomy evaluator.now.net.prims running.new.slots.items }
    ensures in_step { IsInStep evaluator.now.net running.new.slots.items frame.new }
    ensures fitting { IsFittingState evaluator.now.net (content_at running.old.slots.items)
        → ChoicesFit evaluator.now.net (choice_at evaluator.now.net.prims choices.now)
        → IsFittingState evaluator.now.net (content_at running.new.slots.items) }
    ensures rooms { SameRooms evaluator.now.net.prims running.old.slots.items running.new.slots.items }
    ensures room { running.new.slots.room ≡ running.old.slots.room }
    ensures wires_room { frame.new.frame.wires.room ≡ frame.old.frame.wires.room }
{
    xm_order::one_frame();
    xm_design::fits_next();
    evaluator.design();
    solve(
        evaluator,
        running.slots.as_slice(),
        frame.changed.as_slice(),
        choices,
        frame.frame.wires.as_mut_slice(),
    );
    advance_kept(
        evaluator,
        running.slots.as_mut_slice(),
        frame.changed.as_mut_slice(),
        frame.frame.wires.as_slice(),
    );
}
