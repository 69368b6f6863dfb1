//! What a take changes in what a board keeps.

ghost use Rattle.std.specs.Prelude.{◌≡◌, ◌<◌, ◌+◌, ◌^◌, ℕ, length, slice_get, slice_set, None, OnOk, IfOk, Some};
ghost use Rattle.xm_board.specs.Inner.Jobs.{IsNewest, run_in};
ghost use Rattle.xm_board.specs.Inner.Logging.{IsRoomyLog};
ghost use Rattle.xm_board.specs.Inner.Taking.{AreSameMoves, AreSameRows, HasMoveRoom, HasRowRoom};
ghost use Rattle.xm_board.specs.declared.newest.Newest.{Newest};
ghost use Rattle.xm_parts.specs.Kept.{label_at};
ghost use Rattle.xm_parts.specs.Projection.{Row};
ghost use Rattle.xm_parts.specs.Rows.{row_of};

use crate::newest::Newest;
use crate::row_log::RowLog;
use std::alloc::Global;
use xm_design::Design;
use xm_model::{List, OutOfMemory};
use xm_parts::{FarMoves, Parts, own_oracles};
use xm_tape::Tape;
use xm_trace::Move;

/// Makes room for one more row of part `p`.
pub fn make_row_room(logs: &mut List<RowLog>, p: u32) -> Result<(), OutOfMemory>
    requires { p < length logs.old.items }
    ensures same { AreSameRows logs.old.items p logs.new.items }
    ensures room { OnOk result (HasRowRoom p logs.new.items) }
{
    logs.as_mut_slice()[p as usize].make_room()
}

/// Makes room for so many more moves of part `p`.
pub fn make_move_room(moves: &mut List<List<Move>>, p: u32, more: u32) -> Result<(), OutOfMemory>
    requires { p < length moves.old.items }
    ensures same { AreSameMoves moves.old.items p moves.new.items }
    ensures room { OnOk result (HasMoveRoom p more moves.new.items) }
{
    moves.as_mut_slice()[p as usize].reserve(more)
}

/// The newest row of part `p`, at cycle `t`, made from the log, with all that its step needs.
fn made_newest<'a>(
    alloc: Global,
    design: &Design,
    tape: &'a Tape,
    parts: &Parts,
    log: &RowLog,
    p: u32,
    t: u32,
) -> Result<Newest<'a>, OutOfMemory>
    requires design { parts.now.design ≡ design.now }
    requires part { p < parts.now.count }
    requires cycle { t + 1 < 2 ^ 32 }
    requires log { (rows : ℕ → Row) × IsRoomyLog design.now.net (label_at parts.now.labels) p rows log.now }
    ensures fits { IfOk result (IsNewest (run_in design.now parts.now tape.now) p t) }
    ensures row { (rows : ℕ → Row) → IsRoomyLog design.now.net (label_at parts.now.labels) p rows log.now
        → IfOk result (λ it. row_of it.row ≡ rows (length log.now.changes.items)) }
{
    let row = log.newest(alloc, design)?;
    let spare = row.copy(alloc, design)?;
    let far = FarMoves::new(alloc, design, parts, p)?;
    let own = own_oracles(alloc, design, parts, p)?;
    let choices = tape.part_rows(alloc, t + 1, own)?;
    Ok(Newest {
        row,
        spare,
        far,
        choices,
    })
}

/// Takes the newest row of part `p` out of the others; after a recall it is made from the log.
pub fn take_newest<'a>(
    alloc: Global,
    design: &Design,
    tape: &'a Tape,
    parts: &Parts,
    all: &mut List<Option<Newest<'a>>>,
    log: &RowLog,
    p: u32,
    t: u32,
) -> Result<Newest<'a>, OutOfMemory>
    requires design { parts.now.design ≡ design.now }
    requires part { p < parts.now.count }
    requires whole { p < length all.old.items }
    requires cycle { t + 1 < 2 ^ 32 }
    requires log { (rows : ℕ → Row) × IsRoomyLog design.now.net (label_at parts.now.labels) p rows log.now }
    requires fits { (it : Newest) → slice_get all.old.items p ≡ Some (Some it)
        → IsNewest (run_in design.now parts.now tape.now) p t it }
    ensures left { all.new.items ≡ slice_set all.old.items p None }
    ensures fits { IfOk result (IsNewest (run_in design.now parts.now tape.now) p t) }
    ensures row { (rows : ℕ → Row) → IsRoomyLog design.now.net (label_at parts.now.labels) p rows log.now
        → ((it : Newest) → slice_get all.old.items p ≡ Some (Some it)
        → row_of it.row ≡ rows (length log.now.changes.items))
        → IfOk result (λ it. row_of it.row ≡ rows (length log.now.changes.items)) }
{
    match all.as_mut_slice()[p as usize].take() {
        Some(it) => Ok(it),
        None => made_newest(alloc, design, tape, parts, log, p, t),
    }
}
