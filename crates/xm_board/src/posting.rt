//! What a post changes in what a board keeps.

ghost use Rattle.std.specs.Prelude.{◌≡◌, ◌<◌, ◌≤◌, ◌+◌, ◌++◌, ◌==◌, ℕ, true, length, map, slice_get, slice_set, Some};
ghost use Rattle.xm_board.specs.Core.{cycle};
ghost use Rattle.xm_board.specs.Inner.Logging.{IsLog};
ghost use Rattle.xm_board.specs.Inner.Posting.{AreNotedAt, AreRisen, AreRisenIf, AreTold, HasHeard, IsPushedAt, IsTold, IsTurnedAt, moves_on};
ghost use Rattle.xm_board.specs.declared.row_log.RowLog.{RowLog};
ghost use Rattle.xm_board.specs.declared.two_cycles.TwoCycles.{TwoCycles};
ghost use Rattle.xm_model.specs.ListView.{ListView};
ghost use Rattle.xm_model.specs.Signals.{Signals};
ghost use Rattle.xm_parts.specs.Kept.{label_at};
ghost use Rattle.xm_parts.specs.Partition.{channels_in, cuts_in};
ghost use Rattle.xm_parts.specs.Projection.{wire_of};
ghost use Rattle.xm_trace.specs.declared.trace.Move.{Move};

use crate::board_core::BoardCore;
use crate::newest::Newest;
use crate::row_log::RowLog;
use crate::two_cycles::TwoCycles;
use std::mem::swap;
use xm_design::Design;
use xm_model::{List, Wire};
use xm_parts::{Change, PartRow, Parts, far};
use xm_trace::{Move, note_move};

/// Lets the first row of each part go.
pub fn rise_all(logs: &mut [RowLog])
    requires some { (p : ℕ) (log : RowLog) → slice_get logs.old p ≡ Some log → 0 < length log.changes.items }
    requires logs { (p : ℕ) (log : RowLog) → slice_get logs.old p ≡ Some log → IsLog log }
    ensures { AreRisen logs.old logs.new }
{
    for p in 0..logs.len() {
        logs[p].rise();
    }
}

/// Lets them go where the floor rises.
pub fn rise_if(logs: &mut List<RowLog>, rises: bool)
    requires some { rises ≡ true → (p : ℕ) (log : RowLog) → slice_get logs.old.items p ≡ Some log
        → 0 < length log.changes.items }
    requires logs { (p : ℕ) (log : RowLog) → slice_get logs.old.items p ≡ Some log → IsLog log }
    ensures { AreRisenIf rises logs.old.items logs.new.items }
{
    if rises {
        rise_all(logs.as_mut_slice());
    }
}

/// Appends what differs to the rows of part `p`. There is room for it.
pub fn push_at(logs: &mut List<RowLog>, p: u32, change: Change)
    requires part { p < length logs.old.items }
    requires room { (log : RowLog) → slice_get logs.old.items p ≡ Some log
        → length log.changes.items < log.changes.room }
    ensures { IsPushedAt logs.old.items p change logs.new.items }
{
    logs.as_mut_slice()[p as usize].push(change);
}

/// Notes the moves of part `p` in a cycle. There is room for one on each of its channels.
pub fn note_at(moves: &mut List<List<Move>>, p: u32, t: u32, channels: &[u32], wires: &[Wire])
    requires part { p < length moves.old.items }
    requires whole { length wires.now ≡ length channels.now }
    requires room { (ms : ListView Move) → slice_get moves.old.items p ≡ Some ms
        → length ms.items + length channels.now ≤ ms.room }
    ensures { AreNotedAt moves.old.items p t channels.now wires.now moves.new.items }
{
    note_moves(&mut moves.as_mut_slice()[p as usize], t, channels, wires);
}

fn turn(it: &mut TwoCycles)
    ensures { it.new ≡ record { now = it.old.next; next = it.old.now } }
{
    swap(&mut it.now, &mut it.next);
}

/// Makes the next cycle of part `p` its own.
pub fn turn_at(far: &mut List<TwoCycles>, p: u32)
    requires { p < length far.old.items }
    ensures { IsTurnedAt far.old.items p far.new.items }
{
    turn(&mut far.as_mut_slice()[p as usize]);
}

/// Puts the newest row of part `p` to the others.
pub fn put_newest<'a>(newest: &mut List<Option<Newest<'a>>>, p: u32, it: Newest<'a>)
    requires { p < length newest.old.items }
    ensures { newest.new.items ≡ slice_set newest.old.items p (Some it.entry) }
{
    newest.as_mut_slice()[p as usize] = Some(it);
}

/// Notes the moves of a cycle on the channels of a part. There is room for one on each.
pub fn note_moves(moves: &mut List<Move>, t: u32, channels: &[u32], wires: &[Wire])
    requires whole { length wires.now ≡ length channels.now }
    requires room { length moves.old.items + length channels.now ≤ moves.old.room }
    ensures items { (φ : Signals) → wires.now ≡ map (wire_of φ) channels.now
        → moves.new.items ≡ moves.old.items ++ moves_on φ t channels.now }
    ensures room { moves.new.room ≡ moves.old.room }
{
    for k in 0..channels.len() {
        note_move(moves, t, channels[k], wires[k]);
    }
}

/// Hands to part `q` what moves in part `p`: in its own cycle if it is level with the row, else in the next.
fn tell_one(
    design: &Design,
    parts: &Parts,
    q: u32,
    p: u32,
    level: bool,
    row: &PartRow,
    it: &mut TwoCycles,
)
    requires design { parts.now.design ≡ design.now }
    requires part { p < parts.now.count }
    requires to { q < parts.now.count }
    requires row { length row.now.wires.items ≡ length (channels_in design.now.net (label_at parts.now.labels) p) }
    requires now { length it.old.now ≡ length (cuts_in design.now.net (label_at parts.now.labels) q) }
    requires next { length it.old.next ≡ length (cuts_in design.now.net (label_at parts.now.labels) q) }
    ensures told { IsTold design.now.net (label_at parts.now.labels) p q level it.old it.new }
    ensures heard { HasHeard design.now.net (label_at parts.now.labels) p q row.now.wires.items level it.new }
{
    if level {
        far(design, parts, q, p, row, &mut it.now);
    } else {
        far(design, parts, q, p, row, &mut it.next);
    }
}

/// Hands to every neighbour of part `p` what moves in it in cycle `t`.
pub fn tell(
    design: &Design,
    parts: &Parts,
    core: &BoardCore,
    p: u32,
    t: u32,
    row: &PartRow,
    all: &mut [TwoCycles],
)
    requires design { parts.now.design ≡ design.now }
    requires part { p < parts.now.count }
    requires row { length row.now.wires.items ≡ length (channels_in design.now.net (label_at parts.now.labels) p) }
    requires whole { length all.old ≡ parts.now.count }
    requires now { (q : ℕ) (it : TwoCycles) → slice_get all.old q ≡ Some it
        → length it.now ≡ length (cuts_in design.now.net (label_at parts.now.labels) q) }
    requires next { (q : ℕ) (it : TwoCycles) → slice_get all.old q ≡ Some it
        → length it.next ≡ length (cuts_in design.now.net (label_at parts.now.labels) q) }
    ensures { AreTold design.now.net (label_at parts.now.labels) p row.now.wires.items
        (λ q. cycle core.now q == t) all.old all.new }
{
    let near = parts.neighbours(p);
    for k in 0..near.len() {
        let q = near[k];
        let level = core.cycle(q) == t;
        tell_one(design, parts, q, p, level, row, &mut all[q as usize]);
    }
}
