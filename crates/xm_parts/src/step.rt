//! The step of one part.

ghost use Rattle.std.specs.Prelude.{◌≡◌, ◌<◌, ◌≤◌, ℕ, false, length, map};
ghost use Rattle.xm_model.specs.Component.{Content, component_of, content_of};
ghost use Rattle.xm_model.specs.Frame.{IsFrame};
ghost use Rattle.xm_model.specs.Next.{content_after, left, move, next};
ghost use Rattle.xm_parts.specs.Inner.Going.{AllGoOn, CanGoOn, HasGone, HasPlace};
ghost use Rattle.xm_model.specs.Signals.{Signals, packets_in};
ghost use Rattle.xm_parts.specs.Choosing.{ChoosesAs};
ghost use Rattle.xm_parts.specs.Kept.{label_at};
ghost use Rattle.xm_parts.specs.Inner.Showing.{ShowsState};
ghost use Rattle.xm_parts.specs.Partition.{IsPort, channels_in, is_queue, prims_in};
ghost use Rattle.xm_parts.specs.Projection.{IsCycle, projection, wire_of};
ghost use Rattle.xm_parts.specs.Rows.{IsRoomyRow, cell_in, part_signals, row_of};
ghost use Rattle.xm_step.specs.Roomy.{IsRoomyCell};

use crate::parts::Parts;
use crate::row::{FarMoves, PartRow, PrimCell};
use xm_design::Design;
use xm_model::{Cell, Choice, List, Prim, Wire};
use xm_plan::moved_at;
use xm_running::{ChangesCell, HasCell, advance_queue};
use xm_step::advance_cell;

/// Makes the packets of a queue these. There is room for them.
pub(crate) fn refill(q: &mut List<u8>, packets: &[u8])
    requires { length packets.now ≤ q.old.room }
    ensures items { q.new.items ≡ packets.now }
    ensures room { q.new.room ≡ q.old.room }
{
    q.truncate(0);
    for k in 0..packets.len() {
        let _ = q.push(packets[k]);
    }
}

/// What moves on the channel at a place: an own channel, or a far one behind them.
fn part_move(wires: &[Wire], far: &[Option<u8>], place: u32) -> Option<u8>
    ensures { result ≡ move (part_signals wires.now far.now) place }
{
    if (place as usize) < wires.len() {
        return moved_at(wires, place);
    }
    match far.get(place as usize - wires.len()) {
        Some(moved) => *moved,
        None => None,
    }
}

/// The packets of a queue's cell, the oldest first.
fn packets(cell: &Cell) -> &[u8]
    ensures { result.now ≡ packets_in (content_of cell.now) }
{
    match cell {
        Cell::Packets(packets) => packets.as_slice(),
        _ => &[],
    }
}

/// The packets that stay where the oldest leaves, if one leaves.
fn rest_of(packets: &[u8], leaves: Option<u8>) -> &[u8]
    ensures { result.now ≡ left packets.now leaves }
{
    match leaves {
        Some(_) if !packets.is_empty() => &packets[1..],
        _ => packets,
    }
}

/// Makes the side that a merge prefers that of `from`. The next content of another primitive, a queue apart, asks
/// nothing of the one before.
fn take_side(prim: &Prim, from: &Cell, to: &mut Cell)
    ensures { is_queue (component_of prim.now) ≡ false → (φ : Signals)
        → content_after (component_of prim.now) (content_of to.new) φ
        ≡ content_after (component_of prim.now) (content_of from.now) φ }
{
    match prim {
        Prim::Merge { .. } => to.put_preferred(from.preferred()),
        _ => {}
    }
}

/// Makes `to` what a primitive holds after the cycle in which it held `from`.
fn go_on(prim: &Prim, from: &Cell, wires: &[Wire], far: &[Option<u8>], to: &mut Cell)
    requires from { IsRoomyCell (component_of prim.now) from.now }
    requires to { IsRoomyCell (component_of prim.now) to.old }
    requires place { HasPlace (component_of prim.now) from.now (part_signals wires.now far.now) }
    requires own { is_queue (component_of prim.now) ≡ false → (c : ℕ) → IsPort (component_of prim.now) c
        → c < length wires.now }
    ensures { HasGone (component_of prim.now) from.now to.new (part_signals wires.now far.now) }
{
    match prim {
        Prim::Queue { input, out, .. } => {
            if let Cell::Packets(q) = to {
                refill(q, rest_of(packets(from), part_move(wires, far, *out)));
                advance_queue(q, None, part_move(wires, far, *input));
            }
        }
        _ => {
            take_side(prim, from, to);
            advance_cell(to, prim, wires);
        }
    }
}

/// Makes the cells of `out` what the part's primitives hold after the cycle in which they held those of `old`.
fn go_on_all(
    locals: &[Prim],
    old: &[PrimCell],
    wires: &[Wire],
    far: &[Option<u8>],
    out: &mut [PrimCell],
)
    requires { CanGoOn (map component_of locals.now) old.now out.old (part_signals wires.now far.now)
        (length wires.now) }
    ensures { AllGoOn (map component_of locals.now) old.now out.old out.new (part_signals wires.now far.now) }
{
    for k in 0..locals.len() {
        go_on(&locals[k], &old[k].cell, wires, far, &mut out[k].cell);
    }
}

/// Makes the signals of part `p` by its plan: those of the frame of any state whose contents the cells show.
fn solve(parts: &Parts, p: u32, cells: &[PrimCell], w: &[Choice], wires: &mut [Wire])
    requires part { p < parts.now.count }
    requires cells { length cells.now ≡ length (prims_in parts.now.design.net (label_at parts.now.labels) p) }
    requires wires { length wires.old ≡ length (channels_in parts.now.design.net (label_at parts.now.labels) p) }
    ensures { (s : ℕ → Content) (x : ℕ → Choice) (φ : Signals)
        → ShowsState parts.now.design.net (label_at parts.now.labels) p cells.now s
        → ChoosesAs parts.now.design.net (label_at parts.now.labels) p w.now x → IsFrame parts.now.design.net s x φ
        → wires.new ≡ map (wire_of φ) (channels_in parts.now.design.net (label_at parts.now.labels) p) }
{
    let _count = parts.count();
    let part = parts.part(p);
    part.plan.solve(part.planned.as_slice(), cells, w, wires);
}

/// The step of part `p`: where `old` is what the part has of a cycle and `far` what moves in it on the far sides
/// of its cut queues, `out` becomes what it has one cycle on, in which the choices are those of `w` for the part's own
/// sources and sinks, and any others elsewhere. The time is linear in the part's primitives, channels and packets, and
/// no memory is taken.
pub fn part_step(
    design: &Design,
    parts: &Parts,
    p: u32,
    old: &PartRow,
    far: &FarMoves,
    w: &[Choice],
    out: &mut PartRow,
)
    requires design { parts.now.design ≡ design.now }
    requires part { p < parts.now.count }
    requires cycle { IsCycle design.now.net (label_at parts.now.labels) p (row_of old.now) far.now }
    requires old { IsRoomyRow design.now.net (label_at parts.now.labels) p old.now }
    requires out { IsRoomyRow design.now.net (label_at parts.now.labels) p out.old }
    ensures step { (at : IsCycle design.now.net (label_at parts.now.labels) p (row_of old.now) far.now)
        (x : ℕ → Choice) (φ : Signals) → ChoosesAs design.now.net (label_at parts.now.labels) p w.now x
        → IsFrame design.now.net (next design.now.net at.state at.frame) x φ
        → row_of out.new ≡ projection design.now.net (label_at parts.now.labels) p
        (next design.now.net at.state at.frame) φ }
    ensures roomy { IsRoomyRow design.now.net (label_at parts.now.labels) p out.new }
{
    let _net = design.net();
    let _count = parts.count();
    let part = parts.part(p);
    go_on_all(
        part.locals.as_slice(),
        old.cells.as_slice(),
        old.wires.as_slice(),
        far.moves.as_slice(),
        out.cells.as_mut_slice(),
    );
    solve(parts, p, out.cells.as_slice(), w, out.wires.as_mut_slice());
}
