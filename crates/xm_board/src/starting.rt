//! What a board keeps at the start.

ghost use Rattle.std.specs.Prelude.{◌≡◌, ◌≢◌, ◌<◌, ℕ, length, map, IfOk};
ghost use Rattle.xm_board.specs.Inner.Posting.{moves_on};
ghost use Rattle.xm_board.specs.Inner.Starting.{AreEach, AreFirstMoves, AreHeard, HaveWires, IsFirst, IsFirstFar, IsFirstLog, IsNoNewest, IsWholeNet};
ghost use Rattle.xm_model.specs.ListView.{ListView};
ghost use Rattle.xm_model.specs.Signals.{Signals};
ghost use Rattle.xm_parts.specs.Kept.{label_at};
ghost use Rattle.xm_parts.specs.Near.{AreNear};
ghost use Rattle.xm_parts.specs.Partition.{AreNeighbours, channels_in, cuts_in};
ghost use Rattle.xm_parts.specs.Projection.{wire_of};
ghost use Rattle.xm_tape.specs.Taped.{cycles_of};

use crate::newest::Newest;
use crate::posting::note_moves;
use crate::row_log::RowLog;
use crate::two_cycles::TwoCycles;
use std::alloc::Global;
use xm_design::Design;
use xm_model::{List, OutOfMemory, Wire};
use xm_parts::{FarMoves, Parts, Snapshot, far, project};
use xm_step::{Evaluator, blank, frame, reset};
use xm_tape::Tape;
use xm_trace::Move;

/// The state and the frame of the first cycle.
pub fn first_cycle(alloc: Global, design: &Design, tape: &Tape) -> Result<Snapshot, OutOfMemory>
    requires { 0 < cycles_of tape.now }
    ensures { IfOk result (IsFirst design.now.net tape.now) }
{
    let evaluator = Evaluator::new(alloc, design)?;
    let state = reset(alloc, design)?;
    let mut signals = blank(alloc, design)?;
    let rows = tape.rows(alloc, 0)?;
    frame(&evaluator, &state, rows.row(), &mut signals);
    Ok(Snapshot {
        cycle: 0,
        state,
        frame: signals,
    })
}

/// The numbers again.
fn copied(alloc: Global, from: &[u32]) -> Result<List<u32>, OutOfMemory>
    ensures { IfOk result (λ made. made.items ≡ from.now) }
{
    let mut made = List::new(alloc);
    for k in 0..from.len() {
        made.push(from[k])?;
    }
    Ok(made)
}

/// The neighbours of each part.
pub fn neighbours_of(alloc: Global, parts: &Parts) -> Result<List<List<u32>>, OutOfMemory>
    ensures near { IfOk result (λ made. AreEach
        (λ p (l : ListView ℕ). AreNear parts.now.design.net (label_at parts.now.labels) p l.items)
        parts.now.count made.items) }
    ensures others { (p q : ℕ) → p < parts.now.count
        → AreNeighbours parts.now.design.net (label_at parts.now.labels) p q
        → IfOk result (λ _. (q < parts.now.count) × (q ≢ p)) }
{
    let mut made = List::new(alloc);
    for p in 0..parts.count() {
        let near = copied(alloc, parts.neighbours(p))?;
        made.push(near)?;
    }
    Ok(made)
}

/// The rows of each part: one of a state and a frame.
pub fn first_logs(
    alloc: Global,
    design: &Design,
    parts: &Parts,
    first: &Snapshot,
) -> Result<List<RowLog>, OutOfMemory>
    requires design { parts.now.design ≡ design.now }
    requires whole { IsWholeNet design.now.net first.now }
    ensures { IfOk result (λ made. AreEach (IsFirstLog design.now.net (label_at parts.now.labels) first.now)
        parts.now.count made.items) }
{
    let mut made = List::new(alloc);
    for p in 0..parts.count() {
        let row = project(alloc, design, parts, p, &first.state, &first.frame)?;
        let log = RowLog::new(alloc, row);
        made.push(log)?;
    }
    Ok(made)
}

/// The moves of cycle 0 on the channels of a part.
fn moves_of(alloc: Global, parts: &Parts, p: u32, wires: &[Wire]) -> Result<List<Move>, OutOfMemory>
    requires part { p < parts.now.count }
    requires whole { length wires.now ≡ length (channels_in parts.now.design.net (label_at parts.now.labels) p) }
    ensures { (φ : Signals)
        → wires.now ≡ map (wire_of φ) (channels_in parts.now.design.net (label_at parts.now.labels) p)
        → IfOk result (λ made. made.items
        ≡ moves_on φ 0 (channels_in parts.now.design.net (label_at parts.now.labels) p)) }
{
    let _count = parts.count();
    let channels = parts.channels(p);
    let mut made = List::new(alloc);
    made.reserve(channels.len() as u32)?;
    note_moves(&mut made, 0, channels, wires);
    Ok(made)
}

/// The moves of each part in cycle 0.
pub fn first_moves(
    alloc: Global,
    parts: &Parts,
    logs: &[RowLog],
) -> Result<List<List<Move>>, OutOfMemory>
    requires whole { length logs.now ≡ parts.now.count }
    requires wires { HaveWires parts.now.design.net (label_at parts.now.labels) logs.now }
    ensures { IfOk result (λ made. AreEach
        (AreFirstMoves parts.now.design.net (label_at parts.now.labels) logs.now) parts.now.count made.items) }
{
    let mut made = List::new(alloc);
    for p in 0..parts.count() {
        let log = &logs[p as usize];
        let moves = moves_of(alloc, parts, p, log.base.wires.as_slice())?;
        made.push(moves)?;
    }
    Ok(made)
}

/// Sets what moves on the far channels of part `p` from the rows of its neighbours.
fn hear(design: &Design, parts: &Parts, p: u32, logs: &[RowLog], to: &mut FarMoves)
    requires design { parts.now.design ≡ design.now }
    requires part { p < parts.now.count }
    requires whole { length logs.now ≡ parts.now.count }
    requires wires { HaveWires design.now.net (label_at parts.now.labels) logs.now }
    requires room { length to.old ≡ length (cuts_in design.now.net (label_at parts.now.labels) p) }
    ensures whole { length to.new ≡ length to.old }
    ensures heard { AreHeard design.now.net (label_at parts.now.labels) logs.now p to.new }
{
    let near = parts.neighbours(p);
    for k in 0..near.len() {
        let q = near[k];
        let log = &logs[q as usize];
        far(design, parts, p, q, &log.base, to);
    }
}

/// What moves on the far channels of part `p` in its own cycle, and a place for what moves in the next.
fn far_of(
    alloc: Global,
    design: &Design,
    parts: &Parts,
    p: u32,
    logs: &[RowLog],
) -> Result<TwoCycles, OutOfMemory>
    requires design { parts.now.design ≡ design.now }
    requires part { p < parts.now.count }
    requires whole { length logs.now ≡ parts.now.count }
    requires wires { HaveWires design.now.net (label_at parts.now.labels) logs.now }
    ensures { IfOk result (IsFirstFar design.now.net (label_at parts.now.labels) logs.now p) }
{
    let mut now = FarMoves::new(alloc, design, parts, p)?;
    hear(design, parts, p, logs, &mut now);
    let next = FarMoves::new(alloc, design, parts, p)?;
    Ok(TwoCycles { now, next })
}

/// What moves on the far channels of each part.
pub fn first_far(
    alloc: Global,
    design: &Design,
    parts: &Parts,
    logs: &[RowLog],
) -> Result<List<TwoCycles>, OutOfMemory>
    requires design { parts.now.design ≡ design.now }
    requires whole { length logs.now ≡ parts.now.count }
    requires wires { HaveWires design.now.net (label_at parts.now.labels) logs.now }
    ensures { IfOk result (λ made. AreEach (IsFirstFar design.now.net (label_at parts.now.labels) logs.now)
        parts.now.count made.items) }
{
    let mut made = List::new(alloc);
    for p in 0..parts.count() {
        let far = far_of(alloc, design, parts, p, logs)?;
        made.push(far)?;
    }
    Ok(made)
}

/// No newest row of any part. The first take of a part makes it.
pub fn no_newest<'a>(alloc: Global, count: u32) -> Result<List<Option<Newest<'a>>>, OutOfMemory>
    ensures { IfOk result (λ made. AreEach IsNoNewest count made.items) }
{
    let mut made = List::new(alloc);
    for p in 0..count {
        // The proof counts the parts by it.
        let _part = p;
        made.push(None)?;
    }
    Ok(made)
}
