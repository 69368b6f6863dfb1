//! Parts that step alone, beside the run of the whole net.

ghost use Rattle.std.specs.Prelude.{◌≡◌, ◌<◌, ℕ, length, slice_get, IfOk, Some};
ghost use Rattle.xm_model.specs.Component.{Content};
ghost use Rattle.xm_model.specs.Frame.{IsFrame};
ghost use Rattle.xm_model.specs.Next.{IsFittingState, next};
ghost use Rattle.xm_model.specs.Run.{ChoicesFit};
ghost use Rattle.xm_model.specs.Signals.{Signals};
ghost use Rattle.xm_model.specs.Views.{choice_at, content_at, signals_of};
ghost use Rattle.xm_parts.specs.Changing.{CanChange, IsWithinCapacities};
ghost use Rattle.xm_parts.specs.Kept.{label_at};
ghost use Rattle.xm_parts.specs.Partition.{cuts_in};
ghost use Rattle.xm_parts.specs.Projection.{IsCycle, far_moves, projection};
ghost use Rattle.xm_parts.specs.Rows.{IsRoomyRow, row_of};
ghost use Rattle.xm_tape.specs.Taped.{Fits, cycles_of};
ghost use Rattle.xm_tests.specs.Inner.Stepped.{AreRows, AreRowsOf, AreSetFrom, IsUnderway};

use super::nets::{CREDITS, Piece, QUEUES, ROW, X, design_of};
use std::alloc::Global;
use xm_design::{Design, fits_next};
use xm_model::{Cell, Choice, Frame, List, OutOfMemory, SinkMode, SourceMode, State};
use xm_order::one_frame;
use xm_parts::{
    Change, FarMoves, PartRow, Parts, PrimCell, apply, capacity_law, change, change_law, far,
    far_law, part_step, project, room_law,
};
use xm_step::{Evaluator, blank, frame, reset, step};
use xm_tape::{Rows, Tape};

/// How many cycles of a net are compared.
const CYCLES: u32 = 50;

/// A merge between queues: a net of 6 channels.
const MERGED: [Piece; 7] = [
    Piece::Source(0, &[X], SourceMode::Keep),
    Piece::Source(1, &[X], SourceMode::Fair),
    Piece::Queue(0, 2, 2, &[]),
    Piece::Queue(1, 3, 1, &[]),
    Piece::Merge(2, 3, 4),
    Piece::Queue(4, 5, 2, &[]),
    Piece::Sink(5, SinkMode::Free),
];

/// A queue that feeds itself, beside a row: a net of 3 channels.
const FED: [Piece; 4] = [
    Piece::Source(0, &[X], SourceMode::Keep),
    Piece::Queue(0, 1, 1, &[]),
    Piece::Sink(1, SinkMode::Keep),
    Piece::Queue(2, 2, 2, &[X]),
];

fn is_same_cell(one: &Cell, other: &Cell) -> bool {
    match (one, other) {
        (Cell::Packets(one), Cell::Packets(other)) => one.as_slice() == other.as_slice(),
        (Cell::Pending(one), Cell::Pending(other)) => *one == *other,
        (Cell::Held(one), Cell::Held(other)) => *one == *other,
        (Cell::Pref(one), Cell::Pref(other)) => *one == *other,
        (Cell::Nothing, Cell::Nothing) => true,
        _ => false,
    }
}

fn are_same_cells(some: &[PrimCell], others: &[PrimCell]) -> bool {
    if some.len() != others.len() {
        return false;
    }
    for k in 0..some.len() {
        if some[k].prim != others[k].prim || !is_same_cell(&some[k].cell, &others[k].cell) {
            return false;
        }
    }
    true
}

fn is_same_row(one: &PartRow, other: &PartRow) -> bool {
    are_same_cells(one.cells.as_slice(), other.cells.as_slice())
        && one.wires.as_slice() == other.wires.as_slice()
}

fn are_same_rows(some: &[PartRow], others: &[PartRow]) -> bool {
    if some.len() != others.len() {
        return false;
    }
    for p in 0..some.len() {
        if !is_same_row(&some[p], &others[p]) {
            return false;
        }
    }
    true
}

/// What each part has of a state and a frame.
fn rows_of(
    alloc: Global,
    design: &Design,
    parts: &Parts,
    state: &State,
    wires: &Frame,
) -> Result<List<PartRow>, OutOfMemory>
    requires design { parts.now.design ≡ design.now }
    requires here { IsUnderway design.now.net state.now.cells.items wires.now.wires.items }
    ensures { IfOk result (λ rows. AreRowsOf design.now.net (label_at parts.now.labels) parts.now.count rows.items
        (content_at state.now.cells.items) (signals_of wires.now.wires.items)) }
{
    let count = parts.count();
    let mut rows = List::new(alloc);
    for p in 0..count {
        let row = project(alloc, design, parts, p, state, wires)?;
        rows.push(row)?;
    }
    Ok(rows)
}

/// Sets the far moves of part `p` from the rows of these parts.
fn set_far(
    design: &Design,
    parts: &Parts,
    p: u32,
    rows: &[PartRow],
    near: &[u32],
    moves: &mut FarMoves,
)
    requires design { parts.now.design ≡ design.now }
    requires part { p < parts.now.count }
    requires rows { AreRows design.now.net (label_at parts.now.labels) parts.now.count rows.now }
    requires near { (k q : ℕ) → slice_get near.now k ≡ Some q → q < parts.now.count }
    requires room { length moves.old ≡ length (cuts_in design.now.net (label_at parts.now.labels) p) }
    ensures room { length moves.new ≡ length (cuts_in design.now.net (label_at parts.now.labels) p) }
    ensures set { (s : ℕ → Content) (φ : Signals)
        → AreRowsOf design.now.net (label_at parts.now.labels) parts.now.count rows.now s φ
        → AreSetFrom design.now.net (label_at parts.now.labels) p near.now (length near.now) φ moves.new }
{
    for k in 0..near.len() {
        let q = near[k];
        far(design, parts, p, q, &rows[q as usize], moves);
    }
}

/// What moves on the far channels of a part.
fn far_of(
    alloc: Global,
    design: &Design,
    parts: &Parts,
    p: u32,
    rows: &[PartRow],
) -> Result<FarMoves, OutOfMemory>
    requires design { parts.now.design ≡ design.now }
    requires part { p < parts.now.count }
    requires rows { AreRows design.now.net (label_at parts.now.labels) parts.now.count rows.now }
    ensures { (s : ℕ → Content) (φ : Signals)
        → AreRowsOf design.now.net (label_at parts.now.labels) parts.now.count rows.now s φ
        → IfOk result (λ far. far ≡ far_moves design.now.net (label_at parts.now.labels) p φ) }
{
    far_law();
    let near = parts.neighbours(p);
    let mut moves = FarMoves::new(alloc, design, parts, p)?;
    set_far(design, parts, p, rows, near, &mut moves);
    Ok(moves)
}

/// A copy of a row, made the newer one by what differs.
fn changed(
    alloc: Global,
    design: &Design,
    parts: &Parts,
    p: u32,
    row: &PartRow,
    newer: &PartRow,
) -> Result<PartRow, OutOfMemory>
    requires design { parts.now.design ≡ design.now }
    requires part { p < parts.now.count }
    requires roomy { IsRoomyRow design.now.net (label_at parts.now.labels) p row.now }
    requires newer { CanChange (row_of row.now) (row_of newer.now)
        × IsWithinCapacities design.now.net (row_of newer.now) }
    ensures row { IfOk result (λ made. row_of made ≡ row_of newer.now) }
    ensures roomy { IfOk result (IsRoomyRow design.now.net (label_at parts.now.labels) p) }
{
    room_law();
    design.is_designed();
    let mut differs = Change::new(alloc, design, parts, p)?;
    change(row, newer, &mut differs);
    let mut made = row.copy(alloc, design)?;
    apply(&mut made, &differs);
    Ok(made)
}

/// The row of a part one cycle on. It steps alone.
fn row_on(
    alloc: Global,
    design: &Design,
    parts: &Parts,
    p: u32,
    row: &PartRow,
    moves: &FarMoves,
    choices: &[Choice],
) -> Result<PartRow, OutOfMemory>
    requires design { parts.now.design ≡ design.now }
    requires part { p < parts.now.count }
    requires cycle { (at : IsCycle design.now.net (label_at parts.now.labels) p (row_of row.now) moves.now)
        × IsFittingState design.now.net at.state × ChoicesFit design.now.net at.choices }
    requires roomy { IsRoomyRow design.now.net (label_at parts.now.labels) p row.now }
    ensures step { (at : IsCycle design.now.net (label_at parts.now.labels) p (row_of row.now) moves.now) (φ : Signals)
        → IsFrame design.now.net (next design.now.net at.state at.frame) (choice_at design.now.net.prims choices.now) φ
        → IfOk result (λ made. row_of made ≡ projection design.now.net (label_at parts.now.labels) p
        (next design.now.net at.state at.frame) φ) }
    ensures roomy { IfOk result (IsRoomyRow design.now.net (label_at parts.now.labels) p) }
{
    one_frame();
    fits_next();
    change_law();
    capacity_law();
    design.is_designed();
    let mut newer = row.copy(alloc, design)?;
    part_step(design, parts, p, row, moves, choices, &mut newer);
    changed(alloc, design, parts, p, row, &newer)
}

/// The rows of all parts one cycle on.
fn rows_on(
    alloc: Global,
    design: &Design,
    parts: &Parts,
    rows: &[PartRow],
    choices: &[Choice],
) -> Result<List<PartRow>, OutOfMemory>
    requires design { parts.now.design ≡ design.now }
    requires rows { AreRows design.now.net (label_at parts.now.labels) parts.now.count rows.now }
    requires choices { ChoicesFit design.now.net (choice_at design.now.net.prims choices.now) }
    ensures { IfOk result (λ made. AreRows design.now.net (label_at parts.now.labels) parts.now.count made.items) }
{
    one_frame();
    fits_next();
    design.is_designed();
    let count = parts.count();
    let mut made = List::new(alloc);
    for p in 0..count {
        let moves = far_of(alloc, design, parts, p, rows)?;
        let row = row_on(alloc, design, parts, p, &rows[p as usize], &moves, choices)?;
        made.push(row)?;
    }
    Ok(made)
}

/// Whether the rows are what the parts have of the whole net's cycle. The state becomes the next.
fn is_cycle(
    alloc: Global,
    evaluator: &Evaluator<'_>,
    parts: &Parts,
    rows: &[PartRow],
    choices: &[Choice],
    state: &mut State,
    wires: &mut Frame,
) -> Result<bool, OutOfMemory>
    requires design { parts.now.design ≡ evaluator.now }
    requires here { IsUnderway evaluator.now.net state.old.cells.items wires.old.wires.items }
    requires choices { ChoicesFit evaluator.now.net (choice_at evaluator.now.net.prims choices.now) }
    ensures here { IsUnderway evaluator.now.net state.new.cells.items wires.new.wires.items }
{
    frame(evaluator, state, choices, wires);
    let projected = rows_of(alloc, evaluator.design(), parts, state, wires)?;
    step(evaluator, state, choices, wires);
    Ok(are_same_rows(rows, projected.as_slice()))
}

/// Whether the rows, stepped alone, are what the parts have of each cycle of the whole net's run.
fn are_cycles(
    alloc: Global,
    evaluator: &Evaluator<'_>,
    parts: &Parts,
    drawn: &mut Rows<'_>,
    mut rows: List<PartRow>,
    state: &mut State,
    wires: &mut Frame,
) -> Result<bool, OutOfMemory>
    requires design { parts.now.design ≡ evaluator.now }
    requires here { IsUnderway evaluator.now.net state.old.cells.items wires.old.wires.items }
    requires rows { AreRows evaluator.now.net (label_at parts.now.labels) parts.now.count rows.items }
    requires fits { Fits evaluator.now.net drawn.old.tape }
    requires cycles { cycles_of drawn.old.tape ≡ 51 }
    requires first { drawn.old.cycle ≡ 0 }
{
    let design = evaluator.design();
    for t in 0..CYCLES {
        let _cycle = t;
        let now = drawn.row();
        if !is_cycle(alloc, evaluator, parts, rows.as_slice(), now, state, wires)? {
            return Ok(false);
        }
        drawn.advance();
        let later = drawn.row();
        rows = rows_on(alloc, design, parts, rows.as_slice(), later)?;
    }
    Ok(true)
}

/// Whether the parts, stepped alone from reset, agree with the whole net's run of the tape.
fn agree(alloc: Global, design: &Design, parts: &Parts, tape: &Tape) -> Result<bool, OutOfMemory>
    requires design { parts.now.design ≡ design.now }
    requires fits { Fits design.now.net tape.now }
    requires cycles { cycles_of tape.now ≡ 51 }
{
    let evaluator = Evaluator::new(alloc, design)?;
    let mut state = reset(alloc, design)?;
    let mut wires = blank(alloc, design)?;
    let mut drawn = tape.rows(alloc, 0)?;
    frame(&evaluator, &state, drawn.row(), &mut wires);
    let rows = rows_of(alloc, design, parts, &state, &wires)?;
    are_cycles(
        alloc, &evaluator, parts, &mut drawn, rows, &mut state, &mut wires,
    )
}

fn agree_as_drawn(alloc: Global, design: &Design, parts: &Parts) -> bool
    requires { parts.now.design ≡ design.now }
{
    let net = design.net();
    net.is_net();
    match Tape::seeded(alloc, design, CYCLES + 1, 1) {
        Ok(tape) => agree(alloc, design, parts, &tape).is_ok_and(|all| all),
        Err(OutOfMemory) => false,
    }
}

fn steps_in_parts(alloc: Global, design: &Design, count: u32) -> bool {
    if count == 0 || count > 64 {
        return false;
    }
    match Parts::balanced(alloc, design, count) {
        Ok(parts) => parts.count() == count && agree_as_drawn(alloc, design, &parts),
        Err(OutOfMemory) => false,
    }
}

/// Whether a net of one colour, run in so many parts, agrees with the whole.
fn steps_alone(alloc: Global, pieces: &[Piece], channels: u32, parts: u32) -> bool {
    let design = design_of(alloc, pieces, channels, 1);
    design.is_some_and(|design| steps_in_parts(alloc, &design, parts))
}

/// In the row of four queues each queue is cut, and then one, so that the others lie between two channels of one part.
#[test]
fn parts_that_step_alone_agree_with_the_whole(rt: HostRuntime) {
    let alloc = rt.alloc();
    assert!(rt; steps_alone(alloc, &ROW, 2, 2));
    assert!(rt; steps_alone(alloc, &CREDITS, 6, 2));
    assert!(rt; steps_alone(alloc, &QUEUES, 5, 5));
    assert!(rt; steps_alone(alloc, &QUEUES, 5, 2));
    assert!(rt; steps_alone(alloc, &MERGED, 6, 4));
    assert!(rt; steps_alone(alloc, &FED, 3, 3));
}
