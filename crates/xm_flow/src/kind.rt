//! The flow rows of one primitive.

ghost use Rattle.std.specs.Prelude.{◌≡◌, ◌++◌, ℕ, ◌<◌, ◌≤◌, ◌∷◌, [], IfOk, OnOk, List as Items, length, map};
ghost use Rattle.xm_colours.specs.Family.{colours_at};
ghost use Rattle.xm_design.specs.Numbers.{IsQueuePair};
ghost use Rattle.xm_flow.specs.Inner.Building.{AreMade, IsMade, IsReady};
ghost use Rattle.xm_flow.specs.FlowRows.{FlowRow, columns, image_row as image, merge_row as merged};
ghost use Rattle.xm_flow.specs.FlowRows.{queue_row as queued, rows_at as rows_of, same_row as same, sides_row as sides};
ghost use Rattle.xm_model.specs.Component.{Component};
ghost use Rattle.xm_model.specs.Net.{HasPrim};
ghost use Rattle.xm_model.specs.Membership.{IsIn};
ghost use Rattle.xm_model.specs.Signals.{at_side};

use crate::place::Places;
use crate::set::{count_of, negated, set_of};
use crate::term::row_of;
use crate::terms::{Sign, push_count, push_if, push_move, push_moves, push_taken};
use std::alloc::Global;
use xm_design::Design;
use xm_model::{List, OutOfMemory, Prim, Side};
use xm_rows::Row;

/// What came into a queue, less what went and what is there, by colour.
fn queue_row(
    alloc: Global,
    places: &Places,
    design: &Design,
    q: u32,
    input: u32,
    out: u32,
    initial: &[u8],
    d: u8,
) -> Result<Row, OutOfMemory>
    requires ready { IsReady design.now places.now.below.items places.now.moves }
    requires input { input < design.now.net.channels }
    requires out { out < design.now.net.channels }
    requires colour { IsIn (colours_at design.now.colours out) d }
    requires pair { IsQueuePair design.now q d }
    ensures { IfOk result (IsMade (columns design.now)
        (queued (colours_at design.now.colours) q input out initial.now d)) }
{
    let mut terms = Vec::new(alloc);
    push_if(&mut terms, places, design, input, d, Sign::Plus)?;
    push_move(&mut terms, places, design, out, d, Sign::Minus)?;
    push_count(&mut terms, places, design, q, d, Sign::Minus)?;
    let first = negated(count_of(d, initial));
    let row = row_of(alloc, terms.as_slice(), first)?;
    Ok(row)
}

/// What went as a colour, less what came and became it.
fn image_row(
    alloc: Global,
    places: &Places,
    design: &Design,
    input: u32,
    table: &[u8],
    out: u32,
    e: u8,
) -> Result<Row, OutOfMemory>
    requires ready { IsReady design.now places.now.below.items places.now.moves }
    requires input { input < design.now.net.channels }
    requires out { out < design.now.net.channels }
    requires colour { IsIn (colours_at design.now.colours out) e }
    requires covered { design.now.net.colours ≤ length table.now }
    ensures { IfOk result (IsMade (columns design.now) (image (colours_at design.now.colours) input table.now out e)) }
{
    let set = set_of(alloc, design, input)?;
    let mut terms = Vec::new(alloc);
    push_move(&mut terms, places, design, out, e, Sign::Plus)?;
    push_taken(&mut terms, places, design, input, set.as_slice(), table, e)?;
    let row = row_of(alloc, terms.as_slice(), 0)?;
    Ok(row)
}

/// What went in a colour, less what came in it.
fn same_row(
    alloc: Global,
    places: &Places,
    design: &Design,
    input: u32,
    out: u32,
    d: u8,
) -> Result<Row, OutOfMemory>
    requires ready { IsReady design.now places.now.below.items places.now.moves }
    requires input { input < design.now.net.channels }
    requires out { out < design.now.net.channels }
    requires colour { IsIn (colours_at design.now.colours out) d }
    ensures { IfOk result (IsMade (columns design.now) (same (colours_at design.now.colours) input out d)) }
{
    let mut terms = Vec::new(alloc);
    push_move(&mut terms, places, design, out, d, Sign::Plus)?;
    push_if(&mut terms, places, design, input, d, Sign::Minus)?;
    let row = row_of(alloc, terms.as_slice(), 0)?;
    Ok(row)
}

/// What came on one side, less what came on the other.
fn sides_row(
    alloc: Global,
    places: &Places,
    design: &Design,
    a: u32,
    b: u32,
) -> Result<Row, OutOfMemory>
    requires ready { IsReady design.now places.now.below.items places.now.moves }
    requires a { a < design.now.net.channels }
    requires b { b < design.now.net.channels }
    ensures { IfOk result (IsMade (columns design.now) (sides (colours_at design.now.colours) a b)) }
{
    let first = set_of(alloc, design, a)?;
    let second = set_of(alloc, design, b)?;
    let mut terms = Vec::new(alloc);
    push_moves(&mut terms, places, design, a, first.as_slice(), Sign::Plus)?;
    push_moves(
        &mut terms,
        places,
        design,
        b,
        second.as_slice(),
        Sign::Minus,
    )?;
    let row = row_of(alloc, terms.as_slice(), 0)?;
    Ok(row)
}

/// What went in a colour, less what came in it on either side.
fn merge_row(
    alloc: Global,
    places: &Places,
    design: &Design,
    a: u32,
    b: u32,
    out: u32,
    d: u8,
) -> Result<Row, OutOfMemory>
    requires ready { IsReady design.now places.now.below.items places.now.moves }
    requires a { a < design.now.net.channels }
    requires b { b < design.now.net.channels }
    requires out { out < design.now.net.channels }
    requires colour { IsIn (colours_at design.now.colours out) d }
    ensures { IfOk result (IsMade (columns design.now) (merged (colours_at design.now.colours) a b out d)) }
{
    let mut terms = Vec::new(alloc);
    push_move(&mut terms, places, design, out, d, Sign::Plus)?;
    push_if(&mut terms, places, design, a, d, Sign::Minus)?;
    push_if(&mut terms, places, design, b, d, Sign::Minus)?;
    let row = row_of(alloc, terms.as_slice(), 0)?;
    Ok(row)
}

/// Appends the rows of a queue.
fn queue_rows(
    alloc: Global,
    rows: &mut List<Row>,
    places: &Places,
    design: &Design,
    q: u32,
    input: u32,
    out: u32,
    packets: &[u8],
) -> Result<(), OutOfMemory>
    requires ready { IsReady design.now places.now.below.items places.now.moves }
    requires input { input < design.now.net.channels }
    requires out { out < design.now.net.channels }
    requires pair { (d : ℕ) → IsIn (colours_at design.now.colours out) d → IsQueuePair design.now q d }
    ensures { (flow : Items FlowRow) → AreMade (columns design.now) flow rows.old.items
        → OnOk result (AreMade (columns design.now)
        (flow ++ map (queued (colours_at design.now.colours) q input out packets.now)
        (colours_at design.now.colours out)) rows.new.items) }
{
    let set = set_of(alloc, design, out)?;
    let colours = set.as_slice();
    for i in 0..colours.len() {
        let row = queue_row(alloc, places, design, q, input, out, packets, colours[i])?;
        rows.push(row)?;
    }
    Ok(())
}

/// Appends the rows of an output that takes its colours from a table.
fn image_rows(
    alloc: Global,
    rows: &mut List<Row>,
    places: &Places,
    design: &Design,
    input: u32,
    table: &[u8],
    out: u32,
) -> Result<(), OutOfMemory>
    requires ready { IsReady design.now places.now.below.items places.now.moves }
    requires input { input < design.now.net.channels }
    requires out { out < design.now.net.channels }
    requires covered { design.now.net.colours ≤ length table.now }
    ensures { (flow : Items FlowRow) → AreMade (columns design.now) flow rows.old.items
        → OnOk result (AreMade (columns design.now)
        (flow ++ map (image (colours_at design.now.colours) input table.now out)
        (colours_at design.now.colours out)) rows.new.items) }
{
    let set = set_of(alloc, design, out)?;
    let colours = set.as_slice();
    for i in 0..colours.len() {
        let row = image_row(alloc, places, design, input, table, out, colours[i])?;
        rows.push(row)?;
    }
    Ok(())
}

/// Appends the rows of an output that keeps colours.
fn same_rows(
    alloc: Global,
    rows: &mut List<Row>,
    places: &Places,
    design: &Design,
    input: u32,
    out: u32,
) -> Result<(), OutOfMemory>
    requires ready { IsReady design.now places.now.below.items places.now.moves }
    requires input { input < design.now.net.channels }
    requires out { out < design.now.net.channels }
    ensures { (flow : Items FlowRow) → AreMade (columns design.now) flow rows.old.items
        → OnOk result (AreMade (columns design.now)
        (flow ++ map (same (colours_at design.now.colours) input out)
        (colours_at design.now.colours out)) rows.new.items) }
{
    let set = set_of(alloc, design, out)?;
    let colours = set.as_slice();
    for i in 0..colours.len() {
        let row = same_row(alloc, places, design, input, out, colours[i])?;
        rows.push(row)?;
    }
    Ok(())
}

/// Appends the rows of a merge.
fn merge_rows(
    alloc: Global,
    rows: &mut List<Row>,
    places: &Places,
    design: &Design,
    a: u32,
    b: u32,
    out: u32,
) -> Result<(), OutOfMemory>
    requires ready { IsReady design.now places.now.below.items places.now.moves }
    requires a { a < design.now.net.channels }
    requires b { b < design.now.net.channels }
    requires out { out < design.now.net.channels }
    ensures { (flow : Items FlowRow) → AreMade (columns design.now) flow rows.old.items
        → OnOk result (AreMade (columns design.now)
        (flow ++ map (merged (colours_at design.now.colours) a b out)
        (colours_at design.now.colours out)) rows.new.items) }
{
    let set = set_of(alloc, design, out)?;
    let colours = set.as_slice();
    for i in 0..colours.len() {
        let row = merge_row(alloc, places, design, a, b, out, colours[i])?;
        rows.push(row)?;
    }
    Ok(())
}

/// The input of a join whose colour goes on.
fn passing(a: u32, b: u32, pass: Side) -> u32
    ensures { result ≡ at_side pass a b }
{
    match pass {
        Side::A => a,
        Side::B => b,
    }
}

/// Appends the rows of a join.
fn join_rows(
    alloc: Global,
    rows: &mut List<Row>,
    places: &Places,
    design: &Design,
    a: u32,
    b: u32,
    out: u32,
    pass: Side,
) -> Result<(), OutOfMemory>
    requires ready { IsReady design.now places.now.below.items places.now.moves }
    requires a { a < design.now.net.channels }
    requires b { b < design.now.net.channels }
    requires out { out < design.now.net.channels }
    ensures { (flow : Items FlowRow) → AreMade (columns design.now) flow rows.old.items
        → OnOk result (AreMade (columns design.now)
        (flow ++ (map (same (colours_at design.now.colours) (at_side pass a b) out) (colours_at design.now.colours out)
        ++ sides (colours_at design.now.colours) a b ∷ [])) rows.new.items) }
{
    same_rows(alloc, rows, places, design, passing(a, b, pass), out)?;
    let row = sides_row(alloc, places, design, a, b)?;
    rows.push(row)?;
    Ok(())
}

/// Appends the flow rows of primitive `p`.
pub fn rows_at(
    alloc: Global,
    rows: &mut List<Row>,
    places: &Places,
    design: &Design,
    p: u32,
) -> Result<(), OutOfMemory>
    requires ready { IsReady design.now places.now.below.items places.now.moves }
    requires within { p < length design.now.net.prims }
    ensures { (m : Component) → HasPrim design.now.net p m →
        (flow : Items FlowRow) → AreMade (columns design.now) flow rows.old.items
        → OnOk result (AreMade (columns design.now)
        (flow ++ rows_of (colours_at design.now.colours) p m) rows.new.items) }
{
    match design.net().prim(p) {
        Prim::Source { .. } | Prim::Sink { .. } => Ok(()),
        Prim::Queue {
            input,
            out,
            initial,
            ..
        } => queue_rows(
            alloc,
            rows,
            places,
            design,
            p,
            *input,
            *out,
            initial.as_slice(),
        ),
        Prim::Function { input, out, map } => {
            image_rows(alloc, rows, places, design, *input, map.as_slice(), *out)
        }
        Prim::Fork {
            input,
            a,
            b,
            map_a,
            map_b,
        } => {
            image_rows(alloc, rows, places, design, *input, map_a.as_slice(), *a)?;
            image_rows(alloc, rows, places, design, *input, map_b.as_slice(), *b)
        }
        Prim::Join { a, b, out, pass } => {
            join_rows(alloc, rows, places, design, *a, *b, *out, *pass)
        }
        Prim::Switch { input, a, b, .. } => {
            same_rows(alloc, rows, places, design, *input, *a)?;
            same_rows(alloc, rows, places, design, *input, *b)
        }
        Prim::Merge { a, b, out } => merge_rows(alloc, rows, places, design, *a, *b, *out),
    }
}
