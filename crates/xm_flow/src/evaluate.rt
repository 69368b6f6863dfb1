//! The left side of a row over queue pairs in a state.

ghost use Rattle.std.specs.Prelude.{◌≡◌, ◌↔◌, ℕ, ◌<◌, ◌≤◌, All, IfSome, IsSome, Some, length, pos, slice_get};
ghost use Rattle.xm_colours.specs.Family.{colours_at};
ghost use Rattle.xm_colours.specs.Pairs.{queue_pairs_at};
ghost use Rattle.xm_flow.specs.FlowRows.{count_of as column};
ghost use Rattle.xm_flow.specs.Holding.{count_columns, count_value, point, queue_pair_count};
ghost use Rattle.xm_flow.specs.Inner.Reaching.{HasPair, IsReached};
ghost use Rattle.xm_model.specs.Component.{Component, content_of};
ghost use Rattle.xm_model.specs.Membership.{times};
ghost use Rattle.xm_model.specs.Net.{HasPrim};
ghost use Rattle.xm_model.specs.Signals.{packets_in};
ghost use Rattle.xm_model.specs.Views.{content_at};
ghost use Rattle.xm_rows.specs.Points.{StaysWithin};
ghost use Rattle.xm_rows.specs.Row.{left_side};

use crate::build::pairs_at;
use crate::invariant::Invariant;
use crate::set::count_of;
use xm_design::Design;
use xm_model::{Cell, Prim, State};
use xm_rows::{product, sum};

/// A primitive, and how many queue pairs stand below its own.
#[derive(Clone, Copy)]
struct Reached {
    prim: u32,
    below: u32,
}

/// The `k`-th colour of a channel, counted from 0.
fn colour_at(design: &Design, c: u32, k: u32) -> u8
    requires { k < length (colours_at design.now.colours c) }
    ensures { slice_get (colours_at design.now.colours c) k ≡ Some result }
{
    let _net = design.net();
    let colours = design.colours();
    let mut seen = 0;
    for d in 0..64u8 {
        if colours.has(c, d) {
            if seen == k {
                return d;
            }
            seen += 1;
        }
    }
    0
}

/// How many packets of a colour a cell holds.
fn packets_at(cell: &Cell, d: u8) -> u64
    ensures { result ≡ times d (packets_in (content_of cell.now)) }
{
    match cell {
        Cell::Packets(packets) => count_of(d, packets.as_slice()),
        _ => 0,
    }
}

/// How many packets of a colour queue `q` has.
fn packets_in(state: &State, q: u32, d: u8) -> u64
    ensures { pos result ≡ count_value (content_at state.now.cells.items) (column (q, d)) }
{
    let cells = state.cells.as_slice();
    if q as usize >= cells.len() {
        return 0;
    }
    packets_at(&cells[q as usize], d)
}

/// The colour of the `k`-th queue pair of primitive `q`.
fn colour_of(design: &Design, q: u32, k: u32) -> u8
    requires within { q < length design.now.net.prims }
    requires pair { (m : Component) → HasPrim design.now.net q m
        → k < length (queue_pairs_at (colours_at design.now.colours) q m) }
    ensures { (m : Component) → HasPrim design.now.net q m
        → slice_get (queue_pairs_at (colours_at design.now.colours) q m) k ≡ Some (q, result) }
{
    match design.net().prim(q) {
        Prim::Queue { out, .. } => colour_at(design, *out, k),
        _ => 0,
    }
}

/// The primitive that the `j`-th queue pair belongs to, looked for from a primitive on.
fn reach(design: &Design, start: Reached, j: u32) -> Reached
    requires pair { j < queue_pair_count design.now }
    requires reached { IsReached design.now start.prim start.below }
    requires low { start.below ≤ j }
    ensures { HasPair design.now result.prim result.below j }
{
    let net = design.net();
    let mut below = start.below;
    for p in start.prim..net.prims().len() as u32 {
        let here = pairs_at(design, net.prim(p));
        if j < below + here {
            return Reached { prim: p, below };
        }
        below += here;
    }
    start
}

/// How many packets the `j`-th queue pair has, which belongs to the primitive that is reached.
fn count_in(design: &Design, state: &State, reached: Reached, j: u32) -> u64
    requires { HasPair design.now reached.prim reached.below j }
    ensures { pos result ≡ point (count_columns design.now) (count_value (content_at state.now.cells.items)) j }
{
    let colour = colour_of(design, reached.prim, j - reached.below);
    packets_in(state, reached.prim, colour)
}

/// The left side of the invariant's row at the packets of the state. `None` exactly where a product, or a
/// sum of the first products in the order of columns, leaves 128 bits. Goes once through the row's entries and
/// once through the primitives.
pub fn value(design: &Design, invariant: &Invariant, state: &State) -> Option<i128>
    requires columns { All (λ e. e.column < queue_pair_count design.now) invariant.now.row.entries }
    ensures value { IfSome result (λ v. v ≡ left_side invariant.now.row.entries
        (point (count_columns design.now) (count_value (content_at state.now.cells.items)))) }
    ensures within { IsSome result ↔ StaysWithin invariant.now.row.entries
        (point (count_columns design.now) (count_value (content_at state.now.cells.items))) }
{
    let mut total = 0;
    let mut reached = Reached { prim: 0, below: 0 };
    for entry in invariant.row.entries() {
        reached = reach(design, reached, entry.column);
        let count = count_in(design, state, reached, entry.column);
        let term = product(entry.value, count as i128)?;
        total = sum(total, term)?;
    }
    Some(total)
}
