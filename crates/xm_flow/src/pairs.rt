//! The queue pairs of a design, listed.

ghost use Rattle.std.specs.Prelude.{◌≡◌, ◌++◌, ◌<◌, IfOk, OnOk, length, map};
ghost use Rattle.xm_colours.specs.Family.{colours_at};
ghost use Rattle.xm_colours.specs.Pairs.{queue_pairs as pairs_of, queue_pairs_at};
ghost use Rattle.xm_model.specs.Component.{Component};
ghost use Rattle.xm_model.specs.Net.{HasPrim};

use crate::set::set_of;
use std::alloc::Global;
use xm_design::Design;
use xm_model::{List, OutOfMemory, Prim};

/// Appends the queue with each colour of its output.
fn push_colours(
    alloc: Global,
    pairs: &mut List<(u32, u8)>,
    design: &Design,
    q: u32,
    out: u32,
) -> Result<(), OutOfMemory>
    ensures { OnOk result (pairs.new.items ≡ pairs.old.items ++ map (λ d. (q, d)) (colours_at design.now.colours out)) }
{
    let set = set_of(alloc, design, out)?;
    let colours = set.as_slice();
    for i in 0..colours.len() {
        pairs.push((q, colours[i]))?;
    }
    Ok(())
}

/// Appends the pairs of primitive `q`.
fn push_pairs(
    alloc: Global,
    pairs: &mut List<(u32, u8)>,
    design: &Design,
    q: u32,
) -> Result<(), OutOfMemory>
    requires { q < length design.now.net.prims }
    ensures { (m : Component) → HasPrim design.now.net q m
        → OnOk result (pairs.new.items ≡ pairs.old.items ++ queue_pairs_at (colours_at design.now.colours) q m) }
{
    match design.net().prim(q) {
        Prim::Queue { out, .. } => push_colours(alloc, pairs, design, q, *out),
        _ => Ok(()),
    }
}

/// Each queue, by its number, with each colour of its output: by queue and then colour.
pub fn queue_pairs(alloc: Global, design: &Design) -> Result<List<(u32, u8)>, OutOfMemory>
    ensures { IfOk result (λ pairs. pairs.items ≡ pairs_of (colours_at design.now.colours) 0 design.now.net.prims) }
{
    let net = design.net();
    let mut pairs = List::new(alloc);
    for q in 0..net.prims().len() {
        push_pairs(alloc, &mut pairs, design, q as u32)?;
    }
    Ok(pairs)
}
