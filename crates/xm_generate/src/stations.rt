//! The primitives of a line of stations.

ghost use Rattle.std.specs.Prelude.{◌≡◌, ◌+◌, ◌*◌, ◌-◌, ◌%◌, ◌<◌, ◌≤◌, ◌∷◌, ◌++◌, [], IfOk, OnOk, map};
ghost use Rattle.xm_model.specs.Component.{Switch, component_of};
ghost use Rattle.xm_generate.specs.Generated as spec;
ghost use Rattle.xm_tape.specs.Draws as draws;

use std::alloc::Global;
use xm_model::{List, OutOfMemory, Prim, SinkMode, SourceMode};
use xm_tape::{draw, next_number};

/// A draw below `bound`, which moves to the generator's next number.
#[tactic(auto, unfolding(crate::specs::Generated::later))]
fn below(number: &mut u64, bound: u64) -> u64
    requires { 0 < bound }
    ensures value { result ≡ draws.draw (spec.later 1 number.old) bound }
    ensures below { result < bound }
    ensures number { number.new ≡ spec.later 1 number.old }
{
    *number = next_number(*number);
    draw(*number, bound)
}

#[tactic(auto, unfolding(crate::specs::Generated::later, crate::specs::Generated::first_colour, crate::specs::Generated::second_colour))]
fn source(alloc: Global, number: &mut u64, out: u32) -> Result<Prim, OutOfMemory>
    ensures value { IfOk result (λ prim. component_of prim ≡ spec.source number.old out) }
    ensures number { OnOk result (number.new ≡ spec.later 2 number.old) }
{
    let first = below(number, 8);
    let second = (first + 1 + below(number, 7)) % 8;
    let mut colours = List::new(alloc);
    colours.push(first as u8)?;
    colours.push(second as u8)?;
    Ok(Prim::Source {
        out,
        colours,
        mode: SourceMode::Keep,
    })
}

#[tactic(auto, unfolding(crate::specs::Generated::later, crate::specs::Generated::capacity))]
fn queue(alloc: Global, number: &mut u64, input: u32, out: u32) -> Prim
    ensures value { component_of result ≡ spec.queue number.old input out }
    ensures number { number.new ≡ spec.later 1 number.old }
{
    let capacity = 1 + below(number, 4) as u32;
    Prim::Queue {
        input,
        out,
        capacity,
        initial: List::new(alloc),
    }
}

fn sink(input: u32) -> Prim
    ensures { component_of result ≡ spec.sink input }
{
    Prim::Sink {
        input,
        mode: SinkMode::Keep,
    }
}

/// Of eight colours the one with this number.
fn only(alloc: Global, d: u32) -> Result<List<bool>, OutOfMemory>
    ensures { IfOk result (λ marks. marks.items ≡ spec.only d) }
{
    let mut marks = List::new(alloc);
    for k in 0..8 {
        marks.push(d == k)?;
    }
    Ok(marks)
}

fn switch(alloc: Global, i: u32, c: u32) -> Result<Prim, OutOfMemory>
    requires { c ≤ 8192 }
    ensures { IfOk result (λ prim. component_of prim ≡ Switch c (c + 1) (c + 2) (spec.only (i % 8))) }
{
    let to_a = only(alloc, i % 8)?;
    Ok(Prim::Switch {
        input: c,
        a: c + 1,
        b: c + 2,
        to_a,
    })
}

/// Appends station `i`, which channel `c` enters.
fn push_station(
    alloc: Global,
    prims: &mut List<Prim>,
    number: &mut u64,
    i: u32,
    c: u32,
) -> Result<(), OutOfMemory>
    requires { c ≤ 8192 }
    ensures prims { OnOk result (map component_of prims.new.items
        ≡ map component_of prims.old.items ++ spec.station i c number.old) }
    ensures number { OnOk result (number.new ≡ spec.later 4 number.old) }
{
    prims.push(switch(alloc, i, c)?)?;
    prims.push(sink(c + 1))?;
    prims.push(source(alloc, number, c + 3)?)?;
    prims.push(queue(alloc, number, c + 3, c + 4))?;
    prims.push(Prim::Merge {
        a: c + 2,
        b: c + 4,
        out: c + 5,
    })?;
    prims.push(queue(alloc, number, c + 5, c + 6))?;
    Ok(())
}

/// The primitives of the line.
pub fn prims(alloc: Global, size: u32, seed: u64) -> Result<List<Prim>, OutOfMemory>
    requires low { 2 ≤ size }
    requires high { size ≤ 600 }
    ensures { IfOk result (λ prims. map component_of prims.items ≡ spec.prims size seed) }
{
    let mut number = seed;
    let mut prims = List::new(alloc);
    prims.push(source(alloc, &mut number, 0)?)?;
    prims.push(queue(alloc, &mut number, 0, 1))?;
    for i in 1..size - 1 {
        push_station(alloc, &mut prims, &mut number, i, 6 * i - 5)?;
    }
    prims.push(sink(6 * size - 11))?;
    Ok(prims)
}
