//! What the rows of a seeded tape are drawn from.

ghost use Rattle.std.specs.Prelude.{◌≡◌, [], ◌∷◌, ◌++◌, map, IfOk, OnOk};
ghost use Rattle.xm_model.specs.Component.{component_of};
ghost use Rattle.xm_tape.specs.Inner.Forms.{component_drawn, drawn_form};
ghost use Rattle.xm_tape.specs.Marks.{oracles_of};

use std::alloc::Global;
use xm_design::Design;
use xm_model::{List, OutOfMemory, Prim};

/// What is drawn for a source or a sink: readiness, the one colour of a source or silence, or one of its colours or
/// silence.
#[derive(Drop)]
pub enum Oracle {
    Sink,
    Single(u8),
    Listed(List<u8>),
}

/// The choices of so many cycles, drawn from a seed for these sources and sinks. No row is kept.
#[derive(Drop)]
pub struct DrawnTape {
    pub oracles: List<Oracle>,
    pub cycles: u32,
    pub seed: u64,
}

fn copy_of(alloc: Global, colours: &[u8]) -> Result<List<u8>, OutOfMemory>
    ensures { IfOk result (λ copy. copy.items ≡ colours.now) }
{
    let mut copy = List::new(alloc);
    for colour in colours {
        copy.push(*colour)?;
    }
    Ok(copy)
}

/// Appends what is drawn for a source or a sink, and nothing for another primitive.
fn push_oracle(alloc: Global, oracles: &mut List<Oracle>, prim: &Prim) -> Result<(), OutOfMemory>
    ensures { OnOk result (map component_drawn oracles.new.items
        ≡ map component_drawn oracles.old.items ++ map drawn_form (oracles_of (component_of prim.now ∷ []))) }
{
    match prim {
        Prim::Source { colours, .. } => match colours.as_slice() {
            [colour] => oracles.push(Oracle::Single(*colour)),
            colours => oracles.push(Oracle::Listed(copy_of(alloc, colours)?)),
        },
        Prim::Sink { .. } => oracles.push(Oracle::Sink),
        _ => Ok(()),
    }
}

fn oracles_drawn(alloc: Global, prims: &[Prim]) -> Result<List<Oracle>, OutOfMemory>
    ensures { IfOk result (λ oracles. map component_drawn oracles.items
        ≡ map drawn_form (oracles_of (map component_of prims.now))) }
{
    let mut oracles = List::new(alloc);
    for prim in prims {
        push_oracle(alloc, &mut oracles, prim)?;
    }
    Ok(oracles)
}

/// The tape that draws for the sources and sinks of the design.
pub fn drawn_tape(
    alloc: Global,
    design: &Design,
    cycles: u32,
    seed: u64,
) -> Result<DrawnTape, OutOfMemory>
    ensures oracles { IfOk result
        (λ tape. map component_drawn tape.oracles.items ≡ map drawn_form (oracles_of design.now.net.prims)) }
    ensures cycles { IfOk result (λ tape. tape.cycles ≡ cycles) }
    ensures seed { IfOk result (λ tape. tape.seed ≡ seed) }
{
    let oracles = oracles_drawn(alloc, design.net().prims().as_slice())?;
    Ok(DrawnTape {
        oracles,
        cycles,
        seed,
    })
}
