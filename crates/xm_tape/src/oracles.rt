//! The primitives for which a tape has choices.

ghost use Rattle.std.specs.Prelude.{◌≡◌, ◌≤◌, IfOk, length, map};
ghost use Rattle.xm_model.specs.Component.{component_of};
ghost use Rattle.xm_model.specs.Views.{is_oracle};
ghost use Rattle.xm_model.specs.Limits.{most_primitives};
ghost use Rattle.xm_tape.specs.Inner.Views.{components_of};
ghost use Rattle.xm_tape.specs.Marks as spec;

use std::alloc::Global;
use xm_design::Design;
use xm_model::{OutOfMemory, Prim};

fn is_oracle(prim: &Prim) -> bool
    ensures { result ≡ is_oracle (component_of prim.now) }
{
    matches!(prim, Prim::Source { .. } | Prim::Sink { .. })
}

fn oracles_among(alloc: Global, prims: &[Prim]) -> Result<Vec<&Prim>, OutOfMemory>
    ensures oracles { IfOk result (λ found. components_of found.items ≡ spec.oracles_of (map component_of prims.now)) }
    ensures few { IfOk result (λ found. length found.items ≤ length prims.now) }
{
    let mut oracles = Vec::new(alloc);
    for prim in prims {
        if is_oracle(prim) {
            oracles.push(prim)?;
        }
    }
    Ok(oracles)
}

/// The sources and sinks of the design, in primitive order.
pub fn oracles_of(alloc: Global, design: &Design) -> Result<Vec<&Prim>, OutOfMemory>
    ensures oracles { IfOk result (λ found. components_of found.items ≡ spec.oracles_of design.now.net.prims) }
    ensures few { IfOk result (λ found. length found.items ≤ most_primitives) }
{
    oracles_among(alloc, design.net().prims().as_slice())
}
