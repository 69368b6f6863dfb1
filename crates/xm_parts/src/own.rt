//! Which sources and sinks a part has.

ghost use Rattle.std.specs.Prelude.{◌≡◌, ◌<◌, [], ◌∷◌, ◌++◌, map, IfOk, OnOk};
ghost use Rattle.xm_model.specs.Component.{component_of};
ghost use Rattle.xm_model.specs.Views.{is_oracle as is_oracle_in};
ghost use Rattle.xm_parts.specs.Choosing.{own_oracles as own_oracles_in};
ghost use Rattle.xm_parts.specs.Kept.{label_at};

use crate::build::touches_part;
use crate::parts::Parts;
use std::alloc::Global;
use xm_design::Design;
use xm_model::{List, OutOfMemory, Prim};

fn is_oracle(prim: &Prim) -> bool
    ensures { result ≡ is_oracle_in (component_of prim.now) }
{
    matches!(prim, Prim::Source { .. } | Prim::Sink { .. })
}

/// Appends whether a source or a sink lies in part `p`, and nothing for another primitive.
fn push_own(own: &mut List<bool>, prim: &Prim, labels: &[u8], p: u32) -> Result<(), OutOfMemory>
    ensures { OnOk result (own.new.items
        ≡ own.old.items ++ own_oracles_in (label_at labels.now) p (component_of prim.now ∷ [])) }
{
    if is_oracle(prim) {
        return own.push(touches_part(prim, labels, p));
    }
    Ok(())
}

fn own_among(
    alloc: Global,
    prims: &[Prim],
    labels: &[u8],
    p: u32,
) -> Result<List<bool>, OutOfMemory>
    ensures { IfOk result
        (λ own. own.items ≡ own_oracles_in (label_at labels.now) p (map component_of prims.now)) }
{
    let mut own = List::new(alloc);
    for prim in prims {
        push_own(&mut own, prim, labels, p)?;
    }
    Ok(own)
}

/// Of each source and sink, in primitive order, whether it lies in part `p`: the places of a row that `part_step` reads.
pub fn own_oracles(
    alloc: Global,
    design: &Design,
    parts: &Parts,
    p: u32,
) -> Result<List<bool>, OutOfMemory>
    ensures { IfOk result
        (λ own. own.items ≡ own_oracles_in (label_at parts.now.labels) p design.now.net.prims) }
{
    own_among(
        alloc,
        design.net().prims().as_slice(),
        parts.labels.as_slice(),
        p,
    )
}
