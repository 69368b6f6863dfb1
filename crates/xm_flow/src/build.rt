//! The flow rows of a design, primitive by primitive.

ghost use Rattle.std.specs.Prelude.{◌≡◌, ◌-◌, ◌≤◌, ◌<◌, ◌^◌, ℕ, Err, IfOk, IsErr, length};
ghost use Rattle.xm_colours.specs.Family.{colours_at};
ghost use Rattle.xm_colours.specs.Pairs.{queue_pairs_at};
ghost use Rattle.xm_flow.specs.Inner.Building.{AreMade, IsReady};
ghost use Rattle.xm_flow.specs.FlowRows.{IsKept, columns, flow_rows};
ghost use Rattle.xm_flow.specs.Holding.{IsFlowOf, most_pairs, pair_count, queue_pair_count};
ghost use Rattle.xm_flow.specs.declared.build.FlowFault.TheVariants as fault;
ghost use Rattle.xm_model.specs.Component.{component_of};

use crate::kind::rows_at;
use crate::place::{Places, places_of};
use crate::rows::FlowRows;
use std::alloc::Global;
use xm_design::Design;
use xm_model::{List, OutOfMemory, Prim};
use xm_rows::Row;

/// The most pairs with which flow rows are made.
const MOST_PAIRS: u64 = 4096;

/// Why there are no flow rows. `TooWide` carries the number of pairs, which is above 4,096.
#[derive(Clone, Copy, PartialEq, Eq, Debug)]
pub enum FlowFault {
    TooWide(u64),
    OutOfMemory,
}

impl From<OutOfMemory> for FlowFault {
    ghost use Rattle.std.specs.Prelude.{◌≡◌};
    ghost use Rattle.xm_flow.specs.declared.build.FlowFault.TheVariants as fault;

    ghost from_gives = { λ _ f. f ≡ fault.OutOfMemory };

    fn from(_: OutOfMemory) -> FlowFault {
        FlowFault::OutOfMemory
    }
}

/// How many queue pairs a primitive has.
pub(crate) fn pairs_at(design: &Design, prim: &Prim) -> u32
    ensures number { result ≡ length (queue_pairs_at (colours_at design.now.colours) 0 (component_of prim.now)) }
    ensures few { result ≤ 64 }
{
    match prim {
        Prim::Queue { out, .. } => design.colours().count(*out),
        _ => 0,
    }
}

/// How many queue pairs there are.
fn counts_of(design: &Design) -> u32
    ensures number { result ≡ queue_pair_count design.now }
    ensures few { result < 2 ^ 20 - most_pairs }
{
    let prims = design.net().prims().as_slice();
    let mut counts = 0;
    for p in 0..prims.len() {
        counts += pairs_at(design, &prims[p]);
    }
    counts
}

/// The flow rows of all primitives.
fn rows_of(alloc: Global, places: &Places, design: &Design) -> Result<List<Row>, OutOfMemory>
    requires { IsReady design.now places.now.below.items places.now.moves }
    ensures { IfOk result (λ rows. AreMade (columns design.now) (flow_rows design.now) rows.items) }
{
    let net = design.net();
    let mut rows = List::new(alloc);
    for p in 0..net.prims().len() {
        rows_at(alloc, &mut rows, places, design, p as u32)?;
    }
    Ok(rows)
}

/// The flow rows of a design, where it has no more than 4,096 pairs.
pub fn flow(alloc: Global, design: &Design) -> Result<FlowRows, FlowFault>
    ensures ok { IfOk result (IsFlowOf design.now) }
    ensures kept { IfOk result IsKept }
    ensures wide { (n : ℕ) → result ≡ Err (fault.TooWide n) → (n ≡ pair_count design.now) × (most_pairs < n) }
    ensures narrow { most_pairs < pair_count design.now → IsErr result }
{
    let _net = design.net();
    let pairs = design.colours().pairs();
    if pairs > MOST_PAIRS {
        return Err(FlowFault::TooWide(pairs));
    }
    let places = places_of(alloc, design)?;
    let counts = counts_of(design);
    let rows = rows_of(alloc, &places, design)?;
    Ok(FlowRows::of(rows, places.moves, counts))
}
