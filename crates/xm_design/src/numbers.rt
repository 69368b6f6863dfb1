//! Numbers that are counted once, so that no later loop counts them again.

ghost use Rattle.std.specs.Prelude.{◌≡◌, ◌≤◌, cond, length, IfOk};
ghost use Rattle.xm_colours.specs.Family.{colours_at};
ghost use Rattle.xm_colours.specs.Pairs.{queue_pairs_at};
ghost use Rattle.xm_design.specs.Numbers.{ArePairsBelow, IsOracles};
ghost use Rattle.xm_model.specs.Component.{component_of};
ghost use Rattle.xm_model.specs.Views.{is_oracle, oracles_below};
ghost use Rattle.xm_model.specs.Limits.{most_colours};

use std::alloc::Global;
use xm_colours::Colours;
use xm_model::{List, Net, OutOfMemory, Prim};

/// For each primitive, how many sources and sinks stand below it, and how many queue pairs; and how many
/// sources and sinks there are.
#[derive(Drop)]
pub struct Numbers {
    pub oracles: List<u32>,
    pub pairs: List<u32>,
    pub oracle_count: u32,
}

/// 1 for a source or a sink, which has a choice in each cycle, and 0 for all else.
fn oracle_count(prim: &Prim) -> u32
    ensures { result ≡ cond (is_oracle (component_of prim.now)) 1 0 }
{
    match prim {
        Prim::Source { .. } | Prim::Sink { .. } => 1,
        _ => 0,
    }
}

/// How many queue pairs it has.
fn queue_pairs(prim: &Prim, colours: &Colours) -> u32
    ensures number { result ≡ length (queue_pairs_at (colours_at colours.now) 0 (component_of prim.now)) }
    ensures few { result ≤ most_colours }
{
    match prim {
        Prim::Queue { out, .. } => colours.count(*out),
        _ => 0,
    }
}

/// The numbers of a net with these colours.
pub fn numbers_of(alloc: Global, net: &Net, colours: &Colours) -> Result<Numbers, OutOfMemory>
    ensures oracles { IfOk result (λ numbers. IsOracles net.now.prims numbers.oracles.items) }
    ensures count { IfOk result (λ numbers. numbers.oracle_count ≡ oracles_below net.now.prims (length net.now.prims)) }
    ensures pairs { IfOk result (λ numbers. ArePairsBelow (colours_at colours.now) net.now.prims numbers.pairs.items) }
{
    let prims = net.prims().as_slice();
    let mut oracles = List::new(alloc);
    let mut pairs = List::new(alloc);
    let mut oracles_below = 0;
    let mut pairs_below = 0;
    for p in 0..prims.len() {
        let prim = &prims[p];
        oracles.push(oracles_below)?;
        pairs.push(pairs_below)?;
        oracles_below += oracle_count(prim);
        pairs_below += queue_pairs(prim, colours);
    }
    Ok(Numbers {
        oracles,
        pairs,
        oracle_count: oracles_below,
    })
}
