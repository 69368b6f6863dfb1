//! The parts with which a part shares a queue.

ghost use Rattle.std.specs.Prelude.{◌<◌, All, IfOk, IsTrue};
ghost use Rattle.xm_parts.specs.Kept.{AreCutsOf, label_at};
ghost use Rattle.xm_parts.specs.Near.{AreNear, ArePartsOf, HasCut};

use crate::part::Cut;
use std::alloc::Global;
use xm_model::{List, Net, OutOfMemory};

/// Whether the far channel of some cut queue lies in part `q`.
fn is_near(cuts: &[Cut], q: u32) -> bool
    ensures yes { IsTrue result → HasCut cuts.now q }
    ensures no { HasCut cuts.now q → IsTrue result }
{
    for cut in cuts {
        if cut.part == q {
            return true;
        }
    }
    false
}

/// The parts in which the far channels of the cut queues lie, in order.
fn far_parts(alloc: Global, cuts: &[Cut]) -> Result<List<u32>, OutOfMemory>
    ensures { IfOk result (λ made. ArePartsOf cuts.now 64 made.items) }
{
    let mut made = List::new(alloc);
    for q in 0..64 {
        if is_near(cuts, q) {
            made.push(q)?;
        }
    }
    Ok(made)
}

/// The neighbours of part `p`, which has these cut queues.
pub fn neighbours_of(
    alloc: Global,
    net: &Net,
    labels: &[u8],
    p: u32,
    cuts: &[Cut],
) -> Result<List<u32>, OutOfMemory>
    requires cuts { AreCutsOf net.now (label_at labels.now) p cuts.now }
    requires labels { All (λ x. x < 64) labels.now }
    ensures { IfOk result (λ made. AreNear net.now (label_at labels.now) p made.items) }
{
    // The net and the labels are there for the contract alone.
    let _net = net;
    let _labels = labels;
    let _part = p;
    far_parts(alloc, cuts)
}
