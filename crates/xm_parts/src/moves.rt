//! What moves on the far sides of a part's cut queues.

ghost use Rattle.std.specs.Prelude.{◌≡◌, ◌<◌, ℕ, length, map, replicate, slice_get, IfOk, None, Some};
ghost use Rattle.xm_model.specs.Views.{signals_of};
ghost use Rattle.xm_model.specs.Next.{move};
ghost use Rattle.xm_parts.specs.Far.{SetFrom};
ghost use Rattle.xm_parts.specs.Kept.{AreCutsOf, label_at};
ghost use Rattle.xm_parts.specs.Partition.{channels_in, cuts_in};

use crate::part::Cut;
use crate::parts::Parts;
use crate::row::{FarMoves, PartRow};
use std::alloc::Global;
use xm_design::Design;
use xm_model::{List, OutOfMemory, Wire};
use xm_plan::moved_at;

impl FarMoves {
    /// A place for each queue that is cut from part `p`; nothing moves yet.
    pub fn new(
        alloc: Global,
        design: &Design,
        parts: &Parts,
        p: u32,
    ) -> Result<FarMoves, OutOfMemory>
        requires design { parts.now.design ≡ design.now }
        requires part { p < parts.now.count }
        ensures whole { IfOk result
            (λ far. length far ≡ length (cuts_in design.now.net (label_at parts.now.labels) p)) }
        ensures still { IfOk result (λ far. far ≡ replicate (length far) None) }
    {
        let _net = design.net();
        let cuts = parts.part(p).cuts.as_slice();
        let moves = List::filled(alloc, None, cuts.len() as u32)?;
        Ok(FarMoves { moves })
    }

    /// Makes the moves those of `from`, which is of the same part. No memory is taken.
    pub fn put(&mut self, from: &FarMoves)
        requires { length self.old ≡ length from.now }
        ensures { self.new ≡ from.now }
    {
        self.moves
            .as_mut_slice()
            .copy_from_slice(from.moves.as_slice());
    }
}

fn set_moves(parts: &Parts, p: u32, q: u32, wires: &[Wire], moves: &mut [Option<u8>])
    requires part { p < parts.now.count }
    requires from { q < parts.now.count }
    requires wires { length wires.now ≡ length (channels_in parts.now.design.net (label_at parts.now.labels) q) }
    requires moves { length moves.old ≡ length (cuts_in parts.now.design.net (label_at parts.now.labels) p) }
    ensures { SetFrom parts.now.design.net (label_at parts.now.labels) p q wires.now moves.old moves.new }
{
    let _count = parts.count();
    let cuts = parts.part(p).cuts.as_slice();
    for k in 0..cuts.len() {
        let cut = cuts[k];
        if cut.part == q {
            moves[k] = moved_at(wires, cut.wire);
        }
    }
}

/// Sets the moves on the far channels of part `p` that lie in part `q` from what part `q` has of a cycle. The
/// others stay. No memory is taken.
pub fn far(design: &Design, parts: &Parts, p: u32, q: u32, row: &PartRow, to: &mut FarMoves)
    requires design { parts.now.design ≡ design.now }
    requires part { p < parts.now.count }
    requires from { q < parts.now.count }
    requires row { length row.now.wires.items ≡ length (channels_in design.now.net (label_at parts.now.labels) q) }
    requires room { length to.old ≡ length (cuts_in design.now.net (label_at parts.now.labels) p) }
    ensures { SetFrom design.now.net (label_at parts.now.labels) p q row.now.wires.items to.old to.new }
{
    set_moves(parts, p, q, row.wires.as_slice(), to.moves.as_mut_slice());
}
