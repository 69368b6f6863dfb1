//! The whole network, put together from the first rows of all parts.

ghost use Rattle.std.specs.Prelude.{◌≡◌, ℕ, length, map, IfOk};
ghost use Rattle.xm_board.specs.Inner.Gluing.{AreRowsOf, HaveFitRows};
ghost use Rattle.xm_model.specs.Component.{Content, content_of};
ghost use Rattle.xm_model.specs.Signals.{Signals};
ghost use Rattle.xm_parts.specs.Gluing.{HoldsAll};
ghost use Rattle.xm_parts.specs.Kept.{label_at};

use crate::row_log::RowLog;
use std::alloc::Global;
use xm_design::Design;
use xm_model::OutOfMemory;
use xm_parts::{Glue, Parts, Snapshot, glue_law};

/// The state and the frame that the first rows are of, with their cycle.
pub fn glued(
    alloc: Global,
    design: &Design,
    parts: &Parts,
    logs: &[RowLog],
    cycle: u32,
) -> Result<Snapshot, OutOfMemory>
    requires design { parts.now.design ≡ design.now }
    requires whole { length logs.now ≡ parts.now.count }
    requires fit { HaveFitRows design.now.net (label_at parts.now.labels) logs.now }
    ensures cycle { IfOk result (λ it. it.cycle ≡ cycle) }
    ensures cells { IfOk result (λ it. length it.state.cells.items ≡ length design.now.net.prims) }
    ensures channels { IfOk result (λ it. length it.frame.wires.items ≡ design.now.net.channels) }
    ensures holds { (s : ℕ → Content) (φ : Signals)
        → AreRowsOf design.now.net (label_at parts.now.labels) s φ logs.now
        → IfOk result (λ it. HoldsAll design.now.net s φ (map content_of it.state.cells.items) it.frame.wires.items) }
{
    glue_law();
    design.is_designed();
    let count = parts.count();
    let mut glue = Glue::new(alloc, design)?;
    glue.at(cycle);
    for p in 0..count {
        let log = &logs[p as usize];
        glue.add(parts, p, &log.base);
    }
    Ok(glue.finish())
}
