//! What the primitives of a net hold, with the channels and the modes by which it goes on: queues apart.

ghost use Rattle.std.specs.Prelude.{◌≡◌, ◌+◌, ◌^◌, ◌<◌, length, map, slice_get, IfOk, List as Components, OnOk, Some};
ghost use Rattle.xm_model.specs.Component.{Component, component_of};
ghost use Rattle.xm_step.specs.Inner.Kinds.{AreKindsTo, IsHoldingOf};

use std::alloc::Global;
use xm_model::{List, OutOfMemory, Prim, SinkMode, SourceMode};

/// What a primitive holds, with the channels and the mode by which it goes on.
#[derive(Clone, Copy)]
pub enum Holding {
    Packets { input: u32, out: u32 },
    Pending { out: u32, mode: SourceMode },
    Held { input: u32, mode: SinkMode },
    Pref { a: u32, b: u32, out: u32 },
    Nothing,
}

/// A queue, by its number, with its two channels.
#[derive(Clone, Copy)]
pub struct QueuePlace {
    pub prim: u32,
    pub input: u32,
    pub out: u32,
}

/// A primitive, by its number, and what it holds.
#[derive(Clone, Copy)]
pub struct Holder {
    pub prim: u32,
    pub holds: Holding,
}

/// The queues, and all other primitives that hold something.
#[derive(Drop)]
pub struct Kinds {
    pub queues: List<QueuePlace>,
    pub others: List<Holder>,
}

/// What the primitive holds.
pub fn holding_of(prim: &Prim) -> Holding
    ensures { IsHoldingOf result (component_of prim.now) }
{
    match prim {
        Prim::Source { out, mode, .. } => Holding::Pending {
            out: *out,
            mode: *mode,
        },
        Prim::Sink { input, mode } => Holding::Held {
            input: *input,
            mode: *mode,
        },
        Prim::Queue { input, out, .. } => Holding::Packets {
            input: *input,
            out: *out,
        },
        Prim::Merge { a, b, out } => Holding::Pref {
            a: *a,
            b: *b,
            out: *out,
        },
        Prim::Function { .. } | Prim::Fork { .. } | Prim::Join { .. } | Prim::Switch { .. } => {
            Holding::Nothing
        }
    }
}

/// Appends the primitive to its list, if it holds something.
fn push_kind(kinds: &mut Kinds, p: u32, prim: &Prim) -> Result<(), OutOfMemory>
    ensures { (ms : Components Component) → slice_get ms p ≡ Some (component_of prim.now)
        → AreKindsTo ms p kinds.old.queues.items kinds.old.others.items
        → OnOk result (AreKindsTo ms (p + 1) kinds.new.queues.items kinds.new.others.items) }
{
    match holding_of(prim) {
        Holding::Nothing => Ok(()),
        Holding::Packets { input, out } => kinds.queues.push(QueuePlace {
            prim: p,
            input,
            out,
        }),
        Holding::Pending { out, mode } => kinds.others.push(Holder {
            prim: p,
            holds: Holding::Pending { out, mode },
        }),
        Holding::Held { input, mode } => kinds.others.push(Holder {
            prim: p,
            holds: Holding::Held { input, mode },
        }),
        Holding::Pref { a, b, out } => kinds.others.push(Holder {
            prim: p,
            holds: Holding::Pref { a, b, out },
        }),
    }
}

/// The kinds of these primitives.
pub fn kinds_of(alloc: Global, prims: &[Prim]) -> Result<Kinds, OutOfMemory>
    requires { length prims.now < 2 ^ 32 }
    ensures { IfOk result (λ kinds. AreKindsTo (map component_of prims.now) (length prims.now) kinds.queues.items
        kinds.others.items) }
{
    let mut kinds = Kinds {
        queues: List::new(alloc),
        others: List::new(alloc),
    };
    for p in 0..prims.len() {
        push_kind(&mut kinds, p as u32, &prims[p])?;
    }
    Ok(kinds)
}
