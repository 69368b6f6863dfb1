//! Why bytes are no document.

ghost use Rattle.std.specs.Prelude.{◌≡◌};
ghost use Rattle.xm_shape.specs.Gives.{shape_fault};
ghost use Rattle.xm_shape.specs.declared.fault.DocFault.TheVariants as faults;

use std::alloc::{AllocError, AllocFailed};
use xm_json::PathFault;
use xm_model::{Names, Text, WiringFault};

/// What is out of its limits: the colours, the primitives or the channels of a net, the colours of a
/// source, the capacity of a queue, the sum of all capacities, the first packets of a queue.
#[derive(Clone, Copy, PartialEq, Eq, Debug)]
pub enum Which {
    Colours,
    Primitives,
    Channels,
    SourceColours,
    Capacity,
    CapacitySum,
    Initial,
}

/// The first fault of a document. A path is made of member names and list places joined by dots, and that
/// of the root is `-`. `Limit` tells the count that is out of its limits. `Wiring` comes with the names of
/// the net, so that its channel and primitives can be named.
#[derive(Drop)]
pub enum DocFault {
    NotJson,
    Shape(Text),
    UnknownKind(Text),
    UnknownColour(Text),
    BadName(Text),
    SameName(Text),
    Limit(Which, u64),
    Wiring(WiringFault, Names),
    OutOfMemory,
}

impl<T: Drop> From<AllocFailed<T>> for DocFault {
    ghost from_gives = { λ _ fault. fault ≡ faults.OutOfMemory };

    fn from(_: AllocFailed<T>) -> DocFault {
        DocFault::OutOfMemory
    }
}

impl From<AllocError> for DocFault {
    ghost from_gives = { λ _ fault. fault ≡ faults.OutOfMemory };

    fn from(_: AllocError) -> DocFault {
        DocFault::OutOfMemory
    }
}

impl From<xm_model::OutOfMemory> for DocFault {
    ghost from_gives = { λ _ fault. fault ≡ faults.OutOfMemory };

    fn from(_: xm_model::OutOfMemory) -> DocFault {
        DocFault::OutOfMemory
    }
}

impl From<PathFault> for DocFault {
    ghost from_gives = { λ fault now. now ≡ shape_fault fault };

    fn from(fault: PathFault) -> DocFault {
        match fault {
            PathFault::Broken(path) => DocFault::Shape(path),
            PathFault::OutOfMemory => DocFault::OutOfMemory,
        }
    }
}
