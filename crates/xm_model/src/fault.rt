//! Why a net is none.

ghost use Rattle.std.specs.Prelude.{◌≡◌};
ghost use Rattle.xm_model.specs.declared.fault.NewFault.TheVariants as faults;

use crate::memory::OutOfMemory;

/// What is wrong with a channel, which each names first: no port offers on it, two do, no port takes
/// from it, two do. The primitives are the first two in order, and may be the same.
#[derive(Clone, Copy, PartialEq, Eq, Debug)]
pub enum WiringFault {
    NoInitiator(u32),
    TwoInitiators(u32, u32, u32),
    NoTarget(u32),
    TwoTargets(u32, u32, u32),
}

/// Why `Net::new` gave no net.
#[derive(Clone, Copy, PartialEq, Eq, Debug)]
pub enum NewFault {
    Wiring(WiringFault),
    OutOfMemory,
}

impl From<OutOfMemory> for NewFault {
    ghost from_gives = { λ _ fault. fault ≡ faults.OutOfMemory };

    fn from(_: OutOfMemory) -> NewFault {
        NewFault::OutOfMemory
    }
}
