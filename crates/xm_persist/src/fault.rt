//! Why a design is not persistent.

ghost use Rattle.std.specs.Prelude.{◌≡◌};
ghost use Rattle.xm_persist.specs.declared.fault.PersistFault.TheVariants as faults;

use xm_model::OutOfMemory;

/// Why a design is not persistent: a channel is granted no persistent initiator, which is named.
#[derive(Clone, Copy, PartialEq, Eq, Debug)]
pub enum PersistFault {
    NotPersistent(u32),
    OutOfMemory,
}

impl From<OutOfMemory> for PersistFault {
    ghost from_gives = { λ _ fault. fault ≡ faults.OutOfMemory };

    fn from(_: OutOfMemory) -> PersistFault {
        PersistFault::OutOfMemory
    }
}
