//! Why a net is no design.

ghost use Rattle.std.specs.Prelude.{◌≡◌};
ghost use Rattle.xm_design.specs.declared.fault.NetFault.TheVariants as faults;

use xm_colours::ColourFault;
use xm_model::{List, OutOfMemory};
use xm_order::Signal;

/// Why a net is no design: a list of allowed colours refuses a pair, or the dependence of its signals has
/// a loop, which is named from its least signal on.
#[derive(Drop)]
pub enum NetFault {
    Allow(ColourFault),
    CombLoop(List<Signal>),
    OutOfMemory,
}

impl From<OutOfMemory> for NetFault {
    ghost from_gives = { λ _ fault. fault ≡ faults.OutOfMemory };

    fn from(_: OutOfMemory) -> NetFault {
        NetFault::OutOfMemory
    }
}

impl From<ColourFault> for NetFault {
    ghost from_gives = { λ refused fault. fault ≡ faults.Allow refused };

    fn from(refused: ColourFault) -> NetFault {
        NetFault::Allow(refused)
    }
}
