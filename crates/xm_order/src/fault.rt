//! Why a net has no order.

ghost use Rattle.std.specs.Prelude.{◌≡◌};
ghost use Rattle.xm_order.specs.declared.fault.OrderFault.TheVariants as fault;

use crate::signal::Signal;
use xm_model::{List, OutOfMemory};

/// Why `order` gave no order: there is a loop of the dependence, which is named, or no memory.
#[derive(Drop)]
pub enum OrderFault {
    CombLoop(List<Signal>),
    OutOfMemory,
}

impl From<OutOfMemory> for OrderFault {
    ghost from_gives = { λ _ f. f ≡ fault.OutOfMemory };

    fn from(_: OutOfMemory) -> OrderFault {
        OrderFault::OutOfMemory
    }
}
