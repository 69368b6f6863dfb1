//! An order of all signals of a net.

use crate::signal::Signal;
use std::marker::Model;
use xm_model::List;

/// All signals of a net, each after those on which it depends. A contract sees the list.
#[derive(Drop)]
pub struct Order {
    signals: List<Signal>,
}

impl Model for Order {
    ghost use Rattle.std.specs.Prelude.{List};
    ghost use Rattle.xm_order.specs.declared.signal.Signal.{Signal};

    ghost Value = { List Signal };

    ghost view = { λ o. o.signals.items };
}

impl Order {
    ghost use Rattle.std.specs.Prelude.{◌≡◌};

    pub(crate) fn new(signals: List<Signal>) -> Order
        ensures { result ≡ signals.items }
    {
        Order { signals }
    }

    /// Lends the signals, in order.
    pub fn signals(&self) -> &List<Signal>
        ensures { result.now.items ≡ self.now }
    {
        &self.signals
    }
}
