//! Laws over the definitions. A caller has each as the clause of a call.

ghost use Rattle.xm_order.specs.Loop.{NoLoop};
ghost use Rattle.xm_order.specs.OneFrame.{OneFrame};
ghost use Rattle.xm_order.specs.OneRun.{OneRun};
ghost use Rattle.xm_order.specs.Settle.{SettlesAll};

/// In a net with an order each state and choice have exactly one frame.
pub fn one_frame()
    ensures { OneFrame }
{}

/// In a net with an order each tape has exactly one run: the states agree at every primitive and the
/// frames on every channel.
pub fn one_run()
    ensures { OneRun }
{}

/// A frame made signal by signal, each after those that it needs, is a frame.
pub fn settles_all()
    ensures { SettlesAll }
{}

/// A net with an order has no loop.
pub fn no_loop()
    ensures { NoLoop }
{}
