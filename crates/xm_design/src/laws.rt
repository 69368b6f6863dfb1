//! Laws over the runs of a net and over its sources and sinks. A caller has each as the clause of a call.

ghost use Rattle.xm_design.specs.ColouredRuns.{ColoursHold, FitsHold, FitsNext};
ghost use Rattle.xm_design.specs.Oracles.{OneOracleCount};

/// On every run each offer on a channel is one of its colours, and each packet of a queue is a colour of
/// the queue's output.
pub fn colours_hold()
    ensures { ColoursHold }
{}

/// Every state of a run fits its net.
pub fn fits_hold()
    ensures { FitsHold }
{}

/// The state after a cycle from any fitting state, under choices that fit, fits its net.
pub fn fits_next()
    ensures { FitsNext }
{}

/// The number of sources and sinks that `Design::oracle_count` gives is the length of their list.
pub fn one_oracle_count()
    ensures { OneOracleCount }
{}
