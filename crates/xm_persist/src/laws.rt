//! Laws of persistency. A caller has each as the clause of a call.

ghost use Rattle.xm_persist.specs.Rights.{ForksTarget, GrantsHold, GrantsHoldOfRuns};

/// A granted right holds over any two consecutive cycles, from any state and with any choices.
pub fn grants_hold()
    ensures { GrantsHold }
{}

/// A granted right holds at every cycle of a run.
pub fn grants_hold_of_runs()
    ensures { GrantsHoldOfRuns }
{}

/// Where the initiators at both outputs of a fork are granted, so are the targets of both.
pub fn forks_target()
    ensures { ForksTarget }
{}
