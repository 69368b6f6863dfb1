//! Laws over the definitions. A caller has each as the clause of a call.

ghost use Rattle.xm_check.specs.Laws.{OneVerdict, ProofsHold};

/// A proof has at most one verdict: one that is valid has no break.
pub fn one_verdict()
    ensures { OneVerdict }
{}

/// Where a proof is valid over the flow rows of a design, no channel jams on a fair repeating run.
pub fn proofs_hold()
    ensures { ProofsHold }
{
    xm_lits::rules_hold();
    xm_lits::clashes_hold();
    xm_lits::jams_are_dead();
    xm_design::colours_hold();
    xm_flow::lemmas_hold();
}
