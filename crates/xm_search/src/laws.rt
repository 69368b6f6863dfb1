//! Laws over the definitions. A caller has each as the clause of a call.

ghost use Rattle.xm_search.specs.CandidateLaw.{CandidatesExcludeTrees};

/// Goals that are refuted are not among the literals of a candidate: the goal of a candidate has no tree.
pub fn candidates_exclude_trees()
    ensures { CandidatesExcludeTrees }
{}
