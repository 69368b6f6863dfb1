//! Laws over the rounds of a run. A caller has each as the clause of a call.

ghost use Rattle.xm_trace.specs.Rounds.{RoundsFollow, RoundsJoin};

/// The lines of two rounds, one after the other, are those of both in one. So what `RunText::add` gave, round
/// after round, and then what `RunText::end` gave is the text of the run.
pub fn rounds_join()
    ensures { RoundsJoin }
{}

/// A text that has had the first cycles of a tape's run may have what `run_round` gives of the next.
pub fn rounds_follow()
    ensures { RoundsFollow }
{
    xm_order::one_run();
}
