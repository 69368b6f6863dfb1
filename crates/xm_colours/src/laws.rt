//! A law over the definitions. A caller has it as the clause of a call.

ghost use Rattle.xm_colours.specs.Cuts.{CutsHold};

/// In the least family a switch's outputs have no colours but those that go there.
pub fn cuts_hold()
    ensures { CutsHold }
{}
