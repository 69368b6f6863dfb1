//! A law over the definitions. A caller has it as the clause of a call.

ghost use Rattle.xm_writer.specs.Texts.{NamesFound};

/// Each name of a valid document is a text, and stands first at its own number.
pub fn names_found()
    ensures { NamesFound }
{}
