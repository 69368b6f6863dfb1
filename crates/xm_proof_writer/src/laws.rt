//! Laws over the definitions. A caller has each as the clause of a call.

ghost use Rattle.xm_proof_writer.specs.Writable.{InvariantsCanBeWritten, NamesTell};

use xm_writer::names_found;

/// The names of a valid document tell the channels, colours and queues of a design of its net.
pub fn names_tell()
    ensures { NamesTell }
{
    names_found();
}

/// The invariants that an elimination leaves can be written.
pub fn invariants_can_be_written()
    ensures { InvariantsCanBeWritten }
{}
