//! Laws over the definitions. A caller has each as the clause of a call.

ghost use Rattle.xm_commands.specs.OneAnswer.{NoOutputOfRefused, OneOutput, OneRefusal};
ghost use Rattle.xm_commands.specs.OneDemonstration.{OneDemonstration};
ghost use Rattle.xm_commands.specs.PrintedInvariants.{PrintedHold};
ghost use Rattle.xm_commands.specs.ProvedText.{ProvedVerify};
ghost use Rattle.xm_commands.specs.VerifiedProof.{VerifiedHold};

use xm_check::{one_verdict, proofs_hold};
use xm_elim::{ends_exclude, one_end, one_overflow};
use xm_flow::lemmas_hold;
use xm_order::{no_loop, one_run};

/// A command but `prove` has at most one output for given bytes, and it turns out in one way.
pub fn one_output()
    ensures { OneOutput }
{
    one_run();
    one_end();
    one_verdict();
}

/// Bytes that a command refuses have no output, but that a search may leave 128 bits or not.
pub fn no_output_of_refused()
    ensures { NoOutputOfRefused }
{
    no_loop();
    ends_exclude();
}

/// Two refusals of the same bytes by the same command, but by `prove`, have the same status, and the same line but for which loop is
/// named.
pub fn one_refusal()
    ensures { OneRefusal }
{
    no_loop();
    one_overflow();
}

/// Each invariant that `inv` prints for a document holds at each state of each run of its net.
pub fn printed_invariants_hold()
    ensures { PrintedHold }
{
    lemmas_hold();
}

/// Where `verify` says yes of a document, no channel of its net jams on a fair repeating run from reset.
pub fn verified_nets_hold()
    ensures { VerifiedHold }
{
    proofs_hold();
}

/// Where `prove` finds a proof, `verify` says yes of the document that it prints.
pub fn proved_texts_verify()
    ensures { ProvedVerify }
{}

/// What `demo` prints hangs on the size and the seed alone.
pub fn one_demonstration()
    ensures { OneDemonstration }
{
    one_run();
}
