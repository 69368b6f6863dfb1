//! Why a test of a proof stops.

ghost use Rattle.std.specs.Prelude.{◌≡◌};
ghost use Rattle.xm_check.specs.Inner.Gives.{Gives, halted};
ghost use Rattle.xm_model.specs.Steps as spec;

use xm_model::OutOfMemory;
use xm_proof::{ProofPath, Reason};

/// The proof breaks, for this reason, or there is no memory.
#[derive(Clone, Copy)]
pub enum Stop {
    Break(Reason),
    OutOfMemory,
}

/// The proof breaks there, for this reason, or there is no memory.
#[derive(Clone, Copy)]
pub enum Halt {
    At(ProofPath, Reason),
    OutOfMemory,
}

/// The stop, with its place.
pub fn at(place: ProofPath, stop: Stop) -> Halt
    ensures { result ≡ halted place stop }
{
    match stop {
        Stop::Break(why) => Halt::At(place, why),
        Stop::OutOfMemory => Halt::OutOfMemory,
    }
}

impl From<OutOfMemory> for Stop {
    ghost use Rattle.std.specs.Prelude.{◌≡◌};
    ghost use Rattle.xm_check.specs.declared.stop.Stop.TheVariants as stop;

    ghost from_gives = { λ _ s. s ≡ stop.OutOfMemory };

    fn from(_: OutOfMemory) -> Stop {
        Stop::OutOfMemory
    }
}

/// Goes on where the test holds, else stops for this reason.
pub fn demand(test: bool, why: Reason) -> Result<(), Stop>
    ensures { Gives (λ x. x) result (spec.check test why) }
{
    if test { Ok(()) } else { Err(Stop::Break(why)) }
}
