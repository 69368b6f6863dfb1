//! Why a value is no proof.

ghost use Rattle.std.specs.Prelude.{◌≡◌};
ghost use Rattle.xm_proof_reader.specs.Gives.{form_fault};
ghost use Rattle.xm_proof_reader.specs.declared.fault.ProofFault.TheVariants as faults;

use xm_json::PathFault;
use xm_model::{OutOfMemory, Text};

/// The first break of a proof's form, by its path, which begins with `proof`; or memory ran out.
#[derive(Drop)]
pub enum ProofFault {
    Form(Text),
    OutOfMemory,
}

impl From<PathFault> for ProofFault {
    ghost from_gives = { λ fault now. now ≡ form_fault fault };

    fn from(fault: PathFault) -> ProofFault {
        match fault {
            PathFault::OutOfMemory => ProofFault::OutOfMemory,
            PathFault::Broken(path) => ProofFault::Form(path),
        }
    }
}

/// Want of memory says nothing else.
impl From<OutOfMemory> for ProofFault {
    ghost from_gives = { λ _ fault. fault ≡ faults.OutOfMemory };

    fn from(_: OutOfMemory) -> ProofFault {
        ProofFault::OutOfMemory
    }
}
