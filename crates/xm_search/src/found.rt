//! What a search finds.

use xm_lits::Lit;
use xm_model::{List, OutOfMemory};
use xm_proof::Proof;

/// Literals that answer all rules and hold no clash, with counts over a denominator that meet what they say of packets.
#[derive(Drop)]
pub struct Candidate {
    pub goal: Lit,
    pub lits: List<Lit>,
    pub denominator: i128,
    pub counts: List<i128>,
}

/// What is found for all goals.
#[derive(Drop)]
pub enum Found {
    Proved(Proof),
    Open(Candidate),
    Spent {
        partial: Proof,
        nodes: u64,
        pivots: u64,
    },
}

/// Why nothing is found: the tableau leaves 128 bits on the constraints of a path, after so many pivots.
#[derive(Drop)]
pub enum SearchFault {
    Overflow { path: List<Lit>, pivots: u64 },
    OutOfMemory,
}

impl From<OutOfMemory> for SearchFault {
    ghost use Rattle.std.specs.Prelude.{◌≡◌};
    ghost use Rattle.xm_search.specs.declared.found.SearchFault.TheVariants as fault;

    ghost from_gives = { λ _ f. f ≡ fault.OutOfMemory };

    fn from(_: OutOfMemory) -> SearchFault {
        SearchFault::OutOfMemory
    }
}
