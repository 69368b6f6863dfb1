//! Designs of which every channel is persistent.

ghost use Rattle.std.specs.Prelude.{◌≡◌, ◌<◌, ◌≤◌, ℕ, false, true, length, slice_get, IfNone, IfOk, IfSome, Some};
ghost use Rattle.xm_model.specs.Limits.{most_channels};
ghost use Rattle.xm_persist.specs.Inner.Persistencies.{granted_in};
ghost use Rattle.xm_order.specs.declared.signal.Signal.TheVariants as signal;
ghost use Rattle.xm_persist.specs.Rights.{AllGranted, IsFirstUngranted};

use crate::fault::PersistFault;
use crate::persistencies::{Persistency, persistencies_of};
use std::alloc::Global;
use std::marker::Model;
use xm_design::Design;
use xm_model::{Net, OutOfMemory};

/// Stands for the net of a design, every channel of which is granted a persistent initiator. A contract
/// sees the net.
#[derive(Drop)]
pub struct Persistent<'a> {
    design: &'a Design,
}

impl<'a> Model for Persistent<'a> {
    ghost use Rattle.xm_model.specs.Net.{Network};

    ghost Value = { Network };

    ghost use Rattle.xm_persist.specs.Rights.{AllGranted};

    ghost view = { λ p. p.design.now.net };

    ghost invariant = { λ p. AllGranted p.design.now.net };
}

impl<'a> Persistent<'a> {
    ghost use Rattle.std.specs.Prelude.{◌≡◌};
    ghost use Rattle.xm_model.specs.Net.{IsNet};
    ghost use Rattle.xm_persist.specs.Rights.{AllGranted};

    /// Lends the net, of which a holder knows that every channel is granted a persistent initiator.
    pub fn net(&self) -> &Net
        ensures value { result.now ≡ self.now }
        ensures granted { AllGranted self.now }
        ensures net { IsNet self.now }
    {
        self.design.net()
    }
}

/// The first channel whose initiator was not found to be granted.
fn first_not_granted(found: &[Persistency]) -> Option<u32>
    requires { length found.now ≤ most_channels }
    ensures none { IfNone result ((c : ℕ) → c < length found.now → granted_in found.now (signal.Offer c) ≡ true) }
    ensures within { IfSome result (λ c. c < length found.now) }
    ensures ungranted { IfSome result (λ c. granted_in found.now (signal.Offer c) ≡ false) }
    ensures below { IfSome result (λ c. (e : ℕ) → e < c → granted_in found.now (signal.Offer e) ≡ true) }
{
    for c in 0..found.len() {
        if !found[c].initiator {
            return Some(c as u32);
        }
    }
    None
}

/// The first channel, by number, that is granted no persistent initiator.
fn first_ungranted(alloc: Global, design: &Design) -> Result<Option<u32>, OutOfMemory>
    ensures none { IfOk result (λ found. IfNone found (AllGranted design.now.net)) }
    ensures some { IfOk result (λ found. IfSome found (IsFirstUngranted design.now.net)) }
{
    let net = design.net();
    net.is_net();
    let order = design.order().signals();
    let found = persistencies_of(alloc, net, order.as_slice())?;
    Ok(first_not_granted(found.as_slice()))
}

/// Whether every channel of the design is granted a persistent initiator; else the first, by number, that
/// is not. Time is linear in the channels and primitives.
pub fn persist(alloc: Global, design: &Design) -> Result<Persistent<'_>, PersistFault>
    ensures net { IfOk result (λ persistent. persistent ≡ design.now.net) }
    ensures granted { IfOk result (λ _. AllGranted design.now.net) }
    ensures refused { (c : _) → result ≡ Err (PersistFault.NotPersistent c) → IsFirstUngranted design.now.net c }
{
    match first_ungranted(alloc, design)? {
        Some(c) => Err(PersistFault::NotPersistent(c)),
        None => Ok(Persistent { design }),
    }
}
