//! Which rights are granted, found along an order of the signals.

ghost use Rattle.std.specs.Prelude.{◌≡◌, ◌<◌, ◌&&◌, length, IfOk};
ghost use Rattle.xm_model.specs.Component.{component_of};
ghost use Rattle.xm_order.specs.Dependence.{IsOrder, channel_of};
ghost use Rattle.xm_order.specs.declared.signal.Signal.TheVariants as signal;
ghost use Rattle.xm_persist.specs.Inner.Persistencies as spec;
ghost use Rattle.xm_persist.specs.Inner.Persistencies.{AreExact, GrantedBy, OthersStay, granted_in};

use std::alloc::Global;
use xm_model::{List, Net, OutOfMemory, Prim, SinkMode, SourceMode};
use xm_order::Signal;

/// Whether the initiator of a channel, and its target, is granted to be persistent.
#[derive(Clone, Copy)]
pub struct Persistency {
    pub initiator: bool,
    pub target: bool,
}

fn is_granted(found: &[Persistency], it: Signal) -> bool
    ensures { result ≡ granted_in found.now it }
{
    match it {
        Signal::Offer(c) => match found.get(c as usize) {
            Some(persistency) => persistency.initiator,
            None => false,
        },
        Signal::Ready(c) => match found.get(c as usize) {
            Some(persistency) => persistency.target,
            None => false,
        },
    }
}

fn keeps_offer(mode: SourceMode) -> bool
    ensures { result ≡ spec.keeps_offer mode }
{
    match mode {
        SourceMode::Free => false,
        SourceMode::Keep | SourceMode::Eager | SourceMode::Fair => true,
    }
}

fn keeps_ready(mode: SinkMode) -> bool
    ensures { result ≡ spec.keeps_ready mode }
{
    match mode {
        SinkMode::Free => false,
        SinkMode::Keep => true,
    }
}

fn both(found: &[Persistency], first: Signal, second: Signal) -> bool
    ensures { result ≡ (granted_in found.now first && granted_in found.now second) }
{
    is_granted(found, first) && is_granted(found, second)
}

/// Whether the primitive is granted as the initiator of channel `c`, on which it offers.
fn grants_initiator(prim: &Prim, c: u32, found: &[Persistency]) -> bool
    ensures { result ≡ spec.grants_initiator (component_of prim.now) c (granted_in found.now) }
{
    match prim {
        Prim::Source { mode, .. } => keeps_offer(*mode),
        Prim::Sink { .. } => false,
        Prim::Queue { .. } => true,
        Prim::Function { input, .. } | Prim::Switch { input, .. } => {
            is_granted(found, Signal::Offer(*input))
        }
        Prim::Fork { input, a, b, .. } => {
            let other = if c == *a { *b } else { *a };
            both(found, Signal::Offer(*input), Signal::Ready(other))
        }
        Prim::Join { a, b, .. } | Prim::Merge { a, b, .. } => {
            both(found, Signal::Offer(*a), Signal::Offer(*b))
        }
    }
}

/// Whether the primitive is granted as the target of channel `c`, from which it takes.
fn grants_target(prim: &Prim, c: u32, found: &[Persistency]) -> bool
    ensures { result ≡ spec.grants_target (component_of prim.now) c (granted_in found.now) }
{
    match prim {
        Prim::Source { .. } => false,
        Prim::Sink { mode, .. } => keeps_ready(*mode),
        Prim::Queue { .. } | Prim::Switch { .. } | Prim::Merge { .. } => true,
        Prim::Function { out, .. } => is_granted(found, Signal::Ready(*out)),
        Prim::Fork { a, b, .. } => both(found, Signal::Ready(*a), Signal::Ready(*b)),
        Prim::Join { a, b, out, .. } => {
            let other = if c == *a { *b } else { *a };
            both(found, Signal::Ready(*out), Signal::Offer(other))
        }
    }
}

fn put_granted(found: &mut [Persistency], it: Signal, granted: bool)
    requires { channel_of it < length found.old }
    ensures value { granted_in found.new it ≡ granted }
    ensures only { OthersStay (granted_in found.old) (granted_in found.new) it }
{
    match it {
        Signal::Offer(c) => found[c as usize].initiator = granted,
        Signal::Ready(c) => found[c as usize].target = granted,
    }
}

/// Finds whether the right of one signal is granted, from those that it rests on.
fn grant(net: &Net, found: &mut [Persistency], it: Signal)
    requires whole { length found.old ≡ net.now.channels }
    requires channel { channel_of it < net.now.channels }
    ensures made { GrantedBy net.now (granted_in found.old) (granted_in found.new) it }
    ensures only { OthersStay (granted_in found.old) (granted_in found.new) it }
{
    match it {
        Signal::Offer(c) => {
            let granted = grants_initiator(net.prim(net.initiator(c)), c, found);
            put_granted(found, Signal::Offer(c), granted);
        }
        Signal::Ready(c) => {
            let granted = grants_target(net.prim(net.target(c)), c, found);
            put_granted(found, Signal::Ready(c), granted);
        }
    }
}

/// Finds which rights are granted, in the order of the signals.
fn grant_all(net: &Net, order: &[Signal], found: &mut [Persistency])
    requires order { IsOrder net.now order.now }
    requires whole { length found.old ≡ net.now.channels }
    ensures { AreExact net.now order.now (length order.now) (granted_in found.new) }
{
    net.is_net();
    for k in 0..order.len() {
        grant(net, found, order[k]);
    }
}

/// The rights of a net that are granted, found along an order of its signals in linear time.
pub fn persistencies_of(
    alloc: Global,
    net: &Net,
    order: &[Signal],
) -> Result<List<Persistency>, OutOfMemory>
    requires { IsOrder net.now order.now }
    ensures whole { IfOk result (λ found. length found.items ≡ net.now.channels) }
    ensures exact { IfOk result (λ found. AreExact net.now order.now (length order.now) (granted_in found.items)) }
{
    let none = Persistency {
        initiator: false,
        target: false,
    };
    let mut found = List::filled(alloc, none, net.channels())?;
    grant_all(net, order, found.as_mut_slice());
    Ok(found)
}
