//! Nets that are well wired, and the first fault of those that are not.

ghost use Rattle.std.specs.Prelude.{◌≡◌, ℕ, ◌+◌, ◌<◌, ◌≤◌, [], ◌∷◌, ◌++◌, map, length, All, slice_get, slice_index, List as Items, IfOk, IfErr, IfSome, IfNone, Some, None};
ghost use Rattle.std.specs.Option.{option_to_list};
ghost use Rattle.xm_model.specs.Component.{component_of};
ghost use Rattle.xm_model.specs.Net.{inputs, outputs, ports, initiators, targets, IsWellWired, IsFirstFault};
ghost use Rattle.xm_model.specs.Limits.{most_channels, most_primitives};
ghost use Rattle.xm_model.specs.Inner.FirstTwo.{IsFirstCountedFault, AreFirstTwo, counted_fault_at, ports_by, counted_fault, with_end};

use crate::fault::{NewFault, WiringFault};
use crate::list::List;
use crate::memory::OutOfMemory;
use crate::primitive::Prim;
use std::alloc::Global;
use std::marker::Model;

/// The first two primitives that were met at a channel.
#[derive(Clone, Copy)]
pub struct FirstTwo {
    first: Option<u32>,
    second: Option<u32>,
}

/// The channels of a primitive's output ports, in order.
fn outputs_of(prim: &Prim) -> (Option<u32>, Option<u32>)
    ensures { option_to_list result.0 ++ option_to_list result.1 ≡ outputs (component_of prim.now) }
{
    match prim {
        Prim::Source { out, .. } => (Some(*out), None),
        Prim::Sink { .. } => (None, None),
        Prim::Queue { out, .. } => (Some(*out), None),
        Prim::Function { out, .. } => (Some(*out), None),
        Prim::Fork { a, b, .. } => (Some(*a), Some(*b)),
        Prim::Join { out, .. } => (Some(*out), None),
        Prim::Switch { a, b, .. } => (Some(*a), Some(*b)),
        Prim::Merge { out, .. } => (Some(*out), None),
    }
}

/// The channels of its input ports, in order.
fn inputs_of(prim: &Prim) -> (Option<u32>, Option<u32>)
    ensures { option_to_list result.0 ++ option_to_list result.1 ≡ inputs (component_of prim.now) }
{
    match prim {
        Prim::Source { .. } => (None, None),
        Prim::Sink { input, .. } => (Some(*input), None),
        Prim::Queue { input, .. } => (Some(*input), None),
        Prim::Function { input, .. } => (Some(*input), None),
        Prim::Fork { input, .. } => (Some(*input), None),
        Prim::Join { a, b, .. } => (Some(*a), Some(*b)),
        Prim::Switch { input, .. } => (Some(*input), None),
        Prim::Merge { a, b, .. } => (Some(*a), Some(*b)),
    }
}

/// The same with one more primitive.
fn with_one_more(it: FirstTwo, p: u32) -> FirstTwo
    ensures { result ≡ with_end it p }
{
    match (it.first, it.second) {
        (None, second) => FirstTwo {
            first: Some(p),
            second,
        },
        (Some(x), None) => FirstTwo {
            first: Some(x),
            second: Some(p),
        },
        (Some(_), Some(_)) => it,
    }
}

fn note(met: &mut [FirstTwo], c: u32, p: u32)
    requires { c < length met.old }
    ensures { (es : Items (ℕ × ℕ)) → AreFirstTwo es met.old → AreFirstTwo (es ++ (c, p) ∷ []) met.new }
{
    met[c as usize] = with_one_more(met[c as usize], p);
}

fn note_if(met: &mut [FirstTwo], c: Option<u32>, p: u32)
    requires { All (λ c. c < length met.old) (option_to_list c) }
    ensures { (es : Items (ℕ × ℕ)) → AreFirstTwo es met.old
        → AreFirstTwo (es ++ map (λ c. (c, p)) (option_to_list c)) met.new }
{
    if let Some(c) = c {
        note(met, c, p);
    }
}

/// Notes the ports of primitive `p`.
fn note_ports(met: &mut [FirstTwo], prim: &Prim, p: u32, is_output: bool)
    requires { All (λ c. c < length met.old) (ports_by is_output (component_of prim.now)) }
    ensures { (es : Items (ℕ × ℕ)) → AreFirstTwo es met.old
        → AreFirstTwo (es ++ map (λ c. (c, p)) (ports_by is_output (component_of prim.now))) met.new }
{
    let (first, second) = ports_of(prim, is_output);
    note_if(met, first, p);
    note_if(met, second, p);
}

fn ports_of(prim: &Prim, is_output: bool) -> (Option<u32>, Option<u32>)
    ensures { ports_by is_output (component_of prim.now) ≡ option_to_list result.0 ++ option_to_list result.1 }
{
    if is_output {
        outputs_of(prim)
    } else {
        inputs_of(prim)
    }
}

/// Meets each port.
fn count(met: &mut [FirstTwo], prims: &[Prim], is_output: bool)
    requires few { length prims.now ≤ most_primitives }
    requires fit { All (λ m. All (λ c. c < length met.old) (ports_by is_output m)) (map component_of prims.now) }
    requires fresh { AreFirstTwo [] met.old }
    ensures { AreFirstTwo (ports (ports_by is_output) (map component_of prims.now) 0) met.new }
{
    for (p, prim) in prims.iter().enumerate() {
        note_ports(met, prim, p as u32, is_output);
    }
}

/// The first fault at channel `c`.
fn fault_of(c: u32, initiator: &FirstTwo, target: &FirstTwo) -> Option<WiringFault>
    ensures { result ≡ counted_fault c initiator.now target.now }
{
    match (initiator.first, initiator.second) {
        (None, _) => Some(WiringFault::NoInitiator(c)),
        (Some(p), Some(q)) => Some(WiringFault::TwoInitiators(c, p, q)),
        (Some(_), None) => match (target.first, target.second) {
            (None, _) => Some(WiringFault::NoTarget(c)),
            (Some(p), Some(q)) => Some(WiringFault::TwoTargets(c, p, q)),
            (Some(_), None) => None,
        },
    }
}

/// The fault of the first channel that has one.
fn first_fault(by_outputs: &[FirstTwo], by_inputs: &[FirstTwo]) -> Option<WiringFault>
    requires few { length by_outputs.now ≤ most_channels }
    requires same { length by_inputs.now ≡ length by_outputs.now }
    ensures none { IfNone result ((c : ℕ) → c < length by_outputs.now
        → counted_fault_at by_outputs.now by_inputs.now c ≡ None) }
    ensures first { IfSome result (IsFirstCountedFault by_outputs.now by_inputs.now) }
{
    for c in 0..by_outputs.len() {
        let fault = fault_of(c as u32, &by_outputs[c], &by_inputs[c]);
        if fault.is_some() {
            return fault;
        }
    }
    None
}

/// No primitive was met at any channel.
fn none_met(alloc: Global, channels: u32) -> Result<List<FirstTwo>, OutOfMemory>
    ensures len { IfOk result (λ l. length l.items ≡ channels) }
    ensures fresh { IfOk result (λ l. AreFirstTwo [] l.items) }
{
    let none = FirstTwo {
        first: None,
        second: None,
    };
    List::filled(alloc, none, channels)
}

/// The first two primitives at each channel, by the output ports or by the input ports.
fn first_two_of(
    alloc: Global,
    channels: u32,
    prims: &[Prim],
    is_output: bool,
) -> Result<List<FirstTwo>, OutOfMemory>
    requires few { length prims.now ≤ most_primitives }
    requires fit { All (λ m. All (λ c. c < channels) (ports_by is_output m)) (map component_of prims.now) }
    ensures len { IfOk result (λ l. length l.items ≡ channels) }
    ensures met { IfOk result (λ l. AreFirstTwo (ports (ports_by is_output) (map component_of prims.now) 0) l.items) }
{
    let mut met = none_met(alloc, channels)?;
    count(met.as_mut_slice(), prims, is_output);
    Ok(met)
}

/// A net whose sizes keep their limits and whose channels each have one initiator and one target
/// (Chatterjee and Kishinevsky, CAV 2010). A contract sees its primitives, channels and colours.
#[derive(Drop)]
pub struct Net {
    prims: List<Prim>,
    channels: u32,
    colours: u32,
    by_outputs: List<FirstTwo>,
    by_inputs: List<FirstTwo>,
}

impl Model for Net {
    ghost use Rattle.xm_model.specs.Net.{Network};

    ghost Value = { Network };

    ghost use Rattle.xm_model.specs.Net.{network_of};
    ghost use Rattle.xm_model.specs.Inner.Kept.{IsKept};

    ghost view = { λ n. network_of n.prims.items n.channels n.colours };

    ghost invariant = { λ n. IsKept (network_of n.prims.items n.channels n.colours)
        n.by_outputs.items n.by_inputs.items };
}

impl Net {
    ghost use Rattle.std.specs.Prelude.{◌≡◌, ◌<◌, ◌∷◌, [], IfOk, slice_get, length};
    ghost use Rattle.xm_model.specs.Net.{IsNet, IsWellWired, IsFirstFault, IsWithinLimits, initiators, targets, network_of};
    ghost use Rattle.xm_model.specs.Ports.{IsInitiator, IsTarget};
    ghost use Rattle.xm_model.specs.Component.{component_of};

    /// The net of these primitives, or the fault of the first channel that is not the output of exactly
    /// one port and the input of exactly one port. Each port counts, so that a primitive's two ports on
    /// one channel are two. One pass over the ports and one over the channels.
    pub fn new(
        alloc: Global,
        prims: List<Prim>,
        channels: u32,
        colours: u32,
    ) -> Result<Net, NewFault>
        requires { IsWithinLimits (network_of prims.items channels colours) }
        ensures ok { IfOk result (λ net. net ≡ network_of prims.items channels colours) }
        ensures net { IfOk result IsNet }
        ensures wiring { (fault : _) → result ≡ Err (NewFault.Wiring fault)
            → IsFirstFault (network_of prims.items channels colours) fault }
    {
        let by_outputs = first_two_of(alloc, channels, prims.as_slice(), true)?;
        let by_inputs = first_two_of(alloc, channels, prims.as_slice(), false)?;
        match first_fault(by_outputs.as_slice(), by_inputs.as_slice()) {
            Some(fault) => Err(NewFault::Wiring(fault)),
            None => Ok(Net {
                prims,
                channels,
                colours,
                by_outputs,
                by_inputs,
            }),
        }
    }

    /// Lends the primitives, in order.
    pub fn prims(&self) -> &List<Prim>
        ensures prims { map component_of result.now.items ≡ self.now.prims }
        ensures net { IsNet self.now }
    {
        &self.prims
    }

    /// Lends the primitive with this number.
    pub fn prim(&self, number: u32) -> &Prim
        requires { number < length self.now.prims }
        ensures { slice_get self.now.prims number ≡ Some (component_of result.now) }
    {
        &self.prims.as_slice()[number as usize]
    }

    /// A net keeps its limits and is well wired. The call does nothing, and its caller has that fact.
    pub fn is_net(&self)
        ensures { IsNet self.now }
    {
        // The invariant is known where a field has been read.
        let _read = self.channels;
    }

    /// How many channels there are; they are numbered from 0.
    pub fn channels(&self) -> u32
        ensures value { result ≡ self.now.channels }
        ensures net { IsNet self.now }
    {
        self.channels
    }

    /// How many colours there are; they are numbered from 0.
    pub fn colours(&self) -> u32
        ensures { result ≡ self.now.colours }
    {
        self.colours
    }

    /// The primitive that offers on the channel.
    pub fn initiator(&self, channel: u32) -> u32
        requires { channel < self.now.channels }
        ensures only { initiators self.now.prims channel ≡ result ∷ [] }
        ensures within { result < length self.now.prims }
        ensures initiator { IsInitiator self.now result channel }
    {
        self.by_outputs.as_slice()[channel as usize]
            .first
            .unwrap_or(0)
    }

    /// The primitive that accepts from the channel.
    pub fn target(&self, channel: u32) -> u32
        requires { channel < self.now.channels }
        ensures only { targets self.now.prims channel ≡ result ∷ [] }
        ensures within { result < length self.now.prims }
        ensures target { IsTarget self.now result channel }
    {
        self.by_inputs.as_slice()[channel as usize]
            .first
            .unwrap_or(0)
    }
}
