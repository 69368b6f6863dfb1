//! The least closed family: from what sources and queues bring, each pair of a channel and a colour goes on
//! once through the primitive that takes from its channel.

ghost use Rattle.std.specs.Prelude.{◌≡◌, ℕ, ◌^◌, ◌<◌, [], ◌∷◌, ◌++◌, length, map, replicate, slice_set, IfOk, OnOk};
ghost use Rattle.std.specs.Option.{option_to_list};
ghost use Rattle.xm_colours.specs.Family.{AreColours, colours_at};
ghost use Rattle.xm_colours.specs.Inner.Spreading.{Adds, Covers, Fit, HasGiven, IsSpread, given, pair, sent, work_left};
ghost use Rattle.xm_colours.specs.Inner.Words.{Has};
ghost use Rattle.xm_model.specs.Component.{component_of};

use crate::colours::Colours;
use crate::pairs::{Pair, sent};
use crate::word::{contains, with};
use std::alloc::Global;
use xm_model::{List, Net, OutOfMemory, Prim};

/// How far the spread has come: the sets by channel, as words, and the pairs that are still to go on.
#[derive(Drop)]
pub struct Spread {
    words: List<u64>,
    pending: List<Pair>,
}

fn put_word(words: &mut [u64], c: u32, word: u64)
    requires { c < length words.old }
    ensures { words.new ≡ slice_set words.old c word }
{
    words[c as usize] = word;
}

impl Spread {
    /// No channel has a colour.
    fn none(alloc: Global, channels: u32) -> Result<Spread, OutOfMemory>
        ensures words { IfOk result (λ spread. spread.words.items ≡ replicate channels 0) }
        ensures pending { IfOk result (λ spread. spread.pending.items ≡ []) }
    {
        let words = List::filled(alloc, 0, channels)?;
        Ok(Spread {
            words,
            pending: List::new(alloc),
        })
    }

    /// The channel has the colour. Where that is new, the pair is to go on.
    fn add(&mut self, it: Pair) -> Result<(), OutOfMemory>
        requires channel { it.channel < length self.old.words.items }
        requires colour { it.colour < 64 }
        ensures { OnOk result (Adds (it ∷ []) self.old self.new) }
    {
        let word = self.words.as_slice()[it.channel as usize];
        if contains(word, it.colour) {
            return Ok(());
        }
        self.pending.push(it)?;
        put_word(self.words.as_mut_slice(), it.channel, with(word, it.colour));
        Ok(())
    }

    fn add_some(&mut self, it: Option<Pair>) -> Result<(), OutOfMemory>
        requires { Fit (option_to_list it) (length self.old.words.items) }
        ensures { OnOk result (Adds (option_to_list it) self.old self.new) }
    {
        match it {
            Some(it) => self.add(it),
            None => Ok(()),
        }
    }

    fn add_all(&mut self, channel: u32, colours: &[u8]) -> Result<(), OutOfMemory>
        requires { Fit (map (pair channel) colours.now) (length self.old.words.items) }
        ensures { OnOk result (Adds (map (pair channel) colours.now) self.old self.new) }
    {
        for colour in colours {
            self.add(Pair {
                channel,
                colour: *colour,
            })?;
        }
        Ok(())
    }

    /// What is given by the primitive itself: by a source its colours, by a queue its initial packets.
    fn add_given(&mut self, prim: &Prim) -> Result<(), OutOfMemory>
        requires { Fit (given (component_of prim.now)) (length self.old.words.items) }
        ensures { OnOk result (Adds (given (component_of prim.now)) self.old self.new) }
    {
        match prim {
            Prim::Source { out, colours, .. } => self.add_all(*out, colours.as_slice()),
            Prim::Sink { .. } => Ok(()),
            Prim::Queue { out, initial, .. } => self.add_all(*out, initial.as_slice()),
            Prim::Function { .. } => Ok(()),
            Prim::Fork { .. } => Ok(()),
            Prim::Join { .. } => Ok(()),
            Prim::Switch { .. } => Ok(()),
            Prim::Merge { .. } => Ok(()),
        }
    }

    fn add_each_given(&mut self, net: &Net) -> Result<(), OutOfMemory>
        requires { IsSpread net.now self.old }
        ensures spread { OnOk result (IsSpread net.now self.new) }
        ensures given { OnOk result (HasGiven net.now (length net.now.prims) self.new.words.items) }
    {
        net.is_net();
        for prim in net.prims().as_slice() {
            self.add_given(prim)?;
        }
        Ok(())
    }

    /// The pairs that the primitive sends on for one that comes in.
    fn add_sent(&mut self, prim: &Prim, it: Pair) -> Result<(), OutOfMemory>
        requires covers { Covers (component_of prim.now) it.colour }
        requires fit { Fit (sent (component_of prim.now) it) (length self.old.words.items) }
        ensures { OnOk result (Adds (sent (component_of prim.now) it) self.old self.new) }
    {
        let (first, second) = sent(prim, it);
        self.add_some(first)?;
        self.add_some(second)?;
        Ok(())
    }

    /// Takes the last of the pending pairs.
    fn take_last(&mut self) -> Pair
        requires some { 0 < length self.old.pending.items }
        requires short { length self.old.pending.items < 2 ^ 32 }
        ensures words { self.new.words.items ≡ self.old.words.items }
        ensures pending { self.old.pending.items ≡ self.new.pending.items ++ result ∷ [] }
    {
        let last = self.pending.len() - 1;
        self.pending.remove(last as u32)
    }

    /// One pending pair goes on through the primitive that takes from its channel.
    fn step(&mut self, net: &Net) -> Result<(), OutOfMemory>
        requires spread { IsSpread net.now self.old }
        requires some { 0 < length self.old.pending.items }
        ensures spread { OnOk result (IsSpread net.now self.new) }
        ensures less { OnOk result (work_left self.new < work_left self.old) }
        ensures kept { OnOk result ((c d : ℕ) → Has self.old.words.items c d → Has self.new.words.items c d) }
    {
        net.is_net();
        let it = self.take_last();
        let prim = net.prim(net.target(it.channel));
        self.add_sent(prim, it)?;
        Ok(())
    }

    fn step_all(&mut self, net: &Net) -> Result<(), OutOfMemory>
        requires { IsSpread net.now self.old }
        ensures spread { OnOk result (IsSpread net.now self.new) }
        ensures done { OnOk result (self.new.pending.items ≡ []) }
        ensures kept { OnOk result ((c d : ℕ) → Has self.old.words.items c d → Has self.new.words.items c d) }
    {
        while !self.pending.is_empty() {
            self.step(net)?;
        }
        Ok(())
    }
}

/// The least closed family of the net's channels: each colour that a source may offer or a queue begins
/// with, and what the primitives make of it. Each pair goes on once, so that the time is linear in the
/// channels and the pairs. Memory is a word a channel, and a place for each pair that is pending.
pub fn infer(alloc: Global, net: &Net) -> Result<Colours, OutOfMemory>
    ensures whole { IfOk result (λ colours. length colours ≡ net.now.channels) }
    ensures colours { IfOk result (λ colours. AreColours net.now (colours_at colours)) }
{
    let mut spread = Spread::none(alloc, net.channels())?;
    spread.add_each_given(net)?;
    spread.step_all(net)?;
    Ok(Colours::of(spread.words))
}
