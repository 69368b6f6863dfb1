//! What a reader of proofs knows: the design, its names and its queue pairs.

ghost use Rattle.std.specs.Prelude.{◌≡◌, IfOk, Some, option_and_then, slice_get};
ghost use Rattle.serde_json.specs.Find.{as_str};
ghost use Rattle.serde_json.specs.View.{view};
ghost use Rattle.xm_model.specs.Naming.{naming_of};
ghost use Rattle.xm_proof.specs.Tests.{queue_columns};
ghost use Rattle.xm_proof_reader.specs.Inner.Outputs.{output_of};
ghost use Rattle.xm_proof_reader.specs.Views.{known_of};
ghost use Rattle.xm_proof_reader.specs.Known as spec;

use crate::name_table::NameTable;
use serde_json::Value;
use std::alloc::Global;
use xm_design::Design;
use xm_model::{Names, OutOfMemory, Prim};

/// The design whose net a proof speaks of, and the names of its primitives, channels and colours.
#[derive(Drop)]
pub struct Known<'a> {
    pub design: &'a Design,
    pub prims: NameTable<'a>,
    pub channels: NameTable<'a>,
    pub colours: NameTable<'a>,
}

impl<'a> Known<'a> {
    /// What is known of a design by these names, in time that grows with the names. Fails only for want of memory.
    pub fn new(
        alloc: Global,
        design: &'a Design,
        names: &'a Names,
    ) -> Result<Known<'a>, OutOfMemory>
        ensures { IfOk result (λ known. known_of known ≡ spec.known_by design.now (naming_of names.now)) }
    {
        let prims = NameTable::new(alloc, names.prims.as_slice())?;
        let channels = NameTable::new(alloc, names.channels.as_slice())?;
        let colours = NameTable::new(alloc, names.colours.as_slice())?;
        Ok(Known {
            design,
            prims,
            channels,
            colours,
        })
    }
}

/// The number of the channel with this name.
fn channel_named(known: &Known<'_>, name: &str) -> Option<u32>
    ensures { result ≡ spec.channel_named (known_of known.now) name.now }
{
    match known.channels.place(name) {
        Some(c) if c < known.design.net().channels() as usize => Some(c as u32),
        _ => None,
    }
}

/// The number of the colour with this name.
fn colour_named(known: &Known<'_>, name: &str) -> Option<u8>
    ensures { result ≡ spec.colour_named (known_of known.now) name.now }
{
    match known.colours.place(name) {
        Some(d) if d < known.design.net().colours() as usize => Some(d as u8),
        _ => None,
    }
}

/// The place as a number, where it is that of a queue.
fn queue_number(design: &Design, place: usize) -> Option<u32>
    ensures { result ≡ spec.only_queue design.now.net (Some place) }
{
    let net = design.net();
    if place >= net.prims().len() {
        return None;
    }
    match net.prim(place as u32) {
        Prim::Queue { .. } => Some(place as u32),
        _ => None,
    }
}

/// The number of the queue with this name.
fn queue_named(known: &Known<'_>, name: &str) -> Option<u32>
    ensures { result ≡ spec.queue_named (known_of known.now) name.now }
{
    match known.prims.place(name) {
        Some(place) => queue_number(known.design, place),
        None => None,
    }
}

/// The number of the channel that the value names.
pub fn channel_in(known: &Known<'_>, value: &Value) -> Option<u32>
    ensures { result ≡ option_and_then (spec.channel_named (known_of known.now)) (as_str (view value.now)) }
{
    match value.as_str() {
        Some(name) => channel_named(known, name),
        None => None,
    }
}

/// The number of the colour that the value names.
pub fn colour_in(known: &Known<'_>, value: &Value) -> Option<u8>
    ensures { result ≡ option_and_then (spec.colour_named (known_of known.now)) (as_str (view value.now)) }
{
    match value.as_str() {
        Some(name) => colour_named(known, name),
        None => None,
    }
}

/// The number of the queue that the value names.
pub fn queue_in(known: &Known<'_>, value: &Value) -> Option<u32>
    ensures { result ≡ option_and_then (spec.queue_named (known_of known.now)) (as_str (view value.now)) }
{
    match value.as_str() {
        Some(name) => queue_named(known, name),
        None => None,
    }
}

/// The output of the primitive with this number, where it is a queue.
fn queue_output(design: &Design, q: u32) -> Option<u32>
    ensures { result ≡ output_of (slice_get design.now.net.prims q) }
{
    let net = design.net();
    if q as usize >= net.prims().len() {
        return None;
    }
    match net.prim(q) {
        Prim::Queue { out, .. } => Some(*out),
        _ => None,
    }
}

/// The place of a queue pair among all.
pub fn pair_place(design: &Design, q: u32, d: u8) -> Option<u32>
    ensures { result ≡ spec.pair_from 0 (queue_columns design.now) q d }
{
    design.is_designed();
    let Some(out) = queue_output(design, q) else {
        return None;
    };
    if !design.colours().has(out, d) {
        return None;
    }
    Some(design.queue_pair(q, d))
}
