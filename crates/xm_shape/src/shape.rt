//! The shape of a document: from a JSON value to a net by its names, or to the first fault.

ghost use Rattle.std.specs.List.{list_all};
ghost use Rattle.std.specs.Prelude.{◌≡◌, codes, map, string_bytes};
ghost use Rattle.serde_json.specs.View.{members_view, view};
ghost use Rattle.xm_json.specs.Gives.{Gives};
ghost use Rattle.xm_json.specs.Path.{member_of, place_of};
ghost use Rattle.xm_json.specs.Values.{texts_at};
ghost use Rattle.xm_model.specs.Steps.{check, each};
ghost use Rattle.xm_shape.specs.Views.{allow_entry_of, plain_net_of, names_of, named_primitive_of, plain_root_of};
ghost use Rattle.xm_shape.specs.Gives as document;
ghost use Rattle.xm_shape.specs.Names.{is_among};
ghost use Rattle.xm_shape.specs.Shape as spec;

use crate::channels::{channel_set, is_channel};
use crate::fault::DocFault;
use crate::kinds::primitive_at;
use crate::members::names_at;
use crate::named_net::{AllowEntry, NamedNet, NamedPrimitive};
use crate::versions::{FIRST_VERSION, NEWEST_VERSION};
use indexmap::IndexSet;
use serde_json::{Map, Value};
use std::alloc::Global;
use xm_json::{PathFault, has_whole, list_at, member_path, only, place_path, required};
use xm_model::Text;

/// The members of the root that are read, with the primitives as they stand.
#[derive(Drop)]
struct Root<'v> {
    version: u64,
    colours: Vec<String>,
    items: &'v [Value],
    allow: Vec<AllowEntry>,
}

#[tactic(auto, unfolding(crate::specs::Shape::version_in))]
fn version_in(alloc: Global, root: &Value) -> Result<u64, PathFault>
    ensures { Gives (λ version. version) result (spec.version_in (view root.now)) }
{
    match root.get("version").and_then(Value::as_u64) {
        Some(version) if FIRST_VERSION <= version && version <= NEWEST_VERSION => Ok(version),
        _ => Err(PathFault::Broken(Text::from_bytes(alloc, b"version")?)),
    }
}

#[tactic(auto, unfolding(crate::specs::Shape::colours_in))]
fn colours_in(alloc: Global, root: &Value) -> Result<Vec<String>, PathFault>
    ensures { Gives (λ names. names_of names.items) result (spec.colours_in (view root.now)) }
{
    let value = required(alloc, "colours", "colours", root)?;
    names_at(alloc, "colours", value)
}

#[tactic(auto, unfolding(crate::specs::Shape::primitives_in))]
fn primitives_in(alloc: Global, root: &Value) -> Result<&[Value], PathFault>
    ensures { Gives (λ values. map view values.now) result (spec.primitives_in (view root.now)) }
{
    let value = required(alloc, "net", "net", root)?;
    list_at(alloc, "net", value)
}

fn allowed_colours(alloc: Global, channel: &str, value: &Value) -> Result<Vec<String>, PathFault>
    ensures { Gives (λ names. names_of names.items) result
        (texts_at (member_of (codes "allow") channel.now) (view value.now)) }
{
    let place = member_path(alloc, "allow", channel)?;
    names_at(alloc, place.as_str(), value)
}

fn entries_of(alloc: Global, members: &Map<String, Value>) -> Result<Vec<AllowEntry>, PathFault>
    ensures { Gives (λ entries. map allow_entry_of entries.items) result
        (spec.entries_in (members_view members.now.entries)) }
{
    let mut entries = Vec::new(alloc);
    for (key, value) in members.iter() {
        let colours = allowed_colours(alloc, key.as_str(), value)?;
        let channel = key.clone()?;
        entries.push(AllowEntry { channel, colours })?;
    }
    Ok(entries)
}

#[tactic(auto, unfolding(crate::specs::Shape::allow_in))]
fn allow_in(alloc: Global, root: &Value) -> Result<Vec<AllowEntry>, PathFault>
    ensures { Gives (λ entries. map allow_entry_of entries.items) result
        (spec.allow_in (view root.now)) }
{
    let Some(value) = root.get("allow") else {
        return Ok(Vec::new(alloc));
    };
    match value.as_object() {
        Some(members) => entries_of(alloc, members),
        None => Err(PathFault::Broken(Text::from_bytes(alloc, b"allow")?)),
    }
}

/// The members of the root that are read, and no others.
#[tactic(auto, unfolding(crate::specs::Shape::root_in))]
fn root_in(alloc: Global, root: &Value) -> Result<Root<'_>, PathFault>
    ensures { Gives plain_root_of result (spec.root_in (view root.now)) }
{
    if !root.is_object() {
        return Err(PathFault::Broken(Text::from_bytes(alloc, b"-")?));
    }
    let version = version_in(alloc, root)?;
    let colours = colours_in(alloc, root)?;
    let items = primitives_in(alloc, root)?;
    let allow = allow_in(alloc, root)?;
    only(
        alloc,
        "-",
        &["allow", "colours", "net", "proof", "tape", "version"],
        root,
    )?;
    Ok(Root {
        version,
        colours,
        items,
        allow,
    })
}

fn primitive_in_net(
    alloc: Global,
    version: u64,
    place: usize,
    value: &Value,
) -> Result<NamedPrimitive, DocFault>
    ensures { document.Gives named_primitive_of result
        (spec.primitive_at version (place_of spec.net place) (view value.now)) }
{
    let path = place_path(alloc, "net", place)?;
    primitive_at(alloc, version, path.as_str(), value)
}

fn primitives_of(
    alloc: Global,
    version: u64,
    values: &[Value],
) -> Result<Vec<NamedPrimitive>, DocFault>
    ensures { document.Gives (λ primitives. map named_primitive_of primitives.items) result
        (each (λ i x. spec.primitive_at version (place_of spec.net i) x) (map view values.now)) }
{
    let mut primitives = Vec::with_capacity(alloc, values.len())?;
    for (i, value) in values.iter().enumerate() {
        let primitive = primitive_in_net(alloc, version, i, value)?;
        primitives.push(primitive)?;
    }
    Ok(primitives)
}

fn are_channels(channels: &IndexSet<String>, entries: &[AllowEntry]) -> bool
    ensures { result ≡ list_all (λ e. is_among (names_of channels.now.keys) (string_bytes e.channel)) entries.now }
{
    entries
        .iter()
        .all(|entry| is_channel(channels, entry.channel.as_str()))
}

/// Each entry of `allow` is of a channel. Time grows with the number of ports and entries.
fn check_channels(
    alloc: Global,
    primitives: &[NamedPrimitive],
    entries: &[AllowEntry],
) -> Result<(), PathFault>
    ensures { Gives (λ _. tt) result
        (check (spec.are_channels (map named_primitive_of primitives.now) (map allow_entry_of entries.now))
        (codes "allow")) }
{
    if entries.is_empty() {
        return Ok(());
    }
    let channels = channel_set(alloc, primitives)?;
    if are_channels(&channels, entries) {
        Ok(())
    } else {
        Err(PathFault::Broken(Text::from_bytes(alloc, b"allow")?))
    }
}

/// The member `key` of the root is missing, or has whole numbers alone.
#[tactic(auto, unfolding(crate::specs::Shape::whole_member))]
fn whole_member(alloc: Global, key: &str, root: &Value) -> Result<(), PathFault>
    ensures { Gives (λ _. tt) result (spec.whole_member key.now (view root.now)) }
{
    match root.get(key) {
        Some(value) if !has_whole(value) => {
            Err(PathFault::Broken(Text::from_bytes(alloc, key.as_bytes())?))
        }
        _ => Ok(()),
    }
}

/// What is tested once the primitives are read: the channels of `allow`, and the numbers within the tape
/// and the proof.
#[tactic(auto, unfolding(crate::specs::Shape::rest_in))]
fn check_rest(
    alloc: Global,
    root: &Value,
    primitives: &[NamedPrimitive],
    entries: &[AllowEntry],
) -> Result<(), PathFault>
    ensures { Gives (λ _. tt) result
        (spec.rest_in (map named_primitive_of primitives.now) (map allow_entry_of entries.now) (view root.now)) }
{
    check_channels(alloc, primitives, entries)?;
    whole_member(alloc, "tape", root)?;
    whole_member(alloc, "proof", root)
}

/// The draft that the value is, or the first fault of its shape.
#[tactic(auto, unfolding(crate::specs::Shape::named_net_in))]
pub fn named_net_of(alloc: Global, root: &Value) -> Result<NamedNet, DocFault>
    ensures { document.Gives plain_net_of result (spec.named_net_in (view root.now)) }
{
    let it = root_in(alloc, root)?;
    let primitives = primitives_of(alloc, it.version, it.items)?;
    check_rest(alloc, root, &primitives, &it.allow)?;
    Ok(NamedNet {
        colours: it.colours,
        primitives,
        allow: it.allow,
    })
}
