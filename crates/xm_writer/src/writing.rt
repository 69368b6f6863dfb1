//! A document as canonical text: compact, with members in byte order and defaults left out.

ghost use Rattle.std.specs.Prelude.{◌≡◌, [], IfOk, OnOk, Ok, map, option_map};
ghost use Rattle.std.specs.List.{list_any};
ghost use Rattle.serde_json.specs.Data.{array, no_members, put as put_member, string};
ghost use Rattle.serde_json.specs.View.{items_of, members_view, view};
ghost use Rattle.xm_model.specs.Component.{component_of};
ghost use Rattle.xm_model.specs.TextLines.{name_at};
ghost use Rattle.xm_model.specs.Naming.{allowed_of, naming_of, texts_of};
ghost use Rattle.xm_netlist.specs.Documented.{doc_of};
ghost use Rattle.xm_netlist.specs.Reading.{document_in};
ghost use Rattle.xm_netlist.specs.Valid.{IsValid};
ghost use Rattle.xm_writer.specs.Texts.{AreTexts, HasTexts};
ghost use Rattle.xm_writer.specs.Writing as spec;

use crate::members::{name_text, names_value, object_if, put, put_at_name, put_some};
use crate::primitives::primitive_value;
use serde_json::{Map, Value};
use std::alloc::Global;
use xm_model::{Allow, Names, OutOfMemory, Prim, SourceMode, Text};
use xm_netlist::Document;
use xm_shape::{FAIR_VERSION, FIRST_VERSION, INITIAL_VERSION};

/// All names.
fn all_names_value(alloc: Global, names: &[Text]) -> Result<Value, OutOfMemory>
    requires { AreTexts (texts_of names.now) }
    ensures { IfOk result (λ v. view v ≡ array (items_of (map string (texts_of names.now)))) }
{
    let mut values = Vec::new(alloc);
    for i in 0..names.len() {
        let name = name_text(alloc, names, i)?;
        values.push(Value::String(name))?;
    }
    Ok(Value::Array(values))
}

fn net_value(alloc: Global, names: &Names, prims: &[Prim]) -> Result<Value, OutOfMemory>
    requires { HasTexts (naming_of names.now) }
    ensures { IfOk result (λ v. view v ≡ array
        (items_of (spec.prims_data (naming_of names.now) 0 (map component_of prims.now)))) }
{
    let mut values = Vec::new(alloc);
    for (p, prim) in prims.iter().enumerate() {
        let primitive = primitive_value(alloc, names, p, prim)?;
        values.push(primitive)?;
    }
    Ok(Value::Array(values))
}

fn put_entry(
    alloc: Global,
    members: &mut Map<String, Value>,
    names: &Names,
    entry: &Allow,
) -> Result<(), OutOfMemory>
    requires { HasTexts (naming_of names.now) }
    ensures { OnOk result (members_view members.new.entries
        ≡ put_member (name_at (naming_of names.now).channels entry.now.channel)
        (spec.names_data (naming_of names.now).colours entry.now.colours.items) (members_view members.old.entries)) }
{
    let colours = names_value(alloc, names.colours.as_slice(), entry.colours.as_slice())?;
    put_at_name(
        alloc,
        members,
        names.channels.as_slice(),
        entry.channel as usize,
        colours,
    )
}

fn entries_value(
    alloc: Global,
    names: &Names,
    entries: &[Allow],
) -> Result<Map<String, Value>, OutOfMemory>
    requires { HasTexts (naming_of names.now) }
    ensures { IfOk result (λ m. members_view m.entries
        ≡ spec.entries_data (naming_of names.now) (map allowed_of entries.now) no_members) }
{
    let mut members = Map::new(alloc);
    for entry in entries {
        put_entry(alloc, &mut members, names, entry)?;
    }
    Ok(members)
}

/// The entries of `allow`, if there are any.
fn allow_value(
    alloc: Global,
    names: &Names,
    entries: &[Allow],
) -> Result<Option<Value>, OutOfMemory>
    requires { HasTexts (naming_of names.now) }
    ensures { IfOk result (λ v. option_map view v
        ≡ spec.allow_data (naming_of names.now) (map allowed_of entries.now)) }
{
    Ok(object_if(entries_value(alloc, names, entries)?))
}

fn is_fair(prim: &Prim) -> bool
    ensures { result ≡ spec.is_fair (component_of prim.now) }
{
    matches!(
        prim,
        Prim::Source {
            mode: SourceMode::Fair,
            ..
        }
    )
}

fn has_packets(prim: &Prim) -> bool
    ensures { result ≡ spec.has_packets (component_of prim.now) }
{
    match prim {
        Prim::Queue { initial, .. } => !initial.is_empty(),
        _ => false,
    }
}

fn any_fair(prims: &[Prim]) -> bool
    ensures { result ≡ list_any (λ prim. spec.is_fair (component_of prim)) prims.now }
{
    prims.iter().any(|prim| is_fair(prim))
}

fn any_packets(prims: &[Prim]) -> bool
    ensures { result ≡ list_any (λ prim. spec.has_packets (component_of prim)) prims.now }
{
    prims.iter().any(|prim| has_packets(prim))
}

/// The least version that serves.
fn version(prims: &[Prim]) -> u64
    ensures { result ≡ spec.version_of (map component_of prims.now) }
{
    if any_fair(prims) {
        FAIR_VERSION
    } else if any_packets(prims) {
        INITIAL_VERSION
    } else {
        FIRST_VERSION
    }
}

fn copy_of(value: &Option<Value>) -> Result<Option<Value>, OutOfMemory>
    ensures { IfOk result (λ v. option_map view v ≡ option_map view value.now) }
{
    match value {
        Some(value) => Ok(Some(value.clone()?)),
        None => Ok(None),
    }
}

fn document_value(alloc: Global, document: &Document) -> Result<Value, OutOfMemory>
    requires { HasTexts (doc_of document.now).names }
    ensures { IfOk result (λ v. view v ≡ spec.data_of (doc_of document.now)) }
{
    let prims = document.net.prims().as_slice();
    let mut members = Map::new(alloc);
    put(alloc, &mut members, "version", Value::from(version(prims)))?;
    let tape = copy_of(&document.tape)?;
    put_some(alloc, &mut members, "tape", tape)?;
    let proof = copy_of(&document.proof)?;
    put_some(alloc, &mut members, "proof", proof)?;
    let net = net_value(alloc, &document.names, prims)?;
    put(alloc, &mut members, "net", net)?;
    let colours = all_names_value(alloc, document.names.colours.as_slice())?;
    put(alloc, &mut members, "colours", colours)?;
    let allow = allow_value(alloc, &document.names, document.allow.as_slice())?;
    put_some(alloc, &mut members, "allow", allow)?;
    Ok(Value::Object(members))
}

/// The canonical text of the document, ended by a newline, in time that grows with its length. Reading it
/// gives the document again. Fails only for want of memory.
pub fn write_document(alloc: Global, document: &Document) -> Result<Text, OutOfMemory>
    requires { IsValid (doc_of document.now) }
    ensures text { IfOk result (λ text. text.items ≡ spec.text_of (doc_of document.now)) }
    ensures again { IfOk result (λ text. document_in text.items ≡ Ok (doc_of document.now)) }
{
    let written = document_value(alloc, document)?.to_string(alloc)?;
    let mut text = Text::new(alloc);
    text.push_bytes(written.as_bytes())?;
    text.push_bytes(b"\n")?;
    Ok(text)
}
