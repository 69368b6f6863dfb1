//! Primitives as objects of JSON.

ghost use Rattle.std.specs.Prelude.{◌≡◌, IfOk, OnOk, codes};
ghost use Rattle.serde_json.specs.Data.{number, put as put_member, string, unsigned};
ghost use Rattle.serde_json.specs.View.{members_view, view};
ghost use Rattle.xm_model.specs.Component.{component_of};
ghost use Rattle.xm_model.specs.TextLines.{name_at};
ghost use Rattle.xm_model.specs.Naming.{naming_of};
ghost use Rattle.xm_netlist.specs.Numbered.{marked_from};
ghost use Rattle.xm_writer.specs.Inner.MemberSteps.{in_a_b_put, a_b_out_put, ports_put, put_if, rest_put, in_out_put};
ghost use Rattle.xm_writer.specs.Texts.{HasTexts};
ghost use Rattle.xm_writer.specs.Inner.MemberSteps as spelling;
ghost use Rattle.xm_writer.specs.Writing as spec;

use crate::members::{marked_value, put, put_name, put_names, put_some, put_text, table_value};
use serde_json::{Map, Value};
use std::alloc::Global;
use xm_model::{Names, OutOfMemory, Prim, Side, SinkMode, SourceMode};

fn put_source_mode(
    alloc: Global,
    members: &mut Map<String, Value>,
    mode: SourceMode,
) -> Result<(), OutOfMemory>
    ensures { OnOk result (members_view members.new.entries
        ≡ put_if (codes "mode") (spec.source_mode_data mode) (members_view members.old.entries)) }
{
    match mode {
        SourceMode::Keep => Ok(()),
        SourceMode::Eager => put_text(alloc, members, "mode", "eager"),
        SourceMode::Free => put_text(alloc, members, "mode", "free"),
        SourceMode::Fair => put_text(alloc, members, "mode", "fair"),
    }
}

fn put_sink_mode(
    alloc: Global,
    members: &mut Map<String, Value>,
    mode: SinkMode,
) -> Result<(), OutOfMemory>
    ensures { OnOk result (members_view members.new.entries
        ≡ put_if (codes "mode") (spec.sink_mode_data mode) (members_view members.old.entries)) }
{
    match mode {
        SinkMode::Keep => Ok(()),
        SinkMode::Free => put_text(alloc, members, "mode", "free"),
    }
}

fn put_channel(
    alloc: Global,
    members: &mut Map<String, Value>,
    key: &str,
    names: &Names,
    c: u32,
) -> Result<(), OutOfMemory>
    requires { HasTexts (naming_of names.now) }
    ensures { OnOk result (members_view members.new.entries
        ≡ put_member key.now (spec.name_data (naming_of names.now).channels c) (members_view members.old.entries)) }
{
    put_name(alloc, members, key, names.channels.as_slice(), c as usize)
}

fn put_colours(
    alloc: Global,
    members: &mut Map<String, Value>,
    key: &str,
    names: &Names,
    colours: &[u8],
) -> Result<(), OutOfMemory>
    requires { HasTexts (naming_of names.now) }
    ensures { OnOk result (members_view members.new.entries
        ≡ put_member key.now (spec.names_data (naming_of names.now).colours colours.now)
        (members_view members.old.entries)) }
{
    put_names(alloc, members, key, names.colours.as_slice(), colours)
}

fn put_marked(
    alloc: Global,
    members: &mut Map<String, Value>,
    key: &str,
    names: &Names,
    marks: &[bool],
) -> Result<(), OutOfMemory>
    requires { HasTexts (naming_of names.now) }
    ensures { OnOk result (members_view members.new.entries
        ≡ put_member key.now (spec.names_data (naming_of names.now).colours (marked_from 0 marks.now))
        (members_view members.old.entries)) }
{
    let colours = marked_value(alloc, names.colours.as_slice(), marks)?;
    put(alloc, members, key, colours)
}

fn put_table(
    alloc: Global,
    members: &mut Map<String, Value>,
    key: &str,
    names: &Names,
    images: &[u8],
) -> Result<(), OutOfMemory>
    requires { HasTexts (naming_of names.now) }
    ensures { OnOk result (members_view members.new.entries
        ≡ put_if key.now (spec.table_data (naming_of names.now).colours images.now)
        (members_view members.old.entries)) }
{
    let table = table_value(alloc, names.colours.as_slice(), images)?;
    put_some(alloc, members, key, table)
}

fn put_initial(
    alloc: Global,
    members: &mut Map<String, Value>,
    names: &Names,
    initial: &[u8],
) -> Result<(), OutOfMemory>
    requires { HasTexts (naming_of names.now) }
    ensures { OnOk result (members_view members.new.entries
        ≡ put_if (codes "initial") (spec.initial_data (naming_of names.now).colours initial.now)
        (members_view members.old.entries)) }
{
    match initial {
        [] => Ok(()),
        _ => put_colours(alloc, members, "initial", names, initial),
    }
}

fn side_name(side: Side) -> &'static str
    ensures { string result.now ≡ spec.side_data side }
{
    match side {
        Side::A => "a",
        Side::B => "b",
    }
}

/// Puts in the ports of a queue or a function.
fn put_in_out(
    alloc: Global,
    members: &mut Map<String, Value>,
    names: &Names,
    input: u32,
    out: u32,
) -> Result<(), OutOfMemory>
    requires { HasTexts (naming_of names.now) }
    ensures { OnOk result (members_view members.new.entries
        ≡ in_out_put (naming_of names.now).channels input out (members_view members.old.entries)) }
{
    put_channel(alloc, members, "in", names, input)?;
    put_channel(alloc, members, "out", names, out)
}

/// Puts in the ports of a fork or a switch.
fn put_in_a_b(
    alloc: Global,
    members: &mut Map<String, Value>,
    names: &Names,
    input: u32,
    a: u32,
    b: u32,
) -> Result<(), OutOfMemory>
    requires { HasTexts (naming_of names.now) }
    ensures { OnOk result (members_view members.new.entries
        ≡ in_a_b_put (naming_of names.now).channels input a b (members_view members.old.entries)) }
{
    put_channel(alloc, members, "in", names, input)?;
    put_channel(alloc, members, "a", names, a)?;
    put_channel(alloc, members, "b", names, b)
}

/// Puts in the ports of a join or a merge.
fn put_a_b_out(
    alloc: Global,
    members: &mut Map<String, Value>,
    names: &Names,
    a: u32,
    b: u32,
    out: u32,
) -> Result<(), OutOfMemory>
    requires { HasTexts (naming_of names.now) }
    ensures { OnOk result (members_view members.new.entries
        ≡ a_b_out_put (naming_of names.now).channels a b out (members_view members.old.entries)) }
{
    put_channel(alloc, members, "a", names, a)?;
    put_channel(alloc, members, "b", names, b)?;
    put_channel(alloc, members, "out", names, out)
}

fn put_ports(
    alloc: Global,
    members: &mut Map<String, Value>,
    names: &Names,
    prim: &Prim,
) -> Result<(), OutOfMemory>
    requires { HasTexts (naming_of names.now) }
    ensures { OnOk result (members_view members.new.entries
        ≡ ports_put (naming_of names.now).channels (component_of prim.now) (members_view members.old.entries)) }
{
    match prim {
        Prim::Source { out, .. } => put_channel(alloc, members, "out", names, *out),
        Prim::Sink { input, .. } => put_channel(alloc, members, "in", names, *input),
        Prim::Queue { input, out, .. } => put_in_out(alloc, members, names, *input, *out),
        Prim::Function { input, out, .. } => put_in_out(alloc, members, names, *input, *out),
        Prim::Fork { input, a, b, .. } => put_in_a_b(alloc, members, names, *input, *a, *b),
        Prim::Join { a, b, out, .. } => put_a_b_out(alloc, members, names, *a, *b, *out),
        Prim::Switch { input, a, b, .. } => put_in_a_b(alloc, members, names, *input, *a, *b),
        Prim::Merge { a, b, out } => put_a_b_out(alloc, members, names, *a, *b, *out),
    }
}

/// Puts in the colours that a source offers, and its mode.
fn put_offers(
    alloc: Global,
    members: &mut Map<String, Value>,
    names: &Names,
    colours: &[u8],
    mode: SourceMode,
) -> Result<(), OutOfMemory>
    requires { HasTexts (naming_of names.now) }
    ensures { OnOk result (members_view members.new.entries
        ≡ put_if (codes "mode") (spec.source_mode_data mode)
        (put_member (codes "colours") (spec.names_data (naming_of names.now).colours colours.now)
        (members_view members.old.entries))) }
{
    put_colours(alloc, members, "colours", names, colours)?;
    put_source_mode(alloc, members, mode)
}

/// Puts in the capacity of a queue, and its first packets.
fn put_room(
    alloc: Global,
    members: &mut Map<String, Value>,
    names: &Names,
    capacity: u32,
    initial: &[u8],
) -> Result<(), OutOfMemory>
    requires { HasTexts (naming_of names.now) }
    ensures { OnOk result (members_view members.new.entries
        ≡ put_if (codes "initial") (spec.initial_data (naming_of names.now).colours initial.now)
        (put_member (codes "capacity") (number (unsigned capacity)) (members_view members.old.entries))) }
{
    put(alloc, members, "capacity", Value::from(capacity))?;
    put_initial(alloc, members, names, initial)
}

/// Puts in the two maps of a fork.
fn put_tables(
    alloc: Global,
    members: &mut Map<String, Value>,
    names: &Names,
    map_a: &[u8],
    map_b: &[u8],
) -> Result<(), OutOfMemory>
    requires { HasTexts (naming_of names.now) }
    ensures { OnOk result (members_view members.new.entries
        ≡ put_if (codes "map_b") (spec.table_data (naming_of names.now).colours map_b.now)
        (put_if (codes "map_a") (spec.table_data (naming_of names.now).colours map_a.now)
        (members_view members.old.entries))) }
{
    put_table(alloc, members, "map_a", names, map_a)?;
    put_table(alloc, members, "map_b", names, map_b)
}

/// Puts in what a primitive has besides its name, its kind and its ports.
fn put_rest(
    alloc: Global,
    members: &mut Map<String, Value>,
    names: &Names,
    prim: &Prim,
) -> Result<(), OutOfMemory>
    requires { HasTexts (naming_of names.now) }
    ensures { OnOk result (members_view members.new.entries
        ≡ rest_put (naming_of names.now).colours (component_of prim.now) (members_view members.old.entries)) }
{
    match prim {
        Prim::Source { colours, mode, .. } => put_offers(
            alloc,
            members,
            names,
            colours.as_slice(),
            *mode,
        ),
        Prim::Sink { mode, .. } => put_sink_mode(alloc, members, *mode),
        Prim::Queue {
            capacity,
            initial,
            ..
        } => put_room(alloc, members, names, *capacity, initial.as_slice()),
        Prim::Function { map, .. } => put_table(alloc, members, "map", names, map.as_slice()),
        Prim::Fork { map_a, map_b, .. } => put_tables(
            alloc,
            members,
            names,
            map_a.as_slice(),
            map_b.as_slice(),
        ),
        Prim::Join { pass, .. } => put_text(alloc, members, "pass", side_name(*pass)),
        Prim::Switch { to_a, .. } => put_marked(alloc, members, "to_a", names, to_a.as_slice()),
        Prim::Merge { .. } => Ok(()),
    }
}

fn kind_name(prim: &Prim) -> &'static str
    ensures { result.now ≡ spelling.kind_name (component_of prim.now) }
{
    match prim {
        Prim::Source { .. } => "source",
        Prim::Sink { .. } => "sink",
        Prim::Queue { .. } => "queue",
        Prim::Function { .. } => "function",
        Prim::Fork { .. } => "fork",
        Prim::Join { .. } => "join",
        Prim::Switch { .. } => "switch",
        Prim::Merge { .. } => "merge",
    }
}

/// Primitive number `p` of a net.
pub fn primitive_value(
    alloc: Global,
    names: &Names,
    p: usize,
    prim: &Prim,
) -> Result<Value, OutOfMemory>
    requires { HasTexts (naming_of names.now) }
    ensures { IfOk result (λ v. view v ≡ spec.component_data (naming_of names.now)
        (name_at (naming_of names.now).prims p) (component_of prim.now)) }
{
    let mut members = Map::new(alloc);
    put_name(alloc, &mut members, "name", names.prims.as_slice(), p)?;
    put_text(alloc, &mut members, "kind", kind_name(prim))?;
    put_ports(alloc, &mut members, names, prim)?;
    put_rest(alloc, &mut members, names, prim)?;
    Ok(Value::Object(members))
}
