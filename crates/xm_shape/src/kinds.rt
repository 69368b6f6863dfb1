//! The kinds of primitives, each with the members that it has.

ghost use Rattle.std.specs.Prelude.{◌≡◌, codes, option_map};
ghost use Rattle.serde_json.specs.View.{view};
ghost use Rattle.xm_json.specs.Gives.{Gives};
ghost use Rattle.xm_json.specs.Members as members;
ghost use Rattle.xm_shape.specs.Views.{named_kind_of, names_of, named_primitive_of};
ghost use Rattle.xm_shape.specs.Gives as document;
ghost use Rattle.xm_shape.specs.Inner.Kinds.{plain_kind_of};
ghost use Rattle.xm_shape.specs.Shape as spec;

use crate::fault::DocFault;
use crate::members::{name_member, names_at, names_member, table_member};
use crate::modes::{pass_member, sink_mode_member, source_mode_member};
use crate::named_net::{NamedKind, NamedPrimitive};
use crate::versions::INITIAL_VERSION;
use serde_json::Value;
use std::alloc::Global;
use xm_json::{PathFault, member_path, member_text, number_member, only, text_member};
use xm_model::Text;

/// What a primitive is, without its members.
#[derive(Clone, Copy)]
enum Kind {
    Source,
    Sink,
    Queue,
    Function,
    Fork,
    Join,
    Switch,
    Merge,
}

fn kind_of(text: &str) -> Option<Kind>
    ensures { option_map plain_kind_of result ≡ spec.kind_of text.now }
{
    match text {
        "source" => Some(Kind::Source),
        "sink" => Some(Kind::Sink),
        "queue" => Some(Kind::Queue),
        "function" => Some(Kind::Function),
        "fork" => Some(Kind::Fork),
        "join" => Some(Kind::Join),
        "switch" => Some(Kind::Switch),
        "merge" => Some(Kind::Merge),
        _ => None,
    }
}

#[tactic(auto, unfolding(crate::specs::Shape::source_in))]
fn source(alloc: Global, version: u64, path: &str, object: &Value) -> Result<NamedKind, PathFault>
    ensures { Gives named_kind_of result (spec.source_in version path.now (view object.now)) }
{
    let out = name_member(alloc, path, "out", object)?;
    let colours = names_member(alloc, path, "colours", object)?;
    let mode = source_mode_member(alloc, version, path, object)?;
    only(
        alloc,
        path,
        &["colours", "kind", "mode", "name", "out"],
        object,
    )?;
    Ok(NamedKind::Source { out, colours, mode })
}

#[tactic(auto, unfolding(crate::specs::Shape::sink_in))]
fn sink(alloc: Global, path: &str, object: &Value) -> Result<NamedKind, PathFault>
    ensures { Gives named_kind_of result (spec.sink_in path.now (view object.now)) }
{
    let input = name_member(alloc, path, "in", object)?;
    let mode = sink_mode_member(alloc, path, object)?;
    only(alloc, path, &["in", "kind", "mode", "name"], object)?;
    Ok(NamedKind::Sink { input, mode })
}

/// The packets that a queue begins with: none, where the version has none or the member is missing.
#[tactic(auto, unfolding(crate::specs::Shape::initial_member))]
fn initial_member(
    alloc: Global,
    version: u64,
    path: &str,
    object: &Value,
) -> Result<Vec<String>, PathFault>
    ensures { Gives (λ texts. names_of texts.items) result
        (spec.initial_member version path.now (view object.now)) }
{
    if version < INITIAL_VERSION {
        return Ok(Vec::new(alloc));
    }
    let Some(value) = object.get("initial") else {
        return Ok(Vec::new(alloc));
    };
    let place = member_path(alloc, path, "initial")?;
    names_at(alloc, place.as_str(), value)
}

fn only_of_queue(alloc: Global, version: u64, path: &str, object: &Value) -> Result<(), PathFault>
    ensures { Gives (λ _. tt) result
        (members.only path.now (spec.queue_members version) (view object.now)) }
{
    if version < INITIAL_VERSION {
        only(
            alloc,
            path,
            &["capacity", "in", "kind", "name", "out"],
            object,
        )
    } else {
        only(
            alloc,
            path,
            &["capacity", "in", "initial", "kind", "name", "out"],
            object,
        )
    }
}

#[tactic(auto, unfolding(crate::specs::Shape::queue_in))]
fn queue(alloc: Global, version: u64, path: &str, object: &Value) -> Result<NamedKind, PathFault>
    ensures { Gives named_kind_of result (spec.queue_in version path.now (view object.now)) }
{
    let input = name_member(alloc, path, "in", object)?;
    let out = name_member(alloc, path, "out", object)?;
    let capacity = number_member(alloc, path, "capacity", object)?;
    let packets = initial_member(alloc, version, path, object)?;
    only_of_queue(alloc, version, path, object)?;
    Ok(NamedKind::Queue {
        input,
        out,
        capacity,
        packets,
    })
}

#[tactic(auto, unfolding(crate::specs::Shape::function_in))]
fn function(alloc: Global, path: &str, object: &Value) -> Result<NamedKind, PathFault>
    ensures { Gives named_kind_of result (spec.function_in path.now (view object.now)) }
{
    let input = name_member(alloc, path, "in", object)?;
    let out = name_member(alloc, path, "out", object)?;
    let table = table_member(alloc, path, "map", object)?;
    only(alloc, path, &["in", "kind", "map", "name", "out"], object)?;
    Ok(NamedKind::Function { input, out, table })
}

#[tactic(auto, unfolding(crate::specs::Shape::fork_in))]
fn fork(alloc: Global, path: &str, object: &Value) -> Result<NamedKind, PathFault>
    ensures { Gives named_kind_of result (spec.fork_in path.now (view object.now)) }
{
    let input = name_member(alloc, path, "in", object)?;
    let a = name_member(alloc, path, "a", object)?;
    let b = name_member(alloc, path, "b", object)?;
    let table_a = table_member(alloc, path, "map_a", object)?;
    let table_b = table_member(alloc, path, "map_b", object)?;
    only(
        alloc,
        path,
        &["a", "b", "in", "kind", "map_a", "map_b", "name"],
        object,
    )?;
    Ok(NamedKind::Fork {
        input,
        a,
        b,
        table_a,
        table_b,
    })
}

#[tactic(auto, unfolding(crate::specs::Shape::join_in))]
fn join(alloc: Global, path: &str, object: &Value) -> Result<NamedKind, PathFault>
    ensures { Gives named_kind_of result (spec.join_in path.now (view object.now)) }
{
    let a = name_member(alloc, path, "a", object)?;
    let b = name_member(alloc, path, "b", object)?;
    let out = name_member(alloc, path, "out", object)?;
    let pass = pass_member(alloc, path, object)?;
    only(
        alloc,
        path,
        &["a", "b", "kind", "name", "out", "pass"],
        object,
    )?;
    Ok(NamedKind::Join { a, b, out, pass })
}

#[tactic(auto, unfolding(crate::specs::Shape::switch_in))]
fn switch(alloc: Global, path: &str, object: &Value) -> Result<NamedKind, PathFault>
    ensures { Gives named_kind_of result (spec.switch_in path.now (view object.now)) }
{
    let input = name_member(alloc, path, "in", object)?;
    let a = name_member(alloc, path, "a", object)?;
    let b = name_member(alloc, path, "b", object)?;
    let to_a = names_member(alloc, path, "to_a", object)?;
    only(
        alloc,
        path,
        &["a", "b", "in", "kind", "name", "to_a"],
        object,
    )?;
    Ok(NamedKind::Switch { input, a, b, to_a })
}

#[tactic(auto, unfolding(crate::specs::Shape::merge_in))]
fn merge(alloc: Global, path: &str, object: &Value) -> Result<NamedKind, PathFault>
    ensures { Gives named_kind_of result (spec.merge_in path.now (view object.now)) }
{
    let a = name_member(alloc, path, "a", object)?;
    let b = name_member(alloc, path, "b", object)?;
    let out = name_member(alloc, path, "out", object)?;
    only(alloc, path, &["a", "b", "kind", "name", "out"], object)?;
    Ok(NamedKind::Merge { a, b, out })
}

fn kind_in(
    alloc: Global,
    kind: Kind,
    version: u64,
    path: &str,
    object: &Value,
) -> Result<NamedKind, PathFault>
    ensures { Gives named_kind_of result
        (spec.kind_in (plain_kind_of kind) version path.now (view object.now)) }
{
    match kind {
        Kind::Source => source(alloc, version, path, object),
        Kind::Sink => sink(alloc, path, object),
        Kind::Queue => queue(alloc, version, path, object),
        Kind::Function => function(alloc, path, object),
        Kind::Fork => fork(alloc, path, object),
        Kind::Join => join(alloc, path, object),
        Kind::Switch => switch(alloc, path, object),
        Kind::Merge => merge(alloc, path, object),
    }
}

/// The text of the kind of the primitive at `path`, before it is known.
#[tactic(auto, unfolding(crate::specs::Shape::kind_text_in))]
fn kind_text<'v>(alloc: Global, path: &str, object: &'v Value) -> Result<&'v str, PathFault>
    ensures { Gives (λ text. text.now) result (spec.kind_text_in path.now (view object.now)) }
{
    if !object.is_object() {
        return Err(PathFault::Broken(Text::from_bytes(alloc, path.as_bytes())?));
    }
    text_member(alloc, path, "kind", object)
}

/// The primitive of this kind at `path`.
#[tactic(auto, unfolding(crate::specs::Shape::primitive_of))]
fn primitive_of(
    alloc: Global,
    kind: Kind,
    version: u64,
    path: &str,
    object: &Value,
) -> Result<NamedPrimitive, PathFault>
    ensures { Gives named_primitive_of result
        (spec.primitive_of (plain_kind_of kind) version path.now (view object.now)) }
{
    let name = name_member(alloc, path, "name", object)?;
    let named = kind_in(alloc, kind, version, path, object)?;
    Ok(NamedPrimitive { name, kind: named })
}

/// The primitive at `path`.
#[tactic(auto, unfolding(crate::specs::Shape::primitive_at))]
pub fn primitive_at(
    alloc: Global,
    version: u64,
    path: &str,
    object: &Value,
) -> Result<NamedPrimitive, DocFault>
    ensures { document.Gives named_primitive_of result (spec.primitive_at version path.now (view object.now)) }
{
    let text = kind_text(alloc, path, object)?;
    match kind_of(text) {
        Some(kind) => Ok(primitive_of(alloc, kind, version, path, object)?),
        None => Err(DocFault::UnknownKind(member_text(alloc, path, "kind")?)),
    }
}
