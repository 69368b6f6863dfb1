//! From bytes to a document.

ghost use Rattle.std.specs.Prelude.{◌≡◌, ◌≢◌, ◌≤◌, ℕ, List as Items, Err, IfOk, OnOk, codes, false, option_map};
ghost use Rattle.std.specs.Str.{bytes_eq};
ghost use Rattle.serde_json.specs.Data.{depth};
ghost use Rattle.serde_json.specs.Find.{as_object, get, get_member};
ghost use Rattle.serde_json.specs.View.{members_view, view};
ghost use Rattle.xm_model.specs.Net.{IsFirstFault, IsWellWired};
ghost use Rattle.xm_model.specs.Steps.{demand};
ghost use Rattle.xm_shape.specs.Views.{plain_net_of};
ghost use Rattle.xm_shape.specs.Fault.{not_json};
ghost use Rattle.xm_shape.specs.Gives.{Gives};
ghost use Rattle.xm_netlist.specs.Documented.{doc_of};
ghost use Rattle.xm_netlist.specs.Numbered as numbers_spec;
ghost use Rattle.xm_netlist.specs.Inner.Making.{AreSound, IsMade, all_tests, first_tests, last_test, later_tests};
ghost use Rattle.xm_netlist.specs.Inner.Placed.{NumbersOf};
ghost use Rattle.xm_netlist.specs.Reading as spec;
ghost use Rattle.xm_netlist.specs.Valid.{IsValid};

use crate::allowing::allow_of;
use crate::colouring::check_colours;
use crate::document::Document;
use crate::naming::check_names;
use crate::numbering::{Numbers, components, names_of};
use crate::sizes::check_sizes;
use serde_json::{Map, Value};
use std::alloc::Global;
use xm_model::{Allow, List, Names, Net, NewFault, OutOfMemory};
use xm_shape::{DocFault, NamedNet, named_net_of};

/// The net of a draft, or the fault of the first channel that is not wired.
fn net_of(alloc: Global, draft: &NamedNet, numbers: &Numbers) -> Result<Net, NewFault>
    requires { AreSound (plain_net_of draft.now) numbers.now }
    ensures net { IfOk result (λ net. net ≡ numbers_spec.net_of (plain_net_of draft.now)) }
    ensures wired { IfOk result IsWellWired }
    ensures wiring { (fault : _) → result ≡ Err (NewFault.Wiring fault)
        → IsFirstFault (numbers_spec.net_of (plain_net_of draft.now)) fault }
{
    let prims = components(alloc, numbers, &draft.primitives)?;
    let channels = numbers.channels.len() as u32;
    let colours = numbers.colours.len() as u32;
    Net::new(alloc, prims, channels, colours)
}

/// What a draft makes.
#[derive(Drop)]
struct Made {
    net: Net,
    names: Names,
    allow: List<Allow>,
}

/// The colours and sizes of a draft whose names have these numbers have no fault, or the first.
fn check_colours_and_sizes(
    alloc: Global,
    draft: &NamedNet,
    numbers: &Numbers,
) -> Result<(), DocFault>
    requires { NumbersOf (plain_net_of draft.now) numbers.now }
    ensures tested { Gives (λ _. tt) result (later_tests (plain_net_of draft.now)) }
    ensures sound { OnOk result (AreSound (plain_net_of draft.now) numbers.now) }
{
    check_colours(alloc, &numbers.colours, draft)?;
    check_sizes(draft, numbers.channels.len())
}

/// The numbers of a draft's names, or the first fault of names, colours and sizes.
fn check_net(alloc: Global, draft: &NamedNet) -> Result<Numbers, DocFault>
    ensures tested { Gives (λ _. tt) result (first_tests (plain_net_of draft.now)) }
    ensures sound { IfOk result (AreSound (plain_net_of draft.now)) }
{
    let numbers = check_names(alloc, draft)?;
    match check_colours_and_sizes(alloc, draft, &numbers) {
        Ok(()) => Ok(numbers),
        Err(fault) => Err(fault),
    }
}

/// What a draft makes, if its net is wired.
fn made_of(alloc: Global, draft: &NamedNet, numbers: &Numbers) -> Result<Made, DocFault>
    requires { AreSound (plain_net_of draft.now) numbers.now }
    ensures wired { Gives (λ _. tt) result (last_test (plain_net_of draft.now)) }
    ensures made { IfOk result (IsMade (plain_net_of draft.now)) }
{
    let names = names_of(alloc, numbers)?;
    match net_of(alloc, draft, numbers) {
        Ok(net) => {
            let allow = allow_of(alloc, numbers, &draft.allow)?;
            Ok(Made { net, names, allow })
        }
        Err(NewFault::Wiring(fault)) => Err(DocFault::Wiring(fault, names)),
        Err(NewFault::OutOfMemory) => Err(DocFault::OutOfMemory),
    }
}

/// What a draft makes, or its first fault.
fn made_if_sound(alloc: Global, draft: &NamedNet) -> Result<Made, DocFault>
    ensures tested { Gives (λ _. tt) result (all_tests (plain_net_of draft.now)) }
    ensures made { IfOk result (IsMade (plain_net_of draft.now)) }
{
    let numbers = check_net(alloc, draft)?;
    made_of(alloc, draft, &numbers)
}

/// The document that a draft makes, with its tape and proof, or the first fault of names, colours, sizes
/// and wiring. Time grows with the length of the draft.
pub(crate) fn number_net(
    alloc: Global,
    draft: &NamedNet,
    tape: Option<Value>,
    proof: Option<Value>,
) -> Result<Document, DocFault>
    ensures { Gives doc_of result (spec.number_net (plain_net_of draft.now) (option_map view tape)
        (option_map view proof)) }
{
    let it = made_if_sound(alloc, draft)?;
    Ok(Document {
        net: it.net,
        names: it.names,
        allow: it.allow,
        tape,
        proof,
    })
}

fn into_members(root: Value) -> Option<Map<String, Value>>
    ensures { option_map (λ m. members_view m.entries) result ≡ as_object (view root) }
{
    match root {
        Value::Object(members) => Some(members),
        _other => None,
    }
}

fn take_member(members: &mut Map<String, Value>, key: &str) -> Option<Value>
    ensures found { option_map view result ≡ get_member key.now (members_view members.old.entries) }
    ensures others { (q : Items ℕ) → bytes_eq key.now q ≡ false → get_member q (members_view members.new.entries)
        ≡ get_member q (members_view members.old.entries) }
{
    members.remove(key)
}

/// The two members that other readers look at, moved out of the object.
fn parts_for_others(root: Value) -> (Option<Value>, Option<Value>)
    ensures tape { option_map view result.0 ≡ get (codes "tape") (view root) }
    ensures proof { option_map view result.1 ≡ get (codes "proof") (view root) }
{
    let Some(mut members) = into_members(root) else {
        return (None, None);
    };
    let tape = take_member(&mut members, "tape");
    let proof = take_member(&mut members, "proof");
    (tape, proof)
}

/// The document that the value is, whose tape and proof are moved out of it.
#[tactic(auto, unfolding(crate::specs::Reading::document_of))]
fn document_of(alloc: Global, root: Value) -> Result<Document, DocFault>
    ensures { Gives doc_of result (spec.document_of (view root)) }
{
    let draft = named_net_of(alloc, &root)?;
    let (tape, proof) = parts_for_others(root);
    number_net(alloc, &draft, tape, proof)
}

/// The value that the bytes are, as JSON.
fn json(alloc: Global, bytes: &[u8]) -> Result<Value, DocFault>
    ensures read { Gives view result (demand (spec.json_of bytes.now) not_json) }
    ensures shallow { IfOk result (λ root. depth (view root) ≤ 127) }
{
    match Value::from_slice(alloc, bytes) {
        Ok(root) => Ok(root),
        Err(e) => {
            if e.is_memory() {
                Err(DocFault::OutOfMemory)
            } else {
                Err(DocFault::NotJson)
            }
        }
    }
}

/// The document that the bytes are, or the first fault: no JSON, a shape, a name, a colour, a size, or the
/// wiring of a channel, in this order. Time grows with the number of bytes.
#[tactic(auto, unfolding(crate::specs::Reading::document_in))]
pub fn read_document(alloc: Global, bytes: &[u8]) -> Result<Document, DocFault>
    ensures exact { Gives doc_of result (spec.document_in bytes.now) }
    ensures valid { IfOk result (λ d. IsValid (doc_of d)) }
{
    let root = json(alloc, bytes)?;
    document_of(alloc, root)
}

fn clone_member(root: &Value, key: &str) -> Result<Option<Value>, OutOfMemory>
    ensures { IfOk result (λ value. option_map view value ≡ get key.now (view root.now)) }
{
    match root.get(key) {
        Some(value) => Ok(Some(value.clone()?)),
        None => Ok(None),
    }
}

#[tactic(auto, unfolding(crate::specs::Reading::document_of))]
fn document_of_lent(alloc: Global, value: &Value) -> Result<Document, DocFault>
    ensures { Gives doc_of result (spec.document_of (view value.now)) }
{
    let draft = named_net_of(alloc, value)?;
    let tape = clone_member(value, "tape")?;
    let proof = clone_member(value, "proof")?;
    number_net(alloc, &draft, tape, proof)
}

/// The document that the value is, or the first fault, as `read_document` but never `NotJson`. The value
/// stays.
pub fn read_value(alloc: Global, value: &Value) -> Result<Document, DocFault>
    requires { depth (view value.now) ≤ 127 }
    ensures exact { Gives doc_of result (spec.document_of (view value.now)) }
    ensures valid { IfOk result (λ d. IsValid (doc_of d)) }
    ensures json { result ≢ Err DocFault.NotJson }
{
    document_of_lent(alloc, value)
}
