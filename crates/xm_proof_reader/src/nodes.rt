//! Nodes of trees.

ghost use Rattle.std.specs.Prelude.{◌≡◌, codes, is_some, map};
ghost use Rattle.serde_json.specs.Find.{get};
ghost use Rattle.serde_json.specs.View.{view};
ghost use Rattle.xm_json.specs.Gives.{Gives};
ghost use Rattle.xm_json.specs.Members as members;
ghost use Rattle.xm_json.specs.Path.{member_of, place_of};
ghost use Rattle.xm_model.specs.Steps.{each};
ghost use Rattle.xm_proof.specs.Argument.{step_of};
ghost use Rattle.xm_proof.specs.OfNet as of_net;
ghost use Rattle.xm_proof_reader.specs.Views.{known_of};
ghost use Rattle.xm_proof_reader.specs.Reading as spec;

use crate::items::item_at;
use crate::known::Known;
use crate::lists::items_member;
use crate::literals::{channel_member, colour_member, literal_at_place, literal_member};
use serde_json::Value;
use std::alloc::Global;
use xm_json::{
    PathFault, list_member, member_path, member_text, only, place_path, small_number_member,
};
use xm_lits::{Lit, RuleName};
use xm_model::{List, Text};
use xm_proof::{Item, Node};

/// The greatest place of a list, and the most kids of a node.
const MOST_PLACES: u64 = 4_294_967_295;

/// The rule with this name.
#[tactic(auto, unfolding(crate::specs::Reading::rule_of))]
fn rule_of(text: &str) -> Option<RuleName>
    ensures { result ≡ spec.rule_of text.now }
{
    match text {
        "P0" => Some(RuleName::P0),
        "S1" => Some(RuleName::S1),
        "S2" => Some(RuleName::S2),
        "S3" => Some(RuleName::S3),
        "S4" => Some(RuleName::S4),
        "S5" => Some(RuleName::S5),
        "S6" => Some(RuleName::S6),
        "P1" => Some(RuleName::P1),
        "P2" => Some(RuleName::P2),
        "P3" => Some(RuleName::P3),
        "P4" => Some(RuleName::P4),
        "O1" => Some(RuleName::O1),
        "O2" => Some(RuleName::O2),
        "O3" => Some(RuleName::O3),
        "O4" => Some(RuleName::O4),
        "O5" => Some(RuleName::O5),
        "O6" => Some(RuleName::O6),
        "I2" => Some(RuleName::I2),
        "I3" => Some(RuleName::I3),
        "I4" => Some(RuleName::I4),
        "I5" => Some(RuleName::I5),
        "I6" => Some(RuleName::I6),
        "I7" => Some(RuleName::I7),
        _ => None,
    }
}

/// The rule that the member `rule` of the node at `path` names.
fn rule_member(alloc: Global, path: &str, node: &Value) -> Result<RuleName, PathFault>
    ensures { Gives (λ r. r) result
        (members.required spec.rule_at (member_of path.now (codes "rule")) (codes "rule") (view node.now)) }
{
    match node.get("rule").and_then(Value::as_str).and_then(rule_of) {
        Some(rule) => Ok(rule),
        None => Err(PathFault::Broken(member_text(alloc, path, "rule")?)),
    }
}

/// A split by a rule that is named for a colour too.
#[tactic(auto, unfolding(crate::specs::Reading::split_via))]
fn split_via(
    alloc: Global,
    known: &Known<'_>,
    path: &str,
    rule: RuleName,
    on: Lit,
    kids: u32,
    node: &Value,
) -> Result<Node, PathFault>
    ensures { Gives step_of result
        (spec.split_via (known_of known.now) path.now rule on kids (view node.now)) }
{
    let via = colour_member(alloc, known, path, "via", node)?;
    only(alloc, path, &["kids", "on", "rule", "via"], node)?;
    Ok(Node::Split {
        rule,
        on,
        via: Some(via),
        kids,
    })
}

#[tactic(auto, unfolding(crate::specs::Reading::split_plain))]
fn split_plain(
    alloc: Global,
    path: &str,
    rule: RuleName,
    on: Lit,
    kids: u32,
    node: &Value,
) -> Result<Node, PathFault>
    ensures { Gives step_of result (spec.split_plain path.now rule on kids (view node.now)) }
{
    only(alloc, path, &["kids", "on", "rule"], node)?;
    Ok(Node::Split {
        rule,
        on,
        via: None,
        kids,
    })
}

fn has_via(rule: RuleName) -> bool
    ensures { result ≡ of_net.has_via rule }
{
    matches!(rule, RuleName::I4)
}

#[tactic(auto, unfolding(crate::specs::Reading::split_in))]
fn split_in(alloc: Global, known: &Known<'_>, path: &str, node: &Value) -> Result<Node, PathFault>
    ensures { Gives step_of result (spec.split_in (known_of known.now) path.now (view node.now)) }
{
    let kids = small_number_member(alloc, path, "kids", MOST_PLACES, node)? as u32;
    let on = literal_member(alloc, known, path, "on", node)?;
    let rule = rule_member(alloc, path, node)?;
    if has_via(rule) {
        split_via(alloc, known, path, rule, on, kids, node)
    } else {
        split_plain(alloc, path, rule, on, kids, node)
    }
}

fn clash_of_items(
    alloc: Global,
    known: &Known<'_>,
    path: &str,
    items: &[Value],
) -> Result<Node, PathFault>
    ensures { Gives step_of result
        (spec.clash_of_items (known_of known.now) path.now (map view items.now)) }
{
    match items {
        [one] => Ok(Node::Clash(literal_at_place(alloc, known, path, 0, one)?, None)),
        [one, other] => {
            let lit = literal_at_place(alloc, known, path, 0, one)?;
            let further = literal_at_place(alloc, known, path, 1, other)?;
            Ok(Node::Clash(lit, Some(further)))
        }
        _ => Err(PathFault::Broken(Text::from_bytes(alloc, path.as_bytes())?)),
    }
}

#[tactic(auto, unfolding(crate::specs::Reading::clash_in))]
fn clash_in(alloc: Global, known: &Known<'_>, path: &str, node: &Value) -> Result<Node, PathFault>
    ensures { Gives step_of result (spec.clash_in (known_of known.now) path.now (view node.now)) }
{
    let items = list_member(alloc, path, "clash", node)?;
    let place = member_path(alloc, path, "clash")?;
    let clash = clash_of_items(alloc, known, place.as_str(), items)?;
    only(alloc, path, &["clash"], node)?;
    Ok(clash)
}

#[tactic(auto, unfolding(crate::specs::Reading::eager_in))]
fn eager_in(alloc: Global, known: &Known<'_>, path: &str, node: &Value) -> Result<Node, PathFault>
    ensures { Gives step_of result (spec.eager_in (known_of known.now) path.now (view node.now)) }
{
    let c = channel_member(alloc, known, path, "eager", node)?;
    only(alloc, path, &["eager"], node)?;
    Ok(Node::Eager(c))
}

#[tactic(auto, unfolding(crate::specs::Reading::cite_in))]
fn cite_in(alloc: Global, path: &str, node: &Value) -> Result<Node, PathFault>
    ensures { Gives step_of result (spec.cite_in path.now (view node.now)) }
{
    let place = small_number_member(alloc, path, "cite", MOST_PLACES, node)? as u32;
    only(alloc, path, &["cite"], node)?;
    Ok(Node::Cite(place))
}

#[tactic(auto, unfolding(crate::specs::Reading::open_in))]
fn open_in(alloc: Global, path: &str, node: &Value) -> Result<Node, PathFault>
    ensures { Gives step_of result (spec.open_in path.now (view node.now)) }
{
    match node.get("open").and_then(Value::as_bool) {
        Some(true) => {}
        _ => return Err(PathFault::Broken(member_text(alloc, path, "open")?)),
    }
    only(alloc, path, &["open"], node)?;
    Ok(Node::Open)
}

/// The items of the list at `path`.
fn items_in(
    alloc: Global,
    known: &Known<'_>,
    path: &str,
    values: &[Value],
) -> Result<List<Item>, PathFault>
    ensures { Gives (λ items. items.items) result
        (each (λ i x. spec.item_at (known_of known.now) (place_of path.now i) x) (map view values.now)) }
{
    let mut items = List::new(alloc);
    for (place, value) in values.iter().enumerate() {
        let further = place_path(alloc, path, place)?;
        let item = item_at(alloc, known, further.as_str(), value)?;
        items.push(item)?;
    }
    Ok(items)
}

#[tactic(auto, unfolding(crate::specs::Reading::sum_items))]
fn sum_items(
    alloc: Global,
    known: &Known<'_>,
    path: &str,
    node: &Value,
) -> Result<List<Item>, PathFault>
    ensures { Gives (λ items. items.items) result
        (spec.sum_items (known_of known.now) path.now (view node.now)) }
{
    let values = items_member(alloc, path, "sum", node)?;
    let place = member_path(alloc, path, "sum")?;
    items_in(alloc, known, place.as_str(), values)
}

#[tactic(auto, unfolding(crate::specs::Reading::sum_in))]
fn sum_in(alloc: Global, known: &Known<'_>, path: &str, node: &Value) -> Result<Node, PathFault>
    ensures { Gives step_of result (spec.sum_in (known_of known.now) path.now (view node.now)) }
{
    let items = sum_items(alloc, known, path, node)?;
    only(alloc, path, &["sum"], node)?;
    Ok(Node::Sum(items))
}

fn has(key: &str, node: &Value) -> bool
    ensures { result ≡ spec.has key.now (view node.now) }
{
    node.get(key).is_some()
}

/// The node at `path`, whose form is that of the first member that it has.
#[tactic(auto, unfolding(crate::specs::Reading::node_at))]
pub fn node_at(
    alloc: Global,
    known: &Known<'_>,
    path: &str,
    node: &Value,
) -> Result<Node, PathFault>
    ensures { Gives step_of result (spec.node_at (known_of known.now) path.now (view node.now)) }
{
    if has("cite", node) {
        return cite_in(alloc, path, node);
    }
    if has("clash", node) {
        return clash_in(alloc, known, path, node);
    }
    if has("eager", node) {
        return eager_in(alloc, known, path, node);
    }
    if has("kids", node) {
        return split_in(alloc, known, path, node);
    }
    if has("open", node) {
        return open_in(alloc, path, node);
    }
    if has("sum", node) {
        return sum_in(alloc, known, path, node);
    }
    Err(PathFault::Broken(Text::from_bytes(alloc, path.as_bytes())?))
}
