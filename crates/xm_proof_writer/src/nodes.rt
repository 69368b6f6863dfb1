//! Nodes of trees as values.

ghost use Rattle.std.specs.Prelude.{◌≡◌, IfOk, codes, map};
ghost use Rattle.serde_json.specs.Data.{member, no_members};
ghost use Rattle.serde_json.specs.View.{members_view, view};
ghost use Rattle.xm_proof.specs.Argument as steps;
ghost use Rattle.xm_proof_reader.specs.Views.{known_of};
ghost use Rattle.xm_proof_writer.specs.Writing as spec;
ghost use Rattle.xm_writer.specs.Texts.{HasTexts};

use crate::items::items_value;
use crate::literals::{channel_value, colour_value, literal_value};
use crate::values::{list_value, member_value, object_value, place_value, text_value};
use serde_json::{Map, Value};
use std::alloc::Global;
use xm_lits::{Lit, RuleName};
use xm_model::OutOfMemory;
use xm_proof::Node;
use xm_proof_reader::Known;
use xm_writer::put;

/// The name of the rule.
fn rule_name(rule: RuleName) -> &'static str
    ensures { result.now ≡ spec.rule_name rule }
{
    match rule {
        RuleName::P0 => "P0",
        RuleName::S1 => "S1",
        RuleName::S2 => "S2",
        RuleName::S3 => "S3",
        RuleName::S4 => "S4",
        RuleName::S5 => "S5",
        RuleName::S6 => "S6",
        RuleName::P1 => "P1",
        RuleName::P2 => "P2",
        RuleName::P3 => "P3",
        RuleName::P4 => "P4",
        RuleName::O1 => "O1",
        RuleName::O2 => "O2",
        RuleName::O3 => "O3",
        RuleName::O4 => "O4",
        RuleName::O5 => "O5",
        RuleName::O6 => "O6",
        RuleName::I2 => "I2",
        RuleName::I3 => "I3",
        RuleName::I4 => "I4",
        RuleName::I5 => "I5",
        RuleName::I6 => "I6",
        RuleName::I7 => "I7",
    }
}

/// The members of a split.
fn split_members(
    alloc: Global,
    known: &Known<'_>,
    rule: RuleName,
    on: &Lit,
    kids: u32,
) -> Result<Map<String, Value>, OutOfMemory>
    requires { HasTexts (known_of known.now).names }
    ensures { IfOk result (λ members. members_view members.entries
        ≡ member (codes "kids") (spec.place_data kids)
        (member (codes "on") (spec.literal_data (known_of known.now) on.now)
        (member (codes "rule") (spec.word_data (spec.rule_name rule)) no_members))) }
{
    let mut members = Map::new(alloc);
    put(alloc, &mut members, "kids", place_value(kids))?;
    let on = literal_value(alloc, known, on)?;
    put(alloc, &mut members, "on", on)?;
    let rule = text_value(alloc, rule_name(rule))?;
    put(alloc, &mut members, "rule", rule)?;
    Ok(members)
}

fn split_value(
    alloc: Global,
    known: &Known<'_>,
    rule: RuleName,
    on: &Lit,
    via: Option<u8>,
    kids: u32,
) -> Result<Value, OutOfMemory>
    requires { HasTexts (known_of known.now).names }
    ensures { IfOk result (λ v. view v
        ≡ spec.step_data (known_of known.now) (steps.Split rule on.now via kids)) }
{
    let mut members = split_members(alloc, known, rule, on, kids)?;
    let Some(d) = via else {
        return Ok(object_value(members));
    };
    let colour = colour_value(alloc, known, d)?;
    put(alloc, &mut members, "via", colour)?;
    Ok(object_value(members))
}

fn clash_value(
    alloc: Global,
    known: &Known<'_>,
    one: &Lit,
    other: &Option<Lit>,
) -> Result<Value, OutOfMemory>
    requires { HasTexts (known_of known.now).names }
    ensures { IfOk result (λ v. view v ≡ spec.step_data (known_of known.now) (steps.Clash one.now other.now)) }
{
    let one = literal_value(alloc, known, one)?;
    match other {
        None => member_value(alloc, "clash", list_value(vec![in alloc; one]?)),
        Some(other) => {
            let other = literal_value(alloc, known, other)?;
            member_value(alloc, "clash", list_value(vec![in alloc; one, other]?))
        }
    }
}

fn node_value(alloc: Global, known: &Known<'_>, node: &Node) -> Result<Value, OutOfMemory>
    requires { HasTexts (known_of known.now).names }
    ensures { IfOk result (λ v. view v ≡ spec.step_data (known_of known.now) (steps.step_of node.now)) }
{
    match node {
        Node::Split {
            rule,
            on,
            via,
            kids,
        } => split_value(alloc, known, *rule, on, *via, *kids),
        Node::Clash(one, other) => clash_value(alloc, known, one, other),
        Node::Eager(c) => member_value(alloc, "eager", channel_value(alloc, known, *c)?),
        Node::Sum(items) => member_value(
            alloc,
            "sum",
            items_value(alloc, known, items.as_slice())?,
        ),
        Node::Cite(place) => member_value(alloc, "cite", place_value(*place)),
        Node::Open => member_value(alloc, "open", Value::Bool(true)),
    }
}

/// The list of the nodes.
pub fn nodes_value(alloc: Global, known: &Known<'_>, nodes: &[Node]) -> Result<Value, OutOfMemory>
    requires { HasTexts (known_of known.now).names }
    ensures { IfOk result (λ v. view v
        ≡ spec.list_data (map (spec.step_data (known_of known.now)) (map steps.step_of nodes.now))) }
{
    let mut values = Vec::new(alloc);
    for node in nodes {
        let value = node_value(alloc, known, node)?;
        values.push(value)?;
    }
    Ok(list_value(values))
}
