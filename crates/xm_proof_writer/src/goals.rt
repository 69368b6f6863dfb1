//! Goals as values.

ghost use Rattle.std.specs.Prelude.{◌≡◌, IfOk, map};
ghost use Rattle.serde_json.specs.View.{view};
ghost use Rattle.xm_proof.specs.Argument.{refutation_of};
ghost use Rattle.xm_proof_reader.specs.Views.{known_of};
ghost use Rattle.xm_proof_writer.specs.Writing as spec;
ghost use Rattle.xm_writer.specs.Texts.{HasTexts};

use crate::literals::literal_value;
use crate::nodes::nodes_value;
use crate::values::{list_value, object_value};
use serde_json::{Map, Value};
use std::alloc::Global;
use xm_model::OutOfMemory;
use xm_proof::Goal;
use xm_proof_reader::Known;
use xm_writer::put;

fn goal_value(alloc: Global, known: &Known<'_>, goal: &Goal) -> Result<Value, OutOfMemory>
    requires { HasTexts (known_of known.now).names }
    ensures { IfOk result (λ v. view v ≡ spec.goal_data (known_of known.now) (refutation_of goal.now)) }
{
    let mut members = Map::new(alloc);
    let lit = literal_value(alloc, known, &goal.lit)?;
    put(alloc, &mut members, "goal", lit)?;
    let tree = nodes_value(alloc, known, goal.tree.as_slice())?;
    put(alloc, &mut members, "tree", tree)?;
    Ok(object_value(members))
}

/// The list of the goals.
pub fn goals_value(alloc: Global, known: &Known<'_>, goals: &[Goal]) -> Result<Value, OutOfMemory>
    requires { HasTexts (known_of known.now).names }
    ensures { IfOk result (λ v. view v
        ≡ spec.list_data (map (spec.goal_data (known_of known.now)) (map refutation_of goals.now))) }
{
    let mut values = Vec::new(alloc);
    for goal in goals {
        let value = goal_value(alloc, known, goal)?;
        values.push(value)?;
    }
    Ok(list_value(values))
}
