//! A proof as a value.

ghost use Rattle.std.specs.Prelude.{◌≡◌, IfOk, Ok, Some, string_bytes};
ghost use Rattle.serde_json.specs.View.{view};
ghost use Rattle.serde_json.specs.Written.{compact_text};
ghost use Rattle.xm_netlist.specs.Valid.{IsPart};
ghost use Rattle.xm_proof.specs.Argument.{argument_of};
ghost use Rattle.xm_proof_reader.specs.Views.{known_of};
ghost use Rattle.xm_proof_reader.specs.Reading.{proof_in};
ghost use Rattle.xm_proof_writer.specs.Writable.{CanBeWritten};
ghost use Rattle.xm_proof_writer.specs.Writing as spec;
ghost use Rattle.xm_writer.specs.Texts.{HasTexts};

use crate::goals::goals_value;
use crate::lemmas::lemmas_value;
use crate::values::object_value;
use serde_json::{Map, Value};
use std::alloc::Global;
use xm_flow::queue_pairs;
use xm_model::OutOfMemory;
use xm_proof::Proof;
use xm_proof_reader::Known;
use xm_writer::put;

#[tactic(auto, unfolding(crate::specs::Writing::proof_data))]
fn proof_value(alloc: Global, known: &Known<'_>, proof: &Proof) -> Result<Value, OutOfMemory>
    requires { HasTexts (known_of known.now).names }
    ensures { IfOk result (λ v. view v ≡ spec.proof_data (known_of known.now) (argument_of proof.now)) }
{
    let pairs = queue_pairs(alloc, known.design)?;
    let mut members = Map::new(alloc);
    let goals = goals_value(alloc, known, proof.goals.as_slice())?;
    put(alloc, &mut members, "goals", goals)?;
    let lemmas = lemmas_value(alloc, known, pairs.as_slice(), proof.lemmas.as_slice())?;
    put(alloc, &mut members, "lemmas", lemmas)?;
    Ok(object_value(members))
}

/// The value of the proof, in time that grows with its length and the number of queue pairs. Reading it gives the
/// proof again, and it can stand in a document. Fails only for want of memory.
pub fn write_proof(alloc: Global, known: &Known<'_>, proof: &Proof) -> Result<Value, OutOfMemory>
    requires { CanBeWritten (known_of known.now) (argument_of proof.now) }
    ensures value { IfOk result (λ v. view v ≡ spec.proof_data (known_of known.now) (argument_of proof.now)) }
    ensures again { IfOk result (λ v. proof_in (known_of known.now) (Some (view v)) ≡ Ok (argument_of proof.now)) }
    ensures part { IfOk result (λ v. IsPart (view v)) }
{
    known.design.is_designed();
    known.design.colours();
    let value = proof_value(alloc, known, proof)?;
    Ok(value)
}

/// The proof as compact JSON. Fails only for want of memory.
pub fn proof_text(alloc: Global, known: &Known<'_>, proof: &Proof) -> Result<String, OutOfMemory>
    requires { CanBeWritten (known_of known.now) (argument_of proof.now) }
    ensures { IfOk result (λ text. string_bytes text
        ≡ compact_text (spec.proof_data (known_of known.now) (argument_of proof.now))) }
{
    let value = proof_value(alloc, known, proof)?;
    let text = value.to_string(alloc)?;
    Ok(text)
}
