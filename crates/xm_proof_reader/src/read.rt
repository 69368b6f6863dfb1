//! Reading a proof: its lemmas, and then its goals.

ghost use Rattle.std.specs.Prelude.{IfOk, option_map};
ghost use Rattle.serde_json.specs.View.{view};
ghost use Rattle.xm_json.specs.Gives as paths;
ghost use Rattle.xm_proof.specs.Argument.{argument_of};
ghost use Rattle.xm_proof.specs.Form.{IsFormed};
ghost use Rattle.xm_proof_reader.specs.Gives.{Gives};
ghost use Rattle.xm_proof_reader.specs.Views.{known_of};
ghost use Rattle.xm_proof_reader.specs.Reading as spec;

use crate::fault::ProofFault;
use crate::goals::goals_in;
use crate::known::Known;
use crate::lemmas::lemmas_in;
use serde_json::Value;
use std::alloc::Global;
use xm_json::{PathFault, only};
use xm_model::Text;
use xm_proof::Proof;

/// The proof that an object is.
#[tactic(auto, unfolding(crate::specs::Reading::object_in))]
fn object_in(alloc: Global, known: &Known<'_>, proof: &Value) -> Result<Proof, PathFault>
    ensures { paths.Gives argument_of result (spec.object_in (known_of known.now) (view proof.now)) }
{
    let lemmas = lemmas_in(alloc, known, proof)?;
    let goals = goals_in(alloc, known, proof)?;
    only(alloc, "proof", &["goals", "lemmas"], proof)?;
    Ok(Proof { lemmas, goals })
}

/// The proof that the value is, or the path of its first break.
#[tactic(auto, unfolding(crate::specs::Reading::proof_in))]
fn proof_in(alloc: Global, known: &Known<'_>, value: Option<&Value>) -> Result<Proof, PathFault>
    ensures { paths.Gives argument_of result
        (spec.proof_in (known_of known.now) (option_map (λ v. view v.now) value.entry)) }
{
    match value {
        Some(proof) if proof.is_object() => object_in(alloc, known, proof),
        _ => Err(PathFault::Broken(Text::from_bytes(alloc, b"proof")?)),
    }
}

/// The proof that the value is, or the path of its first break: of its lemmas, and then of its goals.
pub fn read_proof(
    alloc: Global,
    known: &Known<'_>,
    value: Option<&Value>,
) -> Result<Proof, ProofFault>
    ensures exact { Gives argument_of result
        (spec.proof_in (known_of known.now) (option_map (λ v. view v.now) value.entry)) }
    ensures formed { IfOk result (λ p. IsFormed (argument_of p)) }
{
    let proof = proof_in(alloc, known, value)?;
    Ok(proof)
}
