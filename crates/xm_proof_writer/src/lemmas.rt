//! Lemmas as values.

ghost use Rattle.std.specs.Prelude.{◌≡◌, ◌∷◌, [], IfOk, map, slice_index_or};
ghost use Rattle.serde_json.specs.View.{view};
ghost use Rattle.xm_flow.specs.ValidLemma.{lemma_of};
ghost use Rattle.xm_proof_reader.specs.Views.{known_of};
ghost use Rattle.xm_proof_writer.specs.Writing as spec;
ghost use Rattle.xm_writer.specs.Texts.{HasTexts};

use crate::literals::{colour_value, queue_value};
use crate::values::{list_value, number_value, object_value, place_value};
use serde_json::{Map, Value};
use std::alloc::Global;
use xm_flow::{Invariant, Part};
use xm_model::OutOfMemory;
use xm_proof_reader::Known;
use xm_rows::Entry;
use xm_writer::put;

fn part_value(alloc: Global, part: &Part) -> Result<Value, OutOfMemory>
    ensures { IfOk result (λ v. view v ≡ spec.part_data part.now) }
{
    let factor = number_value(alloc, &part.factor)?;
    Ok(list_value(vec![in alloc; place_value(part.flow), factor]?))
}

fn parts_value(alloc: Global, parts: &[Part]) -> Result<Value, OutOfMemory>
    ensures { IfOk result (λ v. view v ≡ spec.list_data (map spec.part_data parts.now)) }
{
    let mut values = Vec::new(alloc);
    for part in parts {
        let value = part_value(alloc, part)?;
        values.push(value)?;
    }
    Ok(list_value(values))
}

/// The queue and the colour of the column.
fn pair_at(pairs: &[(u32, u8)], column: u32) -> (u32, u8)
    ensures { result ≡ slice_index_or pairs.now column (0, 0) }
{
    match pairs.get(column as usize) {
        Some(pair) => *pair,
        None => (0, 0),
    }
}

fn term_value(
    alloc: Global,
    known: &Known<'_>,
    pairs: &[(u32, u8)],
    entry: &Entry,
) -> Result<Value, OutOfMemory>
    requires texts { HasTexts (known_of known.now).names }
    requires pairs { pairs.now ≡ (known_of known.now).pairs }
    ensures { IfOk result (λ v. view v ≡ spec.term_data (known_of known.now) entry.now) }
{
    let (q, d) = pair_at(pairs, entry.column);
    let queue = queue_value(alloc, known, q)?;
    let colour = colour_value(alloc, known, d)?;
    let number = number_value(alloc, &entry.value)?;
    Ok(list_value(vec![in alloc; queue, colour, number]?))
}

fn terms_value(
    alloc: Global,
    known: &Known<'_>,
    pairs: &[(u32, u8)],
    entries: &[Entry],
) -> Result<Value, OutOfMemory>
    requires texts { HasTexts (known_of known.now).names }
    requires pairs { pairs.now ≡ (known_of known.now).pairs }
    ensures { IfOk result (λ v. view v ≡ spec.list_data (map (spec.term_data (known_of known.now)) entries.now)) }
{
    let mut values = Vec::new(alloc);
    for entry in entries {
        let value = term_value(alloc, known, pairs, entry)?;
        values.push(value)?;
    }
    Ok(list_value(values))
}

fn lemma_value(
    alloc: Global,
    known: &Known<'_>,
    pairs: &[(u32, u8)],
    lemma: &Invariant,
) -> Result<Value, OutOfMemory>
    requires texts { HasTexts (known_of known.now).names }
    requires pairs { pairs.now ≡ (known_of known.now).pairs }
    ensures { IfOk result (λ v. view v ≡ spec.lemma_data (known_of known.now) (lemma_of lemma.now)) }
{
    let mut members = Map::new(alloc);
    let constant = lemma.row.constant();
    let constant = number_value(alloc, &constant)?;
    put(alloc, &mut members, "constant", constant)?;
    let parts = parts_value(alloc, lemma.parts.as_slice())?;
    put(alloc, &mut members, "rows", parts)?;
    let scale = number_value(alloc, &lemma.scale)?;
    put(alloc, &mut members, "scale", scale)?;
    let terms = terms_value(alloc, known, pairs, lemma.row.entries())?;
    put(alloc, &mut members, "terms", terms)?;
    Ok(object_value(members))
}

/// The list of the lemmas.
pub fn lemmas_value(
    alloc: Global,
    known: &Known<'_>,
    pairs: &[(u32, u8)],
    lemmas: &[Invariant],
) -> Result<Value, OutOfMemory>
    requires texts { HasTexts (known_of known.now).names }
    requires pairs { pairs.now ≡ (known_of known.now).pairs }
    ensures { IfOk result (λ v. view v
        ≡ spec.list_data (map (spec.lemma_data (known_of known.now)) (map lemma_of lemmas.now))) }
{
    let mut values = Vec::new(alloc);
    for lemma in lemmas {
        let value = lemma_value(alloc, known, pairs, lemma)?;
        values.push(value)?;
    }
    Ok(list_value(values))
}
