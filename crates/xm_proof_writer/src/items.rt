//! Items of sums as values.

ghost use Rattle.std.specs.Prelude.{◌≡◌, ◌∷◌, [], IfOk, map};
ghost use Rattle.serde_json.specs.View.{view};
ghost use Rattle.xm_proof.specs.declared.proof.Item.TheVariants as items;
ghost use Rattle.xm_proof_reader.specs.Views.{known_of};
ghost use Rattle.xm_proof_writer.specs.Writing as spec;
ghost use Rattle.xm_writer.specs.Texts.{HasTexts};

use crate::literals::{colour_value, literal_value, queue_value};
use crate::values::{list_value, number_value, place_value, text_value};
use serde_json::Value;
use std::alloc::Global;
use xm_model::OutOfMemory;
use xm_proof::Item;
use xm_proof_reader::Known;

/// An item of a word, what it takes, and how often.
fn short_item(alloc: Global, word: &str, what: Value, number: &i128) -> Result<Value, OutOfMemory>
    ensures { IfOk result (λ v. view v
        ≡ spec.list_data (spec.word_data word.now ∷ view what ∷ spec.number_data number.now ∷ [])) }
{
    let word = text_value(alloc, word)?;
    let number = number_value(alloc, number)?;
    Ok(list_value(vec![in alloc; word, what, number]?))
}

fn low_item(
    alloc: Global,
    known: &Known<'_>,
    q: u32,
    d: u8,
    number: &i128,
) -> Result<Value, OutOfMemory>
    requires { HasTexts (known_of known.now).names }
    ensures { IfOk result (λ v. view v ≡ spec.item_data (known_of known.now) (items.Low q d number.now)) }
{
    let word = text_value(alloc, "low")?;
    let queue = queue_value(alloc, known, q)?;
    let colour = colour_value(alloc, known, d)?;
    let number = number_value(alloc, number)?;
    Ok(list_value(vec![in alloc; word, queue, colour, number]?))
}

fn item_value(alloc: Global, known: &Known<'_>, item: &Item) -> Result<Value, OutOfMemory>
    requires { HasTexts (known_of known.now).names }
    ensures { IfOk result (λ v. view v ≡ spec.item_data (known_of known.now) item.now) }
{
    match item {
        Item::Lemma(k, n) => short_item(alloc, "lemma", place_value(*k), n),
        Item::Cap(q, n) => short_item(alloc, "cap", queue_value(alloc, known, *q)?, n),
        Item::Low(q, d, n) => low_item(alloc, known, *q, *d, n),
        Item::Path(lit, n) => short_item(alloc, "path", literal_value(alloc, known, lit)?, n),
    }
}

/// The list of the items.
pub fn items_value(alloc: Global, known: &Known<'_>, items: &[Item]) -> Result<Value, OutOfMemory>
    requires { HasTexts (known_of known.now).names }
    ensures { IfOk result (λ v. view v ≡ spec.list_data (map (spec.item_data (known_of known.now)) items.now)) }
{
    let mut values = Vec::new(alloc);
    for item in items {
        let value = item_value(alloc, known, item)?;
        values.push(value)?;
    }
    Ok(list_value(values))
}
