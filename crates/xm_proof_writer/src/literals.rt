//! Names and literals as values.

ghost use Rattle.std.specs.Prelude.{◌≡◌, ◌∷◌, [], IfOk};
ghost use Rattle.serde_json.specs.View.{view};
ghost use Rattle.xm_proof_reader.specs.Views.{known_of};
ghost use Rattle.xm_proof_writer.specs.Writing as spec;
ghost use Rattle.xm_writer.specs.Texts.{HasTexts};

use crate::values::{list_value, text_value};
use serde_json::Value;
use std::alloc::Global;
use xm_lits::Lit;
use xm_model::OutOfMemory;
use xm_proof_reader::Known;
use xm_writer::name_value;

/// The name of the channel.
pub fn channel_value(alloc: Global, known: &Known<'_>, c: u32) -> Result<Value, OutOfMemory>
    requires { HasTexts (known_of known.now).names }
    ensures { IfOk result (λ v. view v ≡ spec.channel_data (known_of known.now) c) }
{
    name_value(alloc, known.channels.names, c as usize)
}

/// The name of the colour.
pub fn colour_value(alloc: Global, known: &Known<'_>, d: u8) -> Result<Value, OutOfMemory>
    requires { HasTexts (known_of known.now).names }
    ensures { IfOk result (λ v. view v ≡ spec.colour_data (known_of known.now) d) }
{
    name_value(alloc, known.colours.names, usize::from(d))
}

/// The name of the queue.
pub fn queue_value(alloc: Global, known: &Known<'_>, q: u32) -> Result<Value, OutOfMemory>
    requires { HasTexts (known_of known.now).names }
    ensures { IfOk result (λ v. view v ≡ spec.queue_data (known_of known.now) q) }
{
    name_value(alloc, known.prims.names, q as usize)
}

/// A literal of a word, and a channel or a queue.
fn short_literal(alloc: Global, word: &str, name: Value) -> Result<Value, OutOfMemory>
    ensures { IfOk result (λ v. view v ≡ spec.list_data (spec.word_data word.now ∷ view name ∷ [])) }
{
    let word = text_value(alloc, word)?;
    Ok(list_value(vec![in alloc; word, name]?))
}

/// A literal of a word, a channel or a queue, and a colour.
fn long_literal(
    alloc: Global,
    known: &Known<'_>,
    word: &str,
    name: Value,
    d: u8,
) -> Result<Value, OutOfMemory>
    requires { HasTexts (known_of known.now).names }
    ensures { IfOk result (λ v. view v
        ≡ spec.list_data (spec.word_data word.now ∷ view name ∷ spec.colour_data (known_of known.now) d ∷ [])) }
{
    let word = text_value(alloc, word)?;
    let colour = colour_value(alloc, known, d)?;
    Ok(list_value(vec![in alloc; word, name, colour]?))
}

fn channel_literal(
    alloc: Global,
    known: &Known<'_>,
    word: &str,
    c: u32,
    d: u8,
) -> Result<Value, OutOfMemory>
    requires { HasTexts (known_of known.now).names }
    ensures { IfOk result (λ v. view v ≡ spec.list_data (spec.word_data word.now
        ∷ spec.channel_data (known_of known.now) c ∷ spec.colour_data (known_of known.now) d ∷ [])) }
{
    let channel = channel_value(alloc, known, c)?;
    long_literal(alloc, known, word, channel, d)
}

fn queue_literal(
    alloc: Global,
    known: &Known<'_>,
    word: &str,
    q: u32,
    d: u8,
) -> Result<Value, OutOfMemory>
    requires { HasTexts (known_of known.now).names }
    ensures { IfOk result (λ v. view v ≡ spec.list_data (spec.word_data word.now
        ∷ spec.queue_data (known_of known.now) q ∷ spec.colour_data (known_of known.now) d ∷ [])) }
{
    let queue = queue_value(alloc, known, q)?;
    long_literal(alloc, known, word, queue, d)
}

/// The literal.
pub fn literal_value(alloc: Global, known: &Known<'_>, lit: &Lit) -> Result<Value, OutOfMemory>
    requires { HasTexts (known_of known.now).names }
    ensures { IfOk result (λ v. view v ≡ spec.literal_data (known_of known.now) lit.now) }
{
    match lit {
        Lit::Stuck(c) => short_literal(alloc, "Stuck", channel_value(alloc, known, *c)?),
        Lit::Dead(c, d) => channel_literal(alloc, known, "Dead", *c, *d),
        Lit::Idle(c, d) => channel_literal(alloc, known, "Idle", *c, *d),
        Lit::Full(q) => short_literal(alloc, "Full", queue_value(alloc, known, *q)?),
        Lit::Has(q, d) => queue_literal(alloc, known, "Has", *q, *d),
        Lit::Lacks(q, d) => queue_literal(alloc, known, "Lacks", *q, *d),
    }
}
