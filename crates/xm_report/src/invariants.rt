//! The text of invariants.

ghost use Rattle.std.specs.Fmt.{signed_decimal};
ghost use Rattle.std.specs.List.{flat_map};
ghost use Rattle.std.specs.Prelude.{◌≡◌, ◌++◌, ◌<◌, All, IfOk, OnOk, length, map};
ghost use Rattle.xm_colours.specs.Family.{colours_at};
ghost use Rattle.xm_colours.specs.Pairs.{queue_pairs as pairs_of};
ghost use Rattle.xm_flow.specs.Holding.{queue_pair_count};
ghost use Rattle.xm_flow.specs.ValidLemma.{lemma_of};
ghost use Rattle.xm_model.specs.Naming.{naming_of};
ghost use Rattle.xm_report.specs.Invariants as spec;
ghost use Rattle.xm_report.specs.Invariants.{invariant_line, pair_text, term_text};

use crate::pieces::{Listed, push_line, push_name};
use std::alloc::Global;
use xm_design::Design;
use xm_flow::{Invariant, queue_pairs};
use xm_model::{Names, OutOfMemory, Text};
use xm_rows::Entry;

/// Appends a queue pair: its queue, a dot and its colour.
pub fn push_pair(text: &mut Text, names: &Names, pair: (u32, u8)) -> Result<(), OutOfMemory>
    ensures { OnOk result (text.new.items ≡ text.old.items ++ pair_text (naming_of names.now) pair) }
{
    push_name(text, names.prims.as_slice(), pair.0 as usize)?;
    text.push_bytes(b".")?;
    push_name(text, names.colours.as_slice(), usize::from(pair.1))
}

/// Appends a term: a space, its number and its queue pair.
fn push_term(text: &mut Text, it: &Listed<'_>, entry: Entry) -> Result<(), OutOfMemory>
    requires { entry.column < length it.now.pairs.now }
    ensures { OnOk result (text.new.items ≡ text.old.items
        ++ term_text (naming_of it.now.names.now) it.now.pairs.now entry) }
{
    text.push_bytes(b" ")?;
    text.push_number(entry.value)?;
    text.push_bytes(b"*")?;
    push_pair(text, it.names, it.pairs[entry.column as usize])
}

/// Appends the terms of a row.
fn push_terms(text: &mut Text, it: &Listed<'_>, entries: &[Entry]) -> Result<(), OutOfMemory>
    requires { All (λ e. e.column < length it.now.pairs.now) entries.now }
    ensures { OnOk result (text.new.items ≡ text.old.items
        ++ flat_map (term_text (naming_of it.now.names.now) it.now.pairs.now) entries.now) }
{
    for k in 0..entries.len() {
        push_term(text, it, entries[k])?;
    }
    Ok(())
}

/// Appends the line of an invariant.
fn push_invariant(
    text: &mut Text,
    it: &Listed<'_>,
    invariant: &Invariant,
) -> Result<(), OutOfMemory>
    requires { All (λ e. e.column < length it.now.pairs.now) invariant.now.row.entries }
    ensures { OnOk result (text.new.items ≡ text.old.items
        ++ invariant_line (naming_of it.now.names.now) it.now.pairs.now (lemma_of invariant.now)) }
{
    text.push_bytes(b"inv")?;
    push_terms(text, it, invariant.row.entries())?;
    text.push_bytes(b" = ")?;
    text.push_number(invariant.row.constant())?;
    text.push_bytes(b"\n")
}

/// Appends the lines of invariants.
fn push_invariants(
    text: &mut Text,
    it: &Listed<'_>,
    invariants: &[Invariant],
) -> Result<(), OutOfMemory>
    requires { All (λ l. All (λ e. e.column < length it.now.pairs.now) l.row.entries) invariants.now }
    ensures { OnOk result (text.new.items ≡ text.old.items
        ++ flat_map (invariant_line (naming_of it.now.names.now) it.now.pairs.now) (map lemma_of invariants.now)) }
{
    for i in 0..invariants.len() {
        push_invariant(text, it, &invariants[i])?;
    }
    Ok(())
}

/// A line for each invariant: `inv`, each queue pair with its number, and the constant. The names name each
/// queue and colour, and the rows are over the queue pairs of the design.
pub fn invariant_lines(
    alloc: Global,
    names: &Names,
    design: &Design,
    invariants: &[Invariant],
) -> Result<Text, OutOfMemory>
    requires { All (λ it. All (λ e. e.column < queue_pair_count design.now) it.row.entries) invariants.now }
    ensures { IfOk result (λ text. text.items
        ≡ spec.invariant_lines (naming_of names.now) design.now (map lemma_of invariants.now)) }
{
    let pairs = queue_pairs(alloc, design)?;
    let listed = Listed {
        names,
        pairs: pairs.as_slice(),
    };
    let mut text = Text::new(alloc);
    push_invariants(&mut text, &listed, invariants)?;
    Ok(text)
}

/// These lines, and how many there are.
pub fn invariant_text(
    alloc: Global,
    names: &Names,
    design: &Design,
    invariants: &[Invariant],
) -> Result<Text, OutOfMemory>
    requires { All (λ it. All (λ e. e.column < queue_pair_count design.now) it.row.entries) invariants.now }
    ensures { IfOk result (λ text. text.items
        ≡ spec.invariant_text (naming_of names.now) design.now (map lemma_of invariants.now)) }
{
    let mut text = invariant_lines(alloc, names, design, invariants)?;
    push_line(&mut text, b"end", invariants.len() as u64)?;
    Ok(text)
}
