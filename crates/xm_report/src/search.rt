//! The texts of what a search for a proof finds.

ghost use Rattle.std.specs.Fmt.{signed_decimal};
ghost use Rattle.std.specs.List.{flat_map, zip};
ghost use Rattle.std.specs.Prelude.{◌≡◌, ◌++◌, IfOk, OnOk, codes, length};
ghost use Rattle.xm_flow.specs.Holding.{queue_pair_count};
ghost use Rattle.xm_model.specs.Naming.{naming_of};
ghost use Rattle.xm_report.specs.Search as spec;
ghost use Rattle.xm_report.specs.Search.{literal_line, literal_lines, literal_text, number_line, on_channel, packets_line, packets_lines};

use crate::invariants::push_pair;
use crate::pieces::{Listed, push_count, push_name};
use std::alloc::Global;
use xm_design::Design;
use xm_flow::queue_pairs;
use xm_lits::Lit;
use xm_model::{Names, OutOfMemory, Text};

/// Appends a channel, a dot and a colour.
fn push_on_channel(text: &mut Text, names: &Names, c: u32, d: u8) -> Result<(), OutOfMemory>
    ensures { OnOk result (text.new.items ≡ text.old.items ++ on_channel (naming_of names.now) c d) }
{
    push_name(text, names.channels.as_slice(), c as usize)?;
    text.push_bytes(b".")?;
    push_name(text, names.colours.as_slice(), usize::from(d))
}

/// Appends a literal.
fn push_literal(text: &mut Text, names: &Names, lit: &Lit) -> Result<(), OutOfMemory>
    ensures { OnOk result (text.new.items ≡ text.old.items ++ literal_text (naming_of names.now) lit.now) }
{
    match *lit {
        Lit::Stuck(c) => {
            text.push_bytes(b"Stuck ")?;
            push_name(text, names.channels.as_slice(), c as usize)
        }
        Lit::Dead(c, d) => {
            text.push_bytes(b"Dead ")?;
            push_on_channel(text, names, c, d)
        }
        Lit::Idle(c, d) => {
            text.push_bytes(b"Idle ")?;
            push_on_channel(text, names, c, d)
        }
        Lit::Full(q) => {
            text.push_bytes(b"Full ")?;
            push_name(text, names.prims.as_slice(), q as usize)
        }
        Lit::Has(q, d) => {
            text.push_bytes(b"Has ")?;
            push_pair(text, names, (q, d))
        }
        Lit::Lacks(q, d) => {
            text.push_bytes(b"Lacks ")?;
            push_pair(text, names, (q, d))
        }
    }
}

/// Appends a line of a word and a literal.
fn push_literal_line(
    text: &mut Text,
    word: &[u8],
    names: &Names,
    lit: &Lit,
) -> Result<(), OutOfMemory>
    ensures { OnOk result (text.new.items ≡ text.old.items ++ literal_line word.now (naming_of names.now) lit.now) }
{
    text.push_bytes(word)?;
    text.push_bytes(b" ")?;
    push_literal(text, names, lit)?;
    text.push_bytes(b"\n")
}

/// Appends the lines of the literals.
fn push_literals(text: &mut Text, names: &Names, lits: &[Lit]) -> Result<(), OutOfMemory>
    ensures { OnOk result (text.new.items ≡ text.old.items
        ++ flat_map (literal_line (codes "lit") (naming_of names.now)) lits.now) }
{
    for k in 0..lits.len() {
        push_literal_line(text, b"lit", names, &lits[k])?;
    }
    Ok(())
}

/// Appends the lines of a goal and of literals.
fn push_literal_lines(
    text: &mut Text,
    names: &Names,
    goal: &Lit,
    lits: &[Lit],
) -> Result<(), OutOfMemory>
    ensures { OnOk result (text.new.items ≡ text.old.items ++ literal_lines (naming_of names.now) goal.now lits.now) }
{
    push_literal_line(text, b"open", names, goal)?;
    push_literals(text, names, lits)
}

/// Appends the line of the packets of a queue pair.
fn push_packets(
    text: &mut Text,
    names: &Names,
    pair: (u32, u8),
    count: &i128,
) -> Result<(), OutOfMemory>
    ensures { OnOk result (text.new.items ≡ text.old.items ++ packets_line (naming_of names.now) (pair, count.now)) }
{
    text.push_bytes(b"count ")?;
    push_pair(text, names, pair)?;
    text.push_bytes(b" ")?;
    text.push_number(*count)?;
    text.push_bytes(b"\n")
}

/// Appends the lines of the packets of queue pairs.
fn push_counts(text: &mut Text, it: &Listed<'_>, counts: &[i128]) -> Result<(), OutOfMemory>
    requires { length counts.now ≡ length it.now.pairs.now }
    ensures { OnOk result (text.new.items ≡ text.old.items
        ++ flat_map (packets_line (naming_of it.now.names.now)) (zip it.now.pairs.now counts.now)) }
{
    for k in 0..it.pairs.len() {
        push_packets(text, it.names, it.pairs[k], &counts[k])?;
    }
    Ok(())
}

/// Appends a line of a word and a number.
fn push_number_line(text: &mut Text, word: &[u8], n: &i128) -> Result<(), OutOfMemory>
    ensures { OnOk result (text.new.items ≡ text.old.items ++ number_line word.now n.now) }
{
    text.push_bytes(word)?;
    text.push_bytes(b" ")?;
    text.push_number(*n)?;
    text.push_bytes(b"\n")
}

/// Appends the lines of the packets of these queue pairs, over a denominator.
fn push_packets_lines(
    text: &mut Text,
    it: &Listed<'_>,
    counts: &[i128],
    denominator: &i128,
) -> Result<(), OutOfMemory>
    requires { length counts.now ≡ length it.now.pairs.now }
    ensures { OnOk result (text.new.items ≡ text.old.items
        ++ packets_lines (naming_of it.now.names.now) it.now.pairs.now counts.now denominator.now) }
{
    push_counts(text, it, counts)?;
    push_number_line(text, b"denominator", denominator)
}

/// The text of a candidate: its goal, its literals, and the packets of each queue pair of the design, in the order of
/// `queue_pairs`, over a denominator.
pub fn open_text(
    alloc: Global,
    names: &Names,
    design: &Design,
    goal: &Lit,
    lits: &[Lit],
    counts: &[i128],
    denominator: i128,
) -> Result<Text, OutOfMemory>
    requires { length counts.now ≡ queue_pair_count design.now }
    ensures { IfOk result (λ text. text.items
        ≡ spec.open_text (naming_of names.now) design.now goal.now lits.now counts.now denominator) }
{
    let pairs = queue_pairs(alloc, design)?;
    let listed = Listed {
        names,
        pairs: pairs.as_slice(),
    };
    let mut text = Text::new(alloc);
    push_literal_lines(&mut text, names, goal, lits)?;
    push_packets_lines(&mut text, &listed, counts, &denominator)?;
    text.push_bytes(b"end\n")?;
    Ok(text)
}

/// The text of a budget that was spent: so many nodes and pivots, the goal at work, and the partial proof as compact
/// JSON.
pub fn spent_text(
    alloc: Global,
    names: &Names,
    nodes: u64,
    pivots: u64,
    goal: &Lit,
    partial: &[u8],
) -> Result<Text, OutOfMemory>
    ensures { IfOk result (λ text. text.items
        ≡ spec.spent_text (naming_of names.now) nodes pivots goal.now partial.now) }
{
    let mut text = Text::new(alloc);
    text.push_bytes(b"spent ")?;
    push_count(&mut text, nodes)?;
    text.push_bytes(b" ")?;
    push_count(&mut text, pivots)?;
    text.push_bytes(b"\n")?;
    push_literal_line(&mut text, b"goal", names, goal)?;
    text.push_bytes(partial)?;
    text.push_bytes(b"\n")?;
    Ok(text)
}
