//! The lines of error, one for each cause of refusal.

ghost use Rattle.std.specs.Prelude.{◌≡◌, ◌++◌, ◌==◌, [], if◌then◌else◌, codes, decimal, IfOk, OnOk, Some};
ghost use Rattle.xm_model.specs.TextLines.{line, name_at};
ghost use Rattle.xm_model.specs.Naming.{naming_of};
ghost use Rattle.xm_report.specs.Lines as spec;
ghost use Rattle.xm_report.specs.Lines.{channel_fault, fault_text, pair_fault, path_line, signal_text, signals_text};
ghost use Rattle.xm_report.specs.Lines.{which_text};
ghost use Rattle.xm_shape.specs.Gives.{fault_of};
ghost use Rattle.xm_tape.specs.Gives as tape;

use crate::pieces::{push_count, push_name};
use std::alloc::Global;
use xm_model::{Names, OutOfMemory, Text, WiringFault};
use xm_order::Signal;
use xm_shape::{DocFault, Which};
use xm_tape::TapeFault;

/// Appends the words of a fault at channel `c`.
fn push_fault(text: &mut Text, names: &Names, word: &[u8], c: u32) -> Result<(), OutOfMemory>
    ensures { OnOk result (text.new.items ≡ text.old.items ++ fault_text (naming_of names.now) word.now c) }
{
    text.push_bytes(b"net: ")?;
    text.push_bytes(word)?;
    text.push_bytes(b" ")?;
    push_name(text, names.channels.as_slice(), c as usize)
}

/// Appends a space and the name of primitive `p`.
fn push_prim(text: &mut Text, names: &Names, p: u32) -> Result<(), OutOfMemory>
    ensures { OnOk result (text.new.items ≡ text.old.items ++ codes " " ++ name_at (naming_of names.now).prims p) }
{
    text.push_bytes(b" ")?;
    push_name(text, names.prims.as_slice(), p as usize)
}

/// The line of a fault at channel `c`.
fn channel_line(alloc: Global, names: &Names, word: &[u8], c: u32) -> Result<Text, OutOfMemory>
    ensures { IfOk result (λ text. text.items ≡ channel_fault (naming_of names.now) word.now c) }
{
    let mut text = Text::new(alloc);
    push_fault(&mut text, names, word, c)?;
    text.push_bytes(b"\n")?;
    Ok(text)
}

/// The line of two primitives at channel `c`.
fn pair_line(
    alloc: Global,
    names: &Names,
    word: &[u8],
    c: u32,
    p: u32,
    q: u32,
) -> Result<Text, OutOfMemory>
    ensures { IfOk result (λ text. text.items ≡ pair_fault (naming_of names.now) word.now c p q) }
{
    let mut text = Text::new(alloc);
    push_fault(&mut text, names, word, c)?;
    push_prim(&mut text, names, p)?;
    push_prim(&mut text, names, q)?;
    text.push_bytes(b"\n")?;
    Ok(text)
}

/// The line of a net that is not well wired.
pub fn wiring_line(alloc: Global, names: &Names, fault: WiringFault) -> Result<Text, OutOfMemory>
    ensures { IfOk result (λ text. text.items ≡ spec.wiring_line (naming_of names.now) fault) }
{
    match fault {
        WiringFault::NoInitiator(c) => channel_line(alloc, names, b"no initiator", c),
        WiringFault::TwoInitiators(c, p, q) => pair_line(alloc, names, b"two initiators", c, p, q),
        WiringFault::NoTarget(c) => channel_line(alloc, names, b"no target", c),
        WiringFault::TwoTargets(c, p, q) => pair_line(alloc, names, b"two targets", c, p, q),
    }
}

/// The line of a pair that the list of allowed colours refuses.
pub fn colour_line(alloc: Global, names: &Names, c: u32, d: u8) -> Result<Text, OutOfMemory>
    ensures { IfOk result (λ text. text.items ≡ spec.colour_line (naming_of names.now) c d) }
{
    let mut text = Text::new(alloc);
    text.push_bytes(b"net: colour ")?;
    push_name(&mut text, names.channels.as_slice(), c as usize)?;
    text.push_bytes(b" ")?;
    push_name(&mut text, names.colours.as_slice(), usize::from(d))?;
    text.push_bytes(b"\n")?;
    Ok(text)
}

fn push_signal(text: &mut Text, names: &Names, it: Signal) -> Result<(), OutOfMemory>
    ensures { OnOk result (text.new.items ≡ text.old.items ++ signal_text (naming_of names.now) it) }
{
    let c = match it {
        Signal::Offer(c) => {
            text.push_bytes(b"offer ")?;
            c
        }
        Signal::Ready(c) => {
            text.push_bytes(b"ready ")?;
            c
        }
    };
    push_name(text, names.channels.as_slice(), c as usize)
}

/// Appends a comma and a space, but before the first.
fn push_comma(text: &mut Text, k: usize) -> Result<(), OutOfMemory>
    ensures { OnOk result (text.new.items ≡ text.old.items ++ (if k == 0 then [] else codes ", ")) }
{
    if k == 0 {
        return Ok(());
    }
    text.push_bytes(b", ")
}

fn push_signals(text: &mut Text, names: &Names, signals: &[Signal]) -> Result<(), OutOfMemory>
    ensures { OnOk result (text.new.items ≡ text.old.items ++ signals_text (naming_of names.now) signals.now) }
{
    for k in 0..signals.len() {
        push_comma(text, k)?;
        push_signal(text, names, signals[k])?;
    }
    Ok(())
}

/// The line of a loop of the dependence.
pub fn loop_line(alloc: Global, names: &Names, found: &[Signal]) -> Result<Text, OutOfMemory>
    ensures { IfOk result (λ text. text.items ≡ spec.loop_line (naming_of names.now) found.now) }
{
    let mut text = Text::new(alloc);
    text.push_bytes(b"net: loop ")?;
    push_signals(&mut text, names, found)?;
    text.push_bytes(b"\n")?;
    Ok(text)
}

/// The line of a word and a path.
fn fault_at(alloc: Global, word: &[u8], path: &Text) -> Result<Text, OutOfMemory>
    ensures { IfOk result (λ text. text.items ≡ path_line word.now path.now.items) }
{
    let mut text = Text::new(alloc);
    text.push_bytes(word)?;
    text.push_bytes(b" ")?;
    text.push_bytes(path.as_bytes())?;
    text.push_bytes(b"\n")?;
    Ok(text)
}

fn word_of(which: Which) -> &'static [u8]
    ensures { result.now ≡ which_text which }
{
    match which {
        Which::Colours => b"colours",
        Which::Primitives => b"primitives",
        Which::Channels => b"channels",
        Which::SourceColours => b"source-colours",
        Which::Capacity => b"capacity",
        Which::CapacitySum => b"capacity-sum",
        Which::Initial => b"initial",
    }
}

fn limit_line(alloc: Global, which: Which, count: u64) -> Result<Text, OutOfMemory>
    ensures { IfOk result (λ text. text.items ≡ spec.limit_line which count) }
{
    let mut text = Text::new(alloc);
    text.push_bytes(b"document: limit ")?;
    text.push_bytes(word_of(which))?;
    text.push_bytes(b" ")?;
    push_count(&mut text, count)?;
    text.push_bytes(b"\n")?;
    Ok(text)
}

/// The line of a document's first fault. Of want of memory no clause speaks.
pub fn document_line(alloc: Global, fault: &DocFault) -> Result<Text, OutOfMemory>
    ensures { (it : _) → fault_of fault.now ≡ Some it → IfOk result (λ text. text.items ≡ spec.document_line it) }
{
    match fault {
        DocFault::NotJson => Text::from_bytes(alloc, b"document: not JSON\n"),
        DocFault::Shape(path) => fault_at(alloc, b"document: shape", path),
        DocFault::UnknownKind(path) => fault_at(alloc, b"document: unknown kind", path),
        DocFault::UnknownColour(path) => fault_at(alloc, b"document: unknown colour", path),
        DocFault::BadName(path) => fault_at(alloc, b"document: bad name", path),
        DocFault::SameName(path) => fault_at(alloc, b"document: same name", path),
        DocFault::Limit(which, count) => limit_line(alloc, *which, *count),
        DocFault::Wiring(fault, names) => wiring_line(alloc, names, *fault),
        DocFault::OutOfMemory => Text::from_bytes(alloc, b"memory\n"),
    }
}

/// The line of a row and a number behind it, each with its words.
fn line_in_row(
    alloc: Global,
    words: &[u8],
    row: u32,
    between: &[u8],
    number: u64,
) -> Result<Text, OutOfMemory>
    ensures { IfOk result (λ text. text.items ≡ line (words.now ++ decimal row ++ between.now ++ decimal number)) }
{
    let mut text = Text::new(alloc);
    text.push_bytes(words)?;
    push_count(&mut text, u64::from(row))?;
    text.push_bytes(between)?;
    push_count(&mut text, number)?;
    text.push_bytes(b"\n")?;
    Ok(text)
}

fn row_line(alloc: Global, row: u32, bytes: u64) -> Result<Text, OutOfMemory>
    ensures { IfOk result (λ text. text.items ≡ spec.row_line row bytes) }
{
    line_in_row(alloc, b"tape: row ", row, b" length ", bytes)
}

fn mark_line(alloc: Global, row: u32, oracle: u32) -> Result<Text, OutOfMemory>
    ensures { IfOk result (λ text. text.items ≡ spec.mark_line row oracle) }
{
    line_in_row(alloc, b"tape: mark ", row, b" ", u64::from(oracle))
}

/// The line of a number, with its words.
fn number_line(alloc: Global, words: &[u8], number: u64) -> Result<Text, OutOfMemory>
    ensures { IfOk result (λ text. text.items ≡ line (words.now ++ decimal number)) }
{
    let mut text = Text::new(alloc);
    text.push_bytes(words)?;
    push_count(&mut text, number)?;
    text.push_bytes(b"\n")?;
    Ok(text)
}

fn cycles_line(alloc: Global, count: u64) -> Result<Text, OutOfMemory>
    ensures { IfOk result (λ text. text.items ≡ spec.cycles_line count) }
{
    number_line(alloc, b"tape: limit ", count)
}

/// The line of a tape's first fault. Of want of memory no clause speaks.
pub fn tape_line(alloc: Global, fault: &TapeFault) -> Result<Text, OutOfMemory>
    ensures { (it : _) → tape.fault_of fault.now ≡ Some it → IfOk result (λ text. text.items ≡ spec.tape_line it) }
{
    match fault {
        TapeFault::TapeShape(path) => fault_at(alloc, b"tape: shape", path),
        TapeFault::TapeLimit(count) => cycles_line(alloc, *count),
        TapeFault::RowLength(row, bytes) => row_line(alloc, *row, *bytes),
        TapeFault::BadMark(row, oracle) => mark_line(alloc, *row, *oracle),
        TapeFault::OutOfMemory => Text::from_bytes(alloc, b"memory\n"),
    }
}

/// The line of a net that has too many pairs for flow rows.
pub fn width_line(alloc: Global, pairs: u64) -> Result<Text, OutOfMemory>
    ensures { IfOk result (λ text. text.items ≡ spec.width_line pairs) }
{
    number_line(alloc, b"net: too wide ", pairs)
}

/// The line of invariants whose numbers leave 128 bits, in this column of the flow rows.
pub fn overflow_line(alloc: Global, column: u32) -> Result<Text, OutOfMemory>
    ensures { IfOk result (λ text. text.items ≡ spec.overflow_line column) }
{
    number_line(alloc, b"overflow column ", u64::from(column))
}

/// The line of a search whose tableau leaves 128 bits, after so many pivots.
pub fn pivots_line(alloc: Global, pivots: u64) -> Result<Text, OutOfMemory>
    ensures { IfOk result (λ text. text.items ≡ spec.pivots_line pivots) }
{
    number_line(alloc, b"overflow pivots ", pivots)
}

/// The line of a channel that is not granted a persistent initiator.
pub fn persistency_line(alloc: Global, names: &Names, c: u32) -> Result<Text, OutOfMemory>
    ensures { IfOk result (λ text. text.items ≡ spec.persistency_line (naming_of names.now) c) }
{
    channel_line(alloc, names, b"not persistent", c)
}

/// The line of the first break of a proof's form, by its path.
pub fn form_line(alloc: Global, path: &Text) -> Result<Text, OutOfMemory>
    ensures { IfOk result (λ text. text.items ≡ spec.form_line path.now.items) }
{
    fault_at(alloc, b"proof: form", path)
}
