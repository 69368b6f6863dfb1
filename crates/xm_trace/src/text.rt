//! The text of a run.

ghost use Rattle.std.specs.Prelude.{◌≡◌, ℕ, ◌+◌, ◌^◌, ◌<◌, ◌≤◌, ◌==◌, ◌++◌, drop, decimal, length, IfOk, OnOk};
ghost use Rattle.std.specs.List.{flat_map, prefix_len};
ghost use Rattle.xm_model.specs.TextLines.{line};
ghost use Rattle.xm_model.specs.Naming.{naming_of};
ghost use Rattle.xm_model.specs.Signals.{Signals};
ghost use Rattle.xm_model.specs.Limits.{most_channels, most_colours};
ghost use Rattle.xm_trace.specs.Inner.Labels.{AreLabels};
ghost use Rattle.xm_trace.specs.Moves.{round_moves};
ghost use Rattle.xm_trace.specs.Sums.{sum_at};
ghost use Rattle.xm_trace.specs.Inner.Table.{IsTable};
ghost use Rattle.xm_trace.specs.Text.{channel_sums, end_line, move_text, round_lines, run_text, sum_line, sum_lines};

use crate::labels::{label_at, labels_of};
use crate::sums::sums_of;
use crate::trace::{Move, Trace};
use std::alloc::Global;
use xm_model::{Names, OutOfMemory, Text, name_of};

fn push_move(text: &mut Text, names: &Names, labels: &[Text], it: Move) -> Result<(), OutOfMemory>
    requires { AreLabels names.now.channels.items labels.now }
    ensures { OnOk result (text.new.items ≡ text.old.items ++ move_text (naming_of names.now) it) }
{
    text.push_bytes(label_at(labels, it.channel as usize))?;
    text.push_bytes(name_of(names.colours.as_slice(), usize::from(it.colour)))
}

fn push_moves(
    text: &mut Text,
    names: &Names,
    labels: &[Text],
    moves: &[Move],
) -> Result<(), OutOfMemory>
    requires { AreLabels names.now.channels.items labels.now }
    ensures { OnOk result (text.new.items ≡ text.old.items ++ flat_map (move_text (naming_of names.now)) moves.now) }
{
    for it in moves {
        push_move(text, names, labels, *it)?;
    }
    Ok(())
}

/// The line of a cycle, which has these moves.
fn push_cycle(
    text: &mut Text,
    names: &Names,
    labels: &[Text],
    cycle: u32,
    moves: &[Move],
) -> Result<(), OutOfMemory>
    requires { AreLabels names.now.channels.items labels.now }
    ensures { OnOk result (text.new.items
        ≡ text.old.items ++ line (decimal cycle ++ flat_map (move_text (naming_of names.now)) moves.now)) }
{
    text.push_number(i128::from(cycle))?;
    push_moves(text, names, labels, moves)?;
    text.push_bytes(b"\n")
}

/// Where the moves of the cycle end that stand from `from` on.
fn cycle_end(moves: &[Move], from: usize, cycle: u32) -> usize
    requires { from ≤ length moves.now }
    ensures end { result ≡ from + prefix_len (λ m. m.cycle == cycle) (drop from moves.now) }
    ensures within { result ≤ length moves.now }
{
    for k in from..moves.len() {
        if moves[k].cycle != cycle {
            return k;
        }
    }
    moves.len()
}

/// A line for each cycle of the part, which begins with cycle `from`. It is not inlined: within its one caller
/// the compiler keeps the variables of these loops on the stack, which cost time for every byte of the text
/// (measured with callgrind).
#[inline(never)]
pub fn push_round(
    alloc: Global,
    text: &mut Text,
    names: &Names,
    from: u32,
    part: &Trace,
) -> Result<(), OutOfMemory>
    requires { from + part.now.cycles < 2 ^ 32 }
    ensures { (φ : ℕ → Signals)
        → part.now.moves.items ≡ round_moves φ (length (naming_of names.now).channels) from part.now.cycles
        → OnOk result (text.new.items ≡ text.old.items ++ round_lines (naming_of names.now) φ from part.now.cycles) }
{
    let labels = labels_of(alloc, names.channels.as_slice())?;
    let moves = part.moves.as_slice();
    let mut start = 0;
    for k in 0..part.cycles {
        let cycle = from + k;
        let end = cycle_end(moves, start, cycle);
        push_cycle(text, names, labels.as_slice(), cycle, &moves[start..end])?;
        start = end;
    }
    Ok(())
}

/// The line of the sum of a colour on a channel, where it is not 0.
fn push_sum(
    text: &mut Text,
    names: &Names,
    channel: usize,
    colour: usize,
    sum: u64,
) -> Result<(), OutOfMemory>
    ensures { OnOk result (text.new.items ≡ text.old.items ++ sum_line (naming_of names.now) channel colour sum) }
{
    if sum == 0 {
        return Ok(());
    }
    text.push_bytes(b"sum ")?;
    text.push_bytes(name_of(names.channels.as_slice(), channel))?;
    text.push_bytes(b".")?;
    text.push_bytes(name_of(names.colours.as_slice(), colour))?;
    text.push_bytes(b" ")?;
    text.push_number(i128::from(sum))?;
    text.push_bytes(b"\n")
}

fn push_channel(
    text: &mut Text,
    names: &Names,
    channel: usize,
    sums: &[u64],
) -> Result<(), OutOfMemory>
    requires table { IsTable (length (naming_of names.now).channels) (length (naming_of names.now).colours) sums.now }
    requires channel { channel < length (naming_of names.now).channels }
    ensures { OnOk result (text.new.items
        ≡ text.old.items
        ++ channel_sums (naming_of names.now) (sum_at sums.now (length (naming_of names.now).colours))
        channel (length (naming_of names.now).colours)) }
{
    let colours = names.colours.len();
    for d in 0..colours {
        push_sum(text, names, channel, d, sums[channel * colours + d])?;
    }
    Ok(())
}

/// A line for each colour on each channel that it moved on.
fn push_sums(text: &mut Text, names: &Names, sums: &[u64]) -> Result<(), OutOfMemory>
    requires { IsTable (length (naming_of names.now).channels) (length (naming_of names.now).colours) sums.now }
    ensures { OnOk result (text.new.items
        ≡ text.old.items
        ++ sum_lines (naming_of names.now) (sum_at sums.now (length (naming_of names.now).colours))
        (length (naming_of names.now).channels)) }
{
    for c in 0..names.channels.len() {
        push_channel(text, names, c, sums)?;
    }
    Ok(())
}

/// What follows the lines of all cycles: the sums, and the number of cycles.
pub fn push_end(
    text: &mut Text,
    names: &Names,
    sums: &[u64],
    cycles: u32,
) -> Result<(), OutOfMemory>
    requires { IsTable (length (naming_of names.now).channels) (length (naming_of names.now).colours) sums.now }
    ensures { OnOk result (text.new.items
        ≡ text.old.items
        ++ (sum_lines (naming_of names.now) (sum_at sums.now (length (naming_of names.now).colours))
        (length (naming_of names.now).channels) ++ end_line cycles)) }
{
    push_sums(text, names, sums)?;
    text.push_bytes(b"end ")?;
    text.push_number(i128::from(cycles))?;
    text.push_bytes(b"\n")
}

/// The text of a whole run whose moves are those of the trace: for each cycle a line with its number and
/// its moves, for each channel and colour with moves a line with their sum, and the number of cycles. The
/// names say how many channels and colours there are.
pub fn trace_text(alloc: Global, names: &Names, trace: &Trace) -> Result<Text, OutOfMemory>
    requires channels { length (naming_of names.now).channels ≤ most_channels }
    requires colours { length (naming_of names.now).colours ≤ most_colours }
    ensures { (φ : ℕ → Signals)
        → trace.now.moves.items ≡ round_moves φ (length (naming_of names.now).channels) 0 trace.now.cycles
        → IfOk result (λ text. text.items ≡ run_text (naming_of names.now) φ trace.now.cycles) }
{
    let sums = sums_of(
        alloc,
        names.channels.len(),
        names.colours.len(),
        trace.moves.as_slice(),
    )?;
    let cycles = trace.cycles;
    let mut text = Text::new(alloc);
    push_round(alloc, &mut text, names, 0, trace)?;
    push_end(&mut text, names, sums.as_slice(), cycles)?;
    Ok(text)
}
