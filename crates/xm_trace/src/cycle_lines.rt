//! The line of a cycle, made at once from the signals, while its moves are counted.

ghost use Rattle.std.specs.Prelude.{◌≡◌, ℕ, ◌+◌, ◌*◌, ◌^◌, ◌<◌, ◌≤◌, ◌++◌, decimal, length, take};
ghost use Rattle.std.specs.List.{flat_map};
ghost use Rattle.std.specs.Option.{option_to_list};
ghost use Rattle.xm_model.specs.TextLines.{line};
ghost use Rattle.xm_model.specs.Views.{signals_of};
ghost use Rattle.xm_trace.specs.Inner.Labels.{AreReady, label_text, labelled_of, move_room};
ghost use Rattle.xm_trace.specs.Inner.Table.{IsTable};
ghost use Rattle.xm_trace.specs.Moves.{cycle_moves};
ghost use Rattle.xm_trace.specs.Sums.{sum_at, sum_in};

use crate::labels::{MoveTexts, put_move};
use crate::pieces::put_bytes;
use crate::sums::count_move;
use crate::trace::{Move, move_on};
use xm_model::Wire;

/// Writes the text of the move at this place, if there is one, counts it, and gives the place behind it.
#[inline(always)]
fn put_counted(
    out: &mut [u8],
    at: usize,
    sums: &mut [u64],
    texts: &MoveTexts,
    channels: usize,
    colours: usize,
    it: Option<Move>,
) -> usize
    requires table { IsTable channels colours sums.old }
    requires few { (c d : ℕ) → c < channels → d < colours → sum_at sums.old colours c d + 1 < 2 ^ 64 }
    requires ready { AreReady texts.now }
    requires room { at + move_room texts.now ≤ length out.old }
    ensures text { take result out.new
        ≡ take at out.old ++ flat_map (label_text (labelled_of texts.now)) (option_to_list it) }
    ensures within { result ≤ at + move_room texts.now }
    ensures len { length out.new ≡ length out.old }
    ensures sums { (c d : ℕ) → c < channels → d < colours
        → sum_at sums.new colours c d ≡ sum_in (option_to_list it) c d + sum_at sums.old colours c d }
{
    match it {
        Some(it) => {
            count_move(sums, channels, colours, it);
            put_move(out, at, texts, it)
        }
        None => at,
    }
}

/// Writes the moves of the cycle, by channel, at this place, counts them, and gives the place behind them. It is
/// not inlined: within its one caller the compiler keeps the variables of this loop on the stack, which cost time
/// in every cycle (measured with callgrind).
#[inline(never)]
fn put_moves(
    out: &mut [u8],
    at: usize,
    sums: &mut [u64],
    texts: &MoveTexts,
    colours: usize,
    cycle: u32,
    wires: &[Wire],
) -> usize
    requires table { IsTable (length wires.now) colours sums.old }
    requires few { (c d : ℕ) → c < length wires.now → d < colours → sum_at sums.old colours c d < 2 ^ 32 }
    requires ready { AreReady texts.now }
    requires room { at + length wires.now * move_room texts.now ≤ length out.old }
    ensures text { take result out.new ≡ take at out.old
        ++ flat_map (label_text (labelled_of texts.now))
        (cycle_moves (signals_of wires.now) cycle (length wires.now)) }
    ensures within { result ≤ at + length wires.now * move_room texts.now }
    ensures len { length out.new ≡ length out.old }
    ensures sums { (c d : ℕ) → c < length wires.now → d < colours
        → sum_at sums.new colours c d
        ≡ sum_in (cycle_moves (signals_of wires.now) cycle (length wires.now)) c d + sum_at sums.old colours c d }
{
    let mut end = at;
    for c in 0..wires.len() {
        let it = move_on(cycle, c as u32, wires[c]);
        end = put_counted(out, end, sums, texts, wires.len(), colours, it);
    }
    end
}

/// Writes the line of the cycle, whose number has these digits, at this place, counts its moves, and gives the
/// place behind it.
pub fn put_line(
    out: &mut [u8],
    at: usize,
    sums: &mut [u64],
    texts: &MoveTexts,
    colours: usize,
    cycle: u32,
    digits: &[u8],
    wires: &[Wire],
) -> usize
    requires digits { digits.now ≡ decimal cycle }
    requires table { IsTable (length wires.now) colours sums.old }
    requires few { (c d : ℕ) → c < length wires.now → d < colours → sum_at sums.old colours c d < 2 ^ 32 }
    requires ready { AreReady texts.now }
    requires room { at + (length digits.now + length wires.now * move_room texts.now + 1) ≤ length out.old }
    ensures text { take result out.new ≡ take at out.old
        ++ line (decimal cycle ++ flat_map (label_text (labelled_of texts.now))
        (cycle_moves (signals_of wires.now) cycle (length wires.now))) }
    ensures within { result ≤ length out.new }
    ensures len { length out.new ≡ length out.old }
    ensures sums { (c d : ℕ) → c < length wires.now → d < colours
        → sum_at sums.new colours c d
        ≡ sum_in (cycle_moves (signals_of wires.now) cycle (length wires.now)) c d + sum_at sums.old colours c d }
{
    let begun = put_bytes(out, at, digits);
    let end = put_moves(out, begun, sums, texts, colours, cycle, wires);
    put_bytes(out, end, b"\n")
}
