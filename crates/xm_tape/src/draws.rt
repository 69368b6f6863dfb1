//! The rows of a seeded tape: draws of a linear congruential generator.

ghost use Rattle.std.specs.Prelude.{◌≡◌, ◌+◌, ◌*◌, ◌<◌, Bool, List as Wanted, length, map};
ghost use Rattle.xm_tape.specs.Draws as spec;
ghost use Rattle.xm_tape.specs.Inner.Forms.{component_drawn};
ghost use Rattle.xm_tape.specs.Inner.Leaps.{AreStops};
ghost use Rattle.xm_tape.specs.Place.{HasWanted};

use crate::drawn::Oracle;
use crate::leap::{Stops, after};
use xm_model::Choice;

/// What a number is multiplied by.
pub const MULTIPLIER: u64 = 6364136223846793005;

/// What is added then.
pub const INCREMENT: u64 = 1442695040888963407;

/// The generator's next number.
pub fn next_number(number: u64) -> u64
    ensures { result ≡ spec.next_number number }
{
    number.wrapping_mul(MULTIPLIER).wrapping_add(INCREMENT)
}

/// The draw below `bound` that a number is: of its upper 31 bits. The bounds of sinks, and of sources of one and
/// two colours, are told apart, since a remainder by a known number costs less.
pub fn draw(number: u64, bound: u64) -> u64
    requires { 0 < bound }
    ensures { result ≡ spec.draw number bound }
{
    let upper = number >> 33;
    match bound {
        2 => upper % 2,
        3 => upper % 3,
        _ => upper % bound,
    }
}

fn offer_drawn(colours: &[u8], number: u64) -> Choice
    ensures { result ≡ spec.offer_drawn colours.now (spec.draw number (length colours.now + 1)) }
{
    match draw(number, colours.len() as u64 + 1) {
        0 => Choice::Offer(None),
        place => Choice::Offer(colours.get(place as usize - 1).copied()),
    }
}

/// The choice that a number is for a source or a sink.
#[inline(always)]
fn choice_drawn(oracle: &Oracle, number: u64) -> Choice
    ensures { result ≡ spec.choice_drawn (component_drawn oracle.now) number }
{
    match oracle {
        Oracle::Sink => Choice::Ready(draw(number, 2) == 1),
        Oracle::Single(colour) => match draw(number, 2) {
            0 => Choice::Offer(None),
            _ => Choice::Offer(Some(*colour)),
        },
        Oracle::Listed(colours) => offer_drawn(colours.as_slice(), number),
    }
}

/// Makes the row after a number, in place of another one, and gives the number after the row. It is not inlined:
/// within its one caller the compiler keeps the variables of this loop on the stack, which cost time in every
/// cycle (measured with callgrind).
#[inline(never)]
pub fn draw_row(row: &mut [Choice], oracles: &[Oracle], before: u64) -> u64
    requires { length row.old ≡ length oracles.now }
    ensures row { row.new ≡ spec.row_drawn (map component_drawn oracles.now) before }
    ensures number { result ≡ spec.number_after (length oracles.now) before }
{
    let mut number = before;
    for k in 0..oracles.len() {
        number = next_number(number);
        row[k] = choice_drawn(&oracles[k], number);
    }
    number
}

/// Makes the choices at the stops of the row after a number, in place of others, and gives the number after the row.
/// The time is linear in the stops.
#[inline(never)]
pub fn draw_stops(row: &mut [Choice], oracles: &[Oracle], stops: &Stops, before: u64) -> u64
    requires wide { length row.old ≡ length oracles.now }
    requires stops { (own : Wanted Bool) × AreStops own (length oracles.now) stops.now.stops.items stops.now.rest }
    ensures row { (own : Wanted Bool) → AreStops own (length oracles.now) stops.now.stops.items stops.now.rest
        → HasWanted own (spec.row_drawn (map component_drawn oracles.now) before) row.new }
    ensures number { result ≡ spec.number_after (length oracles.now) before }
{
    let listed = stops.stops.as_slice();
    let mut number = before;
    for j in 0..listed.len() {
        let stop = listed[j];
        number = after(stop.leap, number);
        row[stop.place as usize] = choice_drawn(&oracles[stop.place as usize], number);
    }
    after(stops.rest, number)
}

fn row_skipped(before: u64, width: usize) -> u64
    ensures { result ≡ spec.number_after width before }
{
    let mut number = before;
    for o in 0..width {
        // The proof counts the draws by it.
        let _oracle = o;
        number = next_number(number);
    }
    number
}

/// The number after so many rows of this width.
pub fn rows_skipped(before: u64, width: usize, rows: u32) -> u64
    ensures { result ≡ spec.number_after (rows * width) before }
{
    let mut number = before;
    for t in 0..rows {
        // The proof counts the rows by it.
        let _row = t;
        number = row_skipped(number, width);
    }
    number
}
