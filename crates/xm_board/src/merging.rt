//! The moves of all parts, in the order of the run.

ghost use Rattle.std.specs.Prelude.{◌≡◌, ◌<◌, ◌≤◌, ◌+◌, ◌-◌, ◌^◌, ◌++◌, ℕ, List as ListOf, Option, Some, length, slice_get, slice_set, IfOk, OnOk};
ghost use Rattle.xm_board.specs.Inner.Merging.{AreLeft, AreTaken, NoneAt, NoneOf, part_of};
ghost use Rattle.xm_board.specs.Inner.Merging as spec;
ghost use Rattle.xm_model.specs.ListView.{ListView};
ghost use Rattle.xm_model.specs.Signals.{Signals};
ghost use Rattle.xm_parts.specs.Kept.{label_at};
ghost use Rattle.xm_trace.specs.Moves.{cycle_moves, moved_on, round_moves};
ghost use Rattle.xm_trace.specs.declared.trace.Move.{Move};

use std::alloc::Global;
use xm_design::Design;
use xm_model::{List, OutOfMemory};
use xm_parts::Parts;
use xm_trace::Move;

/// The move, if it is of this cycle and on this channel.
fn if_due(it: Move, t: u32, c: u32) -> Option<Move>
    ensures { result ≡ spec.due t c (Some it) }
{
    if it.cycle == t && it.channel == c {
        Some(it)
    } else {
        None
    }
}

/// The move at a place, if it is of this cycle and on this channel.
fn due(moves: &[Move], place: usize, t: u32, c: u32) -> Option<Move>
    ensures due { result ≡ spec.due t c (slice_get moves.now place) }
    ensures few { (it : Move) → result ≡ Some it → place + 1 < 2 ^ 64 }
{
    if place < moves.len() {
        return if_due(moves[place], t, c);
    }
    None
}

/// Puts the place of the next move of part `p`.
fn put_place(places: &mut List<usize>, p: u32, place: usize)
    requires { p < length places.old.items }
    ensures { places.new.items ≡ slice_set places.old.items p place }
{
    places.as_mut_slice()[p as usize] = place;
}

/// Takes the move of cycle `t` on channel `c`, which lies in part `p`, if there is one.
fn take_move(
    all: &[List<Move>],
    p: u32,
    t: u32,
    c: u32,
    places: &mut List<usize>,
    made: &mut List<Move>,
) -> Result<(), OutOfMemory>
    requires part { p < length all.now }
    requires places { p < length places.old.items }
    ensures places { OnOk result (length places.new.items ≡ length places.old.items) }
    ensures taken { (label : ℕ → ℕ) (o : Option ℕ) (left : ListOf Move) → label c ≡ p → NoneAt t c left
        → AreLeft label all.now places.old.items made.old.items (moved_on t c o ++ left)
        → OnOk result (AreTaken label all.now made.old.items (moved_on t c o) left places.new.items made.new.items) }
{
    let moves = &all[p as usize];
    let place = places.as_slice()[p as usize];
    match due(moves.as_slice(), place, t, c) {
        Some(it) => {
            made.push(it)?;
            put_place(places, p, place + 1);
            Ok(())
        }
        None => Ok(()),
    }
}

/// Takes the moves of cycle `t`, by channel.
fn take_cycle(
    parts: &Parts,
    all: &[List<Move>],
    t: u32,
    channels: u32,
    places: &mut List<usize>,
    made: &mut List<Move>,
) -> Result<(), OutOfMemory>
    requires channels { channels ≡ parts.now.design.net.channels }
    requires whole { length all.now ≡ parts.now.count }
    requires places { length places.old.items ≡ parts.now.count }
    ensures places { OnOk result (length places.new.items ≡ length places.old.items) }
    ensures taken { (φ : Signals) (left : ListOf Move) → NoneOf t left
        → AreLeft (label_at parts.now.labels) all.now places.old.items made.old.items
        (cycle_moves φ t channels ++ left)
        → OnOk result (AreTaken (label_at parts.now.labels) all.now made.old.items (cycle_moves φ t channels) left
        places.new.items made.new.items) }
{
    for c in 0..channels {
        let p = parts.of(c);
        take_move(all, p, t, c, places, made)?;
    }
    Ok(())
}

/// The moves of the cycles from `from` to before `to`, by cycle and then channel, where each part has its own. It
/// takes time that is linear in the cycles and the channels.
pub fn merged(
    alloc: Global,
    design: &Design,
    parts: &Parts,
    all: &[List<Move>],
    from: u32,
    to: u32,
) -> Result<List<Move>, OutOfMemory>
    requires design { parts.now.design ≡ design.now }
    requires whole { length all.now ≡ parts.now.count }
    requires order { from ≤ to }
    ensures { (φ : ℕ → Signals) → ((p : ℕ) (ms : ListView Move) → slice_get all.now p ≡ Some ms
        → ms.items ≡ part_of (label_at parts.now.labels) p (round_moves φ design.now.net.channels from (to - from)))
        → IfOk result (λ made. made.items ≡ round_moves φ design.now.net.channels from (to - from)) }
{
    let channels = design.net().channels();
    let mut places = List::filled(alloc, 0usize, parts.count())?;
    let mut made = List::new(alloc);
    for t in from..to {
        take_cycle(parts, all, t, channels, &mut places, &mut made)?;
    }
    Ok(made)
}
