//! Which column a pair or a queue pair has.

ghost use Rattle.std.specs.Prelude.{◌≡◌, ◌<◌, ◌≤◌, ◌^◌, IfOk, length, slice_get, Some};
ghost use Rattle.xm_colours.specs.Family.{colours_at};
ghost use Rattle.xm_design.specs.Designed.{Designed, IsDesigned};
ghost use Rattle.xm_design.specs.Numbers.{IsQueuePair};
ghost use Rattle.xm_flow.specs.FlowRows.{Count, Moves, columns};
ghost use Rattle.xm_flow.specs.Inner.Building.{ArePlaces};
ghost use Rattle.xm_flow.specs.Holding.{most_pairs, queue_pair_count};
ghost use Rattle.xm_model.specs.Membership.{IsIn};

use std::alloc::Global;
use xm_colours::Colours;
use xm_design::Design;
use xm_model::{List, OutOfMemory};

/// For each channel, how many pairs stand below it; and how many pairs there are.
#[derive(Drop)]
pub struct Places {
    pub below: List<u32>,
    pub moves: u32,
}

/// The places of a design.
pub fn places_of(alloc: Global, design: &Design) -> Result<Places, OutOfMemory>
    ensures { IfOk result (λ places. ArePlaces design.now places.below.items places.moves) }
{
    let mut below = List::new(alloc);
    let mut moves = 0;
    for c in 0..design.net().channels() {
        below.push(moves)?;
        moves += design.colours().count(c);
    }
    Ok(Places { below, moves })
}

/// The column of the moves of colour `d` on channel `c`.
pub fn move_at(places: &Places, design: &Design, c: u32, d: u8) -> u32
    requires places { ArePlaces design.now places.now.below.items places.now.moves }
    requires narrow { places.now.moves ≤ most_pairs }
    requires channel { c < design.now.net.channels }
    requires colour { IsIn (colours_at design.now.colours c) d }
    ensures { slice_get (columns design.now) result ≡ Some (Moves c d) }
{
    places.below.as_slice()[c as usize] + design.colours().place(c, d)
}

/// The column of the packets of colour `d` in queue `q`.
pub fn count_at(places: &Places, design: &Design, q: u32, d: u8) -> u32
    requires places { ArePlaces design.now places.now.below.items places.now.moves }
    requires narrow { places.now.moves ≤ most_pairs }
    requires few { queue_pair_count design.now < 2 ^ 20 }
    requires pair { IsQueuePair design.now q d }
    ensures { slice_get (columns design.now) result ≡ Some (Count q d) }
{
    places.moves + design.queue_pair(q, d)
}
