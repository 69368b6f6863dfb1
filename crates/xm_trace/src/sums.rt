//! How often each colour moves on each channel.

ghost use Rattle.std.specs.Prelude.{◌≡◌, ℕ, ◌+◌, ◌^◌, ◌<◌, ◌≤◌, ◌&&◌, cond, nat_eq, replicate, IfOk};
ghost use Rattle.xm_model.specs.Limits.{most_channels, most_colours};
ghost use Rattle.xm_trace.specs.Sums.{AreSums, sum_at, sum_in};
ghost use Rattle.xm_trace.specs.Inner.Table.{IsTable};

use crate::trace::Move;
use std::alloc::Global;
use xm_model::{List, OutOfMemory};

/// Adds one to the sum of the move's colour on its channel.
pub fn count_move(sums: &mut [u64], channels: usize, colours: usize, it: Move)
    requires table { IsTable channels colours sums.old }
    requires room { (c d : ℕ) → c < channels → d < colours → sum_at sums.old colours c d + 1 < 2 ^ 64 }
    ensures { (c d : ℕ) → c < channels → d < colours
        → sum_at sums.new colours c d
        ≡ cond (nat_eq it.channel c && nat_eq it.colour d) 1 0 + sum_at sums.old colours c d }
{
    let channel = it.channel as usize;
    let colour = usize::from(it.colour);
    if channel < channels && colour < colours {
        sums[channel * colours + colour] += 1;
    }
}

/// Adds the moves to the sums: that of colour `d` on channel `c` stands at `c * colours + d`. It is not
/// inlined: within its one caller the compiler keeps the variables of this loop on the stack, which cost time
/// for every move (measured with callgrind).
#[inline(never)]
pub fn count_moves(sums: &mut [u64], channels: usize, colours: usize, moves: &[Move])
    requires table { IsTable channels colours sums.old }
    requires room { (c d : ℕ) → c < channels → d < colours → sum_at sums.old colours c d < 2 ^ 32 }
    ensures { (c d : ℕ) → c < channels → d < colours
        → sum_at sums.new colours c d ≡ sum_in moves.now c d + sum_at sums.old colours c d }
{
    for it in moves {
        count_move(sums, channels, colours, *it);
    }
}

/// The sums of the moves.
pub fn sums_of(
    alloc: Global,
    channels: usize,
    colours: usize,
    moves: &[Move],
) -> Result<List<u64>, OutOfMemory>
    requires channels { channels ≤ most_channels }
    requires colours { colours ≤ most_colours }
    ensures { IfOk result (λ sums. AreSums channels colours moves.now sums.items) }
{
    let mut sums = List::filled(alloc, 0u64, (channels * colours) as u32)?;
    count_moves(sums.as_mut_slice(), channels, colours, moves);
    Ok(sums)
}
