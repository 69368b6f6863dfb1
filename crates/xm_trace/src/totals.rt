//! The pairs of a channel and a colour that have moves, with their sums.

ghost use Rattle.std.specs.Prelude.{◌≡◌, ◌<◌, ◌++◌, IfOk, OnOk};
ghost use Rattle.xm_trace.specs.Sums.{sum_at};
ghost use Rattle.xm_trace.specs.Inner.Table.{IsTable};
ghost use Rattle.xm_trace.specs.RunTextState.{channel_totals, total_if};
ghost use Rattle.xm_trace.specs.RunTextState as spec;

use crate::run_text::Total;
use std::alloc::Global;
use xm_model::{List, OutOfMemory};

/// Notes the sum of colour `d` on channel `c`, where it is not 0.
fn push_total(
    totals: &mut List<Total>,
    channel: u32,
    colour: u8,
    count: u64,
) -> Result<(), OutOfMemory>
    ensures { OnOk result (totals.new.items ≡ totals.old.items ++ total_if channel colour count) }
{
    if count == 0 {
        return Ok(());
    }
    totals.push(Total {
        channel,
        colour,
        count,
    })
}

fn push_totals(
    totals: &mut List<Total>,
    channel: u32,
    channels: u32,
    colours: u32,
    sums: &[u64],
) -> Result<(), OutOfMemory>
    requires table { IsTable channels colours sums.now }
    requires channel { channel < channels }
    ensures { OnOk result (totals.new.items
        ≡ totals.old.items ++ channel_totals (sum_at sums.now colours) channel colours) }
{
    for d in 0..colours {
        let place = channel * colours + d;
        push_total(totals, channel, d as u8, sums[place as usize])?;
    }
    Ok(())
}

/// The sums that are not 0, in pair order.
pub fn totals_of(
    alloc: Global,
    channels: u32,
    colours: u32,
    sums: &[u64],
) -> Result<List<Total>, OutOfMemory>
    requires { IsTable channels colours sums.now }
    ensures { IfOk result (λ totals. totals.items ≡ spec.totals_of (sum_at sums.now colours) colours channels) }
{
    let mut totals = List::new(alloc);
    for c in 0..channels {
        push_totals(&mut totals, c, channels, colours, sums)?;
    }
    Ok(totals)
}
