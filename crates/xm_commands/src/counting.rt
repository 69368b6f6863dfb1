//! What is counted of a run, from the totals of its channels and colours.

ghost use Rattle.std.specs.List.{sum_by};
ghost use Rattle.std.specs.Prelude.{◌≡◌, ◌<◌, ◌≤◌, ◌^◌, All, length};
ghost use Rattle.xm_commands.specs.Demonstrating.{enters_sink, is_sink as is_sink_of, run_counts};
ghost use Rattle.xm_commands.specs.Inner.Counting.{AreTotals, count_of, delivered_by as delivered_by_of};
ghost use Rattle.xm_model.specs.Component.{component_of};
ghost use Rattle.xm_tape.specs.Sizes.{most_cycles};
ghost use Rattle.xm_tape.specs.Taped.{cycles_of};

use xm_model::{Net, Prim};
use xm_report::RunCounts;
use xm_tape::Tape;
use xm_trace::Total;

fn is_sink(prim: &Prim) -> bool
    ensures { result ≡ is_sink_of (component_of prim.now) }
{
    matches!(prim, Prim::Sink { .. })
}

/// Whether the channel's target is a sink.
fn ends_in_sink(net: &Net, channel: u32) -> bool
    requires { channel < net.now.channels }
    ensures { result ≡ enters_sink net.now channel }
{
    is_sink(net.prim(net.target(channel)))
}

/// The moves of a total, where they went into a sink.
fn delivered_by(net: &Net, total: &Total) -> u64
    requires { total.now.channel < net.now.channels }
    ensures { result ≡ delivered_by_of net.now total.now }
{
    if ends_in_sink(net, total.channel) {
        total.count
    } else {
        0
    }
}

/// How many moves there are.
fn moves_in(totals: &[Total]) -> u64
    requires { sum_by count_of totals.now < 2 ^ 64 }
    ensures { result ≡ sum_by count_of totals.now }
{
    let mut sum = 0;
    for k in 0..totals.len() {
        sum += totals[k].count;
    }
    sum
}

/// How many of the moves went into a sink.
fn delivered_in(net: &Net, totals: &[Total]) -> u64
    requires channels { All (λ it. it.channel < net.now.channels) totals.now }
    requires few { sum_by (delivered_by_of net.now) totals.now < 2 ^ 64 }
    ensures { result ≡ sum_by (delivered_by_of net.now) totals.now }
{
    let mut sum = 0;
    for k in 0..totals.len() {
        sum += delivered_by(net, &totals[k]);
    }
    sum
}

/// What is counted of a run that has these totals.
pub fn counts_of(net: &Net, tape: &Tape, totals: &[Total]) -> RunCounts
    requires totals { AreTotals net.now tape.now totals.now }
    requires few { cycles_of tape.now ≤ most_cycles }
    ensures { (are : AreTotals net.now tape.now totals.now)
        → result ≡ run_counts net.now are.frames (cycles_of tape.now) }
{
    net.is_net();
    RunCounts {
        primitives: net.prims().len() as u64,
        channels: u64::from(net.channels()),
        cycles: u64::from(tape.cycles()),
        moves: moves_in(totals),
        delivered: delivered_in(net, totals),
    }
}
