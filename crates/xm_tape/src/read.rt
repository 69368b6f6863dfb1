//! Reading a tape: its shape, its limits, and then its rows.

ghost use Rattle.std.specs.Prelude.{◌≡◌, ◌*◌, ◌≤◌, IfOk, option_map};
ghost use Rattle.serde_json.specs.View.{view};
ghost use Rattle.xm_model.specs.Limits.{most_channels};
ghost use Rattle.xm_tape.specs.Inner.Views.{IsShort, draft_of};
ghost use Rattle.xm_tape.specs.Gives.{Gives};
ghost use Rattle.xm_tape.specs.Reading as spec;
ghost use Rattle.xm_tape.specs.Sizes.{most_cycles, most_cycles_by_channels};
ghost use Rattle.xm_tape.specs.Taped.{Fits, cycles_of};

use crate::draft::{Draft, draft_in};
use crate::fault::TapeFault;
use crate::limits::{MOST_CYCLES, MOST_CYCLES_BY_CHANNELS};
use crate::tape::Tape;
use serde_json::Value;
use std::alloc::Global;
use xm_design::Design;

/// The limits of a run: its cycles first, and then cycles times channels.
fn check_limits(cycles: u64, channels: u32) -> Result<(), TapeFault>
    requires { channels ≤ most_channels }
    ensures { Gives (λ _. tt) result (spec.check_limits cycles channels) }
{
    if cycles > u64::from(MOST_CYCLES) {
        return Err(TapeFault::TapeLimit(cycles));
    }
    let product = cycles * u64::from(channels);
    if product > u64::from(MOST_CYCLES_BY_CHANNELS) {
        return Err(TapeFault::TapeLimit(product));
    }
    Ok(())
}

/// The rows of a draft that keeps the limits.
#[tactic(auto, unfolding(crate::specs::Reading::taped_in))]
fn taped_in(alloc: Global, design: &Design, draft: &Draft) -> Result<Tape, TapeFault>
    requires short { IsShort (draft_of draft.now) }
    requires limited { spec.check_limits (spec.cycles_drafted (draft_of draft.now)) design.now.net.channels ≡ Ok tt }
    ensures { Gives (λ tape. tape) result (spec.taped_in design.now.net (draft_of draft.now)) }
{
    match draft {
        Draft::Written(rows) => Tape::written(alloc, design, rows, &[], 0),
        Draft::Repeating { stem, cycle, times } => Tape::written(
            alloc, design, stem, cycle, *times,
        ),
        Draft::Seeded { cycles, seed } => Ok(Tape::seeded(alloc, design, *cycles, *seed)?),
    }
}

/// The tape that the value is, or its first fault: of its shape, then of its limits, and then of its rows.
/// Time and memory grow with the rows that are written, or drawn, times the sources and sinks.
#[tactic(auto, unfolding(crate::specs::Reading::tape_in))]
pub fn read_tape(alloc: Global, design: &Design, value: Option<&Value>) -> Result<Tape, TapeFault>
    ensures exact { Gives (λ tape. tape) result
        (spec.tape_in design.now.net (option_map (λ v. view v.now) value.entry)) }
    ensures fits { IfOk result (Fits design.now.net) }
    ensures few { IfOk result (λ tape. cycles_of tape ≤ most_cycles) }
    ensures limits { IfOk result (λ tape. cycles_of tape * design.now.net.channels ≤ most_cycles_by_channels) }
{
    let draft = draft_in(alloc, value)?;
    check_limits(draft.cycles(), design.net().channels())?;
    taped_in(alloc, design, &draft)
}
