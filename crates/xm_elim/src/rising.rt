//! Places in rising order, each once.

ghost use Rattle.std.specs.Prelude.{◌≡◌, ◌<◌, ◌^◌, All, IfOk, IsTrue, OnOk};
ghost use Rattle.std.specs.List.Sorted.{IsNonDecreasing, IsPermutation};
ghost use Rattle.xm_colours.specs.Family.{Rises};
ghost use Rattle.xm_elim.specs.Inner.Columns.{IsRisingOf};

use std::alloc::Global;
use xm_model::{List, OutOfMemory};

/// Rising places, each once.
fn each_once(alloc: Global, places: &[u32]) -> Result<List<u32>, OutOfMemory>
    requires few { All (λ p. p < 2 ^ 20) places.now }
    requires sorted { IsNonDecreasing places.now }
    ensures { IfOk result (λ out. IsRisingOf places.now out.items) }
{
    let mut out = List::new(alloc);
    let mut lowest = 0;
    for p in places {
        if *p >= lowest {
            out.push(*p)?;
            lowest = *p + 1;
        }
    }
    Ok(out)
}

fn is_rising(places: &[u32]) -> bool
    requires { All (λ p. p < 2 ^ 20) places.now }
    ensures { IsTrue result → Rises places.now }
{
    let mut lowest = 0;
    for p in places {
        if *p < lowest {
            return false;
        }
        lowest = *p + 1;
    }
    true
}

/// Puts the places in rising order, each once. Most lists have them so.
pub fn in_order(alloc: Global, places: &mut List<u32>) -> Result<(), OutOfMemory>
    requires { All (λ p. p < 2 ^ 20) places.old.items }
    ensures { OnOk result (IsRisingOf places.old.items places.new.items) }
{
    if is_rising(places.as_slice()) {
        return Ok(());
    }
    places.as_mut_slice().sort_unstable();
    let once = each_once(alloc, places.as_slice())?;
    *places = once;
    Ok(())
}
