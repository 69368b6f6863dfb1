//! The colours of a channel as a list, and how often a colour stands in a list.

ghost use Rattle.std.specs.Prelude.{◌≡◌, ◌<◌, All, IfOk, neg_ℤ, pos};
ghost use Rattle.xm_colours.specs.Family.{colours_at};
ghost use Rattle.xm_model.specs.Membership.{times};
ghost use Rattle.xm_rows.specs.Row.{Fits128};

use std::alloc::Global;
use xm_design::Design;
use xm_model::{List, OutOfMemory};

/// The colours of a channel, rising.
pub fn set_of(alloc: Global, design: &Design, c: u32) -> Result<List<u8>, OutOfMemory>
    ensures colours { IfOk result (λ set. set.items ≡ colours_at design.now.colours c) }
    ensures below { IfOk result (λ set. All (λ d. d < design.now.net.colours) set.items) }
{
    let _net = design.net();
    let colours = design.colours();
    let mut set = List::new(alloc);
    for d in 0..64u8 {
        if colours.has(c, d) {
            set.push(d)?;
        }
    }
    Ok(set)
}

/// How many packets of a colour there are.
pub fn count_of(d: u8, packets: &[u8]) -> u64
    ensures { result ≡ times d packets.now }
{
    let mut count = 0;
    for i in 0..packets.len() {
        if packets[i] == d {
            count += 1;
        }
    }
    count
}

/// What a count is as a negative number.
pub fn negated(count: u64) -> i128
    ensures value { result ≡ neg_ℤ (pos count) }
    ensures fits { Fits128 result }
{
    -(count as i128)
}
