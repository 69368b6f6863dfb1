//! Labels that share the islands out evenly.

ghost use Rattle.std.specs.Prelude.{◌≡◌, ◌<◌, ◌≤◌, ◌*◌, ◌/◌, ℕ, cond, length, nat_lt, IfOk};
ghost use Rattle.xm_parts.specs.Balanced.{AreNumbered, AreShares};
ghost use Rattle.xm_parts.specs.Kept.{label_at};

use crate::given::raised;
use std::alloc::Global;
use xm_model::{List, OutOfMemory};

/// How many islands there are.
pub fn island_count(islands: &[u32]) -> u32
    requires in_order { (c j : ℕ) → c < length islands.now → j < label_at islands.now c
        → (d : ℕ) × (d < c) × (label_at islands.now d ≡ j) }
    requires few { length islands.now ≤ 8192 }
    ensures numbered { AreNumbered islands.now result }
    ensures few { result ≤ length islands.now }
{
    let mut count = 0u32;
    for c in 0..islands.len() {
        count = raised(count, islands[c]);
    }
    count
}

/// The lesser of two numbers.
pub fn lesser(a: u32, b: u32) -> u32
    ensures { result ≡ cond (nat_lt a b) a b }
{
    if a < b { a } else { b }
}

/// The part of an island, where so many islands are shared out to so many parts.
fn share(island: u32, parts: u32, islands: u32) -> u8
    requires island { island < islands }
    requires some { 0 < parts }
    requires parts { parts ≤ 64 }
    requires islands { islands ≤ 8192 }
    ensures value { result ≡ island * parts / islands }
    ensures below { result < 64 }
{
    (island * parts / islands) as u8
}

/// The label of each channel, where the islands are shared out to so many parts.
pub fn shares(
    alloc: Global,
    islands: &[u32],
    parts: u32,
    count: u32,
) -> Result<List<u8>, OutOfMemory>
    requires numbered { AreNumbered islands.now count }
    requires some { 0 < parts }
    requires parts { parts ≤ 64 }
    requires islands { count ≤ 8192 }
    ensures { IfOk result (λ labels. AreShares islands.now parts count labels.items) }
{
    let mut labels = List::new(alloc);
    for c in 0..islands.len() {
        labels.push(share(islands[c], parts, count))?;
    }
    Ok(labels)
}
