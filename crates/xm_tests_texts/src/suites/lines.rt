//! Generated documents: lines of stations.

ghost use Rattle.std.specs.Prelude.{◌≤◌};

use super::helpers::is_text;
use std::alloc::Global;
use xm_generate::gen_document;
use xm_netlist::read_document;

/// The smallest line, of seed 0.
pub const TWO_STATIONS: &str = concat!(
    r#"{"colours":["d0","d1","d2","d3","d4","d5","d6","d7"],"net":["#,
    r#"{"colours":["d7","d1"],"kind":"source","name":"S0","out":"s0"},"#,
    r#"{"capacity":2,"in":"s0","kind":"queue","name":"T0","out":"t0"},"#,
    r#"{"in":"t0","kind":"sink","name":"K1"}],"tape":{"cycles":1000,"seed":0},"version":1}"#,
    "\n"
);

#[test]
fn the_smallest_line_is_as_written_by_hand(rt: HostRuntime) {
    assert!(rt; is_text(gen_document(rt.alloc(), 2, 0), TWO_STATIONS));
}

/// Whether the text is a document with so many primitives and channels.
pub fn has_numbers(alloc: Global, text: &[u8], prims: usize, channels: u32) -> bool {
    match read_document(alloc, text) {
        Ok(document) => {
            document.net.prims().len() == prims && document.net.channels() == channels
        }
        Err(_) => false,
    }
}

/// Whether the line of this size and seed has so many primitives and channels.
fn is_line(alloc: Global, size: u32, seed: u64, prims: usize, channels: u32) -> bool
    requires low { 2 ≤ size }
    requires high { size ≤ 600 }
{
    match gen_document(alloc, size, seed) {
        Ok(text) => has_numbers(alloc, text.as_bytes(), prims, channels),
        Err(_) => false,
    }
}

#[test]
fn four_hundred_stations_have_their_numbers(rt: HostRuntime) {
    assert!(rt; is_line(rt.alloc(), 400, 7, 2391, 2390));
}
