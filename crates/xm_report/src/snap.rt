//! The line of a snapshot.

ghost use Rattle.std.specs.List.{flat_map};
ghost use Rattle.std.specs.Prelude.{◌≡◌, ◌++◌, ◌<◌, ℕ, IfOk, OnOk, Some, codes, decimal, length, map, slice_get};
ghost use Rattle.xm_model.specs.Component.{Content, content_of};
ghost use Rattle.xm_model.specs.Membership.{times};
ghost use Rattle.xm_model.specs.Naming.{naming_of};
ghost use Rattle.xm_model.specs.Run.{count};
ghost use Rattle.xm_model.specs.Signals.{packets_in};
ghost use Rattle.xm_model.specs.TextLines.{line};
ghost use Rattle.xm_model.specs.Views.{content_at};
ghost use Rattle.xm_report.specs.Snap.{held_text, packets_text, snap_line};

use crate::invariants::push_pair;
use crate::pieces::{Listed, push_count};
use std::alloc::Global;
use xm_design::Design;
use xm_flow::queue_pairs;
use xm_model::{Cell, Names, OutOfMemory, State, Text};

/// How many of these packets have the colour.
fn count_of(d: u8, packets: &[u8]) -> u64
    ensures { result ≡ times d packets.now }
{
    let mut count = 0;
    for i in 0..packets.len() {
        if packets[i] == d {
            count += 1;
        }
    }
    count
}

/// How many packets of the colour a cell holds.
fn packets_at(cell: &Cell, d: u8) -> u64
    ensures { result ≡ times d (packets_in (content_of cell.now)) }
{
    match cell {
        Cell::Packets(packets) => count_of(d, packets.as_slice()),
        _ => 0,
    }
}

/// How many packets a queue pair has.
fn held(cells: &[Cell], pair: (u32, u8)) -> u64
    ensures { result ≡ count (content_at cells.now) pair.0 pair.1 }
{
    let q = pair.0 as usize;
    if q >= cells.len() {
        return 0;
    }
    packets_at(&cells[q], pair.1)
}

/// Appends so many packets of a queue pair, where there are some.
fn push_packets(
    text: &mut Text,
    names: &Names,
    pair: (u32, u8),
    count: u64,
) -> Result<(), OutOfMemory>
    ensures { OnOk result (text.new.items ≡ text.old.items ++ packets_text (naming_of names.now) pair count) }
{
    if count == 0 {
        return Ok(());
    }
    text.push_bytes(b" ")?;
    push_pair(text, names, pair)?;
    text.push_bytes(b"=")?;
    push_count(text, count)
}

/// Appends the packets of the queue pairs in these cells.
fn push_held(text: &mut Text, it: &Listed<'_>, cells: &[Cell]) -> Result<(), OutOfMemory>
    ensures { OnOk result (text.new.items ≡ text.old.items
        ++ flat_map (held_text (naming_of it.now.names.now) (content_at cells.now)) it.now.pairs.now) }
{
    for k in 0..it.pairs.len() {
        push_packets(text, it.names, it.pairs[k], held(cells, it.pairs[k]))?;
    }
    Ok(())
}

/// Appends the line of a cycle and of the packets in its cells.
fn push_snapshot(
    text: &mut Text,
    it: &Listed<'_>,
    cycle: u32,
    cells: &[Cell],
) -> Result<(), OutOfMemory>
    ensures { OnOk result (text.new.items ≡ text.old.items ++ line (codes "snap " ++ decimal cycle
        ++ flat_map (held_text (naming_of it.now.names.now) (content_at cells.now)) it.now.pairs.now)) }
{
    text.push_bytes(b"snap ")?;
    push_count(text, u64::from(cycle))?;
    push_held(text, it, cells)?;
    text.push_bytes(b"\n")
}

/// The line of a snapshot: its cycle, and how many packets of each colour each queue holds, where it holds some.
pub fn snap_text(
    alloc: Global,
    names: &Names,
    design: &Design,
    cycle: u32,
    state: &State,
) -> Result<Text, OutOfMemory>
    ensures { (s : ℕ → Content) → ((q : ℕ) → q < length design.now.net.prims
        → slice_get (map content_of state.now.cells.items) q ≡ Some (s q))
        → IfOk result (λ text. text.items ≡ snap_line (naming_of names.now) design.now cycle s) }
{
    let pairs = queue_pairs(alloc, design)?;
    let listed = Listed {
        names,
        pairs: pairs.as_slice(),
    };
    let mut text = Text::new(alloc);
    push_snapshot(&mut text, &listed, cycle, state.cells.as_slice())?;
    Ok(text)
}
