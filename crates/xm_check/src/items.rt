//! Sums of a proof.

ghost use Rattle.std.specs.Prelude.{◌≡◌, ◌++◌, false, length, map, neg_ℤ, pos, slice_get, IfNone, IfOk, IfSome, OnOk, Some};
ghost use Rattle.xm_check.specs.Break as broken;
ghost use Rattle.xm_check.specs.Inner.Gives.{Gives};
ghost use Rattle.xm_check.specs.Inner.Queues.{AreOver, IsOver, IsQueueAt, added, made_row};
ghost use Rattle.xm_colours.specs.Family.{colours_at};
ghost use Rattle.xm_model.specs.Steps as steps;
ghost use Rattle.xm_flow.specs.ValidLemma.{lemma_of};
ghost use Rattle.xm_proof.specs.Sums.{add_row, no_sums};
ghost use Rattle.xm_proof.specs.Tests.{capacity_row, count_row, entries_where, is_queue, is_queue_pair, literal_row};
ghost use Rattle.xm_proof.specs.Tests.{low_row, of_pair, of_queue, only_where, queue_columns};
ghost use Rattle.xm_proof.specs.Valid.{lemma_row, of_a_queue};

use crate::stop::{Stop, demand};
use crate::sums::Sums;
use std::alloc::Global;
use xm_design::Design;
use xm_flow::Invariant;
use xm_lits::{Lit, is_on_path};
use xm_model::{List, OutOfMemory, Prim};
use xm_proof::{Item, Reason};
use xm_rows::Entry;

/// A row as it is made.
#[derive(Drop)]
pub struct Made {
    entries: List<Entry>,
    constant: i128,
}

/// The output and the capacity of queue `q`, where it is one.
fn queue(design: &Design, q: u32) -> Option<(u32, u32)>
    ensures none { IfNone result (is_queue (slice_get design.now.net.prims q) ≡ false) }
    ensures some { IfSome result (λ queue. IsQueueAt design.now q queue.0 queue.1) }
{
    let net = design.net();
    if q as usize >= net.prims().len() {
        return None;
    }
    match net.prim(q) {
        Prim::Queue { out, capacity, .. } => Some((*out, *capacity)),
        _ => None,
    }
}

/// Adds the value in the column of colour `d` of queue `q`, where it is one of its output.
fn push_count(
    entries: &mut List<Entry>,
    design: &Design,
    q: u32,
    out: u32,
    capacity: u32,
    d: u8,
    value: i128,
) -> Result<(), OutOfMemory>
    requires { IsQueueAt design.now q out capacity }
    ensures { OnOk result (entries.new.items ≡ entries.old.items ++ entries_where (of_pair q d) value 0
        (queue_columns design.now)) }
{
    let _ = capacity;
    let _net = design.net();
    if !design.colours().has(out, d) {
        return Ok(());
    }
    let column = design.queue_pair(q, d);
    entries.push(Entry { column, value })?;
    Ok(())
}

/// The value in the columns of all packets of queue `q`.
fn packets(
    alloc: Global,
    design: &Design,
    q: u32,
    out: u32,
    capacity: u32,
    value: i128,
) -> Result<List<Entry>, OutOfMemory>
    requires { IsQueueAt design.now q out capacity }
    ensures row { IfOk result (λ list. list.items ≡ entries_where (of_queue q) value 0 (queue_columns design.now)) }
    ensures over { IfOk result (λ list. IsOver (length (queue_columns design.now)) list.items) }
{
    let _net = design.net();
    let _colours = design.colours();
    let mut entries = List::new(alloc);
    for d in 0..64 {
        push_count(&mut entries, design, q, out, capacity, d, value)?;
    }
    Ok(entries)
}

/// The value in the column of colour `d` of queue `q`, where it is one of its output.
fn packet(
    alloc: Global,
    design: &Design,
    q: u32,
    out: u32,
    capacity: u32,
    d: u8,
    value: i128,
) -> Result<List<Entry>, OutOfMemory>
    requires { IsQueueAt design.now q out capacity }
    ensures row { IfOk result (λ list. list.items ≡ entries_where (of_pair q d) value 0 (queue_columns design.now)) }
    ensures over { IfOk result (λ list. IsOver (length (queue_columns design.now)) list.items) }
{
    let mut entries = List::new(alloc);
    push_count(&mut entries, design, q, out, capacity, d, value)?;
    Ok(entries)
}

/// That a queue has at most as many packets as its capacity.
fn capacity_made(alloc: Global, design: &Design, q: u32) -> Result<Made, Stop>
    ensures row { Gives made_row result
        (steps.demand (only_where (is_queue (slice_get design.now.net.prims q)) (Some (capacity_row design.now q)))
        Reason.Absent) }
    ensures over { IfOk result (λ made. IsOver (length (queue_columns design.now)) made.entries.items) }
{
    let Some((out, capacity)) = queue(design, q) else {
        return Err(Stop::Break(Reason::Absent));
    };
    Ok(Made {
        entries: packets(alloc, design, q, out, capacity, -1)?,
        constant: -i128::from(capacity),
    })
}

/// Whether colour `d` is one of the output of queue `q`.
fn has_pair(design: &Design, q: u32, out: u32, capacity: u32, d: u8) -> bool
    requires { IsQueueAt design.now q out capacity }
    ensures { result ≡ is_queue_pair (colours_at design.now.colours) d (slice_get design.now.net.prims q) }
{
    let _ = (q, capacity);
    design.colours().has(out, d)
}

/// That a count of packets is at least 0.
fn low_made(alloc: Global, design: &Design, q: u32, d: u8) -> Result<Made, Stop>
    ensures row { Gives made_row result
        (steps.demand (only_where (is_queue_pair (colours_at design.now.colours) d (slice_get design.now.net.prims
        q)) (Some (low_row design.now q d))) Reason.Absent) }
    ensures over { IfOk result (λ made. IsOver (length (queue_columns design.now)) made.entries.items) }
{
    let Some((out, capacity)) = queue(design, q) else {
        return Err(Stop::Break(Reason::Absent));
    };
    if !has_pair(design, q, out, capacity, d) {
        return Err(Stop::Break(Reason::Absent));
    }
    Ok(Made {
        entries: packet(alloc, design, q, out, capacity, d, 1)?,
        constant: 0,
    })
}

/// That a queue is full.
fn full_made(alloc: Global, design: &Design, q: u32) -> Result<Made, Stop>
    ensures row { Gives made_row result
        (steps.demand (only_where (is_queue (slice_get design.now.net.prims q)) (literal_row design.now (Lit.Full
        q))) Reason.Absent) }
    ensures over { IfOk result (λ made. IsOver (length (queue_columns design.now)) made.entries.items) }
{
    let Some((out, capacity)) = queue(design, q) else {
        return Err(Stop::Break(Reason::Absent));
    };
    Ok(Made {
        entries: packets(alloc, design, q, out, capacity, 1)?,
        constant: i128::from(capacity),
    })
}

/// What is said of the packets of one colour.
fn count_made(
    alloc: Global,
    design: &Design,
    q: u32,
    d: u8,
    value: i128,
    constant: i128,
) -> Result<Made, Stop>
    ensures row { Gives made_row result
        (steps.demand (only_where (is_queue (slice_get design.now.net.prims q)) (Some (count_row design.now value q d
        constant))) Reason.Absent) }
    ensures over { IfOk result (λ made. IsOver (length (queue_columns design.now)) made.entries.items) }
{
    let Some((out, capacity)) = queue(design, q) else {
        return Err(Stop::Break(Reason::Absent));
    };
    Ok(Made {
        entries: packet(alloc, design, q, out, capacity, d, value)?,
        constant,
    })
}

/// What a literal says of packets.
fn literal_made(alloc: Global, design: &Design, lit: &Lit) -> Result<Made, Stop>
    ensures row { Gives made_row result
        (steps.demand (only_where (of_a_queue design.now lit.now) (literal_row design.now lit.now)) Reason.Absent) }
    ensures over { IfOk result (λ made. IsOver (length (queue_columns design.now)) made.entries.items) }
{
    match *lit {
        Lit::Full(q) => full_made(alloc, design, q),
        Lit::Has(q, d) => count_made(alloc, design, q, d, 1, 1),
        Lit::Lacks(q, d) => count_made(alloc, design, q, d, -1, 0),
        Lit::Stuck(_) | Lit::Dead(_, _) | Lit::Idle(_, _) => Err(Stop::Break(Reason::Absent)),
    }
}

/// Adds a row that may not be taken a negative number of times.
fn add_made(sums: Sums, made: &Made, times: i128) -> Result<Sums, Stop>
    requires { IsOver (length sums.columns) made.now.entries.items }
    ensures { Gives (λ sums. sums) result (added (made_row made.now) times sums) }
{
    demand(times >= 0, Reason::Sign)?;
    sums.add(times, made.entries.as_slice(), made.constant)
}

/// The lemma at this place.
fn lemma_at<'a>(design: &Design, lemmas: &'a [Invariant], k: u32) -> Result<&'a Invariant, Stop>
    requires { AreOver (length (queue_columns design.now)) lemmas.now }
    ensures row { Gives (λ lemma. lemma.now.row) result
        (steps.demand (lemma_row (slice_get (map lemma_of lemmas.now) k)) Reason.Absent) }
    ensures over { IfOk result (λ lemma. IsOver (length (queue_columns design.now)) lemma.now.row.entries) }
{
    let _ = design;
    match lemmas.get(k as usize) {
        Some(lemma) => Ok(lemma),
        None => Err(Stop::Break(Reason::Absent)),
    }
}

/// Adds a lemma's row.
fn add_lemma(sums: Sums, lemma: &Invariant, times: i128) -> Result<Sums, Stop>
    requires { IsOver (length sums.columns) lemma.now.row.entries }
    ensures { Gives (λ sums. sums) result (steps.demand (add_row times lemma.now.row sums) Reason.Overflow) }
{
    sums.add(times, lemma.row.entries(), lemma.row.constant())
}

/// Adds an item.
fn add_item(
    alloc: Global,
    sums: Sums,
    design: &Design,
    lemmas: &[Invariant],
    path: &[Lit],
    item: &Item,
) -> Result<Sums, Stop>
    requires columns { length sums.columns ≡ length (queue_columns design.now) }
    requires lemmas { AreOver (length (queue_columns design.now)) lemmas.now }
    ensures { Gives (λ sums. sums) result
        (broken.item_test design.now (map lemma_of lemmas.now) path.now item.now sums) }
{
    match *item {
        Item::Lemma(k, times) => {
            let lemma = lemma_at(design, lemmas, k)?;
            add_lemma(sums, lemma, times)
        }
        Item::Cap(q, times) => {
            let made = capacity_made(alloc, design, q)?;
            add_made(sums, &made, times)
        }
        Item::Low(q, d, times) => {
            let made = low_made(alloc, design, q, d)?;
            add_made(sums, &made, times)
        }
        Item::Path(lit, times) => {
            demand(is_on_path(path, &lit), Reason::Absent)?;
            let made = literal_made(alloc, design, &lit)?;
            add_made(sums, &made, times)
        }
    }
}

/// Tests a sum by sums that are nothing, and hands them back so.
pub fn check_sum(
    alloc: Global,
    design: &Design,
    lemmas: &[Invariant],
    path: &[Lit],
    items: &[Item],
    sums: Sums,
) -> Result<Sums, Stop>
    requires lemmas { AreOver (length (queue_columns design.now)) lemmas.now }
    requires sums { sums ≡ no_sums (length (queue_columns design.now)) }
    ensures verdict { Gives (λ _. tt) result (broken.sum_test design.now (map lemma_of lemmas.now) path.now items.now) }
    ensures sums { IfOk result (λ sums. sums ≡ no_sums (length (queue_columns design.now))) }
{
    let mut sums = sums;
    for item in items {
        sums = add_item(alloc, sums, design, lemmas, path, item)?;
    }
    demand(sums.is_zero(), Reason::Nonzero)?;
    demand(sums.constant() >= 1, Reason::Weak)?;
    Ok(sums.cleared())
}
