//! Constraints on the packets in queues, each with the item that names it in a sum.

ghost use Rattle.std.specs.Prelude.{◌≡◌, ◌<◌, ◌++◌, [], ◌∷◌, List as Items, All, Some, IfOk, OnOk, length, map, slice_get};
ghost use Rattle.std.specs.Prelude.{IfNone, IfSome, neg_ℤ, pos, ◌≢◌, false, true};
ghost use Rattle.xm_design.specs.Designed.{Designed};
ghost use Rattle.xm_flow.specs.ValidLemma.{Lemma, lemma_of};
ghost use Rattle.xm_lits.specs.declared.literal.Lit.{Lit as Literal};
ghost use Rattle.xm_lits.specs.Paths.{is_on_path};
ghost use Rattle.xm_proof.specs.Tests.{entries_where, of_queue, queue_columns};
ghost use Rattle.xm_proof.specs.Valid.{item_row};
ghost use Rattle.xm_rows.specs.Row.{Fits128, IsRow};
ghost use Rattle.xm_search.specs.Constraints.{capacities, equation, said, said_by, said_row};
ghost use Rattle.xm_lits.specs.Repeating.{capacity_at};
ghost use Rattle.xm_model.specs.Component.{component_of};
ghost use Rattle.xm_proof.specs.Tests.{is_queue};
ghost use Rattle.xm_search.specs.Inner.Named.{AreNamed, AreShared, HasCapacity, Names, is_counted, is_lemma, row_said};

use std::alloc::Global;
use xm_design::Design;
use xm_flow::Invariant;
use xm_lits::Lit;
use xm_lp::Con;
use xm_model::{List, OutOfMemory, Prim};
use xm_proof::Item;
use xm_rows::{Entry, Row};

/// Constraints, and the item that names each.
#[derive(Drop)]
pub struct Bounds {
    pub cons: List<Con>,
    pub items: List<Item>,
}

/// No constraints.
pub fn no_bounds(alloc: Global) -> Bounds
    ensures cons { result.cons.items ≡ [] }
    ensures items { result.items.items ≡ [] }
{
    Bounds {
        cons: List::new(alloc),
        items: List::new(alloc),
    }
}

/// Whether the pair is one of the queue, or the one of the queue with the colour.
fn is_counted_pair(pair: (u32, u8), q: u32, colour: Option<u8>) -> bool
    ensures { result ≡ is_counted q colour pair }
{
    match colour {
        None => pair.0 == q,
        Some(d) => pair.0 == q && pair.1 == d,
    }
}

/// Appends the value in this column, where its pair is counted.
fn push_counted(
    entries: &mut List<Entry>,
    pair: (u32, u8),
    column: u32,
    q: u32,
    colour: Option<u8>,
    value: i128,
) -> Result<(), OutOfMemory>
    ensures { OnOk result (entries.new.items ≡ entries.old.items ++ entries_where (is_counted q colour) value column
        (pair ∷ [])) }
{
    if !is_counted_pair(pair, q, colour) {
        return Ok(());
    }
    entries.push(Entry { column, value })
}

/// The value in the columns of the packets of queue `q`, or of those of one colour.
fn packets(
    alloc: Global,
    pairs: &[(u32, u8)],
    q: u32,
    colour: Option<u8>,
    value: i128,
) -> Result<List<Entry>, OutOfMemory>
    requires { length pairs.now < 4294967296 }
    ensures { IfOk result (λ list. list.items ≡ entries_where (is_counted q colour) value 0 pairs.now) }
{
    let mut entries = List::new(alloc);
    for j in 0..pairs.len() {
        push_counted(&mut entries, pairs[j], j as u32, q, colour, value)?;
    }
    Ok(entries)
}

/// A row with these entries and this constant.
fn packets_row(
    alloc: Global,
    pairs: &[(u32, u8)],
    q: u32,
    colour: Option<u8>,
    value: i128,
    constant: i128,
) -> Result<Row, OutOfMemory>
    requires few { length pairs.now < 4294967296 }
    requires nonzero { value ≢ pos 0 }
    requires value { Fits128 value }
    requires constant { Fits128 constant }
    ensures { IfOk result (λ row. row
        ≡ record { entries = entries_where (is_counted q colour) value 0 pairs.now; constant = constant }) }
{
    let entries = packets(alloc, pairs, q, colour, value)?;
    Row::new(alloc, entries.as_slice(), constant)
}

/// The same row.
pub fn copy(alloc: Global, row: &Row) -> Result<Row, OutOfMemory>
    ensures same { IfOk result (λ copy. copy ≡ row.now) }
    ensures row { IsRow row.now }
{
    Row::new(alloc, row.entries(), row.constant())
}

/// Appends a constraint and the item that names it.
fn push_named(bounds: &mut Bounds, row: Row, equal: bool, item: Item) -> Result<(), OutOfMemory>
    ensures cons { OnOk result (bounds.new.cons.items
        ≡ bounds.old.cons.items ++ record { row = row; equal = equal } ∷ []) }
    ensures named { (it : Designed) (lemmas : Items Lemma) (path : Items Literal)
        → item_row it lemmas path item ≡ Some row → is_lemma item ≡ equal
        → All (λ e. e.column < length (queue_columns it)) row.entries
        → AreNamed it lemmas path bounds.old → OnOk result (AreNamed it lemmas path bounds.new) }
{
    let _entries = row.entries();
    bounds.cons.push(Con { row, equal })?;
    bounds.items.push(item)
}

/// Appends the constraint, which this item names.
pub fn push_copy(
    alloc: Global,
    bounds: &mut Bounds,
    con: &Con,
    item: Item,
) -> Result<(), OutOfMemory>
    ensures cons { OnOk result (bounds.new.cons.items ≡ bounds.old.cons.items ++ con.now ∷ []) }
    ensures named { (it : Designed) (lemmas : Items Lemma) (path : Items Literal) → Names it lemmas path item con.now
        → AreNamed it lemmas path bounds.old → OnOk result (AreNamed it lemmas path bounds.new) }
{
    let row = copy(alloc, &con.row)?;
    push_named(bounds, row, con.equal, item)
}

/// Appends that a lemma holds.
fn push_lemma(
    alloc: Global,
    bounds: &mut Bounds,
    lemma: &Invariant,
    k: u32,
) -> Result<(), OutOfMemory>
    ensures cons { OnOk result (bounds.new.cons.items
        ≡ bounds.old.cons.items ++ equation (lemma_of lemma.now) ∷ []) }
    ensures named { (it : Designed) (lemmas : Items Lemma) (path : Items Literal)
        → slice_get lemmas k ≡ Some (lemma_of lemma.now)
        → All (λ e. e.column < length (queue_columns it)) lemma.now.row.entries
        → AreNamed it lemmas path bounds.old → OnOk result (AreNamed it lemmas path bounds.new) }
{
    let row = copy(alloc, &lemma.row)?;
    push_named(bounds, row, true, Item::Lemma(k, 0))
}

/// Appends that each lemma holds.
fn push_lemmas(alloc: Global, bounds: &mut Bounds, lemmas: &[Invariant]) -> Result<(), OutOfMemory>
    requires { length lemmas.now < 4294967296 }
    ensures cons { OnOk result (bounds.new.cons.items
        ≡ bounds.old.cons.items ++ map equation (map lemma_of lemmas.now)) }
    ensures named { (it : Designed) (path : Items Literal)
        → All (λ l. All (λ e. e.column < length (queue_columns it)) l.row.entries) (map lemma_of lemmas.now)
        → AreNamed it (map lemma_of lemmas.now) path bounds.old
        → OnOk result (AreNamed it (map lemma_of lemmas.now) path bounds.new) }
{
    for k in 0..lemmas.len() {
        push_lemma(alloc, bounds, &lemmas[k], k as u32)?;
    }
    Ok(())
}

/// That queue `q` has at most so many packets.
fn capacity_row(
    alloc: Global,
    pairs: &[(u32, u8)],
    q: u32,
    capacity: u32,
) -> Result<Row, OutOfMemory>
    requires { length pairs.now < 4294967296 }
    ensures { IfOk result (λ row. row ≡ record {
      entries = entries_where (of_queue q) (neg_ℤ (pos 1)) 0 pairs.now;
      constant = neg_ℤ (pos capacity);
    }) }
{
    packets_row(alloc, pairs, q, None, -1, -i128::from(capacity))
}

/// Appends the capacity of primitive `q`, where it is a queue.
fn push_capacity(
    alloc: Global,
    bounds: &mut Bounds,
    pairs: &[(u32, u8)],
    prim: &Prim,
    q: u32,
) -> Result<(), OutOfMemory>
    requires { length pairs.now < 4294967296 }
    ensures cons { (it : Designed) → pairs.now ≡ queue_columns it
        → slice_get it.net.prims q ≡ Some (component_of prim.now)
        → OnOk result (bounds.new.cons.items ≡ bounds.old.cons.items
        ++ capacities it q (component_of prim.now ∷ [])) }
    ensures named { (it : Designed) (lemmas : Items Lemma) (path : Items Literal) → pairs.now ≡ queue_columns it
        → slice_get it.net.prims q ≡ Some (component_of prim.now)
        → AreNamed it lemmas path bounds.old → OnOk result (AreNamed it lemmas path bounds.new) }
{
    match prim {
        Prim::Queue { capacity, .. } => {
            let row = capacity_row(alloc, pairs, q, *capacity)?;
            push_named(bounds, row, false, Item::Cap(q, 0))
        }
        _ => Ok(()),
    }
}

/// Appends the capacity of each queue.
fn push_capacities(
    alloc: Global,
    bounds: &mut Bounds,
    design: &Design,
    pairs: &[(u32, u8)],
) -> Result<(), OutOfMemory>
    requires few { length pairs.now < 4294967296 }
    requires pairs { pairs.now ≡ queue_columns design.now }
    ensures cons { OnOk result (bounds.new.cons.items
        ≡ bounds.old.cons.items ++ capacities design.now 0 design.now.net.prims) }
    ensures named { (lemmas : Items Lemma) (path : Items Literal) → AreNamed design.now lemmas path bounds.old
        → OnOk result (AreNamed design.now lemmas path bounds.new) }
{
    let net = design.net();
    net.is_net();
    for q in 0..net.prims().len() {
        push_capacity(alloc, bounds, pairs, net.prim(q as u32), q as u32)?;
    }
    Ok(())
}

/// The lemmas and the capacities.
pub fn shared_bounds(
    alloc: Global,
    design: &Design,
    pairs: &[(u32, u8)],
    lemmas: &[Invariant],
) -> Result<Bounds, OutOfMemory>
    requires few { length pairs.now < 4294967296 }
    requires few_lemmas { length lemmas.now < 4294967296 }
    requires pairs { pairs.now ≡ queue_columns design.now }
    requires within { All (λ l. All (λ e. e.column < length (queue_columns design.now)) l.row.entries)
        (map lemma_of lemmas.now) }
    ensures { IfOk result (AreShared design.now (map lemma_of lemmas.now)) }
{
    let mut bounds = no_bounds(alloc);
    push_lemmas(alloc, &mut bounds, lemmas)?;
    push_capacities(alloc, &mut bounds, design, pairs)?;
    Ok(bounds)
}

/// What the literal says of a queue with this capacity.
fn said_of(
    alloc: Global,
    pairs: &[(u32, u8)],
    lit: Lit,
    capacity: u32,
) -> Result<Option<Row>, OutOfMemory>
    requires { length pairs.now < 4294967296 }
    ensures { IfOk result (λ row. row ≡ row_said pairs.now capacity lit) }
{
    let row = match lit {
        Lit::Full(q) => packets_row(alloc, pairs, q, None, 1, i128::from(capacity))?,
        Lit::Has(q, d) => packets_row(alloc, pairs, q, Some(d), 1, 1)?,
        Lit::Lacks(q, d) => packets_row(alloc, pairs, q, Some(d), -1, 0)?,
        _ => return Ok(None),
    };
    Ok(Some(row))
}

/// Appends what the literal says of the packets of a queue with this capacity.
fn push_said(
    alloc: Global,
    bounds: &mut Bounds,
    pairs: &[(u32, u8)],
    lit: Lit,
    capacity: u32,
) -> Result<(), OutOfMemory>
    requires { length pairs.now < 4294967296 }
    ensures cons { (it : Designed) → pairs.now ≡ queue_columns it → HasCapacity it lit capacity
        → OnOk result (bounds.new.cons.items ≡ bounds.old.cons.items ++ said_by (said_row it lit)) }
    ensures named { (it : Designed) (lemmas : Items Lemma) (path : Items Literal) → pairs.now ≡ queue_columns it
        → HasCapacity it lit capacity → is_on_path path lit ≡ true
        → AreNamed it lemmas path bounds.old → OnOk result (AreNamed it lemmas path bounds.new) }
{
    match said_of(alloc, pairs, lit, capacity)? {
        Some(row) => push_named(bounds, row, false, Item::Path(lit, 0)),
        None => Ok(()),
    }
}

/// The capacity of queue `q`, where it is one.
pub fn queue_capacity(design: &Design, q: u32) -> Option<u32>
    ensures none { IfNone result (is_queue (slice_get design.now.net.prims q) ≡ false) }
    ensures some { IfSome result (λ _. is_queue (slice_get design.now.net.prims q) ≡ true) }
    ensures capacity { IfSome result (λ n. capacity_at (slice_get design.now.net.prims q) ≡ n) }
{
    let net = design.net();
    if q as usize >= net.prims().len() {
        return None;
    }
    match net.prim(q) {
        Prim::Queue { capacity, .. } => Some(*capacity),
        _ => None,
    }
}

/// The capacity of the queue of which the literal speaks, where it does.
fn spoken_capacity(design: &Design, lit: &Lit) -> Option<u32>
    ensures none { IfNone result (said_row design.now lit.now ≡ None) }
    ensures some { IfSome result (HasCapacity design.now lit.now) }
{
    match *lit {
        Lit::Full(q) => queue_capacity(design, q),
        Lit::Has(q, _) => queue_capacity(design, q),
        Lit::Lacks(q, _) => queue_capacity(design, q),
        _ => None,
    }
}

/// Appends what the literal says.
fn push_literal(
    alloc: Global,
    bounds: &mut Bounds,
    design: &Design,
    pairs: &[(u32, u8)],
    lit: &Lit,
) -> Result<(), OutOfMemory>
    requires few { length pairs.now < 4294967296 }
    requires pairs { pairs.now ≡ queue_columns design.now }
    ensures cons { OnOk result (bounds.new.cons.items
        ≡ bounds.old.cons.items ++ said_by (said_row design.now lit.now)) }
    ensures named { (lemmas : Items Lemma) (path : Items Literal) → is_on_path path lit.now ≡ true
        → AreNamed design.now lemmas path bounds.old → OnOk result (AreNamed design.now lemmas path bounds.new) }
{
    match spoken_capacity(design, lit) {
        Some(capacity) => push_said(alloc, bounds, pairs, *lit, capacity),
        None => Ok(()),
    }
}

/// Appends what the literals of the path say.
pub fn push_literals(
    alloc: Global,
    bounds: &mut Bounds,
    design: &Design,
    pairs: &[(u32, u8)],
    path: &[Lit],
) -> Result<(), OutOfMemory>
    requires few { length pairs.now < 4294967296 }
    requires pairs { pairs.now ≡ queue_columns design.now }
    ensures cons { OnOk result (bounds.new.cons.items ≡ bounds.old.cons.items ++ said design.now path.now) }
    ensures named { (lemmas : Items Lemma) → AreNamed design.now lemmas path.now bounds.old
        → OnOk result (AreNamed design.now lemmas path.now bounds.new) }
{
    for lit in path {
        push_literal(alloc, bounds, design, pairs, lit)?;
    }
    Ok(())
}
