//! Signals made by one operation.

ghost use Rattle.std.specs.Prelude.{◌≡◌, ◌≢◌, ◌<◌, ◌≤◌, ◌&&◌, ◌||◌, [], ◌∷◌, ℕ, false, is_some, length, map, slice_get, IsTrue, List as Colours, Some};
ghost use Rattle.xm_model.specs.Component.{Content, Fork, Function, Join, Merge, Queue, Sink, Source, Switch, component_of, content_of};
ghost use Rattle.xm_model.specs.Signals.{at_side, grant, granted_offer, is_a, is_b, offer_chosen, only_if, source_offer, through, to_side_a, to_side_b};
ghost use Rattle.xm_model.specs.Views.{choice_or, content_at, signals_of};
ghost use Rattle.xm_model.specs.declared.primitive.SourceMode.TheVariants as source_mode;
ghost use Rattle.xm_model.specs.declared.state.Choice.{Choice as Chosen};
ghost use Rattle.xm_order.specs.Dependence.{channel_of};
ghost use Rattle.xm_order.specs.Settle.{ChangesOnly};
ghost use Rattle.xm_order.specs.declared.signal.Signal.TheVariants as signal;
ghost use Rattle.xm_plan.specs.Inner.Made.{AreMade, IsDone, IsLeft, SettlesOn};
ghost use Rattle.xm_plan.specs.Inner.Operations.{AllFit, AreApart, FitsOperation, Keeps, MayStay, all_tasks, kept, prim_of, table_a_in, table_b_in, table_in, to_a_in};
ghost use Rattle.xm_plan.specs.Planned.{choice_for};
ghost use Rattle.xm_plan.specs.Schedule.{ArePlaced, AreSettled, IsSchedule, LeavesOthers};
ghost use Rattle.xm_plan.specs.Shown.{AreShown};
ghost use Rattle.xm_plan.specs.declared.operation.Operation.{Operation as Op};

use crate::cells::{chosen_offer, offer_in, ready_in};
use crate::equations::{
    granted, image, is_ready_sink, is_side_a, is_side_b, joined, offered, on_side_a, on_side_b,
    only, readied, taken_from,
};
use crate::operation::Operation;
use crate::row::choice_in_row;
use xm_model::{Choice, Prim, Side, SinkMode, SourceMode, Wire};
use xm_order::Signal;
use xm_running::HasCell;

fn put_offer(wires: &mut [Wire], place: u32, offer: Option<u8>)
    requires { place < length wires.old }
    ensures value { (signals_of wires.new).offer place ≡ offer }
    ensures only { ChangesOnly (signals_of wires.old) (signals_of wires.new) (signal.Offer place) }
{
    wires[place as usize].offer = offer;
}

fn put_ready(wires: &mut [Wire], place: u32, ready: bool)
    requires { place < length wires.old }
    ensures value { (signals_of wires.new).ready place ≡ ready }
    ensures only { ChangesOnly (signals_of wires.old) (signals_of wires.new) (signal.Ready place) }
{
    wires[place as usize].ready = ready;
}

/// What a source offers that is not eager. The row is read only where its choice counts.
fn plain_offer(mode: SourceMode, pending: Option<u8>, row: &[Choice], place: u32) -> Option<u8>
    ensures { (colours : Colours ℕ) → mode ≢ source_mode.Eager
        → result ≡ source_offer mode colours pending (offer_chosen (choice_or (slice_get row.now place))) }
{
    match mode {
        SourceMode::Free => chosen_offer(choice_in_row(row, place)),
        SourceMode::Keep | SourceMode::Eager | SourceMode::Fair => match pending {
            Some(colour) => Some(colour),
            None => chosen_offer(choice_in_row(row, place)),
        },
    }
}

fn make_source<C: HasCell>(
    cell: &C,
    row: &[Choice],
    place: u32,
    out: u32,
    mode: SourceMode,
    wires: &mut [Wire],
)
    requires { out < length wires.old }
    ensures { (colours : Colours ℕ) → mode ≢ source_mode.Eager
        → AreMade (Source out colours mode) (content_of (C.cell cell.now)) (choice_or (slice_get row.now place))
        (signals_of wires.old) (signal.Offer out ∷ []) (signals_of wires.new) }
{
    let offer = plain_offer(mode, cell.pending(), row, place);
    put_offer(wires, out, offer);
}

fn make_sink<C: HasCell>(
    cell: &C,
    row: &[Choice],
    place: u32,
    input: u32,
    mode: SinkMode,
    wires: &mut [Wire],
)
    requires { input < length wires.old }
    ensures { AreMade (Sink input mode) (content_of (C.cell cell.now)) (choice_or (slice_get row.now place))
        (signals_of wires.old) (signal.Ready input ∷ []) (signals_of wires.new) }
{
    let ready = is_ready_sink(mode, cell.is_held(), row, place);
    put_ready(wires, input, ready);
}

fn make_queue<C: HasCell>(cell: &C, input: u32, out: u32, capacity: u32, wires: &mut [Wire])
    requires input { input < length wires.old }
    requires out { out < length wires.old }
    ensures { (initial : Colours ℕ) (w : Chosen)
        → AreMade (Queue input out capacity initial) (content_of (C.cell cell.now)) w (signals_of wires.old)
        (signal.Offer out ∷ signal.Ready input ∷ []) (signals_of wires.new) }
{
    let (offer, ready) = (cell.oldest(), cell.count() < capacity as usize);
    put_offer(wires, out, offer);
    put_ready(wires, input, ready);
}

fn make_function(table: &[u8], input: u32, out: u32, wires: &mut [Wire])
    requires input { input < length wires.old }
    requires out { out < length wires.old }
    ensures { (s : Content) (w : Chosen)
        → AreMade (Function input out table.now) s w (signals_of wires.old)
        (signal.Offer out ∷ signal.Ready input ∷ []) (signals_of wires.new) }
{
    let offer = image(table, offer_in(wires, input));
    put_offer(wires, out, offer);
    let ready = ready_in(wires, out);
    put_ready(wires, input, ready);
}

/// The offer through a map that keeps each of so many colours.
fn kept_offer(colours: u32, offer: Option<u8>) -> Option<u8>
    ensures { result ≡ kept colours offer }
{
    match offer {
        None => None,
        Some(colour) => Some(if (colour as u32) < colours { colour } else { 0 }),
    }
}

/// Both, without a branch.
fn both(a: bool, b: bool) -> bool
    ensures { result ≡ (a && b) }
{
    a & b
}

/// What a fork offers on one side, where the other is `other`.
fn fork_offer(wires: &[Wire], input: u32, other: u32, table: &[u8]) -> Option<u8>
    requires input { input < length wires.now }
    requires other { other < length wires.now }
    ensures { result
        ≡ only_if ((signals_of wires.now).ready other) (through table.now ((signals_of wires.now).offer input)) }
{
    only(ready_in(wires, other), image(table, offer_in(wires, input)))
}

/// Whether both places are ready.
fn both_ready(wires: &[Wire], a: u32, b: u32) -> bool
    requires a { a < length wires.now }
    requires b { b < length wires.now }
    ensures { result ≡ ((signals_of wires.now).ready a && (signals_of wires.now).ready b) }
{
    ready_in(wires, a) && ready_in(wires, b)
}

fn make_plain_fork(input: u32, a: u32, b: u32, colours: u32, wires: &mut [Wire])
    requires input { input < length wires.old }
    requires a { a < length wires.old }
    requires b { b < length wires.old }
    ensures { (ta tb : Colours ℕ) (s : Content) (w : Chosen) → AreApart input a b → Keeps colours ta → Keeps colours tb
        → AreMade (Fork input a b ta tb) s w (signals_of wires.old)
        (signal.Offer a ∷ signal.Offer b ∷ signal.Ready input ∷ []) (signals_of wires.new) }
{
    let given = offer_in(wires, input);
    let at_a = ready_in(wires, a);
    let at_b = ready_in(wires, b);
    let offer = kept_offer(colours, given);
    let offer_a = only(at_b, offer);
    let offer_b = only(at_a, offer);
    let ready = both(at_a, at_b);
    put_offer(wires, a, offer_a);
    put_offer(wires, b, offer_b);
    put_ready(wires, input, ready);
}

fn make_fork(map_a: &[u8], map_b: &[u8], input: u32, a: u32, b: u32, wires: &mut [Wire])
    requires input { input < length wires.old }
    requires a { a < length wires.old }
    requires b { b < length wires.old }
    ensures { (s : Content) (w : Chosen) → AreApart input a b
        → AreMade (Fork input a b map_a.now map_b.now) s w (signals_of wires.old)
        (signal.Offer a ∷ signal.Offer b ∷ signal.Ready input ∷ []) (signals_of wires.new) }
{
    let offer_a = fork_offer(wires, input, b, map_a);
    put_offer(wires, a, offer_a);
    let offer_b = fork_offer(wires, input, a, map_b);
    put_offer(wires, b, offer_b);
    let ready = both_ready(wires, a, b);
    put_ready(wires, input, ready);
}

fn make_join(a: u32, b: u32, out: u32, pass: Side, wires: &mut [Wire])
    requires a { a < length wires.old }
    requires b { b < length wires.old }
    requires out { out < length wires.old }
    ensures { (s : Content) (w : Chosen) → AreApart out a b
        → AreMade (Join a b out pass) s w (signals_of wires.old)
        (signal.Offer out ∷ signal.Ready a ∷ signal.Ready b ∷ []) (signals_of wires.new) }
{
    let x = offer_in(wires, a);
    let y = offer_in(wires, b);
    let at_out = ready_in(wires, out);
    let offer = joined(pass, x, y);
    let ready_a = both(at_out, y.is_some());
    let ready_b = both(at_out, x.is_some());
    put_offer(wires, out, offer);
    put_ready(wires, a, ready_a);
    put_ready(wires, b, ready_b);
}

fn make_switch_offers(to_a: &[bool], input: u32, a: u32, b: u32, wires: &mut [Wire])
    requires input { input < length wires.old }
    requires a { a < length wires.old }
    requires b { b < length wires.old }
    ensures { (s : Content) (w : Chosen) → AreApart input a b
        → AreMade (Switch input a b to_a.now) s w (signals_of wires.old)
        (signal.Offer a ∷ signal.Offer b ∷ []) (signals_of wires.new) }
{
    let given = offer_in(wires, input);
    let offer_a = on_side_a(to_a, given);
    let offer_b = on_side_b(to_a, given);
    put_offer(wires, a, offer_a);
    put_offer(wires, b, offer_b);
}

fn switch_ready(to_a: &[bool], wires: &[Wire], input: u32, a: u32, b: u32) -> bool
    requires input { input < length wires.now }
    requires a { a < length wires.now }
    requires b { b < length wires.now }
    ensures { result
        ≡ ((is_some (to_side_a to_a.now ((signals_of wires.now).offer input)) && (signals_of wires.now).ready a)
        || (is_some (to_side_b to_a.now ((signals_of wires.now).offer input)) && (signals_of wires.now).ready b)) }
{
    let offer = offer_in(wires, input);
    (on_side_a(to_a, offer).is_some() && ready_in(wires, a))
        || (on_side_b(to_a, offer).is_some() && ready_in(wires, b))
}

fn make_switch_ready(to_a: &[bool], input: u32, a: u32, b: u32, wires: &mut [Wire])
    requires input { input < length wires.old }
    requires a { a < length wires.old }
    requires b { b < length wires.old }
    ensures { (s : Content) (w : Chosen)
        → AreMade (Switch input a b to_a.now) s w (signals_of wires.old)
        (signal.Ready input ∷ []) (signals_of wires.new) }
{
    let ready = switch_ready(to_a, wires, input, a, b);
    put_ready(wires, input, ready);
}

fn make_merge<C: HasCell>(cell: &C, a: u32, b: u32, out: u32, wires: &mut [Wire])
    requires a { a < length wires.old }
    requires b { b < length wires.old }
    requires out { out < length wires.old }
    ensures { (w : Chosen) → AreApart out a b
        → AreMade (Merge a b out) (content_of (C.cell cell.now)) w (signals_of wires.old)
        (signal.Offer out ∷ signal.Ready a ∷ signal.Ready b ∷ []) (signals_of wires.new) }
{
    let x = offer_in(wires, a);
    let y = offer_in(wires, b);
    let at_out = ready_in(wires, out);
    let side = granted(cell.preferred(), x, y);
    let offer = taken_from(side, x, y);
    let ready_a = both(is_side_a(side), at_out);
    let ready_b = both(is_side_b(side), at_out);
    put_offer(wires, out, offer);
    put_ready(wires, a, ready_a);
    put_ready(wires, b, ready_b);
}

fn make_one<C: HasCell>(
    prim: &Prim,
    cell: &C,
    row: &[Choice],
    place: u32,
    signal: Signal,
    wires: &mut [Wire],
)
    requires { channel_of signal < length wires.old }
    ensures { AreMade (component_of prim.now) (content_of (C.cell cell.now)) (choice_or (slice_get row.now place))
        (signals_of wires.old) (signal ∷ []) (signals_of wires.new) }
{
    match signal {
        Signal::Offer(c) => {
            let offer = offered(prim, cell, row, place, wires, c);
            put_offer(wires, c, offer);
        }
        Signal::Ready(c) => {
            let ready = readied(prim, cell, row, place, wires, c);
            put_ready(wires, c, ready);
        }
    }
}

/// The map of a function; of another kind, an empty one.
fn table(prim: &Prim) -> &[u8]
    ensures { result.now ≡ table_in (component_of prim.now) }
{
    match prim {
        Prim::Function { map, .. } => map.as_slice(),
        _ => &[],
    }
}

fn table_a(prim: &Prim) -> &[u8]
    ensures { result.now ≡ table_a_in (component_of prim.now) }
{
    match prim {
        Prim::Fork { map_a, .. } => map_a.as_slice(),
        _ => &[],
    }
}

fn table_b(prim: &Prim) -> &[u8]
    ensures { result.now ≡ table_b_in (component_of prim.now) }
{
    match prim {
        Prim::Fork { map_b, .. } => map_b.as_slice(),
        _ => &[],
    }
}

/// The colours that a switch sends to its side a; of another kind, none.
fn to_a(prim: &Prim) -> &[bool]
    ensures { result.now ≡ to_a_in (component_of prim.now) }
{
    match prim {
        Prim::Switch { to_a, .. } => to_a.as_slice(),
        _ => &[],
    }
}

/// Makes the signals of one operation. It is inlined in each loop over a kind, where the kind is known.
#[inline(always)]
fn make<C: HasCell>(
    operation: Operation,
    prims: &[Prim],
    choices: &[u32],
    cells: &[C],
    row: &[Choice],
    wires: &mut [Wire],
)
    requires fits { FitsOperation (map component_of prims.now) choices.now operation }
    requires placed { ArePlaced (map component_of prims.now) (length wires.old) }
    requires cells { length cells.now ≡ length prims.now }
    requires choices { length choices.now ≡ length prims.now }
    ensures { IsDone (map component_of prims.now) (content_at (map C.cell cells.now)) (choice_for choices.now row.now)
        (signals_of wires.old) operation (signals_of wires.new) }
{
    match operation {
        Operation::Source {
            prim,
            out,
            choice,
            mode,
        } => make_source(&cells[prim as usize], row, choice, out, mode, wires),
        Operation::Sink {
            prim,
            input,
            choice,
            mode,
        } => make_sink(&cells[prim as usize], row, choice, input, mode, wires),
        Operation::Queue {
            prim,
            input,
            out,
            capacity,
        } => make_queue(&cells[prim as usize], input, out, capacity, wires),
        Operation::Function { prim, input, out } => {
            make_function(table(&prims[prim as usize]), input, out, wires)
        }
        Operation::ForkPlain {
            input,
            a,
            b,
            colours,
            ..
        } => make_plain_fork(input, a, b, colours, wires),
        Operation::Fork { prim, input, a, b } => {
            let fork = &prims[prim as usize];
            make_fork(table_a(fork), table_b(fork), input, a, b, wires)
        }
        Operation::Join {
            a,
            b,
            out,
            pass,
            ..
        } => make_join(a, b, out, pass, wires),
        Operation::SwitchOffers { prim, input, a, b } => {
            make_switch_offers(to_a(&prims[prim as usize]), input, a, b, wires)
        }
        Operation::SwitchReady { prim, input, a, b } => {
            make_switch_ready(to_a(&prims[prim as usize]), input, a, b, wires)
        }
        Operation::Merge { prim, a, b, out } => {
            make_merge(&cells[prim as usize], a, b, out, wires)
        }
        Operation::One(task) => {
            let p = task.prim as usize;
            make_one(&prims[p], &cells[p], row, choices[p], task.signal, wires)
        }
    }
}

/// Whether the operation's primitive is one whose signals may stay, and is noted as unchanged.
#[inline(always)]
fn stays(operation: Operation, changed: &[bool]) -> bool
    ensures { IsTrue result → MayStay operation × (slice_get changed.now (prim_of operation) ≡ Some false) }
{
    match operation {
        Operation::Source { prim, .. }
        | Operation::Sink { prim, .. }
        | Operation::Queue { prim, .. } => match changed.get(prim as usize) {
            Some(changed) => !*changed,
            None => false,
        },
        _ => false,
    }
}

/// Makes the signals of one operation, unless they stay.
#[inline(always)]
fn renew<C: HasCell>(
    operation: Operation,
    prims: &[Prim],
    choices: &[u32],
    cells: &[C],
    changed: &[bool],
    row: &[Choice],
    wires: &mut [Wire],
)
    requires fits { FitsOperation (map component_of prims.now) choices.now operation }
    requires placed { ArePlaced (map component_of prims.now) (length wires.old) }
    requires cells { length cells.now ≡ length prims.now }
    requires choices { length choices.now ≡ length prims.now }
    ensures { IsLeft (map component_of prims.now) (content_at (map C.cell cells.now)) changed.now
        (signals_of wires.old) operation
        → IsDone (map component_of prims.now) (content_at (map C.cell cells.now)) (choice_for choices.now row.now)
        (signals_of wires.old) operation (signals_of wires.new) }
{
    if stays(operation, changed) {
        return;
    }
    make(operation, prims, choices, cells, row, wires);
}

/// The kinds of operation, as far as a run of one kind is done by a loop of its own.
#[derive(Clone, Copy)]
enum Kind {
    Source,
    Sink,
    Queue,
    ForkPlain,
    Join,
    SwitchOffers,
    SwitchReady,
    Merge,
    Other,
}

#[inline(always)]
fn kind_of(operation: Operation) -> Kind {
    match operation {
        Operation::Source { .. } => Kind::Source,
        Operation::Sink { .. } => Kind::Sink,
        Operation::Queue { .. } => Kind::Queue,
        Operation::ForkPlain { .. } => Kind::ForkPlain,
        Operation::Join { .. } => Kind::Join,
        Operation::SwitchOffers { .. } => Kind::SwitchOffers,
        Operation::SwitchReady { .. } => Kind::SwitchReady,
        Operation::Merge { .. } => Kind::Merge,
        Operation::Function { .. } | Operation::Fork { .. } | Operation::One(_) => Kind::Other,
    }
}

#[inline(always)]
fn is_of(kind: Kind, operation: Operation) -> bool {
    match (kind, operation) {
        (Kind::Source, Operation::Source { .. })
        | (Kind::Sink, Operation::Sink { .. })
        | (Kind::Queue, Operation::Queue { .. })
        | (Kind::ForkPlain, Operation::ForkPlain { .. })
        | (Kind::Join, Operation::Join { .. })
        | (Kind::SwitchOffers, Operation::SwitchOffers { .. })
        | (Kind::SwitchReady, Operation::SwitchReady { .. })
        | (Kind::Merge, Operation::Merge { .. }) => true,
        _ => false,
    }
}

/// Does the operation at this place, and those that follow as long as they are of this kind, and gives the place
/// behind them. It is inlined for each kind, so that a run of one kind is a loop that does not ask for the kind.
#[inline(always)]
fn make_run<C: HasCell>(
    kind: Kind,
    from: usize,
    operations: &[Operation],
    prims: &[Prim],
    choices: &[u32],
    cells: &[C],
    changed: &[bool],
    row: &[Choice],
    wires: &mut [Wire],
) -> usize
    requires fit { AllFit (map component_of prims.now) choices.now operations.now }
    requires placed { ArePlaced (map component_of prims.now) (length wires.old) }
    requires schedule { IsSchedule (map component_of prims.now) (all_tasks operations.now) }
    requires cells { length cells.now ≡ length prims.now }
    requires choices { length choices.now ≡ length prims.now }
    requires from { from < length operations.now }
    ensures later { from < result }
    ensures within { result ≤ length operations.now }
    ensures settled { SettlesOn (map component_of prims.now) (content_at (map C.cell cells.now))
        (choice_for choices.now row.now) changed.now operations.now from (signals_of wires.old) result (signals_of wires.new) }
{
    renew(operations[from], prims, choices, cells, changed, row, wires);
    let mut k = from + 1;
    while k < operations.len() && is_of(kind, operations[k]) {
        renew(operations[k], prims, choices, cells, changed, row, wires);
        k += 1;
    }
    k
}

/// Does the operation at this place, and those of its kind that follow, and gives the place behind them.
#[inline(always)]
fn make_some<C: HasCell>(
    from: usize,
    operations: &[Operation],
    prims: &[Prim],
    choices: &[u32],
    cells: &[C],
    changed: &[bool],
    row: &[Choice],
    wires: &mut [Wire],
) -> usize
    requires fit { AllFit (map component_of prims.now) choices.now operations.now }
    requires placed { ArePlaced (map component_of prims.now) (length wires.old) }
    requires schedule { IsSchedule (map component_of prims.now) (all_tasks operations.now) }
    requires cells { length cells.now ≡ length prims.now }
    requires choices { length choices.now ≡ length prims.now }
    requires from { from < length operations.now }
    ensures later { from < result }
    ensures within { result ≤ length operations.now }
    ensures settled { SettlesOn (map component_of prims.now) (content_at (map C.cell cells.now))
        (choice_for choices.now row.now) changed.now operations.now from (signals_of wires.old) result (signals_of wires.new) }
{
    match kind_of(operations[from]) {
        Kind::Source => make_run(
            Kind::Source,
            from,
            operations,
            prims,
            choices,
            cells,
            changed,
            row,
            wires,
        ),
        Kind::Sink => make_run(
            Kind::Sink,
            from,
            operations,
            prims,
            choices,
            cells,
            changed,
            row,
            wires,
        ),
        Kind::Queue => make_run(
            Kind::Queue,
            from,
            operations,
            prims,
            choices,
            cells,
            changed,
            row,
            wires,
        ),
        Kind::ForkPlain => make_run(
            Kind::ForkPlain,
            from,
            operations,
            prims,
            choices,
            cells,
            changed,
            row,
            wires,
        ),
        Kind::Join => make_run(
            Kind::Join,
            from,
            operations,
            prims,
            choices,
            cells,
            changed,
            row,
            wires,
        ),
        Kind::SwitchOffers => make_run(
            Kind::SwitchOffers,
            from,
            operations,
            prims,
            choices,
            cells,
            changed,
            row,
            wires,
        ),
        Kind::SwitchReady => make_run(
            Kind::SwitchReady,
            from,
            operations,
            prims,
            choices,
            cells,
            changed,
            row,
            wires,
        ),
        Kind::Merge => make_run(
            Kind::Merge,
            from,
            operations,
            prims,
            choices,
            cells,
            changed,
            row,
            wires,
        ),
        Kind::Other => make_run(
            Kind::Other,
            from,
            operations,
            prims,
            choices,
            cells,
            changed,
            row,
            wires,
        ),
    }
}

/// Does every operation. It is not inlined: within its one caller the compiler keeps the variables of this loop
/// on the stack, which cost time in every cycle (measured with callgrind).
#[inline(never)]
pub fn make_all<C: HasCell>(
    operations: &[Operation],
    prims: &[Prim],
    choices: &[u32],
    cells: &[C],
    changed: &[bool],
    row: &[Choice],
    wires: &mut [Wire],
)
    requires fit { (k : ℕ) (op : Op) → slice_get operations.now k ≡ Some op
        → FitsOperation (map component_of prims.now) choices.now op }
    requires placed { ArePlaced (map component_of prims.now) (length wires.old) }
    requires schedule { IsSchedule (map component_of prims.now) (all_tasks operations.now) }
    requires cells { length cells.now ≡ length prims.now }
    requires choices { length choices.now ≡ length prims.now }
    requires shown { AreShown (map component_of prims.now) (content_at (map C.cell cells.now)) changed.now
        (signals_of wires.old) }
    ensures settled { AreSettled (map component_of prims.now) (content_at (map C.cell cells.now))
        (choice_for choices.now row.now)
        (all_tasks operations.now) (signals_of wires.new) }
    ensures others { LeavesOthers (all_tasks operations.now) (signals_of wires.old) (signals_of wires.new) }
{
    let mut k = 0;
    while k < operations.len() {
        k = make_some(k, operations, prims, choices, cells, changed, row, wires);
    }
}
