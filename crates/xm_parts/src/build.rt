//! What is kept of each part, made once.

ghost use Rattle.std.proofs.Common.{get_or, set};
ghost use Rattle.std.specs.Prelude.{cond, is_some, ◌≡◌, ◌<◌, ◌≤◌, ◌+◌, ℕ, All, length, map, slice_get, IfOk, Some};
ghost use Rattle.xm_design.specs.Designed.{IsDesigned};
ghost use Rattle.xm_design.specs.Numbers.{AreNumbers};
ghost use Rattle.xm_order.specs.Dependence.{channel_of};
ghost use Rattle.xm_parts.specs.Passing.{place};
ghost use Rattle.xm_parts.specs.declared.part.Part.{Part};
ghost use Rattle.xm_model.specs.Component.{component_of};
ghost use Rattle.xm_parts.specs.Inner.Built.{ArePlaces, port_read, signal_read};
ghost use Rattle.xm_model.specs.Views.{oracles_below};
ghost use Rattle.xm_parts.specs.Kept.{AreCutsOf, AreLocalsOf, AreRenamed, AreTasksOf, IsPartOf, IsPlanOf, label_at, near_place, renamed};
ghost use Rattle.xm_parts.specs.Partition.{IsPartition, channels_in, cuts_in, far_channel, prims_in, touches, touches_at};
ghost use Rattle.xm_parts.specs.Partition.{lies_in as lies_in_part};

use crate::near::neighbours_of;
use crate::part::{Cut, Part};
use std::alloc::Global;
use xm_design::{Design, Task};
use xm_model::{List, Net, OutOfMemory, Prim};
use xm_order::Signal;
use xm_plan::Plan;
use xm_step::filled;

/// The part of a channel.
pub fn label(labels: &[u8], c: u32) -> u32
    ensures { result ≡ label_at labels.now c }
{
    labels.get(c as usize).copied().unwrap_or(0) as u32
}

fn lies_in(labels: &[u8], p: u32, c: u32) -> bool
    ensures { result ≡ lies_in_part (label_at labels.now) p c }
{
    label(labels, c) == p
}

/// Whether a primitive has a channel in part `p`.
pub fn touches_part(prim: &Prim, labels: &[u8], p: u32) -> bool
    ensures { result ≡ touches (label_at labels.now) p (Some (component_of prim.now)) }
{
    match prim {
        Prim::Source { out, .. } => lies_in(labels, p, *out) || false,
        Prim::Sink { input, .. } => lies_in(labels, p, *input) || false,
        Prim::Queue { input, out, .. } | Prim::Function { input, out, .. } => {
            lies_in(labels, p, *input) || (lies_in(labels, p, *out) || false)
        }
        Prim::Fork { input, a, b, .. } | Prim::Switch { input, a, b, .. } => {
            lies_in(labels, p, *input)
                || (lies_in(labels, p, *a) || (lies_in(labels, p, *b) || false))
        }
        Prim::Join { a, b, out, .. } | Prim::Merge { a, b, out } => {
            lies_in(labels, p, *a)
                || (lies_in(labels, p, *b) || (lies_in(labels, p, *out) || false))
        }
    }
}

/// The far channel of a queue that is cut from part `p`.
fn far_of(prim: &Prim, labels: &[u8], p: u32) -> Option<u32>
    ensures { result ≡ far_channel (label_at labels.now) p (Some (component_of prim.now)) }
{
    match prim {
        Prim::Queue { input, out, .. } => {
            match (lies_in(labels, p, *input), lies_in(labels, p, *out)) {
                (true, false) => Some(*out),
                (false, true) => Some(*input),
                _ => None,
            }
        }
        _ => None,
    }
}

/// The numbers of the channels of part `p`.
fn channels_of(alloc: Global, net: &Net, labels: &[u8], p: u32) -> Result<List<u32>, OutOfMemory>
    ensures { IfOk result (λ made. made.items ≡ channels_in net.now (label_at labels.now) p) }
{
    let mut made = List::new(alloc);
    for c in 0..net.channels() {
        if lies_in(labels, p, c) {
            made.push(c)?;
        }
    }
    Ok(made)
}

/// The numbers of the primitives of part `p`.
fn prims_of(alloc: Global, net: &Net, labels: &[u8], p: u32) -> Result<List<u32>, OutOfMemory>
    ensures { IfOk result (λ made. made.items ≡ prims_in net.now (label_at labels.now) p) }
{
    let count = net.prims().as_slice().len() as u32;
    let mut made = List::new(alloc);
    for i in 0..count {
        if touches_part(net.prim(i), labels, p) {
            made.push(i)?;
        }
    }
    Ok(made)
}

fn zeros(alloc: Global, n: u32) -> Result<List<u32>, OutOfMemory>
    ensures whole { IfOk result (λ made. length made.items ≡ n) }
    ensures each { IfOk result (λ made. (q : ℕ) → get_or made.items q 0 ≡ 0) }
{
    let mut made = List::new(alloc);
    for k in 0..n {
        let _count = k;
        made.push(0)?;
    }
    Ok(made)
}

/// One more at a place.
fn count_one(counts: &mut [u32], p: u32) -> u32
    requires inside { p < length counts.old }
    requires few { get_or counts.old p 0 ≤ 8192 }
    ensures value { result ≡ get_or counts.old p 0 }
    ensures counts { counts.new ≡ set counts.old p (get_or counts.old p 0 + 1) }
{
    let was = counts[p as usize];
    counts[p as usize] = was + 1;
    was
}

/// For each channel, its place among those of its part.
fn places_of(alloc: Global, labels: &[u8]) -> Result<List<u32>, OutOfMemory>
    requires few { length labels.now ≤ 8192 }
    requires labels { All (λ x. x < 64) labels.now }
    ensures { IfOk result (λ places. ArePlaces labels.now places.items) }
{
    let mut counts = zeros(alloc, 64)?;
    let mut places = List::new(alloc);
    for c in 0..labels.len() {
        let place = count_one(counts.as_mut_slice(), labels[c] as u32);
        places.push(place)?;
    }
    Ok(places)
}

/// The number at a place, or 0 past the end.
fn read(numbers: &[u32], k: u32) -> u32
    ensures { result ≡ get_or numbers.now k 0 }
{
    numbers.get(k as usize).copied().unwrap_or(0)
}

/// Where the channel of a port stands in part `p`, if it lies in it; else `far`.
fn port(labels: &[u8], places: &[u32], p: u32, far: u32, c: u32) -> u32
    ensures { result ≡ port_read (label_at labels.now) places.now p far c }
{
    if lies_in(labels, p, c) {
        read(places, c)
    } else {
        far
    }
}

fn bytes_again(alloc: Global, bytes: &List<u8>) -> Result<List<u8>, OutOfMemory>
    ensures { IfOk result (λ made. made.items ≡ bytes.now.items) }
{
    filled(alloc, 0, bytes.as_slice())
}

fn bools_again(alloc: Global, bools: &List<bool>) -> Result<List<bool>, OutOfMemory>
    ensures { IfOk result (λ made. made.items ≡ bools.now.items) }
{
    let bools = bools.as_slice();
    let mut made = List::new(alloc);
    for k in 0..bools.len() {
        made.push(bools[k])?;
    }
    Ok(made)
}

/// The primitive with its ports renamed to places in part `p`.
fn local(
    alloc: Global,
    prim: &Prim,
    labels: &[u8],
    places: &[u32],
    p: u32,
    far: u32,
) -> Result<Prim, OutOfMemory>
    ensures { IfOk result (λ made. component_of made ≡ renamed (port_read (label_at labels.now) places.now p far)
        (component_of prim.now)) }
{
    match prim {
        Prim::Source { out, colours, mode } => Ok(Prim::Source {
            out: port(labels, places, p, far, *out),
            colours: bytes_again(alloc, colours)?,
            mode: *mode,
        }),
        Prim::Sink { input, mode } => Ok(Prim::Sink {
            input: port(labels, places, p, far, *input),
            mode: *mode,
        }),
        Prim::Queue {
            input,
            out,
            capacity,
            initial,
        } => Ok(Prim::Queue {
            input: port(labels, places, p, far, *input),
            out: port(labels, places, p, far, *out),
            capacity: *capacity,
            initial: bytes_again(alloc, initial)?,
        }),
        Prim::Function { input, out, map } => Ok(Prim::Function {
            input: port(labels, places, p, far, *input),
            out: port(labels, places, p, far, *out),
            map: bytes_again(alloc, map)?,
        }),
        Prim::Fork {
            input,
            a,
            b,
            map_a,
            map_b,
        } => {
            let map_a = bytes_again(alloc, map_a)?;
            let map_b = bytes_again(alloc, map_b)?;
            Ok(Prim::Fork {
                input: port(labels, places, p, far, *input),
                a: port(labels, places, p, far, *a),
                b: port(labels, places, p, far, *b),
                map_a,
                map_b,
            })
        }
        Prim::Join { a, b, out, pass } => Ok(Prim::Join {
            a: port(labels, places, p, far, *a),
            b: port(labels, places, p, far, *b),
            out: port(labels, places, p, far, *out),
            pass: *pass,
        }),
        Prim::Switch { input, a, b, to_a } => Ok(Prim::Switch {
            input: port(labels, places, p, far, *input),
            a: port(labels, places, p, far, *a),
            b: port(labels, places, p, far, *b),
            to_a: bools_again(alloc, to_a)?,
        }),
        Prim::Merge { a, b, out } => Ok(Prim::Merge {
            a: port(labels, places, p, far, *a),
            b: port(labels, places, p, far, *b),
            out: port(labels, places, p, far, *out),
        }),
    }
}

/// 1 for a queue that is cut from part `p`.
fn cut_count(prim: &Prim, labels: &[u8], p: u32) -> u32
    ensures count { result ≡ cond (is_some (far_channel (label_at labels.now) p (Some (component_of prim.now)))) 1 0 }
    ensures few { result ≤ 1 }
{
    match far_of(prim, labels, p) {
        Some(_) => 1,
        None => 0,
    }
}

/// The primitives of part `p` with their ports renamed to places in it.
fn locals_of(
    alloc: Global,
    net: &Net,
    labels: &[u8],
    places: &[u32],
    p: u32,
    own: u32,
) -> Result<List<Prim>, OutOfMemory>
    requires whole { length labels.now ≡ net.now.channels }
    requires places { ArePlaces labels.now places.now }
    requires own { own ≡ length (channels_in net.now (label_at labels.now) p) }
    ensures { IfOk result (λ made. AreLocalsOf net.now (label_at labels.now) p (map component_of made.items)) }
{
    let count = net.prims().as_slice().len() as u32;
    let mut far = own;
    let mut made = List::new(alloc);
    for i in 0..count {
        let prim = net.prim(i);
        let cuts = cut_count(prim, labels, p);
        if touches_part(prim, labels, p) {
            made.push(local(alloc, prim, labels, places, p, far)?)?;
        }
        far += cuts;
    }
    Ok(made)
}

/// The primitives of part `p` as its plan sees them.
fn planned_of(
    alloc: Global,
    net: &Net,
    labels: &[u8],
    places: &[u32],
    p: u32,
) -> Result<List<Prim>, OutOfMemory>
    requires whole { length labels.now ≡ net.now.channels }
    requires places { ArePlaces labels.now places.now }
    ensures { IfOk result (λ made. AreRenamed net.now (label_at labels.now) p
        (λ i. near_place (label_at labels.now) p) (map component_of made.items)) }
{
    let count = net.prims().as_slice().len() as u32;
    let mut made = List::new(alloc);
    for i in 0..count {
        let prim = net.prim(i);
        if touches_part(prim, labels, p) {
            made.push(local(alloc, prim, labels, places, p, 0)?)?;
        }
    }
    Ok(made)
}

/// The cut queues of part `p`, each with where its far channel stands.
fn cuts_of(
    alloc: Global,
    net: &Net,
    labels: &[u8],
    places: &[u32],
    p: u32,
) -> Result<List<Cut>, OutOfMemory>
    requires whole { length labels.now ≡ net.now.channels }
    requires places { ArePlaces labels.now places.now }
    ensures { IfOk result (λ made. AreCutsOf net.now (label_at labels.now) p made.items) }
{
    let count = net.prims().as_slice().len() as u32;
    let mut made = List::new(alloc);
    for i in 0..count {
        if let Some(c) = far_of(net.prim(i), labels, p) {
            made.push(Cut {
                part: label(labels, c),
                wire: read(places, c),
            })?;
        }
    }
    Ok(made)
}

fn touch_count(prim: &Prim, labels: &[u8], p: u32) -> u32
    ensures count { result ≡ cond (touches (label_at labels.now) p (Some (component_of prim.now))) 1 0 }
    ensures few { result ≤ 1 }
{
    if touches_part(prim, labels, p) { 1 } else { 0 }
}

/// For each primitive, how many below it have a channel in part `p`: its place in the part.
fn prim_places(alloc: Global, net: &Net, labels: &[u8], p: u32) -> Result<List<u32>, OutOfMemory>
    ensures { IfOk result (λ made. AreNumbers (place (touches_at net.now (label_at labels.now) p))
        (length net.now.prims) made.items) }
{
    let count = net.prims().as_slice().len() as u32;
    let mut below = 0;
    let mut made = List::new(alloc);
    for i in 0..count {
        made.push(below)?;
        below += touch_count(net.prim(i), labels, p);
    }
    Ok(made)
}

fn channel(signal: Signal) -> u32
    ensures { result ≡ channel_of signal }
{
    match signal {
        Signal::Offer(c) => c,
        Signal::Ready(c) => c,
    }
}

fn placed_signal(signal: Signal, places: &[u32]) -> Signal
    ensures { result ≡ signal_read places.now signal }
{
    match signal {
        Signal::Offer(c) => Signal::Offer(read(places, c)),
        Signal::Ready(c) => Signal::Ready(read(places, c)),
    }
}

/// The signals of part `p`, in the order of the design.
fn tasks_of(
    alloc: Global,
    design: &Design,
    labels: &[u8],
    places: &[u32],
    cells: &[u32],
    p: u32,
) -> Result<List<Task>, OutOfMemory>
    requires whole { length labels.now ≡ design.now.net.channels }
    requires places { ArePlaces labels.now places.now }
    requires cells { AreNumbers (place (touches_at design.now.net (label_at labels.now) p))
        (length design.now.net.prims) cells.now }
    ensures { IfOk result (λ made. AreTasksOf design.now (label_at labels.now) p made.items) }
{
    let _net = design.net();
    let tasks = design.tasks();
    let mut made = List::new(alloc);
    for k in 0..tasks.len() {
        let task = tasks[k];
        if lies_in(labels, p, channel(task.signal)) {
            made.push(Task {
                signal: placed_signal(task.signal, places),
                prim: read(cells, task.prim),
            })?;
        }
    }
    Ok(made)
}

/// For each primitive of a part, where its choice stands in a row of choices.
fn choices_of(alloc: Global, design: &Design, prims: &[u32]) -> Result<List<u32>, OutOfMemory>
    requires { (k i : ℕ) → slice_get prims.now k ≡ Some i → i < length design.now.net.prims }
    ensures { IfOk result (λ made. made.items ≡ map (oracles_below design.now.net.prims) prims.now) }
{
    let oracles = design.oracles();
    let mut made = List::new(alloc);
    for prim in prims {
        made.push(read(oracles, *prim))?;
    }
    Ok(made)
}

/// The plan of part `p`, of which these are the primitives, by number and as the plan sees them.
fn plan_of(
    alloc: Global,
    design: &Design,
    labels: &[u8],
    places: &[u32],
    p: u32,
    prims: &[u32],
    planned: &List<Prim>,
    own: u32,
) -> Result<Plan, OutOfMemory>
    requires whole { length labels.now ≡ design.now.net.channels }
    requires places { ArePlaces labels.now places.now }
    requires prims { prims.now ≡ prims_in design.now.net (label_at labels.now) p }
    requires own { own ≡ length (channels_in design.now.net (label_at labels.now) p) }
    requires partition { IsPartition design.now.net (label_at labels.now) }
    requires planned { AreRenamed design.now.net (label_at labels.now) p (λ i. near_place (label_at labels.now) p)
        (map component_of planned.now.items) }
    ensures prims { IfOk result (λ plan. plan.prims ≡ map component_of planned.now.items) }
    ensures plan { IfOk result (IsPlanOf design.now (label_at labels.now) p) }
{
    let net = design.net();
    let cells = prim_places(alloc, net, labels, p)?;
    let tasks = tasks_of(alloc, design, labels, places, cells.as_slice(), p)?;
    let choices = choices_of(alloc, design, prims)?;
    Plan::new(alloc, planned, own, choices.as_slice(), tasks.as_slice())
}

/// What is kept of part `p`.
fn part_of(
    alloc: Global,
    design: &Design,
    labels: &[u8],
    places: &[u32],
    p: u32,
) -> Result<Part, OutOfMemory>
    requires whole { length labels.now ≡ design.now.net.channels }
    requires places { ArePlaces labels.now places.now }
    requires partition { IsPartition design.now.net (label_at labels.now) }
    requires labels { All (λ x. x < 64) labels.now }
    ensures { IfOk result (IsPartOf design.now (label_at labels.now) p) }
{
    let net = design.net();
    let _channels = net.channels();
    let prims = prims_of(alloc, net, labels, p)?;
    let channels = channels_of(alloc, net, labels, p)?;
    let own = channels.len() as u32;
    let locals = locals_of(alloc, net, labels, places, p, own)?;
    let planned = planned_of(alloc, net, labels, places, p)?;
    let plan = plan_of(
        alloc,
        design,
        labels,
        places,
        p,
        prims.as_slice(),
        &planned,
        own,
    )?;
    let cuts = cuts_of(alloc, net, labels, places, p)?;
    let neighbours = neighbours_of(alloc, net, labels, p, cuts.as_slice())?;
    Ok(Part {
        prims,
        locals,
        channels,
        planned,
        plan,
        cuts,
        neighbours,
    })
}

/// What is kept of each of so many parts.
pub fn parts_of(
    alloc: Global,
    design: &Design,
    labels: &[u8],
    count: u32,
) -> Result<List<Part>, OutOfMemory>
    requires whole { length labels.now ≡ design.now.net.channels }
    requires labels { All (λ x. x < 64) labels.now }
    requires partition { IsPartition design.now.net (label_at labels.now) }
    ensures count { IfOk result (λ made. length made.items ≡ count) }
    ensures each { IfOk result (λ made. (p : ℕ) (part : Part) → slice_get made.items p ≡ Some part
        → IsPartOf design.now (label_at labels.now) p part) }
{
    let net = design.net();
    let _channels = net.channels();
    let places = places_of(alloc, labels)?;
    let mut made = List::new(alloc);
    for p in 0..count {
        made.push(part_of(alloc, design, labels, places.as_slice(), p)?)?;
    }
    Ok(made)
}
