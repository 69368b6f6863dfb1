//! A draft of a schedule: steps in an order that is good for speed. Nothing is promised of it: it is checked.

ghost use Rattle.std.specs.Prelude.{◌<◌, ◌^◌, length};

use crate::check::{follows, rank};
use crate::operation::Step;
use std::alloc::Global;
use xm_design::Task;
use xm_model::{List, OutOfMemory, Prim, SourceMode};
use xm_order::Signal;

/// How far a draft has come. Signals stand by rank: `makers` are the primitives of their tasks; `waits` is 0 for one
/// that was made, or that no task makes; `drafted` tells which have their step; `readers` are the primitives that may
/// need it. `single` are the primitives whose signals are drafted one by one.
#[derive(Drop)]
struct Draft {
    makers: List<u32>,
    waits: List<u32>,
    drafted: List<bool>,
    readers: List<u32>,
    single: List<bool>,
    steps: List<Step>,
}

fn put<T: Copy>(list: &mut List<T>, place: usize, value: T) {
    if place < list.len() {
        list.as_mut_slice()[place] = value;
    }
}

fn is_set(list: &List<bool>, place: usize) -> bool {
    list.as_slice().get(place).copied().unwrap_or(true)
}

/// The signals of a step.
fn signals_of(step: Step, prim: &Prim) -> [Option<Signal>; 3] {
    match step {
        Step::One(task) => [Some(task.signal), None, None],
        Step::Readiness(_) => match prim {
            Prim::Switch { input, .. } => [Some(Signal::Ready(*input)), None, None],
            _ => [None, None, None],
        },
        Step::Offers(_) => match prim {
            Prim::Switch { a, b, .. } => [Some(Signal::Offer(*a)), Some(Signal::Offer(*b)), None],
            _ => [None, None, None],
        },
        Step::Whole(_) => signals_of_all(prim),
    }
}

fn signals_of_all(prim: &Prim) -> [Option<Signal>; 3] {
    match prim {
        Prim::Source { out, .. } => [Some(Signal::Offer(*out)), None, None],
        Prim::Sink { input, .. } => [Some(Signal::Ready(*input)), None, None],
        Prim::Queue { input, out, .. } | Prim::Function { input, out, .. } => {
            [Some(Signal::Offer(*out)), Some(Signal::Ready(*input)), None]
        }
        Prim::Fork { input, a, b, .. } | Prim::Switch { input, a, b, .. } => [
            Some(Signal::Offer(*a)),
            Some(Signal::Offer(*b)),
            Some(Signal::Ready(*input)),
        ],
        Prim::Join { a, b, out, .. } | Prim::Merge { a, b, out } => [
            Some(Signal::Offer(*out)),
            Some(Signal::Ready(*a)),
            Some(Signal::Ready(*b)),
        ],
    }
}

/// The place of a step in its level: steps of one kind stand together.
fn kind_of(step: Step, prim: &Prim) -> u8 {
    match (step, prim) {
        (Step::One(_), _) => 6,
        (_, Prim::Function { .. }) => 0,
        (_, Prim::Fork { .. }) => 1,
        (_, Prim::Join { .. }) => 2,
        (Step::Readiness(_), Prim::Switch { .. }) => 5,
        (_, Prim::Switch { .. }) => 3,
        _ => 4,
    }
}

const KINDS: u8 = 7;

impl Draft {
    /// Whether the primitive's task makes this signal.
    fn makes(&self, p: u32, signal: Signal) -> bool {
        self.makers.as_slice().get(rank(signal)).copied() == Some(p)
    }

    /// Whether the primitive's tasks make all its signals. A queue that is cut has a signal of another part.
    fn makes_all(&self, p: u32, prim: &Prim) -> bool {
        for signal in signals_of_all(prim) {
            if let Some(signal) = signal
                && !self.makes(p, signal)
            {
                return false;
            }
        }
        true
    }

    /// Drafts a step for this level, if all its signals wait for it and all that they need were made.
    fn consider(
        &mut self,
        step: Step,
        prim: &Prim,
        level: &mut List<Step>,
    ) -> Result<(), OutOfMemory> {
        let signals = signals_of(step, prim);
        for signal in signals {
            if let Some(signal) = signal
                && (is_set(&self.drafted, rank(signal))
                    || !self.makes(prim_of(step), signal)
                    || !follows(prim, signal, self.waits.as_slice(), 0))
            {
                return Ok(());
            }
        }
        for signal in signals {
            if let Some(signal) = signal {
                put(&mut self.drafted, rank(signal), true);
            }
        }
        level.push(step)
    }

    /// Drafts what can be made of a primitive in this level.
    fn visit(&mut self, p: u32, prim: &Prim, level: &mut List<Step>) -> Result<(), OutOfMemory> {
        if is_set(&self.single, p as usize) {
            for signal in signals_of_all(prim) {
                if let Some(signal) = signal {
                    self.consider(Step::One(Task { signal, prim: p }), prim, level)?;
                }
            }
            return Ok(());
        }
        match prim {
            Prim::Switch { .. } => {
                self.consider(Step::Offers(p), prim, level)?;
                self.consider(Step::Readiness(p), prim, level)
            }
            _ => self.consider(Step::Whole(p), prim, level),
        }
    }

    /// Appends the steps of a level, kind by kind. Their signals are made, and those that may need them are met next.
    fn close(
        &mut self,
        prims: &[Prim],
        level: &[Step],
        next: &mut List<u32>,
    ) -> Result<(), OutOfMemory> {
        for kind in 0..KINDS {
            for step in level {
                if let Some(prim) = prims.get(prim_of(*step) as usize)
                    && kind_of(*step, prim) == kind
                {
                    self.steps.push(*step)?;
                }
            }
        }
        for step in level {
            if let Some(prim) = prims.get(prim_of(*step) as usize) {
                self.settle(*step, prim, next)?;
            }
        }
        Ok(())
    }

    fn settle(&mut self, step: Step, prim: &Prim, next: &mut List<u32>) -> Result<(), OutOfMemory> {
        for signal in signals_of(step, prim) {
            if let Some(signal) = signal {
                put(&mut self.waits, rank(signal), 0);
                if let Some(reader) = self.readers.as_slice().get(rank(signal)) {
                    next.push(*reader)?;
                }
            }
        }
        Ok(())
    }

    /// Whether some signal of the primitive has no step yet.
    fn is_stuck(&self, prim: &Prim) -> bool {
        for signal in signals_of_all(prim) {
            if let Some(signal) = signal
                && !is_set(&self.drafted, rank(signal))
            {
                return true;
            }
        }
        false
    }

    /// From now on the signals of each stuck primitive, of the kind of the first one, are drafted one by one.
    fn split(&mut self, prims: &[Prim], next: &mut List<u32>) -> Result<(), OutOfMemory> {
        let mut kind = KINDS;
        for (p, prim) in prims.iter().enumerate() {
            let here = kind_of(Step::Whole(0), prim);
            if (kind == KINDS || kind == here) && !is_set(&self.single, p) && self.is_stuck(prim) {
                kind = here;
                put(&mut self.single, p, true);
                next.push(u32::try_from(p).unwrap_or(0))?;
            }
        }
        Ok(())
    }
}

fn prim_of(step: Step) -> u32 {
    match step {
        Step::Whole(p) | Step::Offers(p) | Step::Readiness(p) => p,
        Step::One(task) => task.prim,
    }
}

/// Which primitive may need each signal: the one that takes from a place may need what is offered there, and the one
/// that offers whether it is ready.
fn readers_of(alloc: Global, prims: &[Prim], signals: u32) -> Result<List<u32>, OutOfMemory> {
    let mut readers = List::filled(alloc, u32::MAX, signals)?;
    for (p, prim) in prims.iter().enumerate() {
        let p = u32::try_from(p).unwrap_or(u32::MAX);
        match prim {
            Prim::Function { input, out, .. } => {
                put(&mut readers, rank(Signal::Offer(*input)), p);
                put(&mut readers, rank(Signal::Ready(*out)), p);
            }
            Prim::Fork { input, a, b, .. } | Prim::Switch { input, a, b, .. } => {
                put(&mut readers, rank(Signal::Offer(*input)), p);
                put(&mut readers, rank(Signal::Ready(*a)), p);
                put(&mut readers, rank(Signal::Ready(*b)), p);
            }
            Prim::Join { a, b, out, .. } | Prim::Merge { a, b, out } => {
                put(&mut readers, rank(Signal::Offer(*a)), p);
                put(&mut readers, rank(Signal::Offer(*b)), p);
                put(&mut readers, rank(Signal::Ready(*out)), p);
            }
            _ => {}
        }
    }
    Ok(readers)
}

/// A draft with no step.
fn begun(alloc: Global, prims: &[Prim], tasks: &[Task], places: u32) -> Result<Draft, OutOfMemory> {
    let signals = places.saturating_mul(2);
    let mut makers = List::filled(alloc, u32::MAX, signals)?;
    let mut waits = List::filled(alloc, 0, signals)?;
    let mut drafted = List::filled(alloc, true, signals)?;
    for task in tasks {
        put(&mut makers, rank(task.signal), task.prim);
        put(&mut waits, rank(task.signal), 1);
        put(&mut drafted, rank(task.signal), false);
    }
    Ok(Draft {
        makers,
        waits,
        drafted,
        readers: readers_of(alloc, prims, signals)?,
        single: List::filled(alloc, false, u32::try_from(prims.len()).unwrap_or(0))?,
        steps: List::new(alloc),
    })
}

/// A primitive of the first level, kind by kind: sources, sinks, queues.
fn is_first(prim: &Prim, kind: u8) -> bool {
    match prim {
        Prim::Source { .. } => kind == 0,
        Prim::Sink { .. } => kind == 1,
        Prim::Queue { .. } => kind == 2,
        _ => false,
    }
}

/// An eager source needs its colours, and so has no operation of its own.
fn is_eager(prim: &Prim) -> bool {
    match prim {
        Prim::Source { mode, .. } => *mode == SourceMode::Eager,
        _ => false,
    }
}

impl Draft {
    /// Sources, sinks and queues, which need no signal.
    fn begin(&mut self, alloc: Global, prims: &[Prim]) -> Result<(), OutOfMemory> {
        for kind in 0..3 {
            let mut level = List::new(alloc);
            for (p, prim) in prims.iter().enumerate() {
                if is_first(prim, kind) {
                    let number = u32::try_from(p).unwrap_or(u32::MAX);
                    if is_eager(prim) || !self.makes_all(number, prim) {
                        put(&mut self.single, p, true);
                    }
                    self.visit(number, prim, &mut level)?;
                }
            }
            let mut none = List::new(alloc);
            self.close(prims, level.as_slice(), &mut none)?;
        }
        Ok(())
    }

    /// One level after another; where none follows, a kind is split.
    fn go_on(&mut self, alloc: Global, prims: &[Prim]) -> Result<(), OutOfMemory> {
        let mut met = List::new(alloc);
        for p in 0..prims.len() {
            met.push(u32::try_from(p).unwrap_or(u32::MAX))?;
        }
        for _ in 0..u32::MAX {
            let mut level = List::new(alloc);
            for p in met.as_slice() {
                if let Some(prim) = prims.get(*p as usize) {
                    self.visit(*p, prim, &mut level)?;
                }
            }
            let mut next = List::new(alloc);
            self.close(prims, level.as_slice(), &mut next)?;
            if next.is_empty() {
                self.split(prims, &mut next)?;
            }
            if next.is_empty() {
                break;
            }
            met = next;
        }
        Ok(())
    }
}

/// Steps for these tasks.
pub fn steps_for(
    alloc: Global,
    prims: &[Prim],
    tasks: &[Task],
    places: u32,
) -> Result<List<Step>, OutOfMemory> {
    let mut draft = begun(alloc, prims, tasks, places)?;
    draft.begin(alloc, prims)?;
    draft.go_on(alloc, prims)?;
    Ok(draft.steps)
}
