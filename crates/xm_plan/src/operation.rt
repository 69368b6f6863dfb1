//! Operations: each makes some signals of one primitive.

ghost use Rattle.std.specs.Prelude.{◌≡◌, ◌<◌, [], ◌∷◌, ◌++◌, ℕ, length, map, IfSome, IsTrue, List as Colours, OnOk};
ghost use Rattle.xm_model.specs.Component.{Fork, Join, Merge, Sink, Source, component_of};
ghost use Rattle.xm_plan.specs.Inner.Operations.{AreApart, FitsOperation, Keeps, Operates, task_of, tasks_of};

use crate::check::is_maker;
use xm_design::Task;
use xm_model::{List, OutOfMemory, Prim, Side, SinkMode, SourceMode};
use xm_order::Signal;

/// An operation makes signals of primitive `prim` from those at the primitive's other places. `choice` is where
/// its choice stands in a row. `ForkPlain` is a fork whose maps keep each of `colours` colours. `One` makes any one
/// signal.
#[derive(Clone, Copy)]
pub enum Operation {
    Source {
        prim: u32,
        out: u32,
        choice: u32,
        mode: SourceMode,
    },
    Sink {
        prim: u32,
        input: u32,
        choice: u32,
        mode: SinkMode,
    },
    Queue {
        prim: u32,
        input: u32,
        out: u32,
        capacity: u32,
    },
    Function {
        prim: u32,
        input: u32,
        out: u32,
    },
    ForkPlain {
        prim: u32,
        input: u32,
        a: u32,
        b: u32,
        colours: u32,
    },
    Fork {
        prim: u32,
        input: u32,
        a: u32,
        b: u32,
    },
    Join {
        prim: u32,
        a: u32,
        b: u32,
        out: u32,
        pass: Side,
    },
    SwitchOffers {
        prim: u32,
        input: u32,
        a: u32,
        b: u32,
    },
    SwitchReady {
        prim: u32,
        input: u32,
        a: u32,
        b: u32,
    },
    Merge {
        prim: u32,
        a: u32,
        b: u32,
        out: u32,
    },
    One(Task),
}

/// What is to be done for a primitive: all its signals at once, the offers of a switch, its readiness, or one
/// signal.
#[derive(Clone, Copy)]
pub enum Step {
    Whole(u32),
    Offers(u32),
    Readiness(u32),
    One(Task),
}

/// Whether the map keeps every colour that it has.
fn is_identity(table: &[u8]) -> bool
    ensures { IsTrue result → Keeps (length table.now) table.now }
{
    for d in 0..table.len() {
        if table[d] as usize != d {
            return false;
        }
    }
    true
}

/// Whether these are three places.
fn are_apart(x: u32, a: u32, b: u32) -> bool
    ensures { IsTrue result → AreApart x a b }
{
    a != b && a != x && b != x
}

/// The operation for the signal of a source. One that is eager has none, since it needs its colours.
fn source_operation(prim: u32, out: u32, mode: SourceMode, choices: &[u32]) -> Option<Operation>
    ensures { (colours : Colours ℕ) → IfSome result (Operates choices.now prim (Source out colours mode)) }
{
    if prim as usize >= choices.len() {
        return None;
    }
    let choice = choices[prim as usize];
    match mode {
        SourceMode::Eager => None,
        SourceMode::Keep | SourceMode::Free | SourceMode::Fair => Some(Operation::Source {
            prim,
            out,
            choice,
            mode,
        }),
    }
}

fn sink_operation(prim: u32, input: u32, mode: SinkMode, choices: &[u32]) -> Option<Operation>
    ensures { IfSome result (Operates choices.now prim (Sink input mode)) }
{
    if prim as usize >= choices.len() {
        return None;
    }
    let choice = choices[prim as usize];
    Some(Operation::Sink {
        prim,
        input,
        choice,
        mode,
    })
}

fn fork_operation(
    prim: u32,
    input: u32,
    a: u32,
    b: u32,
    map_a: &[u8],
    map_b: &[u8],
) -> Option<Operation>
    ensures { (choices : Colours ℕ) → IfSome result (Operates choices prim (Fork input a b map_a.now map_b.now)) }
{
    if !are_apart(input, a, b) {
        return None;
    }
    let colours = map_a.len();
    if colours != map_b.len() || colours > 64 || !is_identity(map_a) || !is_identity(map_b) {
        return Some(Operation::Fork { prim, input, a, b });
    }
    Some(Operation::ForkPlain {
        prim,
        input,
        a,
        b,
        colours: colours as u32,
    })
}

fn join_operation(prim: u32, a: u32, b: u32, out: u32, pass: Side) -> Option<Operation>
    ensures { (choices : Colours ℕ) → IfSome result (Operates choices prim (Join a b out pass)) }
{
    if !are_apart(out, a, b) {
        return None;
    }
    Some(Operation::Join {
        prim,
        a,
        b,
        out,
        pass,
    })
}

fn merge_operation(prim: u32, a: u32, b: u32, out: u32) -> Option<Operation>
    ensures { (choices : Colours ℕ) → IfSome result (Operates choices prim (Merge a b out)) }
{
    if !are_apart(out, a, b) {
        return None;
    }
    Some(Operation::Merge { prim, a, b, out })
}

/// The operation for all signals of a primitive.
fn whole_operation(p: u32, prim: &Prim, choices: &[u32]) -> Option<Operation>
    ensures { IfSome result (Operates choices.now p (component_of prim.now)) }
{
    match prim {
        Prim::Source { out, mode, .. } => source_operation(p, *out, *mode, choices),
        Prim::Sink { input, mode } => sink_operation(p, *input, *mode, choices),
        Prim::Queue {
            input,
            out,
            capacity,
            ..
        } => Some(Operation::Queue {
            prim: p,
            input: *input,
            out: *out,
            capacity: *capacity,
        }),
        Prim::Function { input, out, .. } => Some(Operation::Function {
            prim: p,
            input: *input,
            out: *out,
        }),
        Prim::Fork {
            input,
            a,
            b,
            map_a,
            map_b,
        } => fork_operation(p, *input, *a, *b, map_a.as_slice(), map_b.as_slice()),
        Prim::Join { a, b, out, pass } => join_operation(p, *a, *b, *out, *pass),
        Prim::Switch { .. } => None,
        Prim::Merge { a, b, out } => merge_operation(p, *a, *b, *out),
    }
}

/// The operation for the offers of a switch.
fn offers_operation(p: u32, prim: &Prim) -> Option<Operation>
    ensures { (choices : Colours ℕ) → IfSome result (Operates choices p (component_of prim.now)) }
{
    match prim {
        Prim::Switch { input, a, b, .. } => {
            if !are_apart(*input, *a, *b) {
                return None;
            }
            Some(Operation::SwitchOffers {
                prim: p,
                input: *input,
                a: *a,
                b: *b,
            })
        }
        _ => None,
    }
}

/// The operation for the readiness of a switch.
fn readiness_operation(p: u32, prim: &Prim) -> Option<Operation>
    ensures { (choices : Colours ℕ) → IfSome result (Operates choices p (component_of prim.now)) }
{
    match prim {
        Prim::Switch { input, a, b, .. } => Some(Operation::SwitchReady {
            prim: p,
            input: *input,
            a: *a,
            b: *b,
        }),
        _ => None,
    }
}

/// The operation for one signal.
fn one_operation(task: Task, prim: &Prim) -> Option<Operation>
    ensures { (choices : Colours ℕ) → IfSome result (Operates choices task.prim (component_of prim.now)) }
{
    if !is_maker(prim, task.signal) {
        return None;
    }
    Some(Operation::One(task))
}

fn prim_in(step: Step) -> u32 {
    match step {
        Step::Whole(p) | Step::Offers(p) | Step::Readiness(p) => p,
        Step::One(task) => task.prim,
    }
}

/// The operation of this primitive for a step.
fn operation_for(step: Step, p: u32, prim: &Prim, choices: &[u32]) -> Option<Operation>
    ensures { IfSome result (Operates choices.now p (component_of prim.now)) }
{
    match step {
        Step::Whole(_) => whole_operation(p, prim, choices),
        Step::Offers(_) => offers_operation(p, prim),
        Step::Readiness(_) => readiness_operation(p, prim),
        Step::One(task) => one_operation(
            Task {
                signal: task.signal,
                prim: p,
            },
            prim,
        ),
    }
}

/// The operation for a step, if there is one.
pub fn operation_of(step: Step, prims: &[Prim], choices: &[u32]) -> Option<Operation>
    ensures { IfSome result (FitsOperation (map component_of prims.now) choices.now) }
{
    let p = prim_in(step);
    if p as usize >= prims.len() {
        return None;
    }
    operation_for(step, p, &prims[p as usize], choices)
}

fn push_task(tasks: &mut List<Task>, signal: Signal, prim: u32) -> Result<(), OutOfMemory>
    ensures { OnOk result (tasks.new.items ≡ tasks.old.items ++ task_of prim signal ∷ []) }
{
    tasks.push(Task { signal, prim })
}

fn push_two(
    tasks: &mut List<Task>,
    first: Signal,
    second: Signal,
    prim: u32,
) -> Result<(), OutOfMemory>
    ensures { OnOk result (tasks.new.items ≡ tasks.old.items ++ task_of prim first ∷ task_of prim second ∷ []) }
{
    push_task(tasks, first, prim)?;
    push_task(tasks, second, prim)
}

fn push_three(
    tasks: &mut List<Task>,
    first: Signal,
    second: Signal,
    third: Signal,
    prim: u32,
) -> Result<(), OutOfMemory>
    ensures { OnOk result (tasks.new.items
        ≡ tasks.old.items ++ task_of prim first ∷ task_of prim second ∷ task_of prim third ∷ []) }
{
    push_task(tasks, first, prim)?;
    push_two(tasks, second, third, prim)
}

/// Appends the tasks that an operation does.
pub fn push_tasks(tasks: &mut List<Task>, operation: Operation) -> Result<(), OutOfMemory>
    ensures { OnOk result (tasks.new.items ≡ tasks.old.items ++ tasks_of operation) }
{
    match operation {
        Operation::Source { prim, out, .. } => push_task(tasks, Signal::Offer(out), prim),
        Operation::Sink { prim, input, .. } => push_task(tasks, Signal::Ready(input), prim),
        Operation::Queue {
            prim,
            input,
            out,
            ..
        }
        | Operation::Function { prim, input, out } => {
            push_two(tasks, Signal::Offer(out), Signal::Ready(input), prim)
        }
        Operation::ForkPlain {
            prim,
            input,
            a,
            b,
            ..
        }
        | Operation::Fork { prim, input, a, b } => push_three(
            tasks,
            Signal::Offer(a),
            Signal::Offer(b),
            Signal::Ready(input),
            prim,
        ),
        Operation::Join {
            prim,
            a,
            b,
            out,
            ..
        }
        | Operation::Merge { prim, a, b, out } => push_three(
            tasks,
            Signal::Offer(out),
            Signal::Ready(a),
            Signal::Ready(b),
            prim,
        ),
        Operation::SwitchOffers { prim, a, b, .. } => {
            push_two(tasks, Signal::Offer(a), Signal::Offer(b), prim)
        }
        Operation::SwitchReady { prim, input, .. } => push_task(tasks, Signal::Ready(input), prim),
        Operation::One(task) => push_task(tasks, task.signal, task.prim),
    }
}
