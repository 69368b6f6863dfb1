//! A plan: the operations of a cycle in an order in which each can be done.

ghost use Rattle.std.specs.Prelude.{◌≡◌, map, IfOk, IsTrue, OnOk};
ghost use Rattle.xm_model.specs.Component.{component_of};
ghost use Rattle.xm_plan.specs.Inner.Kept.{AreFor};
ghost use Rattle.xm_plan.specs.Inner.Operations.{AllFit, all_tasks, singles};
ghost use Rattle.xm_plan.specs.Schedule.{IsSchedule, SameTasks};

use crate::check::{are_same, is_schedule, rank};
use crate::draft::steps_for;
use crate::making::make_all;
use crate::operation::{Operation, Step, operation_of, push_tasks};
use std::alloc::Global;
use std::marker::Model;
use std::snapshot::Snapshot;
use xm_design::Task;
use xm_model::{Choice, List, OutOfMemory, Prim, Wire};
use xm_running::HasCell;

/// The operations of a cycle for some primitives, whose ports are places, and for some tasks. A contract sees the
/// primitives, how many places there are, where the choice of each primitive stands in a row, and the tasks.
#[derive(Drop)]
pub struct Plan {
    prims: Snapshot<List<Prim>>,
    places: u32,
    choices: List<u32>,
    operations: List<Operation>,
}

impl Model for Plan {
    ghost use Rattle.std.specs.Prelude.{map};
    ghost use Rattle.xm_model.specs.Component.{component_of};
    ghost use Rattle.xm_plan.specs.Planned.{Planned};

    ghost Value = { Planned };

    ghost use Rattle.xm_plan.specs.Inner.Kept.{AreKept};
    ghost use Rattle.xm_plan.specs.Inner.Operations.{all_tasks};

    ghost view = { λ p. record {
      prims = map component_of p.prims.value.items;
      places = p.places;
      choices = p.choices.items;
      tasks = all_tasks p.operations.items;
    } };

    ghost invariant = { λ p. AreKept (map component_of p.prims.value.items) p.places p.choices.items
        p.operations.items };
}

/// Appends the operation for a step, if there is one.
fn push_operation(
    operations: &mut List<Operation>,
    step: Step,
    prims: &[Prim],
    choices: &[u32],
) -> Result<(), OutOfMemory>
    requires { AllFit (map component_of prims.now) choices.now operations.old.items }
    ensures { OnOk result (AllFit (map component_of prims.now) choices.now operations.new.items) }
{
    match operation_of(step, prims, choices) {
        None => Ok(()),
        Some(operation) => operations.push(operation),
    }
}

/// The operations for these steps.
fn operations_of(
    alloc: Global,
    steps: &[Step],
    prims: &[Prim],
    choices: &[u32],
) -> Result<List<Operation>, OutOfMemory>
    ensures { IfOk result (λ operations. AllFit (map component_of prims.now) choices.now operations.items) }
{
    let mut operations = List::new(alloc);
    for step in steps {
        push_operation(&mut operations, *step, prims, choices)?;
    }
    Ok(operations)
}

/// The tasks that these operations do.
fn tasks_done(alloc: Global, operations: &[Operation]) -> Result<List<Task>, OutOfMemory>
    ensures { IfOk result (λ tasks. tasks.items ≡ all_tasks operations.now) }
{
    let mut tasks = List::new(alloc);
    for operation in operations {
        push_tasks(&mut tasks, *operation)?;
    }
    Ok(tasks)
}

/// Where each signal of these tasks stands, counted from 1.
fn positions_of(alloc: Global, tasks: &[Task], places: u32) -> Result<List<u32>, OutOfMemory> {
    let mut positions = List::filled(alloc, 0, places.saturating_mul(2))?;
    for (k, task) in tasks.iter().enumerate() {
        let place = rank(task.signal);
        if place < positions.len() {
            positions.as_mut_slice()[place] = u32::try_from(k).unwrap_or(0).saturating_add(1);
        }
    }
    Ok(positions)
}

/// Whether the tasks that were drafted are those that are wanted, in an order in which each can be done.
fn is_sound(
    alloc: Global,
    prims: &[Prim],
    wanted: &[Task],
    drafted: &[Task],
    places: u32,
) -> Result<bool, OutOfMemory>
    ensures schedule { IfOk result (λ sound. IsTrue sound → IsSchedule (map component_of prims.now) drafted.now) }
    ensures same { IfOk result (λ sound. IsTrue sound → SameTasks wanted.now drafted.now) }
{
    let wanted_at = positions_of(alloc, wanted, places)?;
    let drafted_at = positions_of(alloc, drafted, places)?;
    Ok(
        drafted.len() <= u32::MAX as usize
            && is_schedule(prims, drafted_at.as_slice(), drafted)
            && are_same(wanted, wanted_at.as_slice(), drafted, drafted_at.as_slice()),
    )
}

/// Each task as an operation of its own.
fn single_operations(alloc: Global, tasks: &[Task]) -> Result<List<Operation>, OutOfMemory>
    ensures { IfOk result (λ operations. operations.items ≡ singles tasks.now) }
{
    let mut operations = List::new(alloc);
    for task in tasks {
        operations.push(Operation::One(*task))?;
    }
    Ok(operations)
}

/// Operations that do these tasks: those that were drafted, if they pass the checks, and else each task by itself.
fn operations_for(
    alloc: Global,
    prims: &[Prim],
    places: u32,
    choices: &[u32],
    tasks: &[Task],
) -> Result<List<Operation>, OutOfMemory>
    requires { IsSchedule (map component_of prims.now) tasks.now }
    ensures { IfOk result (λ operations. AreFor (map component_of prims.now) choices.now tasks.now operations.items) }
{
    let steps = steps_for(alloc, prims, tasks, places)?;
    let operations = operations_of(alloc, steps.as_slice(), prims, choices)?;
    let done = tasks_done(alloc, operations.as_slice())?;
    if is_sound(alloc, prims, tasks, done.as_slice(), places)? {
        return Ok(operations);
    }
    single_operations(alloc, tasks)
}

fn copied(alloc: Global, numbers: &[u32]) -> Result<List<u32>, OutOfMemory>
    ensures { IfOk result (λ list. list.items ≡ numbers.now) }
{
    let mut list = List::new(alloc);
    for number in numbers {
        list.push(*number)?;
    }
    Ok(list)
}

impl Plan {
    ghost use Rattle.std.specs.Prelude.{◌≡◌, IfOk, length, map};
    ghost use Rattle.xm_model.specs.Component.{component_of};
    ghost use Rattle.xm_model.specs.Views.{content_at, signals_of};
    ghost use Rattle.xm_plan.specs.Planned.{choice_for};
    ghost use Rattle.xm_plan.specs.Schedule.{ArePlaced, AreSettled, IsSchedule, LeavesOthers, SameTasks};
    ghost use Rattle.xm_plan.specs.Shown.{AreShown};

    /// A plan that does these tasks, which it may put into another order. `choices` tells for each primitive where its
    /// choice stands in a row. Time is linear in the primitives, the places and the tasks.
    pub fn new(
        alloc: Global,
        prims: &List<Prim>,
        places: u32,
        choices: &[u32],
        tasks: &[Task],
    ) -> Result<Plan, OutOfMemory>
        requires choices { length choices.now ≡ length prims.now.items }
        requires placed { ArePlaced (map component_of prims.now.items) places }
        requires schedule { IsSchedule (map component_of prims.now.items) tasks.now }
        ensures prims { IfOk result (λ plan. plan.prims ≡ map component_of prims.now.items) }
        ensures places { IfOk result (λ plan. plan.places ≡ places) }
        ensures choices { IfOk result (λ plan. plan.choices ≡ choices.now) }
        ensures tasks { IfOk result (λ plan. SameTasks tasks.now plan.tasks) }
    {
        let operations = operations_for(alloc, prims.as_slice(), places, choices, tasks)?;
        let choices = copied(alloc, choices)?;
        Ok(Plan {
            prims: Snapshot::of(prims),
            places,
            choices,
            operations,
        })
    }

    /// Makes the signals of all tasks from the cells and a row of choices. All other signals stay.
    pub fn solve<C: HasCell>(&self, prims: &[Prim], cells: &[C], row: &[Choice], wires: &mut [Wire])
        requires prims { map component_of prims.now ≡ self.now.prims }
        requires cells { length cells.now ≡ length prims.now }
        requires wires { length wires.old ≡ self.now.places }
        ensures settled { AreSettled self.now.prims (content_at (map C.cell cells.now))
            (choice_for self.now.choices row.now)
            self.now.tasks (signals_of wires.new) }
        ensures others { LeavesOthers self.now.tasks (signals_of wires.old) (signals_of wires.new) }
    {
        self.solve_changed(prims, cells, &[], row, wires);
    }

    /// The same, where the wires show already what the sources, sinks and queues hold that are noted as unchanged.
    pub fn solve_changed<C: HasCell>(
        &self,
        prims: &[Prim],
        cells: &[C],
        changed: &[bool],
        row: &[Choice],
        wires: &mut [Wire],
    )
        requires prims { map component_of prims.now ≡ self.now.prims }
        requires cells { length cells.now ≡ length prims.now }
        requires wires { length wires.old ≡ self.now.places }
        requires shown { AreShown self.now.prims (content_at (map C.cell cells.now)) changed.now
            (signals_of wires.old) }
        ensures settled { AreSettled self.now.prims (content_at (map C.cell cells.now))
            (choice_for self.now.choices row.now)
            self.now.tasks (signals_of wires.new) }
        ensures others { LeavesOthers self.now.tasks (signals_of wires.old) (signals_of wires.new) }
    {
        make_all(
            self.operations.as_slice(),
            prims,
            self.choices.as_slice(),
            cells,
            changed,
            row,
            wires,
        );
    }
}
