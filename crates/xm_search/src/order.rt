//! The order of the goals.

ghost use Rattle.std.specs.Prelude.{◌≡◌, ◌++◌, List as Items, OnOk, IfOk, map};
ghost use Rattle.xm_colours.specs.Family.{colours_at};
ghost use Rattle.xm_lits.specs.declared.literal.Lit.TheVariants as lit;
ghost use Rattle.xm_search.specs.GoalOrder.{IsGoalOrder, goals_of};

use crate::walk::leaving_order;
use std::alloc::Global;
use xm_design::Design;
use xm_flow::set_of;
use xm_lits::Lit;
use xm_model::{List, OutOfMemory};

/// Pushes that the channel is dead with each of the colours.
fn push_dead(goals: &mut List<Lit>, channel: u32, colours: &[u8]) -> Result<(), OutOfMemory>
    ensures { OnOk result (goals.new.items ≡ goals.old.items ++ map (λ d. lit.Dead channel d) colours.now) }
{
    for d in colours {
        goals.push(Lit::Dead(channel, *d))?;
    }
    Ok(())
}

/// Pushes that the channel is dead with each of its colours.
fn push_goals(
    alloc: Global,
    goals: &mut List<Lit>,
    design: &Design,
    channel: u32,
) -> Result<(), OutOfMemory>
    ensures { OnOk result (goals.new.items ≡ goals.old.items
        ++ map (λ d. lit.Dead channel d) (colours_at design.now.colours channel)) }
{
    let set = set_of(alloc, design, channel)?;
    push_dead(goals, channel, set.as_slice())
}

/// The goals of these channels.
fn goals_by(alloc: Global, design: &Design, channels: &[u32]) -> Result<List<Lit>, OutOfMemory>
    ensures { IfOk result (λ goals. goals.items ≡ goals_of (colours_at design.now.colours) channels.now) }
{
    let mut goals = List::new(alloc);
    for channel in channels {
        push_goals(alloc, &mut goals, design, *channel)?;
    }
    Ok(goals)
}

/// The goals in the order in which the search takes them: the channels in the order in which a depth-first walk leaves
/// them, and the colours of each.
pub fn goal_order(alloc: Global, design: &Design) -> Result<List<Lit>, OutOfMemory>
    ensures { IfOk result (λ goals. IsGoalOrder design.now goals.items) }
{
    let channels = leaving_order(alloc, design.net())?;
    goals_by(alloc, design, channels.as_slice())
}
