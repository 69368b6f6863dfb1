//! The signals of an order, each with the primitive that makes it.

ghost use Rattle.std.specs.Prelude.{◌<◌, ◌≡◌, IfOk};
ghost use Rattle.xm_design.specs.Tasks.{AreTasks, Makes};
ghost use Rattle.xm_order.specs.Dependence.{IsOrder, channel_of};

use std::alloc::Global;
use xm_model::{List, Net, OutOfMemory};
use xm_order::Signal;

/// A signal, and the primitive that makes it: the one that offers on its channel, or takes from it.
#[derive(Clone, Copy)]
pub struct Task {
    pub signal: Signal,
    pub prim: u32,
}

fn maker_of(net: &Net, signal: Signal) -> u32
    requires { channel_of signal < net.now.channels }
    ensures { Makes net.now result signal }
{
    match signal {
        Signal::Offer(c) => net.initiator(c),
        Signal::Ready(c) => net.target(c),
    }
}

/// The signals of an order with their primitives.
pub fn tasks_of(alloc: Global, net: &Net, order: &[Signal]) -> Result<List<Task>, OutOfMemory>
    requires { IsOrder net.now order.now }
    ensures { IfOk result (λ tasks. AreTasks net.now order.now tasks.items) }
{
    let mut tasks = List::new(alloc);
    for signal in order {
        tasks.push(Task {
            signal: *signal,
            prim: maker_of(net, *signal),
        })?;
    }
    Ok(tasks)
}
