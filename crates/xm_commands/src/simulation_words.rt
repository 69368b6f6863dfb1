//! The options of `sim`: in how many parts and by how many workers a run is simulated, and how many snapshots are told.

ghost use Rattle.std.specs.Prelude.{◌≡◌, IfOk, IfSome, Some, option_map, true};
ghost use Rattle.xm_commands.specs.Calls.{call_of};
ghost use Rattle.xm_commands.specs.Inner.Simulating.{IsShared};
ghost use Rattle.xm_commands.specs.Words.{is_sim, simulation_in, simulation_of, simulation_options as wanted_options};
ghost use Rattle.xm_commands.specs.Words.{parts_option as parts_wanted, workers_option as workers_wanted};
ghost use Rattle.xm_commands.specs.declared.call.Call.TheVariants as call;
ghost use Rattle.xm_commands.specs.declared.command.Command.TheVariants as command;
ghost use Rattle.xm_model.specs.Naming.{texts_of};
ghost use Rattle.xm_options.specs.Grammar.{AreWithin};

use crate::command::Simulation;
use std::alloc::Global;
use xm_io::Words;
use xm_model::{OutOfMemory, Text};
use xm_options::{LongOption, OptionName, read_options};

/// In how many parts a run is simulated.
pub fn parts_option() -> LongOption
    ensures { result ≡ parts_wanted }
{
    LongOption {
        name: OptionName::Parts,
        low: 1,
        high: 64,
        wanted: true,
    }
}

/// By how many workers.
pub fn workers_option() -> LongOption
    ensures { result ≡ workers_wanted }
{
    LongOption {
        name: OptionName::Workers,
        low: 1,
        high: 64,
        wanted: true,
    }
}

/// The options of `sim`.
fn simulation_options() -> [LongOption; 3]
    ensures { result ≡ wanted_options }
{
    [
        parts_option(),
        workers_option(),
        LongOption {
            name: OptionName::Watch,
            low: 0,
            high: 10_000,
            wanted: false,
        },
    ]
}

/// The simulation by the values of these options.
fn simulation_by(values: &[Option<u64>]) -> Option<Simulation>
    requires { AreWithin wanted_options values.now }
    ensures exact { result ≡ simulation_of values.now }
    ensures within { IfSome result IsShared }
{
    match values {
        [Some(parts), Some(workers), watch] => {
            let watch = watch.unwrap_or(0);
            Some(Simulation {
                parts: *parts as u32,
                workers: *workers as u32,
                watch: watch as u32,
            })
        }
        _ => None,
    }
}

/// The simulation that the words behind `sim` ask for.
fn read_options_of(alloc: Global, rest: &[Text]) -> Result<Option<Simulation>, OutOfMemory>
    ensures exact { IfOk result (λ it. it ≡ simulation_in (texts_of rest.now)) }
    ensures within { IfOk result (λ it. IfSome it IsShared) }
{
    match read_options(alloc, &simulation_options(), rest)? {
        Some(values) => Ok(simulation_by(values.as_slice())),
        None => Ok(None),
    }
}

/// The simulation that the words ask for, of which the first is `sim`.
pub fn read_simulation(alloc: Global, words: &Words) -> Result<Option<Simulation>, OutOfMemory>
    requires { is_sim words.now ≡ true }
    ensures exact { IfOk result (λ it. option_map (λ it. call.Obey (command.Simulate it)) it ≡ call_of words.now) }
    ensures within { IfOk result (λ it. IfSome it IsShared) }
{
    match words.words.as_slice() {
        [_, rest @ ..] => read_options_of(alloc, rest),
        [] => Ok(None),
    }
}
