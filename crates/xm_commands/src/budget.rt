//! The budget of `prove`: so many nodes and pivots at most.

ghost use Rattle.std.specs.Prelude.{◌≡◌, ◌∷◌, [], IfOk, IfSome};
ghost use Rattle.xm_commands.specs.Inner.Plain.{IsPlain};
ghost use Rattle.xm_commands.specs.Words.{budget_of, budget_option as option_of, prove_in};
ghost use Rattle.xm_model.specs.Naming.{texts_of};

use crate::command::Command;
use std::alloc::Global;
use xm_model::{OutOfMemory, Text};
use xm_options::{LongOption, OptionName, read_options};

/// The budget where the words give none.
const USUAL_BUDGET: u64 = 200_000;

/// The greatest budget.
const MOST_BUDGET: u64 = 10_000_000;

fn budget_option() -> LongOption
    ensures { result ≡ option_of }
{
    LongOption {
        name: OptionName::Budget,
        low: 1,
        high: MOST_BUDGET,
        wanted: false,
    }
}

/// The budget by the values of the options.
fn budget_in(values: &[Option<u64>]) -> u64
    ensures { result ≡ budget_of values.now }
{
    match values {
        [Some(budget), ..] => *budget,
        _ => USUAL_BUDGET,
    }
}

/// The search that the words behind `prove` call.
pub fn read_prove(alloc: Global, rest: &[Text]) -> Result<Option<Command>, OutOfMemory>
    ensures called { IfOk result (λ called. called ≡ prove_in (texts_of rest.now)) }
    ensures within { IfOk result (λ called. IfSome called IsPlain) }
{
    let options = [budget_option()];
    match read_options(alloc, &options, rest)? {
        Some(values) => Ok(Some(Command::Prove(budget_in(values.as_slice())))),
        None => Ok(None),
    }
}
