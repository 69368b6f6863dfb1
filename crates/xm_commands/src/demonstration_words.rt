//! The options of `demo`: which document is drawn, and in how many parts and by how many workers its run is simulated.

ghost use Rattle.std.specs.Prelude.{◌≡◌, IfOk, IfSome, option_map, true};
ghost use Rattle.xm_commands.specs.Calls.{call_of, demonstration_in, demonstration_of};
ghost use Rattle.xm_commands.specs.Calls.{demonstration_options as wanted_options};
ghost use Rattle.xm_commands.specs.Inner.CallEnded.{IsDemonstrable};
ghost use Rattle.xm_commands.specs.Words.{is_demo};
ghost use Rattle.xm_commands.specs.declared.call.Call.TheVariants as call;
ghost use Rattle.xm_model.specs.Naming.{texts_of};
ghost use Rattle.xm_options.specs.Grammar.{AreWithin};

use crate::call::{Demonstration, seed_option, size_option};
use crate::simulation_words::{parts_option, workers_option};
use std::alloc::Global;
use xm_io::Words;
use xm_model::{OutOfMemory, Text};
use xm_options::{LongOption, read_options};

/// The options of `demo`.
fn demonstration_options() -> [LongOption; 4]
    ensures { result ≡ wanted_options }
{
    [
        size_option(),
        seed_option(),
        parts_option(),
        workers_option(),
    ]
}

/// The demonstration by the values of these options.
fn demonstration_by(values: &[Option<u64>]) -> Option<Demonstration>
    requires { AreWithin wanted_options values.now }
    ensures exact { result ≡ demonstration_of values.now }
    ensures within { IfSome result IsDemonstrable }
{
    match values {
        [Some(size), Some(seed), Some(parts), Some(workers)] => Some(Demonstration {
            size: *size as u32,
            seed: *seed,
            parts: *parts as u32,
            workers: *workers as u32,
        }),
        _ => None,
    }
}

/// The demonstration that the words behind `demo` ask for.
fn read_options_of(alloc: Global, rest: &[Text]) -> Result<Option<Demonstration>, OutOfMemory>
    ensures exact { IfOk result (λ it. it ≡ demonstration_in (texts_of rest.now)) }
    ensures within { IfOk result (λ it. IfSome it IsDemonstrable) }
{
    match read_options(alloc, &demonstration_options(), rest)? {
        Some(values) => Ok(demonstration_by(values.as_slice())),
        None => Ok(None),
    }
}

/// The demonstration that the words ask for, of which the first is `demo`.
pub fn read_demonstration(
    alloc: Global,
    words: &Words,
) -> Result<Option<Demonstration>, OutOfMemory>
    requires { is_demo words.now ≡ true }
    ensures exact { IfOk result (λ it. option_map call.Demonstrate it ≡ call_of words.now) }
    ensures within { IfOk result (λ it. IfSome it IsDemonstrable) }
{
    match words.words.as_slice() {
        [_, rest @ ..] => read_options_of(alloc, rest),
        [] => Ok(None),
    }
}
