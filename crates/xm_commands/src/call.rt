//! The calls that words make: a command for a document, or a document that is drawn.

ghost use Rattle.std.specs.Prelude.{◌≡◌, IfOk, IfSome, false};
ghost use Rattle.std.specs.Prelude.{option_and_then};
ghost use Rattle.xm_commands.specs.Calls.{call_of, generate_options as wanted_options, generate_with};
ghost use Rattle.xm_commands.specs.Calls.{seed_option as seed_wanted, size_option as size_wanted};
ghost use Rattle.xm_commands.specs.Inner.CallEnded.{IsWithin};
ghost use Rattle.xm_commands.specs.Words.{is_demo, is_sim};
ghost use Rattle.xm_model.specs.Naming.{texts_of};
ghost use Rattle.xm_options.specs.Grammar.{AreWithin, options_in};

use crate::command::{Command, read_command};
use std::alloc::Global;
use xm_io::Words;
use xm_model::{OutOfMemory, Text};
use xm_options::{LongOption, OptionName, read_options};

/// The document of a line of so many stations, drawn from this seed, and in how many parts and by how many workers its
/// run is simulated.
#[derive(Clone, Copy, PartialEq, Eq, Debug)]
pub struct Demonstration {
    pub size: u32,
    pub seed: u64,
    pub parts: u32,
    pub workers: u32,
}

/// What the words ask for.
#[derive(Clone, Copy, PartialEq, Eq, Debug)]
pub enum Call {
    /// A command, for the document that standard input gives.
    Obey(Command),
    /// The document of a line of so many stations, drawn from this seed. No document is read.
    Generate { size: u32, seed: u64 },
    /// What is counted of the run of such a document. No document is read.
    Demonstrate(Demonstration),
}

/// How many stations a line has.
pub fn size_option() -> LongOption
    ensures { result ≡ size_wanted }
{
    LongOption {
        name: OptionName::Size,
        low: 2,
        high: 600,
        wanted: true,
    }
}

/// What its draws begin with.
pub fn seed_option() -> LongOption
    ensures { result ≡ seed_wanted }
{
    LongOption {
        name: OptionName::Seed,
        low: 0,
        high: u64::MAX,
        wanted: true,
    }
}

/// The options of `gen`.
fn generate_options() -> [LongOption; 2]
    ensures { result ≡ wanted_options }
{
    [size_option(), seed_option()]
}

/// The call that the values of these options make.
fn generate_by(values: &[Option<u64>]) -> Option<Call>
    requires { AreWithin wanted_options values.now }
    ensures exact { result ≡ generate_with values.now }
    ensures within { IfSome result IsWithin }
{
    match values {
        [Some(size), Some(seed)] => Some(Call::Generate {
            size: *size as u32,
            seed: *seed,
        }),
        _ => None,
    }
}

/// The call that the words behind `gen` make.
fn read_generate(alloc: Global, words: &[Text]) -> Result<Option<Call>, OutOfMemory>
    ensures exact { IfOk result (λ called. called
        ≡ option_and_then generate_with (options_in wanted_options (texts_of words.now))) }
    ensures within { IfOk result (λ called. IfSome called IsWithin) }
{
    match read_options(alloc, &generate_options(), words)? {
        Some(values) => Ok(generate_by(values.as_slice())),
        None => Ok(None),
    }
}

/// The call, other than of `sim` and `demo`, that the words make, where they are words that the program knows.
pub fn read_call(alloc: Global, words: &Words) -> Result<Option<Call>, OutOfMemory>
    requires sim { is_sim words.now ≡ false }
    requires demo { is_demo words.now ≡ false }
    ensures exact { IfOk result (λ called. called ≡ call_of words.now) }
    ensures within { IfOk result (λ called. IfSome called IsWithin) }
{
    match words.words.as_slice() {
        [word, rest @ ..] if word.as_bytes() == b"gen".as_slice() => read_generate(alloc, rest),
        _ => match read_command(alloc, words)? {
            Some(command) => Ok(Some(Call::Obey(command))),
            None => Ok(None),
        },
    }
}
