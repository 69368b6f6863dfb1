//! The commands, and the words that call them.

ghost use Rattle.std.specs.Prelude.{◌≡◌, ◌∷◌, IfOk, IfSome, codes, false};
ghost use Rattle.std.specs.Str.{bytes_eq};
ghost use Rattle.xm_commands.specs.Inner.Plain.{IsPlain};
ghost use Rattle.xm_commands.specs.Words.{command_in, command_named, command_of, is_demo as is_demo_of, is_sim as is_sim_of};
ghost use Rattle.xm_commands.specs.Words.{starts_with as starts_with_name, starts_workers as starts_workers_of};
ghost use Rattle.xm_model.specs.Naming.{texts_of};

use crate::budget::read_prove;
use std::alloc::Global;
use xm_io::Words;
use xm_model::{OutOfMemory, Text};
use xm_options::read_options;

/// In how many parts a run is simulated, by how many workers, and how many snapshots of it are told.
#[derive(Clone, Copy, PartialEq, Eq, Debug)]
pub struct Simulation {
    pub parts: u32,
    pub workers: u32,
    pub watch: u32,
}

/// What the program does: print the sizes and colours of a net, the run of its tape, its invariants, the verdict on
/// its proof, what a search for one finds in so many nodes and pivots, or the run as workers simulate it.
#[derive(Clone, Copy, PartialEq, Eq, Debug)]
pub enum Command {
    Check,
    Run,
    Inv,
    Verify,
    Prove(u64),
    Simulate(Simulation),
}

/// How an output turned out: a verdict that is no, and a search that finds no proof, is `No`, and any other output is
/// `Yes`.
#[derive(Clone, Copy, PartialEq, Eq, Debug)]
pub enum Outcome {
    Yes,
    No,
}

fn named(word: &[u8]) -> Option<Command>
    ensures named { result ≡ command_named word.now }
    ensures within { IfSome result IsPlain }
{
    if word == b"check".as_slice() {
        Some(Command::Check)
    } else if word == b"run".as_slice() {
        Some(Command::Run)
    } else if word == b"inv".as_slice() {
        Some(Command::Inv)
    } else if word == b"verify".as_slice() {
        Some(Command::Verify)
    } else {
        None
    }
}

/// Whether the word is this one.
fn is_word(word: &[u8], it: &[u8]) -> bool
    ensures { result ≡ bytes_eq word.now it.now }
{
    word == it
}

/// Whether the first word is this one.
fn starts_with(words: &Words, name: &[u8]) -> bool
    ensures { result ≡ starts_with_name name.now (texts_of words.now.words.items) }
{
    match words.words.as_slice() {
        [word, ..] => is_word(word.as_bytes(), name),
        [] => false,
    }
}

/// Whether the first word is `sim`.
pub fn is_sim(words: &Words) -> bool
    ensures { result ≡ is_sim_of words.now }
{
    starts_with(words, b"sim")
}

/// Whether the first word is `demo`.
fn is_demo(words: &Words) -> bool
    ensures { result ≡ is_demo_of words.now }
{
    starts_with(words, b"demo")
}

/// Whether what the words ask for starts workers: the first word is `sim` or `demo`.
pub fn starts_workers(words: &Words) -> bool
    ensures { result ≡ starts_workers_of words.now }
{
    is_sim(words) || is_demo(words)
}

/// The command, other than `sim`, that a first word and those behind it call.
fn read_called(alloc: Global, word: &Text, rest: &[Text]) -> Result<Option<Command>, OutOfMemory>
    requires { bytes_eq word.now.items (codes "sim") ≡ false }
    ensures called { IfOk result (λ called. called ≡ command_in (word.now.items ∷ texts_of rest.now)) }
    ensures within { IfOk result (λ called. IfSome called IsPlain) }
{
    if is_word(word.as_bytes(), b"prove") {
        return read_prove(alloc, rest);
    }
    match read_options(alloc, &[], rest)? {
        Some(_) => Ok(named(word.as_bytes())),
        None => Ok(None),
    }
}

/// The command, other than `sim`, that the words call, where they are words that the program knows.
pub fn read_command(alloc: Global, words: &Words) -> Result<Option<Command>, OutOfMemory>
    requires { is_sim_of words.now ≡ false }
    ensures called { IfOk result (λ called. called ≡ command_of words.now) }
    ensures within { IfOk result (λ called. IfSome called IsPlain) }
{
    match words.words.as_slice() {
        [word, rest @ ..] => read_called(alloc, word, rest),
        _ => Ok(None),
    }
}
