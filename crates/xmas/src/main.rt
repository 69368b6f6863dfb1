//! The program `xmas`: it checks and runs xMAS networks. It reads standard input, writes standard output, and
//! says why it refuses on standard error.
#![tactic(auto)]

ghost use Rattle.std.specs.Prelude.{◌≡◌, IfOk};

use std::alloc::Global;
use std::env;
use std::env::Args;
use std::io::ErrorKind;
use std::process::ExitCode;
use xm_commands::{Refusal, refuse, xmas};
use xm_io::{OpenGate, StdSink, StdSource, Words};
use xm_model::{List, OutOfMemory, Text};

fn main(rt: HostRuntime) -> ExitCode {
    let mut source = StdSource::new(rt.stdin());
    let mut out = StdSink::new(rt.stdout());
    let mut err = StdSink::new(rt.stderr());
    let status = match words_of(&rt) {
        Ok(words) => xmas(
            &rt,
            rt.alloc(),
            &words,
            &mut source,
            &mut out,
            &mut err,
            &OpenGate,
        ),
        Err(OutOfMemory) => refuse(&mut err, &Refusal::Memory),
    };
    ExitCode::from(status)
}

/// The words of the command line, without the program's name. Where one of them is no text, there are none.
fn words_of<R: std::rt::Env + AllocGlobal>(rt: &R) -> Result<Words, OutOfMemory> {
    match env::args(rt) {
        Ok(args) => words_from(rt.alloc(), args),
        Err(error) => match error.kind() {
            ErrorKind::OutOfMemory => Err(OutOfMemory),
            _ => Ok(Words {
                words: List::new(rt.alloc()),
            }),
        },
    }
}

fn words_from(alloc: Global, args: Args) -> Result<Words, OutOfMemory> {
    let mut words = List::new(alloc);
    for word in args.skip(1) {
        words.push(text_of(alloc, word.as_str())?)?;
    }
    Ok(Words { words })
}

fn text_of(alloc: Global, word: &str) -> Result<Text, OutOfMemory>
    ensures { IfOk result (λ text. text.items ≡ word.now) }
{
    let mut text = Text::new(alloc);
    text.push_bytes(word.as_bytes())?;
    Ok(text)
}
