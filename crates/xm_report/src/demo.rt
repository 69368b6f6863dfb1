//! The text of a demonstration.

ghost use Rattle.std.specs.Prelude.{◌≡◌, ◌++◌, IfOk, OnOk};
ghost use Rattle.xm_report.specs.Demo as spec;
ghost use Rattle.xm_report.specs.Demo.{demo_line, run_counts_text};

use crate::pieces::{push_count, push_line};
use std::alloc::Global;
use xm_model::{OutOfMemory, Text};

/// What is counted of a run: the primitives and channels of its net, its cycles, its moves, and those of them that went
/// into a sink.
#[derive(Clone, Copy, PartialEq, Eq, Debug)]
pub struct RunCounts {
    pub primitives: u64,
    pub channels: u64,
    pub cycles: u64,
    pub moves: u64,
    pub delivered: u64,
}

/// Appends the line of a size and a seed.
fn push_title(text: &mut Text, size: u32, seed: u64) -> Result<(), OutOfMemory>
    ensures { OnOk result (text.new.items ≡ text.old.items ++ demo_line size seed) }
{
    text.push_bytes(b"demo ")?;
    push_count(text, u64::from(size))?;
    text.push_bytes(b" ")?;
    push_count(text, seed)?;
    text.push_bytes(b"\n")
}

/// Appends a line for each count.
fn push_counts(text: &mut Text, it: &RunCounts) -> Result<(), OutOfMemory>
    ensures { OnOk result (text.new.items ≡ text.old.items ++ run_counts_text it.now) }
{
    push_line(text, b"primitives", it.primitives)?;
    push_line(text, b"channels", it.channels)?;
    push_line(text, b"cycles", it.cycles)?;
    push_line(text, b"moves", it.moves)?;
    push_line(text, b"delivered", it.delivered)
}

/// The text of a demonstration: the size and the seed of a document, and what is counted of its run.
pub fn demo_text(alloc: Global, size: u32, seed: u64, it: &RunCounts) -> Result<Text, OutOfMemory>
    ensures { IfOk result (λ text. text.items ≡ spec.demo_text size seed it.now) }
{
    let mut text = Text::new(alloc);
    push_title(&mut text, size, seed)?;
    push_counts(&mut text, it)?;
    text.push_bytes(b"end\n")?;
    Ok(text)
}
