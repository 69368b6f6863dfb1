//! The text of a check.

ghost use Rattle.std.specs.Prelude.{◌≡◌, ◌<◌, ℕ, ◌≤◌, ◌++◌, codes, length, IfOk, OnOk};
ghost use Rattle.xm_colours.specs.Family.{Rises, colours_at};
ghost use Rattle.xm_model.specs.Naming.{naming_of};
ghost use Rattle.xm_model.specs.Membership.{IsIn};
ghost use Rattle.xm_report.specs.Check as spec;
ghost use Rattle.xm_report.specs.Check.{channel_line, channel_lines, colour_if};

use crate::pieces::{push_line, push_name};
use std::alloc::Global;
use xm_colours::Colours;
use xm_design::Design;
use xm_model::{Names, OutOfMemory, Text};

/// Appends a space and the name of colour `d`, where the test holds.
fn push_colour_if(text: &mut Text, names: &Names, test: bool, d: u8) -> Result<(), OutOfMemory>
    ensures { OnOk result (text.new.items ≡ text.old.items ++ colour_if (naming_of names.now) test d) }
{
    if !test {
        return Ok(());
    }
    text.push_bytes(b" ")?;
    push_name(text, names.colours.as_slice(), usize::from(d))
}

/// The sizes of the design, and each channel with its colours. The names name each channel and colour.
pub fn check_text(alloc: Global, names: &Names, design: &Design) -> Result<Text, OutOfMemory>
    ensures { IfOk result (λ text. text.items ≡ spec.check_text (naming_of names.now) design.now) }
{
    let net = design.net();
    let mut text = Text::new(alloc);
    push_line(&mut text, b"primitives", net.prims().len() as u64)?;
    push_line(&mut text, b"channels", u64::from(net.channels()))?;
    push_line(&mut text, b"oracles", u64::from(design.oracle_count()))?;
    push_line(&mut text, b"pairs", design.colours().pairs())?;
    push_channels(&mut text, names, design)?;
    text.push_bytes(b"end\n")?;
    Ok(text)
}

/// Appends a line for each channel.
fn push_channels(text: &mut Text, names: &Names, design: &Design) -> Result<(), OutOfMemory>
    ensures { OnOk result (text.new.items ≡ text.old.items
        ++ channel_lines (naming_of names.now) (colours_at design.now.colours) design.now.net.channels) }
{
    let net = design.net();
    let colours = design.colours();
    for c in 0..net.channels() {
        push_channel(text, names, colours, c, net.colours() as u8)?;
    }
    Ok(())
}

/// Appends the line of a channel: its name and those of its colours.
fn push_channel(
    text: &mut Text,
    names: &Names,
    colours: &Colours,
    c: u32,
    count: u8,
) -> Result<(), OutOfMemory>
    requires rise { Rises (colours_at colours.now c) }
    requires below { (d : ℕ) → IsIn (colours_at colours.now c) d → d < count }
    ensures { OnOk result (text.new.items ≡ text.old.items
        ++ channel_line (naming_of names.now) (colours_at colours.now) c) }
{
    push_name(text, names.channels.as_slice(), c as usize)?;
    for d in 0..count {
        push_colour_if(text, names, colours.has(c, d), d)?;
    }
    text.push_bytes(b"\n")
}
