//! Lists of colours, in colour order.

ghost use Rattle.std.specs.Prelude.{◌≡◌, ◌<◌, ℕ, ◌++◌, [], ◌∷◌, All, ◌↔◌, cond, length, IfOk, IsTrue, OnOk};
ghost use Rattle.xm_colours.specs.Family.{Rises, colours_at};
ghost use Rattle.xm_lits.specs.Inference.{taken_to, with_colour, without};
ghost use Rattle.xm_model.specs.Membership.{IsIn};

use std::alloc::Global;
use xm_colours::Colours;
use xm_design::Design;
use xm_model::{List, OutOfMemory};

/// The colours of channels are colours of the net. The call does nothing, and its caller has that fact.
pub fn are_below(design: &Design)
    ensures { (c d : ℕ) → IsIn (colours_at design.now.colours c) d → d < design.now.net.colours }
{
    design.colours();
}

/// Appends the colour, where the test holds.
fn push_if(ds: &mut List<u8>, test: bool, colour: u8) -> Result<(), OutOfMemory>
    ensures { OnOk result (ds.new.items ≡ ds.old.items ++ cond test (colour ∷ []) []) }
{
    if !test {
        return Ok(());
    }
    ds.push(colour)
}

/// The colours of the channel.
pub fn colours_of(alloc: Global, colours: &Colours, channel: u32) -> Result<List<u8>, OutOfMemory>
    requires rise { Rises (colours_at colours.now channel) }
    requires below { (d : ℕ) → IsIn (colours_at colours.now channel) d → d < 64 }
    ensures { IfOk result (λ ds. ds.items ≡ colours_at colours.now channel) }
{
    let mut ds = List::new(alloc);
    for d in 0..64 {
        push_if(&mut ds, colours.has(channel, d), d)?;
    }
    Ok(ds)
}

/// Whether `colour` is one of the channel's colours, or colour `with`.
fn is_with(colours: &Colours, channel: u32, with: u8, colour: u8) -> bool
    ensures { IsTrue result ↔ IsIn (with_colour with (colours_at colours.now channel)) colour }
{
    colour == with || colours.has(channel, colour)
}

/// The colours of the channel, and colour `with`.
pub fn colours_with(
    alloc: Global,
    colours: &Colours,
    channel: u32,
    with: u8,
) -> Result<List<u8>, OutOfMemory>
    requires rise { Rises (colours_at colours.now channel) }
    requires below { (d : ℕ) → IsIn (colours_at colours.now channel) d → d < 64 }
    ensures { IfOk result (λ ds. ds.items ≡ with_colour with (colours_at colours.now channel)) }
{
    let mut ds = List::new(alloc);
    for d in 0..256u32 {
        push_if(&mut ds, is_with(colours, channel, with, d as u8), d as u8)?;
    }
    Ok(ds)
}

/// The colours but `colour`.
pub fn all_but(alloc: Global, colours: &[u8], colour: u8) -> Result<List<u8>, OutOfMemory>
    ensures { IfOk result (λ ds. ds.items ≡ without colour colours.now) }
{
    let mut ds = List::new(alloc);
    for x in colours {
        push_if(&mut ds, *x != colour, *x)?;
    }
    Ok(ds)
}

/// The colours that the table takes to `colour`.
pub fn all_taken(
    alloc: Global,
    table: &[u8],
    colours: &[u8],
    colour: u8,
) -> Result<List<u8>, OutOfMemory>
    requires { All (λ x. x < length table.now) colours.now }
    ensures { IfOk result (λ ds. ds.items ≡ taken_to table.now colour colours.now) }
{
    let mut ds = List::new(alloc);
    for x in colours {
        push_if(&mut ds, table[*x as usize] == colour, *x)?;
    }
    Ok(ds)
}

/// The colours of a channel of a design.
pub fn set_of(alloc: Global, design: &Design, channel: u32) -> Result<List<u8>, OutOfMemory>
    ensures value { IfOk result (λ ds. ds.items ≡ colours_at design.now.colours channel) }
    ensures below { IfOk result (λ ds. All (λ d. d < design.now.net.colours) ds.items) }
{
    design.is_designed();
    colours_of(alloc, design.colours(), channel)
}

/// The colours of a channel of a design, and colour `with`.
pub fn set_with(
    alloc: Global,
    design: &Design,
    channel: u32,
    with: u8,
) -> Result<List<u8>, OutOfMemory>
    ensures { IfOk result (λ ds. ds.items ≡ with_colour with (colours_at design.now.colours channel)) }
{
    design.is_designed();
    colours_with(alloc, design.colours(), channel, with)
}
