//! The terms of a row, pushed one after another. Each is a column, by its number, and a sign.

ghost use Rattle.std.specs.Prelude.{◌≡◌, ◌++◌, [], ◌∷◌, ◌<◌, All, OnOk, List as Items, length, map};
ghost use Rattle.xm_colours.specs.Family.{colours_at};
ghost use Rattle.xm_design.specs.Numbers.{IsQueuePair};
ghost use Rattle.xm_flow.specs.Inner.Building.{AreTerms, IsReady, term, unit_of};
ghost use Rattle.xm_flow.specs.FlowRows.{Count, Moves, Term, columns, if_coloured, minus, taken_to};
ghost use Rattle.xm_model.specs.Membership.{IsIn};

use crate::place::{Places, count_at, move_at};
use xm_design::Design;
use xm_model::OutOfMemory;
use xm_rows::Entry;

/// Whether a column is added or taken away.
#[derive(Clone, Copy, PartialEq, Eq, Debug)]
pub enum Sign {
    Plus,
    Minus,
}

/// A column, once, with its sign.
fn entry(column: u32, sign: Sign) -> Entry
    ensures { result ≡ record { column = column; value = unit_of sign } }
{
    let value = match sign {
        Sign::Plus => 1,
        Sign::Minus => -1,
    };
    Entry { column, value }
}

/// Pushes the moves of colour `d` on channel `c`, with a sign.
pub fn push_move(
    terms: &mut Vec<Entry>,
    places: &Places,
    design: &Design,
    c: u32,
    d: u8,
    sign: Sign,
) -> Result<(), OutOfMemory>
    requires ready { IsReady design.now places.now.below.items places.now.moves }
    requires channel { c < design.now.net.channels }
    requires colour { IsIn (colours_at design.now.colours c) d }
    ensures { (left : Items Term) → AreTerms (columns design.now) left terms.old.items
        → OnOk result (AreTerms (columns design.now) (left ++ term (unit_of sign) (Moves c d) ∷ []) terms.new.items) }
{
    let column = move_at(places, design, c, d);
    terms.push(entry(column, sign))?;
    Ok(())
}

/// Pushes it where the colour is one of the channel's.
pub fn push_if(
    terms: &mut Vec<Entry>,
    places: &Places,
    design: &Design,
    c: u32,
    d: u8,
    sign: Sign,
) -> Result<(), OutOfMemory>
    requires ready { IsReady design.now places.now.below.items places.now.moves }
    requires channel { c < design.now.net.channels }
    ensures { (left : Items Term) → AreTerms (columns design.now) left terms.old.items
        → OnOk result (AreTerms (columns design.now)
        (left ++ if_coloured (colours_at design.now.colours) (term (unit_of sign)) c d) terms.new.items) }
{
    if design.colours().has(c, d) {
        return push_move(terms, places, design, c, d, sign);
    }
    Ok(())
}

/// Pushes the packets of colour `d` in queue `q`, with a sign.
pub fn push_count(
    terms: &mut Vec<Entry>,
    places: &Places,
    design: &Design,
    q: u32,
    d: u8,
    sign: Sign,
) -> Result<(), OutOfMemory>
    requires ready { IsReady design.now places.now.below.items places.now.moves }
    requires pair { IsQueuePair design.now q d }
    ensures { (left : Items Term) → AreTerms (columns design.now) left terms.old.items
        → OnOk result (AreTerms (columns design.now) (left ++ term (unit_of sign) (Count q d) ∷ []) terms.new.items) }
{
    let column = count_at(places, design, q, d);
    terms.push(entry(column, sign))?;
    Ok(())
}

/// Pushes the moves of each of these colours, with a sign.
pub fn push_moves(
    terms: &mut Vec<Entry>,
    places: &Places,
    design: &Design,
    c: u32,
    set: &[u8],
    sign: Sign,
) -> Result<(), OutOfMemory>
    requires ready { IsReady design.now places.now.below.items places.now.moves }
    requires channel { c < design.now.net.channels }
    requires set { set.now ≡ colours_at design.now.colours c }
    ensures { (left : Items Term) → AreTerms (columns design.now) left terms.old.items
        → OnOk result (AreTerms (columns design.now)
        (left ++ map (λ d. term (unit_of sign) (Moves c d)) set.now) terms.new.items) }
{
    for i in 0..set.len() {
        push_move(terms, places, design, c, set[i], sign)?;
    }
    Ok(())
}

/// Takes away the moves of a colour where the table takes it to `e`.
fn push_image(
    terms: &mut Vec<Entry>,
    places: &Places,
    design: &Design,
    c: u32,
    d: u8,
    table: &[u8],
    e: u8,
) -> Result<(), OutOfMemory>
    requires ready { IsReady design.now places.now.below.items places.now.moves }
    requires channel { c < design.now.net.channels }
    requires colour { IsIn (colours_at design.now.colours c) d }
    requires covered { d < length table.now }
    ensures { (left : Items Term) → AreTerms (columns design.now) left terms.old.items
        → OnOk result (AreTerms (columns design.now)
        (left ++ map (λ x. minus (Moves c x)) (taken_to table.now e (d ∷ []))) terms.new.items) }
{
    if table[d as usize] == e {
        return push_move(terms, places, design, c, d, Sign::Minus);
    }
    Ok(())
}

/// Takes away the moves of each of these colours that the table takes to `e`.
pub fn push_taken(
    terms: &mut Vec<Entry>,
    places: &Places,
    design: &Design,
    c: u32,
    set: &[u8],
    table: &[u8],
    e: u8,
) -> Result<(), OutOfMemory>
    requires ready { IsReady design.now places.now.below.items places.now.moves }
    requires channel { c < design.now.net.channels }
    requires set { set.now ≡ colours_at design.now.colours c }
    requires covered { All (λ d. d < length table.now) set.now }
    ensures { (left : Items Term) → AreTerms (columns design.now) left terms.old.items
        → OnOk result (AreTerms (columns design.now)
        (left ++ map (λ d. minus (Moves c d)) (taken_to table.now e set.now)) terms.new.items) }
{
    for i in 0..set.len() {
        push_image(terms, places, design, c, set[i], table, e)?;
    }
    Ok(())
}
