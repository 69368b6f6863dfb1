//! The rows of a written tape: from marks to choices.

ghost use Rattle.std.specs.Prelude.{◌≡◌, ◌+◌, ◌*◌, ◌<◌, ◌≤◌, ◌^◌, OnOk, length};
ghost use Rattle.xm_json.specs.Lent.{lent_texts};
ghost use Rattle.xm_model.specs.Component.{component_of};
ghost use Rattle.xm_model.specs.Limits.{most_primitives};
ghost use Rattle.xm_model.specs.Steps.{each_from};
ghost use Rattle.xm_tape.specs.Inner.Views.{components_of};
ghost use Rattle.xm_tape.specs.Gives.{Gives};
ghost use Rattle.xm_tape.specs.Inner.Flat.{IsLonger, added, row_of, rows_at};
ghost use Rattle.xm_tape.specs.Marks as spec;

use crate::fault::TapeFault;
use xm_model::{Choice, List, Prim};

/// The place that a mark names in a source's list.
fn place_marked(mark: u8) -> Option<usize>
    ensures { result ≡ spec.place_marked mark }
{
    match mark {
        b'0'..=b'9' => Some((mark - b'0') as usize),
        b'a'..=b'z' => Some((mark - b'a' + 10) as usize),
        _ => None,
    }
}

/// What a mark chooses for a source with these colours.
fn offer_marked(colours: &[u8], mark: u8) -> Option<Choice>
    ensures { result ≡ spec.offer_marked colours.now mark }
{
    if mark == b'.' {
        return Some(Choice::Offer(None));
    }
    let place = place_marked(mark)?;
    let colour = colours.get(place)?;
    Some(Choice::Offer(Some(*colour)))
}

/// What a mark chooses for a sink.
fn ready_marked(mark: u8) -> Option<Choice>
    ensures { result ≡ spec.ready_marked mark }
{
    match mark {
        b'.' => Some(Choice::Ready(false)),
        b'1' => Some(Choice::Ready(true)),
        _ => None,
    }
}

/// What a mark chooses for a source or a sink.
fn choice_marked(prim: &Prim, mark: u8) -> Option<Choice>
    ensures { result ≡ spec.choice_marked (component_of prim.now) mark }
{
    match prim {
        Prim::Source { colours, .. } => offer_marked(colours.as_slice(), mark),
        Prim::Sink { .. } => ready_marked(mark),
        _ => None,
    }
}

/// Appends the choices of the row's marks.
fn push_marks(
    choices: &mut List<Choice>,
    oracles: &[&Prim],
    row: u32,
    marks: &[u8],
) -> Result<(), TapeFault>
    requires few { length oracles.now ≤ most_primitives }
    requires same { length marks.now ≡ length oracles.now }
    ensures exact { Gives (λ _. added choices.old.items choices.new.items) result
        (spec.marks_from row 0 (components_of oracles.now) marks.now) }
    ensures longer { OnOk result (IsLonger choices.old.items choices.new.items) }
    ensures whole { OnOk result (length (added choices.old.items choices.new.items) ≡ length oracles.now) }
{
    for (o, prim) in oracles.iter().enumerate() {
        match choice_marked(prim, marks[o]) {
            Some(choice) => choices.push(choice)?,
            None => return Err(TapeFault::BadMark(row, o as u32)),
        }
    }
    Ok(())
}

/// Appends the choices of a row, whose length is tested first.
fn push_marked_row(
    choices: &mut List<Choice>,
    oracles: &[&Prim],
    row: u32,
    text: &str,
) -> Result<(), TapeFault>
    requires { length oracles.now ≤ most_primitives }
    ensures exact { Gives (λ _. added choices.old.items choices.new.items) result
        (row_of (components_of oracles.now) row text.now) }
    ensures longer { OnOk result (IsLonger choices.old.items choices.new.items) }
    ensures whole { OnOk result (length (added choices.old.items choices.new.items) ≡ length oracles.now) }
{
    let marks = text.as_bytes();
    if marks.len() != oracles.len() {
        return Err(TapeFault::RowLength(row, marks.len() as u64));
    }
    push_marks(choices, oracles, row, marks)
}

/// Appends the choices of the rows, the first of which is row number `first`.
pub fn push_marked_rows(
    choices: &mut List<Choice>,
    oracles: &[&Prim],
    first: u32,
    texts: &[&str],
) -> Result<(), TapeFault>
    requires few { length oracles.now ≤ most_primitives }
    requires counted { first + length texts.now < 2 ^ 32 }
    ensures exact { Gives
        (λ _. rows_at (length oracles.now) (length texts.now) (added choices.old.items choices.new.items)) result
        (each_from (row_of (components_of oracles.now)) first (lent_texts texts.now)) }
    ensures longer { OnOk result (IsLonger choices.old.items choices.new.items) }
    ensures whole { OnOk result
        (length (added choices.old.items choices.new.items) ≡ length texts.now * length oracles.now) }
{
    for (i, text) in texts.iter().enumerate() {
        push_marked_row(choices, oracles, first + i as u32, text)?;
    }
    Ok(())
}
