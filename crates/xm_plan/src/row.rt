//! The choice at a place of a row.

ghost use Rattle.std.specs.Prelude.{◌≡◌, slice_get};
ghost use Rattle.xm_model.specs.Views.{choice_or};

use xm_model::Choice;

/// The choice at a place of the row. Past its end nothing is chosen.
pub fn choice_in_row(row: &[Choice], place: u32) -> Choice
    ensures { result ≡ choice_or (slice_get row.now place) }
{
    match row.get(place as usize) {
        Some(choice) => *choice,
        None => Choice::Ready(false),
    }
}
