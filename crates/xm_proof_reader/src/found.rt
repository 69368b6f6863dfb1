//! What was found for a value, or the break of its form.

ghost use Rattle.std.specs.Prelude.{◌≡◌};
ghost use Rattle.xm_json.specs.Gives.{Gives};
ghost use Rattle.xm_json.specs.Path.{place_of};
ghost use Rattle.xm_model.specs.Steps.{demand};

use std::alloc::Global;
use xm_json::{PathFault, place_text};
use xm_model::Text;

/// What was found for the value at `path`.
pub fn at_path<T: Copy>(alloc: Global, path: &str, found: Option<T>) -> Result<T, PathFault>
    ensures { Gives (λ x. x) result (demand found path.now) }
{
    match found {
        Some(x) => Ok(x),
        None => Err(PathFault::Broken(Text::from_bytes(alloc, path.as_bytes())?)),
    }
}

/// What was found for the value at a place of the list at `path`.
pub fn at_place<T: Copy>(
    alloc: Global,
    path: &str,
    place: usize,
    found: Option<T>,
) -> Result<T, PathFault>
    ensures { Gives (λ x. x) result (demand found (place_of path.now place)) }
{
    match found {
        Some(x) => Ok(x),
        None => Err(PathFault::Broken(place_text(alloc, path, place)?)),
    }
}
