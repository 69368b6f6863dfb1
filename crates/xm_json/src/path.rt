//! Paths one step further down, as strings to go on with and as the texts that faults hold.

ghost use Rattle.std.specs.Prelude.{◌≡◌, IfOk, string_bytes};
ghost use Rattle.xm_json.specs.Path.{member_of, place_of};

use std::alloc::Global;
use xm_model::{OutOfMemory, Text};

/// The path of the member `key`.
pub fn member_path(alloc: Global, path: &str, key: &str) -> Result<String, OutOfMemory>
    ensures { IfOk result (λ further. string_bytes further ≡ member_of path.now key.now) }
{
    Ok(format!(in alloc; "{path}.{key}")?)
}

/// The path of a place of a list.
pub fn place_path(alloc: Global, path: &str, place: usize) -> Result<String, OutOfMemory>
    ensures { IfOk result (λ further. string_bytes further ≡ place_of path.now place) }
{
    Ok(format!(in alloc; "{path}.{place}")?)
}

/// The path of the member `key`, as a text.
pub fn member_text(alloc: Global, path: &str, key: &str) -> Result<Text, OutOfMemory>
    ensures { IfOk result (λ text. text.items ≡ member_of path.now key.now) }
{
    let further = member_path(alloc, path, key)?;
    Text::from_bytes(alloc, further.as_bytes())
}

/// The path of a place of a list, as a text.
pub fn place_text(alloc: Global, path: &str, place: usize) -> Result<Text, OutOfMemory>
    ensures { IfOk result (λ text. text.items ≡ place_of path.now place) }
{
    let further = place_path(alloc, path, place)?;
    Text::from_bytes(alloc, further.as_bytes())
}
