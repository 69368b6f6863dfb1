//! The places of names, looked up by the name.

ghost use Rattle.std.specs.Prelude.{◌≡◌, ℕ, List, IfOk, OnOk, Some, if◌then◌else◌};
ghost use Rattle.std.specs.HashMap.{get_by_text};
ghost use Rattle.std.specs.Str.{IsUtf8, bytes_eq};
ghost use Rattle.xm_model.specs.Naming.{texts_of};
ghost use Rattle.xm_proof_reader.specs.Tables.{IsTable};
ghost use Rattle.xm_proof_reader.specs.Known.{place_from};

use std::alloc::Global;
use std::collections::HashMap;
use xm_model::{OutOfMemory, Text};

/// Names, with the first place of each.
#[derive(Drop)]
pub struct NameTable<'a> {
    pub names: &'a [Text],
    places: HashMap<String, usize>,
    ghost exact: { IsTable (texts_of names.now) places },
}

/// Notes the place of a name.
fn note(
    alloc: Global,
    places: &mut HashMap<String, usize>,
    name: &Text,
    place: usize,
) -> Result<(), OutOfMemory>
    ensures { OnOk result ((q : List ℕ) → IsUtf8 q → get_by_text places.new q
        ≡ (if bytes_eq name.now.items q then Some place else get_by_text places.old q)) }
{
    // what is no text is never looked up
    let Ok(name) = std::str::from_utf8(name.as_bytes()) else {
        return Ok(());
    };
    places.insert(String::from_str(alloc, name)?, place)?;
    Ok(())
}

/// The first place of each name: later names are noted before earlier ones.
fn places_of(alloc: Global, names: &[Text]) -> Result<HashMap<String, usize>, OutOfMemory>
    ensures { IfOk result (λ places. IsTable (texts_of names.now) places) }
{
    let mut places = HashMap::new(alloc);
    for i in (0..names.len()).rev() {
        note(alloc, &mut places, &names[i], i)?;
    }
    Ok(places)
}

impl<'a> NameTable<'a> {
    pub fn new(alloc: Global, names: &'a [Text]) -> Result<NameTable<'a>, OutOfMemory>
        ensures { IfOk result (λ table. table.names.now ≡ names.now) }
    {
        let places = places_of(alloc, names)?;
        Ok(NameTable { names, places })
    }

    /// The first place of the name.
    pub fn place(&self, name: &str) -> Option<usize>
        ensures { result ≡ place_from 0 (texts_of self.now.names.now) name.now }
    {
        self.places.get(name).copied()
    }
}
