//! Names of channels and colours.

use std::alloc::Global;
use xm_model::{List, Names, OutOfMemory, Text};

/// Texts, one for each word.
pub fn texts_of(alloc: Global, words: &[&str]) -> Result<List<Text>, OutOfMemory> {
    let mut texts = List::new(alloc);
    for word in words {
        texts.push(Text::from_bytes(alloc, word.as_bytes())?)?;
    }
    Ok(texts)
}

/// Names of these channels and colours, and of no primitives.
pub fn names_of(alloc: Global, channels: &[&str], colours: &[&str]) -> Result<Names, OutOfMemory> {
    let channels = texts_of(alloc, channels)?;
    let colours = texts_of(alloc, colours)?;
    Ok(Names {
        prims: List::new(alloc),
        channels,
        colours,
    })
}
