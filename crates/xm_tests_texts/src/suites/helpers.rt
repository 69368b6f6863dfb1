//! Texts of pieces, texts that are just what is expected, the words of a line, and their status.

use std::alloc::Global;
use xm_commands::{plain, starts_workers};
use xm_io::{MemSink, Source, Words};
use xm_model::{List, OutOfMemory, Text};

/// The pieces, one behind another.
pub fn joined(alloc: Global, pieces: &[&str]) -> Result<Text, OutOfMemory> {
    let mut text = Text::new(alloc);
    for piece in pieces {
        text.push_bytes(piece.as_bytes())?;
    }
    Ok(text)
}

/// Whether the text was made, and is just this.
pub fn is_text(text: Result<Text, OutOfMemory>, expected: &str) -> bool {
    text.is_ok_and(|text| text.as_bytes() == expected.as_bytes())
}

/// The words of a line, which stand apart by spaces.
pub fn words_in(alloc: Global, line: &str) -> Result<List<Text>, OutOfMemory> {
    let mut words = List::new(alloc);
    for word in line.split_ascii_whitespace() {
        words.push(Text::from_bytes(alloc, word.as_bytes())?)?;
    }
    Ok(words)
}

/// The status for words of which the first is neither `sim` nor `demo`; there is none for others.
pub fn plain_status<S: Source>(
    alloc: Global,
    words: &Words,
    source: &mut S,
    out: &mut MemSink,
    err: &mut MemSink,
) -> Option<u8> {
    if starts_workers(words) {
        return None;
    }
    Some(plain(alloc, words, source, out, err))
}
