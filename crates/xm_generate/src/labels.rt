//! The names of a line of stations.

ghost use Rattle.std.specs.Prelude.{◌≡◌, ◌+◌, ◌<◌, ◌≤◌, ◌∷◌, ◌++◌, [], IfOk, OnOk, codes, decimal};
ghost use Rattle.xm_model.specs.Naming.{naming_of, texts_of};
ghost use Rattle.xm_generate.specs.Generated as spec;

use std::alloc::Global;
use xm_model::{List, Names, OutOfMemory, Text};

/// A letter and a number.
fn label(alloc: Global, letter: u8, i: u32) -> Result<Text, OutOfMemory>
    ensures { IfOk result (λ text. text.items ≡ letter ∷ decimal i) }
{
    let mut text = Text::new(alloc);
    text.push_bytes(&[letter])?;
    text.push_number(i128::from(i))?;
    Ok(text)
}

/// Appends the names of one station.
fn push_labels(
    alloc: Global,
    names: &mut List<Text>,
    letters: &[u8],
    i: u32,
) -> Result<(), OutOfMemory>
    ensures { OnOk result (texts_of names.new.items ≡ texts_of names.old.items ++ spec.labels letters.now i) }
{
    for letter in letters {
        names.push(label(alloc, *letter, i)?)?;
    }
    Ok(())
}

/// Appends the names of so many stations from station `i` on, and of the last.
fn push_labels_from(
    alloc: Global,
    names: &mut List<Text>,
    letters: &[u8],
    last: &[u8],
    n: u32,
    i: u32,
) -> Result<(), OutOfMemory>
    requires { n + i ≤ 600 }
    ensures { OnOk result (texts_of names.new.items
        ≡ texts_of names.old.items ++ spec.labels_from letters.now last.now n i) }
{
    for k in i..n + i {
        push_labels(alloc, names, letters, k)?;
    }
    push_labels(alloc, names, last, n + i)
}

/// The names of the line.
pub fn names(alloc: Global, size: u32) -> Result<Names, OutOfMemory>
    requires low { 2 ≤ size }
    requires high { size ≤ 600 }
    ensures { IfOk result (λ names. naming_of names ≡ spec.names size) }
{
    let mut prims = List::new(alloc);
    push_labels(alloc, &mut prims, b"ST", 0)?;
    push_labels_from(alloc, &mut prims, b"XKSIMT", b"K", size - 2, 1)?;
    let mut channels = List::new(alloc);
    push_labels(alloc, &mut channels, b"st", 0)?;
    push_labels_from(alloc, &mut channels, b"ehsjmt", b"", size - 2, 1)?;
    let mut colours = List::new(alloc);
    push_labels_from(alloc, &mut colours, b"d", b"", 8, 0)?;
    Ok(Names {
        prims,
        channels,
        colours,
    })
}
