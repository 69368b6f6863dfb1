//! Pieces that several texts are made of.

ghost use Rattle.std.specs.Prelude.{◌≡◌, ◌++◌, decimal, OnOk};
ghost use Rattle.xm_model.specs.TextLines.{name_at};
ghost use Rattle.xm_model.specs.Naming.{texts_of};
ghost use Rattle.xm_report.specs.Check.{count_line};

use xm_model::{Names, OutOfMemory, Text, name_of};

/// The names of a net, and the queue pairs of which a text tells.
#[derive(Clone, Copy)]
pub struct Listed<'a> {
    pub names: &'a Names,
    pub pairs: &'a [(u32, u8)],
}

/// Appends the name with this number.
pub fn push_name(text: &mut Text, names: &[Text], i: usize) -> Result<(), OutOfMemory>
    ensures { OnOk result (text.new.items ≡ text.old.items ++ name_at (texts_of names.now) i) }
{
    text.push_bytes(name_of(names, i))
}

/// Appends a number in decimal.
pub fn push_count(text: &mut Text, n: u64) -> Result<(), OutOfMemory>
    ensures { OnOk result (text.new.items ≡ text.old.items ++ decimal n) }
{
    text.push_number(i128::from(n))
}

/// Appends a line of a word and a number.
pub fn push_line(text: &mut Text, word: &[u8], n: u64) -> Result<(), OutOfMemory>
    ensures { OnOk result (text.new.items ≡ text.old.items ++ count_line word.now n) }
{
    text.push_bytes(word)?;
    text.push_bytes(b" ")?;
    push_count(text, n)?;
    text.push_bytes(b"\n")
}
