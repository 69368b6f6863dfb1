//! Bytes of text, appended piece by piece.

ghost use Rattle.std.specs.Prelude.{◌≡◌, ◌+◌, ◌≤◌, [], ◌++◌, length, IfOk, IsOk, OnOk, OnErr};
ghost use Rattle.std.specs.Fmt.{signed_decimal};
ghost use Rattle.std.specs.Vec.{vec_capacity};

use crate::memory::OutOfMemory;
use std::alloc::Global;
use std::marker::Model;

/// Bytes of text. A contract sees them, and their room, as it sees a `List<u8>`.
#[derive(Drop)]
pub struct Text {
    bytes: Vec<u8>,
}

impl Model for Text {
    ghost use Rattle.std.specs.Prelude.{ℕ};
    ghost use Rattle.std.specs.Coded.{coded_ℕ};
    ghost use Rattle.xm_model.specs.ListView.{ListView, list_view_code};

    ghost Value = { ListView ℕ };

    ghost coded = { list_view_code coded_ℕ };

    ghost use Rattle.std.specs.Vec.{vec_capacity};

    ghost view = { λ t. record { items = t.bytes.items; room = vec_capacity t.bytes } };
}

impl Text {
    /// An empty text. It takes no memory, and later calls take theirs from `alloc`.
    pub fn new(alloc: Global) -> Text
        ensures items { result.items ≡ [] }
        ensures room { result.room ≡ 0 }
    {
        Text {
            bytes: Vec::new(alloc),
        }
    }

    /// A text of these bytes.
    pub fn from_bytes(alloc: Global, bytes: &[u8]) -> Result<Text, OutOfMemory>
        ensures { IfOk result (λ text. text.items ≡ bytes.now) }
    {
        let mut text = Text::new(alloc);
        text.push_bytes(bytes)?;
        Ok(text)
    }

    /// Lends the bytes.
    pub fn as_bytes(&self) -> &[u8]
        ensures { result.now ≡ self.now.items }
    {
        self.bytes.as_slice()
    }

    /// Appends the bytes. Within the room it succeeds and takes no memory. On refusal the text and its room stay.
    pub fn push_bytes(&mut self, bytes: &[u8]) -> Result<(), OutOfMemory>
        ensures ok { OnOk result (self.new.items ≡ self.old.items ++ bytes.now) }
        ensures err { OnErr result (self.new ≡ self.old) }
        ensures grows { self.old.room ≤ self.new.room }
        ensures within { length self.old.items + length bytes.now ≤ self.old.room
            → IsOk result × (self.new.room ≡ self.old.room) }
    {
        if bytes.len() > self.bytes.capacity() - self.bytes.len() {
            self.bytes.reserve(bytes.len())?;
        }
        append_within(&mut self.bytes, bytes);
        Ok(())
    }

    /// Appends the decimal text of `number`: digits without leading zeros, and `-` first where it is
    /// negative. On refusal the text and its room stay; within the room its own room stays.
    pub fn push_number(&mut self, number: i128) -> Result<(), OutOfMemory>
        ensures ok { OnOk result (self.new.items ≡ self.old.items ++ signed_decimal number) }
        ensures err { OnErr result (self.new ≡ self.old) }
        ensures grows { self.old.room ≤ self.new.room }
        ensures within { length self.old.items + length (signed_decimal number) ≤ self.old.room
            → self.new.room ≡ self.old.room }
    {
        let digits = number.to_string(*self.bytes.allocator())?;
        self.push_bytes(digits.as_bytes())
    }
}

/// Appends the bytes, for which there is room. The room stays.
fn append_within(held: &mut Vec<u8>, bytes: &[u8])
    requires { length held.old.items + length bytes.now ≤ vec_capacity held.old }
    ensures items { held.new.items ≡ held.old.items ++ bytes.now }
    ensures room { vec_capacity held.new ≡ vec_capacity held.old }
{
    for &byte in bytes {
        held.push_reserved(byte);
    }
}
