//! The lines of a round, in memory that serves each round.

ghost use Rattle.std.specs.Prelude.{◌≡◌, [], ◌+◌, ◌*◌, ◌^◌, ◌<◌, ◌≤◌, ◌++◌, decimal, length, take, OnOk};

use crate::cycle_lines::put_line;
use crate::labels::MoveTexts;
use std::alloc::Global;
use std::marker::Model;
use xm_model::{OutOfMemory, Wire};

/// Bytes of text that are appended line by line. A contract sees them, and how many fit with no growth, as it sees
/// a `List<u8>`. What was taken of the room is filled with zeros.
#[derive(Drop)]
pub struct Lines {
    bytes: Vec<u8>,
    end: usize,
}

impl Model for Lines {
    ghost use Rattle.std.specs.Prelude.{ℕ, ◌≤◌, length, take};
    ghost use Rattle.std.specs.Coded.{coded_ℕ};
    ghost use Rattle.xm_model.specs.ListView.{ListView, list_view_code};

    ghost Value = { ListView ℕ };

    ghost coded = { list_view_code coded_ℕ };

    ghost view = { λ it. record { items = take it.end it.bytes.items; room = length it.bytes.items } };

    ghost invariant = { λ it. it.end ≤ length it.bytes.items };
}

impl Lines {
    ghost use Rattle.std.specs.Prelude.{ℕ};
    ghost use Rattle.std.specs.List.{flat_map};
    ghost use Rattle.xm_model.specs.TextLines.{line};
    ghost use Rattle.xm_model.specs.Views.{signals_of};
    ghost use Rattle.xm_trace.specs.Inner.Labels.{AreReady, label_text, labelled_of, move_room};
    ghost use Rattle.xm_trace.specs.Inner.Table.{IsTable};
    ghost use Rattle.xm_trace.specs.Moves.{cycle_moves};
    ghost use Rattle.xm_trace.specs.Sums.{sum_at, sum_in};

    /// No lines. They take no memory, and later calls take theirs from `alloc`.
    pub fn new(alloc: Global) -> Lines
        ensures { result.items ≡ [] }
    {
        Lines {
            bytes: Vec::new(alloc),
            end: 0,
        }
    }

    /// Lends the bytes.
    pub fn as_bytes(&self) -> &[u8]
        ensures { result.now ≡ self.now.items }
    {
        &self.bytes.as_slice()[..self.end]
    }

    /// Takes the bytes out. The room stays.
    pub fn clear(&mut self)
        ensures items { self.new.items ≡ [] }
        ensures room { self.new.room ≡ self.old.room }
    {
        self.end = 0;
    }

    /// Makes room for so many bytes more. On refusal the bytes stay.
    pub(crate) fn reserve(&mut self, more: usize) -> Result<(), OutOfMemory>
        requires { more < 2 ^ 48 }
        ensures items { self.new.items ≡ self.old.items }
        ensures ok { OnOk result (length self.new.items + more ≤ self.new.room) }
    {
        let wanted = self.end + more;
        if self.bytes.len() < wanted {
            self.bytes.resize(wanted, 0)?;
        }
        Ok(())
    }

    /// Appends the line of the cycle, whose number has these digits, and counts its moves. There is room for it.
    pub(crate) fn put_line(
        &mut self,
        sums: &mut [u64],
        texts: &MoveTexts,
        colours: usize,
        cycle: u32,
        digits: &[u8],
        wires: &[Wire],
    )
        requires digits { digits.now ≡ decimal cycle }
        requires table { IsTable (length wires.now) colours sums.old }
        requires few { (c d : ℕ) → c < length wires.now → d < colours → sum_at sums.old colours c d < 2 ^ 32 }
        requires ready { AreReady texts.now }
        requires room { length self.old.items + (length digits.now + length wires.now * move_room texts.now + 1)
            ≤ self.old.room }
        ensures items { self.new.items ≡ self.old.items
            ++ line (decimal cycle ++ flat_map (label_text (labelled_of texts.now))
            (cycle_moves (signals_of wires.now) cycle (length wires.now))) }
        ensures sums { (c d : ℕ) → c < length wires.now → d < colours
            → sum_at sums.new colours c d
            ≡ sum_in (cycle_moves (signals_of wires.now) cycle (length wires.now)) c d + sum_at sums.old colours c d }
        ensures table { length sums.new ≡ length sums.old }
    {
        self.end = put_line(
            self.bytes.as_mut_slice(),
            self.end,
            sums,
            texts,
            colours,
            cycle,
            digits,
            wires,
        );
    }
}
