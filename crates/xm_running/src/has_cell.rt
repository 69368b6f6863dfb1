//! What holds the cell of a primitive, in whatever form.

ghost use Rattle.std.specs.Prelude.{◌≡◌, ◌+◌, ◌≤◌, length, slice_get};
ghost use Rattle.std.specs.Option.{option_to_list};
ghost use Rattle.xm_model.specs.Component.{content_of};
ghost use Rattle.xm_model.specs.Next.{joined, left};
ghost use Rattle.xm_model.specs.Signals.{held_in, packets_in, pending_in, pref_in};
ghost use Rattle.xm_model.specs.declared.state.Cell.{Cell as CellView};
ghost use Rattle.xm_model.specs.declared.state.Cell.TheVariants as contents;
ghost use Rattle.xm_running.specs.Passing.{HasRoom, passed};

use xm_model::{Cell, List, Side};

/// What holds a cell. What is asked of a cell of another kind has a default.
pub trait HasCell {
    ghost cell: { Self → CellView };

    /// The pending colour of a source.
    fn pending(&self) -> Option<u8>
        ensures { result ≡ pending_in (content_of (cell self.now)) };

    /// Whether a sink is held ready.
    fn is_held(&self) -> bool
        ensures { result ≡ held_in (content_of (cell self.now)) };

    /// The oldest packet of a queue.
    fn oldest(&self) -> Option<u8>
        ensures { result ≡ slice_get (packets_in (content_of (cell self.now))) 0 };

    /// How many packets a queue holds.
    fn count(&self) -> usize
        ensures { result ≡ length (packets_in (content_of (cell self.now))) };

    /// The side that a merge prefers.
    fn preferred(&self) -> Side
        ensures { result ≡ pref_in (content_of (cell self.now)) };
}

/// What holds a cell that goes on in place.
pub trait ChangesCell: HasCell {
    /// Lets the oldest packet of a queue leave, if one leaves, and then takes the one that comes. Its room stays.
    fn pass(&mut self, leaves: Option<u8>, comes: Option<u8>)
        requires { HasRoom (Self.cell self.old) comes }
        ensures { Self.cell self.new ≡ passed (Self.cell self.old) leaves comes };

    /// Puts the cell of a source.
    fn put_pending(&mut self, pending: Option<u8>)
        ensures { Self.cell self.new ≡ contents.Pending pending };

    /// Puts the cell of a sink.
    fn put_held(&mut self, held: bool)
        ensures { Self.cell self.new ≡ contents.Held held };

    /// Puts the cell of a merge.
    fn put_preferred(&mut self, side: Side)
        ensures { Self.cell self.new ≡ contents.Pref side };

    /// Puts the cell of a primitive that holds nothing.
    fn put_nothing(&mut self)
        ensures { Self.cell self.new ≡ contents.Nothing };
}

impl HasCell for Cell {
    ghost cell = { λ x. x };

    fn pending(&self) -> Option<u8> {
        match self {
            Cell::Pending(colour) => *colour,
            _ => None,
        }
    }

    fn is_held(&self) -> bool {
        match self {
            Cell::Held(held) => *held,
            _ => false,
        }
    }

    fn oldest(&self) -> Option<u8> {
        match self {
            Cell::Packets(packets) => packets.as_slice().first().copied(),
            _ => None,
        }
    }

    fn count(&self) -> usize {
        match self {
            Cell::Packets(packets) => packets.len(),
            _ => 0,
        }
    }

    fn preferred(&self) -> Side {
        match self {
            Cell::Pref(side) => *side,
            _ => Side::A,
        }
    }
}

fn take_head(packets: &mut List<u8>, leaves: Option<u8>)
    ensures items { packets.new.items ≡ left packets.old.items leaves }
    ensures room { packets.new.room ≡ packets.old.room }
{
    if leaves.is_some() && packets.len() > 0 {
        packets.remove(0);
    }
}

fn append(packets: &mut List<u8>, comes: Option<u8>)
    requires { length packets.old.items + length (option_to_list comes) ≤ packets.old.room }
    ensures items { packets.new.items ≡ joined packets.old.items comes }
    ensures room { packets.new.room ≡ packets.old.room }
{
    if let Some(colour) = comes {
        let _ = packets.push(colour);
    }
}

/// Lets the oldest packet of a queue leave, if one leaves, and appends the one that comes.
pub fn advance_queue(packets: &mut List<u8>, leaves: Option<u8>, comes: Option<u8>)
    requires fits { length packets.old.items + length (option_to_list comes) ≤ packets.old.room }
    ensures items { packets.new.items ≡ joined (left packets.old.items leaves) comes }
    ensures room { packets.new.room ≡ packets.old.room }
{
    match (leaves, comes) {
        (None, None) => {}
        _ => {
            take_head(packets, leaves);
            append(packets, comes);
        }
    }
}

impl ChangesCell for Cell {
    fn pass(&mut self, leaves: Option<u8>, comes: Option<u8>) {
        if let Cell::Packets(packets) = self {
            advance_queue(packets, leaves, comes);
        }
    }

    // In place, a cell is not dropped, which a cell with packets would have to be.
    fn put_pending(&mut self, pending: Option<u8>) {
        match self {
            Cell::Pending(old) => *old = pending,
            _ => *self = Cell::Pending(pending),
        }
    }

    fn put_held(&mut self, held: bool) {
        match self {
            Cell::Held(old) => *old = held,
            _ => *self = Cell::Held(held),
        }
    }

    fn put_preferred(&mut self, side: Side) {
        match self {
            Cell::Pref(old) => *old = side,
            _ => *self = Cell::Pref(side),
        }
    }

    fn put_nothing(&mut self) {
        match self {
            Cell::Nothing => {}
            _ => *self = Cell::Nothing,
        }
    }
}
