//! Slots: cells whose packets lie in rings.

ghost use Rattle.std.specs.Prelude.{◌≡◌, ◌+◌, ◌≤◌, length};
ghost use Rattle.std.specs.Option.{option_to_list};
ghost use Rattle.xm_model.specs.Next.{joined, left};

use crate::has_cell::{ChangesCell, HasCell};
use crate::ring::Ring;
use std::alloc::Global;
use std::marker::Model;
use xm_model::{Cell, List, OutOfMemory, Side};

/// What a slot keeps.
#[derive(Drop)]
enum Kept {
    Packets(Ring),
    Pending(Option<u8>),
    Held(bool),
    Pref(Side),
    Nothing,
}

/// The cell of a primitive, as the cycles keep it. A contract sees the cell.
#[derive(Drop)]
pub struct Slot {
    kept: Kept,
}

impl Model for Slot {
    ghost use Rattle.xm_model.specs.declared.state.Cell.{Cell};

    ghost Value = { Cell };

    ghost use Rattle.xm_running.specs.Inner.Slots.{cell_of};

    ghost view = { λ slot. cell_of slot.kept };
}

impl Slot {
    ghost use Rattle.std.specs.Prelude.{◌≡◌, ◌≤◌, length, IfOk};
    ghost use Rattle.xm_model.specs.Component.{content_of};
    ghost use Rattle.xm_model.specs.Signals.{packets_in};
    ghost use Rattle.xm_running.specs.Passing.{HasPlaces};

    /// A slot with this cell, and with so many places for the packets of a queue.
    pub fn from_cell(alloc: Global, cell: &Cell, places: usize) -> Result<Slot, OutOfMemory>
        requires { length (packets_in (content_of cell.now)) ≤ places }
        ensures content { IfOk result (λ slot. content_of slot ≡ content_of cell.now) }
        ensures room { IfOk result (HasPlaces places) }
    {
        let kept = match cell {
            Cell::Packets(packets) => {
                Kept::Packets(Ring::filled(alloc, places, packets.as_slice())?)
            }
            Cell::Pending(colour) => Kept::Pending(*colour),
            Cell::Held(held) => Kept::Held(*held),
            Cell::Pref(side) => Kept::Pref(*side),
            Cell::Nothing => Kept::Nothing,
        };
        Ok(Slot { kept })
    }
}

/// The state between two cycles, as the cycles keep it: one slot for each primitive, by number.
#[derive(Drop)]
pub struct Running {
    pub slots: List<Slot>,
}

impl HasCell for Slot {
    ghost cell = { λ slot. slot };

    fn pending(&self) -> Option<u8> {
        match &self.kept {
            Kept::Pending(colour) => *colour,
            _ => None,
        }
    }

    fn is_held(&self) -> bool {
        match &self.kept {
            Kept::Held(held) => *held,
            _ => false,
        }
    }

    fn oldest(&self) -> Option<u8> {
        match &self.kept {
            Kept::Packets(packets) => packets.first(),
            _ => None,
        }
    }

    fn count(&self) -> usize {
        match &self.kept {
            Kept::Packets(packets) => packets.len(),
            _ => 0,
        }
    }

    fn preferred(&self) -> Side {
        match &self.kept {
            Kept::Pref(side) => *side,
            _ => Side::A,
        }
    }
}

fn pass_ring(packets: &mut Ring, leaves: Option<u8>, comes: Option<u8>)
    requires fits { length packets.old.items + length (option_to_list comes) ≤ packets.old.room }
    ensures items { packets.new.items ≡ joined (left packets.old.items leaves) comes }
    ensures room { packets.new.room ≡ packets.old.room }
{
    if leaves.is_some() {
        packets.remove_first();
    }
    if let Some(packet) = comes {
        packets.push(packet);
    }
}

impl ChangesCell for Slot {
    fn pass(&mut self, leaves: Option<u8>, comes: Option<u8>) {
        if let Kept::Packets(packets) = &mut self.kept {
            pass_ring(packets, leaves, comes);
        }
    }

    // In place, a slot is not dropped, which a slot with packets would have to be.
    fn put_pending(&mut self, pending: Option<u8>) {
        match &mut self.kept {
            Kept::Pending(old) => *old = pending,
            _ => self.kept = Kept::Pending(pending),
        }
    }

    fn put_held(&mut self, held: bool) {
        match &mut self.kept {
            Kept::Held(old) => *old = held,
            _ => self.kept = Kept::Held(held),
        }
    }

    fn put_preferred(&mut self, side: Side) {
        match &mut self.kept {
            Kept::Pref(old) => *old = side,
            _ => self.kept = Kept::Pref(side),
        }
    }

    fn put_nothing(&mut self) {
        match &self.kept {
            Kept::Nothing => {}
            _ => self.kept = Kept::Nothing,
        }
    }
}
