//! The packets of a queue in a ring of places.

ghost use Rattle.std.specs.Prelude.{◌≡◌, ◌+◌, ◌%◌, ◌<◌};

use std::alloc::Global;
use std::marker::Model;
use xm_model::OutOfMemory;

/// Packets in order, in a ring of places that never grows. A contract sees the packets, the oldest first, and how
/// many places there are, as it sees a `List<u8>`.
#[derive(Drop)]
pub struct Ring {
    places: Vec<u8>,
    head: usize,
    len: usize,
}

impl Model for Ring {
    ghost use Rattle.std.specs.Prelude.{ℕ};
    ghost use Rattle.std.specs.Coded.{coded_ℕ};
    ghost use Rattle.xm_model.specs.ListView.{ListView, list_view_code};

    ghost Value = { ListView ℕ };

    ghost coded = { list_view_code coded_ℕ };

    ghost use Rattle.xm_running.specs.Inner.Ringed.{IsRinged, packets_of};

    ghost view = { packets_of };

    ghost invariant = { IsRinged };
}

impl Ring {
    ghost use Rattle.std.specs.Prelude.{◌≡◌, ◌+◌, ◌%◌, ◌<◌, ◌≤◌, [], ◌∷◌, ◌++◌, drop, length, slice_get, IfOk};

    /// An empty ring with so many places, but with one at least. More than 2^32 are refused as if there were no
    /// memory for them.
    pub fn new(alloc: Global, places: usize) -> Result<Ring, OutOfMemory>
        ensures empty { IfOk result (λ ring. ring.items ≡ []) }
        ensures room { IfOk result (λ ring. places ≤ ring.room) }
    {
        if places > u32::MAX as usize {
            return Err(OutOfMemory);
        }
        let mut held = Vec::new(alloc);
        held.resize(places.max(1), 0)?;
        Ok(Ring {
            places: held,
            head: 0,
            len: 0,
        })
    }

    /// A ring with these packets, and with so many places, but with one at least.
    pub fn filled(alloc: Global, places: usize, packets: &[u8]) -> Result<Ring, OutOfMemory>
        requires { length packets.now ≤ places }
        ensures items { IfOk result (λ ring. ring.items ≡ packets.now) }
        ensures room { IfOk result (λ ring. places ≤ ring.room) }
    {
        let mut ring = Ring::new(alloc, places)?;
        for packet in packets {
            ring.push(*packet);
        }
        Ok(ring)
    }

    /// How many packets there are.
    pub fn len(&self) -> usize
        ensures { result ≡ length self.now.items }
    {
        self.len
    }

    /// The oldest packet.
    pub fn first(&self) -> Option<u8>
        ensures { result ≡ slice_get self.now.items 0 }
    {
        if self.len == 0 {
            return None;
        }
        Some(self.places[self.head])
    }

    /// Lets the oldest packet leave, if there is one.
    pub fn remove_first(&mut self)
        ensures items { self.new.items ≡ drop 1 self.old.items }
        ensures room { self.new.room ≡ self.old.room }
    {
        if self.len > 0 {
            self.head = wrapped(self.head + 1, self.places.len());
            self.len -= 1;
        }
    }

    /// Appends a packet, for which there is room.
    pub fn push(&mut self, packet: u8)
        requires { length self.old.items < self.old.room }
        ensures items { self.new.items ≡ self.old.items ++ packet ∷ [] }
        ensures room { self.new.room ≡ self.old.room }
    {
        let place = wrapped(self.head + self.len, self.places.len());
        self.places[place] = packet;
        self.len += 1;
    }
}

/// The place at this distance from the first, in a ring of so many places.
#[inline(always)]
fn wrapped(place: usize, places: usize) -> usize
    requires { place < places + places }
    ensures { result ≡ place % places }
{
    if place < places {
        place
    } else {
        place - places
    }
}
