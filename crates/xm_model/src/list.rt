//! A list over std's `Vec` whose contracts tell its items and its room.

ghost use Rattle.std.specs.Borrow.{sem};
ghost use Rattle.std.specs.Prelude.{◌≡◌, ◌+◌, ◌<◌, ◌≤◌, [], ◌∷◌, ◌++◌, ◌↔◌, length, take, remove, replicate, slice_get, IsTrue, IsOk, IfOk, OnOk, OnErr};

use crate::memory::OutOfMemory;
use std::alloc::Global;
use std::marker::Model;

/// A list in order. A contract sees its items and its room: how many items fit in all without growth.
#[derive(Drop)]
pub struct List<T> {
    held: Vec<T>,
}

impl<T> Model for List<T> {
    ghost use Rattle.xm_model.specs.ListView.{ListView, list_view_code};

    ghost Value = { ListView T };

    ghost coded = { list_view_code T.code };

    ghost use Rattle.std.specs.Vec.{vec_capacity};

    ghost view = { λ l. record { items = l.held.items; room = vec_capacity l.held } };
}

impl<T> List<T> {
    ghost use Rattle.xm_model.specs.Lending.{lends_items};

    /// An empty list. It takes no memory, and later calls take theirs from `alloc`.
    pub fn new(alloc: Global) -> List<T>
        ensures items { result.items ≡ [] }
        ensures room { result.room ≡ 0 }
    {
        List {
            held: Vec::new(alloc),
        }
    }

    /// How many items there are.
    pub fn len(&self) -> usize
        ensures { result ≡ length self.now.items }
    {
        self.as_slice().len()
    }

    pub fn is_empty(&self) -> bool
        ensures { IsTrue result ↔ (length self.now.items ≡ 0) }
    {
        self.held.is_empty()
    }

    /// Lends the items.
    pub fn as_slice(&self) -> &[T]
        ensures { result.now ≡ self.now.items }
    {
        self.held.as_slice()
    }

    /// Lends the items for writing. The length and the room stay, and no memory is taken.
    pub fn as_mut_slice(&mut self) -> &mut [T]
        ensures* writes_back { sem 𝓛 (lends_items T.row self.entry result) }
        ensures value { result.now ≡ self.old.items }
    {
        self.held.as_mut_slice()
    }

    /// Makes room for `more` further items. On refusal the list and its room stay.
    pub fn reserve(&mut self, more: u32) -> Result<(), OutOfMemory>
        ensures items { self.new.items ≡ self.old.items }
        ensures ok { OnOk result (length self.new.items + more ≤ self.new.room) }
        ensures grows { self.old.room ≤ self.new.room }
        ensures err { OnErr result (self.new ≡ self.old) }
        ensures within { length self.old.items + more ≤ self.old.room → IsOk result × (self.new ≡ self.old) }
    {
        if more as usize <= self.held.capacity() - self.held.len() {
            return Ok(());
        }
        self.held.reserve(more as usize)?;
        Ok(())
    }

    /// Takes out the item at this place, counted from 0; the later items close up, and the room stays.
    pub fn remove(&mut self, place: u32) -> T
        requires { place < length self.old.items }
        ensures item { slice_get self.old.items place ≡ Some result }
        ensures items { self.new.items ≡ remove self.old.items place }
        ensures room { self.new.room ≡ self.old.room }
    {
        self.held.remove(place as usize)
    }
}

impl<T: Drop> List<T> {
    /// Appends the item, in time that does not grow with the list but for a growth of the room. Within the
    /// room it succeeds and takes no memory. On refusal the item is dropped, and the list and its room stay.
    pub fn push(&mut self, item: T) -> Result<(), OutOfMemory>
        ensures ok { OnOk result (self.new.items ≡ self.old.items ++ item ∷ []) }
        ensures err { OnErr result (self.new ≡ self.old) }
        ensures grows { self.old.room ≤ self.new.room }
        ensures within { length self.old.items < self.old.room → IsOk result × (self.new.room ≡ self.old.room) }
    {
        if self.held.len() < self.held.capacity() {
            self.held.push_reserved(item);
            return Ok(());
        }
        self.held.reserve(1)?;
        self.held.push_reserved(item);
        Ok(())
    }

    /// Keeps the first `count` items, or all where there are fewer. The room stays.
    pub fn truncate(&mut self, count: u32)
        ensures items { self.new.items ≡ take count self.old.items }
        ensures room { self.new.room ≡ self.old.room }
    {
        self.held.truncate(count as usize);
    }
}

impl<T: Copy> List<T> {
    /// A list of `count` items, each equal to `value`.
    pub fn filled(alloc: Global, value: T, count: u32) -> Result<List<T>, OutOfMemory>
        ensures { IfOk result (λ list. list.items ≡ replicate count value) }
    {
        let mut held = Vec::new(alloc);
        held.resize(count as usize, value)?;
        Ok(List { held })
    }
}
