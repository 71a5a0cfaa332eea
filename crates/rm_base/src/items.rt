//! Lists that contracts see as lists, and lists that tell besides for how many items they have room.
ghost use Rattle.std.specs.Prelude.{◌≡◌, [], ◌∷◌, ◌++◌, ◌≤◌, ◌<◌, ◌+◌, length, IsTrue, ◌↔◌, slice_get, OnOk, OnErr};
ghost use Rattle.std.specs.Prelude.{IsOk, List};
ghost use Rattle.std.specs.Option.{option_copied};
ghost use Rattle.rm_base.specs.Numbered.{numbered};

use crate::failures::Memory;
use std::alloc::Global;
use std::marker::Model;

/// A list of items, in the order in which they were pushed.
#[derive(Debug, Drop)]
pub struct Items<T> {
    items: Vec<T>,
}

/// Message numbers as a peer wrote them: in any order, and with repeats.
pub type Numbers = Items<u64>;

impl<T> Model for Items<T> {
    ghost Value = { List T };

    ghost view = { λ a. a.items.items };
}

impl<T> Items<T> {
    /// The empty list. It takes no memory.
    pub fn new(alloc: Global) -> Self
        ensures { result ≡ [] }
    {
        Items {
            items: Vec::new(alloc),
        }
    }

    /// How many items there are.
    pub fn len(&self) -> usize
        ensures { result ≡ length self.now }
    {
        self.items.len()
    }

    /// Whether there are none.
    pub fn is_empty(&self) -> bool
        ensures { IsTrue result ↔ (self.now ≡ []) }
    {
        self.items.is_empty()
    }

    /// The item at a place, counted from 0.
    pub fn get(&self, i: usize) -> Option<&T>
        ensures { option_copied result ≡ slice_get self.now i }
    {
        self.items.get(i)
    }

    /// The item with a number, counted from 1.
    pub fn item(&self, number: u64) -> Option<&T>
        ensures { option_copied result ≡ numbered self.now number }
    {
        numbered(self.items.as_slice(), number)
    }

    /// All items.
    pub fn as_slice(&self) -> &[T]
        ensures { result.now ≡ self.now }
    {
        self.items.as_slice()
    }

    /// Puts an item at the end.
    pub fn push(&mut self, item: T) -> Result<(), Memory>
    where
        T: Drop,
        ensures ok { OnOk result (self.new ≡ self.old ++ item ∷ []) }
        ensures err { OnErr result (self.new ≡ self.old) }
    {
        self.items.push(item)?;
        Ok(())
    }

    /// The same items as a vector. It takes no memory.
    pub fn into_vec(self) -> Vec<T>
        ensures { result.items ≡ self }
    {
        self.items
    }

    /// A vector's items. It takes no memory.
    pub fn from_vec(items: Vec<T>) -> Self
        ensures { result ≡ items.items }
    {
        Items { items }
    }
}

/// The item with a number, counted from 1, as the messages of a sequence are numbered. There is none at 0 and past the
/// end.
pub fn numbered<T>(items: &[T], number: u64) -> Option<&T>
    ensures { option_copied result ≡ numbered items.now number }
{
    if number == 0 {
        return None;
    }
    items.get((number - 1) as usize)
}

/// A list of items that can make room for more before they come. Contracts see the items as its facts, and beside them
/// for how many more it has room.
#[derive(Debug, Drop)]
pub struct RoomyItems<T> {
    items: Vec<T>,
}

impl<T> Model for RoomyItems<T> {
    ghost use Rattle.std.specs.Prelude.{◌-◌, vec_len, vec_capacity};
    ghost use Rattle.rm_base.specs.Roomy.{Roomy};

    ghost Value = { Roomy T };

    ghost view = { λ a. record { facts = a.items.items; spare = vec_capacity a.items - vec_len a.items } };
}

impl<T> RoomyItems<T> {
    /// The empty list. It takes no memory.
    pub fn new(alloc: Global) -> Self
        ensures { result.facts ≡ [] }
    {
        RoomyItems {
            items: Vec::new(alloc),
        }
    }

    /// How many items there are.
    pub fn len(&self) -> usize
        ensures { result ≡ length self.now.facts }
    {
        self.items.len()
    }

    /// Whether there are none.
    pub fn is_empty(&self) -> bool
        ensures { IsTrue result ↔ (self.now.facts ≡ []) }
    {
        self.items.is_empty()
    }

    /// The item at a place, counted from 0.
    pub fn get(&self, i: usize) -> Option<&T>
        ensures { option_copied result ≡ slice_get self.now.facts i }
    {
        self.items.get(i)
    }

    /// The item with a number, counted from 1.
    pub fn item(&self, number: u64) -> Option<&T>
        ensures { option_copied result ≡ numbered self.now.facts number }
    {
        numbered(self.items.as_slice(), number)
    }

    /// All items.
    pub fn as_slice(&self) -> &[T]
        ensures { result.now ≡ self.now.facts }
    {
        self.items.as_slice()
    }

    /// Puts an item at the end. Where there is room for one, it takes no memory.
    /// - `spare`, `room_stays`: it takes at most one of what is spare, and after want of memory nothing less is spare.
    pub fn push(&mut self, item: T) -> Result<(), Memory>
    where
        T: Drop,
        ensures ok { OnOk result (self.new.facts ≡ self.old.facts ++ item ∷ []) }
        ensures err { OnErr result (self.new.facts ≡ self.old.facts) }
        ensures room_stays { OnErr result (self.old.spare ≤ self.new.spare) }
        ensures ready { 0 < self.old.spare → IsOk result }
        ensures spare { self.old.spare ≤ self.new.spare + 1 }
    {
        self.items.push(item)?;
        Ok(())
    }

    /// Makes room, so that the next `more` pushes take no memory.
    pub fn reserve(&mut self, more: usize) -> Result<(), Memory>
        ensures kept { self.new.facts ≡ self.old.facts }
        ensures enough { OnOk result (more ≤ self.new.spare) }
        ensures spare { self.old.spare ≤ self.new.spare }
        ensures ready { more ≤ self.old.spare → IsOk result }
    {
        self.items.reserve(more)?;
        Ok(())
    }

    /// The same items as a vector. It takes no memory.
    pub fn into_vec(self) -> Vec<T>
        ensures { result.items ≡ self.facts }
    {
        self.items
    }

    /// A vector's items. It takes no memory.
    pub fn from_vec(items: Vec<T>) -> Self
        ensures { result.facts ≡ items.items }
    {
        RoomyItems { items }
    }
}
