//! The messages of a sequence in the order in which they came, with their places by number.
ghost use Rattle.std.specs.Prelude.{◌≡◌, ◌+◌, ◌<◌, ◌≤◌, [], ◌∷◌, ◌++◌, false, length, take, slice_get};
ghost use Rattle.std.specs.Prelude.{IsOk, OnOk, OnErr, vec_capacity};
ghost use Rattle.std.specs.Option.{option_copied};
ghost use Rattle.rm_base.specs.Message.{max_number};
ghost use Rattle.rm_base.specs.NumberSet.{IsRising, has_number};
ghost use Rattle.rm_sides.specs.Destination.Messages.{AreOnce, above, by_number, numbers_of, contents_of, without};
ghost use Rattle.rm_sides.specs.Destination.Kept.{numbers_at, GoesAt, IsSorting};

use crate::ranges::RangeSet;
use rm_base::{Memory, Payload};
use std::alloc::Global;
use std::marker::Model;

/// Where the message with a number stands among those that came.
#[derive(Clone, Copy, Debug)]
pub(crate) struct Place {
    pub number: u64,
    pub at: usize,
}

/// Messages, each held once: in the order in which they came, and their places by rising number.
#[derive(Debug, Drop)]
pub(crate) struct Arrivals {
    came: Vec<(u64, Payload)>,
    places: Vec<Place>,
}

impl Model for Arrivals {
    ghost use Rattle.std.specs.Prelude.{◌-◌, min, vec_len, vec_capacity};
    ghost use Rattle.rm_sides.specs.Destination.Kept.{Came, IsSorting};

    ghost Value = { Came };

    ghost view = { λ a. record {
      messages = a.came.items;
      spare = min (vec_capacity a.came - vec_len a.came) (vec_capacity a.places - vec_len a.places);
    } };

    ghost invariant = { λ a. IsSorting a.came.items a.places.items };
}

impl Arrivals {
    /// No messages. It takes no memory.
    pub fn new(alloc: Global) -> Self
        ensures { result.messages ≡ [] }
    {
        Arrivals {
            came: Vec::new(alloc),
            places: Vec::new(alloc),
        }
    }

    /// The messages in the order in which they came.
    pub fn as_slice(&self) -> &[(u64, Payload)]
        ensures { result.now ≡ self.now.messages }
    {
        self.came.as_slice()
    }

    /// How many numbers came. Memory holds fewer than there are message numbers.
    pub fn len(&self) -> usize
        ensures count { result ≡ length (by_number self.now.messages) }
        ensures few { result < max_number }
    {
        self.places.as_slice().len()
    }

    /// What the message at a place by rising number carries, counted from 0.
    pub fn nth(&self, i: usize) -> Option<&Payload>
        ensures { option_copied result ≡ slice_get (contents_of (by_number self.now.messages)) i }
    {
        if i >= self.places.len() {
            return None;
        }
        Some(&self.came[self.places[i].at].1)
    }

    /// How many messages there are. Memory holds fewer than there are message numbers.
    pub fn count(&self) -> usize
        ensures count { result ≡ length self.now.messages }
        ensures few { result < max_number }
    {
        self.came.as_slice().len()
    }

    /// What the message at a place in the order in which they came carries, counted from 0.
    pub fn came_at(&self, i: usize) -> Option<&Payload>
        ensures { option_copied result ≡ slice_get (contents_of self.now.messages) i }
    {
        if i >= self.came.len() {
            return None;
        }
        Some(&self.came[i].1)
    }

    /// Whether a number is that of one of so many messages that came first.
    pub fn is_early(&self, number: u64, count: usize) -> bool
        ensures { result ≡ has_number (numbers_of (take count self.now.messages)) number }
    {
        let here = place_of(&self.places, number);
        if here >= self.places.len() {
            return false;
        }
        let found = self.places[here];
        if found.number != number {
            return false;
        }
        found.at < count
    }

    /// Adds a message with a new number. Where there is room for one, it takes no memory. It moves the places of
    /// greater numbers alone, of which a window has few.
    pub fn add(&mut self, number: u64, payload: Payload) -> Result<(), Memory>
        requires from_one { 0 < number }
        requires is_new { has_number (numbers_of self.old.messages) number ≡ false }
        ensures ok { OnOk result (self.new.messages ≡ self.old.messages ++ (number, payload) ∷ []) }
        ensures err { OnErr result (self.new.messages ≡ self.old.messages) }
        ensures err_spare { OnErr result (self.old.spare ≤ self.new.spare) }
        ensures ready { 0 < self.old.spare → IsOk result }
        ensures spare { self.old.spare ≤ self.new.spare + 1 }
    {
        let place = place_of(&self.places, number);
        let at = self.came.len();
        self.came.reserve(1)?;
        self.places.reserve(1)?;
        match self.places.insert(place, Place { number, at }) {
            Ok(()) => {}
            Err(_) => unreachable!(),
        }
        self.came.push_reserved((number, payload));
        Ok(())
    }

    /// Gives up the messages with numbers up to this one. It takes no memory.
    pub fn forget(&mut self, upto: u64)
        ensures { self.new.messages ≡ above upto self.old.messages }
    {
        self.came.retain(|message| upto < message.0);
        self.places.clear();
        place_all(self.came.as_slice(), &mut self.places);
    }

    /// Gives up the messages with these numbers. It takes no memory.
    pub fn forget_all(&mut self, gone: &RangeSet)
        ensures { self.new.messages ≡ without gone.now.ranges self.old.messages }
    {
        self.came.retain(|message| !gone.has(message.0));
        self.places.clear();
        place_all(self.came.as_slice(), &mut self.places);
    }

    /// Makes room, so that the next `more` calls of `add` take no memory.
    pub fn reserve(&mut self, more: usize) -> Result<(), Memory>
        ensures kept { self.new.messages ≡ self.old.messages }
        ensures enough { OnOk result (more ≤ self.new.spare) }
        ensures spare { self.old.spare ≤ self.new.spare }
        ensures ready { more ≤ self.old.spare → IsOk result }
    {
        self.came.reserve(more)?;
        self.places.reserve(more)?;
        Ok(())
    }
}

/// Puts the places of all messages in. It takes no memory.
fn place_all(came: &[(u64, Payload)], places: &mut Vec<Place>)
    requires none { places.old.items ≡ [] }
    requires room { length came.now ≤ vec_capacity places.old }
    requires from_one { has_number (numbers_of came.now) 0 ≡ false }
    requires once { AreOnce came.now }
    ensures { IsSorting came.now places.new.items }
{
    for at in 0..came.len() {
        let number = came[at].0;
        let place = place_of(places, number);
        match places.insert(place, Place { number, at }) {
            Ok(()) => {}
            Err(_) => unreachable!(),
        }
    }
}

/// The place of the first number that is `number` or greater.
fn place_of(places: &[Place], number: u64) -> usize
    requires { IsRising (numbers_at places.now) }
    ensures { GoesAt (numbers_at places.now) number result }
{
    let mut low = 0;
    let mut high = places.len();
    while low < high {
        let mid = low + (high - low) / 2;
        if places[mid].number < number {
            low = mid + 1;
        } else {
            high = mid;
        }
    }
    low
}
