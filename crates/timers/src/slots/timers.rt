//! The timers and their calls.
ghost use Rattle.std.specs.Prelude.{◌≡◌, ◌+◌, ◌<◌, ◌≤◌, ◌∷◌, [], List, map, max, option_map, slice_get, IfOk};
ghost use Rattle.rm_base.specs.Limits.{most_keys, now_max};
ghost use Rattle.timers.specs.Slots.Waits.{
  Entry,
  StandFor,
  Steps,
  IsLive,
  begun,
  moved_last,
  put_into,
  emitted,
  with_emitted,
  without,
  at_slot,
  due_at,
};

use crate::links::Links;
use crate::slots::table::{
    Cell, blank_cells, find_due, free_slots, key_of, pop_slot, push_slot, put_new, shift,
    shift_due, take_out,
};
use rm_base::Memory;
use rm_base::limits::MOST_KEYS;
use std::alloc::Global;
use std::marker::{Brand, Model};
use std::sync::ledger::Blank;

/// What waits: a message number of an outgoing sequence, or with number 0 the request of that sequence.
#[derive(Clone, Copy, Debug, PartialEq, Eq)]
pub struct Key {
    pub seq: u32,
    pub number: u64,
}

/// The keys that wait to be emitted, at most `MOST_KEYS`. After `new` no call takes memory. Moments are milliseconds
/// since 1970 UTC. The order of the last move is kept within a class; no memory has that between classes, and nothing
/// that is due reads it. Due moments go by the timers' time, so along a class they never fall.
#[derive(Debug, Drop)]
pub struct Timers {
    links: Links,
    cells: Vec<Cell>,
    free: Vec<u32>,
    time: u64,
}

impl Model for Timers {
    ghost use Rattle.std.specs.Prelude.{vec_capacity};
    ghost use Rattle.timers.specs.Slots.Waits.{Waiting};

    ghost Value = { Waiting };

    ghost use Rattle.timers.specs.Slots.Table.{waiting, IsKept};

    ghost view = { λ t. waiting t.cells.items t.links.lists t.time t.links.spare };

    ghost invariant = { λ t. IsKept t.links.lists t.cells.items t.free.items
        (vec_capacity t.free) t.time t.links.spare };
}

impl Timers {
    /// No key waits, and the time is 0. There are 4352 free slots, and after it no call takes memory.
    pub fn new(alloc: Global) -> Result<Timers, Memory>
        ensures waits { IfOk result (λ timers. StandFor timers []) }
        ensures time { IfOk result (λ timers. timers.time ≡ 0) }
        ensures spare { IfOk result (λ timers. timers.spare ≡ most_keys) }
    {
        Ok(Timers {
            links: Links::with_slots(alloc, MOST_KEYS, 7)?,
            cells: blank_cells(alloc)?,
            free: free_slots(alloc)?,
            time: 0,
        })
    }

    /// How many more keys may wait.
    pub fn spare(&self) -> u32
        ensures spare { result ≡ self.now.spare }
        ensures waits { (waits : List Entry) × StandFor self.now waits }
    {
        let _cells = &self.cells;
        self.links.spare()
    }

    /// The key begins to wait, last and due at once. It answers the key's slot, which is its own until `remove`.
    /// - `waits`: the key stands last in class 0, with a slot that no entry has.
    pub fn add(&mut self, key: Key) -> u32
        requires { 0 < self.old.spare }
        ensures waits { Steps self.old self.new (begun result key) }
        ensures time { self.new.time ≡ self.old.time }
        ensures spare { self.new.spare + 1 ≡ self.old.spare }
    {
        let slot = pop_slot(&mut self.free);
        put_new::<Brand>(&mut self.links, &mut self.cells, slot, key, Blank::new(1));
        slot
    }

    /// The key of the slot was emitted at `now`: it goes last into the next class.
    /// - `waits`: the classes go up to 6; the key is due 2000 * 2^(class - 1) milliseconds after the timers' time, and
    ///   slot and key stay.
    /// - `time`: the time is the greatest moment that was told, so it never falls.
    pub fn sent(&mut self, slot: u32, now: u64)
        requires slot { IsLive self.old slot }
        requires now { now ≤ now_max }
        ensures waits { Steps self.old self.new (moved_last (emitted self.new.time) slot) }
        ensures time { self.new.time ≡ max self.old.time now }
        ensures spare { self.new.spare ≡ self.old.spare }
    {
        self.time = self.time.max(now);
        shift::<Brand>(
            &mut self.links,
            &mut self.cells,
            slot,
            false,
            self.time,
            Blank::new(1),
        );
    }

    /// The key of the slot is wanted at once: it goes last into class 0.
    pub fn urge(&mut self, slot: u32)
        requires { IsLive self.old slot }
        ensures waits { Steps self.old self.new (moved_last (put_into 0 self.old.time) slot) }
        ensures time { self.new.time ≡ self.old.time }
        ensures spare { self.new.spare ≡ self.old.spare }
    {
        shift::<Brand>(
            &mut self.links,
            &mut self.cells,
            slot,
            true,
            self.time,
            Blank::new(1),
        );
    }

    /// The key of the slot, which is answered, waits no more.
    pub fn remove(&mut self, slot: u32) -> Key
        requires { IsLive self.old slot }
        ensures key { (waits : List Entry) → StandFor self.old waits → map (λ entry. entry.key) (at_slot slot waits)
            ≡ result ∷ [] }
        ensures waits { Steps self.old self.new (without slot) }
        ensures time { self.new.time ≡ self.old.time }
        ensures spare { self.new.spare ≡ self.old.spare + 1 }
    {
        let key = key_of(&self.cells, slot);
        take_out::<Brand>(&mut self.links, &self.cells, slot, Blank::new(1));
        push_slot(&mut self.free, slot);
        key
    }

    /// Emits the first key that is due, by class and then by the order of the last move.
    /// - `key`: None exactly where no key is due, and then only the time goes on.
    pub fn take_due(&mut self, now: u64) -> Option<Key>
        requires { now ≤ now_max }
        ensures key { (waits : List Entry) → StandFor self.old waits →
            result ≡ option_map (λ entry. entry.key) (slice_get (due_at self.new.time waits) 0) }
        ensures waits { Steps self.old self.new
            (λ waits. with_emitted self.new.time (slice_get (due_at self.new.time waits) 0) waits) }
        ensures time { self.new.time ≡ max self.old.time now }
        ensures spare { self.new.spare ≡ self.old.spare }
    {
        self.time = self.time.max(now);
        shift_due::<Brand>(&mut self.links, &mut self.cells, self.time, Blank::new(1))
    }

    /// The key at a place, counted from 0, among those that are due at `now`, or at the timers' time where that is
    /// later. None exactly where no more keys are due than the place.
    pub fn nth_due(&self, now: u64, k: u32) -> Option<Key>
        requires { now ≤ now_max }
        ensures { (waits : List Entry) → StandFor self.now waits →
            result ≡ option_map (λ entry. entry.key) (slice_get (due_at (max self.now.time now) waits) k) }
    {
        find_due::<Brand>(
            &self.links,
            &self.cells,
            self.time.max(now),
            k,
            Blank::new(1),
        )
    }
}
