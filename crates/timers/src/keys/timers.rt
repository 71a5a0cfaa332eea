//! The timers and their calls.
ghost use Rattle.std.specs.Prelude.{◌≡◌, ℕ, ◌<◌, ◌≤◌, ◌∷◌, ◌++◌, [], true, List, None, Some, max, slice_get};
ghost use Rattle.std.specs.Prelude.{IfOk, length, if◌then◌else◌};
ghost use Rattle.std.specs.List.{AllByRecursion, insert, remove};
ghost use Rattle.rm_base.specs.Limits.{most_keys, now_max};
ghost use Rattle.timers.specs.declared.slots.timers.Key.{Key};
ghost use Rattle.timers.specs.Keys.Keyed.{Steps, StandsFor, IsGap, IsPlace, Rises, slot_at, cell_at, is_before};
ghost use Rattle.timers.specs.Keys.Keyed.{keys_in};
ghost use Rattle.timers.specs.Keys.Waits.{Wait, begun, due_at, fresh, keys_of, same_key, sent, urged, without};

use crate::keys::cells::{Cell, find, place_of, put};
use crate::slots::{Key, Timers, live_is_waiting};
use rm_base::Memory;
use rm_base::limits::MOST_KEYS;
use std::alloc::Global;
use std::marker::Model;

/// The most keys that a tick emits.
pub const MOST_EMITTED: u32 = 64;

/// The keys that wait to be emitted, at most `MOST_KEYS`, each found in about twelve steps. After `new` no call takes
/// memory. The keys stand in one row by sequence and number, each with its slot in the timers below.
#[derive(Debug, Drop)]
pub struct KeyTimers {
    timers: Timers,
    cells: Vec<Cell>,
    time: u64,
}

impl Model for KeyTimers {
    ghost use Rattle.std.specs.Prelude.{vec_capacity};
    ghost use Rattle.timers.specs.Keys.Keyed.{Keyed};

    ghost Value = { Keyed };

    ghost view = { λ t. record { timing = t.timers; cells = t.cells.items; time = t.time } };

    ghost use Rattle.timers.specs.Keys.Keyed.{IsKept};

    ghost invariant = { λ t. IsKept t.timers t.cells.items (vec_capacity t.cells) t.time };
}

impl KeyTimers {
    /// No key waits, and the time is 0. After it no call takes memory.
    pub fn new(alloc: Global) -> Result<KeyTimers, Memory>
        ensures waits { IfOk result (λ t. StandsFor t []) }
        ensures cells { IfOk result (λ t. t.cells ≡ []) }
        ensures time { IfOk result (λ t. t.time ≡ 0) }
    {
        Ok(KeyTimers {
            timers: Timers::new(alloc)?,
            cells: Vec::with_capacity(alloc, MOST_KEYS as usize)?,
            time: 0,
        })
    }

    /// The time: the greatest moment that it was told.
    pub fn time(&self) -> u64
        ensures { result ≡ self.now.time }
    {
        self.time
    }

    /// The time is at least this from now on.
    pub fn advance(&mut self, now: u64)
        requires { now ≤ now_max }
        ensures waits { Steps self.old self.new (λ waits. waits) }
        ensures cells { self.new.cells ≡ self.old.cells }
        ensures rising { Rises self.new.cells }
        ensures time { self.new.time ≡ max self.old.time now }
    {
        self.time = self.time.max(now);
    }

    /// A new key begins to wait, last and due at once.
    fn put_new(&mut self, place: usize, key: Key)
        requires place { IsGap self.old.cells key place }
        requires spare { length self.old.cells < most_keys }
        ensures waits { Steps self.old self.new (begun key) }
        ensures cells { (slot : ℕ)
            × (self.new.cells ≡ insert self.old.cells place (record { key = key; slot = slot })) }
        ensures time { self.new.time ≡ self.old.time }
    {
        let slot = self.timers.add(key);
        put(&mut self.cells, place, Cell { key, slot });
    }

    /// The key at a place waits no more.
    pub fn take_out(&mut self, place: usize)
        requires place { place < length self.old.cells }
        ensures waits { Steps self.old self.new (without (cell_at self.old.cells place).key) }
        ensures cells { self.new.cells ≡ remove self.old.cells place }
        ensures found { (other : Key) → slot_at self.new.cells other
            ≡ (if same_key (cell_at self.old.cells place).key other then None else slot_at self.old.cells other) }
        ensures time { self.new.time ≡ self.old.time }
    {
        live_is_waiting();
        let cell = self.cells.remove(place);
        self.timers.remove(cell.slot);
    }

    /// The key waits no more, where it did.
    fn forget(&mut self, key: Key)
        ensures waits { Steps self.old self.new (without key) }
        ensures cells { (other : Key) → slot_at self.new.cells other
            ≡ (if same_key key other then None else slot_at self.old.cells other) }
        ensures fewer { (slot_at self.old.cells key ≡ None → length self.old.cells < most_keys)
            → length self.new.cells < most_keys }
        ensures time { self.new.time ≡ self.old.time }
    {
        match find(self.cells.as_slice(), key) {
            Ok(place) => self.take_out(place),
            Err(_) => {}
        }
    }

    /// The key begins to wait, also where it waited already: last in class 0, due at once.
    pub fn begin(&mut self, key: Key)
        requires spare { slot_at self.old.cells key ≡ None → length self.old.cells < most_keys }
        ensures waits { Steps self.old self.new (begun key) }
        ensures cells { (slot : ℕ) × ((other : Key) → slot_at self.new.cells other
            ≡ (if same_key key other then Some slot else slot_at self.old.cells other)) }
        ensures time { self.new.time ≡ self.old.time }
    {
        self.forget(key);
        match find(self.cells.as_slice(), key) {
            Ok(_) => unreachable!(),
            Err(place) => self.put_new(place, key),
        }
    }

    /// A key that comes behind all others begins to wait.
    pub fn begin_last(&mut self, key: Key)
        requires last { AllByRecursion (λ (k : Key). is_before k key ≡ true) (keys_in self.old.cells) }
        requires spare { length self.old.cells < most_keys }
        ensures waits { Steps self.old self.new (λ waits. waits ++ fresh (key ∷ [])) }
        ensures keys { keys_in self.new.cells ≡ keys_in self.old.cells ++ key ∷ [] }
        ensures time { self.new.time ≡ self.old.time }
    {
        let place = self.len();
        self.put_new(place, key);
    }

    /// The key is emitted, where it waits: last in the next class.
    /// - `waits`, `cells`: the classes go up to 6, and the key is due by the time that the timers were told. A key that
    ///   doesn't wait changes nothing.
    pub fn emit(&mut self, key: Key)
        ensures waits { Steps self.old self.new (sent self.old.time key) }
        ensures cells { self.new.cells ≡ self.old.cells }
        ensures time { self.new.time ≡ self.old.time }
    {
        live_is_waiting();
        match find(self.cells.as_slice(), key) {
            Ok(place) => self.timers.sent(self.cells[place].slot, self.time),
            Err(_) => {}
        }
    }

    /// The key is wanted at once, where it waits: last in class 0.
    pub fn urge(&mut self, key: Key)
        ensures waits { Steps self.old self.new (urged key) }
        ensures cells { self.new.cells ≡ self.old.cells }
        ensures time { self.new.time ≡ self.old.time }
    {
        live_is_waiting();
        match find(self.cells.as_slice(), key) {
            Ok(place) => self.timers.urge(self.cells[place].slot),
            Err(_) => {}
        }
    }

    /// The key at a place, counted from 0, among those that are due now, by class and then by the order of the last
    /// move. It goes by the timers' time where that is later. None exactly where no more keys are due than the place.
    pub fn due(&self, now: u64, k: u32) -> Option<Key>
        requires { now ≤ now_max }
        ensures { (waits : List Wait) → StandsFor self.now waits →
            result ≡ slice_get (keys_of (due_at (max self.now.time now) waits)) k }
    {
        let _cells = &self.cells;
        self.timers.nth_due(self.time.max(now), k)
    }

    /// How many keys wait.
    pub fn len(&self) -> usize
        ensures { result ≡ length self.now.cells }
    {
        self.cells.len()
    }

    /// The key at a place, by sequence and number.
    pub fn key_at(&self, place: usize) -> Option<Key>
        ensures key { result ≡ slice_get (keys_in self.now.cells) place }
        ensures few { length self.now.cells ≤ most_keys }
    {
        match self.cells.get(place) {
            Some(cell) => Some(cell.key),
            None => None,
        }
    }

    /// The place of the first key that doesn't come before this one.
    /// - `rising`: the keys rise by sequence and number.
    pub fn place(&self, key: Key) -> usize
        ensures place { IsPlace self.now.cells key result }
        ensures rising { Rises self.now.cells }
    {
        place_of(self.cells.as_slice(), key)
    }
}
