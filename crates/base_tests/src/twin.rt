//! Timers beside the plain program: each call is made in both.
ghost use Rattle.std.specs.Prelude.{◌≡◌, ◌≢◌, ◌<◌, ◌≤◌, IsTrue, All};

use crate::plain::{Plain, delay, place_of_nth};
use rm_base::Memory;
use std::alloc::Global;
use std::marker::Model;
use timers::slots::{Key, Timers, live_is_waiting};

// Whether no entry has the slot.
fn are_apart(plain: &Vec<Plain>, slot: u32) -> bool
    ensures { IsTrue result → All (λ entry. entry.slot ≢ slot) plain.now.items }
{
    plain.iter().all(|entry| entry.slot != slot)
}

#[derive(Drop)]
pub struct Twin {
    timers: Timers,
    plain: Vec<Plain>,
    time: u64,
}

impl Model for Twin {
    ghost use Rattle.std.specs.Prelude.{ℕ, length};

    ghost Value = { ℕ };

    ghost use Rattle.base_tests.specs.Twin.{AreTwins};

    ghost view = { λ t. length t.plain.items };

    ghost invariant = { λ t. AreTwins t.timers t.plain.items };
}

impl Twin {
    pub fn new(alloc: Global) -> Result<Twin, Memory> {
        let timers = Timers::new(alloc)?;
        Ok(Twin {
            timers,
            plain: Vec::new(alloc),
            time: 0,
        })
    }

    pub fn len(&self) -> usize
        ensures { result ≡ self.now }
    {
        self.plain.len()
    }

    /// Whether both have as many entries.
    pub fn agrees(&self) -> bool {
        self.plain.len() <= 4352 && self.timers.spare() as usize == 4352 - self.plain.len()
    }

    pub fn add(&mut self, key: Key) -> Result<(), Memory> {
        if self.timers.spare() == 0 {
            return Ok(());
        }
        let slot = self.timers.add(key);
        self.plain.push(Plain {
            slot,
            key,
            class: 0,
            due: 0,
        })?;
        Ok(())
    }

    pub fn sent(&mut self, i: usize, now: u64) -> Result<(), Memory>
        requires i { i < self.old }
        requires now { now ≤ 200000000000000 }
    {
        live_is_waiting();
        let entry = self.plain.remove(i);
        self.timers.sent(entry.slot, now);
        self.time = self.time.max(now);
        let class = entry.class.min(5) + 1;
        let due = self.time.saturating_add(delay(class));
        self.plain.push(Plain {
            slot: entry.slot,
            key: entry.key,
            class,
            due,
        })?;
        Ok(())
    }

    pub fn urge(&mut self, i: usize) -> Result<(), Memory>
        requires { i < self.old }
    {
        live_is_waiting();
        let entry = self.plain.remove(i);
        self.timers.urge(entry.slot);
        self.plain.push(Plain {
            slot: entry.slot,
            key: entry.key,
            class: 0,
            due: 0,
        })?;
        Ok(())
    }

    /// The key that was removed, by both. Were the slot another entry's too, all entries would be dropped.
    pub fn remove(&mut self, i: usize) -> (Key, Key)
        requires { i < self.old }
    {
        live_is_waiting();
        let entry = self.plain.remove(i);
        let slot = entry.slot;
        let key = self.timers.remove(slot);
        if !are_apart(&self.plain, slot) {
            self.plain.clear();
        }
        (key, entry.key)
    }

    /// The key that is emitted, by both.
    pub fn take_due(&mut self, now: u64) -> Result<(Option<Key>, Option<Key>), Memory>
        requires { now ≤ 200000000000000 }
    {
        let key = self.timers.take_due(now);
        self.time = self.time.max(now);
        match place_of_nth(&self.plain, self.time, 0) {
            Some(i) => {
                let entry = self.plain.remove(i);
                let class = entry.class.min(5) + 1;
                let due = self.time.saturating_add(delay(class));
                self.plain.push(Plain {
                    slot: entry.slot,
                    key: entry.key,
                    class,
                    due,
                })?;
                Ok((key, Some(entry.key)))
            }
            None => Ok((key, None)),
        }
    }

    /// The k-th key that is due, by both.
    pub fn nth_due(&self, now: u64, k: u32) -> (Option<Key>, Option<Key>)
        requires { now ≤ 200000000000000 }
    {
        let key = self.timers.nth_due(now, k);
        match place_of_nth(&self.plain, self.time.max(now), k) {
            Some(i) => (key, Some(self.plain[i].key)),
            None => (key, None),
        }
    }
}
