//! A wire in memory.

ghost use Rattle.std.specs.Prelude.{◌≡◌, [], IsTrue, ◌↔◌, true};
ghost use Rattle.rm_base.specs.Wire.Wire.{has_room};

use crate::Memory;
use crate::limits::MOST_PACKETS;
use crate::wire::wire::{Packet, Wire};
use std::alloc::Global;
use std::marker::Model;

// The most bytes of all packets of a wire together.
const MAX_BYTES: usize = 536870912;

// Which node a packet goes to, and where its bytes are.
#[derive(Clone, Copy, Debug)]
struct Place {
    to: u8,
    start: usize,
    end: usize,
}

/// A wire in memory, which keeps the bytes of all its packets in one row. It gives no memory back.
#[derive(Debug, Drop)]
pub struct MemWire {
    bytes: Vec<u8>,
    places: Vec<Place>,
}

impl Model for MemWire {
    ghost use Rattle.std.specs.Prelude.{ℕ, List};

    ghost Value = { List (ℕ × List ℕ) };

    ghost use Rattle.rm_base.specs.Wire.MemWire.{packets_at, AreStored};

    ghost view = { λ w. packets_at w.bytes.items w.places.items };

    ghost invariant = { λ w. AreStored w.bytes.items w.places.items };
}

impl MemWire {
    /// A wire without packets. It takes no memory.
    pub fn new(alloc: Global) -> Self
        ensures { result ≡ [] }
    {
        MemWire {
            bytes: Vec::new(alloc),
            places: Vec::new(alloc),
        }
    }

    // Whether a packet of so many bytes keeps within both limits.
    fn has_room(&self, more: usize) -> bool
        ensures { result ≡ has_room self.now more }
    {
        self.places.len() < MOST_PACKETS && more <= MAX_BYTES - self.bytes.len()
    }
}

impl Wire for MemWire {
    ghost packets = { λ w. w };

    fn put(&mut self, to: u8, bytes: &[u8]) -> Result<bool, Memory> {
        if !self.has_room(bytes.len()) {
            return Ok(false);
        }
        let start = self.bytes.len();
        let end = start + bytes.len();
        self.places.reserve(1)?;
        self.bytes.extend_from_slice(bytes)?;
        self.places.push(Place { to, start, end }).unwrap();
        Ok(true)
    }

    fn get(&self, k: u64) -> Option<Packet<'_>> {
        let index = k.checked_sub(1)? as usize;
        let place = self.places.get(index)?;
        Some(Packet {
            to: place.to,
            bytes: &self.bytes[place.start..place.end],
        })
    }

    fn count(&self) -> u64 {
        self.places.len() as u64
    }
}
