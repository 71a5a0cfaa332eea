//! A wire without memory.

use crate::messages::IN_ORDER;
use crate::stage::events_of;
use rm_base::Memory;
use rm_base::wire::{MemWire, Packet, Wire};
use rm_disk::MemDisk;
use rm_disk::journal::Journal;
use rm_replay::{Stage, run_script};
use std::test::Fail;

// A wire that finds no memory for its third packet.
#[derive(Debug, Drop)]
struct ShortWire {
    wire: MemWire,
    puts: u64,
}

impl Wire for ShortWire {
    ghost packets = { λ w. w.wire };

    fn put(&mut self, to: u8, bytes: &[u8]) -> Result<bool, Memory> {
        self.puts = self.puts.saturating_add(1);
        if self.puts == 3 {
            return Err(Memory);
        }
        self.wire.put(to, bytes)
    }

    fn get(&self, k: u64) -> Option<Packet<'_>> {
        self.wire.get(k)
    }

    fn count(&self) -> u64 {
        self.wire.count()
    }
}

#[test]
fn memory_is_wanting_for_a_packet(rt: HostRuntime) -> Result<(), Fail> {
    let alloc = rt.alloc();
    let mut stage = Stage {
        one: MemDisk::new(alloc),
        two: MemDisk::new(alloc),
        wire: ShortWire {
            wire: MemWire::new(alloc),
            puts: 0,
        },
    };
    let events = events_of(alloc, IN_ORDER)?;
    let ended = run_script(alloc, &mut stage, events);
    assert!(rt; matches!(ended, Err(Memory)));
    assert_eq!(rt; stage.wire.count(), 2);
    assert_eq!(rt; Journal::mount(alloc, &mut stage.one)?.count(), 4);
    Ok(())
}
