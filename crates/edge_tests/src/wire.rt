//! Tests of a wire in memory.

use rm_base::Memory;
use rm_base::wire::{MemWire, Wire};
use std::alloc::Global;

// Puts three packets: whether there was room for each.
fn put_three(wire: &mut MemWire) -> Result<(bool, bool, bool), Memory> {
    let first = wire.put(2, b"one")?;
    let second = wire.put(1, b"")?;
    Ok((first, second, wire.put(2, b"three")?))
}

// Whether this packet has the number.
fn has(wire: &MemWire, number: u64, to: u8, bytes: &[u8]) -> bool {
    match wire.get(number) {
        Some(packet) => (packet.to == to) & (packet.bytes == bytes),
        None => false,
    }
}

// Whether these numbers are no packet's.
fn lacks(wire: &MemWire, before: u64, behind: u64) -> bool {
    wire.get(before).is_none() & wire.get(behind).is_none()
}

// Whether there was room for three packets, how many there are then, whether the numbers around them are none's, and
// whether the last is the third.
fn numbered(alloc: Global) -> Result<((bool, bool, bool), u64, bool, bool), Memory> {
    let mut wire = MemWire::new(alloc);
    let put = put_three(&mut wire)?;
    Ok((
        put,
        wire.count(),
        lacks(&wire, 0, 4),
        has(&wire, 3, 2, b"three"),
    ))
}

#[test]
fn packets_are_numbered_from_one(rt: HostRuntime) {
    assert!(rt; numbered(rt.alloc()) == Ok(((true, true, true), 3, true, true)));
}

// Puts so many packets: for how many there was room.
fn put_many(wire: &mut MemWire, count: u32) -> Result<u32, Memory> {
    let mut put = 0u32;
    for _ in 0..count {
        if wire.put(1, b"x")? {
            put = put.saturating_add(1);
        }
    }
    Ok(put)
}

// For how many packets there is room, whether there is for one more, and how many there are then.
fn filled(alloc: Global) -> Result<(u32, bool, u64), Memory> {
    let mut wire = MemWire::new(alloc);
    let put = put_many(&mut wire, 65536)?;
    let is_put = wire.put(1, b"")?;
    Ok((put, is_put, wire.count()))
}

#[test]
fn the_65537th_packet_is_lost(rt: HostRuntime) {
    assert!(rt; filled(rt.alloc()) == Ok((65536, false, 65536)));
}
