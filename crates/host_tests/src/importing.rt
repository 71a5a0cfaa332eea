//! `import` of bytes that are no node's.
use crate::machine::{MAKE, Machine, imports, prints};
use http_endpoint::link::MemLink;
use rm_base::{MemClock, Memory, Numbers};
use rm_disk::MemDisk;
use std::alloc::Global;

// Journals of the layout before: one that is cut, one whose entry `ab` is no batch, and one of no entries. A journal of
// the layout of now with no entries.
const NONE: [&[u8]; 4] = [
    b"WSRMJNL1\x01\0\0\0\x02a",
    b"WSRMJNL1\x01\0\0\0\x02ab\0",
    b"WSRMJNL1\0",
    b"WSRMJNL2\0\0\0\0\0\0\0\0\x19\0\0\0\0\0\0\0\x19\0",
];

// Whether bytes are refused and leave an empty disk empty: a node is made there.
fn are_refused(alloc: Global, bytes: &[u8]) -> Result<bool, Memory> {
    let mut host = Machine {
        disk: MemDisk::new(alloc),
        link: MemLink::new(Vec::new(alloc), Numbers::new(alloc)),
        clock: MemClock::new(0),
    };
    let refused = imports(alloc, &mut host, bytes, 11, b"not a journal\n")?;
    let made = prints(alloc, &mut host, MAKE, 0, b"made\n")?;
    Ok(refused & made)
}

#[test]
fn what_is_refused_leaves_the_disk_empty(rt: HostRuntime) {
    for bytes in &NONE {
        assert!(rt; are_refused(rt.alloc(), *bytes) == Ok(true));
    }
}
