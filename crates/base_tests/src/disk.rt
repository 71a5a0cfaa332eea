//! Tests of a disk in memory.

use rm_disk::journal::JournalError;
use rm_disk::{CrashDisk, Disk, MemDisk, ReadDisk};
use std::alloc::Global;

// All that a read gives.
fn bytes_of(alloc: Global, disk: &mut MemDisk) -> Result<Vec<u8>, JournalError> {
    let len = disk.len()?;
    let mut bytes = vec![in alloc; 0; len as usize]?;
    disk.read(0, &mut bytes)?;
    Ok(bytes)
}

// Whether these are all that a read gives.
pub fn has_bytes(alloc: Global, disk: &mut MemDisk, bytes: &[u8]) -> Result<bool, JournalError> {
    Ok(bytes_of(alloc, disk)?.as_slice() == bytes)
}

// Whether the write went well; one past the end isn't tried.
pub fn put(disk: &mut MemDisk, at: u64, bytes: &[u8]) -> Result<bool, JournalError> {
    disk.reserve(1, bytes.len() as u64)?;
    let len = disk.len()?;
    if at > len {
        return Ok(false);
    }
    Ok(disk.write_at(at, bytes).is_ok())
}

fn cut(disk: &mut MemDisk, to: u64) -> Result<bool, JournalError> {
    disk.reserve(1, 0)?;
    let len = disk.len()?;
    if to > len {
        return Ok(false);
    }
    Ok(disk.cut(to).is_ok())
}

fn sync(disk: &mut MemDisk) -> Result<bool, JournalError> {
    disk.reserve(1, 0)?;
    Ok(disk.sync().is_ok())
}

// Whether there is nothing on a disk after a crash.
fn has_no_bytes(disk: &mut MemDisk) -> Result<bool, JournalError> {
    let is_room = disk.reserve(1, 1).is_ok();
    disk.crash(0)?;
    Ok(is_room & (disk.len() == Ok(0)))
}

#[test]
fn a_new_disk_has_no_bytes(rt: HostRuntime) {
    assert!(rt; has_no_bytes(&mut MemDisk::new(rt.alloc())) == Ok(true));
}

// Four bytes are on the disk, and then one of them is written over, one is added and two are cut off.
fn changes(disk: &mut MemDisk) -> Result<bool, JournalError> {
    let mut is_so = put(disk, 0, &[10, 11, 12, 13])?;
    is_so &= sync(disk)?;
    is_so &= put(disk, 1, &[21])?;
    is_so &= put(disk, 4, &[24])?;
    Ok(is_so & cut(disk, 3)?)
}

// Whether a crash by this choice, after those changes, leaves these bytes.
fn leaves(alloc: Global, choice: u8, left: &[u8]) -> Result<bool, JournalError> {
    leaves_of(alloc, &mut MemDisk::new(alloc), choice, left)
}

fn leaves_of(
    alloc: Global,
    disk: &mut MemDisk,
    choice: u8,
    left: &[u8],
) -> Result<bool, JournalError> {
    let is_so = changes(disk)?;
    disk.crash(choice.min(3))?;
    Ok(is_so & has_bytes(alloc, disk, left)?)
}

// What each choice of a crash leaves.
const LEFT: [(u8, &[u8]); 4] = [
    (0, &[10, 11, 12, 13]),
    (1, &[10, 21, 12]),
    (2, &[10, 1, 12, 1, 1]),
    (3, &[10, 0, 12]),
];

#[test]
fn each_choice_of_a_crash(rt: HostRuntime) {
    for (choice, left) in &LEFT {
        assert!(rt;
            leaves(rt.alloc(), *choice, left) == Ok(true),
            "choice {choice}"
        );
    }
}

// The second call from `arm` on fails and changes nothing that is read, and so does each after it.
fn fails_from_the_second_on(disk: &mut MemDisk) -> Result<bool, JournalError> {
    disk.reserve(1, 1)?;
    disk.arm(2);
    let is_synced = disk.sync().is_ok();
    let fails = disk.len().is_err();
    disk.arm(9);
    Ok(is_synced & fails & disk.len().is_err())
}

#[test]
fn an_armed_disk_fails_until_a_crash(rt: HostRuntime) {
    let mut disk = MemDisk::new(rt.alloc());
    assert!(rt; put(&mut disk, 0, &[1, 2]) == Ok(true));
    assert!(rt; fails_from_the_second_on(&mut disk) == Ok(true));
    assert!(rt; disk.crash(2) == Ok(()));
    assert!(rt; has_bytes(rt.alloc(), &mut disk, &[1, 2]) == Ok(true));
}
