//! The file as a disk, and as it is read beside its owner.
//! What a test does stands in helpers that answer plain values, since a test with many steps is slow to prove.

use rm_disk::file::{Fault, FileDisk, FileReader, NAME};
use rm_disk::{Disk, ReadDisk};
use std::alloc::Global;
use std::fs;

// Whether a disk without a file has no bytes and no fault.
fn is_new(disk: &mut FileDisk<&HostRuntime>) -> bool {
    disk.last_fault().is_none() & (disk.len() == Ok(0))
}

// Whether it takes bytes, others over them, and a cut behind the sixth.
fn takes_bytes(disk: &mut FileDisk<&HostRuntime>) -> bool {
    let is_written = disk.write_at(0, b"wsrmjournal").is_ok();
    let is_turned = disk.write_at(2, b"--").is_ok();
    let is_cut = disk.cut(6).is_ok();
    is_written & is_turned & is_cut & disk.sync().is_ok()
}

// Whether a fault is told so.
fn is_told(alloc: Global, fault: Option<&Fault>, words: &str) -> bool {
    let Some(fault) = fault else {
        return false;
    };
    match format!(in alloc; "{fault}") {
        Ok(text) => text.as_str() == words,
        Err(_) => false,
    }
}

// Whether a disk whose file another has takes nothing, and tells why.
fn is_held(alloc: Global, disk: &mut FileDisk<&HostRuntime>) -> bool {
    let is_refused = disk.write_at(0, b"lost").is_err();
    let is_kept = disk.cut(0).is_err();
    is_refused & is_kept & is_told(alloc, disk.last_fault(), "held by another process")
}

// Whether a disk gives the six bytes that are there, and none behind them.
fn gives_bytes(disk: &mut FileDisk<&HostRuntime>) -> bool {
    let mut buf = [0; 6];
    let is_read = disk.read(0, &mut buf).is_ok();
    let is_same = &buf == b"ws--jo";
    is_read & is_same & disk.read(1, &mut buf).is_err()
}

// Whether one disk takes bytes, another is held off while the first has the file, and it gives them afterwards.
fn is_written(rt: &HostRuntime) -> (bool, bool, bool, bool) {
    let mut disk = FileDisk::new(rt);
    let is_first = is_new(&mut disk);
    let is_taken = takes_bytes(&mut disk);
    let mut other = FileDisk::new(rt);
    let is_off = is_held(rt.alloc(), &mut other);
    drop(disk);
    let is_given = gives_bytes(&mut other);
    drop(other);
    (is_first, is_taken, is_off, is_given)
}

// What is written stands in the file, also for the next process; while one has it, another's calls fail and write
// nothing, and it is told why.
#[test]
fn a_file_is_written_by_one_at_a_time(rt: HostRuntime) {
    let _ = fs::remove_file(&rt, NAME);
    assert!(rt; is_written(&rt) == (true, true, true, true));
    assert!(rt; fs::remove_file(&rt, NAME).is_ok());
}

// Whether a reader without a file finds no bytes and no fault.
fn finds_nothing(reader: &mut FileReader<&HostRuntime>) -> bool {
    let is_empty = reader.len() == Ok(0);
    let is_read = reader.read(0, &mut []).is_ok();
    is_empty & is_read & reader.last_fault().is_none()
}

// Whether bytes that the owner writes are read beside it, also those that come later.
fn reads_along(disk: &mut FileDisk<&HostRuntime>, reader: &mut FileReader<&HostRuntime>) -> bool {
    let is_begun = disk.write_at(0, b"wsrm").is_ok();
    let is_seen = reader.len() == Ok(4);
    let is_longer = disk.write_at(4, b"journal").is_ok();
    let mut buf = [0; 7];
    let is_read = reader.read(4, &mut buf).is_ok();
    is_begun & is_seen & is_longer & is_read & (&buf == b"journal")
}

// Whether a reader writes nothing and cuts nothing.
fn changes_nothing(reader: &mut FileReader<&HostRuntime>) -> bool {
    let is_unwritten = reader.write_at(0, b"lost").is_err();
    let is_uncut = reader.cut(0).is_err();
    is_unwritten & is_uncut & reader.sync().is_ok()
}

// Whether a reader finds nothing, then what an owner writes, and leaves that as it is.
fn is_read_beside(rt: &HostRuntime) -> (bool, bool, bool, bool) {
    let mut reader = FileReader::new(rt);
    let is_nothing = finds_nothing(&mut reader);
    let mut disk = FileDisk::new(rt);
    let is_along = reads_along(&mut disk, &mut reader);
    let is_unchanged = changes_nothing(&mut reader);
    let is_whole = disk.len() == Ok(11);
    (is_nothing, is_along, is_unchanged, is_whole)
}

// Where there is no file, a reader finds no bytes and makes none; beside one that has the file it reads what is there,
// also what comes later, and changes nothing.
#[test]
fn a_file_is_read_beside_its_owner(rt: HostRuntime) {
    let _ = fs::remove_file(&rt, NAME);
    assert!(rt; is_read_beside(&rt) == (true, true, true, true));
    assert!(rt; fs::remove_file(&rt, NAME).is_ok());
}
