//! Tests of a journal on a disk in memory.

ghost use Rattle.std.specs.Prelude.{◌≤◌, length};
ghost use Rattle.rm_disk.specs.Journal.Entries.{longest};

use crate::disk::{has_bytes, put};
use rm_base::Blob;
use rm_disk::journal::{Journal, JournalError};
use rm_disk::{CrashDisk, MemDisk};
use std::alloc::Global;
use std::test::Fail;

const ONE_ENTRY: [u8; 33] = [
    0x57, 0x53, 0x52, 0x4d, 0x4a, 0x4e, 0x4c, 0x32, 0x00, 0x00, 0x00, 0x00, 0x00, 0x00, 0x00, 0x00,
    0x19, 0x00, 0x00, 0x00, 0x00, 0x00, 0x00, 0x00, 0x19, 0x01, 0x00, 0x00, 0x00, 0x02, 0x61, 0x62,
    0x00,
];

// The same entry in the layout before.
const BEFORE: [u8; 16] = [
    0x57, 0x53, 0x52, 0x4d, 0x4a, 0x4e, 0x4c, 0x31, 0x01, 0x00, 0x00, 0x00, 0x02, 0x61, 0x62, 0x00,
];

// A disk with these bytes.
fn disk_of(alloc: Global, bytes: &[u8]) -> Result<MemDisk, JournalError> {
    let mut disk = MemDisk::new(alloc);
    fill(&mut disk, bytes)?;
    Ok(disk)
}

fn fill(disk: &mut MemDisk, bytes: &[u8]) -> Result<(), JournalError> {
    if put(disk, 0, bytes)? {
        Ok(())
    } else {
        Err(JournalError::Disk)
    }
}

// What a new journal counts, where it ends and how much room it has.
fn new_journal(alloc: Global, disk: &mut MemDisk) -> Result<(u64, u64, u64), JournalError> {
    let journal = Journal::format(alloc, disk)?;
    Ok((journal.count(), journal.end(), journal.room()))
}

// Mounts the disk and adds an entry: the answer, and where the journal ends then, or None where it is down.
fn add(
    alloc: Global,
    disk: &mut MemDisk,
    entry: &[u8],
) -> Result<(Result<(), JournalError>, Option<u64>), JournalError> {
    let mut journal = Journal::mount(alloc, disk)?;
    let answer = journal.append(disk, entry);
    let end = if journal.is_down() {
        None
    } else {
        Some(journal.end())
    };
    Ok((answer, end))
}

// Whether an entry is added so that the journal ends here.
fn adds(alloc: Global, disk: &mut MemDisk, entry: &[u8], at: u64) -> Result<bool, JournalError> {
    let (answer, end) = add(alloc, disk, entry)?;
    Ok((answer == Ok(())) & (end == Some(at)))
}

// Whether the disk, mounted, has this entry of this number.
fn has_entry(
    alloc: Global,
    disk: &mut MemDisk,
    i: u64,
    entry: &[u8],
) -> Result<bool, JournalError> {
    let mut journal = Journal::mount(alloc, disk)?;
    if i == 0 || i > journal.count() {
        return Ok(false);
    }
    Ok(journal.entry(disk, i)?.as_slice() == entry)
}

#[test]
fn one_entry(rt: HostRuntime) {
    let mut disk = MemDisk::new(rt.alloc());
    assert!(rt; new_journal(rt.alloc(), &mut disk) == Ok((0, 25, 268435425)));
    assert!(rt; adds(rt.alloc(), &mut disk, b"ab", 32) == Ok(true));
    assert!(rt; has_bytes(rt.alloc(), &mut disk, &ONE_ENTRY) == Ok(true));
    assert!(rt; has_entry(rt.alloc(), &mut disk, 1, b"ab") == Ok(true));
}

const EMPTY: &[u8] = b"WSRMJNL2\0\0\0\0\0\0\0\0\x19\0\0\0\0\0\0\0\x19\0";

// What a new journal counts.
fn new_count(alloc: Global, disk: &mut MemDisk) -> Result<u64, JournalError> {
    Ok(new_journal(alloc, disk)?.0)
}

// Nothing of what was on the disk stands behind the gate of a new journal.
#[test]
fn nothing_stands_behind_a_new_journal(rt: HostRuntime) -> Result<(), Fail> {
    let mut disk = disk_of(rt.alloc(), &[7; 40])?;
    assert!(rt; new_count(rt.alloc(), &mut disk) == Ok(0));
    assert!(rt; has_bytes(rt.alloc(), &mut disk, EMPTY) == Ok(true));
    Ok(())
}

// Whether adding an entry answers so.
fn answers(
    alloc: Global,
    disk: &mut MemDisk,
    entry: &[u8],
    answer: Result<(), JournalError>,
) -> Result<bool, JournalError> {
    Ok(add(alloc, disk, entry)?.0 == answer)
}

// Whether adding an entry of so many sevens answers so.
fn adds_sevens(
    alloc: Global,
    disk: &mut MemDisk,
    len: usize,
    answer: Result<(), JournalError>,
) -> Result<bool, JournalError> {
    let entry = vec![in alloc; 7; len]?;
    answers(alloc, disk, &entry, answer)
}

#[test]
fn an_entry_that_is_too_long(rt: HostRuntime) -> Result<(), Fail> {
    let mut disk = disk_of(rt.alloc(), &ONE_ENTRY)?;
    let too_long = JournalError::EntryTooLong { len: 4194305 };
    assert!(rt; adds_sevens(rt.alloc(), &mut disk, 4194305, Err(too_long)) == Ok(true));
    assert!(rt; adds_sevens(rt.alloc(), &mut disk, 4194304, Ok(())) == Ok(true));
    Ok(())
}

// A head, a selector, the last byte of each start, what follows, and how many entries that stands for.
const LISTS: [(&[u8], u8, u8, u8, &[u8], Option<u64>); 15] = [
    (b"WSRMJNL2", 0, 25, 25, b"", None),
    (b"WSRMJNL1", 0, 25, 25, b"\0", None),
    (b"WSRMJNL2", 0, 25, 25, b"\0", Some(0)),
    (b"WSRMJNL2", 0, 25, 25, b"\x02\0\0\0\x01a\0", Some(0)),
    (b"WSRMJNL2", 0, 25, 25, b"\x01\0\0\0\x01a\x02b", Some(1)),
    (b"WSRMJNL2", 0, 25, 25, b"\x01\0\0\0\x02a", None),
    (b"WSRMJNL2", 0, 25, 25, b"\x01\0\0\0\x01a", None),
    (b"WSRMJNL2", 0, 25, 25, b"\x01\0\x40\0\x01a\0", None),
    (b"WSRMJNL2", 0, 24, 25, b"\0", None),
    (b"WSRMJNL2", 0, 26, 25, b"\0", None),
    (b"WSRMJNL2", 0, 26, 25, b"\x01\0", Some(0)),
    (b"WSRMJNL2", 1, 99, 26, b"\x01\0", Some(0)),
    (b"WSRMJNL2", 2, 25, 99, b"\0", Some(0)),
    (b"WSRMJNL2", 3, 99, 25, b"\0", Some(0)),
    (b"WSRMJNL2", 255, 25, 99, b"\0", None),
];

// The bytes of a row.
fn row_bytes(
    alloc: Global,
    head: &[u8],
    selector: u8,
    first: u8,
    second: u8,
    rest: &[u8],
) -> Result<Vec<u8>, JournalError> {
    let mut bytes = Vec::new(alloc);
    bytes.extend_from_slice(head)?;
    bytes.push(selector)?;
    bytes.extend_from_slice(&[0, 0, 0, 0, 0, 0, 0, first])?;
    bytes.extend_from_slice(&[0, 0, 0, 0, 0, 0, 0, second])?;
    bytes.extend_from_slice(rest)?;
    Ok(bytes)
}

// How many entries a disk has, mounted.
fn count_of(alloc: Global, disk: &mut MemDisk) -> Result<u64, JournalError> {
    Ok(Journal::mount(alloc, disk)?.count())
}

// Whether the bytes stand for so many entries, or are no journal.
fn stands_for(alloc: Global, bytes: &[u8], count: Option<u64>) -> Result<bool, JournalError> {
    let mut disk = disk_of(alloc, bytes)?;
    let found = count_of(alloc, &mut disk);
    Ok(found == count.ok_or(JournalError::NotAJournal))
}

fn row_stands_for(
    alloc: Global,
    row: &(&[u8], u8, u8, u8, &[u8], Option<u64>),
) -> Result<bool, JournalError> {
    let bytes = row_bytes(alloc, row.0, row.1, row.2, row.3, row.4)?;
    stands_for(alloc, &bytes, row.5)
}

#[test]
fn bytes_that_stand_for_a_list(rt: HostRuntime) {
    assert!(rt; stands_for(rt.alloc(), b"", None) == Ok(true));
    assert!(rt; stands_for(rt.alloc(), b"WSRMJNL2", None) == Ok(true));
    for row in &LISTS {
        assert!(rt; row_stands_for(rt.alloc(), row) == Ok(true), "{row:?}");
    }
}

// One entry is there, and the device call of this number fails as a second is added, or none at 5. Then comes a crash.
// Whether that went well, and how many entries there are.
fn stopped(alloc: Global, stop: u64, choice: u8) -> Result<(bool, u64), JournalError> {
    let mut disk = disk_of(alloc, &ONE_ENTRY)?;
    // Mounting takes three device calls.
    disk.arm(stop.min(5) + 3);
    add_and_crash(alloc, &mut disk, choice)
}

fn add_and_crash(
    alloc: Global,
    disk: &mut MemDisk,
    choice: u8,
) -> Result<(bool, u64), JournalError> {
    let (answer, _end) = add(alloc, disk, b"cde")?;
    disk.crash(choice.min(3))?;
    Ok((answer.is_ok(), count_of(alloc, disk)?))
}

// The choice of a crash, the number of the device call that fails, and how many entries there are.
const STOPPED: [(u8, u64, u64); 20] = [
    (0, 1, 1),
    (0, 2, 1),
    (0, 3, 1),
    (0, 4, 1),
    (0, 5, 2),
    (1, 1, 1),
    (1, 2, 1),
    (1, 3, 1),
    (1, 4, 2),
    (1, 5, 2),
    (2, 1, 1),
    (2, 2, 1),
    (2, 3, 2),
    (2, 4, 2),
    (2, 5, 2),
    (3, 1, 1),
    (3, 2, 1),
    (3, 3, 1),
    (3, 4, 1),
    (3, 5, 2),
];

#[test]
fn stops_at_each_device_call(rt: HostRuntime) {
    for (choice, stop, count) in &STOPPED {
        assert!(rt;
            stopped(rt.alloc(), *stop, *choice) == Ok((*stop == 5, *count)),
            "choice {choice}, stop {stop}"
        );
    }
}

// Whether adding to a disk fails, so that each call answers Down from then on.
fn goes_down(alloc: Global, disk: &mut MemDisk) -> Result<bool, JournalError> {
    let mut journal = Journal::mount(alloc, disk)?;
    let first = journal.append(disk, b"cde");
    if !journal.is_down() {
        return Ok(false);
    }
    let second = journal.append(disk, b"f");
    let are_so = (first == Err(JournalError::Disk)) & (second == Err(JournalError::Down));
    Ok(are_so & journal.is_down() & (journal.count() == 1))
}

// After Disk each call answers Down.
#[test]
fn a_journal_that_is_down(rt: HostRuntime) -> Result<(), Fail> {
    let mut disk = disk_of(rt.alloc(), &ONE_ENTRY)?;
    disk.arm(5);
    assert!(rt; goes_down(rt.alloc(), &mut disk) == Ok(true));
    Ok(())
}

// Mounts the disk and adds two entries in one row: the answer, and where the journal ends then.
fn add_row(
    alloc: Global,
    disk: &mut MemDisk,
    first: &[u8],
    second: &[u8],
) -> Result<(Result<(), JournalError>, u64), JournalError>
    requires first { length first.now ≤ longest }
    requires second { length second.now ≤ longest }
{
    let mut journal = Journal::mount(alloc, disk)?;
    let first = Blob::from_slice(alloc, first)?;
    let second = Blob::from_slice(alloc, second)?;
    let row = vec![in alloc; first, second]?;
    let answer = journal.append_all(disk, &row);
    Ok((answer, journal.end()))
}

// The entries `c` and `de` behind `ab`.
const ROW: &[u8] =
    b"WSRMJNL2\0\0\0\0\0\0\0\0\x19\0\0\0\0\0\0\0\x19\x01\0\0\0\x02ab\x01\0\0\0\x01c\x01\0\0\0\x02de\0";

#[test]
fn a_row_of_entries(rt: HostRuntime) -> Result<(), Fail> {
    let mut disk = disk_of(rt.alloc(), &ONE_ENTRY)?;
    assert!(rt; add_row(rt.alloc(), &mut disk, b"c", b"de") == Ok((Ok(()), 45)));
    assert!(rt; has_bytes(rt.alloc(), &mut disk, ROW) == Ok(true));
    assert!(rt; has_entry(rt.alloc(), &mut disk, 2, b"c") == Ok(true));
    assert!(rt; has_entry(rt.alloc(), &mut disk, 3, b"de") == Ok(true));
    Ok(())
}

// Mounts the disk and writes the list anew, of this one entry: the answer, and where the journal ends then, or None
// where it is down.
fn compact(
    alloc: Global,
    disk: &mut MemDisk,
    entry: &[u8],
) -> Result<(Result<(), JournalError>, Option<u64>), JournalError>
    requires { length entry.now ≤ longest }
{
    let mut journal = Journal::mount(alloc, disk)?;
    let fresh = vec![in alloc; Blob::from_slice(alloc, entry)?]?;
    let answer = journal.compact(disk, &fresh);
    let end = if journal.is_down() {
        None
    } else {
        Some(journal.end())
    };
    Ok((answer, end))
}

// Whether the list is written anew so that the journal ends here, and these are all bytes of the disk.
fn compacts(
    alloc: Global,
    disk: &mut MemDisk,
    entry: &[u8],
    at: u64,
    left: &[u8],
) -> Result<bool, JournalError>
    requires { length entry.now ≤ longest }
{
    let (answer, end) = compact(alloc, disk, entry)?;
    Ok((answer == Ok(())) & (end == Some(at)) & has_bytes(alloc, disk, left)?)
}

// The entry `c` behind `ab`, and the second start counts.
const BEHIND: &[u8] =
    b"WSRMJNL2\x01\0\0\0\0\0\0\0\x19\0\0\0\0\0\0\0\x21\x01\0\0\0\x02ab\0\x01\0\0\0\x01c\0";

// The entry `de` before that one, where it just has room, and the first start counts again.
const IN_FRONT: &[u8] =
    b"WSRMJNL2\0\0\0\0\0\0\0\0\x19\0\0\0\0\0\0\0\x21\x01\0\0\0\x02de\0\x01\0\0\0\x01c\0";

// A new list is put behind the old one, and before it where there is room.
#[test]
fn a_list_is_written_anew(rt: HostRuntime) -> Result<(), Fail> {
    let mut disk = disk_of(rt.alloc(), &ONE_ENTRY)?;
    assert!(rt; compacts(rt.alloc(), &mut disk, b"c", 39, BEHIND) == Ok(true));
    assert!(rt; has_entry(rt.alloc(), &mut disk, 1, b"c") == Ok(true));
    assert!(rt; compacts(rt.alloc(), &mut disk, b"de", 32, IN_FRONT) == Ok(true));
    assert!(rt; has_entry(rt.alloc(), &mut disk, 1, b"de") == Ok(true));
    Ok(())
}

// One entry is there, and the device call of this number fails as the list is written anew, or none at 6. Then comes a
// crash. Whether the entry is the old one afterwards, or the new one.
fn stopped_anew(alloc: Global, stop: u64, choice: u8, is_new: bool) -> Result<bool, JournalError> {
    let mut disk = disk_of(alloc, &ONE_ENTRY)?;
    // Mounting takes three device calls.
    disk.arm(stop.min(6) + 3);
    compact_and_crash(alloc, &mut disk, choice, stop == 6, is_new)
}

fn compact_and_crash(
    alloc: Global,
    disk: &mut MemDisk,
    choice: u8,
    is_well: bool,
    is_new: bool,
) -> Result<bool, JournalError> {
    let (answer, end) = compact(alloc, disk, b"c")?;
    disk.crash(choice.min(3))?;
    let entry: &[u8] = if is_new { b"c" } else { b"ab" };
    let is_so = (answer.is_ok() == is_well) & (end.is_some() == is_well);
    Ok(is_so & (count_of(alloc, disk)? == 1) & has_entry(alloc, disk, 1, entry)?)
}

// The choice of a crash, the number of the device call that fails, and whether the new list is there.
const STOPPED_ANEW: [(u8, u64, bool); 24] = [
    (0, 1, false),
    (0, 2, false),
    (0, 3, false),
    (0, 4, false),
    (0, 5, false),
    (0, 6, true),
    (1, 1, false),
    (1, 2, false),
    (1, 3, false),
    (1, 4, false),
    (1, 5, true),
    (1, 6, true),
    (2, 1, false),
    (2, 2, false),
    (2, 3, false),
    (2, 4, true),
    (2, 5, true),
    (2, 6, true),
    (3, 1, false),
    (3, 2, false),
    (3, 3, false),
    (3, 4, false),
    (3, 5, false),
    (3, 6, true),
];

#[test]
fn stops_as_a_list_is_written_anew(rt: HostRuntime) {
    for (choice, stop, is_new) in &STOPPED_ANEW {
        assert!(rt;
            stopped_anew(rt.alloc(), *stop, *choice, *is_new) == Ok(true),
            "choice {choice}, stop {stop}"
        );
    }
}

// What is imported: how many entries, and where the journal ends.
fn imported(alloc: Global, disk: &mut MemDisk, bytes: &[u8]) -> Result<(u64, u64), JournalError> {
    let journal = Journal::import(alloc, disk, bytes)?;
    Ok((journal.count(), journal.end()))
}

// The entries of the layout before are the same ones in this layout, and bytes of this layout are none of it.
#[test]
fn the_layout_before_is_imported(rt: HostRuntime) -> Result<(), Fail> {
    let mut disk = disk_of(rt.alloc(), &[7; 40])?;
    let refused = Err(JournalError::NotAJournal);
    assert!(rt; imported(rt.alloc(), &mut disk, &ONE_ENTRY) == refused);
    assert!(rt; has_bytes(rt.alloc(), &mut disk, &[7; 40]) == Ok(true));
    assert!(rt; imported(rt.alloc(), &mut disk, &BEFORE) == Ok((1, 32)));
    assert!(rt; has_bytes(rt.alloc(), &mut disk, &ONE_ENTRY) == Ok(true));
    assert!(rt; has_entry(rt.alloc(), &mut disk, 1, b"ab") == Ok(true));
    Ok(())
}
