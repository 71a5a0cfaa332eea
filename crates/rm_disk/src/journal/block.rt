//! The four device calls that add an entry, and the five that write a list anew.

ghost use Rattle.std.specs.Prelude.{◌≡◌, ◌+◌, ◌<◌, ◌≤◌, ◌^◌, [], ◌∷◌, ◌++◌, length, IsTrue, is_ok, is_err, IfOk, OnOk};
ghost use Rattle.std.specs.Prelude.{min, ◌-◌};
ghost use Rattle.std.specs.Int.{w32, to_be_bytes};
ghost use Rattle.rm_disk.specs.Call.{seen_of};
ghost use Rattle.rm_disk.specs.Cause.{HasCause};
ghost use Rattle.rm_disk.specs.Fuse.{Burns};
ghost use Rattle.rm_disk.specs.Spare.{Covers};
ghost use Rattle.rm_disk.specs.Journal.Entries.{first_front, longest, block, list_of as list_in, AllFit, gates_from};
ghost use Rattle.rm_disk.specs.Journal.Journal.{selector_of};
ghost use Rattle.rm_disk.specs.Journal.Scan.{WritesBlock, WritesList};

use crate::Disk;
use crate::journal::scan::slot_of;
use rm_base::{Blob, Failed};
use std::alloc::{AllocError, Global};

/// What stands behind the gate of an entry: its length, the entry and the next closed gate.
pub fn body_of(alloc: Global, entry: &[u8]) -> Result<Vec<u8>, AllocError>
    requires { length entry.now ≤ longest }
    ensures { IfOk result (λ body. body.items ≡ to_be_bytes w32 (length entry.now) ++ entry.now ++ 0 ∷ []) }
{
    let len = entry.len() as u32;
    let mut body = Vec::with_capacity(alloc, entry.len() + 5)?;
    body.extend_from_slice(&len.to_be_bytes())?;
    body.extend_from_slice(entry)?;
    body.push(0)?;
    Ok(body)
}

/// Writes a block behind a closed gate and opens the gate.
pub fn write_block<D: Disk>(disk: &mut D, gate: u64, body: &[u8]) -> Result<(), Failed>
    requires within { IsTrue D.tells → gate < length (seen_of (D.told disk.old).past) }
    requires fits { gate + 1 < 2 ^ 64 }
    requires room { Covers (D.spare disk.old) 4 (length body.now + 1) }
    ensures calls { IsTrue D.tells →
        WritesBlock gate body.now (D.told disk.old).past (D.told disk.new).past (is_ok result) }
    ensures fuse { IsTrue D.tells → Burns 4 (D.told disk.old).fuse (D.told disk.new).fuse (is_ok result) }
    ensures cause { HasCause (D.told disk.old).faults (D.told disk.new).faults (is_err result) }
{
    disk.write_at(gate + 1, body)?;
    // What stands behind the gate has to be on the disk before the gate opens: a crash may leave anything there.
    disk.sync()?;
    disk.write_at(gate, &[1])?;
    disk.sync()
}

/// How many bytes a list takes, or the greatest number where that is less.
pub fn size_of(fresh: &[Blob]) -> u64
    ensures { result ≡ min (length (list_in fresh.now)) (2 ^ 64 - 1) }
{
    let mut size: u64 = 1;
    let mut k = 0;
    while k < fresh.len() {
        size = size.saturating_add(fresh[k].len() as u64).saturating_add(5);
        k += 1;
    }
    size
}

/// A list, and the places of its gates where it begins at this one.
#[derive(Debug, Drop)]
pub struct Written {
    pub bytes: Vec<u8>,
    pub gates: Vec<u64>,
}

/// Appends an open gate, the entry's length and the entry.
fn push_block(bytes: &mut Vec<u8>, entry: &[u8]) -> Result<(), AllocError>
    requires { length entry.now ≤ longest }
    ensures { OnOk result (bytes.new.items ≡ bytes.old.items ++ block entry.now) }
{
    let len = entry.len() as u32;
    bytes.push(1)?;
    bytes.extend_from_slice(&len.to_be_bytes())?;
    bytes.extend_from_slice(entry)?;
    Ok(())
}

/// The byte that has this start count.
fn selector(second: bool) -> u8
    ensures { result ≡ selector_of second }
{
    if second { 1 } else { 0 }
}

/// The list as it is written from this place on.
pub fn list_of(alloc: Global, start: u64, fresh: &[Blob]) -> Result<Written, AllocError>
    requires short { AllFit fresh.now }
    requires fits { start + length (list_in fresh.now) < 2 ^ 64 }
    ensures bytes { IfOk result (λ list. list.bytes.items ≡ list_in fresh.now) }
    ensures gates { IfOk result (λ list. list.gates.items ≡ gates_from start fresh.now) }
{
    let mut bytes = Vec::with_capacity(alloc, size_of(fresh) as usize)?;
    let mut gates = Vec::with_capacity(alloc, fresh.len())?;
    let mut at = start;
    let mut k = 0;
    while k < fresh.len() {
        push_block(&mut bytes, fresh[k].as_slice())?;
        at += 5 + fresh[k].len() as u64;
        gates.push(at)?;
        k += 1;
    }
    bytes.push(0)?;
    Ok(Written { bytes, gates })
}

/// The front of the first bank, these blocks and a closed gate.
pub fn first_text(alloc: Global, blocks: &[u8]) -> Result<Vec<u8>, AllocError>
    ensures { IfOk result (λ text. text.items ≡ first_front ++ blocks.now ++ 0 ∷ []) }
{
    let mut text = Vec::new(alloc);
    text.extend_from_slice(b"WSRMJNL2\0\0\0\0\0\0\0\0\x19\0\0\0\0\0\0\0\x19")?;
    text.extend_from_slice(blocks)?;
    text.push(0)?;
    Ok(text)
}

/// Writes a list and its start, and turns the selector to it.
pub fn write_list<D: Disk>(
    disk: &mut D,
    start: u64,
    list: &[u8],
    second: bool,
) -> Result<(), Failed>
    requires within { IsTrue D.tells → start ≤ length (seen_of (D.told disk.old).past) }
    requires front { IsTrue D.tells → 25 ≤ length (seen_of (D.told disk.old).past) }
    requires room { Covers (D.spare disk.old) 5 (length list.now + 9) }
    ensures calls { IsTrue D.tells → WritesList (record { second = second; start = start }) list.now
        (D.told disk.old).past (D.told disk.new).past (is_ok result) }
    ensures fuse { IsTrue D.tells → Burns 5 (D.told disk.old).fuse (D.told disk.new).fuse (is_ok result) }
    ensures cause { HasCause (D.told disk.old).faults (D.told disk.new).faults (is_err result) }
{
    disk.write_at(start, list)?;
    disk.write_at(slot_of(second) as u64, &start.to_be_bytes())?;
    // The list and its start have to be on the disk before the selector names them: a crash may leave anything there.
    disk.sync()?;
    disk.write_at(8, &[selector(second)])?;
    disk.sync()
}
