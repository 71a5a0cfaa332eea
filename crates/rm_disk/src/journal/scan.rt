//! The walk over the gates of a journal that is read.

ghost use Rattle.std.specs.Prelude.{◌≡◌, ◌⊎◌, ◌↔◌, ◌+◌, ◌<◌, ◌≤◌, ◌^◌, ℕ, List, length, take, drop, None, Err, IsTrue};
ghost use Rattle.std.specs.Prelude.{IfSome, IfOk, IfErr};
ghost use Rattle.std.specs.Int.{w32, w64, to_be_bytes, from_be_bytes};
ghost use Rattle.rm_disk.specs.Journal.Entries.{Bank, EndsBlocks, IsFront, is_odd, slot_of as slot_in, gates_from};
ghost use Rattle.rm_disk.specs.Journal.Scan.{IsFound};
ghost use Rattle.rm_disk.specs.declared.journal.error.JournalError.TheVariants.{Memory as WantsMemory, NotAJournal};

use crate::journal::JournalError;
use rm_base::limits::ENTRY_BYTES;
use std::alloc::Global;

/// What a journal begins with.
pub const HEAD: &[u8; 8] = b"WSRMJNL2";

/// What a journal of the layout before begins with.
pub const HEAD_BEFORE: &[u8; 8] = b"WSRMJNL1";

/// What stands at a gate: it is closed, or an entry of this length follows, or neither.
#[derive(Clone, Copy, Debug, PartialEq, Eq)]
pub enum Found {
    End,
    Entry(usize),
    Bad,
}

/// Whether a gate is open.
pub fn is_open(gate: u8) -> bool
    ensures { IsTrue result ↔ (gate ≡ 1) }
{
    gate == 1
}

/// The number that four bytes stand for, the first byte highest.
pub fn number(bytes: &[u8]) -> u32
    requires { length bytes.now ≡ 4 }
    ensures { to_be_bytes w32 result ≡ bytes.now }
{
    u32::from_be_bytes([bytes[0], bytes[1], bytes[2], bytes[3]])
}

/// What stands at the gate that comes first.
pub fn look(rest: &[u8]) -> Found
    ensures { IsFound result rest.now }
{
    if rest.is_empty() {
        return Found::Bad;
    }
    if !is_open(rest[0]) {
        return Found::End;
    }
    if rest.len() < 5 {
        return Found::Bad;
    }
    let len = number(&rest[1..5]) as usize;
    if len > ENTRY_BYTES {
        return Found::Bad;
    }
    if len > rest.len() - 5 {
        return Found::Bad;
    }
    Found::Entry(len)
}

/// Whether a selector has the second start count.
pub fn is_second(selector: u8) -> bool
    ensures { result ≡ is_odd selector }
{
    selector % 2 == 1
}

/// The start at a place.
fn start_at(bytes: &[u8], at: usize) -> u64
    requires { at + 8 ≤ length bytes.now }
    ensures { result ≡ from_be_bytes w64 (take 8 (drop at bytes.now)) }
{
    u64::from_be_bytes([
        bytes[at],
        bytes[at + 1],
        bytes[at + 2],
        bytes[at + 3],
        bytes[at + 4],
        bytes[at + 5],
        bytes[at + 6],
        bytes[at + 7],
    ])
}

/// Which start counts, and that start, where it lies behind the front and within the bytes.
pub fn bank_of(bytes: &[u8]) -> Option<(bool, usize)>
    ensures some { IfSome result (λ bank. IsFront (record { second = bank.0; start = bank.1 }) bytes.now) }
    ensures within { IfSome result (λ bank. bank.1 < length bytes.now) }
    ensures none { result ≡ None → (bank : Bank) → IsFront bank bytes.now → bank.start < length bytes.now → ⊥ }
{
    if !bytes.starts_with(HEAD) {
        return None;
    }
    if bytes.len() < 25 {
        return None;
    }
    let second = is_second(bytes[8]);
    let slot = slot_of(second);
    let start = start_at(bytes, slot);
    if start < 25 {
        return None;
    }
    if start >= bytes.len() as u64 {
        return None;
    }
    Some((second, start as usize))
}

/// The place of a start.
pub fn slot_of(second: bool) -> usize
    ensures { result ≡ slot_in second }
{
    if second { 17 } else { 9 }
}

/// The place of the gate behind each entry, from a start on.
pub fn gates_of(alloc: Global, start: u64, bytes: &[u8]) -> Result<Vec<u64>, JournalError>
    requires { start + length bytes.now < 2 ^ 64 }
    ensures stands { IfOk result (λ gates. (entries : List (List ℕ)) ×
        EndsBlocks entries bytes.now × (gates.items ≡ gates_from start entries)) }
    ensures none { result ≡ Err NotAJournal → (entries : List (List ℕ)) → EndsBlocks entries bytes.now → ⊥ }
    ensures refusals { IfErr result (λ error. (error ≡ WantsMemory) ⊎ (error ≡ NotAJournal)) }
{
    let mut rest = bytes;
    let mut gates = Vec::new(alloc);
    let mut at = start;
    loop {
        match look(rest) {
            Found::End => return Ok(gates),
            Found::Bad => return Err(JournalError::NotAJournal),
            Found::Entry(len) => {
                at += 5 + len as u64;
                gates.push(at)?;
                rest = &rest[5 + len..];
            }
        }
    }
}
