//! Where an entry stands, and the bytes that stand at a place.

ghost use Rattle.std.specs.Prelude.{◌≡◌, ◌⊎◌, ◌+◌, ◌-◌, ◌<◌, ◌≤◌, ℕ, [], ◌∷◌, List, true, false, length, take, drop};
ghost use Rattle.std.specs.Prelude.{slice_index, slice_index_or, IsTrue, is_ok, IfOk, IfErr};
ghost use Rattle.rm_disk.specs.Call.{seen_of};
ghost use Rattle.rm_disk.specs.Cause.{HasCause};
ghost use Rattle.rm_disk.specs.Fuse.{Burns};
ghost use Rattle.rm_disk.specs.Journal.Entries.{gates_from, first_of};
ghost use Rattle.rm_disk.specs.Journal.Journal.{is_disk, is_memory};
ghost use Rattle.rm_disk.specs.declared.journal.error.JournalError.TheVariants.{Memory as WantsMemory};
ghost use Rattle.rm_disk.specs.declared.journal.error.JournalError.TheVariants.{Disk as DiskFails};

use crate::ReadDisk;
use crate::journal::JournalError;
use std::alloc::Global;

/// The place of the gate before an entry. The entry is counted from 0.
fn gate_before(start: u64, gates: &[u64], k: usize) -> u64
    requires { k < length gates.now }
    ensures { result ≡ slice_index (start ∷ gates.now) k }
{
    if k == 0 { start } else { gates[k - 1] }
}

/// The last gate, or the start where there is none.
pub fn last_gate(gates: &[u64], start: u64) -> u64
    ensures { result ≡ slice_index_or gates.now (length gates.now - 1) start }
{
    match gates.last() {
        Some(&gate) => gate,
        None => start,
    }
}

/// The place of the first byte of an entry and its length. The entry is counted from 0.
pub fn span_of(start: u64, gates: &[u64], k: usize) -> (u64, u64)
    requires { k < length gates.now }
    ensures place { (entries : List (List ℕ)) → gates.now ≡ gates_from start entries →
        result.0 ≡ first_of start gates.now k }
    ensures size { (entries : List (List ℕ)) → gates.now ≡ gates_from start entries →
        result.1 ≡ length (slice_index_or entries k []) }
{
    let first = gate_before(start, gates, k).saturating_add(5);
    (first, gates[k].saturating_sub(first))
}

/// So many bytes from a place on, in one device call. Memory comes before it.
pub fn read_bytes<D: ReadDisk>(
    alloc: Global,
    disk: &mut D,
    at: u64,
    len: u64,
) -> Result<Vec<u8>, JournalError>
    requires { IsTrue D.tells → at + len ≤ length (seen_of (D.told disk.old).past) }
    ensures gives { IsTrue D.tells →
        IfOk result (λ bytes. bytes.items ≡ take len (drop at (seen_of (D.told disk.old).past))) }
    ensures refusals { IfErr result (λ error. (error ≡ WantsMemory) ⊎ (error ≡ DiskFails)) }
    ensures past { IsTrue D.tells → (D.told disk.new).past ≡ (D.told disk.old).past }
    ensures untouched { IsTrue D.tells → is_memory result ≡ true → (D.told disk.new).fuse ≡ (D.told disk.old).fuse }
    ensures fuse { IsTrue D.tells → is_memory result ≡ false →
        Burns 1 (D.told disk.old).fuse (D.told disk.new).fuse (is_ok result) }
    ensures cause { HasCause (D.told disk.old).faults (D.told disk.new).faults (is_disk result) }
{
    let mut bytes = vec![in alloc; 0; len as usize]?;
    disk.read(at, &mut bytes)?;
    Ok(bytes)
}
