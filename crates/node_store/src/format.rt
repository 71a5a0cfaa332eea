//! A disk that is made an empty journal.
ghost use Rattle.std.specs.Prelude.{◌≡◌, ◌⊎◌, ◌-◌, ◌≤◌, ℕ, List, [], false, Some, Err, length, slice_get, IsTrue, IfOk};
ghost use Rattle.std.specs.Prelude.{IfErr, OnOk};
ghost use Rattle.rm_disk.specs.Call.{crashes_of, seen_of};
ghost use Rattle.rm_disk.specs.Cause.{HasCause};
ghost use Rattle.rm_disk.specs.Journal.Journal.{Fits};
ghost use Rattle.rm_disk.specs.Journal.JournalState.{journal_of};
ghost use Rattle.node_store.specs.Changes.{KeepsUnarmed};
ghost use Rattle.node_store.specs.Failed.{is_disk};
ghost use Rattle.node_store.specs.declared.error.StoreError.TheVariants.{Memory as WantsMemory, Disk as DiskFails};

use crate::error::StoreError;
use rm_disk::ReadDisk;
use rm_disk::journal::{Journal, JournalError};
use std::alloc::Global;

/// Makes a disk an empty journal.
pub fn format<D: ReadDisk>(alloc: Global, disk: &mut D) -> Result<Journal, StoreError>
    ensures made { IfOk result (λ journal. journal ≡ journal_of []) }
    ensures fits { IsTrue D.tells → IfOk result (Fits [] (D.told disk.new).past) }
    ensures wanted { IsTrue D.tells → result ≡ Err WantsMemory → (D.told disk.new).past ≡ (D.told disk.old).past }
    ensures unarmed { IsTrue D.tells → KeepsUnarmed (D.told disk.old).fuse (D.told disk.new).fuse (is_disk result) }
    ensures refusals { IfErr result (λ error. (error ≡ WantsMemory) ⊎ (error ≡ DiskFails)) }
    ensures cause { HasCause (D.told disk.old).faults (D.told disk.new).faults (is_disk result) }
    ensures crashes { IsTrue D.tells → crashes_of (D.told disk.new).past ≡ crashes_of (D.told disk.old).past }
{
    match Journal::format(alloc, disk) {
        Ok(journal) => Ok(journal),
        Err(JournalError::Memory) => Err(StoreError::Memory),
        Err(JournalError::Disk) => Err(StoreError::Disk),
        Err(JournalError::NotAJournal) => unreachable!(),
        Err(JournalError::EntryTooLong { .. }) => unreachable!(),
        Err(JournalError::Full { .. }) => unreachable!(),
        Err(JournalError::Down) => unreachable!(),
    }
}
