//! The entries of a journal, read one after the other into tables.
ghost use Rattle.std.specs.Prelude.{◌≡◌, ◌⊎◌, ◌-◌, ◌≤◌, ◌++◌, ℕ, List, true, false, Err, None, Some, length, map};
ghost use Rattle.std.specs.Prelude.{slice_get, IfErr, IfOk, IsTrue, OnOk};
ghost use Rattle.std.specs.List.{AllByRecursion};
ghost use Rattle.record_batch.specs.Batch.{batch_at, batch_text};
ghost use Rattle.record_batch.specs.Fact.{Fact, fact_of};
ghost use Rattle.record_batch.specs.Writable.{IsBatch, IsWritable};
ghost use Rattle.rm_disk.specs.Cause.{HasCause};
ghost use Rattle.rm_disk.specs.Journal.Journal.{Fits};
ghost use Rattle.record_batch.specs.Sequences.Fits.{all_fit};
ghost use Rattle.node_laws.specs.Records.{KeepsLimits};
ghost use Rattle.node_store.specs.Changes.{KeepsUnarmed};
ghost use Rattle.node_store.specs.Mounted.{AreReplayed, AreReplayedFrom, has_failed, IsAdded, IsMore, IsStuck};
ghost use Rattle.node_store.specs.Mounted.{Replays};
ghost use Rattle.node_store.specs.declared.error.MountError.TheVariants.{Memory as NoMemory, Disk as DiskBroke};
ghost use Rattle.node_store.specs.declared.error.MountError.TheVariants.{NotAJournal as IsNoJournal};

use crate::error::MountError;
use crate::limits::keep_limits;
use node_tables::{TableError, Tables};
use record_batch::laws::what_is_written_is_read;
use record_batch::{BatchError, Record, read_batch};
use rm_base::Blob;
use rm_disk::ReadDisk;
use rm_disk::journal::{Journal, JournalError};
use std::alloc::Global;

/// The tables of the records of a journal's entries, where each entry is a batch whose records may come after those
/// before it and keep their limits. One entry is held at a time.
pub(crate) fn replay<D: ReadDisk>(
    alloc: Global,
    journal: &mut Journal,
    disk: &mut D,
) -> Result<Tables, MountError>
    requires up { journal.old.is_down ≡ false }
    requires fits { IsTrue D.tells → (entries : List (List ℕ)) × Fits entries (D.told disk.old).past journal.old }
    ensures found { IsTrue D.tells → (entries : List (List ℕ)) → Fits entries (D.told disk.old).past journal.old →
        IfOk result (λ tables. Replays entries tables.records) }
    ensures none { IsTrue D.tells → result ≡ Err IsNoJournal → (entries : List (List ℕ)) →
        Fits entries (D.told disk.old).past journal.old → (batches : List (List Fact)) →
        ¬ (AreReplayed batches entries) }
    ensures sound { IfOk result (λ tables. AreReplayedFrom tables.records) }
    ensures journal { OnOk result (journal.new ≡ journal.old) }
    ensures refusals { IfErr result (λ error. (error ≡ NoMemory) ⊎ (error ≡ DiskBroke) ⊎ (error ≡ IsNoJournal)) }
    ensures past { IsTrue D.tells → (D.told disk.new).past ≡ (D.told disk.old).past }
    ensures unarmed { IsTrue D.tells → KeepsUnarmed (D.told disk.old).fuse (D.told disk.new).fuse (has_failed result) }
    ensures cause { HasCause (D.told disk.old).faults (D.told disk.new).faults (has_failed result) }
{
    what_is_written_is_read();
    let mut tables = Tables::new(alloc);
    for before in 0..journal.count() {
        add_entry(alloc, journal, &mut tables, disk, before + 1)?;
    }
    Ok(tables)
}

/// Adds the records of the entry with a number, counted from 1.
fn add_entry<D: ReadDisk>(
    alloc: Global,
    journal: &mut Journal,
    tables: &mut Tables,
    disk: &mut D,
    number: u64,
) -> Result<(), MountError>
    requires number { (1 ≤ number) × (number ≤ length journal.old.gates) }
    requires up { journal.old.is_down ≡ false }
    requires fits { IsTrue D.tells → (entries : List (List ℕ)) × Fits entries (D.told disk.old).past journal.old }
    ensures added { IsTrue D.tells → (entries : List (List ℕ)) → Fits entries (D.told disk.old).past journal.old →
        OnOk result (IsAdded tables.old.records tables.new.records entries (number - 1)) }
    ensures none { IsTrue D.tells → result ≡ Err IsNoJournal → (entries : List (List ℕ)) →
        Fits entries (D.told disk.old).past journal.old → IsStuck tables.old.records entries (number - 1) }
    ensures more { OnOk result (IsMore tables.old.records tables.new.records) }
    ensures journal { OnOk result (journal.new ≡ journal.old) }
    ensures refusals { IfErr result (λ error. (error ≡ NoMemory) ⊎ (error ≡ DiskBroke) ⊎ (error ≡ IsNoJournal)) }
    ensures past { IsTrue D.tells → (D.told disk.new).past ≡ (D.told disk.old).past }
    ensures unarmed { IsTrue D.tells → KeepsUnarmed (D.told disk.old).fuse (D.told disk.new).fuse (has_failed result) }
    ensures cause { HasCause (D.told disk.old).faults (D.told disk.new).faults (has_failed result) }
{
    what_is_written_is_read();
    let entry = read_entry(journal, disk, number)?;
    let batch = records_of(alloc, entry.as_slice())?;
    add_batch(alloc, tables, batch)
}

/// The entry with a number, counted from 1.
fn read_entry<D: ReadDisk>(
    journal: &mut Journal,
    disk: &mut D,
    number: u64,
) -> Result<Blob, MountError>
    requires number { (1 ≤ number) × (number ≤ length journal.old.gates) }
    requires up { journal.old.is_down ≡ false }
    requires fits { IsTrue D.tells → (entries : List (List ℕ)) × Fits entries (D.told disk.old).past journal.old }
    ensures value { IsTrue D.tells → (entries : List (List ℕ)) → Fits entries (D.told disk.old).past journal.old →
        IfOk result (λ entry. slice_get entries (number - 1) ≡ Some entry) }
    ensures journal { OnOk result (journal.new ≡ journal.old) }
    ensures refusals { IfErr result (λ error. (error ≡ NoMemory) ⊎ (error ≡ DiskBroke)) }
    ensures past { IsTrue D.tells → (D.told disk.new).past ≡ (D.told disk.old).past }
    ensures unarmed { IsTrue D.tells → KeepsUnarmed (D.told disk.old).fuse (D.told disk.new).fuse (has_failed result) }
    ensures cause { HasCause (D.told disk.old).faults (D.told disk.new).faults (has_failed result) }
{
    match journal.entry(disk, number) {
        Ok(entry) => Ok(entry),
        Err(JournalError::Memory) => Err(MountError::Memory),
        Err(JournalError::Disk) => Err(MountError::Disk),
        Err(JournalError::NotAJournal) => unreachable!(),
        Err(JournalError::EntryTooLong { .. }) => unreachable!(),
        Err(JournalError::Full { .. }) => unreachable!(),
        Err(JournalError::Down) => unreachable!(),
    }
}

/// The records of an entry.
fn records_of(alloc: Global, entry: &[u8]) -> Result<Vec<Record>, MountError>
    ensures text { IfOk result (λ batch. entry.now ≡ batch_text (map fact_of batch.items)) }
    ensures rules { IfOk result (λ batch. IsBatch (map fact_of batch.items)) }
    ensures none { result ≡ Err IsNoJournal → batch_at entry.now ≡ None }
    ensures refusals { IfErr result (λ error. (error ≡ NoMemory) ⊎ (error ≡ IsNoJournal)) }
{
    match read_batch(alloc, entry) {
        Ok(batch) => Ok(batch.into_vec()),
        Err(BatchError::Memory) => Err(MountError::Memory),
        Err(BatchError::NotABatch { .. }) => Err(MountError::NotAJournal),
    }
}

/// Adds records that may come next and keep their limits.
fn add_batch(alloc: Global, tables: &mut Tables, batch: Vec<Record>) -> Result<(), MountError>
    requires { AllByRecursion IsWritable (map fact_of batch.items) }
    ensures added { OnOk result (tables.new.records ≡ tables.old.records ++ map fact_of batch.items) }
    ensures fit { OnOk result (all_fit tables.old.records (map fact_of batch.items) ≡ true) }
    ensures kept { OnOk result (AllByRecursion KeepsLimits (map fact_of batch.items)) }
    ensures none { result ≡ Err IsNoJournal → all_fit tables.old.records (map fact_of batch.items) ≡ true →
        ¬ (AllByRecursion KeepsLimits (map fact_of batch.items)) }
    ensures refusals { IfErr result (λ error. (error ≡ NoMemory) ⊎ (error ≡ IsNoJournal)) }
{
    if !keep_limits(alloc, &batch)? {
        return Err(MountError::NotAJournal);
    }
    match tables.apply_all(batch) {
        Ok(()) => Ok(()),
        Err(TableError::Memory) => Err(MountError::Memory),
        Err(TableError::Misfit) => Err(MountError::NotAJournal),
    }
}
