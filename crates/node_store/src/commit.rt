//! Records are written, all or none: the function that carries each promise of what a crash leaves.
ghost use Rattle.std.specs.Prelude.{◌≡◌, ◌≢◌, ◌⊎◌, [], ◌∷◌, List, true, false, map, IsTrue, is_ok, IfOk, IfErr};
ghost use Rattle.std.specs.List.{list_all};
ghost use Rattle.node_laws.specs.Sizes.Room.{IsWithin};
ghost use Rattle.record_batch.specs.Fact.{Fact, Made, fact_of};
ghost use Rattle.rm_base.specs.Text.{IsText};
ghost use Rattle.rm_disk.specs.Cause.{HasCause};
ghost use Rattle.rm_disk.specs.Journal.JournalState.{end_of};
ghost use Rattle.node_tables.specs.Room.{has_room};
ghost use Rattle.record_batch.specs.Sequences.Fits.{all_fit};
ghost use Rattle.node_store.specs.Changes.{Changes};
ghost use Rattle.node_store.specs.Has.{Holds};
ghost use Rattle.node_store.specs.Failed.{is_disk};
ghost use Rattle.node_store.specs.Stored.{stored, stored_after};
ghost use Rattle.node_store.specs.declared.error.StoreError.TheVariants.{Memory as WantsMemory, Disk as DiskFails};

use crate::error::StoreError;
use node_laws::sizes::laws::a_batch_that_fits_is_short;
use node_tables::{TableError, Tables};
use record_batch::{Record, write_batch};
use rm_base::{Memory, Uri};
use rm_disk::Disk;
use rm_disk::journal::{Journal, JournalError};
use std::alloc::Global;

/// The batch of a node that is made.
pub fn first_batch(alloc: Global, number: u64, address: Uri) -> Result<Vec<Record>, Memory>
    ensures batch { IfOk result (λ batch. map fact_of batch.items ≡ Made number address ∷ []) }
    ensures text { IsText 2048 address }
{
    let _bytes = address.as_slice();
    let mut batch = Vec::new(alloc);
    batch.push(Record::Made {
        node: number,
        address,
    })?;
    Ok(batch)
}

/// Adds a batch of records to the journal, and then the records to the tables. All memory is taken before the first
/// device call. For Dropped and Purged no room is made, so a batch with one, which no call of a node has, wants memory.
pub fn commit<D: Disk>(
    alloc: Global,
    journal: &mut Journal,
    tables: &mut Tables,
    disk: &mut D,
    batch: Vec<Record>,
) -> Result<(), StoreError>
    requires up { journal.old.is_down ≡ false }
    requires holds { IsTrue D.tells →
        (batches : List (List Fact)) × Holds batches (D.told disk.old).past (stored journal.old tables.old.records) }
    requires some { map fact_of batch.items ≢ [] }
    requires fit { all_fit tables.old.records (map fact_of batch.items) ≡ true }
    requires room { IsWithin (end_of journal.old) (map fact_of batch.items) }
    ensures stored { stored journal.new tables.new.records ≡ stored_after (stored journal.old tables.old.records)
        (map fact_of batch.items) (is_ok result) (is_disk result) }

    // On a disk that tells, at Ok the records are there for good, and a crash at any moment of the call leaves the
    // batches as they were, or with this one.
    ensures changes { IsTrue D.tells → Changes (D.told disk.old)
        (D.told disk.new) (stored journal.old tables.old.records)
        (stored journal.new tables.new.records) (map fact_of batch.items) (is_ok result) (is_disk result) }

    ensures refusals { IfErr result (λ error. (error ≡ WantsMemory) ⊎ (error ≡ DiskFails)) }
    ensures cause { HasCause (D.told disk.old).faults (D.told disk.new).faults (is_disk result) }
{
    a_batch_that_fits_is_short();
    if !have_room(&batch) {
        return Err(StoreError::Memory);
    }
    tables.reserve(&batch)?;
    let entry = write_batch(alloc, &batch)?;
    match journal.append(disk, entry.as_slice()) {
        Ok(()) => {}
        Err(JournalError::Memory) => return Err(StoreError::Memory),
        Err(JournalError::Disk) => return Err(StoreError::Disk),
        Err(JournalError::NotAJournal) => unreachable!(),
        Err(JournalError::EntryTooLong { .. }) => unreachable!(),
        Err(JournalError::Full { .. }) => unreachable!(),
        Err(JournalError::Down) => unreachable!(),
    }
    match tables.apply_all(batch) {
        Ok(()) => Ok(()),
        Err(TableError::Memory) => unreachable!(),
        Err(TableError::Misfit) => unreachable!(),
    }
}

// Whether room is made for all of these records.
fn have_room(batch: &[Record]) -> bool
    ensures { result ≡ list_all has_room (map fact_of batch.now) }
{
    for given in batch {
        if !has_room(given) {
            return false;
        }
    }
    true
}

// Whether room is made for a record: for those that a list that is written anew has alone, none is.
fn has_room(given: &Record) -> bool
    ensures { result ≡ has_room (fact_of given.now) }
{
    match given {
        Record::Dropped { .. } => false,
        Record::Purged { .. } => false,
        Record::Made { .. } | Record::Creating { .. } | Record::Created { .. } => true,
        Record::Granted { .. } | Record::Accepted { .. } | Record::Acked { .. } => true,
        Record::Received { .. } | Record::Closing { .. } | Record::ClosedOut { .. } => true,
        Record::Closed { .. } | Record::Ending { .. } | Record::EndedOut { .. } => true,
        Record::Ended { .. } | Record::Failed { .. } | Record::Consumed { .. } => true,
    }
}
