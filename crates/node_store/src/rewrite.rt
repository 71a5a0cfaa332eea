//! The journal of a node is written anew: the records of a snapshot, each as an entry of its own.
ghost use Rattle.std.specs.Prelude.{◌≡◌, ◌≢◌, ◌≤◌, ◌^◌, ◌-◌, ℕ, List, [], ◌∷◌, true, false, min, length, map, IsTrue};
ghost use Rattle.std.specs.Prelude.{is_ok, IfOk, IfErr, OnOk};
ghost use Rattle.record_batch.specs.Batch.{batch_text};
ghost use Rattle.record_batch.specs.Fact.{Fact, fact_of};
ghost use Rattle.rm_base.specs.Limits.{entry_bytes};
ghost use Rattle.rm_disk.specs.Cause.{HasCause};
ghost use Rattle.rm_disk.specs.Journal.Entries.{list_of};
ghost use Rattle.rm_protocol.specs.Node.{alone};
ghost use Rattle.node_store.specs.Has.{entries_of, Holds};
ghost use Rattle.node_store.specs.Rewrites.{Answers, Rewrites, disk_failed, fit_as_entries, refusal_by};
ghost use Rattle.node_store.specs.Rewrites.{fresh_entries, rewrite_refusal, rewritten};
ghost use Rattle.node_store.specs.Stored.{stored};
ghost use Rattle.node_store.specs.declared.error.RewriteError.TheVariants.{Disk as DiskFails};

use crate::error::RewriteError;
use node_laws::sizes::batch_len;
use node_laws::sizes::laws::a_batch_that_fits_is_short;
use node_tables::Tables;
use record_batch::{Record, Records, write_batch};
use rm_base::limits::ENTRY_BYTES;
use rm_base::{Blob, Memory};
use rm_disk::Disk;
use rm_disk::journal::{Journal, JournalError};
use std::alloc::Global;

/// What a list of entries measures: how many bytes it takes with the gate behind it, or the greatest number where that
/// is less, and whether each entry is short enough.
struct Measured {
    size: u64,
    fit: bool,
}

/// What the list of these records measures, each as an entry of its own.
fn measure(alloc: Global, records: &[Record]) -> Result<Measured, Memory>
    ensures size { IfOk result (λ m.
        m.size ≡ min (length (list_of (entries_of (alone (map fact_of records.now))))) (2 ^ 64 - 1)) }
    ensures fit { IfOk result (λ m. m.fit ≡ fit_as_entries (entries_of (alone (map fact_of records.now)))) }
{
    let mut size: u64 = 1;
    let mut fit = true;
    for k in 0..records.len() {
        let len = batch_len(alloc, &records[k..k + 1])?;
        fit = fit && len <= ENTRY_BYTES as u64;
        size = size.saturating_add(len).saturating_add(5);
    }
    Ok(Measured { size, fit })
}

/// Why a list that measures this isn't written.
fn refusal(journal: &Journal, size: u64, fit: bool) -> Option<RewriteError>
    requires { journal.now.is_down ≡ false }
    ensures { (n : ℕ) → size ≡ min n (2 ^ 64 - 1) → 1 ≤ n → result ≡ refusal_by journal.now fit n }
{
    let is_placed = journal.list_refusal(size).is_none();
    if fit && is_placed {
        return None;
    }
    Some(RewriteError::Full {
        end: journal.end(),
        needed: size.saturating_add(1),
    })
}

/// The entry of a record alone.
fn entry_alone(alloc: Global, given: Record) -> Result<Blob, Memory>
    requires { length (batch_text (fact_of given ∷ [])) ≤ entry_bytes }
    ensures { IfOk result (λ entry. entry ≡ batch_text (fact_of given ∷ [])) }
{
    a_batch_that_fits_is_short();
    let batch = [given];
    write_batch(alloc, &batch)
}

/// The entries of records, each of its own. A record is given up as soon as it is written.
fn entries_alone(alloc: Global, records: Records) -> Result<Vec<Blob>, Memory>
    requires { fit_as_entries (entries_of (alone (map fact_of records))) ≡ true }
    ensures { IfOk result (λ entries. entries.items ≡ entries_of (alone (map fact_of records))) }
{
    let mut entries = Vec::with_capacity(alloc, records.len())?;
    let mut rest = records.into_vec().into_iter();
    while let Some(given) = rest.next() {
        entries.push(entry_alone(alloc, given)?)?;
    }
    Ok(entries)
}

/// The entries of the snapshot of all records, for which the journal has a place.
fn prepare(alloc: Global, journal: &Journal, tables: &mut Tables) -> Result<Vec<Blob>, RewriteError>
    requires up { journal.now.is_down ≡ false }
    ensures entries { IfOk result (λ entries. entries.items ≡ fresh_entries tables.old.records) }
    ensures fit { OnOk result (fit_as_entries (fresh_entries tables.old.records) ≡ true) }
    ensures refusals { Answers (rewrite_refusal (stored journal.now tables.old.records)) result }
    ensures early { IfErr result (λ error. error ≢ DiskFails) }
    ensures records { tables.new.records ≡ tables.old.records }
    ensures mark { OnOk result (tables.new.is_marked ≡ true) }
{
    let records = tables.snapshot()?;
    let Measured { size, fit } = measure(alloc, records.as_slice())?;
    if let Some(refusal) = refusal(journal, size, fit) {
        return Err(refusal);
    }
    Ok(entries_alone(alloc, records)?)
}

/// Writes the journal anew, and makes the tables those of the snapshot. All memory is taken before the first device
/// call, and a journal that would be too long is refused before its entries are made.
pub(crate) fn rewrite<D: Disk>(
    alloc: Global,
    journal: &mut Journal,
    tables: &mut Tables,
    disk: &mut D,
) -> Result<(), RewriteError>
    requires up { journal.old.is_down ≡ false }
    requires holds { IsTrue D.tells →
        (batches : List (List Fact)) × Holds batches (D.told disk.old).past (stored journal.old tables.old.records) }
    ensures stored { stored journal.new tables.new.records ≡ rewritten (stored journal.old tables.old.records)
        (is_ok result) (disk_failed result) }
    ensures rewrites { IsTrue D.tells → Rewrites (D.told disk.old)
        (D.told disk.new) (stored journal.old tables.old.records)
        (stored journal.new tables.new.records) (is_ok result) (disk_failed result) }
    ensures refusals { Answers (rewrite_refusal (stored journal.old tables.old.records)) result }
    ensures cause { HasCause (D.told disk.old).faults (D.told disk.new).faults (disk_failed result) }
{
    let entries = prepare(alloc, journal, tables)?;
    match journal.compact(disk, &entries) {
        Ok(()) => {}
        Err(JournalError::Memory) => return Err(RewriteError::Memory),
        Err(JournalError::Disk) => return Err(RewriteError::Disk),
        Err(JournalError::NotAJournal) => unreachable!(),
        Err(JournalError::EntryTooLong { .. }) => unreachable!(),
        Err(JournalError::Full { .. }) => unreachable!(),
        Err(JournalError::Down) => unreachable!(),
    }
    tables.compact();
    Ok(())
}
