//! The node that a disk holds.
ghost use Rattle.std.specs.Prelude.{◌≡◌, ◌≢◌, ◌⊎◌, ◌≤◌, ◌<◌, ◌^◌, ℕ, List, false, Err, IfErr, IfOk, IsTrue};
ghost use Rattle.std.specs.Prelude.{OnOk};
ghost use Rattle.record_batch.specs.Fact.{Fact};
ghost use Rattle.rm_disk.specs.Call.{crashes_of, seen_of};
ghost use Rattle.rm_disk.specs.Cause.{HasCause};
ghost use Rattle.rm_disk.specs.Image.{MayLeave, OnlyLeaves};
ghost use Rattle.rm_disk.specs.Journal.Entries.{StandsAt, StandsFor};
ghost use Rattle.rm_disk.specs.Journal.Journal.{Fits};
ghost use Rattle.rm_disk.specs.Journal.JournalState.{end_of};
ghost use Rattle.node_laws.specs.Records.{IsKept};
ghost use Rattle.node_store.specs.Changes.{KeepsUnarmed};
ghost use Rattle.node_store.specs.Has.{AreOfNode, entries_of};
ghost use Rattle.node_store.specs.Mounted.{AreServed, Finds, has_failed, IsNoNode};
ghost use Rattle.node_store.specs.Stored.{IsServing, stored};
ghost use Rattle.node_store.specs.declared.error.MountError.TheVariants.{Memory as NoMemory, Disk as DiskBroke};
ghost use Rattle.node_store.specs.declared.error.MountError.TheVariants.{NotAJournal as IsNoJournal};

use crate::error::MountError;
use crate::laws::batches_have_values;
use crate::replay::replay;
use crate::windows::{TOO_MANY_BYTES, keep_windows, may_serve};
use node_tables::Tables;
use record_batch::laws::what_is_written_is_read;
use record_batch::sequences::laws::a_byte_for_each_number;
use rm_disk::ReadDisk;
use rm_disk::journal::{Journal, JournalError};
use std::alloc::Global;

/// The journal of a node on a disk, and the tables of its records.
pub(crate) fn find<D: ReadDisk>(
    alloc: Global,
    disk: &mut D,
) -> Result<(Journal, Tables), MountError>
    ensures found { IsTrue D.tells →
        IfOk result (λ x. Finds (D.told disk.old).past (D.told disk.new).past (stored x.0 x.1.records)) }
    ensures none { IsTrue D.tells → result ≡ Err IsNoJournal → IsNoNode (seen_of (D.told disk.old).past) }
    ensures up { IfOk result (λ x. x.0.is_down ≡ false) }
    ensures serving { IfOk result (λ x. IsServing x.0 x.1.records) }
    ensures kept { IfOk result (λ x. IsKept x.1.records) }
    ensures refusals { IfErr result (λ error. (error ≡ NoMemory) ⊎ (error ≡ DiskBroke) ⊎ (error ≡ IsNoJournal)) }
    ensures seen { IsTrue D.tells → seen_of (D.told disk.new).past ≡ seen_of (D.told disk.old).past }
    ensures moments { IsTrue D.tells →
        OnlyLeaves (D.told disk.old).past (D.told disk.new).past (MayLeave (D.told disk.old).past) }
    ensures unarmed { IsTrue D.tells → KeepsUnarmed (D.told disk.old).fuse (D.told disk.new).fuse (has_failed result) }
    ensures cause { HasCause (D.told disk.old).faults (D.told disk.new).faults (has_failed result) }
    ensures crashes { IsTrue D.tells → crashes_of (D.told disk.new).past ≡ crashes_of (D.told disk.old).past }
{
    let mut journal = open(alloc, disk)?;
    if journal.end() >= TOO_MANY_BYTES {
        return Err(MountError::Memory);
    }
    let tables = serve(alloc, &mut journal, disk)?;
    Ok((journal, tables))
}

/// The tables of a journal's records, where its entries are the batches of a node.
pub(crate) fn serve<D: ReadDisk>(
    alloc: Global,
    journal: &mut Journal,
    disk: &mut D,
) -> Result<Tables, MountError>
    requires up { journal.old.is_down ≡ false }
    requires short { end_of journal.old < 2 ^ 61 }
    requires placed { journal.old.bank.start ≤ end_of journal.old }
    requires fits { IsTrue D.tells → (entries : List (List ℕ)) × Fits entries (D.told disk.old).past journal.old }
    ensures found { IsTrue D.tells → (entries : List (List ℕ)) → Fits entries (D.told disk.old).past journal.old →
        IfOk result (λ tables. AreServed entries tables.records) }
    ensures none { IsTrue D.tells → result ≡ Err IsNoJournal → (entries : List (List ℕ)) →
        Fits entries (D.told disk.old).past journal.old → (batches : List (List Fact)) → AreOfNode batches →
        entries ≢ entries_of batches }
    ensures journal { OnOk result (journal.new ≡ journal.old) }
    ensures serving { IfOk result (λ tables. IsServing journal.old tables.records) }
    ensures kept { IfOk result (λ tables. IsKept tables.records) }
    ensures refusals { IfErr result (λ error. (error ≡ NoMemory) ⊎ (error ≡ DiskBroke) ⊎ (error ≡ IsNoJournal)) }
    ensures past { IsTrue D.tells → (D.told disk.new).past ≡ (D.told disk.old).past }
    ensures unarmed { IsTrue D.tells → KeepsUnarmed (D.told disk.old).fuse (D.told disk.new).fuse (has_failed result) }
    ensures cause { HasCause (D.told disk.old).faults (D.told disk.new).faults (has_failed result) }
{
    what_is_written_is_read();
    batches_have_values();
    a_byte_for_each_number();
    let tables = replay(alloc, journal, disk)?;
    if !may_serve(journal, &tables) {
        return Err(MountError::NotAJournal);
    }
    if !keep_windows(&tables) {
        return Err(MountError::NotAJournal);
    }
    Ok(tables)
}

/// The journal on a disk.
fn open<D: ReadDisk>(alloc: Global, disk: &mut D) -> Result<Journal, MountError>
    ensures fits { IsTrue D.tells → IfOk result (λ journal. (entries : List (List ℕ))
        × StandsAt journal.bank entries (seen_of (D.told disk.old).past)
        × Fits entries (D.told disk.new).past journal) }
    ensures none { IsTrue D.tells → result ≡ Err IsNoJournal →
        (entries : List (List ℕ)) → ¬ (StandsFor entries (seen_of (D.told disk.old).past)) }
    ensures up { IfOk result (λ journal. journal.is_down ≡ false) }
    ensures placed { IfOk result (λ journal. journal.bank.start ≤ end_of journal) }
    ensures refusals { IfErr result (λ error. (error ≡ NoMemory) ⊎ (error ≡ DiskBroke) ⊎ (error ≡ IsNoJournal)) }
    ensures seen { IsTrue D.tells → seen_of (D.told disk.new).past ≡ seen_of (D.told disk.old).past }
    ensures moments { IsTrue D.tells →
        OnlyLeaves (D.told disk.old).past (D.told disk.new).past (MayLeave (D.told disk.old).past) }
    ensures unarmed { IsTrue D.tells → KeepsUnarmed (D.told disk.old).fuse (D.told disk.new).fuse (has_failed result) }
    ensures cause { HasCause (D.told disk.old).faults (D.told disk.new).faults (has_failed result) }
    ensures crashes { IsTrue D.tells → crashes_of (D.told disk.new).past ≡ crashes_of (D.told disk.old).past }
{
    match Journal::mount(alloc, disk) {
        Ok(journal) => Ok(journal),
        Err(JournalError::Memory) => Err(MountError::Memory),
        Err(JournalError::Disk) => Err(MountError::Disk),
        Err(JournalError::NotAJournal) => Err(MountError::NotAJournal),
        Err(JournalError::EntryTooLong { .. }) => unreachable!(),
        Err(JournalError::Full { .. }) => unreachable!(),
        Err(JournalError::Down) => unreachable!(),
    }
}
