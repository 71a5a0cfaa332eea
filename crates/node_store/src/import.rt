//! A disk that is made that of a node whose journal of the layout before is given.
ghost use Rattle.std.specs.Prelude.{◌≡◌, ◌≢◌, ◌⊎◌, ◌+◌, ◌≤◌, ℕ, List, true, false, Err, length, is_ok};
ghost use Rattle.std.specs.Prelude.{IfErr, IfOk, IsTrue};
ghost use Rattle.rm_base.specs.Limits.{journal_bytes};
ghost use Rattle.rm_disk.specs.Call.{crashes_of};
ghost use Rattle.rm_disk.specs.Cause.{HasCause};
ghost use Rattle.rm_disk.specs.Fuse.{Burns};
ghost use Rattle.rm_disk.specs.Journal.Entries.{list_of, StandsAsBefore};
ghost use Rattle.rm_disk.specs.Journal.Journal.{Fits};
ghost use Rattle.rm_disk.specs.Journal.JournalState.{journal_of};
ghost use Rattle.node_laws.specs.Records.{IsKept};
ghost use Rattle.node_store.specs.Changes.{KeepsUnarmed};
ghost use Rattle.node_store.specs.Imported.{Imports, import_failed, IsNoNodeBefore, IsTooLong, ServesAsBefore};
ghost use Rattle.node_store.specs.Stored.{IsServing, stored};
ghost use Rattle.node_store.specs.declared.error.ImportError.TheVariants.{Memory as NoMemory, Disk as DiskBroke};
ghost use Rattle.node_store.specs.declared.error.ImportError.TheVariants.{NotAJournal as IsNoJournal};

use crate::error::{ImportError, MountError};
use crate::mount::serve;
use node_tables::Tables;
use rm_disk::journal::{Journal, JournalError};
use rm_disk::{MemDisk, ReadDisk};
use std::alloc::Global;

/// The journal that a disk is made, and the tables of its records. The bytes are tested before the first device call.
pub(crate) fn import<D: ReadDisk>(
    alloc: Global,
    disk: &mut D,
    bytes: &[u8],
) -> Result<(Journal, Tables), ImportError>
    ensures imported { IfOk result (λ x.
        Imports D.tells bytes.now (D.told disk.new).past (stored x.0 x.1.records)) }
    ensures none { result ≡ Err IsNoJournal → IsNoNodeBefore bytes.now }
    ensures short { is_ok result ≡ true → (entries : List (List ℕ)) → StandsAsBefore entries bytes.now →
        25 + length (list_of entries) ≤ journal_bytes }
    ensures none_short { result ≡ Err IsNoJournal → (entries : List (List ℕ)) → StandsAsBefore entries bytes.now →
        25 + length (list_of entries) ≤ journal_bytes }
    ensures up { IfOk result (λ x. x.0.is_down ≡ false) }
    ensures serving { IfOk result (λ x. IsServing x.0 x.1.records) }
    ensures kept { IfOk result (λ x. IsKept x.1.records) }
    ensures refusals { IfErr result (λ error. (error ≡ NoMemory) ⊎ (error ≡ DiskBroke) ⊎ (error ≡ IsNoJournal)
        ⊎ IsTooLong bytes.now error) }
    ensures untouched { IsTrue D.tells → IfErr result (λ error. error ≢ DiskBroke →
        ((D.told disk.new).past ≡ (D.told disk.old).past) × ((D.told disk.new).fuse ≡ (D.told disk.old).fuse)) }
    ensures fuse { IsTrue D.tells → (is_ok result ≡ true) ⊎ (import_failed result ≡ true) →
        Burns 3 (D.told disk.old).fuse (D.told disk.new).fuse (is_ok result) }
    ensures unarmed { IsTrue D.tells →
        KeepsUnarmed (D.told disk.old).fuse (D.told disk.new).fuse (import_failed result) }
    ensures cause { HasCause (D.told disk.old).faults (D.told disk.new).faults (import_failed result) }
    ensures crashes { IsTrue D.tells → crashes_of (D.told disk.new).past ≡ crashes_of (D.told disk.old).past }
{
    let tables = tables_in(alloc, bytes)?;
    let journal = open_before(alloc, disk, bytes)?;
    Ok((journal, tables))
}

/// The tables of the records of bytes of the layout before, where these stand for the batches of a node by the tests of
/// `mount`. They are read over a disk in memory.
fn tables_in(alloc: Global, bytes: &[u8]) -> Result<Tables, ImportError>
    ensures serves { IfOk result (λ tables. ServesAsBefore bytes.now tables.records) }
    ensures none { result ≡ Err IsNoJournal → IsNoNodeBefore bytes.now }
    ensures none_short { result ≡ Err IsNoJournal → (entries : List (List ℕ)) → StandsAsBefore entries bytes.now →
        25 + length (list_of entries) ≤ journal_bytes }
    ensures kept { IfOk result (λ tables. IsKept tables.records) }
    ensures refusals { IfErr result (λ error. (error ≡ NoMemory) ⊎ (error ≡ IsNoJournal) ⊎ IsTooLong bytes.now error) }
{
    let mut shadow = MemDisk::new(alloc);
    let mut journal = open_before(alloc, &mut shadow, bytes)?;
    match serve(alloc, &mut journal, &mut shadow) {
        Ok(tables) => Ok(tables),
        Err(MountError::Memory) => Err(ImportError::Memory),
        Err(MountError::NotAJournal) => Err(ImportError::NotAJournal),
        Err(MountError::Disk) => unreachable!(),
    }
}

/// The journal of the entries for which bytes of the layout before stand, on a disk that has nothing else.
fn open_before<D: ReadDisk>(
    alloc: Global,
    disk: &mut D,
    bytes: &[u8],
) -> Result<Journal, ImportError>
    ensures made { IfOk result (λ journal. (entries : List (List ℕ)) × StandsAsBefore entries bytes.now
        × (journal ≡ journal_of entries)) }
    ensures fits { IsTrue D.tells → (entries : List (List ℕ)) → StandsAsBefore entries bytes.now →
        IfOk result (Fits entries (D.told disk.new).past) }
    ensures none { result ≡ Err IsNoJournal → (entries : List (List ℕ)) → ¬ (StandsAsBefore entries bytes.now) }
    ensures short { is_ok result ≡ true → (entries : List (List ℕ)) → StandsAsBefore entries bytes.now →
        25 + length (list_of entries) ≤ journal_bytes }
    ensures refusals { IfErr result (λ error. (error ≡ NoMemory) ⊎ (error ≡ DiskBroke) ⊎ (error ≡ IsNoJournal)
        ⊎ IsTooLong bytes.now error) }
    ensures untouched { IsTrue D.tells → IfErr result (λ error. error ≢ DiskBroke →
        ((D.told disk.new).past ≡ (D.told disk.old).past) × ((D.told disk.new).fuse ≡ (D.told disk.old).fuse)) }
    ensures fuse { IsTrue D.tells → (is_ok result ≡ true) ⊎ (import_failed result ≡ true) →
        Burns 3 (D.told disk.old).fuse (D.told disk.new).fuse (is_ok result) }
    ensures unarmed { IsTrue D.tells →
        KeepsUnarmed (D.told disk.old).fuse (D.told disk.new).fuse (import_failed result) }
    ensures cause { HasCause (D.told disk.old).faults (D.told disk.new).faults (import_failed result) }
    ensures crashes { IsTrue D.tells → crashes_of (D.told disk.new).past ≡ crashes_of (D.told disk.old).past }
{
    match Journal::import(alloc, disk, bytes) {
        Ok(journal) => Ok(journal),
        Err(JournalError::Memory) => Err(ImportError::Memory),
        Err(JournalError::Disk) => Err(ImportError::Disk),
        Err(JournalError::NotAJournal) => Err(ImportError::NotAJournal),
        Err(JournalError::EntryTooLong { .. }) => unreachable!(),
        Err(JournalError::Full { end, needed }) => Err(ImportError::Full { end, needed }),
        Err(JournalError::Down) => unreachable!(),
    }
}
