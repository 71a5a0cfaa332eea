//! The journal of a node and the tables of its records.
ghost use Rattle.std.specs.Prelude.{◌≡◌, ◌≢◌, ◌⊎◌, ◌<◌, ◌^◌, [], ◌∷◌, List, true, false, Err, length, map, IsTrue};
ghost use Rattle.std.specs.Prelude.{◌+◌, ◌≤◌, ℕ, is_ok, IfOk, IfErr};
ghost use Rattle.node_laws.specs.Sizes.Room.{HasRoom};
ghost use Rattle.record_batch.specs.Fact.{Fact, Made, fact_of};
ghost use Rattle.rm_base.specs.Limits.{journal_bytes};
ghost use Rattle.rm_disk.specs.Call.{crashes_of, seen_of};
ghost use Rattle.rm_disk.specs.Cause.{HasCause};
ghost use Rattle.rm_disk.specs.Fuse.{Burns};
ghost use Rattle.rm_disk.specs.Image.{MayLeave, OnlyLeaves};
ghost use Rattle.rm_disk.specs.Journal.Entries.{list_of, StandsAsBefore};
ghost use Rattle.rm_disk.specs.Journal.JournalState.{end_of};
ghost use Rattle.record_batch.specs.Sequences.Fits.{all_fit};
ghost use Rattle.node_laws.specs.Records.{IsKept};
ghost use Rattle.node_store.specs.Changes.{Changes, KeepsUnarmed, WasNotMade};
ghost use Rattle.node_store.specs.Has.{Has, Holds};
ghost use Rattle.node_store.specs.Failed.{is_disk};
ghost use Rattle.node_store.specs.Imported.{Imports, import_failed, IsNoNodeBefore, IsTooLong};
ghost use Rattle.node_store.specs.Mounted.{Finds, has_failed, IsNoNode};
ghost use Rattle.node_store.specs.Rewrites.{Answers, Rewrites, disk_failed, rewrite_refusal, rewritten};
ghost use Rattle.node_store.specs.Stored.{IsServing, first_stored, stored_after};
ghost use Rattle.node_store.specs.declared.error.StoreError.TheVariants.{Memory as WantsMemory, Disk as DiskFails};
ghost use Rattle.node_store.specs.declared.error.MountError.TheVariants.{Memory as NoMemory, Disk as DiskBroke};
ghost use Rattle.node_store.specs.declared.error.MountError.TheVariants.{NotAJournal as IsNoJournal};
ghost use Rattle.node_store.specs.declared.error.ImportError.TheVariants.{Memory as LacksMemory, Disk as DiskFailed};
ghost use Rattle.node_store.specs.declared.error.ImportError.TheVariants.{NotAJournal as BytesAreNone};

use crate::commit::{commit, first_batch};
use crate::error::{ImportError, MountError, RewriteError, StoreError};
use crate::format::format;
use crate::import::import;
use crate::mount::find;
use crate::rewrite::rewrite;
use node_laws::laws::a_made_node_has_its_records;
use node_laws::sizes::laws::a_batch_is_its_parts;
use node_tables::Tables;
use record_batch::Record;
use record_batch::laws::what_is_written_is_read;
use record_batch::sequences::laws::a_byte_for_each_number;
use rm_base::Uri;
use rm_disk::journal::Journal;
use rm_disk::{Disk, ReadDisk};
use std::alloc::Global;
use std::marker::Model;

/// The journal of a node on a disk, and the tables of its records.
pub struct Store {
    alloc: Global,
    journal: Journal,
    tables: Tables,
}

impl Drop for Store {
    fn drop(self) {
        let Store {
            alloc: _,
            journal: _,
            tables: _,
        } = self;
    }
}

impl Model for Store {
    ghost use Rattle.std.specs.Coded.{codes};
    ghost use Rattle.soap_document.specs.Profile.TreeCode.{tree_code};
    ghost use Rattle.node_store.specs.Stored.{Stored};

    ghost Value = { Stored };

    ghost coded = { Prim.hlevel (codes, tree_code) };

    ghost view = { λ s. record { journal = s.journal; records = s.tables.records } };

    ghost use Rattle.node_store.specs.Stored.{IsServing};

    ghost invariant = { λ s. IsServing s.journal s.tables.records };
}

impl Store {
    /// The tables of all records.
    pub fn tables(&self) -> &Tables
        ensures { result.now.records ≡ self.now.records }
    {
        &self.tables
    }

    /// How many batches the journal has.
    pub fn entries(&self) -> u64
        ensures { result ≡ length self.now.journal.gates }
    {
        self.journal.count()
    }

    /// Where the next batch begins.
    pub fn end(&self) -> u64
        ensures end { result ≡ end_of self.now.journal }
        ensures serving { IsServing self.now.journal self.now.records }
    {
        let _tables = &self.tables;
        self.journal.end()
    }

    /// Whether the disk has failed.
    pub fn is_down(&self) -> bool
        ensures { result ≡ self.now.journal.is_down }
    {
        self.journal.is_down()
    }
}

impl Store {
    /// Makes a disk that of a node with this number and address. What it held is lost; after want of memory the disk is
    /// as it was or has an empty journal, and after a fault of the disk it holds anything.
    /// - `made`, `has`: one batch, the record of its number and address.
    /// - Disk: not on a disk that is not armed, and none is armed then (`unarmed`, `cause`).
    pub fn make<D: ReadDisk>(
        alloc: Global,
        disk: &mut D,
        number: u64,
        address: Uri,
    ) -> Result<Store, StoreError>
        requires from_one { 0 < number }
        requires within { number < 2 ^ 60 }
        ensures made { IfOk result (λ store. store ≡ first_stored number address) }
        ensures kept { IfOk result (λ store. IsKept store.records) }
        ensures has { IsTrue D.tells →
            IfOk result (Has ((Made number address ∷ []) ∷ []) (D.told disk.new).past) }
        ensures wanted { IsTrue D.tells → result ≡ Err WantsMemory →
            WasNotMade (D.told disk.old).past (D.told disk.new).past }
        ensures unarmed { IsTrue D.tells → KeepsUnarmed (D.told disk.old).fuse (D.told disk.new).fuse (is_disk result) }
        ensures refusals { IfErr result (λ error. (error ≡ WantsMemory) ⊎ (error ≡ DiskFails)) }
        ensures cause { HasCause (D.told disk.old).faults (D.told disk.new).faults (is_disk result) }
        ensures crashes { IsTrue D.tells → crashes_of (D.told disk.new).past ≡ crashes_of (D.told disk.old).past }
    {
        a_made_node_has_its_records();
        a_batch_is_its_parts();
        what_is_written_is_read();
        let batch = first_batch(alloc, number, address)?;
        let mut journal = format(alloc, disk)?;
        let mut tables = Tables::new(alloc);
        commit(alloc, &mut journal, &mut tables, disk, batch)?;
        Ok(Store {
            alloc,
            journal,
            tables,
        })
    }

    /// Finds the node that a disk holds. It answers NotAJournal exactly where the disk, as it reads, holds no batches
    /// of a node, however long its journal is: the limit is on what is added. It writes nothing, and takes memory for
    /// the journal once and then for the tables and one entry.
    /// - NotAJournal: exactly where, in either bank, the disk reads for no batches of a node, and no other error comes:
    ///   there is no list; an entry is no batch; a record does not fit or breaks a limit; the first is not Made; an
    ///   accepted payload is no closed content; there are more than 256 sequences, or 1024 unacknowledged messages of
    ///   one or 4096 in all; a number is more than 1024 past its front (`none`, `found`).
    /// - Disk: not on a disk that is not armed (`unarmed`, `cause`).
    pub fn mount<D: ReadDisk>(alloc: Global, disk: &mut D) -> Result<Store, MountError>
        ensures found { IsTrue D.tells → IfOk result (Finds (D.told disk.old).past (D.told disk.new).past) }
        ensures none { IsTrue D.tells → result ≡ Err IsNoJournal → IsNoNode (seen_of (D.told disk.old).past) }
        ensures up { IfOk result (λ store. store.journal.is_down ≡ false) }
        ensures kept { IfOk result (λ store. IsKept store.records) }
        ensures refusals { IfErr result (λ error.
            (error ≡ NoMemory) ⊎ (error ≡ DiskBroke) ⊎ (error ≡ IsNoJournal)) }

        // On a disk that tells, what is read stays, and a crash at any moment of the call leaves no more than one
        // before it.
        ensures seen { IsTrue D.tells → seen_of (D.told disk.new).past ≡ seen_of (D.told disk.old).past }
        ensures moments { IsTrue D.tells →
            OnlyLeaves (D.told disk.old).past (D.told disk.new).past (MayLeave (D.told disk.old).past) }

        ensures unarmed { IsTrue D.tells →
            KeepsUnarmed (D.told disk.old).fuse (D.told disk.new).fuse (has_failed result) }
        ensures cause { HasCause (D.told disk.old).faults (D.told disk.new).faults (has_failed result) }
        ensures crashes { IsTrue D.tells → crashes_of (D.told disk.new).past ≡ crashes_of (D.told disk.old).past }
    {
        let (journal, tables) = find(alloc, disk)?;
        Ok(Store {
            alloc,
            journal,
            tables,
        })
    }

    /// Makes a disk that of the node whose journal of the layout before these bytes are, in three device calls. Before
    /// the first of them it reads each entry over a disk in memory, as `mount` does over a real one, for which it takes
    /// memory for three copies of the journal. It answers NotAJournal exactly where the bytes stand for no batches of a
    /// node, by the tests of `mount`. What the disk held is lost, and after Disk it holds anything.
    /// - `imported`: on any disk the answer is the journal, in the first bank, and the records of the batches; a disk
    ///   that tells has them, for good.
    /// - Full: exactly where the bytes stand for a list whose journal would be longer than 268435456 (`refusals`,
    ///   `short`, `none_short`).
    /// - Disk: exactly where the fuse lies among the device calls (`cause`, `fuse`, `unarmed`).
    pub fn import<D: ReadDisk>(
        alloc: Global,
        disk: &mut D,
        bytes: &[u8],
    ) -> Result<Store, ImportError>
        ensures imported { IfOk result (Imports D.tells bytes.now (D.told disk.new).past) }
        ensures none { result ≡ Err BytesAreNone → IsNoNodeBefore bytes.now }

        // A journal that would be longer than one may be is refused, also where no node's batches are in it.
        ensures short { is_ok result ≡ true → (entries : List (List ℕ)) → StandsAsBefore entries bytes.now →
            25 + length (list_of entries) ≤ journal_bytes }
        ensures none_short { result ≡ Err BytesAreNone → (entries : List (List ℕ)) →
            StandsAsBefore entries bytes.now → 25 + length (list_of entries) ≤ journal_bytes }
        ensures refusals { IfErr result (λ error. (error ≡ LacksMemory) ⊎ (error ≡ DiskFailed) ⊎ (error ≡ BytesAreNone)
            ⊎ IsTooLong bytes.now error) }

        // Each answer but Ok and Disk comes before any device call.
        ensures untouched { IsTrue D.tells → IfErr result (λ error. error ≢ DiskFailed →
            ((D.told disk.new).past ≡ (D.told disk.old).past) × ((D.told disk.new).fuse ≡ (D.told disk.old).fuse)) }

        ensures up { IfOk result (λ store. store.journal.is_down ≡ false) }
        ensures kept { IfOk result (λ store. IsKept store.records) }
        ensures fuse { IsTrue D.tells → (is_ok result ≡ true) ⊎ (import_failed result ≡ true) →
            Burns 3 (D.told disk.old).fuse (D.told disk.new).fuse (is_ok result) }
        ensures unarmed { IsTrue D.tells →
            KeepsUnarmed (D.told disk.old).fuse (D.told disk.new).fuse (import_failed result) }
        ensures cause { HasCause (D.told disk.old).faults (D.told disk.new).faults (import_failed result) }
        ensures crashes { IsTrue D.tells → crashes_of (D.told disk.new).past ≡ crashes_of (D.told disk.old).past }
    {
        let (journal, tables) = import(alloc, disk, bytes)?;
        Ok(Store {
            alloc,
            journal,
            tables,
        })
    }

    /// Adds records in one batch, to the journal and then to the tables. All memory is taken before the first device
    /// call.
    /// - `stored`, `changes`: at Ok the records are there, for good on a disk that tells. A crash at any moment of the
    ///   call leaves the batches as they were, or with this one, in the journal's bank. Four device calls are made
    ///   where there is a record, and none where there is none.
    /// - Memory: no device call was made (`refusals`, `stored`, `changes`).
    /// - Disk: exactly where there is a record and the fuse lies among the device calls; the store is down (`cause`,
    ///   `some`, `changes`).
    pub fn append<D: Disk>(&mut self, disk: &mut D, batch: Vec<Record>) -> Result<(), StoreError>
        requires up { self.old.journal.is_down ≡ false }
        requires holds { IsTrue D.tells → (batches : List (List Fact)) × Holds batches (D.told disk.old).past self.old }
        requires fit { all_fit self.old.records (map fact_of batch.items) ≡ true }
        requires room { HasRoom (end_of self.old.journal) (map fact_of batch.items) }
        ensures stored { self.new ≡ stored_after self.old (map fact_of batch.items) (is_ok result) (is_disk result) }
        ensures changes { IsTrue D.tells → Changes (D.told disk.old)
            (D.told disk.new) self.old self.new (map fact_of batch.items) (is_ok result)
            (is_disk result) }
        ensures some { is_disk result ≡ true → map fact_of batch.items ≢ [] }
        ensures refusals { IfErr result (λ error. (error ≡ WantsMemory) ⊎ (error ≡ DiskFails)) }
        ensures cause { HasCause (D.told disk.old).faults (D.told disk.new).faults (is_disk result) }
    {
        a_byte_for_each_number();
        if batch.is_empty() {
            return Ok(());
        }
        commit(self.alloc, &mut self.journal, &mut self.tables, disk, batch)
    }

    /// Writes the journal anew, so that it has what its records say in short: each record of their snapshot is an entry
    /// of its own. It makes five device calls. All memory is taken before the first of them; while the call runs, what
    /// the records carry stands in memory three times. After Disk one of the two journals is on the disk, and the
    /// node is down: mount it again.
    /// - `rewrites`: a crash at any moment leaves the batches as they were where they stood, or the fresh ones where
    ///   they are put.
    /// - Full: exactly where a record alone is longer than an entry may be, or the fresh list would have to stand
    ///   behind the old one and end past 268435456; it has where the journal ends, and how many bytes are wanted. No
    ///   device call was made (`refusals`, `rewrites`).
    /// - Memory: also in place of Full; no device call was made (`refusals`, `rewrites`).
    /// - Disk: exactly where Full doesn't hold and the fuse lies among the device calls (`cause`, `rewrites`).
    pub fn compact<D: Disk>(&mut self, disk: &mut D) -> Result<(), RewriteError>
        requires up { self.old.journal.is_down ≡ false }
        requires holds { IsTrue D.tells → (batches : List (List Fact)) × Holds batches (D.told disk.old).past self.old }
        ensures stored { self.new ≡ rewritten self.old (is_ok result) (disk_failed result) }
        ensures rewrites { IsTrue D.tells → Rewrites (D.told disk.old)
            (D.told disk.new) self.old self.new (is_ok result) (disk_failed result) }
        ensures refusals { Answers (rewrite_refusal self.old) result }
        ensures cause { HasCause (D.told disk.old).faults (D.told disk.new).faults (disk_failed result) }
    {
        a_byte_for_each_number();
        rewrite(self.alloc, &mut self.journal, &mut self.tables, disk)
    }
}
