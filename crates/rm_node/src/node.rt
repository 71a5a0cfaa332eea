//! A node: what it keeps, and what it tells.
ghost use Rattle.std.specs.Prelude.{◌≡◌, ◌≢◌, ◌⊎◌, ◌<◌, ◌^◌, [], ◌∷◌, true, false, Err, length, IsTrue, IfOk, IfErr};
ghost use Rattle.std.specs.Prelude.{◌+◌, ◌≤◌, ℕ, List, is_ok};
ghost use Rattle.record_batch.specs.Fact.{Made};
ghost use Rattle.rm_base.specs.Limits.{journal_bytes};
ghost use Rattle.rm_disk.specs.Call.{crashes_of, seen_of};
ghost use Rattle.rm_disk.specs.Cause.{HasCause};
ghost use Rattle.rm_disk.specs.Fuse.{Burns};
ghost use Rattle.rm_disk.specs.Image.{MayLeave, OnlyLeaves};
ghost use Rattle.rm_disk.specs.Journal.Entries.{list_of, StandsAsBefore};
ghost use Rattle.node_store.specs.Changes.{KeepsUnarmed, WasNotMade};
ghost use Rattle.node_store.specs.Has.{Has};
ghost use Rattle.node_store.specs.Imported.{Imports, import_failed, IsNoNodeBefore, IsTooLong};
ghost use Rattle.node_store.specs.Mounted.{Finds, has_failed, IsNoNode};
ghost use Rattle.node_store.specs.Stored.{first_stored};
ghost use Rattle.node_store.specs.declared.error.MountError.TheVariants.{Memory as NoMemory, Disk as DiskBroke};
ghost use Rattle.node_store.specs.declared.error.MountError.TheVariants.{NotAJournal as IsNoJournal};
ghost use Rattle.node_store.specs.declared.error.ImportError.TheVariants.{Memory as LacksMemory, Disk as DiskFailed};
ghost use Rattle.node_store.specs.declared.error.ImportError.TheVariants.{NotAJournal as BytesAreNone};
ghost use Rattle.rm_node.specs.declared.error.NodeError.TheVariants.{Disk as DiskFails, Memory as WantsMemory};
ghost use Rattle.rm_node.specs.Ends.{is_disk};
ghost use Rattle.rm_node.specs.Keeping.{Keeps, first_kept};
ghost use Rattle.rm_node.specs.Noded.{granting};

use crate::error::NodeError;
use crate::kept::Kept;
use node_laws::laws::a_node_has_room_for_its_keys;
use node_store::{ImportError, MountError, Store, StoreError};
use node_tables::Tables;
use node_waits::keys::fill;
use rm_base::{Behaviour, Uri};
use rm_disk::ReadDisk;
use rm_protocol::laws::what_waits_stays_exact;
use std::alloc::Global;
use std::marker::Model;

/// A node on a disk: the journal and the tables of its records, and what it keeps besides. The disk is passed to each
/// call, and is always the same.
pub struct Node {
    pub(crate) alloc: Global,
    pub(crate) store: Store,
    pub(crate) kept: Kept,
}

impl Drop for Node {
    fn drop(self) {
        let Node {
            alloc: _,
            store: _,
            kept: _,
        } = self;
    }
}

impl Model for Node {
    ghost use Rattle.std.specs.Coded.{codes};
    ghost use Rattle.soap_document.specs.Profile.TreeCode.{tree_code};
    ghost use Rattle.rm_node.specs.Noded.{Noded, told};
    ghost use Rattle.rm_node.specs.Timed.{IsKeptRight};

    ghost Value = { Noded };

    ghost coded = { Prim.hlevel (codes, tree_code) };

    ghost view = { λ n. record { stored = n.store; kept = told n.kept } };

    ghost invariant = { λ n. IsKeptRight n.store.records (told n.kept) };
}

impl Node {
    /// Makes a disk that of a node with this number and address. What it held is lost; after want of memory the disk is
    /// as it was or has an empty journal, and after a fault of the disk it holds anything.
    /// - Disk: not on a disk that is not armed, and none is armed then (`unarmed`, `cause`).
    pub fn make<D: ReadDisk>(
        alloc: Global,
        disk: &mut D,
        number: u64,
        address: Uri,
    ) -> Result<Node, NodeError>
        requires from_one { 0 < number }
        requires within { number < 2 ^ 60 }
        ensures made { IfOk result (λ node. node.stored ≡ first_stored number address) }
        ensures kept { IfOk result (λ node. Keeps node.kept (first_kept node.stored.records)) }
        ensures has { IsTrue D.tells →
            IfOk result (λ node. Has ((Made number address ∷ []) ∷ []) (D.told disk.new).past node.stored) }
        ensures wanted { IsTrue D.tells → result ≡ Err WantsMemory →
            WasNotMade (D.told disk.old).past (D.told disk.new).past }
        ensures unarmed { IsTrue D.tells → KeepsUnarmed (D.told disk.old).fuse (D.told disk.new).fuse (is_disk result) }
        ensures refusals { IfErr result (λ error. (error ≡ WantsMemory) ⊎ (error ≡ DiskFails)) }
        ensures cause { HasCause (D.told disk.old).faults (D.told disk.new).faults (is_disk result) }
        ensures crashes { IsTrue D.tells → crashes_of (D.told disk.new).past ≡ crashes_of (D.told disk.old).past }
    {
        what_waits_stays_exact();
        let kept = Kept::first(alloc)?;
        match Store::make(alloc, disk, number, address) {
            Ok(store) => Ok(Node { alloc, store, kept }),
            Err(StoreError::Memory) => Err(NodeError::Memory),
            Err(StoreError::Disk) => Err(NodeError::Disk),
        }
    }

    /// Finds the node that a disk holds. It answers NotAJournal exactly where the disk, as it reads, holds no batches
    /// of a node. What the node kept besides is not on the disk: all keys that wait by its records are due at once, and
    /// no message waits.
    /// - NotAJournal: by the tests of `Store::mount` (`none`, `found`).
    /// - Disk: not on a disk that is not armed (`unarmed`, `cause`).
    pub fn mount<D: ReadDisk>(alloc: Global, disk: &mut D) -> Result<Node, MountError>
        ensures found { IsTrue D.tells →
            IfOk result (λ node. Finds (D.told disk.old).past (D.told disk.new).past node.stored) }
        ensures none { IsTrue D.tells → result ≡ Err IsNoJournal → IsNoNode (seen_of (D.told disk.old).past) }
        ensures up { IfOk result (λ node. node.stored.journal.is_down ≡ false) }
        ensures kept { IfOk result (λ node. Keeps node.kept (first_kept node.stored.records)) }
        ensures refusals { IfErr result (λ error.
            (error ≡ NoMemory) ⊎ (error ≡ DiskBroke) ⊎ (error ≡ IsNoJournal)) }

        // On a disk that tells, what is read stays, and a crash at any moment of the call leaves no more than one
        // before it.
        ensures seen { IsTrue D.tells → seen_of (D.told disk.new).past ≡ seen_of (D.told disk.old).past }
        ensures moments { IsTrue D.tells →
            OnlyLeaves (D.told disk.old).past (D.told disk.new).past (MayLeave (D.told disk.old).past) }

        ensures unarmed { IsTrue D.tells →
            KeepsUnarmed (D.told disk.old).fuse (D.told disk.new).fuse (has_failed result) }
        ensures cause { HasCause (D.told disk.old).faults (D.told disk.new).faults (has_failed result) }
        ensures crashes { IsTrue D.tells → crashes_of (D.told disk.new).past ≡ crashes_of (D.told disk.old).past }
    {
        a_node_has_room_for_its_keys();
        what_waits_stays_exact();
        let store = Store::mount(alloc, disk)?;
        let mut kept = match Kept::first(alloc) {
            Ok(kept) => kept,
            Err(_) => return Err(MountError::Memory),
        };
        fill(&mut kept.timers, store.tables());
        Ok(Node { alloc, store, kept })
    }

    /// Makes a disk that of the node whose journal of the layout before these bytes are, in three device calls. Before
    /// the first of them it tests the bytes, for which it takes memory for three copies of the journal. It answers
    /// NotAJournal exactly where they stand for no batches of a node, by the tests of `mount`, and Full where its
    /// journal would be longer than one may be. What the disk held is lost, and after Disk it holds anything.
    /// - `imported`, `kept`: on any disk the node is the one of those batches, with what a mount would give it; a disk
    ///   that tells has them, for good.
    /// - Disk: exactly where the fuse lies among the device calls (`cause`, `fuse`, `unarmed`).
    pub fn import<D: ReadDisk>(
        alloc: Global,
        disk: &mut D,
        bytes: &[u8],
    ) -> Result<Node, ImportError>
        ensures imported { IfOk result (λ node. Imports D.tells bytes.now (D.told disk.new).past node.stored) }
        ensures none { result ≡ Err BytesAreNone → IsNoNodeBefore bytes.now }

        // A journal that would be longer than one may be is refused, also where no node's batches are in it.
        ensures short { is_ok result ≡ true → (entries : List (List ℕ)) → StandsAsBefore entries bytes.now →
            25 + length (list_of entries) ≤ journal_bytes }
        ensures none_short { result ≡ Err BytesAreNone → (entries : List (List ℕ)) →
            StandsAsBefore entries bytes.now → 25 + length (list_of entries) ≤ journal_bytes }
        ensures refusals { IfErr result (λ error. (error ≡ LacksMemory) ⊎ (error ≡ DiskFailed) ⊎ (error ≡ BytesAreNone)
            ⊎ IsTooLong bytes.now error) }

        // Each answer but Ok and Disk comes before any device call.
        ensures untouched { IsTrue D.tells → IfErr result (λ error. error ≢ DiskFailed →
            ((D.told disk.new).past ≡ (D.told disk.old).past) × ((D.told disk.new).fuse ≡ (D.told disk.old).fuse)) }

        ensures up { IfOk result (λ node. node.stored.journal.is_down ≡ false) }
        ensures kept { IfOk result (λ node. Keeps node.kept (first_kept node.stored.records)) }
        ensures fuse { IsTrue D.tells → (is_ok result ≡ true) ⊎ (import_failed result ≡ true) →
            Burns 3 (D.told disk.old).fuse (D.told disk.new).fuse (is_ok result) }
        ensures unarmed { IsTrue D.tells →
            KeepsUnarmed (D.told disk.old).fuse (D.told disk.new).fuse (import_failed result) }
        ensures cause { HasCause (D.told disk.old).faults (D.told disk.new).faults (import_failed result) }
        ensures crashes { IsTrue D.tells → crashes_of (D.told disk.new).past ≡ crashes_of (D.told disk.old).past }
    {
        a_node_has_room_for_its_keys();
        what_waits_stays_exact();
        let mut kept = match Kept::first(alloc) {
            Ok(kept) => kept,
            Err(_) => return Err(ImportError::Memory),
        };
        let store = Store::import(alloc, disk, bytes)?;
        fill(&mut kept.timers, store.tables());
        Ok(Node { alloc, store, kept })
    }

    /// What the node announces for the sequences that it grants.
    pub fn granted(&self) -> Behaviour
        ensures kept { result ≡ self.now.kept.granted }
    {
        self.kept.granted
    }

    /// From now on the node announces this for the sequences that it grants.
    pub fn set_grant(&mut self, behaviour: Behaviour)
        ensures { self.new ≡ granting self.old behaviour }
    {
        self.kept.granted = behaviour;
    }

    /// How many entries the journal has.
    pub fn entries(&self) -> u64
        ensures { result ≡ length self.now.stored.journal.gates }
    {
        self.store.entries()
    }

    /// Whether the disk has failed: then the node does nothing until it is mounted again.
    pub fn is_down(&self) -> bool
        ensures { result ≡ self.now.stored.journal.is_down }
    {
        self.store.is_down()
    }

    /// The tables of all records.
    pub fn tables(&self) -> &Tables
        ensures { result.now.records ≡ self.now.stored.records }
    {
        self.store.tables()
    }
}
