//! A node is made, its disk is armed, and crashes, and the node is mounted again.
ghost use Rattle.std.specs.Prelude.{◌≡◌, ◌⊎◌, ◌≤◌, ◌<◌, ◌^◌, ◌++◌, ◌∷◌, ℕ, [], List, None, false, OnOk};
ghost use Rattle.std.specs.Prelude.{OnErr, IfOk};
ghost use Rattle.record_batch.specs.Fact.{Fact};
ghost use Rattle.rm_disk.specs.Call.{crashes_of, seen_of};
ghost use Rattle.rm_disk.specs.Image.{MayLeave, OnlyLeaves};
ghost use Rattle.rm_protocol.specs.Node.{Node as Value, armed as armed_by};
ghost use Rattle.rm_protocol.specs.World.{made};
ghost use Rattle.node_store.specs.Changes.{WasNotMade};
ghost use Rattle.node_store.specs.Has.{AreOfNode, StandsForBatches};
ghost use Rattle.node_store.specs.Mounted.{Finds};
ghost use Rattle.rm_node.specs.Keeping.{Keeps, first_kept};
ghost use Rattle.rm_replay.specs.Actor.Stands.{Crashed, Leaves, Stands};

use crate::actor::actor::Actor;
use node_store::MountError;
use node_store::laws::bytes_stand_for_one_list_of_batches;
use rm_base::{Memory, Uri};
use rm_disk::CrashDisk;
use rm_node::{Node, NodeError};
use std::alloc::Global;

impl Actor {
    /// Makes a node with this number and address on a disk that isn't armed, and leaves it so.
    pub fn make<D: CrashDisk>(
        alloc: Global,
        disk: &mut D,
        number: u64,
        address: Uri,
    ) -> Result<Actor, Memory>
        requires from_one { 0 < number }
        requires within { number < 2 ^ 60 }
        requires unarmed { (D.told disk.old).fuse ≡ None }
        ensures made { IfOk result (λ actor. Stands (made number address)
            (D.told disk.new) actor) }
        ensures wanted { OnErr result (WasNotMade (D.told disk.old).past (D.told disk.new).past) }
        ensures fuse { (D.told disk.new).fuse ≡ None }
        ensures faults { (D.told disk.new).faults ≡ (D.told disk.old).faults }
        ensures crashes { crashes_of (D.told disk.new).past ≡ crashes_of (D.told disk.old).past }
    {
        match Node::make(alloc, disk, number, address) {
            Ok(node) => Ok(Actor::new(alloc, node)),
            Err(NodeError::Memory) => Err(Memory),
            Err(NodeError::Disk) => unreachable!(),
            Err(NodeError::Down) => unreachable!(),
            Err(NodeError::Refused(_)) => unreachable!(),
        }
    }

    /// From now on the device call of this number on the disk fails, counted from 1, and so does each after it, until a
    /// crash.
    pub fn arm<D: CrashDisk>(&self, disk: &mut D, calls: u64)
        requires { 1 ≤ calls }
        ensures armed { (x : Value) → Stands x (D.told disk.old) self.now
            → Stands (record x { fuse = armed_by calls x.fuse }) (D.told disk.new) self.now }
        ensures faults { (D.told disk.new).faults ≡ (D.told disk.old).faults }
        ensures crashes { crashes_of (D.told disk.new).past ≡ crashes_of (D.told disk.old).past }
    {
        disk.arm(calls);
    }

    /// The disk crashes, and keeps by this choice what was not synced; the node is mounted again. Where memory was
    /// wanting, the disk may have crashed, and the node isn't there any more.
    /// - `ok`: the node is mounted with what the call that failed was writing or without it, no message waits, and the
    ///   disk has one crash more, whose bytes stand for the node's entries where its list begins then.
    /// - `err`, `more`: each image still stands for entries that one more crash leaves, and the disk has one crash more
    ///   at most.
    pub fn crash<D: CrashDisk>(&mut self, disk: &mut D, choice: u8) -> Result<(), Memory>
        requires there { (x : Value) × Stands x (D.told disk.old) self.old }
        requires choice { choice ≤ 3 }
        ensures ok { (x : Value) → Stands x (D.told disk.old) self.old
            → OnOk result (Crashed x choice (D.told disk.old)
            (D.told disk.new) self.new) }
        ensures err { (x : Value) → Stands x (D.told disk.old) self.old
            → OnErr result (Leaves x (D.told disk.new).past) }
        ensures more { OnErr result ((crashes_of (D.told disk.new).past ≡ crashes_of (D.told disk.old).past)
            ⊎ ((bytes : List ℕ) × (crashes_of (D.told disk.new).past
            ≡ crashes_of (D.told disk.old).past ++ (choice, bytes) ∷ []))) }
        ensures faults { (D.told disk.new).faults ≡ (D.told disk.old).faults }
    {
        bytes_stand_for_one_list_of_batches();
        disk.crash(choice)?;
        let mut node = mount(self.alloc, disk)?;
        let granted = self.node.granted();
        node.set_grant(granted);
        self.node = node;
        Ok(())
    }
}

/// The node on a disk that holds one, and isn't armed.
fn mount<D: CrashDisk>(alloc: Global, disk: &mut D) -> Result<Node, Memory>
    requires unarmed { (D.told disk.old).fuse ≡ None }
    requires node { (batches : List (List Fact)) × AreOfNode batches
        × StandsForBatches batches (seen_of (D.told disk.old).past) }
    ensures found { IfOk result (λ node. Finds (D.told disk.old).past (D.told disk.new).past node.stored) }
    ensures up { IfOk result (λ node. node.stored.journal.is_down ≡ false) }
    ensures kept { IfOk result (λ node. Keeps node.kept (first_kept node.stored.records)) }
    ensures fuse { (D.told disk.new).fuse ≡ None }
    ensures moments { OnlyLeaves (D.told disk.old).past (D.told disk.new).past (MayLeave (D.told disk.old).past) }
    ensures faults { (D.told disk.new).faults ≡ (D.told disk.old).faults }
    ensures crashes { crashes_of (D.told disk.new).past ≡ crashes_of (D.told disk.old).past }
{
    match Node::mount(alloc, disk) {
        Ok(node) => Ok(node),
        Err(MountError::Memory) => Err(Memory),
        Err(MountError::Disk) => unreachable!(),
        Err(MountError::NotAJournal) => unreachable!(),
    }
}
