//! Calls of a node that is up, each as one step.
ghost use Rattle.std.specs.Prelude.{◌≡◌, ◌≤◌, [], ◌∷◌, ◌+◌, IfErr, IfOk, List, None, OnOk, length, true};
ghost use Rattle.record_batch.specs.Sequences.Makers.{makers};
ghost use Rattle.record_batch.specs.Sequences.Sources.{accepted_count};
ghost use Rattle.rm_base.specs.Limits.{now_max};
ghost use Rattle.rm_node.specs.Asked.{Close, Consume, Create, End as Finish, Poll, Send, Tick};
ghost use Rattle.rm_serve.specs.Steps.{IsUp, MakesAll, Step, place_of};
ghost use Rattle.node_store.specs.declared.error.MountError.{MountError};
ghost use Rattle.rm_host.specs.Ends.{is_of_call, mount_end};
ghost use Rattle.rm_host.specs.Finding.{Found, NotFound};
ghost use Rattle.rm_host.specs.HostSteps.{back_wish, outs_in, own_step};
ghost use Rattle.rm_station.specs.Works.{Takes, heard_in, is_outlived, reaction_outs};

use node_laws::answers::Wish;
use node_laws::laws::there_are_own_terms;
use record_batch::Via;
use rm_base::{Behaviour, Blob, Lapse, Uri};
use rm_disk::{Disk, ReadDisk};
use rm_host::End;
use rm_node::{Made, Node, NodeError, Outs, Reaction, Sent};
use rm_serve::laws::a_node_stays_up;
use rm_serve::taking::hear;
use std::alloc::Global;

/// One tick, and the packets that it hands out.
pub(crate) fn tick<D: Disk>(node: &mut Node, disk: &mut D, now: u64) -> Result<Outs, End>
    requires up { IsUp D.tells (place_of (D.told disk.old) node.old) }
    requires within { now ≤ now_max }
    ensures up { OnOk result (IsUp D.tells (place_of (D.told disk.new) node.new)) }
    ensures makes { MakesAll D.tells (place_of (D.told disk.old) node.old) (place_of (D.told disk.new) node.new)
        (own_step now (Tick now) result ∷ []) }
    ensures of_call { IfErr result (λ e. is_of_call e ≡ true) }
{
    a_node_stays_up();
    Ok(node.tick(disk, now)?)
}

/// Accepts a payload. A node that refuses it is up as before.
pub(crate) fn accept<D: Disk>(
    node: &mut Node,
    disk: &mut D,
    seq: u32,
    payload: Blob,
) -> Result<Sent, End>
    requires up { IsUp D.tells (place_of (D.told disk.old) node.old) }
    ensures up { is_outlived result ≡ true → IsUp D.tells (place_of (D.told disk.new) node.new) }
    ensures number { IfOk result (λ sent. sent.number ≡ accepted_count node.old.stored.records seq + 1) }
    ensures makes { MakesAll D.tells (place_of (D.told disk.old) node.old) (place_of (D.told disk.new) node.new)
        (own_step 0 (Send seq payload) (outs_in (λ sent. sent.outs) result) ∷ []) }
    ensures of_call { IfErr result (λ e. is_of_call e ≡ true) }
{
    a_node_stays_up();
    Ok(node.send(disk, seq, payload)?)
}

/// Asks the node at an address for a sequence that never ends, whose answers come back on the connection. A node that
/// refuses it is up as before.
pub(crate) fn create<D: Disk>(node: &mut Node, disk: &mut D, to: Uri) -> Result<Made, End>
    requires up { IsUp D.tells (place_of (D.told disk.old) node.old) }
    ensures up { is_outlived result ≡ true → IsUp D.tells (place_of (D.told disk.new) node.new) }
    ensures seq { IfOk result (λ made. made.seq ≡ length (makers node.old.stored.records) + 1) }
    ensures makes { MakesAll D.tells (place_of (D.told disk.old) node.old) (place_of (D.told disk.new) node.new)
        (own_step 0 (Create (back_wish to)) (outs_in (λ made. made.outs) result) ∷ []) }
    ensures of_call { IfErr result (λ e. is_of_call e ≡ true) }
{
    a_node_stays_up();
    Ok(node.create(disk, wish(to))?)
}

// What is asked for then.
fn wish(to: Uri) -> Wish
    ensures is { result ≡ record { to = to; via = Via.Back; expires = record { months = 0; ms = 0 }; offer = None } }
    ensures months { result.expires.months ≡ 0 }
    ensures ms { result.expires.ms ≡ 0 }
{
    Wish {
        to,
        via: Via::Back,
        expires: Lapse { months: 0, ms: 0 },
        offer: None,
    }
}

/// Closes a sequence. A node that refuses it is up as before.
pub(crate) fn close<D: Disk>(node: &mut Node, disk: &mut D, seq: u32, now: u64) -> Result<Outs, End>
    requires up { IsUp D.tells (place_of (D.told disk.old) node.old) }
    ensures up { is_outlived result ≡ true → IsUp D.tells (place_of (D.told disk.new) node.new) }
    ensures makes { MakesAll D.tells (place_of (D.told disk.old) node.old) (place_of (D.told disk.new) node.new)
        (own_step now (Close seq) result ∷ []) }
    ensures of_call { IfErr result (λ e. is_of_call e ≡ true) }
{
    a_node_stays_up();
    Ok(node.close(disk, seq, now)?)
}

/// Ends a sequence. A node that refuses it is up as before.
pub(crate) fn end<D: Disk>(node: &mut Node, disk: &mut D, seq: u32) -> Result<Outs, End>
    requires up { IsUp D.tells (place_of (D.told disk.old) node.old) }
    ensures up { is_outlived result ≡ true → IsUp D.tells (place_of (D.told disk.new) node.new) }
    ensures makes { MakesAll D.tells (place_of (D.told disk.old) node.old) (place_of (D.told disk.new) node.new)
        (own_step 0 (Finish seq) result ∷ []) }
    ensures of_call { IfErr result (λ e. is_of_call e ≡ true) }
{
    a_node_stays_up();
    Ok(node.end(disk, seq)?)
}

/// Asks the node at an address for what waits there. A node that refuses it is up as before.
pub(crate) fn poll<D: Disk>(node: &mut Node, disk: &mut D, to: Uri) -> Result<Outs, End>
    requires up { IsUp D.tells (place_of (D.told disk.old) node.old) }
    ensures up { is_outlived result ≡ true → IsUp D.tells (place_of (D.told disk.new) node.new) }
    ensures makes { MakesAll D.tells (place_of (D.told disk.old) node.old) (place_of (D.told disk.new) node.new)
        (own_step 0 (Poll to) result ∷ []) }
    ensures of_call { IfErr result (λ e. is_of_call e ≡ true) }
{
    a_node_stays_up();
    Ok(node.poll(disk, to)?)
}

/// Records that the items of an inbox up to one were consumed, and hands nothing out. A node that refuses it is up as
/// before.
pub(crate) fn consume<D: Disk>(
    alloc: Global,
    node: &mut Node,
    disk: &mut D,
    seq: u32,
    upto: u64,
) -> Result<Outs, End>
    requires up { IsUp D.tells (place_of (D.told disk.old) node.old) }
    ensures up { is_outlived result ≡ true → IsUp D.tells (place_of (D.told disk.new) node.new) }
    ensures makes { MakesAll D.tells (place_of (D.told disk.old) node.old) (place_of (D.told disk.new) node.new)
        (own_step 0 (Consume seq upto) result ∷ []) }
    ensures of_call { IfErr result (λ e. is_of_call e ≡ true) }
{
    a_node_stays_up();
    node.consume(disk, seq, upto)?;
    Ok(Outs::new(alloc))
}

/// Takes the body of a response, unless it is empty.
pub(crate) fn take<D: Disk>(
    alloc: Global,
    node: &mut Node,
    disk: &mut D,
    now: u64,
    body: Blob,
) -> Result<Outs, End>
    requires up { IsUp D.tells (place_of (D.told disk.old) node.old) }
    ensures up { OnOk result (IsUp D.tells (place_of (D.told disk.new) node.new)) }
    ensures takes { (steps : List Step) × MakesAll D.tells (place_of (D.told disk.old) node.old)
        (place_of (D.told disk.new) node.new) steps × Takes now body steps result }
{
    match heard(body) {
        Some(body) => outs_of(hear(node, disk, now, body.as_slice())),
        None => Ok(Outs::new(alloc)),
    }
}

// A body, unless it is empty.
fn heard(body: Blob) -> Option<Blob>
    ensures { result ≡ heard_in body }
{
    if body.is_empty() {
        return None;
    }
    Some(body)
}

// What is handed out of bytes that the node took.
fn outs_of(came: Result<Reaction, NodeError>) -> Result<Outs, End>
    ensures { result ≡ reaction_outs came }
{
    match came {
        Ok(reaction) => {
            let Reaction { outs, .. } = reaction;
            Ok(outs)
        }
        Err(error) => Err(End::from(error)),
    }
}

/// Finds the node that a disk holds, which announces this for the sequences that it grants.
pub fn find<D: ReadDisk>(alloc: Global, disk: &mut D, granted: Behaviour) -> Result<Node, End>
    ensures found { IfOk result (λ node.
        Found D.tells (D.told disk.old) granted (place_of (D.told disk.new) node)) }
    ensures unfound { IfErr result (λ end. (e : MountError) × (end ≡ mount_end e)
        × NotFound D.tells (D.told disk.old) (D.told disk.new) e) }
{
    let mut node = Node::mount(alloc, disk)?;
    node.set_grant(granted);
    Ok(node)
}
