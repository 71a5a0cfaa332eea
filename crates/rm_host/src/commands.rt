//! The commands `make`, `push`, `close`, `end`, `inbox` and `compact`.
ghost use Rattle.std.specs.Prelude.{◌≡◌, ◌≢◌, ◌<◌, ◌^◌, ◌⊎◌, [], List, Result, Err, IfErr, IfOk, OnOk, IsTrue, false};
ghost use Rattle.http_endpoint.specs.declared.media.Media.TheVariants.{Soap12};
ghost use Rattle.rm_base.specs.declared.message.Behaviour.TheVariants.{FollowingFirstGap};
ghost use Rattle.rm_sides.specs.Destination.Incoming.{inbox as inbox_in};
ghost use Rattle.rm_disk.specs.Call.{seen_of};
ghost use Rattle.rm_node.specs.Asked.{Close, End as Finish, Tick};
ghost use Rattle.rm_serve.specs.Steps.{IsUp, MakesAll, Step, place_of};
ghost use Rattle.rm_host.specs.Compaction.{Compaction};
ghost use Rattle.rm_host.specs.Ends.{HasReason, faults_of, is_disk_fault, is_link_fault, is_outer};
ghost use Rattle.rm_host.specs.HostSteps.{Commands, IsTold, Posts, Pushes, all_dialled};
ghost use Rattle.rm_host.specs.Makings.{Making, TellsInbox};
ghost use Rattle.rm_host.specs.Sequences.{inbox_answer, inbox_lines};
ghost use Rattle.rm_host.specs.Texts.{compacted_line, posted_line};

use crate::calls::{close_node, compact_node, end_node, make_node, mount, post_all, tick};
use crate::end::End;
use crate::host::Host;
use crate::items::push_inbox;
use crate::laws::a_command_leaves_its_records;
use http_endpoint::link::Link;
use node_laws::answers::Cause;
use node_tables::Tables;
use rm_base::{Blob, Clock, Memory, Uri, push_decimal};
use rm_disk::{Disk, ReadDisk};
use rm_node::{Node, Outs};
use rm_serve::Posted;
use rm_sides::destination::Incoming;
use std::alloc::Global;

/// Makes a node on an empty disk.
/// - `makes`: it prints `made` where the disk had no bytes, and then it has a node of this number and address; it
///   refuses a disk exactly where that has bytes, which stay. Where memory was wanting the disk is as it was or has an
///   empty journal, or the node was made already. The link is asked for nothing.
pub fn make<D: ReadDisk, L: Link, C: Clock>(
    alloc: Global,
    host: &mut Host<D, L, C>,
    number: u64,
    address: Uri,
) -> Result<Blob, End>
    requires from_one { 0 < number }
    requires within { number < 2 ^ 60 }
    ensures makes { Making D.tells (D.told host.old.disk) (D.told host.new.disk) (L.told host.old.link)
        (L.told host.new.link) number address result }
    ensures reason { HasReason (faults_of D.told L.told host.old) (faults_of D.told L.told host.new) result }
    ensures inner { is_outer result ≡ false }
{
    check_empty(host)?;
    make_node(alloc, host, number, address)?;
    Ok(Blob::from_slice(alloc, b"made\n")?)
}

/// Refuses a disk that has bytes.
pub(crate) fn check_empty<D: ReadDisk, L: Link, C>(host: &mut Host<D, L, C>) -> Result<(), End>
    ensures empty { IsTrue D.tells → OnOk result (seen_of (D.told host.old.disk).past ≡ []) }
    ensures full { IsTrue D.tells → result ≡ Err End.NotEmpty → seen_of (D.told host.old.disk).past ≢ [] }
    ensures which { IfErr result (λ e. (e ≡ End.DiskFault) ⊎ (e ≡ End.NotEmpty)) }
    ensures past { IsTrue D.tells → (D.told host.new.disk).past ≡ (D.told host.old.disk).past }
    ensures link { L.told host.new.link ≡ L.told host.old.link }
    ensures reason { HasReason (faults_of D.told L.told host.old) (faults_of D.told L.told host.new) result }
    ensures inner { is_outer result ≡ false }
{
    match host.disk.len() {
        Ok(0) => Ok(()),
        Ok(_) => Err(End::NotEmpty),
        Err(_) => Err(End::DiskFault),
    }
}

/// One tick, and what it gave is posted.
/// - `does`: one call of the node that the disk had, at the moment that the clock shows; what that hands out is posted
///   in one row. It prints how many packets were answered and how many missed, where each found a connection, and ends
///   with 7 otherwise.
pub fn push<D: ReadDisk, L: Link, C: Clock>(
    alloc: Global,
    host: &mut Host<D, L, C>,
) -> Result<Blob, End>
    ensures does { Commands D.tells (D.told host.old.disk) (D.told host.new.disk) (L.told host.old.link)
        (L.told host.new.link) FollowingFirstGap
        (λ x z. Pushes (C.next host.old.clock) (λ moment. Tick moment) (L.told host.old.link)
        (L.told host.new.link)) result }
    ensures reason { HasReason (faults_of D.told L.told host.old) (faults_of D.told L.told host.new) result }
    ensures inner { is_outer result ≡ false }
{
    a_command_leaves_its_records();
    let mut node = mount(alloc, host)?;
    let now = host.clock.now();
    let outs = tick(host, &mut node, now)?;
    told(alloc, host, &mut node, now, outs)
}

/// A sequence is closed.
pub fn close<D: ReadDisk, L: Link, C: Clock>(
    alloc: Global,
    host: &mut Host<D, L, C>,
    seq: u32,
) -> Result<Blob, End>
    ensures does { Commands D.tells (D.told host.old.disk) (D.told host.new.disk) (L.told host.old.link)
        (L.told host.new.link) FollowingFirstGap
        (λ x z. Pushes (C.next host.old.clock) (λ moment. Close seq) (L.told host.old.link)
        (L.told host.new.link)) result }
    ensures reason { HasReason (faults_of D.told L.told host.old) (faults_of D.told L.told host.new) result }
    ensures inner { is_outer result ≡ false }
{
    a_command_leaves_its_records();
    let mut node = mount(alloc, host)?;
    let now = host.clock.now();
    let outs = close_node(host, &mut node, seq, now)?;
    told(alloc, host, &mut node, now, outs)
}

/// A sequence is ended.
pub fn end<D: ReadDisk, L: Link, C: Clock>(
    alloc: Global,
    host: &mut Host<D, L, C>,
    seq: u32,
) -> Result<Blob, End>
    ensures does { Commands D.tells (D.told host.old.disk) (D.told host.new.disk) (L.told host.old.link)
        (L.told host.new.link) FollowingFirstGap
        (λ x z. Pushes (C.next host.old.clock) (λ moment. Finish seq) (L.told host.old.link)
        (L.told host.new.link)) result }
    ensures reason { HasReason (faults_of D.told L.told host.old) (faults_of D.told L.told host.new) result }
    ensures inner { is_outer result ≡ false }
{
    a_command_leaves_its_records();
    let mut node = mount(alloc, host)?;
    let now = host.clock.now();
    let outs = end_node(host, &mut node, seq)?;
    told(alloc, host, &mut node, now, outs)
}

// Posts packets, and tells how many were posted and missed.
fn told<D: Disk, L: Link, C>(
    alloc: Global,
    host: &mut Host<D, L, C>,
    node: &mut Node,
    now: u64,
    outs: Outs,
) -> Result<Blob, End>
    requires up { IsUp D.tells (place_of (D.told host.old.disk) node.old) }
    ensures posts { (steps : List Step) × MakesAll D.tells (place_of (D.told host.old.disk) node.old)
        (place_of (D.told host.new.disk) node.new) steps
        × (posted : Result Posted End)
        × Posts Soap12 now outs (L.told host.old.link) (L.told host.new.link) steps posted
        × IsTold (all_dialled posted) posted_line result }
    ensures reason { HasReason (faults_of D.told L.told host.old) (faults_of D.told L.told host.new) result }
    ensures inner { is_outer result ≡ false }
{
    let posted = post_all(alloc, host, node, now, outs)?;
    Ok(posted_text(alloc, posted)?)
}

fn posted_text(alloc: Global, posted: Posted) -> Result<Blob, Memory>
    ensures { IfOk result (λ text. text ≡ posted_line posted) }
{
    let mut text = Blob::from_slice(alloc, b"posted ")?;
    push_decimal(&mut text, u64::from(posted.sent))?;
    text.push_all(b" missed ")?;
    push_decimal(&mut text, u64::from(posted.missed))?;
    text.push_all(b"\n")?;
    Ok(text)
}

/// The items in the inbox of a sequence that receives, a line each.
/// - `does`: no call of the node is made. It prints the payloads that aren't gone, each with its number, and how many
///   items the inbox has, the gone ones too.
pub fn inbox<D: ReadDisk, L: Link, C: Clock>(
    alloc: Global,
    host: &mut Host<D, L, C>,
    seq: u32,
) -> Result<Blob, End>
    ensures does { Commands D.tells (D.told host.old.disk) (D.told host.new.disk) (L.told host.old.link)
        (L.told host.new.link) FollowingFirstGap
        (λ x z. TellsInbox seq x z (L.told host.old.link)
        (L.told host.new.link)) result }
    ensures reason { HasReason (faults_of D.told L.told host.old) (faults_of D.told L.told host.new) result }
    ensures inner { is_outer result ≡ false }
{
    a_command_leaves_its_records();
    let node = mount(alloc, host)?;
    inbox_text(alloc, node.tables(), seq)
}

// What is in the inbox of a sequence, by the tables of a node.
fn inbox_text(alloc: Global, tables: &Tables, seq: u32) -> Result<Blob, End>
    ensures is { (result ≡ Err End.Memory) ⊎ (result ≡ inbox_answer tables.now.records seq) }
    ensures disk { is_disk_fault result ≡ false }
    ensures link { is_link_fault result ≡ false }
    ensures inner { is_outer result ≡ false }
{
    if seq > tables.len() {
        return Err(End::Refused(Cause::NoSequence));
    }
    match tables.incoming(seq) {
        Some(incoming) => Ok(items_text(alloc, seq, incoming)?),
        None => Err(End::Refused(Cause::WrongSide)),
    }
}

fn items_text(alloc: Global, seq: u32, incoming: &Incoming) -> Result<Blob, Memory>
    ensures { IfOk result (λ text. text ≡ inbox_lines seq (inbox_in incoming.now.facts)) }
{
    let mut text = Blob::new(alloc);
    push_inbox(&mut text, seq, incoming)?;
    text.push_all(b"inbox ")?;
    push_decimal(&mut text, u64::from(seq))?;
    text.push_all(b" ")?;
    push_decimal(&mut text, incoming.inbox_len())?;
    text.push_all(b"\n")?;
    Ok(text)
}

/// The journal is written anew, and has what the node's records say in short. Where memory is wanting for the line that
/// is printed, the journal is the fresh one all the same.
/// - `compacts`: two counts are printed: the entries that the journal had, and the records of their snapshot. A crash
///   since the node was found leaves its batches in the old bank or those of the snapshot in the new one. It refuses
///   with StoreFull, and the disk has what was found then; after want of memory the disk is as it reads, or was written
///   anew already.
pub fn compact<D: ReadDisk, L: Link, C: Clock>(
    alloc: Global,
    host: &mut Host<D, L, C>,
) -> Result<Blob, End>
    ensures compacts { Compaction D.tells (D.told host.old.disk) (D.told host.new.disk) result }
    ensures link { L.told host.new.link ≡ L.told host.old.link }
    ensures reason { HasReason (faults_of D.told L.told host.old) (faults_of D.told L.told host.new) result }
    ensures inner { is_outer result ≡ false }
{
    let mut node = mount(alloc, host)?;
    let before = node.entries();
    compact_node(host, &mut node)?;
    let after = node.entries();
    Ok(compacted_text(alloc, before, after)?)
}

fn compacted_text(alloc: Global, before: u64, after: u64) -> Result<Blob, Memory>
    ensures { IfOk result (λ text. text ≡ compacted_line before after) }
{
    let mut text = Blob::from_slice(alloc, b"compacted ")?;
    push_decimal(&mut text, before)?;
    text.push_all(b" ")?;
    push_decimal(&mut text, after)?;
    text.push_all(b"\n")?;
    Ok(text)
}
