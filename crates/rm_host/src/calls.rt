//! What commands do with the node of a host. Each error is the end of a command.
ghost use Rattle.std.specs.Prelude.{◌≡◌, ◌≢◌, ◌⊎◌, ◌<◌, ◌≤◌, ◌^◌, ◌+◌, List, Result, length, true, false, Err, None};
ghost use Rattle.std.specs.Prelude.{IfErr, IfOk, OnOk, IsTrue, is_ok};
ghost use Rattle.node_store.specs.Changes.{WasNotMade};
ghost use Rattle.node_store.specs.Imported.{Imports};
ghost use Rattle.node_store.specs.Mounted.{Finds, IsNoNode};
ghost use Rattle.node_store.specs.declared.error.MountError.{MountError};
ghost use Rattle.rm_base.specs.Count.{Rose};
ghost use Rattle.rm_base.specs.Limits.{now_max};
ghost use Rattle.rm_base.specs.Outside.{Stream};
ghost use Rattle.rm_base.specs.declared.message.Behaviour.TheVariants.{FollowingFirstGap};
ghost use Rattle.rm_node.specs.Asked.{Close, Create, End as Finish, Send, Tick};
ghost use Rattle.rm_node.specs.Compacted.{Compacts};
ghost use Rattle.record_batch.specs.Sequences.Makers.{makers};
ghost use Rattle.record_batch.specs.Sequences.Sources.{accepted_count};
ghost use Rattle.rm_disk.specs.Call.{seen_of};
ghost use Rattle.rm_disk.specs.Cause.{HasCause};
ghost use Rattle.rm_disk.specs.Image.{MayLeave, OnlyLeaves};
ghost use Rattle.rm_node.specs.Ends.{is_disk};
ghost use Rattle.rm_serve.specs.Limits.{most_posts};
ghost use Rattle.rm_serve.specs.Posts.{PostingAs, none_posted};
ghost use Rattle.rm_serve.specs.Serves.{ServingAs};
ghost use Rattle.rm_serve.specs.Steps.{IsReady, IsUp, MakesAll, Step, place_of};
ghost use Rattle.rm_host.specs.Compaction.{call_end};
ghost use Rattle.rm_host.specs.Consumption.{ConsumesItems};
ghost use Rattle.rm_host.specs.Ends.{HasReason, faults_of, is_of_call, is_outer, is_refused, mount_end};
ghost use Rattle.rm_host.specs.Finding.{Found, NotFound};
ghost use Rattle.rm_host.specs.HostSteps.{CallsNode, Posts, all_dialled, as_end, back_wish, outs_in, own_step};
ghost use Rattle.rm_host.specs.Importation.{IsNotMade, IsShort};
ghost use Rattle.rm_host.specs.Makings.{HasMade};

use crate::end::End;
use crate::host::Host;
use http_endpoint::Media;
use http_endpoint::link::Link;
use node_laws::answers::Wish;
use node_laws::laws::there_are_own_terms;
use record_batch::Via;
use rm_base::{Blob, Connection, Lapse, Uri};
use rm_disk::{Disk, ReadDisk};
use rm_node::{Made, Node, NodeError, Outs, Sent};
use rm_serve::laws::a_node_stays_up;
use rm_serve::{Posted, Served, post_due, post_due11, serve_one, serve_one11};
use std::alloc::Global;

/// Makes a node on the disk.
pub(crate) fn make_node<D: ReadDisk, L: Link, C>(
    alloc: Global,
    host: &mut Host<D, L, C>,
    number: u64,
    address: Uri,
) -> Result<Node, End>
    requires from_one { 0 < number }
    requires within { number < 2 ^ 60 }
    ensures has { IsTrue D.tells → OnOk result (HasMade (D.told host.new.disk) number address) }
    ensures wanted { IsTrue D.tells → result ≡ Err End.Memory →
        WasNotMade (D.told host.old.disk).past (D.told host.new.disk).past }
    ensures which { IfErr result (λ e. (e ≡ End.Memory) ⊎ (e ≡ End.DiskFault)) }
    ensures link { L.told host.new.link ≡ L.told host.old.link }
    ensures reason { HasReason (faults_of D.told L.told host.old) (faults_of D.told L.told host.new) result }
    ensures inner { is_outer result ≡ false }
{
    Ok(Node::make(alloc, &mut host.disk, number, address)?)
}

/// Makes the disk that of the node whose journal of the layout before these bytes are.
pub(crate) fn import_node<D: ReadDisk, L: Link, C>(
    alloc: Global,
    host: &mut Host<D, L, C>,
    bytes: &[u8],
) -> Result<Node, End>
    ensures imports { IfOk result (λ node. Imports D.tells bytes.now (D.told host.new.disk).past node.stored) }
    ensures short { is_ok result ≡ true → IsShort bytes.now }
    ensures why { IfErr result (IsNotMade bytes.now) }
    ensures untouched { IsTrue D.tells → IfErr result (λ end. end ≢ End.DiskFault →
        (D.told host.new.disk).past ≡ (D.told host.old.disk).past) }
    ensures link { L.told host.new.link ≡ L.told host.old.link }
    ensures reason { HasReason (faults_of D.told L.told host.old) (faults_of D.told L.told host.new) result }
    ensures inner { is_outer result ≡ false }
{
    Ok(Node::import(alloc, &mut host.disk, bytes)?)
}

/// Finds the node that the disk holds.
pub(crate) fn mount<D: ReadDisk, L: Link, C>(
    alloc: Global,
    host: &mut Host<D, L, C>,
) -> Result<Node, End>
    ensures found { IsTrue D.tells → IfOk result (λ node.
        Finds (D.told host.old.disk).past (D.told host.new.disk).past node.stored) }
    ensures up { IfOk result (λ node. IsUp D.tells (place_of (D.told host.new.disk) node)) }
    ensures moments { IsTrue D.tells → OnlyLeaves (D.told host.old.disk).past (D.told host.new.disk).past
        (MayLeave (D.told host.old.disk).past) }
    ensures none { IsTrue D.tells → result ≡ Err End.NotAJournal → IsNoNode (seen_of (D.told host.old.disk).past) }
    ensures which { IfErr result (λ e. (e ≡ End.Memory) ⊎ (e ≡ End.DiskFault) ⊎ (e ≡ End.NotAJournal)) }
    ensures unrefused { is_refused result ≡ false }
    ensures mounted { IfOk result (λ node.
        Found D.tells (D.told host.old.disk) FollowingFirstGap (place_of (D.told host.new.disk) node)) }
    ensures unfound { IfErr result (λ end. (e : MountError) × (end ≡ mount_end e)
        × NotFound D.tells (D.told host.old.disk) (D.told host.new.disk) e) }
    ensures link { L.told host.new.link ≡ L.told host.old.link }
    ensures clock { host.new.clock ≡ host.old.clock }
    ensures reason { HasReason (faults_of D.told L.told host.old) (faults_of D.told L.told host.new) result }
    ensures inner { is_outer result ≡ false }
{
    Ok(Node::mount(alloc, &mut host.disk)?)
}

/// One tick, and the packets that it hands out.
pub(crate) fn tick<D: Disk, L: Link, C>(
    host: &mut Host<D, L, C>,
    node: &mut Node,
    now: u64,
) -> Result<Outs, End>
    requires up { IsUp D.tells (place_of (D.told host.old.disk) node.old) }
    requires within { now ≤ now_max }
    ensures up { OnOk result (IsUp D.tells (place_of (D.told host.new.disk) node.new)) }
    ensures calls { CallsNode D.tells (place_of (D.told host.old.disk) node.old)
        (place_of (D.told host.new.disk) node.new) (L.told host.old.link)
        (L.told host.new.link) (own_step now (Tick now) result) }
    ensures of_call { IfErr result (λ e. is_of_call e ≡ true) }
    ensures clock { host.new.clock ≡ host.old.clock }
    ensures reason { HasReason (faults_of D.told L.told host.old) (faults_of D.told L.told host.new) result }
    ensures inner { is_outer result ≡ false }
{
    a_node_stays_up();
    Ok(node.tick(&mut host.disk, now)?)
}

/// Closes a sequence, and answers the packets that this hands out.
pub(crate) fn close_node<D: Disk, L: Link, C>(
    host: &mut Host<D, L, C>,
    node: &mut Node,
    seq: u32,
    now: u64,
) -> Result<Outs, End>
    requires up { IsUp D.tells (place_of (D.told host.old.disk) node.old) }
    ensures up { OnOk result (IsUp D.tells (place_of (D.told host.new.disk) node.new)) }
    ensures calls { CallsNode D.tells (place_of (D.told host.old.disk) node.old)
        (place_of (D.told host.new.disk) node.new) (L.told host.old.link)
        (L.told host.new.link) (own_step now (Close seq) result) }
    ensures of_call { IfErr result (λ e. is_of_call e ≡ true) }
    ensures clock { host.new.clock ≡ host.old.clock }
    ensures reason { HasReason (faults_of D.told L.told host.old) (faults_of D.told L.told host.new) result }
    ensures inner { is_outer result ≡ false }
{
    a_node_stays_up();
    Ok(node.close(&mut host.disk, seq, now)?)
}

/// Ends a sequence, and answers the packets that this hands out.
pub(crate) fn end_node<D: Disk, L: Link, C>(
    host: &mut Host<D, L, C>,
    node: &mut Node,
    seq: u32,
) -> Result<Outs, End>
    requires up { IsUp D.tells (place_of (D.told host.old.disk) node.old) }
    ensures up { OnOk result (IsUp D.tells (place_of (D.told host.new.disk) node.new)) }
    ensures calls { CallsNode D.tells (place_of (D.told host.old.disk) node.old)
        (place_of (D.told host.new.disk) node.new) (L.told host.old.link)
        (L.told host.new.link) (own_step 0 (Finish seq) result) }
    ensures of_call { IfErr result (λ e. is_of_call e ≡ true) }
    ensures clock { host.new.clock ≡ host.old.clock }
    ensures reason { HasReason (faults_of D.told L.told host.old) (faults_of D.told L.told host.new) result }
    ensures inner { is_outer result ≡ false }
{
    a_node_stays_up();
    Ok(node.end(&mut host.disk, seq)?)
}

/// Asks the node at an address for a sequence that never ends, whose answers come back on the connection.
pub(crate) fn create<D: Disk, L: Link, C>(
    host: &mut Host<D, L, C>,
    node: &mut Node,
    to: Uri,
) -> Result<Made, End>
    requires up { IsUp D.tells (place_of (D.told host.old.disk) node.old) }
    ensures up { OnOk result (IsUp D.tells (place_of (D.told host.new.disk) node.new)) }
    ensures seq { IfOk result (λ made. made.seq ≡ length (makers node.old.stored.records) + 1) }
    ensures calls { CallsNode D.tells (place_of (D.told host.old.disk) node.old)
        (place_of (D.told host.new.disk) node.new) (L.told host.old.link)
        (L.told host.new.link)
        (own_step 0 (Create (back_wish to)) (outs_in (λ made. made.outs) result)) }
    ensures of_call { IfErr result (λ e. is_of_call e ≡ true) }
    ensures clock { host.new.clock ≡ host.old.clock }
    ensures reason { HasReason (faults_of D.told L.told host.old) (faults_of D.told L.told host.new) result }
    ensures inner { is_outer result ≡ false }
{
    a_node_stays_up();
    Ok(node.create(&mut host.disk, wish(to))?)
}

/// Writes the journal of the node anew.
pub(crate) fn compact_node<D: Disk, L: Link, C>(
    host: &mut Host<D, L, C>,
    node: &mut Node,
) -> Result<(), End>
    requires up { IsUp D.tells (place_of (D.told host.old.disk) node.old) }
    ensures compacts { Compacts D.tells (D.told host.old.disk)
        (D.told host.new.disk) node.old node.new (call_end result) }
    ensures link { L.told host.new.link ≡ L.told host.old.link }
    ensures reason { HasReason (faults_of D.told L.told host.old) (faults_of D.told L.told host.new) result }
    ensures inner { is_outer result ≡ false }
{
    Ok(node.compact(&mut host.disk)?)
}

// What is asked for then.
fn wish(to: Uri) -> Wish
    ensures is { result ≡ record { to = to; via = Via.Back; expires = record { months = 0; ms = 0 }; offer = None } }
    ensures months { result.expires.months ≡ 0 }
    ensures ms { result.expires.ms ≡ 0 }
{
    Wish {
        to,
        via: Via::Back,
        expires: Lapse { months: 0, ms: 0 },
        offer: None,
    }
}

/// Gives the node a payload to number, record and send in a sequence.
pub(crate) fn accept_payload<D: Disk, L: Link, C>(
    host: &mut Host<D, L, C>,
    node: &mut Node,
    seq: u32,
    payload: Blob,
) -> Result<Sent, End>
    requires up { IsUp D.tells (place_of (D.told host.old.disk) node.old) }
    ensures up { OnOk result (IsUp D.tells (place_of (D.told host.new.disk) node.new)) }
    ensures number { IfOk result (λ sent. sent.number ≡ accepted_count node.old.stored.records seq + 1) }
    ensures calls { CallsNode D.tells (place_of (D.told host.old.disk) node.old)
        (place_of (D.told host.new.disk) node.new) (L.told host.old.link)
        (L.told host.new.link)
        (own_step 0 (Send seq payload) (outs_in (λ sent. sent.outs) result)) }
    ensures of_call { IfErr result (λ e. is_of_call e ≡ true) }
    ensures clock { host.new.clock ≡ host.old.clock }
    ensures reason { HasReason (faults_of D.told L.told host.old) (faults_of D.told L.told host.new) result }
    ensures inner { is_outer result ≡ false }
{
    a_node_stays_up();
    Ok(node.send(&mut host.disk, seq, payload)?)
}

/// The items of an inbox up to one were consumed.
pub(crate) fn consume_items<D: Disk, L: Link, C>(
    host: &mut Host<D, L, C>,
    node: &mut Node,
    seq: u32,
    upto: u64,
) -> Result<(), End>
    requires up { IsUp D.tells (place_of (D.told host.old.disk) node.old) }
    ensures consumes { ConsumesItems D.tells (D.told host.old.disk) (D.told host.new.disk) node.old node.new seq upto
        (call_end result) }
    ensures end { IfErr result (λ e. is_of_call e ≡ true) }
    ensures link { L.told host.new.link ≡ L.told host.old.link }
    ensures reason { HasReason (faults_of D.told L.told host.old) (faults_of D.told L.told host.new) result }
    ensures inner { is_outer result ≡ false }
{
    there_are_own_terms();
    a_node_stays_up();
    Ok(node.consume(&mut host.disk, seq, upto)?)
}

/// Posts packets to peers that speak this version of SOAP. Where one found no connection the link's count of faults
/// rose.
pub(crate) fn post<D: Disk, L: Link, C>(
    alloc: Global,
    host: &mut Host<D, L, C>,
    node: &mut Node,
    now: u64,
    outs: Outs,
    media: Media,
) -> Result<Posted, End>
    requires up { IsUp D.tells (place_of (D.told host.old.disk) node.old) }
    ensures up { OnOk result (IsUp D.tells (place_of (D.told host.new.disk) node.new)) }
    ensures posts { (steps : List Step) × MakesAll D.tells (place_of (D.told host.old.disk) node.old)
        (place_of (D.told host.new.disk) node.new) steps
        × Posts media now outs (L.told host.old.link) (L.told host.new.link) steps result }
    ensures undialled { IfOk result (λ posted. 0 < posted.undialled
        → Rose (L.told host.old.link).faults (L.told host.new.link).faults) }
    ensures clock { host.new.clock ≡ host.old.clock }
    ensures reason { HasReason (faults_of D.told L.told host.old) (faults_of D.told L.told host.new) result }
    ensures inner { is_outer result ≡ false }
{
    Ok(post_row(
        alloc,
        node,
        &mut host.disk,
        &mut host.link,
        now,
        outs,
        media,
    )?)
}

/// Posts packets, each of which is to find a connection.
pub(crate) fn post_all<D: Disk, L: Link, C>(
    alloc: Global,
    host: &mut Host<D, L, C>,
    node: &mut Node,
    now: u64,
    outs: Outs,
) -> Result<Posted, End>
    requires up { IsUp D.tells (place_of (D.told host.old.disk) node.old) }
    ensures posts { (steps : List Step) × MakesAll D.tells (place_of (D.told host.old.disk) node.old)
        (place_of (D.told host.new.disk) node.new) steps
        × (posted : Result Posted End)
        × Posts Media.Soap12 now outs (L.told host.old.link) (L.told host.new.link) steps posted
        × (result ≡ all_dialled posted) }
    ensures dialled { IfOk result (λ posted. posted.undialled ≡ 0) }
    ensures clock { host.new.clock ≡ host.old.clock }
    ensures reason { HasReason (faults_of D.told L.told host.old) (faults_of D.told L.told host.new) result }
    ensures inner { is_outer result ≡ false }
{
    let posted = post(alloc, host, node, now, outs, Media::Soap12)?;
    if posted.undialled > 0 {
        return Err(End::LinkFault);
    }
    Ok(posted)
}

/// Serves a connection that came, of a peer that speaks this version of SOAP.
pub(crate) fn serve_conn<D: Disk, L: Link, C>(
    alloc: Global,
    host: &mut Host<D, L, C>,
    node: &mut Node,
    mut conn: L::Conn,
    now: u64,
    media: Media,
) -> Result<Served, End>
    requires up { IsUp D.tells (place_of (D.told host.old.disk) node.old) }
    ensures up { OnOk result (IsUp D.tells (place_of (D.told host.new.disk) node.new)) }
    ensures serves { (steps : List Step) × MakesAll D.tells (place_of (D.told host.old.disk) node.old)
        (place_of (D.told host.new.disk) node.new) steps
        × (last : Stream) × (came : Result Served NodeError)
        × ServingAs media now (L.Conn.Source.told conn) last steps came × (result ≡ as_end came) }
    ensures link { L.told host.new.link ≡ L.told host.old.link }
    ensures clock { host.new.clock ≡ host.old.clock }
    ensures reason { HasReason (faults_of D.told L.told host.old) (faults_of D.told L.told host.new) result }
    ensures inner { is_outer result ≡ false }
{
    Ok(serve_peer(alloc, node, &mut host.disk, &mut conn, now, media)?)
}

// Serves a peer that speaks this version of SOAP.
fn serve_peer<D: Disk, C: Connection>(
    alloc: Global,
    node: &mut Node,
    disk: &mut D,
    conn: &mut C,
    now: u64,
    media: Media,
) -> Result<Served, NodeError>
    requires ready { IsReady D.tells (place_of (D.told disk.old) node.old) }
    ensures serves { (steps : List Step) × MakesAll D.tells (place_of (D.told disk.old) node.old)
        (place_of (D.told disk.new) node.new) steps
        × ServingAs media now (C.Source.told conn.old)
        (C.Source.told conn.new) steps result }
    ensures ready { IsReady D.tells (place_of (D.told disk.new) node.new) }
    ensures up { OnOk result (node.new.stored.journal.is_down ≡ node.old.stored.journal.is_down) }
    ensures down { result ≡ Err NodeError.Down → node.old.stored.journal.is_down ≡ true }
    ensures cause { HasCause (D.told disk.old).faults (D.told disk.new).faults (is_disk result) }
{
    match media {
        Media::Soap12 => serve_one(alloc, node, disk, conn, now),
        Media::Soap11 => serve_one11(alloc, node, disk, conn, now),
    }
}

// Posts packets to peers that speak this version of SOAP.
fn post_row<D: Disk, L: Link>(
    alloc: Global,
    node: &mut Node,
    disk: &mut D,
    link: &mut L,
    now: u64,
    outs: Outs,
    media: Media,
) -> Result<Posted, NodeError>
    requires ready { IsReady D.tells (place_of (D.told disk.old) node.old) }
    ensures posts { (steps : List Step) × MakesAll D.tells (place_of (D.told disk.old) node.old)
        (place_of (D.told disk.new) node.new) steps
        × PostingAs media now most_posts outs none_posted
        (L.told link.old)
        (L.told link.new) steps result }
    ensures ready { IsReady D.tells (place_of (D.told disk.new) node.new) }
    ensures up { OnOk result (node.new.stored.journal.is_down ≡ node.old.stored.journal.is_down) }
    ensures down { result ≡ Err NodeError.Down → node.old.stored.journal.is_down ≡ true }
    ensures cause { HasCause (D.told disk.old).faults (D.told disk.new).faults (is_disk result) }
{
    match media {
        Media::Soap12 => post_due(alloc, node, disk, link, now, outs),
        Media::Soap11 => post_due11(alloc, node, disk, link, now, outs),
    }
}
