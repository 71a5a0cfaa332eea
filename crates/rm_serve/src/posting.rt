//! Packets that leave a node: each is posted on a connection of its own, and what comes back is given to the node.
ghost use Rattle.std.specs.Prelude.{◌≡◌, ◌≤◌, ◌<◌, ◌+◌, ◌++◌, List, Err, IfOk, OnErr, OnOk, true};
ghost use Rattle.rm_base.specs.Count.{RoseBy};
ghost use Rattle.rm_disk.specs.Cause.{HasCause};
ghost use Rattle.rm_node.specs.Ends.{is_disk};
ghost use Rattle.rm_serve.specs.Limits.{most_posts};
ghost use Rattle.rm_serve.specs.Posts.{Admits, Begins, Goes, Hears, IsNext, Posting, Posting11, PostingAs, Sends};
ghost use Rattle.rm_serve.specs.Posts.{Takes, heard_of, none_posted, with_post};
ghost use Rattle.rm_serve.specs.Steps.{IsReady, MakesAll, Step, place_of};

use crate::taking;
use crate::version::{Entry, enter, tell};
use http_endpoint::Media;
use http_endpoint::link::{Fate, Link, post_as};
use rm_base::{Blob, Memory};
use rm_disk::Disk;
use rm_node::{Node, NodeError, Out, Outs, Reaction};
use std::alloc::Global;
use std::collections::VecDeque;

/// How many packets were posted well, how many were not, and to how many of these no connection was made.
#[derive(Clone, Copy, Debug, PartialEq, Eq)]
pub struct Posted {
    pub sent: u32,
    pub missed: u32,
    pub undialled: u32,
}

/// How many packets one `post_due` handles.
const MOST_POSTS: u32 = 256;

/// Posts packets of SOAP 1.2, one after the other, and gives each response that has a body to the node. What the node
/// hands out then is posted too, up to 256 packets in all.
/// - `posts`: packets go in their order, each to the host and port of its own address, and what the node hands out goes
///   behind them. What each response with a body that isn't empty has is given to the node once. `sent` counts those
///   that were answered, `missed` the others, `undialled` those of them that found no connection.
/// - Disk, Down: exactly where a call of the node answered it; packets up to that one were posted (`posts`, `cause`,
///   `down`).
/// - Memory: some first packets were posted, and what came back of them given to the node (`posts`).
pub fn post_due<D: Disk, L: Link>(
    alloc: Global,
    node: &mut Node,
    disk: &mut D,
    link: &mut L,
    now: u64,
    outs: Outs,
) -> Result<Posted, NodeError>
    requires ready { IsReady D.tells (place_of (D.told disk.old) node.old) }
    ensures posts { (steps : List Step) × MakesAll D.tells (place_of (D.told disk.old) node.old)
        (place_of (D.told disk.new) node.new) steps
        × Posting now most_posts outs none_posted
        (L.told link.old)
        (L.told link.new) steps result }
    ensures ready { IsReady D.tells (place_of (D.told disk.new) node.new) }
    ensures up { OnOk result (node.new.stored.journal.is_down ≡ node.old.stored.journal.is_down) }
    ensures down { result ≡ Err NodeError.Down → node.old.stored.journal.is_down ≡ true }
    ensures cause { HasCause (D.told disk.old).faults (D.told disk.new).faults (is_disk result) }

    // Where a packet found no connection, the link's count of faults rose.
    ensures dialled { IfOk result (λ posted.
        RoseBy (L.told link.old).faults (L.told link.new).faults posted.undialled) }
{
    post_row(alloc, node, disk, link, now, outs, Media::Soap12)
}

/// Posts packets lowered to SOAP 1.1, as `post_due` does, and gives the node what the body of each response is lifted
/// to. A packet that SOAP 1.1 can't say is missed and not dialled, and a body that is no message of SOAP 1.1 passed
/// over.
pub fn post_due11<D: Disk, L: Link>(
    alloc: Global,
    node: &mut Node,
    disk: &mut D,
    link: &mut L,
    now: u64,
    outs: Outs,
) -> Result<Posted, NodeError>
    requires ready { IsReady D.tells (place_of (D.told disk.old) node.old) }
    ensures posts { (steps : List Step) × MakesAll D.tells (place_of (D.told disk.old) node.old)
        (place_of (D.told disk.new) node.new) steps
        × Posting11 now most_posts outs none_posted
        (L.told link.old)
        (L.told link.new) steps result }
    ensures ready { IsReady D.tells (place_of (D.told disk.new) node.new) }
    ensures up { OnOk result (node.new.stored.journal.is_down ≡ node.old.stored.journal.is_down) }
    ensures down { result ≡ Err NodeError.Down → node.old.stored.journal.is_down ≡ true }
    ensures cause { HasCause (D.told disk.old).faults (D.told disk.new).faults (is_disk result) }

    // Where a packet found no connection, the link's count of faults rose.
    ensures dialled { IfOk result (λ posted.
        RoseBy (L.told link.old).faults (L.told link.new).faults posted.undialled) }
{
    post_row(alloc, node, disk, link, now, outs, Media::Soap11)
}

// Posts packets to peers that speak this version.
fn post_row<D: Disk, L: Link>(
    alloc: Global,
    node: &mut Node,
    disk: &mut D,
    link: &mut L,
    now: u64,
    outs: Outs,
    media: Media,
) -> Result<Posted, NodeError>
    requires ready { IsReady D.tells (place_of (D.told disk.old) node.old) }
    ensures posts { (steps : List Step) × MakesAll D.tells (place_of (D.told disk.old) node.old)
        (place_of (D.told disk.new) node.new) steps
        × PostingAs media now most_posts outs none_posted
        (L.told link.old)
        (L.told link.new) steps result }
    ensures ready { IsReady D.tells (place_of (D.told disk.new) node.new) }
    ensures up { OnOk result (node.new.stored.journal.is_down ≡ node.old.stored.journal.is_down) }
    ensures down { result ≡ Err NodeError.Down → node.old.stored.journal.is_down ≡ true }
    ensures cause { HasCause (D.told disk.old).faults (D.told disk.new).faults (is_disk result) }
{
    let mut queue = VecDeque::new(alloc);
    push_all(&mut queue, outs)?;
    let mut posted = Posted {
        sent: 0,
        missed: 0,
        undialled: 0,
    };
    let mut left = MOST_POSTS;
    while left > 0 {
        match next_packet(&mut queue) {
            Some(out) => {
                posted = post_one(alloc, node, disk, link, now, out, &mut queue, posted, media)?;
                left -= 1;
            }
            None => return Ok(posted),
        }
    }
    Ok(posted)
}

// The first packet of a queue, which leaves it, where there is one.
fn next_packet(queue: &mut VecDeque<Out>) -> Option<Out>
    ensures { IsNext queue.old.items queue.new.items result }
{
    queue.pop_front()
}

// Posts one packet, gives the response to the node, and puts what is handed out at the end of the queue.
fn post_one<D: Disk, L: Link>(
    alloc: Global,
    node: &mut Node,
    disk: &mut D,
    link: &mut L,
    now: u64,
    out: Out,
    queue: &mut VecDeque<Out>,
    posted: Posted,
    media: Media,
) -> Result<Posted, NodeError>
    requires ready { IsReady D.tells (place_of (D.told disk.old) node.old) }
    requires room { posted.sent + posted.missed < most_posts }
    requires dials { posted.undialled ≤ posted.missed }
    ensures goes { (steps : List Step) × MakesAll D.tells (place_of (D.told disk.old) node.old)
        (place_of (D.told disk.new) node.new) steps
        × Goes media now out queue.old.items queue.new.items posted
        (L.told link.old)
        (L.told link.new) steps result }
    ensures ready { IsReady D.tells (place_of (D.told disk.new) node.new) }
    ensures count { IfOk result (λ p. p.sent + p.missed ≡ posted.sent + posted.missed + 1) }
    ensures dials { IfOk result (λ p. p.undialled ≤ p.missed) }
    ensures up { OnOk result (node.new.stored.journal.is_down ≡ node.old.stored.journal.is_down) }
    ensures down { result ≡ Err NodeError.Down → node.old.stored.journal.is_down ≡ true }
    ensures cause { HasCause (D.told disk.old).faults (D.told disk.new).faults (is_disk result) }
{
    let fate = send(alloc, link, out, media)?;
    let next = counted(&fate, posted);
    hear(alloc, node, disk, now, fate, queue, media)?;
    Ok(next)
}

// Posts what the peer is told of one packet; nothing where it is told nothing.
fn send<L: Link>(alloc: Global, link: &mut L, out: Out, media: Media) -> Result<Fate, Memory>
    ensures sends { IfOk result (Sends media (L.told link.old) (L.told link.new) out) }
    ensures begins { OnErr result (Begins media (L.told link.old) (L.told link.new) out) }
{
    let Out { address, bytes } = out;
    match tell(alloc, bytes, media)? {
        Some(text) => post_as(alloc, link, &address, text.as_slice(), media),
        None => Ok(Fate::Missed),
    }
}

// A packet more.
fn counted(fate: &Fate, posted: Posted) -> Posted
    requires room { posted.sent + posted.missed < most_posts }
    requires dials { posted.undialled ≤ posted.missed }
    ensures is { result ≡ with_post fate.now posted }
    ensures count { result.sent + result.missed ≡ posted.sent + posted.missed + 1 }
    ensures dials { result.undialled ≤ result.missed }
{
    match fate {
        Fate::Answered(_) => Posted {
            sent: posted.sent + 1,
            missed: posted.missed,
            undialled: posted.undialled,
        },
        Fate::Missed => Posted {
            sent: posted.sent,
            missed: posted.missed + 1,
            undialled: posted.undialled,
        },
        Fate::Undialled => Posted {
            sent: posted.sent,
            missed: posted.missed + 1,
            undialled: posted.undialled + 1,
        },
    }
}

// Gives a response to the node, unless there is none or it is empty, and queues what is handed out.
fn hear<D: Disk>(
    alloc: Global,
    node: &mut Node,
    disk: &mut D,
    now: u64,
    fate: Fate,
    queue: &mut VecDeque<Out>,
    media: Media,
) -> Result<(), NodeError>
    requires ready { IsReady D.tells (place_of (D.told disk.old) node.old) }
    ensures hears { (steps : List Step) × MakesAll D.tells (place_of (D.told disk.old) node.old)
        (place_of (D.told disk.new) node.new) steps
        × Hears media now fate queue.old.items queue.new.items steps result }
    ensures ready { IsReady D.tells (place_of (D.told disk.new) node.new) }
    ensures up { OnOk result (node.new.stored.journal.is_down ≡ node.old.stored.journal.is_down) }
    ensures down { result ≡ Err NodeError.Down → node.old.stored.journal.is_down ≡ true }
    ensures cause { HasCause (D.told disk.old).faults (D.told disk.new).faults (is_disk result) }
{
    match heard(fate) {
        Some(body) => admit(alloc, node, disk, now, body, queue, media),
        None => Ok(()),
    }
}

// The body of a response, where there is one that isn't empty.
fn heard(fate: Fate) -> Option<Blob>
    ensures { result ≡ heard_of fate }
{
    match fate {
        Fate::Answered(body) => {
            if body.is_empty() {
                return None;
            }
            Some(body)
        }
        Fate::Missed => None,
        Fate::Undialled => None,
    }
}

// Gives a body to the node, or keeps it out, and queues what is handed out.
fn admit<D: Disk>(
    alloc: Global,
    node: &mut Node,
    disk: &mut D,
    now: u64,
    body: Blob,
    queue: &mut VecDeque<Out>,
    media: Media,
) -> Result<(), NodeError>
    requires ready { IsReady D.tells (place_of (D.told disk.old) node.old) }
    ensures admits { (steps : List Step) × MakesAll D.tells (place_of (D.told disk.old) node.old)
        (place_of (D.told disk.new) node.new) steps
        × Admits media now body queue.old.items queue.new.items steps result }
    ensures ready { IsReady D.tells (place_of (D.told disk.new) node.new) }
    ensures up { OnOk result (node.new.stored.journal.is_down ≡ node.old.stored.journal.is_down) }
    ensures down { result ≡ Err NodeError.Down → node.old.stored.journal.is_down ≡ true }
    ensures cause { HasCause (D.told disk.old).faults (D.told disk.new).faults (is_disk result) }
{
    match enter(alloc, body, media)? {
        Entry::Admitted(bytes) => take(node, disk, now, bytes.as_slice(), queue),
        Entry::KeptOut(_) => Ok(()),
    }
}

// Gives bytes to the node, and queues what is handed out.
fn take<D: Disk>(
    node: &mut Node,
    disk: &mut D,
    now: u64,
    bytes: &[u8],
    queue: &mut VecDeque<Out>,
) -> Result<(), NodeError>
    requires ready { IsReady D.tells (place_of (D.told disk.old) node.old) }
    ensures takes { (steps : List Step) × MakesAll D.tells (place_of (D.told disk.old) node.old)
        (place_of (D.told disk.new) node.new) steps
        × Takes now bytes.now queue.old.items queue.new.items steps result }
    ensures ready { IsReady D.tells (place_of (D.told disk.new) node.new) }
    ensures up { OnOk result (node.new.stored.journal.is_down ≡ node.old.stored.journal.is_down) }
    ensures down { result ≡ Err NodeError.Down → node.old.stored.journal.is_down ≡ true }
    ensures cause { HasCause (D.told disk.old).faults (D.told disk.new).faults (is_disk result) }
{
    let Reaction { outs, .. } = taking::hear(node, disk, now, bytes)?;
    push_all(queue, outs)?;
    Ok(())
}

// Puts packets at the end of the queue.
fn push_all(queue: &mut VecDeque<Out>, outs: Outs) -> Result<(), Memory>
    ensures { OnOk result (queue.new.items ≡ queue.old.items ++ outs) }
{
    let mut rest = outs.into_vec().into_iter();
    while let Some(out) = rest.next() {
        queue.push_back(out)?;
    }
    Ok(())
}
