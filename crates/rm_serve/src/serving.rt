//! One connection that came: a request is read, its body given to the node, and the answer written.
ghost use Rattle.std.specs.Prelude.{◌≡◌, List, Err, OnOk, Some, true};
ghost use Rattle.http_endpoint.specs.Heads.{IsRefusal};
ghost use Rattle.http_endpoint.specs.Texts.{IsWritten};
ghost use Rattle.rm_base.specs.Outside.{Lasts};
ghost use Rattle.rm_answer.specs.Replies.{refusal_to as refusal_for};
ghost use Rattle.rm_disk.specs.Cause.{HasCause};
ghost use Rattle.rm_node.specs.Ends.{is_disk};
ghost use Rattle.rm_serve.specs.Serves.{Admitting, Answering, KeepsOut, Puts, Refusing, Serving, Serving11};
ghost use Rattle.rm_serve.specs.Serves.{ServingAs, is_want, reply_text};
ghost use Rattle.rm_serve.specs.Steps.{IsReady, MakesAll, Step, place_of};

use crate::taking::hear;
use crate::version::{Entry, enter, tell_reply};
use http_endpoint::{HttpError, Media, read_request_as, write_response_as};
use rm_answer::{Reply, fault_reply, refusal_to, reply_to};
use rm_base::{Blob, Connection, Memory};
use rm_disk::Disk;
use rm_message::Refusal;
use rm_node::{Node, NodeError, Outs, Reaction};
use std::alloc::Global;

/// How a connection ended: its request was answered, or it was given up for this error.
#[derive(Clone, Copy, Debug, PartialEq, Eq)]
pub enum ConnEnd {
    Done,
    Dropped(HttpError),
}

/// What came of a connection: the body that the node took, if it took one, what it hands out besides the answer, and
/// how the connection ended.
#[derive(Debug, Drop)]
pub struct Served {
    pub taken: Option<Blob>,
    pub outs: Outs,
    pub finish: ConnEnd,
}

/// Reads one request of SOAP 1.2, gives its body to the node, and writes the answer.
/// - `serves`: one request is read first; by then nothing is written but what `Expect` gets. Of a request that was read
///   the body, and no other bytes, is given to the node in one call; of one that was not no call is made. The answer is
///   that of `rm_answer`, by the verdict and the reply of that call, and no more than some first bytes of it are
///   written where memory was wanting or a write failed.
/// - Dropped: with the error of the request where that was not read, or else WriteFault; with ReadFault or WriteFault
///   only where the count of the connection rose.
/// - Disk, Down: exactly where the call of the node answered it; of the answer nothing was written (`serves`, `cause`,
///   `down`).
/// - Memory: some first steps were made: the request was read, the body given to the node, some first bytes of the
///   answer written (`serves`).
/// - `ready`: a node that is up, and its disk where it tells, have the same batches afterwards, if they had before.
pub fn serve_one<D: Disk, C: Connection>(
    alloc: Global,
    node: &mut Node,
    disk: &mut D,
    conn: &mut C,
    now: u64,
) -> Result<Served, NodeError>
    requires ready { IsReady D.tells (place_of (D.told disk.old) node.old) }
    ensures serves { (steps : List Step) × MakesAll D.tells (place_of (D.told disk.old) node.old)
        (place_of (D.told disk.new) node.new) steps
        × Serving now (C.Source.told conn.old)
        (C.Source.told conn.new) steps result }
    ensures ready { IsReady D.tells (place_of (D.told disk.new) node.new) }
    ensures up { OnOk result (node.new.stored.journal.is_down ≡ node.old.stored.journal.is_down) }
    ensures down { result ≡ Err NodeError.Down → node.old.stored.journal.is_down ≡ true }
    ensures cause { HasCause (D.told disk.old).faults (D.told disk.new).faults (is_disk result) }

    // Where the connection tells that it never fails, its count of faults stays.
    ensures lasts { Lasts (C.Source.told conn.old) (C.Source.told conn.new) }
{
    serve_as(alloc, node, disk, conn, now, Media::Soap12)
}

/// Reads one request of SOAP 1.1, gives what its body is lifted to to the node, and writes the answer, lowered. A body
/// that is no message of SOAP 1.1 is answered with its fault and is not given to the node.
/// - `serves`: as `serve_one`, but that the node is given what the message is lifted to, and that there is no answer
///   where the reply is no message or SOAP 1.1 has no code for its fault.
pub fn serve_one11<D: Disk, C: Connection>(
    alloc: Global,
    node: &mut Node,
    disk: &mut D,
    conn: &mut C,
    now: u64,
) -> Result<Served, NodeError>
    requires ready { IsReady D.tells (place_of (D.told disk.old) node.old) }
    ensures serves { (steps : List Step) × MakesAll D.tells (place_of (D.told disk.old) node.old)
        (place_of (D.told disk.new) node.new) steps
        × Serving11 now (C.Source.told conn.old)
        (C.Source.told conn.new) steps result }
    ensures ready { IsReady D.tells (place_of (D.told disk.new) node.new) }
    ensures up { OnOk result (node.new.stored.journal.is_down ≡ node.old.stored.journal.is_down) }
    ensures down { result ≡ Err NodeError.Down → node.old.stored.journal.is_down ≡ true }
    ensures cause { HasCause (D.told disk.old).faults (D.told disk.new).faults (is_disk result) }

    // Where the connection tells that it never fails, its count of faults stays.
    ensures lasts { Lasts (C.Source.told conn.old) (C.Source.told conn.new) }
{
    serve_as(alloc, node, disk, conn, now, Media::Soap11)
}

// Serves a peer that speaks this version.
fn serve_as<D: Disk, C: Connection>(
    alloc: Global,
    node: &mut Node,
    disk: &mut D,
    conn: &mut C,
    now: u64,
    media: Media,
) -> Result<Served, NodeError>
    requires ready { IsReady D.tells (place_of (D.told disk.old) node.old) }
    ensures serves { (steps : List Step) × MakesAll D.tells (place_of (D.told disk.old) node.old)
        (place_of (D.told disk.new) node.new) steps
        × ServingAs media now (C.Source.told conn.old)
        (C.Source.told conn.new) steps result }
    ensures ready { IsReady D.tells (place_of (D.told disk.new) node.new) }
    ensures up { OnOk result (node.new.stored.journal.is_down ≡ node.old.stored.journal.is_down) }
    ensures down { result ≡ Err NodeError.Down → node.old.stored.journal.is_down ≡ true }
    ensures cause { HasCause (D.told disk.old).faults (D.told disk.new).faults (is_disk result) }
    ensures lasts { Lasts (C.Source.told conn.old) (C.Source.told conn.new) }
{
    match read_request_as(alloc, conn, media) {
        Ok(body) => admit(alloc, node, disk, conn, now, body, media),
        Err(error) => refuse(alloc, conn, error, media),
    }
}

// Gives a body to the node, or keeps it out, and writes its answer.
fn admit<D: Disk, C: Connection>(
    alloc: Global,
    node: &mut Node,
    disk: &mut D,
    conn: &mut C,
    now: u64,
    body: Blob,
    media: Media,
) -> Result<Served, NodeError>
    requires ready { IsReady D.tells (place_of (D.told disk.old) node.old) }
    ensures admits { (steps : List Step) × MakesAll D.tells (place_of (D.told disk.old) node.old)
        (place_of (D.told disk.new) node.new) steps
        × Admitting media now (C.Source.told conn.old)
        (C.Source.told conn.new) body steps result }
    ensures ready { IsReady D.tells (place_of (D.told disk.new) node.new) }
    ensures up { OnOk result (node.new.stored.journal.is_down ≡ node.old.stored.journal.is_down) }
    ensures down { result ≡ Err NodeError.Down → node.old.stored.journal.is_down ≡ true }
    ensures cause { HasCause (D.told disk.old).faults (D.told disk.new).faults (is_disk result) }
    ensures lasts { Lasts (C.Source.told conn.old) (C.Source.told conn.new) }
{
    match enter(alloc, body, media)? {
        Entry::Admitted(bytes) => answer(alloc, node, disk, conn, now, bytes, media),
        Entry::KeptOut(refusal) => keep_out(alloc, conn, &refusal, media),
    }
}

// Gives bytes to the node, and writes its answer.
fn answer<D: Disk, C: Connection>(
    alloc: Global,
    node: &mut Node,
    disk: &mut D,
    conn: &mut C,
    now: u64,
    body: Blob,
    media: Media,
) -> Result<Served, NodeError>
    requires ready { IsReady D.tells (place_of (D.told disk.old) node.old) }
    ensures answers { (steps : List Step) × MakesAll D.tells (place_of (D.told disk.old) node.old)
        (place_of (D.told disk.new) node.new) steps
        × Answering media now (C.Source.told conn.old)
        (C.Source.told conn.new) body steps result }
    ensures ready { IsReady D.tells (place_of (D.told disk.new) node.new) }
    ensures up { OnOk result (node.new.stored.journal.is_down ≡ node.old.stored.journal.is_down) }
    ensures down { result ≡ Err NodeError.Down → node.old.stored.journal.is_down ≡ true }
    ensures cause { HasCause (D.told disk.old).faults (D.told disk.new).faults (is_disk result) }
    ensures lasts { Lasts (C.Source.told conn.old) (C.Source.told conn.new) }
{
    let Reaction {
        verdict,
        reply,
        outs,
    } = hear(node, disk, now, body.as_slice())?;
    let told = tell_reply(alloc, reply, media)?;
    let reply = reply_to(alloc, verdict, told, media);
    let finish = write_reply(alloc, conn, &reply, media)?;
    Ok(Served {
        taken: Some(body),
        outs,
        finish,
    })
}

// Answers a body that is kept out with the fault of its refusal.
fn keep_out<C: Connection>(
    alloc: Global,
    conn: &mut C,
    refusal: &Refusal,
    media: Media,
) -> Result<Served, NodeError>
    ensures keeps { KeepsOut media (C.Source.told conn.old) (C.Source.told conn.new) refusal.now result }
    ensures lasts { Lasts (C.Source.told conn.old) (C.Source.told conn.new) }
{
    let reply = fault_reply(alloc, refusal, media)?;
    let finish = write_reply(alloc, conn, &reply, media)?;
    Ok(Served {
        taken: None,
        outs: Outs::new(alloc),
        finish,
    })
}

// Writes a response.
fn write_reply<C: Connection>(
    alloc: Global,
    conn: &mut C,
    reply: &Reply,
    media: Media,
) -> Result<ConnEnd, Memory>
    requires { IsWritten reply.now.status }
    ensures puts { Puts (C.Source.told conn.old) (C.Source.told conn.new) (reply_text media (Some reply.now)) result }
    ensures lasts { Lasts (C.Source.told conn.old) (C.Source.told conn.new) }
{
    match write_response_as(alloc, conn, reply.status, reply.body.as_slice(), media) {
        Ok(()) => Ok(ConnEnd::Done),
        Err(HttpError::WriteFault) => Ok(ConnEnd::Dropped(HttpError::WriteFault)),
        Err(HttpError::Memory) => Err(Memory),
        Err(_) => unreachable!(),
    }
}

// Answers a request that could not be read, where it gets an answer. The error of the request is told, whatever comes
// of its answer.
fn refuse<C: Connection>(
    alloc: Global,
    conn: &mut C,
    error: HttpError,
    media: Media,
) -> Result<Served, NodeError>
    requires { IsRefusal error }
    ensures refuses { Refusing media (C.Source.told conn.old) (C.Source.told conn.new) error result }
    ensures lasts { Lasts (C.Source.told conn.old) (C.Source.told conn.new) }
{
    if is_want(error) {
        return Err(NodeError::Memory);
    }
    say(alloc, conn, error, media)?;
    Ok(Served {
        taken: None,
        outs: Outs::new(alloc),
        finish: ConnEnd::Dropped(error),
    })
}

// Whether memory was wanting.
fn is_want(error: HttpError) -> bool
    ensures { result ≡ is_want error }
{
    match error {
        HttpError::Memory => true,
        HttpError::ReadFault => false,
        HttpError::WriteFault => false,
        HttpError::BadHead => false,
        HttpError::TooLong { .. } => false,
        HttpError::Unsupported { .. } => false,
        HttpError::CutShort => false,
    }
}

// Writes the answer to a request that could not be read, where it gets one.
fn say<C: Connection>(
    alloc: Global,
    conn: &mut C,
    error: HttpError,
    media: Media,
) -> Result<ConnEnd, Memory>
    requires { IsRefusal error }
    ensures puts { Puts (C.Source.told conn.old) (C.Source.told conn.new)
        (reply_text media (refusal_for media error)) result }
    ensures lasts { Lasts (C.Source.told conn.old) (C.Source.told conn.new) }
{
    match refusal_to(alloc, error, media)? {
        Some(reply) => write_reply(alloc, conn, &reply, media),
        None => Ok(ConnEnd::Done),
    }
}
