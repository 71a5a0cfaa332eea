//! What leaves a node for a peer that speaks SOAP 1.1, and what comes back.
ghost use Rattle.rm_serve.specs.Steps.{IsReady, place_of};

use crate::peer::{
    CREATE_ELSEWHERE, FIRST, SECOND, START, conn, envelope, made, serve_envelope, uri,
    with_envelope, with_head,
};
use crate::watched::Watched;
use rm_base::{Blob, MemConn, Memory};
use rm_disk::{Disk, MemDisk, ReadDisk};
use rm_node::{Node, NodeError, Out, Outs};
use rm_serve::{Posted, post_due11};
use std::alloc::Global;

const POST: &[u8] =
    b"POST /acks HTTP/1.1\r\nHost: localhost:18474\r\nContent-Type: text/xml; charset=utf-8\r\nSOAPAction: \"\"\r\n";

const ONE: &[u8] = b"<s:Header><a:To>http://localhost:18474/acks</a:To>\
    <a:Action>http://docs.oasis-open.org/ws-rx/wsrm/200702/SequenceAcknowledgement</a:Action>\
    <r:SequenceAcknowledgement><r:Identifier>urn:uuid:00000000-0000-8001-8000-000000000001</r:Identifier>\
    <r:AcknowledgementRange Lower=\"1\" Upper=\"1\"/></r:SequenceAcknowledgement></s:Header><s:Body></s:Body>";

const TWO: &[u8] = b"<s:Header><a:To>http://localhost:18474/acks</a:To>\
    <a:Action>http://docs.oasis-open.org/ws-rx/wsrm/200702/SequenceAcknowledgement</a:Action>\
    <r:SequenceAcknowledgement><r:Identifier>urn:uuid:00000000-0000-8001-8000-000000000001</r:Identifier>\
    <r:AcknowledgementRange Lower=\"1\" Upper=\"2\"/></r:SequenceAcknowledgement></s:Header><s:Body></s:Body>";

const OK: &[u8] = b"HTTP/1.1 200 OK\r\nContent-Type: text/xml; charset=utf-8\r\n";

// The start tag of an envelope of SOAP 1.2.
const START12: &[u8] = b"<s:Envelope xmlns:s=\"http://www.w3.org/2003/05/soap-envelope\" \
    xmlns:a=\"http://www.w3.org/2005/08/addressing\" xmlns:r=\"http://docs.oasis-open.org/ws-rx/wsrm/200702\">";

// A node asked for a sequence whose acknowledgements go elsewhere, and given message 1: what it hands out.
fn asked<D: Disk>(alloc: Global, node: &mut Node, disk: &mut D) -> Result<Outs, NodeError>
    requires ready { IsReady D.tells (place_of (D.told disk.old) node.old) }
    ensures ready { IsReady D.tells (place_of (D.told disk.new) node.new) }
{
    let _granted = serve_envelope(alloc, node, disk, CREATE_ELSEWHERE)?;
    let (served, _conn) = serve_envelope(alloc, node, disk, FIRST)?;
    Ok(served.outs)
}

// A link with a connection on which an envelope comes, and one on which nothing is said.
fn link(alloc: Global, start: &[u8], content: &[u8]) -> Result<Watched, Memory> {
    let body = envelope(alloc, start, content)?;
    let first = with_head(alloc, OK, body.as_slice())?;
    let second = with_head(alloc, b"HTTP/1.1 202 Accepted\r\n", b"")?;
    let mut inputs: Vec<MemConn> = Vec::new(alloc);
    inputs.push(conn(alloc, first))?;
    inputs.push(conn(alloc, second))?;
    Ok(Watched::new(alloc, inputs))
}

fn posted(sent: u32, missed: u32) -> Posted {
    Posted {
        sent,
        missed,
        undialled: 0,
    }
}

// What came of packets that were posted: how many, how many entries the node has then, and how many connections ended.
type Came = (Posted, u64, usize);

// A node posts these packets over such a link: what came of it, and the link.
fn post<D: Disk>(
    alloc: Global,
    node: &mut Node,
    disk: &mut D,
    start: &[u8],
    outs: Outs,
) -> Result<(Came, Watched), NodeError>
    requires ready { IsReady D.tells (place_of (D.told disk.old) node.old) }
{
    let mut link = link(alloc, start, SECOND)?;
    let posted = post_due11(alloc, node, disk, &mut link, 0, outs)?;
    let came = (posted, node.entries(), link.ended());
    Ok((came, link))
}

// The same of what a new node on a disk hands out that was asked so.
fn heard<D: ReadDisk + Drop>(
    alloc: Global,
    mut disk: D,
    start: &[u8],
) -> Result<(Came, Watched), NodeError> {
    let mut node = made(alloc, &mut disk)?;
    let outs = asked(alloc, &mut node, &mut disk)?;
    post(alloc, &mut node, &mut disk, start, outs)
}

// Whether a packet with this in it was written on one of the connections, counted from 0.
fn is_posted(alloc: Global, link: &Watched, place: usize, content: &[u8]) -> Result<bool, Memory> {
    let text = with_envelope(alloc, POST, content)?;
    Ok(link.has_written(place, text.as_slice()))
}

// What came of it, and whether the acknowledgements of message 1 and of both were written.
fn told(alloc: Global) -> Result<(Came, bool, bool), NodeError> {
    let (came, link) = heard(alloc, MemDisk::new(alloc), START)?;
    let is_first = is_posted(alloc, &link, 0, ONE)?;
    let is_second = is_posted(alloc, &link, 1, TWO)?;
    Ok((came, is_first, is_second))
}

// The acknowledgement of message 1 is posted in SOAP 1.1; message 2 comes with the response, and its acknowledgement is
// posted too.
#[test]
fn a_packet_is_told_and_its_response_heard(rt: HostRuntime) {
    let came = (posted(2, 0), 4, 2);
    assert!(rt; told(rt.alloc()) == Ok((came, true, true)));
}

// What comes of a response of SOAP 1.2.
fn unheard(alloc: Global) -> Result<Came, NodeError> {
    let (came, _link) = heard(alloc, MemDisk::new(alloc), START12)?;
    Ok(came)
}

// It is passed over.
#[test]
fn another_version_is_not_heard(rt: HostRuntime) {
    assert!(rt; unheard(rt.alloc()) == Ok((posted(1, 0), 3, 1)));
}

// A fault of SOAP 1.2 for which SOAP 1.1 has no code.
const ENCODING: &[u8] = b"<s:Header><a:Action>urn:x</a:Action></s:Header><s:Body><s:Fault><s:Code>\
    <s:Value>s:DataEncodingUnknown</s:Value></s:Code><s:Reason><s:Text xml:lang=\"en\">no</s:Text></s:Reason></s:Fault>\
    </s:Body>";

// So many spaces.
fn spaces(alloc: Global, count: u32) -> Result<Blob, Memory> {
    let mut text = Blob::new(alloc);
    for _ in 0..count {
        text.push_all(b" ")?;
    }
    Ok(text)
}

fn packet(alloc: Global, bytes: Blob) -> Result<Out, NodeError> {
    Ok(Out {
        address: uri(alloc, b"http://localhost:18474/acks")?,
        bytes,
    })
}

// A packet that SOAP 1.1 can't say, and one of a byte too many.
fn untold(alloc: Global) -> Result<Outs, NodeError> {
    let mut outs = Outs::new(alloc);
    outs.push(packet(alloc, envelope(alloc, START12, ENCODING)?)?)?;
    outs.push(packet(alloc, spaces(alloc, 2097153)?)?)?;
    Ok(outs)
}

// What comes of packets at a new node on a disk.
fn posted_on<D: ReadDisk + Drop>(
    alloc: Global,
    mut disk: D,
    outs: Outs,
) -> Result<(Came, Watched), NodeError> {
    let mut node = made(alloc, &mut disk)?;
    post(alloc, &mut node, &mut disk, START, outs)
}

// What comes of them on a disk in memory.
fn missed(alloc: Global) -> Result<Came, NodeError> {
    let outs = untold(alloc)?;
    let (came, _link) = posted_on(alloc, MemDisk::new(alloc), outs)?;
    Ok(came)
}

#[test]
fn what_cannot_be_told_is_missed_and_not_dialled(rt: HostRuntime) {
    assert!(rt; missed(rt.alloc()) == Ok((posted(0, 2), 1, 0)));
}
