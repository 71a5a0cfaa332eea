//! What a request of SOAP 1.1 is answered.
ghost use Rattle.rm_serve.specs.Steps.{IsReady, place_of};

use crate::peer::{
    CREATE, CREATE_ELSEWHERE, FIRST, START, envelope, made, serve, serve_envelope, with_envelope,
    with_head,
};
use rm_base::{Blob, MemConn, Memory};
use rm_disk::{Disk, MemDisk, ReadDisk};
use rm_node::{Node, NodeError};
use rm_serve::{ConnEnd, Served};
use std::alloc::Global;

const OK: &[u8] = b"HTTP/1.1 200 OK\r\nContent-Type: text/xml; charset=utf-8\r\n";

const ERROR: &[u8] =
    b"HTTP/1.1 500 Internal Server Error\r\nContent-Type: text/xml; charset=utf-8\r\n";

const GRANTED: &[u8] = b"<s:Header><a:To>http://www.w3.org/2005/08/addressing/anonymous</a:To>\
    <a:Action>http://docs.oasis-open.org/ws-rx/wsrm/200702/CreateSequenceResponse</a:Action>\
    <a:RelatesTo>urn:x:1</a:RelatesTo></s:Header><s:Body><r:CreateSequenceResponse>\
    <r:Identifier>urn:uuid:00000000-0000-8001-8000-000000000001</r:Identifier>\
    <r:IncompleteSequenceBehavior>DiscardFollowingFirstGap</r:IncompleteSequenceBehavior>\
    </r:CreateSequenceResponse></s:Body>";

const ACKNOWLEDGED: &[u8] = b"<s:Header><a:To>http://www.w3.org/2005/08/addressing/anonymous</a:To>\
    <a:Action>http://docs.oasis-open.org/ws-rx/wsrm/200702/SequenceAcknowledgement</a:Action>\
    <r:SequenceAcknowledgement><r:Identifier>urn:uuid:00000000-0000-8001-8000-000000000001</r:Identifier>\
    <r:AcknowledgementRange Lower=\"1\" Upper=\"1\"/></r:SequenceAcknowledgement></s:Header><s:Body></s:Body>";

const UNKNOWN: &[u8] = b"<s:Header><a:To>http://www.w3.org/2005/08/addressing/anonymous</a:To>\
    <a:Action>http://docs.oasis-open.org/ws-rx/wsrm/200702/fault</a:Action><r:SequenceFault>\
    <r:FaultCode>r:UnknownSequence</r:FaultCode><r:Detail>\
    <n:Identifier xmlns:n=\"http://docs.oasis-open.org/ws-rx/wsrm/200702\">\
    urn:uuid:00000000-0000-8001-8000-000000000001</n:Identifier></r:Detail></r:SequenceFault></s:Header><s:Body>\
    <s:Fault><faultcode>s:Client</faultcode><faultstring>UnknownSequence</faultstring></s:Fault></s:Body>";

const MISMATCH: &[u8] = b"<s:Header><a:To>http://www.w3.org/2005/08/addressing/anonymous</a:To>\
    <a:Action>http://www.w3.org/2005/08/addressing/soap/fault</a:Action></s:Header><s:Body><s:Fault>\
    <faultcode>s:VersionMismatch</faultcode><faultstring>WrongVersion</faultstring></s:Fault></s:Body>";

const NO_DOCUMENT: &[u8] = b"<s:Header><a:To>http://www.w3.org/2005/08/addressing/anonymous</a:To>\
    <a:Action>http://www.w3.org/2005/08/addressing/soap/fault</a:Action></s:Header><s:Body><s:Fault>\
    <faultcode>s:Client</faultcode><faultstring>NotProfile</faultstring></s:Fault></s:Body>";

// The start tag of an envelope of SOAP 1.2.
const START12: &[u8] = b"<s:Envelope xmlns:s=\"http://www.w3.org/2003/05/soap-envelope\" \
    xmlns:a=\"http://www.w3.org/2005/08/addressing\" xmlns:r=\"http://docs.oasis-open.org/ws-rx/wsrm/200702\">";

// Whether this was written on a connection, whole, and nothing else leaves the node.
fn is_whole(served: &Served, conn: &MemConn, answer: &[u8]) -> bool {
    conn.written() == answer && served.finish == ConnEnd::Done && served.outs.is_empty()
}

// Whether a request with this body is answered by a head and an envelope with this in it, and how many entries there
// are then.
fn is_answered<D: Disk>(
    alloc: Global,
    node: &mut Node,
    disk: &mut D,
    body: Blob,
    head: &[u8],
    content: &[u8],
) -> Result<(bool, u64), NodeError>
    requires ready { IsReady D.tells (place_of (D.told disk.old) node.old) }
    ensures ready { IsReady D.tells (place_of (D.told disk.new) node.new) }
{
    let answer = with_envelope(alloc, head, content)?;
    let (served, conn) = serve(alloc, node, disk, body.as_slice())?;
    let is_so = is_whole(&served, &conn, answer.as_slice());
    Ok((is_so, node.entries()))
}

// An envelope of SOAP 1.1.
fn eleven(alloc: Global, content: &[u8]) -> Result<Blob, Memory> {
    envelope(alloc, START, content)
}

// A sequence is asked for, and its first message comes.
fn granted<D: ReadDisk + Drop>(
    alloc: Global,
    mut disk: D,
) -> Result<((bool, u64), (bool, u64)), NodeError> {
    let mut node = made(alloc, &mut disk)?;
    let body = eleven(alloc, CREATE)?;
    let asked = is_answered(alloc, &mut node, &mut disk, body, OK, GRANTED)?;
    let body = eleven(alloc, FIRST)?;
    let came = is_answered(alloc, &mut node, &mut disk, body, OK, ACKNOWLEDGED)?;
    Ok((asked, came))
}

#[test]
fn a_sequence_is_granted_and_a_message_acknowledged(rt: HostRuntime) {
    let known = ((true, 2), (true, 3));
    assert!(rt; granted(rt.alloc(), MemDisk::new(rt.alloc())) == Ok(known));
}

// The same of a request at a new node.
fn first_on<D: ReadDisk + Drop>(
    alloc: Global,
    mut disk: D,
    body: Blob,
    head: &[u8],
    content: &[u8],
) -> Result<(bool, u64), NodeError> {
    let mut node = made(alloc, &mut disk)?;
    is_answered(alloc, &mut node, &mut disk, body, head, content)
}

fn at_first(
    alloc: Global,
    body: Blob,
    head: &[u8],
    content: &[u8],
) -> Result<(bool, u64), NodeError> {
    first_on(alloc, MemDisk::new(alloc), body, head, content)
}

// A message of a sequence that there is not.
fn unknown(alloc: Global) -> Result<(bool, u64), NodeError> {
    let body = eleven(alloc, FIRST)?;
    at_first(alloc, body, ERROR, UNKNOWN)
}

#[test]
fn what_a_node_refuses_is_an_error_of_the_server(rt: HostRuntime) {
    assert!(rt; unknown(rt.alloc()) == Ok((true, 1)));
}

// An envelope of SOAP 1.2.
fn mismatched(alloc: Global) -> Result<(bool, u64), NodeError> {
    let body = envelope(alloc, START12, CREATE)?;
    at_first(alloc, body, ERROR, MISMATCH)
}

// Bytes that are no document.
fn begun(alloc: Global) -> Result<(bool, u64), NodeError> {
    let body = Blob::from_slice(alloc, b"<a")?;
    at_first(alloc, body, ERROR, NO_DOCUMENT)
}

#[test]
fn what_is_no_message_of_soap_1_1_is_kept_out(rt: HostRuntime) {
    assert!(rt; mismatched(rt.alloc()) == Ok((true, 1)));
    assert!(rt; begun(rt.alloc()) == Ok((true, 1)));
}

// A sequence is asked for whose acknowledgements go elsewhere: whether it is granted, and the connection on which its
// first message comes then.
fn elsewhere<D: ReadDisk + Drop>(alloc: Global, mut disk: D) -> Result<(bool, MemConn), NodeError> {
    let mut node = made(alloc, &mut disk)?;
    let body = eleven(alloc, CREATE_ELSEWHERE)?;
    let (is_granted, _) = is_answered(alloc, &mut node, &mut disk, body, OK, GRANTED)?;
    let (_, conn) = serve_envelope(alloc, &mut node, &mut disk, FIRST)?;
    Ok((is_granted, conn))
}

// Whether it is granted, and nothing is said to the message but that it came.
fn accepted(alloc: Global) -> Result<(bool, bool), NodeError> {
    let (is_granted, conn) = elsewhere(alloc, MemDisk::new(alloc))?;
    let answer = with_head(alloc, b"HTTP/1.1 202 Accepted\r\n", b"")?;
    Ok((is_granted, conn.written() == answer.as_slice()))
}

#[test]
fn nothing_to_say_is_accepted(rt: HostRuntime) {
    assert!(rt; accepted(rt.alloc()) == Ok((true, true)));
}
