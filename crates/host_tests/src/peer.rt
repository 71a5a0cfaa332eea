//! A node, and what a peer that speaks SOAP 1.1 sends it.
ghost use Rattle.std.specs.Prelude.{IfOk};
ghost use Rattle.rm_serve.specs.Steps.{IsReady, place_of};

use rm_base::{Blob, MemConn, Memory, Numbers, Uri, push_decimal};
use rm_disk::{Disk, ReadDisk};
use rm_node::{Node, NodeError};
use rm_serve::{Served, serve_one11};
use std::alloc::Global;

/// The start tag of an envelope of SOAP 1.1 in the form that is written.
pub(crate) const START: &[u8] =
    b"<s:Envelope xmlns:s=\"http://schemas.xmlsoap.org/soap/envelope/\" \
    xmlns:a=\"http://www.w3.org/2005/08/addressing\" xmlns:r=\"http://docs.oasis-open.org/ws-rx/wsrm/200702\" \
    xmlns:c=\"http://docs.oasis-open.org/ws-rx/wsmc/200702\">";

/// A CreateSequence whose acknowledgements come back on the connection, without the start and the end of its envelope.
pub(crate) const CREATE: &[u8] = b"<s:Header><a:To>http://localhost:18473/</a:To>\
    <a:Action>http://docs.oasis-open.org/ws-rx/wsrm/200702/CreateSequence</a:Action>\
    <a:MessageID>urn:x:1</a:MessageID></s:Header><s:Body><r:CreateSequence><r:AcksTo>\
    <a:Address>http://www.w3.org/2005/08/addressing/anonymous</a:Address></r:AcksTo></r:CreateSequence></s:Body>";

/// One whose acknowledgements go to another address.
pub(crate) const CREATE_ELSEWHERE: &[u8] = b"<s:Header><a:To>http://localhost:18473/</a:To>\
    <a:Action>http://docs.oasis-open.org/ws-rx/wsrm/200702/CreateSequence</a:Action>\
    <a:MessageID>urn:x:1</a:MessageID></s:Header><s:Body><r:CreateSequence><r:AcksTo>\
    <a:Address>http://localhost:18474/acks</a:Address></r:AcksTo></r:CreateSequence></s:Body>";

/// Message 1 of the sequence that is granted.
pub(crate) const FIRST: &[u8] =
    b"<s:Header><a:To>http://localhost:18473/</a:To><a:Action>urn:x</a:Action>\
    <r:Sequence s:mustUnderstand=\"1\"><r:Identifier>urn:uuid:00000000-0000-8001-8000-000000000001</r:Identifier>\
    <r:MessageNumber>1</r:MessageNumber></r:Sequence></s:Header><s:Body><p>1</p></s:Body>";

/// Message 2 of it.
pub(crate) const SECOND: &[u8] =
    b"<s:Header><a:To>http://localhost:18473/</a:To><a:Action>urn:x</a:Action>\
    <r:Sequence s:mustUnderstand=\"1\"><r:Identifier>urn:uuid:00000000-0000-8001-8000-000000000001</r:Identifier>\
    <r:MessageNumber>2</r:MessageNumber></r:Sequence></s:Header><s:Body><p>2</p></s:Body>";

/// The envelope with this start tag and this in it.
pub(crate) fn envelope(alloc: Global, start: &[u8], content: &[u8]) -> Result<Blob, Memory> {
    let mut text = Blob::from_slice(alloc, start)?;
    text.push_all(content)?;
    text.push_all(b"</s:Envelope>")?;
    Ok(text)
}

/// A head that ends with the length of the body and the end of the connection, and the body.
pub(crate) fn with_head(alloc: Global, head: &[u8], body: &[u8]) -> Result<Blob, Memory> {
    let mut text = Blob::from_slice(alloc, head)?;
    text.push_all(b"Content-Length: ")?;
    push_decimal(&mut text, body.len() as u64)?;
    text.push_all(b"\r\nConnection: close\r\n\r\n")?;
    text.push_all(body)?;
    Ok(text)
}

/// The same of an envelope of SOAP 1.1 with this in it.
pub(crate) fn with_envelope(alloc: Global, head: &[u8], content: &[u8]) -> Result<Blob, Memory> {
    let body = envelope(alloc, START, content)?;
    with_head(alloc, head, body.as_slice())
}

/// A connection on which these bytes come.
pub(crate) fn conn(alloc: Global, text: Blob) -> MemConn {
    MemConn::new(alloc, text, Numbers::new(alloc))
}

/// A request with this body.
pub(crate) fn request(alloc: Global, body: &[u8]) -> Result<MemConn, Memory> {
    let text = with_head(
        alloc,
        b"POST / HTTP/1.1\r\nHost: localhost:18473\r\nContent-Type: text/xml; charset=utf-8\r\nSOAPAction: \"\"\r\n",
        body,
    )?;
    Ok(conn(alloc, text))
}

// An address.
pub(crate) fn uri(alloc: Global, bytes: &[u8]) -> Result<Uri, NodeError> {
    match Uri::from_slice(alloc, bytes) {
        Ok(address) => Ok(address),
        Err(_) => Err(NodeError::Memory),
    }
}

/// Node 1, made on a disk.
pub(crate) fn made<D: ReadDisk>(alloc: Global, disk: &mut D) -> Result<Node, NodeError>
    ensures ready { IfOk result (λ node. IsReady D.tells (place_of (D.told disk.new) node)) }
{
    let address = uri(alloc, b"http://localhost:18473/")?;
    let node = Node::make(alloc, disk, 1, address)?;
    Ok(node)
}

/// A request with this body comes to the node: what comes of that, and the connection.
pub(crate) fn serve<D: Disk>(
    alloc: Global,
    node: &mut Node,
    disk: &mut D,
    body: &[u8],
) -> Result<(Served, MemConn), NodeError>
    requires ready { IsReady D.tells (place_of (D.told disk.old) node.old) }
    ensures ready { IsReady D.tells (place_of (D.told disk.new) node.new) }
{
    let mut conn = request(alloc, body)?;
    let served = serve_one11(alloc, node, disk, &mut conn, 0)?;
    Ok((served, conn))
}

/// The same of an envelope of SOAP 1.1 with this in it.
pub(crate) fn serve_envelope<D: Disk>(
    alloc: Global,
    node: &mut Node,
    disk: &mut D,
    content: &[u8],
) -> Result<(Served, MemConn), NodeError>
    requires ready { IsReady D.tells (place_of (D.told disk.old) node.old) }
    ensures ready { IsReady D.tells (place_of (D.told disk.new) node.new) }
{
    let body = envelope(alloc, START, content)?;
    serve(alloc, node, disk, body.as_slice())
}
