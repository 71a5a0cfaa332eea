//! What a request is answered that is cut or refused before there is a body: RFC 9112, sections 2, 6 and 7.
use crate::peer::{conn, made, with_head};
use http_endpoint::HttpError;
use rm_base::{Blob, MemConn, Memory};
use rm_disk::{MemDisk, ReadDisk};
use rm_node::NodeError;
use rm_serve::{ConnEnd, Served, serve_one, serve_one11};
use std::alloc::Global;

// What comes of these bytes at a new node on a disk, and the connection.
fn served_on<D: ReadDisk + Drop>(
    alloc: Global,
    mut disk: D,
    text: Blob,
) -> Result<(Served, MemConn), NodeError> {
    let mut node = made(alloc, &mut disk)?;
    let mut conn = conn(alloc, text);
    let served = serve_one(alloc, &mut node, &mut disk, &mut conn, 0)?;
    Ok((served, conn))
}

// The same where the peer speaks SOAP 1.1.
fn served11_on<D: ReadDisk + Drop>(
    alloc: Global,
    mut disk: D,
    text: Blob,
) -> Result<(Served, MemConn), NodeError> {
    let mut node = made(alloc, &mut disk)?;
    let mut conn = conn(alloc, text);
    let served = serve_one11(alloc, &mut node, &mut disk, &mut conn, 0)?;
    Ok((served, conn))
}

// The same on a disk in memory.
fn served(alloc: Global, text: Blob) -> Result<(Served, MemConn), NodeError> {
    served_on(alloc, MemDisk::new(alloc), text)
}

fn served11(alloc: Global, text: Blob) -> Result<(Served, MemConn), NodeError> {
    served11_on(alloc, MemDisk::new(alloc), text)
}

// Whether the connection was given up for this error, and this was written on it before.
fn is_refused(served: &Served, conn: &MemConn, error: HttpError, answer: &[u8]) -> bool {
    served.finish == ConnEnd::Dropped(error) && served.taken.is_none() && conn.written() == answer
}

fn comes_out(
    alloc: Global,
    text: Blob,
    error: HttpError,
    answer: &[u8],
) -> Result<bool, NodeError> {
    let (served, conn) = served(alloc, text)?;
    Ok(is_refused(&served, &conn, error, answer))
}

fn comes_out11(
    alloc: Global,
    text: Blob,
    error: HttpError,
    answer: &[u8],
) -> Result<bool, NodeError> {
    let (served, conn) = served11(alloc, text)?;
    Ok(is_refused(&served, &conn, error, answer))
}

const CHUNKED: &[u8] =
    b"POST /a HTTP/1.1\r\nHost: h\r\nContent-Type: application/soap+xml\r\nTransfer-Encoding: chunked\r\n\r\n\
    3\r\nabc\r\nA;x=y\r\n0123456789\r\n0\r\nA: b\r\n\r\n";

// The first bytes of it.
fn front(alloc: Global, len: usize) -> Result<Blob, Memory> {
    let (begun, _rest) = CHUNKED.split_at(len.min(CHUNKED.len()));
    Blob::from_slice(alloc, begun)
}

// Whether these are cut short.
fn front_comes_out(alloc: Global, len: usize) -> Result<bool, NodeError> {
    let text = front(alloc, len)?;
    comes_out(alloc, text, HttpError::CutShort, b"")
}

#[test]
fn each_front_is_cut_short(rt: HostRuntime) {
    for len in 0..CHUNKED.len() {
        assert!(rt; front_comes_out(rt.alloc(), len) == Ok(true), "{len}");
    }
}

const BAD: &[u8] = b"HTTP/1.1 400 Bad Request\r\nContent-Length: 0\r\nConnection: close\r\n\r\n";

const BOTH: &[u8] =
    b"POST / HTTP/1.1\r\nHost: h\r\nContent-Type: application/soap+xml\r\nContent-Length: 5\r\n\
    Transfer-Encoding: chunked\r\n\r\n0\r\n\r\n";

// So many bytes behind others.
fn padded(alloc: Global, text: &[u8], count: u32, last: &[u8]) -> Result<Blob, Memory> {
    let mut all = Blob::from_slice(alloc, text)?;
    for _ in 0..count {
        all.push_all(b"x")?;
    }
    all.push_all(last)?;
    Ok(all)
}

// A head of 16385 bytes: those around the value are 69.
fn long_head(alloc: Global) -> Result<Blob, Memory> {
    padded(
        alloc,
        b"POST / HTTP/1.1\r\nHost: h\r\nContent-Type: application/soap+xml\r\nX: ",
        16316,
        b"\r\n\r\n",
    )
}

// How long it is, and whether it is refused.
fn long_head_comes_out(alloc: Global) -> Result<(usize, bool), NodeError> {
    let text = long_head(alloc)?;
    let len = text.len();
    Ok((len, comes_out(alloc, text, HttpError::BadHead, BAD)?))
}

// Whether a body that is counted and in chunks is.
fn both_come_out(alloc: Global) -> Result<bool, NodeError> {
    let text = Blob::from_slice(alloc, BOTH)?;
    comes_out(alloc, text, HttpError::BadHead, BAD)
}

#[test]
fn bad_heads(rt: HostRuntime) {
    assert!(rt; long_head_comes_out(rt.alloc()) == Ok((16385, true)));
    assert!(rt; both_come_out(rt.alloc()) == Ok(true));
}

const GET: &[u8] =
    b"HTTP/1.1 405 Method Not Allowed\r\nAllow: POST\r\nContent-Length: 0\r\nConnection: close\r\n\r\n";

// Whether the node took nothing, and this was written on the connection.
fn is_kept_out(alloc: Global, text: Blob, answer: &[u8]) -> Result<bool, NodeError> {
    let (served, conn) = served(alloc, text)?;
    Ok(served.taken.is_none() && conn.written() == answer)
}

fn get_comes_out(alloc: Global) -> Result<bool, NodeError> {
    let text = Blob::from_slice(alloc, b"GET / HTTP/1.1\r\nHost: h\r\n\r\n")?;
    is_kept_out(alloc, text, GET)
}

#[test]
fn another_method(rt: HostRuntime) {
    assert!(rt; get_comes_out(rt.alloc()) == Ok(true));
}

const TOO_LONG: &[u8] = b"<s:Envelope xmlns:s=\"http://www.w3.org/2003/05/soap-envelope\" \
    xmlns:a=\"http://www.w3.org/2005/08/addressing\" xmlns:r=\"http://docs.oasis-open.org/ws-rx/wsrm/200702\" \
    xmlns:c=\"http://docs.oasis-open.org/ws-rx/wsmc/200702\"><s:Header>\
    <a:To>http://www.w3.org/2005/08/addressing/anonymous</a:To>\
    <a:Action>http://www.w3.org/2005/08/addressing/soap/fault</a:Action></s:Header><s:Body><s:Fault><s:Code>\
    <s:Value>s:Sender</s:Value></s:Code><s:Reason><s:Text xml:lang=\"en\">TooLong</s:Text></s:Reason></s:Fault>\
    </s:Body></s:Envelope>";

const TOO_LONG11: &[u8] = b"<s:Envelope xmlns:s=\"http://schemas.xmlsoap.org/soap/envelope/\" \
    xmlns:a=\"http://www.w3.org/2005/08/addressing\" xmlns:r=\"http://docs.oasis-open.org/ws-rx/wsrm/200702\" \
    xmlns:c=\"http://docs.oasis-open.org/ws-rx/wsmc/200702\"><s:Header>\
    <a:To>http://www.w3.org/2005/08/addressing/anonymous</a:To>\
    <a:Action>http://www.w3.org/2005/08/addressing/soap/fault</a:Action></s:Header><s:Body><s:Fault>\
    <faultcode>s:Client</faultcode><faultstring>TooLong</faultstring></s:Fault></s:Body></s:Envelope>";

// A body of 2097153 bytes is a byte too long, in either version.
const LONG: HttpError = HttpError::TooLong { taken: 2097153 };

fn long_body(alloc: Global) -> Result<Blob, Memory> {
    padded(
        alloc,
        b"POST / HTTP/1.1\r\nHost: h\r\nContent-Type: application/soap+xml\r\nContent-Length: 2097153\r\n\r\n",
        2097153,
        b"",
    )
}

fn long_body11(alloc: Global) -> Result<Blob, Memory> {
    padded(
        alloc,
        b"POST / HTTP/1.1\r\nHost: h\r\nContent-Type: text/xml\r\nContent-Length: 2097153\r\n\r\n",
        2097153,
        b"",
    )
}

// Whether it is answered so.
fn long_comes_out(alloc: Global) -> Result<bool, NodeError> {
    let head = b"HTTP/1.1 400 Bad Request\r\nContent-Type: application/soap+xml; charset=utf-8\r\n";
    let answer = with_head(alloc, head, TOO_LONG)?;
    comes_out(alloc, long_body(alloc)?, LONG, answer.as_slice())
}

fn long11_comes_out(alloc: Global) -> Result<bool, NodeError> {
    let head = b"HTTP/1.1 500 Internal Server Error\r\nContent-Type: text/xml; charset=utf-8\r\n";
    let answer = with_head(alloc, head, TOO_LONG11)?;
    comes_out11(alloc, long_body11(alloc)?, LONG, answer.as_slice())
}

#[test]
fn long_bodies(rt: HostRuntime) {
    assert!(rt; long_comes_out(rt.alloc()) == Ok(true));
}

#[test]
fn long_bodies_of_soap_1_1(rt: HostRuntime) {
    assert!(rt; long11_comes_out(rt.alloc()) == Ok(true));
}
