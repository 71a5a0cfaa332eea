//! Responses as peers write them.
use crate::peer::{answer, repeated};
use http_endpoint::HttpError;
use rm_base::{Blob, Memory};
use std::alloc::Global;

// A response, and its status and body.
type Case = (&'static [u8], Result<(u16, &'static [u8]), HttpError>);

// Whether a response that comes so many bytes at a time is read so.
fn is_read(
    alloc: Global,
    text: &[u8],
    step: usize,
    wanted: Result<(u16, &[u8]), HttpError>,
) -> bool {
    match answer(alloc, text, step, false) {
        Ok((status, body)) => wanted == Ok((status, body.as_slice())),
        Err(error) => wanted == Err(error),
    }
}

// Whether a response, cut in several ways, is read so.
fn comes_out(alloc: Global, case: &Case) -> bool {
    let mut is_so = true;
    for step in [1, 2, 3, 7, 4096] {
        is_so &= is_read(alloc, case.0, step, case.1);
    }
    is_so
}

const BODIES: [Case; 8] = [
    (
        b"HTTP/1.1 200 OK\r\nContent-Length: 3\r\n\r\nabcd",
        Ok((200, b"abc")),
    ),
    (b"HTTP/1.1 202\r\ncontent-length: 0\r\n\r\n", Ok((202, b""))),
    (b"HTTP/1.0 500 x\ty\n\nabc", Ok((500, b"abc"))),
    (b"HTTP/1.1 204 No Content\r\n\r\n", Ok((204, b""))),
    (b"HTTP/1.1 000 \r\n\r\n", Ok((0, b""))),
    (
        b"HTTP/1.1 200 OK\r\nTransfer-Encoding: chunked\r\n\r\n3\r\nabc\r\n0\r\n\r\n",
        Ok((200, b"abc")),
    ),
    (
        b"HTTP/1.1 200 OK\r\nTransfer-Encoding: gzip, chunked\r\n\r\n1\r\na\r\n0\r\n\r\n",
        Ok((200, b"a")),
    ),
    (
        b"HTTP/1.1 200 OK\r\nTransfer-Encoding: gzip\r\n\r\nabc",
        Ok((200, b"abc")),
    ),
];

#[test]
fn bodies(rt: HostRuntime) {
    for case in &BODIES {
        assert!(rt; comes_out(rt.alloc(), case));
    }
}

const ERRORS: [Case; 6] = [
    (
        b"HTTP/1.1 200 OK\r\nTransfer-Encoding: chunked\r\n\r\n3\r\nab",
        Err(HttpError::CutShort),
    ),
    (
        b"HTTP/1.1 200 OK\r\nContent-Length: 3\r\n\r\nab",
        Err(HttpError::CutShort),
    ),
    (
        b"HTTP/1.1 200 OK\r\nContent-Length: 3",
        Err(HttpError::CutShort),
    ),
    (
        b"HTTP/1.1 200 OK\r\nContent-Length: 3\r\nTransfer-Encoding: chunked\r\n\r\n",
        Err(HttpError::BadHead),
    ),
    (
        b"HTTP/1.1 200 OK\r\nContent-Length: a\r\n\r\n",
        Err(HttpError::BadHead),
    ),
    (b"HTTP/1.1 20 OK\r\n\r\n", Err(HttpError::BadHead)),
];

#[test]
fn errors(rt: HostRuntime) {
    for case in &ERRORS {
        assert!(rt; comes_out(rt.alloc(), case));
    }
}

const CONTINUED: [Case; 5] = [
    (
        b"HTTP/1.1 100 Continue\r\n\r\nHTTP/1.1 200 OK\r\nContent-Length: 1\r\n\r\na",
        Ok((200, b"a")),
    ),
    (
        b"HTTP/1.1 100 Continue\r\n\r\nHTTP/1.1 100 Continue\r\n\r\nabc",
        Ok((100, b"abc")),
    ),
    (b"HTTP/1.1 100 Continue\r\n\r\n", Err(HttpError::CutShort)),
    (
        b"HTTP/1.1 100 Continue\r\nContent-Length: a\r\n\r\nHTTP/1.1 200 OK\r\n\r\n",
        Err(HttpError::BadHead),
    ),
    (b"HTTP/1.1 103 Early Hints\r\n\r\nabc", Ok((103, b"abc"))),
];

#[test]
fn a_continue_is_passed_over_once(rt: HostRuntime) {
    for case in &CONTINUED {
        assert!(rt; comes_out(rt.alloc(), case));
    }
}

const COUNTED: &[u8] =
    b"HTTP/1.1 100 Continue\r\n\r\nHTTP/1.1 200 OK\r\nContent-Length: 1\r\n\r\na";

const TO_THE_END: &[u8] = b"HTTP/1.1 200 OK\r\n\r\nabc";

#[test]
fn no_read_behind_the_end(rt: HostRuntime) {
    for step in 1..50 {
        assert!(rt; answer(rt.alloc(), COUNTED, step, true).is_ok(), "{step}");
        let failed = answer(rt.alloc(), TO_THE_END, step, true).err();
        assert!(rt; failed == Some(HttpError::ReadFault), "{step}");
    }
}

// How many bytes a body of so many has, that is read to the end.
fn long_body(alloc: Global, len: usize) -> Result<usize, HttpError> {
    let text = long_response(alloc, len)?;
    Ok(answer(alloc, text.as_slice(), 4096, false)?.1.len())
}

fn long_response(alloc: Global, len: usize) -> Result<Blob, Memory> {
    let mut text = Blob::from_slice(alloc, b"HTTP/1.1 200 OK\r\n\r\n")?;
    text.push_all(repeated(alloc, b"x", len)?.as_slice())?;
    Ok(text)
}

#[test]
fn a_response_to_the_end_that_is_too_long(rt: HostRuntime) {
    assert!(rt; long_body(rt.alloc(), 2097152) == Ok(2097152));
    let too_long = HttpError::TooLong { taken: 2097153 };
    assert!(rt; long_body(rt.alloc(), 2097153) == Err(too_long));
}
