//! What is written, and where it goes.
use http_endpoint::{
    HttpError, Media, Target, read_target, write_request, write_request_as, write_response,
    write_response_as,
};
use rm_base::{Blob, MemSink, Memory, Numbers, Uri};
use std::alloc::Global;

const REFUSAL: &[u8] =
    b"HTTP/1.1 405 Method Not Allowed\r\nAllow: POST\r\nContent-Length: 0\r\nConnection: close\r\n\r\n";

const ANSWER: &[u8] = b"HTTP/1.1 200 OK\r\nContent-Type: application/soap+xml; charset=utf-8\r\n\
Content-Length: 4\r\nConnection: close\r\n\r\n<a/>";

const ANSWER11: &[u8] =
    b"HTTP/1.1 500 Internal Server Error\r\nContent-Type: text/xml; charset=utf-8\r\n\
Content-Length: 4\r\nConnection: close\r\n\r\n<a/>";

fn is_refusal_written(alloc: Global) -> Result<bool, HttpError> {
    let mut out = MemSink::new(alloc, Numbers::new(alloc));
    write_response(alloc, &mut out, 405, b"")?;
    Ok(out.as_slice() == REFUSAL)
}

fn is_answer_written(alloc: Global) -> Result<bool, HttpError> {
    let mut out = MemSink::new(alloc, Numbers::new(alloc));
    write_response(alloc, &mut out, 200, b"<a/>")?;
    Ok(out.as_slice() == ANSWER)
}

// In SOAP 1.1.
fn is_fault_written(alloc: Global) -> Result<bool, HttpError> {
    let mut out = MemSink::new(alloc, Numbers::new(alloc));
    write_response_as(alloc, &mut out, 500, b"<a/>", Media::Soap11)?;
    Ok(out.as_slice() == ANSWER11)
}

#[test]
fn responses_are_written(rt: HostRuntime) {
    assert!(rt; is_refusal_written(rt.alloc()) == Ok(true));
    assert!(rt; is_answer_written(rt.alloc()) == Ok(true));
    assert!(rt; is_fault_written(rt.alloc()) == Ok(true));
}

const REQUEST: &[u8] = b"POST /rm?a=b HTTP/1.1\r\nHost: node2.example:8080\r\n\
Content-Type: application/soap+xml; charset=utf-8\r\nContent-Length: 4\r\nConnection: close\r\n\r\n<a/>";

const REQUEST11: &[u8] = b"POST /rm?a=b HTTP/1.1\r\nHost: node2.example:8080\r\n\
Content-Type: text/xml; charset=utf-8\r\nSOAPAction: \"\"\r\nContent-Length: 4\r\nConnection: close\r\n\r\n<a/>";

fn target(alloc: Global) -> Result<Target, Memory> {
    Ok(Target {
        host: Blob::from_slice(alloc, b"node2.example")?,
        port: 8080,
        path: Blob::from_slice(alloc, b"/rm?a=b")?,
    })
}

// Whether a request is written so to a sink whose calls of these numbers fail.
fn is_request_written(
    alloc: Global,
    fail_at: &[u64],
    answer: Result<(), HttpError>,
    text: &[u8],
) -> Result<bool, Memory> {
    let target = target(alloc)?;
    let mut numbers = Numbers::new(alloc);
    for number in fail_at {
        numbers.push(*number)?;
    }
    let mut out = MemSink::new(alloc, numbers);
    let written = write_request(alloc, &mut out, &target, b"<a/>");
    Ok((written == answer) & (out.as_slice() == text))
}

fn is_request11_written(alloc: Global) -> Result<bool, HttpError> {
    let target = target(alloc)?;
    let mut out = MemSink::new(alloc, Numbers::new(alloc));
    write_request_as(alloc, &mut out, &target, b"<a/>", Media::Soap11)?;
    Ok(out.as_slice() == REQUEST11)
}

#[test]
fn requests_are_written(rt: HostRuntime) {
    let failed = Err(HttpError::WriteFault);
    let head = REQUEST.split_at(REQUEST.len().saturating_sub(4)).0;
    assert!(rt; is_request_written(rt.alloc(), &[], Ok(()), REQUEST) == Ok(true));
    assert!(rt; is_request_written(rt.alloc(), &[1], failed, b"") == Ok(true));
    assert!(rt; is_request_written(rt.alloc(), &[2], failed, head) == Ok(true));
    assert!(rt; is_request11_written(rt.alloc()) == Ok(true));
}

const TARGETS: [(&str, Option<(&str, u16, &str)>); 11] = [
    ("http://h/", Some(("h", 80, "/"))),
    ("http://node2.example", Some(("node2.example", 80, "/"))),
    (
        "HTTP://Node2.Example:8080/a b?c=d#e",
        Some(("node2.example", 8080, "/a%20b?c=d")),
    ),
    (
        "http://u:p@127.0.0.1:80/x/../y",
        Some(("127.0.0.1", 80, "/y")),
    ),
    ("http://[::1]:65535/?", Some(("[::1]", 65535, "/?"))),
    ("https://h/", None),
    ("ftp://h/", None),
    ("http://", None),
    ("http://h:65536/", None),
    ("urn:uuid:1", None),
    ("/rm", None),
];

fn is_target(target: &Target, host: &str, port: u16, path: &str) -> bool {
    let is_host = target.host.as_slice() == host.as_bytes();
    let is_path = target.path.as_slice() == path.as_bytes();
    is_host & is_path & (target.port == port)
}

// Whether this is a target with such a host, port and path, or there is none where none is wanted.
fn is_found(found: &Option<Target>, wanted: &Option<(&str, u16, &str)>) -> bool {
    match wanted {
        Some((host, port, path)) => match found {
            Some(target) => is_target(target, host, *port, path),
            None => false,
        },
        None => found.is_none(),
    }
}

// Whether an address is read so.
fn is_read(alloc: Global, address: &Uri, wanted: &Option<(&str, u16, &str)>) -> bool {
    match read_target(alloc, address) {
        Ok(found) => is_found(&found, wanted),
        Err(_) => false,
    }
}

// Whether an address has this host, port and path, or is no target.
fn has_target(alloc: Global, text: &str, wanted: &Option<(&str, u16, &str)>) -> bool {
    match Uri::from_slice(alloc, text.as_bytes()) {
        Ok(address) => is_read(alloc, &address, wanted),
        Err(_) => false,
    }
}

#[test]
fn targets(rt: HostRuntime) {
    for (text, wanted) in &TARGETS {
        assert!(rt; has_target(rt.alloc(), text, wanted), "{text}");
    }
}
