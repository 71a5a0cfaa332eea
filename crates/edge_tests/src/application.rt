//! What an application asks over HTTP: the line that the desk is told, and the answer that what it writes becomes. The
//! paths and the statuses are those of the service's page.

use http_endpoint::Media;
use rm_base::{Blob, Connection, Memory, Source, write_all};
use rm_edge::ask::{Refusal, Wish, ask_of};
use rm_edge::call::Call;
use rm_edge::status::status_of;
use rm_edge::{Edge, Listen, Peers, Tally};
use service_turns::{Event, Traffic};
use std::alloc::Global;
use std::fs;
use std::io::{Read, Write};
use std::net::{Ipv4Addr, SocketAddr};
use std::os::unix::net::UnixStream;
use std::test::Fail;
use std::time::Duration;

// Whether a request tells the desk this line.
fn tells(alloc: Global, method: &[u8], target: &[u8], line: &[u8]) -> bool {
    match ask_of(alloc, method, target) {
        Ok(Ok(ask)) => ask.line.as_slice() == line,
        _ => false,
    }
}

// Why a request isn't told.
fn refusal_of(alloc: Global, method: &[u8], target: &[u8]) -> Option<Refusal> {
    match ask_of(alloc, method, target) {
        Ok(Err(refusal)) => Some(refusal),
        _ => None,
    }
}

fn is_bad(alloc: Global, method: &[u8], target: &[u8]) -> bool {
    refusal_of(alloc, method, target) == Some(Refusal::BadQuery)
}

fn is_nowhere(alloc: Global, target: &[u8]) -> bool {
    refusal_of(alloc, b"GET", target) == Some(Refusal::NoPlace)
}

// What is told where the whole request is this; none where it is refused.
fn told(alloc: Global, request: &[u8]) -> Option<Blob> {
    let Ok(mut call) = Call::read(alloc, request) else {
        return None;
    };
    if call.refusal().is_some() {
        return None;
    }
    call.take_told(alloc).ok()
}

// The answer to a request where the desk writes this text.
fn answer(alloc: Global, request: &[u8], text: &[u8]) -> Vec<u8> {
    match reply(alloc, request, text) {
        Ok(text) => text,
        Err(_) => Vec::new(alloc),
    }
}

fn reply(alloc: Global, request: &[u8], text: &[u8]) -> Result<Vec<u8>, Memory> {
    let call = Call::read(alloc, request)?;
    Ok(call.answer(alloc, text, Tally::new())?.text)
}

// Whether an answer has this line first, this field, and this content.
fn is_answer(answer: &[u8], line: &[u8], field: &[u8], content: &[u8]) -> bool {
    answer.starts_with(line) && has(answer, field) && ends_so(answer, content)
}

fn ends_so(answer: &[u8], content: &[u8]) -> bool {
    match answer.strip_suffix(content) {
        Some(head) => head.ends_with(b"\r\n\r\n"),
        None => false,
    }
}

fn has(bytes: &[u8], part: &[u8]) -> bool {
    part.is_empty()
        || bytes
            .windows(part.len().max(1))
            .any(|window| window.eq_ignore_ascii_case(part))
}

#[test]
fn lines_of_requests(rt: HostRuntime) {
    let alloc = rt.alloc();
    assert!(rt; tells(alloc, b"POST", b"/send?to=http://h/a", b"send http://h/a\n"));
    assert!(rt;
        tells(
            alloc,
            b"POST",
            b"/send?to=http%3A%2F%2Fh%2Fa%2Bb",
            b"send http://h/a+b\n"
        )
    );
    assert!(rt;
        tells(
            alloc,
            b"POST",
            b"/send?seq=3&number=12&to=http://h/a",
            b"send http://h/a 3 12\n"
        )
    );
    assert!(rt;
        tells(
            alloc,
            b"POST",
            b"/send?to=http://h/a&seq=0&number=0",
            b"send http://h/a 0 0\n"
        )
    );
    assert!(rt; tells(alloc, b"GET", b"/inbox/2", b"inbox 2 1 100\n"));
    assert!(rt; tells(alloc, b"GET", b"/inbox/2?from=5&max=7", b"inbox 2 5 7\n"));
    assert!(rt; tells(alloc, b"GET", b"/inbox/2/9", b"item 2 9\n"));
    assert!(rt; tells(alloc, b"GET", b"/inbox/2/next?wait=10", b"next 2\n"));
    assert!(rt; tells(alloc, b"POST", b"/consume/2?upto=9", b"consume 2 9\n"));
    assert!(rt; tells(alloc, b"POST", b"/close/2", b"close 2\n"));
    assert!(rt; tells(alloc, b"POST", b"/end/2", b"end 2\n"));
    assert!(rt; tells(alloc, b"POST", b"/poll?to=http://h/a", b"poll http://h/a\n"));
}

#[test]
fn lines_of_one_word(rt: HostRuntime) {
    let alloc = rt.alloc();
    assert!(rt; tells(alloc, b"GET", b"/show", b"show\n"));
    assert!(rt; tells(alloc, b"GET", b"/metrics", b"metrics\n"));
    assert!(rt; tells(alloc, b"GET", b"/health", b"health\n"));
    assert!(rt; tells(alloc, b"POST", b"/stop", b"stop\n"));
}

// An address must be one word, and each of a query's names must be one of its path, once, with its number in digits.
#[test]
fn queries_that_are_refused(rt: HostRuntime) {
    let alloc = rt.alloc();
    assert!(rt; is_bad(alloc, b"POST", b"/send"));
    assert!(rt; is_bad(alloc, b"POST", b"/send?to="));
    assert!(rt; is_bad(alloc, b"POST", b"/send?to=http://h/a%20b"));
    assert!(rt; is_bad(alloc, b"POST", b"/send?to=http://h/a%0Astop"));
    assert!(rt; is_bad(alloc, b"POST", b"/send?to=http://h/a%7F"));
    assert!(rt; is_bad(alloc, b"POST", b"/send?to=http://h/a&number=1"));
    assert!(rt; is_bad(alloc, b"POST", b"/send?to=http://h/a&to=http://h/b"));
    assert!(rt; is_bad(alloc, b"POST", b"/send?to=http://h/a&seq=-1&number=1"));
    assert!(rt; is_bad(alloc, b"POST", b"/send?to=http://h/a&seq=%2B1&number=1"));
    assert!(rt; is_bad(alloc, b"POST", b"/consume/1"));
    assert!(rt; is_bad(alloc, b"GET", b"/inbox/1?upto=1"));
    assert!(rt; is_bad(alloc, b"GET", b"/inbox/1?from=18446744073709551616"));
}

#[test]
fn paths_and_methods_that_are_refused(rt: HostRuntime) {
    let alloc = rt.alloc();
    assert!(rt; is_nowhere(alloc, b"/"));
    assert!(rt; is_nowhere(alloc, b"/inbox"));
    assert!(rt; is_nowhere(alloc, b"/inbox/"));
    assert!(rt; is_nowhere(alloc, b"/inbox/+1"));
    assert!(rt; is_nowhere(alloc, b"/inbox/1/2/3"));
    assert!(rt; is_nowhere(alloc, b"/show/1"));
    assert!(rt; is_nowhere(alloc, b"*"));
    assert!(rt; refusal_of(alloc, b"GET", b"/stop") == Some(Refusal::Method { allowed: b"POST" }));
    assert!(rt; refusal_of(alloc, b"POST", b"/show") == Some(Refusal::Method { allowed: b"GET" }));
    assert!(rt; refusal_of(alloc, b"get", b"/show") == Some(Refusal::Method { allowed: b"GET" }));
}

#[test]
fn statuses_of_texts(rt: HostRuntime) {
    assert_eq!(rt; status_of(Wish::Done, b"accepted 1 1\n"), 200);
    assert_eq!(rt; status_of(Wish::Done, b"opening 1\n"), 503);
    assert_eq!(rt; status_of(Wish::Done, b"next 1 5\n"), 412);
    assert_eq!(rt; status_of(Wish::Done, b"refused NotOpen\n"), 409);
    assert_eq!(rt; status_of(Wish::Done, b"refused BadPayload\n"), 422);
    assert_eq!(rt; status_of(Wish::Done, b"refused WindowFull\n"), 429);
    assert_eq!(rt; status_of(Wish::Done, b"refused NodeFull\n"), 429);
    assert_eq!(rt; status_of(Wish::Done, b"refused StoreFull\n"), 507);
    assert_eq!(rt; status_of(Wish::Done, b"refused TooManySequences\n"), 507);
    assert_eq!(rt; status_of(Wish::Done, b"refused PastInbox\n"), 409);
    assert_eq!(rt; status_of(Wish::Text, b"refused UnknownSequence\n"), 404);
    assert_eq!(rt; status_of(Wish::Done, b"usage: wsrm\n"), 400);
    assert_eq!(rt; status_of(Wish::Done, b"stopping\n"), 200);
    assert_eq!(rt; status_of(Wish::Item, b"item 1 1\n<a/>"), 200);
    assert_eq!(rt; status_of(Wish::Item, b"none 1 1\n"), 204);
    assert_eq!(rt; status_of(Wish::Item, b"gone 1 1\n"), 410);
    assert_eq!(rt; status_of(Wish::Text, b"none 1 1\n"), 200);
    assert_eq!(rt; status_of(Wish::Text, b""), 500);
}

// The body of a send goes behind its line, told by its length or in chunks; the body of another request goes nowhere.
#[test]
fn bodies_that_are_told(rt: HostRuntime) {
    let alloc = rt.alloc();
    let counted = told(
        alloc,
        b"POST /send?to=a:b HTTP/1.1\r\nHost: x\r\nContent-Length: 4\r\n\r\n<a/>",
    );
    assert!(rt; counted.is_some_and(|told| told.as_slice() == b"send a:b\n<a/>".as_slice()));
    let chunked = told(
        alloc,
        b"POST /send?to=a:b HTTP/1.1\r\nHost: x\r\nTransfer-Encoding: chunked\r\n\r\n3\r\n<a/\r\n1\r\n>\r\n0\r\n\r\n",
    );
    assert!(rt; chunked.is_some_and(|told| told.as_slice() == b"send a:b\n<a/>".as_slice()));
    let other = told(
        alloc,
        b"POST /stop HTTP/1.1\r\nHost: x\r\nContent-Length: 4\r\n\r\n<a/>",
    );
    assert!(rt; other.is_some_and(|told| told.as_slice() == b"stop\n".as_slice()));
}

// What the desk isn't told: no host, a page in a browser, a body that is too long, and a head that is none.
#[test]
fn requests_that_are_refused(rt: HostRuntime) {
    let alloc = rt.alloc();
    let hostless = answer(alloc, b"GET /show HTTP/1.1\r\n\r\n", b"");
    assert!(rt; hostless.starts_with(b"HTTP/1.1 400 Bad Request\r\n"));
    let page = answer(
        alloc,
        b"GET /show HTTP/1.1\r\nHost: x\r\norigin: null\r\n\r\n",
        b"",
    );
    assert!(rt; page.starts_with(b"HTTP/1.1 403 Forbidden\r\n"));
    assert!(rt; !has(page.as_slice(), b"access-control"));
    let long = answer(
        alloc,
        b"POST /send?to=a:b HTTP/1.1\r\nHost: x\r\nContent-Length: 1048577\r\n\r\n",
        b"",
    );
    assert!(rt;
        is_answer(
            long.as_slice(),
            b"HTTP/1.1 413 ",
            b"connection: close\r\n",
            b"too long\n"
        )
    );
    let none = answer(alloc, b"GET /show HTTP/1.1\r\nHost x\r\n\r\n", b"");
    assert!(rt; none.starts_with(b"HTTP/1.1 400 Bad Request\r\n"));
    let both = answer(
        alloc,
        b"POST /stop HTTP/1.1\r\nHost: x\r\nContent-Length: 0\r\nTransfer-Encoding: chunked\r\n\r\n0\r\n\r\n",
        b"",
    );
    assert!(rt; both.starts_with(b"HTTP/1.1 400 Bad Request\r\n"));
    let other = answer(alloc, b"GET /stop HTTP/1.1\r\nHost: x\r\n\r\n", b"");
    assert!(rt;
        is_answer(
            other.as_slice(),
            b"HTTP/1.1 405 ",
            b"allow: POST\r\n",
            b"no such method\n"
        )
    );
}

#[test]
fn answers_that_are_written(rt: HostRuntime) {
    let alloc = rt.alloc();
    let next = b"GET /inbox/1/next HTTP/1.1\r\nHost: x\r\n\r\n".as_slice();
    let item = answer(alloc, next, b"item 1 7\n<a>\n</a>");
    assert!(rt;
        is_answer(
            item.as_slice(),
            b"HTTP/1.1 200 OK\r\n",
            b"etag: \"7\"\r\n",
            b"<a>\n</a>"
        )
    );
    assert!(rt; has(item.as_slice(), b"content-type: application/xml\r\n"));
    assert!(rt; has(item.as_slice(), b"content-length: 8\r\n"));
    let none = answer(alloc, next, b"none 1 1\n");
    assert!(rt; is_answer(none.as_slice(), b"HTTP/1.1 204 No Content\r\n", b"", b""));
    assert!(rt; !has(none.as_slice(), b"content-length"));
    let list = answer(
        alloc,
        b"GET /inbox/1 HTTP/1.1\r\nHost: x\r\n\r\n",
        b"item 1 7 3c\n",
    );
    assert!(rt;
        is_answer(
            list.as_slice(),
            b"HTTP/1.1 200 OK\r\n",
            b"content-type: text/plain; charset=utf-8\r\n",
            b"item 1 7 3c\n"
        )
    );
    let busy = answer(
        alloc,
        b"POST /send?to=a:b HTTP/1.1\r\nHost: x\r\n\r\n",
        b"opening 1\n",
    );
    assert!(rt;
        is_answer(
            busy.as_slice(),
            b"HTTP/1.1 503 ",
            b"retry-after: 1\r\n",
            b"opening 1\n"
        )
    );
    let counts = answer(alloc, b"GET /metrics HTTP/1.1\r\nHost: x\r\n\r\n", b"a 1\n");
    assert!(rt;
        has(
            counts.as_slice(),
            b"\r\n\r\na 1\n# TYPE wsrm_peer_requests_total counter\nwsrm_peer_requests_total 0\n"
        )
    );
}

// A connection is kept where the request says nothing, and ends where it says so, or is one of HTTP/1.0.
#[test]
fn connections_that_end(rt: HostRuntime) {
    let alloc = rt.alloc();
    let kept = answer(alloc, b"GET /show HTTP/1.1\r\nHost: x\r\n\r\n", b"a\n");
    assert!(rt; !has(kept.as_slice(), b"connection: close"));
    let ended = answer(
        alloc,
        b"GET /show HTTP/1.1\r\nHost: x\r\nConnection: close\r\n\r\n",
        b"a\n",
    );
    assert!(rt; has(ended.as_slice(), b"connection: close\r\n"));
    let old = answer(alloc, b"GET /show HTTP/1.0\r\nHost: x\r\n\r\n", b"a\n");
    assert!(rt; has(old.as_slice(), b"connection: close\r\n"));
}

fn edge_at<'a>(rt: &'a HostRuntime, socket: &str) -> Option<Edge<&'a HostRuntime>> {
    let alloc = rt.alloc();
    let here = Listen::Address(SocketAddr::from((Ipv4Addr::LOCALHOST, 0)));
    let peers = Peers::everybody(alloc);
    Edge::open(rt, alloc, here, Some(socket), Media::Soap12, peers).ok()
}

// A connection of an application, on which a request is written.
fn dialled(rt: &HostRuntime, socket: &str, request: &[u8]) -> Option<UnixStream> {
    let app = UnixStream::connect(rt, socket).ok()?;
    app.set_read_timeout(Some(Duration::from_secs(5))).ok()?;
    (&app).write_all(request).ok()?;
    Some(app)
}

// Writes these texts, one for each request that comes within so many waits of 50 milliseconds. What was told.
fn attend(alloc: Global, edge: &mut Edge<&HostRuntime>, texts: &[&[u8]], waits: u8) -> Blob {
    let mut told = Blob::new(alloc);
    let mut rest = texts.iter();
    for _turn in 0..waits {
        if let Ok(Event::Called(mut conn)) = edge.next(50) {
            push_told(&mut told, &mut conn);
            if let Some(text) = rest.next() {
                let _ = write_all(&mut conn, text);
            }
            edge.answer(conn);
        }
    }
    told
}

fn push_told<C: Connection>(told: &mut Blob, conn: &mut C) {
    let mut piece = [0; 256];
    if let Ok(count) = conn.read(&mut piece) {
        let _ = told.push_all(piece.split_at(count.min(256)).0);
    }
}

// What an application reads at once.
fn read_of(alloc: Global, mut from: &UnixStream) -> Blob {
    let mut piece = [0; 1024];
    let count = from.read(&mut piece).unwrap_or(0);
    Blob::from_slice(alloc, piece.split_at(count.min(1024)).0).unwrap_or(Blob::new(alloc))
}

// What the desk was told of requests on one connection, and what was answered by the time that the service stopped.
fn exchange(rt: &HostRuntime, request: &[u8], texts: &[&[u8]], waits: u8) -> Option<(Blob, Blob)> {
    let mut edge = edge_at(rt, "edge.socket")?;
    let app = dialled(rt, "edge.socket", request)?;
    let told = attend(rt.alloc(), &mut edge, texts, waits);
    edge.finish(1000);
    let answers = read_of(rt.alloc(), &app);
    let _ = fs::remove_file(rt, "edge.socket");
    Some((told, answers))
}

// An application asks three times on one connection. What the edge refuses the desk isn't told.
#[test]
fn an_application_asks(rt: HostRuntime) -> Result<(), Fail> {
    let requests = b"GET /nowhere HTTP/1.1\r\nHost: x\r\n\r\nGET /show HTTP/1.1\r\nHost: x\r\n\r\n\
POST /stop HTTP/1.1\r\nHost: x\r\n\r\n";
    let texts = [b"a\n".as_slice(), b"stopping\n".as_slice()];
    let (told, answers) = exchange(&rt, requests, &texts, 4).ok_or("no edge")?;
    assert!(rt; told.as_slice() == b"show\nstop\n".as_slice());
    assert!(rt;
        answers
            .as_slice()
            .starts_with(b"HTTP/1.1 404 Not Found\r\n")
    );
    assert!(rt; has(answers.as_slice(), b"no such path\nHTTP/1.1 200 OK\r\n"));
    assert!(rt; ends_so(answers.as_slice(), b"stopping\n"));
    Ok(())
}

// Where there is no item yet the desk is asked again, and what it wrote in between is not sent.
#[test]
fn an_application_waits(rt: HostRuntime) -> Result<(), Fail> {
    let request = b"GET /inbox/1/next?wait=5 HTTP/1.1\r\nHost: x\r\n\r\n";
    let none = b"none 1 1\n".as_slice();
    let texts = [none, none, b"item 1 1\n<a/>".as_slice()];
    let (told, answers) = exchange(&rt, request, &texts, 20).ok_or("no edge")?;
    assert!(rt; told.as_slice() == b"next 1\nnext 1\nnext 1\n".as_slice());
    assert!(rt; is_answer(answers.as_slice(), b"HTTP/1.1 200 OK\r\n", b"", b"<a/>"));
    Ok(())
}

// One that doesn't wait is told that there is none.
#[test]
fn an_application_does_not_wait(rt: HostRuntime) -> Result<(), Fail> {
    let request = b"GET /inbox/1/next HTTP/1.1\r\nHost: x\r\n\r\n";
    let (told, answers) = exchange(&rt, request, &[b"none 1 1\n"], 3).ok_or("no edge")?;
    assert!(rt; told.as_slice() == b"next 1\n".as_slice());
    assert!(rt; is_answer(answers.as_slice(), b"HTTP/1.1 204 No Content\r\n", b"", b""));
    Ok(())
}

// One that waits is told that the service stops.
#[test]
fn a_wait_that_ends(rt: HostRuntime) -> Result<(), Fail> {
    let request = b"POST /send?to=a:b&wait=60 HTTP/1.1\r\nHost: x\r\n\r\n";
    let (told, answers) = exchange(&rt, request, &[b"opening 1\n"], 2).ok_or("no edge")?;
    assert!(rt; told.as_slice() == b"send a:b\n".as_slice());
    assert!(rt;
        is_answer(
            answers.as_slice(),
            b"HTTP/1.1 503 Service Unavailable\r\n",
            b"",
            b"stopping\n"
        )
    );
    Ok(())
}

// What is told once an application that waits went away.
fn told_of_one_gone(rt: &HostRuntime) -> Option<Blob> {
    let request = b"POST /send?to=a:b&wait=60 HTTP/1.1\r\nHost: x\r\n\r\n";
    let mut edge = edge_at(rt, "gone.socket")?;
    let app = dialled(rt, "gone.socket", request)?;
    attend(rt.alloc(), &mut edge, &[b"opening 1\n"], 2);
    drop(app);
    let told = attend(rt.alloc(), &mut edge, &[], 10);
    let _ = fs::remove_file(rt, "gone.socket");
    Some(told)
}

#[test]
fn one_that_went_away(rt: HostRuntime) {
    assert!(rt; told_of_one_gone(&rt).is_some_and(|told| told.is_empty()));
}
