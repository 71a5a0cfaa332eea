//! Bytes over a connection of the system, and packets posted over one in memory.
//! What a test does stands in helpers that answer plain values, since a test with many steps is slow to prove.
use http_endpoint::link::{Fate, Link, MemLink, TcpLink, post};
use rm_base::{Blob, Connection, Failed, MemConn, Memory, Numbers, Sink, Source, Uri};
use std::alloc::Global;

const PORT: u16 = 18471;

// Whether a link that listens nowhere takes no connection, makes none to a name that is no address, and tells why.
fn is_refused(link: &mut TcpLink<&HostRuntime>) -> bool {
    let is_alone = link.accept().is_err();
    let is_undialled = link.dial(b"localhost", PORT).is_err();
    is_alone & is_undialled & link.last_fault().is_some()
}

// Whether these two bytes are the next that come.
fn brings<S: Source>(conn: &mut S, bytes: &[u8; 2]) -> bool {
    let mut buf = [0; 2];
    let is_read = conn.read(&mut buf) == Ok(2);
    is_read & (&buf == bytes)
}

// Whether a connection takes these bytes.
fn takes<S: Sink>(conn: &mut S, bytes: &[u8], count: usize) -> bool {
    conn.write(bytes) == Ok(count)
}

// Whether nothing more comes.
fn is_over<S: Source>(conn: &mut S) -> bool {
    conn.read(&mut [0; 2]) == Ok(0)
}

// Whether the first two of five bytes come on the other side of a connection, which answers with two.
fn is_answered<T: Sink, H: Connection>(there: &mut T, here: &mut H) -> bool {
    let is_asked = takes(there, b"hello", 5);
    let is_heard = brings(here, b"he");
    is_asked & is_heard & takes(here, b"ok", 2)
}

// Whether the answer comes, and then the end.
fn is_ended<S: Source>(there: &mut S) -> bool {
    let is_there = brings(there, b"ok");
    is_there & is_over(there)
}

// Whether bytes go both ways between two links: what is written there and answered here, and the answer itself.
fn carries(
    near: &mut TcpLink<&HostRuntime>,
    far: &mut TcpLink<&HostRuntime>,
) -> Result<(bool, bool), Failed> {
    let mut there = far.dial(b"127.0.0.1", PORT)?;
    let mut here = near.accept()?;
    let is_heard = is_answered(&mut there, &mut here);
    drop(here);
    Ok((is_heard, is_ended(&mut there)))
}

// Whether the far link is refused at first, the near one listens, and what goes between them then.
fn met(rt: &HostRuntime) -> (bool, bool, Result<(bool, bool), Failed>) {
    let mut near = TcpLink::new(rt);
    let mut far = TcpLink::new(rt);
    let is_first = is_refused(&mut far);
    let is_heard = near.listen(PORT).is_ok();
    (is_first, is_heard, carries(&mut near, &mut far))
}

// Bytes go both ways over one connection; what the peer left unread keeps no answer from it.
#[test]
fn a_connection_of_the_system_carries_bytes(rt: HostRuntime) {
    assert!(rt; met(&rt) == (true, true, Ok((true, true))));
}

fn conn(alloc: Global, text: &[u8]) -> Result<MemConn, Memory> {
    let input = Blob::from_slice(alloc, text)?;
    Ok(MemConn::new(alloc, input, Numbers::new(alloc)))
}

// A link with two connections to come: one with a response, and one with a response that breaks off.
fn link_of_two(alloc: Global) -> Result<MemLink, Memory> {
    let mut inputs = Vec::new(alloc);
    inputs.push(conn(alloc, b"HTTP/1.1 200 OK\r\nContent-Length: 4\r\n\r\n<a/>")?)?;
    inputs.push(conn(alloc, b"HTTP/1.1 200 OK\r\nContent-Length: 5\r\n\r\n<a/>")?)?;
    Ok(MemLink::new(inputs, Numbers::new(alloc)))
}

// What becomes of a packet to an address.
fn posted(alloc: Global, link: &mut MemLink, address: &[u8]) -> Result<Fate, Memory> {
    match Uri::from_slice(alloc, address) {
        Ok(address) => post(alloc, link, &address, b"<b/>"),
        Err(_) => Err(Memory),
    }
}

// What becomes of it, in a word, and the body of its response.
fn told<'a>(fate: &'a Result<Fate, Memory>) -> (&'static str, &'a [u8]) {
    match fate {
        Ok(Fate::Answered(body)) => ("answered", body.as_slice()),
        Ok(Fate::Missed) => ("missed", b""),
        Ok(Fate::Undialled) => ("undialled", b""),
        Err(_) => ("memory", b""),
    }
}

fn comes_to(alloc: Global, link: &mut MemLink, address: &[u8], word: &str, body: &[u8]) -> bool {
    let fate = posted(alloc, link, address);
    told(&fate) == (word, body)
}

const HOST: &[u8] = b"http://localhost:18473/";

// Which of four packets, the first to an address of mail, become what they should.
fn fates(alloc: Global) -> Result<(bool, bool, bool, bool), Memory> {
    let mut link = link_of_two(alloc)?;
    Ok((
        comes_to(alloc, &mut link, b"mailto:a@b", "missed", b""),
        comes_to(alloc, &mut link, HOST, "answered", b"<a/>"),
        comes_to(alloc, &mut link, HOST, "missed", b""),
        comes_to(alloc, &mut link, HOST, "undialled", b""),
    ))
}

// The first connection that is to come brings the response; a host that can't be dialled, an address that is no URL of
// http, and a response that breaks off are told apart.
#[test]
fn a_packet_is_posted_or_missed(rt: HostRuntime) {
    assert!(rt; fates(rt.alloc()) == Ok((true, true, true, true)));
}
