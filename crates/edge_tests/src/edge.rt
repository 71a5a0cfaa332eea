//! A service's edge, over real sockets of this machine: what it hands over, what it posts, and what it keeps to.
//! All is on one thread: what a peer writes waits in the system until the edge is asked for what comes.

use http_endpoint::{Media, read_request, write_response};
use rm_base::{Blob, Memory, Uri, push_decimal};
use rm_edge::{Edge, Listen, Peers, read_listen, read_peers};
use service_turns::{Event, Packet, Traffic};
use std::alloc::Global;
use std::fs;
use std::io::{self, Read, Write};
use std::net::{Ipv4Addr, SocketAddr, TcpListener, TcpStream};
use std::os::unix::fs::PermissionsExt;
use std::test::Fail;
use std::time::Duration;

const HEAD: &[u8] = b"POST / HTTP/1.1\r\nHost: x\r\nContent-Type: application/soap+xml\r\n";

const ANSWER: &[u8] = b"HTTP/1.1 200 OK\r\nContent-Type: application/soap+xml; charset=utf-8\r\n\
Content-Length: 4\r\nConnection: close\r\n\r\n<a/>";

fn here(port: u16) -> SocketAddr {
    SocketAddr::from((Ipv4Addr::LOCALHOST, port))
}

fn edge_on<'a>(rt: &'a HostRuntime, socket: Option<&str>) -> Option<Edge<&'a HostRuntime>> {
    edge_for(rt, socket, Peers::everybody(rt.alloc()))
}

fn edge_for<'a>(
    rt: &'a HostRuntime,
    socket: Option<&str>,
    peers: Peers,
) -> Option<Edge<&'a HostRuntime>> {
    let listen = Listen::Address(here(0));
    Edge::open(rt, rt.alloc(), listen, socket, Media::Soap12, peers).ok()
}

fn dial(rt: &HostRuntime, address: SocketAddr) -> io::Result<TcpStream> {
    let stream = TcpStream::connect(rt, address)?;
    stream.set_read_timeout(Some(Duration::from_secs(5)))?;
    Ok(stream)
}

// Writes a request, all of it or its beginning.
fn write_half(mut to: &TcpStream, all: bool) -> io::Result<()> {
    to.write_all(HEAD)?;
    to.write_all(b"Content-Length: 4\r\n\r\n<a")?;
    if all {
        to.write_all(b"/>")?;
    }
    Ok(())
}

// All that comes until the end.
fn read_all(alloc: Global, mut from: &TcpStream) -> io::Result<Vec<u8>> {
    let mut all = Vec::new(alloc);
    let mut piece = [0; 512];
    for _turn in 0..1000 {
        let count = from.read(&mut piece)?;
        if count == 0 {
            break;
        }
        all.extend_from_slice(piece.split_at(count.min(512)).0)?;
    }
    Ok(all)
}

// What comes within so many waits of 50 milliseconds, a request of a peer answered with its own body. What was heard.
fn serve(alloc: Global, edge: &mut Edge<&HostRuntime>, waits: u8) -> Blob {
    let mut heard = Blob::new(alloc);
    for _turn in 0..waits {
        match edge.next(50) {
            Ok(Event::Asked(mut conn)) => {
                if let Ok(body) = read_request(alloc, &mut conn) {
                    let _ = write_response(alloc, &mut conn, 200, body.as_slice());
                }
                edge.reply(conn);
            }
            Ok(Event::Called(conn)) => edge.answer(conn),
            Ok(Event::Heard(body)) => {
                let _ = heard.push_all(body.as_slice());
            }
            _ => {}
        }
    }
    heard
}

fn packet(alloc: Global, port: u16, body: &[u8]) -> Result<Packet, Memory> {
    let mut text = Blob::from_slice(alloc, b"http://127.0.0.1:")?;
    push_decimal(&mut text, u64::from(port))?;
    text.push_all(b"/in")?;
    match Uri::from_slice(alloc, text.as_slice()) {
        Ok(address) => Ok(Packet {
            address,
            bytes: Blob::from_slice(alloc, body)?,
        }),
        Err(_) => Err(Memory),
    }
}

// Whether what comes next on a listener is a request with this body; it is answered with this one.
fn is_posted(alloc: Global, listener: &TcpListener, body: &[u8], answer: &[u8]) -> bool {
    let Ok((mut stream, _)) = listener.accept() else {
        return false;
    };
    let _ = stream.set_read_timeout(Some(Duration::from_secs(5)));
    let mut all = Vec::new(alloc);
    let mut piece = [0; 512];
    for _turn in 0..1000 {
        if all.as_slice().ends_with(body) {
            break;
        }
        match stream.read(&mut piece) {
            Ok(0) => return false,
            Ok(count) => {
                if all
                    .extend_from_slice(piece.split_at(count.min(512)).0)
                    .is_err()
                {
                    return false;
                }
            }
            Err(_) => return false,
        }
    }
    stream.write_all(answer).is_ok()
}

// A port is a place to listen, and so is an address in digits with one.
#[test]
fn where_to_listen(rt: HostRuntime) {
    assert!(rt; read_listen(b"80") == Some(Listen::Port(80)));
    assert!(rt; read_listen(b"127.0.0.1:8080") == Some(Listen::Address(here(8080))));
    assert!(rt; read_listen(b"65536").is_none());
    assert!(rt; read_listen(b"localhost:80").is_none());
    assert!(rt; read_listen(b"").is_none());
}

// Whether a peer is answered within two waits.
fn is_answered(alloc: Global, edge: &mut Edge<&HostRuntime>, peer: &TcpStream) -> bool {
    serve(alloc, edge, 2);
    match read_all(alloc, peer) {
        Ok(answer) => answer.as_slice() == ANSWER,
        Err(_) => false,
    }
}

// A peer that sent half of its request holds up nobody, and is answered once the other half came.
#[test]
fn a_slow_peer_beside_a_good_one(rt: HostRuntime) -> Result<(), Fail> {
    let alloc = rt.alloc();
    let mut edge = edge_on(&rt, None).ok_or("no edge")?;
    let slow = dial(&rt, edge.address())?;
    write_half(&slow, false)?;
    serve(alloc, &mut edge, 2);
    let good = dial(&rt, edge.address())?;
    write_half(&good, true)?;
    let is_good = is_answered(alloc, &mut edge, &good);
    (&slow).write_all(b"/>")?;
    let is_slow = is_answered(alloc, &mut edge, &slow);
    let asked = edge.tally().asked;
    assert!(rt; is_good && is_slow);
    assert_eq!(rt; asked, 2);
    Ok(())
}

// How many silent peers of one address are let go of 70, and of 70 where a good one comes too, if that is answered.
fn dropped_beside(rt: &HostRuntime) -> Option<(u64, u64)> {
    let alloc = rt.alloc();
    let mut edge = edge_on(rt, None)?;
    let mut silent = Vec::new(alloc);
    for _number in 0..70 {
        silent.push(dial(rt, edge.address()).ok()?).ok()?;
    }
    serve(alloc, &mut edge, 2);
    let before = edge.tally().dropped;
    let good = dial(rt, edge.address()).ok()?;
    write_half(&good, true).ok()?;
    if is_answered(alloc, &mut edge, &good) {
        Some((before, edge.tally().dropped))
    } else {
        None
    }
}

// Of 70 silent peers at one address 64 stay; one that comes then is served, and takes the place of one of them.
#[test]
fn silent_peers_make_place(rt: HostRuntime) {
    assert!(rt; dropped_beside(&rt) == Some((6, 7)));
}

// A peer that waits to be told so is told to send the body, once.
#[test]
fn a_peer_that_waits_is_told(rt: HostRuntime) -> Result<(), Fail> {
    let alloc = rt.alloc();
    let mut edge = edge_on(&rt, None).ok_or("no edge")?;
    let peer = dial(&rt, edge.address())?;
    (&peer).write_all(HEAD)?;
    (&peer).write_all(b"Content-Length: 4\r\nExpect: 100-continue\r\n\r\n")?;
    serve(alloc, &mut edge, 2);
    let mut told = [0; 25];
    (&peer).read_exact(&mut told)?;
    (&peer).write_all(b"<a/>")?;
    let is_well = is_answered(alloc, &mut edge, &peer);
    assert!(rt; &told == b"HTTP/1.1 100 Continue\r\n\r\n");
    assert!(rt; is_well);
    Ok(())
}

// Packets for one host go in order, one after the other, none twice while it waits; a host that says nothing holds up
// its own alone.
#[test]
fn packets_go_in_order(rt: HostRuntime) -> Result<(), Fail> {
    let alloc = rt.alloc();
    let mut edge = edge_on(&rt, None).ok_or("no edge")?;
    let silent = TcpListener::bind(&rt, here(0))?;
    let good = TcpListener::bind(&rt, here(0))?;
    let (mute, port) = (silent.local_addr()?.port(), good.local_addr()?.port());
    for body in [b"<a/>", b"<b/>", b"<a/>"] {
        edge.post(packet(alloc, mute, body)?);
        edge.post(packet(alloc, port, body)?);
    }
    serve(alloc, &mut edge, 2);
    assert!(rt;
        is_posted(
            alloc,
            &good,
            b"\r\n\r\n<a/>",
            b"HTTP/1.1 200 OK\r\nContent-Length: 1\r\n\r\n1"
        )
    );
    let heard = serve(alloc, &mut edge, 2);
    assert!(rt; heard.as_slice() == b"1".as_slice());
    assert!(rt;
        is_posted(
            alloc,
            &good,
            b"\r\n\r\n<b/>",
            b"HTTP/1.1 202 Accepted\r\nContent-Length: 0\r\n\r\n"
        )
    );
    let heard = serve(alloc, &mut edge, 2);
    assert!(rt; heard.is_empty());
    good.set_nonblocking(true)?;
    assert!(rt; good.accept().is_err());
    assert_eq!(rt; edge.tally().posted, 2);
    Ok(())
}

// A packet for the port that the edge listens to is given up, and so is one for a port where nobody listens, and one
// whose address is no URL of http.
#[test]
fn packets_that_are_given_up(rt: HostRuntime) -> Result<(), Fail> {
    let alloc = rt.alloc();
    let mut edge = edge_on(&rt, None).ok_or("no edge")?;
    edge.post(packet(alloc, edge.address().port(), b"<a/>")?);
    let gone = TcpListener::bind(&rt, here(0))?;
    let port = gone.local_addr()?.port();
    drop(gone);
    edge.post(packet(alloc, port, b"<a/>")?);
    edge.post(Packet {
        address: Uri::from_slice(alloc, b"mailto:a@b")?,
        bytes: Blob::from_slice(alloc, b"<a/>")?,
    });
    serve(alloc, &mut edge, 4);
    let tally = edge.tally();
    assert_eq!(rt; tally.asked, 0);
    assert_eq!(rt; tally.missed, 2);
    assert_eq!(rt; tally.shed, 1);
    Ok(())
}

// A socket is its user's alone, and one that was left at its name is removed.
#[test]
fn the_socket_of_an_application(rt: HostRuntime) -> Result<(), Fail> {
    drop(edge_on(&rt, Some("edge.socket")).ok_or("no edge")?);
    let edge = edge_on(&rt, Some("edge.socket")).ok_or("no second edge")?;
    let mode = fs::metadata(&rt, "edge.socket")?.permissions().mode();
    assert_eq!(rt; mode & 511, 384);
    drop(edge);
    fs::remove_file(&rt, "edge.socket")?;
    Ok(())
}

// A connection from a network that isn't named is closed with no answer, and a packet for an address that isn't named
// is not posted.
#[test]
fn whoever_is_no_peer(rt: HostRuntime) -> Result<(), Fail> {
    let alloc = rt.alloc();
    let peers = read_peers(alloc, b"from 192.0.2.0/24\nhttp://127.0.0.1:1/in\n").ok();
    let mut edge = edge_for(&rt, None, peers.ok_or("no peers")?).ok_or("no edge")?;
    let stranger = dial(&rt, edge.address())?;
    serve(alloc, &mut edge, 2);
    let answer = read_all(alloc, &stranger)?;
    assert!(rt; answer.is_empty());
    edge.post(packet(alloc, 2, b"<a/>")?);
    let tally = edge.tally();
    assert_eq!(rt; tally.barred, 2);
    assert_eq!(rt; tally.asked, 0);
    assert_eq!(rt; tally.missed, 0);
    assert_eq!(rt; tally.shed, 0);
    Ok(())
}

// Nothing comes in the time that is waited; and where the time is over, what is due goes before what came, once.
#[test]
fn ticks_are_not_starved(rt: HostRuntime) -> Result<(), Fail> {
    let mut edge = edge_on(&rt, None).ok_or("no edge")?;
    assert!(rt; matches!(edge.next(20), Ok(Event::Quiet)));
    let first = dial(&rt, edge.address())?;
    write_half(&first, true)?;
    let second = dial(&rt, edge.address())?;
    write_half(&second, true)?;
    assert!(rt; matches!(edge.next(5000), Ok(Event::Asked(_))));
    assert!(rt; matches!(edge.next(0), Ok(Event::Quiet)));
    assert!(rt; matches!(edge.next(0), Ok(Event::Asked(_))));
    assert!(rt; matches!(edge.next(0), Ok(Event::Quiet)));
    Ok(())
}
