//! A node that runs, over a traffic in memory: a peer's requests, the application's, and a stop.
use crate::machine::conn;
use crate::peer::made;
use crate::serving::{CREATE, MESSAGE};
use rm_base::{Behaviour, Blob, MemClock, MemConn, Memory};
use rm_disk::MemDisk;
use rm_node::NodeError;
use rm_station::attend;
use service_turns::{Event, MemTraffic, Note};
use std::alloc::Global;
use std::test::Fail;

// The second message of the sequence that is granted.
const SECOND: &[u8] =
    b"POST / HTTP/1.1\r\nHost: localhost\r\nContent-Type: application/soap+xml\r\nContent-Length: 431\r\n\r\n\
        <s:Envelope xmlns:s=\"http://www.w3.org/2003/05/soap-envelope\" \
        xmlns:a=\"http://www.w3.org/2005/08/addressing\" xmlns:r=\"http://docs.oasis-open.org/ws-rx/wsrm/200702\">\
        <s:Header><a:To>http://localhost:18473/</a:To><a:Action>urn:wsrm:payload</a:Action><r:Sequence>\
        <r:Identifier>urn:uuid:00000000-0000-8001-8000-000000000001</r:Identifier>\
        <r:MessageNumber>2</r:MessageNumber></r:Sequence></s:Header><s:Body><p>2</p></s:Body></s:Envelope>";

// What another node answers when it is asked for a sequence.
const GRANTED: &[u8] = b"<s:Envelope xmlns:s=\"http://www.w3.org/2003/05/soap-envelope\" \
    xmlns:a=\"http://www.w3.org/2005/08/addressing\" xmlns:r=\"http://docs.oasis-open.org/ws-rx/wsrm/200702\">\
    <s:Header><a:To>http://www.w3.org/2005/08/addressing/anonymous</a:To>\
    <a:Action>http://docs.oasis-open.org/ws-rx/wsrm/200702/CreateSequenceResponse</a:Action>\
    <a:RelatesTo>urn:uuid:00000000-0000-8001-8000-000000000002</a:RelatesTo></s:Header><s:Body>\
    <r:CreateSequenceResponse><r:Identifier>urn:x:7</r:Identifier></r:CreateSequenceResponse></s:Body></s:Envelope>";

const SEND: &[u8] = b"send http://localhost:18474/\n<p>1</p>";

// What comes, and one thing behind the stop.
fn coming(alloc: Global) -> Result<Vec<Event<MemConn, MemConn>>, Memory> {
    let mut coming = Vec::new(alloc);
    coming.push(Event::Quiet)?;
    coming.push(Event::Asked(conn(alloc, CREATE)?))?;
    coming.push(Event::Asked(conn(alloc, MESSAGE)?))?;
    coming.push(Event::Asked(conn(alloc, SECOND)?))?;
    coming.push(Event::Called(conn(alloc, SEND)?))?;
    coming.push(Event::Heard(Blob::from_slice(alloc, GRANTED)?))?;
    coming.push(Event::Called(conn(alloc, SEND)?))?;
    coming.push(Event::Called(conn(alloc, b"send nowhere\n")?))?;
    coming.push(Event::Called(conn(alloc, b"stop")?))?;
    coming.push(Event::Quiet)?;
    Ok(coming)
}

// Whether a node that was just made ran well until it was stopped, and what it gave back.
fn ran(alloc: Global) -> Result<(bool, MemTraffic), NodeError> {
    let mut disk = MemDisk::new(alloc);
    let node = made(alloc, &mut disk)?;
    drop(node);
    let mut traffic = MemTraffic::new(coming(alloc)?);
    let (disk, ended) = attend(
        alloc,
        &mut traffic,
        disk,
        MemClock::new(0),
        Behaviour::FollowingFirstGap,
        100,
    );
    drop(disk);
    Ok((ended.is_ok(), traffic))
}

// Whether an answer is this text.
fn is_told(note: &Note, text: &[u8]) -> bool {
    match note {
        Note::Written(conn) => conn.written() == text,
        Note::Packed(_) => false,
    }
}

// Whether an answer is a response of HTTP that all went well, with this in it.
fn is_answered(note: &Note, part: &[u8]) -> bool {
    match note {
        Note::Written(conn) => conn.written().starts_with(b"HTTP/1.1 200 OK\r\n")
            && has(conn.written(), part),
        Note::Packed(_) => false,
    }
}

// Whether a packet goes to the other node, with this in it.
fn is_posted(note: &Note, part: &[u8]) -> bool {
    match note {
        Note::Packed(packet) => {
            packet.address.as_slice() == b"http://localhost:18474/".as_slice()
                && has(packet.bytes.as_slice(), part)
        }
        Note::Written(_) => false,
    }
}

fn has(bytes: &[u8], part: &[u8]) -> bool {
    part.is_empty()
        || bytes
            .windows(part.len().max(1))
            .any(|window| window == part)
}

// Two messages of a peer are acknowledged; a payload of the application is accepted once its sequence is open, and what
// is said of each thing goes back before the packets that it leads to. Nothing is taken behind the stop.
#[test]
fn a_node_runs_until_it_is_stopped(rt: HostRuntime) -> Result<(), Fail> {
    let (is_done, traffic) = ran(rt.alloc())?;
    assert!(rt; is_done);
    let notes = traffic.notes();
    assert_eq!(rt; notes.len(), 9);
    assert!(rt;
        is_answered(
            &notes[0],
            b"Identifier>urn:uuid:00000000-0000-8001-8000-000000000001<"
        )
    );
    assert!(rt; is_answered(&notes[1], b"Lower=\"1\" Upper=\"1\""));
    assert!(rt; is_answered(&notes[2], b"Lower=\"1\" Upper=\"2\""));
    assert!(rt; is_told(&notes[3], b"opening 2\n"));
    assert!(rt;
        is_posted(
            &notes[4],
            b"MessageID>urn:uuid:00000000-0000-8001-8000-000000000002<"
        )
    );
    assert!(rt; is_told(&notes[5], b"accepted 2 1\n"));
    assert!(rt; is_posted(&notes[6], b"Identifier>urn:x:7<"));
    assert!(rt; is_posted(&notes[6], b"<p>1</p>"));
    assert!(rt; is_told(&notes[7], b"refused BadAddress\n"));
    assert!(rt; is_told(&notes[8], b"stopping\n"));
    Ok(())
}
