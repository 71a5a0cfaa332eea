//! What a node refuses.
use crate::peer::{Peer, at_first, at_second};
use node_laws::answers::Cause;
use rm_node::NodeError;

// The answer of a call that is refused.
fn refused(cause: Cause) -> Option<NodeError> {
    Some(NodeError::Refused(cause))
}

// How sending a payload comes out, and how many entries there are then.
fn sent(peer: &mut Peer, seq: u32, payload: &[u8]) -> (Option<NodeError>, u64) {
    let error = peer.accept(seq, payload).err();
    (error, peer.entries())
}

// How sending what is not closed comes out.
fn not_closed_sent(peer: &mut Peer) -> Result<(Option<NodeError>, u64), NodeError> {
    peer.open()?;
    Ok(sent(peer, 1, b"<p>"))
}

#[test]
fn content_that_is_not_closed(rt: HostRuntime) {
    let known = (refused(Cause::BadPayload), 3);
    assert!(rt; at_first(rt.alloc(), not_closed_sent) == Ok(known));
}

// This many payloads are sent: how many entries there are then.
fn fill(peer: &mut Peer, seq: u32, count: u64) -> Result<u64, NodeError> {
    for _ in 0..count {
        peer.accept(seq, b"<p/>")?;
    }
    Ok(peer.entries())
}

// A window is filled, and one more payload is sent: how many entries there are before it, how it comes out, and how
// many messages wait for an acknowledgement.
fn window_filled(peer: &mut Peer) -> Result<(u64, (Option<NodeError>, u64), u64), NodeError> {
    peer.open()?;
    let entries = fill(peer, 1, 1024)?;
    Ok((entries, sent(peer, 1, b"<p/>"), peer.unacked()))
}

#[test]
fn a_window_of_1024(rt: HostRuntime) {
    let full = refused(Cause::WindowFull { unacked: 1024 });
    assert!(rt; at_first(rt.alloc(), window_filled) == Ok((1027, (full, 1027), 1024)));
}

// The message ids of five requests, and what is granted for each.
const FIVE: [(&[u8], &[u8]); 5] = [
    (b"urn:uuid:00000000-0000-8001-8000-000000000001", b"urn:a"),
    (b"urn:uuid:00000000-0000-8001-8000-000000000002", b"urn:b"),
    (b"urn:uuid:00000000-0000-8001-8000-000000000003", b"urn:c"),
    (b"urn:uuid:00000000-0000-8001-8000-000000000004", b"urn:d"),
    (b"urn:uuid:00000000-0000-8001-8000-000000000005", b"urn:e"),
];

// Five sequences are asked for and granted.
fn open_five(peer: &mut Peer) -> Result<(), NodeError> {
    for (id, ident) in &FIVE {
        peer.create()?;
        peer.be_granted(id, ident)?;
    }
    Ok(())
}

// The first four of them are filled: how many entries there are then.
fn fill_four(peer: &mut Peer) -> Result<u64, NodeError> {
    for seq in 1..5 {
        fill(peer, seq, 1024)?;
    }
    Ok(peer.entries())
}

// A node is filled, and one more payload is sent: how many entries there are before it, and how it comes out.
fn node_filled(peer: &mut Peer) -> Result<(u64, (Option<NodeError>, u64)), NodeError> {
    open_five(peer)?;
    let entries = fill_four(peer)?;
    Ok((entries, sent(peer, 5, b"<p/>")))
}

#[test]
fn a_node_of_4096(rt: HostRuntime) {
    let full = refused(Cause::NodeFull { unacked: 4096 });
    assert!(rt; at_first(rt.alloc(), node_filled) == Ok((4107, (full, 4107))));
}

// A call for a sequence.
#[derive(Clone, Copy)]
enum Call {
    Send,
    Close,
    End,
    Consume,
}

// How a call for the sequence with a number comes out.
fn error(peer: &mut Peer, call: Call, seq: u32) -> Option<NodeError> {
    match call {
        Call::Send => peer.accept(seq, b"<p/>").err(),
        Call::Close => peer.shut(seq).err(),
        Call::End => peer.finish(seq).err(),
        Call::Consume => peer.consume(seq, 1).err(),
    }
}

// A call, the number of its sequence, and why it is refused.
type Row = (Call, u32, Cause);

// At a node with one incoming sequence.
const NOT_THERE: [Row; 8] = [
    (Call::Send, 0, Cause::NoSequence),
    (Call::Send, 2, Cause::NoSequence),
    (Call::Send, 1, Cause::WrongSide),
    (Call::End, 1, Cause::WrongSide),
    (Call::Close, 2, Cause::NoSequence),
    (Call::Consume, 0, Cause::NoSequence),
    (Call::Consume, 2, Cause::NoSequence),
    (Call::Consume, 1, Cause::PastInbox { have: 0 }),
];

// At a node that has asked for a sequence.
const NOT_OPEN: [Row; 3] = [
    (Call::Send, 1, Cause::NotOpen),
    (Call::Close, 1, Cause::NotOpen),
    (Call::Consume, 1, Cause::WrongSide),
];

// How many of these calls are refused so, up to the first that is not.
fn refusals(peer: &mut Peer, rows: &[Row]) -> usize {
    for (i, (call, seq, cause)) in rows.iter().enumerate() {
        if error(peer, *call, *seq) != refused(*cause) {
            return i;
        }
    }
    rows.len()
}

// That, and how many entries there are then.
fn not_there_refused(peer: &mut Peer) -> Result<(usize, u64), NodeError> {
    peer.be_asked()?;
    Ok((refusals(peer, &NOT_THERE), peer.entries()))
}

#[test]
fn sequences_that_are_not_there(rt: HostRuntime) {
    assert!(rt; at_second(rt.alloc(), not_there_refused) == Ok((8, 2)));
}

// That, and how many entries there are then.
fn not_open_refused(peer: &mut Peer) -> Result<(usize, u64), NodeError> {
    peer.create()?;
    Ok((refusals(peer, &NOT_OPEN), peer.entries()))
}

#[test]
fn a_sequence_that_is_not_open(rt: HostRuntime) {
    assert!(rt; at_first(rt.alloc(), not_open_refused) == Ok((3, 2)));
}

// This many sequences are asked for: how many entries there are then.
fn ask_for(peer: &mut Peer, count: u64) -> Result<u64, NodeError> {
    for _ in 0..count {
        peer.create()?;
    }
    Ok(peer.entries())
}

// As many as a node may have are asked for, and one more: how many entries there are before it, how it comes out, and
// how many entries there are then.
fn sequences_filled(peer: &mut Peer) -> Result<(u64, Option<NodeError>, u64), NodeError> {
    let entries = ask_for(peer, 256)?;
    let error = peer.create().err();
    Ok((entries, error, peer.entries()))
}

#[test]
fn more_than_256_sequences(rt: HostRuntime) {
    let full = refused(Cause::TooManySequences { count: 256 });
    assert!(rt; at_first(rt.alloc(), sequences_filled) == Ok((257, full, 257)));
}

// How sending so many spaces comes out, and how many entries there are then.
fn send_spaces(peer: &mut Peer, len: usize) -> Result<(Result<u64, NodeError>, u64), NodeError> {
    let Ok(spaces) = vec![in peer.alloc; 32; len] else {
        return Err(NodeError::Memory);
    };
    let number = peer.accept(1, &spaces);
    Ok((number, peer.entries()))
}

// How sending one space too many comes out.
fn too_many_sent(peer: &mut Peer) -> Result<(Result<u64, NodeError>, u64), NodeError> {
    peer.open()?;
    send_spaces(peer, 1048577)
}

// And after it, one fewer.
fn fewer_sent(peer: &mut Peer) -> Result<(Result<u64, NodeError>, u64), NodeError> {
    let _refused = too_many_sent(peer)?;
    send_spaces(peer, 1048576)
}

#[test]
fn a_payload_of_1048577_bytes(rt: HostRuntime) {
    let too_long = NodeError::Refused(Cause::PayloadTooLong { length: 1048577 });
    assert!(rt; at_first(rt.alloc(), too_many_sent) == Ok((Err(too_long), 3)));
    assert!(rt; at_first(rt.alloc(), fewer_sent) == Ok((Ok(1), 4)));
}
