//! Items of an inbox that the application consumes.
use crate::peer::{Peer, at_second};
use node_laws::answers::Cause;
use rm_node::NodeError;

// Up to which item is consumed, why that is refused, and then the cursor and how many entries there are.
type Row = (u64, Option<NodeError>, u64, u64);

// At a node with messages 1, 2 and 4, of which the inbox has the first two: it has five entries.
const PAST: Option<NodeError> = Some(NodeError::Refused(Cause::PastInbox { have: 2 }));

const ROWS: [Row; 9] = [
    (0, None, 0, 5),
    (3, PAST, 0, 5),
    (1, None, 1, 6),
    (1, None, 1, 6),
    (0, None, 1, 6),
    (2, None, 2, 7),
    (1, None, 2, 7),
    (4, PAST, 2, 7),
    (9223372036854775807, PAST, 2, 7),
];

// How consuming the items up to one comes out, and what the cursor and the entries are then.
fn consumed(peer: &mut Peer, upto: u64) -> (Option<NodeError>, Option<u64>, u64) {
    let error = peer.consume(1, upto).err();
    (error, peer.cursor(1), peer.entries())
}

// Messages 1, 2 and 4 come.
fn be_sent(peer: &mut Peer) -> Result<(), NodeError> {
    peer.be_sent_one()?;
    for number in [b"2", b"4"] {
        peer.judge_number(number)?;
    }
    Ok(())
}

// How many of these come out so, up to the first that does not.
fn rows_met(peer: &mut Peer) -> Result<usize, NodeError> {
    be_sent(peer)?;
    for (i, (upto, error, cursor, entries)) in ROWS.iter().enumerate() {
        if consumed(peer, *upto) != (*error, Some(*cursor), *entries) {
            return Ok(i);
        }
    }
    Ok(ROWS.len())
}

#[test]
fn items_are_consumed(rt: HostRuntime) {
    assert!(rt; at_second(rt.alloc(), rows_met) == Ok(9));
}

// Both items are consumed, the node is found again, and message 3 comes: where the cursor is, and how consuming four
// items comes out.
fn found_behind(
    peer: &mut Peer,
) -> Result<(Option<u64>, (Option<NodeError>, Option<u64>, u64)), NodeError> {
    be_sent(peer)?;
    peer.consume(1, 2)?;
    peer.find_again()?;
    let cursor = peer.cursor(1);
    peer.judge_number(b"3")?;
    Ok((cursor, consumed(peer, 4)))
}

// What was consumed stays so, and the messages behind it are in the inbox when the gap closes.
#[test]
fn what_was_consumed_is_found_again(rt: HostRuntime) {
    assert!(rt; at_second(rt.alloc(), found_behind) == Ok((Some(2), (None, Some(4), 8))));
}

// Message 1 comes and is consumed, and then comes again: how many items the inbox has, and where the cursor is.
fn sent_again(peer: &mut Peer) -> Result<(Option<u64>, Option<u64>), NodeError> {
    peer.be_sent_one()?;
    peer.consume(1, 1)?;
    peer.judge_number(b"1")?;
    Ok((peer.inbox_len(1), peer.cursor(1)))
}

// What was consumed is not taken as new.
#[test]
fn what_was_consumed_comes_again(rt: HostRuntime) {
    assert!(rt; at_second(rt.alloc(), sent_again) == Ok((Some(1), Some(1))));
}

// Where the cursor is, and how many items the inbox has.
fn state(peer: &Peer) -> (Option<u64>, Option<u64>) {
    (peer.cursor(1), peer.inbox_len(1))
}

// Two items are consumed, the journal is written anew, and the node is found again: what it says then, and after
// message 1 came again and message 3 for the first time.
type Compacted = ((Option<u64>, Option<u64>), (Option<u64>, Option<u64>));

fn compacted(peer: &mut Peer) -> Result<Compacted, NodeError> {
    be_sent(peer)?;
    peer.consume(1, 2)?;
    peer.compact()?;
    peer.find_again()?;
    let first = state(peer);
    for number in [b"1", b"3"] {
        peer.judge_number(number)?;
    }
    Ok((first, state(peer)))
}

// A journal that is written anew keeps the cursor, and what was consumed is not taken as new.
#[test]
fn what_was_consumed_is_kept_in_short(rt: HostRuntime) {
    let known = ((Some(2), Some(2)), (Some(2), Some(4)));
    assert!(rt; at_second(rt.alloc(), compacted) == Ok(known));
}
