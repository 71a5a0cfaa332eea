//! Each call of a node once, with the packets that it hands out.
ghost use Rattle.std.specs.Prelude.{◌≤◌};
ghost use Rattle.rm_base.specs.Limits.{now_max};

use crate::peer::{NODE_1, NODE_2, Peer, at_first, at_second, is_packet};
use crate::texts::{FIRST_OF_1, envelope, joined, request};
use rm_base::{Behaviour, Memory};
use rm_message::FaultKind;
use rm_node::{NodeError, Outs, Reaction};
use rm_sides::destination::InPhase;
use rm_sides::source::OutPhase;
use std::alloc::Global;

// Whether one packet goes to an address, with these blocks and this body.
fn is_sent(
    alloc: Global,
    outs: &Outs,
    address: &[u8],
    blocks: &[u8],
    body: &[u8],
) -> Result<bool, Memory> {
    let text = envelope(alloc, blocks, body)?;
    Ok(is_packet(outs.as_slice(), address, text.as_slice()))
}

// Whether one packet goes to node 2: a request of node 1 that draws the identifier with this last digit.
fn is_request(
    alloc: Global,
    outs: &Outs,
    name: &[u8],
    digit: &[u8],
    body: &[u8],
) -> Result<bool, Memory> {
    let blocks = joined(
        alloc,
        &[
            b"<a:To>http://node2.example/</a:To><a:Action>http://docs.oasis-open.org/ws-rx/wsrm/200702/",
            name,
            b"</a:Action><a:MessageID>urn:uuid:00000000-0000-8001-8000-00000000000",
            digit,
            b"</a:MessageID><a:ReplyTo><a:Address>http://node1.example/</a:Address></a:ReplyTo>",
        ],
    )?;
    is_sent(alloc, outs, NODE_2, blocks.as_slice(), body)
}

const CREATE: &[u8] =
    b"<r:CreateSequence><r:AcksTo><a:Address>http://node1.example/</a:Address></r:AcksTo>\
    </r:CreateSequence>";

// Whether a new node has one entry, and asks for its first sequence by a second one and this packet.
fn asks(peer: &mut Peer) -> Result<bool, NodeError> {
    let before = peer.entries();
    let made = peer.ask()?;
    let is_so = (before == 1) & (made.seq == 1) & (peer.entries() == 2);
    Ok(is_so & is_request(peer.alloc, &made.outs, b"CreateSequence", b"1", CREATE)?)
}

#[test]
fn a_sequence_is_asked_for(rt: HostRuntime) {
    assert!(rt; at_first(rt.alloc(), asks) == Ok(true));
}

const FIRST_SENT: &[u8] = b"<a:To>http://node2.example/</a:To><a:Action>urn:wsrm:payload</a:Action>\
    <r:Sequence s:mustUnderstand=\"true\"><r:Identifier>urn:s</r:Identifier>\
    <r:MessageNumber>1</r:MessageNumber></r:Sequence>";

// Whether a payload is sent as the first message, in this packet.
fn sends_first(peer: &mut Peer) -> Result<bool, NodeError> {
    let sent = peer.send(1, b"<p>1</p>")?;
    let is_so = (sent.number == 1) & (peer.entries() == 4);
    Ok(is_so & is_sent(peer.alloc, &sent.outs, NODE_2, FIRST_SENT, b"<p>1</p>")?)
}

// And whether the next one is the second.
fn sends_two(peer: &mut Peer) -> Result<bool, NodeError> {
    peer.open()?;
    let is_so = sends_first(peer)?;
    Ok(is_so & (peer.accept(1, b"<p>2</p>")? == 2))
}

#[test]
fn a_payload_is_sent(rt: HostRuntime) {
    assert!(rt; at_first(rt.alloc(), sends_two) == Ok(true));
}

const CLOSE: &[u8] = b"<r:CloseSequence><r:Identifier>urn:s</r:Identifier>\
    <r:LastMsgNumber>1</r:LastMsgNumber></r:CloseSequence>";

// Closes a sequence of one message: whether that sends this packet, and in which phase it is then.
fn closes(peer: &mut Peer) -> Result<(bool, Option<OutPhase>), NodeError> {
    peer.open_and_send()?;
    let outs = peer.close(1)?;
    let is_so = is_request(peer.alloc, &outs, b"CloseSequence", b"2", CLOSE)?;
    Ok((is_so, peer.out_phase(1)))
}

#[test]
fn a_sequence_is_closed(rt: HostRuntime) {
    assert!(rt; at_first(rt.alloc(), closes) == Ok((true, Some(OutPhase::Closing))));
}

const END: &[u8] = b"<r:TerminateSequence><r:Identifier>urn:s</r:Identifier></r:TerminateSequence>";

// Ends a sequence: whether that sends this packet, and in which phase it is then.
fn ends(peer: &mut Peer) -> Result<(bool, Option<OutPhase>), NodeError> {
    peer.open()?;
    let outs = peer.end(1)?;
    let is_so = is_request(peer.alloc, &outs, b"TerminateSequence", b"2", END)?;
    Ok((is_so, peer.out_phase(1)))
}

#[test]
fn a_sequence_is_ended(rt: HostRuntime) {
    assert!(rt; at_first(rt.alloc(), ends) == Ok((true, Some(OutPhase::Ending))));
}

const RESPONSE: &[u8] = b"<a:To>http://node1.example/</a:To>\
    <a:Action>http://docs.oasis-open.org/ws-rx/wsrm/200702/CreateSequenceResponse</a:Action>\
    <a:RelatesTo>urn:m</a:RelatesTo>";

const GRANT: &[u8] = b"<r:CreateSequenceResponse>\
    <r:Identifier>urn:uuid:00000000-0000-8002-8000-000000000001</r:Identifier><r:Expires>PT1S</r:Expires>\
    <r:IncompleteSequenceBehavior>DiscardEntireSequence</r:IncompleteSequenceBehavior></r:CreateSequenceResponse>";

// A request with the message id `urn:m` comes to node 2.
fn asked(peer: &mut Peer) -> Result<Reaction, NodeError> {
    let text = request(peer.alloc, b"urn:m", b"<r:Expires>PT1S</r:Expires>")?;
    peer.take(text.as_slice())
}

// Whether a request is granted by this packet alone, and the node has two entries and a sequence then.
fn grants(peer: &mut Peer) -> Result<bool, NodeError> {
    let reaction = asked(peer)?;
    let is_so = (reaction.verdict == None) & reaction.reply.is_none();
    let is_left = (peer.entries() == 2) & (peer.sequences() == 1);
    Ok(is_so & is_left & is_sent(peer.alloc, &reaction.outs, NODE_1, RESPONSE, GRANT)?)
}

// The node grants sequences from now on that are discarded where they have a gap: whether it tells so.
fn announces(peer: &mut Peer) -> bool {
    peer.node.set_grant(Behaviour::EntireSequence);
    peer.node.granted() == Behaviour::EntireSequence
}

// Whether it tells so, and grants the request both times that it comes.
fn grants_twice(peer: &mut Peer) -> Result<(bool, bool, bool), NodeError> {
    let is_told = announces(peer);
    let first = grants(peer)?;
    let second = grants(peer)?;
    Ok((is_told, first, second))
}

// A request that comes again gets the same response, and makes no second sequence.
#[test]
fn a_sequence_is_granted(rt: HostRuntime) {
    assert!(rt; at_second(rt.alloc(), grants_twice) == Ok((true, true, true)));
}

// Whether one packet goes to node 1: what node 2 received of its first incoming sequence.
fn is_acknowledgement(alloc: Global, outs: &Outs, received: &[u8]) -> Result<bool, Memory> {
    let blocks = joined(
        alloc,
        &[
            b"<a:To>http://node1.example/</a:To>\
              <a:Action>http://docs.oasis-open.org/ws-rx/wsrm/200702/SequenceAcknowledgement</a:Action>\
              <r:SequenceAcknowledgement><r:Identifier>urn:uuid:00000000-0000-8002-8000-000000000001</r:Identifier>",
            received,
            b"</r:SequenceAcknowledgement>",
        ],
    )?;
    is_sent(alloc, outs, NODE_1, blocks.as_slice(), b"")
}

const FIRST: &[u8] = b"<r:AcknowledgementRange Lower=\"1\" Upper=\"1\"/>";

const FIRST_AND_THIRD: &[u8] =
    b"<r:AcknowledgementRange Lower=\"1\" Upper=\"1\"/><r:AcknowledgementRange Lower=\"3\" Upper=\"3\"/>";

// What comes in turn: the number as it is written, what is acknowledged then, and how many entries there are.
const NUMBERS: [(&[u8], &[u8], u64); 4] = [
    (b"1", FIRST, 3),
    (b"1", FIRST, 3),
    (b"3", FIRST_AND_THIRD, 4),
    (b"1", FIRST_AND_THIRD, 4),
];

// Whether a message with this number comes to what its row says.
fn takes(peer: &mut Peer, row: &(&[u8], &[u8], u64)) -> Result<bool, NodeError> {
    let (number, received, entries) = row;
    let reaction = peer.take_number(number)?;
    let is_so = (reaction.verdict == None) & (peer.entries() == *entries);
    Ok(is_so & is_acknowledgement(peer.alloc, &reaction.outs, received)?)
}

// How many of those come out right, up to the first that does not, and how many messages are in the inbox then.
fn takes_all(peer: &mut Peer) -> Result<(usize, Option<u64>), NodeError> {
    peer.be_asked()?;
    for (i, row) in NUMBERS.iter().enumerate() {
        if !takes(peer, row)? {
            return Ok((i, peer.inbox_len(1)));
        }
    }
    Ok((NUMBERS.len(), peer.inbox_len(1)))
}

// A message that comes again is acknowledged and is in the inbox once.
#[test]
fn a_message_is_received(rt: HostRuntime) {
    assert!(rt; at_second(rt.alloc(), takes_all) == Ok((4, Some(1))));
}

// Closes an incoming sequence: whether that sends the final acknowledgement, and how many entries there are then.
fn closes_incoming(peer: &mut Peer) -> Result<(bool, u64), NodeError> {
    peer.be_asked()?;
    let outs = peer.close(1)?;
    let is_so = is_acknowledgement(peer.alloc, &outs, b"<r:None/><r:Final/>")?;
    Ok((is_so, peer.entries()))
}

#[test]
fn an_incoming_sequence_is_closed(rt: HostRuntime) {
    assert!(rt; at_second(rt.alloc(), closes_incoming) == Ok((true, 3)));
}

// The verdict on a message that comes after that, and how many entries there are then.
fn takes_no_more(peer: &mut Peer) -> Result<(Option<FaultKind>, u64), NodeError> {
    closes_incoming(peer)?;
    let verdict = peer.judge_number(b"1")?;
    Ok((verdict, peer.entries()))
}

#[test]
fn an_incoming_sequence_that_is_closed(rt: HostRuntime) {
    let closed = Some(FaultKind::SequenceClosed);
    assert!(rt; at_second(rt.alloc(), takes_no_more) == Ok((closed, 3)));
}

// A moment comes: how many packets are handed out, how many entries there are, and in which phase the sequence is.
fn tick(peer: &mut Peer, now: u64) -> Result<(usize, u64, Option<InPhase>), NodeError>
    requires { now ≤ now_max }
{
    let count = peer.tick(now)?;
    Ok((count, peer.entries(), peer.in_phase(1)))
}

// Whether a sequence ends as its second is over.
fn runs_out(peer: &mut Peer) -> Result<(bool, bool), NodeError> {
    peer.be_asked()?;
    let is_open = tick(peer, 999)? == (0, 2, Some(InPhase::Open));
    let is_ended = tick(peer, 1000)? == (0, 3, Some(InPhase::Ended));
    Ok((is_open, is_ended))
}

#[test]
fn the_time_of_a_sequence_runs_out(rt: HostRuntime) {
    assert!(rt; at_second(rt.alloc(), runs_out) == Ok((true, true)));
}

// A node that announced another behaviour and asked for a sequence is found again.
fn is_found(peer: &mut Peer) -> Result<(), NodeError> {
    announces(peer);
    peer.create()?;
    peer.find_again()
}

// What it announces then, and whether it is down.
fn told(peer: &mut Peer) -> Result<(Behaviour, bool), NodeError> {
    is_found(peer)?;
    Ok((peer.node.granted(), peer.node.is_down()))
}

// What a node announces isn't on its disk.
#[test]
fn what_is_announced_is_not_found_again(rt: HostRuntime) {
    assert!(rt; at_first(rt.alloc(), told) == Ok((Behaviour::FollowingFirstGap, false)));
}

// The sequence is granted then, and a payload is sent: its number, and how many entries there are.
fn first_sent(peer: &mut Peer) -> Result<(u64, u64), NodeError> {
    is_found(peer)?;
    peer.be_granted(FIRST_OF_1, b"urn:s")?;
    let number = peer.accept(1, b"<p/>")?;
    Ok((number, peer.entries()))
}

// It is found again, and a second payload is sent: its number, and how many messages wait for an acknowledgement.
fn next_sent(peer: &mut Peer) -> Result<(u64, u64), NodeError> {
    peer.find_again()?;
    let number = peer.accept(1, b"<p/>")?;
    Ok((number, peer.unacked()))
}

fn both_sent(peer: &mut Peer) -> Result<((u64, u64), (u64, u64)), NodeError> {
    let first = first_sent(peer)?;
    Ok((first, next_sent(peer)?))
}

#[test]
fn a_node_is_found_again(rt: HostRuntime) {
    assert!(rt; at_first(rt.alloc(), both_sent) == Ok(((1, 4), (2, 2))));
}
