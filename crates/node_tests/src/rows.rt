//! Messages that do two things at once, and where what a node says to them goes.
use crate::peer::{Peer, at_first, at_second};
use crate::texts::{FIRST_OF_2, envelope, joined, message};
use rm_base::{Blob, Memory};
use rm_message::FaultKind;
use rm_node::{NodeError, Reaction};
use rm_sides::source::OutPhase;
use std::alloc::Global;

const SECOND_OF_1: &[u8] = b"urn:uuid:00000000-0000-8001-8000-000000000002";

const SECOND_OF_2: &[u8] = b"urn:uuid:00000000-0000-8002-8000-000000000002";

// Whether the reply, and nothing else, is the envelope with these blocks and this body.
fn is_reply(
    alloc: Global,
    reaction: &Reaction,
    blocks: &[u8],
    body: &[u8],
) -> Result<bool, Memory> {
    let text = envelope(alloc, blocks, body)?;
    match &reaction.reply {
        Some(reply) => Ok(reply.as_slice() == text.as_slice() && reaction.outs.is_empty()),
        None => Ok(false),
    }
}

// A request whose response and acknowledgements go back on the connection.
const BACK: &[u8] = b"<a:To>http://node2.example/</a:To>\
    <a:Action>http://docs.oasis-open.org/ws-rx/wsrm/200702/CreateSequence</a:Action><a:MessageID>urn:m</a:MessageID>";

const BACK_BODY: &[u8] = b"<r:CreateSequence><r:AcksTo>\
    <a:Address>http://www.w3.org/2005/08/addressing/anonymous</a:Address></r:AcksTo></r:CreateSequence>";

const ALONE: &[u8] = b"<a:To>http://www.w3.org/2005/08/addressing/anonymous</a:To>\
    <a:Action>http://docs.oasis-open.org/ws-rx/wsrm/200702/SequenceAcknowledgement</a:Action>\
    <r:SequenceAcknowledgement><r:Identifier>urn:uuid:00000000-0000-8002-8000-000000000001</r:Identifier>\
    <r:AcknowledgementRange Lower=\"1\" Upper=\"1\"/></r:SequenceAcknowledgement>";

// Another request, beside which an acknowledgement is asked for.
const ASKING: &[u8] = b"<a:To>http://node2.example/</a:To>\
    <a:Action>http://docs.oasis-open.org/ws-rx/wsrm/200702/CreateSequence</a:Action><a:MessageID>urn:n</a:MessageID>\
    <r:AckRequested><r:Identifier>urn:uuid:00000000-0000-8002-8000-000000000001</r:Identifier></r:AckRequested>";

const ASKING_BODY: &[u8] =
    b"<r:CreateSequence><r:AcksTo><a:Address>http://node1.example/</a:Address></r:AcksTo>\
    </r:CreateSequence>";

const BESIDE: &[u8] = b"<a:To>http://www.w3.org/2005/08/addressing/anonymous</a:To>\
    <a:Action>http://docs.oasis-open.org/ws-rx/wsrm/200702/CreateSequenceResponse</a:Action>\
    <a:RelatesTo>urn:n</a:RelatesTo>\
    <r:SequenceAcknowledgement><r:Identifier>urn:uuid:00000000-0000-8002-8000-000000000001</r:Identifier>\
    <r:AcknowledgementRange Lower=\"1\" Upper=\"1\"/></r:SequenceAcknowledgement>";

const BESIDE_BODY: &[u8] = b"<r:CreateSequenceResponse>\
    <r:Identifier>urn:uuid:00000000-0000-8002-8000-000000000002</r:Identifier>\
    <r:IncompleteSequenceBehavior>DiscardFollowingFirstGap</r:IncompleteSequenceBehavior>\
    </r:CreateSequenceResponse>";

// An envelope comes.
fn take(peer: &mut Peer, blocks: &[u8], body: &[u8]) -> Result<Reaction, NodeError> {
    let text = envelope(peer.alloc, blocks, body)?;
    peer.take(text.as_slice())
}

// Whether the acknowledgement of a message is the reply, where nothing else goes back.
fn is_acked_alone(peer: &mut Peer) -> Result<bool, NodeError> {
    take(peer, BACK, BACK_BODY)?;
    let reaction = peer.take_number(b"1")?;
    Ok(is_reply(peer.alloc, &reaction, ALONE, b"")?)
}

// Whether one that is asked for beside a request stands in the response, where that goes back.
fn is_acked_beside(peer: &mut Peer) -> Result<bool, NodeError> {
    take(peer, BACK, BACK_BODY)?;
    peer.take_number(b"1")?;
    let reaction = take(peer, ASKING, ASKING_BODY)?;
    Ok(is_reply(peer.alloc, &reaction, BESIDE, BESIDE_BODY)?)
}

#[test]
fn acknowledgements_that_go_back_on_the_connection(rt: HostRuntime) {
    assert!(rt; at_second(rt.alloc(), is_acked_alone) == Ok(true));
    assert!(rt; at_second(rt.alloc(), is_acked_beside) == Ok(true));
}

// A message of no sequence of ours, whose fault goes to this address.
fn strange(alloc: Global, to: &[u8]) -> Result<Blob, Memory> {
    let blocks = joined(
        alloc,
        &[
            b"<a:To>http://node2.example/</a:To><a:Action>urn:wsrm:payload</a:Action>\
              <a:ReplyTo><a:Address>http://node1.example/</a:Address></a:ReplyTo><a:FaultTo><a:Address>",
            to,
            b"</a:Address></a:FaultTo><r:Sequence s:mustUnderstand=\"true\"><r:Identifier>urn:x</r:Identifier>\
              <r:MessageNumber>1</r:MessageNumber></r:Sequence>",
        ],
    )?;
    envelope(alloc, blocks.as_slice(), b"<p/>")
}

// What comes of it: the verdict, whether there is a reply, and how many packets are handed out.
fn outcome(peer: &mut Peer, to: &[u8]) -> Result<(Option<FaultKind>, bool, usize), NodeError> {
    let text = strange(peer.alloc, to)?;
    let reaction = peer.take(text.as_slice())?;
    Ok((
        reaction.verdict,
        reaction.reply.is_some(),
        reaction.outs.len(),
    ))
}

fn to_nobody(peer: &mut Peer) -> Result<(Option<FaultKind>, bool, usize), NodeError> {
    outcome(peer, b"http://www.w3.org/2005/08/addressing/none")
}

fn to_who_asks(peer: &mut Peer) -> Result<(Option<FaultKind>, bool, usize), NodeError> {
    outcome(
        peer,
        b"http://docs.oasis-open.org/ws-rx/wsmc/200702/anonymous?id=1",
    )
}

fn to_an_address(peer: &mut Peer) -> Result<(Option<FaultKind>, bool, usize), NodeError> {
    outcome(peer, b"http://node3.example/")
}

#[test]
fn faults_for_nobody_and_for_one_who_asks(rt: HostRuntime) {
    let unknown = Some(FaultKind::UnknownSequence);
    assert!(rt; at_second(rt.alloc(), to_nobody) == Ok((unknown, false, 0)));
    assert!(rt; at_second(rt.alloc(), to_who_asks) == Ok((unknown, false, 0)));
    assert!(rt; at_second(rt.alloc(), to_an_address) == Ok((unknown, false, 1)));
}

// Message 1 of the sequence to a peer is acknowledged, and no other will be.
const LAST: &[u8] = b"<rm:SequenceAcknowledgement><rm:Identifier>urn:s</rm:Identifier>\
    <rm:AcknowledgementRange Lower=\"1\" Upper=\"1\"/><rm:Final/></rm:SequenceAcknowledgement>";

// Node 2 receives in one sequence, and has sent a message in another.
fn send_and_receive(peer: &mut Peer) -> Result<(), NodeError> {
    peer.be_asked()?;
    peer.create()?;
    peer.be_granted(SECOND_OF_2, b"urn:s")?;
    peer.accept(2, b"<p/>")?;
    Ok(())
}

// How many messages of the first one were received, and how many of the second wait.
fn known(peer: &Peer) -> Option<(u64, u64)> {
    let incoming = peer.node.tables().incoming(1)?;
    let outgoing = peer.node.tables().outgoing(2)?;
    Some((incoming.received().count(), outgoing.unacked()))
}

// A message comes in the one with the last acknowledgement of the other: the verdict, how many entries there are then,
// the phase of the other, and what is known.
fn last_beside(
    peer: &mut Peer,
) -> Result<(Option<FaultKind>, u64, Option<OutPhase>, Option<(u64, u64)>), NodeError> {
    send_and_receive(peer)?;
    let text = message(peer.alloc, FIRST_OF_2, b"1", LAST)?;
    let verdict = peer.judge(0, text.as_slice())?;
    Ok((verdict, peer.entries(), peer.out_phase(2), known(peer)))
}

#[test]
fn a_last_acknowledgement_beside_a_message(rt: HostRuntime) {
    let known = (None, 6, Some(OutPhase::Closed), Some((1, 0)));
    assert!(rt; at_second(rt.alloc(), last_beside) == Ok(known));
}

const FAULT: &[u8] = b"<a:To>http://node1.example/</a:To>\
    <a:Action>http://docs.oasis-open.org/ws-rx/wsrm/200702/fault</a:Action>";

const FAULT_START: &[u8] = b"<s:Fault><s:Code><s:Value>s:Sender</s:Value><s:Subcode>\
    <s:Value xmlns:q=\"http://docs.oasis-open.org/ws-rx/wsrm/200702\">q:SequenceTerminated</s:Value></s:Subcode>\
    </s:Code><s:Reason><s:Text xml:lang=\"en\">SequenceTerminated</s:Text></s:Reason><s:Detail><r:Identifier>";

// Node 1 has two sequences, and a fault comes that names this one and then the second: the phases of both.
fn named(peer: &mut Peer, first: &[u8]) -> Result<(Option<OutPhase>, Option<OutPhase>), NodeError> {
    peer.open()?;
    peer.create()?;
    peer.be_granted(SECOND_OF_1, b"urn:t")?;
    let rest = b"</r:Identifier><r:Identifier>urn:t</r:Identifier></s:Detail></s:Fault>";
    let body = joined(peer.alloc, &[FAULT_START, first, rest])?;
    take(peer, FAULT, body.as_slice())?;
    Ok((peer.out_phase(1), peer.out_phase(2)))
}

fn named_strangely(peer: &mut Peer) -> Result<(Option<OutPhase>, Option<OutPhase>), NodeError> {
    named(peer, b"urn:x")
}

fn named_both(peer: &mut Peer) -> Result<(Option<OutPhase>, Option<OutPhase>), NodeError> {
    named(peer, b"urn:s")
}

#[test]
fn a_fault_that_names_two_sequences(rt: HostRuntime) {
    let (open, failed) = (Some(OutPhase::Open), Some(OutPhase::Failed));
    assert!(rt; at_first(rt.alloc(), named_strangely) == Ok((open, failed)));
    assert!(rt; at_first(rt.alloc(), named_both) == Ok((failed, open)));
}
