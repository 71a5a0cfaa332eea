//! Messages that are answered with a fault, and some that are at the edge of it.
use crate::peer::{NODE_1, Peer, at_first, at_second, is_handed};
use crate::texts::{FIRST_OF_2, acknowledgement, envelope, message};
use rm_base::Memory;
use rm_message::FaultKind;
use rm_node::{NodeError, Reaction};
use std::alloc::Global;

const PAST: &[u8] = b"<r:SequenceAcknowledgement><r:Identifier>urn:s</r:Identifier>\
    <r:AcknowledgementRange Lower=\"1\" Upper=\"2\"/><r:AcknowledgementRange Lower=\"9\" Upper=\"9\"/>\
    </r:SequenceAcknowledgement>";

// Node 1 sends four payloads.
fn send_four(peer: &mut Peer) -> Result<(), NodeError> {
    peer.open()?;
    for _ in 0..4 {
        peer.accept(1, b"<p/>")?;
    }
    Ok(())
}

// How many ranges are acknowledged of the first sequence, and how many messages wait for an acknowledgement.
fn acked(peer: &Peer) -> Option<(usize, u64)> {
    let outgoing = peer.node.tables().outgoing(1)?;
    Some((outgoing.acked().ranges().len(), outgoing.unacked()))
}

// It sends them, and an acknowledgement past what was accepted comes.
fn take_past(peer: &mut Peer) -> Result<Reaction, NodeError> {
    send_four(peer)?;
    let text = acknowledgement(peer.alloc, PAST)?;
    peer.take(text.as_slice())
}

// How many entries there are as it has sent them.
fn entries_of_four(peer: &mut Peer) -> Result<u64, NodeError> {
    send_four(peer)?;
    Ok(peer.entries())
}

// The verdict on the acknowledgement, how many entries there are then, and what is acknowledged.
fn past_taken(
    peer: &mut Peer,
) -> Result<(Option<FaultKind>, u64, Option<(usize, u64)>), NodeError> {
    let reaction = take_past(peer)?;
    Ok((reaction.verdict, peer.entries(), acked(peer)))
}

#[test]
fn an_acknowledgement_past_what_was_accepted(rt: HostRuntime) {
    let invalid = Some(FaultKind::InvalidAcknowledgement);
    assert!(rt; at_first(rt.alloc(), entries_of_four) == Ok(7));
    assert!(rt; at_first(rt.alloc(), past_taken) == Ok((invalid, 7, Some((0, 4)))));
}

// Whether the reply, and nothing else, is this text.
fn is_reply_of(reaction: &Reaction, text: &[u8]) -> bool {
    match &reaction.reply {
        Some(reply) => reply.as_slice() == text && reaction.outs.is_empty(),
        None => false,
    }
}

// Whether the reply, and nothing else, is the envelope with these blocks and this body.
fn is_reply(
    alloc: Global,
    reaction: &Reaction,
    blocks: &[u8],
    body: &[u8],
) -> Result<bool, Memory> {
    let text = envelope(alloc, blocks, body)?;
    Ok(is_reply_of(reaction, text.as_slice()))
}

const PAST_BLOCKS: &[u8] = b"<a:To>http://www.w3.org/2005/08/addressing/anonymous</a:To>\
    <a:Action>http://docs.oasis-open.org/ws-rx/wsrm/200702/fault</a:Action>";

const PAST_FAULT: &[u8] = b"<s:Fault><s:Code><s:Value>s:Sender</s:Value><s:Subcode>\
    <s:Value xmlns:q=\"http://docs.oasis-open.org/ws-rx/wsrm/200702\">q:InvalidAcknowledgement</s:Value></s:Subcode>\
    </s:Code><s:Reason><s:Text xml:lang=\"en\">InvalidAcknowledgement</s:Text></s:Reason><s:Detail>\
    <n:SequenceAcknowledgement xmlns:n=\"http://docs.oasis-open.org/ws-rx/wsrm/200702\">\
    <n:Identifier xmlns:n=\"http://docs.oasis-open.org/ws-rx/wsrm/200702\">urn:s</n:Identifier>\
    <n:AcknowledgementRange xmlns:n=\"http://docs.oasis-open.org/ws-rx/wsrm/200702\" Lower=\"1\" Upper=\"2\">\
    </n:AcknowledgementRange>\
    <n:AcknowledgementRange xmlns:n=\"http://docs.oasis-open.org/ws-rx/wsrm/200702\" Lower=\"9\" Upper=\"9\">\
    </n:AcknowledgementRange></n:SequenceAcknowledgement></s:Detail></s:Fault>";

// Whether it is given back.
fn gives_back(peer: &mut Peer) -> Result<bool, NodeError> {
    let reaction = take_past(peer)?;
    Ok(is_reply(peer.alloc, &reaction, PAST_BLOCKS, PAST_FAULT)?)
}

#[test]
fn an_invalid_acknowledgement_is_given_back(rt: HostRuntime) {
    assert!(rt; at_first(rt.alloc(), gives_back) == Ok(true));
}

// The acknowledgement that node 2 sends to node 1 where it has received nothing.
const NOTHING: &[u8] = b"<a:To>http://node1.example/</a:To>\
    <a:Action>http://docs.oasis-open.org/ws-rx/wsrm/200702/SequenceAcknowledgement</a:Action>\
    <r:SequenceAcknowledgement><r:Identifier>urn:uuid:00000000-0000-8002-8000-000000000001</r:Identifier>\
    <r:None/></r:SequenceAcknowledgement>";

const GREATEST: &[u8] = b"9223372036854775807";

// Whether a message with the greatest number is taken for none: that acknowledgement alone is handed out.
fn is_for_none(peer: &mut Peer) -> Result<bool, NodeError> {
    let reaction = peer.take_number(GREATEST)?;
    let known = envelope(peer.alloc, NOTHING, b"")?;
    Ok((reaction.verdict == None) & is_handed(&reaction, NODE_1, known.as_slice()))
}

// How many entries there are before it comes, whether it is, and how many there are then.
fn greatest_taken(peer: &mut Peer) -> Result<(u64, bool, u64), NodeError> {
    peer.be_asked()?;
    let entries = peer.entries();
    let is_so = is_for_none(peer)?;
    Ok((entries, is_so, peer.entries()))
}

#[test]
fn the_greatest_number_of_all(rt: HostRuntime) {
    assert!(rt; at_second(rt.alloc(), greatest_taken) == Ok((2, true, 2)));
}

// A message with this number comes: the verdict, and how many entries there are.
fn judged_number(peer: &mut Peer, number: &[u8]) -> Result<(Option<FaultKind>, u64), NodeError> {
    let verdict = peer.judge_number(number)?;
    Ok((verdict, peer.entries()))
}

// Whether a number that is too great and one that is too small are told apart, one after the other, and make no entry.
fn judges_numbers(peer: &mut Peer) -> Result<(bool, bool), NodeError> {
    peer.be_asked()?;
    let great = judged_number(peer, b"9223372036854775808")?;
    let small = judged_number(peer, b"0")?;
    let is_great = great == (Some(FaultKind::Rollover), 2);
    Ok((is_great, small == (Some(FaultKind::Malformed), 2)))
}

#[test]
fn numbers_that_are_none(rt: HostRuntime) {
    assert!(rt; at_second(rt.alloc(), judges_numbers) == Ok((true, true)));
}

// Node 2 grants a sequence, and a message with a further block comes for it.
fn with_block(peer: &mut Peer, block: &[u8]) -> Result<Reaction, NodeError> {
    peer.be_asked()?;
    let text = message(peer.alloc, FIRST_OF_2, b"07", block)?;
    peer.take(text.as_slice())
}

const UNKNOWN: &[u8] = b"<x:h xmlns:x=\"urn:x\" S:mustUnderstand=\"1\"/>";

const UNKNOWN_BLOCKS: &[u8] = b"<a:To>http://www.w3.org/2005/08/addressing/anonymous</a:To>\
    <a:Action>http://www.w3.org/2005/08/addressing/soap/fault</a:Action>\
    <s:NotUnderstood qname=\"q:h\" xmlns:q=\"urn:x\"/>";

const UNKNOWN_FAULT: &[u8] = b"<s:Fault><s:Code><s:Value>s:MustUnderstand</s:Value></s:Code>\
    <s:Reason><s:Text xml:lang=\"en\">NotUnderstood</s:Text></s:Reason></s:Fault>";

// Whether a block that is not understood is answered with its fault, and how many entries there are then.
fn unknown_taken(peer: &mut Peer) -> Result<(bool, u64), NodeError> {
    let reaction = with_block(peer, UNKNOWN)?;
    let is_judged = reaction.verdict == Some(FaultKind::NotUnderstood);
    let is_replied = is_reply(peer.alloc, &reaction, UNKNOWN_BLOCKS, UNKNOWN_FAULT)?;
    Ok((is_judged & is_replied, peer.entries()))
}

#[test]
fn a_block_that_is_not_understood(rt: HostRuntime) {
    assert!(rt; at_second(rt.alloc(), unknown_taken) == Ok((true, 2)));
}

const OPTIONAL: &[u8] = b"<x:h xmlns:x=\"urn:x\" S:mustUnderstand=\"0\"/>";

// The verdict on a message with a block that need not be understood, and how many entries there are then.
fn optional_taken(peer: &mut Peer) -> Result<(Option<FaultKind>, u64), NodeError> {
    let reaction = with_block(peer, OPTIONAL)?;
    Ok((reaction.verdict, peer.entries()))
}

#[test]
fn a_block_that_need_not_be_understood(rt: HostRuntime) {
    assert!(rt; at_second(rt.alloc(), optional_taken) == Ok((None, 3)));
}

// The verdict on bytes that are no message, whether there is a reply, and how many entries there are then.
fn tag_taken(peer: &mut Peer) -> Result<(Option<FaultKind>, bool, u64), NodeError> {
    let reaction = peer.take(b"<a>")?;
    Ok((reaction.verdict, reaction.reply.is_some(), peer.entries()))
}

#[test]
fn bytes_that_are_no_message(rt: HostRuntime) {
    let refused = Some(FaultKind::NotProfile);
    assert!(rt; at_first(rt.alloc(), tag_taken) == Ok((refused, true, 1)));
}
