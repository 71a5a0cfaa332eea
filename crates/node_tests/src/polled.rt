//! Messages that wait for peers that nobody can reach, until they are polled for: WS-MakeConnection 1.1.
use crate::peer::{NODE_2, Peer, at_first, at_second, is_packet};
use crate::texts::{envelope, joined};
use http_endpoint::Media;
use rm_answer::reply_to;
use rm_base::{Blob, Memory, Uri};
use rm_message::FaultKind;
use rm_node::{NodeError, Reaction};
use std::alloc::Global;

const ONE: &[u8] = b"http://docs.oasis-open.org/ws-rx/wsmc/200702/anonymous?id=1";

// An address that the first one begins with, and one that begins with it.
const NONE: &[u8] = b"http://docs.oasis-open.org/ws-rx/wsmc/200702/anonymous?id=";

const ONE_MORE: &[u8] = b"http://docs.oasis-open.org/ws-rx/wsmc/200702/anonymous?id=11";

// A message of no sequence of ours, whose fault goes to the first address.
const STRANGE: &[u8] = b"<a:To>http://node2.example/</a:To><a:Action>urn:wsrm:payload</a:Action>\
    <a:FaultTo><a:Address>http://docs.oasis-open.org/ws-rx/wsmc/200702/anonymous?id=1</a:Address></a:FaultTo>\
    <r:Sequence s:mustUnderstand=\"true\"><r:Identifier>urn:x</r:Identifier><r:MessageNumber>1</r:MessageNumber>\
    </r:Sequence>";

const UNKNOWN: &[u8] = b"<s:Fault><s:Code><s:Value>s:Sender</s:Value><s:Subcode><s:Value \
    xmlns:q=\"http://docs.oasis-open.org/ws-rx/wsrm/200702\">q:UnknownSequence</s:Value></s:Subcode></s:Code>\
    <s:Reason><s:Text xml:lang=\"en\">UnknownSequence</s:Text></s:Reason><s:Detail><n:Identifier \
    xmlns:n=\"http://docs.oasis-open.org/ws-rx/wsrm/200702\">urn:x</n:Identifier></s:Detail></s:Fault>";

const UNKNOWN_TO: &[u8] =
    b"<a:To>http://docs.oasis-open.org/ws-rx/wsmc/200702/anonymous?id=1</a:To>\
    <a:Action>http://docs.oasis-open.org/ws-rx/wsrm/200702/fault</a:Action>";

const NO_MORE: &[u8] = b"<c:MessagePending pending=\"false\"/>";

const MORE: &[u8] = b"<c:MessagePending pending=\"true\"/>";

// A strange message comes, and its fault is to wait: the verdict, and whether nothing goes out.
fn wait(peer: &mut Peer) -> Result<(Option<FaultKind>, bool), NodeError> {
    let text = envelope(peer.alloc, STRANGE, b"<p/>")?;
    let reaction = peer.take(text.as_slice())?;
    let is_silent = reaction.reply.is_none() & reaction.outs.is_empty();
    Ok((reaction.verdict, is_silent))
}

// A MakeConnection with this content and these blocks beside.
fn make(peer: &mut Peer, blocks: &[u8], selection: &[u8]) -> Result<Reaction, NodeError> {
    let header = joined(
        peer.alloc,
        &[
            b"<a:To>http://node2.example/</a:To>\
              <a:Action>http://docs.oasis-open.org/ws-rx/wsmc/200702/MakeConnection</a:Action>",
            blocks,
        ],
    )?;
    let body = joined(
        peer.alloc,
        &[b"<c:MakeConnection>", selection, b"</c:MakeConnection>"],
    )?;
    let text = envelope(peer.alloc, header.as_slice(), body.as_slice())?;
    peer.take(text.as_slice())
}

// One for what waits for an address.
fn poll_with(peer: &mut Peer, blocks: &[u8], address: &[u8]) -> Result<Reaction, NodeError> {
    let selection = joined(peer.alloc, &[b"<c:Address>", address, b"</c:Address>"])?;
    make(peer, blocks, selection.as_slice())
}

fn poll(peer: &mut Peer, address: &[u8]) -> Result<Reaction, NodeError> {
    poll_with(peer, b"", address)
}

// Whether a reaction is no fault and hands out nothing, and its reply, if there is one, is the fault that waits, with
// these blocks.
fn is_given(alloc: Global, reaction: &Reaction, blocks: &[u8]) -> Result<bool, Memory> {
    let header = joined(alloc, &[UNKNOWN_TO, blocks])?;
    let text = envelope(alloc, header.as_slice(), UNKNOWN)?;
    match &reaction.reply {
        Some(reply) => Ok(
            reply.as_slice() == text.as_slice()
                && reaction.verdict == None
                && reaction.outs.is_empty(),
        ),
        None => Ok(false),
    }
}

// Whether nothing is given, which is no fault.
fn is_nothing(reaction: &Reaction) -> bool {
    reaction.reply.is_none() & (reaction.verdict == None) & reaction.outs.is_empty()
}

// Whether a poll for the first address is given the fault that waits, behind which there is no more.
fn gives(peer: &mut Peer) -> Result<bool, NodeError> {
    let reaction = poll(peer, ONE)?;
    Ok(is_given(peer.alloc, &reaction, NO_MORE)?)
}

// Whether a poll for an address is given nothing.
fn gives_nothing(peer: &mut Peer, address: &[u8]) -> Result<bool, NodeError> {
    let reaction = poll(peer, address)?;
    Ok(is_nothing(&reaction))
}

// A fault waits: whether a poll for its address is given it, and the next one nothing.
fn is_given_once(peer: &mut Peer) -> Result<((Option<FaultKind>, bool), bool, bool), NodeError> {
    let waits = wait(peer)?;
    let is_first = gives(peer)?;
    Ok((waits, is_first, gives_nothing(peer, ONE)?))
}

#[test]
fn a_fault_waits_and_is_given_once(rt: HostRuntime) {
    let waits = (Some(FaultKind::UnknownSequence), true);
    assert!(rt; at_second(rt.alloc(), is_given_once) == Ok((waits, true, true)));
}

// The status with which a reaction goes back over HTTP.
fn status(alloc: Global, reaction: Reaction) -> u16 {
    reply_to(alloc, reaction.verdict, reaction.reply, Media::Soap12).status
}

// The status of a message whose fault waits.
fn strange_status(peer: &mut Peer) -> Result<u16, NodeError> {
    let text = envelope(peer.alloc, STRANGE, b"<p/>")?;
    let refused = peer.take(text.as_slice())?;
    Ok(status(peer.alloc, refused))
}

// The status of a poll.
fn poll_status(peer: &mut Peer) -> Result<u16, NodeError> {
    let given = poll(peer, ONE)?;
    Ok(status(peer.alloc, given))
}

// The status of a message whose fault waits, of the poll that is given the fault, and of the next one.
fn statuses(peer: &mut Peer) -> Result<(u16, u16, u16), NodeError> {
    let refused = strange_status(peer)?;
    let given = poll_status(peer)?;
    Ok((refused, given, poll_status(peer)?))
}

#[test]
fn a_fault_is_given_with_the_status_of_a_reply(rt: HostRuntime) {
    assert!(rt; at_second(rt.alloc(), statuses) == Ok((202, 200, 202)));
}

// Whether polls for other addresses, which begin alike, are given nothing, and what waits is there still.
fn is_for_its_address(peer: &mut Peer) -> Result<(bool, bool), NodeError> {
    wait(peer)?;
    let is_shorter = gives_nothing(peer, NONE)?;
    let is_longer = gives_nothing(peer, ONE_MORE)?;
    Ok((is_shorter & is_longer, gives(peer)?))
}

#[test]
fn addresses_that_begin_alike(rt: HostRuntime) {
    assert!(rt; at_second(rt.alloc(), is_for_its_address) == Ok((true, true)));
}

// How many of so many polls are given a fault behind which more wait, and how many the last one.
fn given(peer: &mut Peer, polls: u32) -> Result<(u32, u32), NodeError> {
    let (mut more, mut last) = (0u32, 0u32);
    for _ in 0..polls {
        let reaction = poll(peer, ONE)?;
        if is_given(peer.alloc, &reaction, MORE)? {
            more = more.saturating_add(1);
        }
        if is_given(peer.alloc, &reaction, NO_MORE)? {
            last = last.saturating_add(1);
        }
    }
    Ok((more, last))
}

// What is given where 65 were to wait.
fn given_of_many(peer: &mut Peer) -> Result<(u32, u32), NodeError> {
    for _ in 0..65 {
        wait(peer)?;
    }
    given(peer, 66)
}

#[test]
fn sixty_four_wait_and_no_more(rt: HostRuntime) {
    assert!(rt; at_second(rt.alloc(), given_of_many) == Ok((63, 1)));
}

// Whether nothing is given once the node was found on its disk again.
fn is_lost(peer: &mut Peer) -> Result<bool, NodeError> {
    wait(peer)?;
    peer.find_again()?;
    gives_nothing(peer, ONE)
}

#[test]
fn what_waits_is_lost_at_a_mount(rt: HostRuntime) {
    assert!(rt; at_second(rt.alloc(), is_lost) == Ok(true));
}

// A request whose acknowledgements go back on the connection.
const BACK: &[u8] = b"<a:To>http://node2.example/</a:To>\
    <a:Action>http://docs.oasis-open.org/ws-rx/wsrm/200702/CreateSequence</a:Action><a:MessageID>urn:m</a:MessageID>";

const BACK_BODY: &[u8] = b"<r:CreateSequence><r:AcksTo>\
    <a:Address>http://www.w3.org/2005/08/addressing/anonymous</a:Address></r:AcksTo></r:CreateSequence>";

const ASKING: &[u8] = b"<r:AckRequested>\
    <r:Identifier>urn:uuid:00000000-0000-8002-8000-000000000001</r:Identifier></r:AckRequested>";

const ACK_AND_NO_MORE: &[u8] = b"<r:SequenceAcknowledgement>\
    <r:Identifier>urn:uuid:00000000-0000-8002-8000-000000000001</r:Identifier><r:None/></r:SequenceAcknowledgement>\
    <c:MessagePending pending=\"false\"/>";

// Whether an acknowledgement that goes back on the connection stands in the message that is given.
fn is_given_with_acks(peer: &mut Peer) -> Result<bool, NodeError> {
    let text = envelope(peer.alloc, BACK, BACK_BODY)?;
    peer.take(text.as_slice())?;
    wait(peer)?;
    let reaction = poll_with(peer, ASKING, ONE)?;
    Ok(is_given(peer.alloc, &reaction, ACK_AND_NO_MORE)?)
}

#[test]
fn acknowledgements_beside_what_is_given(rt: HostRuntime) {
    assert!(rt; at_second(rt.alloc(), is_given_with_acks) == Ok(true));
}

const REFUSED: &[u8] = b"<a:To>http://www.w3.org/2005/08/addressing/anonymous</a:To>\
    <a:Action>http://docs.oasis-open.org/ws-rx/wsmc/200702/fault</a:Action>";

// The fault of a selection, up to its name.
const REFUSED_START: &[u8] = b"<s:Fault><s:Code><s:Value>s:Receiver</s:Value><s:Subcode><s:Value \
    xmlns:q=\"http://docs.oasis-open.org/ws-rx/wsmc/200702\">q:";

// The fault of a selection with this name.
fn refusal(alloc: Global, name: &[u8]) -> Result<Blob, Memory> {
    let body = joined(
        alloc,
        &[
            REFUSED_START,
            name,
            b"</s:Value></s:Subcode></s:Code><s:Reason><s:Text xml:lang=\"en\">",
            name,
            b"</s:Text></s:Reason></s:Fault>",
        ],
    )?;
    envelope(alloc, REFUSED, body.as_slice())
}

// Whether the reply of a reaction is this text.
fn is_replied(reaction: &Reaction, text: &[u8]) -> bool {
    match &reaction.reply {
        Some(reply) => reply.as_slice() == text,
        None => false,
    }
}

// The verdict on a MakeConnection with this content, and whether the fault with this name goes back.
fn judged(
    peer: &mut Peer,
    selection: &[u8],
    name: &[u8],
) -> Result<(Option<FaultKind>, bool), NodeError> {
    let text = refusal(peer.alloc, name)?;
    let reaction = make(peer, b"", selection)?;
    Ok((reaction.verdict, is_replied(&reaction, text.as_slice())))
}

// That, and whether it takes nothing out of what waits.
fn refused(
    peer: &mut Peer,
    selection: &[u8],
    name: &[u8],
) -> Result<(Option<FaultKind>, bool, bool), NodeError> {
    wait(peer)?;
    let (verdict, is_so) = judged(peer, selection, name)?;
    Ok((verdict, is_so, gives(peer)?))
}

// None is selected.
fn refused_empty(peer: &mut Peer) -> Result<(Option<FaultKind>, bool, bool), NodeError> {
    refused(peer, b"", b"MissingSelection")
}

// Something else is, beside the address of what waits.
fn refused_other(peer: &mut Peer) -> Result<(Option<FaultKind>, bool, bool), NodeError> {
    refused(
        peer,
        b"<c:Address>http://docs.oasis-open.org/ws-rx/wsmc/200702/anonymous?id=1</c:Address><c:Other/>",
        b"UnsupportedSelection",
    )
}

#[test]
fn selections_that_are_refused(rt: HostRuntime) {
    let missing = Some(FaultKind::MissingSelection);
    let unsupported = Some(FaultKind::UnsupportedSelection);
    assert!(rt; at_second(rt.alloc(), refused_empty) == Ok((missing, true, true)));
    assert!(rt; at_second(rt.alloc(), refused_other) == Ok((unsupported, true, true)));
}

const ASKED: &[u8] = b"<a:To>http://node2.example/</a:To>\
    <a:Action>http://docs.oasis-open.org/ws-rx/wsmc/200702/MakeConnection</a:Action>";

const ASKED_BODY: &[u8] = b"<c:MakeConnection><c:Address>\
    http://docs.oasis-open.org/ws-rx/wsmc/200702/anonymous?id=00000000-0000-8001-8000-000000000000</c:Address>\
    </c:MakeConnection>";

// An address.
fn uri(alloc: Global, bytes: &[u8]) -> Result<Uri, NodeError> {
    match Uri::from_slice(alloc, bytes) {
        Ok(address) => Ok(address),
        Err(_) => Err(NodeError::Memory),
    }
}

// Whether node 1 asks node 2 by its own address, and makes no entry.
fn is_asked(peer: &mut Peer) -> Result<(bool, u64), NodeError> {
    let to = uri(peer.alloc, NODE_2)?;
    let outs = peer.node.poll(&mut peer.disk, to)?;
    let text: Blob = envelope(peer.alloc, ASKED, ASKED_BODY)?;
    Ok((
        is_packet(outs.as_slice(), NODE_2, text.as_slice()),
        peer.entries(),
    ))
}

#[test]
fn a_node_asks_for_what_waits(rt: HostRuntime) {
    assert!(rt; at_first(rt.alloc(), is_asked) == Ok((true, 1)));
}
