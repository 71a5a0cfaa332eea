//! Each phase of an incoming sequence, and what comes for it then.
use crate::given::{Given, text_of};
use crate::peer::{NODE_1, Peer, at_second, is_handed};
use crate::texts::{FIRST_OF_2, envelope};
use rm_message::FaultKind;
use rm_node::NodeError;
use rm_sides::destination::InPhase;
use std::alloc::Global;

// How many there are of what comes, and what each comes to: the verdict, how many entries there are behind it, and the
// phase of the sequence then, but for its deadline.
const COUNT: usize = 17;

type Row = (Given, Option<FaultKind>, u64, InPhase);

// No outgoing sequence has the identifier.
const NOT_OURS: Option<FaultKind> = Some(FaultKind::UnknownSequence);

const OVER: Option<FaultKind> = Some(FaultKind::SequenceTerminated);

const NO_MORE: Option<FaultKind> = Some(FaultKind::SequenceClosed);

const OPEN_ROWS: [Row; COUNT] = [
    (Given::Second, None, 4, InPhase::Open),
    (Given::First, None, 3, InPhase::Open),
    (Given::Create, None, 3, InPhase::Open),
    (Given::Close, None, 4, InPhase::Closed),
    (Given::End, None, 4, InPhase::Ended),
    (Given::Asked, None, 3, InPhase::Open),
    (Given::Ack, NOT_OURS, 3, InPhase::Open),
    (Given::Final, NOT_OURS, 3, InPhase::Open),
    (Given::Closed, None, 3, InPhase::Open),
    (Given::Ended, None, 3, InPhase::Open),
    (Given::Terminated, None, 3, InPhase::Open),
    (Given::Unknown, None, 3, InPhase::Open),
    (Given::Rollover, None, 3, InPhase::Open),
    (Given::Shut, None, 3, InPhase::Open),
    (Given::Refused, None, 3, InPhase::Open),
    (Given::Required, None, 3, InPhase::Open),
    (Given::Invalid, None, 3, InPhase::Open),
];

const CLOSED_ROWS: [Row; COUNT] = [
    (Given::Second, NO_MORE, 4, InPhase::Closed),
    (Given::First, None, 4, InPhase::Closed),
    (Given::Create, None, 4, InPhase::Closed),
    (Given::Close, None, 4, InPhase::Closed),
    (Given::End, None, 5, InPhase::Ended),
    (Given::Asked, None, 4, InPhase::Closed),
    (Given::Ack, NOT_OURS, 4, InPhase::Closed),
    (Given::Final, NOT_OURS, 4, InPhase::Closed),
    (Given::Closed, None, 4, InPhase::Closed),
    (Given::Ended, None, 4, InPhase::Closed),
    (Given::Terminated, None, 4, InPhase::Closed),
    (Given::Unknown, None, 4, InPhase::Closed),
    (Given::Rollover, None, 4, InPhase::Closed),
    (Given::Shut, None, 4, InPhase::Closed),
    (Given::Refused, None, 4, InPhase::Closed),
    (Given::Required, None, 4, InPhase::Closed),
    (Given::Invalid, None, 4, InPhase::Closed),
];

const ENDED_ROWS: [Row; COUNT] = [
    (Given::Second, OVER, 4, InPhase::Ended),
    (Given::First, OVER, 4, InPhase::Ended),
    (Given::Create, None, 4, InPhase::Ended),
    (Given::Close, OVER, 4, InPhase::Ended),
    (Given::End, None, 4, InPhase::Ended),
    (Given::Asked, None, 4, InPhase::Ended),
    (Given::Ack, NOT_OURS, 4, InPhase::Ended),
    (Given::Final, NOT_OURS, 4, InPhase::Ended),
    (Given::Closed, None, 4, InPhase::Ended),
    (Given::Ended, None, 4, InPhase::Ended),
    (Given::Terminated, None, 4, InPhase::Ended),
    (Given::Unknown, None, 4, InPhase::Ended),
    (Given::Rollover, None, 4, InPhase::Ended),
    (Given::Shut, None, 4, InPhase::Ended),
    (Given::Refused, None, 4, InPhase::Ended),
    (Given::Required, None, 4, InPhase::Ended),
    (Given::Invalid, None, 4, InPhase::Ended),
];

const EXPIRED_ROWS: [Row; COUNT] = [
    (Given::Second, OVER, 3, InPhase::Open),
    (Given::First, OVER, 3, InPhase::Open),
    (Given::Create, None, 3, InPhase::Open),
    (Given::Close, OVER, 3, InPhase::Open),
    (Given::End, None, 3, InPhase::Open),
    (Given::Asked, None, 3, InPhase::Open),
    (Given::Ack, NOT_OURS, 3, InPhase::Open),
    (Given::Final, NOT_OURS, 3, InPhase::Open),
    (Given::Closed, None, 3, InPhase::Open),
    (Given::Ended, None, 3, InPhase::Open),
    (Given::Terminated, None, 3, InPhase::Open),
    (Given::Unknown, None, 3, InPhase::Open),
    (Given::Rollover, None, 3, InPhase::Open),
    (Given::Shut, None, 3, InPhase::Open),
    (Given::Refused, None, 3, InPhase::Open),
    (Given::Required, None, 3, InPhase::Open),
    (Given::Invalid, None, 3, InPhase::Open),
];

// What comes for a sequence in each phase, at a moment. It lasts for a second.
const PHASES: [(InPhase, u64, &[Row]); 4] = [
    (InPhase::Open, 999, &OPEN_ROWS),
    (InPhase::Closed, 999, &CLOSED_ROWS),
    (InPhase::Ended, 999, &ENDED_ROWS),
    (InPhase::Open, 1000, &EXPIRED_ROWS),
];

// What comes for the sequence at a moment: the verdict.
fn take(peer: &mut Peer, now: u64, given: Given) -> Result<Option<FaultKind>, NodeError> {
    let text = text_of(peer.alloc, given, FIRST_OF_2)?;
    peer.judge(now, text.as_slice())
}

// A sequence is asked for, its first message comes, and then what brings it into this phase.
fn begin(peer: &mut Peer, phase: InPhase) -> Result<(), NodeError> {
    peer.be_asked()?;
    take(peer, 0, Given::First)?;
    if phase == InPhase::Closed {
        take(peer, 0, Given::Close)?;
    }
    if phase == InPhase::Ended {
        take(peer, 0, Given::End)?;
    }
    Ok(())
}

// What something comes to that comes in this phase at a moment: the verdict, how many entries there are, and the phase
// then.
fn outcome(
    peer: &mut Peer,
    phase: InPhase,
    now: u64,
    given: Given,
) -> Result<(Option<FaultKind>, u64, Option<InPhase>), NodeError> {
    begin(peer, phase)?;
    let verdict = take(peer, now, given)?;
    Ok((verdict, peer.entries(), peer.in_phase(1)))
}

// Whether that is what its row says.
fn comes_to(peer: &mut Peer, phase: InPhase, now: u64, row: &Row) -> Result<bool, NodeError> {
    let (given, verdict, entries, after) = row;
    let found = outcome(peer, phase, now, *given)?;
    Ok(found == (*verdict, *entries, Some(*after)))
}

fn is_so(alloc: Global, phase: InPhase, now: u64, row: &Row) -> Result<bool, NodeError> {
    let mut peer = Peer::second(alloc)?;
    comes_to(&mut peer, phase, now, row)
}

// How many rows come out so in this phase at a moment, up to the first that does not.
fn rows_met(alloc: Global, phase: InPhase, now: u64, rows: &[Row]) -> Result<usize, NodeError> {
    for (i, row) in rows.iter().enumerate() {
        if !is_so(alloc, phase, now, row)? {
            return Ok(i);
        }
    }
    Ok(rows.len())
}

#[test]
fn what_comes_for_a_sequence_in_each_phase(rt: HostRuntime) {
    for (phase, now, rows) in &PHASES {
        let met = rows_met(rt.alloc(), *phase, *now, rows);
        assert!(rt; met == Ok(COUNT), "{phase:?} at {now}: {met:?}");
    }
}

// A request whose acknowledgements would go nowhere.
const NOWHERE: &[u8] = b"<a:To>http://node2.example/</a:To>\
    <a:Action>http://docs.oasis-open.org/ws-rx/wsrm/200702/CreateSequence</a:Action><a:MessageID>urn:m</a:MessageID>\
    <a:ReplyTo><a:Address>http://node1.example/</a:Address></a:ReplyTo>";

const NOWHERE_BODY: &[u8] = b"<r:CreateSequence><r:AcksTo>\
    <a:Address>http://www.w3.org/2005/08/addressing/none</a:Address></r:AcksTo></r:CreateSequence>";

const REFUSAL: &[u8] = b"<a:To>http://node1.example/</a:To>\
    <a:Action>http://docs.oasis-open.org/ws-rx/wsrm/200702/fault</a:Action><a:RelatesTo>urn:m</a:RelatesTo>";

const REFUSAL_BODY: &[u8] = b"<s:Fault><s:Code><s:Value>s:Receiver</s:Value><s:Subcode>\
    <s:Value xmlns:q=\"http://docs.oasis-open.org/ws-rx/wsrm/200702\">q:CreateSequenceRefused</s:Value></s:Subcode>\
    </s:Code><s:Reason><s:Text xml:lang=\"en\">CreateSequenceRefused</s:Text></s:Reason></s:Fault>";

// Whether the request is refused, by a packet to where its answer goes, and how many entries and sequences there are.
fn refuses(peer: &mut Peer) -> Result<(bool, u64, u32), NodeError> {
    let asked = envelope(peer.alloc, NOWHERE, NOWHERE_BODY)?;
    let reaction = peer.take(asked.as_slice())?;
    let refusal = envelope(peer.alloc, REFUSAL, REFUSAL_BODY)?;
    let is_refused = reaction.verdict == Some(FaultKind::CreateSequenceRefused);
    let is_so = is_refused & is_handed(&reaction, NODE_1, refusal.as_slice());
    Ok((is_so, peer.entries(), peer.sequences()))
}

#[test]
fn acknowledgements_that_go_nowhere(rt: HostRuntime) {
    assert!(rt; at_second(rt.alloc(), refuses) == Ok((true, 1, 0)));
}
