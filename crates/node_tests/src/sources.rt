//! Each phase of an outgoing sequence, and what comes for it then.
use crate::given::{Given, text_of};
use crate::peer::{Peer, at_first};
use rm_message::FaultKind;
use rm_node::NodeError;
use rm_sides::destination::InPhase;
use rm_sides::source::OutPhase;
use std::alloc::Global;

// How many there are of what comes, and what each comes to: the verdict, how many entries there are behind it, and the
// phase of the sequence then.
const COUNT: usize = 16;

type Row = (Given, Option<FaultKind>, u64, OutPhase);

// No incoming sequence has the identifier.
const NOT_OURS: Option<FaultKind> = Some(FaultKind::UnknownSequence);

const CREATING_ROWS: [Row; COUNT] = [
    (Given::First, NOT_OURS, 2, OutPhase::Creating),
    (Given::Close, NOT_OURS, 2, OutPhase::Creating),
    (Given::End, NOT_OURS, 2, OutPhase::Creating),
    (Given::Asked, NOT_OURS, 2, OutPhase::Creating),
    (Given::Ack, NOT_OURS, 2, OutPhase::Creating),
    (Given::Final, NOT_OURS, 2, OutPhase::Creating),
    (Given::Response, None, 3, OutPhase::Open),
    (Given::Closed, None, 2, OutPhase::Creating),
    (Given::Ended, None, 2, OutPhase::Creating),
    (Given::Terminated, None, 2, OutPhase::Creating),
    (Given::Unknown, None, 2, OutPhase::Creating),
    (Given::Rollover, None, 2, OutPhase::Creating),
    (Given::Shut, None, 2, OutPhase::Creating),
    (Given::Refused, None, 3, OutPhase::Failed),
    (Given::Required, None, 2, OutPhase::Creating),
    (Given::Invalid, None, 2, OutPhase::Creating),
];

const OPEN_ROWS: [Row; COUNT] = [
    (Given::First, NOT_OURS, 4, OutPhase::Open),
    (Given::Close, NOT_OURS, 4, OutPhase::Open),
    (Given::End, NOT_OURS, 4, OutPhase::Open),
    (Given::Asked, NOT_OURS, 4, OutPhase::Open),
    (Given::Ack, None, 5, OutPhase::Open),
    (Given::Final, None, 5, OutPhase::Closed),
    (Given::Response, None, 4, OutPhase::Open),
    (Given::Closed, None, 4, OutPhase::Open),
    (Given::Ended, None, 4, OutPhase::Open),
    (Given::Terminated, None, 5, OutPhase::Failed),
    (Given::Unknown, None, 5, OutPhase::Failed),
    (Given::Rollover, None, 5, OutPhase::Failed),
    (Given::Shut, None, 5, OutPhase::Closed),
    (Given::Refused, None, 4, OutPhase::Open),
    (Given::Required, None, 4, OutPhase::Open),
    (Given::Invalid, None, 4, OutPhase::Open),
];

const CLOSING_ROWS: [Row; COUNT] = [
    (Given::First, NOT_OURS, 5, OutPhase::Closing),
    (Given::Close, NOT_OURS, 5, OutPhase::Closing),
    (Given::End, NOT_OURS, 5, OutPhase::Closing),
    (Given::Asked, NOT_OURS, 5, OutPhase::Closing),
    (Given::Ack, None, 6, OutPhase::Closing),
    (Given::Final, None, 6, OutPhase::Closed),
    (Given::Response, None, 5, OutPhase::Closing),
    (Given::Closed, None, 6, OutPhase::Closed),
    (Given::Ended, None, 5, OutPhase::Closing),
    (Given::Terminated, None, 6, OutPhase::Failed),
    (Given::Unknown, None, 6, OutPhase::Failed),
    (Given::Rollover, None, 6, OutPhase::Failed),
    (Given::Shut, None, 6, OutPhase::Closed),
    (Given::Refused, None, 5, OutPhase::Closing),
    (Given::Required, None, 5, OutPhase::Closing),
    (Given::Invalid, None, 5, OutPhase::Closing),
];

const CLOSED_ROWS: [Row; COUNT] = [
    (Given::First, NOT_OURS, 6, OutPhase::Closed),
    (Given::Close, NOT_OURS, 6, OutPhase::Closed),
    (Given::End, NOT_OURS, 6, OutPhase::Closed),
    (Given::Asked, NOT_OURS, 6, OutPhase::Closed),
    (Given::Ack, None, 7, OutPhase::Closed),
    (Given::Final, None, 6, OutPhase::Closed),
    (Given::Response, None, 6, OutPhase::Closed),
    (Given::Closed, None, 6, OutPhase::Closed),
    (Given::Ended, None, 6, OutPhase::Closed),
    (Given::Terminated, None, 7, OutPhase::Failed),
    (Given::Unknown, None, 7, OutPhase::Failed),
    (Given::Rollover, None, 7, OutPhase::Failed),
    (Given::Shut, None, 6, OutPhase::Closed),
    (Given::Refused, None, 6, OutPhase::Closed),
    (Given::Required, None, 6, OutPhase::Closed),
    (Given::Invalid, None, 6, OutPhase::Closed),
];

const ENDING_ROWS: [Row; COUNT] = [
    (Given::First, NOT_OURS, 5, OutPhase::Ending),
    (Given::Close, NOT_OURS, 5, OutPhase::Ending),
    (Given::End, NOT_OURS, 5, OutPhase::Ending),
    (Given::Asked, NOT_OURS, 5, OutPhase::Ending),
    (Given::Ack, None, 6, OutPhase::Ending),
    (Given::Final, None, 5, OutPhase::Ending),
    (Given::Response, None, 5, OutPhase::Ending),
    (Given::Closed, None, 5, OutPhase::Ending),
    (Given::Ended, None, 6, OutPhase::Ended),
    (Given::Terminated, None, 6, OutPhase::Ended),
    (Given::Unknown, None, 6, OutPhase::Ended),
    (Given::Rollover, None, 6, OutPhase::Ended),
    (Given::Shut, None, 5, OutPhase::Ending),
    (Given::Refused, None, 5, OutPhase::Ending),
    (Given::Required, None, 5, OutPhase::Ending),
    (Given::Invalid, None, 5, OutPhase::Ending),
];

const ENDED_ROWS: [Row; COUNT] = [
    (Given::First, NOT_OURS, 6, OutPhase::Ended),
    (Given::Close, NOT_OURS, 6, OutPhase::Ended),
    (Given::End, NOT_OURS, 6, OutPhase::Ended),
    (Given::Asked, NOT_OURS, 6, OutPhase::Ended),
    (Given::Ack, None, 7, OutPhase::Ended),
    (Given::Final, None, 6, OutPhase::Ended),
    (Given::Response, None, 6, OutPhase::Ended),
    (Given::Closed, None, 6, OutPhase::Ended),
    (Given::Ended, None, 6, OutPhase::Ended),
    (Given::Terminated, None, 6, OutPhase::Ended),
    (Given::Unknown, None, 6, OutPhase::Ended),
    (Given::Rollover, None, 6, OutPhase::Ended),
    (Given::Shut, None, 6, OutPhase::Ended),
    (Given::Refused, None, 6, OutPhase::Ended),
    (Given::Required, None, 6, OutPhase::Ended),
    (Given::Invalid, None, 6, OutPhase::Ended),
];

const FAILED_ROWS: [Row; COUNT] = [
    (Given::First, NOT_OURS, 5, OutPhase::Failed),
    (Given::Close, NOT_OURS, 5, OutPhase::Failed),
    (Given::End, NOT_OURS, 5, OutPhase::Failed),
    (Given::Asked, NOT_OURS, 5, OutPhase::Failed),
    (Given::Ack, None, 6, OutPhase::Failed),
    (Given::Final, None, 5, OutPhase::Failed),
    (Given::Response, None, 5, OutPhase::Failed),
    (Given::Closed, None, 5, OutPhase::Failed),
    (Given::Ended, None, 5, OutPhase::Failed),
    (Given::Terminated, None, 5, OutPhase::Failed),
    (Given::Unknown, None, 5, OutPhase::Failed),
    (Given::Rollover, None, 5, OutPhase::Failed),
    (Given::Shut, None, 5, OutPhase::Failed),
    (Given::Refused, None, 5, OutPhase::Failed),
    (Given::Required, None, 5, OutPhase::Failed),
    (Given::Invalid, None, 5, OutPhase::Failed),
];

// What comes for a sequence in each phase.
const PHASES: [(OutPhase, &[Row]); 7] = [
    (OutPhase::Creating, &CREATING_ROWS),
    (OutPhase::Open, &OPEN_ROWS),
    (OutPhase::Closing, &CLOSING_ROWS),
    (OutPhase::Closed, &CLOSED_ROWS),
    (OutPhase::Ending, &ENDING_ROWS),
    (OutPhase::Ended, &ENDED_ROWS),
    (OutPhase::Failed, &FAILED_ROWS),
];

// What comes for the sequence `urn:s`: the verdict.
fn take(peer: &mut Peer, given: Given) -> Result<Option<FaultKind>, NodeError> {
    let text = text_of(peer.alloc, given, b"urn:s")?;
    peer.judge(0, text.as_slice())
}

// Node 1 asks for its sequence, and for a later phase sends one message in it: it has four entries then.
fn begin(peer: &mut Peer, phase: OutPhase) -> Result<(), NodeError> {
    if phase == OutPhase::Creating {
        peer.create()?;
        Ok(())
    } else {
        peer.open_and_send()
    }
}

// From there the sequence comes into the phase.
fn go_on(peer: &mut Peer, phase: OutPhase) -> Result<(), NodeError> {
    match phase {
        OutPhase::Creating | OutPhase::Open => Ok(()),
        OutPhase::Closing | OutPhase::Closed => peer.shut(1),
        OutPhase::Ending | OutPhase::Ended => peer.finish(1),
        OutPhase::Failed => {
            take(peer, Given::Terminated)?;
            Ok(())
        }
    }
}

// And where the answer of its peer brings it there, that comes.
fn be_answered(peer: &mut Peer, phase: OutPhase) -> Result<(), NodeError> {
    if phase == OutPhase::Closed {
        take(peer, Given::Closed)?;
    }
    if phase == OutPhase::Ended {
        take(peer, Given::Ended)?;
    }
    Ok(())
}

// What something comes to that comes in this phase: the verdict, how many entries there are, and the phase then.
fn outcome(
    peer: &mut Peer,
    phase: OutPhase,
    given: Given,
) -> Result<(Option<FaultKind>, u64, Option<OutPhase>), NodeError> {
    begin(peer, phase)?;
    go_on(peer, phase)?;
    be_answered(peer, phase)?;
    let verdict = take(peer, given)?;
    Ok((verdict, peer.entries(), peer.out_phase(1)))
}

// Whether that is what its row says.
fn comes_to(peer: &mut Peer, phase: OutPhase, row: &Row) -> Result<bool, NodeError> {
    let (given, verdict, entries, after) = row;
    let found = outcome(peer, phase, *given)?;
    Ok(found == (*verdict, *entries, Some(*after)))
}

fn is_so(alloc: Global, phase: OutPhase, row: &Row) -> Result<bool, NodeError> {
    let mut peer = Peer::first(alloc)?;
    comes_to(&mut peer, phase, row)
}

// How many rows come out so in this phase, up to the first that does not.
fn rows_met(alloc: Global, phase: OutPhase, rows: &[Row]) -> Result<usize, NodeError> {
    for (i, row) in rows.iter().enumerate() {
        if !is_so(alloc, phase, row)? {
            return Ok(i);
        }
    }
    Ok(rows.len())
}

#[test]
fn what_comes_for_a_sequence_in_each_phase(rt: HostRuntime) {
    for (phase, rows) in &PHASES {
        let met = rows_met(rt.alloc(), *phase, rows);
        assert!(rt; met == Ok(COUNT), "{phase:?}: {met:?}");
    }
}

// The refusal of a request with an offer comes: the verdict, how many entries there are, and in which phases both are.
fn refused(
    peer: &mut Peer,
) -> Result<(Option<FaultKind>, u64, Option<OutPhase>, Option<InPhase>), NodeError> {
    peer.offer()?;
    let verdict = take(peer, Given::Refused)?;
    Ok((verdict, peer.entries(), peer.out_phase(1), peer.in_phase(2)))
}

// Where the request is refused, so is what was offered with it.
#[test]
fn an_offer_of_a_refused_request(rt: HostRuntime) {
    let given_up = (None, 3, Some(OutPhase::Failed), Some(InPhase::Ended));
    assert!(rt; at_first(rt.alloc(), refused) == Ok(given_up));
}
