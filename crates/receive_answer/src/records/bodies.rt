//! The rows of messages, and of the elements that answer, close and end a sequence: WS-ReliableMessaging 1.2, sections
//! 3.4 to 3.7.
ghost use Rattle.std.specs.Prelude.{◌≡◌, ℕ, [], OnOk};
ghost use Rattle.record_batch.specs.Sequences.Destinations.{received};
ghost use Rattle.record_batch.specs.Sequences.Find.{find_incoming, find_outgoing};
ghost use Rattle.rm_protocol.specs.Rows.{
  close_at,
  closed_at,
  data_row as data_row_of,
  data_row_at,
  ended_at,
  last_of as last_in,
  response_at,
  response_row as response_row_of,
  terminate_at,
};
ghost use Rattle.receive_answer.specs.Records.WithRow.{with_row};

use crate::records::offers::drop_offer;
use record_batch::Record;
use rm_base::limits::WINDOW;
use rm_base::{Cause, Ident, Memory, Payload, Uri};
use rm_message::elements::{CreateResponse, Finish, SeqHeader};
use rm_sides::source::OutPhase;
use std::alloc::Global;
use tables_ahead::Known;
use wsa_headers::copy_reference;

/// Received with the payload of a message, by its Sequence header.
pub(crate) fn data_row(
    ahead: &mut Known<'_>,
    now: u64,
    header: &Option<SeqHeader>,
    payload: Payload,
) -> Result<(), Memory>
    requires { (s : ℕ) → received ahead.old.delta s ≡ [] }
    ensures records { ahead.new.records ≡ ahead.old.records }
    ensures delta { OnOk result (ahead.new.delta ≡ with_row (data_row_of now header.now payload) ahead.old) }
{
    match header {
        Some(header) => match ahead.find_incoming(&header.ident) {
            Some(seq) => receive(ahead, now, seq, header.number, payload),
            None => Ok(()),
        },
        None => Ok(()),
    }
}

/// Received, where the number is new and at most `WINDOW` past the front, and the sequence is open.
fn receive(
    ahead: &mut Known<'_>,
    now: u64,
    seq: u32,
    number: u64,
    payload: Payload,
) -> Result<(), Memory>
    requires { (s : ℕ) → received ahead.old.delta s ≡ [] }
    ensures records { ahead.new.records ≡ ahead.old.records }
    ensures delta { OnOk result (ahead.new.delta ≡ with_row (data_row_at now (Some seq) number payload) ahead.old) }
{
    if ahead.has(seq, number) {
        return Ok(());
    }
    if ahead.is_over(seq, now) {
        return Ok(());
    }
    if number.saturating_sub(ahead.front(seq)) > WINDOW {
        return Ok(());
    }
    ahead.push(Record::Received {
        seq,
        number,
        payload,
    })
}

/// Created, by the MessageID that the response relates to.
pub(crate) fn response_row(
    alloc: Global,
    ahead: &mut Known<'_>,
    relates: &Option<Uri>,
    response: &CreateResponse,
) -> Result<(), Memory>
    ensures records { ahead.new.records ≡ ahead.old.records }
    ensures delta { OnOk result (ahead.new.delta ≡ with_row (response_row_of relates.now response.now) ahead.old) }
{
    let Some(message_id) = relates else {
        return Ok(());
    };
    let Some(seq) = ahead.find_creating(message_id) else {
        return Ok(());
    };
    match ahead.find_outgoing(response.ident.as_slice()) {
        Some(_) => Ok(()),
        None => created(alloc, ahead, seq, response),
    }
}

/// Created for a sequence. What was offered with it is ended, where the response has no Accept.
fn created(
    alloc: Global,
    ahead: &mut Known<'_>,
    seq: u32,
    response: &CreateResponse,
) -> Result<(), Memory>
    ensures records { ahead.new.records ≡ ahead.old.records }
    ensures delta { OnOk result (ahead.new.delta ≡ with_row (response_at (Some seq) None response.now) ahead.old) }
{
    let given = Record::Created {
        seq,
        ident: response.ident.copy()?,
        accept: copy_reference(alloc, &response.accept)?,
    };
    ahead.push(given)?;
    match &response.accept {
        Some(_) => Ok(()),
        None => drop_offer(ahead, seq),
    }
}

/// The number that a LastMsgNumber tells, and 0 where there is none.
fn last_of(last: Option<u64>) -> u64
    ensures { result ≡ last_in last }
{
    match last {
        Some(number) => number,
        None => 0,
    }
}

/// Closed by a CloseSequence.
pub(crate) fn close_row(ahead: &mut Known<'_>, now: u64, finish: &Finish) -> Result<(), Memory>
    ensures records { ahead.new.records ≡ ahead.old.records }
    ensures delta { OnOk result (ahead.new.delta
        ≡ with_row (λ r. close_at now (find_incoming r finish.now.ident) (last_in finish.now.last_number) r)
        ahead.old) }
{
    let Some(seq) = ahead.find_incoming(&finish.ident) else {
        return Ok(());
    };
    if ahead.is_over(seq, now) {
        return Ok(());
    }
    ahead.push(Record::Closed {
        seq,
        cause: Cause::Peer,
        last: last_of(finish.last_number),
    })
}

/// Ended by a TerminateSequence.
pub(crate) fn terminate_row(ahead: &mut Known<'_>, now: u64, finish: &Finish) -> Result<(), Memory>
    ensures records { ahead.new.records ≡ ahead.old.records }
    ensures delta { OnOk result (ahead.new.delta
        ≡ with_row (λ r. terminate_at now (find_incoming r finish.now.ident) (last_in finish.now.last_number) r)
        ahead.old) }
{
    let Some(seq) = ahead.find_incoming(&finish.ident) else {
        return Ok(());
    };
    if ahead.is_ended(seq, now) {
        return Ok(());
    }
    ahead.push(Record::Ended {
        seq,
        cause: Cause::Peer,
        last: last_of(finish.last_number),
    })
}

/// ClosedOut by a CloseSequenceResponse, in phase Closing.
pub(crate) fn closed_row(ahead: &mut Known<'_>, ident: &Ident) -> Result<(), Memory>
    ensures records { ahead.new.records ≡ ahead.old.records }
    ensures delta { OnOk result (ahead.new.delta
        ≡ with_row (λ r. closed_at (find_outgoing r ident.now) r) ahead.old) }
{
    let Some(seq) = ahead.find_outgoing(ident.as_slice()) else {
        return Ok(());
    };
    match ahead.phase(seq) {
        OutPhase::Closing => ahead.push(Record::ClosedOut { seq }),
        OutPhase::Creating
        | OutPhase::Open
        | OutPhase::Closed
        | OutPhase::Ending
        | OutPhase::Ended
        | OutPhase::Failed => Ok(()),
    }
}

/// EndedOut by a TerminateSequenceResponse, in phase Ending.
pub(crate) fn ended_row(ahead: &mut Known<'_>, ident: &Ident) -> Result<(), Memory>
    ensures records { ahead.new.records ≡ ahead.old.records }
    ensures delta { OnOk result (ahead.new.delta
        ≡ with_row (λ r. ended_at (find_outgoing r ident.now) r) ahead.old) }
{
    let Some(seq) = ahead.find_outgoing(ident.as_slice()) else {
        return Ok(());
    };
    match ahead.phase(seq) {
        OutPhase::Ending => ahead.push(Record::EndedOut { seq }),
        OutPhase::Creating
        | OutPhase::Open
        | OutPhase::Closing
        | OutPhase::Closed
        | OutPhase::Ended
        | OutPhase::Failed => Ok(()),
    }
}
