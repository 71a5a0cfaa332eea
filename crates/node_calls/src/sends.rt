//! Payloads that are sent: WS-ReliableMessaging 1.2, sections 2.4 and 3.7.
ghost use Rattle.std.specs.Prelude.{◌≡◌, ◌≤◌, ◌<◌, ◌^◌, ◌++◌, None, Some, length, map, IfOk, true};
ghost use Rattle.std.specs.List.{AllByRecursion};
ghost use Rattle.std.specs.Option.{option_map};
ghost use Rattle.rm_base.specs.Limits.{payload_bytes};
ghost use Rattle.node_laws.specs.Sizes.Room.{HasRoom};
ghost use Rattle.node_laws.specs.Sizes.Typed.{IsTyped};
ghost use Rattle.record_batch.specs.Fact.{fact_of};
ghost use Rattle.rm_protocol.specs.Calls.{send as send_of};
ghost use Rattle.rm_protocol.specs.Messages.{data_at};
ghost use Rattle.rm_protocol.specs.Terms.{Terms};
ghost use Rattle.record_batch.specs.Sequences.Fits.{is_outgoing_side};
ghost use Rattle.record_batch.specs.Sequences.Makers.{maker};
ghost use Rattle.record_batch.specs.Sequences.Sources.{accepted_count, payload_at};
ghost use Rattle.node_laws.specs.OwnTerms.{AreOwn};
ghost use Rattle.node_laws.specs.Answers.Answers.{cause_seen, seen};
ghost use Rattle.node_calls.specs.Causes.{payload_cause, send_cause, window_cause};
ghost use Rattle.node_calls.specs.Comes.{sent as sent_of};
ghost use Rattle.node_calls.specs.Records.{IsServing};
ghost use Rattle.tables_ahead.specs.Known.{all_records};

use crate::answers::added;
use crate::reads::{is_open, side_refusal};
use crate::requests::peer;
use node_laws::answers::{Answer, Cause, if_room, refused};
use node_laws::sizes::laws::a_batch_is_its_parts;
use node_messages::data_message;
use node_tables::Tables;
use node_tables::laws::an_outgoing_sequence_is_as_recorded;
use record_batch::Record;
use rm_base::limits::{MOST_UNACKED, PAYLOAD_BYTES, WINDOW};
use rm_base::{Blob, MAX_NUMBER, Memory};
use rm_message::Message;
use soap_document::profile::check_payload;
use std::alloc::Global;
use tables_ahead::Known;

// Why a payload may not be sent.
fn payload_refusal(alloc: Global, payload: &Blob) -> Result<Option<Cause>, Memory>
    ensures is { (terms : Terms) → AreOwn terms
        → IfOk result (λ cause. option_map cause_seen cause ≡ payload_cause terms payload.now) }
    ensures short { IfOk result (λ cause. cause ≡ None → length payload.now ≤ payload_bytes) }
{
    let len = payload.len() as u64;
    if len > PAYLOAD_BYTES as u64 {
        return Ok(Some(Cause::PayloadTooLong { length: len }));
    }
    if !check_payload(alloc, payload.as_slice())? {
        return Ok(Some(Cause::BadPayload));
    }
    Ok(None)
}

// Why an outgoing sequence takes no message.
fn window_refusal(tables: &Tables, seq: u32) -> Option<Cause>
    requires side { is_outgoing_side (maker tables.now.records seq) ≡ true }
    ensures { option_map cause_seen result ≡ window_cause tables.now.records seq }
{
    an_outgoing_sequence_is_as_recorded();
    let Some(outgoing) = tables.outgoing(seq) else {
        unreachable!()
    };
    if !is_open(outgoing.phase()) {
        return Some(Cause::NotOpen);
    }
    let unacked = outgoing.unacked();
    if unacked >= WINDOW {
        return Some(Cause::WindowFull { unacked });
    }
    let all = tables.unacked();
    if all >= MOST_UNACKED {
        return Some(Cause::NodeFull { unacked: all });
    }
    if outgoing.accepted_len() >= MAX_NUMBER {
        return Some(Cause::Rollover);
    }
    None
}

// Why a payload is not accepted for a sequence: the first reason that holds.
fn send_refusal(
    alloc: Global,
    tables: &Tables,
    seq: u32,
    payload: &Blob,
) -> Result<Option<Cause>, Memory>
    requires { IsServing tables.now.records }
    ensures is { (terms : Terms) → AreOwn terms → IfOk result (λ cause. option_map cause_seen cause
        ≡ send_cause terms tables.now.records seq payload.now) }
    ensures short { IfOk result (λ cause. cause ≡ None → length payload.now ≤ payload_bytes) }
{
    if let Some(cause) = side_refusal(tables, seq) {
        return Ok(Some(cause));
    }
    if let Some(cause) = payload_refusal(alloc, payload)? {
        return Ok(Some(cause));
    }
    Ok(window_refusal(tables, seq))
}

// The last message of a sequence, once the records ahead are there.
fn last_message(
    alloc: Global,
    ahead: &Known<'_>,
    seq: u32,
    payload: Blob,
) -> Result<Option<Message>, Memory>
    requires { let r = all_records ahead.now in payload_at r seq (accepted_count r seq) ≡ Some payload }
    ensures { let r = all_records ahead.now in IfOk result (λ m. m ≡ data_at r seq (accepted_count r seq)) }
{
    let Some(to) = peer(alloc, ahead, seq)? else {
        return Ok(None);
    };
    let Some(ident) = ahead.ident(seq) else {
        return Ok(None);
    };
    let number = ahead.accepted_len(seq);
    Ok(Some(data_message(alloc, to, ident, number, payload)?))
}

// A payload is accepted, and its message is said.
fn sent(alloc: Global, tables: &Tables, seq: u32, payload: Blob) -> Result<Answer, Memory>
    ensures { IfOk result (λ a. seen a ≡ sent_of tables.now.records seq payload) }
{
    let again = payload.copy()?;
    let mut ahead = Known::new(alloc, tables);
    ahead.push(Record::Accepted { seq, payload })?;
    let message = last_message(alloc, &ahead, seq, again)?;
    added(alloc, ahead, message)
}

/// Accepts a payload for a sequence, where none of the reasons holds that refuse it.
pub(crate) fn accept(
    alloc: Global,
    tables: &Tables,
    place: u64,
    seq: u32,
    payload: Blob,
) -> Result<Answer, Memory>
    requires { IsServing tables.now.records }
    ensures is { (terms : Terms) → AreOwn terms
        → IfOk result (λ a. seen a ≡ send_of terms tables.now.records place seq payload) }
    ensures room { IfOk result (λ a. HasRoom place (map fact_of a.batch.items)) }
    ensures typed { IfOk result (λ a. AllByRecursion IsTyped (map fact_of a.batch.items)) }
{
    a_batch_is_its_parts();
    match send_refusal(alloc, tables, seq, &payload)? {
        Some(cause) => Ok(refused(alloc, cause)),
        None => if_room(alloc, place, sent(alloc, tables, seq, payload)?),
    }
}
