//! The responses to a message: WS-ReliableMessaging 1.2, sections 3.4 to 3.6.
ghost use Rattle.std.specs.Prelude.{◌≡◌, ◌+◌, ◌<◌, ◌^◌, ◌++◌, ◌∷◌, [], codes, true, IfOk};
ghost use Rattle.record_batch.specs.Sequences.Find.{is_taken as is_taken_of};
ghost use Rattle.record_batch.specs.Sequences.Fits.{all_fit};
ghost use Rattle.record_batch.specs.Sequences.Makers.{counter, maker, number};
ghost use Rattle.node_messages.specs.Homes.{IsHome};
ghost use Rattle.rm_protocol.specs.Addresses.{reply_endpoint as reply_endpoint_of};
ghost use Rattle.rm_protocol.specs.Said.{
  create_response as create_response_of,
  find_grant_of as find_grant_for,
  finish_response as finish_response_of,
  grant_response as grant_response_of,
  responses as responses_of,
};
ghost use Rattle.tables_ahead.specs.Known.{all_records};

use crate::block::block_of;
use node_messages::{Home, close_response, grant_response, reply_endpoint, terminate_response};
use node_tables::Maker;
use node_tables::laws::a_node_with_a_number_has_an_address;
use rm_base::{Ident, Memory, Uri};
use rm_message::elements::Lifecycle;
use rm_message::{Body, Message};
use std::alloc::Global;
use tables_ahead::Known;
use wsa_headers::Addressing;

/// The node that speaks.
pub fn home<'a>(ahead: &'a Known<'_>) -> Home<'a>
    requires { 0 < number (all_records ahead.now) }
    ensures bits { result.number < 2 ^ 60 }
    ensures home { IsHome result (all_records ahead.now) }
{
    a_node_with_a_number_has_an_address();
    match ahead.address() {
        Some(address) => Home {
            number: ahead.number(),
            address,
        },
        None => unreachable!(),
    }
}

// Whether the sequence behind the one with a number was taken from an offer.
fn is_taken(ahead: &Known<'_>, seq: u32) -> bool
    ensures { result ≡ is_taken_of (maker (all_records ahead.now) (seq + 1)) }
{
    match ahead.maker_behind(seq) {
        Some(Maker::Taken { .. }) => true,
        Some(Maker::Asked { .. }) => false,
        Some(Maker::Offered { .. }) => false,
        Some(Maker::Granted { .. }) => false,
        None => false,
    }
}

// One response.
fn one(alloc: Global, response: Message) -> Result<Vec<Message>, Memory>
    ensures { IfOk result (λ ms. ms.items ≡ response ∷ []) }
{
    let mut responses = Vec::new(alloc);
    responses.push(response)?;
    Ok(responses)
}

// The response for a sequence, where it was granted.
fn granted(
    alloc: Global,
    ahead: &Known<'_>,
    addressing: &Addressing,
    message_id: &Uri,
    seq: u32,
) -> Result<Vec<Message>, Memory>
    requires numbered { 0 < number (all_records ahead.now) }
    requires drawn { counter (all_records ahead.now) < 2 ^ 62 }
    requires fit { all_fit ahead.now.records ahead.now.delta ≡ true }
    ensures { let r = all_records ahead.now in
        IfOk result (λ ms. ms.items ≡
        grant_response_of r (reply_endpoint_of addressing.now) message_id.now seq (maker r seq)) }
{
    let _sound = ahead.len();
    match ahead.maker(seq) {
        Some(
            Maker::Granted {
                counter,
                behaviour,
                lapse,
                ..
            },
        ) => {
            let response = grant_response(
                alloc,
                home(ahead),
                reply_endpoint(alloc, addressing)?,
                message_id,
                counter,
                lapse,
                behaviour,
                is_taken(ahead, seq),
            )?;
            one(alloc, response)
        }
        Some(Maker::Asked { .. }) => Ok(Vec::new(alloc)),
        Some(Maker::Offered { .. }) => Ok(Vec::new(alloc)),
        Some(Maker::Taken { .. }) => Ok(Vec::new(alloc)),
        None => Ok(Vec::new(alloc)),
    }
}

// The response to a CreateSequence with this MessageID, where a sequence was granted for it.
fn created(
    alloc: Global,
    ahead: &Known<'_>,
    addressing: &Addressing,
    message_id: &Uri,
    seq: Option<u32>,
) -> Result<Vec<Message>, Memory>
    requires numbered { 0 < number (all_records ahead.now) }
    requires drawn { counter (all_records ahead.now) < 2 ^ 62 }
    requires fit { all_fit ahead.now.records ahead.now.delta ≡ true }
    ensures { IfOk result (λ ms. ms.items ≡
        create_response_of (all_records ahead.now) (reply_endpoint_of addressing.now)
        (Some message_id.now) seq) }
{
    match seq {
        Some(seq) => granted(alloc, ahead, addressing, message_id, seq),
        None => Ok(Vec::new(alloc)),
    }
}

// The response to a CreateSequence.
fn create_response(
    alloc: Global,
    ahead: &Known<'_>,
    addressing: &Addressing,
) -> Result<Vec<Message>, Memory>
    requires numbered { 0 < number (all_records ahead.now) }
    requires drawn { counter (all_records ahead.now) < 2 ^ 62 }
    requires fit { all_fit ahead.now.records ahead.now.delta ≡ true }
    ensures { let r = all_records ahead.now in
        IfOk result (λ ms. ms.items ≡
        create_response_of r (reply_endpoint_of addressing.now) addressing.now.message_id
        (find_grant_for r addressing.now.message_id)) }
{
    match &addressing.message_id {
        Some(message_id) => {
            let seq = ahead.find_grant(message_id);
            created(alloc, ahead, addressing, message_id, seq)
        }
        None => Ok(Vec::new(alloc)),
    }
}

// The response to a CloseSequence, where the sequence is one of ours.
fn closed(
    alloc: Global,
    ahead: &Known<'_>,
    now: u64,
    addressing: &Addressing,
    ident: &Ident,
    seq: Option<u32>,
) -> Result<Vec<Message>, Memory>
    requires fit { all_fit ahead.now.records ahead.now.delta ≡ true }
    ensures { IfOk result (λ ms. ms.items ≡
        finish_response_of (all_records ahead.now) now addressing.now ident.now
        (codes "CloseSequenceResponse") (Lifecycle.CloseResponse ident.now) seq) }
{
    match seq {
        Some(seq) => {
            let block = block_of(alloc, ahead, seq, ident, now)?;
            let response = close_response(alloc, addressing, ident, block)?;
            one(alloc, response)
        }
        None => Ok(Vec::new(alloc)),
    }
}

// The response to a TerminateSequence, where the sequence is one of ours.
fn terminated(
    alloc: Global,
    ahead: &Known<'_>,
    now: u64,
    addressing: &Addressing,
    ident: &Ident,
    seq: Option<u32>,
) -> Result<Vec<Message>, Memory>
    requires fit { all_fit ahead.now.records ahead.now.delta ≡ true }
    ensures { IfOk result (λ ms. ms.items ≡
        finish_response_of (all_records ahead.now) now addressing.now ident.now
        (codes "TerminateSequenceResponse") (Lifecycle.TerminateResponse ident.now) seq) }
{
    match seq {
        Some(seq) => {
            let block = block_of(alloc, ahead, seq, ident, now)?;
            let response = terminate_response(alloc, addressing, ident, block)?;
            one(alloc, response)
        }
        None => Ok(Vec::new(alloc)),
    }
}

// The responses to a message that opens, closes or ends a sequence.
fn lifecycle_responses(
    alloc: Global,
    ahead: &Known<'_>,
    now: u64,
    addressing: &Addressing,
    content: &Lifecycle,
) -> Result<Vec<Message>, Memory>
    requires numbered { 0 < number (all_records ahead.now) }
    requires drawn { counter (all_records ahead.now) < 2 ^ 62 }
    requires fit { all_fit ahead.now.records ahead.now.delta ≡ true }
    ensures { IfOk result (λ ms. ms.items ≡
        responses_of (all_records ahead.now) now addressing.now (Body.Lifecycle content.now)) }
{
    match content {
        Lifecycle::Create(_) => create_response(alloc, ahead, addressing),
        Lifecycle::Close(finish) => {
            let seq = ahead.find_incoming(&finish.ident);
            closed(alloc, ahead, now, addressing, &finish.ident, seq)
        }
        Lifecycle::Terminate(finish) => {
            let seq = ahead.find_incoming(&finish.ident);
            terminated(alloc, ahead, now, addressing, &finish.ident, seq)
        }
        Lifecycle::CreateResponse(_) => Ok(Vec::new(alloc)),
        Lifecycle::CloseResponse(_) => Ok(Vec::new(alloc)),
        Lifecycle::TerminateResponse(_) => Ok(Vec::new(alloc)),
        Lifecycle::Make(_) => Ok(Vec::new(alloc)),
    }
}

/// The responses to a message with these headers and this body.
pub(crate) fn responses(
    alloc: Global,
    ahead: &Known<'_>,
    now: u64,
    addressing: &Addressing,
    body: &Body,
) -> Result<Vec<Message>, Memory>
    requires numbered { 0 < number (all_records ahead.now) }
    requires drawn { counter (all_records ahead.now) < 2 ^ 62 }
    requires fit { all_fit ahead.now.records ahead.now.delta ≡ true }
    ensures { IfOk result (λ ms. ms.items ≡
        responses_of (all_records ahead.now) now addressing.now body.now) }
{
    match body {
        Body::Lifecycle(content) => lifecycle_responses(alloc, ahead, now, addressing, content),
        Body::Empty => Ok(Vec::new(alloc)),
        Body::Payload(_) => Ok(Vec::new(alloc)),
        Body::Fault(_) => Ok(Vec::new(alloc)),
    }
}
