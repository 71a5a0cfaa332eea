//! The same messages again.
ghost use Rattle.std.specs.Prelude.{◌≡◌, IfOk};

use record_batch::copy_payload;
use rm_base::{Memory, copy_optional_uri};
use rm_message::elements::{
    CreateResponse, CreateSequence, Finish, Lifecycle, MakeConnection, Offer, SeqHeader, copy_block,
};
use rm_message::{Acks, Body, FaultBody, Idents, Message, Names};
use soap_document::profile::Name;
use std::alloc::Global;
use wsa_headers::{Addressing, copy_reference};

fn copy_addressing(alloc: Global, a: &Addressing) -> Result<Addressing, Memory>
    ensures { IfOk result (λ copy. copy ≡ a.now) }
{
    Ok(Addressing {
        to: a.to.copy()?,
        action: a.action.copy()?,
        message_id: copy_optional_uri(&a.message_id)?,
        relates: copy_optional_uri(&a.relates)?,
        reply_to: copy_reference(alloc, &a.reply_to)?,
        fault_to: copy_reference(alloc, &a.fault_to)?,
        params: a.params.copy(alloc)?,
    })
}

fn copy_sequence(alloc: Global, header: &Option<SeqHeader>) -> Result<Option<SeqHeader>, Memory>
    ensures { IfOk result (λ copy. copy ≡ header.now) }
{
    match header {
        Some(header) => Ok(Some(SeqHeader {
            ident: header.ident.copy()?,
            number: header.number,
        })),
        None => Ok(None),
    }
}

fn copy_acks(alloc: Global, acks: &Acks) -> Result<Acks, Memory>
    ensures { IfOk result (λ copy. copy ≡ acks.now) }
{
    let mut copy = Acks::new(alloc);
    for block in acks.as_slice() {
        copy.push(copy_block(alloc, block)?)?;
    }
    Ok(copy)
}

fn copy_asks(alloc: Global, asks: &Idents) -> Result<Idents, Memory>
    ensures { IfOk result (λ copy. copy ≡ asks.now) }
{
    let mut copy = Idents::new(alloc);
    for ident in asks.as_slice() {
        copy.push(ident.copy()?)?;
    }
    Ok(copy)
}

fn copy_names(alloc: Global, names: &Names) -> Result<Names, Memory>
    ensures { IfOk result (λ copy. copy ≡ names.now) }
{
    let mut copy = Names::new(alloc);
    for name in names.as_slice() {
        copy.push(name.share()?)?;
    }
    Ok(copy)
}

fn copy_offer(alloc: Global, offer: &Option<Offer>) -> Result<Option<Offer>, Memory>
    ensures { IfOk result (λ copy. copy ≡ offer.now) }
{
    match offer {
        Some(offer) => Ok(Some(Offer {
            ident: offer.ident.copy()?,
            endpoint: offer.endpoint.copy(alloc)?,
            expires: offer.expires,
            behaviour: offer.behaviour,
        })),
        None => Ok(None),
    }
}

fn copy_finish(finish: &Finish) -> Result<Finish, Memory>
    ensures { IfOk result (λ copy. copy ≡ finish.now) }
{
    Ok(Finish {
        ident: finish.ident.copy()?,
        last_number: finish.last_number,
    })
}

fn copy_lifecycle(alloc: Global, content: &Lifecycle) -> Result<Lifecycle, Memory>
    ensures { IfOk result (λ copy. copy ≡ content.now) }
{
    match content {
        Lifecycle::Create(create) => Ok(Lifecycle::Create(CreateSequence {
            acks_to: create.acks_to.copy(alloc)?,
            expires: create.expires,
            offer: copy_offer(alloc, &create.offer)?,
        })),
        Lifecycle::CreateResponse(created) => Ok(Lifecycle::CreateResponse(CreateResponse {
            ident: created.ident.copy()?,
            expires: created.expires,
            behaviour: created.behaviour,
            accept: copy_reference(alloc, &created.accept)?,
        })),
        Lifecycle::Close(finish) => Ok(Lifecycle::Close(copy_finish(finish)?)),
        Lifecycle::CloseResponse(ident) => Ok(Lifecycle::CloseResponse(ident.copy()?)),
        Lifecycle::Terminate(finish) => Ok(Lifecycle::Terminate(copy_finish(finish)?)),
        Lifecycle::TerminateResponse(ident) => { Ok(Lifecycle::TerminateResponse(ident.copy()?)) }
        Lifecycle::Make(selection) => Ok(Lifecycle::Make(MakeConnection {
            address: copy_optional_uri(&selection.address)?,
            other: selection.other,
        })),
    }
}

fn copy_name(name: &Option<Name>) -> Result<Option<Name>, Memory>
    ensures { IfOk result (λ copy. copy ≡ name.now) }
{
    match name {
        Some(name) => Ok(Some(name.share()?)),
        None => Ok(None),
    }
}

fn copy_fault(alloc: Global, fault: &FaultBody) -> Result<FaultBody, Memory>
    ensures { IfOk result (λ copy. copy ≡ fault.now) }
{
    Ok(FaultBody {
        code: fault.code,
        subcode: copy_name(&fault.subcode)?,
        inner: copy_name(&fault.inner)?,
        reason: fault.reason.copy()?,
        detail: fault.detail.copy(alloc)?,
    })
}

fn copy_body(alloc: Global, body: &Body) -> Result<Body, Memory>
    ensures { IfOk result (λ copy. copy ≡ body.now) }
{
    match body {
        Body::Empty => Ok(Body::Empty),
        Body::Payload(payload) => Ok(Body::Payload(copy_payload(alloc, payload)?)),
        Body::Lifecycle(content) => Ok(Body::Lifecycle(copy_lifecycle(alloc, content)?)),
        Body::Fault(fault) => Ok(Body::Fault(copy_fault(alloc, fault)?)),
    }
}

/// The same message again.
pub(crate) fn copy_message(alloc: Global, message: &Message) -> Result<Message, Memory>
    ensures { IfOk result (λ copy. copy ≡ message.now) }
{
    Ok(Message {
        addressing: copy_addressing(alloc, &message.addressing)?,
        sequence: copy_sequence(alloc, &message.sequence)?,
        acks: copy_acks(alloc, &message.acks)?,
        asks: copy_asks(alloc, &message.asks)?,
        pending: message.pending,
        not_understood: copy_names(alloc, &message.not_understood)?,
        body: copy_body(alloc, &message.body)?,
    })
}
