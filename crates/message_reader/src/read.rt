//! The message of an envelope, where SOAP has a namespace.
ghost use Rattle.std.specs.Prelude.{◌≡◌, codes, map, IfOk};
ghost use Rattle.soap_document.specs.Profile.View.{element_view};
ghost use Rattle.soap_envelope.specs.View.{envelope_view};
ghost use Rattle.soap_writer.specs.Values.Outcome.{Gives};
ghost use Rattle.wsa_headers.specs.Addressing.{uri_header};
ghost use Rattle.message_reader.specs.Message.{
  is_create as is_create_by,
  has_fault as has_fault_by,
  lacks_id as lacks_id_by,
  addressed,
  lists_in,
  marks_in,
  body_of,
  content_in,
  with_number as number_with,
  message_in,
};
ghost use Rattle.message_reader.specs.Outcome.{Answers};

use crate::blocks::{find_block, has_block, not_understood};
use crate::body::{find_fault, items_of, read_body};
use crate::cause::Cause;
use crate::fault11::read_told_fault;
use crate::headers::{
    Numbered, read_acks, read_asks, read_numbered, read_pending, read_told_names,
};
use rm_base::{Binding, Memory, Payload};
use rm_message::elements::{MESSAGING, SeqHeader};
use rm_message::{Acks, Body, Idents, Message, Names, actions};
use soap_document::profile::{Element, Parts};
use soap_envelope::Envelope;
use soap_writer::values::Flaw;
use std::alloc::Global;
use wsa_headers::{ADDRESSING, Addressing, AddressingError, read_address_of, read_addressing};

/// What a message has beside its addressing properties.
#[derive(Debug, Drop)]
pub(crate) struct Content {
    numbered: Numbered,
    acks: Acks,
    asks: Idents,
    pending: Option<bool>,
    not_understood: Names,
    body: Body,
}

// Whether the one Action is that of CreateSequence.
fn is_create(alloc: Global, headers: &[Element]) -> Result<bool, Memory>
    ensures { IfOk result (λ answer.
        answer ≡ is_create_by (uri_header (codes "Action") (map element_view headers.now))) }
{
    let block = match find_block(headers, ADDRESSING, b"Action") {
        Ok(Some(block)) => block,
        Ok(None) => return Ok(false),
        Err(Flaw::Memory) => return Err(Memory),
        Err(Flaw::Malformed) => return Ok(false),
    };
    match read_address_of(alloc, block) {
        Ok(action) => Ok(action.as_slice() == actions::CREATE_SEQUENCE),
        Err(Flaw::Memory) => Err(Memory),
        Err(Flaw::Malformed) => Ok(false),
    }
}

// Whether its body is a Fault.
fn has_fault(soap: &[u8], envelope: &Envelope) -> bool
    ensures { result ≡ has_fault_by soap.now (envelope_view envelope.now) }
{
    let numbered = has_block(envelope.headers.as_slice(), MESSAGING, b"Sequence");
    find_fault(items_of(&envelope.body), soap, numbered).is_some()
}

// Whether it is a CreateSequence without a MessageID.
fn lacks_id(alloc: Global, soap: &[u8], envelope: &Envelope) -> Result<bool, Memory>
    ensures { IfOk result (λ answer. answer ≡ lacks_id_by soap.now (envelope_view envelope.now)) }
{
    let headers = envelope.headers.as_slice();
    if has_block(headers, ADDRESSING, b"MessageID") {
        return Ok(false);
    }
    if has_fault(soap, envelope) {
        return Ok(false);
    }
    is_create(alloc, headers)
}

// The addressing properties of a message.
fn read_addressed(alloc: Global, soap: &[u8], envelope: &Envelope) -> Result<Addressing, Cause>
    ensures { Answers result (addressed soap.now (envelope_view envelope.now)) }
{
    let lacking = lacks_id(alloc, soap, envelope)?;
    match read_addressing(alloc, &envelope.headers) {
        Ok(addressing) => {
            if lacking {
                return Err(Cause::HeaderMissing);
            }
            Ok(addressing)
        }
        Err(AddressingError::Memory) => Err(Cause::Memory),
        Err(AddressingError::Cardinality { .. }) => Err(Cause::Cardinality),
        Err(AddressingError::HeaderMissing { .. }) => Err(Cause::HeaderMissing),
        Err(AddressingError::BadHeader { .. }) => {
            if lacking {
                return Err(Cause::HeaderMissing);
            }
            Err(Cause::BadHeader)
        }
    }
}

// The acknowledgements, and the sequences whose acknowledgements are asked for.
#[tactic(auto, unfolding(crate::specs::Message::lists_in))]
fn read_lists(alloc: Global, headers: &[Element]) -> Result<(Acks, Idents), Flaw>
    ensures { Gives (λ lists. lists) result (lists_in (map element_view headers.now)) }
{
    let acks = read_acks(alloc, headers)?;
    let asks = read_asks(alloc, headers)?;
    Ok((acks, asks))
}

// MessagePending, and the number.
#[tactic(auto, unfolding(crate::specs::Message::marks_in))]
fn read_marks(alloc: Global, headers: &[Element]) -> Result<(Option<bool>, Numbered), Flaw>
    ensures { Gives (λ marks. marks) result (marks_in (map element_view headers.now)) }
{
    let pending = read_pending(alloc, headers)?;
    let numbered = read_numbered(alloc, headers)?;
    Ok((pending, numbered))
}

// The body of a message with this action.
#[tactic(auto, unfolding(crate::specs::Message::body_of))]
fn read_body_of(
    alloc: Global,
    soap: &[u8],
    action: &[u8],
    headers: &[Element],
    scope: &[Binding],
    payload: Payload,
    body: &Parts,
) -> Result<Body, Flaw>
    ensures { Gives (λ body. body) result (body_of soap.now action.now (record {
      headers = map element_view headers.now;
      header_scope = scope.now;
      payload = payload.bytes;
      scope = payload.scope;
      body = body.now;
    })) }
{
    let told = read_told_fault(alloc, soap, scope, headers)?;
    let has_number = has_block(headers, MESSAGING, b"Sequence");
    read_body(
        alloc,
        soap,
        told,
        action,
        has_number,
        payload,
        items_of(body),
    )
}

// What a message with this action has beside its addressing properties.
#[tactic(auto, unfolding(crate::specs::Message::content_in))]
fn read_content(
    alloc: Global,
    soap: &[u8],
    action: &[u8],
    envelope: Envelope,
) -> Result<Content, Flaw>
    ensures { Gives (λ content. content) result (content_in soap.now action.now (envelope_view envelope)) }
{
    let Envelope {
        headers,
        header_scope,
        payload,
        body,
    } = envelope;
    let headers = headers.as_slice();
    let (acks, asks) = read_lists(alloc, headers)?;
    let (pending, numbered) = read_marks(alloc, headers)?;
    let scope = header_scope.as_slice();
    let body = read_body_of(alloc, soap, action, headers, scope, payload, &body)?;
    Ok(Content {
        numbered,
        acks,
        asks,
        pending,
        not_understood: read_told_names(alloc, headers, soap, scope)?,
        body,
    })
}

// The message of these parts, where its number is not above the greatest.
fn with_number(addressing: Addressing, content: Content) -> Result<Message, Cause>
    ensures { Answers result (number_with addressing content.numbered content) }
{
    let Content {
        numbered,
        acks,
        asks,
        pending,
        not_understood,
        body,
    } = content;
    let sequence: Option<SeqHeader> = match numbered {
        Numbered::Unnumbered => None,
        Numbered::Within(sequence) => Some(sequence),
        Numbered::RolledOver(ident) => return Err(Cause::Rollover(addressing, ident)),
    };
    Ok(Message {
        addressing,
        sequence,
        acks,
        asks,
        pending,
        not_understood,
        body,
    })
}

/// The message of an envelope, or the first cause that there is none.
#[tactic(auto, using(crate::proofs::MessageLemmas::unknown))]
pub(crate) fn read_message(alloc: Global, soap: &[u8], envelope: Envelope) -> Result<Message, Cause>
    ensures { Answers result (message_in soap.now (envelope_view envelope)) }
{
    let names = not_understood(alloc, envelope.headers.as_slice(), soap)?;
    if !names.is_empty() {
        return Err(Cause::NotUnderstood(names));
    }
    let addressing = read_addressed(alloc, soap, &envelope)?;
    match read_content(alloc, soap, addressing.action.as_slice(), envelope) {
        Ok(content) => with_number(addressing, content),
        Err(Flaw::Memory) => Err(Cause::Memory),
        Err(Flaw::Malformed) => Err(Cause::Malformed(addressing)),
    }
}
