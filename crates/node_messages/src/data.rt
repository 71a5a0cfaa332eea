//! Messages of a sequence: WS-ReliableMessaging 1.2, section 3.7.
ghost use Rattle.std.specs.Prelude.{◌≡◌, ◌∷◌, [], ◌++◌, IfOk, OnOk};
ghost use Rattle.rm_protocol.specs.Messages.{data_of, written_scope as scope_of};
ghost use Rattle.node_messages.specs.Payloads.{payload_of};

use crate::name::application_action;
use crate::plain::plain;
use rm_base::{Binding, Bindings, Blob, Ident, Memory, Payload};
use rm_message::elements::{CONNECTION, MESSAGING, SeqHeader};
use rm_message::{Body, Message};
use soap_envelope::SOAP_SPACE;
use std::alloc::Global;
use wsa_headers::{ADDRESSING, Epr};

fn bind(alloc: Global, prefix: &[u8], space: &[u8], scope: &mut Bindings) -> Result<(), Memory>
    ensures { OnOk result (scope.new ≡ scope.old ++ record { prefix = prefix.now; space = space.now } ∷ []) }
{
    let prefix = Blob::from_slice(alloc, prefix)?;
    let space = Blob::from_slice(alloc, space)?;
    scope.push(Binding { prefix, space })
}

// The bindings that our envelopes have around a payload.
#[tactic(auto, unfolding(rm_protocol::specs::Messages::written_scope))]
fn written_scope(alloc: Global) -> Result<Bindings, Memory>
    ensures { IfOk result (λ scope. scope ≡ scope_of) }
{
    let mut scope = Bindings::new(alloc);
    bind(alloc, b"a", ADDRESSING, &mut scope)?;
    bind(alloc, b"c", CONNECTION, &mut scope)?;
    bind(alloc, b"r", MESSAGING, &mut scope)?;
    bind(alloc, b"s", SOAP_SPACE, &mut scope)?;
    Ok(scope)
}

/// A message of a sequence to an endpoint. The payload is moved in.
pub fn data_message(
    alloc: Global,
    to: Epr,
    ident: &Ident,
    number: u64,
    payload: Blob,
) -> Result<Message, Memory>
    ensures { IfOk result (λ m. m ≡ data_of to ident.now number payload) }
{
    let ident = ident.copy()?;
    let scope = written_scope(alloc)?;
    let body = Body::Payload(Payload {
        bytes: payload,
        scope,
    });
    let mut message = plain(alloc, to, application_action(), body)?;
    message.sequence = Some(SeqHeader { ident, number });
    Ok(message)
}

/// The payload that a message has, which is moved out.
pub fn into_payload(message: Message) -> Option<Blob>
    ensures { result ≡ payload_of message.body }
{
    match message.into_body().into_payload() {
        Some(payload) => Some(payload.bytes),
        None => None,
    }
}
