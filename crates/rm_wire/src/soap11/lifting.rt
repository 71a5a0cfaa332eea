//! Messages of SOAP 1.1 to bytes of SOAP 1.2. Each writer of a piece appends it, up to a want of memory.
ghost use Rattle.std.specs.Prelude.{◌≡◌, ◌++◌, ◌∷◌, [], IfOk, OnOk, codes, map};
ghost use Rattle.soap_document.specs.Grammar.{start_tag, end_tag};
ghost use Rattle.soap_envelope.specs.Soap.{soap_space};
ghost use Rattle.soap_writer.specs.ReadBack.{written_attributes};
ghost use Rattle.soap_envelope.specs.Frame.BodyTag.{
  declaring_name,
  declaration,
  body_name,
  body_bindings as bindings_of_body,
};
ghost use Rattle.rm_wire.specs.Soap11.Lift.{numbered_prefix, lifted_text, IsLifted, IsLiftedPayload};

use crate::soap11::prefixes::first_free;
use itoa::Buffer;
use message_writer::{encode, push_header};
use rm_base::{Binding, Bindings, Blob, Memory, Payload};
use rm_message::{Body, Message};
use soap_envelope::SOAP_SPACE;
use soap_envelope::frame::begin_envelope;
use soap_writer::{push_bytes, push_quoted};
use std::alloc::Global;

// The name of the attribute that declares a prefix, with a space before it.
#[tactic(auto, using(crate::proofs::Soap11Lemmas::Tags::declaring_some))]
fn push_declaring(prefix: &[u8], out: &mut Vec<u8>) -> Result<(), Memory>
    ensures { OnOk result (out.new.items ≡ out.old.items ++ (codes " " ++ declaring_name prefix.now)) }
{
    push_bytes(b" ", out)?;
    if prefix.is_empty() {
        return push_bytes(b"xmlns", out);
    }
    push_bytes(b"xmlns:", out)?;
    push_bytes(prefix, out)
}

fn push_binding(prefix: &[u8], space: &[u8], out: &mut Vec<u8>) -> Result<(), Memory>
    ensures { OnOk result (out.new.items ≡ out.old.items
        ++ written_attributes (declaration (record { prefix = prefix.now; space = space.now }) ∷ [])) }
{
    push_declaring(prefix, out)?;
    push_bytes(b"=", out)?;
    push_quoted(space, out)
}

fn push_bindings(scope: &[Binding], out: &mut Vec<u8>) -> Result<(), Memory>
    ensures { OnOk result (out.new.items ≡ out.old.items ++ written_attributes (map declaration scope.now)) }
{
    for binding in scope {
        push_binding(binding.prefix.as_slice(), binding.space.as_slice(), out)?;
    }
    Ok(())
}

// The start tag of a Body with this prefix, which declares it and these bindings.
fn push_body_start(prefix: &[u8], scope: &[Binding], out: &mut Vec<u8>) -> Result<(), Memory>
    ensures { OnOk result (out.new.items ≡ out.old.items ++ start_tag (body_name prefix.now)
        (written_attributes (map declaration (bindings_of_body soap_space prefix.now scope.now)))) }
{
    push_bytes(b"<", out)?;
    push_bytes(prefix, out)?;
    push_bytes(b":Body", out)?;
    push_binding(prefix, SOAP_SPACE, out)?;
    push_bindings(scope, out)?;
    push_bytes(b">", out)?;
    Ok(())
}

fn push_body_end(prefix: &[u8], out: &mut Vec<u8>) -> Result<(), Memory>
    ensures { OnOk result (out.new.items ≡ out.old.items ++ end_tag (body_name prefix.now) []) }
{
    push_bytes(b"</", out)?;
    push_bytes(prefix, out)?;
    push_bytes(b":Body", out)?;
    push_bytes(b">", out)
}

fn numbered(alloc: Global, number: u64) -> Result<Vec<u8>, Memory>
    ensures { IfOk result (λ prefix. prefix.items ≡ numbered_prefix number) }
{
    let mut prefix = Vec::new(alloc);
    push_bytes(b"w", &mut prefix)?;
    push_bytes(Buffer::new().format(number).as_bytes(), &mut prefix)?;
    Ok(prefix)
}

fn write_body_start(
    alloc: Global,
    number: u64,
    scope: &Bindings,
    out: &mut Blob,
) -> Result<(), Memory>
    ensures { OnOk result (out.new ≡ out.old ++ start_tag (body_name (numbered_prefix number)) (written_attributes
        (map declaration (bindings_of_body soap_space (numbered_prefix number) scope.now)))) }
{
    let prefix = numbered(alloc, number)?;
    let mut tag = Vec::new(alloc);
    push_body_start(prefix.as_slice(), scope.as_slice(), &mut tag)?;
    out.push_all(tag.as_slice())?;
    Ok(())
}

fn write_body_end(alloc: Global, number: u64, out: &mut Blob) -> Result<(), Memory>
    ensures { OnOk result (out.new ≡ out.old ++ end_tag (body_name (numbered_prefix number)) []) }
{
    let prefix = numbered(alloc, number)?;
    let mut tag = Vec::new(alloc);
    push_body_end(prefix.as_slice(), &mut tag)?;
    out.push_all(tag.as_slice())?;
    Ok(())
}

fn write_payload(payload: &Payload, out: &mut Blob) -> Result<(), Memory>
    ensures { OnOk result (out.new ≡ out.old ++ payload.now.bytes) }
{
    out.push_all(payload.bytes.as_slice())
}

// The text of a message with this payload, where Body has the prefix with this number.
fn write_lifted(
    alloc: Global,
    message: &Message,
    payload: &Payload,
    number: u64,
) -> Result<Blob, Memory>
    ensures { IfOk result (λ bytes. bytes
        ≡ lifted_text (numbered_prefix number) message.now payload.now.bytes payload.now.scope) }
{
    let mut out = Blob::new(alloc);
    begin_envelope(&mut out)?;
    push_header(alloc, message, &mut out)?;
    out.push_all(b"</s:Header>")?;
    write_body_start(alloc, number, &payload.scope, &mut out)?;
    write_payload(payload, &mut out)?;
    write_body_end(alloc, number, &mut out)?;
    out.push_all(b"</s:Envelope>")?;
    Ok(out)
}

fn lift_payload(alloc: Global, message: &Message, payload: &Payload) -> Result<Blob, Memory>
    ensures { IfOk result (IsLiftedPayload message.now payload.now) }
{
    let number = first_free(alloc, &payload.scope)?;
    let text = write_lifted(alloc, message, payload, number)?;
    Ok(text)
}

/// What a message of SOAP 1.1 is in SOAP 1.2. A payload keeps its bytes: its Body declares what was bound around them.
/// The header blocks stay. The prefix of the Body around a payload is `w` with the least number that is free there; the
/// Body declares that prefix and each binding of the scope.
pub fn lift(alloc: Global, message: &Message) -> Result<Blob, Memory>
    ensures { IfOk result (IsLifted message.now) }
{
    match &message.body {
        Body::Payload(payload) => lift_payload(alloc, message, payload),
        _ => encode(alloc, message),
    }
}
