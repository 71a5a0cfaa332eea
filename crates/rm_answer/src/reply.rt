//! What goes back on a connection: a status and a body.
ghost use Rattle.std.specs.Prelude.{◌≡◌, [], IfOk, IfSome, None};
ghost use Rattle.http_endpoint.specs.Heads.{IsRefusal};
ghost use Rattle.http_endpoint.specs.Texts.{IsWritten};
ghost use Rattle.rm_answer.specs.Replies.{fault_reply, fault_text, refusal_to, reply_to, status_of, status_of_code};
ghost use Rattle.rm_answer.specs.Replies.{status_of_kind};
ghost use Rattle.soap_envelope.specs.Soap.{soap_space};
ghost use Rattle.message_reader.specs.Refusals.{blind};
ghost use Rattle.message_writer.specs.Faults.{fault_of};
ghost use Rattle.message_writer.specs.Text.{message_text};
ghost use Rattle.message_writer.specs.Text11.{has_code11, message11_text, text11_if};

use http_endpoint::{HttpError, Media};
use message_writer::table::code;
use message_writer::{encode, encode11, fault_message};
use node_messages::{anonymous, plain_endpoint};
use rm_base::{Blob, Memory};
use rm_message::{FaultCode, FaultKind, Message, Names, Refusal};
use std::alloc::Global;

/// The status of a response, and its body.
#[derive(Debug, Drop)]
pub struct Reply {
    pub status: u16,
    pub body: Blob,
}

/// The response to a message that the node took. A reply goes back with 200; a fault with 400 where its code is Sender,
/// and else with 500, and with 500 always in SOAP 1.1; where there is none, 202 and no body.
pub fn reply_to(
    alloc: Global,
    verdict: Option<FaultKind>,
    reply: Option<Blob>,
    media: Media,
) -> Reply
    ensures is { result ≡ reply_to media verdict reply }
    ensures status { IsWritten result.status }
{
    match reply {
        Some(body) => Reply {
            status: status_of(verdict, media),
            body,
        },
        None => Reply {
            status: 202,
            body: Blob::new(alloc),
        },
    }
}

// The status with which a reply goes back.
fn status_of(verdict: Option<FaultKind>, media: Media) -> u16
    ensures is { result ≡ status_of media verdict }
    ensures status { IsWritten result }
{
    match verdict {
        None => 200,
        Some(kind) => status_of_kind(kind, media),
    }
}

fn status_of_kind(kind: FaultKind, media: Media) -> u16
    ensures is { result ≡ status_of_kind media kind }
    ensures status { IsWritten result }
{
    match media {
        Media::Soap12 => status_of_code(code(kind)),
        Media::Soap11 => 500,
    }
}

fn status_of_code(code: FaultCode) -> u16
    ensures is { result ≡ status_of_code code }
    ensures status { IsWritten result }
{
    match code {
        FaultCode::Sender => 400,
        _ => 500,
    }
}

/// The response to a request that could not be read, where it gets one. A bad head gets 400 and nothing; a body that is
/// too long the fault with its status; what is not served its status and nothing; a request that broke off, and a call
/// that failed, no answer.
pub fn refusal_to(alloc: Global, error: HttpError, media: Media) -> Result<Option<Reply>, Memory>
    requires { IsRefusal error }
    ensures is { IfOk result (λ reply. reply ≡ refusal_to media error) }
    ensures status { IfOk result (λ reply. IfSome reply (λ r. IsWritten r.status)) }
{
    match error {
        HttpError::BadHead => Ok(Some(bare(alloc, 400))),
        HttpError::TooLong { .. } => Ok(Some(too_long(alloc, media)?)),
        HttpError::Unsupported { status } => Ok(Some(bare(alloc, status))),
        HttpError::Memory => Ok(None),
        HttpError::ReadFault => Ok(None),
        HttpError::WriteFault => Ok(None),
        HttpError::CutShort => Ok(None),
    }
}

fn bare(alloc: Global, status: u16) -> Reply
    ensures { result ≡ record { status = status; body = [] } }
{
    Reply {
        status,
        body: Blob::new(alloc),
    }
}

// The refusal of a body that is too long.
fn too_long_refusal(alloc: Global) -> Result<Refusal, Memory>
    ensures { IfOk result (λ refusal. refusal ≡ blind FaultKind.TooLong) }
{
    let address = anonymous(alloc)?;
    Ok(Refusal {
        kind: FaultKind::TooLong,
        endpoint: plain_endpoint(alloc, address),
        relates: None,
        names: Names::new(alloc),
        ident: None,
    })
}

// The response to a body that is too long.
fn too_long(alloc: Global, media: Media) -> Result<Reply, Memory>
    ensures is { IfOk result (λ reply. reply ≡ fault_reply media (blind FaultKind.TooLong)) }
    ensures status { IfOk result (λ reply. IsWritten reply.status) }
{
    let refusal = too_long_refusal(alloc)?;
    fault_reply(alloc, &refusal, media)
}

/// The response to a body that is refused: the fault of that refusal, wherever it is to go.
/// - `is`: in the version of SOAP that is asked for, with the status of its kind.
pub fn fault_reply(alloc: Global, refusal: &Refusal, media: Media) -> Result<Reply, Memory>
    ensures is { IfOk result (λ reply. reply ≡ fault_reply media refusal.now) }
    ensures status { IfOk result (λ reply. IsWritten reply.status) }
{
    let body = fault_text(alloc, refusal, media)?;
    Ok(Reply {
        status: status_of_kind(refusal.kind, media),
        body,
    })
}

// The fault that answers a refusal, as a text.
fn fault_text(alloc: Global, refusal: &Refusal, media: Media) -> Result<Blob, Memory>
    ensures { IfOk result (λ text. text ≡ fault_text media refusal.now) }
{
    match media {
        Media::Soap12 => fault12_text(alloc, refusal),
        Media::Soap11 => fault11_text(alloc, refusal),
    }
}

fn fault12_text(alloc: Global, refusal: &Refusal) -> Result<Blob, Memory>
    ensures { IfOk result (λ text. text ≡ message_text soap_space (fault_of refusal.now None)) }
{
    let message = fault_message(alloc, refusal, None)?;
    encoded(alloc, message)
}

// The text of a message, which is let go: by a call of std's drop, since a derived one is taken apart where it stands.
fn encoded(alloc: Global, message: Message) -> Result<Blob, Memory>
    ensures { IfOk result (λ text. text ≡ message_text soap_space message) }
{
    let text = encode(alloc, &message);
    drop(message);
    text
}

// (SOAP 1.1 has a code for each kind)
fn fault11_text(alloc: Global, refusal: &Refusal) -> Result<Blob, Memory>
    ensures { IfOk result (λ text. text ≡ message11_text (fault_of refusal.now None)) }
{
    let message = fault_message(alloc, refusal, None)?;
    match encoded11(alloc, message)? {
        Some(text) => Ok(text),
        None => unreachable!(),
    }
}

fn encoded11(alloc: Global, message: Message) -> Result<Option<Blob>, Memory>
    ensures { IfOk result (λ text. text ≡ text11_if (has_code11 message.body) message) }
{
    let text = encode11(alloc, &message);
    drop(message);
    text
}
