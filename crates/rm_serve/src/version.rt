//! What a peer says to the node, and what it is told, in the version of SOAP that it speaks.
ghost use Rattle.std.specs.Prelude.{◌≡◌, IfOk};
ghost use Rattle.http_endpoint.specs.declared.media.Media.TheVariants.{Soap11};
ghost use Rattle.rm_serve.specs.Versions.{Enters, IsReply, IsTold, kept_out_by, untold_by};

use http_endpoint::Media;
use message_reader::decode;
use rm_base::{Blob, Memory};
use rm_message::{DecodeError, Refusal};
use rm_wire::soap11::{decode11, lift, lower};
use std::alloc::Global;

/// What becomes of a body: these bytes are given to the node, or it is kept out for this refusal.
#[derive(Debug, Drop)]
pub(crate) enum Entry {
    Admitted(Blob),
    KeptOut(Refusal),
}

/// What becomes of a body.
pub(crate) fn enter(alloc: Global, body: Blob, media: Media) -> Result<Entry, Memory>
    ensures { IfOk result (Enters media body) }
{
    match media {
        Media::Soap12 => Ok(Entry::Admitted(body)),
        Media::Soap11 => lifted(alloc, body.as_slice()),
    }
}

fn lifted(alloc: Global, body: &[u8]) -> Result<Entry, Memory>
    ensures { IfOk result (Enters Soap11 body.now) }
{
    match decode11(alloc, body) {
        Ok(message) => {
            let bytes = lift(alloc, &message)?;
            Ok(Entry::Admitted(bytes))
        }
        Err(error) => kept_out(error),
    }
}

// What a body that could not be read comes to.
fn kept_out(error: DecodeError) -> Result<Entry, Memory>
    ensures { result ≡ kept_out_by error }
{
    match error {
        DecodeError::Memory => Err(Memory),
        DecodeError::Refused(refusal) => Ok(Entry::KeptOut(refusal)),
    }
}

/// What a peer is told of what the node says.
pub(crate) fn tell(alloc: Global, bytes: Blob, media: Media) -> Result<Option<Blob>, Memory>
    ensures { IfOk result (IsTold media bytes) }
{
    match media {
        Media::Soap12 => Ok(Some(bytes)),
        Media::Soap11 => lowered(alloc, bytes.as_slice()),
    }
}

fn lowered(alloc: Global, bytes: &[u8]) -> Result<Option<Blob>, Memory>
    ensures { IfOk result (IsTold Soap11 bytes.now) }
{
    match decode(alloc, bytes) {
        Ok(message) => {
            let text = lower(alloc, &message)?;
            Ok(text)
        }
        Err(error) => untold(error),
    }
}

// What is told of bytes that could not be read.
fn untold(error: DecodeError) -> Result<Option<Blob>, Memory>
    ensures { result ≡ untold_by error }
{
    match error {
        DecodeError::Memory => Err(Memory),
        DecodeError::Refused(_) => Ok(None),
    }
}

/// What a peer is told of a reply, where there is one.
pub(crate) fn tell_reply(
    alloc: Global,
    reply: Option<Blob>,
    media: Media,
) -> Result<Option<Blob>, Memory>
    ensures { IfOk result (IsReply media reply) }
{
    match reply {
        Some(bytes) => tell(alloc, bytes, media),
        None => Ok(None),
    }
}
