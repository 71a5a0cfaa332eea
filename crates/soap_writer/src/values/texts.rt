//! Addresses and identifiers.
ghost use Rattle.std.specs.Prelude.{◌≡◌};
ghost use Rattle.soap_writer.specs.Values.Outcome.{Gives};
ghost use Rattle.soap_writer.specs.Values.Steps.{flaw_from};
ghost use Rattle.soap_writer.specs.Values.Values.{text_within};

use crate::values::flaw::Flaw;
use rm_base::{Ident, TextError, Uri};
use std::alloc::Global;

/// An identifier of a sequence. Malformed exactly where the bytes are no text of 1 to 512 bytes.
pub fn read_ident(alloc: Global, bytes: &[u8]) -> Result<Ident, Flaw>
    ensures { Gives (λ ident. ident) result (text_within 512 bytes.now) }
{
    match Ident::from_slice(alloc, bytes) {
        Ok(ident) => Ok(ident),
        Err(error) => Err(flaw_of(error)),
    }
}

/// An address, an action or a message's name. Malformed exactly where the bytes are no text of 1 to 2048 bytes.
pub fn read_uri(alloc: Global, bytes: &[u8]) -> Result<Uri, Flaw>
    ensures { Gives (λ uri. uri) result (text_within 2048 bytes.now) }
{
    match Uri::from_slice(alloc, bytes) {
        Ok(uri) => Ok(uri),
        Err(error) => Err(flaw_of(error)),
    }
}

fn flaw_of(error: TextError) -> Flaw
    ensures { result ≡ flaw_from error }
{
    match error {
        TextError::Memory => Flaw::Memory,
        _ => Flaw::Malformed,
    }
}
