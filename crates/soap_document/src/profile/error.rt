//! Why bytes are no document, no envelope or not to be read.
ghost use Rattle.std.specs.Prelude.{◌≡◌};

use rm_base::Memory;
use thiserror::Error;

/// Why a document or an envelope was not read.
#[derive(Clone, Copy, Debug, PartialEq, Eq, Error)]
pub enum EnvelopeError {
    #[error("out of memory")]
    Memory,
    #[error("{len} bytes are too many")]
    TooLong { len: usize },
    #[error("the bytes are UTF-8 up to {valid_up_to} alone")]
    NotUtf8 { valid_up_to: usize },
    #[error("the bytes are no document of the profile")]
    NotProfile,
    #[error("the envelope is of another version of SOAP")]
    WrongVersion,
    #[error("the document is no envelope")]
    NotEnvelope,
}

impl From<Memory> for EnvelopeError {
    ghost use Rattle.soap_document.specs.declared.profile.error.EnvelopeError.TheVariants.{Memory as WantsMemory};

    ghost from_gives = { λ _ e. e ≡ WantsMemory };

    fn from(_memory: Memory) -> EnvelopeError {
        EnvelopeError::Memory
    }
}
