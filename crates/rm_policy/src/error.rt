//! Why an assertion was not read.
ghost use Rattle.std.specs.Prelude.{◌≡◌};
ghost use Rattle.rm_policy.specs.Refusal.{refusal_of};
ghost use Rattle.rm_policy.specs.declared.error.PolicyError.TheVariants.{Memory as WantsMemory};

use rm_base::{Blob, Memory};
use soap_document::profile::EnvelopeError;
use thiserror::Error;

/// Why bytes or an element are not read as an assertion. `name` is the local name of the first element that asks for
/// security of sequences, which we don't have.
#[derive(Debug, Drop, Error)]
pub enum PolicyError {
    #[error("out of memory")]
    Memory,
    #[error("the bytes are no document: {0}")]
    Envelope(EnvelopeError),
    #[error("the element is no assertion")]
    Malformed,
    #[error("security of sequences is asked for")]
    SecurityUnsupported { name: Blob },
}

impl From<Memory> for PolicyError {
    ghost from_gives = { λ _ e. e ≡ WantsMemory };

    fn from(_memory: Memory) -> PolicyError {
        PolicyError::Memory
    }
}

impl From<EnvelopeError> for PolicyError {
    ghost from_gives = { λ error e. e ≡ refusal_of error };

    fn from(error: EnvelopeError) -> PolicyError {
        match error {
            EnvelopeError::Memory => PolicyError::Memory,
            EnvelopeError::TooLong { .. }
            | EnvelopeError::NotUtf8 { .. }
            | EnvelopeError::NotProfile
            | EnvelopeError::WrongVersion
            | EnvelopeError::NotEnvelope => PolicyError::Envelope(error),
        }
    }
}
