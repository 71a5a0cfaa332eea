//! Why there is no normal form.
ghost use Rattle.std.specs.Prelude.{◌≡◌};
ghost use Rattle.rm_policy.specs.Alternatives.Refusal.{flaw_refusal, refusal_of};
ghost use Rattle.rm_policy.specs.declared.alternatives.error.WspError.TheVariants.{Memory as WantsMemory};

use rm_base::{Blob, Memory};
use soap_document::profile::EnvelopeError;
use soap_writer::values::Flaw;
use thiserror::Error;

/// Why a policy is not read, or has no normal form within the limits. `name` is the local name of the first element
/// that asks for security of sequences, which we don't have.
#[derive(Debug, Drop, Error)]
pub enum WspError {
    #[error("out of memory")]
    Memory,
    #[error("the bytes are no document: {0}")]
    Envelope(EnvelopeError),
    #[error("the document is no policy")]
    Malformed,
    #[error("security of sequences is asked for")]
    SecurityUnsupported { name: Blob },
    #[error("the document has {elements} elements")]
    TooLarge { elements: u64 },
    #[error("the policy has {count} terms")]
    TooManyTerms { count: u64 },
    #[error("an operator has too many alternatives")]
    TooManyAlternatives,
}

impl From<Memory> for WspError {
    ghost from_gives = { λ _ e. e ≡ WantsMemory };

    fn from(_memory: Memory) -> WspError {
        WspError::Memory
    }
}

impl From<Flaw> for WspError {
    ghost from_gives = { λ flaw e. e ≡ flaw_refusal flaw };

    fn from(flaw: Flaw) -> WspError {
        match flaw {
            Flaw::Memory => WspError::Memory,
            Flaw::Malformed => WspError::Malformed,
        }
    }
}

impl From<EnvelopeError> for WspError {
    ghost from_gives = { λ error e. e ≡ refusal_of error };

    fn from(error: EnvelopeError) -> WspError {
        match error {
            EnvelopeError::Memory => WspError::Memory,
            EnvelopeError::TooLong { .. }
            | EnvelopeError::NotUtf8 { .. }
            | EnvelopeError::NotProfile
            | EnvelopeError::WrongVersion
            | EnvelopeError::NotEnvelope => WspError::Envelope(error),
        }
    }
}
