//! Why a message was not read or written.
ghost use Rattle.std.specs.Prelude.{◌≡◌};
ghost use Rattle.http_endpoint.specs.Failing.{error_of};
ghost use Rattle.http_endpoint.specs.declared.error.HttpError.TheVariants.{Memory as WantsMemory};
ghost use Rattle.http_endpoint.specs.declared.error.HttpError.TheVariants.{ReadFault as ReadFails};

use rm_base::{Failed, Memory, SinkError};
use std::alloc::AllocError;
use thiserror::Error;

/// Why a message was not read or written.
#[derive(Clone, Copy, Debug, PartialEq, Eq, Error)]
pub enum HttpError {
    #[error("out of memory")]
    Memory,
    #[error("a read failed")]
    ReadFault,
    #[error("a write failed")]
    WriteFault,
    #[error("bad head")]
    BadHead,
    #[error("body too long, {taken} bytes were taken")]
    TooLong { taken: u64 },
    #[error("unsupported, status {status}")]
    Unsupported { status: u16 },
    #[error("the input ended inside a message")]
    CutShort,
}

impl From<Memory> for HttpError {
    ghost from_gives = { λ _ e. e ≡ WantsMemory };

    fn from(_memory: Memory) -> HttpError {
        HttpError::Memory
    }
}

impl From<AllocError> for HttpError {
    ghost from_gives = { λ _ e. e ≡ WantsMemory };

    fn from(_error: AllocError) -> HttpError {
        HttpError::Memory
    }
}

impl From<Failed> for HttpError {
    ghost from_gives = { λ _ e. e ≡ ReadFails };

    fn from(_failed: Failed) -> HttpError {
        HttpError::ReadFault
    }
}

impl From<SinkError> for HttpError {
    ghost from_gives = { λ s e. e ≡ error_of s };

    fn from(error: SinkError) -> HttpError {
        match error {
            SinkError::Memory => HttpError::Memory,
            SinkError::Failed => HttpError::WriteFault,
        }
    }
}
