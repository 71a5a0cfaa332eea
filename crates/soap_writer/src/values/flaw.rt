//! Why a value was not read.
ghost use Rattle.std.specs.Prelude.{◌≡◌};
ghost use Rattle.soap_writer.specs.declared.values.flaw.Flaw.TheVariants.{Memory as WantsMemory};

use rm_base::Memory;
use std::alloc::{AllocError, AllocFailed};
use thiserror::Error;

/// Why a value was not read: memory ran out, or there is none of its kind. It names nothing; who reads a whole element
/// or block does.
#[derive(Clone, Copy, Debug, PartialEq, Eq, Error)]
pub enum Flaw {
    #[error("out of memory")]
    Memory,
    #[error("not a value of its kind")]
    Malformed,
}

impl From<Memory> for Flaw {
    ghost from_gives = { λ _ e. e ≡ WantsMemory };

    fn from(_memory: Memory) -> Flaw {
        Flaw::Memory
    }
}

impl From<AllocError> for Flaw {
    ghost from_gives = { λ _ e. e ≡ WantsMemory };

    fn from(_error: AllocError) -> Flaw {
        Flaw::Memory
    }
}

impl<T: Drop> From<AllocFailed<T>> for Flaw {
    ghost from_gives = { λ _ e. e ≡ WantsMemory };

    fn from(_failed: AllocFailed<T>) -> Flaw {
        Flaw::Memory
    }
}
