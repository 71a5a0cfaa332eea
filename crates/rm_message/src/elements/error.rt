//! Why an element was not read.
ghost use Rattle.std.specs.Prelude.{◌≡◌};
ghost use Rattle.rm_message.specs.declared.elements.error.ElementError.TheVariants.{Memory as WantsMemory};

use rm_base::{Blob, Ident, Memory};
use thiserror::Error;

/// Why a header block or a body element has no value. `name` is the local name of the element that was given, and
/// `ident` the sequence whose MessageNumber is above the greatest.
#[derive(Debug, Drop, Error)]
pub enum ElementError {
    #[error("out of memory")]
    Memory,
    #[error("the element is malformed")]
    Malformed { name: Blob },
    #[error("the message number is above the greatest")]
    Rollover { ident: Ident },
}

impl From<Memory> for ElementError {
    ghost from_gives = { λ _ e. e ≡ WantsMemory };

    fn from(_memory: Memory) -> ElementError {
        ElementError::Memory
    }
}
