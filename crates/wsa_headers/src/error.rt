//! Why header blocks or an endpoint reference were not read.
ghost use Rattle.std.specs.Prelude.{◌≡◌};
ghost use Rattle.wsa_headers.specs.declared.error.AddressingError.TheVariants.{Memory as WantsMemory};

use rm_base::{Blob, Memory};
use thiserror::Error;

/// Why there are no addressing properties, or no endpoint reference: SOAP Binding, section 6.4. `name` is the local
/// name of the header or the element.
#[derive(Debug, Drop, Error)]
pub enum AddressingError {
    #[error("out of memory")]
    Memory,
    #[error("a header stands there more than once")]
    Cardinality { name: Blob },
    #[error("a header is missing")]
    HeaderMissing { name: Blob },
    #[error("a header has no value of its kind")]
    BadHeader { name: Blob },
}

impl From<Memory> for AddressingError {
    ghost from_gives = { λ _ e. e ≡ WantsMemory };

    fn from(_memory: Memory) -> AddressingError {
        AddressingError::Memory
    }
}
