//! Why an envelope has no message.
ghost use Rattle.std.specs.Prelude.{◌≡◌};
ghost use Rattle.message_reader.specs.declared.cause.Cause.TheVariants.{Memory as WantsMemory};

use rm_base::{Ident, Memory};
use rm_message::Names;
use wsa_headers::Addressing;

/// Why an envelope has no message. What its fault needs of the message is kept.
#[derive(Debug, Drop)]
pub(crate) enum Cause {
    Memory,
    NotUnderstood(Names),
    Cardinality,
    HeaderMissing,
    BadHeader,
    Malformed(Addressing),
    Rollover(Addressing, Ident),
}

impl From<Memory> for Cause {
    ghost from_gives = { λ _ e. e ≡ WantsMemory };

    fn from(_memory: Memory) -> Cause {
        Cause::Memory
    }
}
