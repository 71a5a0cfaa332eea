//! Why a call on an outgoing sequence is refused.
ghost use Rattle.std.specs.Prelude.{◌≡◌};
ghost use Rattle.rm_sides.specs.declared.source.error.SourceError.TheVariants.{Memory as WantsMemory};

use crate::source::phase::OutPhase;
use rm_base::Memory;
use thiserror::Error;

/// Why a call on an outgoing sequence was refused. Nothing has changed then.
#[derive(Clone, Copy, Debug, PartialEq, Eq, Error)]
pub enum SourceError {
    #[error("out of memory")]
    Memory,
    #[error("the sequence is not open")]
    NotOpen { phase: OutPhase },
    #[error("{unacked} messages are not acknowledged")]
    WindowFull { unacked: u64 },
    /// The greatest message number is used: MessageNumberRollover of WS-ReliableMessaging 1.2, section 4.5.
    #[error("the message numbers are used up")]
    Rollover,
    /// A number is acknowledged that no message has: InvalidAcknowledgement of section 4.4.
    #[error("number {number} is acknowledged, and no message has it")]
    InvalidAck { number: u64 },
}

impl From<Memory> for SourceError {
    ghost from_gives = { λ _ error. error ≡ WantsMemory };

    fn from(_memory: Memory) -> SourceError {
        SourceError::Memory
    }
}
