//! How messages on an incoming sequence are answered.
ghost use Rattle.std.specs.Prelude.{◌≡◌};
ghost use Rattle.rm_sides.specs.declared.destination.outcome.DestError.TheVariants.{Memory as WantsMemory};

use rm_base::Memory;
use thiserror::Error;

/// How far an incoming sequence is in its life.
#[derive(Clone, Copy, Debug, PartialEq, Eq)]
pub enum InPhase {
    Open,
    Closed,
    Ended,
}

/// What a message is that came on a sequence that takes messages. Only a new one is received.
#[derive(Clone, Copy, Debug, PartialEq, Eq)]
pub enum Took {
    New,
    Duplicate,
    PastWindow { front: u64 },
}

/// Why a call on an incoming sequence was refused. Nothing has changed then.
#[derive(Clone, Copy, Debug, PartialEq, Eq, Error)]
pub enum DestError {
    #[error("out of memory")]
    Memory,
    /// SequenceClosed of WS-ReliableMessaging 1.2, section 4.7.
    #[error("the sequence is closed")]
    Closed,
    /// SequenceTerminated of section 4.2.
    #[error("the sequence is terminated")]
    Terminated,
    /// More items are consumed than the inbox has.
    #[error("the inbox has {have} items")]
    PastInbox { have: u64 },
}

impl From<Memory> for DestError {
    ghost from_gives = { λ _ error. error ≡ WantsMemory };

    fn from(_memory: Memory) -> DestError {
        DestError::Memory
    }
}
