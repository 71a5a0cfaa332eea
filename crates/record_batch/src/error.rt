//! Why bytes are no batch.
ghost use Rattle.std.specs.Prelude.{◌≡◌};
ghost use Rattle.record_batch.specs.declared.error.BatchError.TheVariants.{Memory as WantsMemory};

use rm_base::Memory;
use thiserror::Error;

/// Why no records were read.
#[derive(Clone, Copy, Debug, PartialEq, Eq, Error)]
pub enum BatchError {
    #[error("out of memory")]
    Memory,
    /// The place of the first record that can't be read, or behind all of them; 0 where there is no number of records,
    /// or it is 0.
    #[error("the bytes are no batch, at {at}")]
    NotABatch { at: usize },
}

impl From<Memory> for BatchError {
    ghost from_gives = { λ _ e. e ≡ WantsMemory };

    fn from(_memory: Memory) -> BatchError {
        BatchError::Memory
    }
}
