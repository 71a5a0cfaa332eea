//! Why a call on a journal fails.

ghost use Rattle.std.specs.Prelude.{◌≡◌};
ghost use Rattle.rm_disk.specs.declared.journal.error.JournalError.TheVariants.{Memory as WantsMemory};
ghost use Rattle.rm_disk.specs.declared.journal.error.JournalError.TheVariants.{Disk as DiskFails};

use rm_base::{Failed, Memory};
use std::alloc::{AllocError, AllocFailed};
use thiserror::Error;

/// Why a call on a journal fails.
#[derive(Clone, Copy, Debug, PartialEq, Eq, Error)]
pub enum JournalError {
    #[error("out of memory")]
    Memory,
    #[error("the disk failed")]
    Disk,
    #[error("the disk holds no journal")]
    NotAJournal,
    /// An entry has at most `ENTRY_BYTES`.
    #[error("an entry of {len} bytes is too long")]
    EntryTooLong { len: u64 },
    /// A journal has at most `JOURNAL_BYTES`.
    #[error("no room for {needed} bytes behind {end}")]
    Full { end: u64, needed: u64 },
    /// An earlier call answered Disk: mount the disk again.
    #[error("the journal is down")]
    Down,
}

impl From<Memory> for JournalError {
    ghost from_gives = { λ _ e. e ≡ WantsMemory };

    fn from(_memory: Memory) -> JournalError {
        JournalError::Memory
    }
}

impl From<AllocError> for JournalError {
    ghost from_gives = { λ _ e. e ≡ WantsMemory };

    fn from(_error: AllocError) -> JournalError {
        JournalError::Memory
    }
}

impl<T: Drop> From<AllocFailed<T>> for JournalError {
    ghost from_gives = { λ _ e. e ≡ WantsMemory };

    fn from(_failed: AllocFailed<T>) -> JournalError {
        JournalError::Memory
    }
}

impl From<Failed> for JournalError {
    ghost from_gives = { λ _ e. e ≡ DiskFails };

    fn from(_failed: Failed) -> JournalError {
        JournalError::Disk
    }
}
