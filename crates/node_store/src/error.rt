//! Why a node's records were not written, or not found.
ghost use Rattle.std.specs.Prelude.{◌≡◌};
ghost use Rattle.node_store.specs.declared.error.StoreError.TheVariants.{Memory as WantsMemory};
ghost use Rattle.node_store.specs.declared.error.MountError.TheVariants.{Memory as NoMemory};
ghost use Rattle.node_store.specs.declared.error.RewriteError.TheVariants.{Memory as LacksMemory};

use rm_base::Memory;
use std::alloc::{AllocError, AllocFailed};
use thiserror::Error;

/// Why a node's records were not written.
#[derive(Clone, Copy, Debug, PartialEq, Eq, Error)]
pub enum StoreError {
    #[error("out of memory")]
    Memory,
    #[error("the disk failed")]
    Disk,
}

impl From<Memory> for StoreError {
    ghost from_gives = { λ _ e. e ≡ WantsMemory };

    fn from(_memory: Memory) -> StoreError {
        StoreError::Memory
    }
}

impl From<AllocError> for StoreError {
    ghost from_gives = { λ _ e. e ≡ WantsMemory };

    fn from(_error: AllocError) -> StoreError {
        StoreError::Memory
    }
}

impl<T: Drop> From<AllocFailed<T>> for StoreError {
    ghost from_gives = { λ _ e. e ≡ WantsMemory };

    fn from(_failed: AllocFailed<T>) -> StoreError {
        StoreError::Memory
    }
}

/// Why no node was found on a disk.
#[derive(Clone, Copy, Debug, PartialEq, Eq, Error)]
pub enum MountError {
    #[error("out of memory")]
    Memory,
    #[error("the disk failed")]
    Disk,
    #[error("the disk holds no journal of a node")]
    NotAJournal,
}

impl From<Memory> for MountError {
    ghost from_gives = { λ _ e. e ≡ NoMemory };

    fn from(_memory: Memory) -> MountError {
        MountError::Memory
    }
}

/// Why a node's journal was not written anew.
#[derive(Clone, Copy, Debug, PartialEq, Eq, Error)]
pub enum RewriteError {
    #[error("out of memory")]
    Memory,
    #[error("the disk failed")]
    Disk,
    /// An entry would be longer than one may be, or the journal: it ends here, and this is how many bytes are wanted.
    #[error("no room for a journal of {needed} bytes more, which ends at {end}")]
    Full { end: u64, needed: u64 },
}

/// Why a disk was not made that of the node whose journal of the layout before was given.
#[derive(Clone, Copy, Debug, PartialEq, Eq, Error)]
pub enum ImportError {
    #[error("out of memory")]
    Memory,
    #[error("the disk failed")]
    Disk,
    #[error("the bytes are no journal of a node in the layout before")]
    NotAJournal,
    /// The journal would be longer than it may be: its list begins at `end`, and takes this many bytes.
    #[error("no room for a journal of {needed} bytes more, which ends at {end}")]
    Full { end: u64, needed: u64 },
}

impl From<Memory> for RewriteError {
    ghost from_gives = { λ _ e. e ≡ LacksMemory };

    fn from(_memory: Memory) -> RewriteError {
        RewriteError::Memory
    }
}
