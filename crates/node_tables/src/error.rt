//! Why a record isn't applied.
ghost use Rattle.std.specs.Prelude.{◌≡◌};
ghost use Rattle.node_tables.specs.declared.error.TableError.TheVariants.{Memory as WantsMemory};

use rm_base::Memory;
use thiserror::Error;

/// Why a record isn't applied. Nothing has changed then.
#[derive(Clone, Copy, Debug, PartialEq, Eq, Error)]
pub enum TableError {
    #[error("out of memory")]
    Memory,
    #[error("the record does not fit")]
    Misfit,
}

impl From<Memory> for TableError {
    ghost from_gives = { λ _ e. e ≡ WantsMemory };

    fn from(_memory: Memory) -> TableError {
        TableError::Memory
    }
}
