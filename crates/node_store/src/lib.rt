//! The records of one node on a disk: a journal of batches, and the tables of their records.
//! `Store` has both: `make` begins a node, `mount` reads one back, `append` writes the records of a call as one batch.
//! A crash at any device call leaves the batches as they were, or with the one being written.
//! `compact` writes the journal anew from a snapshot, and `import` takes one of the layout before.
#![tactic(auto)]

mod commit;
mod endpoints;
pub mod error;
mod format;
mod import;
pub mod laws;
mod limits;
mod mount;
mod replay;
mod rewrite;
pub mod store;
mod windows;

pub use error::{ImportError, MountError, RewriteError, StoreError};
pub use store::Store;
