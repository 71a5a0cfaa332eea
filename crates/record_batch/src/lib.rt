//! The records that a node's journal holds, and what a list of them says.
//! A `Record` is one fact that the node has written down for good. `write_batch` writes a batch of records as bytes,
//! and `read_batch` reads it; by the laws what is written is read back and nothing else is.
//! - `sequences`: definitions of what records say of each sequence and which record may come next; `issue` makes the
//!   identifiers that a node hands out.
//! - `snapshot`: laws alone: a shorter list says the same of all that is still needed.
#![tactic(auto)]

pub mod copy;
pub mod error;
pub mod laws;
pub mod read;
mod readers;
pub mod record;
pub mod write;
mod writers;

pub use copy::{copy_acked, copy_payload, copy_purged, copy_received};
pub use error::BatchError;
pub use read::read_batch;
pub use record::{OwnOffer, PeerOffer, Record, Records, Via};
pub use write::write_batch;

pub mod sequences;
pub mod snapshot;
