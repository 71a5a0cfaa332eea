//! What a snapshot is of a node's records: laws alone.

pub mod laws;

pub use laws::a_snapshot_is_kept;
