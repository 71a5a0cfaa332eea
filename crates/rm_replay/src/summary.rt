//! What a node knows at the end of a script, as the last lines of a report: each of its sequences, and what is in its
//! inboxes.

pub mod summary;

pub use summary::push_node;
