//! How many bytes a batch of records takes, without writing it. By the laws a batch that fits into a journal's entry
//! may be written and is read back.

pub mod laws;
pub mod parts;
pub mod size;

pub use parts::element_len;
pub use size::batch_len;
