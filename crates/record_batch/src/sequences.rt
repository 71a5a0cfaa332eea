//! What a list of records says of each sequence of a node, which record may come next, and the identifiers that a node
//! issues. The definitions stand in `specs/Sequences`.

pub mod idents;
pub mod laws;
pub mod records;

pub use idents::{is_issued, issue, issued_counter};
pub use records::made_by;
