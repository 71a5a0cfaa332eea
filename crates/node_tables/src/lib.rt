//! The tables of a node in memory: what its records say of each sequence.
//! `Tables` is seen as the list of all records so far. `fits` tells whether a record may come next, `apply` and
//! `apply_all` apply records, for which `reserve` made room, and readers such as `outgoing`, `incoming` and
//! `find_incoming` look sequences up. `snapshot` says the records in short.
//! - `row`: one sequence in the tables, `Row`: a side that sends or one that receives.
#![tactic(auto)]

mod ahead;
mod claims;
mod copies;
mod error;
mod find;
pub mod laws;
pub mod maker;
mod note;
pub mod peer;
mod record;
mod rows;
mod snapshot;
pub mod tables;

pub use error::TableError;
pub use maker::{Maker, maker_by};
pub use peer::{Asked, Grant, Peer};
pub use tables::Tables;

pub mod row;
