//! Policies of reliable messaging in normal form: which sets of assertions a policy admits, and what two policies have
//! in common. Contracts say by `specs/Alternatives` what is admitted, in the terms of WS-Policy, and never how it is
//! found.

mod combine;
pub mod common;
pub mod error;
pub mod find;
mod gather;
mod kind;
pub mod laws;
mod masks;
pub mod normal;
mod order;
pub mod pieces;
pub mod policy;
pub mod read;
pub mod term;
mod tree;
pub mod write;

pub use common::intersect;
pub use error::WspError;
pub use find::{find_common, find_normal};
pub use normal::normalise;
pub use pieces::{Piece, pieces_of};
pub use policy::{Policies, Policy};
pub use read::{read_pair, read_policy};
pub use term::{Alternatives, Term, Terms};
pub use write::{write_normal, write_pieces};
