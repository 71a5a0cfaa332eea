//! The tables of a node with records ahead of them that are not in the journal yet, and what both say together.
//! `Known` borrows the `Tables`, which stay as they are. `push` puts one more record ahead; readers answer by both.
//! So a call works out its batch record by record, and `into_batch` hands it out.
#![tactic(auto)]

mod batch;
pub mod known;
mod numbers;
mod record;
mod sides;
mod sought;

pub use known::Known;
