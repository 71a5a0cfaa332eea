//! What a message that comes to a node comes to: a fault, or its records and what is said then.
//! `receive` answers a message, by `receive_replies::verdict`, `records` and `receive_replies::said`.
//! `refuse` answers bytes that are no message.
//! - `records`: the records that a message adds. `put_rows` puts them ahead of the tables, by the receiving table.
#![tactic(auto)]

pub mod answers;
mod fault;
mod nacked;

pub use answers::{receive, refuse};

pub mod records;
