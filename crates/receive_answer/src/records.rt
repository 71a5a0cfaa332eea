//! The records that a message adds, by the receiving table: those of its acknowledgements, and then that of its body.

mod acks;
mod bodies;
mod create;
mod faults;
mod offers;
pub mod rows;

pub use rows::put_rows;
