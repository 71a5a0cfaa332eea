//! One sequence of a node, as its tables keep it: a side that sends or one that receives, with the ticket of the last
//! request for it.

pub mod laws;
pub mod row;

pub use row::{Row, Start};
