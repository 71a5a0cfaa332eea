//! Lists of items, doubly linked by index in one table of slots, with a bound on the steps of each call. Contracts see
//! `Links` as lists of items beside the numbers of slots and of spare slots, and a `Steps` as how many slots were read
//! or written since it was made.

mod laws;
mod links;
mod nodes;
mod steps;

pub use laws::first_due_is_lowest;
pub use links::{Item, Links};
pub use steps::Steps;
