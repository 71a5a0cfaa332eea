//! One node of a script: a durable node with its clock, over a disk that may be armed and crash. Each call is the step
//! of the protocol's own node, `rm_protocol`: what the code keeps and what is on the disk stand for it, before and
//! after.

pub mod actor;
pub mod ask;
pub mod compact;
pub mod crash;
pub mod laws;
mod outcome;

pub use actor::{Actor, Came};
