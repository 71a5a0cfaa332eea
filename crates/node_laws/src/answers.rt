//! What a call of a node comes to: whether it was done, the records that it adds, and what it says then. `seen` of
//! `specs/Answers/Answers` is the protocol's answer that one of the code stands for.

pub mod answer;
pub mod room;

pub use answer::{Answer, Cause, Moves, Outcome, Wish, no_moves};
pub use room::{has_room, if_room, refused};
