//! Reports of nodes, as text: a line for each line of a script of two nodes, and what the node with a number knows
//! after the last one; and how a command may end, as a status and a line. Each writer appends what
//! `specs/Report/Report` says. The statuses and lines of `exits` are those of `specs/Report/Exits`.

pub mod exits;
pub mod line;
mod names;
pub mod summary;

pub use line::{Line, Outcome, Reason, push_lines};
pub use summary::{
    Place, push_consumed, push_down, push_in, push_item, push_out, push_ranges, push_receiving,
    push_sending,
};
