//! A message as lines of text: what it is, and a line for each thing that it has.

mod body;
mod lines;
mod values;

pub use lines::message_lines;
pub use values::push_ranges;
