//! What `soak N` adds to a replay: its number as a word, the script that the number generates, and the summary of the
//! report. By the laws such a script is read, and the counts of a summary add up.

mod counts;
mod cut;
pub mod laws;
mod number;
mod turns;

pub use counts::summary;
pub use number::number_in;
pub use turns::script;
