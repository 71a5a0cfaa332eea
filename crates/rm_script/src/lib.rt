//! Scripts of two nodes, and the texts that commands print.
//! `read_script` reads a script as a list of `Event`, one for each line, or answers its first bad line.
//! `word` and `first_line` cut lines into words, for other scripts too.
//! - `message_lines`: a message as lines of text, as `check` prints it.
//! - `report`: the lines of a report, and how a command may end, `exits`.
//! - `soak`: the script that a number generates, and the summary of its report.
#![tactic(auto)]

pub mod decimal;
pub mod event;
pub mod laws;
pub mod line;
pub mod script;
pub mod word;

pub use decimal::number_of;
pub use event::{Event, Side};
pub use script::{ScriptError, read_script};

pub mod message_lines;
pub mod report;
pub mod soak;
