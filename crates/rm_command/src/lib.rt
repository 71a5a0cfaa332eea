//! The commands that need no node of their own, over any input and output, any two disks and any wire.
//! `run` does what the words of a command say, and answers an exit status. A module does each command:
//! - `replay`: plays a script over two nodes, and prints the report; `soak`: plays one that a number generates;
//! - `check` and `check_text`: print what the message of an envelope says;
//! - `policy` and `policy_text`: print what an assertion says;
//! - `alternatives`: `normal` and `intersect` print the normal form of a policy, and what two policies have in common.
//! `filter` reads the input and writes the output, and `end` has how a command ends.
#![tactic(auto)]

mod alternatives;
mod check;
mod check_text;
mod command;
pub mod end;
pub mod filter;
mod policy;
mod policy_text;
mod replay;
mod soak;

pub use command::run;
pub use end::{End, Fault};
