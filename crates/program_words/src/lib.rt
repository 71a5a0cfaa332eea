//! What the program says on standard error where its words are no command. Whether they are one is decided elsewhere,
//! and is never asked here: the kit's `clap` reads the words once more, over a table of all commands.
//! `tell` prints the list of commands, the help of one, or what is wrong with a word of it.
//! - `table`: each command with the words behind its name;
//! - `tree`: that table for clap;
//! - `shape`: what is asked of a word before clap reads it, and of a number besides.
#![tactic(auto)]

mod advice;
mod shape;
mod table;
mod tree;

pub use advice::{tell, tell_of};
