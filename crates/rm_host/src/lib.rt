//! The commands of one node, over a disk, a link and a clock: `Host`.
//! `run` does what the words say, and answers an exit status. `words` reads the words of a command, `Command`.
//! - `commands`, `send`, `serve`, `consume`, `import`: the commands; those without a module of their own are in
//!   `commands`;
//! - `calls`: what commands do with the node and the link: one call, the packets posted, one connection taken;
//! - `program`: which function does which command, and what `main` needs beside;
//! - `end`: how a command ends, as a status and a line.
#![tactic(auto)]

mod calls;
pub mod commands;
pub mod consume;
pub mod end;
pub mod host;
pub mod import;
pub mod items;
pub mod laws;
pub mod program;
pub mod send;
pub mod serve;
pub mod show;
pub mod words;

pub use end::End;
pub use host::Host;
pub use program::{explain, explain_disk, run};
pub use words::is_of_node;
