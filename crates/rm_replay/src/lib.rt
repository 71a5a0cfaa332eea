//! Scripts, played over two durable nodes on two disks with a wire between them.
//! `run_script` plays a list of events on a `Stage`, and answers the report.
//! - `actor`: one node of a script, `Actor`, with its clock, over a disk that may be armed and crash.
//! - `summary`: what a node knows at the end of a script, as text.
#![tactic(auto)]

mod ask;
mod happen;
pub mod laws;
mod play;
pub mod run;
pub mod stage;
mod wire;

pub use run::run_script;
pub use stage::Stage;

pub mod actor;
pub mod summary;
