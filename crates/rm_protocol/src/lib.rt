//! The protocol as a pure core: definitions and laws, with no code.
//! `specs/Node` and `specs/Calls` say what a node does for each call, `specs/Rows` what a message adds to its records,
//! `specs/Verdict` which fault it gets, and `specs/Said` what is said then.
//! `specs/World` has two nodes and the packets between them, and `happens`, what one event does to these.
//! `specs/Word` has the promise of two nodes, the headline, and `specs/Crashes` the same of what crashes leave.
//! - `laws`: each run of two nodes keeps the headline, and what else is true of all runs.
#![tactic(auto)]

pub mod laws;
