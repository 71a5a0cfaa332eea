//! Tests of scripts that are played over durable nodes: what stands on the disks and on the wire.
//! - `command_tests`: the commands of `rm_command`, on input and output that fail.
//! - `relay_tests`: a relay of three nodes, and generated scripts of it.
//! Reports of scripts are cases of the command `replay`. Tests stand in crates of their own, since a crate with tests
//! is proved a second time with them.
#![tactic(auto)]

pub mod command_tests;
#[cfg(test)]
mod crashes;
#[cfg(test)]
mod messages;
#[cfg(test)]
mod polls;
pub mod relay_tests;
#[cfg(test)]
mod stage;
#[cfg(test)]
mod strangers;
