//! Tests of `rm_base`, `rm_sides`, `rm_disk`, `timers` and `service_turns`, in a module for each module that is tested.
//! Tests stand in crates of their own, since a crate with tests is proved a second time with them.
#![tactic(auto)]

#[cfg(test)]
mod base;
#[cfg(test)]
mod destination;
#[cfg(test)]
mod disk;
#[cfg(test)]
mod journal;
#[cfg(test)]
mod keyed;
#[cfg(test)]
mod lists;
#[cfg(test)]
mod pending;
mod plain;
#[cfg(test)]
mod ranges;
#[cfg(test)]
mod service;
#[cfg(test)]
mod source;
#[cfg(test)]
mod twin;
#[cfg(test)]
mod waiting;
