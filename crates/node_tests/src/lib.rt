//! Tests of `rm_node`: messages in and packets out, what is refused, and what is left where the disk fails.
//! Tests stand in crates of their own, since a crate with tests is proved a second time with them.
#![tactic(auto)]

#[cfg(test)]
mod calls;
#[cfg(test)]
mod consumes;
#[cfg(test)]
mod destinations;
#[cfg(test)]
mod device;
#[cfg(test)]
mod given;
#[cfg(test)]
mod limits;
#[cfg(test)]
mod peer;
#[cfg(test)]
mod polled;
#[cfg(test)]
mod rows;
#[cfg(test)]
mod sources;
#[cfg(test)]
mod stops;
#[cfg(test)]
mod texts;
#[cfg(test)]
mod verdicts;
