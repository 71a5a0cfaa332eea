//! Tests of `rm_serve`, of the commands of `rm_host` and of `rm_station`, over a disk, a link and a clock in memory.
//! - `serves`, `posts`, `peer` and `refusals`: what `rm_serve` writes, in SOAP 1.1 and where a request is bad.
//! - `running`: a node that runs, over a traffic in memory.
//! - the others: `serve`, `serve11` and `import` on a host in memory (`machine`, `watched`).
//! Tests stand in crates of their own, since a crate with tests is proved a second time with them.
#![tactic(auto)]

#[cfg(test)]
mod eleven;
#[cfg(test)]
mod granting;
#[cfg(test)]
mod importing;
#[cfg(test)]
mod machine;
#[cfg(test)]
mod peer;
#[cfg(test)]
mod posts;
#[cfg(test)]
mod refusals;
#[cfg(test)]
mod running;
#[cfg(test)]
mod serves;
#[cfg(test)]
mod serving;
#[cfg(test)]
mod watched;
