//! Tests of `http_endpoint`, of `rm_edge`, of `rm_base::wire`, of `rm_disk::file` and of `rm_script`.
//! Tests stand in crates of their own, since a crate with tests is proved a second time with them.
#![tactic(auto)]

#[cfg(test)]
mod application;
#[cfg(test)]
mod edge;
#[cfg(test)]
mod file;
#[cfg(test)]
mod link;
#[cfg(test)]
mod peer;
#[cfg(test)]
mod peers;
#[cfg(test)]
mod report;
#[cfg(test)]
mod requests;
#[cfg(test)]
mod responses;
#[cfg(test)]
mod script;
#[cfg(test)]
mod soak;
#[cfg(test)]
mod wire;
#[cfg(test)]
mod written;
