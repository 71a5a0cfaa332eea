//! A node that runs: the desk of a service, `Station`. It answers peers of SOAP 1.2 and an application, one thing at a
//! time, over its disk and a clock.
//! `attend` finds the node on its disk, and takes turns until it is told to stop. Each turn is calls of the node, in
//! order: contracts say which, what was given back, and what all of them leave on the disk.
//! - `station`: what is done of each thing that comes;
//! - `ask`: what an application asks, `Ask`; `said`: what it is told; `reads`: what it reads;
//! - `calls`: the calls of the node, each as one step; `laws`: what follows of a run.
#![tactic(auto)]

pub mod ask;
pub mod calls;
pub mod laws;
pub mod reads;
pub mod running;
mod said;
pub mod station;

pub use ask::{Ask, Next};
pub use calls::find;
pub use rm_host::words::Grant;
pub use rm_host::{End, explain_disk};
pub use running::attend;
pub use station::Station;
