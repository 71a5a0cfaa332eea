//! A service that runs: what comes to it, one thing at a time, from peers, from its application and from packets that
//! it posted, or nothing in the time that it waits; and the loop that hands each to a desk and gives back what the desk
//! says. It stands on `rm_base` alone. The layer above may use of a run that it was turns, one after the other, each of
//! which the desk did, with what was given back in each; that a run keeps what turns keep (`specs/TurnLaws`); and, of
//! one that went well over a traffic that tells, all that came and was given back, in order (`specs/TurnTold`).
#![tactic(auto)]

pub mod desk;
pub mod mem;
pub mod past;
pub mod traffic;
pub mod turns;

pub use desk::Desk;
pub use mem::MemTraffic;
pub use past::Note;
pub use traffic::{Event, Packet, Packets, Traffic};
pub use turns::{Halt, run};
