//! A relay of three durable nodes: what the second one received from the first it forwards to the third, each item
//! once, though all three may stop at any device call.
//! `relay_run` plays a script of three nodes on a `Stage3`. `forward` and `trim` are the relay's own calls.
//! - `word`: the promise from end to end, by the protocol alone.
#![tactic(auto)]

pub mod event;
mod happen;
pub mod laws;
mod line;
pub mod onward;
pub mod play;
pub mod relay;
mod report;
pub mod run;
pub mod script;
pub mod stage;
mod wire;

pub use event::Event;
pub use onward::{Ends, find_ends, forward, may_forward, trim};
pub use relay::relay_run;
pub use stage::Stage3;

pub mod word;
