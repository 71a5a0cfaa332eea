//! The network between nodes, which keeps every packet that was ever sent: the trait `Wire`, and `MemWire`, a wire in
//! memory. Contracts see a wire as the list of all packets, each with the node that it goes to. A packet for which the
//! wire has no room is lost.

pub mod laws;
pub mod mem;
pub mod wire;

pub use mem::MemWire;
pub use wire::{Packet, Wire};
