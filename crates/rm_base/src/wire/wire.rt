//! The trait of a wire, and its packets.

ghost use Rattle.std.specs.Prelude.{◌≡◌, ℕ, List, length, IfOk, OnOk, OnErr};
ghost use Rattle.std.specs.Option.{option_map};
ghost use Rattle.rm_base.specs.Numbered.{numbered};
ghost use Rattle.rm_base.specs.Wire.Wire.{contents, has_room, with_packet};

use crate::Memory;

/// A packet on a wire.
#[derive(Clone, Copy, Debug)]
pub struct Packet<'a> {
    /// The number of the node that it goes to.
    pub to: u8,
    /// The text of a message.
    pub bytes: &'a [u8],
}

/// A network that keeps all packets in the order in which they were put, so that each of them can be delivered at any
/// later time, any number of times or never. It has no faults.
pub trait Wire {
    /// All packets, each with the node that it goes to.
    ghost packets: { Self → List (ℕ × List ℕ) };

    /// One more packet. Where the wire has no room for it, it is lost, and the answer is false.
    /// - `taken`: a wire has at most 65536 packets, and 536870912 bytes together.
    fn put(&mut self, to: u8, bytes: &[u8]) -> Result<bool, Memory>
        ensures taken { IfOk result (λ taken. taken ≡ has_room (packets self.old) (length bytes.now)) }
        ensures ok { OnOk result (packets self.new ≡ with_packet (packets self.old) to bytes.now) }
        ensures err { OnErr result (packets self.new ≡ packets self.old) };

    /// The packet with a number, counted from 1.
    fn get(&self, k: u64) -> Option<Packet<'_>>
        ensures { option_map contents result ≡ numbered (packets self.now) k };

    /// How many packets there are.
    fn count(&self) -> u64
        ensures { result ≡ length (packets self.now) };
}
