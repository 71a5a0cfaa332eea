//! What a line of a script says.
use rm_base::{Behaviour, Blob, Lapse};
use std::mem::size_of;

const _: () = prove!(size_of::<Event>() == 32);

/// One of the two nodes.
#[derive(Clone, Copy, Debug, PartialEq, Eq)]
pub enum Side {
    One,
    Two,
}

/// What one line of a script says: what a node is asked for, or what befalls it. `seq` is the place of a sequence among
/// those of its node, counted from 1.
#[derive(Debug, Drop)]
pub enum Event {
    /// The line is empty, or a comment.
    Nothing,
    /// A sequence to the other node is asked for. A lapse of zero never expires. What comes back goes to the address of
    /// the node, or where it is `polled`, waits at the other node until it is asked for.
    Create {
        node: Side,
        expires: Lapse,
        polled: bool,
        offer: Option<Behaviour>,
    },
    /// What the node announces from now on for incoming sequences.
    Grant {
        node: Side,
        behaviour: Behaviour,
    },
    /// The payload `text` is accepted.
    Send {
        node: Side,
        seq: u32,
        text: Blob,
    },
    /// The clock is set, in milliseconds since 1970, and runs.
    Tick {
        node: Side,
        now: u64,
    },
    /// The packet with this number, counted from 1, comes to its node.
    Deliver {
        packet: u64,
    },
    Close {
        node: Side,
        seq: u32,
    },
    End {
        node: Side,
        seq: u32,
    },
    /// The node asks its peer for an acknowledgement of an outgoing sequence.
    Ask {
        node: Side,
        seq: u32,
    },
    /// The node asks its peer for the messages of an incoming sequence that it misses.
    Nack {
        node: Side,
        seq: u32,
    },
    /// The node asks the other one for the oldest message that waits for it there.
    Poll {
        node: Side,
    },
    /// The application of the node has consumed the first `upto` payloads of an inbox.
    Consume {
        node: Side,
        seq: u32,
        upto: u64,
    },
    /// The node writes its journal anew.
    Compact {
        node: Side,
    },
    /// The disk fails at the device call with this number from now on.
    Arm {
        node: Side,
        calls: u64,
    },
    /// The disk crashes, and keeps by `choice` what was not synced; the node is mounted again.
    Crash {
        node: Side,
        choice: u8,
    },
    /// These bytes come to the node.
    Noise {
        node: Side,
        bytes: Blob,
    },
}
