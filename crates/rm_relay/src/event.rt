//! What a line of a relay's script says.

use crate::word::Station;
use rm_base::Blob;
use rm_script::Side;

/// What one line of a script says. `seq` is the place of a sequence among those of its node, counted from 1.
#[derive(Debug, Drop)]
pub enum Event {
    /// The line is empty, or a comment.
    Nothing,
    /// Node 1 or 2 asks the next node for a sequence, which never expires.
    Create { node: Side },
    /// Node 1 accepts the payload `text`.
    Send { seq: u32, text: Blob },
    /// Node 2 forwards the next item.
    Forward,
    /// Node 2 consumes what node 3 acknowledged.
    Trim,
    /// The clock is set, in milliseconds since 1970, and runs.
    Tick { node: Station, now: u64 },
    /// The packet with this number, counted from 1, comes to its node.
    Deliver { packet: u64 },
    Close { node: Station, seq: u32 },
    End { node: Station, seq: u32 },
    /// The node writes its journal anew.
    Compact { node: Station },
    /// The disk fails at the device call with this number from now on.
    Arm { node: Station, calls: u64 },
    /// The disk crashes, and keeps by `choice` what was not synced; the node is mounted again.
    Crash { node: Station, choice: u8 },
}
