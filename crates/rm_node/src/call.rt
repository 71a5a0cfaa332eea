//! The calls of a node.
ghost use Rattle.std.specs.Prelude.{◌≡◌};
ghost use Rattle.rm_node.specs.Asked.{is_connected};

use node_laws::answers::Wish;
use rm_base::{Blob, Uri};

/// What a node is asked for, or what comes to it. `seq` is the place of a sequence among those of the node, counted
/// from 1.
#[derive(Debug, Drop)]
pub enum Call<'a> {
    /// Asks for a sequence: WS-ReliableMessaging 1.2, section 3.4.
    Create { wish: Wish },
    /// Accepts a payload for an outgoing sequence: section 3.7.
    Send { seq: u32, payload: Blob },
    /// Closes a sequence: an outgoing one asks its peer for it, section 3.5; an incoming one takes no message any more,
    /// as its operator wants, and hands out the final acknowledgement.
    Close { seq: u32 },
    /// Ends an outgoing sequence: section 3.6.
    End { seq: u32 },
    /// Asks the peer of an outgoing sequence for an acknowledgement: section 3.8.
    AskAck { seq: u32 },
    /// Tells the peer of an incoming sequence the first 64 numbers that are missing: section 3.9.
    NackMissing { seq: u32 },
    /// Consumes the items of an incoming sequence's inbox up to one: the application has taken these for good. Nothing
    /// is recorded where it took them before.
    Consume { seq: u32, upto: u64 },
    /// Asks the peer with an address for the messages that wait there for the node: WS-MakeConnection 1.1, section 3.2.
    Poll { to: Uri },
    /// Ends the incoming sequences whose time has run out at a moment, all in one batch, where it fits the journal, and
    /// hands out again the first 64 requests and messages that are due.
    Tick { now: u64 },
    /// Takes bytes that came from a peer on a connection. It answers with a fault for all that is no message, and for
    /// each message that it doesn't take.
    Receive { bytes: &'a [u8] },
}

impl Call<'_> {
    /// Whether it came on a connection.
    pub fn is_connected(&self) -> bool
        ensures { result ≡ is_connected self.now }
    {
        match self {
            Call::Receive { .. } => true,
            _ => false,
        }
    }
}
