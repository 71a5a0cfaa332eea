//! A call of a node, from what is asked to what is handed out.
ghost use Rattle.std.specs.Prelude.{◌≡◌, false};
ghost use Rattle.node_laws.specs.Answers.Answers.{outcome_seen};
ghost use Rattle.rm_node.specs.Asked.{MayBeAsked};
ghost use Rattle.rm_node.specs.Called.{HasBatches, Steps};
ghost use Rattle.rm_node.specs.Ends.{is_refused, reaction_end, verdict_outcome};

use crate::call::Call;
use crate::error::NodeError;
use crate::node::Node;
use crate::packets::{Handed, Outs};
use crate::say::Said;
use node_laws::answers::Outcome;
use rm_base::Blob;
use rm_disk::Disk;
use rm_message::FaultKind;

/// What came of a call: the fault with which the node answered, if it did, what goes back on the connection, and what
/// is handed out besides.
#[derive(Debug, Drop)]
pub struct Reaction {
    pub verdict: Option<FaultKind>,
    pub reply: Option<Blob>,
    pub outs: Outs,
}

/// The kind of the fault that an answer is.
fn verdict(outcome: Outcome) -> Option<FaultKind>
    requires { is_refused (outcome_seen outcome) ≡ false }
    ensures { verdict_outcome result ≡ outcome_seen outcome }
{
    match outcome {
        Outcome::Done => None,
        Outcome::Judged(kind) => Some(kind),
        Outcome::Refused(_) => unreachable!(),
    }
}

impl Node {
    /// Does what is asked, at a moment in milliseconds since 1970: all memory is taken first, then the records are
    /// written in one batch, and then keys and messages begin and cease to wait, and the packets are handed out.
    /// Packets are handed out only where the records are on the disk, for good on a disk that tells, and are the texts
    /// of what the protocol's answer says. The reply is the text of the message that was fetched, or else of the one
    /// for whoever is at the other end of the connection, where the call came on one; no other packet is for that
    /// address. On a disk that tells, a crash at any moment leaves the batches as they were or with the answer's, and
    /// both are those of a node. After a call that went well the node keeps what the protocol makes of it: what is
    /// announced, the keys that wait, which are exactly those that wait by the records, the greatest moment of a tick,
    /// and the messages that wait to be polled; after one that did not, none of this has changed.
    /// - Down: exactly where an earlier call of this node answered Disk.
    /// - Memory: not in place of Down; no device call was made, and the node is as before.
    /// - Disk: exactly where the protocol's answer has records and the fuse lies among the four device calls; the node
    ///   is down.
    /// - NoSequence, WrongSide, PayloadTooLong, BadPayload, NotOpen, WindowFull, NodeFull, Rollover, TooManySequences,
    ///   StoreFull, PastInbox: exactly where it is the answer of the protocol's call: the definitions of
    ///   `rm_protocol/specs/Calls` are the table.
    pub fn step<D: Disk>(
        &mut self,
        disk: &mut D,
        now: u64,
        call: Call<'_>,
    ) -> Result<Reaction, NodeError>
        requires has { HasBatches D.tells (D.told disk.old) self.old }
        requires may { MayBeAsked call }
        ensures { Steps D.tells (D.told disk.old) (D.told disk.new) self.old self.new now call.entry
            (reaction_end result) }
    {
        let (_tables, _place) = self.tables_and_end();
        let Said {
            answered,
            begun,
            handed,
        } = self.say(now, call)?;
        let outcome = answered.answer.outcome;
        self.write(disk, answered, begun)?;
        let Handed { reply, outs } = handed;
        Ok(Reaction {
            verdict: verdict(outcome),
            reply,
            outs,
        })
    }
}
