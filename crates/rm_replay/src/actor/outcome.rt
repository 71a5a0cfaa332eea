//! How a call came out, as a report tells it.
ghost use Rattle.std.specs.Prelude.{◌≡◌, None, []};
ghost use Rattle.node_laws.specs.Answers.Answers.{cause_seen};
ghost use Rattle.rm_node.specs.Compacted.{compact_end};
ghost use Rattle.rm_node.specs.Ends.{reaction_end, verdict_outcome};
ghost use Rattle.rm_replay.specs.Actor.Comes.{ComesOut, ComesOutAs, IsTold};
ghost use Rattle.rm_replay.specs.Actor.Outcomes.{answer_told, refusal_told};

use crate::actor::actor::Came;
use node_laws::answers::Cause;
use rm_base::Memory;
use rm_message::FaultKind;
use rm_node::{NodeError, Outs, Reaction};
use rm_script::report::{Outcome, Reason};
use std::alloc::Global;

/// Of a call.
pub(crate) fn told(alloc: Global, reaction: Result<Reaction, NodeError>) -> Result<Came, Memory>
    ensures { ComesOut (reaction_end reaction) result }
{
    match reaction {
        Ok(reaction) => Ok(Came {
            outcome: verdict(reaction.verdict),
            reply: reaction.reply,
            outs: reaction.outs,
        }),
        Err(NodeError::Memory) => Err(Memory),
        Err(NodeError::Disk) => Ok(silent(alloc, Outcome::Disk)),
        Err(NodeError::Down) => Ok(silent(alloc, Outcome::Down)),
        Err(NodeError::Refused(cause)) => Ok(silent(alloc, refusal(cause))),
    }
}

/// Of a call of which nothing leaves the node.
pub(crate) fn told_alone(ended: Result<(), NodeError>) -> Result<Outcome, Memory>
    ensures { ComesOutAs (compact_end ended) result }
{
    match ended {
        Ok(()) => Ok(Outcome::Done),
        Err(NodeError::Memory) => Err(Memory),
        Err(NodeError::Disk) => Ok(Outcome::Disk),
        Err(NodeError::Down) => Ok(Outcome::Down),
        Err(NodeError::Refused(cause)) => Ok(refusal(cause)),
    }
}

/// Nothing left the node.
fn silent(alloc: Global, outcome: Outcome) -> Came
    ensures { IsTold outcome None [] result }
{
    Came {
        outcome,
        reply: None,
        outs: Outs::new(alloc),
    }
}

/// The outcome of a message, by the fault with which the node answered, if it did.
fn verdict(fault: Option<FaultKind>) -> Outcome
    ensures { result ≡ answer_told (verdict_outcome fault) }
{
    match fault {
        None => Outcome::Done,
        Some(kind) => Outcome::Fault { kind },
    }
}

fn refusal(cause: Cause) -> Outcome
    ensures { result ≡ refusal_told (cause_seen cause) }
{
    match cause {
        Cause::NoSequence => Outcome::NoSequence,
        Cause::WrongSide => refused(Reason::WrongSide),
        Cause::PayloadTooLong { .. } => refused(Reason::PayloadTooLong),
        Cause::BadPayload => refused(Reason::BadPayload),
        Cause::NotOpen => refused(Reason::NotOpen),
        Cause::WindowFull { .. } => refused(Reason::WindowFull),
        Cause::NodeFull { .. } => refused(Reason::NodeFull),
        Cause::Rollover => refused(Reason::Rollover),
        Cause::TooManySequences { .. } => refused(Reason::TooManySequences),
        Cause::StoreFull { .. } => refused(Reason::StoreFull),
        Cause::PastInbox { .. } => refused(Reason::PastInbox),
    }
}

fn refused(reason: Reason) -> Outcome
    ensures { result ≡ Outcome.Refused reason }
{
    Outcome::Refused { reason }
}
