//! The answer to a call, with the message that waited and is fetched: WS-MakeConnection 1.1, section 3.3.
ghost use Rattle.std.specs.Prelude.{◌≡◌, ℕ, List, map, IfOk};
ghost use Rattle.record_batch.specs.Fact.{Fact, fact_of};
ghost use Rattle.node_laws.specs.Answers.Answers.{MayBeStored, outcome_seen, seen};
ghost use Rattle.rm_protocol.specs.Polls.{awaited, fetches};
ghost use Rattle.rm_node.specs.Fetching.{if_taken, whole};

use node_laws::answers::{Answer, Outcome};
use node_waits::{Fetched, Polled, polls};
use rm_base::{Memory, Uri};
use rm_message::Message;
use std::alloc::Global;
use timers::pending::Pending;

/// The answer to a call, and the message that is fetched with it.
#[derive(Debug, Drop)]
pub(crate) struct Answered {
    pub(crate) answer: Answer,
    pub(crate) fetched: Option<Fetched>,
}

/// An answer with which nothing is fetched.
pub(crate) fn unfetched(answer: Answer) -> Answered
    ensures is { whole result ≡ seen answer }
    ensures stored { (r : List Fact) (place : ℕ) → MayBeStored r place (map fact_of answer.batch.items)
        → MayBeStored r place (map fact_of result.answer.batch.items) }
{
    Answered {
        answer,
        fetched: None,
    }
}

// The address that is asked for, where the message that does was taken.
fn taken(outcome: Outcome, at: Option<Uri>) -> Option<Uri>
    ensures { result ≡ if_taken (outcome_seen outcome) at }
{
    match outcome {
        Outcome::Done => at,
        Outcome::Refused(_) => None,
        Outcome::Judged(_) => None,
    }
}

/// The answer with the oldest message that waits for the address that was asked for, if one was. It waits as before.
pub(crate) fn fetch(
    alloc: Global,
    waits: &Pending<Message>,
    at: Option<Uri>,
    answer: Answer,
) -> Result<Answered, Memory>
    ensures is { IfOk result (λ a. whole a
        ≡ fetches (awaited waits.now.waits (if_taken (outcome_seen answer.outcome) at)) (seen answer)) }
    ensures stored { (r : List Fact) (place : ℕ) → MayBeStored r place (map fact_of answer.batch.items)
        → IfOk result (λ a. MayBeStored r place (map fact_of a.answer.batch.items)) }
{
    let Answer {
        outcome,
        batch,
        outs,
        moves,
    } = answer;
    let Polled { fetched, outs } = polls(alloc, waits, taken(outcome, at), outs)?;
    Ok(Answered {
        answer: Answer {
            outcome,
            batch,
            outs,
            moves,
        },
        fetched,
    })
}
