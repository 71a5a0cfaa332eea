//! What comes to a node.
ghost use Rattle.std.specs.Prelude.{◌≡◌, map, IfOk, Ok, OnOk, Err, Result};
ghost use Rattle.record_batch.specs.Fact.{fact_of};
ghost use Rattle.rm_message.specs.declared.message.Message.{Message as Said};
ghost use Rattle.rm_message.specs.declared.refusal.Refusal.{Refusal as Refused};
ghost use Rattle.rm_protocol.specs.Calls.{receive as receive_of};
ghost use Rattle.rm_protocol.specs.Next.{HasNumbers};
ghost use Rattle.rm_protocol.specs.Polls.{polls as polls_of};
ghost use Rattle.rm_protocol.specs.Terms.{Terms};
ghost use Rattle.node_laws.specs.OwnTerms.{AreOwn};
ghost use Rattle.node_laws.specs.Answers.Answers.{MayBeStored};
ghost use Rattle.node_laws.specs.Answers.Serving.{Serves};
ghost use Rattle.rm_node.specs.Asked.{Asked, IsReceived};
ghost use Rattle.rm_node.specs.Came.{IsReadAs};
ghost use Rattle.rm_node.specs.Fetching.{whole};

use crate::fetch::{Answered, fetch, unfetched};
use crate::kept::Kept;
use message_reader::decode;
use message_reader::laws::{a_message_is_not_refused, one_message, one_refusal};
use node_tables::Tables;
use node_waits::selected;
use rm_base::Memory;
use rm_message::{DecodeError, Message, Refusal};
use rm_wire::read_laws::laws::what_is_read_may_be_written;
use std::alloc::Global;

// The answer to a message, with what it fetches.
fn answer_to_message(
    alloc: Global,
    tables: &Tables,
    place: u64,
    now: u64,
    kept: &Kept,
    message: Message,
) -> Result<Answered, Memory>
    requires serves { Serves tables.now.records place }
    requires numbers { HasNumbers message }
    ensures is { (terms : Terms) → AreOwn terms → IfOk result (λ a. whole a ≡ polls_of kept.now.polled.waits
        (Ok message) (receive_of terms tables.now.records place now kept.now.granted (Ok message))) }
    ensures stored { IfOk result (λ a. MayBeStored tables.now.records place (map fact_of a.answer.batch.items)) }
{
    let at = selected(&message.body)?;
    let answer = receive_answer::receive(alloc, tables, place, now, kept.granted, message)?;
    fetch(alloc, &kept.polled, at, answer)
}

// The answer to bytes that are no message, which fetches nothing.
fn answer_to_refusal(
    alloc: Global,
    tables: &Tables,
    place: u64,
    now: u64,
    kept: &Kept,
    refusal: Refusal,
) -> Result<Answered, Memory>
    ensures is { (terms : Terms) → AreOwn terms → IfOk result (λ a. whole a ≡ polls_of kept.now.polled.waits
        (Err refusal) (receive_of terms tables.now.records place now kept.now.granted (Err refusal))) }
    ensures stored { IfOk result (λ a. MayBeStored tables.now.records place (map fact_of a.answer.batch.items)) }
{
    let answer = receive_answer::refuse(alloc, tables, place, now, kept.granted, refusal)?;
    Ok(unfetched(answer))
}

/// The answer to bytes that came: those of a message are read, others are refused with a fault.
pub(crate) fn answer_to_bytes(
    alloc: Global,
    tables: &Tables,
    place: u64,
    now: u64,
    kept: &Kept,
    bytes: &[u8],
) -> Result<Answered, Memory>
    requires serves { Serves tables.now.records place }
    ensures is { (terms : Terms) → AreOwn terms → (content : Result Said Refused) → IsReadAs bytes.now content
        → IfOk result (λ a. whole a ≡ polls_of kept.now.polled.waits content
        (receive_of terms tables.now.records place now kept.now.granted content)) }
    ensures stored { IfOk result (λ a. MayBeStored tables.now.records place (map fact_of a.answer.batch.items)) }
    ensures asked { OnOk result ((asked : Asked) × IsReceived bytes.now asked) }
{
    one_message();
    one_refusal();
    a_message_is_not_refused();
    what_is_read_may_be_written();
    match decode(alloc, bytes) {
        Ok(message) => answer_to_message(alloc, tables, place, now, kept, message),
        Err(DecodeError::Refused(refusal)) => {
            answer_to_refusal(alloc, tables, place, now, kept, refusal)
        }
        Err(DecodeError::Memory) => Err(Memory),
    }
}
