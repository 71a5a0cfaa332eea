//! The answer to a message, and to bytes that are none.
ghost use Rattle.std.specs.Prelude.{◌≡◌, ◌<◌, ◌^◌, ◌++◌, [], true, map, None, IfOk, OnOk, Ok, Err};
ghost use Rattle.std.specs.List.{AllByRecursion};
ghost use Rattle.node_laws.specs.Sizes.Room.{HasRoom};
ghost use Rattle.node_laws.specs.Sizes.Typed.{IsTyped};
ghost use Rattle.record_batch.specs.Fact.{fact_of};
ghost use Rattle.record_batch.specs.Sequences.Fits.{all_fit};
ghost use Rattle.record_batch.specs.Sequences.Makers.{counter, number};
ghost use Rattle.rm_protocol.specs.Calls.{receive as receive_of};
ghost use Rattle.rm_protocol.specs.Next.{HasNumbers};
ghost use Rattle.rm_protocol.specs.Terms.{Terms};
ghost use Rattle.node_laws.specs.OwnTerms.{AreOwn};
ghost use Rattle.node_laws.specs.Answers.Answers.{MayBeStored, seen};
ghost use Rattle.node_laws.specs.Answers.Serving.{Serves};
ghost use Rattle.receive_answer.specs.Records.Stripped.{stripped};
ghost use Rattle.receive_answer.specs.Tried.{Tried};
ghost use Rattle.receive_answer.specs.Untold.{done_of, early_kind, told};
ghost use Rattle.tables_ahead.specs.Known.{all_records};

use crate::fault::{fault_answer, judged, store_full};
use crate::nacked::urging;
use crate::records::put_rows;
use node_laws::answers::{Answer, Outcome, has_room};
use node_laws::laws::{own_terms_are_terms, there_are_own_terms};
use node_tables::Tables;
use receive_replies::said;
use receive_replies::verdict::{early_verdict, target};
use record_batch::sequences::laws::a_byte_for_each_number;
use rm_base::{Behaviour, Memory};
use rm_message::{Message, Refusal};
use rm_protocol::laws::each_record_may_come_next;
use std::alloc::Global;
use tables_ahead::Known;

/// The answer to a message.
/// - `is`: the fault of the message's verdict, with the block that belongs to it, or its records and what is said then.
///   A message that is taken wants the keys at once that its blocks say are missing, in their order, where they are of
///   outgoing sequences; else no key moves.
/// - `stored`: the records may be written.
pub fn receive(
    alloc: Global,
    tables: &Tables,
    place: u64,
    now: u64,
    granted: Behaviour,
    mut message: Message,
) -> Result<Answer, Memory>
    requires serves { Serves tables.now.records place }
    requires numbers { HasNumbers message }
    ensures is { (terms : Terms) → AreOwn terms
        → IfOk result (λ a. seen a ≡ receive_of terms tables.now.records place now granted (Ok message)) }
    ensures stored { IfOk result (λ a. MayBeStored tables.now.records place (map fact_of a.batch.items)) }
{
    let ahead = Known::seeking(alloc, tables, target(&message));
    answer(alloc, ahead, place, now, granted, &mut message)
}

// The answer to a message, where no records are ahead.
fn answer(
    alloc: Global,
    ahead: Known<'_>,
    place: u64,
    now: u64,
    granted: Behaviour,
    message: &mut Message,
) -> Result<Answer, Memory>
    requires serves { Serves ahead.records place }
    requires numbers { HasNumbers message.old }
    requires nothing { ahead.delta ≡ [] }
    ensures is { (terms : Terms) → AreOwn terms
        → IfOk result (λ a. seen a ≡ told terms ahead.entry.records place now granted message.old) }
    ensures stored { IfOk result (λ a. MayBeStored ahead.entry.records place (map fact_of a.batch.items)) }
{
    match early_verdict(&ahead, now, message) {
        Some(kind) => judged(alloc, &ahead, now, message, kind),
        None => taken(alloc, ahead, place, now, granted, message),
    }
}

// The records of a message without an early verdict go ahead, and whether they fit the store.
fn put_ahead(
    alloc: Global,
    ahead: &mut Known<'_>,
    place: u64,
    now: u64,
    granted: Behaviour,
    message: &mut Message,
) -> Result<bool, Memory>
    requires serves { Serves ahead.old.records place }
    requires numbers { HasNumbers message.old }
    requires nothing { ahead.old.delta ≡ [] }
    requires early { early_kind ahead.old.records now message.old ≡ None }
    ensures records { ahead.new.records ≡ ahead.old.records }
    ensures rest { OnOk result (message.new ≡ stripped message.old) }
    ensures tried { IfOk result
        (λ fits. Tried ahead.old.records ahead.new.delta place now granted message.old fits) }
    ensures room { IfOk result (λ fits. fits ≡ true → HasRoom place ahead.new.delta) }
    ensures typed { OnOk result (AllByRecursion IsTyped ahead.new.delta) }
{
    put_rows(alloc, ahead, now, granted, message)?;
    has_room(alloc, place, ahead.batch())
}

// The answer where the records are ahead: they are added, and this is said.
fn done(alloc: Global, ahead: Known<'_>, now: u64, message: &Message) -> Result<Answer, Memory>
    requires numbered { 0 < number (all_records ahead) }
    requires drawn { counter (all_records ahead) < 2 ^ 62 }
    requires fit { all_fit ahead.records ahead.delta ≡ true }
    ensures is { IfOk result (λ a. seen a ≡ done_of ahead.entry.records ahead.entry.delta now message.now) }
    ensures batch { IfOk result (λ a. map fact_of a.batch.items ≡ ahead.entry.delta) }
{
    let outs = said(alloc, &ahead, now, message)?;
    let moves = urging(alloc, ahead.tables(), message)?;
    Ok(Answer {
        outcome: Outcome::Done,
        batch: ahead.into_batch(),
        outs,
        moves,
    })
}

// The answer to a message without an early verdict: its records and what is said then, where the records fit the store.
fn taken(
    alloc: Global,
    mut ahead: Known<'_>,
    place: u64,
    now: u64,
    granted: Behaviour,
    message: &mut Message,
) -> Result<Answer, Memory>
    requires serves { Serves ahead.records place }
    requires numbers { HasNumbers message.old }
    requires nothing { ahead.delta ≡ [] }
    requires early { early_kind ahead.records now message.old ≡ None }
    ensures is { (terms : Terms) → AreOwn terms
        → IfOk result (λ a. seen a ≡ told terms ahead.entry.records place now granted message.old) }
    ensures stored { IfOk result (λ a. MayBeStored ahead.entry.records place (map fact_of a.batch.items)) }
{
    own_terms_are_terms();
    there_are_own_terms();
    each_record_may_come_next();
    a_byte_for_each_number();
    let _sequences = ahead.len();
    if put_ahead(alloc, &mut ahead, place, now, granted, message)? {
        done(alloc, ahead, now, message)
    } else {
        store_full(alloc, message)
    }
}

/// The answer to bytes that were refused.
/// - `is`: the fault of their refusal.
pub fn refuse(
    alloc: Global,
    tables: &Tables,
    place: u64,
    now: u64,
    granted: Behaviour,
    refusal: Refusal,
) -> Result<Answer, Memory>
    ensures is { (terms : Terms) → AreOwn terms
        → IfOk result (λ a. seen a ≡ receive_of terms tables.now.records place now granted (Err refusal)) }
    ensures stored { IfOk result (λ a. MayBeStored tables.now.records place (map fact_of a.batch.items)) }
{
    fault_answer(alloc, &refusal, None)
}
