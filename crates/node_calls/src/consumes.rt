//! Items of an inbox that the application takes out for good: WS-ReliableMessaging 1.2, section 2.4.
ghost use Rattle.std.specs.Prelude.{◌≡◌, map, nat_lt, true, IfOk};
ghost use Rattle.std.specs.List.{AllByRecursion};
ghost use Rattle.std.specs.Option.{option_map};
ghost use Rattle.node_laws.specs.Sizes.Room.{HasRoom};
ghost use Rattle.node_laws.specs.Sizes.Typed.{IsTyped};
ghost use Rattle.record_batch.specs.Fact.{fact_of};
ghost use Rattle.rm_protocol.specs.Calls.{consume as consume_of, consume_in as consume_in_of};
ghost use Rattle.rm_protocol.specs.Terms.{Terms};
ghost use Rattle.record_batch.specs.Sequences.Destinations.{cursor};
ghost use Rattle.record_batch.specs.Sequences.Fits.{is_incoming_side};
ghost use Rattle.record_batch.specs.Sequences.Makers.{maker};
ghost use Rattle.node_laws.specs.OwnTerms.{AreOwn};
ghost use Rattle.node_laws.specs.Answers.Answers.{cause_seen, seen};
ghost use Rattle.node_calls.specs.Causes.{inbox_cause};
ghost use Rattle.node_calls.specs.Comes.{consumed as consumed_of};

use crate::answers::added;
use node_laws::answers::{Answer, Cause, if_room, refused};
use node_laws::sizes::laws::a_batch_is_its_parts;
use node_tables::laws::an_incoming_sequence_is_as_recorded;
use node_tables::{Maker, Tables};
use record_batch::Record;
use rm_base::Memory;
use std::alloc::Global;
use tables_ahead::Known;

// Why the items of an inbox up to one can't be consumed.
fn inbox_refusal(tables: &Tables, seq: u32, upto: u64) -> Option<Cause>
    requires { is_incoming_side (maker tables.now.records seq) ≡ true }
    ensures { option_map cause_seen result ≡ inbox_cause tables.now.records seq upto }
{
    an_incoming_sequence_is_as_recorded();
    let Some(incoming) = tables.incoming(seq) else {
        unreachable!()
    };
    let have = incoming.inbox_len();
    if upto > have {
        return Some(Cause::PastInbox { have });
    }
    None
}

// Whether the cursor of an incoming sequence goes on to an item.
fn goes_on(tables: &Tables, seq: u32, upto: u64) -> bool
    requires { is_incoming_side (maker tables.now.records seq) ≡ true }
    ensures { result ≡ nat_lt (cursor tables.now.records seq) upto }
{
    match tables.incoming(seq) {
        Some(incoming) => incoming.consumed() < upto,
        None => unreachable!(),
    }
}

// The items of an inbox up to one are consumed, where they weren't.
fn consumed(alloc: Global, tables: &Tables, seq: u32, upto: u64) -> Result<Answer, Memory>
    requires { is_incoming_side (maker tables.now.records seq) ≡ true }
    ensures { IfOk result (λ a. seen a ≡ consumed_of tables.now.records seq upto) }
{
    let mut ahead = Known::new(alloc, tables);
    if !goes_on(tables, seq, upto) {
        return added(alloc, ahead, None);
    }
    ahead.push(Record::Consumed { seq, upto })?;
    added(alloc, ahead, None)
}

// Consumes the items of an incoming sequence's inbox up to one.
fn consume_in(
    alloc: Global,
    tables: &Tables,
    place: u64,
    seq: u32,
    upto: u64,
) -> Result<Answer, Memory>
    requires { is_incoming_side (maker tables.now.records seq) ≡ true }
    ensures is { (terms : Terms) → AreOwn terms
        → IfOk result (λ a. seen a ≡ consume_in_of terms tables.now.records place seq upto) }
    ensures room { IfOk result (λ a. HasRoom place (map fact_of a.batch.items)) }
    ensures typed { IfOk result (λ a. AllByRecursion IsTyped (map fact_of a.batch.items)) }
{
    a_batch_is_its_parts();
    if let Some(cause) = inbox_refusal(tables, seq, upto) {
        return Ok(refused(alloc, cause));
    }
    let answer = consumed(alloc, tables, seq, upto)?;
    if_room(alloc, place, answer)
}

/// Consumes the items of a sequence's inbox up to one.
pub(crate) fn consume(
    alloc: Global,
    tables: &Tables,
    place: u64,
    seq: u32,
    upto: u64,
) -> Result<Answer, Memory>
    ensures is { (terms : Terms) → AreOwn terms
        → IfOk result (λ a. seen a ≡ consume_of terms tables.now.records place seq upto) }
    ensures room { IfOk result (λ a. HasRoom place (map fact_of a.batch.items)) }
    ensures typed { IfOk result (λ a. AllByRecursion IsTyped (map fact_of a.batch.items)) }
{
    match tables.maker(seq) {
        Some(Maker::Offered { .. }) => consume_in(alloc, tables, place, seq, upto),
        Some(Maker::Granted { .. }) => consume_in(alloc, tables, place, seq, upto),
        Some(Maker::Asked { .. }) => Ok(refused(alloc, Cause::WrongSide)),
        Some(Maker::Taken { .. }) => Ok(refused(alloc, Cause::WrongSide)),
        None => Ok(refused(alloc, Cause::NoSequence)),
    }
}
