//! Sequences that are closed and ended: WS-ReliableMessaging 1.2, sections 3.5 and 3.6.
ghost use Rattle.std.specs.Prelude.{◌≡◌, map, true, IfOk};
ghost use Rattle.std.specs.List.{AllByRecursion};
ghost use Rattle.rm_base.specs.declared.message.Cause.TheVariants.{Operator};
ghost use Rattle.node_laws.specs.Sizes.Room.{HasRoom};
ghost use Rattle.node_laws.specs.Sizes.Typed.{IsTyped};
ghost use Rattle.record_batch.specs.Fact.{Closed, fact_of};
ghost use Rattle.rm_protocol.specs.Calls.{
  close as close_of,
  close_in as close_in_of,
  close_out as close_out_of,
  end as end_of,
};
ghost use Rattle.rm_protocol.specs.Terms.{Terms};
ghost use Rattle.record_batch.specs.Sequences.Fits.{fits, is_incoming_side};
ghost use Rattle.record_batch.specs.Sequences.Makers.{maker};
ghost use Rattle.node_laws.specs.OwnTerms.{AreOwn};
ghost use Rattle.node_laws.specs.Answers.Answers.{seen};
ghost use Rattle.node_calls.specs.Comes.{closed as closed_of, closing as closing_of, ending as ending_of};
ghost use Rattle.node_calls.specs.Records.{IsServing};

use crate::acks::final_ack;
use crate::answers::added;
use crate::reads::{is_open, is_over, may_end, phase, side_refusal};
use crate::requests::{close_request, terminate_request};
use node_laws::answers::{Answer, Cause, if_room, refused};
use node_laws::sizes::laws::a_batch_is_its_parts;
use node_tables::{Maker, Tables};
use record_batch::Record;
use rm_base::Memory;
use std::alloc::Global;
use tables_ahead::Known;

// An outgoing sequence is being closed, and asks for it.
fn closing(alloc: Global, tables: &Tables, seq: u32) -> Result<Answer, Memory>
    requires { IsServing tables.now.records }
    ensures { IfOk result (λ a. seen a ≡ closing_of tables.now.records seq) }
{
    let ticket = tables.counter() + 1;
    let mut ahead = Known::new(alloc, tables);
    ahead.push(Record::Closing { seq, ticket })?;
    let request = close_request(alloc, &ahead, seq, ticket)?;
    added(alloc, ahead, request)
}

// An outgoing sequence is being ended, and asks for it.
fn ending(alloc: Global, tables: &Tables, seq: u32) -> Result<Answer, Memory>
    requires { IsServing tables.now.records }
    ensures { IfOk result (λ a. seen a ≡ ending_of tables.now.records seq) }
{
    let ticket = tables.counter() + 1;
    let mut ahead = Known::new(alloc, tables);
    ahead.push(Record::Ending { seq, ticket })?;
    let request = terminate_request(alloc, &ahead, seq, ticket)?;
    added(alloc, ahead, request)
}

// An incoming sequence is closed, and its final acknowledgement is said.
fn closed(alloc: Global, tables: &Tables, seq: u32, now: u64) -> Result<Answer, Memory>
    requires serving { IsServing tables.now.records }
    requires fit { fits tables.now.records (Closed seq Operator 0) ≡ true }
    ensures { IfOk result (λ a. seen a ≡ closed_of tables.now.records seq now) }
{
    let mut ahead = Known::new(alloc, tables);
    ahead.push(Record::Closed {
        seq,
        cause: rm_base::Cause::Operator,
        last: 0,
    })?;
    let message = final_ack(alloc, &ahead, seq, now)?;
    added(alloc, ahead, message)
}

// Closes an outgoing sequence.
fn close_out(alloc: Global, tables: &Tables, place: u64, seq: u32) -> Result<Answer, Memory>
    requires { IsServing tables.now.records }
    ensures is { (terms : Terms) → AreOwn terms
        → IfOk result (λ a. seen a ≡ close_out_of terms tables.now.records place seq) }
    ensures room { IfOk result (λ a. HasRoom place (map fact_of a.batch.items)) }
    ensures typed { IfOk result (λ a. AllByRecursion IsTyped (map fact_of a.batch.items)) }
{
    a_batch_is_its_parts();
    if !is_open(phase(alloc, tables, seq)) {
        return Ok(refused(alloc, Cause::NotOpen));
    }
    let answer = closing(alloc, tables, seq)?;
    if_room(alloc, place, answer)
}

// Closes an incoming sequence.
fn close_in(
    alloc: Global,
    tables: &Tables,
    place: u64,
    seq: u32,
    now: u64,
) -> Result<Answer, Memory>
    requires serving { IsServing tables.now.records }
    requires side { is_incoming_side (maker tables.now.records seq) ≡ true }
    ensures is { (terms : Terms) → AreOwn terms
        → IfOk result (λ a. seen a ≡ close_in_of terms tables.now.records place seq now) }
    ensures room { IfOk result (λ a. HasRoom place (map fact_of a.batch.items)) }
    ensures typed { IfOk result (λ a. AllByRecursion IsTyped (map fact_of a.batch.items)) }
{
    a_batch_is_its_parts();
    if is_over(alloc, tables, seq, now) {
        return Ok(refused(alloc, Cause::NotOpen));
    }
    let answer = closed(alloc, tables, seq, now)?;
    if_room(alloc, place, answer)
}

/// Closes a sequence.
pub(crate) fn close(
    alloc: Global,
    tables: &Tables,
    place: u64,
    seq: u32,
    now: u64,
) -> Result<Answer, Memory>
    requires { IsServing tables.now.records }
    ensures is { (terms : Terms) → AreOwn terms
        → IfOk result (λ a. seen a ≡ close_of terms tables.now.records place seq now) }
    ensures room { IfOk result (λ a. HasRoom place (map fact_of a.batch.items)) }
    ensures typed { IfOk result (λ a. AllByRecursion IsTyped (map fact_of a.batch.items)) }
{
    match tables.maker(seq) {
        Some(Maker::Asked { .. }) => close_out(alloc, tables, place, seq),
        Some(Maker::Taken { .. }) => close_out(alloc, tables, place, seq),
        Some(Maker::Offered { .. }) => close_in(alloc, tables, place, seq, now),
        Some(Maker::Granted { .. }) => close_in(alloc, tables, place, seq, now),
        None => Ok(refused(alloc, Cause::NoSequence)),
    }
}

/// Ends an outgoing sequence.
pub(crate) fn end(alloc: Global, tables: &Tables, place: u64, seq: u32) -> Result<Answer, Memory>
    requires { IsServing tables.now.records }
    ensures is { (terms : Terms) → AreOwn terms
        → IfOk result (λ a. seen a ≡ end_of terms tables.now.records place seq) }
    ensures room { IfOk result (λ a. HasRoom place (map fact_of a.batch.items)) }
    ensures typed { IfOk result (λ a. AllByRecursion IsTyped (map fact_of a.batch.items)) }
{
    a_batch_is_its_parts();
    if let Some(cause) = side_refusal(tables, seq) {
        return Ok(refused(alloc, cause));
    }
    if !may_end(phase(alloc, tables, seq)) {
        return Ok(refused(alloc, Cause::NotOpen));
    }
    let answer = ending(alloc, tables, seq)?;
    if_room(alloc, place, answer)
}
