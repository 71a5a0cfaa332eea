//! A tick: incoming sequences whose time has run out, WS-ReliableMessaging 1.2, section 3.4, and keys that are emitted.
ghost use Rattle.std.specs.Prelude.{◌≡◌, ◌&&◌, ◌++◌, [], map, not, IfOk, OnOk};
ghost use Rattle.std.specs.List.{AllByRecursion};
ghost use Rattle.node_laws.specs.Sizes.Room.{HasRoom};
ghost use Rattle.node_laws.specs.Sizes.Typed.{IsTyped};
ghost use Rattle.record_batch.specs.Fact.{fact_of};
ghost use Rattle.rm_protocol.specs.Calls.{expired_from, tick_with};
ghost use Rattle.rm_protocol.specs.Terms.{Terms};
ghost use Rattle.rm_sides.specs.Destination.Incoming.{is_past as is_past_at};
ghost use Rattle.record_batch.specs.Sequences.Destinations.{deadline_of, has_end};
ghost use Rattle.record_batch.specs.Sequences.Makers.{maker, makers};
ghost use Rattle.node_laws.specs.OwnTerms.{AreOwn};
ghost use Rattle.node_laws.specs.Answers.Answers.{seen};
ghost use Rattle.node_calls.specs.Comes.{ending_if, fitting as fitting_of};
ghost use Rattle.node_calls.specs.Records.{IsEnding, IsServing};

use crate::keys::messages_at;
use node_laws::answers::{Answer, Moves, Outcome, has_room};
use node_tables::Tables;
use record_batch::Record;
use rm_base::{Cause, Memory};
use rm_sides::destination::is_past;
use std::alloc::Global;
use tables_ahead::Known;
use timers::slots::Key;

// Whether the time of a sequence has run out, and no record ends it yet.
fn is_due(ahead: &Known<'_>, seq: u32, now: u64) -> bool
    requires { ahead.now.delta ≡ [] }
    ensures { let r = ahead.now.records in
        result ≡ (is_past_at (deadline_of (maker r seq)) now && not (has_end r seq)) }
{
    is_past(ahead.deadline(seq), now) && !ahead.has_end(seq)
}

// The record that ends such a sequence.
fn end_due(batch: &mut Vec<Record>, ahead: &Known<'_>, seq: u32, now: u64) -> Result<(), Memory>
    requires { ahead.now.delta ≡ [] }
    ensures { let r = ahead.now.records in
        OnOk result (map fact_of batch.new.items ≡ map fact_of batch.old.items ++ ending_if
        (is_past_at (deadline_of (maker r seq)) now && not (has_end r seq)) seq) }
{
    if is_due(ahead, seq, now) {
        batch.push(Record::Ended {
            seq,
            cause: Cause::Expired,
            last: 0,
        })?;
    }
    Ok(())
}

// The records that end all such sequences.
fn expired(alloc: Global, ahead: &Known<'_>, now: u64) -> Result<Vec<Record>, Memory>
    requires { ahead.now.delta ≡ [] }
    ensures { let r = ahead.now.records in
        IfOk result (λ batch. map fact_of batch.items ≡ expired_from r now 0 (makers r)) }
{
    let mut batch = Vec::new(alloc);
    for before in 0..ahead.len() {
        end_due(&mut batch, ahead, before + 1, now)?;
    }
    Ok(batch)
}

// A batch of ends, where it fits the store, and else none.
fn fitting(alloc: Global, place: u64, batch: Vec<Record>) -> Result<Vec<Record>, Memory>
    requires { AllByRecursion IsEnding (map fact_of batch.items) }
    ensures is { (terms : Terms) → AreOwn terms → IfOk result (λ kept. map fact_of kept.items
        ≡ fitting_of terms place (map fact_of batch.items)) }
    ensures room { IfOk result (λ kept. HasRoom place (map fact_of kept.items)) }
    ensures typed { IfOk result (λ kept. AllByRecursion IsTyped (map fact_of kept.items)) }
    ensures ends { IfOk result (λ kept. AllByRecursion IsEnding (map fact_of kept.items)) }
{
    if has_room(alloc, place, batch.as_slice())? {
        return Ok(batch);
    }
    Ok(Vec::new(alloc))
}

// Puts records that end sequences ahead.
fn put_ends(ahead: &mut Known<'_>, ends: Vec<Record>) -> Result<(), Memory>
    requires { AllByRecursion IsEnding (map fact_of ends.items) }
    ensures records { ahead.new.records ≡ ahead.old.records }
    ensures ok { OnOk result (ahead.new.delta ≡ ahead.old.delta ++ map fact_of ends.items) }
{
    let mut rest = ends.into_iter();
    while let Some(given) = rest.next() {
        ahead.push(given)?;
    }
    Ok(())
}

/// Ends the incoming sequences whose time has run out in one batch, where that fits the store, and says the messages of
/// the keys that are emitted.
pub(crate) fn tick(
    alloc: Global,
    tables: &Tables,
    place: u64,
    now: u64,
    keys: Vec<Key>,
) -> Result<Answer, Memory>
    requires { IsServing tables.now.records }
    ensures is { (terms : Terms) → AreOwn terms
        → IfOk result (λ a. seen a ≡ tick_with terms tables.now.records place now keys.items) }
    ensures room { IfOk result (λ a. HasRoom place (map fact_of a.batch.items)) }
    ensures typed { IfOk result (λ a. AllByRecursion IsTyped (map fact_of a.batch.items)) }
{
    let mut ahead = Known::new(alloc, tables);
    let due = expired(alloc, &ahead, now)?;
    let ends = fitting(alloc, place, due)?;
    put_ends(&mut ahead, ends)?;
    let outs = messages_at(alloc, &ahead, keys.as_slice())?;
    Ok(Answer {
        outcome: Outcome::Done,
        batch: ahead.into_batch(),
        outs,
        moves: Moves {
            urged: Vec::new(alloc),
            emitted: keys,
            time: now,
        },
    })
}
