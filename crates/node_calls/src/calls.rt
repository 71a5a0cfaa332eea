//! The calls of a node that no message brings.
ghost use Rattle.std.specs.Prelude.{◌≡◌, map, IfOk};
ghost use Rattle.record_batch.specs.Fact.{fact_of};
ghost use Rattle.rm_protocol.specs.Calls.{
  ask_ack as ask_ack_of,
  close as close_of,
  consume as consume_of,
  create as create_of,
  end as end_of,
  nack_missing as nack_missing_of,
  send as send_of,
  tick_with,
};
ghost use Rattle.rm_protocol.specs.Polls.{poll as poll_of};
ghost use Rattle.rm_protocol.specs.Terms.{Terms};
ghost use Rattle.node_laws.specs.OwnTerms.{AreOwn};
ghost use Rattle.node_laws.specs.Answers.Answers.{MayBeStored, seen, wish_seen};
ghost use Rattle.node_laws.specs.Answers.Serving.{Serves};
ghost use Rattle.node_calls.specs.Records.{CallsFit, IsServing};

use crate::{asks, consumes, ends, nacks, polls, requests, sends, ticks};
use node_laws::answers::{Answer, Wish};
use node_laws::laws::{own_terms_are_terms, there_are_own_terms};
use node_tables::Tables;
use rm_base::{Blob, Memory, Uri};
use rm_protocol::laws::each_record_may_come_next;
use std::alloc::Global;
use timers::slots::Key;

// What the records of the tables give to a call, and that those that it adds may come next.
fn serving(tables: &Tables, place: u64)
    requires { Serves tables.now.records place }
    ensures records { IsServing tables.now.records }
    ensures next { CallsFit tables.now.records place }
{
    each_record_may_come_next();
    there_are_own_terms();
    own_terms_are_terms();
    let _count = tables.len();
}

/// Asks for a sequence.
/// - `is`: the answer of the protocol, for all terms of a node's own: its refusals in their order, its records, and
///   what it says then. So it is with the other calls.
/// - `stored`: the records may be written: each may come next, there is room, and their values are as their types keep
///   them. So it is with the other calls.
/// - TooManySequences, StoreFull: in this order (`is`).
pub fn create(alloc: Global, tables: &Tables, place: u64, wish: Wish) -> Result<Answer, Memory>
    requires serves { Serves tables.now.records place }
    ensures is { (terms : Terms) → AreOwn terms
        → IfOk result (λ a. seen a ≡ create_of terms tables.now.records place (wish_seen wish)) }
    ensures stored { IfOk result (λ a. MayBeStored tables.now.records place (map fact_of a.batch.items)) }
{
    serving(tables, place);
    requests::ask(alloc, tables, place, wish)
}

/// Accepts a payload for an outgoing sequence.
/// - NoSequence, WrongSide, PayloadTooLong, BadPayload, NotOpen, WindowFull, NodeFull, Rollover, StoreFull: in this
///   order (`is`).
pub fn send(
    alloc: Global,
    tables: &Tables,
    place: u64,
    seq: u32,
    payload: Blob,
) -> Result<Answer, Memory>
    requires { Serves tables.now.records place }
    ensures is { (terms : Terms) → AreOwn terms
        → IfOk result (λ a. seen a ≡ send_of terms tables.now.records place seq payload) }
    ensures stored { IfOk result (λ a. MayBeStored tables.now.records place (map fact_of a.batch.items)) }
{
    serving(tables, place);
    sends::accept(alloc, tables, place, seq, payload)
}

/// Closes a sequence.
/// - NoSequence, NotOpen, StoreFull: in this order (`is`).
pub fn close(
    alloc: Global,
    tables: &Tables,
    place: u64,
    seq: u32,
    now: u64,
) -> Result<Answer, Memory>
    requires { Serves tables.now.records place }
    ensures is { (terms : Terms) → AreOwn terms
        → IfOk result (λ a. seen a ≡ close_of terms tables.now.records place seq now) }
    ensures stored { IfOk result (λ a. MayBeStored tables.now.records place (map fact_of a.batch.items)) }
{
    serving(tables, place);
    ends::close(alloc, tables, place, seq, now)
}

/// Consumes the items of an incoming sequence's inbox up to one.
/// - NoSequence, WrongSide, PastInbox, StoreFull: in this order (`is`).
/// - `is`: one record says so where the cursor goes on, and none where it doesn't.
pub fn consume(
    alloc: Global,
    tables: &Tables,
    place: u64,
    seq: u32,
    upto: u64,
) -> Result<Answer, Memory>
    requires { Serves tables.now.records place }
    ensures is { (terms : Terms) → AreOwn terms
        → IfOk result (λ a. seen a ≡ consume_of terms tables.now.records place seq upto) }
    ensures stored { IfOk result (λ a. MayBeStored tables.now.records place (map fact_of a.batch.items)) }
{
    serving(tables, place);
    consumes::consume(alloc, tables, place, seq, upto)
}

/// Ends an outgoing sequence.
/// - NoSequence, WrongSide, NotOpen, StoreFull: in this order (`is`).
pub fn end(alloc: Global, tables: &Tables, place: u64, seq: u32) -> Result<Answer, Memory>
    requires { Serves tables.now.records place }
    ensures is { (terms : Terms) → AreOwn terms
        → IfOk result (λ a. seen a ≡ end_of terms tables.now.records place seq) }
    ensures stored { IfOk result (λ a. MayBeStored tables.now.records place (map fact_of a.batch.items)) }
{
    serving(tables, place);
    ends::end(alloc, tables, place, seq)
}

/// Ends the incoming sequences whose time has run out, and says the messages of the keys that are emitted.
/// - `is`: each key that is handed in is said as its data message, or as the request that its sequence waits with, in
///   the order of the keys. A batch that has no room is left out.
pub fn tick(
    alloc: Global,
    tables: &Tables,
    place: u64,
    now: u64,
    keys: Vec<Key>,
) -> Result<Answer, Memory>
    requires { Serves tables.now.records place }
    ensures is { (terms : Terms) → AreOwn terms
        → IfOk result (λ a. seen a ≡ tick_with terms tables.now.records place now keys.items) }
    ensures stored { IfOk result (λ a. MayBeStored tables.now.records place (map fact_of a.batch.items)) }
{
    serving(tables, place);
    ticks::tick(alloc, tables, place, now, keys)
}

/// Asks the peer of an outgoing sequence for an acknowledgement.
/// - NoSequence, WrongSide, NotOpen: in this order (`is`).
pub fn ask_ack(alloc: Global, tables: &Tables, place: u64, seq: u32) -> Result<Answer, Memory>
    requires { Serves tables.now.records place }
    ensures is { IfOk result (λ a. seen a ≡ ask_ack_of tables.now.records seq) }
    ensures stored { IfOk result (λ a. MayBeStored tables.now.records place (map fact_of a.batch.items)) }
{
    asks::ask_ack(alloc, tables, seq)
}

/// Tells the peer of an incoming sequence which numbers are missing.
/// - NoSequence, WrongSide, NotOpen: in this order (`is`).
/// - `is`: a Nack names the first 64 numbers below the greatest that were not received; no record is added.
pub fn nack_missing(
    alloc: Global,
    tables: &Tables,
    place: u64,
    seq: u32,
    now: u64,
) -> Result<Answer, Memory>
    requires { Serves tables.now.records place }
    ensures is { IfOk result (λ a. seen a ≡ nack_missing_of tables.now.records seq now) }
    ensures stored { IfOk result (λ a. MayBeStored tables.now.records place (map fact_of a.batch.items)) }
{
    serving(tables, place);
    nacks::nack_missing(alloc, tables, seq, now)
}

/// Asks a peer for the messages that wait there for the node.
/// - `is`: a MakeConnection asks for what waits for the node's polled address; no record is added.
pub fn poll(alloc: Global, tables: &Tables, place: u64, to: Uri) -> Result<Answer, Memory>
    requires { Serves tables.now.records place }
    ensures is { IfOk result (λ a. seen a ≡ poll_of tables.now.records to) }
    ensures stored { IfOk result (λ a. MayBeStored tables.now.records place (map fact_of a.batch.items)) }
{
    serving(tables, place);
    polls::poll(alloc, tables, to)
}
