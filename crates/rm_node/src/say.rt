//! What a node says to a call.
ghost use Rattle.std.specs.Prelude.{◌≡◌, ◌≤◌, false, map, IfErr, IfOk, OnOk};
ghost use Rattle.rm_base.specs.Limits.{now_max};
ghost use Rattle.record_batch.specs.Fact.{fact_of};
ghost use Rattle.rm_protocol.specs.Calls.{tick as tick_of};
ghost use Rattle.rm_protocol.specs.Terms.{Terms};
ghost use Rattle.node_laws.specs.OwnTerms.{AreOwn};
ghost use Rattle.node_laws.specs.Answers.Answers.{MayBeStored, seen};
ghost use Rattle.node_laws.specs.Answers.Serving.{Serves};
ghost use Rattle.rm_node.specs.Asked.{Asked, Asks, IsAsked, MayBeAsked, answer_to as protocol_answer};
ghost use Rattle.rm_node.specs.Asked.{is_connected};
ghost use Rattle.rm_node.specs.Fetching.{whole};
ghost use Rattle.rm_node.specs.Keeping.{Keeping, Keeps};
ghost use Rattle.rm_node.specs.Saying.{IsUnsaid, Says};

use crate::begun::begun_with_call;
use crate::call::Call;
use crate::error::NodeError;
use crate::fetch::{Answered, unfetched};
use crate::kept::Kept;
use crate::node::Node;
use crate::packets::{Handed, hand_out};
use crate::receive::answer_to_bytes;
use node_laws::answers::Answer;
use node_laws::laws::{each_call_keeps_the_records, there_are_own_terms};
use node_tables::Tables;
use node_waits::keys::due_keys;
use rm_base::Memory;
use rm_protocol::laws::{only_what_was_heard_is_recorded, what_begins_waits};
use rm_wire::read_laws::laws::{a_refusal_may_be_answered, what_is_read_may_be_written};
use std::alloc::Global;
use timers::slots::Key;

/// What a node says to a call: the answer, the key that begins to wait unless it is a refusal, and what leaves the node
/// once its records are written.
#[derive(Debug, Drop)]
pub(crate) struct Said {
    pub(crate) answered: Answered,
    pub(crate) begun: Option<Key>,
    pub(crate) handed: Handed,
}

/// The answer to a tick at a moment: what is due then is emitted.
fn answer_to_tick(
    alloc: Global,
    tables: &Tables,
    place: u64,
    kept: &Kept,
    now: u64,
) -> Result<Answer, Memory>
    requires serves { Serves tables.now.records place }
    requires now { now ≤ now_max }
    ensures is { (terms : Terms) → AreOwn terms → (besides : Keeping) → Keeps kept.now besides
        → IfOk result (λ a. seen a ≡ tick_of terms tables.now.records place now besides.time besides.waits) }
    ensures stored { IfOk result (λ a. MayBeStored tables.now.records place (map fact_of a.batch.items)) }
{
    let keys = due_keys(alloc, &kept.timers, now)?;
    node_calls::tick(alloc, tables, place, now, keys)
}

/// The answer to a call that comes on no connection.
fn own_answer(
    alloc: Global,
    tables: &Tables,
    place: u64,
    now: u64,
    kept: &Kept,
    call: Call<'_>,
) -> Result<Answer, Memory>
    requires serves { Serves tables.now.records place }
    requires may { MayBeAsked call }
    requires own { is_connected call ≡ false }
    ensures is { (terms : Terms) → AreOwn terms → (besides : Keeping) → Keeps kept.now besides → (asked : Asked)
        → Asks call.entry asked
        → IfOk result (λ a. seen a ≡ protocol_answer terms tables.now.records place now besides asked) }
    ensures stored { IfOk result (λ a. MayBeStored tables.now.records place (map fact_of a.batch.items)) }
    ensures asked { OnOk result (IsAsked call.entry) }
{
    match call {
        Call::Create { wish } => node_calls::create(alloc, tables, place, wish),
        Call::Send { seq, payload } => node_calls::send(alloc, tables, place, seq, payload),
        Call::Close { seq } => node_calls::close(alloc, tables, place, seq, now),
        Call::End { seq } => node_calls::end(alloc, tables, place, seq),
        Call::AskAck { seq } => node_calls::ask_ack(alloc, tables, place, seq),
        Call::NackMissing { seq } => node_calls::nack_missing(alloc, tables, place, seq, now),
        Call::Consume { seq, upto } => node_calls::consume(alloc, tables, place, seq, upto),
        Call::Tick { now } => answer_to_tick(alloc, tables, place, kept, now),
        Call::Poll { to } => node_calls::poll(alloc, tables, place, to),
        Call::Receive { .. } => unreachable!(),
    }
}

/// The answer to a call: of bytes that came by `answer_to_bytes`, of the others by `own_answer`.
fn answer_to(
    alloc: Global,
    tables: &Tables,
    place: u64,
    now: u64,
    kept: &Kept,
    call: Call<'_>,
) -> Result<Answered, Memory>
    requires serves { Serves tables.now.records place }
    requires may { MayBeAsked call }
    ensures is { (terms : Terms) → AreOwn terms → (besides : Keeping) → Keeps kept.now besides → (asked : Asked)
        → Asks call.entry asked
        → IfOk result (λ a. whole a ≡ protocol_answer terms tables.now.records place now besides asked) }
    ensures stored { IfOk result (λ a. MayBeStored tables.now.records place (map fact_of a.answer.batch.items)) }
    ensures asked { OnOk result (IsAsked call.entry) }
{
    if let Call::Receive { bytes } = call {
        return answer_to_bytes(alloc, tables, place, now, kept, bytes);
    }
    Ok(unfetched(own_answer(alloc, tables, place, now, kept, call)?))
}

impl Node {
    /// Answers a call at a moment, and encodes what is said. Nothing is written, and nothing of the node changes.
    pub(crate) fn say(&self, now: u64, call: Call<'_>) -> Result<Said, NodeError>
        requires { MayBeAsked call }
        ensures says { IfOk result (Says self.now now call.entry) }
        ensures err { IfErr result (IsUnsaid self.now) }
    {
        each_call_keeps_the_records();
        there_are_own_terms();
        what_is_read_may_be_written();
        a_refusal_may_be_answered();
        only_what_was_heard_is_recorded();
        what_begins_waits();
        self.check_up()?;
        let connected = call.is_connected();
        let (tables, place) = self.tables_and_end();
        let begun = begun_with_call(tables, &call);
        let answered = answer_to(self.alloc, tables, place, now, &self.kept, call)?;
        let handed = hand_out(self.alloc, connected, &answered)?;
        Ok(Said {
            answered,
            begun,
            handed,
        })
    }
}
