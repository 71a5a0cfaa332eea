//! The key that begins to wait with a call.
ghost use Rattle.std.specs.Prelude.{◌≡◌, ◌+◌, length};
ghost use Rattle.record_batch.specs.Sequences.Makers.{maker, makers};
ghost use Rattle.record_batch.specs.Sequences.Sources.{accepted_count};
ghost use Rattle.rm_protocol.specs.Waiting.{key as key_of};
ghost use Rattle.node_laws.specs.Records.{IsKept};
ghost use Rattle.rm_node.specs.Asked.{Asked, Asks};
ghost use Rattle.rm_node.specs.Timed.{begun_with, of_outgoing};

use crate::call::Call;
use node_tables::Tables;
use node_tables::laws::an_outgoing_sequence_is_as_recorded;
use timers::slots::Key;

/// The key of the request of the sequence that is made next.
fn next_request(tables: &Tables) -> Key
    requires { IsKept tables.now.records }
    ensures { result ≡ key_of (length (makers tables.now.records) + 1) 0 }
{
    Key {
        seq: tables.len().saturating_add(1),
        number: 0,
    }
}

/// The key of the request of a sequence, where it is an outgoing one.
fn request(tables: &Tables, seq: u32) -> Option<Key>
    ensures { result ≡ of_outgoing (maker tables.now.records seq) (key_of seq 0) }
{
    match tables.outgoing(seq) {
        Some(_) => Some(Key { seq, number: 0 }),
        None => None,
    }
}

/// The key of the message that is accepted next for a sequence, where it is an outgoing one.
fn next_message(tables: &Tables, seq: u32) -> Option<Key>
    ensures { result
        ≡ of_outgoing (maker tables.now.records seq) (key_of seq (accepted_count tables.now.records seq + 1)) }
{
    an_outgoing_sequence_is_as_recorded();
    match tables.outgoing(seq) {
        Some(outgoing) => Some(Key {
            seq,
            number: outgoing.accepted_len() + 1,
        }),
        None => None,
    }
}

/// The key that begins to wait with a call, unless it is refused.
pub(crate) fn begun_with_call(tables: &Tables, call: &Call<'_>) -> Option<Key>
    requires { IsKept tables.now.records }
    ensures { (asked : Asked) → Asks call.now asked → result ≡ begun_with tables.now.records asked }
{
    match call {
        Call::Create { .. } => Some(next_request(tables)),
        Call::Send { seq, .. } => next_message(tables, *seq),
        Call::Close { seq } => request(tables, *seq),
        Call::End { seq } => request(tables, *seq),
        Call::AskAck { .. } => None,
        Call::NackMissing { .. } => None,
        Call::Consume { .. } => None,
        Call::Tick { .. } => None,
        Call::Poll { .. } => None,
        Call::Receive { .. } => None,
    }
}
