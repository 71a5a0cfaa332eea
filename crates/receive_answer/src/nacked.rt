//! The messages that a peer says are missing: WS-ReliableMessaging 1.2, section 3.9.
ghost use Rattle.std.specs.Prelude.{◌≡◌, ◌++◌, map, IfOk, OnOk};
ghost use Rattle.rm_protocol.specs.Waiting.{key, nacked as nacked_by, nacked_at, nacked_of as nacked_in};
ghost use Rattle.record_batch.specs.Sequences.Find.{find_outgoing};
ghost use Rattle.node_laws.specs.Answers.Answers.{moves_seen};
ghost use Rattle.receive_answer.specs.Untold.{urging as urging_of};

use node_laws::answers::Moves;
use node_tables::Tables;
use rm_base::Memory;
use rm_message::Message;
use rm_message::elements::{AckBlock, AckKind};
use std::alloc::Global;
use timers::slots::Key;

// The numbers that a block says are missing.
fn nacked_of(kind: &AckKind) -> &[u64]
    ensures { result.now ≡ nacked_in kind.now }
{
    match kind {
        AckKind::Nack(numbers) => numbers.as_slice(),
        AckKind::Ranges(_) => &[],
        AckKind::Nothing => &[],
    }
}

// Adds the keys of messages of a sequence.
fn push_keys(seq: u32, numbers: &[u64], keys: &mut Vec<Key>) -> Result<(), Memory>
    ensures { OnOk result (keys.new.items ≡ keys.old.items ++ map (key seq) numbers.now) }
{
    for number in numbers {
        keys.push(Key {
            seq,
            number: *number,
        })?;
    }
    Ok(())
}

// Adds the keys that a block says are missing, where it is of an outgoing sequence.
fn push_nacked(tables: &Tables, block: &AckBlock, keys: &mut Vec<Key>) -> Result<(), Memory>
    ensures { OnOk result (keys.new.items ≡ keys.old.items
        ++ nacked_at (find_outgoing tables.now.records block.now.ident) (nacked_in block.now.kind)) }
{
    let numbers = nacked_of(&block.kind);
    if numbers.is_empty() {
        return Ok(());
    }
    match tables.find_outgoing(block.ident.as_slice()) {
        Some(seq) => push_keys(seq, numbers, keys),
        None => Ok(()),
    }
}

// The keys that blocks say are missing, in order.
fn nacked(alloc: Global, tables: &Tables, blocks: &[AckBlock]) -> Result<Vec<Key>, Memory>
    ensures { IfOk result (λ keys. keys.items ≡ nacked_by tables.now.records blocks.now) }
{
    let mut keys = Vec::new(alloc);
    for block in blocks {
        push_nacked(tables, block, &mut keys)?;
    }
    Ok(keys)
}

/// What a message that is taken does to the keys that wait: those that it says are missing are due at once.
pub(crate) fn urging(alloc: Global, tables: &Tables, message: &Message) -> Result<Moves, Memory>
    ensures { IfOk result (λ moves. moves_seen moves ≡ urging_of tables.now.records message.now) }
{
    Ok(Moves {
        urged: nacked(alloc, tables, message.acks.as_slice())?,
        emitted: Vec::new(alloc),
        time: 0,
    })
}
