//! Acknowledgements of an incoming sequence as messages of their own: WS-ReliableMessaging 1.2, section 3.9.
ghost use Rattle.std.specs.Prelude.{◌≡◌, ℕ, ◌<◌, ◌^◌, ◌++◌, [], true, IfOk, IfSome};
ghost use Rattle.std.specs.Option.{option_map, option_to_list};
ghost use Rattle.rm_protocol.specs.Calls.{final_ack as final_ack_of, made_by};
ghost use Rattle.rm_protocol.specs.Said.{ack_to, own_messages};
ghost use Rattle.record_batch.specs.Sequences.Find.{acks_to as acks_to_of};
ghost use Rattle.record_batch.specs.Sequences.Fits.{all_fit};
ghost use Rattle.record_batch.specs.Sequences.Makers.{counter, maker};
ghost use Rattle.record_batch.specs.Sequences.Words.{Text};
ghost use Rattle.tables_ahead.specs.Known.{all_records};

use node_messages::{ack_message, is_anonymous};
use node_tables::Maker;
use receive_replies::{acks_to, block_of};
use record_batch::sequences::issue;
use rm_base::Memory;
use rm_message::elements::AckBlock;
use rm_message::{Acks, Message};
use std::alloc::Global;
use tables_ahead::Known;

/// The number that the identifier of an incoming sequence was drawn with.
pub(crate) fn counter_of(ahead: &Known<'_>, seq: u32) -> Option<u64>
    requires fit { all_fit ahead.now.records ahead.now.delta ≡ true }
    requires drawn { counter (all_records ahead.now) < 2 ^ 62 }
    ensures is { let r = all_records ahead.now in
        result ≡ option_map (λ (made : ℕ × Text). made.0) (made_by r (maker r seq)) }
    ensures small { IfSome result (λ counter. counter < 2 ^ 62) }
{
    let _count = ahead.len();
    match ahead.maker(seq) {
        Some(Maker::Granted { counter, .. }) => Some(counter),
        Some(Maker::Offered { counter, .. }) => Some(counter),
        Some(Maker::Asked { .. }) => None,
        Some(Maker::Taken { .. }) => None,
        None => None,
    }
}

/// An acknowledgement of an incoming sequence as a message of its own, once the records ahead are there; none where it
/// goes back on a connection, and where its AcksTo isn't known.
pub(crate) fn own_ack(
    alloc: Global,
    ahead: &Known<'_>,
    seq: u32,
    block: AckBlock,
) -> Result<Option<Message>, Memory>
    requires fit { all_fit ahead.now.records ahead.now.delta ≡ true }
    ensures { IfOk result (λ m. option_to_list m
        ≡ own_messages (ack_to (acks_to_of (all_records ahead.now) seq) block)) }
{
    let Some(to) = acks_to(ahead, seq) else {
        return Ok(None);
    };
    if is_anonymous(to.address.as_slice()) {
        return Ok(None);
    }
    let to = to.copy(alloc)?;
    let mut blocks = Acks::new(alloc);
    blocks.push(block)?;
    Ok(Some(ack_message(alloc, to, blocks)?))
}

/// The final acknowledgement of an incoming sequence as a message of its own, once the records ahead are there.
pub(crate) fn final_ack(
    alloc: Global,
    ahead: &Known<'_>,
    seq: u32,
    now: u64,
) -> Result<Option<Message>, Memory>
    requires fit { all_fit ahead.now.records ahead.now.delta ≡ true }
    requires drawn { counter (all_records ahead.now) < 2 ^ 62 }
    ensures { let r = all_records ahead.now in
        IfOk result (λ m. option_to_list m ≡ final_ack_of r seq now (made_by r (maker r seq))) }
{
    let Some(counter) = counter_of(ahead, seq) else {
        return Ok(None);
    };
    let ident = issue(alloc, ahead.number(), counter)?;
    let block = block_of(alloc, ahead, seq, &ident, now)?;
    own_ack(alloc, ahead, seq, block)
}
