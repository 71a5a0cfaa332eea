//! The acknowledgement of one sequence, and the block that a fault carries.
ghost use Rattle.std.specs.Prelude.{◌≡◌, ◌++◌, true, IfOk};
ghost use Rattle.record_batch.specs.Sequences.Fits.{all_fit};
ghost use Rattle.rm_protocol.specs.Calls.{
  block_at as block_at_header,
  block_by as block_by_seq,
  fault_block as fault_block_of,
  first_invalid as first_invalid_of,
};
ghost use Rattle.rm_protocol.specs.Messages.{block_of as block_for};
ghost use Rattle.tables_ahead.specs.Known.{all_records};

use crate::verdict::is_invalid;
use node_messages::ack_block;
use rm_base::{Ident, Memory};
use rm_message::elements::{AckBlock, SeqHeader, copy_block};
use rm_message::{FaultKind, Message};
use std::alloc::Global;
use tables_ahead::Known;

/// The acknowledgement of an incoming sequence.
pub fn block_of(
    alloc: Global,
    ahead: &Known<'_>,
    seq: u32,
    ident: &Ident,
    now: u64,
) -> Result<AckBlock, Memory>
    requires fit { all_fit ahead.now.records ahead.now.delta ≡ true }
    ensures { IfOk result (λ b. b ≡ block_for (all_records ahead.now) seq ident.now now) }
{
    let ident = ident.copy()?;
    let received = ahead.received(seq)?;
    let block = ack_block(alloc, ident, &received, ahead.is_over(seq, now))?;
    Ok(block)
}

// The acknowledgement of a sequence, where it is one of ours.
fn block_by(
    alloc: Global,
    ahead: &Known<'_>,
    now: u64,
    ident: &Ident,
    seq: Option<u32>,
) -> Result<Option<AckBlock>, Memory>
    requires fit { all_fit ahead.now.records ahead.now.delta ≡ true }
    ensures { IfOk result (λ b. b ≡ block_by_seq (all_records ahead.now) now ident.now seq) }
{
    match seq {
        Some(seq) => Ok(Some(block_of(alloc, ahead, seq, ident, now)?)),
        None => Ok(None),
    }
}

// The acknowledgement of the sequence that a Sequence header names.
fn block_at(
    alloc: Global,
    ahead: &Known<'_>,
    now: u64,
    header: &Option<SeqHeader>,
) -> Result<Option<AckBlock>, Memory>
    requires fit { all_fit ahead.now.records ahead.now.delta ≡ true }
    ensures { IfOk result (λ b. b ≡ block_at_header (all_records ahead.now) now header.now) }
{
    match header {
        Some(header) => {
            let seq = ahead.find_incoming(&header.ident);
            block_by(alloc, ahead, now, &header.ident, seq)
        }
        None => Ok(None),
    }
}

// The first block that is refused.
fn first_invalid(
    alloc: Global,
    ahead: &Known<'_>,
    blocks: &[AckBlock],
) -> Result<Option<AckBlock>, Memory>
    ensures { IfOk result (λ b. b ≡ first_invalid_of (all_records ahead.now) blocks.now) }
{
    for block in blocks {
        if is_invalid(ahead, block) {
            return Ok(Some(copy_block(alloc, block)?));
        }
    }
    Ok(None)
}

/// The block that belongs to a fault of this kind, where one does: the final acknowledgement of the closed sequence, or
/// the first block that is refused.
pub fn fault_block(
    alloc: Global,
    ahead: &Known<'_>,
    now: u64,
    message: &Message,
    kind: FaultKind,
) -> Result<Option<AckBlock>, Memory>
    requires fit { all_fit ahead.now.records ahead.now.delta ≡ true }
    ensures { IfOk result (λ b. b ≡ fault_block_of (all_records ahead.now) now message.now kind) }
{
    match kind {
        FaultKind::SequenceClosed => block_at(alloc, ahead, now, &message.sequence),
        FaultKind::InvalidAcknowledgement => first_invalid(alloc, ahead, message.acks.as_slice()),
        _ => Ok(None),
    }
}
