//! All that is said to a message without a verdict.
ghost use Rattle.std.specs.Prelude.{◌≡◌, ◌<◌, ◌^◌, ◌++◌, true, IfOk};
ghost use Rattle.record_batch.specs.Sequences.Fits.{all_fit};
ghost use Rattle.record_batch.specs.Sequences.Makers.{counter, number};
ghost use Rattle.rm_protocol.specs.Said.{said as said_of};
ghost use Rattle.tables_ahead.specs.Known.{all_records};

use crate::acks::acks_said;
use crate::responses::responses;
use node_messages::answered;
use rm_base::Memory;
use rm_message::Message;
use std::alloc::Global;
use tables_ahead::Known;

/// All that is said to a message without a verdict, once the records ahead are there.
pub fn said(
    alloc: Global,
    ahead: &Known<'_>,
    now: u64,
    message: &Message,
) -> Result<Vec<Message>, Memory>
    requires numbered { 0 < number (all_records ahead.now) }
    requires drawn { counter (all_records ahead.now) < 2 ^ 62 }
    requires fit { all_fit ahead.now.records ahead.now.delta ≡ true }
    ensures { IfOk result (λ ms. ms.items ≡ said_of (all_records ahead.now) now message.now) }
{
    let replies = responses(alloc, ahead, now, &message.addressing, &message.body)?;
    let acks = acks_said(alloc, ahead, now, message)?;
    let said = answered(alloc, replies, acks)?;
    Ok(said)
}
