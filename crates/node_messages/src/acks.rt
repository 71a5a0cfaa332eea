//! Acknowledgements, and requests for them: WS-ReliableMessaging 1.2, sections 3.8 and 3.9.
ghost use Rattle.std.specs.Prelude.{◌≡◌, IfOk};
ghost use Rattle.rm_protocol.specs.Messages.{
  ack_message as ack_message_of,
  ask_message as ask_message_of,
  kind_of,
};
ghost use Rattle.rm_protocol.specs.Rows.{ranges_of as ranges_in};
ghost use Rattle.rm_protocol.specs.Said.{with_blocks as with_blocks_of};

use crate::name::Name;
use crate::plain::plain;
use rm_base::{Ident, Items, Memory};
use rm_message::elements::{AckBlock, AckKind};
use rm_message::{Acks, Body, Idents, Message};
use rm_sides::ranges::{Range, RangeSet};
use std::alloc::Global;
use wsa_headers::Epr;

/// The ranges of a block; None and Nack have none.
pub fn ranges_of(kind: &AckKind) -> &[Range]
    ensures { result.now ≡ ranges_in kind.now }
{
    match kind {
        AckKind::Ranges(ranges) => ranges.as_slice(),
        AckKind::Nothing => &[],
        AckKind::Nack(_) => &[],
    }
}

// The ranges of a set, or that there is no number.
fn ranges_kind(alloc: Global, received: &RangeSet) -> Result<AckKind, Memory>
    ensures { IfOk result (λ kind. kind ≡ kind_of received.now.ranges) }
{
    let ranges = received.ranges();
    if ranges.is_empty() {
        return Ok(AckKind::Nothing);
    }
    Ok(AckKind::Ranges(Items::from_vec(Vec::from_slice(alloc, ranges)?)))
}

/// The acknowledgement of the numbers that were received, Final where the sequence isn't open.
pub fn ack_block(
    alloc: Global,
    ident: Ident,
    received: &RangeSet,
    is_last: bool,
) -> Result<AckBlock, Memory>
    ensures { IfOk result (λ block. block ≡ record {
      ident = ident;
      kind = kind_of received.now.ranges;
      last = is_last;
    }) }
{
    Ok(AckBlock {
        ident,
        kind: ranges_kind(alloc, received)?,
        last: is_last,
    })
}

/// Acknowledgements as a message of their own.
pub fn ack_message(alloc: Global, to: Epr, blocks: Acks) -> Result<Message, Memory>
    ensures { IfOk result (λ m. m ≡ ack_message_of to blocks) }
{
    let mut message = plain(
        alloc,
        to,
        Name::SequenceAcknowledgement.action(),
        Body::Empty,
    )?;
    message.acks = blocks;
    Ok(message)
}

/// A request for an acknowledgement.
pub fn ask_message(alloc: Global, to: Epr, ident: Ident) -> Result<Message, Memory>
    ensures { IfOk result (λ m. m ≡ ask_message_of to ident) }
{
    let mut asks = Idents::new(alloc);
    asks.push(ident)?;
    let mut message = plain(alloc, to, Name::AckRequested.action(), Body::Empty)?;
    message.asks = asks;
    Ok(message)
}

/// A message with more acknowledgements.
pub fn with_blocks(mut message: Message, blocks: Acks) -> Result<Message, Memory>
    ensures { IfOk result (λ m. m ≡ with_blocks_of message blocks) }
{
    for block in blocks.into_vec() {
        message.acks.push(block)?;
    }
    Ok(message)
}
