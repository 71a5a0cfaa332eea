//! The acknowledgements that a message carries, and those that it asks for: WS-ReliableMessaging 1.2, sections 3.8 and
//! 3.9.
ghost use Rattle.std.specs.Prelude.{◌≡◌, ◌++◌, nat_lt};
ghost use Rattle.std.specs.List.{list_any};
ghost use Rattle.rm_sides.specs.declared.ranges.range.Range.{Range as Numbers};
ghost use Rattle.rm_protocol.specs.Verdict.{
  is_above as is_above_in,
  is_invalid as is_invalid_in,
  is_invalid_at as is_invalid_at_in,
  knows_ask as knows_ask_in,
  knows_block as knows_block_in,
  names_none as names_none_in,
};
ghost use Rattle.tables_ahead.specs.Known.{all_records};

use node_messages::ranges_of;
use rm_base::Ident;
use rm_message::elements::AckBlock;
use rm_message::{Body, Message};
use rm_sides::ranges::Range;
use tables_ahead::Known;

fn knows_block(ahead: &Known<'_>, block: &AckBlock) -> bool
    ensures { result ≡ knows_block_in (all_records ahead.now) block.now }
{
    ahead.find_outgoing(block.ident.as_slice()).is_some()
}

fn knows_ask(ahead: &Known<'_>, ident: &Ident) -> bool
    ensures { result ≡ knows_ask_in (all_records ahead.now) ident.now }
{
    ahead.find_incoming(ident).is_some()
}

fn knows_a_block(ahead: &Known<'_>, blocks: &[AckBlock]) -> bool
    ensures { result ≡ list_any (knows_block_in (all_records ahead.now)) blocks.now }
{
    blocks.iter().any(|block| knows_block(ahead, block))
}

fn knows_an_ask(ahead: &Known<'_>, asks: &[Ident]) -> bool
    ensures { result ≡ list_any (knows_ask_in (all_records ahead.now)) asks.now }
{
    asks.iter().any(|ident| knows_ask(ahead, ident))
}

/// Whether a message has acknowledgements or requests for them, an empty body, and none that names a sequence of ours.
pub(crate) fn names_none(ahead: &Known<'_>, message: &Message) -> bool
    ensures { result
        ≡ names_none_in (all_records ahead.now) message.now.acks message.now.asks message.now.body }
{
    let Body::Empty = message.body else {
        return false;
    };
    if message.acks.is_empty() && message.asks.is_empty() {
        return false;
    }
    !(knows_a_block(ahead, message.acks.as_slice()) || knows_an_ask(ahead, message.asks.as_slice()))
}

// Whether one of the ranges ends above a number.
fn is_above(number: u64, ranges: &[Range]) -> bool
    ensures { result ≡ is_above_in number ranges.now }
{
    ranges.iter().any(|range| number < range.upper)
}

// Whether one of the ranges ends above what an outgoing sequence of ours accepted.
fn is_invalid_at(ahead: &Known<'_>, ranges: &[Range], seq: Option<u32>) -> bool
    ensures { result ≡ is_invalid_at_in (all_records ahead.now) ranges.now seq }
{
    match seq {
        Some(seq) => is_above(ahead.accepted_len(seq), ranges),
        None => false,
    }
}

/// Whether a block has a range above what its outgoing sequence accepted.
pub fn is_invalid(ahead: &Known<'_>, block: &AckBlock) -> bool
    ensures { result ≡ is_invalid_in (all_records ahead.now) block.now }
{
    let seq = ahead.find_outgoing(block.ident.as_slice());
    is_invalid_at(ahead, ranges_of(&block.kind), seq)
}

/// Whether one of the blocks has a range above what its outgoing sequence accepted.
pub(crate) fn has_invalid(ahead: &Known<'_>, blocks: &[AckBlock]) -> bool
    ensures { result ≡ list_any (is_invalid_in (all_records ahead.now)) blocks.now }
{
    blocks.iter().any(|block| is_invalid(ahead, block))
}
