//! Header blocks: WS-ReliableMessaging 1.2, sections 3.7 to 3.9, and WS-MakeConnection 1.1, section 3.
ghost use Rattle.std.specs.Prelude.{◌≡◌, ◌-◌, ◌^◌, min, option_map};
ghost use Rattle.soap_lex.specs.Tests.{is_nil};
ghost use Rattle.soap_document.specs.Profile.View.{element_view, attrs_view, parts_view};
ghost use Rattle.soap_writer.specs.Values.Outcome.{Gives, each};
ghost use Rattle.soap_writer.specs.Values.Steps.{lent_trees};
ghost use Rattle.rm_message.specs.Elements.Steps.{capped};
ghost use Rattle.rm_message.specs.Elements.Headers.{
  ident_of,
  identifier,
  number_in,
  number_of,
  message_number,
  numbered_in,
  bound_in,
  range_of,
  ack_of,
  ack_in,
  pending_in,
  is_false,
};

use rm_base::{Ident, Items, MAX_NUMBER, Numbers};
use rm_sides::ranges::Range;
use soap_document::profile::{Element, Item};
use soap_writer::values::{
    Flaw, find_all, find_optional, find_single, find_value, is_true_mark, read_ident, read_number,
    read_text, read_trimmed, trim,
};
use std::alloc::Global;

/// The namespace of WS-ReliableMessaging 1.2: section 1.4.
pub const MESSAGING: &[u8] = b"http://docs.oasis-open.org/ws-rx/wsrm/200702";

/// Ranges as they were written, in any order, and they may overlap.
pub type Ranges = Items<Range>;

/// A Sequence block: section 3.7.
#[derive(Debug, Drop)]
pub struct SeqHeader {
    pub ident: Ident,
    pub number: u64,
}

/// What an acknowledgement says: ranges of numbers that were received, that none was, or numbers that were not.
#[derive(Debug, Drop)]
pub enum AckKind {
    Ranges(Ranges),
    Nothing,
    Nack(Numbers),
}

/// A SequenceAcknowledgement block: section 3.9. `last` tells whether Final stands in it.
#[derive(Debug)]
pub struct AckBlock {
    pub ident: Ident,
    pub kind: AckKind,
    pub last: bool,
}

// It's written, and not derived: a value whose drop is derived is taken apart at each place where it may be let go.
impl Drop for AckBlock {
    fn drop(self) {
        let AckBlock {
            ident: _,
            kind: _,
            last: _,
        } = self;
    }
}

/// A header block: `Ask` is AckRequested, section 3.8, and `Pending` is MessagePending of WS-MakeConnection 1.1.
#[derive(Debug, Drop)]
pub enum Header {
    Sequence(SeqHeader),
    Ack(AckBlock),
    Ask(Ident),
    Pending(bool),
}

fn ident_within(alloc: Global, element: &Element) -> Result<Ident, Flaw>
    ensures { Gives (λ ident. ident) result (ident_of (element_view element.now)) }
{
    let text = read_text(alloc, element.items.as_slice())?;
    read_ident(alloc, trim(text.as_slice()))
}

#[tactic(auto, unfolding(crate::specs::Elements::Headers::identifier))]
pub(crate) fn read_identifier(alloc: Global, items: &[Item]) -> Result<Ident, Flaw>
    ensures { Gives (λ ident. ident) result (identifier (parts_view items.now)) }
{
    let child = find_single(items, MESSAGING, b"Identifier")?;
    ident_within(alloc, child)
}

// A message number. The greatest u64 stands for all greater ones, and is itself too great.
fn number_from(bytes: &[u8]) -> Result<u64, Flaw>
    ensures { Gives (λ n. n) result (number_in bytes.now) }
{
    let Some(number) = read_number(bytes) else {
        return Err(Flaw::Malformed);
    };
    if number == 0 {
        return Err(Flaw::Malformed);
    }
    if number > MAX_NUMBER {
        return Err(Flaw::Malformed);
    }
    Ok(number)
}

pub(crate) fn number_within(alloc: Global, element: &Element) -> Result<u64, Flaw>
    ensures { Gives (λ n. n) result (number_of (element_view element.now)) }
{
    let text = read_text(alloc, element.items.as_slice())?;
    number_from(trim(text.as_slice()))
}

// The number of a Sequence block, where the greatest u64 stands for all greater ones.
#[tactic(auto, unfolding(crate::specs::Elements::Headers::message_number))]
fn read_message_number(alloc: Global, items: &[Item]) -> Result<u64, Flaw>
    ensures { Gives (λ n. n) result (option_map (λ n. min n (2 ^ 64 - 1)) (message_number (parts_view items.now))) }
{
    let child = find_single(items, MESSAGING, b"MessageNumber")?;
    let bytes = read_trimmed(alloc, child)?;
    let Some(number) = read_number(bytes.as_slice()) else {
        return Err(Flaw::Malformed);
    };
    if number == 0 {
        return Err(Flaw::Malformed);
    }
    Ok(number)
}

// The values of a Sequence block, so.
#[tactic(auto, unfolding(crate::specs::Elements::Headers::numbered_in))]
pub(crate) fn read_numbered(alloc: Global, items: &[Item]) -> Result<SeqHeader, Flaw>
    ensures { Gives (λ s. s) result (option_map capped (numbered_in (parts_view items.now))) }
{
    let ident = read_identifier(alloc, items)?;
    let number = read_message_number(alloc, items)?;
    Ok(SeqHeader { ident, number })
}

fn read_bound(element: &Element, local: &[u8]) -> Result<u64, Flaw>
    ensures { Gives (λ n. n) result (bound_in local.now (element_view element.now)) }
{
    let Some(bytes) = find_value(element.items.as_slice(), b"", local) else {
        return Err(Flaw::Malformed);
    };
    number_from(bytes)
}

#[tactic(auto, unfolding(crate::specs::Elements::Headers::range_of))]
fn range_within(element: &Element) -> Result<Range, Flaw>
    ensures { Gives (λ r. r) result (range_of (element_view element.now)) }
{
    let lower = read_bound(element, b"Lower")?;
    let upper = read_bound(element, b"Upper")?;
    if upper < lower {
        return Err(Flaw::Malformed);
    }
    Ok(Range { lower, upper })
}

fn read_ranges(alloc: Global, elements: &[&Element]) -> Result<Ranges, Flaw>
    ensures { Gives (λ rs. rs) result (each range_of (lent_trees elements.now)) }
{
    let mut ranges = Items::new(alloc);
    for element in elements {
        ranges.push(range_within(element)?)?;
    }
    Ok(ranges)
}

fn read_nacks(alloc: Global, elements: &[&Element]) -> Result<Numbers, Flaw>
    ensures { Gives (λ ns. ns) result (each number_of (lent_trees elements.now)) }
{
    let mut numbers = Items::new(alloc);
    for element in elements {
        numbers.push(number_within(alloc, element)?)?;
    }
    Ok(numbers)
}

#[tactic(auto, unfolding(crate::specs::Elements::Headers::ack_in))]
pub(crate) fn read_ack(alloc: Global, items: &[Item]) -> Result<AckBlock, Flaw>
    ensures { Gives (λ a. a) result (ack_in (parts_view items.now)) }
{
    let ident = read_identifier(alloc, items)?;
    let elements = find_all(alloc, items, MESSAGING, b"AcknowledgementRange")?;
    let ranges = read_ranges(alloc, elements.as_slice())?;
    let nothing = find_optional(items, MESSAGING, b"None")?;
    let elements = find_all(alloc, items, MESSAGING, b"Nack")?;
    let nacks = read_nacks(alloc, elements.as_slice())?;
    let last = find_optional(items, MESSAGING, b"Final")?;
    ack_with(ident, ranges, nothing.is_some(), nacks, last.is_some())
}

// The mixtures of ranges, None, Nack and Final that may stand together.
#[tactic(auto, unfolding(crate::specs::Elements::Headers::ack_of))]
fn ack_with(
    ident: Ident,
    ranges: Ranges,
    nothing: bool,
    nacks: Numbers,
    last: bool,
) -> Result<AckBlock, Flaw>
    ensures { Gives (λ a. a) result (ack_of ident ranges nothing nacks last) }
{
    if nothing {
        if is_empty(&ranges) && is_empty(&nacks) {
            return Ok(AckBlock {
                ident,
                kind: AckKind::Nothing,
                last,
            });
        }
        return Err(Flaw::Malformed);
    }
    if is_empty(&nacks) {
        if is_empty(&ranges) {
            return Err(Flaw::Malformed);
        }
        return Ok(AckBlock {
            ident,
            kind: AckKind::Ranges(ranges),
            last,
        });
    }
    if is_empty(&ranges) && !last {
        return Ok(AckBlock {
            ident,
            kind: AckKind::Nack(nacks),
            last: false,
        });
    }
    Err(Flaw::Malformed)
}

fn is_empty<T>(items: &Items<T>) -> bool
    ensures { result ≡ is_nil items.now }
{
    items.is_empty()
}

fn is_false_mark(bytes: &[u8]) -> bool
    ensures { result ≡ is_false bytes.now }
{
    let mark = trim(bytes);
    mark == b"false".as_slice() || mark == b"0".as_slice()
}

pub(crate) fn read_pending(items: &[Item]) -> Result<bool, Flaw>
    ensures { Gives (λ b. b) result (pending_in (attrs_view items.now)) }
{
    let Some(bytes) = find_value(items, b"", b"pending") else {
        return Ok(false);
    };
    if is_true_mark(bytes) {
        return Ok(true);
    }
    if is_false_mark(bytes) {
        return Ok(false);
    }
    Err(Flaw::Malformed)
}
