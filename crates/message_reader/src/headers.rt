//! What the header blocks say beside those of WS-Addressing: WS-ReliableMessaging 1.2, sections 3.7 to 3.9,
//! WS-MakeConnection 1.1, section 3.3, and SOAP 1.2 Part 1, section 5.4.8.
ghost use Rattle.std.specs.Prelude.{◌≡◌, ◌++◌, map, option_map, IfOk, OnOk, Some};
ghost use Rattle.std.specs.List.{flat_map};
ghost use Rattle.soap_document.specs.Profile.View.{element_view};
ghost use Rattle.soap_writer.specs.Values.Outcome.{Gives, each, if_present};
ghost use Rattle.soap_writer.specs.Values.Steps.{lent_trees};
ghost use Rattle.message_reader.specs.Headers.{
  listed,
  ack_of,
  ask_of,
  pending_of,
  acks_in,
  asks_in,
  pending_in,
  numbered_of,
  numbered_in,
  told_name,
  told_names,
};

use crate::blocks::{find_block, find_blocks};
use rm_base::{Binding, Ident, Items, Memory};
use rm_message::elements::{
    AckBlock, CONNECTION, ElementError, Header, MESSAGING, SeqHeader, read_header,
};
use rm_message::{Acks, Idents, Names};
use soap_document::profile::{Element, Name};
use soap_envelope::is_soap11;
use soap_writer::values::{Flaw, find_value, read_qname};
use std::alloc::Global;

/// The number that a message has in a sequence: it has none, it is this one, or it is above the greatest.
#[derive(Debug, Drop)]
pub(crate) enum Numbered {
    Unnumbered,
    Within(SeqHeader),
    RolledOver(Ident),
}

fn read_ack(alloc: Global, block: &Element) -> Result<AckBlock, Flaw>
    ensures { Gives (λ ack. ack) result (ack_of (element_view block.now)) }
{
    match read_header(alloc, block) {
        Ok(Some(Header::Ack(ack))) => Ok(ack),
        Ok(_) => Err(Flaw::Malformed),
        Err(ElementError::Memory) => Err(Flaw::Memory),
        Err(_) => Err(Flaw::Malformed),
    }
}

fn read_ask(alloc: Global, block: &Element) -> Result<Ident, Flaw>
    ensures { Gives (λ ident. ident) result (ask_of (element_view block.now)) }
{
    match read_header(alloc, block) {
        Ok(Some(Header::Ask(ident))) => Ok(ident),
        Ok(_) => Err(Flaw::Malformed),
        Err(ElementError::Memory) => Err(Flaw::Memory),
        Err(_) => Err(Flaw::Malformed),
    }
}

fn read_pending_block(alloc: Global, block: &Element) -> Result<bool, Flaw>
    ensures { Gives (λ more. more) result (pending_of (element_view block.now)) }
{
    match read_header(alloc, block) {
        Ok(Some(Header::Pending(more))) => Ok(more),
        Ok(_) => Err(Flaw::Malformed),
        Err(ElementError::Memory) => Err(Flaw::Memory),
        Err(_) => Err(Flaw::Malformed),
    }
}

fn read_number(alloc: Global, block: Option<&Element>) -> Result<Numbered, Flaw>
    ensures { Gives (λ number. number) result (numbered_of (option_map (λ e. element_view e.now) block.entry)) }
{
    let Some(block) = block else {
        return Ok(Numbered::Unnumbered);
    };
    match read_header(alloc, block) {
        Ok(Some(Header::Sequence(sequence))) => Ok(Numbered::Within(sequence)),
        Ok(_) => Err(Flaw::Malformed),
        Err(ElementError::Memory) => Err(Flaw::Memory),
        Err(ElementError::Malformed { .. }) => Err(Flaw::Malformed),
        Err(ElementError::Rollover { ident }) => Ok(Numbered::RolledOver(ident)),
    }
}

fn read_each_ack(alloc: Global, found: &[&Element]) -> Result<Acks, Flaw>
    ensures { Gives (λ acks. acks) result (each ack_of (lent_trees found.now)) }
{
    let mut acks = Items::new(alloc);
    for block in found {
        acks.push(read_ack(alloc, block)?)?;
    }
    Ok(acks)
}

/// The acknowledgements of a message.
pub(crate) fn read_acks(alloc: Global, headers: &[Element]) -> Result<Acks, Flaw>
    ensures { Gives (λ acks. acks) result (acks_in (map element_view headers.now)) }
{
    let found = find_blocks(alloc, headers, MESSAGING, b"SequenceAcknowledgement")?;
    read_each_ack(alloc, found.as_slice())
}

fn read_each_ask(alloc: Global, found: &[&Element]) -> Result<Idents, Flaw>
    ensures { Gives (λ asks. asks) result (each ask_of (lent_trees found.now)) }
{
    let mut asks = Items::new(alloc);
    for block in found {
        asks.push(read_ask(alloc, block)?)?;
    }
    Ok(asks)
}

/// The sequences whose acknowledgements a message asks for.
pub(crate) fn read_asks(alloc: Global, headers: &[Element]) -> Result<Idents, Flaw>
    ensures { Gives (λ asks. asks) result (asks_in (map element_view headers.now)) }
{
    let found = find_blocks(alloc, headers, MESSAGING, b"AckRequested")?;
    read_each_ask(alloc, found.as_slice())
}

/// What the one MessagePending says.
pub(crate) fn read_pending(alloc: Global, headers: &[Element]) -> Result<Option<bool>, Flaw>
    ensures { Gives (λ pending. pending) result (pending_in (map element_view headers.now)) }
{
    match find_block(headers, CONNECTION, b"MessagePending")? {
        Some(block) => Ok(Some(read_pending_block(alloc, block)?)),
        None => Ok(None),
    }
}

/// What the one Sequence says.
pub(crate) fn read_numbered(alloc: Global, headers: &[Element]) -> Result<Numbered, Flaw>
    ensures { Gives (λ number. number) result (numbered_in (map element_view headers.now)) }
{
    let found = find_block(headers, MESSAGING, b"Sequence")?;
    read_number(alloc, found)
}

fn read_told(alloc: Global, block: &Element, scope: &[Binding]) -> Result<Name, Flaw>
    ensures { Gives (λ name. name) result (told_name scope.now (element_view block.now)) }
{
    let Some(bytes) = find_value(block.items.as_slice(), b"", b"qname") else {
        return Err(Flaw::Malformed);
    };
    read_qname(alloc, bytes, &[block], scope)
}

// The name that a block tells of, where it does.
fn push_told(
    alloc: Global,
    block: &Element,
    scope: &[Binding],
    names: &mut Names,
) -> Result<(), Memory>
    ensures { OnOk result (names.new ≡ names.old ++ listed (told_name scope.now (element_view block.now))) }
{
    match read_told(alloc, block, scope) {
        Ok(name) => names.push(name),
        Err(Flaw::Memory) => Err(Memory),
        Err(Flaw::Malformed) => Ok(()),
    }
}

fn read_each_told(alloc: Global, found: &[&Element], scope: &[Binding]) -> Result<Names, Memory>
    ensures { IfOk result (λ names. names ≡ flat_map (λ e. listed (told_name scope.now e)) (lent_trees found.now)) }
{
    let mut names = Items::new(alloc);
    for block in found {
        push_told(alloc, block, scope, &mut names)?;
    }
    Ok(names)
}

/// The names that a peer tells us that it did not understand, where these bindings are in force in the header.
pub(crate) fn read_told_names(
    alloc: Global,
    headers: &[Element],
    soap: &[u8],
    scope: &[Binding],
) -> Result<Names, Memory>
    ensures { IfOk result (λ names. names ≡ told_names soap.now scope.now (map element_view headers.now)) }
{
    if is_soap11(soap) {
        return Ok(Items::new(alloc));
    }
    let found = find_blocks(alloc, headers, soap, b"NotUnderstood")?;
    read_each_told(alloc, found.as_slice(), scope)
}
