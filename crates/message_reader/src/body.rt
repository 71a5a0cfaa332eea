//! What a message has in its Body: a Fault, or what its action says.
ghost use Rattle.std.specs.Prelude.{◌≡◌, option_map, IfOk};
ghost use Rattle.soap_document.specs.Profile.Tree.{children_of};
ghost use Rattle.soap_document.specs.Profile.View.{element_view, parts_view};
ghost use Rattle.soap_writer.specs.Values.Children.{name_in};
ghost use Rattle.soap_writer.specs.Values.Outcome.{Gives, single};
ghost use Rattle.wsa_headers.specs.Addressing.{first_of};
ghost use Rattle.rm_message.specs.Elements.Lifecycle.{lifecycle_of};
ghost use Rattle.message_reader.specs.Bodies.{
  if_fault,
  fault_at,
  fault_of,
  element_for as element_by,
  is_bare as is_bare_action,
  is_protocol as is_protocol_action,
  lifecycle_from,
  lifecycle_in,
  body_for,
  numbered_body as body_numbered,
  unnumbered_body as body_unnumbered,
  body_in,
};

use crate::fault::read_fault;
use crate::fault11::{SequenceFault, read_fault11};
use rm_base::{Binding, Memory, Payload};
use rm_message::elements::{CONNECTION, ElementError, MESSAGING, read_lifecycle};
use rm_message::{Body, FaultBody, actions};
use soap_document::profile::{Element, Item, Parts};
use soap_envelope::is_soap11;
use soap_writer::values::{Flaw, is_named};
use std::alloc::Global;

// A name: a namespace and a local part.
type Named = (&'static [u8], &'static [u8]);

// The element that a message with this action has in its Body.
fn element_for(action: &[u8]) -> Option<Named>
    ensures { option_map (λ name. name_in name.0.now name.1.now) result ≡ element_by action.now }
{
    if action == actions::CREATE_SEQUENCE {
        return Some((MESSAGING, b"CreateSequence"));
    }
    if action == actions::CREATE_SEQUENCE_RESPONSE {
        return Some((MESSAGING, b"CreateSequenceResponse"));
    }
    if action == actions::CLOSE_SEQUENCE {
        return Some((MESSAGING, b"CloseSequence"));
    }
    if action == actions::CLOSE_SEQUENCE_RESPONSE {
        return Some((MESSAGING, b"CloseSequenceResponse"));
    }
    if action == actions::TERMINATE_SEQUENCE {
        return Some((MESSAGING, b"TerminateSequence"));
    }
    if action == actions::TERMINATE_SEQUENCE_RESPONSE {
        return Some((MESSAGING, b"TerminateSequenceResponse"));
    }
    if action == actions::MAKE_CONNECTION {
        return Some((CONNECTION, b"MakeConnection"));
    }
    None
}

// Whether the Body of a message with this action says nothing.
fn is_bare(action: &[u8]) -> bool
    ensures { result ≡ is_bare_action action.now }
{
    action == actions::SEQUENCE_ACKNOWLEDGEMENT
        || action == actions::ACK_REQUESTED
        || action == actions::FAULT
}

fn is_protocol(action: &[u8]) -> bool
    ensures { result ≡ is_protocol_action action.now }
{
    element_for(action).is_some() || is_bare(action)
}

/// The parts of a Body, as items.
#[tactic(auto, using(crate::proofs::MessageLemmas::parts_again))]
pub(crate) fn items_of(parts: &Parts) -> &[Item]
    ensures { parts_view result.now ≡ parts.now }
{
    parts.as_slice()
}

// The first element in the Body.
#[tactic(auto, using(soap_writer::specs::Values::ChildLaws::children_of_more))]
fn first_child(items: &[Item]) -> Option<&Element>
    ensures { option_map (λ e. element_view e.now) result ≡ first_of (children_of (parts_view items.now)) }
{
    for item in items {
        if let Item::Child(child) = item {
            return Some(child);
        }
    }
    None
}

// The one element in the Body.
#[tactic(auto, using(soap_writer::specs::Values::ChildLaws::children_of_more))]
fn only_child(items: &[Item]) -> Result<&Element, Flaw>
    ensures { Gives (λ e. element_view e.now) result (single (children_of (parts_view items.now))) }
{
    let mut found = None;
    for item in items {
        if let Item::Child(child) = item {
            if found.is_some() {
                return Err(Flaw::Malformed);
            }
            found = Some(child);
        }
    }
    match found {
        Some(child) => Ok(child),
        None => Err(Flaw::Malformed),
    }
}

fn where_fault<'a>(first: Option<&'a Element>, soap: &[u8]) -> Option<&'a Element>
    ensures { option_map (λ e. element_view e.now) result
        ≡ if_fault soap.now (option_map (λ e. element_view e.now) first.entry) }
{
    match first {
        Some(first) if is_named(&first.name, soap, b"Fault") => Some(first),
        _ => None,
    }
}

/// The Fault of a message: the first element in its Body, unless it has a number in a sequence.
pub(crate) fn find_fault<'a>(items: &'a [Item], soap: &[u8], numbered: bool) -> Option<&'a Element>
    ensures { option_map (λ e. element_view e.now) result ≡ fault_at soap.now numbered (parts_view items.now) }
{
    if numbered {
        return None;
    }
    where_fault(first_child(items), soap)
}

fn read_element_of(alloc: Global, element: &Element) -> Result<Body, Flaw>
    ensures { Gives (λ body. body) result (lifecycle_from (lifecycle_of (element_view element.now))) }
{
    match read_lifecycle(alloc, element) {
        Ok(Some(lifecycle)) => Ok(Body::Lifecycle(lifecycle)),
        Ok(None) => Err(Flaw::Malformed),
        Err(ElementError::Memory) => Err(Flaw::Memory),
        Err(_) => Err(Flaw::Malformed),
    }
}

#[tactic(auto, unfolding(crate::specs::Bodies::lifecycle_in))]
fn read_element_named(
    alloc: Global,
    space: &[u8],
    local: &[u8],
    items: &[Item],
) -> Result<Body, Flaw>
    ensures { Gives (λ body. body) result (lifecycle_in (name_in space.now local.now) (parts_view items.now)) }
{
    let element = only_child(items)?;
    if !is_named(&element.name, space, local) {
        return Err(Flaw::Malformed);
    }
    read_element_of(alloc, element)
}

fn read_body_for(
    alloc: Global,
    name: Option<Named>,
    bare: bool,
    payload: Payload,
    items: &[Item],
) -> Result<Body, Flaw>
    ensures { Gives (λ body. body) result (body_for (option_map (λ name. name_in name.0.now name.1.now) name.entry)
        bare payload (parts_view items.now)) }
{
    if let Some((space, local)) = name {
        return read_element_named(alloc, space, local, items);
    }
    if bare {
        return Ok(Body::Empty);
    }
    Ok(Body::Payload(payload))
}

fn numbered_body(protocol: bool, payload: Payload) -> Result<Body, Flaw>
    ensures { Gives (λ body. body) result (body_numbered protocol payload) }
{
    if protocol {
        return Err(Flaw::Malformed);
    }
    Ok(Body::Payload(payload))
}

// What a Fault of the version says.
fn read_fault_of(
    alloc: Global,
    soap: &[u8],
    told: Option<SequenceFault>,
    scope: &[Binding],
    fault: &Element,
) -> Result<FaultBody, Memory>
    ensures { IfOk result (λ body. body ≡ fault_of soap.now told scope.now (element_view fault.now)) }
{
    if is_soap11(soap) {
        return read_fault11(alloc, soap, told, scope, fault);
    }
    read_fault(alloc, soap, scope, fault)
}

fn unnumbered_body(
    alloc: Global,
    soap: &[u8],
    told: Option<SequenceFault>,
    action: &[u8],
    fault: Option<&Element>,
    payload: Payload,
    items: &[Item],
) -> Result<Body, Flaw>
    ensures { Gives (λ body. body) result (body_unnumbered soap.now told action.now
        (option_map (λ e. element_view e.now) fault.entry) payload (parts_view items.now)) }
{
    if let Some(fault) = fault {
        let body = read_fault_of(alloc, soap, told, payload.scope.as_slice(), fault)?;
        return Ok(Body::Fault(body));
    }
    read_body_for(alloc, element_for(action), is_bare(action), payload, items)
}

/// The body of a message with this action, and with a number in a sequence or without.
pub(crate) fn read_body(
    alloc: Global,
    soap: &[u8],
    told: Option<SequenceFault>,
    action: &[u8],
    numbered: bool,
    payload: Payload,
    items: &[Item],
) -> Result<Body, Flaw>
    ensures { Gives (λ body. body) result (body_in soap.now told action.now numbered payload (parts_view items.now)) }
{
    if numbered {
        return numbered_body(is_protocol(action), payload);
    }
    let fault = find_fault(items, soap, numbered);
    unnumbered_body(alloc, soap, told, action, fault, payload, items)
}
