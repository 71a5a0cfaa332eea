//! Header blocks and body elements from trees.
ghost use Rattle.std.specs.Prelude.{◌≡◌, Option, option_map, Some};
ghost use Rattle.soap_document.specs.Profile.View.{element_view, attrs_view, parts_view};
ghost use Rattle.soap_writer.specs.Values.Outcome.{Gives};
ghost use Rattle.rm_message.specs.Elements.Outcome.{Answers, named};
ghost use Rattle.rm_message.specs.Elements.Headers.{header_name as header_name_of, header_as, header_of, sequence_in};
ghost use Rattle.rm_message.specs.Elements.Headers.{identifier, ack_in, pending_in};
ghost use Rattle.rm_message.specs.Elements.Lifecycle.{body_name as body_name_of, body_as, lifecycle_of, create_in};
ghost use Rattle.rm_message.specs.Elements.Lifecycle.{response_in, finish_in, make_in};

use crate::elements::error::ElementError;
use crate::elements::header::{
    Header, MESSAGING, read_ack, read_identifier, read_numbered, read_pending,
};
use crate::elements::lifecycle::{
    CONNECTION, Lifecycle, read_create, read_finish, read_make, read_response,
};
use rm_base::{Blob, MAX_NUMBER};
use soap_document::profile::{Element, Item, Name};
use soap_writer::values::{Flaw, is_named};
use std::alloc::Global;

/// The header blocks of WS-ReliableMessaging and WS-MakeConnection, by name.
#[derive(Clone, Copy, Debug, PartialEq, Eq)]
pub enum HeaderName {
    SequenceName,
    AckName,
    AskName,
    PendingName,
}

/// The body elements of both, by name.
#[derive(Clone, Copy, Debug, PartialEq, Eq)]
pub enum BodyName {
    CreateName,
    CreateResponseName,
    CloseName,
    CloseResponseName,
    TerminateName,
    TerminateResponseName,
    MakeName,
}

/// Which header block a name is of.
pub fn header_name(name: &Name) -> Option<HeaderName>
    ensures { result ≡ header_name_of name.now }
{
    if is_named(name, MESSAGING, b"Sequence") {
        return Some(HeaderName::SequenceName);
    }
    if is_named(name, MESSAGING, b"SequenceAcknowledgement") {
        return Some(HeaderName::AckName);
    }
    if is_named(name, MESSAGING, b"AckRequested") {
        return Some(HeaderName::AskName);
    }
    if is_named(name, CONNECTION, b"MessagePending") {
        return Some(HeaderName::PendingName);
    }
    None
}

/// Which body element a name is of.
pub fn body_name(name: &Name) -> Option<BodyName>
    ensures { result ≡ body_name_of name.now }
{
    if is_named(name, MESSAGING, b"CreateSequence") {
        return Some(BodyName::CreateName);
    }
    if is_named(name, MESSAGING, b"CreateSequenceResponse") {
        return Some(BodyName::CreateResponseName);
    }
    if is_named(name, MESSAGING, b"CloseSequence") {
        return Some(BodyName::CloseName);
    }
    if is_named(name, MESSAGING, b"CloseSequenceResponse") {
        return Some(BodyName::CloseResponseName);
    }
    if is_named(name, MESSAGING, b"TerminateSequence") {
        return Some(BodyName::TerminateName);
    }
    if is_named(name, MESSAGING, b"TerminateSequenceResponse") {
        return Some(BodyName::TerminateResponseName);
    }
    if is_named(name, CONNECTION, b"MakeConnection") {
        return Some(BodyName::MakeName);
    }
    None
}

// What was read, or that the element of this name is malformed.
fn or_malformed<T>(
    alloc: Global,
    local: &[u8],
    read: Result<T, Flaw>,
) -> Result<Option<T>, ElementError>
    ensures { (pure : Option T) → Gives (λ x. x) read pure → Answers result (named local.now pure) }
{
    match read {
        Ok(value) => Ok(Some(value)),
        Err(Flaw::Memory) => Err(ElementError::Memory),
        Err(Flaw::Malformed) => Err(ElementError::Malformed {
            name: Blob::from_slice(alloc, local)?,
        }),
    }
}

fn sequence_header(alloc: Global, items: &[Item]) -> Result<Option<Header>, ElementError>
    ensures { Answers result (sequence_in (parts_view items.now)) }
{
    match read_numbered(alloc, items) {
        Ok(sequence) => {
            if sequence.number > MAX_NUMBER {
                return Err(ElementError::Rollover {
                    ident: sequence.ident,
                });
            }
            Ok(Some(Header::Sequence(sequence)))
        }
        Err(Flaw::Memory) => Err(ElementError::Memory),
        Err(Flaw::Malformed) => Err(ElementError::Malformed {
            name: Blob::from_slice(alloc, b"Sequence")?,
        }),
    }
}

fn ack_header(alloc: Global, items: &[Item]) -> Result<Header, Flaw>
    ensures { Gives (λ h. h) result (option_map Header.Ack (ack_in (parts_view items.now))) }
{
    Ok(Header::Ack(read_ack(alloc, items)?))
}

fn ask_header(alloc: Global, items: &[Item]) -> Result<Header, Flaw>
    ensures { Gives (λ h. h) result (option_map Header.Ask (identifier (parts_view items.now))) }
{
    Ok(Header::Ask(read_identifier(alloc, items)?))
}

fn pending_header(items: &[Item]) -> Result<Header, Flaw>
    ensures { Gives (λ h. h) result (option_map Header.Pending (pending_in (attrs_view items.now))) }
{
    Ok(Header::Pending(read_pending(items)?))
}

fn header_from(
    alloc: Global,
    name: HeaderName,
    items: &[Item],
) -> Result<Option<Header>, ElementError>
    ensures { Answers result (header_as (Some name) (attrs_view items.now) (parts_view items.now)) }
{
    match name {
        HeaderName::SequenceName => sequence_header(alloc, items),
        HeaderName::AckName => or_malformed(
            alloc,
            b"SequenceAcknowledgement",
            ack_header(alloc, items),
        ),
        HeaderName::AskName => or_malformed(alloc, b"AckRequested", ask_header(alloc, items)),
        HeaderName::PendingName => or_malformed(alloc, b"MessagePending", pending_header(items)),
    }
}

/// The header block that an element is, and None where its name is of no other. Its children may stand in any order,
/// and all others are passed over.
/// - Malformed: exactly where the name is one of these and the content is refused, with the name.
/// - Rollover: exactly where all else is well formed and the number is above 9223372036854775807, with the identifier.
pub fn read_header(alloc: Global, element: &Element) -> Result<Option<Header>, ElementError>
    ensures { Answers result (header_of (element_view element.now)) }
{
    match header_name(&element.name) {
        Some(name) => header_from(alloc, name, element.items.as_slice()),
        None => Ok(None),
    }
}

fn create_body(alloc: Global, items: &[Item]) -> Result<Lifecycle, Flaw>
    ensures { Gives (λ l. l) result (option_map Lifecycle.Create (create_in (parts_view items.now))) }
{
    Ok(Lifecycle::Create(read_create(alloc, items)?))
}

fn response_body(alloc: Global, items: &[Item]) -> Result<Lifecycle, Flaw>
    ensures { Gives (λ l. l) result (option_map Lifecycle.CreateResponse (response_in (parts_view items.now))) }
{
    Ok(Lifecycle::CreateResponse(read_response(alloc, items)?))
}

fn close_body(alloc: Global, items: &[Item]) -> Result<Lifecycle, Flaw>
    ensures { Gives (λ l. l) result (option_map Lifecycle.Close (finish_in (parts_view items.now))) }
{
    Ok(Lifecycle::Close(read_finish(alloc, items)?))
}

fn close_response_body(alloc: Global, items: &[Item]) -> Result<Lifecycle, Flaw>
    ensures { Gives (λ l. l) result (option_map Lifecycle.CloseResponse (identifier (parts_view items.now))) }
{
    Ok(Lifecycle::CloseResponse(read_identifier(alloc, items)?))
}

fn terminate_body(alloc: Global, items: &[Item]) -> Result<Lifecycle, Flaw>
    ensures { Gives (λ l. l) result (option_map Lifecycle.Terminate (finish_in (parts_view items.now))) }
{
    Ok(Lifecycle::Terminate(read_finish(alloc, items)?))
}

fn terminate_response_body(alloc: Global, items: &[Item]) -> Result<Lifecycle, Flaw>
    ensures { Gives (λ l. l) result (option_map Lifecycle.TerminateResponse (identifier (parts_view items.now))) }
{
    Ok(Lifecycle::TerminateResponse(read_identifier(alloc, items)?))
}

fn make_body(alloc: Global, items: &[Item]) -> Result<Lifecycle, Flaw>
    ensures { Gives (λ l. l) result (option_map Lifecycle.Make (make_in (parts_view items.now))) }
{
    Ok(Lifecycle::Make(read_make(alloc, items)?))
}

fn body_from(
    alloc: Global,
    name: BodyName,
    items: &[Item],
) -> Result<Option<Lifecycle>, ElementError>
    ensures { Answers result (body_as (Some name) (parts_view items.now)) }
{
    match name {
        BodyName::CreateName => or_malformed(alloc, b"CreateSequence", create_body(alloc, items)),
        BodyName::CreateResponseName => {
            or_malformed(
                alloc,
                b"CreateSequenceResponse",
                response_body(alloc, items),
            )
        }
        BodyName::CloseName => or_malformed(alloc, b"CloseSequence", close_body(alloc, items)),
        BodyName::CloseResponseName => {
            or_malformed(
                alloc,
                b"CloseSequenceResponse",
                close_response_body(alloc, items),
            )
        }
        BodyName::TerminateName => or_malformed(
            alloc,
            b"TerminateSequence",
            terminate_body(alloc, items),
        ),
        BodyName::TerminateResponseName => {
            or_malformed(
                alloc,
                b"TerminateSequenceResponse",
                terminate_response_body(alloc, items),
            )
        }
        BodyName::MakeName => or_malformed(alloc, b"MakeConnection", make_body(alloc, items)),
    }
}

/// The body element that an element is, and None where its name is of no other. Its children may stand in any order,
/// and all others are passed over.
/// - Malformed: exactly where the name is one of these and the content is refused, with the name.
pub fn read_lifecycle(alloc: Global, element: &Element) -> Result<Option<Lifecycle>, ElementError>
    ensures { Answers result (lifecycle_of (element_view element.now)) }
{
    match body_name(&element.name) {
        Some(name) => body_from(alloc, name, element.items.as_slice()),
        None => Ok(None),
    }
}
