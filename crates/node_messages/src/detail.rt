//! The sequence that a fault's Detail names: WS-ReliableMessaging 1.2, section 4.
ghost use Rattle.std.specs.Prelude.{◌≡◌, IfOk};
ghost use Rattle.rm_protocol.specs.Detail.{ident_of as ident_in};
ghost use Rattle.soap_document.specs.Profile.View.{element_view};
ghost use Rattle.node_messages.specs.Details.{is_identifier as is_identifier_in};

use rm_base::{Blob, Memory};
use rm_message::elements::MESSAGING;
use soap_document::profile::Element;
use soap_writer::values::{Flaw, read_trimmed};
use std::alloc::Global;

fn is_identifier(element: &Element) -> bool
    ensures { result ≡ is_identifier_in (element_view element.now) }
{
    element.name.space() == MESSAGING && element.name.local() == b"Identifier".as_slice()
}

/// The text of an Identifier, without white space at its ends. It may be no identifier. There is none of another
/// element.
pub fn ident_of(alloc: Global, element: &Element) -> Result<Option<Blob>, Memory>
    ensures { IfOk result (λ text. text ≡ ident_in (element_view element.now)) }
{
    if !is_identifier(element) {
        return Ok(None);
    }
    match read_trimmed(alloc, element) {
        Ok(text) => Ok(Some(Blob::from_vec(text))),
        Err(Flaw::Malformed) => Ok(None),
        Err(Flaw::Memory) => Err(Memory),
    }
}
