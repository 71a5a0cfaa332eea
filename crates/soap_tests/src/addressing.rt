//! Tests of `wsa_headers`. What a test does stands in a helper that answers a plain value, since a test with many steps
//! is slow to prove.
use rm_base::{Blob, Memory};
use soap_document::profile::{Element, Elements, EnvelopeError, Item, read_element};
use std::alloc::Global;
use wsa_headers::{
    Addressing, AddressingError, Epr, read_addressing, read_epr, write_addressing, write_epr,
};

fn children(alloc: Global, element: Element) -> Result<Elements, Memory> {
    let mut children = Elements::new(alloc);
    for item in element.items {
        if let Item::Child(child) = item {
            children.push(child)?;
        }
    }
    Ok(children)
}

// The children of an element with the prefixes of a frame.
fn blocks(alloc: Global, inner: &[u8]) -> Result<Elements, EnvelopeError> {
    let mut text = Blob::from_slice(alloc, b"<h xmlns:a='http://www.w3.org/2005/08/addressing'>")?;
    text.push_all(inner)?;
    text.push_all(b"</h>")?;
    let tree = read_element(alloc, text.as_slice())?;
    Ok(children(alloc, tree)?)
}

const PROPERTIES: &[u8] =
    b"<a:To>http://b/</a:To><a:Action>urn:x</a:Action><a:MessageID>urn:m</a:MessageID>\
    <a:RelatesTo>urn:r</a:RelatesTo><a:ReplyTo><a:Address>http://c/</a:Address>\
    <a:ReferenceParameters><n:k xmlns:n=\"urn:n\">1</n:k></a:ReferenceParameters></a:ReplyTo>\
    <a:FaultTo><a:Address>http://d/</a:Address></a:FaultTo>\
    <n:To xmlns:n=\"urn:n\" a:IsReferenceParameter=\"true\">2</n:To>";

// How properties are written.
fn written(alloc: Global, properties: &Addressing) -> Result<Blob, Memory> {
    let mut out = Blob::new(alloc);
    write_addressing(alloc, properties, &mut out)?;
    Ok(out)
}

// How the properties of these headers are.
fn rewritten(alloc: Global, headers: &Elements) -> Option<Blob> {
    match read_addressing(alloc, headers) {
        Ok(properties) => written(alloc, &properties).ok(),
        Err(_) => None,
    }
}

// Whether it has the To and the one parameter of these headers.
fn has_properties(alloc: Global, headers: &Elements) -> Result<bool, AddressingError> {
    let properties = read_addressing(alloc, headers)?;
    let is_to = properties.to.as_slice() == b"http://b/".as_slice();
    Ok(is_to & (properties.params.len() == 1))
}

// Whether these headers are written as they came.
fn are_kept(alloc: Global, headers: &Elements) -> bool {
    match rewritten(alloc, headers) {
        Some(out) => out.as_slice() == PROPERTIES,
        None => false,
    }
}

#[test]
fn properties_are_read_and_written(rt: HostRuntime) -> Result<(), EnvelopeError> {
    let headers = blocks(rt.alloc(), PROPERTIES)?;
    assert!(rt; matches!(has_properties(rt.alloc(), &headers), Ok(true)));
    assert!(rt; are_kept(rt.alloc(), &headers));
    Ok(())
}

const IN_ANY_ORDER: &[u8] = b"<x/><a:RelatesTo RelationshipType='urn:other'>urn:o</a:RelatesTo>\
    <a:To a:IsReferenceParameter=' 1 '>no address</a:To><a:Action> urn:x </a:Action>\
    <a:RelatesTo RelationshipType='http://www.w3.org/2005/08/addressing/reply'>urn:r</a:RelatesTo>\
    <a:From><a:Address/></a:From>";

const ANONYMOUS: &[u8] = b"http://www.w3.org/2005/08/addressing/anonymous";

// Whether the headers in any order are read so.
fn are_read(alloc: Global, headers: &Elements) -> Result<bool, AddressingError> {
    let properties = read_addressing(alloc, headers)?;
    let is_to = properties.to.as_slice() == ANONYMOUS;
    let is_action = properties.action.as_slice() == b"urn:x".as_slice();
    let is_reply = match &properties.relates {
        Some(relates) => relates.as_slice() == b"urn:r".as_slice(),
        None => false,
    };
    Ok(is_to & is_action & is_reply)
}

#[test]
fn headers_in_any_order(rt: HostRuntime) -> Result<(), EnvelopeError> {
    let headers = blocks(rt.alloc(), IN_ANY_ORDER)?;
    assert!(rt; matches!(are_read(rt.alloc(), &headers), Ok(true)));
    Ok(())
}

// The kind of a refusal by its number, and the name of the header that is refused.
fn kind_of(error: AddressingError) -> Option<(u8, Blob)> {
    match error {
        AddressingError::Cardinality { name } => Some((1, name)),
        AddressingError::HeaderMissing { name } => Some((2, name)),
        AddressingError::BadHeader { name } => Some((3, name)),
        AddressingError::Memory => None,
    }
}

// That of these headers.
fn refusal(alloc: Global, headers: &Elements) -> Option<(u8, Blob)> {
    match read_addressing(alloc, headers) {
        Ok(_) => None,
        Err(error) => kind_of(error),
    }
}

// The blocks of a header, the kind of their refusal and the name of the header that is refused.
type Refused = (&'static str, u8, &'static str);

fn is_refused(alloc: Global, row: &Refused) -> Result<bool, EnvelopeError> {
    let headers = blocks(alloc, row.0.as_bytes())?;
    match refusal(alloc, &headers) {
        Some((kind, name)) => Ok((kind == row.1) & (name.as_slice() == row.2.as_bytes())),
        None => Ok(false),
    }
}

const REFUSALS: [Refused; 6] = [
    ("<a:FaultTo/><a:FaultTo/><a:To/><a:To/>", 1, "To"),
    ("<a:MessageID/><a:MessageID/>", 1, "MessageID"),
    ("<a:To/>", 2, "Action"),
    (
        "<a:RelatesTo/><a:To/><a:Action>urn:x</a:Action>",
        3,
        "RelatesTo",
    ),
    (
        "<a:Action>urn:x</a:Action><a:FaultTo/><a:ReplyTo/>",
        3,
        "FaultTo",
    ),
    ("<a:Action>urn:<b/>x</a:Action>", 3, "Action"),
];

#[test]
fn refusals_in_order(rt: HostRuntime) -> Result<(), EnvelopeError> {
    for row in &REFUSALS {
        assert!(rt; is_refused(rt.alloc(), row)?, "{}", row.0);
    }
    Ok(())
}

const REFERENCE: &[u8] =
    b"<e xmlns:a='http://www.w3.org/2005/08/addressing'><a:Metadata/><a:ReferenceParameters><k \
    a:IsReferenceParameter='true' z='1'/></a:ReferenceParameters><a:Address> http://c/ </a:Address>\
    <a:ReferenceParameters><l/></a:ReferenceParameters></e>";

const REFERENCE_WRITTEN: &[u8] = b"<a:Address>http://c/</a:Address>\
    <a:ReferenceParameters><k z=\"1\"></k><l></l></a:ReferenceParameters>";

// How a reference is written.
fn written_reference(alloc: Global, reference: Epr) -> Result<Blob, Memory> {
    let mut out = Blob::new(alloc);
    write_epr(alloc, &reference, &mut out)?;
    Ok(out)
}

// Whether an element is a reference with two parameters that is written so.
fn is_reference(alloc: Global, tree: &Element, written: &[u8]) -> Result<bool, AddressingError> {
    let reference = read_epr(alloc, tree)?;
    let count = reference.params.len();
    let out = written_reference(alloc, reference)?;
    Ok((count == 2) & (out.as_slice() == written))
}

#[test]
fn references(rt: HostRuntime) -> Result<(), EnvelopeError> {
    let tree = read_element(rt.alloc(), REFERENCE)?;
    assert!(rt; matches!(is_reference(rt.alloc(), &tree, REFERENCE_WRITTEN), Ok(true)));
    Ok(())
}

// A reference of which one parameter has a text of so many bytes.
fn with_text(alloc: Global, len: usize) -> Result<Blob, Memory> {
    let mut text = Blob::from_slice(
        alloc,
        b"<e xmlns:a='http://www.w3.org/2005/08/addressing'><a:Address>u</a:Address>\
        <a:ReferenceParameters><k>",
    )?;
    for _ in 0..len {
        text.push_all(b"x")?;
    }
    text.push_all(b"</k></a:ReferenceParameters></e>")?;
    Ok(text)
}

// Whether one parameter with a text of so many bytes is taken.
fn takes_text(alloc: Global, len: usize) -> Result<bool, EnvelopeError> {
    let text = with_text(alloc, len)?;
    let tree = read_element(alloc, text.as_slice())?;
    Ok(read_epr(alloc, &tree).is_ok())
}

#[test]
fn parameters_keep_their_limit(rt: HostRuntime) -> Result<(), EnvelopeError> {
    assert!(rt; takes_text(rt.alloc(), 65529)?);
    assert!(rt; !takes_text(rt.alloc(), 65530)?);
    Ok(())
}
