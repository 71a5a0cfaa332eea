//! The reader of envelopes.
ghost use Rattle.std.specs.Prelude.{◌≡◌, ◌≤◌, ◌↔◌, ◌++◌, ℕ, length, option_map, slice_range, IfOk, Err};
ghost use Rattle.soap_document.specs.Profile.Document.{IsPlaced, IsReadable, IsTooLong, IsTextUpTo, HasNoTree};
ghost use Rattle.soap_envelope.specs.Soap.{soap_space, is_soap11 as is_first};
ghost use Rattle.soap_document.specs.Profile.Tree.{decls_of, parts_of};
ghost use Rattle.soap_document.specs.Profile.View.{element_view};
ghost use Rattle.soap_envelope.specs.Envelope.{IsEnvelope, IsHeader};
ghost use Rattle.soap_envelope.specs.Refusals.{WrongVersion, NotEnvelope};
ghost use Rattle.soap_envelope.specs.Scope.{IsScope};
ghost use Rattle.soap_envelope.specs.Steps.{Answers};
ghost use Rattle.soap_envelope.specs.View.{envelope_view};

use crate::envelope::Envelope;
use crate::outline::{TakenApart, children, outline, parts, taken_apart};
use crate::scope::in_force;
use rm_base::{Binding, Bindings, Blob, Items, Memory, Payload};
use soap_document::laws::content_stands_between;
use soap_document::profile::{Element, Elements, EnvelopeError, Parts, Place, Placed, read_placed};
use std::alloc::Global;

/// The namespace of envelopes: SOAP 1.2 Part 1, section 5.1.
pub const SOAP_SPACE: &[u8] = b"http://www.w3.org/2003/05/soap-envelope";

/// The namespace of envelopes of SOAP 1.1, section 4.1.2.
pub const SOAP11_SPACE: &[u8] = b"http://schemas.xmlsoap.org/soap/envelope/";

/// Whether this namespace is that of SOAP 1.1.
#[tactic(auto, unfolding(crate::specs::Soap::is_soap11))]
pub fn is_soap11(soap: &[u8]) -> bool
    ensures { result ≡ is_first soap.now }
{
    soap == SOAP11_SPACE
}

/// The envelope that the bytes are, where SOAP has this namespace.
/// - `ok`, `fits`: the bytes, at most 2097152 and UTF-8, are the envelope. It has the header blocks in order, the
///   bindings in force between Header's tags, the exact bytes between Body's tags, the bindings in force there, and the
///   parts that these bytes are, without Body's declarations and attributes. Scopes are sorted by prefix, without `xml`
///   and without a default namespace that is undeclared.
/// - TooLong, NotUtf8: exactly where the bytes are more than 2097152, with how many; where they aren't and are no
///   UTF-8, with the length of the longest front that is (`too_long`, `not_utf8`).
/// - NotProfile: exactly where neither holds and the bytes are no document (`not_profile`, `ok`, `fits`).
/// - WrongVersion: exactly where the bytes are a document whose root is called Envelope in another namespace
///   (`wrong_version`, `ok`).
/// - NotEnvelope: exactly where they are one with another root, or with an Envelope that is not an optional Header and
///   then one Body with white space between (`not_envelope`, `ok`).
pub fn read_envelope_in(alloc: Global, bytes: &[u8], soap: &[u8]) -> Result<Envelope, EnvelopeError>
    // What is read.
    ensures ok { IfOk result (λ envelope. IsEnvelope soap.now bytes.now (envelope_view envelope)) }
    ensures fits { IfOk result (λ _. IsReadable bytes.now) }

    // When each error comes, the first of them where several may.
    ensures too_long { (len : ℕ) → (result ≡ Err (EnvelopeError.TooLong len)) ↔ IsTooLong bytes.now len }
    ensures not_utf8 { (place : ℕ) → (result ≡ Err (EnvelopeError.NotUtf8 place)) ↔ IsTextUpTo bytes.now place }
    ensures not_profile { result ≡ Err EnvelopeError.NotProfile → HasNoTree bytes.now }
    ensures wrong_version { result ≡ Err EnvelopeError.WrongVersion
        → IsReadable bytes.now × WrongVersion soap.now bytes.now }
    ensures not_envelope { result ≡ Err EnvelopeError.NotEnvelope
        → IsReadable bytes.now × NotEnvelope soap.now bytes.now }
{
    match read_placed(alloc, bytes) {
        Ok(Placed { root, last }) => envelope_in(alloc, bytes, soap, root, last),
        Err(error) => Err(error),
    }
}

/// The envelope of SOAP 1.2 that the bytes are.
pub fn read_envelope(alloc: Global, bytes: &[u8]) -> Result<Envelope, EnvelopeError>
    // What is read.
    ensures ok { IfOk result (λ envelope. IsEnvelope soap_space bytes.now (envelope_view envelope)) }
    ensures fits { IfOk result (λ _. IsReadable bytes.now) }

    // When each error comes, the first of them where several may.
    ensures too_long { (len : ℕ) → (result ≡ Err (EnvelopeError.TooLong len)) ↔ IsTooLong bytes.now len }
    ensures not_utf8 { (place : ℕ) → (result ≡ Err (EnvelopeError.NotUtf8 place)) ↔ IsTextUpTo bytes.now place }
    ensures not_profile { result ≡ Err EnvelopeError.NotProfile → HasNoTree bytes.now }
    ensures wrong_version { result ≡ Err EnvelopeError.WrongVersion
        → IsReadable bytes.now × WrongVersion soap_space bytes.now }
    ensures not_envelope { result ≡ Err EnvelopeError.NotEnvelope
        → IsReadable bytes.now × NotEnvelope soap_space bytes.now }
{
    read_envelope_in(alloc, bytes, SOAP_SPACE)
}

/// The envelope of SOAP 1.2 that the document with this tree is, or why it is none: what `read_envelope` does behind
/// the reading of the document. Of the bytes only the payload is looked at. WrongVersion and NotEnvelope come exactly
/// as `read_envelope_in` answers them, and no other answer but Memory.
pub fn envelope_of(
    alloc: Global,
    bytes: &[u8],
    root: Element,
    last: Option<Place>,
) -> Result<Envelope, EnvelopeError>
    requires { IsPlaced bytes.now (element_view root) last }
    ensures { Answers soap_space bytes.now result }
{
    envelope_in(alloc, bytes, SOAP_SPACE, root, last)
}

// The envelope that a document is, or why it is none, where SOAP has this namespace.
fn envelope_in(
    alloc: Global,
    bytes: &[u8],
    soap: &[u8],
    root: Element,
    last: Option<Place>,
) -> Result<Envelope, EnvelopeError>
    requires { IsPlaced bytes.now (element_view root) last }
    ensures { Answers soap.now bytes.now result }
{
    content_stands_between();
    let TakenApart { name, decls, items } = taken_apart(alloc, root)?;
    if name.local() != b"Envelope".as_slice() {
        return Err(EnvelopeError::NotEnvelope);
    }
    if name.space() != soap {
        return Err(EnvelopeError::WrongVersion);
    }
    let Some((header, body)) = outline(items, soap) else {
        return Err(EnvelopeError::NotEnvelope);
    };
    let Some(place) = last else { unreachable!() };
    let (headers, header_scope) = blocks(alloc, header, decls.as_slice())?;
    let (payload, body) = content(alloc, bytes, place, body, decls.as_slice())?;
    Ok(Envelope {
        headers,
        header_scope,
        payload,
        body,
    })
}

// The header blocks, and the bindings in force between Header's tags.
fn blocks(
    alloc: Global,
    header: Option<Element>,
    outer: &[Binding],
) -> Result<(Elements, Bindings), Memory>
    ensures { IfOk result (λ found. IsHeader outer.now (option_map element_view header) found.0 found.1) }
{
    let Some(header) = header else {
        return Ok((Elements::new(alloc), Items::new(alloc)));
    };
    let TakenApart {
        name: _,
        decls,
        items,
    } = taken_apart(alloc, header)?;
    let scope = in_force(alloc, decls.as_slice(), outer)?;
    Ok((children(alloc, items)?, scope))
}

// The bytes between Body's tags with the bindings in force there, and what they are.
fn content(
    alloc: Global,
    bytes: &[u8],
    place: Place,
    body: Element,
    outer: &[Binding],
) -> Result<(Payload, Parts), Memory>
    requires low { place.start ≤ place.end }
    requires high { place.end ≤ length bytes.now }
    ensures bytes { IfOk result (λ found. found.0.bytes ≡ slice_range bytes.now place.start place.end) }
    ensures scope { IfOk result (λ found. IsScope (decls_of (element_view body) ++ outer.now) found.0.scope) }
    ensures content { IfOk result (λ found. found.1 ≡ parts_of (element_view body)) }
{
    let TakenApart {
        name: _,
        decls,
        items,
    } = taken_apart(alloc, body)?;
    let scope = in_force(alloc, decls.as_slice(), outer)?;
    let bytes = Blob::from_slice(alloc, &bytes[place.start..place.end])?;
    Ok((Payload { bytes, scope }, parts(alloc, items)?))
}
