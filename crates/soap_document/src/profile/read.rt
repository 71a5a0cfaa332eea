//! Whole documents, read.
ghost use Rattle.std.specs.Prelude.{◌≡◌, ◌≢◌, ◌↔◌, ℕ, IfOk, IfSome, IfNone, Err};
ghost use Rattle.std.specs.Str.{IsUtf8};
ghost use Rattle.soap_document.specs.Profile.Document.{Document, IsPlaced, IsReadable, IsTooLong, IsTextUpTo};
ghost use Rattle.soap_document.specs.Profile.Document.{HasNoTree};
ghost use Rattle.soap_document.specs.Profile.Tree.{Element as Tree};
ghost use Rattle.soap_document.specs.Profile.View.{element_view};

use crate::profile::document::DocumentReader;
use crate::profile::error::EnvelopeError;
use crate::profile::place::Place;
use crate::profile::tree::Element;
use rm_base::Memory;
use rm_base::limits::ENVELOPE_BYTES;
use soap_lex::utf8_prefix;
use std::alloc::Global;

/// A document's tree, and where in the document the content stands of the last element within the root.
#[derive(Debug, Drop)]
pub struct Placed {
    pub root: Element,
    /// None where the root has no element within.
    pub last: Option<Place>,
}

/// The tree of a whole document. It answers none of the errors that speak of envelopes.
/// - `ok`: the tree of the bytes, each name resolved as Namespaces in XML 1.0 says.
/// - TooLong, NotUtf8: exactly where the bytes are more than 2097152, with how many; where they aren't and are no
///   UTF-8, with the length of the longest front that is (`too_long`, `not_utf8`).
/// - NotProfile: exactly where neither holds and the bytes are no document (`not_profile`, `ok`, `fits`).
pub fn read_element(alloc: Global, bytes: &[u8]) -> Result<Element, EnvelopeError>
    // What is read.
    ensures ok { IfOk result (λ tree. Document bytes.now (element_view tree)) }
    ensures fits { IfOk result (λ _. IsReadable bytes.now) }

    // When each error comes, the first of them where several may.
    ensures too_long { (len : ℕ) → (result ≡ Err (EnvelopeError.TooLong len)) ↔ IsTooLong bytes.now len }
    ensures not_utf8 { (place : ℕ) → (result ≡ Err (EnvelopeError.NotUtf8 place)) ↔ IsTextUpTo bytes.now place }
    ensures not_profile { result ≡ Err EnvelopeError.NotProfile → HasNoTree bytes.now }
    ensures no_version { result ≢ Err EnvelopeError.WrongVersion }
    ensures no_envelope { result ≢ Err EnvelopeError.NotEnvelope }
{
    match read_placed(alloc, bytes) {
        Ok(Placed { root, last: _ }) => Ok(root),
        Err(error) => Err(error),
    }
}

/// The same, with the place of the last element within the root.
/// - TooLong, NotUtf8, NotProfile: as `read_element` answers them (`too_long`, `not_utf8`, `not_profile`, `ok`,
///   `fits`).
pub fn read_placed(alloc: Global, bytes: &[u8]) -> Result<Placed, EnvelopeError>
    // What is read.
    ensures ok { IfOk result (λ placed. IsPlaced bytes.now (element_view placed.root) placed.last) }
    ensures fits { IfOk result (λ _. IsReadable bytes.now) }

    // When each error comes, the first of them where several may.
    ensures too_long { (len : ℕ) → (result ≡ Err (EnvelopeError.TooLong len)) ↔ IsTooLong bytes.now len }
    ensures not_utf8 { (place : ℕ) → (result ≡ Err (EnvelopeError.NotUtf8 place)) ↔ IsTextUpTo bytes.now place }
    ensures not_profile { result ≡ Err EnvelopeError.NotProfile → HasNoTree bytes.now }
    ensures no_version { result ≢ Err EnvelopeError.WrongVersion }
    ensures no_envelope { result ≢ Err EnvelopeError.NotEnvelope }
{
    if bytes.len() > ENVELOPE_BYTES {
        return Err(EnvelopeError::TooLong { len: bytes.len() });
    }
    let refusal = match read_tree(alloc, bytes) {
        Ok(Some(placed)) => return Ok(placed),
        Ok(None) => EnvelopeError::NotProfile,
        Err(memory) => memory.into(),
    };
    let valid_up_to = utf8_prefix(bytes);
    if valid_up_to < bytes.len() {
        return Err(EnvelopeError::NotUtf8 { valid_up_to });
    }
    Err(refusal)
}

// The tree of a whole document, where the bytes are one.
fn read_tree(alloc: Global, bytes: &[u8]) -> Result<Option<Placed>, Memory>
    ensures found { IfOk result (λ found. IfSome found (λ placed.
        IsPlaced bytes.now (element_view placed.root) placed.last)) }
    ensures utf8 { IfOk result (λ found. IfSome found (λ _. IsUtf8 bytes.now)) }
    ensures none { IfOk result (λ found. IfNone found ((other : Tree) → ¬ (Document bytes.now other))) }
{
    let mut reader = DocumentReader::new(alloc)?;
    reader.feed(bytes)?;
    Ok(reader.finish())
}
