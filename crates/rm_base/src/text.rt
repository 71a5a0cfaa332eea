//! Addresses and identifiers.
ghost use Rattle.std.specs.Prelude.{◌≡◌, ℕ, ◌<◌, ◌≤◌, ◌↔◌, List, length, IsTrue, IfOk, IfErr, OnOk};
ghost use Rattle.std.specs.List.{list_all};
ghost use Rattle.std.specs.Str.{chars};
ghost use Rattle.xml_chars.specs.Classes.{is_char};
ghost use Rattle.rm_base.specs.Text.{IsCharacters, IsTrimmed, IsText, IsTextError};
ghost use Rattle.rm_base.specs.declared.text.TextError.TheVariants.{Memory as WantsMemory};

use crate::blob::Blob;
use crate::failures::Memory;
use crate::limits::{IDENT_BYTES, URI_BYTES};
use std::alloc::Global;
use std::marker::Model;
use std::str;
use thiserror::Error;
use xml_chars::{is_char, is_space};

/// Why bytes are no address or no identifier.
#[derive(Clone, Copy, Debug, PartialEq, Eq, Error)]
pub enum TextError {
    #[error("out of memory")]
    Memory,
    #[error("there is no text")]
    Empty,
    #[error("{len} bytes are too long")]
    TooLong { len: u64 },
    #[error("the text is not UTF-8 of XML characters, or has white space at an end")]
    NotText,
}

impl From<Memory> for TextError {
    ghost from_gives = { λ _ e. e ≡ WantsMemory };

    fn from(_memory: Memory) -> TextError {
        TextError::Memory
    }
}

/// An address, an action or a message's name: 1 to 2048 bytes of characters that a document may hold, without white
/// space at either end. WS-Addressing 1.0 Core, section 2.1 and 3.1.
#[derive(Debug, Drop)]
pub struct Uri {
    bytes: Blob,
}

impl Model for Uri {
    ghost Value = { List ℕ };

    ghost view = { λ u. u.bytes };

    ghost invariant = { λ u. IsText 2048 u.bytes };
}

impl Uri {
    /// A copy of these bytes, where they are such a text.
    /// - Empty, TooLong, NotText: exactly with the first that holds of: no bytes; more than 2048, with how many; others
    ///   than characters of XML 1.0 in UTF-8, or white space at an end (`err`, `is_text`).
    /// - Memory: only where the bytes are such a text (`err`).
    pub fn from_slice(alloc: Global, bytes: &[u8]) -> Result<Self, TextError>
        ensures ok { IfOk result (λ uri. uri ≡ bytes.now) }
        ensures is_text { OnOk result (IsText 2048 bytes.now) }
        ensures err { IfErr result (IsTextError 2048 bytes.now) }
    {
        Ok(Uri {
            bytes: text_of(alloc, bytes, URI_BYTES)?,
        })
    }

    /// All bytes.
    pub fn as_slice(&self) -> &[u8]
        ensures bytes { result.now ≡ self.now }
        ensures is_text { IsText 2048 self.now }
    {
        let _bytes = &self.bytes;
        self.bytes.as_slice()
    }

    /// The same address again.
    pub fn copy(&self) -> Result<Self, Memory>
        ensures { IfOk result (λ copy. copy ≡ self.now) }
    {
        Ok(Uri {
            bytes: self.bytes.copy()?,
        })
    }
}

/// An address, where the bytes are one.
pub fn uri_of(alloc: Global, bytes: &[u8]) -> Result<Uri, Memory>
    requires { IsText 2048 bytes.now }
    ensures { IfOk result (λ uri. uri ≡ bytes.now) }
{
    Ok(Uri {
        bytes: Blob::from_slice(alloc, bytes)?,
    })
}

/// The same address again, where there is one.
pub fn copy_optional_uri(uri: &Option<Uri>) -> Result<Option<Uri>, Memory>
    ensures { IfOk result (λ copy. copy ≡ uri.now) }
{
    match uri {
        Some(uri) => Ok(Some(uri.copy()?)),
        None => Ok(None),
    }
}

/// An identifier of a sequence: 1 to 512 bytes of characters that a document may hold, without white space at either
/// end. WS-ReliableMessaging 1.2, section 3.4.
#[derive(Debug, Drop)]
pub struct Ident {
    bytes: Blob,
}

impl Model for Ident {
    ghost Value = { List ℕ };

    ghost view = { λ i. i.bytes };

    ghost invariant = { λ i. IsText 512 i.bytes };
}

impl Ident {
    /// A copy of these bytes, where they are such a text.
    /// - Empty, TooLong, NotText: exactly with the first that holds of: no bytes; more than 512, with how many; others
    ///   than characters of XML 1.0 in UTF-8, or white space at an end (`err`, `is_text`).
    /// - Memory: only where the bytes are such a text (`err`).
    pub fn from_slice(alloc: Global, bytes: &[u8]) -> Result<Self, TextError>
        ensures ok { IfOk result (λ ident. ident ≡ bytes.now) }
        ensures is_text { OnOk result (IsText 512 bytes.now) }
        ensures err { IfErr result (IsTextError 512 bytes.now) }
    {
        Ok(Ident {
            bytes: text_of(alloc, bytes, IDENT_BYTES)?,
        })
    }

    /// All bytes.
    pub fn as_slice(&self) -> &[u8]
        ensures bytes { result.now ≡ self.now }
        ensures is_text { IsText 512 self.now }
    {
        let _bytes = &self.bytes;
        self.bytes.as_slice()
    }

    /// The same identifier again.
    pub fn copy(&self) -> Result<Self, Memory>
        ensures { IfOk result (λ copy. copy ≡ self.now) }
    {
        Ok(Ident {
            bytes: self.bytes.copy()?,
        })
    }
}

// The bytes, where they are a text of at most so many.
fn text_of(alloc: Global, bytes: &[u8], limit: usize) -> Result<Blob, TextError>
    ensures ok { IfOk result (λ text. text ≡ bytes.now) }
    ensures is_text { OnOk result (IsText limit bytes.now) }
    ensures err { IfErr result (IsTextError limit bytes.now) }
{
    if bytes.is_empty() {
        return Err(TextError::Empty);
    }
    if bytes.len() > limit {
        return Err(TextError::TooLong {
            len: bytes.len() as u64,
        });
    }
    if !is_trimmed(bytes) {
        return Err(TextError::NotText);
    }
    if !has_characters(bytes) {
        return Err(TextError::NotText);
    }
    Ok(Blob::from_slice(alloc, bytes)?)
}

// Whether neither the first byte nor the last is white space.
fn is_trimmed(bytes: &[u8]) -> bool
    requires { 0 < length bytes.now }
    ensures { IsTrue result ↔ IsTrimmed bytes.now }
{
    !is_space(bytes[0]) && !is_space(bytes[bytes.len() - 1])
}

// Whether the bytes are characters of a document, as UTF-8.
fn has_characters(bytes: &[u8]) -> bool
    ensures { IsTrue result ↔ IsCharacters bytes.now }
{
    match str::from_utf8(bytes) {
        Ok(text) => has_each(text),
        Err(_) => false,
    }
}

// Whether each character may stand in a document.
#[tactic(auto, using(std::proofs::lemmas::Str::chars_from_encodes))]
fn has_each(text: &str) -> bool
    ensures { result ≡ list_all is_char (chars text.now) }
{
    text.chars().all(|c| is_char(c))
}
