//! How much of some bytes is UTF-8, told without keeping them.
ghost use Rattle.std.specs.Prelude.{◌≡◌, ◌≢◌, ◌+◌, ◌++◌, ◌<◌, ◌≤◌, ◌^◌, ℕ, List, length, IfOk, OnOk, Err};
ghost use Rattle.std.specs.Str.{IsUtf8};
ghost use Rattle.rm_base.specs.Limits.{envelope_bytes};
ghost use Rattle.soap_document.specs.Profile.Document.{Document};
ghost use Rattle.soap_document.specs.Profile.Tree.{Element};
ghost use Rattle.soap_pieces.specs.Answer.{Reads};
ghost use Rattle.soap_pieces.specs.Front.{IsFront, IsTail, front_len, tail_len};

use rm_base::{Blob, Memory};
use soap_document::profile::EnvelopeError;
use soap_lex::utf8_prefix;
use std::alloc::Global;

/// The length of the longest front of some bytes that is UTF-8, and what stands behind it, where more bytes may make a
/// character of that.
#[derive(Drop)]
pub(crate) struct Front {
    valid: usize,
    // None where it is too long to begin a character.
    tail: Option<Blob>,
}

impl Front {
    /// That of these bytes.
    pub(crate) fn of(alloc: Global, bytes: &[u8]) -> Result<Self, Memory>
        ensures is { IfOk result (λ front. IsFront front bytes.now) }
        ensures len { IfOk result (λ front. front_len front ≤ length bytes.now) }
        ensures small { IfOk result (λ front. tail_len front.tail ≤ 3) }
    {
        let valid = utf8_prefix(bytes);
        let tail = tail_of(alloc, &bytes[valid..])?;
        Ok(Front { valid, tail })
    }

    /// That of bytes which are UTF-8.
    pub(crate) fn whole(alloc: Global, bytes: &[u8]) -> Self
        requires { IsUtf8 bytes.now }
        ensures is { IsFront result bytes.now }
        ensures len { front_len result ≤ length bytes.now }
        ensures small { tail_len result.tail ≤ 3 }
    {
        Front {
            valid: bytes.len(),
            tail: Some(Blob::new(alloc)),
        }
    }

    /// More bytes follow.
    pub(crate) fn feed(&mut self, alloc: Global, piece: &[u8]) -> Result<(), Memory>
        requires fits { front_len self.old + length piece.now < 2 ^ 64 }
        ensures is { (bytes : List ℕ) → IsFront self.old bytes → OnOk result (IsFront self.new (bytes ++ piece.now)) }
        ensures len { front_len self.new ≤ front_len self.old + length piece.now }
        ensures grows { self.old.valid ≤ self.new.valid }
        ensures small { tail_len self.old.tail ≤ 3 → tail_len self.new.tail ≤ 3 }
    {
        let Some(tail) = &self.tail else {
            return Ok(());
        };
        let joined = joined(tail, piece)?;
        let next = Front::of(alloc, joined.as_slice())?;
        self.valid += next.valid;
        self.tail = next.tail;
        Ok(())
    }

    /// Why bytes of this length, with which no document begins, are none.
    pub(crate) fn why_none(&self, len: usize) -> EnvelopeError
        ensures reads { (bytes : List ℕ) → IsFront self.now bytes → len ≡ length bytes → length bytes ≤ envelope_bytes
            → ((tree : Element) → ¬ (Document bytes tree)) → Reads bytes (Err result) }
        ensures known { result ≢ EnvelopeError.Memory }
    {
        let valid_up_to = self.valid;
        if valid_up_to < len {
            return EnvelopeError::NotUtf8 { valid_up_to };
        }
        EnvelopeError::NotProfile
    }
}

// A tail with a piece behind it.
fn joined(tail: &Blob, piece: &[u8]) -> Result<Blob, Memory>
    ensures { IfOk result (λ joined. joined ≡ tail.now ++ piece.now) }
{
    let mut joined = tail.copy()?;
    joined.push_all(piece)?;
    Ok(joined)
}

// Bytes of which no front is UTF-8, unless they are too long to begin a character.
fn tail_of(alloc: Global, rest: &[u8]) -> Result<Option<Blob>, Memory>
    ensures is { IfOk result (λ tail. IsTail tail rest.now) }
    ensures small { IfOk result (λ tail. tail_len tail ≤ 3) }
    ensures len { IfOk result (λ tail. tail_len tail ≤ length rest.now) }
{
    if rest.len() > 3 {
        return Ok(None);
    }
    Ok(Some(Blob::from_slice(alloc, rest)?))
}
