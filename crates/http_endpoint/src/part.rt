//! Parts of a message, and one reader for all of them.
ghost use Rattle.std.specs.Prelude.{Bool, ◌≡◌, ◌≢◌, ℕ, ◌<◌, ◌≤◌, ◌+◌, List, ◌++◌, length, max, Some, IfOk, OnOk};
ghost use Rattle.std.specs.Prelude.{Err, true};
ghost use Rattle.http_endpoint.specs.Ahead.{ahead};
ghost use Rattle.http_endpoint.specs.Limits.{part_bytes};
ghost use Rattle.http_endpoint.specs.Part.{IsParse, IsAnswer};
ghost use Rattle.http_endpoint.specs.Kept.{KeepsSource};
ghost use Rattle.http_endpoint.specs.Taken.{TakesAtMost, UsesAtMost};

use crate::error::HttpError;
use crate::input::Input;
use rm_base::{Memory, Source};
use std::alloc::Global;

/// The greatest length of a head, of a chunk's line, and of a trailer.
pub const PART_LIMIT: usize = 16384;

/// What a parser finds at the front of bytes: a text of so many, the beginning of one, or bytes that never become one.
#[derive(Clone, Copy, Debug, PartialEq, Eq)]
pub enum Parsed<T> {
    Found(usize, T),
    Unfinished,
    Refused,
}

/// A part of a message, as a parser reads it at the front of bytes.
pub trait Part {
    /// What is kept of the part.
    type Out;

    /// Its grammar: the bytes, what is kept, and the rest.
    ghost reads: { List ℕ → Self.Out → List ℕ → Type 0 };

    /// The part has begun, and more bytes may end it.
    ghost begun: { List ℕ → Type 0 };

    /// The part may end among the bytes from a place: it may where a text of it ends behind that place.
    ghost ends: { List ℕ → ℕ → Bool };

    /// Parses the first bytes.
    fn parse(alloc: Global, bytes: &[u8]) -> Result<Parsed<Self::Out>, Memory>
        ensures { IfOk result (IsParse reads begun bytes.now) };

    /// Whether the part may end among the bytes from `from`, so that it is worth to parse them. A chunk's line may end
    /// at an LF, a head at a line without text behind some, a trailer there or at its first byte; no part is late.
    fn may_end(bytes: &[u8], from: usize) -> bool
        ensures { result ≡ ends bytes.now from };

    ghost tells: { (bytes : List ℕ) (a : Self.Out) (rest : List ℕ) (from : ℕ) → reads bytes a rest
        → from + length rest < length bytes → ends bytes from ≡ true };

    ghost grows: { (bytes : List ℕ) (a : Self.Out) (rest more : List ℕ) → reads bytes a rest
        → reads (bytes ++ more) a (rest ++ more) };
}

/// Reads one part. Of the source no more bytes are taken than the limit and one, with those that were held.
pub fn read_part<S: Source, P: Part>(
    alloc: Global,
    from: &mut S,
    input: &mut Input,
) -> Result<P::Out, HttpError>
    ensures answer { (all : List ℕ) → ahead (S.told from.old).left input.old ≡ Some all
        → IsAnswer part_bytes P.reads P.begun all result (ahead (S.told from.new).left input.new) }
    ensures stops { TakesAtMost (part_bytes + 1) (length input.old) (S.told from.old) (S.told from.new) }
    ensures used { OnOk result (UsesAtMost part_bytes (length input.old) (length input.new)
        (S.told from.old) (S.told from.new)) }
    ensures keeps { KeepsSource result (S.told from.old) (S.told from.new) }
{
    let mut tried = 0;
    while input.as_slice().len() <= PART_LIMIT {
        if P::may_end(input.as_slice(), tried) {
            match P::parse(alloc, input.as_slice())? {
                Parsed::Found(len, out) => {
                    input.skip(len);
                    return Ok(out);
                }
                Parsed::Unfinished => {}
                Parsed::Refused => return Err(HttpError::BadHead),
            }
        }
        tried = input.as_slice().len();
        if !input.fill(from, PART_LIMIT + 1 - tried)? {
            return match P::parse(alloc, input.as_slice())? {
                Parsed::Found(len, out) => {
                    input.skip(len);
                    Ok(out)
                }
                Parsed::Unfinished => Err(HttpError::CutShort),
                Parsed::Refused => Err(HttpError::BadHead),
            };
        }
    }
    match P::parse(alloc, input.as_slice().split_at(PART_LIMIT).0)? {
        Parsed::Found(len, out) => {
            input.skip(len);
            Ok(out)
        }
        Parsed::Unfinished => Err(HttpError::BadHead),
        Parsed::Refused => Err(HttpError::BadHead),
    }
}
