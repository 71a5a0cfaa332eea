//! Responses, read from a source (RFC 9112).
ghost use Rattle.std.specs.Prelude.{◌≡◌, ◌≢◌, ◌≤◌, ◌+◌, ◌*◌, ℕ, List, length, max, Some, Err, true};
ghost use Rattle.http_endpoint.specs.Ahead.{ahead};
ghost use Rattle.http_endpoint.specs.Limits.{part_bytes};
ghost use Rattle.http_endpoint.specs.Part.{IfTold};
ghost use Rattle.http_endpoint.specs.Messages.{IsFinal, IsResponse};
ghost use Rattle.http_endpoint.specs.Kept.{KeepsSource};
ghost use Rattle.http_endpoint.specs.Taken.{TakesAtMost, most_taken};

use crate::body::{Framing, read_body};
use crate::error::HttpError;
use crate::heads::{HeadOfResponse, ResponseFacts, response_framing};
use crate::input::Input;
use crate::part::read_part;
use rm_base::{Blob, Source};
use std::alloc::Global;

/// A response: its status, and its body.
#[derive(Debug, Drop)]
pub struct Response {
    pub status: u16,
    pub body: Blob,
}

// Reads what stands behind the head of a response.
fn read_final<S: Source>(
    alloc: Global,
    from: &mut S,
    input: &mut Input,
    facts: ResponseFacts,
) -> Result<Response, HttpError>
    ensures answer { (all : List ℕ) → ahead (S.told from.old).left input.old ≡ Some all
        → IfTold result (IsFinal result facts all) }
    ensures stops { TakesAtMost (most_taken Framing.Chunked) (length input.old) (S.told from.old) (S.told from.new) }
    ensures keeps { KeepsSource result (S.told from.old) (S.told from.new) }
{
    let framing = response_framing(facts)?;
    let body = read_body(alloc, from, input, framing)?;
    Ok(Response {
        status: facts.status,
        body,
    })
}

/// Reads one response. One of status 100 is passed over once. Of an error other than want of memory or a fault it is
/// exact which one comes, by the bytes that the source has left, however they arrive. RFC 9112, sections 2 to 7.
/// - BadHead, TooLong, CutShort: exactly by the bytes that the source has left, where it tells them; nothing was
///   written (`answer`, `keeps`).
/// - ReadFault: only where the source's count of faults rose. WriteFault and Unsupported never come (`keeps`).
pub fn read_response<S: Source>(alloc: Global, from: &mut S) -> Result<Response, HttpError>
    ensures answer { (all : List ℕ) → (S.told from.old).left ≡ Some all → IfTold result (IsResponse result all) }
    ensures stops { (S.told from.new).taken
        ≤ (S.told from.old).taken + (2 * part_bytes + 1 + most_taken Framing.Chunked) }
    ensures keeps { KeepsSource result (S.told from.old) (S.told from.new) }
{
    let mut input = Input::new(alloc);
    let facts = read_part::<S, HeadOfResponse>(alloc, from, &mut input)?;
    if facts.status == 100 {
        response_framing(facts)?;
        let last = read_part::<S, HeadOfResponse>(alloc, from, &mut input)?;
        return read_final(alloc, from, &mut input, last);
    }
    read_final(alloc, from, &mut input, facts)
}
