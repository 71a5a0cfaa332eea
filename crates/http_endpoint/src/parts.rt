//! The parts of a chunked body (RFC 9112, section 7.1).
ghost use Rattle.std.specs.Prelude.{◌≡◌, ℕ, ◌≤◌, ◌*◌, length, IfOk};
ghost use Rattle.httparse.specs.Grammar.{MayBecomeChunkLine, MayBecomeSection};
ghost use Rattle.http_endpoint.specs.Ends.{ends_line, ends_head, begins_line_end, ends_trailer, ends_break};
ghost use Rattle.http_endpoint.specs.Part.{IsParse};
ghost use Rattle.http_endpoint.specs.Parts.{ReadsSize, ReadsTrailer, ReadsBreak, IsHalfBreak};
ghost use Rattle.http_endpoint.specs.PartLaws.{break-grows, break-tells, size-grows, size-tells, trailer-grows};
ghost use Rattle.http_endpoint.specs.PartLaws.{trailer-tells};

use crate::part::{Parsed, Part};
use httparse::spans::{EMPTY_HEADER_SPAN, HeaderSpan, parse_headers};
use httparse::{Status, parse_chunk_size};
use rm_base::Memory;
use std::alloc::Global;

/// A chunk's line, of which the size is kept.
pub struct ChunkSize;

impl Part for ChunkSize {
    type Out = u64;

    ghost reads = { ReadsSize };

    ghost begun = { MayBecomeChunkLine };

    ghost ends = { ends_line };

    ghost tells = { size-tells };

    ghost grows = { size-grows };

    fn parse(_alloc: Global, bytes: &[u8]) -> Result<Parsed<u64>, Memory> {
        match parse_chunk_size(bytes) {
            Ok(Status::Complete((len, size))) => Ok(Parsed::Found(len, size)),
            Ok(Status::Partial) => Ok(Parsed::Unfinished),
            Err(_) => Ok(Parsed::Refused),
        }
    }

    fn may_end(bytes: &[u8], from: usize) -> bool {
        bytes.split_at(from.min(bytes.len())).1.contains(&b'\n')
    }
}

/// Room for as many fields as so many bytes can have, since a field's line has three bytes at least.
pub(crate) fn room_for(alloc: Global, bytes: &[u8]) -> Result<Vec<HeaderSpan>, Memory>
    ensures { IfOk result (λ room. length bytes.now ≤ 3 * length room.items) }
{
    Ok(vec![in alloc; EMPTY_HEADER_SPAN; bytes.len() / 3 + 1]?)
}

/// The fields after the last chunk, of which the number is kept.
pub struct Trailer;

impl Part for Trailer {
    type Out = usize;

    ghost reads = { ReadsTrailer };

    ghost begun = { MayBecomeSection };

    ghost ends = { ends_trailer };

    ghost tells = { trailer-tells };

    ghost grows = { trailer-grows };

    fn parse(alloc: Global, bytes: &[u8]) -> Result<Parsed<usize>, Memory> {
        let mut room = room_for(alloc, bytes)?;
        match parse_headers(bytes, room.as_mut_slice()) {
            Ok(Status::Complete((len, count))) => Ok(Parsed::Found(len, count)),
            Ok(Status::Partial) => Ok(Parsed::Unfinished),
            Err(_) => Ok(Parsed::Refused),
        }
    }

    fn may_end(bytes: &[u8], from: usize) -> bool {
        has_empty_line(bytes, from) || begins_line_end(bytes)
    }
}

/// The CR LF that ends a chunk's data.
pub struct LineBreak;

impl Part for LineBreak {
    type Out = ();

    ghost reads = { ReadsBreak };

    ghost begun = { IsHalfBreak };

    ghost ends = { ends_break };

    ghost tells = { break-tells };

    ghost grows = { break-grows };

    fn parse(_alloc: Global, bytes: &[u8]) -> Result<Parsed<()>, Memory> {
        match bytes {
            [] => Ok(Parsed::Unfinished),
            [13] => Ok(Parsed::Unfinished),
            [13, 10, ..] => Ok(Parsed::Found(2, ())),
            _ => Ok(Parsed::Refused),
        }
    }

    fn may_end(bytes: &[u8], _from: usize) -> bool {
        !bytes.is_empty()
    }
}

fn begins_line_end(bytes: &[u8]) -> bool
    ensures { result ≡ begins_line_end bytes.now }
{
    match bytes {
        [first, ..] => *first == b'\n' || *first == b'\r',
        [] => false,
    }
}

// Whether, after some text, a line without any ends among the bytes from a place.
pub(crate) fn has_empty_line(bytes: &[u8], from: usize) -> bool
    ensures { result ≡ ends_head bytes.now from }
{
    let mut has_text = false;
    let mut is_empty = false;
    for byte in bytes.split_at(from.saturating_sub(4).min(bytes.len())).1 {
        if *byte == b'\n' {
            if has_text && is_empty {
                return true;
            }
            is_empty = true;
        } else if *byte != b'\r' {
            has_text = true;
            is_empty = false;
        }
    }
    false
}
