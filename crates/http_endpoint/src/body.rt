//! Bodies of messages (RFC 9112, sections 6 and 7.1).
ghost use Rattle.std.specs.Prelude.{◌≡◌, ◌≢◌, ℕ, ◌≤◌, ◌<◌, ◌+◌, ◌-◌, ◌*◌, List, [], length, min, max, Some, Ok, Err};
ghost use Rattle.std.specs.Prelude.{true};
ghost use Rattle.std.specs.Prelude.{OnOk};
ghost use Rattle.rm_base.specs.Limits.{envelope_bytes};
ghost use Rattle.http_endpoint.specs.Ahead.{ahead};
ghost use Rattle.http_endpoint.specs.Part.{IfTold};
ghost use Rattle.http_endpoint.specs.Body.{IsMove, IsChunk, IsChunked, IsCounted, IsBody, all_left, came_before};
ghost use Rattle.http_endpoint.specs.Kept.{KeepsSource};
ghost use Rattle.http_endpoint.specs.Taken.{TakesAtMost, UsesAtMost, chunk_bytes, most_taken, refused_bytes};

use crate::error::HttpError;
use crate::input::Input;
use crate::part::read_part;
use crate::parts::{ChunkSize, LineBreak, Trailer};
use rm_base::limits::ENVELOPE_BYTES;
use rm_base::{Blob, Source};
use std::alloc::Global;

/// The greatest number of fields of a head, and of a trailer.
pub const FIELD_LIMIT: usize = 64;

/// How a body is told from what follows it (RFC 9112, section 6.3).
#[derive(Clone, Copy, Debug, PartialEq, Eq)]
pub enum Framing {
    Empty,
    Counted(u64),
    Chunked,
    ToEnd,
}

/// Moves so many bytes to a body. It takes no more of the source than those, nor than the limit and one byte.
pub fn move_bytes<S: Source>(
    from: &mut S,
    input: &mut Input,
    size: u64,
    body: &mut Blob,
) -> Result<(), HttpError>
    requires { length body.old ≤ envelope_bytes }
    ensures answer { (all : List ℕ) → ahead (S.told from.old).left input.old ≡ Some all
        → IsMove size all body.old result body.new (ahead (S.told from.new).left input.new) }
    ensures grown { OnOk result (length body.new ≡ length body.old + size) }
    ensures within { OnOk result (length body.new ≤ envelope_bytes) }
    ensures stops { TakesAtMost (min size (envelope_bytes + 1 - length body.old)) (length input.old)
        (S.told from.old) (S.told from.new) }
    ensures used { OnOk result (UsesAtMost size (length input.old) (length input.new)
        (S.told from.old) (S.told from.new)) }
    ensures keeps { KeepsSource result (S.told from.old) (S.told from.new) }
{
    let mut left = size;
    while left > 0 {
        let room = left.min((ENVELOPE_BYTES + 1 - body.len()) as u64) as usize;
        if !input.has_more(from, room)? {
            return Err(HttpError::CutShort);
        }
        let count = input.move_to(body, room)?;
        if body.len() > ENVELOPE_BYTES {
            return Err(HttpError::TooLong {
                taken: body.len() as u64,
            });
        }
        left -= count as u64;
    }
    Ok(())
}

// Reads one chunk onto the body, or the last one and the trailer. Answers whether more may follow.
fn read_chunk<S: Source>(
    alloc: Global,
    from: &mut S,
    input: &mut Input,
    body: &mut Blob,
) -> Result<bool, HttpError>
    requires { length body.old ≤ envelope_bytes }
    ensures answer { (all : List ℕ) → ahead (S.told from.old).left input.old ≡ Some all
        → IsChunk all body.old result body.new (ahead (S.told from.new).left input.new) }
    ensures within { OnOk result (length body.new ≤ envelope_bytes) }
    ensures grown { result ≡ Ok true → length body.old < length body.new }
    ensures stops { TakesAtMost refused_bytes (length input.old) (S.told from.old) (S.told from.new) }
    ensures used { result ≡ Ok true → (S.told from.new).taken + (length input.old + chunk_bytes * length body.old)
        ≤ (S.told from.old).taken + (length input.new + chunk_bytes * length body.new) }
    ensures keeps { KeepsSource result (S.told from.old) (S.told from.new) }
{
    let size = read_part::<S, ChunkSize>(alloc, from, input)?;
    if size == 0 {
        let count = read_part::<S, Trailer>(alloc, from, input)?;
        if count > FIELD_LIMIT {
            return Err(HttpError::BadHead);
        }
        return Ok(false);
    }
    move_bytes(from, input, size, body)?;
    read_part::<S, LineBreak>(alloc, from, input)?;
    Ok(true)
}

/// Reads chunks, and the trailer behind them. Each byte of the body costs at most its chunk's line and end besides.
pub fn read_chunks<S: Source>(
    alloc: Global,
    from: &mut S,
    input: &mut Input,
) -> Result<Blob, HttpError>
    ensures answer { (all : List ℕ) → ahead (S.told from.old).left input.old ≡ Some all
        → IfTold result (IsChunked result [] all) }
    ensures stops { TakesAtMost (most_taken Framing.Chunked) (length input.old) (S.told from.old) (S.told from.new) }
    ensures keeps { KeepsSource result (S.told from.old) (S.told from.new) }
{
    let mut body = Blob::new(alloc);
    while read_chunk(alloc, from, input, &mut body)? {}
    Ok(body)
}

// What came of moving more than a body may have: where the bytes ended before, they are the body.
fn came_before(error: HttpError, body: Blob) -> Result<Blob, HttpError>
    ensures { result ≡ came_before error body }
{
    match error {
        HttpError::CutShort => Ok(body),
        HttpError::Memory => Err(HttpError::Memory),
        HttpError::ReadFault => Err(HttpError::ReadFault),
        HttpError::WriteFault => Err(HttpError::WriteFault),
        HttpError::BadHead => Err(HttpError::BadHead),
        HttpError::TooLong { taken } => Err(HttpError::TooLong { taken }),
        HttpError::Unsupported { status } => Err(HttpError::Unsupported { status }),
    }
}

/// Reads all bytes that are left.
pub fn read_to_end<S: Source>(
    alloc: Global,
    from: &mut S,
    input: &mut Input,
) -> Result<Blob, HttpError>
    ensures answer { (all : List ℕ) → ahead (S.told from.old).left input.old ≡ Some all
        → IfTold result (result ≡ all_left all) }
    ensures stops { TakesAtMost (envelope_bytes + 1) (length input.old) (S.told from.old) (S.told from.new) }
    ensures keeps { KeepsSource result (S.told from.old) (S.told from.new) }
{
    let mut body = Blob::new(alloc);
    match move_bytes(from, input, ENVELOPE_BYTES as u64 + 1, &mut body) {
        Ok(()) => unreachable!(),
        Err(error) => came_before(error, body),
    }
}

/// Reads so many bytes.
fn read_counted<S: Source>(
    alloc: Global,
    from: &mut S,
    input: &mut Input,
    size: u64,
) -> Result<Blob, HttpError>
    ensures answer { (all : List ℕ) → ahead (S.told from.old).left input.old ≡ Some all
        → IfTold result (IsCounted size all result) }
    ensures stops { TakesAtMost (min size (envelope_bytes + 1)) (length input.old) (S.told from.old) (S.told from.new) }
    ensures keeps { KeepsSource result (S.told from.old) (S.told from.new) }
{
    let mut body = Blob::new(alloc);
    move_bytes(from, input, size, &mut body)?;
    Ok(body)
}

/// Reads a body that is told in this way.
pub fn read_body<S: Source>(
    alloc: Global,
    from: &mut S,
    input: &mut Input,
    framing: Framing,
) -> Result<Blob, HttpError>
    ensures answer { (all : List ℕ) → ahead (S.told from.old).left input.old ≡ Some all
        → IfTold result (IsBody framing all result) }
    ensures stops { TakesAtMost (most_taken framing) (length input.old) (S.told from.old) (S.told from.new) }
    ensures keeps { KeepsSource result (S.told from.old) (S.told from.new) }
{
    match framing {
        Framing::Empty => Ok(Blob::new(alloc)),
        Framing::Counted(size) => read_counted(alloc, from, input, size),
        Framing::Chunked => read_chunks(alloc, from, input),
        Framing::ToEnd => read_to_end(alloc, from, input),
    }
}
