//! Readers that are fed from a source.
ghost use Rattle.std.specs.Prelude.{◌≡◌, ◌≢◌, ◌+◌, ◌<◌, ◌≤◌, ◌^◌, length, false, IfOk, IfSome, OnOk, Err, Ok};
ghost use Rattle.std.specs.Io.KnownBytes.{IsAtEnd};
ghost use Rattle.rm_base.specs.Count.{Rose, RoseBy, raised_by};
ghost use Rattle.rm_base.specs.Limits.{envelope_bytes};
ghost use Rattle.rm_base.specs.Outside.{Stream, Lasts};
ghost use Rattle.soap_pieces.specs.Fed.{IsReady, is_short, total};
ghost use Rattle.soap_pieces.specs.Source.{HasTaken, HasTakenAll};

use crate::reader::EnvelopeReader;
use rm_base::limits::ENVELOPE_BYTES;
use rm_base::{ReadError, Source};
use std::alloc::Global;

// How many bytes one read asks for at most.
const PIECE: usize = 65536;

/// A reader that was fed a source to its end, where that has at most as many bytes as an envelope may have. At most one
/// more is taken from it.
/// - TooLong: of a source that tells what it has left, only where that is more than 2097152, and of more no Ok comes
///   (`longer`, `fed`, `too_long`, `stops`).
/// - Failed: only where the source's count of faults rose (`failed`, `stops`).
pub fn read_source<S: Source>(alloc: Global, input: &mut S) -> Result<EnvelopeReader, ReadError>
    ensures fed { IfOk result (λ reader. HasTakenAll (S.told input.old) (S.told input.new) reader) }
    ensures short { IfOk result (λ reader. is_short reader ≡ false) }
    ensures all_taken { IfOk result (λ reader.
        (S.told input.new).taken ≡ raised_by (S.told input.old).taken (total reader)) }
    ensures too_long { result ≡ Err ReadError.TooLong
        → RoseBy (S.told input.old).taken (S.told input.new).taken (envelope_bytes + 1) }
    ensures longer { result ≡ Err ReadError.TooLong
        → IfSome (S.told input.old).left (λ left. envelope_bytes < length left) }
    ensures taken { result ≢ Err ReadError.TooLong → result ≢ Err ReadError.Memory
        → (S.told input.new).taken ≤ (S.told input.old).taken + envelope_bytes }
    ensures stops { (S.told input.new).taken ≤ (S.told input.old).taken + (envelope_bytes + 1) }
    ensures keeps { (S.told input.new).held ≡ (S.told input.old).held }
    ensures failed { result ≡ Err ReadError.Failed → Rose (S.told input.old).faults (S.told input.new).faults }
    ensures lasts { Lasts (S.told input.old) (S.told input.new) }
{
    let mut reader = EnvelopeReader::new(alloc);
    let mut piece = [0; PIECE];
    let mut fed = 0;
    while fed <= ENVELOPE_BYTES {
        let room = PIECE.min(ENVELOPE_BYTES + 1 - fed);
        let count = feed_from(&mut reader, input, &mut piece[..room])?;
        if count == 0 {
            return Ok(reader);
        }
        fed += count;
    }
    Err(ReadError::TooLong)
}

// Feeds a reader what one read moves into the buffer, and says how many bytes these are: none only at the end.
fn feed_from<S: Source>(
    reader: &mut EnvelopeReader,
    input: &mut S,
    buf: &mut [u8],
) -> Result<usize, ReadError>
    requires ready { IsReady reader.old }
    requires fits { total reader.old + length buf.old < 2 ^ 63 }
    requires room { 0 < length buf.old }
    ensures ready { IsReady reader.new }
    ensures short { OnOk result (is_short reader.new ≡ false) }
    ensures total { IfOk result (λ n. total reader.new ≡ total reader.old + n) }
    ensures within { IfOk result (λ n. n ≤ length buf.old) }
    ensures fed { (old : Stream) → HasTaken old (S.told input.old) reader.old
        → OnOk result (HasTaken old (S.told input.new) reader.new) }
    ensures end { result ≡ Ok 0 → IsAtEnd (S.told input.new).left }
    ensures counted { IfOk result (λ n. (S.told input.new).taken ≡ raised_by (S.told input.old).taken n) }
    ensures stops { (S.told input.new).taken ≤ (S.told input.old).taken + length buf.old }
    ensures keeps { (S.told input.new).held ≡ (S.told input.old).held }
    ensures never_long { result ≢ Err ReadError.TooLong }
    ensures untaken { result ≡ Err ReadError.Failed → (S.told input.new).taken ≡ (S.told input.old).taken }
    ensures failed { result ≡ Err ReadError.Failed → Rose (S.told input.old).faults (S.told input.new).faults }
    ensures lasts { Lasts (S.told input.old) (S.told input.new) }
{
    let count = input.read(buf)?;
    reader.feed(&buf[..count])?;
    Ok(count)
}
