//! Whole texts from a source, and to a sink.
ghost use Rattle.std.specs.Prelude.{◌≡◌, ◌≢◌, ℕ, ◌≤◌, ◌+◌, ◌<◌, ◌^◌, ◌-◌, List, [], length, take, drop, IfOk, OnOk};
ghost use Rattle.std.specs.Prelude.{IfSome, OnErr, Err, true, false};
ghost use Rattle.std.specs.Io.KnownBytes.{Appends, IsAtEnd};
ghost use Rattle.rm_base.specs.Count.{Rose, RoseBy, raised_by};
ghost use Rattle.rm_base.specs.Outside.{AppendsFront, ConsumesUpTo, Lasts};
ghost use Rattle.rm_base.specs.declared.transfer.ReadError.TheVariants.{Memory as WantsMemory, Failed as ReadFails};

use crate::blob::Blob;
use crate::failures::{Failed, Memory};
use crate::outside::{Sink, SinkError, Source};
use std::alloc::Global;
use thiserror::Error;

/// Why the bytes of a source were not read to their end.
#[derive(Clone, Copy, Debug, PartialEq, Eq, Error)]
pub enum ReadError {
    #[error("out of memory")]
    Memory,
    #[error("a read failed")]
    Failed,
    #[error("the input is too long")]
    TooLong,
}

impl From<Memory> for ReadError {
    ghost from_gives = { λ _ e. e ≡ WantsMemory };

    fn from(_memory: Memory) -> ReadError {
        ReadError::Memory
    }
}

impl From<Failed> for ReadError {
    ghost from_gives = { λ _ e. e ≡ ReadFails };

    fn from(_failed: Failed) -> ReadError {
        ReadError::Failed
    }
}

// How many bytes one read asks for at most.
const PIECE: usize = 65536;

/// Reads a source to its end, where it has at most `limit` bytes. At most `limit + 1` bytes are taken from it. It asks
/// for at most 65536 bytes at a time.
/// - TooLong: of a source that tells what it has left, only where that is more than the limit, and of more no Ok comes
///   (`too_long`, `longer`, `one_more`, `whole`, `within`).
/// - Failed: only where the source's count of faults rose; no more than the limit and one byte was taken (`failed`,
///   `stops`, `front`).
pub fn read_up_to<S: Source>(alloc: Global, input: &mut S, limit: usize) -> Result<Blob, ReadError>
    requires { limit < 2 ^ 62 }
    ensures at_end { OnOk result (IsAtEnd (S.told input.new).left) }
    ensures within { IfOk result (λ bytes. length bytes ≤ limit) }
    ensures whole { IfOk result (λ bytes. IfSome (S.told input.old).left (λ left. bytes ≡ left)) }
    ensures too_long { result ≡ Err ReadError.TooLong
        → RoseBy (S.told input.old).taken (S.told input.new).taken (limit + 1) }
    ensures longer { result ≡ Err ReadError.TooLong → IfSome (S.told input.old).left (λ left. limit < length left) }
    ensures taken { result ≢ Err ReadError.TooLong → result ≢ Err ReadError.Memory
        → (S.told input.new).taken ≤ (S.told input.old).taken + limit }
    ensures all_taken { IfOk result (λ bytes.
        (S.told input.new).taken ≡ raised_by (S.told input.old).taken (length bytes)) }
    ensures one_more { result ≡ Err ReadError.TooLong
        → (S.told input.new).taken ≡ raised_by (S.told input.old).taken (limit + 1) }
    ensures stops { (S.told input.new).taken ≤ (S.told input.old).taken + (limit + 1) }
    ensures keeps { (S.told input.new).held ≡ (S.told input.old).held }
    ensures front { ConsumesUpTo (S.told input.old).left (S.told input.new).left (limit + 1) }
    ensures failed { result ≡ Err ReadError.Failed → Rose (S.told input.old).faults (S.told input.new).faults }
    ensures lasts { Lasts (S.told input.old) (S.told input.new) }
{
    let mut bytes = Blob::new(alloc);
    let mut piece = [0; PIECE];
    while bytes.len() <= limit {
        let room = PIECE.min(limit + 1 - bytes.len());
        let count = input.read(&mut piece[..room])?;
        if count == 0 {
            return Ok(bytes);
        }
        bytes.push_all(&piece[..count])?;
    }
    Err(ReadError::TooLong)
}

/// Writes all bytes, piece by piece as the sink takes them. After an `Err` some first bytes were written.
/// - Failed: only where the sink's count of faults rose; some first bytes were written (`failed`, `err`).
/// - Memory: only of a sink whose calls may want memory; some first bytes were written (`memory`, `err`).
pub fn write_all<K: Sink>(out: &mut K, bytes: &[u8]) -> Result<(), SinkError>
    ensures ok { OnOk result (Appends (K.told out.old).held (K.told out.new).held bytes.now) }
    ensures err { OnErr result (AppendsFront (K.told out.old).held (K.told out.new).held bytes.now) }
    ensures failed { result ≡ Err SinkError.Failed → Rose (K.told out.old).faults (K.told out.new).faults }
    ensures memory { K.wants_memory ≡ false → result ≢ Err SinkError.Memory }
    ensures keeps { (K.told out.new).left ≡ (K.told out.old).left }
    ensures keeps_taken { (K.told out.new).taken ≡ (K.told out.old).taken }
    ensures lasts { Lasts (K.told out.old) (K.told out.new) }
{
    let mut written = 0;
    while written < bytes.len() {
        let count = out.write(bytes.split_at(written).1)?;
        if count == 0 {
            return Err(SinkError::Failed);
        }
        written += count;
    }
    Ok(())
}
