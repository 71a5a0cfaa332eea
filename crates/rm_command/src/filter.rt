//! What commands share that read their input to the end and print a text of it: the reading, and the writing.
ghost use Rattle.std.specs.Prelude.{◌≡◌, ◌<◌, ◌^◌, false, IfOk, IfErr, OnOk};
ghost use Rattle.rm_base.specs.Limits.{envelope_bytes};
ghost use Rattle.rm_command.specs.Edge.{side_of, edge_of, WasRead, KeepsEdge, KeepsOutput};
ghost use Rattle.rm_command.specs.Filter.{EndsUnread, EndsWriting, end_of};
ghost use Rattle.soap_pieces.specs.Fed.{is_short};
ghost use Rattle.soap_pieces.specs.Source.{HasTakenAll};
ghost use Rattle.rm_command.specs.declared.filter.NoText.TheVariants.{Memory as WantsMemory};

use crate::end::{End, Fault, refuse};
use rm_base::{Blob, Memory, ReadError, Sink, SinkError, Source, read_up_to, write_all};
use rm_script::report::exits::{READ_FAULT_LINE, TOO_LONG_LINE};
use soap_pieces::{EnvelopeReader, read_source};
use std::alloc::Global;

/// Why there is nothing to print of bytes.
#[derive(Clone, Copy, Debug)]
pub enum NoText {
    Memory,
    Faulty(Fault),
}

impl From<Memory> for NoText {
    ghost from_gives = { λ _ e. e ≡ WantsMemory };

    fn from(_memory: Memory) -> NoText {
        NoText::Memory
    }
}

/// Reads an input of at most `limit` bytes to its end. Where it isn't read, its refusal is answered and was written.
pub fn read_input<S: Source, K: Sink>(
    alloc: Global,
    input: &mut S,
    out: &mut K,
    limit: usize,
) -> Result<Blob, End>
    requires { limit < 2 ^ 62 }
    ensures read { IfOk result (λ bytes. WasRead limit (S.told input.old) (S.told input.new) bytes) }
    ensures silent { OnOk result (out.new ≡ out.old) }
    ensures refused { IfErr result (λ end. EndsUnread limit end
        (edge_of S.told K.told K.wants_memory input.old input.new out.old out.new)) }
    ensures kept { KeepsEdge limit (end_of result)
        (edge_of S.told K.told K.wants_memory input.old input.new out.old out.new) }
{
    match read_up_to(alloc, input, limit) {
        Ok(bytes) => Ok(bytes),
        Err(ReadError::Failed) => Err(refuse(out, End::ReadFault, READ_FAULT_LINE)),
        Err(ReadError::TooLong) => Err(refuse(out, End::TooLong, TOO_LONG_LINE)),
        Err(ReadError::Memory) => Err(End::Memory),
    }
}

/// The same of an envelope, of which a reader takes each piece as it comes.
pub fn read_pieces<S: Source, K: Sink>(
    alloc: Global,
    input: &mut S,
    out: &mut K,
) -> Result<EnvelopeReader, End>
    ensures read { IfOk result (λ reader. HasTakenAll (S.told input.old) (S.told input.new) reader) }
    ensures short { IfOk result (λ reader. is_short reader ≡ false) }
    ensures silent { OnOk result (out.new ≡ out.old) }
    ensures refused { IfErr result (λ end. EndsUnread envelope_bytes end
        (edge_of S.told K.told K.wants_memory input.old input.new out.old out.new)) }
    ensures kept { KeepsEdge envelope_bytes (end_of result)
        (edge_of S.told K.told K.wants_memory input.old input.new out.old out.new) }
{
    match read_source(alloc, input) {
        Ok(reader) => Ok(reader),
        Err(ReadError::Failed) => Err(refuse(out, End::ReadFault, READ_FAULT_LINE)),
        Err(ReadError::TooLong) => Err(refuse(out, End::TooLong, TOO_LONG_LINE)),
        Err(ReadError::Memory) => Err(End::Memory),
    }
}

/// Writes a text whole.
pub fn write_text<K: Sink>(out: &mut K, text: &[u8]) -> End
    ensures ends { EndsWriting text.now result (K.told out.old) (K.told out.new) }
    ensures kept { KeepsOutput K.wants_memory result (side_of K.told out.old) (side_of K.told out.new) }
{
    match write_all(out, text) {
        Ok(()) => End::Done,
        Err(SinkError::Failed) => End::WriteFault,
        Err(SinkError::Memory) => End::Memory,
    }
}
