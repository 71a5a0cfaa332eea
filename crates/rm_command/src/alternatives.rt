//! The commands `normal` and `intersect`: the normal form of a policy, and what two policies have in common.
ghost use Rattle.std.specs.Prelude.{◌≡◌, ◌≤◌, length, IfOk, Err, Ok, Some};
ghost use Rattle.rm_base.specs.Limits.{envelope_bytes};
ghost use Rattle.rm_command.specs.Alternatives.{
  fault_for,
  EndsIntersect,
  EndsNormal,
  HasFaultFound,
  MayCome,
};
ghost use Rattle.rm_command.specs.Edge.{edge_of, side_of, KeepsEdge, KeepsOutput};
ghost use Rattle.rm_command.specs.Filter.{EndsWriting};
ghost use Rattle.rm_command.specs.declared.end.Fault.{Fault as AFault};
ghost use Rattle.rm_policy.specs.Alternatives.Finds.{FindsCommon, FindsNormal};
ghost use Rattle.rm_policy.specs.Alternatives.Texts.{normal_text};

use crate::end::{End, Fault, refuse};
use crate::filter::{NoText, read_input};
use rm_base::limits::ENVELOPE_BYTES;
use rm_base::{Memory, Sink, SinkError, Source};
use rm_policy::alternatives::{
    Alternatives, WspError, find_common, find_normal, pieces_of, write_pieces,
};
use soap_document::profile::EnvelopeError;
use std::alloc::Global;

/// Reads a policy, and prints its normal form.
/// - `ends`: at 0 the bytes, at most 2097152, are a policy within the limits, and what was written is the text of the
///   rising list of exactly the sets of assertions that it admits; at 9 the fault that is named is their first.
pub fn normal<S: Source, K: Sink>(alloc: Global, input: &mut S, out: &mut K) -> End
    ensures ends { EndsNormal result (edge_of S.told K.told K.wants_memory input.old input.new out.old out.new) }
    ensures kept { KeepsEdge envelope_bytes result
        (edge_of S.told K.told K.wants_memory input.old input.new out.old out.new) }
{
    let bytes = match read_input(alloc, input, out, ENVELOPE_BYTES) {
        Ok(bytes) => bytes,
        Err(end) => return end,
    };
    match normal_of(alloc, bytes.as_slice()) {
        Ok(found) => print(alloc, out, &found),
        Err(NoText::Faulty(fault)) => refuse(out, End::Refused { fault }, fault.line()),
        Err(NoText::Memory) => End::Memory,
    }
}

/// Reads a pair of policies, and prints what both have in common.
/// - `ends`: at 0 the bytes are a pair of policies within the limits, and what was written is the text of exactly the
///   unions of compatible alternatives of both; at 9 the fault that is named is the first, where the first policy comes
///   before the second, and what they have in common after both.
pub fn intersect<S: Source, K: Sink>(alloc: Global, input: &mut S, out: &mut K) -> End
    ensures ends { EndsIntersect result (edge_of S.told K.told K.wants_memory input.old input.new out.old out.new) }
    ensures kept { KeepsEdge envelope_bytes result
        (edge_of S.told K.told K.wants_memory input.old input.new out.old out.new) }
{
    let bytes = match read_input(alloc, input, out, ENVELOPE_BYTES) {
        Ok(bytes) => bytes,
        Err(end) => return end,
    };
    match common_of(alloc, bytes.as_slice()) {
        Ok(found) => print(alloc, out, &found),
        Err(NoText::Faulty(fault)) => refuse(out, End::Refused { fault }, fault.line()),
        Err(NoText::Memory) => End::Memory,
    }
}

fn normal_of(alloc: Global, bytes: &[u8]) -> Result<Alternatives, NoText>
    requires { length bytes.now ≤ envelope_bytes }
    ensures found { IfOk result (λ lists. FindsNormal bytes.now (Ok lists)) }
    ensures faulty { (fault : AFault) → result ≡ Err (NoText.Faulty fault) → HasFaultFound FindsNormal bytes.now fault }
{
    match find_normal(alloc, bytes) {
        Ok(found) => Ok(found),
        Err(error) => Err(reason_of(&error)),
    }
}

fn common_of(alloc: Global, bytes: &[u8]) -> Result<Alternatives, NoText>
    requires { length bytes.now ≤ envelope_bytes }
    ensures found { IfOk result (λ lists. FindsCommon bytes.now (Ok lists)) }
    ensures faulty { (fault : AFault) → result ≡ Err (NoText.Faulty fault) → HasFaultFound FindsCommon bytes.now fault }
{
    match find_common(alloc, bytes) {
        Ok(found) => Ok(found),
        Err(error) => Err(reason_of(&error)),
    }
}

// Why there are no alternatives, where the bytes were not too many.
fn reason_of(error: &WspError) -> NoText
    requires { MayCome error.now }
    ensures { (fault : AFault) → result ≡ NoText.Faulty fault → fault_for error.now ≡ Some fault }
{
    match error {
        WspError::Memory => NoText::Memory,
        WspError::Envelope(EnvelopeError::NotUtf8 { .. }) => NoText::Faulty(Fault::NotUtf8),
        WspError::Envelope(EnvelopeError::NotProfile) => NoText::Faulty(Fault::NotProfile),
        WspError::Envelope(_) => unreachable!(),
        WspError::Malformed => NoText::Faulty(Fault::Malformed),
        WspError::SecurityUnsupported { .. } => NoText::Faulty(Fault::SecurityUnsupported),
        WspError::TooLarge { .. } => NoText::Faulty(Fault::TooLarge),
        WspError::TooManyTerms { .. } => NoText::Faulty(Fault::TooManyTerms),
        WspError::TooManyAlternatives => NoText::Faulty(Fault::TooManyAlternatives),
    }
}

// Writes the text of alternatives, which may be far longer than the input, and is never held as a whole.
fn print<K: Sink>(alloc: Global, out: &mut K, found: &Alternatives) -> End
    ensures ends { EndsWriting (normal_text found.now) result (K.told out.old) (K.told out.new) }
    ensures kept { KeepsOutput K.wants_memory result (side_of K.told out.old) (side_of K.told out.new) }
{
    let pieces = match pieces_of(alloc, found) {
        Ok(pieces) => pieces,
        Err(Memory) => return End::Memory,
    };
    match write_pieces(out, pieces.as_slice()) {
        Ok(()) => End::Done,
        Err(SinkError::Failed) => End::WriteFault,
        Err(SinkError::Memory) => End::Memory,
    }
}
