//! The command `policy`: reads an assertion of reliable messaging, and prints what it says.
ghost use Rattle.rm_base.specs.Limits.{envelope_bytes};
ghost use Rattle.rm_command.specs.Edge.{edge_of, KeepsEdge};
ghost use Rattle.rm_command.specs.Policy.{EndsPolicy};

use crate::end::{End, refuse};
use crate::filter::{NoText, read_input, write_text};
use crate::policy_text::text_of;
use rm_base::limits::ENVELOPE_BYTES;
use rm_base::{Sink, Source};
use std::alloc::Global;

/// Reads an assertion, and prints what it says.
/// - `ends`: at 0 the bytes, at most 2097152, are an assertion, and what was written is `policy_text` of it; at 9 the
///   fault that is named is their first: no UTF-8, no document, a malformed element, security that is asked for.
pub fn policy<S: Source, K: Sink>(alloc: Global, input: &mut S, out: &mut K) -> End
    ensures ends { EndsPolicy result (edge_of S.told K.told K.wants_memory input.old input.new out.old out.new) }
    ensures kept { KeepsEdge envelope_bytes result
        (edge_of S.told K.told K.wants_memory input.old input.new out.old out.new) }
{
    let bytes = match read_input(alloc, input, out, ENVELOPE_BYTES) {
        Ok(bytes) => bytes,
        Err(end) => return end,
    };
    match text_of(alloc, bytes.as_slice()) {
        Ok(text) => write_text(out, text.as_slice()),
        Err(NoText::Faulty(fault)) => refuse(out, End::Refused { fault }, fault.line()),
        Err(NoText::Memory) => End::Memory,
    }
}
