//! The command `check`: reads a message, and prints what it says.
ghost use Rattle.rm_base.specs.Limits.{envelope_bytes};
ghost use Rattle.rm_command.specs.Check.{EndsCheck};
ghost use Rattle.rm_command.specs.Edge.{edge_of, KeepsEdge};

use crate::check_text::text_of;
use crate::end::{End, refuse};
use crate::filter::{NoText, read_pieces, write_text};
use rm_base::{Sink, Source};
use std::alloc::Global;

/// Reads a message, and prints what it says.
/// - `ends`: at 0 the bytes, at most 2097152, spell a message, and what was written is `message_lines` of it; at 9 the
///   fault that is named is the kind of their first refusal.
pub fn check<S: Source, K: Sink>(alloc: Global, input: &mut S, out: &mut K) -> End
    ensures ends { EndsCheck result (edge_of S.told K.told K.wants_memory input.old input.new out.old out.new) }
    ensures kept { KeepsEdge envelope_bytes result
        (edge_of S.told K.told K.wants_memory input.old input.new out.old out.new) }
{
    let reader = match read_pieces(alloc, input, out) {
        Ok(reader) => reader,
        Err(end) => return end,
    };
    match text_of(alloc, reader.finish()) {
        Ok(text) => write_text(out, text.as_slice()),
        Err(NoText::Faulty(fault)) => refuse(out, End::Refused { fault }, fault.line()),
        Err(NoText::Memory) => End::Memory,
    }
}
