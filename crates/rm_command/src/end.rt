//! How a run ends: its status, and the line of a refusal.
ghost use Rattle.std.specs.Prelude.{◌≡◌, ◌⊎◌, IfOk};
ghost use Rattle.rm_base.specs.Outside.{Lasts};
ghost use Rattle.rm_command.specs.Edge.{side_of, WasSaid, KeepsOutput};
ghost use Rattle.rm_command.specs.Status.{status_of};
ghost use Rattle.rm_command.specs.Texts.{line_of};

use rm_base::{Blob, Memory, Sink, push_decimal, write_all};
use rm_script::report::exits;
use std::alloc::Global;

/// What keeps bytes from being a message, an assertion, or a policy within the limits.
#[derive(Clone, Copy, Debug, PartialEq, Eq)]
pub enum Fault {
    NotUtf8,
    NotProfile,
    WrongVersion,
    NotEnvelope,
    NotUnderstood,
    Cardinality,
    HeaderMissing,
    BadHeader,
    Malformed,
    Rollover,
    SecurityUnsupported,
    TooLarge,
    TooManyTerms,
    TooManyAlternatives,
}

/// How a run ends.
#[derive(Clone, Copy, Debug, PartialEq, Eq)]
pub enum End {
    /// What was asked for was done, and what it prints was written.
    Done,
    /// The words are no command.
    Usage,
    /// A line of the script is not in the grammar.
    BadLine { line: u64 },
    /// A read failed.
    ReadFault,
    /// A write failed.
    WriteFault,
    /// The input has more bytes than the command takes.
    TooLong,
    /// The input is not what the command reads.
    Refused { fault: Fault },
    /// Memory ran out.
    Memory,
}

impl End {
    /// The exit status.
    pub fn status(self) -> u8
        ensures { result ≡ status_of self }
    {
        match self {
            End::Done => exits::DONE,
            End::Usage => exits::USAGE,
            End::BadLine { .. } => exits::BAD_LINE,
            End::ReadFault => exits::READ_FAULT,
            End::WriteFault => exits::WRITE_FAULT,
            End::TooLong => exits::TOO_LONG,
            End::Refused { .. } => exits::REFUSED,
            End::Memory => exits::MEMORY,
        }
    }
}

impl Fault {
    /// The line that is printed where bytes are refused for it.
    pub fn line(self) -> &'static [u8]
        ensures { result.now ≡ line_of (End.Refused self) }
    {
        match self {
            Fault::NotUtf8 => b"fault NotUtf8\n",
            Fault::NotProfile => b"fault NotProfile\n",
            Fault::WrongVersion => b"fault WrongVersion\n",
            Fault::NotEnvelope => b"fault NotEnvelope\n",
            Fault::NotUnderstood => b"fault NotUnderstood\n",
            Fault::Cardinality => b"fault Cardinality\n",
            Fault::HeaderMissing => b"fault HeaderMissing\n",
            Fault::BadHeader => b"fault BadHeader\n",
            Fault::Malformed => b"fault Malformed\n",
            Fault::Rollover => b"fault Rollover\n",
            Fault::SecurityUnsupported => b"fault SecurityUnsupported\n",
            Fault::TooLarge => b"fault TooLarge\n",
            Fault::TooManyTerms => b"fault TooManyTerms\n",
            Fault::TooManyAlternatives => b"fault TooManyAlternatives\n",
        }
    }
}

/// Refuses a script for its first bad line. Want of memory for the text is answered in its place, with nothing written.
pub fn refuse_line<K: Sink>(alloc: Global, out: &mut K, line: u64) -> End
    ensures said { ((result ≡ End.BadLine line)
        × WasSaid K.wants_memory (K.told out.old) (K.told out.new) (line_of (End.BadLine line)))
        ⊎ ((result ≡ End.Memory) × (out.new ≡ out.old)) }
    ensures kept { KeepsOutput K.wants_memory result (side_of K.told out.old) (side_of K.told out.new) }
{
    match bad_line(alloc, line) {
        Ok(text) => refuse(out, End::BadLine { line }, text.as_slice()),
        Err(Memory) => End::Memory,
    }
}

// The line that is printed where a line of the script is refused.
fn bad_line(alloc: Global, line: u64) -> Result<Blob, Memory>
    ensures { IfOk result (λ text. text ≡ line_of (End.BadLine line)) }
{
    let mut text = Blob::from_slice(alloc, b"bad line ")?;
    push_decimal(&mut text, line)?;
    text.push_all(b"\n")?;
    Ok(text)
}

/// Writes the line of a refusal, and answers the refusal: a write that fails leaves it as it is.
pub fn refuse<K: Sink>(out: &mut K, refusal: End, line: &[u8]) -> End
    ensures same { result ≡ refusal }
    ensures said { WasSaid K.wants_memory (K.told out.old) (K.told out.new) line.now }
    ensures lasts { Lasts (K.told out.old) (K.told out.new) }
{
    let _ = write_all(out, line);
    refusal
}
