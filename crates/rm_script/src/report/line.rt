//! The lines of a report that answer the lines of its script.
ghost use Rattle.std.specs.Prelude.{◌≡◌, ◌++◌, codes, decimal, OnOk};
ghost use Rattle.rm_script.specs.Report.Report.{line_text, lines_text, outcome_text};

use crate::report::names::reason_name;
use rm_base::{Blob, Memory, push_decimal};
use rm_message::FaultKind;

/// Why a node refuses a call.
#[derive(Clone, Copy, Debug, PartialEq, Eq)]
pub enum Reason {
    UnknownSequence,
    WrongSide,
    PayloadTooLong,
    BadPayload,
    NotOpen,
    WindowFull,
    NodeFull,
    Rollover,
    TooManySequences,
    StoreFull,
    PastInbox,
}

/// How a line of a script came out.
#[derive(Clone, Copy, Debug, PartialEq, Eq)]
pub enum Outcome {
    /// There is no packet with this number.
    NoPacket,
    /// The bytes spell a message, and so are no noise.
    NoNoise,
    /// The node is down.
    Down,
    /// The node has no sequence with this number.
    NoSequence,
    /// The node refused the call.
    Refused { reason: Reason },
    /// The node's disk failed.
    Disk,
    /// The node answered with a fault.
    Fault { kind: FaultKind },
    Done,
}

/// The answer to one line of a script: its number, how it came out, and then how many entries the journals of both
/// nodes have, and how many packets there are.
#[derive(Clone, Copy, Debug, PartialEq, Eq)]
pub struct Line {
    pub number: u64,
    pub outcome: Outcome,
    pub entries_one: u64,
    pub entries_two: u64,
    pub packets: u64,
}

/// Appends lines, one after another. A line has its number, the outcome with its name, how many entries each node has,
/// and how many packets there are.
pub fn push_lines(out: &mut Blob, lines: &[Line]) -> Result<(), Memory>
    ensures { OnOk result (out.new ≡ out.old ++ lines_text lines.now) }
{
    for line in lines {
        push_line(out, line)?;
    }
    Ok(())
}

// Appends one line.
fn push_line(out: &mut Blob, line: &Line) -> Result<(), Memory>
    ensures { OnOk result (out.new ≡ out.old ++ line_text line.now) }
{
    push_decimal(out, line.number)?;
    out.push_all(b" ")?;
    push_outcome(out, line.outcome)?;
    push_count(out, line.entries_one)?;
    push_count(out, line.entries_two)?;
    push_count(out, line.packets)?;
    out.push_all(b"\n")
}

/// Appends a space and a number.
pub fn push_count(out: &mut Blob, count: u64) -> Result<(), Memory>
    ensures { OnOk result (out.new ≡ out.old ++ (codes " " ++ decimal count)) }
{
    out.push_all(b" ")?;
    push_decimal(out, count)
}

/// Appends how a line came out.
pub fn push_outcome(out: &mut Blob, outcome: Outcome) -> Result<(), Memory>
    ensures { OnOk result (out.new ≡ out.old ++ outcome_text outcome) }
{
    match outcome {
        Outcome::NoPacket => out.push_all(b"no-packet"),
        Outcome::NoNoise => out.push_all(b"no-noise"),
        Outcome::Down => out.push_all(b"down"),
        Outcome::NoSequence => out.push_all(b"no-sequence"),
        Outcome::Refused { reason } => {
            out.push_all(b"refused ")?;
            out.push_all(reason_name(reason))
        }
        Outcome::Disk => out.push_all(b"disk"),
        Outcome::Fault { kind } => {
            out.push_all(b"fault ")?;
            out.push_all(kind.name())
        }
        Outcome::Done => out.push_all(b"ok"),
    }
}
