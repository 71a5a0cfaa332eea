//! The lines of a relay's report that answer the lines of its script.
ghost use Rattle.std.specs.Prelude.{◌≡◌, ◌++◌, OnOk};
ghost use Rattle.rm_relay.specs.Report.{counts_text, ending_text, line_text};

use rm_base::{Blob, Memory, push_decimal};
use rm_script::report::Outcome;
use rm_script::report::line::{push_count, push_outcome};

/// How a line of a relay's script came out.
#[derive(Clone, Copy, Debug, PartialEq, Eq)]
pub enum Ending {
    /// The inbox has no item to forward.
    Idle,
    Came(Outcome),
}

/// The answer to one line of a script: its number, how it came out, and then how many entries the journals of the nodes
/// have, and how many packets there are.
#[derive(Clone, Copy, Debug, PartialEq, Eq)]
pub struct Line3 {
    pub number: u64,
    pub ending: Ending,
    pub entries_one: u64,
    pub entries_two: u64,
    pub entries_three: u64,
    pub packets: u64,
}

/// Appends a line.
pub(crate) fn push_line(out: &mut Blob, line: &Line3) -> Result<(), Memory>
    ensures { OnOk result (out.new ≡ out.old ++ line_text line.now) }
{
    push_decimal(out, line.number)?;
    out.push_all(b" ")?;
    push_ending(out, line.ending)?;
    push_counts(out, line)
}

// Appends what a line counts.
fn push_counts(out: &mut Blob, line: &Line3) -> Result<(), Memory>
    ensures { OnOk result (out.new ≡ out.old ++ counts_text line.now) }
{
    push_count(out, line.entries_one)?;
    push_count(out, line.entries_two)?;
    push_count(out, line.entries_three)?;
    push_count(out, line.packets)?;
    out.push_all(b"\n")
}

fn push_ending(out: &mut Blob, ending: Ending) -> Result<(), Memory>
    ensures { OnOk result (out.new ≡ out.old ++ ending_text ending) }
{
    match ending {
        Ending::Idle => out.push_all(b"idle"),
        Ending::Came(outcome) => push_outcome(out, outcome),
    }
}
