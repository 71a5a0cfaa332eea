//! The lines of a report behind the last line of its script: what the nodes know.
ghost use Rattle.std.specs.Prelude.{◌≡◌, ◌++◌, OnOk};
ghost use Rattle.rm_script.specs.Report.Report.{out_text, in_text, counts_text, item_text, down_text, place_text};
ghost use Rattle.rm_script.specs.Report.Report.{ranges_text};
ghost use Rattle.rm_script.specs.Report.Report.{consumed_text, receiving_text, sending_text};

use crate::report::names::{behaviour_name, in_phase_name, out_phase_name};
use rm_base::{Behaviour, Blob, Memory, push_decimal, push_hex};
use rm_sides::destination::InPhase;
use rm_sides::ranges::Range;
use rm_sides::source::OutPhase;

/// The number of a node, and the place of a sequence among those of the node, counted from 1.
#[derive(Clone, Copy, Debug, PartialEq, Eq)]
pub struct Place {
    pub node: u64,
    pub seq: u64,
}

/// Appends what a node knows of an outgoing sequence: its phase, how many payloads it accepted, and which numbers are
/// acknowledged.
pub fn push_out(
    out: &mut Blob,
    place: Place,
    phase: OutPhase,
    accepted: u64,
    acked: &[Range],
) -> Result<(), Memory>
    ensures { OnOk result (out.new ≡ out.old ++ out_text place phase accepted acked.now) }
{
    out.push_all(b"out ")?;
    push_place(out, place)?;
    out.push_all(b" ")?;
    push_sending(out, phase, accepted, acked)
}

/// Appends what is known of an outgoing sequence, without its place.
pub fn push_sending(
    out: &mut Blob,
    phase: OutPhase,
    accepted: u64,
    acked: &[Range],
) -> Result<(), Memory>
    ensures { OnOk result (out.new ≡ out.old ++ sending_text phase accepted acked.now) }
{
    out.push_all(out_phase_name(phase))?;
    out.push_all(b" accepted ")?;
    push_decimal(out, accepted)?;
    out.push_all(b" acked ")?;
    push_ranges(out, acked)?;
    out.push_all(b"\n")
}

/// Appends what a node knows of an incoming sequence: its phase and behaviour, which numbers were received, and how
/// many payloads are in the inbox, and how many discarded.
pub fn push_in(
    out: &mut Blob,
    place: Place,
    phase: InPhase,
    behaviour: Behaviour,
    received: &[Range],
    inbox: u64,
    discarded: u64,
) -> Result<(), Memory>
    ensures { OnOk result (out.new ≡ out.old ++ in_text place phase behaviour received.now inbox discarded) }
{
    out.push_all(b"in ")?;
    push_place(out, place)?;
    out.push_all(b" ")?;
    push_receiving(out, phase, behaviour, received, inbox, discarded)
}

/// Appends what is known of an incoming sequence, without its place.
pub fn push_receiving(
    out: &mut Blob,
    phase: InPhase,
    behaviour: Behaviour,
    received: &[Range],
    inbox: u64,
    discarded: u64,
) -> Result<(), Memory>
    ensures { OnOk result (out.new
        ≡ out.old ++ receiving_text phase behaviour received.now inbox discarded) }
{
    out.push_all(in_phase_name(phase))?;
    out.push_all(b" ")?;
    out.push_all(behaviour_name(behaviour))?;
    out.push_all(b" received ")?;
    push_ranges(out, received)?;
    push_counts(out, inbox, discarded)?;
    out.push_all(b"\n")
}

fn push_counts(out: &mut Blob, inbox: u64, discarded: u64) -> Result<(), Memory>
    ensures { OnOk result (out.new ≡ out.old ++ counts_text inbox discarded) }
{
    out.push_all(b" inbox ")?;
    push_decimal(out, inbox)?;
    out.push_all(b" discarded ")?;
    push_decimal(out, discarded)
}

/// Appends how many items of an inbox the application consumed, where it consumed any.
pub fn push_consumed(out: &mut Blob, place: Place, cursor: u64) -> Result<(), Memory>
    ensures { OnOk result (out.new ≡ out.old ++ consumed_text place cursor) }
{
    if cursor == 0 {
        return Ok(());
    }
    out.push_all(b"consumed ")?;
    push_place(out, place)?;
    out.push_all(b" ")?;
    push_decimal(out, cursor)?;
    out.push_all(b"\n")
}

/// Appends the line of a payload in the inbox: its number, counted from 1, and its bytes in hexadecimal.
pub fn push_item(out: &mut Blob, place: Place, number: u64, bytes: &[u8]) -> Result<(), Memory>
    ensures { OnOk result (out.new ≡ out.old ++ item_text place number bytes.now) }
{
    out.push_all(b"item ")?;
    push_place(out, place)?;
    out.push_all(b" ")?;
    push_decimal(out, number)?;
    out.push_all(b" ")?;
    push_hex(out, bytes)?;
    out.push_all(b"\n")
}

/// Appends that the node with a number is down, in place of what it knows.
pub fn push_down(out: &mut Blob, node: u64) -> Result<(), Memory>
    ensures { OnOk result (out.new ≡ out.old ++ down_text node) }
{
    out.push_all(b"down ")?;
    push_decimal(out, node)?;
    out.push_all(b"\n")
}

fn push_place(out: &mut Blob, place: Place) -> Result<(), Memory>
    ensures { OnOk result (out.new ≡ out.old ++ place_text place) }
{
    push_decimal(out, place.node)?;
    out.push_all(b" ")?;
    push_decimal(out, place.seq)
}

/// Appends ranges, such as `1-3,5-5`, and `-` where there are none.
pub fn push_ranges(out: &mut Blob, ranges: &[Range]) -> Result<(), Memory>
    ensures { OnOk result (out.new ≡ out.old ++ ranges_text ranges.now) }
{
    match ranges {
        [] => out.push_all(b"-"),
        _ => crate::message_lines::push_ranges(out, ranges),
    }
}
