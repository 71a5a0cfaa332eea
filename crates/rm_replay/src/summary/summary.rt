//! What a node knows, as text.
ghost use Rattle.std.specs.Prelude.{◌≡◌, ◌<◌, ◌≤◌, ◌++◌, [], length, OnOk};
ghost use Rattle.std.specs.Option.{option_copied};
ghost use Rattle.rm_sides.specs.Destination.Incoming.{discarded, held, inbox, phase_of};
ghost use Rattle.rm_sides.specs.Destination.Messages.{ranges_onto};
ghost use Rattle.rm_script.specs.Report.Report.{consumed_text, in_text, out_text};
ghost use Rattle.rm_sides.specs.Source.Outgoing.{accepted_count};
ghost use Rattle.record_batch.specs.Sequences.Makers.{makers};
ghost use Rattle.rm_replay.specs.Summary.Summary.{items_text, node_text, sequence_text, there_text};

use node_tables::Tables;
use node_tables::laws::{an_incoming_sequence_is_as_recorded, an_outgoing_sequence_is_as_recorded};
use rm_base::{Blob, Memory, Payload};
use rm_script::report::{Place, push_consumed, push_in, push_item, push_out};
use rm_sides::destination::Incoming;
use rm_sides::source::Outgoing;

/// Appends what the node with a number knows of each of its sequences, at a moment. It prints of each sequence, of its
/// cursor, and of each payload of an inbox that isn't gone what the records say.
pub fn push_node(out: &mut Blob, node: u64, tables: &Tables, now: u64) -> Result<(), Memory>
    ensures { OnOk result (out.new ≡ out.old ++ node_text node tables.now.records now) }
{
    for before in 0..tables.len() {
        push_sequence(out, node, tables, before + 1, now)?;
    }
    Ok(())
}

/// Appends what a node knows of the sequence with a number.
fn push_sequence(
    out: &mut Blob,
    node: u64,
    tables: &Tables,
    seq: u32,
    now: u64,
) -> Result<(), Memory>
    requires from_one { 0 < seq }
    requires within { seq ≤ length (makers tables.now.records) }
    ensures { OnOk result (out.new ≡ out.old ++ sequence_text node tables.now.records now seq) }
{
    an_outgoing_sequence_is_as_recorded();
    an_incoming_sequence_is_as_recorded();
    let place = Place {
        node,
        seq: seq as u64,
    };
    if let Some(outgoing) = tables.outgoing(seq) {
        return push_outgoing(out, place, outgoing);
    }
    match tables.incoming(seq) {
        Some(incoming) => push_incoming(out, place, incoming, now),
        None => unreachable!(),
    }
}

/// Appends what is known of a sequence that sends.
fn push_outgoing(out: &mut Blob, place: Place, outgoing: &Outgoing) -> Result<(), Memory>
    ensures { OnOk result (out.new
        ≡ out.old
        ++ out_text place outgoing.now.facts.phase (accepted_count outgoing.now.facts) outgoing.now.facts.acked) }
{
    push_out(
        out,
        place,
        outgoing.phase(),
        outgoing.accepted_len(),
        outgoing.acked().ranges(),
    )
}

/// Appends what is known of a sequence that receives, at a moment.
fn push_incoming(out: &mut Blob, place: Place, incoming: &Incoming, now: u64) -> Result<(), Memory>
    ensures { OnOk result (out.new
        ≡ out.old
        ++ (in_text place (phase_of incoming.now.facts now) incoming.now.facts.behaviour
        (ranges_onto [] (held incoming.now.facts)) (length (inbox incoming.now.facts))
        (length (discarded incoming.now.facts))
        ++ (consumed_text place incoming.now.facts.cursor ++ items_text place 0 (inbox incoming.now.facts)))) }
{
    push_known(out, place, incoming, now)?;
    push_consumed(out, place, incoming.consumed())?;
    push_items(out, place, incoming)
}

/// Appends the line of a sequence that receives.
fn push_known(out: &mut Blob, place: Place, incoming: &Incoming, now: u64) -> Result<(), Memory>
    ensures { OnOk result (out.new
        ≡ out.old
        ++ in_text place (phase_of incoming.now.facts now) incoming.now.facts.behaviour
        (ranges_onto [] (held incoming.now.facts)) (length (inbox incoming.now.facts))
        (length (discarded incoming.now.facts))) }
{
    push_in(
        out,
        place,
        incoming.phase(now),
        incoming.behaviour(),
        incoming.received().ranges(),
        incoming.inbox_len(),
        incoming.discarded_len(),
    )
}

/// Appends the payloads of an inbox that aren't gone.
fn push_items(out: &mut Blob, place: Place, incoming: &Incoming) -> Result<(), Memory>
    ensures { OnOk result (out.new ≡ out.old ++ items_text place 0 (inbox incoming.now.facts)) }
{
    for before in incoming.gone()..incoming.inbox_len() {
        push_there(out, place, before + 1, incoming.inbox_item(before + 1))?;
    }
    Ok(())
}

/// Appends the payload of an item, where it isn't gone.
fn push_there(
    out: &mut Blob,
    place: Place,
    number: u64,
    item: Option<&Payload>,
) -> Result<(), Memory>
    ensures { OnOk result (out.new ≡ out.old ++ there_text place number (option_copied item.entry)) }
{
    match item {
        Some(payload) => push_item(out, place, number, payload.bytes.as_slice()),
        None => Ok(()),
    }
}
