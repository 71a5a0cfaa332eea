//! What a node knows, as text.
ghost use Rattle.std.specs.Prelude.{◌≡◌, ◌++◌, codes, decimal, IfOk, length, OnOk, Some};
ghost use Rattle.record_batch.specs.Sequences.Makers.{makers};
ghost use Rattle.node_tables.specs.Reads.{address_in, incoming_in, outgoing_in};
ghost use Rattle.rm_host.specs.Shown.{address_text, in_line, node_line, out_line, sequence_line, sequence_lines};
ghost use Rattle.rm_host.specs.Shown.{shown_text};

use node_tables::Tables;
use rm_base::{Blob, Memory, push_decimal};
use rm_node::Node;
use rm_script::report::{push_receiving, push_sending};
use rm_sides::destination::Incoming;
use rm_sides::source::Outgoing;
use std::alloc::Global;

/// A line of a node, with its number, its address and how many entries its journal has, and a line of each of its
/// sequences, as they stand at a moment.
pub fn node_text(alloc: Global, node: &Node, now: u64) -> Result<Blob, Memory>
    ensures { IfOk result (λ text. text
        ≡ shown_text node.now.stored.records (length node.now.stored.journal.gates) now) }
{
    let mut text = Blob::new(alloc);
    push_node(&mut text, node.tables(), node.entries())?;
    push_sequences(&mut text, node.tables(), now)?;
    Ok(text)
}

// Appends the number and the address of a node, and how many entries its journal has.
fn push_node(text: &mut Blob, tables: &Tables, entries: u64) -> Result<(), Memory>
    ensures { OnOk result (text.new ≡ text.old ++ node_line tables.now.records entries) }
{
    text.push_all(b"node ")?;
    push_decimal(text, tables.number())?;
    text.push_all(b" ")?;
    push_address(text, tables)?;
    text.push_all(b" entries ")?;
    push_decimal(text, entries)?;
    text.push_all(b"\n")
}

// Appends the address of a node, where it has one.
fn push_address(text: &mut Blob, tables: &Tables) -> Result<(), Memory>
    ensures { OnOk result (text.new ≡ text.old ++ address_text (address_in tables.now.records)) }
{
    match tables.address() {
        Some(address) => text.push_all(address.as_slice()),
        None => Ok(()),
    }
}

// Appends the lines of all sequences.
fn push_sequences(text: &mut Blob, tables: &Tables, now: u64) -> Result<(), Memory>
    ensures { OnOk result (text.new
        ≡ text.old ++ sequence_lines tables.now.records now (length (makers tables.now.records))) }
{
    for before in 0..tables.len() {
        push_sequence(text, tables, before + 1, now)?;
    }
    Ok(())
}

// Appends the line of a sequence: its number, and what is known of it in the words of a report.
fn push_sequence(text: &mut Blob, tables: &Tables, seq: u32, now: u64) -> Result<(), Memory>
    ensures { OnOk result (text.new ≡ text.old ++ sequence_line tables.now.records now seq) }
{
    push_outgoing(text, tables, seq)?;
    push_incoming(text, tables, seq, now)
}

// Appends what is known of the side that sends, where there is one.
fn push_outgoing(text: &mut Blob, tables: &Tables, seq: u32) -> Result<(), Memory>
    ensures { OnOk result (text.new ≡ text.old ++ out_line seq (outgoing_in tables.now.records seq)) }
{
    match tables.outgoing(seq) {
        Some(outgoing) => push_out(text, seq, outgoing),
        None => Ok(()),
    }
}

// Appends what is known of the side that receives, where there is one.
fn push_incoming(text: &mut Blob, tables: &Tables, seq: u32, now: u64) -> Result<(), Memory>
    ensures { OnOk result (text.new ≡ text.old ++ in_line seq now (incoming_in tables.now.records seq)) }
{
    match tables.incoming(seq) {
        Some(incoming) => push_in(text, seq, incoming, now),
        None => Ok(()),
    }
}

fn push_out(text: &mut Blob, seq: u32, outgoing: &Outgoing) -> Result<(), Memory>
    ensures { OnOk result (text.new ≡ text.old ++ out_line seq (Some outgoing.now.facts)) }
{
    push_place(text, b"out ", seq)?;
    push_sending(
        text,
        outgoing.phase(),
        outgoing.accepted_len(),
        outgoing.acked().ranges(),
    )
}

fn push_in(text: &mut Blob, seq: u32, incoming: &Incoming, now: u64) -> Result<(), Memory>
    ensures { OnOk result (text.new ≡ text.old ++ in_line seq now (Some incoming.now.facts)) }
{
    push_place(text, b"in ", seq)?;
    push_receiving(
        text,
        incoming.phase(now),
        incoming.behaviour(),
        incoming.received().ranges(),
        incoming.inbox_len(),
        incoming.discarded_len(),
    )
}

fn push_place(text: &mut Blob, side: &[u8], seq: u32) -> Result<(), Memory>
    ensures { OnOk result (text.new ≡ text.old ++ side.now ++ decimal seq ++ codes " ") }
{
    text.push_all(side)?;
    push_decimal(text, u64::from(seq))?;
    text.push_all(b" ")
}
