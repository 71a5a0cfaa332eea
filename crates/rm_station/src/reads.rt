//! What an application reads of a node that runs: items of its inboxes, and what is known of it. Nothing is done for
//! it.
ghost use Rattle.std.specs.Prelude.{◌≡◌, ◌≤◌, ◌+◌, ◌-◌, ◌++◌, ◌⊎◌, max, min, codes, Err, IfOk, length, Ok, OnOk, Some};
ghost use Rattle.std.specs.Option.{option_copied};
ghost use Rattle.record_batch.specs.Sequences.Makers.{makers};
ghost use Rattle.rm_host.specs.Sequences.{passed_lines};
ghost use Rattle.rm_host.specs.Shown.{shown_text};
ghost use Rattle.rm_sides.specs.Destination.Incoming.{inbox};
ghost use Rattle.rm_station.specs.Reads.{FetchedIsTheInbox, before_listed, count_in, count_name, count_text};
ghost use Rattle.rm_station.specs.Reads.{count_type, counts_text, entries_text, gone_line, inbox_line};
ghost use Rattle.rm_station.specs.Reads.{incoming_answer, item_text, list_text, next_text, none_line, there_text};
ghost use Rattle.rm_station.specs.Reads.{type_line, value_line, value_lines};

use node_laws::answers::Cause;
use node_tables::Tables;
use node_tables::laws::an_incoming_sequence_is_as_recorded;
use rm_base::{Blob, Memory, Payload, push_decimal};
use rm_host::End;
use rm_host::items::push_items;
use rm_host::show::node_text;
use rm_node::Node;
use rm_sides::destination::Incoming;
use std::alloc::Global;

/// A line for each item of the inbox of a sequence that was not consumed, from a number on, at most so many, and one of
/// how many items it has.
pub fn list(alloc: Global, node: &Node, seq: u32, from: u64, most: u64) -> Result<Blob, End>
    ensures { (result ≡ Err End.Memory)
        ⊎ (result ≡ incoming_answer (list_text seq from most) node.now.stored.records seq) }
{
    let tables = node.tables();
    if seq > tables.len() {
        return Err(End::Refused(Cause::NoSequence));
    }
    match tables.incoming(seq) {
        Some(incoming) => Ok(listed(alloc, seq, from, most, incoming)?),
        None => Err(End::Refused(Cause::WrongSide)),
    }
}

/// The item of the inbox of a sequence with a number.
pub fn fetch(alloc: Global, node: &Node, seq: u32, number: u64) -> Result<Blob, End>
    ensures { (result ≡ Err End.Memory)
        ⊎ (result ≡ incoming_answer (item_text seq number) node.now.stored.records seq) }
{
    let tables = node.tables();
    if seq > tables.len() {
        return Err(End::Refused(Cause::NoSequence));
    }
    match tables.incoming(seq) {
        Some(incoming) => Ok(item(alloc, seq, number, incoming)?),
        None => Err(End::Refused(Cause::WrongSide)),
    }
}

/// The first item of the inbox of a sequence that was not consumed.
pub fn fetch_next(alloc: Global, node: &Node, seq: u32) -> Result<Blob, End>
    ensures { (result ≡ Err End.Memory) ⊎ (result ≡ incoming_answer (next_text seq) node.now.stored.records seq) }
{
    let tables = node.tables();
    if seq > tables.len() {
        return Err(End::Refused(Cause::NoSequence));
    }
    match tables.incoming(seq) {
        Some(incoming) => Ok(next(alloc, seq, incoming)?),
        None => Err(End::Refused(Cause::WrongSide)),
    }
}

/// What a node knows, as text, at a moment.
pub fn show(alloc: Global, node: &Node, now: u64) -> Result<Blob, End>
    ensures { (result ≡ Err End.Memory)
        ⊎ (result ≡ Ok (shown_text node.now.stored.records (length node.now.stored.journal.gates) now)) }
{
    Ok(node_text(alloc, node, now)?)
}

/// Counts of each sequence, and how many entries the journal has, in the text form that Prometheus reads.
pub fn count(alloc: Global, node: &Node) -> Result<Blob, End>
    ensures { (result ≡ Err End.Memory)
        ⊎ (result ≡ Ok (counts_text node.now.stored.records (length node.now.stored.journal.gates))) }
{
    Ok(counts(alloc, node.tables(), node.entries())?)
}

/// A node that answers is well.
pub fn health(alloc: Global) -> Result<Blob, End>
    ensures { (result ≡ Err End.Memory) ⊎ (result ≡ Ok (codes "ok\n")) }
{
    Ok(Blob::from_slice(alloc, b"ok\n")?)
}

/// What is fetched, from the first item that was not consumed on, are the items of the inbox that the records have, in
/// order, and none else. The headline says that none of these is gone.
pub fn what_is_fetched_is_the_inbox()
    ensures { FetchedIsTheInbox }
{
    an_incoming_sequence_is_as_recorded();
}

// ---- a sequence that receives

fn listed(
    alloc: Global,
    seq: u32,
    from: u64,
    most: u64,
    incoming: &Incoming,
) -> Result<Blob, Memory>
    ensures { IfOk result (λ text. text ≡ list_text seq from most incoming.now.facts) }
{
    let mut text = Blob::new(alloc);
    push_listed(&mut text, seq, from, most, incoming)?;
    push_count(&mut text, seq, incoming.inbox_len())?;
    Ok(text)
}

// Appends the lines of the items that are listed.
fn push_listed(
    text: &mut Blob,
    seq: u32,
    from: u64,
    most: u64,
    incoming: &Incoming,
) -> Result<(), Memory>
    ensures { OnOk result (text.new ≡ text.old ++ passed_lines seq (before_listed from incoming.now.facts)
        (before_listed from incoming.now.facts + most) (inbox incoming.now.facts)) }
{
    let before = before(from, incoming.consumed());
    let upto = upto(before, most, incoming.inbox_len());
    push_items(text, seq, incoming, before, upto)
}

// Before the first item that is listed.
fn before(from: u64, cursor: u64) -> u64
    ensures { result ≡ max cursor (from - 1) }
{
    cursor.max(from.saturating_sub(1))
}

// The last item that is listed.
fn upto(before: u64, most: u64, have: u64) -> u64
    ensures { result ≡ min (before + most) have }
{
    before.saturating_add(most).min(have)
}

// Appends how many items an inbox has.
fn push_count(text: &mut Blob, seq: u32, count: u64) -> Result<(), Memory>
    ensures { OnOk result (text.new ≡ text.old ++ inbox_line seq count) }
{
    text.push_all(b"inbox ")?;
    push_decimal(text, u64::from(seq))?;
    text.push_all(b" ")?;
    push_decimal(text, count)?;
    text.push_all(b"\n")
}

fn item(alloc: Global, seq: u32, number: u64, incoming: &Incoming) -> Result<Blob, Memory>
    ensures { IfOk result (λ text. text ≡ item_text seq number incoming.now.facts) }
{
    if number <= incoming.consumed() {
        return gone(alloc, seq, number);
    }
    there(alloc, seq, number, incoming.inbox_item(number))
}

fn next(alloc: Global, seq: u32, incoming: &Incoming) -> Result<Blob, Memory>
    ensures { IfOk result (λ text. text ≡ next_text seq incoming.now.facts) }
{
    let cursor = incoming.consumed();
    if cursor >= incoming.inbox_len() {
        return none(alloc, seq);
    }
    item(alloc, seq, cursor + 1, incoming)
}

// An item that was not consumed, where it has come.
fn there(alloc: Global, seq: u32, number: u64, item: Option<&Payload>) -> Result<Blob, Memory>
    ensures { IfOk result (λ text. text ≡ there_text seq number (option_copied item.entry)) }
{
    match item {
        Some(payload) => given(alloc, seq, number, payload),
        None => none(alloc, seq),
    }
}

fn given(alloc: Global, seq: u32, number: u64, payload: &Payload) -> Result<Blob, Memory>
    ensures { IfOk result (λ text. text ≡ there_text seq number (Some payload.now)) }
{
    let mut text = Blob::from_slice(alloc, b"item ")?;
    push_decimal(&mut text, u64::from(seq))?;
    text.push_all(b" ")?;
    push_decimal(&mut text, number)?;
    text.push_all(b"\n")?;
    text.push_all(payload.bytes.as_slice())?;
    Ok(text)
}

fn none(alloc: Global, seq: u32) -> Result<Blob, Memory>
    ensures { IfOk result (λ text. text ≡ none_line seq) }
{
    let mut text = Blob::from_slice(alloc, b"none ")?;
    push_decimal(&mut text, u64::from(seq))?;
    text.push_all(b"\n")?;
    Ok(text)
}

fn gone(alloc: Global, seq: u32, number: u64) -> Result<Blob, Memory>
    ensures { IfOk result (λ text. text ≡ gone_line seq number) }
{
    let mut text = Blob::from_slice(alloc, b"gone ")?;
    push_decimal(&mut text, u64::from(seq))?;
    text.push_all(b" ")?;
    push_decimal(&mut text, number)?;
    text.push_all(b"\n")?;
    Ok(text)
}

// ---- all sequences

/// What is counted of a sequence: what was accepted to be sent, and acknowledged; what was received, what of it the
/// inbox has, and was consumed, and what is never released.
#[derive(Clone, Copy, Debug)]
pub enum Measure {
    Accepted,
    Acknowledged,
    Received,
    Released,
    Consumed,
    Discarded,
}

impl Measure {
    fn name(self) -> &'static [u8]
        ensures { result.now ≡ count_name self }
    {
        match self {
            Measure::Accepted => b"wsrm_accepted_messages_total",
            Measure::Acknowledged => b"wsrm_acknowledged_messages_total",
            Measure::Received => b"wsrm_received_messages_total",
            Measure::Released => b"wsrm_inbox_items_total",
            Measure::Consumed => b"wsrm_consumed_items_total",
            Measure::Discarded => b"wsrm_discarded_messages",
        }
    }

    fn kind(self) -> &'static [u8]
        ensures { result.now ≡ count_type self }
    {
        match self {
            Measure::Discarded => b"gauge",
            _ => b"counter",
        }
    }

    // Its value at a sequence, where the sequence has it.
    fn at(self, tables: &Tables, seq: u32) -> Option<u64>
        ensures { result ≡ count_in self tables.now.records seq }
    {
        match self {
            Measure::Accepted => Some(tables.outgoing(seq)?.accepted_len()),
            Measure::Acknowledged => Some(tables.outgoing(seq)?.acked().count()),
            Measure::Received => Some(tables.incoming(seq)?.received().count()),
            Measure::Released => Some(tables.incoming(seq)?.inbox_len()),
            Measure::Consumed => Some(tables.incoming(seq)?.consumed()),
            Measure::Discarded => Some(tables.incoming(seq)?.discarded_len()),
        }
    }
}

fn counts(alloc: Global, tables: &Tables, entries: u64) -> Result<Blob, Memory>
    ensures { IfOk result (λ text. text ≡ counts_text tables.now.records entries) }
{
    let mut text = Blob::new(alloc);
    push_counted(&mut text, tables, Measure::Accepted)?;
    push_counted(&mut text, tables, Measure::Acknowledged)?;
    push_counted(&mut text, tables, Measure::Received)?;
    push_counted(&mut text, tables, Measure::Released)?;
    push_counted(&mut text, tables, Measure::Consumed)?;
    push_counted(&mut text, tables, Measure::Discarded)?;
    push_entries(&mut text, entries)?;
    Ok(text)
}

// Appends a count: its type, and its value at each sequence.
fn push_counted(text: &mut Blob, tables: &Tables, count: Measure) -> Result<(), Memory>
    ensures { OnOk result (text.new ≡ text.old ++ count_text count tables.now.records) }
{
    push_type(text, count.name(), count.kind())?;
    push_values(text, tables, count)
}

fn push_type(text: &mut Blob, name: &[u8], kind: &[u8]) -> Result<(), Memory>
    ensures { OnOk result (text.new ≡ text.old ++ type_line name.now kind.now) }
{
    text.push_all(b"# TYPE ")?;
    text.push_all(name)?;
    text.push_all(b" ")?;
    text.push_all(kind)?;
    text.push_all(b"\n")
}

fn push_values(text: &mut Blob, tables: &Tables, count: Measure) -> Result<(), Memory>
    ensures { OnOk result (text.new
        ≡ text.old ++ value_lines count tables.now.records (length (makers tables.now.records))) }
{
    for before in 0..tables.len() {
        push_at(text, tables, count, before + 1)?;
    }
    Ok(())
}

fn push_at(text: &mut Blob, tables: &Tables, count: Measure, seq: u32) -> Result<(), Memory>
    ensures { OnOk result (text.new
        ≡ text.old ++ value_line (count_name count) seq (count_in count tables.now.records seq)) }
{
    let value = count.at(tables, seq);
    push_value(text, count.name(), u64::from(seq), value)
}

// Appends the value of a count at a sequence, where there is one.
fn push_value(text: &mut Blob, name: &[u8], seq: u64, value: Option<u64>) -> Result<(), Memory>
    ensures { OnOk result (text.new ≡ text.old ++ value_line name.now seq value) }
{
    match value {
        Some(value) => push_there(text, name, seq, value),
        None => Ok(()),
    }
}

fn push_there(text: &mut Blob, name: &[u8], seq: u64, value: u64) -> Result<(), Memory>
    ensures { OnOk result (text.new ≡ text.old ++ value_line name.now seq (Some value)) }
{
    text.push_all(name)?;
    text.push_all(b"{sequence=\"")?;
    push_decimal(text, seq)?;
    text.push_all(b"\"} ")?;
    push_decimal(text, value)?;
    text.push_all(b"\n")
}

fn push_entries(text: &mut Blob, entries: u64) -> Result<(), Memory>
    ensures { OnOk result (text.new ≡ text.old ++ entries_text entries) }
{
    push_type(text, b"wsrm_journal_entries", b"gauge")?;
    text.push_all(b"wsrm_journal_entries ")?;
    push_decimal(text, entries)?;
    text.push_all(b"\n")
}
