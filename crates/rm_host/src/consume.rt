//! The command `consume`.
ghost use Rattle.std.specs.Prelude.{◌≡◌, ◌⊎◌, ◌≤◌, Err, IfErr, IfOk, IfSome, length, OnOk, OnErr, false};
ghost use Rattle.std.specs.Io.KnownBytes.{Appends};
ghost use Rattle.node_tables.specs.Reads.{incoming_in};
ghost use Rattle.rm_base.specs.Outside.{AppendsFront};
ghost use Rattle.rm_sides.specs.Destination.Incoming.{inbox as inbox_in};
ghost use Rattle.record_batch.specs.Sequences.Destinations.{cursor as cursor_in};
ghost use Rattle.rm_host.specs.Consumption.{Consumption};
ghost use Rattle.rm_host.specs.Ends.{HasReason, Prints, faults_of, is_disk_fault, is_link_fault, is_of_input, is_outer};
ghost use Rattle.rm_host.specs.Sequences.{passed_answer, passed_lines};
ghost use Rattle.rm_host.specs.Texts.{consumed_line};

use crate::calls::{consume_items, mount};
use crate::end::End;
use crate::host::Host;
use crate::items::push_items;
use http_endpoint::link::Link;
use node_laws::answers::Cause;
use node_tables::Tables;
use node_tables::laws::an_incoming_sequence_is_as_recorded;
use rm_base::{Blob, Clock, Memory, Sink, SinkError, push_decimal, write_all};
use rm_disk::ReadDisk;
use rm_sides::destination::Incoming;
use std::alloc::Global;

/// Prints the items of an inbox past the cursor up to one, and records then that they were consumed. Where it stops
/// between the two, the items are printed again by the next one: each comes to the application at least once. All items
/// are one text, which is made before any is written.
/// - `consumes`: where a cursor is printed, all items past the cursor of the node that was found, up to the one that
///   was asked for, had been written, and then the record was. Where it ends before that, nothing was recorded, or the
///   items had all been printed.
pub fn consume<K: Sink, D: ReadDisk, L: Link, C: Clock>(
    alloc: Global,
    host: &mut Host<D, L, C>,
    out: &mut K,
    seq: u32,
    upto: u64,
) -> Result<Blob, End>
    ensures consumes { Consumption D.tells (D.told host.old.disk) (D.told host.new.disk)
        (K.told out.old) (K.told out.new) seq upto result }
    ensures prints { Prints (K.told out.old) (K.told out.new) result }
    ensures link { L.told host.new.link ≡ L.told host.old.link }
    ensures reason { HasReason (faults_of D.told L.told host.old) (faults_of D.told L.told host.new) result }
    ensures inner { is_of_input result ≡ false }
{
    an_incoming_sequence_is_as_recorded();
    let mut node = mount(alloc, host)?;
    let items = passed_text(alloc, node.tables(), seq, upto)?;
    print(out, items.as_slice())?;
    consume_items(host, &mut node, seq, upto)?;
    Ok(cursor_text(alloc, seq, cursor(node.tables(), seq))?)
}

// Prints a text whole.
fn print<K: Sink>(out: &mut K, text: &[u8]) -> Result<(), End>
    ensures ok { OnOk result (Appends (K.told out.old).held (K.told out.new).held text.now) }
    ensures err { OnErr result (AppendsFront (K.told out.old).held (K.told out.new).held text.now) }
    ensures which { IfErr result (λ e. (e ≡ End.Memory) ⊎ (e ≡ End.WriteFault)) }
    ensures prints { Prints (K.told out.old) (K.told out.new) result }
{
    match write_all(out, text) {
        Ok(()) => Ok(()),
        Err(SinkError::Failed) => Err(End::WriteFault),
        Err(SinkError::Memory) => Err(End::Memory),
    }
}

// What is printed of the inbox of a sequence, by the tables of a node.
fn passed_text(alloc: Global, tables: &Tables, seq: u32, upto: u64) -> Result<Blob, End>
    ensures is { (result ≡ Err End.Memory) ⊎ (result ≡ passed_answer tables.now.records seq upto) }
    ensures disk { is_disk_fault result ≡ false }
    ensures link { is_link_fault result ≡ false }
    ensures inner { is_outer result ≡ false }
{
    if seq > tables.len() {
        return Err(End::Refused(Cause::NoSequence));
    }
    let Some(incoming) = tables.incoming(seq) else {
        return Err(End::Refused(Cause::WrongSide));
    };
    let have = incoming.inbox_len();
    if upto > have {
        return Err(End::Refused(Cause::PastInbox { have }));
    }
    Ok(items_text(alloc, seq, incoming, upto)?)
}

fn items_text(alloc: Global, seq: u32, incoming: &Incoming, upto: u64) -> Result<Blob, Memory>
    requires { upto ≤ length (inbox_in incoming.now.facts) }
    ensures { IfOk result (λ text. text
        ≡ passed_lines seq incoming.now.facts.cursor upto (inbox_in incoming.now.facts)) }
{
    let mut text = Blob::new(alloc);
    push_items(&mut text, seq, incoming, incoming.consumed(), upto)?;
    Ok(text)
}

// How many items of the inbox of a sequence that receives were consumed.
fn cursor(tables: &Tables, seq: u32) -> u64
    ensures { IfSome (incoming_in tables.now.records seq) (λ receiving. result ≡ cursor_in tables.now.records seq) }
{
    an_incoming_sequence_is_as_recorded();
    match tables.incoming(seq) {
        Some(incoming) => incoming.consumed(),
        None => 0,
    }
}

fn cursor_text(alloc: Global, seq: u32, cursor: u64) -> Result<Blob, Memory>
    ensures { IfOk result (λ text. text ≡ consumed_line seq cursor) }
{
    let mut text = Blob::from_slice(alloc, b"consumed ")?;
    push_decimal(&mut text, u64::from(seq))?;
    text.push_all(b" ")?;
    push_decimal(&mut text, cursor)?;
    text.push_all(b"\n")?;
    Ok(text)
}
