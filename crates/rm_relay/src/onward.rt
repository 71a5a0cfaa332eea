//! What a node received on its first incoming sequence goes into its first outgoing one, and is consumed there once it
//! is acknowledged.
ghost use Rattle.std.specs.Prelude.{◌≡◌, ◌<◌, ◌≤◌, ℕ, IfSome, IfNone, IfOk, MatchBool, Some, None, option_map, true};
ghost use Rattle.std.specs.Option.{option_copied};
ghost use Rattle.rm_base.specs.Message.{max_number};
ghost use Rattle.rm_sides.specs.Destination.Messages.{item_at};
ghost use Rattle.record_batch.specs.Sequences.Destinations.{cursor, inbox};
ghost use Rattle.record_batch.specs.Sequences.Fits.{is_incoming_side, is_outgoing_side};
ghost use Rattle.record_batch.specs.Sequences.Makers.{maker};
ghost use Rattle.record_batch.specs.Sequences.Sources.{accepted_count};
ghost use Rattle.rm_node.specs.Called.{HasBatches, Steps};
ghost use Rattle.rm_node.specs.Ends.{done_end};
ghost use Rattle.rm_node.specs.declared.call.Call.TheVariants.{Consume as Consumes};
ghost use Rattle.rm_relay.specs.Word.Ends.{AreEnds, MayForward, acknowledged, first_incoming, first_outgoing};
ghost use Rattle.rm_relay.specs.Word.Ends.{next_item};
ghost use Rattle.rm_relay.specs.Forwards.{Forwards};

use node_tables::laws::{an_incoming_sequence_is_as_recorded, an_outgoing_sequence_is_as_recorded};
use node_tables::{Maker, Tables};
use rm_base::Payload;
use rm_disk::Disk;
use rm_node::{Node, NodeError, Outs};

/// The first incoming and the first outgoing sequence of a node, counted from 1.
#[derive(Clone, Copy, Debug, PartialEq, Eq)]
pub struct Ends {
    pub into: u32,
    pub out: u32,
}

/// Whether the sequence with a number is incoming.
fn is_incoming(tables: &Tables, seq: u32) -> bool
    ensures { result ≡ is_incoming_side (maker tables.now.records seq) }
{
    match tables.maker(seq) {
        None => false,
        Some(Maker::Asked { .. }) => false,
        Some(Maker::Taken { .. }) => false,
        Some(Maker::Offered { .. }) => true,
        Some(Maker::Granted { .. }) => true,
    }
}

/// Whether the sequence with a number is outgoing.
fn is_outgoing(tables: &Tables, seq: u32) -> bool
    ensures { result ≡ is_outgoing_side (maker tables.now.records seq) }
{
    match tables.maker(seq) {
        None => false,
        Some(Maker::Asked { .. }) => true,
        Some(Maker::Taken { .. }) => true,
        Some(Maker::Offered { .. }) => false,
        Some(Maker::Granted { .. }) => false,
    }
}

/// The first incoming sequence of a node.
fn find_first_incoming(tables: &Tables) -> Option<u32>
    ensures { result ≡ first_incoming tables.now.records }
{
    for before in 0..tables.len() {
        if is_incoming(tables, before + 1) {
            return Some(before + 1);
        }
    }
    None
}

/// The first outgoing sequence of a node.
fn find_first_outgoing(tables: &Tables) -> Option<u32>
    ensures { result ≡ first_outgoing tables.now.records }
{
    for before in 0..tables.len() {
        if is_outgoing(tables, before + 1) {
            return Some(before + 1);
        }
    }
    None
}

/// Both, where the node has both.
pub fn find_ends(tables: &Tables) -> Option<Ends>
    ensures found { IfSome result (λ ends. AreEnds tables.now.records ends.into ends.out) }
    ensures none { IfNone result ((into out : ℕ) → ¬ (AreEnds tables.now.records into out)) }
{
    let into = find_first_incoming(tables)?;
    let out = find_first_outgoing(tables)?;
    Some(Ends { into, out })
}

/// How many payloads an outgoing sequence accepted.
fn accepted_len(tables: &Tables, out: u32) -> u64
    requires { is_outgoing_side (maker tables.now.records out) ≡ true }
    ensures count { result ≡ accepted_count tables.now.records out }
    ensures few { result ≤ max_number }
{
    an_outgoing_sequence_is_as_recorded();
    match tables.outgoing(out) {
        Some(outgoing) => outgoing.accepted_len(),
        None => unreachable!(),
    }
}

/// The item with a number, counted from 1, in the inbox of an incoming sequence.
fn item(tables: &Tables, into: u32, number: u64) -> Option<&Payload>
    requires { is_incoming_side (maker tables.now.records into) ≡ true }
    ensures { option_copied result ≡ item_at (inbox tables.now.records into) number }
{
    an_incoming_sequence_is_as_recorded();
    match tables.incoming(into) {
        Some(incoming) => incoming.inbox_item(number),
        None => unreachable!(),
    }
}

/// The item that is forwarded next: the one behind those that the outgoing sequence accepted, where the inbox has it.
pub(crate) fn find_next(tables: &Tables, ends: Ends) -> Option<&Payload>
    requires { AreEnds tables.now.records ends.into ends.out }
    ensures { option_copied result ≡ next_item tables.now.records ends.into ends.out }
{
    let accepted = accepted_len(tables, ends.out);
    item(tables, ends.into, accepted + 1)
}

/// Up to which message all are acknowledged at an outgoing sequence.
fn acknowledged_front(tables: &Tables, out: u32) -> u64
    requires { is_outgoing_side (maker tables.now.records out) ≡ true }
    ensures { result ≡ acknowledged tables.now.records out }
{
    an_outgoing_sequence_is_as_recorded();
    match tables.outgoing(out) {
        Some(outgoing) => outgoing.acked().front(),
        None => unreachable!(),
    }
}

/// Up to which item the node may consume: all up to it are acknowledged at the outgoing sequence.
pub(crate) fn find_acknowledged(tables: &Tables, ends: Ends) -> u64
    requires { AreEnds tables.now.records ends.into ends.out }
    ensures { result ≡ acknowledged tables.now.records ends.out }
{
    acknowledged_front(tables, ends.out)
}

/// How many items of an incoming sequence's inbox were consumed.
fn consumed_len(tables: &Tables, into: u32) -> u64
    requires { is_incoming_side (maker tables.now.records into) ≡ true }
    ensures { result ≡ cursor tables.now.records into }
{
    an_incoming_sequence_is_as_recorded();
    match tables.incoming(into) {
        Some(incoming) => incoming.consumed(),
        None => unreachable!(),
    }
}

/// Whether a node may forward and trim: it has both sequences, and of the items that are to be forwarded none is
/// consumed. So it stays by these two calls, since `trim` consumes only what is acknowledged; who consumes more by
/// `Node::consume` loses it.
pub fn may_forward(tables: &Tables) -> bool
    ensures { MatchBool result (MayForward tables.now.records) (¬ (MayForward tables.now.records)) }
{
    let Some(ends) = find_ends(tables) else {
        return false;
    };
    let consumed = consumed_len(tables, ends.into);
    let accepted = accepted_len(tables, ends.out);
    consumed <= accepted
}

/// Forwards the next item of the first incoming sequence into the first outgoing one: the record that accepts it is the
/// only commit, so that a crash inside leaves it forwarded or not. None where the inbox has no item that was not
/// forwarded. It refuses as `Node::send` does. Where it wants memory, or at a node that is down, nothing happens.
pub fn forward<D: Disk>(node: &mut Node, disk: &mut D) -> Result<Option<Outs>, NodeError>
    requires has { HasBatches D.tells (D.told disk.old) node.old }
    requires may { MayForward node.old.stored.records }
    ensures { (into out : ℕ) → AreEnds node.old.stored.records into out
        → Forwards D.tells (D.told disk.old) (D.told disk.new) node.old node.new out
        (next_item node.old.stored.records into out) result }
{
    let Some(ends) = find_ends(node.tables()) else {
        unreachable!()
    };
    let Some(payload) = find_next(node.tables(), ends) else {
        return Ok(None);
    };
    if node.is_down() {
        return Err(NodeError::Down);
    }
    let bytes = payload.bytes.copy()?;
    let sent = node.send(disk, ends.out, bytes)?;
    Ok(Some(sent.outs))
}

/// Consumes of the first incoming sequence what is acknowledged at the first outgoing one. It refuses as
/// `Node::consume` does.
pub fn trim<D: Disk>(node: &mut Node, disk: &mut D) -> Result<(), NodeError>
    requires has { HasBatches D.tells (D.told disk.old) node.old }
    requires may { MayForward node.old.stored.records }
    ensures { (into out : ℕ) → AreEnds node.old.stored.records into out
        → Steps D.tells (D.told disk.old) (D.told disk.new) node.old node.new 0
        (Consumes into (acknowledged node.old.stored.records out)) (done_end result) }
{
    let Some(ends) = find_ends(node.tables()) else {
        unreachable!()
    };
    let upto = find_acknowledged(node.tables(), ends);
    node.consume(disk, ends.into, upto)
}
