//! What the tables say of a sequence on one side. Of one on the other side, or that isn't there, they say nothing.
ghost use Rattle.std.specs.Prelude.{◌≡◌, ◌≤◌, [], true, IfOk};
ghost use Rattle.rm_sides.specs.Ranges.Changes.{covers_all, united};
ghost use Rattle.rm_base.specs.Message.{max_number};
ghost use Rattle.rm_base.specs.NumberSet.{has_number};
ghost use Rattle.rm_sides.specs.Destination.Messages.{ranges_onto};
ghost use Rattle.record_batch.specs.Sequences.Destinations.{front, has_end, held, is_stopped};
ghost use Rattle.record_batch.specs.Sequences.Fits.{all_fit};
ghost use Rattle.record_batch.specs.Sequences.Sources.{accepted_count, acked, phase};

use crate::numbers::has_all;
use node_tables::Tables;
use node_tables::laws::{an_incoming_sequence_is_as_recorded, an_outgoing_sequence_is_as_recorded};
use record_batch::Record;
use rm_base::{Cause, Memory};
use rm_sides::destination::laws::front_is_reached;
use rm_sides::ranges::{Range, RangeSet};
use rm_sides::source::OutPhase;
use std::alloc::Global;

/// How many messages were accepted, with those that are gone.
pub(crate) fn accepted_len(tables: &Tables, seq: u32) -> u64
    requires { all_fit [] tables.now.records ≡ true }
    ensures count { result ≡ accepted_count tables.now.records seq }
    ensures few { result ≤ max_number }
{
    an_outgoing_sequence_is_as_recorded();
    match tables.outgoing(seq) {
        Some(outgoing) => outgoing.accepted_len(),
        None => 0,
    }
}

/// The phase of an outgoing sequence.
pub(crate) fn phase(tables: &Tables, seq: u32) -> OutPhase
    requires { all_fit [] tables.now.records ≡ true }
    ensures { result ≡ phase tables.now.records seq }
{
    an_outgoing_sequence_is_as_recorded();
    match tables.outgoing(seq) {
        Some(outgoing) => outgoing.phase(),
        None => OutPhase::Creating,
    }
}

/// The numbers that are acknowledged.
pub(crate) fn acked(alloc: Global, tables: &Tables, seq: u32) -> Result<RangeSet, Memory>
    requires { all_fit [] tables.now.records ≡ true }
    ensures { IfOk result (λ set. set.ranges ≡ united [] (acked tables.now.records seq)) }
{
    an_outgoing_sequence_is_as_recorded();
    match tables.outgoing(seq) {
        Some(outgoing) => {
            let numbers = outgoing.acked().copy()?;
            Ok(numbers)
        }
        None => Ok(RangeSet::new(alloc)),
    }
}

/// Whether each of the ranges lies in what is acknowledged.
pub(crate) fn covers(tables: &Tables, seq: u32, ranges: &[Range]) -> bool
    requires { all_fit [] tables.now.records ≡ true }
    ensures { result ≡ covers_all (united [] (acked tables.now.records seq)) ranges.now }
{
    an_outgoing_sequence_is_as_recorded();
    match tables.outgoing(seq) {
        Some(outgoing) => {
            let known = outgoing.acked().ranges();
            has_all(known, ranges)
        }
        None => ranges.is_empty(),
    }
}

/// The numbers that were received.
pub(crate) fn received(alloc: Global, tables: &Tables, seq: u32) -> Result<RangeSet, Memory>
    requires { all_fit [] tables.now.records ≡ true }
    ensures { IfOk result (λ set. set.ranges ≡ ranges_onto [] (held tables.now.records seq)) }
{
    an_incoming_sequence_is_as_recorded();
    match tables.incoming(seq) {
        Some(incoming) => {
            let numbers = incoming.received().copy()?;
            Ok(numbers)
        }
        None => Ok(RangeSet::new(alloc)),
    }
}

/// Whether a number was received.
pub(crate) fn has(tables: &Tables, seq: u32, number: u64) -> bool
    requires { all_fit [] tables.now.records ≡ true }
    ensures { result ≡ has_number (held tables.now.records seq) number }
{
    an_incoming_sequence_is_as_recorded();
    match tables.incoming(seq) {
        Some(incoming) => incoming.received().has(number),
        None => false,
    }
}

/// The greatest m such that 1 to m were received.
pub(crate) fn front(tables: &Tables, seq: u32) -> u64
    requires { all_fit [] tables.now.records ≡ true }
    ensures { result ≡ front tables.now.records seq }
{
    an_incoming_sequence_is_as_recorded();
    front_is_reached();
    match tables.incoming(seq) {
        Some(incoming) => {
            let numbers = incoming.received();
            let _known = numbers.ranges();
            numbers.front()
        }
        None => 0,
    }
}

/// Whether a record closed or ended an incoming sequence: none may close it then.
pub(crate) fn is_stopped(tables: &Tables, seq: u32) -> bool
    requires { all_fit [] tables.now.records ≡ true }
    ensures { result ≡ is_stopped tables.now.records seq }
{
    let close = Record::Closed {
        seq,
        cause: Cause::Operator,
        last: 0,
    };
    match tables.incoming(seq) {
        Some(_) => !tables.fits(&close),
        None => false,
    }
}

/// Whether a record ended an incoming sequence: none may end it then.
pub(crate) fn has_end(tables: &Tables, seq: u32) -> bool
    requires { all_fit [] tables.now.records ≡ true }
    ensures { result ≡ has_end tables.now.records seq }
{
    let end = Record::Ended {
        seq,
        cause: Cause::Operator,
        last: 0,
    };
    match tables.incoming(seq) {
        Some(_) => !tables.fits(&end),
        None => false,
    }
}
