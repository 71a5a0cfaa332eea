//! The rows of the tables, one a sequence: what a record changes of them.
ghost use Rattle.std.specs.Prelude.{◌≡◌, ◌+◌, ◌-◌, ◌<◌, ◌≤◌, length, IfOk, IsOk, IsTrue, OnOk, OnErr};
ghost use Rattle.std.specs.Prelude.{true, min, sum_by, vec_len, vec_capacity};
ghost use Rattle.record_batch.specs.Fact.{Accepted, Acked, Received, fact_of};
ghost use Rattle.rm_base.specs.Message.{max_number};
ghost use Rattle.rm_sides.specs.Destination.Messages.{is_empty};
ghost use Rattle.node_tables.specs.Row.Row.{Seen, step, takes, takes_message, takes_payload};
ghost use Rattle.record_batch.specs.Sequences.Told.{each_after, names};
ghost use Rattle.node_tables.specs.Kept.{accepted_count_in, all_forgotten, held_in, is_passing, is_whole, row_at};
ghost use Rattle.node_tables.specs.Kept.{tolds};
ghost use Rattle.node_tables.specs.Reads.{waiting};
ghost use Rattle.node_tables.specs.Room.{has_room, spare_at, spares, spent_at};

use crate::record::named_by;
use crate::row::Row;
use record_batch::Record;
use rm_base::{Blob, Memory, Payload};
use rm_sides::ranges::RangeSet;
use rm_sides::source::OutPhase;

/// How many messages a row accepted.
fn accepted_of(row: &Row) -> u64
    ensures count { result ≡ accepted_count_in row.now.told.side }
    ensures few { result ≤ max_number }
{
    match row.outgoing() {
        Some(outgoing) => outgoing.accepted_len(),
        None => 0,
    }
}

/// Accepts a payload for a row, and answers its message number.
pub(crate) fn accept_at(rows: &mut Vec<Row>, k: usize, payload: Blob) -> Result<u64, Memory>
    requires within { k < vec_len rows.old }
    requires takes { IsTrue (takes_payload (row_at (tolds rows.old.items) k).side) }
    ensures ok { OnOk result (tolds rows.new.items ≡ each_after 0 (tolds rows.old.items) (Accepted (k + 1) payload)) }
    ensures number { IfOk result (λ number.
        number ≡ accepted_count_in (row_at (tolds rows.old.items) k).side + 1) }
    ensures room { OnOk result (spares rows.new.items
        ≡ spent_at (spares rows.old.items) k (Accepted (k + 1) payload)) }
    ensures ready { 0 < (spare_at (spares rows.old.items) k).room.payloads → IsOk result }
    ensures len { vec_len rows.new ≡ vec_len rows.old }
    ensures capacity { vec_capacity rows.new ≡ vec_capacity rows.old }
    ensures err { OnErr result (tolds rows.new.items ≡ tolds rows.old.items) }
{
    let row = &mut rows[k];
    let number = accepted_of(row) + 1;
    row.accept(payload)?;
    Ok(number)
}

/// Receives a message for a row, and answers whether it is the first one.
pub(crate) fn receive_at(
    rows: &mut Vec<Row>,
    k: usize,
    number: u64,
    payload: Payload,
) -> Result<bool, Memory>
    requires within { k < vec_len rows.old }
    requires takes { IsTrue (takes_message (row_at (tolds rows.old.items) k).side number) }
    ensures ok { OnOk result
        (tolds rows.new.items ≡ each_after 0 (tolds rows.old.items) (Received (k + 1) number payload)) }
    ensures first { IfOk result (λ first.
        first ≡ is_empty (held_in (row_at (tolds rows.old.items) k).side)) }
    ensures room { OnOk result (spares rows.new.items
        ≡ spent_at (spares rows.old.items) k (Received (k + 1) number payload)) }
    ensures ready { 0 < (spare_at (spares rows.old.items) k).room.messages → IsOk result }
    ensures len { vec_len rows.new ≡ vec_len rows.old }
    ensures capacity { vec_capacity rows.new ≡ vec_capacity rows.old }
    ensures err { OnErr result (tolds rows.new.items ≡ tolds rows.old.items) }
{
    let row = &mut rows[k];
    let is_first = is_untouched(row);
    row.receive(number, payload)?;
    Ok(is_first)
}

/// Whether a row received nothing yet.
fn is_untouched(row: &Row) -> bool
    ensures { result ≡ is_empty (held_in row.now.told.side) }
{
    match row.incoming() {
        Some(incoming) => incoming.received().ranges().is_empty(),
        None => true,
    }
}

/// Learns that numbers of a row are acknowledged.
pub(crate) fn learn_at(rows: &mut Vec<Row>, k: usize, numbers: &RangeSet) -> Result<(), Memory>
    requires within { k < vec_len rows.old }
    requires takes { IsTrue (takes (row_at (tolds rows.old.items) k).side (Acked (k + 1) numbers.now.ranges)) }
    ensures ok { OnOk result
        (tolds rows.new.items ≡ each_after 0 (tolds rows.old.items) (Acked (k + 1) numbers.now.ranges)) }
    ensures room { OnOk result (spares rows.new.items
        ≡ spent_at (spares rows.old.items) k (Acked (k + 1) numbers.now.ranges)) }
    ensures ready { length numbers.now.ranges ≤ (spare_at (spares rows.old.items) k).room.ranges → IsOk result }
    ensures len { vec_len rows.new ≡ vec_len rows.old }
    ensures capacity { vec_capacity rows.new ≡ vec_capacity rows.old }
    ensures err { OnErr result (tolds rows.new.items ≡ tolds rows.old.items) }
{
    let row = &mut rows[k];
    row.learn(numbers)?;
    Ok(())
}

/// Changes a row by a record of how far its sequence was consumed, or of messages that are gone. It takes no memory
/// where the record is of no snapshot alone.
pub(crate) fn pass_at(rows: &mut Vec<Row>, k: usize, given: &Record) -> Result<(), Memory>
    requires within { k < vec_len rows.old }
    requires named { names (fact_of given.now) ≡ k + 1 }
    requires takes { IsTrue (takes (row_at (tolds rows.old.items) k).side (fact_of given.now)) }
    requires passing { IsTrue (is_passing (fact_of given.now)) }
    ensures ok { OnOk result (tolds rows.new.items ≡ each_after 0 (tolds rows.old.items) (fact_of given.now)) }
    ensures room { OnOk result (IsTrue (has_room (fact_of given.now)) → spares rows.new.items ≡ spares rows.old.items) }
    ensures ready { IsTrue (has_room (fact_of given.now)) → IsOk result }
    ensures len { vec_len rows.new ≡ vec_len rows.old }
    ensures capacity { vec_capacity rows.new ≡ vec_capacity rows.old }
    ensures err { OnErr result (tolds rows.new.items ≡ tolds rows.old.items) }
{
    pass_row(&mut rows[k], given)?;
    Ok(())
}

/// Changes a row by a record of how far its sequence was consumed, or of messages that are gone.
fn pass_row(row: &mut Row, given: &Record) -> Result<(), Memory>
    requires takes { IsTrue (takes row.old.told.side (fact_of given.now)) }
    requires passing { IsTrue (is_passing (fact_of given.now)) }
    ensures told { OnOk result (row.new.told ≡ step row.old.told (fact_of given.now)) }
    ensures room { OnOk result (IsTrue (has_room (fact_of given.now)) → row.new.room ≡ row.old.room) }
    ensures ready { IsTrue (has_room (fact_of given.now)) → IsOk result }
    ensures err { OnErr result (row.new.told ≡ row.old.told) }
{
    match given {
        Record::Consumed { upto, .. } => {
            row.consume(*upto);
            Ok(())
        }
        Record::Dropped { upto, .. } => row.drop_upto(*upto),
        Record::Purged { numbers, .. } => row.purge(numbers),
        _ => unreachable!(),
    }
}

/// Changes a row by a record that is kept whole.
fn step_row(row: &mut Row, given: &Record)
    requires takes { IsTrue (takes row.old.told.side (fact_of given.now)) }
    requires whole { IsTrue (is_whole (fact_of given.now)) }
    ensures told { row.new.told ≡ step row.old.told (fact_of given.now) }
    ensures room { row.new.room ≡ row.old.room }
{
    match given {
        Record::Created { .. } => row.set_phase(OutPhase::Open),
        Record::Closing { ticket, .. } => row.ask(OutPhase::Closing, *ticket),
        Record::ClosedOut { .. } => row.set_phase(OutPhase::Closed),
        Record::Closed { cause, last, .. } => row.close(*cause, *last),
        Record::Ending { ticket, .. } => row.ask(OutPhase::Ending, *ticket),
        Record::EndedOut { .. } => row.set_phase(OutPhase::Ended),
        Record::Ended { cause, last, .. } => row.end(*cause, *last),
        Record::Failed { .. } => row.set_phase(OutPhase::Failed),
        Record::Made { .. } | Record::Creating { .. } | Record::Granted { .. } => {}
        Record::Accepted { .. } | Record::Acked { .. } | Record::Received { .. } => unreachable!(),
        Record::Consumed { .. } | Record::Dropped { .. } | Record::Purged { .. } => unreachable!(),
    }
}

/// Changes the row that a record names, if it names one, by a record that is kept whole. It takes no memory.
pub(crate) fn change(rows: &mut Vec<Row>, given: &Record)
    requires within { names (fact_of given.now) ≤ vec_len rows.old }
    requires takes { 0 < names (fact_of given.now) →
        takes (row_at (tolds rows.old.items) (names (fact_of given.now) - 1)).side (fact_of given.now) ≡ true }
    requires whole { IsTrue (is_whole (fact_of given.now)) }
    ensures rows { tolds rows.new.items ≡ each_after 0 (tolds rows.old.items) (fact_of given.now) }
    ensures spares { spares rows.new.items ≡ spares rows.old.items }
    ensures room { vec_capacity rows.new ≡ vec_capacity rows.old }
    ensures len { vec_len rows.new ≡ vec_len rows.old }
{
    let seq = named_by(given);
    if seq == 0 {
        return;
    }
    step_row(&mut rows[seq as usize - 1], given);
}

/// Gives up the payloads of all rows that are settled or were consumed. It takes no memory.
pub(crate) fn forget_all(rows: &mut Vec<Row>)
    ensures told { tolds rows.new.items ≡ all_forgotten (tolds rows.old.items) }
    ensures len { vec_len rows.new ≡ vec_len rows.old }
    ensures capacity { vec_capacity rows.new ≡ vec_capacity rows.old }
{
    for k in 0..rows.len() {
        rows[k].forget();
    }
}

/// How many messages of a row wait for an acknowledgement.
fn waiting_of(row: &Row) -> u64
    ensures { result ≡ waiting row.now.told.side }
{
    match row.outgoing() {
        Some(outgoing) => match outgoing.phase() {
            OutPhase::Open | OutPhase::Closing => outgoing.unacked(),
            _ => 0,
        },
        None => 0,
    }
}

/// How many messages of all rows wait for an acknowledgement, or the greatest number of 64 bits.
pub(crate) fn waiting_in(rows: &[Row]) -> u64
    ensures { result ≡ min (sum_by (λ (r : Seen). waiting r.told.side) rows.now) 18446744073709551615 }
{
    let mut total: u64 = 0;
    for row in rows {
        total = total.saturating_add(waiting_of(row));
    }
    total
}
