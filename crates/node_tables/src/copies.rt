//! Copies of the records that notes stand for.
ghost use Rattle.std.specs.Prelude.{◌≡◌, ◌+◌, ◌-◌, ◌<◌, ◌≤◌, [], length, map, true, false, slice_index_or, IfOk};
ghost use Rattle.std.specs.Prelude.{IfSome};
ghost use Rattle.std.specs.Prelude.{IfNone};
ghost use Rattle.record_batch.specs.Fact.{Accepted, Received, fact_of};
ghost use Rattle.rm_base.specs.NumberSet.{has_number};
ghost use Rattle.rm_sides.specs.Destination.Messages.{numbers_of};
ghost use Rattle.node_tables.specs.Copies.{AreOnce, IsThere, MayBeCopied};
ghost use Rattle.node_tables.specs.Kept.{AllHeld, IsHeld, accepted_count_in, accepted_in, dropped_in, fact_at};
ghost use Rattle.node_tables.specs.Kept.{payload_of, received_in, records_of};
ghost use Rattle.node_tables.specs.Kept.{tolds};

use crate::note::Note;
use crate::row::Row;
use record_batch::{Record, copy_acked, copy_purged, copy_received};
use rm_base::{Memory, Payload};
use std::alloc::Global;

/// Where the message with a number stands. Messages mostly come by rising number, so the place where it is expected is
/// tried first.
fn place_of(messages: &[(u64, Payload)], number: u64, expected: usize) -> Option<usize>
    ensures found { IfSome result (λ place. IsThere messages.now place number) }
    ensures none { IfNone result (has_number (numbers_of messages.now) number ≡ false) }
{
    if expected < messages.len() && messages[expected].0 == number {
        return Some(expected);
    }
    for place in 0..messages.len() {
        if messages[place].0 == number {
            return Some(place);
        }
    }
    None
}

/// A record of a message that came, and where the next one is expected.
fn copy_message(
    alloc: Global,
    messages: &[(u64, Payload)],
    seq: u32,
    number: u64,
    expected: &mut usize,
) -> Result<Record, Memory>
    requires once { AreOnce messages.now }
    requires has { has_number (numbers_of messages.now) number ≡ true }
    ensures { IfOk result (λ copy. fact_of copy ≡ Received seq number (payload_of number messages.now)) }
{
    let Some(place) = place_of(messages, number, *expected) else {
        unreachable!()
    };
    *expected = place + 1;
    copy_received(alloc, seq, number, &messages[place].1)
}

/// A record of a message of a row that came.
fn copy_received_of(
    alloc: Global,
    row: &Row,
    seq: u32,
    number: u64,
    expected: &mut usize,
) -> Result<Record, Memory>
    requires once { AreOnce (received_in row.now.told.side) }
    requires has { has_number (numbers_of (received_in row.now.told.side)) number ≡ true }
    ensures { IfOk result (λ copy.
        fact_of copy ≡ Received seq number (payload_of number (received_in row.now.told.side))) }
{
    match row.incoming() {
        Some(incoming) => copy_message(alloc, incoming.messages(), seq, number, expected),
        None => unreachable!(),
    }
}

/// A record of a payload that a row accepted.
fn copy_accepted_of(row: &Row, seq: u32, number: u64) -> Result<Record, Memory>
    requires behind { dropped_in row.now.told.side < number }
    requires within { number ≤ accepted_count_in row.now.told.side }
    ensures { IfOk result (λ copy. fact_of copy ≡ Accepted seq
        (slice_index_or (accepted_in row.now.told.side) (number - (dropped_in row.now.told.side + 1)) [])) }
{
    match row.outgoing() {
        Some(outgoing) => match outgoing.accepted(number) {
            Some(payload) => Ok(Record::Accepted {
                seq,
                payload: payload.copy()?,
            }),
            None => unreachable!(),
        },
        None => unreachable!(),
    }
}

/// The record that a note stands for. `expected` has for each row the place where its next message is expected.
fn copy_at(
    alloc: Global,
    kept: &[Record],
    rows: &[Row],
    note: &Note,
    expected: &mut [usize],
) -> Result<Record, Memory>
    requires held { IsHeld (map fact_of kept.now) (tolds rows.now) note.now }
    requires rows { MayBeCopied (tolds rows.now) }
    requires len { length expected.old ≡ length rows.now }
    ensures fact { IfOk result (λ copy.
        fact_of copy ≡ fact_at (map fact_of kept.now) (tolds rows.now) note.now) }
    ensures len { length expected.new ≡ length expected.old }
{
    match note {
        Note::Kept { place } => kept[*place].copy(alloc),
        Note::Accepted { row, number } => copy_accepted_of(&rows[*row], *row as u32 + 1, *number),
        Note::Received { row, number, .. } => {
            let seq = *row as u32 + 1;
            copy_received_of(alloc, &rows[*row], seq, *number, &mut expected[*row])
        }
        Note::Acked { seq, numbers } => copy_acked(*seq, numbers),
        Note::Consumed { seq, upto } => Ok(Record::Consumed {
            seq: *seq,
            upto: *upto,
        }),
        Note::Dropped { seq, upto } => Ok(Record::Dropped {
            seq: *seq,
            upto: *upto,
        }),
        Note::Purged { seq, numbers } => copy_purged(*seq, numbers),
    }
}

/// The records that notes stand for.
pub(crate) fn copies_of(
    alloc: Global,
    kept: &[Record],
    rows: &[Row],
    notes: &[Note],
) -> Result<Vec<Record>, Memory>
    requires held { AllHeld (map fact_of kept.now) (tolds rows.now) notes.now }
    requires rows { MayBeCopied (tolds rows.now) }
    ensures { IfOk result (λ copies.
        map fact_of copies.items ≡ records_of (map fact_of kept.now) (tolds rows.now) notes.now) }
{
    let mut expected = vec![in alloc; 0; rows.len()]?;
    let mut copies = Vec::with_capacity(alloc, notes.len())?;
    for note in notes {
        copies.push(copy_at(alloc, kept, rows, note, &mut expected)?)?;
    }
    Ok(copies)
}
