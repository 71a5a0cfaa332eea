//! The notes of a snapshot.
ghost use Rattle.std.specs.Prelude.{◌≡◌, ◌-◌, ◌<◌, ◌≤◌, ◌++◌, ◌∷◌, [], Bool, List, None, true, false, length, map, not};
ghost use Rattle.std.specs.Prelude.{IfOk, IfSome};
ghost use Rattle.std.specs.Prelude.{OnOk, if◌then◌else◌, slice_index_or, slice_set};
ghost use Rattle.std.specs.List.{AllByRecursion};
ghost use Rattle.std.specs.Option.{option_map, option_to_list};
ghost use Rattle.rm_base.specs.Numbered.{numbered};
ghost use Rattle.record_batch.specs.Fact.{Acked, Fact, fact_of};
ghost use Rattle.rm_sides.specs.Ranges.Changes.{united};
ghost use Rattle.rm_sides.specs.Ranges.Ranges.{front_of, in_ranges};
ghost use Rattle.rm_sides.specs.Destination.Messages.{is_empty};
ghost use Rattle.record_batch.specs.Snapshot.Snapshot.{past_front};
ghost use Rattle.node_tables.specs.declared.note.Note.TheVariants.{Accepted, Purged, Received};
ghost use Rattle.node_tables.specs.Kept.{IsShort, fact_at, tolds};
ghost use Rattle.node_tables.specs.Shorter.{HasRow, IsFree, IsOwn, IsProperNote, IsPut, IsRange, IsRecorded, acked_in};
ghost use Rattle.node_tables.specs.Shorter.{fact_ahead, fact_instead, marked, passed_in, some_ranges};

use crate::note::Note;
use crate::row::Row;
use record_batch::Record;
use rm_base::{Memory, numbered};
use rm_sides::ranges::{
    Range, RangeSet, ends_are_right, union_has_both, union_with_nothing_is_the_same,
};
use std::alloc::Global;

/// The greatest number such that 1 to it are acknowledged of a sequence.
fn settled_of(rows: &[Row], seq: u64) -> u64
    ensures { result ≡ front_of (acked_in (numbered (tolds rows.now) seq)) }
{
    let Some(row) = numbered(rows, seq) else {
        return 0;
    };
    match row.outgoing() {
        Some(outgoing) => outgoing.acked().front(),
        None => 0,
    }
}

/// The numbers of the items that were consumed of the inbox of a sequence, where it has so many.
fn passed_of(alloc: Global, rows: &[Row], seq: u64) -> Result<RangeSet, Memory>
    ensures { IfOk result (λ set. set.ranges ≡ passed_in (numbered (tolds rows.now) seq)) }
{
    let Some(row) = numbered(rows, seq) else {
        return Ok(RangeSet::new(alloc));
    };
    match row.incoming() {
        Some(incoming) => incoming.passed(alloc),
        None => Ok(RangeSet::new(alloc)),
    }
}

/// Whether there are some.
fn has_passed(rows: &[Row], seq: u64) -> bool
    ensures { result ≡ not (is_empty (passed_in (numbered (tolds rows.now) seq))) }
{
    let Some(row) = numbered(rows, seq) else {
        return false;
    };
    match row.incoming() {
        Some(incoming) => incoming.has_passed(),
        None => false,
    }
}

/// Whether a number is among them.
fn is_passed(rows: &[Row], seq: u64, number: u64) -> bool
    ensures { result ≡ in_ranges (passed_in (numbered (tolds rows.now) seq)) number }
{
    let Some(row) = numbered(rows, seq) else {
        return false;
    };
    match row.incoming() {
        Some(incoming) => incoming.is_passed(number),
        None => false,
    }
}

/// The ranges behind the one that begins at 1.
fn behind_front(ranges: &[Range]) -> &[Range]
    ensures { result.now ≡ past_front ranges.now }
{
    match ranges.first() {
        Some(first) if first.lower == 1 => &ranges[1..],
        _ => ranges,
    }
}

/// The set of ranges.
fn set_of(alloc: Global, ranges: &[Range]) -> Result<RangeSet, Memory>
    requires { AllByRecursion IsRange ranges.now }
    ensures { IfOk result (λ set. set.ranges ≡ united [] ranges.now) }
{
    let mut set = RangeSet::new(alloc);
    for range in ranges {
        insert(&mut set, *range)?;
    }
    Ok(set)
}

/// Puts a range into a set.
fn insert(set: &mut RangeSet, range: Range) -> Result<(), Memory>
    requires { IsRange range }
    ensures { OnOk result (set.new.ranges ≡ united set.old.ranges (range ∷ [])) }
{
    set.insert_range(range.lower, range.upper)?;
    Ok(())
}

/// The numbers of a set behind the first run of them.
fn behind_of(alloc: Global, numbers: &RangeSet) -> Result<RangeSet, Memory>
    ensures { IfOk result (λ set. set.ranges ≡ past_front numbers.now.ranges) }
{
    union_with_nothing_is_the_same();
    set_of(alloc, behind_front(numbers.ranges()))
}

/// The acknowledged numbers of a sequence behind the first run of them.
fn left_of(alloc: Global, rows: &[Row], seq: u64) -> Result<RangeSet, Memory>
    ensures { IfOk result (λ set. set.ranges ≡ past_front (acked_in (numbered (tolds rows.now) seq))) }
{
    let Some(row) = numbered(rows, seq) else {
        return Ok(RangeSet::new(alloc));
    };
    match row.outgoing() {
        Some(outgoing) => behind_of(alloc, outgoing.acked()),
        None => Ok(RangeSet::new(alloc)),
    }
}

/// What comes before what stands for a note: the numbers of what was consumed, before the first message that was
/// received.
fn ahead_of(alloc: Global, rows: &[Row], note: &Note) -> Result<Option<Note>, Memory>
    requires few { length rows.now ≤ 4294967295 }
    requires there { HasRow (length rows.now) note.now }
    ensures fact { (kept : List Fact) → IfOk result (λ other.
        option_map (fact_at kept (tolds rows.now)) other ≡ fact_ahead (tolds rows.now) note.now) }
    ensures free { IfOk result (λ other. IfSome other IsFree) }
{
    match note {
        Note::Received { row, is_first, .. } => {
            if !*is_first || !has_passed(rows, *row as u64 + 1) {
                return Ok(None);
            }
            let numbers = passed_of(alloc, rows, *row as u64 + 1)?;
            let seq = *row as u32 + 1;
            Ok(Some(Note::Purged { seq, numbers }))
        }
        _ => Ok(None),
    }
}

/// What stands for a note of a payload.
fn accepted_instead(rows: &[Row], row: usize, number: u64) -> Option<Note>
    requires few { length rows.now ≤ 4294967295 }
    requires there { row < length rows.now }
    ensures fact { (kept : List Fact) (seen : List Bool) → option_map (fact_at kept (tolds rows.now)) result
        ≡ fact_instead kept (tolds rows.now) seen (Accepted row number) }
    ensures own { IfSome result (IsOwn (tolds rows.now) (Accepted row number)) }
{
    let upto = settled_of(rows, row as u64 + 1);
    if number > upto {
        return Some(Note::Accepted { row, number });
    }
    if number == 1 {
        return Some(Note::Dropped {
            seq: row as u32 + 1,
            upto,
        });
    }
    None
}

/// What stands for a note of a message.
fn received_instead(rows: &[Row], row: usize, number: u64, is_first: bool) -> Option<Note>
    requires few { length rows.now ≤ 4294967295 }
    requires there { row < length rows.now }
    ensures fact { (kept : List Fact) (seen : List Bool) → option_map (fact_at kept (tolds rows.now)) result
        ≡ fact_instead kept (tolds rows.now) seen (Received row number is_first) }
    ensures own { IfSome result (IsOwn (tolds rows.now) (Received row number is_first)) }
{
    if is_passed(rows, row as u64 + 1, number) {
        return None;
    }
    Some(Note::Received {
        row,
        number,
        is_first: is_first && !has_passed(rows, row as u64 + 1),
    })
}

/// What stands for a note of acknowledged numbers.
fn acked_instead(
    alloc: Global,
    rows: &[Row],
    seen: &mut [bool],
    seq: u32,
) -> Result<Option<Note>, Memory>
    requires { (1 ≤ seq) × (seq ≤ length seen.old) }
    ensures marks { OnOk result (seen.new ≡ slice_set seen.old (seq - 1) true) }
    ensures len { length seen.new ≡ length seen.old }
    ensures fact { (kept : List Fact) → IfOk result (λ other. option_map (fact_at kept (tolds rows.now)) other
        ≡ (if slice_index_or seen.old (seq - 1) false then None
        else some_ranges (Acked seq) (past_front (acked_in (numbered (tolds rows.now) seq))))) }
    ensures free { IfOk result (λ other. IfSome other IsFree) }
{
    let place = seq as usize - 1;
    if seen[place] {
        return Ok(None);
    }
    let numbers = left_of(alloc, rows, seq as u64)?;
    seen[place] = true;
    if numbers.ranges().is_empty() {
        return Ok(None);
    }
    Ok(Some(Note::Acked { seq, numbers }))
}

/// What stands for a note of numbers that are gone.
fn purged_instead(
    alloc: Global,
    rows: &[Row],
    seq: u32,
    numbers: &RangeSet,
) -> Result<Option<Note>, Memory>
    ensures fact { (kept : List Fact) (seen : List Bool) → IfOk result (λ other.
        option_map (fact_at kept (tolds rows.now)) other
        ≡ fact_instead kept (tolds rows.now) seen (Purged seq numbers.now)) }
    ensures free { IfOk result (λ other. IfSome other IsFree) }
{
    if has_passed(rows, seq as u64) {
        let numbers = passed_of(alloc, rows, seq as u64)?;
        return Ok(Some(Note::Purged { seq, numbers }));
    }
    let numbers = numbers.copy()?;
    Ok(Some(Note::Purged { seq, numbers }))
}

/// What stands for a note, where the notes are met from the last to the first.
fn instead(
    alloc: Global,
    rows: &[Row],
    seen: &mut [bool],
    note: &Note,
) -> Result<Option<Note>, Memory>
    requires few { length rows.now ≤ 4294967295 }
    requires there { HasRow (length rows.now) note.now }
    requires len { length seen.old ≡ length rows.now }
    ensures marks { OnOk result (seen.new ≡ marked seen.old note.now) }
    ensures len { length seen.new ≡ length seen.old }
    ensures fact { (kept : List Fact) → IfOk result (λ other.
        option_map (fact_at kept (tolds rows.now)) other ≡ fact_instead kept (tolds rows.now) seen.old note.now) }
    ensures own { IfOk result (λ other. IfSome other (IsOwn (tolds rows.now) note.now)) }
    ensures proper { IsProperNote note.now }
{
    match note {
        Note::Kept { place } => Ok(Some(Note::Kept { place: *place })),
        Note::Accepted { row, number } => Ok(accepted_instead(rows, *row, *number)),
        Note::Received {
            row,
            number,
            is_first,
        } => Ok(received_instead(rows, *row, *number, *is_first)),
        Note::Acked { seq, numbers } => {
            let _ranges = numbers.ranges();
            acked_instead(alloc, rows, seen, *seq)
        }
        Note::Consumed { seq, upto } => {
            if has_passed(rows, *seq as u64) {
                return Ok(None);
            }
            Ok(Some(Note::Consumed {
                seq: *seq,
                upto: *upto,
            }))
        }
        Note::Dropped { seq, .. } => Ok(Some(Note::Dropped {
            seq: *seq,
            upto: settled_of(rows, *seq as u64),
        })),
        Note::Purged { seq, numbers } => purged_instead(alloc, rows, *seq, numbers),
    }
}

/// Puts a note behind others, where there is one.
fn put(notes: &mut Vec<Note>, other: Option<Note>) -> Result<(), Memory>
    ensures { OnOk result (notes.new.items ≡ notes.old.items ++ option_to_list other) }
{
    if let Some(note) = other {
        notes.push(note)?;
    }
    Ok(())
}

/// Puts what stands for a note behind what stands for the later ones.
fn put_instead(
    alloc: Global,
    rows: &[Row],
    seen: &mut [bool],
    note: &Note,
    short: &mut Vec<Note>,
) -> Result<(), Memory>
    requires few { length rows.now ≤ 4294967295 }
    requires there { HasRow (length rows.now) note.now }
    requires len { length seen.old ≡ length rows.now }
    ensures marks { OnOk result (seen.new ≡ marked seen.old note.now) }
    ensures len { length seen.new ≡ length seen.old }
    ensures put { OnOk result (IsPut (tolds rows.now) seen.old note.now short.old.items short.new.items) }
    ensures proper { OnOk result (IsProperNote note.now) }
{
    let stands = instead(alloc, rows, seen, note)?;
    let ahead = ahead_of(alloc, rows, note)?;
    put(short, stands)?;
    put(short, ahead)
}

/// The notes of the snapshot of the records that notes stand for.
pub(crate) fn shorter(
    alloc: Global,
    _kept: &[Record],
    rows: &[Row],
    notes: &[Note],
) -> Result<Vec<Note>, Memory>
    requires few { length rows.now ≤ 4294967295 }
    requires recorded { IsRecorded (map fact_of _kept.now) (tolds rows.now) notes.now }
    ensures { IfOk result (λ short. IsShort (map fact_of _kept.now) (tolds rows.now) notes.now short.items) }
{
    union_has_both();
    ends_are_right();
    let mut seen = vec![in alloc; false; rows.len()]?;
    let mut short = Vec::with_capacity(alloc, notes.len())?;
    let mut k = notes.len();
    while k > 0 {
        k -= 1;
        put_instead(alloc, rows, &mut seen, &notes[k], &mut short)?;
    }
    short.reverse();
    Ok(short)
}
