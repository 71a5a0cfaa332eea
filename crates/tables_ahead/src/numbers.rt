//! Sets of message numbers with those that a batch adds.
ghost use Rattle.std.specs.Prelude.{◌≡◌, [], map, true, false, OnOk};
ghost use Rattle.std.specs.List.{list_all};
ghost use Rattle.rm_sides.specs.Ranges.Changes.{covers, covers_all, united};
ghost use Rattle.record_batch.specs.Fact.{fact_of};
ghost use Rattle.rm_sides.specs.Destination.Messages.{numbers_of, ranges_onto};
ghost use Rattle.record_batch.specs.Sequences.Destinations.{received};
ghost use Rattle.record_batch.specs.Sequences.Sources.{acked, acked_of};
ghost use Rattle.node_tables.specs.Room.{has_room};
ghost use Rattle.tables_ahead.specs.Known.{AreNumbers};

use crate::record::{acked_by, number_by};
use record_batch::Record;
use rm_base::Memory;
use rm_sides::ranges::{Range, RangeSet};

/// Whether the batch acknowledges numbers of a sequence.
pub(crate) fn acks_in(batch: &[Record], seq: u32) -> bool
    requires { list_all has_room (map fact_of batch.now) ≡ true }
    ensures { result ≡ false → acked (map fact_of batch.now) seq ≡ [] }
{
    for given in batch {
        if acked_by(given, seq).is_some() {
            return true;
        }
    }
    false
}

/// Adds the numbers of a sequence that the batch acknowledges.
pub(crate) fn unite_acked(numbers: &mut RangeSet, batch: &[Record], seq: u32) -> Result<(), Memory>
    requires { list_all has_room (map fact_of batch.now) ≡ true }
    ensures { OnOk result (numbers.new.ranges ≡ united numbers.old.ranges (acked (map fact_of batch.now) seq)) }
{
    for given in batch {
        add_acked(numbers, given, seq)?;
    }
    Ok(())
}

/// Adds the numbers of a sequence that a record acknowledges.
fn add_acked(numbers: &mut RangeSet, given: &Record, seq: u32) -> Result<(), Memory>
    requires { has_room (fact_of given.now) ≡ true }
    ensures { OnOk result (numbers.new.ranges ≡ united numbers.old.ranges (acked_of seq (fact_of given.now))) }
{
    match acked_by(given, seq) {
        Some(acked) => {
            numbers.unite(acked)?;
            Ok(())
        }
        None => Ok(()),
    }
}

/// Adds the numbers that the batch receives for a sequence.
pub(crate) fn insert_received(
    numbers: &mut RangeSet,
    batch: &[Record],
    seq: u32,
) -> Result<(), Memory>
    requires { AreNumbers (numbers_of (received (map fact_of batch.now) seq)) }
    ensures { OnOk result (numbers.new.ranges
        ≡ ranges_onto numbers.old.ranges (numbers_of (received (map fact_of batch.now) seq))) }
{
    for given in batch {
        if let Some(number) = number_by(given, seq) {
            numbers.insert(number)?;
        }
    }
    Ok(())
}

/// Whether each of the other ranges lies in one of the ranges.
pub(crate) fn has_all(ranges: &[Range], others: &[Range]) -> bool
    ensures { result ≡ covers_all ranges.now others.now }
{
    for other in others {
        if !has_range(ranges, *other) {
            return false;
        }
    }
    true
}

/// Whether one of the ranges has all numbers of another.
fn has_range(ranges: &[Range], other: Range) -> bool
    ensures { result ≡ covers ranges.now other.lower other.upper }
{
    for range in ranges {
        if range.lower <= other.lower && other.upper <= range.upper {
            return true;
        }
    }
    false
}
