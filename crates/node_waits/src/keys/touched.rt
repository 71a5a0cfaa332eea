//! Which keys records may end.
ghost use Rattle.std.specs.Prelude.{◌≡◌, ◌++◌, ◌∷◌, [], map, IfOk, OnOk};
ghost use Rattle.std.specs.List.{flat_map};
ghost use Rattle.node_waits.specs.Keys.Settled.{first_key as first_key_of, has_number as has_number_in, is_within};
ghost use Rattle.node_waits.specs.Keys.Settled.{all_of, each_of, touched_by};
ghost use Rattle.record_batch.specs.Fact.{fact_of};

use record_batch::Record;
use rm_base::Memory;
use rm_sides::ranges::Range;
use std::alloc::Global;
use timers::slots::Key;

/// Keys of one sequence that records may end: those of the numbers of a range, or all.
#[derive(Clone, Copy, Debug)]
pub struct Touched {
    pub seq: u32,
    pub numbers: Option<Range>,
}

fn has_number(numbers: Option<Range>, number: u64) -> bool
    ensures { result ≡ has_number_in numbers number }
{
    match numbers {
        Some(range) => range.lower <= number && number <= range.upper,
        None => true,
    }
}

impl Touched {
    /// Whether the key is one of them.
    pub(crate) fn has(self, key: Key) -> bool
        ensures { result ≡ is_within self key }
    {
        key.seq == self.seq && has_number(self.numbers, key.number)
    }

    /// The first of them, by number.
    pub(crate) fn first_key(self) -> Key
        ensures { result ≡ first_key_of self }
    {
        let number = match self.numbers {
            Some(range) => range.lower,
            None => 0,
        };
        Key {
            seq: self.seq,
            number,
        }
    }
}

fn put_all(seq: u32, touched: &mut Vec<Touched>) -> Result<(), Memory>
    ensures { OnOk result (touched.new.items ≡ touched.old.items ++ all_of seq ∷ []) }
{
    touched.push(Touched { seq, numbers: None })?;
    Ok(())
}

fn put_each(seq: u32, ranges: &[Range], touched: &mut Vec<Touched>) -> Result<(), Memory>
    ensures { OnOk result (touched.new.items ≡ touched.old.items ++ map (each_of seq) ranges.now) }
{
    for range in ranges {
        touched.push(Touched {
            seq,
            numbers: Some(*range),
        })?;
    }
    Ok(())
}

/// Puts the keys that a record may end behind the others.
fn put_keys(rec: &Record, touched: &mut Vec<Touched>) -> Result<(), Memory>
    ensures { OnOk result (touched.new.items ≡ touched.old.items ++ touched_by (fact_of rec.now)) }
{
    match rec {
        Record::Made { .. } | Record::Creating { .. } => put_all(0, touched),
        Record::Granted { .. } => put_all(0, touched),
        Record::Created { seq, .. } => put_all(*seq, touched),
        Record::Accepted { seq, .. } => put_all(*seq, touched),
        Record::Acked { seq, numbers } => put_each(*seq, numbers.ranges(), touched),
        Record::Received { seq, .. } => put_all(*seq, touched),
        Record::Closing { seq, .. } => put_all(*seq, touched),
        Record::ClosedOut { seq } => put_all(*seq, touched),
        Record::Closed { seq, .. } => put_all(*seq, touched),
        Record::Ending { seq, .. } => put_all(*seq, touched),
        Record::EndedOut { seq } => put_all(*seq, touched),
        Record::Ended { seq, .. } => put_all(*seq, touched),
        Record::Failed { seq, .. } => put_all(*seq, touched),
        Record::Consumed { seq, .. } => put_all(*seq, touched),
        Record::Dropped { seq, .. } => put_all(*seq, touched),
        Record::Purged { seq, .. } => put_all(*seq, touched),
    }
}

/// The keys that records may end, record by record. For an acknowledgement these are the keys of its numbers, range by
/// range, and for each other record all of the sequence that it names.
pub fn named(alloc: Global, batch: &[Record]) -> Result<Vec<Touched>, Memory>
    ensures { IfOk result (λ touched. touched.items ≡ flat_map touched_by (map fact_of batch.now)) }
{
    let mut touched = Vec::new(alloc);
    for rec in batch {
        put_keys(rec, &mut touched)?;
    }
    Ok(touched)
}
