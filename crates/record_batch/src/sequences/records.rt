//! What one record says of the sequences of a node.
ghost use Rattle.std.specs.Prelude.{◌≡◌, ◌≤◌, length};
ghost use Rattle.record_batch.specs.Fact.{fact_of};
ghost use Rattle.record_batch.specs.Sequences.Makers.{makers_of};

use crate::Record;

/// How many sequences a record makes.
pub fn made_by(given: &Record) -> u32
    ensures count { result ≡ length (makers_of (fact_of given.now)) }
    ensures few { result ≤ 2 }
{
    match given {
        Record::Creating { offer: None, .. } | Record::Granted { offer: None, .. } => 1,
        Record::Creating { .. } | Record::Granted { .. } => 2,
        _ => 0,
    }
}
