//! What is kept of each record, in the order of their coming.
ghost use Rattle.std.specs.Prelude.{◌≡◌, IsTrue, List};
ghost use Rattle.record_batch.specs.Fact.{Fact, fact_of};
ghost use Rattle.record_batch.specs.Sequences.Told.{Told};
ghost use Rattle.node_tables.specs.Kept.{HasPlace, IsHeld, fact_at, is_passing};

use crate::row::{Row, Start};
use record_batch::Record;
use rm_sides::ranges::RangeSet;

/// A record as it is kept: the place of a record that is kept whole; the row, counted from 0, and the number there of a
/// message that was accepted or received, and whether it was the first that was received there; the numbers that are
/// acknowledged; how far a sequence was consumed; or which messages of it are gone.
#[derive(Drop)]
pub(crate) enum Note {
    Kept {
        place: usize,
    },
    Accepted {
        row: usize,
        number: u64,
    },
    Received {
        row: usize,
        number: u64,
        is_first: bool,
    },
    Acked {
        seq: u32,
        numbers: RangeSet,
    },
    Consumed {
        seq: u32,
        upto: u64,
    },
    Dropped {
        seq: u32,
        upto: u64,
    },
    Purged {
        seq: u32,
        numbers: RangeSet,
    },
}

/// How a row came to be: the place of the record that made it, and whether it is the second sequence of that record.
#[derive(Clone, Copy)]
pub(crate) struct Origin {
    pub made: usize,
    pub is_second: bool,
}

/// A sequence that was given an identifier, and the place of the record that gave it.
#[derive(Clone, Copy)]
pub(crate) struct Named {
    pub seq: u32,
    pub place: usize,
}

/// A sequence that a record to come will make: how it begins, and its row, with room for records of it.
#[derive(Drop)]
pub(crate) struct Coming {
    pub start: Start,
    pub row: Row,
}

/// The note of a record of how far a sequence was consumed, or of messages that are gone.
pub(crate) fn passed_note(given: Record) -> Note
    requires { IsTrue (is_passing (fact_of given)) }
    ensures fact { (kept : List Fact) (rows : List Told) → fact_at kept rows result ≡ fact_of given }
    ensures held { (kept : List Fact) (rows : List Told) → IsHeld kept rows result }
    ensures place { (before : List Fact) → HasPlace before result }
{
    match given {
        Record::Consumed { seq, upto } => Note::Consumed { seq, upto },
        Record::Dropped { seq, upto } => Note::Dropped { seq, upto },
        Record::Purged { seq, numbers } => Note::Purged { seq, numbers },
        _ => unreachable!(),
    }
}
