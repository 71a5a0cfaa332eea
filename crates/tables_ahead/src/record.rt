//! What one record says.
ghost use Rattle.std.specs.Prelude.{◌≡◌, ◌+◌, ◌≤◌, true, length, not, slice_get};
ghost use Rattle.std.specs.Option.{option_copied, option_map};
ghost use Rattle.record_batch.specs.Fact.{fact_of};
ghost use Rattle.rm_sides.specs.Destination.Messages.{any_true};
ghost use Rattle.record_batch.specs.Sequences.Destinations.{close_of, received_of};
ghost use Rattle.record_batch.specs.Sequences.Find.{accept_of};
ghost use Rattle.record_batch.specs.Sequences.Makers.{created_of, draws_of, ident_in, makers_of, seq_in};
ghost use Rattle.record_batch.specs.Sequences.Sources.{accepted_of, acked_of, mark_of};
ghost use Rattle.rm_sides.specs.Destination.Messages.{is_empty, numbers_of};
ghost use Rattle.record_batch.specs.Sequences.Words.{at_seq, last_or};
ghost use Rattle.node_tables.specs.Room.{has_room};
ghost use Rattle.tables_ahead.specs.Known.{ranges_in};

use record_batch::Record;
use rm_base::Ident;
use rm_sides::ranges::RangeSet;
use rm_sides::source::OutPhase;
use wsa_headers::Epr;

/// How many numbers a record draws.
pub(crate) fn drawn_by(given: &Record) -> u64
    ensures { result ≡ length (draws_of (fact_of given.now)) }
{
    match given {
        Record::Creating { offer: Some(_), .. } => 2,
        Record::Creating { .. } | Record::Granted { .. } => 1,
        Record::Closing { .. } | Record::Ending { .. } => 1,
        _ => 0,
    }
}

/// The identifier that a record gives to a sequence, behind so many sequences that were made.
pub(crate) fn ident_by(given: &Record, made: u32, seq: u32) -> Option<&Ident>
    requires { made + length (makers_of (fact_of given.now)) ≤ 4294967295 }
    ensures { option_copied result ≡ ident_in (created_of made (fact_of given.now)) seq }
{
    match given {
        Record::Created {
            seq: named,
            ident,
            ..
        } => {
            if *named == seq {
                return Some(ident);
            }
            None
        }
        Record::Granted {
            offer: Some(offer),
            ..
        } => {
            if made + 2 == seq {
                return Some(&offer.ident);
            }
            None
        }
        _ => None,
    }
}

/// The sequence to which a record gives an identifier, behind so many sequences that were made.
pub(crate) fn named_by(given: &Record, made: u32, ident: &[u8]) -> Option<u32>
    requires { made + length (makers_of (fact_of given.now)) ≤ 4294967295 }
    ensures { result ≡ seq_in (created_of made (fact_of given.now)) ident.now }
{
    match given {
        Record::Created {
            seq,
            ident: named,
            ..
        } => {
            if named.as_slice() == ident {
                return Some(*seq);
            }
            None
        }
        Record::Granted {
            offer: Some(offer),
            ..
        } => {
            if offer.ident.as_slice() == ident {
                return Some(made + 2);
            }
            None
        }
        _ => None,
    }
}

/// The AcksTo, or none, that a record gives to the offer of a sequence.
pub(crate) fn accept_by(given: &Record, seq: u32) -> Option<Option<&Epr>>
    ensures { option_map option_copied result ≡ slice_get (at_seq seq (accept_of (fact_of given.now))) 0 }
{
    match given {
        Record::Created {
            seq: named,
            accept,
            ..
        } => {
            if *named == seq {
                return Some(accept.as_ref());
            }
            None
        }
        _ => None,
    }
}

/// Whether a record accepts a payload for a sequence.
pub(crate) fn accepted_by(given: &Record, seq: u32) -> u64
    ensures { result ≡ length (accepted_of seq (fact_of given.now)) }
{
    match given {
        Record::Accepted { seq: named, .. } => (*named == seq) as u64,
        _ => 0,
    }
}

/// The numbers of a sequence that a record acknowledges.
pub(crate) fn acked_by(given: &Record, seq: u32) -> Option<&RangeSet>
    requires { has_room (fact_of given.now) ≡ true }
    ensures { ranges_in (option_copied result) ≡ acked_of seq (fact_of given.now) }
{
    match given {
        Record::Acked {
            seq: named,
            numbers,
        } => {
            if *named == seq {
                return Some(numbers);
            }
            None
        }
        _ => None,
    }
}

/// The phase of a sequence after a record.
pub(crate) fn phase_after(phase: OutPhase, given: &Record, seq: u32) -> OutPhase
    ensures { result ≡ last_or phase (at_seq seq (mark_of (fact_of given.now))) }
{
    let (named, next) = match given {
        Record::Closing { seq: named, .. } => (*named, OutPhase::Closing),
        Record::ClosedOut { seq: named } => (*named, OutPhase::Closed),
        Record::Ending { seq: named, .. } => (*named, OutPhase::Ending),
        Record::EndedOut { seq: named } => (*named, OutPhase::Ended),
        Record::Failed { seq: named, .. } => (*named, OutPhase::Failed),
        _ => return phase,
    };
    if named == seq { next } else { phase }
}

/// The number that a record receives for a sequence.
pub(crate) fn number_by(given: &Record, seq: u32) -> Option<u64>
    ensures { result ≡ slice_get (numbers_of (received_of seq (fact_of given.now))) 0 }
{
    match given {
        Record::Received {
            seq: named,
            number,
            ..
        } => {
            if *named == seq {
                return Some(*number);
            }
            None
        }
        _ => None,
    }
}

/// Whether a record closes or ends an incoming sequence.
pub(crate) fn stops(given: &Record, seq: u32) -> bool
    ensures { result ≡ not (is_empty (at_seq seq (close_of (fact_of given.now)))) }
{
    match given {
        Record::Closed { seq: named, .. } => *named == seq,
        Record::Ended { seq: named, .. } => *named == seq,
        _ => false,
    }
}

/// Whether a record ends an incoming sequence.
pub(crate) fn ends(given: &Record, seq: u32) -> bool
    ensures { result ≡ any_true (at_seq seq (close_of (fact_of given.now))) }
{
    match given {
        Record::Ended { seq: named, .. } => *named == seq,
        _ => false,
    }
}
