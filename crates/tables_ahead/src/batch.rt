//! What a batch of records says.
ghost use Rattle.std.specs.Prelude.{◌≡◌, ◌+◌, ◌≤◌, length, map, min, slice_get};
ghost use Rattle.std.specs.List.{flat_map};
ghost use Rattle.std.specs.Option.{option_copied, option_map};
ghost use Rattle.record_batch.specs.Fact.{fact_of};
ghost use Rattle.rm_sides.specs.Destination.Messages.{numbers_of};
ghost use Rattle.record_batch.specs.Sequences.Destinations.{has_end, is_stopped, received};
ghost use Rattle.record_batch.specs.Sequences.Find.{accept_of};
ghost use Rattle.record_batch.specs.Sequences.Makers.{counter, created_from, ident_in, makers, seq_in};
ghost use Rattle.record_batch.specs.Sequences.Sources.{accepted, marks};
ghost use Rattle.record_batch.specs.Sequences.Words.{at_seq, last_or};
ghost use Rattle.rm_base.specs.NumberSet.{has_number};
ghost use Rattle.node_tables.specs.Reads.{maker_seen};

use crate::record::{
    accept_by, accepted_by, drawn_by, ends, ident_by, named_by, number_by, phase_after, stops,
};
use node_tables::{Maker, maker_by};
use record_batch::Record;
use record_batch::sequences::made_by;
use rm_base::Ident;
use rm_sides::source::OutPhase;
use wsa_headers::Epr;

/// How many numbers were drawn, after so many, or the greatest number of 64 bits.
pub(crate) fn drawn_in(batch: &[Record], drawn: u64) -> u64
    ensures { result ≡ min (drawn + counter (map fact_of batch.now)) 18446744073709551615 }
{
    let mut count = drawn;
    for given in batch {
        count = count.saturating_add(drawn_by(given));
    }
    count
}

/// How the sequence at a place came to be among those that the batch makes, counted from 0.
pub(crate) fn maker_in(batch: &[Record], place: usize) -> Option<Maker<'_>>
    ensures { option_map maker_seen result ≡ slice_get (makers (map fact_of batch.now)) place }
{
    let mut left = place;
    for given in batch {
        let made = made_by(given) as usize;
        if left < made {
            return maker_by(given, left);
        }
        left -= made;
    }
    None
}

/// The identifier that the batch gives to a sequence, behind so many sequences that were made.
pub(crate) fn find_ident(batch: &[Record], made: u32, seq: u32) -> Option<&Ident>
    requires { made + length (makers (map fact_of batch.now)) ≤ 4294967295 }
    ensures { option_copied result ≡ ident_in (created_from made (map fact_of batch.now)) seq }
{
    let mut count = made;
    for given in batch {
        if let Some(ident) = ident_by(given, count, seq) {
            return Some(ident);
        }
        count += made_by(given);
    }
    None
}

/// The first sequence to which the batch gives an identifier, behind so many sequences that were made.
pub(crate) fn find_named(batch: &[Record], made: u32, ident: &[u8]) -> Option<u32>
    requires { made + length (makers (map fact_of batch.now)) ≤ 4294967295 }
    ensures { result ≡ seq_in (created_from made (map fact_of batch.now)) ident.now }
{
    let mut count = made;
    for given in batch {
        if let Some(seq) = named_by(given, count, ident) {
            return Some(seq);
        }
        count += made_by(given);
    }
    None
}

/// The AcksTo, or none, that the batch gives to the offer of a sequence.
pub(crate) fn find_accept(batch: &[Record], seq: u32) -> Option<Option<&Epr>>
    ensures { option_map option_copied result
        ≡ slice_get (at_seq seq (flat_map accept_of (map fact_of batch.now))) 0 }
{
    for given in batch {
        if let Some(accept) = accept_by(given, seq) {
            return Some(accept);
        }
    }
    None
}

/// How many payloads the batch accepts for a sequence.
pub(crate) fn accepted_in(batch: &[Record], seq: u32) -> u64
    ensures count { result ≡ length (accepted (map fact_of batch.now) seq) }
    ensures few { result ≤ length batch.now }
{
    let mut count = 0;
    for given in batch {
        count += accepted_by(given, seq);
    }
    count
}

/// The phase of a sequence after the batch.
pub(crate) fn phase_in(batch: &[Record], seq: u32, phase: OutPhase) -> OutPhase
    ensures { result ≡ last_or phase (marks (map fact_of batch.now) seq) }
{
    let mut last = phase;
    for given in batch {
        last = phase_after(last, given, seq);
    }
    last
}

/// Whether the batch receives a message with a number for a sequence.
pub(crate) fn has_in(batch: &[Record], seq: u32, number: u64) -> bool
    ensures { result ≡ has_number (numbers_of (received (map fact_of batch.now) seq)) number }
{
    for given in batch {
        if number_by(given, seq) == Some(number) {
            return true;
        }
    }
    false
}

/// Whether the batch closes or ends an incoming sequence.
pub(crate) fn stops_in(batch: &[Record], seq: u32) -> bool
    ensures { result ≡ is_stopped (map fact_of batch.now) seq }
{
    for given in batch {
        if stops(given, seq) {
            return true;
        }
    }
    false
}

/// Whether the batch ends an incoming sequence.
pub(crate) fn ends_in(batch: &[Record], seq: u32) -> bool
    ensures { result ≡ has_end (map fact_of batch.now) seq }
{
    for given in batch {
        if ends(given, seq) {
            return true;
        }
    }
    false
}
