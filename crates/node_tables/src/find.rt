//! Sequences by what records name them with.
ghost use Rattle.std.specs.Prelude.{◌≡◌, ◌≤◌, length, map, false, slice_get, None};
ghost use Rattle.std.specs.List.{flat_map};
ghost use Rattle.std.specs.Option.{option_copied, option_map};
ghost use Rattle.std.specs.Str.{bytes_eq};
ghost use Rattle.record_batch.specs.Fact.{fact_of};
ghost use Rattle.record_batch.specs.Sequences.Find.{accept_of, find_from, is_granted};
ghost use Rattle.record_batch.specs.Sequences.Makers.{addresses_of, ident_in, seq_in};
ghost use Rattle.record_batch.specs.Sequences.Words.{at_seq, first_or};
ghost use Rattle.node_tables.specs.Kept.{AreGiven, accept_at, ident_given, kept_at, maker_at, named_at};
ghost use Rattle.node_tables.specs.Reads.{ident_by, maker_from};

use crate::note::{Named, Origin};
use record_batch::Record;
use rm_base::{Ident, Uri};
use wsa_headers::Epr;

/// The node's address, where a record gives one.
pub(crate) fn find_address(kept: &[Record]) -> Option<&Uri>
    ensures { option_copied result ≡ slice_get (flat_map addresses_of (map fact_of kept.now)) 0 }
{
    for known in kept {
        if let Record::Made { address, .. } = known {
            return Some(address);
        }
    }
    None
}

/// The identifier that is given to a sequence.
pub(crate) fn find_ident<'a>(kept: &'a [Record], named: &[Named], seq: u32) -> Option<&'a Ident>
    requires { AreGiven (map fact_of kept.now) named.now }
    ensures { option_copied result ≡ ident_in (map (named_at (map fact_of kept.now)) named.now) seq }
{
    for given in named {
        if given.seq == seq {
            return ident_at(kept, given.place);
        }
    }
    None
}

/// The identifier that the record at a place gives.
fn ident_at(kept: &[Record], place: usize) -> Option<&Ident>
    ensures { option_copied result ≡ ident_by (kept_at (map fact_of kept.now) place) }
{
    match kept.get(place) {
        Some(known) => ident_by(known),
        None => None,
    }
}

/// The identifier that a record gives.
fn ident_by(known: &Record) -> Option<&Ident>
    ensures { option_copied result ≡ ident_by (fact_of known.now) }
{
    match known {
        Record::Created { ident, .. } => Some(ident),
        Record::Granted {
            offer: Some(offer),
            ..
        } => Some(&offer.ident),
        _ => None,
    }
}

/// The AcksTo that came with the identifier of a sequence.
pub(crate) fn find_accept<'a>(kept: &'a [Record], named: &[Named], seq: u32) -> Option<&'a Epr>
    ensures { option_copied result
        ≡ first_or None (at_seq seq (flat_map (accept_at (map fact_of kept.now)) named.now)) }
{
    for given in named {
        if let Some(accept) = accept_at(kept, given.place, seq) {
            return accept;
        }
    }
    None
}

/// What came with the identifier that the record at a place gives to a sequence.
fn accept_at(kept: &[Record], place: usize, seq: u32) -> Option<Option<&Epr>>
    ensures { option_map option_copied result
        ≡ slice_get (at_seq seq (accept_of (kept_at (map fact_of kept.now) place))) 0 }
{
    match kept.get(place) {
        Some(known) => accept_by(known, seq),
        None => None,
    }
}

/// What came with the identifier that a record gives to a sequence.
fn accept_by(known: &Record, seq: u32) -> Option<Option<&Epr>>
    ensures { option_map option_copied result ≡ slice_get (at_seq seq (accept_of (fact_of known.now))) 0 }
{
    match known {
        Record::Created {
            seq: of,
            accept,
            ..
        } => {
            if *of == seq {
                Some(accept.as_ref())
            } else {
                None
            }
        }
        _ => None,
    }
}

/// The first outgoing sequence that was given an identifier.
pub(crate) fn find_named(kept: &[Record], named: &[Named], ident: &[u8]) -> Option<u32>
    ensures { result ≡ seq_in (map (named_at (map fact_of kept.now)) named.now) ident.now }
{
    for given in named {
        if gives_at(kept, given.place, ident) {
            return Some(given.seq);
        }
    }
    None
}

/// Whether the record at a place gives an identifier to an outgoing sequence.
fn gives_at(kept: &[Record], place: usize, ident: &[u8]) -> bool
    ensures { result ≡ bytes_eq (ident_given (kept_at (map fact_of kept.now) place)) ident.now }
{
    match kept.get(place) {
        Some(known) => gives(known, ident),
        None => ident.is_empty(),
    }
}

/// Whether a record gives an identifier to an outgoing sequence. The empty one is given by each other record.
fn gives(known: &Record, ident: &[u8]) -> bool
    ensures { result ≡ bytes_eq (ident_given (fact_of known.now)) ident.now }
{
    match known {
        Record::Created { ident: given, .. } => given.as_slice() == ident,
        Record::Granted {
            offer: Some(offer),
            ..
        } => offer.ident.as_slice() == ident,
        _ => ident.is_empty(),
    }
}

/// The first sequence that was granted for a message.
pub(crate) fn find_granted(kept: &[Record], origins: &[Origin], message_id: &[u8]) -> Option<u32>
    requires { length origins.now ≤ 4294967295 }
    ensures { result ≡ find_from (is_granted message_id.now) 0 (map (maker_at (map fact_of kept.now)) origins.now) }
{
    let mut seq = 0;
    for origin in origins {
        seq += 1;
        if grants_at(kept, origin.made, origin.is_second, message_id) {
            return Some(seq);
        }
    }
    None
}

/// Whether the first or the second sequence of the record at a place was granted for a message.
fn grants_at(kept: &[Record], place: usize, is_second: bool, message_id: &[u8]) -> bool
    ensures { result ≡ is_granted message_id.now 0 (maker_from (kept_at (map fact_of kept.now) place) is_second) }
{
    match kept.get(place) {
        Some(known) => grants(known, is_second, message_id),
        None => false,
    }
}

/// Whether the first or the second sequence of a record was granted for a message.
fn grants(known: &Record, is_second: bool, message_id: &[u8]) -> bool
    ensures { result ≡ is_granted message_id.now 0 (maker_from (fact_of known.now) is_second) }
{
    if is_second {
        return false;
    }
    match known {
        Record::Granted {
            message_id: given,
            ..
        } => given.as_slice() == message_id,
        _ => false,
    }
}
