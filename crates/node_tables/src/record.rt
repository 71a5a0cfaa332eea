//! What a record says of the node, and the traces that it leaves in the tables.
ghost use Rattle.std.specs.Prelude.{◌≡◌, ◌+◌, ◌<◌, ◌≤◌, ◌++◌, length, vec_len, vec_capacity};
ghost use Rattle.record_batch.specs.Fact.{fact_of};
ghost use Rattle.record_batch.specs.Sequences.Fits.{offer_fits};
ghost use Rattle.record_batch.specs.Sequences.Makers.{draws_of, makers_of};
ghost use Rattle.record_batch.specs.Sequences.OneMore.{number_after};
ghost use Rattle.record_batch.specs.Sequences.Told.{names};
ghost use Rattle.record_batch.specs.Sequences.Words.{last_or};
ghost use Rattle.node_tables.specs.Kept.{names_for, origins_for};

use crate::note::{Named, Origin};
use record_batch::sequences::made_by;
use record_batch::{OwnOffer, Record};

/// The sequence that a record names, and 0 where it names none.
pub(crate) fn named_by(given: &Record) -> u32
    ensures { result ≡ names (fact_of given.now) }
{
    match given {
        Record::Made { .. } | Record::Creating { .. } | Record::Granted { .. } => 0,
        Record::Created { seq, .. } | Record::Accepted { seq, .. } => *seq,
        Record::Acked { seq, .. } | Record::Received { seq, .. } => *seq,
        Record::Closing { seq, .. } | Record::ClosedOut { seq } => *seq,
        Record::Closed { seq, .. } | Record::Ending { seq, .. } => *seq,
        Record::EndedOut { seq } | Record::Ended { seq, .. } | Record::Failed { seq, .. } => *seq,
        Record::Consumed { seq, .. } | Record::Dropped { seq, .. } | Record::Purged { seq, .. } =>
            *seq,
    }
}

/// Whether an offer may come next, after the last number that was drawn.
pub(crate) fn offer_fits(drawn: u64, offer: Option<OwnOffer>) -> bool
    ensures { result ≡ offer_fits drawn offer }
{
    match offer {
        Some(offer) => offer.counter > 1 && offer.counter - 2 == drawn,
        None => true,
    }
}

/// The node's number after a record.
pub(crate) fn number_after(number: u64, given: &Record) -> u64
    ensures { result ≡ number_after number (fact_of given.now) }
{
    match given {
        Record::Made { node, .. } => *node,
        _ => number,
    }
}

/// The last number that was drawn, after a record.
pub(crate) fn drawn_after(drawn: u64, given: &Record) -> u64
    ensures { result ≡ last_or drawn (draws_of (fact_of given.now)) }
{
    match given {
        Record::Creating { ticket, offer, .. } => match offer {
            Some(offer) => offer.counter,
            None => *ticket,
        },
        Record::Granted { counter, .. } => *counter,
        Record::Closing { ticket, .. } | Record::Ending { ticket, .. } => *ticket,
        _ => drawn,
    }
}

/// Notes the record at a place as what made its sequences.
pub(crate) fn trace(origins: &mut Vec<Origin>, given: &Record, made: usize)
    requires { vec_len origins.old + 2 ≤ vec_capacity origins.old }
    ensures items { origins.new.items ≡ origins.old.items ++ origins_for made (fact_of given.now) }
    ensures len { vec_len origins.new ≤ vec_len origins.old + 2 }
    ensures capacity { vec_capacity origins.new ≡ vec_capacity origins.old }
{
    let count = made_by(given);
    if count > 0 {
        origins.push_reserved(Origin {
            made,
            is_second: false,
        });
    }
    if count > 1 {
        origins.push_reserved(Origin {
            made,
            is_second: true,
        });
    }
}

/// Notes the record at a place as what gave an outgoing sequence its identifier, after `len` sequences were made.
pub(crate) fn name(named: &mut Vec<Named>, given: &Record, len: usize, place: usize)
    requires room { vec_len named.old < vec_capacity named.old }
    requires places { len + length (makers_of (fact_of given.now)) ≤ 4294967295 }
    ensures items { named.new.items ≡ named.old.items ++ names_for len place (fact_of given.now) }
    ensures len { vec_len named.new ≤ vec_len named.old + 1 }
    ensures capacity { vec_capacity named.new ≡ vec_capacity named.old }
{
    match given {
        Record::Created { seq, .. } => named.push_reserved(Named { seq: *seq, place }),
        Record::Granted { offer: Some(_), .. } => named.push_reserved(Named {
            seq: len as u32 + 2,
            place,
        }),
        _ => {}
    }
}
