//! How a sequence came to be.
ghost use Rattle.std.specs.Prelude.{◌≡◌, ℕ, if◌then◌else◌, Some, true, map, slice_get};
ghost use Rattle.std.specs.Option.{option_map};
ghost use Rattle.record_batch.specs.Fact.{fact_of};
ghost use Rattle.record_batch.specs.Sequences.Find.{is_incoming};
ghost use Rattle.record_batch.specs.Sequences.Fits.{is_outgoing_side};
ghost use Rattle.record_batch.specs.Sequences.Idents.{IsIssuedFor};
ghost use Rattle.record_batch.specs.Sequences.Makers.{makers_of};
ghost use Rattle.record_batch.specs.Sequences.Words.{Text};
ghost use Rattle.node_tables.specs.Kept.{kept_at};
ghost use Rattle.node_tables.specs.Reads.{is_asked, maker_seen};

use crate::note::Origin;
use record_batch::{Record, Via};
use rm_base::{Behaviour, Ident, Lapse, Uri};
use wsa_headers::Epr;

/// How a sequence came to be, as the record that made it has it: WS-ReliableMessaging 1.2, section 3.4. Asked: with
/// CreateSequence. Offered: the incoming one of its Offer. Granted: to a peer. Taken: the outgoing one of the peer's
/// Offer.
#[derive(Clone, Copy)]
pub enum Maker<'a> {
    Asked {
        ticket: u64,
        to: &'a Uri,
        via: Via,
        lapse: Lapse,
    },
    Offered {
        ticket: u64,
        counter: u64,
        to: &'a Uri,
        behaviour: Behaviour,
    },
    Granted {
        counter: u64,
        message_id: &'a Uri,
        acks_to: &'a Epr,
        behaviour: Behaviour,
        deadline: Option<u64>,
        lapse: Lapse,
    },
    Taken {
        message_id: &'a Uri,
        ident: &'a Ident,
        endpoint: &'a Epr,
    },
}

impl<'a> Maker<'a> {
    /// Whether the sequence is incoming, and its identifier is what the node issues for this number.
    pub fn is_incoming(self, drawn: Option<u64>) -> bool
        ensures { (node s : ℕ) (q : Text) → IsIssuedFor node q drawn
            → result ≡ is_incoming node q s (maker_seen self.entry) }
    {
        match self {
            Maker::Granted { counter, .. } => drawn == Some(counter),
            Maker::Offered { counter, .. } => drawn == Some(counter),
            Maker::Asked { .. } | Maker::Taken { .. } => false,
        }
    }

    /// Whether the sequence was asked for by the message whose identifier is what the node issues for this number.
    pub fn is_asked(self, drawn: Option<u64>) -> bool
        ensures is { (node : ℕ) (q : Text) → IsIssuedFor node q drawn
            → result ≡ is_asked node q (maker_seen self.entry) }
        ensures sends { result ≡ true → is_outgoing_side (Some (maker_seen self.entry)) ≡ true }
    {
        match self {
            Maker::Asked { ticket, .. } => drawn == Some(ticket),
            Maker::Offered { .. } | Maker::Granted { .. } | Maker::Taken { .. } => false,
        }
    }
}

/// How the first or the second sequence of the record at a place came to be.
pub(crate) fn maker_at(kept: &[Record], origin: Origin) -> Option<Maker<'_>>
    ensures { option_map maker_seen result ≡ slice_get (makers_of (kept_at (map fact_of kept.now) origin.made))
        (if origin.is_second then 1 else 0) }
{
    match kept.get(origin.made) {
        Some(known) => {
            if origin.is_second {
                maker_by(known, 1)
            } else {
                maker_by(known, 0)
            }
        }
        None => None,
    }
}

/// How the sequence at a place came to be among those that a record makes, counted from 0.
pub fn maker_by(known: &Record, place: usize) -> Option<Maker<'_>>
    ensures { option_map maker_seen result ≡ slice_get (makers_of (fact_of known.now)) place }
{
    match place {
        0 => first_of(known),
        1 => second_of(known),
        _ => None,
    }
}

/// How the first sequence of a record came to be.
fn first_of(known: &Record) -> Option<Maker<'_>>
    ensures { option_map maker_seen result ≡ slice_get (makers_of (fact_of known.now)) 0 }
{
    match known {
        Record::Creating {
            ticket,
            to,
            via,
            lapse,
            ..
        } => Some(Maker::Asked {
            ticket: *ticket,
            to,
            via: *via,
            lapse: *lapse,
        }),
        Record::Granted {
            counter,
            message_id,
            acks_to,
            behaviour,
            deadline,
            lapse,
            ..
        } => Some(Maker::Granted {
            counter: *counter,
            message_id,
            acks_to,
            behaviour: *behaviour,
            deadline: *deadline,
            lapse: *lapse,
        }),
        _ => None,
    }
}

/// How the second sequence of a record came to be.
fn second_of(known: &Record) -> Option<Maker<'_>>
    ensures { option_map maker_seen result ≡ slice_get (makers_of (fact_of known.now)) 1 }
{
    match known {
        Record::Creating {
            ticket,
            to,
            offer: Some(offer),
            ..
        } => Some(Maker::Offered {
            ticket: *ticket,
            counter: offer.counter,
            to,
            behaviour: offer.behaviour,
        }),
        Record::Granted {
            message_id,
            offer: Some(offer),
            ..
        } => Some(Maker::Taken {
            message_id,
            ident: &offer.ident,
            endpoint: &offer.endpoint,
        }),
        _ => None,
    }
}
