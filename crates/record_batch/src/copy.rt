//! Copies of records.
ghost use Rattle.std.specs.Prelude.{◌≡◌, IfOk};
ghost use Rattle.record_batch.specs.Fact.{Acked, Created, Creating, Fact, Purged, Received, fact_of};

use crate::record::{OwnOffer, PeerOffer, Record, Via};
use rm_base::{Binding, Bindings, Ident, Lapse, Memory, Payload, Uri};
use rm_sides::ranges::RangeSet;
use std::alloc::Global;
use wsa_headers::{Epr, copy_reference};

fn copy_scope(alloc: Global, scope: &Bindings) -> Result<Bindings, Memory>
    ensures { IfOk result (λ copy. copy ≡ scope.now) }
{
    let mut copy = Bindings::new(alloc);
    for binding in scope.as_slice() {
        let prefix = binding.prefix.copy()?;
        let space = binding.space.copy()?;
        copy.push(Binding { prefix, space })?;
    }
    Ok(copy)
}

/// What a message carries, again.
pub fn copy_payload(alloc: Global, payload: &Payload) -> Result<Payload, Memory>
    ensures { IfOk result (λ copy. copy ≡ payload.now) }
{
    Ok(Payload {
        bytes: payload.bytes.copy()?,
        scope: copy_scope(alloc, &payload.scope)?,
    })
}

fn copy_offer(alloc: Global, offer: &Option<PeerOffer>) -> Result<Option<PeerOffer>, Memory>
    ensures { IfOk result (λ copy. copy ≡ offer.now) }
{
    match offer {
        Some(offer) => Ok(Some(PeerOffer {
            ident: offer.ident.copy()?,
            endpoint: offer.endpoint.copy(alloc)?,
        })),
        None => Ok(None),
    }
}

fn copy_creating(
    ticket: u64,
    to: &Uri,
    via: Via,
    lapse: Lapse,
    offer: Option<OwnOffer>,
) -> Result<Record, Memory>
    ensures { IfOk result (λ copy. fact_of copy ≡ Creating ticket to.now via lapse offer) }
{
    Ok(Record::Creating {
        ticket,
        to: to.copy()?,
        via,
        lapse,
        offer,
    })
}

fn copy_created(
    alloc: Global,
    seq: u32,
    ident: &Ident,
    accept: &Option<Epr>,
) -> Result<Record, Memory>
    ensures { IfOk result (λ copy. fact_of copy ≡ Created seq ident.now accept.now) }
{
    Ok(Record::Created {
        seq,
        ident: ident.copy()?,
        accept: copy_reference(alloc, accept)?,
    })
}

/// A record of acknowledged numbers, with a copy of them.
pub fn copy_acked(seq: u32, numbers: &RangeSet) -> Result<Record, Memory>
    ensures { IfOk result (λ copy. fact_of copy ≡ Acked seq numbers.now.ranges) }
{
    Ok(Record::Acked {
        seq,
        numbers: numbers.copy()?,
    })
}

/// A record of the numbers of messages that are gone, with a copy of them.
pub fn copy_purged(seq: u32, numbers: &RangeSet) -> Result<Record, Memory>
    ensures { IfOk result (λ copy. fact_of copy ≡ Purged seq numbers.now.ranges) }
{
    Ok(Record::Purged {
        seq,
        numbers: numbers.copy()?,
    })
}

/// A record of a message that was received, with a copy of what it carries.
pub fn copy_received(
    alloc: Global,
    seq: u32,
    number: u64,
    payload: &Payload,
) -> Result<Record, Memory>
    ensures { IfOk result (λ copy. fact_of copy ≡ Received seq number payload.now) }
{
    Ok(Record::Received {
        seq,
        number,
        payload: copy_payload(alloc, payload)?,
    })
}

impl Record {
    /// The same record again.
    pub fn copy(&self, alloc: Global) -> Result<Self, Memory>
        ensures { IfOk result (λ copy. fact_of copy ≡ fact_of self.now) }
    {
        match self {
            Record::Made { node, address } => Ok(Record::Made {
                node: *node,
                address: address.copy()?,
            }),
            Record::Creating {
                ticket,
                to,
                via,
                lapse,
                offer,
            } => copy_creating(*ticket, to, *via, *lapse, *offer),
            Record::Created { seq, ident, accept } => copy_created(alloc, *seq, ident, accept),
            Record::Granted {
                counter,
                message_id,
                acks_to,
                behaviour,
                deadline,
                lapse,
                offer,
            } => Ok(Record::Granted {
                counter: *counter,
                message_id: message_id.copy()?,
                acks_to: acks_to.copy(alloc)?,
                behaviour: *behaviour,
                deadline: *deadline,
                lapse: *lapse,
                offer: copy_offer(alloc, offer)?,
            }),
            Record::Accepted { seq, payload } => Ok(Record::Accepted {
                seq: *seq,
                payload: payload.copy()?,
            }),
            Record::Acked { seq, numbers } => copy_acked(*seq, numbers),
            Record::Received {
                seq,
                number,
                payload,
            } => copy_received(alloc, *seq, *number, payload),
            Record::Closing { seq, ticket } => Ok(Record::Closing {
                seq: *seq,
                ticket: *ticket,
            }),
            Record::ClosedOut { seq } => Ok(Record::ClosedOut { seq: *seq }),
            Record::Closed { seq, cause, last } => Ok(Record::Closed {
                seq: *seq,
                cause: *cause,
                last: *last,
            }),
            Record::Ending { seq, ticket } => Ok(Record::Ending {
                seq: *seq,
                ticket: *ticket,
            }),
            Record::EndedOut { seq } => Ok(Record::EndedOut { seq: *seq }),
            Record::Ended { seq, cause, last } => Ok(Record::Ended {
                seq: *seq,
                cause: *cause,
                last: *last,
            }),
            Record::Failed { seq, fault } => Ok(Record::Failed {
                seq: *seq,
                fault: *fault,
            }),
            Record::Consumed { seq, upto } => Ok(Record::Consumed {
                seq: *seq,
                upto: *upto,
            }),
            Record::Dropped { seq, upto } => Ok(Record::Dropped {
                seq: *seq,
                upto: *upto,
            }),
            Record::Purged { seq, numbers } => copy_purged(*seq, numbers),
        }
    }
}
