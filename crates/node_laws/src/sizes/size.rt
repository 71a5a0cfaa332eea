//! How many bytes records and batches take.
ghost use Rattle.std.specs.Prelude.{◌≡◌, ◌+◌, ◌*◌, length, map, IfOk, OnOk, IfSome};
ghost use Rattle.std.specs.List.{AllByRecursion};
ghost use Rattle.rm_sides.specs.Ranges.Ranges.{IsCanonical};
ghost use Rattle.rm_base.specs.Text.{IsText};
ghost use Rattle.record_batch.specs.Batch.{batch_text};
ghost use Rattle.record_batch.specs.Fact.{fact_of};
ghost use Rattle.record_batch.specs.Writable.{IsLapseWritable, IsNumber32, IsNumber64, IsOwnOfferWritable};
ghost use Rattle.node_laws.specs.Sizes.Size.{accept_size, capped, deadline_size, endpoint_size, fact_size};
ghost use Rattle.node_laws.specs.Sizes.Size.{own_offer_size, payload_size, peer_offer_size};
ghost use Rattle.node_laws.specs.Sizes.Typed.{IsPeerOfferTyped, IsTyped};

use crate::sizes::parts::{
    accept_len, deadline_len, endpoint_len, ident_len, lapse_len, own_offer_len, payload_len,
    peer_offer_len, ranges_len, u8_len, u32_len, u64_len, uri_len,
};
use record_batch::{OwnOffer, PeerOffer, Record};
use rm_base::{Blob, Ident, Lapse, Memory, Payload, Uri};
use rm_sides::ranges::RangeSet;
use std::alloc::Global;
use wsa_headers::Epr;

fn made_len(node: u64, address: &Uri) -> u64
    ensures len { result ≡ 13 + length address.now }
    ensures typed { IsNumber64 node × IsText 2048 address.now }
{
    5 + u64_len(node) + uri_len(address)
}

// What a request for a sequence has besides the way of answers.
fn creating_len(ticket: u64, to: &Uri, lapse: Lapse, offer: Option<OwnOffer>) -> u64
    ensures len { result ≡ 30 + length to.now + own_offer_size offer }
    ensures typed { IsNumber64 ticket × IsText 2048 to.now × IsLapseWritable lapse × IfSome offer IsOwnOfferWritable }
{
    6 + u64_len(ticket) + uri_len(to) + lapse_len(lapse) + own_offer_len(offer)
}

fn created_len(alloc: Global, seq: u32, ident: &Ident, accept: &Option<Epr>) -> Result<u64, Memory>
    ensures len { IfOk result (λ n. n ≡ capped (9 + length ident.now + accept_size accept.now)) }
    ensures typed { OnOk result (IsNumber32 seq × IsText 512 ident.now) }
{
    let named = 5 + u32_len(seq) + ident_len(ident);
    Ok(accept_len(alloc, accept)?.saturating_add(named))
}

// What a granted request has besides its endpoint references and the offer.
fn granted_len(counter: u64, message_id: &Uri, deadline: Option<u64>, lapse: Lapse) -> u64
    ensures len { result ≡ 30 + length message_id.now + deadline_size deadline }
    ensures typed { IsNumber64 counter × IsText 2048 message_id.now × IfSome deadline IsNumber64
        × IsLapseWritable lapse }
{
    6 + u64_len(counter) + uri_len(message_id) + deadline_len(deadline) + lapse_len(lapse)
}

// The endpoint references of a granted request, and the offer.
fn places_len(alloc: Global, acks_to: &Epr, offer: &Option<PeerOffer>) -> Result<u64, Memory>
    ensures len { IfOk result (λ n. n ≡ capped (endpoint_size acks_to.now + peer_offer_size offer.now)) }
    ensures typed { OnOk result (IfSome offer.now IsPeerOfferTyped) }
{
    let acks_to = endpoint_len(alloc, acks_to)?;
    Ok(acks_to.saturating_add(peer_offer_len(alloc, offer)?))
}

fn accepted_len(seq: u32, payload: &Blob) -> u64
    ensures len { result ≡ capped (9 + length payload.now) }
    ensures typed { IsNumber32 seq }
{
    (payload.len() as u64).saturating_add(5 + u32_len(seq))
}

// Acked and Purged.
fn numbers_len(seq: u32, numbers: &RangeSet) -> u64
    ensures len { result ≡ capped (9 + 16 * length numbers.now.ranges) }
    ensures typed { IsNumber32 seq × IsCanonical numbers.now.ranges }
{
    ranges_len(numbers).saturating_add(5 + u32_len(seq))
}

fn received_len(seq: u32, number: u64, payload: &Payload) -> u64
    ensures len { result ≡ capped (13 + payload_size payload.now) }
    ensures typed { IsNumber32 seq × IsNumber64 number }
{
    payload_len(payload).saturating_add(1 + u32_len(seq) + u64_len(number))
}

fn record_len(alloc: Global, given: &Record) -> Result<u64, Memory>
    ensures len { IfOk result (λ n. n ≡ capped (fact_size (fact_of given.now))) }
    ensures typed { OnOk result (IsTyped (fact_of given.now)) }
{
    match given {
        Record::Made { node, address } => Ok(made_len(*node, address)),
        Record::Creating {
            ticket,
            to,
            lapse,
            offer,
            ..
        } => Ok(creating_len(*ticket, to, *lapse, *offer)),
        Record::Created { seq, ident, accept } => created_len(alloc, *seq, ident, accept),
        Record::Granted {
            counter,
            message_id,
            acks_to,
            deadline,
            lapse,
            offer,
            ..
        } => {
            let places = places_len(alloc, acks_to, offer)?;
            Ok(places.saturating_add(granted_len(*counter, message_id, *deadline, *lapse)))
        }
        Record::Accepted { seq, payload } => Ok(accepted_len(*seq, payload)),
        Record::Acked { seq, numbers } => Ok(numbers_len(*seq, numbers)),
        Record::Received {
            seq,
            number,
            payload,
        } => Ok(received_len(*seq, *number, payload)),
        Record::Closing { seq, ticket } => Ok(1 + u32_len(*seq) + u64_len(*ticket)),
        Record::ClosedOut { seq } => Ok(1 + u32_len(*seq)),
        Record::Closed { seq, last, .. } => Ok(2 + u32_len(*seq) + u64_len(*last)),
        Record::Ending { seq, ticket } => Ok(1 + u32_len(*seq) + u64_len(*ticket)),
        Record::EndedOut { seq } => Ok(1 + u32_len(*seq)),
        Record::Ended { seq, last, .. } => Ok(2 + u32_len(*seq) + u64_len(*last)),
        Record::Failed { seq, fault } => Ok(1 + u32_len(*seq) + u8_len(*fault)),
        Record::Consumed { seq, upto } => Ok(1 + u32_len(*seq) + u64_len(*upto)),
        Record::Dropped { seq, upto } => Ok(1 + u32_len(*seq) + u64_len(*upto)),
        Record::Purged { seq, numbers } => Ok(numbers_len(*seq, numbers)),
    }
}

/// How many bytes a batch takes. The parameters of its endpoint references are written to be measured, one by one.
pub fn batch_len(alloc: Global, batch: &[Record]) -> Result<u64, Memory>
    ensures len { IfOk result (λ n. n ≡ capped (length (batch_text (map fact_of batch.now)))) }
    ensures typed { OnOk result (AllByRecursion IsTyped (map fact_of batch.now)) }
{
    let mut total: u64 = 4;
    for given in batch {
        total = total.saturating_add(record_len(alloc, given)?);
    }
    Ok(total)
}
