//! Batches of records to bytes. Each writer appends its piece, up to a want of memory.
ghost use Rattle.std.specs.Prelude.{◌≡◌, ◌++◌, ◌∷◌, map, IfOk, OnOk, IfSome, Some};
ghost use Rattle.record_batch.specs.Batch.{
  fact_text,
  batch_at,
  batch_text,
  made,
  creating,
  created,
  granted,
  accepted,
  acked,
  received,
  ticketed,
  stopped,
  failed,
  reached,
  purged,
};
ghost use Rattle.record_batch.specs.Fact.{fact_of};
ghost use Rattle.record_batch.specs.Format.{optional, number32, number64, ◌&◌};
ghost use Rattle.record_batch.specs.Parts.{
  address as address_format,
  behaviour as behaviour_format,
  endpoint as endpoint_format,
  lapse as lapse_format,
  own_offer,
  peer_offer,
  via as via_format,
};
ghost use Rattle.record_batch.specs.Writable.{
  IsShort,
  IsShortEndpoint,
  IsShortOffer,
  IsShortPayload,
  IsShortFact,
  IsShortBatch,
  IsBatch,
};

use crate::laws::what_is_written_is_read;
use crate::record::{OwnOffer, PeerOffer, Record, Via};
use crate::writers::{
    behaviour_byte, cause_byte, put_accept, put_deadline, put_endpoint, put_lapse, put_own_offer,
    put_payload, put_peer_offer, put_ranges, put_text, put_u32, put_u64, via_byte,
};
use rm_base::{Behaviour, Blob, Cause, Ident, Lapse, Memory, Payload, Uri};
use rm_sides::ranges::RangeSet;
use std::alloc::Global;
use wsa_headers::Epr;

#[tactic(auto, unfolding(crate::specs::Batch::made))]
fn put_made(node: u64, address: &Uri, out: &mut Vec<u8>) -> Result<(), Memory>
    ensures { OnOk result (out.new.items ≡ out.old.items ++ 1 ∷ made.written (node, address.now)) }
{
    out.push(1)?;
    put_u64(node, out)?;
    put_text(address.as_slice(), out)
}

// How answers come back, for how long the sequence is asked for, and what is offered.
fn put_wishes(
    via: Via,
    lapse: Lapse,
    offer: Option<OwnOffer>,
    out: &mut Vec<u8>,
) -> Result<(), Memory>
    ensures { OnOk result (out.new.items
        ≡ out.old.items ++ (via_format & (lapse_format & optional own_offer)).written (via, (lapse, offer))) }
{
    out.push(via_byte(via))?;
    put_lapse(lapse, out)?;
    put_own_offer(offer, out)
}

#[tactic(auto, unfolding(crate::specs::Batch::creating))]
fn put_creating(
    ticket: u64,
    to: &Uri,
    via: Via,
    lapse: Lapse,
    offer: Option<OwnOffer>,
    out: &mut Vec<u8>,
) -> Result<(), Memory>
    ensures { OnOk result (out.new.items
        ≡ out.old.items ++ 2 ∷ creating.written (ticket, (to.now, (via, (lapse, offer))))) }
{
    out.push(2)?;
    put_u64(ticket, out)?;
    put_text(to.as_slice(), out)?;
    put_wishes(via, lapse, offer, out)
}

#[tactic(auto, unfolding(crate::specs::Batch::created))]
fn put_created(
    alloc: Global,
    seq: u32,
    ident: &Ident,
    accept: &Option<Epr>,
    out: &mut Vec<u8>,
) -> Result<(), Memory>
    requires { IfSome accept.now IsShortEndpoint }
    ensures { OnOk result (out.new.items ≡ out.old.items ++ 3 ∷ created.written (seq, (ident.now, accept.now))) }
{
    out.push(3)?;
    put_u32(seq, out)?;
    put_text(ident.as_slice(), out)?;
    put_accept(alloc, accept, out)
}

// The request that a grant answers, and where acknowledgements go.
fn put_request(
    alloc: Global,
    counter: u64,
    message_id: &Uri,
    acks_to: &Epr,
    out: &mut Vec<u8>,
) -> Result<(), Memory>
    requires { IsShortEndpoint acks_to.now }
    ensures { OnOk result (out.new.items ≡ out.old.items
        ++ 4 ∷ (number64 & (address_format & endpoint_format)).written (counter, (message_id.now, acks_to.now))) }
{
    out.push(4)?;
    put_u64(counter, out)?;
    put_text(message_id.as_slice(), out)?;
    put_endpoint(alloc, acks_to, out)
}

// What is done behind a gap, when the sequence ends, for how long it was asked for, and the offer that was taken.
fn put_terms(
    alloc: Global,
    behaviour: Behaviour,
    deadline: Option<u64>,
    lapse: Lapse,
    offer: &Option<PeerOffer>,
    out: &mut Vec<u8>,
) -> Result<(), Memory>
    requires { IfSome offer.now IsShortOffer }
    ensures { OnOk result (out.new.items
        ≡ out.old.items ++ (behaviour_format & (optional number64 & (lapse_format & optional peer_offer))).written
        (behaviour, (deadline, (lapse, offer.now)))) }
{
    out.push(behaviour_byte(behaviour))?;
    put_deadline(deadline, out)?;
    put_lapse(lapse, out)?;
    put_peer_offer(alloc, offer, out)
}

#[tactic(auto, unfolding(crate::specs::Batch::accepted))]
fn put_accepted(seq: u32, payload: &Blob, out: &mut Vec<u8>) -> Result<(), Memory>
    requires { IsShort payload.now }
    ensures { OnOk result (out.new.items ≡ out.old.items ++ 5 ∷ accepted.written (seq, payload.now)) }
{
    out.push(5)?;
    put_u32(seq, out)?;
    put_text(payload.as_slice(), out)
}

#[tactic(auto, unfolding(crate::specs::Batch::acked))]
fn put_acked(seq: u32, numbers: &RangeSet, out: &mut Vec<u8>) -> Result<(), Memory>
    requires { IsShort numbers.now.ranges }
    ensures { OnOk result (out.new.items ≡ out.old.items ++ 6 ∷ acked.written (seq, numbers.now.ranges)) }
{
    out.push(6)?;
    put_u32(seq, out)?;
    put_ranges(numbers, out)
}

#[tactic(auto, unfolding(crate::specs::Batch::received))]
fn put_received(seq: u32, number: u64, payload: &Payload, out: &mut Vec<u8>) -> Result<(), Memory>
    requires { IsShortPayload payload.now }
    ensures { OnOk result (out.new.items ≡ out.old.items ++ 7 ∷ received.written (seq, (number, payload.now))) }
{
    out.push(7)?;
    put_u32(seq, out)?;
    put_u64(number, out)?;
    put_payload(payload, out)
}

// Closing and Ending.
#[tactic(auto, unfolding(crate::specs::Batch::ticketed))]
fn put_ticketed(kind: u8, seq: u32, ticket: u64, out: &mut Vec<u8>) -> Result<(), Memory>
    ensures { OnOk result (out.new.items ≡ out.old.items ++ kind ∷ ticketed.written (seq, ticket)) }
{
    out.push(kind)?;
    put_u32(seq, out)?;
    put_u64(ticket, out)
}

// Closed and Ended.
#[tactic(auto, unfolding(crate::specs::Batch::stopped))]
fn put_stopped(kind: u8, seq: u32, cause: Cause, last: u64, out: &mut Vec<u8>) -> Result<(), Memory>
    ensures { OnOk result (out.new.items ≡ out.old.items ++ kind ∷ stopped.written (seq, (cause, last))) }
{
    out.push(kind)?;
    put_u32(seq, out)?;
    out.push(cause_byte(cause))?;
    put_u64(last, out)
}

// ClosedOut and EndedOut.
fn put_out(kind: u8, seq: u32, out: &mut Vec<u8>) -> Result<(), Memory>
    ensures { OnOk result (out.new.items ≡ out.old.items ++ kind ∷ number32.written seq) }
{
    out.push(kind)?;
    put_u32(seq, out)
}

#[tactic(auto, unfolding(crate::specs::Batch::failed))]
fn put_failed(seq: u32, fault: u8, out: &mut Vec<u8>) -> Result<(), Memory>
    ensures { OnOk result (out.new.items ≡ out.old.items ++ 14 ∷ failed.written (seq, fault)) }
{
    out.push(14)?;
    put_u32(seq, out)?;
    out.push(fault)?;
    Ok(())
}

// Consumed and Dropped.
#[tactic(auto, unfolding(crate::specs::Batch::reached))]
fn put_reached(kind: u8, seq: u32, upto: u64, out: &mut Vec<u8>) -> Result<(), Memory>
    ensures { OnOk result (out.new.items ≡ out.old.items ++ kind ∷ reached.written (seq, upto)) }
{
    out.push(kind)?;
    put_u32(seq, out)?;
    put_u64(upto, out)
}

#[tactic(auto, unfolding(crate::specs::Batch::purged))]
fn put_purged(seq: u32, numbers: &RangeSet, out: &mut Vec<u8>) -> Result<(), Memory>
    requires { IsShort numbers.now.ranges }
    ensures { OnOk result (out.new.items ≡ out.old.items ++ 17 ∷ purged.written (seq, numbers.now.ranges)) }
{
    out.push(17)?;
    put_u32(seq, out)?;
    put_ranges(numbers, out)
}

#[tactic(auto, unfolding(crate::specs::Batch::granted))]
fn put_record(alloc: Global, given: &Record, out: &mut Vec<u8>) -> Result<(), Memory>
    requires { IsShortFact (fact_of given.now) }
    ensures { OnOk result (out.new.items ≡ out.old.items ++ fact_text (fact_of given.now)) }
{
    match given {
        Record::Made { node, address } => put_made(*node, address, out),
        Record::Creating {
            ticket,
            to,
            via,
            lapse,
            offer,
        } => put_creating(*ticket, to, *via, *lapse, *offer, out),
        Record::Created { seq, ident, accept } => put_created(alloc, *seq, ident, accept, out),
        Record::Granted {
            counter,
            message_id,
            acks_to,
            behaviour,
            deadline,
            lapse,
            offer,
        } => {
            put_request(alloc, *counter, message_id, acks_to, out)?;
            put_terms(alloc, *behaviour, *deadline, *lapse, offer, out)
        }
        Record::Accepted { seq, payload } => put_accepted(*seq, payload, out),
        Record::Acked { seq, numbers } => put_acked(*seq, numbers, out),
        Record::Received {
            seq,
            number,
            payload,
        } => put_received(*seq, *number, payload, out),
        Record::Closing { seq, ticket } => put_ticketed(8, *seq, *ticket, out),
        Record::ClosedOut { seq } => put_out(9, *seq, out),
        Record::Closed { seq, cause, last } => put_stopped(10, *seq, *cause, *last, out),
        Record::Ending { seq, ticket } => put_ticketed(11, *seq, *ticket, out),
        Record::EndedOut { seq } => put_out(12, *seq, out),
        Record::Ended { seq, cause, last } => put_stopped(13, *seq, *cause, *last, out),
        Record::Failed { seq, fault } => put_failed(*seq, *fault, out),
        Record::Consumed { seq, upto } => put_reached(15, *seq, *upto, out),
        Record::Dropped { seq, upto } => put_reached(16, *seq, *upto, out),
        Record::Purged { seq, numbers } => put_purged(*seq, numbers, out),
    }
}

fn put_batch(alloc: Global, batch: &[Record], out: &mut Vec<u8>) -> Result<(), Memory>
    requires { IsShortBatch (map fact_of batch.now) }
    ensures { OnOk result (out.new.items ≡ out.old.items ++ batch_text (map fact_of batch.now)) }
{
    put_u32(batch.len() as u32, out)?;
    for given in batch {
        put_record(alloc, given, out)?;
    }
    Ok(())
}

/// The bytes of a batch: how many records there are, in four bytes, and each of them, a byte of its kind and what it
/// has. Numbers stand with their highest byte first.
pub fn write_batch(alloc: Global, batch: &[Record]) -> Result<Blob, Memory>
    requires { IsShortBatch (map fact_of batch.now) }
    ensures text { IfOk result (λ bytes. bytes ≡ batch_text (map fact_of batch.now)) }
    ensures again { IsBatch (map fact_of batch.now)
        → IfOk result (λ bytes. batch_at bytes ≡ Some (map fact_of batch.now)) }
{
    what_is_written_is_read();
    let mut out = Vec::new(alloc);
    put_batch(alloc, batch, &mut out)?;
    Ok(Blob::from_vec(out))
}
