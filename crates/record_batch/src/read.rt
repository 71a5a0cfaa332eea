//! Batches of records from bytes.
ghost use Rattle.std.specs.Prelude.{◌≡◌, ◌<◌, map, IfOk, IfErr, Some};
ghost use Rattle.soap_writer.specs.Values.Outcome.{Gives};
ghost use Rattle.record_batch.specs.Batch.{
  creating_of,
  granted_of,
  read_as,
  made,
  creating,
  created,
  granted,
  accepted,
  acked,
  received,
  ticketed,
  stopped,
  failed,
  reached,
  purged,
  kind_at,
  fact_at,
  batch_at,
  batch_text,
};
ghost use Rattle.record_batch.specs.Fact.{
  fact_of,
  Made,
  Creating,
  Created,
  Granted,
  Accepted,
  Acked,
  Received,
  Failed,
  Purged,
};
ghost use Rattle.record_batch.specs.Refused.{AreAllRead, IsBatchError, IsStopped};
ghost use Rattle.record_batch.specs.Writable.{IsBatch};

use crate::error::BatchError;
use crate::laws::only_what_is_written_is_read;
use crate::readers::{
    front_u32, take_accept, take_behaviour, take_byte, take_cause, take_deadline, take_endpoint,
    take_ident, take_lapse, take_own_offer, take_payload, take_peer_offer, take_ranges, take_text,
    take_u32, take_u64, take_uri, take_via,
};
use crate::record::Record;
use rm_base::{Cause, Items};
use soap_writer::values::Flaw;
use std::alloc::Global;

#[tactic(auto, unfolding(crate::specs::Batch::made))]
fn take_made(alloc: Global, bytes: &[u8]) -> Result<(Record, &[u8]), Flaw>
    ensures { Gives (λ x. (fact_of x.0, x.1.now)) result (read_as (λ x. Made x.0 x.1) made bytes.now) }
{
    let (node, rest) = take_u64(bytes)?;
    let (address, rest) = take_uri(alloc, rest)?;
    Ok((Record::Made { node, address }, rest))
}

#[tactic(auto, unfolding(crate::specs::Batch::creating))]
fn take_creating(alloc: Global, bytes: &[u8]) -> Result<(Record, &[u8]), Flaw>
    ensures { Gives (λ x. (fact_of x.0, x.1.now)) result (read_as creating_of creating bytes.now) }
{
    let (ticket, rest) = take_u64(bytes)?;
    let (to, rest) = take_uri(alloc, rest)?;
    let (via, rest) = take_via(rest)?;
    let (lapse, rest) = take_lapse(rest)?;
    let (offer, rest) = take_own_offer(rest)?;
    let record = Record::Creating {
        ticket,
        to,
        via,
        lapse,
        offer,
    };
    Ok((record, rest))
}

#[tactic(auto, unfolding(crate::specs::Batch::created))]
fn take_created(alloc: Global, bytes: &[u8]) -> Result<(Record, &[u8]), Flaw>
    ensures { Gives (λ x. (fact_of x.0, x.1.now)) result (read_as (λ x. Created x.0 x.1.0 x.1.1) created bytes.now) }
{
    let (seq, rest) = take_u32(bytes)?;
    let (ident, rest) = take_ident(alloc, rest)?;
    let (accept, rest) = take_accept(alloc, rest)?;
    Ok((Record::Created { seq, ident, accept }, rest))
}

#[tactic(auto, unfolding(crate::specs::Batch::granted))]
fn take_granted(alloc: Global, bytes: &[u8]) -> Result<(Record, &[u8]), Flaw>
    ensures { Gives (λ x. (fact_of x.0, x.1.now)) result (read_as granted_of granted bytes.now) }
{
    let (counter, rest) = take_u64(bytes)?;
    let (message_id, rest) = take_uri(alloc, rest)?;
    let (acks_to, rest) = take_endpoint(alloc, rest)?;
    let (behaviour, rest) = take_behaviour(rest)?;
    let (deadline, rest) = take_deadline(rest)?;
    let (lapse, rest) = take_lapse(rest)?;
    let (offer, rest) = take_peer_offer(alloc, rest)?;
    let record = Record::Granted {
        counter,
        message_id,
        acks_to,
        behaviour,
        deadline,
        lapse,
        offer,
    };
    Ok((record, rest))
}

#[tactic(auto, unfolding(crate::specs::Batch::accepted))]
fn take_accepted(alloc: Global, bytes: &[u8]) -> Result<(Record, &[u8]), Flaw>
    ensures { Gives (λ x. (fact_of x.0, x.1.now)) result (read_as (λ x. Accepted x.0 x.1) accepted bytes.now) }
{
    let (seq, rest) = take_u32(bytes)?;
    let (payload, rest) = take_text(alloc, rest)?;
    Ok((Record::Accepted { seq, payload }, rest))
}

#[tactic(auto, unfolding(crate::specs::Batch::acked))]
fn take_acked(alloc: Global, bytes: &[u8]) -> Result<(Record, &[u8]), Flaw>
    ensures { Gives (λ x. (fact_of x.0, x.1.now)) result (read_as (λ x. Acked x.0 x.1) acked bytes.now) }
{
    let (seq, rest) = take_u32(bytes)?;
    let (numbers, rest) = take_ranges(alloc, rest)?;
    Ok((Record::Acked { seq, numbers }, rest))
}

#[tactic(auto, unfolding(crate::specs::Batch::received))]
fn take_received(alloc: Global, bytes: &[u8]) -> Result<(Record, &[u8]), Flaw>
    ensures { Gives (λ x. (fact_of x.0, x.1.now)) result
        (read_as (λ x. Received x.0 x.1.0 x.1.1) received bytes.now) }
{
    let (seq, rest) = take_u32(bytes)?;
    let (number, rest) = take_u64(rest)?;
    let (payload, rest) = take_payload(alloc, rest)?;
    let record = Record::Received {
        seq,
        number,
        payload,
    };
    Ok((record, rest))
}

#[tactic(auto, unfolding(crate::specs::Batch::ticketed))]
fn take_ticketed(bytes: &[u8]) -> Result<((u32, u64), &[u8]), Flaw>
    ensures { Gives (λ x. ((x.0.0, x.0.1), x.1.now)) result (ticketed.read bytes.now) }
{
    let (seq, rest) = take_u32(bytes)?;
    let (ticket, rest) = take_u64(rest)?;
    Ok(((seq, ticket), rest))
}

#[tactic(auto, unfolding(crate::specs::Batch::stopped))]
fn take_stopped(bytes: &[u8]) -> Result<((u32, Cause, u64), &[u8]), Flaw>
    ensures { Gives (λ x. ((x.0.0, (x.0.1, x.0.2)), x.1.now)) result (stopped.read bytes.now) }
{
    let (seq, rest) = take_u32(bytes)?;
    let (cause, rest) = take_cause(rest)?;
    let (last, rest) = take_u64(rest)?;
    Ok(((seq, cause, last), rest))
}

#[tactic(auto, unfolding(crate::specs::Batch::failed))]
fn take_failed(bytes: &[u8]) -> Result<(Record, &[u8]), Flaw>
    ensures { Gives (λ x. (fact_of x.0, x.1.now)) result (read_as (λ x. Failed x.0 x.1) failed bytes.now) }
{
    let (seq, rest) = take_u32(bytes)?;
    let (fault, rest) = take_byte(rest)?;
    Ok((Record::Failed { seq, fault }, rest))
}

#[tactic(auto, unfolding(crate::specs::Batch::reached))]
fn take_reached(bytes: &[u8]) -> Result<((u32, u64), &[u8]), Flaw>
    ensures { Gives (λ x. ((x.0.0, x.0.1), x.1.now)) result (reached.read bytes.now) }
{
    let (seq, rest) = take_u32(bytes)?;
    let (upto, rest) = take_u64(rest)?;
    Ok(((seq, upto), rest))
}

#[tactic(auto, unfolding(crate::specs::Batch::purged))]
fn take_purged(alloc: Global, bytes: &[u8]) -> Result<(Record, &[u8]), Flaw>
    ensures { Gives (λ x. (fact_of x.0, x.1.now)) result (read_as (λ x. Purged x.0 x.1) purged bytes.now) }
{
    let (seq, rest) = take_u32(bytes)?;
    let (numbers, rest) = take_ranges(alloc, rest)?;
    Ok((Record::Purged { seq, numbers }, rest))
}

// What was consumed, and what is gone.
#[tactic(auto, unfolding(crate::specs::Batch::kind_at))]
fn take_gone(alloc: Global, kind: u8, bytes: &[u8]) -> Result<(Record, &[u8]), Flaw>
    requires { 14 < kind }
    ensures { Gives (λ x. (fact_of x.0, x.1.now)) result (kind_at kind bytes.now) }
{
    match kind {
        15 => {
            let ((seq, upto), rest) = take_reached(bytes)?;
            Ok((Record::Consumed { seq, upto }, rest))
        }
        16 => {
            let ((seq, upto), rest) = take_reached(bytes)?;
            Ok((Record::Dropped { seq, upto }, rest))
        }
        17 => take_purged(alloc, bytes),
        _ => Err(Flaw::Malformed),
    }
}

// The records that name a sequence and at most a ticket, or a cause and a last number.
#[tactic(auto, unfolding(crate::specs::Batch::kind_at))]
fn take_end(alloc: Global, kind: u8, bytes: &[u8]) -> Result<(Record, &[u8]), Flaw>
    requires { 7 < kind }
    ensures { Gives (λ x. (fact_of x.0, x.1.now)) result (kind_at kind bytes.now) }
{
    match kind {
        8 => {
            let ((seq, ticket), rest) = take_ticketed(bytes)?;
            Ok((Record::Closing { seq, ticket }, rest))
        }
        9 => {
            let (seq, rest) = take_u32(bytes)?;
            Ok((Record::ClosedOut { seq }, rest))
        }
        10 => {
            let ((seq, cause, last), rest) = take_stopped(bytes)?;
            Ok((Record::Closed { seq, cause, last }, rest))
        }
        11 => {
            let ((seq, ticket), rest) = take_ticketed(bytes)?;
            Ok((Record::Ending { seq, ticket }, rest))
        }
        12 => {
            let (seq, rest) = take_u32(bytes)?;
            Ok((Record::EndedOut { seq }, rest))
        }
        13 => {
            let ((seq, cause, last), rest) = take_stopped(bytes)?;
            Ok((Record::Ended { seq, cause, last }, rest))
        }
        14 => take_failed(bytes),
        _ => take_gone(alloc, kind, bytes),
    }
}

#[tactic(auto, unfolding(crate::specs::Batch::kind_at))]
fn take_kind(alloc: Global, kind: u8, bytes: &[u8]) -> Result<(Record, &[u8]), Flaw>
    ensures { Gives (λ x. (fact_of x.0, x.1.now)) result (kind_at kind bytes.now) }
{
    match kind {
        0 => Err(Flaw::Malformed),
        1 => take_made(alloc, bytes),
        2 => take_creating(alloc, bytes),
        3 => take_created(alloc, bytes),
        4 => take_granted(alloc, bytes),
        5 => take_accepted(alloc, bytes),
        6 => take_acked(alloc, bytes),
        7 => take_received(alloc, bytes),
        _ => take_end(alloc, kind, bytes),
    }
}

#[tactic(auto, unfolding(crate::specs::Batch::fact_at))]
fn take_record(alloc: Global, bytes: &[u8]) -> Result<(Record, &[u8]), Flaw>
    ensures { Gives (λ x. (fact_of x.0, x.1.now)) result (fact_at bytes.now) }
{
    let (kind, rest) = take_byte(bytes)?;
    take_kind(alloc, kind, rest)
}

// So many records behind their number; where one can't be read, its place in the batch is told.
fn take_records<'a>(
    alloc: Global,
    count: u32,
    behind: &'a [u8],
    batch: &[u8],
) -> Result<(Items<Record>, &'a [u8]), BatchError>
    ensures ok { IfOk result (λ x. AreAllRead count behind.now (map fact_of x.0) x.1.now) }
    ensures err { IfErr result (IsStopped count behind.now batch.now) }
{
    let mut records = Items::new(alloc);
    let mut rest = behind;
    for _ in 0..count {
        match take_record(alloc, rest) {
            Ok((given, after)) => {
                records.push(given)?;
                rest = after;
            }
            Err(Flaw::Memory) => return Err(BatchError::Memory),
            Err(Flaw::Malformed) => {
                return Err(BatchError::NotABatch {
                    at: batch.len().saturating_sub(rest.len()),
                });
            }
        }
    }
    Ok((records, rest))
}

/// The records of a batch, of which nothing is left out and behind which nothing stands. The text of a parameter is the
/// one that is written of it. Lapses and parameters beyond the limits of what messages may hold are read as well.
/// - NotABatch: exactly where the bytes are no batch, with its place: 0 where the number of records is cut or 0, else
///   where the first record begins that can't be read, or behind the last one where bytes stand behind it (`err`,
///   `ok`).
#[tactic(auto, unfolding(crate::specs::Batch::batch_at, crate::specs::Refused::refused_place))]
pub fn read_batch(alloc: Global, bytes: &[u8]) -> Result<Items<Record>, BatchError>
    // What is read.
    ensures ok { IfOk result (λ batch. batch_at bytes.now ≡ Some (map fact_of batch)) }
    ensures written { IfOk result (λ batch. bytes.now ≡ batch_text (map fact_of batch)) }
    ensures rules { IfOk result (λ batch. IsBatch (map fact_of batch)) }

    // When there is no batch, and where.
    ensures err { IfErr result (IsBatchError bytes.now) }
{
    only_what_is_written_is_read();
    let Some((count, behind)) = front_u32(bytes) else {
        return Err(BatchError::NotABatch { at: 0 });
    };
    if count == 0 {
        return Err(BatchError::NotABatch { at: 0 });
    }
    let (batch, rest) = take_records(alloc, count, behind, bytes)?;
    if !rest.is_empty() {
        return Err(BatchError::NotABatch {
            at: bytes.len().saturating_sub(rest.len()),
        });
    }
    Ok(batch)
}
