//! Whether the records of a batch keep their limits.
ghost use Rattle.std.specs.Prelude.{◌↔◌, IfOk, IfSome, IsTrue, map};
ghost use Rattle.std.specs.List.{AllByRecursion};
ghost use Rattle.rm_message.specs.Elements.Writable.{IsLapseWritable};
ghost use Rattle.soap_document.specs.Profile.Payload.{IsClosedContent};
ghost use Rattle.record_batch.specs.Fact.{fact_of};
ghost use Rattle.record_batch.specs.Writable.{IsEndpointWritable, IsPeerOfferWritable, IsWritable};
ghost use Rattle.wsa_headers.specs.Writable.{IsEprWritable};
ghost use Rattle.node_laws.specs.Records.{IsOfferKept, KeepsLimits};

use crate::endpoints::is_endpoint_kept;
use record_batch::{PeerOffer, Record};
use rm_base::{Blob, Lapse, Memory};
use rm_message::elements::duration::{MOST_MONTHS, MOST_MS};
use soap_document::profile::check_payload;
use std::alloc::Global;
use wsa_headers::Epr;

/// Whether all records of a batch that was read keep their limits.
pub(crate) fn keep_limits(alloc: Global, batch: &[Record]) -> Result<bool, Memory>
    requires { AllByRecursion IsWritable (map fact_of batch.now) }
    ensures { IfOk result (λ kept. IsTrue kept ↔ AllByRecursion KeepsLimits (map fact_of batch.now)) }
{
    for given in batch {
        if !keeps_limits(alloc, given)? {
            return Ok(false);
        }
    }
    Ok(true)
}

/// Whether a record keeps its limits.
fn keeps_limits(alloc: Global, given: &Record) -> Result<bool, Memory>
    requires { IsWritable (fact_of given.now) }
    ensures { IfOk result (λ kept. IsTrue kept ↔ KeepsLimits (fact_of given.now)) }
{
    match given {
        Record::Creating { lapse, .. } => Ok(is_lapse_kept(*lapse)),
        Record::Created { accept, .. } => is_accept_kept(alloc, accept),
        Record::Granted {
            acks_to,
            lapse,
            offer,
            ..
        } => is_grant_kept(alloc, acks_to, *lapse, offer),
        Record::Accepted { payload, .. } => is_content_kept(alloc, payload),
        Record::Made { .. } | Record::Acked { .. } | Record::Received { .. } => Ok(true),
        Record::Closing { .. } | Record::ClosedOut { .. } | Record::Closed { .. } => Ok(true),
        Record::Ending { .. } | Record::EndedOut { .. } | Record::Ended { .. } => Ok(true),
        Record::Failed { .. } | Record::Consumed { .. } => Ok(true),
        Record::Dropped { .. } | Record::Purged { .. } => Ok(true),
    }
}

fn is_lapse_kept(lapse: Lapse) -> bool
    ensures { IsTrue result ↔ IsLapseWritable lapse }
{
    if lapse.months > MOST_MONTHS {
        return false;
    }
    lapse.ms <= MOST_MS
}

fn is_content_kept(alloc: Global, payload: &Blob) -> Result<bool, Memory>
    ensures { IfOk result (λ kept. IsTrue kept ↔ IsClosedContent payload.now) }
{
    check_payload(alloc, payload.as_slice())
}

fn is_accept_kept(alloc: Global, accept: &Option<Epr>) -> Result<bool, Memory>
    requires { IfSome accept.now IsEndpointWritable }
    ensures { IfOk result (λ kept. IsTrue kept ↔ IfSome accept.now IsEprWritable) }
{
    match accept {
        Some(endpoint) => is_endpoint_kept(alloc, endpoint),
        None => Ok(true),
    }
}

fn is_offer_kept(alloc: Global, offer: &Option<PeerOffer>) -> Result<bool, Memory>
    requires { IfSome offer.now IsPeerOfferWritable }
    ensures { IfOk result (λ kept. IsTrue kept ↔ IfSome offer.now IsOfferKept) }
{
    match offer {
        Some(offer) => is_endpoint_kept(alloc, &offer.endpoint),
        None => Ok(true),
    }
}

fn is_grant_kept(
    alloc: Global,
    acks_to: &Epr,
    lapse: Lapse,
    offer: &Option<PeerOffer>,
) -> Result<bool, Memory>
    requires acks_to { IsEndpointWritable acks_to.now }
    requires offer { IfSome offer.now IsPeerOfferWritable }
    ensures { IfOk result (λ kept. IsTrue kept
        ↔ IsEprWritable acks_to.now × IsLapseWritable lapse × IfSome offer.now IsOfferKept) }
{
    if !is_lapse_kept(lapse) {
        return Ok(false);
    }
    if !is_endpoint_kept(alloc, acks_to)? {
        return Ok(false);
    }
    is_offer_kept(alloc, offer)
}
