//! Offers of a sequence in the other direction, those of a peer and the node's own: WS-ReliableMessaging 1.2, section
//! 3.4.
ghost use Rattle.std.specs.Prelude.{◌≡◌, ◌+◌, ◌-◌, ◌++◌, ◌&&◌, not, nat_lt, length, is_none, IfOk, OnOk};
ghost use Rattle.rm_base.specs.Limits.{most_sequences};
ghost use Rattle.record_batch.specs.Sequences.Find.{find_outgoing, is_offered as is_offered_by};
ghost use Rattle.record_batch.specs.Sequences.Makers.{maker, makers};
ghost use Rattle.rm_protocol.specs.Addresses.{
  is_anonymous as is_anonymous_text,
  is_nowhere as is_nowhere_text,
};
ghost use Rattle.rm_protocol.specs.Rows.{drop_at, taken_of as taken_from};
ghost use Rattle.receive_answer.specs.Records.WithRow.{with_row};
ghost use Rattle.tables_ahead.specs.Known.{all_records};

use node_messages::{is_anonymous, is_nowhere};
use node_tables::Maker;
use record_batch::{PeerOffer, Record};
use rm_base::limits::MOST_SEQUENCES;
use rm_base::{Cause, Memory};
use rm_message::elements::Offer;
use std::alloc::Global;
use tables_ahead::Known;

/// What is kept of a peer's offer, where it is taken.
pub(crate) fn taken_of(
    alloc: Global,
    ahead: &Known<'_>,
    offer: &Option<Offer>,
) -> Result<Option<PeerOffer>, Memory>
    ensures { IfOk result (λ taken. taken ≡ taken_from (all_records ahead.now) offer.now) }
{
    let Some(offer) = offer else {
        return Ok(None);
    };
    if !is_takable(ahead, offer) {
        return Ok(None);
    }
    let ident = offer.ident.copy()?;
    let endpoint = offer.endpoint.copy(alloc)?;
    Ok(Some(PeerOffer { ident, endpoint }))
}

/// Whether an offer's identifier is no outgoing one, its endpoint an address, and a place left behind the grant.
fn is_takable(ahead: &Known<'_>, offer: &Offer) -> bool
    ensures { let r = all_records ahead.now in
        result ≡ (is_none (find_outgoing r offer.now.ident)
        && (not (is_anonymous_text offer.now.endpoint.address)
        && (not (is_nowhere_text offer.now.endpoint.address) && nat_lt (length (makers r)) (most_sequences - 1)))) }
{
    if ahead.find_outgoing(offer.ident.as_slice()).is_some() {
        return false;
    }
    if is_anonymous(offer.endpoint.address.as_slice()) {
        return false;
    }
    if is_nowhere(offer.endpoint.address.as_slice()) {
        return false;
    }
    ahead.len() < MOST_SEQUENCES - 1
}

/// Ends the offer that went out with a sequence, and wasn't taken.
pub(crate) fn drop_offer(ahead: &mut Known<'_>, seq: u32) -> Result<(), Memory>
    ensures records { ahead.new.records ≡ ahead.old.records }
    ensures delta { OnOk result (ahead.new.delta ≡ with_row (drop_at seq) ahead.old) }
{
    if ahead.len() <= seq {
        return Ok(());
    }
    let offered = seq + 1;
    if !is_offered(ahead, offered) {
        return Ok(());
    }
    if ahead.has_end(offered) {
        return Ok(());
    }
    ahead.push(Record::Ended {
        seq: offered,
        cause: Cause::NotTaken,
        last: 0,
    })
}

/// Whether a sequence was offered by the node.
fn is_offered(ahead: &Known<'_>, seq: u32) -> bool
    ensures { result ≡ is_offered_by (maker (all_records ahead.now) seq) }
{
    match ahead.maker(seq) {
        Some(Maker::Offered { .. }) => true,
        _ => false,
    }
}
