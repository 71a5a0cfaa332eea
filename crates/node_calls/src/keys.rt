//! The messages that keys are emitted as: WS-ReliableMessaging 1.2, sections 3.4 to 3.7.
ghost use Rattle.std.specs.Prelude.{◌≡◌, ◌+◌, ◌≤◌, ◌==◌, ◌++◌, if◌then◌else◌, None, Some, true, IfOk, IfSome, IfNone};
ghost use Rattle.std.specs.Prelude.{OnOk};
ghost use Rattle.std.specs.List.{AllByRecursion};
ghost use Rattle.std.specs.Option.{option_copied, option_to_list};
ghost use Rattle.record_batch.specs.declared.record.Via.{Via as SpecVia};
ghost use Rattle.rm_sides.specs.declared.source.phase.OutPhase.TheVariants.{Closing, Ending};
ghost use Rattle.rm_protocol.specs.Calls.{message_at as message_at_key, messages_at as messages_at_keys};
ghost use Rattle.rm_protocol.specs.Messages.{
  create_request as create_request_of,
  data_at as data_at_number,
  data_by as data_by_parts,
  offer_by,
  request_at as request_at_seq,
  request_by as request_in,
};
ghost use Rattle.node_messages.specs.Requests.{IsSmall, offer_with};
ghost use Rattle.record_batch.specs.Sequences.Find.{peer as peer_in};
ghost use Rattle.record_batch.specs.Sequences.Fits.{is_outgoing_side};
ghost use Rattle.record_batch.specs.Sequences.Makers.{counter, maker};
ghost use Rattle.record_batch.specs.Sequences.Sources.{payload_at as payload_at_number, phase as phase_in, tickets};
ghost use Rattle.record_batch.specs.Sequences.Words.{last_or};
ghost use Rattle.node_calls.specs.Records.{IsEnding, IsServing, is_finishing};
ghost use Rattle.tables_ahead.specs.Known.{all_records};

use crate::requests::{close_request, peer, terminate_request};
use node_messages::{create_request, data_message};
use node_tables::Maker;
use node_tables::laws::an_outgoing_sequence_is_as_recorded;
use receive_replies::home;
use record_batch::OwnOffer;
use rm_base::{Blob, Ident, Memory};
use rm_message::Message;
use rm_sides::source::OutPhase;
use std::alloc::Global;
use tables_ahead::Known;
use timers::slots::Key;
use wsa_headers::Epr;

// The payload of a message of an outgoing sequence, where only ends of incoming sequences are ahead.
fn payload_at<'a>(ahead: &'a Known<'_>, seq: u32, number: u64) -> Option<&'a Blob>
    requires { AllByRecursion IsEnding ahead.now.delta }
    ensures { let r = all_records ahead.now in
        is_outgoing_side (maker r seq) ≡ true → option_copied result ≡ payload_at_number r seq number }
{
    an_outgoing_sequence_is_as_recorded();
    match ahead.tables().outgoing(seq) {
        Some(outgoing) => outgoing.accepted(number),
        None => None,
    }
}

// A message of a sequence, where its payload is known, which is copied once.
fn data_by(
    alloc: Global,
    to: Epr,
    ident: &Ident,
    number: u64,
    payload: Option<&Blob>,
) -> Result<Option<Message>, Memory>
    ensures { IfOk result (λ m. m ≡ data_by_parts (Some to) (Some ident.now) number (option_copied payload.entry)) }
{
    match payload {
        Some(payload) => {
            let payload = payload.copy()?;
            Ok(Some(data_message(alloc, to, ident, number, payload)?))
        }
        None => Ok(None),
    }
}

// A message of a sequence again.
fn data_at(
    alloc: Global,
    ahead: &Known<'_>,
    seq: u32,
    number: u64,
) -> Result<Option<Message>, Memory>
    requires { AllByRecursion IsEnding ahead.now.delta }
    ensures { IfOk result (λ m. m ≡ data_at_number (all_records ahead.now) seq number) }
{
    let Some(to) = peer(alloc, ahead, seq)? else {
        return Ok(None);
    };
    let Some(ident) = ahead.ident(seq) else {
        return Ok(None);
    };
    data_by(alloc, to, ident, number, payload_at(ahead, seq, number))
}

// An offer, where it was drawn with a ticket.
fn offer_with_ticket(own: u64, ticket: u64, offer: OwnOffer) -> Option<OwnOffer>
    ensures { result ≡ (if own == ticket then Some offer else None) }
{
    if own == ticket {
        return Some(offer);
    }
    None
}

// The offer that went out with a ticket: of the sequence behind the one that was asked for.
fn offer_again(ahead: &Known<'_>, seq: u32, ticket: u64) -> Option<OwnOffer>
    requires serving { IsServing ahead.now.records }
    requires ends { AllByRecursion IsEnding ahead.now.delta }
    ensures is { let r = all_records ahead.now in
        (via : SpecVia) → offer_with r via result ≡ offer_by r via ticket (maker r (seq + 1)) }
    ensures small { IfSome result IsSmall }
{
    match ahead.maker_behind(seq) {
        Some(
            Maker::Offered {
                ticket: own,
                counter,
                behaviour,
                ..
            },
        ) => offer_with_ticket(own, ticket, OwnOffer { counter, behaviour }),
        Some(Maker::Asked { .. }) => None,
        Some(Maker::Taken { .. }) => None,
        Some(Maker::Granted { .. }) => None,
        None => None,
    }
}

// The CreateSequence of a sequence again.
fn create_again(alloc: Global, ahead: &Known<'_>, seq: u32) -> Result<Option<Message>, Memory>
    requires serving { IsServing ahead.now.records }
    requires ends { AllByRecursion IsEnding ahead.now.delta }
    ensures { let r = all_records ahead.now in IfOk result (λ m. m ≡ create_request_of r seq (maker r seq)) }
{
    match ahead.maker(seq) {
        Some(
            Maker::Asked {
                ticket,
                to,
                via,
                lapse,
            },
        ) => {
            let to = to.copy()?;
            let own = offer_again(ahead, seq, ticket);
            let request = create_request(alloc, home(ahead), to, via, ticket, lapse, own)?;
            Ok(Some(request))
        }
        Some(Maker::Taken { .. }) => Ok(None),
        Some(Maker::Offered { .. }) => Ok(None),
        Some(Maker::Granted { .. }) => Ok(None),
        None => Ok(None),
    }
}

// The ticket of the last request for a sequence in phase Closing or Ending, where only ends of incoming sequences are
// ahead.
fn last_ticket(ahead: &Known<'_>, seq: u32) -> Option<u64>
    requires serving { IsServing ahead.now.records }
    requires ends { AllByRecursion IsEnding ahead.now.delta }
    requires finishing { is_finishing (phase_in (all_records ahead.now) seq) ≡ true }
    ensures last { IfSome result (λ ticket. last_or 0 (tickets (all_records ahead.now) seq) ≡ ticket) }
    ensures drawn { IfSome result (λ ticket. ticket ≤ counter ahead.now.records) }
    ensures none { IfNone result (peer_in (all_records ahead.now) seq ≡ None) }
{
    ahead.tables().ticket(seq)
}

// The CloseSequence of a sequence in phase Closing again.
fn close_again(alloc: Global, ahead: &Known<'_>, seq: u32) -> Result<Option<Message>, Memory>
    requires serving { IsServing ahead.now.records }
    requires ends { AllByRecursion IsEnding ahead.now.delta }
    requires phase { phase_in (all_records ahead.now) seq ≡ Closing }
    ensures { IfOk result (λ m. m ≡ request_in (all_records ahead.now) seq Closing) }
{
    match last_ticket(ahead, seq) {
        Some(ticket) => close_request(alloc, ahead, seq, ticket),
        None => Ok(None),
    }
}

// The TerminateSequence of a sequence in phase Ending again.
fn terminate_again(alloc: Global, ahead: &Known<'_>, seq: u32) -> Result<Option<Message>, Memory>
    requires serving { IsServing ahead.now.records }
    requires ends { AllByRecursion IsEnding ahead.now.delta }
    requires phase { phase_in (all_records ahead.now) seq ≡ Ending }
    ensures { IfOk result (λ m. m ≡ request_in (all_records ahead.now) seq Ending) }
{
    match last_ticket(ahead, seq) {
        Some(ticket) => terminate_request(alloc, ahead, seq, ticket),
        None => Ok(None),
    }
}

// The request that a sequence in a phase waits with.
fn request_by(
    alloc: Global,
    ahead: &Known<'_>,
    seq: u32,
    phase: OutPhase,
) -> Result<Option<Message>, Memory>
    requires serving { IsServing ahead.now.records }
    requires ends { AllByRecursion IsEnding ahead.now.delta }
    requires phase { phase_in (all_records ahead.now) seq ≡ phase }
    ensures { IfOk result (λ m. m ≡ request_in (all_records ahead.now) seq phase) }
{
    match phase {
        OutPhase::Creating => create_again(alloc, ahead, seq),
        OutPhase::Closing => close_again(alloc, ahead, seq),
        OutPhase::Ending => terminate_again(alloc, ahead, seq),
        OutPhase::Open | OutPhase::Closed => Ok(None),
        OutPhase::Ended | OutPhase::Failed => Ok(None),
    }
}

// The request that a sequence waits with.
fn request_at(alloc: Global, ahead: &Known<'_>, seq: u32) -> Result<Option<Message>, Memory>
    requires serving { IsServing ahead.now.records }
    requires ends { AllByRecursion IsEnding ahead.now.delta }
    ensures { IfOk result (λ m. m ≡ request_at_seq (all_records ahead.now) seq) }
{
    request_by(alloc, ahead, seq, ahead.phase(seq))
}

// The message that a key is emitted as, where it has one.
fn message_at(alloc: Global, ahead: &Known<'_>, key: Key) -> Result<Option<Message>, Memory>
    requires serving { IsServing ahead.now.records }
    requires ends { AllByRecursion IsEnding ahead.now.delta }
    ensures { IfOk result (λ m. m ≡ message_at_key (all_records ahead.now) key.seq key.number) }
{
    if key.number == 0 {
        return request_at(alloc, ahead, key.seq);
    }
    data_at(alloc, ahead, key.seq, key.number)
}

// Adds it.
fn push_message(
    alloc: Global,
    ahead: &Known<'_>,
    key: Key,
    outs: &mut Vec<Message>,
) -> Result<(), Memory>
    requires serving { IsServing ahead.now.records }
    requires ends { AllByRecursion IsEnding ahead.now.delta }
    ensures { OnOk result (outs.new.items ≡ outs.old.items
        ++ option_to_list (message_at_key (all_records ahead.now) key.seq key.number)) }
{
    if let Some(message) = message_at(alloc, ahead, key)? {
        outs.push(message)?;
    }
    Ok(())
}

/// The messages that keys are emitted as, in order, where only ends of incoming sequences are ahead.
pub(crate) fn messages_at(
    alloc: Global,
    ahead: &Known<'_>,
    keys: &[Key],
) -> Result<Vec<Message>, Memory>
    requires serving { IsServing ahead.now.records }
    requires ends { AllByRecursion IsEnding ahead.now.delta }
    ensures { IfOk result (λ outs. outs.items ≡ messages_at_keys (all_records ahead.now) keys.now) }
{
    let mut outs = Vec::new(alloc);
    for key in keys {
        push_message(alloc, ahead, *key, &mut outs)?;
    }
    Ok(outs)
}
