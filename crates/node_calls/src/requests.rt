//! Requests for sequences and for their ends: WS-ReliableMessaging 1.2, sections 3.4 to 3.6.
ghost use Rattle.std.specs.Prelude.{◌≡◌, ◌+◌, ◌^◌, ◌<◌, ◌≤◌, ◌++◌, ◌∷◌, [], codes, length, map, IfOk};
ghost use Rattle.std.specs.List.{AllByRecursion};
ghost use Rattle.rm_base.specs.Limits.{most_sequences};
ghost use Rattle.node_laws.specs.Sizes.Room.{HasRoom};
ghost use Rattle.node_laws.specs.Sizes.Typed.{IsTyped};
ghost use Rattle.record_batch.specs.Fact.{fact_of};
ghost use Rattle.rm_message.specs.declared.elements.lifecycle.Lifecycle.TheVariants as life;
ghost use Rattle.rm_protocol.specs.Calls.{create as create_of, offer_of, wanted as wanted_of};
ghost use Rattle.rm_protocol.specs.Messages.{finish_request, via_of as via_for};
ghost use Rattle.rm_protocol.specs.Terms.{Terms};
ghost use Rattle.record_batch.specs.Sequences.Find.{peer as peer_in};
ghost use Rattle.record_batch.specs.Sequences.Makers.{maker, makers, number};
ghost use Rattle.record_batch.specs.Sequences.Sources.{out_ident, tickets};
ghost use Rattle.record_batch.specs.Sequences.Words.{last_or};
ghost use Rattle.node_laws.specs.OwnTerms.{AreOwn};
ghost use Rattle.node_laws.specs.Answers.Answers.{seen, wish_seen};
ghost use Rattle.node_calls.specs.Comes.{asked as asked_of};
ghost use Rattle.node_calls.specs.Records.{IsServing};
ghost use Rattle.tables_ahead.specs.Known.{all_records};

use crate::answers::added;
use node_laws::answers::{Answer, Cause, Wish, if_room, refused};
use node_laws::sizes::laws::a_batch_is_its_parts;
use node_messages::{create_request, plain_endpoint};
use node_tables::{Maker, Tables};
use receive_replies::home;
use record_batch::{OwnOffer, Record, Via};
use rm_base::limits::MOST_SEQUENCES;
use rm_base::{Behaviour, Memory, Uri};
use rm_message::Message;
use std::alloc::Global;
use tables_ahead::Known;
use wsa_headers::Epr;

/// The most sequences of a node.
const MAX_SEQUENCES: u64 = MOST_SEQUENCES as u64;

/// Where the messages of an outgoing sequence go.
pub(crate) fn peer(alloc: Global, ahead: &Known<'_>, seq: u32) -> Result<Option<Epr>, Memory>
    ensures { IfOk result (λ to. to ≡ peer_in (all_records ahead.now) seq) }
{
    match ahead.maker(seq) {
        Some(Maker::Asked { to, .. }) => Ok(Some(plain_endpoint(alloc, to.copy()?))),
        Some(Maker::Taken { endpoint, .. }) => Ok(Some(endpoint.copy(alloc)?)),
        Some(Maker::Offered { .. }) => Ok(None),
        Some(Maker::Granted { .. }) => Ok(None),
        None => Ok(None),
    }
}

// How the answers of a sequence come back: those of one from an offer directly.
fn via_of(ahead: &Known<'_>, seq: u32) -> Via
    ensures { result ≡ via_for (maker (all_records ahead.now) seq) }
{
    match ahead.maker(seq) {
        Some(Maker::Asked { via, .. }) => via,
        Some(Maker::Taken { .. }) => Via::Direct,
        Some(Maker::Offered { .. }) => Via::Direct,
        Some(Maker::Granted { .. }) => Via::Direct,
        None => Via::Direct,
    }
}

/// The CloseSequence of an outgoing sequence, once the records ahead are there, with the ticket that was drawn last for
/// it.
pub(crate) fn close_request(
    alloc: Global,
    ahead: &Known<'_>,
    seq: u32,
    ticket: u64,
) -> Result<Option<Message>, Memory>
    requires numbered { 0 < number (all_records ahead.now) }
    requires small { ticket < 2 ^ 62 }
    requires last { last_or 0 (tickets (all_records ahead.now) seq) ≡ ticket }
    ensures { let r = all_records ahead.now in IfOk result (λ m. m
        ≡ finish_request r seq (peer_in r seq) (out_ident r seq) (codes "CloseSequence") life.Close) }
{
    let Some(to) = peer(alloc, ahead, seq)? else {
        return Ok(None);
    };
    let Some(ident) = ahead.ident(seq) else {
        return Ok(None);
    };
    let via = via_of(ahead, seq);
    let count = ahead.accepted_len(seq);
    let message = node_messages::close_request(alloc, home(ahead), to, via, ticket, ident, count)?;
    Ok(Some(message))
}

/// The TerminateSequence of an outgoing sequence, once the records ahead are there, with the ticket that was drawn last
/// for it.
pub(crate) fn terminate_request(
    alloc: Global,
    ahead: &Known<'_>,
    seq: u32,
    ticket: u64,
) -> Result<Option<Message>, Memory>
    requires numbered { 0 < number (all_records ahead.now) }
    requires small { ticket < 2 ^ 62 }
    requires last { last_or 0 (tickets (all_records ahead.now) seq) ≡ ticket }
    ensures { let r = all_records ahead.now in IfOk result (λ m. m
        ≡ finish_request r seq (peer_in r seq) (out_ident r seq) (codes "TerminateSequence") life.Terminate) }
{
    let Some(to) = peer(alloc, ahead, seq)? else {
        return Ok(None);
    };
    let Some(ident) = ahead.ident(seq) else {
        return Ok(None);
    };
    let via = via_of(ahead, seq);
    let last = ahead.accepted_len(seq);
    let message = node_messages::terminate_request(
        alloc,
        home(ahead),
        to,
        via,
        ticket,
        ident,
        last,
    )?;
    Ok(Some(message))
}

// How many sequences are wanted.
fn wanted(offer: Option<Behaviour>) -> u64
    ensures is { result ≡ wanted_of offer }
    ensures few { result ≤ 2 }
{
    match offer {
        None => 1,
        Some(_) => 2,
    }
}

// An offer draws the number behind the ticket's.
fn own_offer(drawn: u64, offer: Option<Behaviour>) -> Option<OwnOffer>
    requires { drawn < 2 ^ 61 }
    ensures { result ≡ offer_of drawn offer }
{
    match offer {
        None => None,
        Some(behaviour) => Some(OwnOffer {
            counter: drawn + 2,
            behaviour,
        }),
    }
}

// The same address again, and how long it is at most.
fn address_again(to: &Uri) -> Result<Uri, Memory>
    ensures is { IfOk result (λ uri. uri ≡ to.now) }
    ensures short { length to.now ≤ 2048 }
{
    let _bytes = to.as_slice();
    to.copy()
}

// A sequence is asked for, for which there is a place.
fn asked(alloc: Global, tables: &Tables, wish: Wish) -> Result<Answer, Memory>
    requires serving { IsServing tables.now.records }
    requires place { length (makers tables.now.records) + wanted_of wish.offer ≤ most_sequences }
    ensures is { IfOk result (λ a. seen a ≡ asked_of tables.now.records (wish_seen wish)) }
    ensures short { length wish.to ≤ 2048 }
{
    let Wish {
        to,
        via,
        expires,
        offer,
    } = wish;
    let again = address_again(&to)?;
    let drawn = tables.counter();
    let ticket = drawn + 1;
    let offer = own_offer(drawn, offer);
    let mut ahead = Known::new(alloc, tables);
    ahead.push(Record::Creating {
        ticket,
        to,
        via,
        lapse: expires,
        offer,
    })?;
    let request = create_request(alloc, home(&ahead), again, via, ticket, expires, offer)?;
    added(alloc, ahead, Some(request))
}

/// Asks for a sequence, where there is a place for it.
pub(crate) fn ask(alloc: Global, tables: &Tables, place: u64, wish: Wish) -> Result<Answer, Memory>
    requires { IsServing tables.now.records }
    ensures is { (terms : Terms) → AreOwn terms
        → IfOk result (λ a. seen a ≡ create_of terms tables.now.records place (wish_seen wish)) }
    ensures room { IfOk result (λ a. HasRoom place (map fact_of a.batch.items)) }
    ensures typed { IfOk result (λ a. AllByRecursion IsTyped (map fact_of a.batch.items)) }
{
    a_batch_is_its_parts();
    let count = tables.len() as u64;
    if count + wanted(wish.offer) > MAX_SEQUENCES {
        return Ok(refused(alloc, Cause::TooManySequences { count }));
    }
    let answer = asked(alloc, tables, wish)?;
    if_room(alloc, place, answer)
}
