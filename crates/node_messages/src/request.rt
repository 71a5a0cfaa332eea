//! Requests: WS-ReliableMessaging 1.2, sections 3.4 to 3.6, and WS-MakeConnection 1.1, section 3.2.
ghost use Rattle.std.specs.Prelude.{◌≡◌, ◌<◌, ◌^◌, List, IfOk, IfSome};
ghost use Rattle.record_batch.specs.Fact.{Fact};
ghost use Rattle.rm_base.specs.Text.{IsText};
ghost use Rattle.rm_message.specs.Actions.{make_connection};
ghost use Rattle.rm_message.specs.declared.elements.lifecycle.Lifecycle.TheVariants as life;
ghost use Rattle.rm_protocol.specs.Messages.{last_number as last_number_of, request_of};
ghost use Rattle.rm_protocol.specs.Polls.{make_message};
ghost use Rattle.node_messages.specs.Homes.{IsHome};
ghost use Rattle.node_messages.specs.Names.{name_text};
ghost use Rattle.node_messages.specs.Requests.{IsSmall, create_with, offer_with};

use crate::endpoint::plain_endpoint;
use crate::home::Home;
use crate::name::Name;
use crate::plain::plain;
use record_batch::sequences::issue;
use record_batch::{OwnOffer, Via};
use rm_base::{Ident, Lapse, Memory, Uri, uri_of};
use rm_message::elements::{CreateSequence, Finish, Lifecycle, MakeConnection, Offer};
use rm_message::{Body, Message, actions};
use std::alloc::Global;
use wsa_headers::Epr;

// An identifier as an address: it is shorter than one may be.
#[tactic(auto, using(crate::proofs::TextLemmas::ident_text))]
fn ident_uri(alloc: Global, ident: &Ident) -> Result<Uri, Memory>
    ensures { IfOk result (λ uri. uri ≡ ident.now) }
{
    uri_of(alloc, ident.as_slice())
}

// A request with a MessageID, to be answered in this way.
fn request(
    alloc: Global,
    home: Home<'_>,
    to: Epr,
    via: Via,
    ticket: u64,
    name: Name,
    content: Lifecycle,
) -> Result<Message, Memory>
    requires node { home.number < 2 ^ 60 }
    requires ticket { ticket < 2 ^ 62 }
    ensures { (r : List Fact) → IsHome home.entry r
        → IfOk result (λ m. m ≡ request_of r to via ticket (name_text name) content) }
{
    let ident = issue(alloc, home.number, ticket)?;
    let message_id = ident_uri(alloc, &ident)?;
    let reply_to = home.reply_to(alloc, via)?;
    let mut message = plain(alloc, to, name.action(), Body::Lifecycle(content))?;
    message.addressing.message_id = Some(message_id);
    message.addressing.reply_to = reply_to;
    Ok(message)
}

// The offer that goes out with a request.
fn offer(
    alloc: Global,
    home: Home<'_>,
    via: Via,
    own: Option<OwnOffer>,
) -> Result<Option<Offer>, Memory>
    requires node { home.number < 2 ^ 60 }
    requires counter { IfSome own IsSmall }
    ensures { (r : List Fact) → IsHome home.entry r → IfOk result (λ o. o ≡ offer_with r via own) }
{
    let Some(own) = own else {
        return Ok(None);
    };
    let ident = issue(alloc, home.number, own.counter)?;
    let endpoint = home.own_endpoint(alloc, via)?;
    Ok(Some(Offer {
        ident,
        endpoint,
        expires: Lapse { months: 0, ms: 0 },
        behaviour: own.behaviour,
    }))
}

/// A CreateSequence to an address, with the offer of a sequence in the other direction, if there is one.
pub fn create_request(
    alloc: Global,
    home: Home<'_>,
    to: Uri,
    via: Via,
    ticket: u64,
    lapse: Lapse,
    own: Option<OwnOffer>,
) -> Result<Message, Memory>
    requires node { home.number < 2 ^ 60 }
    requires ticket { ticket < 2 ^ 62 }
    requires counter { IfSome own IsSmall }
    ensures { (r : List Fact) → IsHome home.entry r
        → IfOk result (λ m. m ≡ create_with r to via ticket lapse own) }
{
    let acks_to = home.own_endpoint(alloc, via)?;
    let offer = offer(alloc, home, via, own)?;
    let content = Lifecycle::Create(CreateSequence {
        acks_to,
        expires: lapse,
        offer,
    });
    let to = plain_endpoint(alloc, to);
    request(alloc, home, to, via, ticket, Name::CreateSequence, content)
}

// The last message number, absent where no message was accepted.
fn last_number(count: u64) -> Option<u64>
    ensures { result ≡ last_number_of count }
{
    if count == 0 { None } else { Some(count) }
}

/// A CloseSequence for a sequence of which so many messages were accepted.
pub fn close_request(
    alloc: Global,
    home: Home<'_>,
    to: Epr,
    via: Via,
    ticket: u64,
    ident: &Ident,
    count: u64,
) -> Result<Message, Memory>
    requires node { home.number < 2 ^ 60 }
    requires ticket { ticket < 2 ^ 62 }
    ensures { (r : List Fact) → IsHome home.entry r
        → IfOk result (λ m. m ≡ request_of r to via ticket (name_text Name.CloseSequence)
        (life.Close (record { ident = ident.now; last_number = last_number_of count }))) }
{
    let content = Lifecycle::Close(Finish {
        ident: ident.copy()?,
        last_number: last_number(count),
    });
    request(alloc, home, to, via, ticket, Name::CloseSequence, content)
}

/// A TerminateSequence for a sequence of which so many messages were accepted.
pub fn terminate_request(
    alloc: Global,
    home: Home<'_>,
    to: Epr,
    via: Via,
    ticket: u64,
    ident: &Ident,
    count: u64,
) -> Result<Message, Memory>
    requires node { home.number < 2 ^ 60 }
    requires ticket { ticket < 2 ^ 62 }
    ensures { (r : List Fact) → IsHome home.entry r
        → IfOk result (λ m. m ≡ request_of r to via ticket (name_text Name.TerminateSequence)
        (life.Terminate (record { ident = ident.now; last_number = last_number_of count }))) }
{
    let content = Lifecycle::Terminate(Finish {
        ident: ident.copy()?,
        last_number: last_number(count),
    });
    request(
        alloc,
        home,
        to,
        via,
        ticket,
        Name::TerminateSequence,
        content,
    )
}

// The action of a MakeConnection.
fn make_action() -> &'static [u8]
    ensures is { result.now ≡ make_connection }
    ensures is_text { IsText 2048 result.now }
{
    actions::MAKE_CONNECTION
}

/// A MakeConnection for the messages that wait at a peer, with this address, for the node.
pub fn make_request(alloc: Global, home: Home<'_>, to: Uri) -> Result<Message, Memory>
    requires { home.number < 2 ^ 60 }
    ensures { (r : List Fact) → IsHome home.entry r → IfOk result (λ m. m ≡ make_message r to) }
{
    let selection = MakeConnection {
        address: Some(home.own_address(alloc, Via::Polled)?),
        other: false,
    };
    plain(
        alloc,
        plain_endpoint(alloc, to),
        make_action(),
        Body::Lifecycle(Lifecycle::Make(selection)),
    )
}
