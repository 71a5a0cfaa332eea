//! Body elements: WS-ReliableMessaging 1.2, sections 3.4 to 3.6, and WS-MakeConnection 1.1, section 3.
ghost use Rattle.std.specs.Prelude.{◌≡◌, ◌∷◌, [], option_map};
ghost use Rattle.soap_document.specs.Profile.View.{element_view, parts_view};
ghost use Rattle.soap_writer.specs.Values.Outcome.{Gives, if_present};
ghost use Rattle.wsa_headers.specs.Endpoint.{uri_of};
ghost use Rattle.rm_message.specs.Elements.Headers.{number_of};
ghost use Rattle.rm_message.specs.Elements.Lifecycle.{
  reference_in,
  expires_in,
  behaviour_named,
  behaviour_in,
  offer_of,
  offer_in,
  create_in,
  accept_of,
  accept_in,
  response_in,
  finish_in,
  has_other as has_other_in,
  make_in,
};

use crate::elements::duration::read_duration;
use crate::elements::header::{MESSAGING, number_within, read_identifier};
use rm_base::{Behaviour, Ident, Lapse, Uri};
use soap_document::profile::{Element, Item};
use soap_writer::values::{Flaw, find_optional, find_single, is_named, read_trimmed};
use std::alloc::Global;
use wsa_headers::{Epr, read_address_of, read_reference};

/// The namespace of WS-MakeConnection 1.1: section 1.4.
pub const CONNECTION: &[u8] = b"http://docs.oasis-open.org/ws-rx/wsmc/200702";

/// An Offer of a sequence in the other direction.
#[derive(Debug, Drop)]
pub struct Offer {
    pub ident: Ident,
    pub endpoint: Epr,
    pub expires: Lapse,
    pub behaviour: Behaviour,
}

#[derive(Debug)]
pub struct CreateSequence {
    pub acks_to: Epr,
    pub expires: Lapse,
    pub offer: Option<Offer>,
}

impl Drop for CreateSequence {
    fn drop(self) {
        let CreateSequence {
            acks_to: _,
            expires: _,
            offer: _,
        } = self;
    }
}

/// A CreateSequenceResponse. `accept` is the AcksTo of Accept, where the offer was taken.
#[derive(Debug, Drop)]
pub struct CreateResponse {
    pub ident: Ident,
    pub expires: Lapse,
    pub behaviour: Behaviour,
    pub accept: Option<Epr>,
}

/// A CloseSequence or a TerminateSequence, with its LastMsgNumber.
#[derive(Debug, Drop)]
pub struct Finish {
    pub ident: Ident,
    pub last_number: Option<u64>,
}

/// A MakeConnection: the address whose messages are asked for, and whether something else was selected besides.
#[derive(Debug, Drop)]
pub struct MakeConnection {
    pub address: Option<Uri>,
    pub other: bool,
}

/// The one element of a body that opens, closes or ends a sequence, or asks for a waiting message.
#[derive(Debug)]
pub enum Lifecycle {
    Create(CreateSequence),
    CreateResponse(CreateResponse),
    Close(Finish),
    CloseResponse(Ident),
    Terminate(Finish),
    TerminateResponse(Ident),
    Make(MakeConnection),
}

// It's written, and not derived: a value whose drop is derived is taken apart at each place where it may be let go.
impl Drop for Lifecycle {
    fn drop(self) {
        match self {
            Lifecycle::Create(_) => {}
            Lifecycle::CreateResponse(_) => {}
            Lifecycle::Close(_) => {}
            Lifecycle::CloseResponse(_) => {}
            Lifecycle::Terminate(_) => {}
            Lifecycle::TerminateResponse(_) => {}
            Lifecycle::Make(_) => {}
        }
    }
}

// The endpoint reference that the one child of a name is.
fn read_reference_named(alloc: Global, items: &[Item], local: &[u8]) -> Result<Epr, Flaw>
    ensures { Gives (λ e. e) result (reference_in local.now (parts_view items.now)) }
{
    let child = find_single(items, MESSAGING, local)?;
    read_reference(alloc, child)
}

#[tactic(auto, unfolding(crate::specs::Elements::Lifecycle::expires_in))]
fn read_expires(alloc: Global, items: &[Item]) -> Result<Lapse, Flaw>
    ensures { Gives (λ l. l) result (expires_in (parts_view items.now)) }
{
    let Some(child) = find_optional(items, MESSAGING, b"Expires")? else {
        return Ok(Lapse { months: 0, ms: 0 });
    };
    let bytes = read_trimmed(alloc, child)?;
    match read_duration(bytes.as_slice()) {
        Some(lapse) => Ok(lapse),
        None => Err(Flaw::Malformed),
    }
}

fn behaviour_from(bytes: &[u8]) -> Result<Behaviour, Flaw>
    ensures { Gives (λ b. b) result (behaviour_named bytes.now) }
{
    if bytes == b"NoDiscard".as_slice() {
        return Ok(Behaviour::NoDiscard);
    }
    if bytes == b"DiscardEntireSequence".as_slice() {
        return Ok(Behaviour::EntireSequence);
    }
    if bytes == b"DiscardFollowingFirstGap".as_slice() {
        return Ok(Behaviour::FollowingFirstGap);
    }
    Err(Flaw::Malformed)
}

#[tactic(auto, unfolding(crate::specs::Elements::Lifecycle::behaviour_in))]
fn read_behaviour(alloc: Global, items: &[Item]) -> Result<Behaviour, Flaw>
    ensures { Gives (λ b. b) result (behaviour_in (parts_view items.now)) }
{
    let Some(child) = find_optional(items, MESSAGING, b"IncompleteSequenceBehavior")? else {
        return Ok(Behaviour::NoDiscard);
    };
    let bytes = read_trimmed(alloc, child)?;
    behaviour_from(bytes.as_slice())
}

#[tactic(auto, unfolding(crate::specs::Elements::Lifecycle::offer_of))]
fn offer_within(alloc: Global, element: &Element) -> Result<Offer, Flaw>
    ensures { Gives (λ o. o) result (offer_of (element_view element.now)) }
{
    let items = element.items.as_slice();
    let ident = read_identifier(alloc, items)?;
    let endpoint = read_reference_named(alloc, items, b"Endpoint")?;
    let expires = read_expires(alloc, items)?;
    let behaviour = read_behaviour(alloc, items)?;
    Ok(Offer {
        ident,
        endpoint,
        expires,
        behaviour,
    })
}

#[tactic(auto, unfolding(crate::specs::Elements::Lifecycle::offer_in))]
fn read_offer(alloc: Global, items: &[Item]) -> Result<Option<Offer>, Flaw>
    ensures { Gives (λ o. o) result (offer_in (parts_view items.now)) }
{
    let Some(child) = find_optional(items, MESSAGING, b"Offer")? else {
        return Ok(None);
    };
    Ok(Some(offer_within(alloc, child)?))
}

#[tactic(auto, unfolding(crate::specs::Elements::Lifecycle::create_in))]
pub(crate) fn read_create(alloc: Global, items: &[Item]) -> Result<CreateSequence, Flaw>
    ensures { Gives (λ c. c) result (create_in (parts_view items.now)) }
{
    let acks_to = read_reference_named(alloc, items, b"AcksTo")?;
    let expires = read_expires(alloc, items)?;
    let offer = read_offer(alloc, items)?;
    Ok(CreateSequence {
        acks_to,
        expires,
        offer,
    })
}

fn accept_within(alloc: Global, element: &Element) -> Result<Epr, Flaw>
    ensures { Gives (λ e. e) result (accept_of (element_view element.now)) }
{
    read_reference_named(alloc, element.items.as_slice(), b"AcksTo")
}

#[tactic(auto, unfolding(crate::specs::Elements::Lifecycle::accept_in))]
fn read_accept(alloc: Global, items: &[Item]) -> Result<Option<Epr>, Flaw>
    ensures { Gives (λ o. o) result (accept_in (parts_view items.now)) }
{
    let Some(child) = find_optional(items, MESSAGING, b"Accept")? else {
        return Ok(None);
    };
    Ok(Some(accept_within(alloc, child)?))
}

#[tactic(auto, unfolding(crate::specs::Elements::Lifecycle::response_in))]
pub(crate) fn read_response(alloc: Global, items: &[Item]) -> Result<CreateResponse, Flaw>
    ensures { Gives (λ c. c) result (response_in (parts_view items.now)) }
{
    let ident = read_identifier(alloc, items)?;
    let expires = read_expires(alloc, items)?;
    let behaviour = read_behaviour(alloc, items)?;
    let accept = read_accept(alloc, items)?;
    Ok(CreateResponse {
        ident,
        expires,
        behaviour,
        accept,
    })
}

fn last_number(alloc: Global, found: Option<&Element>) -> Result<Option<u64>, Flaw>
    ensures { Gives (λ o. o) result (if_present number_of (option_map (λ e. element_view e.now) found.entry)) }
{
    let Some(child) = found else {
        return Ok(None);
    };
    Ok(Some(number_within(alloc, child)?))
}

#[tactic(auto, unfolding(crate::specs::Elements::Lifecycle::finish_in))]
pub(crate) fn read_finish(alloc: Global, items: &[Item]) -> Result<Finish, Flaw>
    ensures { Gives (λ f. f) result (finish_in (parts_view items.now)) }
{
    let ident = read_identifier(alloc, items)?;
    let found = find_optional(items, MESSAGING, b"LastMsgNumber")?;
    let last_number = last_number(alloc, found)?;
    Ok(Finish { ident, last_number })
}

// Whether there is a child that is no Address.
fn has_other(items: &[Item]) -> bool
    ensures { result ≡ has_other_in (parts_view items.now) }
{
    for item in items {
        if is_other(item) {
            return true;
        }
    }
    false
}

fn is_other(item: &Item) -> bool
    ensures { result ≡ has_other_in (parts_view (item.now ∷ [])) }
{
    match item {
        Item::Child(child) => !is_named(&child.name, CONNECTION, b"Address"),
        _ => false,
    }
}

fn address_within(alloc: Global, found: Option<&Element>) -> Result<Option<Uri>, Flaw>
    ensures { Gives (λ o. o) result (if_present uri_of (option_map (λ e. element_view e.now) found.entry)) }
{
    let Some(child) = found else {
        return Ok(None);
    };
    Ok(Some(read_address_of(alloc, child)?))
}

#[tactic(auto, unfolding(crate::specs::Elements::Lifecycle::make_in))]
pub(crate) fn read_make(alloc: Global, items: &[Item]) -> Result<MakeConnection, Flaw>
    ensures { Gives (λ m. m) result (make_in (parts_view items.now)) }
{
    let found = find_optional(items, CONNECTION, b"Address")?;
    let address = address_within(alloc, found)?;
    Ok(MakeConnection {
        address,
        other: has_other(items),
    })
}
