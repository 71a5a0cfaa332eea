//! Where messages for an address go: WS-Addressing 1.0 Core, section 2.1, and WS-MakeConnection 1.1, section 3.1.
ghost use Rattle.std.specs.Prelude.{◌≡◌};
ghost use Rattle.rm_protocol.specs.Addresses.{
  anonymous as anonymous_text,
  is_anonymous as is_anonymous_text,
  is_nowhere as is_nowhere_text,
  is_polled as is_polled_text,
  no_address,
  place_of as place_for,
};
ghost use Rattle.rm_base.specs.Text.{IsText};
ghost use Rattle.record_batch.specs.Sequences.Idents.{polled_prefix};
ghost use Rattle.node_messages.specs.Places.{place_seen};

use wsa_headers::ANONYMOUS;

/// Where a message for an address goes: back on the connection on which its request came, nowhere, into the list of
/// those that wait at the node until they are asked for, or out.
#[derive(Clone, Copy, Debug, PartialEq, Eq)]
pub enum Place {
    BackOn,
    Nowhere,
    Waits,
    Out,
}

/// The anonymous address.
#[tactic(auto, unfolding(rm_protocol::specs::Addresses::anonymous))]
pub(crate) fn anonymous_bytes() -> &'static [u8]
    ensures is { result.now ≡ anonymous_text }
    ensures is_text { IsText 2048 result.now }
{
    ANONYMOUS
}

#[tactic(auto, unfolding(rm_protocol::specs::Addresses::no_address))]
fn nowhere_bytes() -> &'static [u8]
    ensures { result.now ≡ no_address }
{
    b"http://www.w3.org/2005/08/addressing/none"
}

/// What the addresses of nodes that nobody can reach begin with.
#[tactic(auto, unfolding(record_batch::specs::Sequences::Idents::polled_prefix))]
pub(crate) fn polled_bytes() -> &'static [u8]
    ensures { result.now ≡ polled_prefix }
{
    b"http://docs.oasis-open.org/ws-rx/wsmc/200702/anonymous?id="
}

/// Whether an address is that of whoever is at the other end of the connection.
pub fn is_anonymous(to: &[u8]) -> bool
    ensures { result ≡ is_anonymous_text to.now }
{
    to == anonymous_bytes()
}

/// Whether an address is that of nobody.
pub fn is_nowhere(to: &[u8]) -> bool
    ensures { result ≡ is_nowhere_text to.now }
{
    to == nowhere_bytes()
}

// Whether an address is that of a node that nobody can reach.
fn is_polled(to: &[u8]) -> bool
    ensures { result ≡ is_polled_text to.now }
{
    let prefix = polled_bytes();
    prefix.len() < to.len() && &to[..prefix.len()] == prefix
}

/// Where a message for an address goes. It goes back on the connection, nowhere, to those that wait, or out.
pub fn place_of(to: &[u8]) -> Place
    ensures { place_seen result ≡ place_for to.now }
{
    if is_anonymous(to) {
        return Place::BackOn;
    }
    if is_nowhere(to) {
        return Place::Nowhere;
    }
    if is_polled(to) {
        return Place::Waits;
    }
    Place::Out
}
