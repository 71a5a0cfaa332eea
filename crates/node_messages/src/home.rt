//! The node that speaks, and the addresses that it gives for answers.
ghost use Rattle.std.specs.Prelude.{◌≡◌, ◌<◌, ◌≤◌, ◌^◌, List, length, drop, IfOk};
ghost use Rattle.record_batch.specs.Fact.{Fact};
ghost use Rattle.rm_protocol.specs.Addresses.{own_address as own_address_of, reply_to as reply_to_of};
ghost use Rattle.record_batch.specs.Sequences.Find.{plain_endpoint as plain_endpoint_of};
ghost use Rattle.record_batch.specs.Sequences.Idents.{polled_address as polled_address_of};
ghost use Rattle.node_messages.specs.Homes.{IsHome};

use crate::address::polled_bytes;
use crate::endpoint::{anonymous, plain_endpoint};
use record_batch::Via;
use record_batch::sequences::issue;
use rm_base::{Memory, Uri, uri_of};
use std::alloc::Global;
use wsa_headers::Epr;

/// How many bytes stand before the UUID in an identifier.
const URN_PREFIX: usize = 9;

/// A node: its number and its address.
#[derive(Clone, Copy, Debug)]
pub struct Home<'a> {
    pub number: u64,
    pub address: &'a Uri,
}

// What stands behind the front of an identifier.
fn behind_prefix(urn: &[u8]) -> &[u8]
    requires { 9 ≤ length urn.now }
    ensures { result.now ≡ drop 9 urn.now }
{
    &urn[URN_PREFIX..]
}

// Where messages for the node wait.

fn polled_address(alloc: Global, number: u64) -> Result<Uri, Memory>
    requires { number < 2 ^ 60 }
    ensures { IfOk result (λ uri. uri ≡ polled_address_of number) }
{
    let ident = issue(alloc, number, 0)?;
    let mut text = Vec::from_slice(alloc, polled_bytes())?;
    text.extend_from_slice(behind_prefix(ident.as_slice()))?;
    uri_of(alloc, text.as_slice())
}

impl Home<'_> {
    /// The address that the node gives for answers.
    pub fn own_address(self, alloc: Global, via: Via) -> Result<Uri, Memory>
        requires { self.number < 2 ^ 60 }
        ensures { (r : List Fact) → IsHome self.entry r → IfOk result (λ uri. uri ≡ own_address_of r via) }
    {
        match via {
            Via::Direct => self.address.copy(),
            Via::Polled => polled_address(alloc, self.number),
            Via::Back => anonymous(alloc),
        }
    }

    /// That address as an endpoint.
    pub fn own_endpoint(self, alloc: Global, via: Via) -> Result<Epr, Memory>
        requires { self.number < 2 ^ 60 }
        ensures { (r : List Fact) → IsHome self.entry r
            → IfOk result (λ endpoint. endpoint ≡ plain_endpoint_of (own_address_of r via)) }
    {
        Ok(plain_endpoint(alloc, self.own_address(alloc, via)?))
    }

    /// What the node gives as ReplyTo: none where answers come back on the connection.
    pub fn reply_to(self, alloc: Global, via: Via) -> Result<Option<Epr>, Memory>
        requires { self.number < 2 ^ 60 }
        ensures { (r : List Fact) → IsHome self.entry r → IfOk result (λ given. given ≡ reply_to_of r via) }
    {
        match via {
            Via::Back => Ok(None),
            Via::Direct => Ok(Some(self.own_endpoint(alloc, via)?)),
            Via::Polled => Ok(Some(self.own_endpoint(alloc, via)?)),
        }
    }
}
