//! The endpoints that messages go to: WS-Addressing 1.0 Core, section 3.4.
ghost use Rattle.std.specs.Prelude.{◌≡◌, IfOk};
ghost use Rattle.rm_protocol.specs.Addresses.{
  anonymous as anonymous_text,
  fault_endpoint as fault_endpoint_of,
  reply_endpoint as reply_endpoint_of,
  reply_endpoint_by,
};
ghost use Rattle.record_batch.specs.Sequences.Find.{plain_endpoint as plain_endpoint_of};

use crate::address::anonymous_bytes;
use rm_base::{Memory, Uri, uri_of};
use soap_document::profile::Elements;
use std::alloc::Global;
use wsa_headers::{Addressing, Epr};

/// An address without reference parameters.
pub fn plain_endpoint(alloc: Global, address: Uri) -> Epr
    ensures { result ≡ plain_endpoint_of address }
{
    Epr {
        address,
        params: Elements::new(alloc),
    }
}

/// The address of whoever is at the other end of the connection.
pub fn anonymous(alloc: Global) -> Result<Uri, Memory>
    ensures { IfOk result (λ uri. uri ≡ anonymous_text) }
{
    uri_of(alloc, anonymous_bytes())
}

fn reply_to_or_anonymous(alloc: Global, reply_to: &Option<Epr>) -> Result<Epr, Memory>
    ensures { IfOk result (λ endpoint. endpoint ≡ reply_endpoint_by reply_to.now) }
{
    match reply_to {
        Some(endpoint) => endpoint.copy(alloc),
        None => Ok(plain_endpoint(alloc, anonymous(alloc)?)),
    }
}

/// Where the response to a message goes.
pub fn reply_endpoint(alloc: Global, addressing: &Addressing) -> Result<Epr, Memory>
    ensures { IfOk result (λ endpoint. endpoint ≡ reply_endpoint_of addressing.now) }
{
    reply_to_or_anonymous(alloc, &addressing.reply_to)
}

/// Where the fault that answers a message goes.
pub fn fault_endpoint(alloc: Global, addressing: &Addressing) -> Result<Epr, Memory>
    ensures { IfOk result (λ endpoint. endpoint ≡ fault_endpoint_of addressing.now) }
{
    match &addressing.fault_to {
        Some(endpoint) => endpoint.copy(alloc),
        None => reply_to_or_anonymous(alloc, &addressing.reply_to),
    }
}
