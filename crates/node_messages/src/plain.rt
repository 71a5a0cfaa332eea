//! A message of one body, and a response.
ghost use Rattle.std.specs.Prelude.{◌≡◌, IfOk, None};
ghost use Rattle.rm_base.specs.Text.{IsText};
ghost use Rattle.rm_protocol.specs.Messages.{plain as plain_of};

use rm_base::{Memory, uri_of};
use rm_message::{Acks, Body, Idents, Message, Names};
use std::alloc::Global;
use wsa_headers::{Addressing, Epr};

// The headers of a message to an endpoint.
fn addressing_to(alloc: Global, to: Epr, action: &[u8]) -> Result<Addressing, Memory>
    requires { IsText 2048 action.now }
    ensures { IfOk result (λ a. a ≡ record {
      to = to.address;
      action = action.now;
      message_id = None;
      relates = None;
      reply_to = None;
      fault_to = None;
      params = to.params;
    }) }
{
    let action = uri_of(alloc, action)?;
    let (address, params) = to.into_parts();
    Ok(Addressing {
        to: address,
        action,
        message_id: None,
        relates: None,
        reply_to: None,
        fault_to: None,
        params,
    })
}

/// A message of one body to an endpoint, whose reference parameters go with it.
pub(crate) fn plain(alloc: Global, to: Epr, action: &[u8], body: Body) -> Result<Message, Memory>
    requires { IsText 2048 action.now }
    ensures { IfOk result (λ m. m ≡ plain_of to action.now body) }
{
    let addressing = addressing_to(alloc, to, action)?;
    Ok(Message {
        addressing,
        sequence: None,
        acks: Acks::new(alloc),
        asks: Idents::new(alloc),
        pending: None,
        not_understood: Names::new(alloc),
        body,
    })
}
