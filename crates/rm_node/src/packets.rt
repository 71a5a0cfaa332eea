//! What leaves a node.
ghost use Rattle.std.specs.Prelude.{◌≡◌, false, IfOk};
ghost use Rattle.rm_protocol.specs.Addresses.{place_of as place_for};
ghost use Rattle.rm_protocol.specs.Said.{leaves};
ghost use Rattle.rm_node.specs.Fetching.{whole};
ghost use Rattle.rm_node.specs.Packets.{back_text, outs_of, packet_of, reply_of};

use crate::fetch::Answered;
use message_writer::encode;
use node_messages::{Place, is_anonymous, place_of};
use rm_base::{Blob, Items, Memory, Uri};
use rm_message::Message;
use std::alloc::Global;

/// The text of a message, and the address that it goes to.
#[derive(Debug, Drop)]
pub struct Out {
    pub address: Uri,
    pub bytes: Blob,
}

pub type Outs = Items<Out>;

/// What leaves a node: the reply on the connection, where there is one, and the other packets.
#[derive(Debug, Drop)]
pub(crate) struct Handed {
    pub(crate) reply: Option<Blob>,
    pub(crate) outs: Outs,
}

/// Whether a message for an address goes out, and not back on a connection.
fn goes_out(address: &[u8]) -> bool
    ensures { result ≡ leaves false (place_for address.now) }
{
    match place_of(address) {
        Place::Out => true,
        Place::BackOn => false,
        Place::Nowhere => false,
        Place::Waits => false,
    }
}

/// A message as a packet.
fn packet(alloc: Global, message: &Message) -> Result<Out, Memory>
    ensures { IfOk result (λ out. out ≡ packet_of message.now) }
{
    Ok(Out {
        address: message.addressing.to.copy()?,
        bytes: encode(alloc, message)?,
    })
}

/// The packets of what is said but for the reply.
fn packets(alloc: Global, said: &[Message]) -> Result<Outs, Memory>
    ensures { IfOk result (λ outs. outs ≡ outs_of said.now) }
{
    let mut outs = Outs::new(alloc);
    for message in said {
        if goes_out(message.addressing.to.as_slice()) {
            outs.push(packet(alloc, message)?)?;
        }
    }
    Ok(outs)
}

/// The text of the message for whoever is at the other end of the connection.
fn back(alloc: Global, said: &[Message]) -> Result<Option<Blob>, Memory>
    ensures { IfOk result (λ text. text ≡ back_text said.now) }
{
    for message in said {
        if is_anonymous(message.addressing.to.as_slice()) {
            return Ok(Some(encode(alloc, message)?));
        }
    }
    Ok(None)
}

/// The reply: the message that was fetched, or what is said that goes back. Only where there is a connection there is
/// one.
fn reply(alloc: Global, connected: bool, answered: &Answered) -> Result<Option<Blob>, Memory>
    ensures { IfOk result (λ text. text ≡ reply_of connected (whole answered.now)) }
{
    if !connected {
        return Ok(None);
    }
    match &answered.fetched {
        Some(fetched) => Ok(Some(encode(alloc, &fetched.message)?)),
        None => back(alloc, answered.answer.outs.as_slice()),
    }
}

/// What leaves the node of what is said.
pub(crate) fn hand_out(
    alloc: Global,
    connected: bool,
    answered: &Answered,
) -> Result<Handed, Memory>
    ensures reply { IfOk result (λ h. h.reply ≡ reply_of connected (whole answered.now)) }
    ensures outs { IfOk result (λ h. h.outs ≡ outs_of (whole answered.now).outs) }
{
    Ok(Handed {
        reply: reply(alloc, connected, answered)?,
        outs: packets(alloc, answered.answer.outs.as_slice())?,
    })
}
