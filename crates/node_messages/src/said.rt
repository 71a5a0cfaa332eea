//! Responses and acknowledgements put together: WS-Addressing 1.0 Core, section 3.4, and WS-ReliableMessaging 1.2,
//! section 3.9.
ghost use Rattle.std.specs.Prelude.{◌≡◌, ◌++◌, true, IfOk, OnOk};
ghost use Rattle.rm_protocol.specs.Said.{answered as answered_of, back_blocks, own_messages};
ghost use Rattle.node_messages.specs.Split.{
  back_by,
  back_to,
  goes_back as goes_back_of,
  with_back as with_back_of,
};

use crate::acks::{ack_message, with_blocks};
use crate::address::is_anonymous;
use crate::response::one_block;
use rm_base::Memory;
use rm_message::elements::AckBlock;
use rm_message::{Acks, Message};
use std::alloc::Global;
use wsa_headers::Epr;

/// An acknowledgement, and the AcksTo that it goes to.
pub type Ack = (Epr, AckBlock);

// Acknowledgements by where they go: the blocks that go back on the connection, with the first of their endpoints, and
// the messages of the others.
#[derive(Drop)]
struct Split {
    to: Option<Epr>,
    back: Acks,
    own: Vec<Message>,
}

fn sorted(alloc: Global, acks: Vec<Ack>) -> Result<Split, Memory>
    ensures to { IfOk result (λ s. s.to ≡ back_to acks.items) }
    ensures back { IfOk result (λ s. s.back ≡ back_blocks acks.items) }
    ensures own { IfOk result (λ s. s.own.items ≡ own_messages acks.items) }
{
    let mut to = None;
    let mut back = Acks::new(alloc);
    let mut own = Vec::new(alloc);
    for (endpoint, block) in acks {
        if !is_anonymous(endpoint.address.as_slice()) {
            own.push(ack_message(alloc, endpoint, one_block(alloc, block)?)?)?;
            continue;
        }
        back.push(block)?;
        if to.is_none() {
            to = Some(endpoint);
        }
    }
    Ok(Split { to, back, own })
}

// The message that goes back on the connection, where there is no other reply.
fn back_message(alloc: Global, to: Option<Epr>, back: Acks) -> Result<Vec<Message>, Memory>
    ensures { IfOk result (λ said. said.items ≡ back_by to back) }
{
    let mut said = Vec::new(alloc);
    if let Some(to) = to {
        said.push(ack_message(alloc, to, back)?)?;
    }
    Ok(said)
}

// Whether the first of the responses goes back on the connection.
fn goes_back(replies: &[Message]) -> bool
    ensures { result ≡ goes_back_of replies.now }
{
    match replies.first() {
        Some(reply) => is_anonymous(reply.addressing.to.as_slice()),
        None => false,
    }
}

// The responses, with more acknowledgements in the first.
fn with_back(mut replies: Vec<Message>, back: Acks) -> Result<Vec<Message>, Memory>
    requires { goes_back_of replies.items ≡ true }
    ensures { IfOk result (λ said. said.items ≡ with_back_of replies.items back) }
{
    let reply = replies.remove(0);
    replies.insert(0, with_blocks(reply, back)?)?;
    Ok(replies)
}

fn append(said: &mut Vec<Message>, more: Vec<Message>) -> Result<(), Memory>
    ensures { OnOk result (said.new.items ≡ said.old.items ++ more.items) }
{
    for message in more {
        said.push(message)?;
    }
    Ok(())
}

/// Responses and acknowledgements together, the reply first: acknowledgements for the anonymous address are blocks of
/// the first response, where that goes there too, or else one message; each other one is a message of its own.
#[tactic(auto, using(crate::proofs::SaidLemmas::answered_back, crate::proofs::SaidLemmas::answered_apart))]
pub fn answered(
    alloc: Global,
    replies: Vec<Message>,
    acks: Vec<Ack>,
) -> Result<Vec<Message>, Memory>
    ensures { IfOk result (λ said. said.items ≡ answered_of replies.items acks.items) }
{
    let Split { to, back, own } = sorted(alloc, acks)?;
    if goes_back(&replies) {
        let mut said = with_back(replies, back)?;
        append(&mut said, own)?;
        return Ok(said);
    }
    let mut said = back_message(alloc, to, back)?;
    append(&mut said, replies)?;
    append(&mut said, own)?;
    Ok(said)
}
