//! What a MakeConnection takes out: WS-MakeConnection 1.1, section 3.3.
ghost use Rattle.std.specs.Prelude.{◌≡◌, ◌++◌, ◌∷◌, [], IfOk, OnOk, Some};
ghost use Rattle.rm_protocol.specs.Polls.{
  awaited,
  blocks_back as blocks_back_of,
  fetched_with,
  goes_back as goes_back_of,
  said_beside as said_beside_of,
  selected_by,
  with_pending,
  without_fetched,
};
ghost use Rattle.rm_protocol.specs.Said.{with_blocks as with_blocks_of};
ghost use Rattle.node_waits.specs.Fetched.{fetched_seen, without_back};

use crate::copy::copy_message;
use node_messages::{is_anonymous, with_blocks};
use rm_base::{Memory, Uri, copy_optional_uri};
use rm_message::elements::{Lifecycle, copy_block};
use rm_message::{Acks, Body, Message};
use std::alloc::Global;
use timers::pending::Pending;

/// A message that waited for an address, as the reply to the MakeConnection that asked for it.
#[derive(Debug, Drop)]
pub struct Fetched {
    pub address: Uri,
    pub message: Message,
}

/// What is said where a message may be fetched: that message, where one waited, and the rest.
#[derive(Debug, Drop)]
pub struct Polled {
    pub fetched: Option<Fetched>,
    pub outs: Vec<Message>,
}

/// The address that a message asks for.
pub fn selected(body: &Body) -> Result<Option<Uri>, Memory>
    ensures { IfOk result (λ at. at ≡ selected_by body.now) }
{
    match body {
        Body::Lifecycle(Lifecycle::Make(selection)) => copy_optional_uri(&selection.address),
        Body::Lifecycle(_) => Ok(None),
        Body::Empty => Ok(None),
        Body::Payload(_) => Ok(None),
        Body::Fault(_) => Ok(None),
    }
}

// Whether a message is for the other end of the connection.
fn goes_back(message: &Message) -> bool
    ensures { result ≡ goes_back_of message.now }
{
    is_anonymous(message.addressing.to.as_slice())
}

// Adds the blocks of a message, where it would go back on the connection.
fn push_blocks(alloc: Global, blocks: &mut Acks, message: &Message) -> Result<(), Memory>
    ensures { OnOk result (blocks.new ≡ blocks.old ++ blocks_back_of (message.now ∷ [])) }
{
    if !goes_back(message) {
        return Ok(());
    }
    for block in message.acks.as_slice() {
        blocks.push(copy_block(alloc, block)?)?;
    }
    Ok(())
}

// The blocks of the messages that would go back on the connection.
fn blocks_back(alloc: Global, said: &[Message]) -> Result<Acks, Memory>
    ensures { IfOk result (λ blocks. blocks ≡ blocks_back_of said.now) }
{
    let mut blocks = Acks::new(alloc);
    for message in said {
        push_blocks(alloc, &mut blocks, message)?;
    }
    Ok(blocks)
}

// A message that waits as a reply: with MessagePending, and with the blocks of what else would go back on the
// connection.
fn reply(alloc: Global, message: &Message, more: bool, said: &[Message]) -> Result<Message, Memory>
    ensures { IfOk result (λ r. r ≡ with_blocks_of (with_pending message.now more) (blocks_back_of said.now)) }
{
    let blocks = blocks_back(alloc, said)?;
    let mut reply = copy_message(alloc, message)?;
    reply.pending = Some(more);
    with_blocks(reply, blocks)
}

// The oldest message that waits for an address, as the reply. It waits as before.
fn fetch_for(
    alloc: Global,
    waits: &Pending<Message>,
    at: Uri,
    said: &[Message],
) -> Result<Option<Fetched>, Memory>
    ensures { IfOk result (λ f. fetched_seen f ≡ fetched_with (awaited waits.now.waits (Some at)) said.now) }
{
    match waits.first(&at) {
        Some((message, more)) => {
            let message = reply(alloc, message, more, said)?;
            Ok(Some(Fetched {
                address: at,
                message,
            }))
        }
        None => Ok(None),
    }
}

// That of the address that was asked for, if one was.
fn fetch_asked(
    alloc: Global,
    waits: &Pending<Message>,
    at: Option<Uri>,
    said: &[Message],
) -> Result<Option<Fetched>, Memory>
    ensures { IfOk result (λ f. fetched_seen f ≡ fetched_with (awaited waits.now.waits at) said.now) }
{
    match at {
        Some(at) => fetch_for(alloc, waits, at, said),
        None => Ok(None),
    }
}

// What is said besides such a reply.
fn said_beside(alloc: Global, said: Vec<Message>) -> Result<Vec<Message>, Memory>
    ensures { IfOk result (λ beside. beside.items ≡ without_back said.items) }
{
    let mut beside = Vec::new(alloc);
    for message in said {
        if !goes_back(&message) {
            beside.push(message)?;
        }
    }
    Ok(beside)
}

// What is said besides such a reply, if there is one.
fn said_with(
    alloc: Global,
    fetched: &Option<Fetched>,
    said: Vec<Message>,
) -> Result<Vec<Message>, Memory>
    ensures { IfOk result (λ outs. outs.items ≡ said_beside_of (fetched_seen fetched.now) said.items) }
{
    match fetched {
        Some(_) => said_beside(alloc, said),
        None => Ok(said),
    }
}

/// What is said, with the message that waits for the address that was asked for, if one was. It waits as before, until
/// it is taken.
/// - `fetched`: the oldest message that waits for the address is the reply, with MessagePending, its own blocks and
///   behind them those of what else would go back on the connection.
/// - `outs`: besides it is said all that is not for the connection, and where no message is fetched all.
pub fn polls(
    alloc: Global,
    waits: &Pending<Message>,
    at: Option<Uri>,
    said: Vec<Message>,
) -> Result<Polled, Memory>
    ensures fetched { IfOk result (λ p. fetched_seen p.fetched ≡ fetched_with (awaited waits.now.waits at) said.items) }
    ensures outs { IfOk result (λ p. p.outs.items ≡ said_beside_of (awaited waits.now.waits at) said.items) }
{
    let fetched = fetch_asked(alloc, waits, at, said.as_slice())?;
    let outs = said_with(alloc, &fetched, said)?;
    Ok(Polled { fetched, outs })
}

/// Takes the message that was fetched from those that wait. It takes no memory.
pub fn take(waits: &mut Pending<Message>, fetched: &Option<Fetched>)
    ensures { waits.new ≡ record waits.old {
      waits = without_fetched waits.old.waits (fetched_seen fetched.now);
    } }
{
    let Some(fetched) = fetched else {
        return;
    };
    waits.poll(&fetched.address);
}
