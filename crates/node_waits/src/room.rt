//! What is said to polled addresses is kept.
ghost use Rattle.std.specs.Prelude.{◌≡◌, ◌++◌, ◌∷◌, [], true, IfOk, OnOk};
ghost use Rattle.timers.specs.Pending.Waiting.{is_ready, put as put_of, used};
ghost use Rattle.rm_protocol.specs.Polls.{waits_there as waits_at, puts_all, waiting_of};
ghost use Rattle.rm_protocol.specs.Addresses.{place_of as place_for};
ghost use Rattle.node_waits.specs.Held.{AreHeld, addresses_of, messages_of};

use crate::copy::copy_message;
use node_messages::{Place, place_of};
use rm_base::{Memory, Uri};
use rm_message::Message;
use std::alloc::Global;
use timers::pending::Pending;

/// A message that is to wait, with the address that it waits for.
#[derive(Debug, Drop)]
pub struct Held {
    pub address: Uri,
    pub message: Message,
}

// Whether a message for an address waits.
fn is_waiting(address: &Uri) -> bool
    ensures { result ≡ waits_at (place_for address.now) }
{
    match place_of(address.as_slice()) {
        Place::Waits => true,
        Place::BackOn => false,
        Place::Nowhere => false,
        Place::Out => false,
    }
}

// Adds a message, where it waits.
fn push(alloc: Global, held: &mut Vec<Held>, message: &Message) -> Result<(), Memory>
    ensures messages { OnOk result (messages_of held.new.items ≡
        messages_of held.old.items ++ waiting_of (message.now ∷ [])) }
    ensures held { AreHeld held.old.items → OnOk result (AreHeld held.new.items) }
{
    if !is_waiting(&message.addressing.to) {
        return Ok(());
    }
    let address = message.addressing.to.copy()?;
    let message = copy_message(alloc, message)?;
    held.push(Held { address, message })?;
    Ok(())
}

/// Of what is said, the messages that are to wait.
/// - `messages`, `held`: each is a copy with the address that it goes to, in the order in which they are said; a fault
///   is one of them.
pub fn to_wait(alloc: Global, said: &[Message]) -> Result<Vec<Held>, Memory>
    ensures messages { IfOk result (λ held. messages_of held.items ≡ waiting_of said.now) }
    ensures held { IfOk result (λ held. AreHeld held.items) }
{
    let mut held = Vec::new(alloc);
    for message in said {
        push(alloc, &mut held, message)?;
    }
    Ok(held)
}

/// Makes room for messages that are to wait.
/// - `ready`, `waits`: there is room for these and for no others; what waits stays as it is.
pub fn make_room(waits: &mut Pending<Message>, held: &[Held]) -> Result<(), Memory>
    ensures waits { waits.new.waits ≡ waits.old.waits }
    ensures ready { OnOk result (waits.new.ready ≡ addresses_of held.now) }
{
    waits.forget();
    for one in held {
        waits.reserve(&one.address)?;
    }
    Ok(())
}

// Puts one, for which there is room.
fn put(waits: &mut Pending<Message>, one: Held)
    requires { is_ready waits.old.ready one.address ≡ true }
    ensures waits { waits.new.waits ≡ put_of waits.old.waits one.address one.message }
    ensures ready { waits.new.ready ≡ used waits.old.ready one.address }
{
    let Held { address, message } = one;
    match waits.put(&address, message) {
        Ok(_) => {}
        Err(_) => unreachable!(),
    }
}

/// Puts messages for which there is room. It takes no memory.
/// - `ready`: room was made, so nothing can fail once records are written.
pub fn keep(waits: &mut Pending<Message>, held: Vec<Held>)
    requires ready { waits.old.ready ≡ addresses_of held.items }
    requires held { AreHeld held.items }
    ensures waits { waits.new.waits ≡ puts_all waits.old.waits (messages_of held.items) }
    ensures ready { waits.new.ready ≡ [] }
{
    for one in held {
        put(waits, one);
    }
}
