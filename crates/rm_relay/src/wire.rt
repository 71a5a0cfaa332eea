//! What leaves a node goes on the wire, to the node of its address or, a reply, to the one that sent what is answered.
ghost use Rattle.std.specs.Prelude.{◌≡◌, IfOk, OnErr, OnOk, map};
ghost use Rattle.rm_node.specs.Packets.{reply_packet};
ghost use Rattle.rm_relay.specs.Putting.{IsPutInPart, goes_by, going_of, goings_of, net_of, with_all, with_one};
ghost use Rattle.rm_relay.specs.Word.World.{address_of, number_of, station_at as station_of};

use crate::word::Station;
use node_messages::is_anonymous;
use rm_base::wire::Wire;
use rm_base::{Blob, Memory};
use rm_node::Out;
use rm_replay::actor::Came;
use rm_script::report::Outcome;
use std::alloc::Global;

/// The sender of each packet on the wire, in their order.
pub(crate) type Senders = Vec<Station>;

pub(crate) fn address_bytes(station: Station) -> &'static [u8]
    ensures { result.now ≡ address_of station }
{
    match station {
        Station::One => b"http://node1.example/",
        Station::Two => b"http://node2.example/",
        Station::Three => b"http://node3.example/",
    }
}

/// The node at an address.
fn station_at(address: &[u8]) -> Option<Station>
    ensures { result ≡ station_of address.now }
{
    if address == address_bytes(Station::One) {
        return Some(Station::One);
    }
    if address == address_bytes(Station::Two) {
        return Some(Station::Two);
    }
    if address == address_bytes(Station::Three) {
        return Some(Station::Three);
    }
    None
}

pub(crate) fn number(station: Station) -> u8
    ensures { result ≡ number_of station }
{
    match station {
        Station::One => 1,
        Station::Two => 2,
        Station::Three => 3,
    }
}

/// The node with this number.
pub(crate) fn station_with(number: u8) -> Station
    ensures { (at : Station) → number ≡ number_of at → result ≡ at }
{
    match number {
        1 => Station::One,
        2 => Station::Two,
        _ => Station::Three,
    }
}

/// Puts one packet on the wire, and its sender with the others. Where the wire has no room for it, it is lost.
fn put<W: Wire>(
    wire: &mut W,
    senders: &mut Senders,
    from: Station,
    to: Station,
    bytes: &[u8],
) -> Result<(), Memory>
    ensures ok { OnOk result (net_of W.packets wire.new senders.new.items
        ≡ with_one (net_of W.packets wire.old senders.old.items) from to bytes.now) }
    ensures err { OnErr result (net_of W.packets wire.new senders.new.items
        ≡ net_of W.packets wire.old senders.old.items) }
{
    senders.reserve(1)?;
    if wire.put(number(to), bytes)? {
        match senders.push(from) {
            Ok(()) => {}
            Err(_) => unreachable!(),
        }
    }
    Ok(())
}

/// The node that a packet goes to: the one that is answered, or that of the address.
fn goes_to(back: Option<Station>, address: &[u8]) -> Option<Station>
    ensures { result ≡ goes_by back address.now }
{
    if is_anonymous(address) {
        return back;
    }
    station_at(address)
}

/// Puts packets on the wire, one after the other. One whose address is no node's is lost.
fn put_all<W: Wire>(
    wire: &mut W,
    senders: &mut Senders,
    from: Station,
    back: Option<Station>,
    outs: &[Out],
) -> Result<(), Memory>
    ensures ok { OnOk result (net_of W.packets wire.new senders.new.items
        ≡ with_all (net_of W.packets wire.old senders.old.items) from (map (going_of back) outs.now)) }
    ensures err { OnErr result (IsPutInPart (net_of W.packets wire.old senders.old.items) from
        (map (going_of back) outs.now) (net_of W.packets wire.new senders.new.items)) }
{
    for out in outs {
        if let Some(to) = goes_to(back, out.address.as_slice()) {
            put(wire, senders, from, to, out.bytes.as_slice())?;
        }
    }
    Ok(())
}

/// Puts the reply on the wire, where there is one.
fn put_reply<W: Wire>(
    wire: &mut W,
    senders: &mut Senders,
    from: Station,
    back: Option<Station>,
    reply: &Option<Blob>,
) -> Result<(), Memory>
    ensures ok { OnOk result (net_of W.packets wire.new senders.new.items
        ≡ with_all (net_of W.packets wire.old senders.old.items) from
        (map (going_of back) (reply_packet reply.now))) }
    ensures err { OnErr result (net_of W.packets wire.new senders.new.items
        ≡ net_of W.packets wire.old senders.old.items) }
{
    let Some(to) = back else {
        return Ok(());
    };
    match reply {
        None => Ok(()),
        Some(bytes) => put(wire, senders, from, to, bytes.as_slice()),
    }
}

/// Puts what left a node on the wire, the reply first, and answers how its call came out.
pub(crate) fn put_came<W: Wire>(
    wire: &mut W,
    senders: &mut Senders,
    from: Station,
    back: Option<Station>,
    came: Came,
) -> Result<Outcome, Memory>
    ensures ok { OnOk result (net_of W.packets wire.new senders.new.items
        ≡ with_all (net_of W.packets wire.old senders.old.items) from (goings_of back came)) }
    ensures outcome { IfOk result (λ outcome. outcome ≡ came.outcome) }
    ensures err { OnErr result (IsPutInPart (net_of W.packets wire.old senders.old.items) from
        (goings_of back came) (net_of W.packets wire.new senders.new.items)) }
{
    put_reply(wire, senders, from, back, &came.reply)?;
    put_all(wire, senders, from, back, came.outs.as_slice())?;
    Ok(came.outcome)
}
