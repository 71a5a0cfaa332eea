//! What one line of a script does.
ghost use Rattle.std.specs.Prelude.{◌≡◌, ◌≤◌, IfOk, false};
ghost use Rattle.rm_base.specs.Text.{IsText};
ghost use Rattle.rm_message.specs.Elements.Writable.{IsLapseWritable};
ghost use Rattle.rm_replay.specs.Actor.Outcomes.{ends_by_disk};
ghost use Rattle.node_laws.specs.OwnTerms.{AreOwn};
ghost use Rattle.rm_protocol.specs.Terms.{Terms};
ghost use Rattle.rm_protocol.specs.World.{Side as Place, World, node, other as other_of};
ghost use Rattle.rm_script.specs.Within.{IsWithin};
ghost use Rattle.rm_node.specs.Asked.{Asked, Asks, MayBeAsked};
ghost use Rattle.rm_replay.specs.Asked.{WereAsked, step_of};
ghost use Rattle.rm_replay.specs.Happening.{Compacts, Crashes, Happens, Moves, WereAskedFor, armed, granted, told_of};
ghost use Rattle.rm_replay.specs.Meaning.{side_of, via_of};
ghost use Rattle.rm_replay.specs.Net.{AreOfNet, number_of};
ghost use Rattle.rm_replay.specs.Shows.{Drives, Shows, StandFor, address_of, drives_of, scene_of};

use crate::actor::laws::each_image_is_left;
use crate::ask::ask_at;
use crate::stage::{Nodes, Stage};
use crate::wire::put_came;
use message_reader::decode;
use node_laws::answers::Wish;
use node_laws::laws::{each_message_keeps_the_rules, what_waits_keeps_the_rules};
use record_batch::Via;
use rm_base::laws::texts_are_tested;
use rm_base::wire::Wire;
use rm_base::{Behaviour, Blob, Lapse, Memory, TextError, Uri};
use rm_disk::CrashDisk;
use rm_message::DecodeError;
use rm_node::Call;
use rm_script::report::Outcome;
use rm_script::{Event, Side};
use rm_wire::laws::what_is_written_is_read;
use rm_wire::read_laws::laws::{a_refusal_may_be_answered, what_is_read_may_be_written};
use std::alloc::Global;

fn address_bytes(side: Side) -> &'static [u8]
    ensures { result.now ≡ address_of (side_of side) }
{
    match side {
        Side::One => b"http://node1.example/",
        Side::Two => b"http://node2.example/",
    }
}

/// The address of a node.
pub(crate) fn address(alloc: Global, side: Side) -> Result<Uri, Memory>
    ensures address { IfOk result (λ uri. uri ≡ address_of (side_of side)) }
    ensures is_text { IfOk result (λ uri. IsText 2048 uri) }
{
    texts_are_tested();
    match Uri::from_slice(alloc, address_bytes(side)) {
        Ok(address) => Ok(address),
        Err(TextError::Memory) => Err(Memory),
        Err(TextError::Empty) => unreachable!(),
        Err(TextError::TooLong { .. }) => unreachable!(),
        Err(TextError::NotText) => unreachable!(),
    }
}

fn other(side: Side) -> Side
    ensures { side_of result ≡ other_of (side_of side) }
{
    match side {
        Side::One => Side::Two,
        Side::Two => Side::One,
    }
}

fn number(side: Side) -> u8
    ensures { result ≡ number_of (side_of side) }
{
    match side {
        Side::One => 1,
        Side::Two => 2,
    }
}

/// The node with this number.
fn side_with(number: u8) -> Side
    ensures { (side : Place) → number ≡ number_of side → side_of result ≡ side }
{
    if number == 1 {
        return Side::One;
    }
    Side::Two
}

/// The outcome of a line that has one.
fn some(came: Result<Outcome, Memory>) -> Result<Option<Outcome>, Memory>
    ensures { result ≡ told_of came }
{
    match came {
        Ok(outcome) => Ok(Some(outcome)),
        Err(Memory) => Err(Memory),
    }
}

/// A node is asked for something, and what leaves it goes on the wire.
fn call<M: CrashDisk, W: Wire>(
    stage: &mut Stage<M, W>,
    nodes: &mut Nodes,
    side: Side,
    call: Call<'_>,
) -> Result<Outcome, Memory>
    requires there { (w : World) × Shows w
        (scene_of M.told W.packets stage.old) nodes.old }
    requires may { MayBeAsked call }
    ensures moves { (terms : Terms) → AreOfNet terms → (asked : Asked) → Asks call.entry asked
        → (w : World) → Shows w (scene_of M.told W.packets stage.old) nodes.old
        → Moves terms w (side_of side) (step_of terms (node w (side_of side)) asked call.entry)
        (scene_of M.told W.packets stage.new) nodes.new result }
    ensures asked { WereAskedFor (side_of side) result
        (drives_of M.told stage.old.one stage.old.two)
        (drives_of M.told stage.new.one stage.new.two) }
{
    each_message_keeps_the_rules();
    what_waits_keeps_the_rules();
    what_is_written_is_read();
    what_is_read_may_be_written();
    a_refusal_may_be_answered();
    let came = ask_at(&mut stage.one, &mut stage.two, nodes, side, call)?;
    put_came(&mut stage.wire, number(other(side)), came)
}

/// Where what comes back goes: to the node's address, or where the node is polled, to no address.
fn via(polled: bool) -> Via
    ensures { result ≡ via_of polled }
{
    if polled {
        return Via::Polled;
    }
    Via::Direct
}

/// A sequence to the other node is asked for.
fn create<M: CrashDisk, W: Wire>(
    alloc: Global,
    stage: &mut Stage<M, W>,
    nodes: &mut Nodes,
    side: Side,
    expires: Lapse,
    polled: bool,
    offer: Option<Behaviour>,
) -> Result<Outcome, Memory>
    requires there { (w : World) × Shows w (scene_of M.told W.packets stage.old) nodes.old }
    requires lapse { IsLapseWritable expires }
    ensures { (terms : Terms) → AreOfNet terms → (w : World)
        → Shows w (scene_of M.told W.packets stage.old) nodes.old
        → Happens terms w (Event.Create side expires polled offer)
        (scene_of M.told W.packets stage.old)
        (scene_of M.told W.packets stage.new) nodes.new (told_of result) }
{
    each_image_is_left();
    let to = address(alloc, other(side))?;
    let wish = Wish {
        to,
        via: via(polled),
        expires,
        offer,
    };
    call(stage, nodes, side, Call::Create { wish })
}

/// The other node is asked for the oldest message that waits there.
fn poll<M: CrashDisk, W: Wire>(
    alloc: Global,
    stage: &mut Stage<M, W>,
    nodes: &mut Nodes,
    side: Side,
) -> Result<Outcome, Memory>
    requires there { (w : World) × Shows w (scene_of M.told W.packets stage.old) nodes.old }
    ensures { (terms : Terms) → AreOfNet terms → (w : World)
        → Shows w (scene_of M.told W.packets stage.old) nodes.old
        → Happens terms w (Event.Poll side)
        (scene_of M.told W.packets stage.old)
        (scene_of M.told W.packets stage.new) nodes.new (told_of result) }
{
    each_image_is_left();
    let to = address(alloc, other(side))?;
    call(stage, nodes, side, Call::Poll { to })
}

/// A packet comes to its node.
fn deliver<M: CrashDisk, W: Wire>(
    stage: &mut Stage<M, W>,
    nodes: &mut Nodes,
    packet: u64,
) -> Result<Outcome, Memory>
    requires there { (w : World) × Shows w
        (scene_of M.told W.packets stage.old) nodes.old }
    ensures { (terms : Terms) → AreOfNet terms → (w : World)
        → Shows w (scene_of M.told W.packets stage.old) nodes.old
        → Happens terms w (Event.Deliver packet) (scene_of M.told W.packets stage.old)
        (scene_of M.told W.packets stage.new) nodes.new (told_of result) }
{
    each_message_keeps_the_rules();
    what_waits_keeps_the_rules();
    what_is_written_is_read();
    what_is_read_may_be_written();
    a_refusal_may_be_answered();
    each_image_is_left();
    let Some(packet) = stage.wire.get(packet) else {
        return Ok(Outcome::NoPacket);
    };
    let side = side_with(packet.to);
    let call = Call::Receive {
        bytes: packet.bytes,
    };
    let came = ask_at(&mut stage.one, &mut stage.two, nodes, side, call)?;
    put_came(&mut stage.wire, number(other(side)), came)
}

/// Bytes come to a node that spell no message.
fn make_noise<M: CrashDisk, W: Wire>(
    alloc: Global,
    stage: &mut Stage<M, W>,
    nodes: &mut Nodes,
    side: Side,
    bytes: &[u8],
) -> Result<Outcome, Memory>
    requires there { (w : World) × Shows w
        (scene_of M.told W.packets stage.old) nodes.old }
    ensures { (terms : Terms) → AreOfNet terms → (w : World)
        → Shows w (scene_of M.told W.packets stage.old) nodes.old
        → Happens terms w (Event.Noise side bytes.now) (scene_of M.told W.packets stage.old)
        (scene_of M.told W.packets stage.new) nodes.new (told_of result) }
{
    each_image_is_left();
    match decode(alloc, bytes) {
        Ok(_) => Ok(Outcome::NoNoise),
        Err(DecodeError::Memory) => Err(Memory),
        Err(DecodeError::Refused(_)) => call(stage, nodes, side, Call::Receive { bytes }),
    }
}

/// A node announces another behaviour from now on.
fn grant(nodes: &mut Nodes, side: Side, behaviour: Behaviour)
    ensures { (w : World) (d : Drives) → StandFor w d nodes.old
        → StandFor (granted w (side_of side) behaviour) d nodes.new }
{
    match side {
        Side::One => nodes.one.set_grant(behaviour),
        Side::Two => nodes.two.set_grant(behaviour),
    }
}

/// A disk is to fail.
fn arm<M: CrashDisk>(one: &mut M, two: &mut M, nodes: &Nodes, side: Side, calls: u64)
    requires { 1 ≤ calls }
    ensures stand { (w : World) → StandFor w (drives_of M.told one.old two.old) nodes.now
        → StandFor (armed w (side_of side) calls) (drives_of M.told one.new two.new) nodes.now }
    ensures asked { WereAsked (side_of side) false (drives_of M.told one.old two.old)
        (drives_of M.told one.new two.new) }
{
    match side {
        Side::One => nodes.one.arm(one, calls),
        Side::Two => nodes.two.arm(two, calls),
    }
}

/// A node writes its journal anew.
fn compact<M: CrashDisk>(
    one: &mut M,
    two: &mut M,
    nodes: &mut Nodes,
    side: Side,
) -> Result<Outcome, Memory>
    requires { (w : World) × StandFor w (drives_of M.told one.old two.old) nodes.old }
    ensures compacts { (terms : Terms) → AreOwn terms → (w : World)
        → StandFor w (drives_of M.told one.old two.old) nodes.old
        → Compacts terms w (side_of side) (drives_of M.told one.new two.new) nodes.new result }
    ensures asked { WereAsked (side_of side) (ends_by_disk result) (drives_of M.told one.old two.old)
        (drives_of M.told one.new two.new) }
{
    match side {
        Side::One => nodes.one.compact(one),
        Side::Two => nodes.two.compact(two),
    }
}

/// A disk crashes, and its node is mounted again.
fn crash<M: CrashDisk>(
    one: &mut M,
    two: &mut M,
    nodes: &mut Nodes,
    side: Side,
    choice: u8,
) -> Result<(), Memory>
    requires there { (w : World) × StandFor w (drives_of M.told one.old two.old) nodes.old }
    requires choice { choice ≤ 3 }
    ensures { (w : World) → StandFor w (drives_of M.told one.old two.old) nodes.old
        → Crashes w side choice (drives_of M.told one.old two.old)
        (drives_of M.told one.new two.new) nodes.new result }
{
    each_image_is_left();
    match side {
        Side::One => nodes.one.crash(one, choice),
        Side::Two => nodes.two.crash(two, choice),
    }
}

/// Does what a line says, and answers how it came out, unless it says nothing.
pub(crate) fn happen<M: CrashDisk, W: Wire>(
    alloc: Global,
    stage: &mut Stage<M, W>,
    nodes: &mut Nodes,
    event: Event,
) -> Result<Option<Outcome>, Memory>
    requires within { IsWithin event }
    requires there { (w : World) × Shows w
        (scene_of M.told W.packets stage.old) nodes.old }
    ensures { (terms : Terms) → AreOfNet terms → (w : World)
        → Shows w (scene_of M.told W.packets stage.old) nodes.old
        → Happens terms w event (scene_of M.told W.packets stage.old)
        (scene_of M.told W.packets stage.new) nodes.new result }
{
    each_image_is_left();
    match event {
        Event::Nothing => Ok(None),
        Event::Create {
            node,
            expires,
            polled,
            offer,
        } => some(create(alloc, stage, nodes, node, expires, polled, offer)),
        Event::Grant { node, behaviour } => {
            grant(nodes, node, behaviour);
            Ok(Some(Outcome::Done))
        }
        Event::Send { node, seq, text } => some(call(
            stage,
            nodes,
            node,
            Call::Send { seq, payload: text },
        )),
        Event::Tick { node, now } => some(call(stage, nodes, node, Call::Tick { now })),
        Event::Deliver { packet } => some(deliver(stage, nodes, packet)),
        Event::Close { node, seq } => some(call(stage, nodes, node, Call::Close { seq })),
        Event::End { node, seq } => some(call(stage, nodes, node, Call::End { seq })),
        Event::Ask { node, seq } => some(call(stage, nodes, node, Call::AskAck { seq })),
        Event::Nack { node, seq } => some(call(stage, nodes, node, Call::NackMissing { seq })),
        Event::Consume { node, seq, upto } => {
            some(call(stage, nodes, node, Call::Consume { seq, upto }))
        }
        Event::Poll { node } => some(poll(alloc, stage, nodes, node)),
        Event::Compact { node } => {
            let came = compact(&mut stage.one, &mut stage.two, nodes, node);
            some(came)
        }
        Event::Arm { node, calls } => {
            arm(&mut stage.one, &mut stage.two, nodes, node, calls);
            Ok(Some(Outcome::Done))
        }
        Event::Crash { node, choice } => {
            crash(&mut stage.one, &mut stage.two, nodes, node, choice)?;
            Ok(Some(Outcome::Done))
        }
        Event::Noise { node, bytes } => {
            some(make_noise(alloc, stage, nodes, node, bytes.as_slice()))
        }
    }
}
