//! What one line of a relay's script does.
ghost use Rattle.std.specs.Prelude.{◌≡◌, ◌≤◌, IfOk, None, false};
ghost use Rattle.rm_base.specs.Numbered.{numbered};
ghost use Rattle.rm_base.specs.Text.{IsText};
ghost use Rattle.rm_replay.specs.Actor.Outcomes.{is_disk};
ghost use Rattle.node_laws.specs.OwnTerms.{AreOwn};
ghost use Rattle.rm_node.specs.Asked.{Asked, Asks, MayBeAsked};
ghost use Rattle.rm_protocol.specs.Terms.{Terms};
ghost use Rattle.rm_replay.specs.Net.{AreOfNet};
ghost use Rattle.rm_relay.specs.Happening.{CompactsAt, CrashesAt, Happens, Moves, StepsAt, WereAsked, WereAskedBy};
ghost use Rattle.rm_relay.specs.Happening.{WereAskedFor, armed as armed_world, step_of, told_of};
ghost use Rattle.rm_relay.specs.Shows.{Shows, StandFor, drives_of, scene_of};
ghost use Rattle.rm_relay.specs.Within.{IsWithin};
ghost use Rattle.rm_relay.specs.Word.World.{World, address_of, asker as asker_of, next, node as node_at};

use crate::event::Event;
use crate::onward::{find_acknowledged, find_ends, find_next};
use crate::report::Ending;
use crate::stage::{Nodes3, Stage3};
use crate::wire::{Senders, address_bytes, put_came, station_with};
use crate::word::Station;
use node_laws::answers::Wish;
use node_laws::laws::{each_message_keeps_the_rules, what_waits_keeps_the_rules};
use record_batch::Via;
use rm_base::laws::texts_are_tested;
use rm_base::wire::Wire;
use rm_base::{Lapse, Memory, TextError, Uri};
use rm_disk::CrashDisk;
use rm_node::Call;
use rm_replay::actor::Came;
use rm_replay::actor::laws::each_image_is_left;
use rm_script::Side;
use rm_script::report::Outcome;
use rm_wire::laws::what_is_written_is_read;
use rm_wire::read_laws::laws::{a_refusal_may_be_answered, what_is_read_may_be_written};
use std::alloc::Global;

/// The address of a node.
pub(crate) fn address(alloc: Global, station: Station) -> Result<Uri, Memory>
    ensures address { IfOk result (λ uri. uri ≡ address_of station) }
    ensures is_text { IfOk result (λ uri. IsText 2048 uri) }
{
    texts_are_tested();
    match Uri::from_slice(alloc, address_bytes(station)) {
        Ok(address) => Ok(address),
        Err(TextError::Memory) => Err(Memory),
        Err(TextError::Empty) => unreachable!(),
        Err(TextError::TooLong { .. }) => unreachable!(),
        Err(TextError::NotText) => unreachable!(),
    }
}

/// The ending of a line that has one.
fn some(ending: Result<Ending, Memory>) -> Result<Option<Ending>, Memory>
    ensures { result ≡ told_of ending }
{
    match ending {
        Ok(ending) => Ok(Some(ending)),
        Err(Memory) => Err(Memory),
    }
}

/// Asks a node.
fn ask_at<M: CrashDisk>(
    one: &mut M,
    two: &mut M,
    three: &mut M,
    nodes: &mut Nodes3,
    station: Station,
    call: Call<'_>,
) -> Result<Came, Memory>
    requires there { (w : World) × StandFor w (drives_of M.told one.old two.old three.old) nodes.old }
    requires may { MayBeAsked call }
    ensures steps { (terms : Terms) → AreOwn terms → (asked : Asked) → Asks call.entry asked
        → (w : World) → StandFor w (drives_of M.told one.old two.old three.old) nodes.old
        → StepsAt w station (step_of terms (node_at w station) asked call.entry)
        (drives_of M.told one.new two.new three.new) nodes.new result }
    ensures asked { WereAsked station (is_disk result) (drives_of M.told one.old two.old three.old)
        (drives_of M.told one.new two.new three.new) }
{
    match station {
        Station::One => nodes.one.ask(one, call),
        Station::Two => nodes.two.ask(two, call),
        Station::Three => nodes.three.ask(three, call),
    }
}

/// A node is asked for something, and what leaves it goes on the wire.
fn call<M: CrashDisk, W: Wire>(
    stage: &mut Stage3<M, W>,
    nodes: &mut Nodes3,
    senders: &mut Senders,
    station: Station,
    call: Call<'_>,
) -> Result<Ending, Memory>
    requires there { (w : World) × Shows w (scene_of M.told W.packets stage.old) nodes.old senders.old.items }
    requires may { MayBeAsked call }
    ensures moves { (terms : Terms) → AreOfNet terms → (asked : Asked) → Asks call.entry asked
        → (w : World) → Shows w (scene_of M.told W.packets stage.old) nodes.old senders.old.items
        → Moves terms w station None (step_of terms (node_at w station) asked call.entry)
        (scene_of M.told W.packets stage.new) nodes.new senders.new.items result }
    ensures asked { WereAskedFor station result (scene_of M.told W.packets stage.old).drives
        (scene_of M.told W.packets stage.new).drives }
{
    each_message_keeps_the_rules();
    what_waits_keeps_the_rules();
    what_is_written_is_read();
    what_is_read_may_be_written();
    a_refusal_may_be_answered();
    let came = ask_at(
        &mut stage.one,
        &mut stage.two,
        &mut stage.three,
        nodes,
        station,
        call,
    )?;
    let outcome = put_came(&mut stage.wire, senders, station, None, came)?;
    Ok(Ending::Came(outcome))
}

/// The node that asks for a sequence.
fn asker(node: Side) -> Station
    ensures { result ≡ asker_of node }
{
    match node {
        Side::One => Station::One,
        Side::Two => Station::Two,
    }
}

/// The node that it asks.
fn next_station(node: Side) -> Station
    ensures { result ≡ next node }
{
    match node {
        Side::One => Station::Two,
        Side::Two => Station::Three,
    }
}

/// A node asks the next one for a sequence.
fn create<M: CrashDisk, W: Wire>(
    alloc: Global,
    stage: &mut Stage3<M, W>,
    nodes: &mut Nodes3,
    senders: &mut Senders,
    node: Side,
) -> Result<Ending, Memory>
    requires there { (w : World) × Shows w (scene_of M.told W.packets stage.old) nodes.old senders.old.items }
    ensures { (terms : Terms) → AreOfNet terms → (w : World)
        → Shows w (scene_of M.told W.packets stage.old) nodes.old senders.old.items
        → Happens terms w (Event.Create node) (scene_of M.told W.packets stage.old)
        (scene_of M.told W.packets stage.new) nodes.new senders.new.items (told_of result) }
{
    each_image_is_left();
    let to = address(alloc, next_station(node))?;
    let wish = Wish {
        to,
        via: Via::Direct,
        expires: Lapse { months: 0, ms: 0 },
        offer: None,
    };
    call(stage, nodes, senders, asker(node), Call::Create { wish })
}

/// Who sent the packet with a number, counted from 1.
fn sender(senders: &[Station], packet: u64) -> Option<Station>
    ensures { result ≡ numbered senders.now packet }
{
    let before = packet.checked_sub(1)?;
    senders.get(before as usize).copied()
}

/// A packet comes to its node.
fn deliver<M: CrashDisk, W: Wire>(
    stage: &mut Stage3<M, W>,
    nodes: &mut Nodes3,
    senders: &mut Senders,
    packet: u64,
) -> Result<Ending, Memory>
    requires there { (w : World) × Shows w (scene_of M.told W.packets stage.old) nodes.old senders.old.items }
    ensures { (terms : Terms) → AreOfNet terms → (w : World)
        → Shows w (scene_of M.told W.packets stage.old) nodes.old senders.old.items
        → Happens terms w (Event.Deliver packet) (scene_of M.told W.packets stage.old)
        (scene_of M.told W.packets stage.new) nodes.new senders.new.items (told_of result) }
{
    each_message_keeps_the_rules();
    what_waits_keeps_the_rules();
    what_is_written_is_read();
    what_is_read_may_be_written();
    a_refusal_may_be_answered();
    each_image_is_left();
    let Some(found) = stage.wire.get(packet) else {
        return Ok(Ending::Came(Outcome::NoPacket));
    };
    let Some(back) = sender(senders.as_slice(), packet) else {
        unreachable!()
    };
    let station = station_with(found.to);
    let came = ask_at(
        &mut stage.one,
        &mut stage.two,
        &mut stage.three,
        nodes,
        station,
        Call::Receive { bytes: found.bytes },
    )?;
    let outcome = put_came(&mut stage.wire, senders, station, Some(back), came)?;
    Ok(Ending::Came(outcome))
}

/// Node 2 forwards the next item, where there is one.
fn forward<M: CrashDisk, W: Wire>(
    stage: &mut Stage3<M, W>,
    nodes: &mut Nodes3,
    senders: &mut Senders,
) -> Result<Ending, Memory>
    requires there { (w : World) × Shows w (scene_of M.told W.packets stage.old) nodes.old senders.old.items }
    ensures { (terms : Terms) → AreOfNet terms → (w : World)
        → Shows w (scene_of M.told W.packets stage.old) nodes.old senders.old.items
        → Happens terms w Event.Forward (scene_of M.told W.packets stage.old)
        (scene_of M.told W.packets stage.new) nodes.new senders.new.items (told_of result) }
{
    each_image_is_left();
    if nodes.two.is_down() {
        return Ok(Ending::Came(Outcome::Down));
    }
    let Some(ends) = find_ends(nodes.two.tables()) else {
        return Ok(Ending::Came(Outcome::NoSequence));
    };
    let Some(payload) = find_next(nodes.two.tables(), ends) else {
        return Ok(Ending::Idle);
    };
    let bytes = payload.bytes.copy()?;
    let send = Call::Send {
        seq: ends.out,
        payload: bytes,
    };
    call(stage, nodes, senders, Station::Two, send)
}

/// Node 2 consumes what node 3 acknowledged.
fn trim<M: CrashDisk, W: Wire>(
    stage: &mut Stage3<M, W>,
    nodes: &mut Nodes3,
    senders: &mut Senders,
) -> Result<Ending, Memory>
    requires there { (w : World) × Shows w (scene_of M.told W.packets stage.old) nodes.old senders.old.items }
    ensures { (terms : Terms) → AreOfNet terms → (w : World)
        → Shows w (scene_of M.told W.packets stage.old) nodes.old senders.old.items
        → Happens terms w Event.Trim (scene_of M.told W.packets stage.old)
        (scene_of M.told W.packets stage.new) nodes.new senders.new.items (told_of result) }
{
    each_image_is_left();
    if nodes.two.is_down() {
        return Ok(Ending::Came(Outcome::Down));
    }
    let Some(ends) = find_ends(nodes.two.tables()) else {
        return Ok(Ending::Came(Outcome::NoSequence));
    };
    let consume = Call::Consume {
        seq: ends.into,
        upto: find_acknowledged(nodes.two.tables(), ends),
    };
    call(stage, nodes, senders, Station::Two, consume)
}

/// A disk is to fail.
fn arm<M: CrashDisk>(
    one: &mut M,
    two: &mut M,
    three: &mut M,
    nodes: &Nodes3,
    station: Station,
    calls: u64,
)
    requires { 1 ≤ calls }
    ensures stand { (w : World) → StandFor w (drives_of M.told one.old two.old three.old) nodes.now
        → StandFor (armed_world w station calls) (drives_of M.told one.new two.new three.new) nodes.now }
    ensures asked { WereAsked station false (drives_of M.told one.old two.old three.old)
        (drives_of M.told one.new two.new three.new) }
{
    match station {
        Station::One => nodes.one.arm(one, calls),
        Station::Two => nodes.two.arm(two, calls),
        Station::Three => nodes.three.arm(three, calls),
    }
}

/// A node writes its journal anew.
fn compact<M: CrashDisk>(
    one: &mut M,
    two: &mut M,
    three: &mut M,
    nodes: &mut Nodes3,
    station: Station,
) -> Result<Outcome, Memory>
    requires { (w : World) × StandFor w (drives_of M.told one.old two.old three.old) nodes.old }
    ensures compacts { (terms : Terms) → AreOwn terms → (w : World)
        → StandFor w (drives_of M.told one.old two.old three.old) nodes.old
        → CompactsAt terms w station (drives_of M.told one.new two.new three.new) nodes.new result }
    ensures asked { WereAskedBy station result (drives_of M.told one.old two.old three.old)
        (drives_of M.told one.new two.new three.new) }
{
    match station {
        Station::One => nodes.one.compact(one),
        Station::Two => nodes.two.compact(two),
        Station::Three => nodes.three.compact(three),
    }
}

/// A disk crashes, and its node is mounted again.
fn crash<M: CrashDisk>(
    one: &mut M,
    two: &mut M,
    three: &mut M,
    nodes: &mut Nodes3,
    station: Station,
    choice: u8,
) -> Result<(), Memory>
    requires there { (w : World) × StandFor w (drives_of M.told one.old two.old three.old) nodes.old }
    requires choice { choice ≤ 3 }
    ensures { (w : World) → StandFor w (drives_of M.told one.old two.old three.old) nodes.old
        → CrashesAt w station choice (drives_of M.told one.old two.old three.old)
        (drives_of M.told one.new two.new three.new) nodes.new result }
{
    each_image_is_left();
    match station {
        Station::One => nodes.one.crash(one, choice),
        Station::Two => nodes.two.crash(two, choice),
        Station::Three => nodes.three.crash(three, choice),
    }
}

/// Does what a line says, and answers how it came out, unless it says nothing.
pub(crate) fn happen<M: CrashDisk, W: Wire>(
    alloc: Global,
    stage: &mut Stage3<M, W>,
    nodes: &mut Nodes3,
    senders: &mut Senders,
    event: Event,
) -> Result<Option<Ending>, Memory>
    requires within { IsWithin event }
    requires there { (w : World) × Shows w (scene_of M.told W.packets stage.old) nodes.old senders.old.items }
    ensures { (terms : Terms) → AreOfNet terms → (w : World)
        → Shows w (scene_of M.told W.packets stage.old) nodes.old senders.old.items
        → Happens terms w event (scene_of M.told W.packets stage.old)
        (scene_of M.told W.packets stage.new) nodes.new senders.new.items result }
{
    each_image_is_left();
    match event {
        Event::Nothing => Ok(None),
        Event::Create { node } => some(create(alloc, stage, nodes, senders, node)),
        Event::Send { seq, text } => {
            let send = Call::Send { seq, payload: text };
            some(call(stage, nodes, senders, Station::One, send))
        }
        Event::Forward => some(forward(stage, nodes, senders)),
        Event::Trim => some(trim(stage, nodes, senders)),
        Event::Tick { node, now } => { some(call(stage, nodes, senders, node, Call::Tick { now })) }
        Event::Deliver { packet } => some(deliver(stage, nodes, senders, packet)),
        Event::Close { node, seq } => {
            some(call(stage, nodes, senders, node, Call::Close { seq }))
        }
        Event::End { node, seq } => some(call(stage, nodes, senders, node, Call::End { seq })),
        Event::Compact { node } => {
            let outcome = compact(
                &mut stage.one,
                &mut stage.two,
                &mut stage.three,
                nodes,
                node,
            )?;
            Ok(Some(Ending::Came(outcome)))
        }
        Event::Arm { node, calls } => {
            arm(
                &mut stage.one,
                &mut stage.two,
                &mut stage.three,
                nodes,
                node,
                calls,
            );
            Ok(Some(Ending::Came(Outcome::Done)))
        }
        Event::Crash { node, choice } => {
            crash(
                &mut stage.one,
                &mut stage.two,
                &mut stage.three,
                nodes,
                node,
                choice,
            )?;
            Ok(Some(Ending::Came(Outcome::Done)))
        }
    }
}
