//! What is there again where the disk fails at a call of a node and the machine stops.
use crate::device::Device;
use crate::peer::{Peer, find, make};
use crate::texts::{FIRST_OF_1, acknowledgement};
use node_store::MountError;
use rm_node::NodeError;
use rm_sides::destination::InPhase;
use rm_sides::source::OutPhase;
use std::alloc::Global;

// A call that adds one entry.
#[derive(Clone, Copy)]
enum Call {
    Create,
    Send,
    Close,
    End,
    Learn,
    Grant,
    Receive,
    CloseIncoming,
    Consume,
    Tick,
}

const CALLS: [Call; 10] = [
    Call::Create,
    Call::Send,
    Call::Close,
    Call::End,
    Call::Learn,
    Call::Grant,
    Call::Receive,
    Call::CloseIncoming,
    Call::Consume,
    Call::Tick,
];

// The node that makes the call.
fn node_of(alloc: Global, call: Call) -> Result<Peer, NodeError> {
    match call {
        Call::Grant | Call::Receive | Call::CloseIncoming => Peer::second(alloc),
        Call::Consume | Call::Tick => Peer::second(alloc),
        Call::Create | Call::Send | Call::Close | Call::End | Call::Learn => Peer::first(alloc),
    }
}

// What makes the call one that it may make.
fn prepare(peer: &mut Peer, call: Call) -> Result<(), NodeError> {
    match call {
        Call::Create | Call::Send | Call::Close | Call::End => peer.open(),
        Call::Learn => peer.open_and_send(),
        Call::Grant | Call::Receive | Call::CloseIncoming | Call::Tick => peer.be_asked(),
        Call::Consume => peer.be_sent_one(),
    }
}

// An acknowledgement of message 1 comes.
fn learn(peer: &mut Peer) -> Result<(), NodeError> {
    let block = b"<r:SequenceAcknowledgement><r:Identifier>urn:s</r:Identifier>\
        <r:AcknowledgementRange Lower=\"1\" Upper=\"1\"/></r:SequenceAcknowledgement>";
    let text = acknowledgement(peer.alloc, block)?;
    peer.judge(0, text.as_slice())?;
    Ok(())
}

// How the call comes out.
fn act(peer: &mut Peer, call: Call) -> Option<NodeError> {
    match call {
        Call::Create => peer.create().err(),
        Call::Send => peer.accept(1, b"<p/>").err(),
        Call::Close | Call::CloseIncoming => peer.shut(1).err(),
        Call::End => peer.finish(1).err(),
        Call::Learn => learn(peer).err(),
        Call::Grant => peer.grant(b"urn:another", b"").err(),
        Call::Receive => peer.judge_number(b"1").err(),
        Call::Consume => peer.consume(1, 1).err(),
        Call::Tick => peer.tick(1000).err(),
    }
}

// The device call of this number fails as the node makes the call, or none at 5. How the call came out, and whether the
// node was down after it.
fn broken(peer: &mut Peer, call: Call, stop: u64) -> (Option<NodeError>, bool) {
    peer.disk.arm(stop);
    let error = act(peer, call);
    (error, peer.node.is_down())
}

// A crash comes, and the node is found on its disk again.
fn crash(peer: &mut Peer, choice: u8) -> Result<(), NodeError> {
    peer.disk.crash(choice)?;
    peer.find_again()
}

// How the call came out, whether the node was down after it, and how many entries were added, as the node is found
// again after a crash.
type Stopped = (Option<NodeError>, bool, u64);

fn stop_at(peer: &mut Peer, call: Call, stop: u64, choice: u8) -> Result<Stopped, NodeError> {
    prepare(peer, call)?;
    let entries = peer.entries();
    let (error, was_down) = broken(peer, call, stop);
    crash(peer, choice)?;
    Ok((error, was_down, peer.entries().saturating_sub(entries)))
}

// That of a node of its own.
fn stopped(alloc: Global, call: Call, stop: u64, choice: u8) -> Result<Stopped, NodeError> {
    let mut peer = node_of(alloc, call)?;
    stop_at(&mut peer, call, stop, choice)
}

// The choice of a crash, the number of the device call that fails, and how many entries are added. A crash keeps what
// was synced, or what a read gave, or puts ones or zeros where anything may stand. The entry is written behind its
// gate, synced, the gate opened, and that synced.
const ADDED: [(u8, u64, u64); 16] = [
    (0, 1, 0),
    (0, 2, 0),
    (0, 3, 0),
    (0, 4, 0),
    (1, 1, 0),
    (1, 2, 0),
    (1, 3, 0),
    (1, 4, 1),
    (2, 1, 0),
    (2, 2, 0),
    (2, 3, 1),
    (2, 4, 1),
    (3, 1, 0),
    (3, 2, 0),
    (3, 3, 0),
    (3, 4, 0),
];

// How many of these come out so for a call, up to the first that does not.
fn added_met(alloc: Global, call: Call) -> Result<usize, NodeError> {
    for (i, (choice, stop, added)) in ADDED.iter().enumerate() {
        let came = stopped(alloc, call, *stop, *choice)?;
        if came != (Some(NodeError::Disk), true, *added) {
            return Ok(i);
        }
    }
    Ok(ADDED.len())
}

#[test]
fn a_call_whose_disk_fails(rt: HostRuntime) {
    for (i, call) in CALLS.iter().enumerate() {
        let met = added_met(rt.alloc(), *call);
        assert!(rt; met == Ok(16), "call {i}: {met:?}");
    }
}

// The first choice of a crash that doesn't keep the entry of a call at which no device call fails, or 4.
fn first_lost(alloc: Global, call: Call) -> Result<u8, NodeError> {
    for choice in 0..4 {
        if stopped(alloc, call, 5, choice)? != (None, false, 1) {
            return Ok(choice);
        }
    }
    Ok(4)
}

// Where no device call fails, the entry is there whatever the crash keeps.
#[test]
fn a_call_that_went_well(rt: HostRuntime) {
    for (i, call) in CALLS.iter().enumerate() {
        let lost = first_lost(rt.alloc(), *call);
        assert!(rt; lost == Ok(4), "call {i}: {lost:?}");
    }
}

// In which phases a sequence that was asked for and one that was offered with it are.
type Phases = (Option<OutPhase>, Option<InPhase>);

// The answer to a request with an offer comes, which does not take it and makes two records, and the device call of
// this number fails: in which phases both are after a crash, as the node is found again.
fn stop_in_two(peer: &mut Peer, stop: u64, choice: u8) -> Result<Phases, NodeError> {
    peer.offer()?;
    peer.disk.arm(stop);
    let _answered = peer.be_granted(FIRST_OF_1, b"urn:s");
    crash(peer, choice)?;
    Ok((peer.out_phase(1), peer.in_phase(2)))
}

// That of a node of its own.
fn stopped_in_two(alloc: Global, stop: u64, choice: u8) -> Result<Phases, NodeError> {
    let mut peer = Peer::first(alloc)?;
    stop_in_two(&mut peer, stop, choice)
}

// In which phases both are where so many entries are added.
fn phases(added: u64) -> Phases {
    if added == 0 {
        (Some(OutPhase::Creating), Some(InPhase::Open))
    } else {
        (Some(OutPhase::Open), Some(InPhase::Ended))
    }
}

// How many of the rows come out so, up to the first that does not.
fn phases_met(alloc: Global) -> Result<usize, NodeError> {
    for (i, (choice, stop, added)) in ADDED.iter().enumerate() {
        if stopped_in_two(alloc, *stop, *choice)? != phases(*added) {
            return Ok(i);
        }
    }
    Ok(ADDED.len())
}

// Both records are there or none.
#[test]
fn two_records_in_one_entry(rt: HostRuntime) {
    assert!(rt; phases_met(rt.alloc()) == Ok(16));
}

// How a call comes out whose last device call fails, how it comes out again, and whether the entries stayed.
type Twice = (Option<NodeError>, Option<NodeError>, bool);

fn try_twice(peer: &mut Peer, call: Call) -> Result<Twice, NodeError> {
    prepare(peer, call)?;
    let entries = peer.entries();
    let (first, _was_down) = broken(peer, call, 4);
    let second = act(peer, call);
    Ok((first, second, peer.entries() == entries))
}

// That of a node of its own.
fn tried_twice(alloc: Global, call: Call) -> Result<Twice, NodeError> {
    let mut peer = node_of(alloc, call)?;
    try_twice(&mut peer, call)
}

// A call at a node that is down.
#[test]
fn a_node_that_is_down(rt: HostRuntime) {
    let known = (Some(NodeError::Disk), Some(NodeError::Down), true);
    for (i, call) in CALLS.iter().enumerate() {
        assert!(rt; tried_twice(rt.alloc(), *call) == Ok(known), "call {i}");
    }
}

// The device call of this number fails as a node is found again: how that comes out, and how many entries there are as
// it is found after a crash.
type Found = (Option<MountError>, u64);

fn find_twice(peer: &mut Peer, stop: u64, choice: u8) -> Result<Found, NodeError> {
    peer.open()?;
    peer.disk.arm(stop);
    let error = peer.mount().err();
    crash(peer, choice)?;
    Ok((error, peer.entries()))
}

// That of a node of its own.
fn found_twice(alloc: Global, stop: u64, choice: u8) -> Result<Found, NodeError> {
    let mut peer = Peer::first(alloc)?;
    find_twice(&mut peer, stop, choice)
}

// The first device call at whose failure finding a node comes out otherwise, or 4.
fn first_otherwise(alloc: Global, choice: u8) -> Result<u64, NodeError> {
    for stop in 1..4 {
        if found_twice(alloc, stop, choice)? != (Some(MountError::Disk), 3) {
            return Ok(stop);
        }
    }
    Ok(4)
}

// Mounting syncs, asks for the length and reads.
#[test]
fn a_mount_whose_disk_fails(rt: HostRuntime) {
    for choice in 0..4 {
        let stop = first_otherwise(rt.alloc(), choice);
        assert!(rt; stop == Ok(4), "choice {choice}: {stop:?}");
    }
}

// How making a node comes out.
fn made(alloc: Global, disk: &mut Device) -> Option<NodeError> {
    make(alloc, disk).err()
}

// How finding a node comes out.
fn found(alloc: Global, disk: &mut Device) -> Option<MountError> {
    find(alloc, disk).err()
}

// The device call of this number fails as a node is made: how that comes out, and how finding it after a crash does.
fn stopped_in_making(
    alloc: Global,
    stop: u64,
) -> Result<(Option<NodeError>, Option<MountError>), NodeError> {
    let mut disk = Device::new(alloc);
    disk.arm(stop);
    let first = made(alloc, &mut disk);
    disk.crash(0)?;
    Ok((first, found(alloc, &mut disk)))
}

// A node is made by three device calls for the empty journal, and four for its first entry.
#[test]
fn a_node_that_is_not_made(rt: HostRuntime) {
    let known = (Some(NodeError::Disk), Some(MountError::NotAJournal));
    for stop in 1..8 {
        assert!(rt;
            stopped_in_making(rt.alloc(), stop) == Ok(known),
            "stop {stop}"
        );
    }
}

// How finding node 2 comes out where the behaviour that its grant announces is this byte. The grant is the last entry:
// behind the byte stand the moment at which the sequence ends, for how long it was asked for, that nothing was offered,
// and the gate of the journal.
fn announced(alloc: Global, byte: u8) -> Result<Option<MountError>, NodeError> {
    let mut peer = Peer::second(alloc)?;
    peer.be_asked()?;
    peer.disk.turn(9 + 16 + 1 + 1 + 1, byte)?;
    Ok(peer.mount().err())
}

// 0 to 2 are the three, and 3 is none.
#[test]
fn a_journal_announces_one_of_three(rt: HostRuntime) {
    let no_node = Some(MountError::NotAJournal);
    for (byte, known) in [(0, None), (1, None), (2, None), (3, no_node)] {
        assert!(rt; announced(rt.alloc(), byte) == Ok(known), "byte {byte}");
    }
}
