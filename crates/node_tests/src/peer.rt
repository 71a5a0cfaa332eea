//! A node on its disk, and the first calls of a test.
ghost use Rattle.std.specs.Prelude.{◌≤◌};
ghost use Rattle.rm_base.specs.Limits.{now_max};

use crate::device::Device;
use crate::texts::{FIRST_OF_1, FIRST_OF_2, message, request, response};
use node_laws::answers::Wish;
use node_store::MountError;
use record_batch::Via;
use rm_base::{Behaviour, Blob, Lapse, Uri};
use rm_message::FaultKind;
use rm_node::{Call, Made, Node, NodeError, Out, Outs, Reaction, Sent};
use rm_sides::destination::InPhase;
use rm_sides::source::OutPhase;
use std::alloc::Global;

pub(crate) const NODE_1: &[u8] = b"http://node1.example/";

pub(crate) const NODE_2: &[u8] = b"http://node2.example/";

/// A node on its disk.
#[derive(Drop)]
pub(crate) struct Peer {
    pub(crate) alloc: Global,
    pub(crate) disk: Device,
    pub(crate) node: Node,
}

impl Peer {
    /// Node 1.
    pub(crate) fn first(alloc: Global) -> Result<Peer, NodeError> {
        let mut disk = Device::new(alloc);
        let node = make(alloc, &mut disk)?;
        Ok(Peer { alloc, disk, node })
    }

    /// Node 2.
    pub(crate) fn second(alloc: Global) -> Result<Peer, NodeError> {
        let mut disk = Device::new(alloc);
        let node = make_second(alloc, &mut disk)?;
        Ok(Peer { alloc, disk, node })
    }

    /// Node 1 asks for a sequence to node 2, and is granted `urn:s`: it has three entries then.
    pub(crate) fn open(&mut self) -> Result<(), NodeError> {
        self.create()?;
        self.be_granted(FIRST_OF_1, b"urn:s")?;
        Ok(())
    }

    /// And it sends a payload there: it has four entries then.
    pub(crate) fn open_and_send(&mut self) -> Result<(), NodeError> {
        self.open()?;
        self.accept(1, b"<p/>")?;
        Ok(())
    }

    /// Node 2 grants a sequence to node 1 that lasts for a second: it has two entries then.
    pub(crate) fn be_asked(&mut self) -> Result<(), NodeError> {
        self.grant(b"urn:m", b"<r:Expires>PT1S</r:Expires>")?;
        Ok(())
    }

    /// And message 1 comes for it: it has three entries then.
    pub(crate) fn be_sent_one(&mut self) -> Result<(), NodeError> {
        self.be_asked()?;
        self.judge_number(b"1")?;
        Ok(())
    }

    /// A sequence to node 2 is asked for, for ever, whose answers come to the node's address.
    pub(crate) fn ask(&mut self) -> Result<Made, NodeError> {
        let wish = Wish {
            to: uri(self.alloc, NODE_2)?,
            via: Via::Direct,
            expires: Lapse { months: 0, ms: 0 },
            offer: None,
        };
        self.node.create(&mut self.disk, wish)
    }

    /// The same: its number.
    pub(crate) fn create(&mut self) -> Result<u32, NodeError> {
        let made = self.ask()?;
        Ok(made.seq)
    }

    /// The same, and one in the other direction is offered.
    pub(crate) fn offer(&mut self) -> Result<u32, NodeError> {
        let wish = Wish {
            to: uri(self.alloc, NODE_2)?,
            via: Via::Direct,
            expires: Lapse { months: 0, ms: 0 },
            offer: Some(Behaviour::FollowingFirstGap),
        };
        let made = self.node.create(&mut self.disk, wish)?;
        Ok(made.seq)
    }

    /// Bytes come at moment 0.
    pub(crate) fn take(&mut self, bytes: &[u8]) -> Result<Reaction, NodeError> {
        self.node.step(&mut self.disk, 0, Call::Receive { bytes })
    }

    /// Bytes come at a moment: the verdict.
    pub(crate) fn judge(&mut self, now: u64, bytes: &[u8]) -> Result<Option<FaultKind>, NodeError> {
        let reaction = self
            .node
            .step(&mut self.disk, now, Call::Receive { bytes })?;
        Ok(reaction.verdict)
    }

    /// The answer to the request with a message id comes, which grants an identifier: the verdict.
    pub(crate) fn be_granted(
        &mut self,
        id: &[u8],
        ident: &[u8],
    ) -> Result<Option<FaultKind>, NodeError> {
        let text = response(self.alloc, id, ident)?;
        self.judge(0, text.as_slice())
    }

    /// A request with a message id comes: the verdict.
    pub(crate) fn grant(&mut self, id: &[u8], more: &[u8]) -> Result<Option<FaultKind>, NodeError> {
        let text = request(self.alloc, id, more)?;
        self.judge(0, text.as_slice())
    }

    /// A message of the first incoming sequence of node 2 comes, with this number as it is written.
    pub(crate) fn take_number(&mut self, number: &[u8]) -> Result<Reaction, NodeError> {
        let text = message(self.alloc, FIRST_OF_2, number, b"")?;
        self.take(text.as_slice())
    }

    /// The same: the verdict.
    pub(crate) fn judge_number(&mut self, number: &[u8]) -> Result<Option<FaultKind>, NodeError> {
        let reaction = self.take_number(number)?;
        Ok(reaction.verdict)
    }

    /// A payload is sent.
    pub(crate) fn send(&mut self, seq: u32, text: &[u8]) -> Result<Sent, NodeError> {
        let payload = Blob::from_slice(self.alloc, text)?;
        self.node.send(&mut self.disk, seq, payload)
    }

    /// The same: its number.
    pub(crate) fn accept(&mut self, seq: u32, text: &[u8]) -> Result<u64, NodeError> {
        let sent = self.send(seq, text)?;
        Ok(sent.number)
    }

    /// A sequence is closed.
    pub(crate) fn close(&mut self, seq: u32) -> Result<Outs, NodeError> {
        self.node.close(&mut self.disk, seq, 0)
    }

    /// The same, without its packets.
    pub(crate) fn shut(&mut self, seq: u32) -> Result<(), NodeError> {
        self.close(seq)?;
        Ok(())
    }

    /// A sequence is ended.
    pub(crate) fn end(&mut self, seq: u32) -> Result<Outs, NodeError> {
        self.node.end(&mut self.disk, seq)
    }

    /// The same, without its packets.
    pub(crate) fn finish(&mut self, seq: u32) -> Result<(), NodeError> {
        self.end(seq)?;
        Ok(())
    }

    /// The items of an inbox up to one are consumed.
    pub(crate) fn consume(&mut self, seq: u32, upto: u64) -> Result<(), NodeError> {
        self.node.consume(&mut self.disk, seq, upto)
    }

    /// The journal is written anew.
    pub(crate) fn compact(&mut self) -> Result<(), NodeError> {
        self.node.compact(&mut self.disk)
    }

    /// A moment comes: how many packets are handed out.
    pub(crate) fn tick(&mut self, now: u64) -> Result<usize, NodeError>
        requires { now ≤ now_max }
    {
        let outs = self.node.tick(&mut self.disk, now)?;
        Ok(outs.len())
    }

    /// The node is found on its disk again.
    pub(crate) fn mount(&mut self) -> Result<(), MountError> {
        self.node = find(self.alloc, &mut self.disk)?;
        Ok(())
    }

    /// The same, at a node that is expected to be there.
    pub(crate) fn find_again(&mut self) -> Result<(), NodeError> {
        match self.mount() {
            Ok(()) => Ok(()),
            Err(_) => Err(NodeError::Disk),
        }
    }

    pub(crate) fn entries(&self) -> u64 {
        self.node.entries()
    }

    /// How many sequences there are.
    pub(crate) fn sequences(&self) -> u32 {
        self.node.tables().len()
    }

    /// How many messages wait for an acknowledgement.
    pub(crate) fn unacked(&self) -> u64 {
        self.node.tables().unacked()
    }

    /// In which phase an outgoing sequence is, where there is one with the number.
    pub(crate) fn out_phase(&self, seq: u32) -> Option<OutPhase> {
        let outgoing = self.node.tables().outgoing(seq)?;
        Some(outgoing.phase())
    }

    /// How many items the inbox of an incoming sequence has, where there is one with the number.
    pub(crate) fn inbox_len(&self, seq: u32) -> Option<u64> {
        let incoming = self.node.tables().incoming(seq)?;
        Some(incoming.inbox_len())
    }

    /// How many items of its inbox were consumed of an incoming sequence, where there is one with the number.
    pub(crate) fn cursor(&self, seq: u32) -> Option<u64> {
        let incoming = self.node.tables().incoming(seq)?;
        Some(incoming.consumed())
    }

    /// In which phase an incoming sequence is, where there is one with the number.
    pub(crate) fn in_phase(&self, seq: u32) -> Option<InPhase> {
        let incoming = self.node.tables().incoming(seq)?;
        Some(incoming.phase(0))
    }
}

/// What comes of doing something with node 1.
pub(crate) fn at_first<T, F>(alloc: Global, act: F) -> Result<T, NodeError>
where
    F: FnOnce(&mut Peer) -> Result<T, NodeError> + Drop,
    requires { F.IsAlwaysCallable act }
{
    let mut peer = Peer::first(alloc)?;
    act(&mut peer)
}

/// What comes of doing something with node 2.
pub(crate) fn at_second<T, F>(alloc: Global, act: F) -> Result<T, NodeError>
where
    F: FnOnce(&mut Peer) -> Result<T, NodeError> + Drop,
    requires { F.IsAlwaysCallable act }
{
    let mut peer = Peer::second(alloc)?;
    act(&mut peer)
}

// An address.
fn uri(alloc: Global, bytes: &[u8]) -> Result<Uri, NodeError> {
    match Uri::from_slice(alloc, bytes) {
        Ok(address) => Ok(address),
        Err(_) => Err(NodeError::Memory),
    }
}

/// Node 1 is made on a disk.
pub(crate) fn make(alloc: Global, disk: &mut Device) -> Result<Node, NodeError> {
    Node::make(alloc, disk, 1, uri(alloc, NODE_1)?)
}

// Node 2 is made on a disk.
fn make_second(alloc: Global, disk: &mut Device) -> Result<Node, NodeError> {
    Node::make(alloc, disk, 2, uri(alloc, NODE_2)?)
}

/// A node is found on a disk.
pub(crate) fn find(alloc: Global, disk: &mut Device) -> Result<Node, MountError> {
    Node::mount(alloc, disk)
}

/// Whether these are one packet, which goes to an address and is this text.
pub(crate) fn is_packet(outs: &[Out], address: &[u8], bytes: &[u8]) -> bool {
    match outs {
        [out] => out.address.as_slice() == address && out.bytes.as_slice() == bytes,
        _ => false,
    }
}

/// Whether a reaction hands out such a packet, and replies nothing.
pub(crate) fn is_handed(reaction: &Reaction, address: &[u8], bytes: &[u8]) -> bool {
    reaction.reply.is_none() && is_packet(reaction.outs.as_slice(), address, bytes)
}
