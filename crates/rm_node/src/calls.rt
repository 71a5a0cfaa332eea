//! The calls of a node by their names.
ghost use Rattle.std.specs.Prelude.{◌≡◌, ◌⊎◌, ◌+◌, ◌≤◌, true, length, IfErr, IfOk};
ghost use Rattle.rm_base.specs.Limits.{now_max};
ghost use Rattle.rm_message.specs.Elements.Writable.{IsLapseWritable};
ghost use Rattle.record_batch.specs.Sequences.Fits.{is_outgoing_side};
ghost use Rattle.record_batch.specs.Sequences.Makers.{maker, makers};
ghost use Rattle.record_batch.specs.Sequences.Sources.{accepted_count};
ghost use Rattle.rm_node.specs.Called.{HasBatches, Steps};
ghost use Rattle.rm_node.specs.declared.call.Call.TheVariants.{
  Create as Creates,
  Send as Sends,
  Close as Closes,
  End as Finishes,
  AskAck as AsksAck,
  NackMissing as NacksMissing,
  Consume as Consumes,
  Tick as Ticks,
  Poll as Polls,
  Receive as Receives,
};
ghost use Rattle.rm_node.specs.Ends.{done_end, made_end, outs_end, reaction_end, sent_end};
ghost use Rattle.rm_node.specs.declared.error.NodeError.TheVariants.{Memory as WantsMemory, Disk as DiskFails};
ghost use Rattle.rm_node.specs.declared.error.NodeError.TheVariants.{Down as IsDown};

use crate::call::Call;
use crate::error::NodeError;
use crate::node::Node;
use crate::packets::Outs;
use crate::step::Reaction;
use node_laws::answers::Wish;
use node_laws::laws::there_are_own_terms;
use node_tables::Tables;
use node_tables::laws::an_outgoing_sequence_is_as_recorded;
use rm_base::{Blob, Uri};
use rm_disk::Disk;

/// A sequence that was asked for: its number among those of the node, counted from 1, and the request.
#[derive(Debug, Drop)]
pub struct Made {
    pub seq: u32,
    pub outs: Outs,
}

/// A payload that was accepted: its number in the sequence, and the message.
#[derive(Debug, Drop)]
pub struct Sent {
    pub number: u64,
    pub outs: Outs,
}

impl Node {
    /// Asks for a sequence.
    pub fn create<D: Disk>(&mut self, disk: &mut D, wish: Wish) -> Result<Made, NodeError>
        requires has { HasBatches D.tells (D.told disk.old) self.old }
        requires lapse { IsLapseWritable wish.expires }
        ensures steps { Steps D.tells (D.told disk.old) (D.told disk.new) self.old self.new 0 (Creates wish)
            (made_end result) }
        ensures seq { IfOk result (λ made. made.seq ≡ length (makers self.old.stored.records) + 1) }
    {
        there_are_own_terms();
        let _to = wish.to.as_slice();
        let seq = self.tables().len().saturating_add(1);
        let reaction = self.step(disk, 0, Call::Create { wish })?;
        Ok(Made {
            seq,
            outs: reaction.outs,
        })
    }

    /// Accepts a payload for an outgoing sequence.
    pub fn send<D: Disk>(
        &mut self,
        disk: &mut D,
        seq: u32,
        payload: Blob,
    ) -> Result<Sent, NodeError>
        requires has { HasBatches D.tells (D.told disk.old) self.old }
        ensures steps { Steps D.tells (D.told disk.old) (D.told disk.new) self.old self.new 0 (Sends seq payload)
            (sent_end result) }
        ensures number { IfOk result (λ sent. sent.number ≡ accepted_count self.old.stored.records seq + 1) }
    {
        there_are_own_terms();
        let number = next_number(self.tables(), seq);
        let reaction = self.step(disk, 0, Call::Send { seq, payload })?;
        Ok(Sent {
            number,
            outs: reaction.outs,
        })
    }

    /// Closes a sequence.
    pub fn close<D: Disk>(&mut self, disk: &mut D, seq: u32, now: u64) -> Result<Outs, NodeError>
        requires { HasBatches D.tells (D.told disk.old) self.old }
        ensures { Steps D.tells (D.told disk.old) (D.told disk.new) self.old self.new now (Closes seq)
            (outs_end result) }
    {
        there_are_own_terms();
        let reaction = self.step(disk, now, Call::Close { seq })?;
        Ok(reaction.outs)
    }

    /// Ends an outgoing sequence.
    pub fn end<D: Disk>(&mut self, disk: &mut D, seq: u32) -> Result<Outs, NodeError>
        requires { HasBatches D.tells (D.told disk.old) self.old }
        ensures { Steps D.tells (D.told disk.old) (D.told disk.new) self.old self.new 0 (Finishes seq)
            (outs_end result) }
    {
        there_are_own_terms();
        let reaction = self.step(disk, 0, Call::End { seq })?;
        Ok(reaction.outs)
    }

    /// Asks the peer of an outgoing sequence for an acknowledgement.
    pub fn ask_ack<D: Disk>(&mut self, disk: &mut D, seq: u32) -> Result<Outs, NodeError>
        requires { HasBatches D.tells (D.told disk.old) self.old }
        ensures { Steps D.tells (D.told disk.old) (D.told disk.new) self.old self.new 0 (AsksAck seq)
            (outs_end result) }
    {
        there_are_own_terms();
        let reaction = self.step(disk, 0, Call::AskAck { seq })?;
        Ok(reaction.outs)
    }

    /// Tells the peer of an incoming sequence which numbers are missing.
    pub fn nack_missing<D: Disk>(
        &mut self,
        disk: &mut D,
        seq: u32,
        now: u64,
    ) -> Result<Outs, NodeError>
        requires { HasBatches D.tells (D.told disk.old) self.old }
        ensures { Steps D.tells (D.told disk.old) (D.told disk.new) self.old self.new now (NacksMissing seq)
            (outs_end result) }
    {
        there_are_own_terms();
        let reaction = self.step(disk, now, Call::NackMissing { seq })?;
        Ok(reaction.outs)
    }

    /// Consumes the items of an incoming sequence's inbox up to one, counted from 1. Call it once the application has
    /// taken them for good: a crash before that leaves them to be taken again. Where the cursor is there already,
    /// nothing is written. It hands nothing out, and begins and ends no key.
    pub fn consume<D: Disk>(&mut self, disk: &mut D, seq: u32, upto: u64) -> Result<(), NodeError>
        requires { HasBatches D.tells (D.told disk.old) self.old }
        ensures { Steps D.tells (D.told disk.old) (D.told disk.new) self.old self.new 0 (Consumes seq upto)
            (done_end result) }
    {
        there_are_own_terms();
        let reaction = self.step(disk, 0, Call::Consume { seq, upto })?;
        drop(reaction);
        Ok(())
    }

    /// Asks the peer with an address for the messages that wait there for the node.
    pub fn poll<D: Disk>(&mut self, disk: &mut D, to: Uri) -> Result<Outs, NodeError>
        requires { HasBatches D.tells (D.told disk.old) self.old }
        ensures { Steps D.tells (D.told disk.old) (D.told disk.new) self.old self.new 0 (Polls to) (outs_end result) }
    {
        there_are_own_terms();
        let _to = to.as_slice();
        let reaction = self.step(disk, 0, Call::Poll { to })?;
        Ok(reaction.outs)
    }

    /// Ends the incoming sequences whose time has run out at a moment, and hands out again what is due then. It hands
    /// out exactly the first 64 keys that are due, by class and then by age, each as its message or request, and moves
    /// each to its next class.
    pub fn tick<D: Disk>(&mut self, disk: &mut D, now: u64) -> Result<Outs, NodeError>
        requires has { HasBatches D.tells (D.told disk.old) self.old }
        requires now { now ≤ now_max }
        ensures { Steps D.tells (D.told disk.old) (D.told disk.new) self.old self.new now (Ticks now)
            (outs_end result) }
    {
        there_are_own_terms();
        let reaction = self.step(disk, now, Call::Tick { now })?;
        Ok(reaction.outs)
    }

    /// Takes bytes that came from a peer on a connection. No bytes are refused: those that are no message, or a message
    /// that is not taken, are answered with a fault.
    /// - `kinds`: no error but Memory, Disk and Down comes.
    /// - `steps`: a verdict comes exactly where it is the first kind of fault that holds of the bytes, or the store has
    ///   no room; records, time and keys are as before, and a fault for an address that nobody can reach waits. A
    ///   MakeConnection that is taken is given the oldest message that waits for its address, with MessagePending, its
    ///   own blocks and behind them those of the acknowledgements that go back on the connection. A message that was
    ///   fetched waits on where the disk failed.
    pub fn receive<D: Disk>(
        &mut self,
        disk: &mut D,
        now: u64,
        bytes: &[u8],
    ) -> Result<Reaction, NodeError>
        requires { HasBatches D.tells (D.told disk.old) self.old }
        ensures steps { Steps D.tells (D.told disk.old) (D.told disk.new) self.old self.new now (Receives bytes.entry)
            (reaction_end result) }
        ensures kinds { IfErr result (λ error. (error ≡ WantsMemory) ⊎ (error ≡ DiskFails) ⊎ (error ≡ IsDown)) }
    {
        there_are_own_terms();
        self.step(disk, now, Call::Receive { bytes })
    }
}

/// The number that the next payload for an outgoing sequence gets.
fn next_number(tables: &Tables, seq: u32) -> u64
    ensures { is_outgoing_side (maker tables.now.records seq) ≡ true
        → result ≡ accepted_count tables.now.records seq + 1 }
{
    an_outgoing_sequence_is_as_recorded();
    match tables.outgoing(seq) {
        Some(outgoing) => outgoing.accepted_len() + 1,
        None => 1,
    }
}
