//! A node is asked for something, or something comes to it.
ghost use Rattle.rm_protocol.specs.Node.{Node};
ghost use Rattle.rm_node.specs.Asked.{MayBeAsked};
ghost use Rattle.rm_replay.specs.Actor.Stands.{Stands};
ghost use Rattle.rm_replay.specs.Actor.Steps.{Steps};

use crate::actor::actor::{Actor, Came};
use crate::actor::outcome::told;
use node_laws::laws::{
    each_message_keeps_the_rules, there_are_own_terms, what_waits_keeps_the_rules,
};
use node_store::laws::a_journal_ends_with_its_batches;
use rm_base::Memory;
use rm_disk::CrashDisk;
use rm_node::Call;
use rm_node::laws::the_reply_comes_first;
use rm_wire::read_laws::laws::{a_refusal_may_be_answered, what_is_read_may_be_written};

impl Actor {
    /// Does what is asked, at the node's clock. A tick sets the clock of a node that isn't down. The call is the step
    /// of the protocol: what stands after it, how it comes out, and which packets leave the node, the message that was
    /// fetched, back on the connection, and then what is said. The disk's count of faults rises where the call comes
    /// out as a fault of the disk, and stays where it doesn't.
    pub fn ask<D: CrashDisk>(&mut self, disk: &mut D, call: Call<'_>) -> Result<Came, Memory>
        requires there { (x : Node) × Stands x (D.told disk.old) self.old }
        requires may { MayBeAsked call }
        ensures { Steps (D.told disk.old) (D.told disk.new) self.old self.new call.entry result }
    {
        a_journal_ends_with_its_batches();
        there_are_own_terms();
        the_reply_comes_first();
        what_is_read_may_be_written();
        a_refusal_may_be_answered();
        each_message_keeps_the_rules();
        what_waits_keeps_the_rules();
        let clock = self.clock_after(&call);
        let came = told(self.alloc, self.node.step(disk, self.clock, call))?;
        self.clock = clock;
        Ok(came)
    }
}
