//! The journal of a node of a script is written anew.
ghost use Rattle.rm_protocol.specs.Node.{Node};
ghost use Rattle.rm_replay.specs.Actor.Rewrites.{IsRewrite};
ghost use Rattle.rm_replay.specs.Actor.Stands.{Stands};

use crate::actor::actor::Actor;
use crate::actor::outcome::told_alone;
use node_store::laws::a_journal_is_rewritten_as_the_protocol_says;
use rm_base::Memory;
use rm_disk::CrashDisk;
use rm_script::report::Outcome;

impl Actor {
    /// Writes the journal of the node anew, so that it has what its records say in short. Nothing leaves the node. It
    /// is written as the protocol's node writes its list, also where the disk failed and where there was no room. After
    /// want of memory nothing has changed.
    pub fn compact<D: CrashDisk>(&mut self, disk: &mut D) -> Result<Outcome, Memory>
        requires { (x : Node) × Stands x (D.told disk.old) self.old }
        ensures { IsRewrite (D.told disk.old) (D.told disk.new) self.old self.new result }
    {
        a_journal_is_rewritten_as_the_protocol_says();
        told_alone(self.node.compact(disk))
    }
}
