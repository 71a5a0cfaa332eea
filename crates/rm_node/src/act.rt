//! What an answer says is done: its records are written, and what waits is moved. Calls of a node that is down are
//! refused.
ghost use Rattle.std.specs.Prelude.{◌≡◌, true, false, is_ok, IfErr, OnOk};
ghost use Rattle.rm_disk.specs.Journal.JournalState.{end_of};
ghost use Rattle.node_laws.specs.Answers.Serving.{Serves};
ghost use Rattle.rm_node.specs.Called.{EndsBy, HasBatches, StaysANode, Wrote};
ghost use Rattle.rm_node.specs.declared.error.NodeError.TheVariants.{Down as IsDown};
ghost use Rattle.rm_node.specs.Ends.{error_end, is_disk, is_refused};
ghost use Rattle.rm_node.specs.Fetching.{whole};
ghost use Rattle.rm_node.specs.Noded.{Runs};
ghost use Rattle.rm_node.specs.Timed.{MayBeWritten};

use crate::after::{go_on, make_ready, write_down};
use crate::error::NodeError;
use crate::fetch::Answered;
use crate::node::Node;
use node_laws::answers::Outcome;
use node_laws::laws::a_node_has_room_for_its_keys;
use node_store::laws::a_node_has_one_batch_more;
use node_tables::Tables;
use node_waits::keys::laws::{one_more_has_room, only_the_touched_are_looked_at};
use rm_disk::Disk;
use rm_protocol::laws::what_waits_stays_exact;
use timers::slots::Key;

impl Node {
    /// Refuses a call of a node that is down.
    pub(crate) fn check_up(&self) -> Result<(), NodeError>
        ensures up { OnOk result (self.now.stored.journal.is_down ≡ false) }
        ensures down { IfErr result (λ error. (error ≡ IsDown) × (self.now.stored.journal.is_down ≡ true)) }
    {
        if self.store.is_down() {
            return Err(NodeError::Down);
        }
        Ok(())
    }

    /// The tables of all records, and where the next batch begins.
    pub(crate) fn tables_and_end(&self) -> (&Tables, u64)
        ensures records { result.0.now.records ≡ self.now.stored.records }
        ensures place { result.1 ≡ end_of self.now.stored.journal }
        ensures serves { Serves result.0.now.records result.1 }
        ensures runs { Runs self.now }
    {
        (self.store.tables(), self.store.end())
    }

    /// Writes the records of an answer that is no refusal, in one batch, and moves the keys and the messages that wait
    /// once they are there. All memory is taken before.
    pub(crate) fn write<D: Disk>(
        &mut self,
        disk: &mut D,
        answered: Answered,
        begun: Option<Key>,
    ) -> Result<(), NodeError>
        requires up { self.old.stored.journal.is_down ≡ false }
        requires has { HasBatches D.tells (D.told disk.old) self.old }
        requires may { MayBeWritten self.old.stored.records (end_of self.old.stored.journal) (whole answered) begun }
        ensures wrote { Wrote D.tells (D.told disk.old) (D.told disk.new) self.old self.new (whole answered)
            (is_ok result) (is_disk result) }
        ensures done { OnOk result (is_refused (whole answered).outcome ≡ false) }
        ensures err { IfErr result (λ error. EndsBy false (whole answered) (error_end error)) }
        ensures stays { StaysANode (D.told disk.old) self.old (whole answered) }
    {
        a_node_has_one_batch_more();
        if let Outcome::Refused(cause) = answered.answer.outcome {
            return Err(NodeError::Refused(cause));
        }
        a_node_has_room_for_its_keys();
        only_the_touched_are_looked_at();
        one_more_has_room();
        what_waits_stays_exact();
        let ready = make_ready(self.alloc, &mut self.kept.polled, &answered)?;
        let rest = write_down(&mut self.store, disk, answered)?;
        go_on(&mut self.kept, self.store.tables(), ready, begun, rest);
        Ok(())
    }
}
