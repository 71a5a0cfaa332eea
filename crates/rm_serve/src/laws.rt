//! What follows of a call of a node.
ghost use Rattle.std.specs.Prelude.{◌≡◌, ℕ, Bool, false, IsTrue, List};
ghost use Rattle.record_batch.specs.Fact.{Fact};
ghost use Rattle.rm_disk.specs.Told.{Told};
ghost use Rattle.rm_protocol.specs.Terms.{Terms};
ghost use Rattle.node_store.specs.Has.{Holds};
ghost use Rattle.rm_node.specs.Asked.{Asked, Asks};
ghost use Rattle.rm_node.specs.Called.{Steps};
ghost use Rattle.rm_node.specs.Ends.{Ended};
ghost use Rattle.rm_node.specs.Noded.{Noded};
ghost use Rattle.rm_node.specs.declared.call.Call.{Call};
ghost use Rattle.rm_serve.specs.Adds.{Leaves};
ghost use Rattle.rm_serve.specs.Steps.{IsUp, LeavesUp, Makes, Place, Step, place_of};

use node_laws::laws::there_are_own_terms;

/// A node that is up stays up as long as all goes well, and does not answer that it is down.
pub fn a_node_stays_up()
    ensures { (tells : Bool) (first now : Told) (old new : Noded) (moment : ℕ) (call : Call) (asked : Asked)
        (ended : Ended) → Asks call asked → IsUp tells (place_of first old)
        → Steps tells first now old new moment call ended → LeavesUp tells (place_of now new) ended }
{
    there_are_own_terms();
}

/// Calls of a node that is up leave its records on a disk that tells, followed by those of the calls, in turn. Where
/// the disk failed under a call, its records are there or not, and the node makes no call after it.
pub fn calls_leave_their_records()
    ensures { (tells : Bool) (terms : Terms) (x z : Place) (steps : List Step) (batches : List (List Fact))
        → IsTrue tells → x.node.stored.journal.is_down ≡ false → Holds batches x.told.past x.node.stored
        → Makes tells terms x z steps → Leaves tells terms x z steps batches }
{}
