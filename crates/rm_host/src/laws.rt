//! What follows of what a command does.
ghost use Rattle.std.specs.Prelude.{Bool, IsTrue, List};
ghost use Rattle.node_laws.specs.OwnTerms.{AreOwn};
ghost use Rattle.rm_base.specs.declared.message.Behaviour.{Behaviour};
ghost use Rattle.rm_disk.specs.Told.{Told};
ghost use Rattle.rm_protocol.specs.Terms.{Terms};
ghost use Rattle.rm_serve.specs.Steps.{MakesAll, Place, Step};
ghost use Rattle.rm_host.specs.Finding.{Found};
ghost use Rattle.rm_host.specs.Records.{LeavesRecords};

use rm_serve::laws::calls_leave_their_records;

/// What a command leaves on a disk that tells is the batches that it found there, with the records of its calls behind
/// them, in turn. Where the disk failed under a call, its records are there or not, and it is the last.
pub fn a_command_leaves_its_records()
    ensures { (tells : Bool) (terms : Terms) (first : Told) (granted : Behaviour) (x z : Place) (steps : List Step)
        → IsTrue tells → AreOwn terms → Found tells first granted x → MakesAll tells x z steps
        → LeavesRecords tells terms first x z steps }
{
    calls_leave_their_records();
}
