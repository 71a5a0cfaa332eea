//! What follows of what a node does that runs.
ghost use Rattle.rm_station.specs.Acceptance.{AcceptedIsRecorded, AcceptedOnce, AskedAgain, RecordsStay};

use node_laws::laws::there_are_own_terms;
use rm_base::Clock;
use rm_disk::Disk;

/// What is told an application that it was accepted is recorded, as the next payload of a sequence.
pub fn what_is_accepted_is_recorded()
    ensures { AcceptedIsRecorded }
{
    there_are_own_terms();
}

/// What a node has recorded stays, whatever turns it takes then.
pub fn what_is_recorded_stays<D: Disk, C: Clock>()
    ensures { RecordsStay D.tells D.told C.next }
{
    there_are_own_terms();
}

/// No two payloads of a sequence are accepted under one number, whatever turns come between.
pub fn a_number_is_accepted_once<D: Disk, C: Clock>()
    ensures { AcceptedOnce D.tells D.told C.next }
{
    there_are_own_terms();
}

/// If an application asks again for what was accepted under a sequence and a number, that is not accepted again.
pub fn what_is_asked_again_is_not_accepted_again<D: Disk, C: Clock>()
    ensures { AskedAgain D.tells D.told C.next }
{
    there_are_own_terms();
}
