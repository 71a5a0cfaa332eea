//! What was added to a journal elsewhere is written on its disk, with one pair of syncs.

ghost use Rattle.std.specs.Prelude.{◌≡◌, ◌+◌, ◌<◌, ◌^◌, ◌∷◌, ℕ, List, length, IsTrue, is_ok, is_err, OnOk};
ghost use Rattle.rm_disk.specs.Call.{crashes_of, overwritten, seen_of, settled, state};
ghost use Rattle.rm_disk.specs.Cause.{HasCause};
ghost use Rattle.rm_disk.specs.Fuse.{Burns};
ghost use Rattle.rm_disk.specs.Spare.{Covers};
ghost use Rattle.rm_disk.specs.Journal.Entries.{StandsAt};
ghost use Rattle.rm_disk.specs.Journal.Journal.{Carries, Fits};
ghost use Rattle.rm_disk.specs.Journal.JournalState.{JournalState, end_of};

use crate::Disk;
use crate::journal::block::write_block;
use rm_base::Failed;

/// Writes bytes behind the closed gate of the journal that a disk has, syncs, opens the gate and syncs. Whatever list
/// the bytes with the open gate stand for: a crash at any moment of the call leaves the old list or that one.
pub fn carry<D: Disk>(disk: &mut D, gate: u64, body: &[u8]) -> Result<(), Failed>
    requires within { IsTrue D.tells → gate < length (seen_of (D.told disk.old).past) }
    requires fits { gate + 1 < 2 ^ 64 }
    requires room { Covers (D.spare disk.old) 4 (length body.now + 1) }
    ensures carries { IsTrue D.tells → (journal : JournalState) (entries all : List (List ℕ)) →
        Fits entries (D.told disk.old).past journal → gate ≡ end_of journal →
        StandsAt journal.bank all (overwritten (seen_of (D.told disk.old).past) gate (1 ∷ body.now)) →
        Carries journal.bank entries all (D.told disk.old).past (D.told disk.new).past (is_ok result) }
    ensures bytes { IsTrue D.tells → OnOk result (state (D.told disk.new).past
        ≡ settled (overwritten (seen_of (D.told disk.old).past) gate (1 ∷ body.now))) }
    ensures fuse { IsTrue D.tells → Burns 4 (D.told disk.old).fuse (D.told disk.new).fuse (is_ok result) }
    ensures cause { HasCause (D.told disk.old).faults (D.told disk.new).faults (is_err result) }
    ensures crashes { IsTrue D.tells → crashes_of (D.told disk.new).past ≡ crashes_of (D.told disk.old).past }
{
    write_block(disk, gate, body)
}
