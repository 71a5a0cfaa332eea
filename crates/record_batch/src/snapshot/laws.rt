//! What follows from the definition of a snapshot. Proofs above may cite the lemmas of `specs/` that the laws are.
ghost use Rattle.std.specs.Prelude.{◌≡◌, ◌++◌, ◌∷◌, [], true, false, None, Some};
ghost use Rattle.record_batch.specs.Fact.{Consumed, Dropped, Purged, Received};
ghost use Rattle.record_batch.specs.Sequences.Destinations.{cursor, inbox};
ghost use Rattle.record_batch.specs.Sequences.Examples.{a_loose_destination, a_short_loose_destination, of_text};
ghost use Rattle.record_batch.specs.Sequences.Fits.{all_fit, fits};
ghost use Rattle.record_batch.specs.Sequences.Sources.{accepted_count, payload_at, unacked};
ghost use Rattle.record_batch.specs.Snapshot.Examples.{a_destination, a_source, granted, loose_granted, opened, span};
ghost use Rattle.record_batch.specs.Snapshot.Same.{FactsAreEqual, FrameDecides, InboxPastIsThere, KeptByOneMore};
ghost use Rattle.record_batch.specs.Snapshot.Same.{NumbersAreFromOne, SetsUnite};
ghost use Rattle.record_batch.specs.Snapshot.Same.{SnapshotFits, SnapshotIsProper, SnapshotKeepsAll, SnapshotKnowsAll};
ghost use Rattle.record_batch.specs.Snapshot.Same.{SnapshotSaysTheSame, SnapshotTwice, SnapshotWritesSets};
ghost use Rattle.record_batch.specs.Snapshot.Same.{UnackedIsEqual};
ghost use Rattle.record_batch.specs.Snapshot.Snapshot.{snapshot};

use rm_sides::ranges::{ends_are_right, same_numbers_same_ranges, union_has_both};

/// The acknowledged numbers of a sequence are a set where each range has a number.
pub fn sets_unite()
    ensures { SetsUnite }
{
    union_has_both();
}

/// What is known of a node and of how far its sequences are follows from records that a snapshot leaves as they are.
/// That is: the node's number, address and counter, each sequence's phase and identifier, whether it is closed or ended
/// at each moment, whom it is with, and what is found by identifiers and messages.
pub fn the_frame_decides()
    ensures { FrameDecides }
{}

/// Of two lists that say the same, the facts of each sequence are equal, but for payloads that are gone. That is: a
/// message behind the gone ones, the first gap, whether a sequence is complete, and how long the inbox and what is
/// discarded are. All numbers are from 1 on.
pub fn facts_are_equal()
    ensures { FactsAreEqual }
{}

/// The numbers of what was received, and of what is gone, are from 1 on where the records fit.
pub fn numbers_are_from_one()
    ensures { NumbersAreFromOne }
{}

/// As many messages wait for an acknowledgement.
pub fn unacked_is_equal()
    ensures { UnackedIsEqual }
{
    union_has_both();
    same_numbers_same_ranges();
}

/// Past the cursor the inbox has what all records that a node ever had release, and nothing there is gone.
pub fn the_inbox_past_the_cursor_is_there()
    ensures { InboxPastIsThere }
{}

/// A snapshot says the same as its records, but for payloads that are gone. Of the node and of how its sequences came
/// to be it has the same records. Of a source as many messages were accepted, those behind the gone ones are the same,
/// and the same numbers are acknowledged. Of a destination the same numbers were received, the cursor is the same, what
/// isn't gone is the same, and nothing past the cursor is gone. Each range of an Acked record has to have a number.
pub fn a_snapshot_says_the_same()
    ensures { SnapshotSaysTheSame }
{
    union_has_both();
    ends_are_right();
}

/// All that is known of a node and of its sequences is the same by a snapshot, but for payloads that are gone.
pub fn a_snapshot_knows_all()
    ensures { SnapshotKnowsAll }
{
    union_has_both();
    ends_are_right();
    same_numbers_same_ranges();
}

/// It tells what all records tell that the node ever had, as its records did.
pub fn a_snapshot_keeps_all()
    ensures { SnapshotKeepsAll }
{
    union_has_both();
    ends_are_right();
}

/// One more record of a call keeps that. A call writes the record (`IsLive`), and its message, if it is one, didn't
/// come yet (`IsNewIn`).
pub fn one_more_record_keeps_all()
    ensures { KeptByOneMore }
{}

/// A snapshot is a list of records that a node may have.
pub fn a_snapshot_fits()
    ensures { SnapshotFits }
{
    union_has_both();
    ends_are_right();
}

/// Each range that a snapshot acknowledges has a number.
pub fn a_snapshot_is_proper()
    ensures { SnapshotIsProper }
{
    union_has_both();
    ends_are_right();
}

/// What a snapshot writes of messages that are settled or consumed, and of acknowledged ones, are message numbers. They
/// stand as canonical ranges.
pub fn a_snapshot_writes_sets()
    ensures { SnapshotWritesSets }
{
    union_has_both();
    ends_are_right();
}

/// A snapshot of a snapshot is the snapshot.
pub fn a_snapshot_is_its_own()
    ensures { SnapshotTwice }
{
    union_has_both();
    ends_are_right();
    same_numbers_same_ranges();
}

/// Of nine records of a source, all of whose messages are acknowledged, four are left.
pub fn a_settled_source()
    ensures fit { all_fit [] a_source ≡ true }
    ensures snapshot { snapshot a_source ≡ opened ++ Dropped 1 3 ∷ [] }
    ensures count { accepted_count (snapshot a_source) 1 ≡ 3 }
    ensures gone { payload_at (snapshot a_source) 1 3 ≡ None }
    ensures unacked { unacked (snapshot a_source) 1 ≡ 0 }
{}

/// Of six records of a destination, two of whose three messages were consumed, four are left.
pub fn a_destination_with_a_cursor()
    ensures fit { all_fit [] a_destination ≡ true }
    ensures snapshot { snapshot a_destination
        ≡ granted ++ Purged 1 (span 1 2 ∷ []) ∷ Received 1 3 (of_text (9 ∷ [])) ∷ [] }
    ensures inbox { inbox (snapshot a_destination) 1 ≡ None ∷ None ∷ Some (of_text (9 ∷ [])) ∷ [] }
    ensures cursor { cursor (snapshot a_destination) 1 ≡ 2 }
    ensures past { fits (snapshot a_destination) (Consumed 1 4) ≡ false }
    ensures next { fits (snapshot a_destination) (Consumed 1 3) ≡ true }
{}

/// Of a loose destination the message that came first was consumed, which isn't the first by number: its payload is
/// left out, and the other one stays behind it.
pub fn a_loose_destination_with_a_cursor()
    ensures snapshot { snapshot (a_loose_destination ++ Consumed 1 1 ∷ []) ≡ a_short_loose_destination }
    ensures inbox { inbox a_short_loose_destination 1 ≡ None ∷ Some (of_text (7 ∷ [])) ∷ [] }
    ensures whole { snapshot (a_loose_destination ++ Consumed 1 2 ∷ [])
        ≡ loose_granted ++ Purged 1 (span 1 1 ∷ span 3 3 ∷ []) ∷ [] }
{}
