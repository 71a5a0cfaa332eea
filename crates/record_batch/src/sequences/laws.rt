//! What the definitions come to on worked lists of records.
ghost use Rattle.std.specs.Prelude.{◌≡◌, ◌≤◌, List, ◌++◌, ◌∷◌, [], true, false, length, Some, None, codes};
ghost use Rattle.rm_base.specs.declared.message.Cause.TheVariants.{Peer};
ghost use Rattle.rm_sides.specs.declared.source.phase.OutPhase.TheVariants.{Closing};
ghost use Rattle.record_batch.specs.Batch.{batch_text};
ghost use Rattle.record_batch.specs.Fact.{Accepted, Closed, Consumed, Dropped, Fact, Received};
ghost use Rattle.record_batch.specs.Sequences.Destinations.{cursor, discarded, front, inbox, is_complete, is_ended};
ghost use Rattle.record_batch.specs.Sequences.Examples.{a_destination, a_loose_destination, a_short_destination};
ghost use Rattle.record_batch.specs.Sequences.Examples.{a_short_loose_destination, a_short_source, a_source, of_text};
ghost use Rattle.record_batch.specs.Sequences.Find.{find_incoming, find_outgoing};
ghost use Rattle.record_batch.specs.Sequences.Fits.{all_fit, fits};
ghost use Rattle.record_batch.specs.Sequences.Idents.{IssuesOnce, issue};
ghost use Rattle.record_batch.specs.Sequences.Makers.{counter};
ghost use Rattle.record_batch.specs.Sequences.OneMore.{OneMoreRecord, OneMoreOfTheNode, OnlyTheNamed};
ghost use Rattle.record_batch.specs.Sequences.Sources.{accepted, accepted_count, payload_at, phase, unacked};

/// The identifier of counter 1 of node 1.
pub fn an_identifier()
    ensures { issue 1 1 ≡ codes "urn:uuid:00000000-0000-8001-8000-000000000001" }
{}

/// A node issues an identifier for one number alone. Node numbers are below 2^60 and counters below 2^62.
pub fn one_number_one_identifier()
    ensures { IssuesOnce }
{}

/// Of a source: its phase, its messages, and what may come next. Nothing is accepted once it is closing.
pub fn a_closing_source()
    ensures fit { all_fit [] a_source ≡ true }
    ensures phase { phase a_source 1 ≡ Closing }
    ensures accepted { accepted a_source 1 ≡ (7 ∷ []) ∷ (8 ∷ []) ∷ [] }
    ensures unacked { unacked a_source 1 ≡ 1 }
    ensures counter { counter a_source ≡ 2 }
    ensures found { find_outgoing a_source (codes "urn:s") ≡ Some 1 }
    ensures no_more { fits a_source (Accepted 1 (9 ∷ [])) ≡ false }
{}

/// Of a destination that discards entire sequences: nothing is released before it is told that three messages are all.
/// Of an incomplete one all is discarded, and it ends at its deadline and not before.
pub fn a_destination_of_all_or_none()
    ensures fit { all_fit [] a_destination ≡ true }
    ensures front { front a_destination 1 ≡ 3 }
    ensures none { inbox a_destination 1 ≡ [] }
    ensures all { inbox (a_destination ++ Closed 1 Peer 3 ∷ []) 1
        ≡ Some (of_text (7 ∷ [])) ∷ Some (of_text (8 ∷ [])) ∷ Some (of_text (9 ∷ [])) ∷ [] }
    ensures more { is_complete (a_destination ++ Closed 1 Peer 4 ∷ []) 1 ≡ false }
    ensures discarded { length (discarded (a_destination ++ Closed 1 Peer 4 ∷ []) 1) ≡ 3 }
    ensures before { is_ended a_destination 1 99 ≡ false }
    ensures expired { is_ended a_destination 1 100 ≡ true }
    ensures found { find_incoming a_destination (issue 2 1) ≡ Some 1 }
{}

/// Of a source without its first payloads: what is there, what waits, and that nothing more goes. Those that are gone
/// count as accepted.
pub fn a_source_without_its_first_payloads()
    ensures fit { all_fit [] a_short_source ≡ true }
    ensures count { accepted_count a_short_source 1 ≡ 3 }
    ensures gone { payload_at a_short_source 1 2 ≡ None }
    ensures there { payload_at a_short_source 1 3 ≡ Some (9 ∷ []) }
    ensures unacked { unacked a_short_source 1 ≡ 1 }
    ensures once { fits a_short_source (Dropped 1 3) ≡ false }
{}

/// Of a destination without its first payloads: they are gone and not forgotten, and the cursor is behind them. The
/// cursor goes on to the inbox's end, not past it and not back.
pub fn a_destination_without_its_first_payloads()
    ensures fit { all_fit [] a_short_destination ≡ true }
    ensures front { front a_short_destination 1 ≡ 3 }
    ensures inbox { inbox a_short_destination 1 ≡ None ∷ None ∷ Some (of_text (9 ∷ [])) ∷ [] }
    ensures again { fits a_short_destination (Received 1 2 (of_text (8 ∷ []))) ≡ false }
    ensures cursor { cursor a_short_destination 1 ≡ 2 }
    ensures back { fits a_short_destination (Consumed 1 2) ≡ false }
    ensures on { fits a_short_destination (Consumed 1 3) ≡ true }
    ensures past { fits a_short_destination (Consumed 1 4) ≡ false }
{}

/// Of a loose destination: what came is released as it came, behind a gap too, and nothing is discarded.
pub fn a_destination_that_releases_what_comes()
    ensures fit { all_fit [] a_loose_destination ≡ true }
    ensures front { front a_loose_destination 1 ≡ 1 }
    ensures inbox { inbox a_loose_destination 1 ≡ Some (of_text (9 ∷ [])) ∷ Some (of_text (7 ∷ [])) ∷ [] }
    ensures consumed { fits a_loose_destination (Consumed 1 2) ≡ true }
    ensures past { fits a_loose_destination (Consumed 1 3) ≡ false }
    ensures discarded { discarded (a_loose_destination ++ Closed 1 Peer 4 ∷ []) 1 ≡ [] }
{}

/// Of a loose destination without a payload that isn't the first by number: it is gone and not forgotten. Its place in
/// the inbox stays, it is received no more, and the cursor goes on behind it.
pub fn a_loose_destination_without_a_payload()
    ensures fit { all_fit [] a_short_loose_destination ≡ true }
    ensures inbox { inbox a_short_loose_destination 1 ≡ None ∷ Some (of_text (7 ∷ [])) ∷ [] }
    ensures again { fits a_short_loose_destination (Received 1 3 (of_text (9 ∷ []))) ≡ false }
    ensures cursor { cursor a_short_loose_destination 1 ≡ 1 }
    ensures on { fits a_short_loose_destination (Consumed 1 2) ≡ true }
{}

/// A batch takes at least a byte for each number that it draws.
pub fn a_byte_for_each_number()
    ensures { (batch : List Fact) → counter batch ≤ length (batch_text batch) }
{}

/// One record more changes each sequence by what it says of it, and adds those that it makes.
pub fn one_more_record()
    ensures { OneMoreRecord }
{}

/// A record changes no sequence but the one that it names, which is there.
pub fn only_the_named_sequence_changes()
    ensures { OnlyTheNamed }
{}

/// What one record more changes of the node itself. That is: its sequences, the numbers drawn, its number, its
/// addresses, the identifiers given, and that all records fit.
pub fn one_more_record_of_the_node()
    ensures { OneMoreOfTheNode }
{}
