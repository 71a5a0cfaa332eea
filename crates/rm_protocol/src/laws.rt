//! Laws of the protocol.
ghost use Rattle.std.specs.Prelude.{◌≡◌, ℕ, ◌+◌, ◌++◌, ◌∷◌, [], Bool, Err, List, None, Some, length};
ghost use Rattle.std.specs.Prelude.{slice_get, take, true, false};
ghost use Rattle.rm_base.specs.Numbered.{numbered};
ghost use Rattle.rm_message.specs.declared.refusal.Refusal.{Refusal};
ghost use Rattle.record_batch.specs.Fact.{Fact};
ghost use Rattle.rm_protocol.specs.Announced.{AnnouncesStill};
ghost use Rattle.rm_protocol.specs.Calls.{Done, PastInbox, Refused};
ghost use Rattle.rm_protocol.specs.Consumed.{ConsumedStays};
ghost use Rattle.rm_protocol.specs.Delivered.{TakesNew};
ghost use Rattle.rm_protocol.specs.Exact.{AckedWereAccepted, IsExactAtFirst, OthersWaitOn, RecordBegins, StaysExact};
ghost use Rattle.rm_protocol.specs.Exact.{StaysExactInShort, WhatBeginsWaits};
ghost use Rattle.rm_protocol.specs.Examples.{with_a_close, with_an_end, with_an_expiry, example_terms, in_order};
ghost use Rattle.rm_protocol.specs.Examples.{with_ticks, with_a_nack, with_an_ask, with_both_again};
ghost use Rattle.rm_protocol.specs.Examples.{pendings, with_a_crash_of_the_source, with_a_lost_message, with_polls};
ghost use Rattle.rm_protocol.specs.Examples.{played, with_a_crash, with_a_fresh_list, with_a_gap, with_an_offer};
ghost use Rattle.rm_protocol.specs.Examples.{item_texts, with_consumption, with_fresh_lists, with_gone_items};
ghost use Rattle.rm_protocol.specs.Next.{EachMayComeNext};
ghost use Rattle.rm_protocol.specs.Node.{Answered, records};
ghost use Rattle.rm_protocol.specs.Pair.{APairTells, IssuedByOne, MadeAreAPair, PairsTurn, StaysAPair};
ghost use Rattle.rm_protocol.specs.Recorded.{FinalCloses, GapIsClosed, LooseIsReleased, NewIsRecorded};
ghost use Rattle.rm_protocol.specs.Recorded.{OnlyHeardIsRecorded};
ghost use Rattle.rm_protocol.specs.Replied.{TheReplyHasTheBlocks};
ghost use Rattle.rm_protocol.specs.Sent.{AcceptedIsSent, Called, line_of, lines, outcome_of};
ghost use Rattle.rm_protocol.specs.Settled.{MadeAreSettled, StaysSettled};
ghost use Rattle.rm_protocol.specs.Sound.{IsSound};
ghost use Rattle.rm_protocol.specs.Terms.{AreTerms, Terms};
ghost use Rattle.rm_protocol.specs.Unarmed.{AreFaultless, AreUnarmed, IsFaultless};
ghost use Rattle.rm_protocol.specs.Crashes.{HasRecords, IsAfterCrashes, IsLeft, KeepsAll};
ghost use Rattle.rm_protocol.specs.Word.{InboxIsAll, consumed};
ghost use Rattle.rm_protocol.specs.World.{AreMade, Consume, Crash, Deliver, Event, Noise, Packet, Side, Two, World};
ghost use Rattle.rm_protocol.specs.World.{happens, node, other, run, start};
ghost use Rattle.record_batch.specs.Sequences.Destinations.{cursor, discarded, inbox, texts};
ghost use Rattle.record_batch.specs.Sequences.Sources.{accepted_count};
ghost use Rattle.record_batch.specs.Sequences.Words.{Text};

use record_batch::sequences::laws::one_number_one_identifier;
use record_batch::snapshot::{
    a_snapshot_fits, a_snapshot_is_proper, a_snapshot_keeps_all, a_snapshot_says_the_same,
};

/// Whatever is sent, lost, repeated, reordered and consumed, and whichever node crashes at whichever device call, every
/// run keeps the headline at each pair of images of both disks, and so it keeps what is said of loose sequences. It is
/// so where nodes write the lists of their entries anew, at any moment and with a crash at any of the five device
/// calls. The headline (`KeepsWord`) says of each sequence that isn't loose: what its application consumed, followed by
/// its inbox past the cursor, where nothing is gone, is a prefix of all that its source ever accepted (`prefix`); under
/// DiscardEntireSequence it is none or all of it (`whole`); each number that the source counts as acknowledged was
/// received (`held`); without a source there is nothing (`none`), and an outgoing sequence with an identifier has its
/// match (`matched`).
pub fn every_run_keeps_the_word()
    ensures { (terms : Terms) (one two : Text) → AreTerms terms → AreMade terms one two → (events : List Event)
        → KeepsAll (run terms events (start one two)) }
{
    one_number_one_identifier();
    a_snapshot_keeps_all();
    a_snapshot_fits();
    a_snapshot_is_proper();
}

/// Each line of a script keeps what holds of both nodes and of all packets. So the records on each disk say what all
/// that its node ever had say, but for items that are gone; each of them may come after those before it, and by all
/// that a node ever had nothing is gone.
pub fn every_step_keeps_the_agreement()
    ensures { (terms : Terms) (w : World) (event : Event) → AreTerms terms → IsSound terms w
        → IsSound terms (happens terms w event) }
{
    a_snapshot_keeps_all();
    a_snapshot_fits();
    a_snapshot_is_proper();
}

/// What was released to an application, and what it consumed, at one moment of such a run begins what is at each later
/// one. So it is whatever fails, crashes or is written anew between the two moments.
pub fn what_was_consumed_stays()
    ensures { ConsumedStays }
{
    a_snapshot_keeps_all();
    a_snapshot_fits();
    a_snapshot_is_proper();
}

/// Where nothing was consumed, the headline speaks of the whole inbox.
pub fn without_consumption_all_is_in_the_inbox()
    ensures { InboxIsAll }
{}

/// A message that is new, within the window and for an open sequence is recorded by the call that brings it.
pub fn a_new_message_is_recorded()
    ensures { NewIsRecorded }
{}

/// Under DiscardFollowingFirstGap such a message is released by that call where it closes the gap.
pub fn what_closes_the_gap_is_released()
    ensures { GapIsClosed }
{}

/// On a loose sequence such a message is released by that call.
pub fn what_comes_on_a_loose_sequence_is_released()
    ensures { LooseIsReleased }
{}

/// At each moment of a run, a delivered message that is new, within the window and for an open sequence is recorded by
/// that call, and released where it closes the gap or the sequence is loose, unless the node was down, its disk failed,
/// an acknowledgement of the message was invalid or the store was full.
pub fn a_delivered_message_is_taken()
    ensures { (terms : Terms) (one two : Text) → AreTerms terms → AreMade terms one two → (events : List Event)
        → TakesNew terms (run terms events (start one two)) }
{
    a_snapshot_keeps_all();
    a_snapshot_fits();
    a_snapshot_is_proper();
}

/// A message brings no other records than those of the receiving table: Received is its data, and nothing is accepted.
/// Granted is for the message's CreateSequence, Acked has the numbers of one of its blocks, and nothing is asked for,
/// nor closed or ended by an operator or a deadline.
pub fn only_what_was_heard_is_recorded()
    ensures { OnlyHeardIsRecorded }
{}

/// An acknowledgement with Final closes its source.
pub fn a_final_acknowledgement_closes()
    ensures { FinalCloses }
{}

/// Each record that a call adds may come next, where those before the call could. So for every call, and for every
/// message whose MessageNumber is from 1 to 9223372036854775807 and whose acknowledged ranges are ranges of such
/// numbers; of the terms it asks that a duration ends after it begins.
pub fn each_record_may_come_next()
    ensures { EachMayComeNext }
{}

/// At each image of each disk, what a source ever accepted is what the report says was sent. A send counts where it was
/// done, or where the disk failed and the next crash prints one entry more.
pub fn accepted_is_sent()
    ensures { AcceptedIsSent }
{}

/// A packet whose text is refused is what noise with that refusal is at its node.
pub fn what_is_refused_is_noise()
    ensures world { (terms : Terms) (w : World) (k : ℕ) (packet : Packet) (refusal : Refusal)
        → numbered w.packets k ≡ Some packet → terms.read packet.message ≡ Err refusal
        → happens terms w (Deliver k) ≡ happens terms w (Noise (other packet.from) refusal) }
    ensures outcome { (terms : Terms) (w : World) (k : ℕ) (packet : Packet) (refusal : Refusal)
        → numbered w.packets k ≡ Some packet → terms.read packet.message ≡ Err refusal
        → outcome_of terms w (Deliver k) ≡ outcome_of terms w (Noise (other packet.from) refusal) }
{}

/// Where no disk is armed, no disk fails and no node is down.
pub fn without_an_arm_nothing_fails()
    ensures lines { (terms : Terms) (one two : Text) (events : List Event) → AreUnarmed events
        → AreFaultless (lines terms events (start one two)) }
    ensures next { (terms : Terms) (one two : Text) (events : List Event) (event : Event) → AreUnarmed events
        → IsFaultless (outcome_of terms (run terms events (start one two)) event) }
{}

/// Each image of a node's disk is what one more crash would leave, and all that the node then ever had is what it would
/// have had after it.
pub fn an_image_is_one_more_crash()
    ensures { (terms : Terms) (w : World) (side : Side) (image all : List Fact) → IsLeft (node w side) image all
        → (kept : Bool) × HasRecords (node (happens terms w (Crash side kept)) side) image all }
{}

/// So each pair of images of both disks is what two more crashes would leave.
pub fn a_pair_of_images_is_two_more_crashes()
    ensures { (terms : Terms) (w : World) (a a_whole b b_whole : List Fact) → IsLeft w.one a a_whole
        → IsLeft w.two b b_whole → IsAfterCrashes terms w a a_whole b b_whole }
{}

/// The run of two scripts, one behind the other, is the run of the second from where that of the first ends.
pub fn a_run_goes_on()
    ensures run { (terms : Terms) (first second : List Event) (w : World)
        → run terms (first ++ second) w ≡ run terms second (run terms first w) }
    ensures lines { (terms : Terms) (first second : List Event) (w : World)
        → lines terms (first ++ second) w ≡ lines terms first w ++ lines terms second (run terms first w) }
{}

/// The run of one line more.
pub fn a_run_of_one_line_more()
    ensures run { (terms : Terms) (events : List Event) (w : World) (k : ℕ) (event : Event)
        → slice_get events k ≡ Some event
        → run terms (take (k + 1) events) w ≡ happens terms (run terms (take k events) w) event }
    ensures lines { (terms : Terms) (events : List Event) (w : World) (k : ℕ) (event : Event)
        → slice_get events k ≡ Some event
        → lines terms (take (k + 1) events) w
        ≡ lines terms (take k events) w ++ line_of terms (run terms (take k events) w) event ∷ [] }
{}

/// What is asked of the terms can be met.
pub fn there_are_terms()
    ensures { AreTerms example_terms }
{}

/// Three messages, in order: the entries of both, the packets, and the inbox.
pub fn messages_in_order()
    ensures one { length (played in_order).one.entries ≡ 9 }
    ensures two { length (played in_order).two.entries ≡ 5 }
    ensures packets { length (played in_order).packets ≡ 8 }
    ensures inbox { item_texts (inbox (records (played in_order).two) 1)
        ≡ Some (1 ∷ []) ∷ Some (2 ∷ []) ∷ Some (3 ∷ []) ∷ [] }
{}

/// A gap when the sequence is closed under DiscardEntireSequence: nothing is released, and what came is discarded.
pub fn a_gap_in_all_or_none()
    ensures two { length (played with_a_gap).two.entries ≡ 5 }
    ensures packets { length (played with_a_gap).packets ≡ 9 }
    ensures inbox { inbox (records (played with_a_gap).two) 1 ≡ [] }
    ensures discarded { length (discarded (records (played with_a_gap).two) 1) ≡ 2 }
{}

/// A crash inside a call: nothing was said, and the message that comes again is taken.
pub fn a_crash_inside_a_call()
    ensures two { length (played with_a_crash).two.entries ≡ 4 }
    ensures packets { length (played with_a_crash).packets ≡ 6 }
    ensures inbox { item_texts (inbox (records (played with_a_crash).two) 1) ≡ Some (1 ∷ []) ∷ Some (2 ∷ []) ∷ [] }
{}

/// A sequence that was offered takes messages from the offer on.
pub fn an_offer_taken()
    ensures one { length (played with_an_offer).one.entries ≡ 4 }
    ensures two { length (played with_an_offer).two.entries ≡ 4 }
    ensures packets { length (played with_an_offer).packets ≡ 4 }
    ensures inbox { item_texts (inbox (records (played with_an_offer).one) 2) ≡ Some (7 ∷ []) ∷ [] }
{}

/// A message that comes after the close is refused, and a duplicate gets the final acknowledgement.
pub fn a_close_before_all_came()
    ensures one { length (played with_a_close).one.entries ≡ 7 }
    ensures two { length (played with_a_close).two.entries ≡ 4 }
    ensures packets { length (played with_a_close).packets ≡ 10 }
    ensures inbox { item_texts (inbox (records (played with_a_close).two) 1) ≡ Some (1 ∷ []) ∷ [] }
{}

/// A sequence that is terminated takes no message, and its source learns of the end.
pub fn an_end_is_answered()
    ensures one { length (played with_an_end).one.entries ≡ 6 }
    ensures two { length (played with_an_end).two.entries ≡ 4 }
    ensures packets { length (played with_an_end).packets ≡ 7 }
{}

/// A tick ends a sequence at its deadline and not before.
pub fn a_sequence_expires()
    ensures one { length (played with_an_expiry).one.entries ≡ 5 }
    ensures two { length (played with_an_expiry).two.entries ≡ 4 }
    ensures packets { length (played with_an_expiry).packets ≡ 6 }
    ensures inbox { item_texts (inbox (records (played with_an_expiry).two) 1) ≡ Some (1 ∷ []) ∷ [] }
{}

/// A message that is not acknowledged is sent again 2000 milliseconds later, and then 4000 later, and not before.
pub fn a_message_is_sent_again()
    ensures at_first { length (played (with_ticks [])).packets ≡ 3 }
    ensures before { length (played (with_ticks (1999 ∷ []))).packets ≡ 3 }
    ensures then { length (played (with_ticks (1999 ∷ 2000 ∷ []))).packets ≡ 4 }
    ensures still { length (played (with_ticks (1999 ∷ 2000 ∷ 5999 ∷ []))).packets ≡ 4 }
    ensures again { length (played (with_ticks (1999 ∷ 2000 ∷ 5999 ∷ 6000 ∷ []))).packets ≡ 5 }
{}

/// A message that is missing is sent again at the next tick.
pub fn what_is_missing_is_sent_again()
    ensures nack { length (played (with_a_nack 1)).packets ≡ 8 }
    ensures delivered { length (played (with_a_nack 2)).packets ≡ 8 }
    ensures ticked { length (played (with_a_nack 3)).packets ≡ 9 }
    ensures arrived { length (played (with_a_nack 4)).packets ≡ 10 }
    ensures two { length (played (with_a_nack 4)).two.entries ≡ 5 }
    ensures inbox { item_texts (inbox (records (played (with_a_nack 4)).two) 1)
        ≡ Some (1 ∷ []) ∷ Some (2 ∷ []) ∷ Some (3 ∷ []) ∷ [] }
{}

/// A request for an acknowledgement gets one.
pub fn an_acknowledgement_is_asked_for()
    ensures one { length (played with_an_ask).one.entries ≡ 3 }
    ensures two { length (played with_an_ask).two.entries ≡ 2 }
    ensures packets { length (played with_an_ask).packets ≡ 4 }
{}

/// After a crash of the destination both messages are sent again, and the second is taken, or was.
pub fn a_crash_is_made_good()
    ensures lost { length (played (with_both_again false)).two.entries ≡ 4 }
    ensures kept { length (played (with_both_again true)).two.entries ≡ 4 }
    ensures packets { length (played (with_both_again false)).packets ≡ 8 }
    ensures inbox { item_texts (inbox (records (played (with_both_again true)).two) 1)
        ≡ Some (1 ∷ []) ∷ Some (2 ∷ []) ∷ [] }
{}

/// After a crash of the source a message that was written down and never sent is sent at the first tick.
pub fn what_was_written_is_sent()
    ensures one { length (played with_a_crash_of_the_source).one.entries ≡ 4 }
    ensures packets { length (played with_a_crash_of_the_source).packets ≡ 3 }
{}

/// A key that waits after one more record waited before it, or begins with that record.
pub fn a_record_begins_no_other_key()
    ensures { RecordBegins }
{}

/// A key that waits, waits on after records that name other sequences.
pub fn records_leave_other_keys()
    ensures { OthersWaitOn }
{}

/// The key that a record begins waits by the records then.
pub fn what_begins_waits()
    ensures { WhatBeginsWaits }
{}

/// The keys of what waits are, as a set, exactly those that wait by the records: after a mount, and after each call as
/// before it, where what begins with its records waits by all of them. A key is a message that is not acknowledged
/// where messages are sent again, or the request of a sequence in Creating, Closing or Ending.
pub fn what_waits_stays_exact()
    ensures mounted { IsExactAtFirst }
    ensures after { StaysExact }
{}

/// What waits is exact by what the records say in short, where it is by the records: a list that is written anew leaves
/// the keys as they are.
pub fn what_waits_is_exact_in_short()
    ensures { StaysExactInShort }
{
    a_snapshot_says_the_same();
}

/// The acknowledged numbers of a sequence are numbers of accepted messages.
pub fn what_is_acknowledged_was_accepted()
    ensures { AckedWereAccepted }
{}

/// A message that is taken out for a MakeConnection is the reply with its blocks, and those that go to the connection
/// behind them; every other acknowledgement is a message of its own.
pub fn the_reply_has_the_blocks()
    ensures { TheReplyHasTheBlocks }
{}

/// A node that nobody can reach: entries of both, the packets with what they say of more messages, and the inbox.
pub fn a_node_that_polls()
    ensures one { length (played with_polls).one.entries ≡ 6 }
    ensures two { length (played with_polls).two.entries ≡ 5 }
    ensures packets { pendings (played with_polls) ≡ None ∷ None ∷ Some false ∷ None ∷ None ∷ None ∷ Some true
        ∷ Some true ∷ Some false ∷ [] }
    ensures inbox { item_texts (inbox (records (played with_polls).two) 1)
        ≡ Some (1 ∷ []) ∷ Some (2 ∷ []) ∷ Some (3 ∷ []) ∷ [] }
{}

/// A list that is written anew: a crash inside the call leaves the list that stood or the fresh one, and the message
/// that is sent then comes in its place. The fresh list begins behind the one that stood, and the next one before it.
pub fn a_list_is_written_anew()
    ensures stood { length (played (with_a_fresh_list false)).one.entries ≡ 10 }
    ensures fresh { length (played (with_a_fresh_list true)).one.entries ≡ 5 }
    ensures inbox { item_texts (inbox (records (played (with_a_fresh_list true)).two) 1)
        ≡ Some (1 ∷ []) ∷ Some (2 ∷ []) ∷ Some (3 ∷ []) ∷ Some (4 ∷ []) ∷ [] }
    ensures behind { (played (with_fresh_lists 1)).one.start ≡ 72 }
    ensures before { (played (with_fresh_lists 2)).one.start ≡ 25 }
{}

/// Two of three messages are consumed: the inbox has all three.
pub fn what_is_consumed()
    ensures two { length (played with_consumption).two.entries ≡ 6 }
    ensures cursor { cursor (records (played with_consumption).two) 1 ≡ 2 }
    ensures inbox { item_texts (inbox (records (played with_consumption).two) 1)
        ≡ Some (1 ∷ []) ∷ Some (2 ∷ []) ∷ Some (3 ∷ []) ∷ [] }
{}

/// When both lists are written anew then, the consumed messages are gone at the destination, and the acknowledged ones
/// at the source; both keep their numbers, and the application goes on where it was.
pub fn what_is_consumed_is_gone()
    ensures one { length (played with_gone_items).one.entries ≡ 4 }
    ensures count { accepted_count (records (played with_gone_items).one) 1 ≡ 3 }
    ensures two { length (played with_gone_items).two.entries ≡ 4 }
    ensures inbox { item_texts (inbox (records (played with_gone_items).two) 1)
        ≡ None ∷ None ∷ Some (3 ∷ []) ∷ [] }
    ensures refused { outcome_of example_terms (played with_gone_items) (Consume Two 1 4)
        ≡ Called (Answered (Refused (PastInbox 3))) }
    ensures again { outcome_of example_terms (played with_gone_items) (Consume Two 1 2) ≡ Called (Answered Done) }
    ensures next { cursor (records (happens example_terms (played with_gone_items) (Consume Two 1 3)).two) 1 ≡ 3 }
    ensures consumed { texts (consumed (played with_gone_items).two.whole 1) ≡ (1 ∷ []) ∷ (2 ∷ []) ∷ [] }
{}

/// A crash loses the messages that wait, and the request that comes again gets the same response.
pub fn a_crash_loses_what_waits()
    ensures two { length (played with_a_lost_message).two.entries ≡ 2 }
    ensures packets { pendings (played with_a_lost_message) ≡ None ∷ None ∷ Some false ∷ [] }
{}

/// What holds of two nodes of different numbers, and of all that each of them said, is kept by whatever befalls one of
/// them: each of its calls, a crash inside one too, and each message that comes, be it the other's or a stranger's. A
/// stranger's message names no sequence of the two where it has data, acknowledges or ends, is no CreateSequence with a
/// MessageID that the other one issues, and answers none between them. Which records a node added or is writing is told
/// too: an item that was accepted is one record, what a message brings is of the receiving table, and what was fetched
/// had waited there.
pub fn two_nodes_stay_a_pair()
    ensures { StaysAPair }
{
    a_snapshot_keeps_all();
    a_snapshot_fits();
    a_snapshot_is_proper();
}

/// A node announces the same for all sequences that it grants, as long as nothing else is to be announced.
pub fn what_is_announced_stays()
    ensures { AnnouncesStill }
{}

/// A pair is one the other way round.
pub fn a_pair_turns()
    ensures { PairsTurn }
{}

/// What the one released on a sequence between the two is a prefix of what the other accepted on its match, and the one
/// issued the identifiers of what the other sends on to it.
pub fn a_pair_tells()
    ensures { APairTells }
{}

/// No text is issued by two nodes. Their numbers are different and below 2^60, and the numbers that they draw below
/// 2^62.
pub fn an_identifier_tells_its_node()
    ensures { IssuedByOne }
{}

/// Two nodes that were just made are a pair.
pub fn two_made_nodes_are_a_pair()
    ensures { MadeAreAPair }
{}

/// No record of a pair, and no message with data, CloseSequence or TerminateSequence that one of the two sent or keeps
/// for a node that polls, has an identifier or a message id that one of the two has yet to issue. What comes from a
/// stranger keeps it so where its CreateSequence or CreateSequenceResponse names none such either.
pub fn a_pair_names_nothing_to_come()
    ensures stays { StaysSettled }
    ensures made { MadeAreSettled }
{
    two_nodes_stay_a_pair();
    an_identifier_tells_its_node();
    one_number_one_identifier();
}
