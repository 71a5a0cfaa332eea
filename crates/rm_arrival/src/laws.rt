//! Laws of arrival.
ghost use Rattle.std.specs.Prelude.{◌≡◌, ◌∷◌, [], Some, codes, false, length, true};
ghost use Rattle.record_batch.specs.Sequences.Destinations.{is_over};
ghost use Rattle.record_batch.specs.Sequences.Find.{acks_to, find_incoming, plain_endpoint};
ghost use Rattle.record_batch.specs.Sequences.Fits.{all_fit};
ghost use Rattle.record_batch.specs.Sequences.Idents.{issue};
ghost use Rattle.record_batch.specs.Sequences.Sources.{acked};
ghost use Rattle.rm_protocol.specs.Examples.{example_terms};
ghost use Rattle.rm_protocol.specs.Node.{records};
ghost use Rattle.rm_protocol.specs.Waiting.{is_waiting, key};
ghost use Rattle.rm_protocol.specs.World.{One, run};
ghost use Rattle.rm_sides.specs.Ranges.Ranges.{in_ranges};
ghost use Rattle.rm_arrival.specs.Examples.{a_fair_round, a_quiet_round, a_waiting_source};
ghost use Rattle.rm_arrival.specs.Examples.{an_open_destination, with_one_lost};
ghost use Rattle.rm_arrival.specs.Requests.{RequestIsSaid, ResponsesEnd, WaitingHasRequest};
ghost use Rattle.rm_arrival.specs.Round.{AckEndsTheWait, ArrivesInARound, DueIsSaid, HeldIsAcked, WaitEndsForGood};
ghost use Rattle.rm_arrival.specs.Round.{AckIsTaken, DataIsTaken, FewAreAllEmitted, WaitingHasData};
ghost use Rattle.rm_arrival.specs.Fair.{ARoundBrings, IsFair};
ghost use Rattle.rm_arrival.specs.Few.{ARoundBringsAFew};
ghost use Rattle.rm_arrival.specs.Near.{AcceptedIsNear, AllArrives, AreRounds, EachRunIsNear, rounds_for};
ghost use Rattle.rm_arrival.specs.Nodes.{ARoundOfNodes, TakesWhole};
ghost use Rattle.rm_arrival.specs.Plain.{NoEndIsSaid};
ghost use Rattle.rm_arrival.specs.Round.{WaitsAreTimely};
ghost use Rattle.rm_arrival.specs.Rounds.{EachHasItsTurn, EachMessageArrives, NoNackWaits, TwoPassesArrive};
ghost use Rattle.rm_arrival.specs.Runs.{AFewArrive, EachRunWaitsRight};

use record_batch::snapshot::{a_snapshot_knows_all, numbers_are_from_one};
use rm_protocol::laws::{
    each_record_may_come_next, every_run_keeps_the_word, every_step_keeps_the_agreement,
    only_what_was_heard_is_recorded, records_leave_other_keys, what_begins_waits,
    what_waits_is_exact_in_short, what_waits_stays_exact,
};
use rm_sides::destination::laws::front_is_reached;
use rm_sides::ranges::union_has_both;

/// What is acknowledged waits no more, whatever records come behind.
pub fn what_is_acknowledged_waits_no_more()
    ensures { WaitEndsForGood }
{}

/// An acknowledgement that names the number of a message ends its wait.
pub fn an_acknowledgement_ends_the_wait()
    ensures { AckEndsTheWait }
{}

/// Data that is delivered is held, and what is said to it is one acknowledgement, which names its number.
pub fn what_is_held_is_acknowledged()
    ensures { HeldIsAcked }
{}

/// One message, one round: the message that a tick says for a key, delivered, is held, and the answer, delivered, ends
/// the wait of that key for good.
pub fn a_message_arrives_in_a_round()
    ensures { ArrivesInARound }
{}

/// A message that waits is there to be sent: its sequence has a peer and an identifier, and its payload is not gone.
pub fn what_waits_is_there()
    ensures { WaitingHasData }
{}

/// Of the keys that a tick emits, each of a message that waits is said as its data.
pub fn what_is_due_is_said()
    ensures { DueIsSaid }
{}

/// A request that waits is there to be said: a CreateSequence, a CloseSequence or a TerminateSequence.
pub fn what_asks_is_there()
    ensures { WaitingHasRequest }
{}

/// Of the keys that a tick emits, each of a request that waits is said as that request.
pub fn what_asks_is_said()
    ensures { RequestIsSaid }
{}

/// The row of the response to a request ends its wait.
pub fn a_response_ends_the_wait()
    ensures { ResponsesEnd }
{}

/// Data that a destination can take gets no fault, where its sequence is not ended and the store has room.
pub fn data_gets_no_fault()
    ensures { DataIsTaken }
{}

/// An acknowledgement of a sequence of ours gets none either, where none of its numbers is too great.
pub fn an_acknowledgement_gets_no_fault()
    ensures { AckIsTaken }
{}

/// Where at most 64 keys are due, a tick emits each of them.
pub fn a_tick_emits_all_of_a_few()
    ensures { FewAreAllEmitted }
{}

/// What these laws ask for can be met: a message waits, and the sequence that it is for is open and knows its AcksTo.
pub fn a_message_that_waits()
    ensures fit { all_fit [] a_waiting_source ≡ true }
    ensures waits { is_waiting a_waiting_source (key 1 1) ≡ true }
    ensures found { find_incoming an_open_destination (issue 2 1) ≡ Some 1 }
    ensures back { acks_to an_open_destination 1 ≡ Some (plain_endpoint (codes "urn:a")) }
    ensures open_ { is_over an_open_destination 1 0 ≡ false }
{}

/// A round can be fair: after a message was lost, the tick says it again, it is delivered, and the answer comes.
pub fn a_round_that_is_fair()
    ensures fair { IsFair example_terms with_one_lost a_fair_round }
    ensures acked { in_ranges (acked (records (run example_terms a_fair_round with_one_lost).one) 1) 1 ≡ true }
{}

/// The rounds that bring all can be: after a message was lost a fair round brings it, and one more, in which nothing is
/// said, is fair. Two are enough for one key, and no Nack waits.
pub fn rounds_that_bring_all()
    ensures rounds { AreRounds example_terms with_one_lost.packets with_one_lost One
        (a_fair_round ∷ a_quiet_round ∷ []) }
    ensures enough { rounds_for (length with_one_lost.one.waits) ≡ 2 }
    ensures waits { NoNackWaits with_one_lost }
{}

/// What waits is due within 64 seconds of a node's time, after a mount and after each call: a tick 64 seconds after the
/// last one finds all of it due.
pub fn what_waits_is_due_in_64_seconds()
    ensures { WaitsAreTimely }
{}

/// A node that stands takes a message without a verdict whole: the records of its rows are there, and what the protocol
/// says at them is said.
pub fn a_node_that_stands_takes_a_message()
    ensures { TakesWhole }
{}

/// One message, one round, of two nodes that stand and whose stores have room: what a tick says for a key, delivered,
/// is held, and the one answer, delivered at the node of its source however that stands by then, ends the wait for
/// good.
pub fn a_message_arrives_in_a_round_of_nodes()
    ensures { ARoundOfNodes }
{}

/// A message that a tick of a fair round emits is acknowledged at the end of the round, whatever was lost before, where
/// it is within the window and its sequence is open then.
pub fn a_fair_round_brings_a_message()
    ensures { ARoundBrings }
{
    every_step_keeps_the_agreement();
    each_record_may_come_next();
    records_leave_other_keys();
    numbers_are_from_one();
    front_is_reached();
    union_has_both();
}

/// Where at most 64 keys are due at a side, what its source had accepted, up to the end of the window, is acknowledged
/// at the end of one fair round.
pub fn a_fair_round_brings_a_few()
    ensures { ARoundBringsAFew }
{
    every_step_keeps_the_agreement();
    each_record_may_come_next();
    records_leave_other_keys();
    numbers_are_from_one();
    front_is_reached();
    union_has_both();
}

/// In each world of a run, the keys that wait at a node that is up are those of its records, and each is due within 64
/// seconds of the node's time.
pub fn each_run_waits_right()
    ensures { EachRunWaitsRight }
{
    every_step_keeps_the_agreement();
    what_waits_stays_exact();
    what_waits_is_exact_in_short();
    what_begins_waits();
    only_what_was_heard_is_recorded();
}

/// From each world that a script reaches in which both nodes stand, whatever was lost, repeated and reordered before
/// and whoever crashed: what a source had accepted, up to the end of the window, has arrived at the end of one fair
/// round, where at most 64 keys wait at its node, all of them due, and the sequence is open then.
pub fn what_was_accepted_arrives()
    ensures { AFewArrive }
{
    every_run_keeps_the_word();
    every_step_keeps_the_agreement();
    what_waits_stays_exact();
    what_waits_is_exact_in_short();
    what_begins_waits();
    only_what_was_heard_is_recorded();
    each_record_may_come_next();
    records_leave_other_keys();
    numbers_are_from_one();
    front_is_reached();
    union_has_both();
}

/// Each key has its turn: after enough fair rounds what a source had accepted, up to the end of the window, is
/// acknowledged, however many keys wait at its node, where its sequence is open.
pub fn each_key_has_its_turn()
    ensures { EachHasItsTurn }
{
    every_step_keeps_the_agreement();
    what_waits_stays_exact();
    what_waits_is_exact_in_short();
    what_begins_waits();
    only_what_was_heard_is_recorded();
    each_record_may_come_next();
    records_leave_other_keys();
    numbers_are_from_one();
    front_is_reached();
    union_has_both();
}

/// From each world that a script reaches in which both nodes stand, whatever was lost, repeated and reordered before
/// and whoever crashed: what a source had accepted, up to the end of the window, has arrived after enough fair rounds,
/// where its sequence is open.
pub fn each_message_arrives()
    ensures { EachMessageArrives }
{
    every_run_keeps_the_word();
    every_step_keeps_the_agreement();
    what_waits_stays_exact();
    what_waits_is_exact_in_short();
    what_begins_waits();
    only_what_was_heard_is_recorded();
    each_record_may_come_next();
    records_leave_other_keys();
    numbers_are_from_one();
    front_is_reached();
    union_has_both();
}

/// Two passes of enough fair rounds bring what is up to two windows past the front: in the first the window moves.
pub fn two_passes_bring_two_windows()
    ensures { TwoPassesArrive }
{
    every_run_keeps_the_word();
    every_step_keeps_the_agreement();
    what_waits_stays_exact();
    what_waits_is_exact_in_short();
    what_begins_waits();
    only_what_was_heard_is_recorded();
    each_record_may_come_next();
    records_leave_other_keys();
    numbers_are_from_one();
    front_is_reached();
    union_has_both();
}

/// In each world of a run no source has more messages without an acknowledgement than a window, and no destination
/// holds a number that is more than a window past its front.
pub fn each_run_is_near()
    ensures { EachRunIsNear }
{
    every_step_keeps_the_agreement();
    only_what_was_heard_is_recorded();
    numbers_are_from_one();
    front_is_reached();
    union_has_both();
    a_snapshot_knows_all();
}

/// In each world that a script reaches in which both nodes stand, what a source had accepted is at most two windows
/// past the front of its destination.
pub fn what_was_accepted_is_near()
    ensures { AcceptedIsNear }
{
    every_run_keeps_the_word();
    every_step_keeps_the_agreement();
    only_what_was_heard_is_recorded();
    numbers_are_from_one();
    front_is_reached();
    union_has_both();
    a_snapshot_knows_all();
}

/// From each world that a script reaches in which both nodes stand, whatever was lost, repeated and reordered before
/// and whoever crashed: all that a source had accepted has arrived after so many fair rounds, where its sequence is
/// open.
pub fn all_that_was_accepted_arrives()
    ensures { AllArrives }
{
    every_run_keeps_the_word();
    every_step_keeps_the_agreement();
    what_waits_stays_exact();
    what_waits_is_exact_in_short();
    what_begins_waits();
    only_what_was_heard_is_recorded();
    each_record_may_come_next();
    records_leave_other_keys();
    numbers_are_from_one();
    front_is_reached();
    union_has_both();
    a_snapshot_knows_all();
}

/// Of a sequence that is open a tick says no CloseSequence and no TerminateSequence, and what is said to a message
/// without a verdict has no final acknowledgement of it.
pub fn no_end_is_said_of_what_is_open()
    ensures { NoEndIsSaid }
{}
