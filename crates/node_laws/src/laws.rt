//! Laws of what the records of a node keep, and of what it says, each the contract of a function that does nothing but
//! to bring in the laws that it stands on.
ghost use Rattle.std.specs.Prelude.{◌≡◌};
ghost use Rattle.soap_envelope.specs.Frame.Framed.{sorted_scope};
ghost use Rattle.soap_envelope.specs.Soap.{soap_space};
ghost use Rattle.rm_protocol.specs.Messages.{written_scope};
ghost use Rattle.node_laws.specs.Keeps.{EachCallKeeps, EachIsByTheRules, EachIsReadBack, PollsByTheRules};
ghost use Rattle.node_laws.specs.OwnTerms.{EndsOnce, OwnAreTerms, ThereAreOwnTerms};
ghost use Rattle.node_laws.specs.Records.{HasRoomForKeys, MadeIsKept};

use record_batch::sequences::laws::a_byte_for_each_number;
use rm_protocol::laws::{each_record_may_come_next, what_is_acknowledged_was_accepted};
use rm_sides::ranges::range_is_added;
use rm_wire::laws::{a_fault_keeps_the_rules, what_is_written_is_read};
use soap_document::laws::{content_makes_a_document, document_is_read};

/// Each call of a node keeps its records those of a node: what `mount` accepts before a call it accepts after it. The
/// calls are: create with an address and a duration within the limits, send, close, end, consume, tick, the two calls
/// that ask a peer, poll of an address, and receive of a message as it is read or of a refusal whose fault may be
/// written.
pub fn each_call_keeps_the_records()
    ensures { EachCallKeeps }
{
    range_is_added();
    a_fault_keeps_the_rules();
    each_record_may_come_next();
}

/// Each message that a node says keeps the rules of a message that is written.
pub fn each_message_keeps_the_rules()
    ensures { EachIsByTheRules }
{
    range_is_added();
    a_fault_keeps_the_rules();
    each_record_may_come_next();
}

/// The messages that wait at a node keep them too, and so does what a MakeConnection takes out of them. What is said
/// beside it does so too.
pub fn what_waits_keeps_the_rules()
    ensures { PollsByTheRules }
{}

/// So it is read back as it was said, where its text is no longer than a message may be.
pub fn each_message_is_read_back()
    ensures { EachIsReadBack }
{
    range_is_added();
    a_fault_keeps_the_rules();
    what_is_written_is_read();
    each_record_may_come_next();
}

/// What the protocol asks of its terms holds of a node's own: a batch takes a byte for each number that it draws, a
/// duration ends after it begins, and a refusal is answered with a fault.
pub fn own_terms_are_terms()
    ensures { OwnAreTerms }
{
    a_byte_for_each_number();
}

/// The calendar tells one moment for the end of a duration, or none, so that a node's own terms tell what `deadline`
/// of `rm_message::elements` computes.
pub fn a_duration_ends_once()
    ensures { EndsOnce }
{}

/// There are such terms, over whatever network.
pub fn there_are_own_terms()
    ensures { ThereAreOwnTerms }
{
    document_is_read();
    content_makes_a_document();
}

/// The record of a node that was just made is that of a node.
pub fn a_made_node_has_its_records()
    ensures { MadeIsKept }
{}

/// The bindings that the protocol has around a payload are those of a frame.
pub fn written_scope_is_the_frames()
    ensures { written_scope ≡ sorted_scope soap_space }
{}

/// At most `MOST_KEYS` keys wait at a node. These are a message that is not acknowledged where messages are sent again,
/// and a request of each sequence.
pub fn a_node_has_room_for_its_keys()
    ensures { HasRoomForKeys }
{
    range_is_added();
    what_is_acknowledged_was_accepted();
}
