//! Laws of a relay.
ghost use Rattle.rm_relay.specs.Word.Roles.{IsStrangeToTheOthers};
ghost use Rattle.rm_relay.specs.Word.Word.{EachRelayKeepsItsWord};

use record_batch::sequences::laws::one_number_one_identifier;
use record_batch::snapshot::laws::sets_unite;
use rm_protocol::laws::{
    a_pair_tells, a_pair_turns, an_identifier_tells_its_node, two_made_nodes_are_a_pair,
    two_nodes_stay_a_pair, what_is_acknowledged_was_accepted, what_is_announced_stays,
};
use rm_sides::ranges::ends_are_right;

/// What one node of a relay says is a stranger's message to each other node beside a neighbour that didn't say it. It
/// goes by what is known of the nodes: their numbers and addresses, whom each has sequences with, and who issued their
/// identifiers.
pub fn what_one_says_is_strange_to_the_others()
    ensures { IsStrangeToTheOthers }
{
    an_identifier_tells_its_node();
}

/// Whatever is sent, forwarded, trimmed, lost, repeated and reordered, and whichever node crashes at whichever device
/// call: what node 2 forwarded is a prefix of what it received, and what node 3 has is one of what node 1 accepted, and
/// nothing where node 1 has no sequence that node 2's first incoming one matches. Node 2 consumed no more than it
/// accepted, so the item that is to be forwarded is there once it came. Each number that node 1 counts as acknowledged
/// node 2 received, and each that node 2 does node 3 received. It is so at each three images of the disks.
pub fn every_relay_keeps_its_word()
    ensures { EachRelayKeepsItsWord }
{
    two_nodes_stay_a_pair();
    a_pair_turns();
    a_pair_tells();
    an_identifier_tells_its_node();
    two_made_nodes_are_a_pair();
    what_is_announced_stays();
    ends_are_right();
    sets_unite();
    what_is_acknowledged_was_accepted();
    one_number_one_identifier();
}
