//! What the tables' answers on one sequence come to, in the words of the records.
ghost use Rattle.node_tables.specs.Laws.{IncomingIsAsRecorded, NumberedHasAddress, OutgoingIsAsRecorded};

/// The side that receives, with its numbers, its front, its inbox, its cursor and its phase, is what the records say of
/// it.
pub fn an_incoming_sequence_is_as_recorded()
    ensures { IncomingIsAsRecorded }
{}

/// The side that sends is what the records say of it.
pub fn an_outgoing_sequence_is_as_recorded()
    ensures { OutgoingIsAsRecorded }
{}

/// A node that has a number has an address.
pub fn a_node_with_a_number_has_an_address()
    ensures { NumberedHasAddress }
{}
