//! What a list of a node's records says in short: its snapshot, a shorter list by which all that is known of the node
//! and its sequences is the same, but for payloads that are gone. Gone are those that were accepted and are
//! acknowledged, and those that were received and consumed. It has no code but laws.

pub mod laws;

pub use laws::{
    a_destination_with_a_cursor, a_settled_source, a_snapshot_fits, a_snapshot_is_its_own,
    a_snapshot_is_proper, a_snapshot_keeps_all, a_snapshot_knows_all, a_snapshot_says_the_same,
    a_snapshot_writes_sets, facts_are_equal, numbers_are_from_one, one_more_record_keeps_all,
    sets_unite, the_frame_decides, the_inbox_past_the_cursor_is_there, unacked_is_equal,
};
