//! What follows of what a call does, and of the packets that it hands out.
ghost use Rattle.std.specs.Prelude.{ℕ, List};
ghost use Rattle.record_batch.specs.Fact.{Fact};
ghost use Rattle.rm_protocol.specs.Terms.{Terms};
ghost use Rattle.rm_node.specs.Asked.{Asked, Asks, answer_to, is_connected};
ghost use Rattle.rm_node.specs.Complete.{ComesOut};
ghost use Rattle.rm_node.specs.Keeping.{Keeping};
ghost use Rattle.rm_node.specs.Packets.{IsReplyFirst};
ghost use Rattle.rm_node.specs.declared.call.Call.{Call};

/// Of all that a call says and fetches, one message at most goes back on the connection, and it comes first.
pub fn the_reply_comes_first()
    ensures { (terms : Terms) (r : List Fact) (place now : ℕ) (kept : Keeping) (call : Call) (asked : Asked)
        → Asks call asked → IsReplyFirst (is_connected call) (answer_to terms r place now kept asked) }
{}

/// A call of a node that is up, on a disk whose count of faults does not rise, comes out as the protocol says, unless
/// memory is wanting.
pub fn a_call_comes_out()
    ensures { ComesOut }
{}
