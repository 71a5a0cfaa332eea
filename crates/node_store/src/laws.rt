//! What follows of the batches that a disk and a node have.
ghost use Rattle.std.specs.Prelude.{◌≡◌, ℕ, List, ◌++◌, None};
ghost use Rattle.std.specs.List.{AllByRecursion};
ghost use Rattle.node_laws.specs.Sizes.Room.{HasRoom};
ghost use Rattle.node_laws.specs.Sizes.Typed.{IsTyped};
ghost use Rattle.record_batch.specs.Fact.{Fact};
ghost use Rattle.record_batch.specs.Writable.{IsBatch};
ghost use Rattle.rm_disk.specs.Call.{Call};
ghost use Rattle.rm_disk.specs.Journal.Entries.{Bank};
ghost use Rattle.rm_disk.specs.Journal.JournalState.{end_of};
ghost use Rattle.rm_protocol.specs.Node.{Node, end_of as end_of_batches, records_in};
ghost use Rattle.rm_protocol.specs.Terms.{Terms};
ghost use Rattle.node_laws.specs.OwnTerms.{AreOwn};
ghost use Rattle.node_laws.specs.Records.{AreValues, IsKept};
ghost use Rattle.node_store.specs.Has.{AreOfNode, Has, Holds, StandsForBatches, StandsForBatchesAt};
ghost use Rattle.node_store.specs.Rewrites.{IsRewrittenAs, fresh_batches, rewrite_refusal};
ghost use Rattle.node_store.specs.Stored.{Stored, with_batch};

use node_laws::sizes::laws::a_batch_that_fits_is_read_back;
use node_laws::snapshots::laws::a_snapshot_is_kept;
use record_batch::laws::what_is_written_is_read;

/// Bytes stand for one list of batches, where each is read back from its text.
pub fn bytes_stand_for_one_list_of_batches()
    ensures { (a b : List (List Fact)) (bytes : List ℕ) → AllByRecursion IsBatch a → AllByRecursion IsBatch b
        → StandsForBatches a bytes → StandsForBatches b bytes → a ≡ b }
{
    what_is_written_is_read();
}

/// They do so in one bank.
pub fn bytes_stand_for_batches_in_one_bank()
    ensures { (x y : Bank) (a b : List (List Fact)) (bytes : List ℕ) → StandsForBatchesAt x a bytes
        → StandsForBatchesAt y b bytes → x ≡ y }
{}

/// The next batch begins where the protocol says, whose terms are the node's own.
pub fn a_journal_ends_with_its_batches()
    ensures { (terms : Terms) → AreOwn terms → (batches : List (List Fact)) (past : List Call) (stored : Stored)
        → Holds batches past stored → end_of_batches terms stored.journal.bank.start batches ≡ end_of stored.journal }
{}

/// The records of batches that are read back have values of their types.
pub fn batches_have_values()
    ensures { (batches : List (List Fact)) → AllByRecursion IsBatch batches → AreValues (records_in batches) }
{}

/// The fresh batches of a node are those of a node, where its journal may be written anew: a mount takes them.
pub fn fresh_batches_are_those_of_a_node()
    ensures { (batches : List (List Fact)) (past : List Call) (old : Stored) → Has batches past old
        → rewrite_refusal old ≡ None → AreOfNode (fresh_batches old.records) }
{
    a_batch_that_fits_is_read_back();
    a_snapshot_is_kept();
}

/// A journal is written anew where and whether the protocol says, whose terms are the node's own.
pub fn a_journal_is_rewritten_as_the_protocol_says()
    ensures { (terms : Terms) → AreOwn terms → (batches : List (List Fact)) (past : List Call) (stored : Stored)
        (x : Node) → Holds batches past stored → x.entries ≡ batches → x.start ≡ stored.journal.bank.start
        → IsRewrittenAs terms x stored }
{}

/// The batches of a node, with one more that fits, whose values are as their types keep them, and whose records leave
/// it a node, are a node's.
pub fn a_node_has_one_batch_more()
    ensures { (batches : List (List Fact)) (past : List Call) (old : Stored) (delta : List Fact)
        → Has batches past old → HasRoom (end_of old.journal) delta → AllByRecursion IsTyped delta
        → IsKept (old.records ++ delta) → AreOfNode (with_batch batches delta) }
{
    a_batch_that_fits_is_read_back();
}
