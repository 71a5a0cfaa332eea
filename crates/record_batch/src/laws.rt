//! Laws of batches, each the contract of a function that does nothing but to bring in the laws that it stands on.
ghost use Rattle.std.specs.Prelude.{◌≡◌, ◌≤◌, ℕ, List, Some, length, false};
ghost use Rattle.rm_base.specs.Limits.{envelope_bytes};
ghost use Rattle.soap_document.specs.Grammar.{max_depth};
ghost use Rattle.soap_document.specs.Profile.Payload.{height};
ghost use Rattle.soap_document.specs.Profile.Tree.{Element};
ghost use Rattle.soap_writer.specs.ElementText.{element_text};
ghost use Rattle.soap_writer.specs.Writable.{IsWritable as IsElementWritable};
ghost use Rattle.record_batch.specs.Batch.{batch_at, batch_text};
ghost use Rattle.record_batch.specs.Fact.{Fact};
ghost use Rattle.record_batch.specs.Format.{AreBytes};
ghost use Rattle.record_batch.specs.Writable.{IsBatch, IsParamWritable, IsShortBatch};

use rm_base::laws::texts_are_tested;
use soap_document::laws::document_is_read;
use soap_writer::laws::{document_is_read_back, written_tree_is_the_tree};

/// What is written of a batch whose values keep the rules of their types is read again, and it can be written.
pub fn what_is_written_is_read()
    ensures read { (facts : List Fact) → IsBatch facts → batch_at (batch_text facts) ≡ Some facts }
    ensures short { (facts : List Fact) → IsBatch facts → IsShortBatch facts }
{
    texts_are_tested();
    document_is_read();
}

/// Nothing else is read: bytes are the text of the batch that is read of them. So there is no second one.
pub fn only_what_is_written_is_read()
    ensures text { (bytes : List ℕ) (facts : List Fact) → AreBytes bytes → batch_at bytes ≡ Some facts
        → bytes ≡ batch_text facts }
    ensures rules { (bytes : List ℕ) (facts : List Fact) → AreBytes bytes → batch_at bytes ≡ Some facts
        → IsBatch facts }
{
    texts_are_tested();
    document_is_read();
}

/// A parameter is read back from its text where it may be written, is nested no deeper than documents may be, and its
/// text is no longer than one.
pub fn parameters_are_read_back()
    ensures { (p : Element) → IsElementWritable p → height p ≤ max_depth
        → length (element_text false p) ≤ envelope_bytes → IsParamWritable p }
{
    document_is_read_back();
    written_tree_is_the_tree();
}
