//! What follows from the length of a batch.
ghost use Rattle.std.specs.Prelude.{◌≡◌, ◌≢◌, ◌≤◌, ℕ, List, [], length};
ghost use Rattle.std.specs.List.{AllByRecursion};
ghost use Rattle.record_batch.specs.Batch.{batch_text};
ghost use Rattle.record_batch.specs.Fact.{Fact};
ghost use Rattle.record_batch.specs.Writable.{IsBatch, IsShortBatch};
ghost use Rattle.node_laws.specs.Sizes.Size.{batch_size};
ghost use Rattle.node_laws.specs.Sizes.Typed.{AreKept, IsTyped};

use record_batch::laws::parameters_are_read_back;

/// The text of a batch has as many bytes as its parts together.
pub fn a_batch_is_its_parts()
    ensures { (facts : List Fact) → length (batch_text facts) ≡ batch_size facts }
{}

/// A batch whose text has a length of four bytes may be written.
pub fn a_batch_that_fits_is_short()
    ensures { (facts : List Fact) → length (batch_text facts) ≤ 4294967295 → IsShortBatch facts }
{}

/// It is read back, where its values are as their types keep them and its endpoint references may be written.
pub fn a_batch_that_fits_is_read_back()
    ensures { (facts : List Fact) → facts ≢ [] → length (batch_text facts) ≤ 4294967295 → AllByRecursion IsTyped facts
        → AllByRecursion AreKept facts → IsBatch facts }
{
    parameters_are_read_back();
}
