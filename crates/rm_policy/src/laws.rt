//! Laws of assertions, each the contract of a function that does nothing but to bring in the laws that it stands on.

ghost use Rattle.std.specs.Prelude.{◌≡◌, ◌≢◌, ℕ, List, Result, Ok, Err};
ghost use Rattle.rm_policy.specs.Assertion.{IsWritable};
ghost use Rattle.rm_policy.specs.Reading.{ReadsAs, Reads};
ghost use Rattle.rm_policy.specs.Texts.{assertion_text};
ghost use Rattle.rm_policy.specs.declared.assertion.Assertion.{Assertion as AnAssertion};
ghost use Rattle.rm_policy.specs.declared.error.PolicyError.{PolicyError as AnError};
ghost use Rattle.rm_policy.specs.declared.error.PolicyError.TheVariants.{Memory as WantsMemory};

use soap_document::laws::{document_is_read, document_is_utf8, one_tree};

/// A document is read in one way.
pub fn one_reading()
    ensures { (bytes : List ℕ) (one other : Result AnAssertion AnError) → ReadsAs bytes one → ReadsAs bytes other
        → one ≡ other }
{
    one_tree();
}

/// Of bytes comes one answer, where memory doesn't run out.
pub fn one_answer()
    ensures { (bytes : List ℕ) (one other : Result AnAssertion AnError) → Reads bytes one → Reads bytes other
        → one ≢ Err WantsMemory → other ≢ Err WantsMemory → one ≡ other }
{
    one_tree();
}

/// What is written of an assertion is read as it.
pub fn assertion_is_read_back()
    ensures { (a : AnAssertion) → IsWritable a → ReadsAs (assertion_text a) (Ok a) }
{
    document_is_read();
    document_is_utf8();
}
