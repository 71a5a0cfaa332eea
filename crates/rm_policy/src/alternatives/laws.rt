//! Laws of normal forms, each the contract of a function that does nothing but to bring in the laws that it stands on.
ghost use Rattle.std.specs.Prelude.{◌≡◌, ◌↔◌, ℕ, List, Ok, Err};
ghost use Rattle.rm_policy.specs.Alternatives.Finds.{FindsCommon, FindsNormal};
ghost use Rattle.rm_policy.specs.Alternatives.Laws.{AdmitSame};
ghost use Rattle.rm_policy.specs.Alternatives.Normal.{IsNormal};
ghost use Rattle.rm_policy.specs.Alternatives.Reading.{ReadsAs, policy_of};
ghost use Rattle.rm_policy.specs.Alternatives.Texts.{AreNamed, normal_text};
ghost use Rattle.rm_policy.specs.Alternatives.Tree.{Policy as ATree};
ghost use Rattle.rm_policy.specs.declared.alternatives.error.WspError.{WspError as AnError};
ghost use Rattle.rm_policy.specs.declared.alternatives.error.WspError.TheVariants.{Memory as WantsMemory};
ghost use Rattle.rm_policy.specs.declared.alternatives.term.Term.{Term as ATerm};

use soap_document::laws::one_tree;
use soap_writer::stripped::laws::elements_may_be_written;

/// A policy has one normal form at most, and two policies have the same exactly where they admit the same sets.
pub fn normal_forms_tell()
    ensures same { (p q : ATree) (list : List (List ATerm)) → IsNormal p list → IsNormal q list → AdmitSame p q }
    ensures one { (p q : ATree) (list other : List (List ATerm)) → IsNormal p list → IsNormal q other → AdmitSame p q
        → list ≡ other }
{}

/// The texts of two normal forms are one exactly where both policies admit the same sets. No local name may have a
/// brace, as no NCName has.
pub fn normal_texts_tell()
    ensures { (p q : ATree) (list other : List (List ATerm)) → IsNormal p list → IsNormal q other → AreNamed list
        → AreNamed other → (normal_text list ≡ normal_text other) ↔ AdmitSame p q }
{}

/// Where normal forms are found of the bytes of two policies, their texts are one exactly where both policies admit the
/// same sets: what was read is named as documents name elements.
pub fn texts_of_what_is_read_tell()
    ensures named { (bytes : List ℕ) (lists : List (List ATerm)) → FindsNormal bytes (Ok lists) → AreNamed lists }
    ensures tell { (one other : List ℕ) (p q : ATree) (lists others : List (List ATerm)) → ReadsAs policy_of one (Ok p)
        → ReadsAs policy_of other (Ok q) → FindsNormal one (Ok lists) → FindsNormal other (Ok others)
        → (normal_text lists ≡ normal_text others) ↔ AdmitSame p q }
{
    one_tree();
    elements_may_be_written();
}

/// Of bytes of which alternatives are found, by either call, nothing is refused but for a want of memory.
pub fn what_is_found_is_not_refused()
    ensures normal { (bytes : List ℕ) (lists : List (List ATerm)) (error : AnError) → FindsNormal bytes (Ok lists)
        → FindsNormal bytes (Err error) → error ≡ WantsMemory }
    ensures common { (bytes : List ℕ) (lists : List (List ATerm)) (error : AnError) → FindsCommon bytes (Ok lists)
        → FindsCommon bytes (Err error) → error ≡ WantsMemory }
{
    one_tree();
}
