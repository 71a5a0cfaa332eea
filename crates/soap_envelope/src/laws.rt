//! Laws of envelopes, each the contract of a function that does nothing but to bring in the laws that it stands on.

ghost use Rattle.std.specs.Prelude.{◌≡◌, ◌++◌, ℕ, List, Option};
ghost use Rattle.soap_document.specs.Profile.Tree.{Element, Parts, decls_of};
ghost use Rattle.rm_base.specs.declared.message.Binding.{Binding};
ghost use Rattle.soap_envelope.specs.Envelope.{Envelope, IsEnvelope, IsOutline, StandsFor};
ghost use Rattle.soap_envelope.specs.Refusals.{WrongVersion, NotEnvelope};
ghost use Rattle.soap_envelope.specs.Scope.{IsScope};

use soap_document::laws::{content_stands_between, one_tree};

/// Bindings have at most one scope.
pub fn one_scope()
    ensures { (bindings one other : List Binding) → IsScope bindings one → IsScope bindings other → one ≡ other }
{}

/// Parts have at most one outline.
pub fn one_outline()
    ensures { (soap : List ℕ) (parts : Parts) (header other_header : Option Element) (body other_body : Element)
        → IsOutline soap parts header body → IsOutline soap parts other_header other_body
        → (header ≡ other_header) × (body ≡ other_body) }
{}

/// Bytes are at most one envelope.
pub fn one_envelope()
    ensures { (soap bytes : List ℕ) (one other : Envelope) → IsEnvelope soap bytes one → IsEnvelope soap bytes other
        → one ≡ other }
{
    one_tree();
}

/// No bytes are an envelope, an envelope of another version, or none, two at once. So the refusals are exact but for
/// want of memory.
pub fn one_answer()
    ensures version { (soap bytes : List ℕ) (envelope : Envelope) → IsEnvelope soap bytes envelope
        → ¬ (WrongVersion soap bytes) }
    ensures outline { (soap bytes : List ℕ) (envelope : Envelope) → IsEnvelope soap bytes envelope
        → ¬ (NotEnvelope soap bytes) }
    ensures refusals { (soap bytes : List ℕ) → WrongVersion soap bytes → ¬ (NotEnvelope soap bytes) }
{
    one_tree();
}

/// The payload is content, and the body is what its parts are in the bindings in force there, which the start tags of
/// Body and Envelope declare.
pub fn payload_stands()
    ensures { (soap bytes : List ℕ) (envelope : Envelope) (is : IsEnvelope soap bytes envelope)
        → StandsFor (decls_of is.body ++ is.decls) envelope }
{
    content_stands_between();
}
