//! Laws of readers in pieces, each the contract of a function that does nothing.

ghost use Rattle.std.specs.Prelude.{◌≤◌, ◌++◌, ℕ, List, length};
ghost use Rattle.rm_base.specs.Limits.{envelope_bytes};
ghost use Rattle.soap_document.specs.Profile.Document.{Document};
ghost use Rattle.soap_document.specs.Profile.Tree.{Element};
ghost use Rattle.soap_pieces.specs.Hopeless.{BeginsNone, IsHopeless};
ghost use Rattle.soap_envelope.specs.Envelope.{Envelope, IsEnvelope};
ghost use Rattle.soap_envelope.specs.Soap.{soap_space};

use soap_document::laws::{
    content_stands_between, document_is_read, pieces_are_joined, refused_stays,
};

/// What is hopeless stays so, and no envelope begins with it; no document does with what the machine refuses or is too
/// long.
pub fn hopeless_stays()
    ensures stays { (bytes more : List ℕ) → IsHopeless bytes → IsHopeless (bytes ++ more) }
    ensures none { (bytes more : List ℕ) (envelope : Envelope) → IsHopeless bytes
        → length (bytes ++ more) ≤ envelope_bytes → ¬ (IsEnvelope soap_space (bytes ++ more) envelope) }
    ensures no_document { (bytes more : List ℕ) (tree : Element) → BeginsNone bytes
        → length (bytes ++ more) ≤ envelope_bytes → ¬ (Document (bytes ++ more) tree) }
{
    document_is_read();
    pieces_are_joined();
    refused_stays();
    content_stands_between();
}
