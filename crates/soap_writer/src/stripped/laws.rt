//! Laws of documents, each the contract of a function that does nothing.

ghost use Rattle.std.specs.Prelude.{◌≡◌, ◌<◌, ◌^◌, ℕ, List, length, Some};
ghost use Rattle.rm_base.specs.declared.message.Binding.{Binding};
ghost use Rattle.soap_document.specs.Grammar.{IsQName};
ghost use Rattle.soap_document.specs.Profile.Document.{Document};
ghost use Rattle.soap_document.specs.Profile.Namespaces.{element_name};
ghost use Rattle.soap_document.specs.Profile.Tree.{Element};
ghost use Rattle.soap_document.specs.declared.profile.name.Expanded.{Expanded};
ghost use Rattle.soap_writer.specs.Writable.{IsNameWritable};
ghost use Rattle.soap_writer.specs.Stripped.Resolved.{AreInForce, IsResolved};

/// What a name means, as that of an element or in a value, may be written, where prefixes are bound as they may be.
pub fn names_may_be_written()
    ensures { (scope : List Binding) (written : List ℕ) (name : Expanded) → AreInForce scope → IsQName written
        → element_name scope written ≡ Some name → IsNameWritable name }
{}

/// The root of a document, and so each element in it, may be written without its declarations, where a machine can
/// count the bytes of the document. Prefixes are bound there as they may be (`may_bind`), and at most 100 elements are
/// in one another.
pub fn elements_may_be_written()
    ensures { (bytes : List ℕ) (tree : Element) → Document bytes tree → length bytes < 2 ^ 64 → IsResolved 0 tree }
{}
