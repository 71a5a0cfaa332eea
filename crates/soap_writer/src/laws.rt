//! Laws of what is written, each the contract of a function that does nothing but to bring in the laws that it stands
//! on.

ghost use Rattle.std.specs.Prelude.{◌≡◌, ◌≤◌, ◌++◌, ℕ, List, [], Bool, false, true, map};
ghost use Rattle.std.specs.List.{AllByRecursion};
ghost use Rattle.rm_base.specs.declared.message.Binding.{Binding};
ghost use Rattle.soap_document.specs.Grammar.{IsAttributes, max_depth};
ghost use Rattle.soap_document.specs.declared.attribute.WrittenAttribute.{WrittenAttribute};
ghost use Rattle.soap_lex.specs.Escapes.{escaped_text};
ghost use Rattle.soap_document.specs.Profile.Document.{Document};
ghost use Rattle.soap_document.specs.Profile.Payload.{height};
ghost use Rattle.soap_document.specs.Profile.Tree.{Element, Parts, none, text, child, without_declarations};
ghost use Rattle.soap_writer.specs.ElementText.{element_text};
ghost use Rattle.soap_writer.specs.ReadBack.{ReadsAs, ContentReadsAs, MayStand, with_mark, written_tree};
ghost use Rattle.soap_writer.specs.ReadBack.{elements_text, content_of, IsAttributeWritten, written_attributes};
ghost use Rattle.soap_writer.specs.Writable.{IsWritable, IsTextWritable};

use soap_lex::laws::{text_is_read_back, value_is_read_back};

/// The text of an element is a document, whose tree is the element with the declarations that were written.
pub fn document_is_read_back()
    ensures { (tree : Element) → IsWritable tree → height tree ≤ max_depth
        → Document (element_text false tree) (written_tree false tree) }
{
    text_is_read_back();
    value_is_read_back();
}

/// So it is read wherever it stands within a document where no default namespace is in force, and a marked one with its
/// mark, where `a` is bound to WS-Addressing besides.
pub fn element_is_read_back()
    ensures { (marked : Bool) (tree : Element) (depth at : ℕ) (scope : List Binding) → MayStand marked depth scope tree
        → ReadsAs depth at scope (element_text marked tree) (written_tree marked tree) }
{
    text_is_read_back();
    value_is_read_back();
}

/// And so are elements one behind the other.
pub fn elements_are_read_back()
    ensures { (marked : Bool) (trees : List Element) (depth at : ℕ) (scope : List Binding)
        → AllByRecursion (MayStand marked depth scope) trees
        → ContentReadsAs depth at scope (elements_text marked trees) (content_of (map (written_tree marked) trees)) }
{
    text_is_read_back();
    value_is_read_back();
}

/// But for the declarations, and the mark, what is read is what was written.
pub fn written_tree_is_the_tree()
    ensures plain { (tree : Element) → IsWritable tree → without_declarations (written_tree false tree) ≡ tree }
    ensures marked { (tree : Element) → IsWritable tree
        → without_declarations (written_tree true tree) ≡ with_mark tree }
{}

/// Content is nothing, a text, or an element and content behind it.
pub fn content_is_read_back()
    ensures nothing { (depth at : ℕ) (scope : List Binding) → ContentReadsAs depth at scope [] none }
    ensures words { (depth at : ℕ) (scope : List Binding) (bytes : List ℕ) → IsTextWritable bytes
        → ContentReadsAs depth at scope (escaped_text bytes) (text bytes none) }
    ensures more { (depth at : ℕ) (scope : List Binding) (inner rest : List ℕ) (first : Element) (parts : Parts)
        → ((at : ℕ) → ReadsAs depth at scope inner first) → ((at : ℕ) → ContentReadsAs depth at scope rest parts)
        → ContentReadsAs depth at scope (inner ++ rest) (child first parts) }
{
    text_is_read_back();
    value_is_read_back();
}

/// Attributes of names and characters, each written behind a space, are the attributes of a tag.
pub fn attributes_are_read_back()
    ensures { (attributes : List WrittenAttribute) → AllByRecursion IsAttributeWritten attributes
        → IsAttributes (written_attributes attributes) attributes }
{
    text_is_read_back();
    value_is_read_back();
}
