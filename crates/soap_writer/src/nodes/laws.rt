//! Laws of nodes, each the contract of a function that does nothing but to bring in the laws that it stands on.

ghost use Rattle.std.specs.Prelude.{◌≡◌, ℕ, List, [], true, Some};
ghost use Rattle.rm_base.specs.declared.message.Binding.{Binding};
ghost use Rattle.soap_document.specs.Profile.Namespaces.{bound};
ghost use Rattle.soap_writer.specs.Frame.{Prefix, letter, space_of};
ghost use Rattle.soap_writer.specs.Plain.{is_plain_name};
ghost use Rattle.soap_writer.specs.ReadBack.{ReadsAs, ContentReadsAs};
ghost use Rattle.soap_writer.specs.Nodes.Good.{IsGood, AreGood, IsTagGood};
ghost use Rattle.soap_writer.specs.Nodes.Node.{Node, Nodes, framed, node_text, nodes_text, node_tree, nodes_tree};

use crate::laws::{attributes_are_read_back, content_is_read_back, element_is_read_back};

/// A node is read as exactly its tree, declarations included, wherever it stands and whatever the namespace of SOAP.
pub fn node_is_read_back()
    ensures { (soap : List ℕ) (node : Node) (depth at : ℕ) (scope : List Binding) → IsGood soap depth scope node
        → ReadsAs depth at scope (node_text node) (node_tree soap node) }
{
    attributes_are_read_back();
    element_is_read_back();
    content_is_read_back();
}

/// And so are nodes one behind the other.
pub fn nodes_are_read_back()
    ensures { (soap : List ℕ) (nodes : Nodes) (depth at : ℕ) (scope : List Binding) → AreGood soap depth scope nodes
        → ContentReadsAs depth at scope (nodes_text nodes) (nodes_tree soap nodes) }
{
    attributes_are_read_back();
    element_is_read_back();
    content_is_read_back();
}

/// A tag without notes is good where its prefix is bound as a frame binds it.
pub fn tag_is_good()
    ensures { (soap : List ℕ) (scope : List Binding) (prefix : Prefix) (local : List ℕ) → is_plain_name local ≡ true
        → bound (letter prefix) scope ≡ Some (space_of soap prefix) → IsTagGood soap scope (framed prefix local) [] }
{}
