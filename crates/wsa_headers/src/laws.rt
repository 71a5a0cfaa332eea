//! Laws of what is written, each the contract of a function that does nothing but to bring in the law that it stands
//! on.

ghost use Rattle.std.specs.Prelude.{◌≡◌, ◌≤◌, ◌++◌, ℕ, List, Ok, Some, true};
ghost use Rattle.std.specs.List.{AllByRecursion};
ghost use Rattle.soap_document.specs.Profile.Tree.{Element as Tree};
ghost use Rattle.soap_writer.specs.Frame.{frame_scope};
ghost use Rattle.soap_writer.specs.ReadBack.{written_tree};
ghost use Rattle.soap_writer.specs.Nodes.Good.{AreGood};
ghost use Rattle.soap_writer.specs.Nodes.Node.{nodes_tree};
ghost use Rattle.wsa_headers.specs.Addressing.{is_marked, addressing_in};
ghost use Rattle.wsa_headers.specs.Endpoint.{epr_in};
ghost use Rattle.wsa_headers.specs.Texts.{epr_nodes, addressing_nodes};
ghost use Rattle.wsa_headers.specs.Writable.{
  IsEprWritable,
  IsAddressingWritable,
  addressing_blocks,
  IsAddressingBlock,
  IsForeign,
};
ghost use Rattle.wsa_headers.specs.declared.addressing.Addressing.{Addressing as Properties};
ghost use Rattle.wsa_headers.specs.declared.endpoint.Epr.{Epr as Reference};

use soap_writer::laws::written_tree_is_the_tree;

/// What is written for an endpoint reference is read back as it, whatever the namespace of SOAP.
pub fn epr_is_read_back()
    ensures { (soap : List ℕ) (x : Reference) → IsEprWritable x → epr_in (nodes_tree soap (epr_nodes x)) ≡ Some x }
{
    written_tree_is_the_tree();
}

/// It is content that may stand in a frame, within at most nine elements.
pub fn epr_is_good()
    ensures { (soap : List ℕ) (x : Reference) (depth : ℕ) → IsEprWritable x → depth ≤ 9
        → AreGood soap depth (frame_scope soap) (epr_nodes x) }
{}

/// The blocks that are written for the properties of a message are read back as these, whatever other blocks stand
/// behind them in the header.
pub fn addressing_is_read_back()
    ensures { (soap : List ℕ) (a : Properties) (others : List Tree) → IsAddressingWritable a
        → AllByRecursion IsForeign others → addressing_in (addressing_blocks soap a ++ others) ≡ Ok a }
{
    written_tree_is_the_tree();
}

/// They are nodes that may stand in the header of a frame.
pub fn addressing_is_good()
    ensures { (soap : List ℕ) (a : Properties) → IsAddressingWritable a
        → AreGood soap 2 (frame_scope soap) (addressing_nodes a) }
{}

/// Each of these blocks is a parameter, and nothing else, or in the namespace of WS-Addressing; a parameter is marked.
pub fn addressing_blocks_are_told()
    ensures own { (soap : List ℕ) (a : Properties) → AllByRecursion IsAddressingBlock (addressing_blocks soap a) }
    ensures marked { (param : Tree) → is_marked (written_tree true param) ≡ true }
{}
