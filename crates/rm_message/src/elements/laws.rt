//! Laws of what is written, each the contract of a function that does nothing but to bring in the law that it stands
//! on.

ghost use Rattle.std.specs.Prelude.{◌≡◌, ℕ, List, Ok, None, Some};
ghost use Rattle.soap_document.specs.Profile.Tree.{Element as Tree, name_of};
ghost use Rattle.soap_writer.specs.Frame.{addressing_space, frame_scope};
ghost use Rattle.soap_writer.specs.Nodes.Good.{IsGood};
ghost use Rattle.soap_writer.specs.Nodes.Node.{node_tree};
ghost use Rattle.wsa_headers.specs.Writable.{IsForeign};
ghost use Rattle.rm_message.specs.Elements.Deadline.{IsZero};
ghost use Rattle.rm_message.specs.Elements.Duration.{duration_in};
ghost use Rattle.rm_message.specs.Elements.Headers.{header_of};
ghost use Rattle.rm_message.specs.Elements.Lifecycle.{lifecycle_of};
ghost use Rattle.rm_message.specs.Elements.Texts.{header_node, lapse_text, lifecycle_node};
ghost use Rattle.rm_message.specs.Elements.Writable.{IsHeaderWritable, IsLapseWritable, IsLifecycleWritable};
ghost use Rattle.rm_message.specs.declared.elements.header.Header.{Header as Value};
ghost use Rattle.rm_base.specs.declared.lapse.Lapse.{Lapse as Duration};
ghost use Rattle.rm_message.specs.declared.elements.lifecycle.Lifecycle.{Lifecycle as Body};

use wsa_headers::{epr_is_good, epr_is_read_back};

/// What is written for a header block is read back as it, whatever the namespace of SOAP.
pub fn header_is_read_back()
    ensures { (soap : List ℕ) (h : Value) → IsHeaderWritable h
        → header_of (node_tree soap (header_node h)) ≡ Ok (Some h) }
{}

/// It is a node that may stand in the header of a frame.
pub fn header_is_good()
    ensures { (soap : List ℕ) (h : Value) → IsHeaderWritable h → IsGood soap 2 (frame_scope soap) (header_node h) }
{}

/// A header block of these is none of addressing, and one in the namespace of WS-Addressing is none of these.
pub fn header_is_foreign()
    ensures foreign { (soap : List ℕ) (h : Value) → IsForeign (node_tree soap (header_node h)) }
    ensures no_header { (e : Tree) → (name_of e).space ≡ addressing_space → header_of e ≡ Ok None }
{}

/// A duration that is not zero is read back as it was written; one that is zero is not written.
pub fn lapse_is_read_back()
    ensures { (lapse : Duration) → IsLapseWritable lapse → ¬ (IsZero lapse)
        → duration_in (lapse_text lapse) ≡ Some lapse }
{}

/// What is written for a body element is read back as it, whatever the namespace of SOAP.
pub fn lifecycle_is_read_back()
    ensures { (soap : List ℕ) (l : Body) → IsLifecycleWritable l
        → lifecycle_of (node_tree soap (lifecycle_node l)) ≡ Ok (Some l) }
{
    epr_is_read_back();
}

/// It is a node that may stand in the body of a frame.
pub fn lifecycle_is_good()
    ensures { (soap : List ℕ) (l : Body) → IsLifecycleWritable l
        → IsGood soap 2 (frame_scope soap) (lifecycle_node l) }
{
    epr_is_good();
}
