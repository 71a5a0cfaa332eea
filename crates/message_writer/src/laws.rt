//! Laws of the text of a message, each the contract of a function that does nothing but to bring in the laws that it
//! stands on.
ghost use Rattle.std.specs.Prelude.{◌≡◌, ℕ, List, map};
ghost use Rattle.std.specs.List.{AllByRecursion};
ghost use Rattle.soap_envelope.specs.Envelope.{IsEnvelope};
ghost use Rattle.soap_envelope.specs.Soap.{soap11_space};
ghost use Rattle.soap_envelope.specs.Frame.Framed.{IsBlock, MayBeSoap, bytes_of, framed_envelope, trees_of};
ghost use Rattle.soap_writer.specs.Nodes.Node.{node_tree};
ghost use Rattle.rm_message.specs.declared.message.Message.{Message as Value};
ghost use Rattle.message_writer.specs.Rules.{HeaderKeepsRules, KeepsRules, header_trees, message_envelope};
ghost use Rattle.message_writer.specs.Rules.{written_blocks};
ghost use Rattle.message_writer.specs.Text.{blocks_text, header_blocks, message_text};
ghost use Rattle.message_writer.specs.Text11.{
  header11_blocks,
  body11_text,
  body11_parts,
  message11_text,
};

use rm_message::elements::{header_is_good, lifecycle_is_good};
use soap_envelope::frame::laws::{closed_content_is_read_alike, frame_is_an_envelope};
use soap_writer::laws::content_is_read_back;
use soap_writer::nodes::laws::node_is_read_back;
use wsa_headers::addressing_is_good;

/// The text of a message that keeps the rules is an envelope: its header blocks are the trees of the message's blocks
/// in order, its payload is what was written in Body, to the byte, and both stand within the bindings of a frame.
pub fn text_is_an_envelope()
    ensures { (soap : List ℕ) (m : Value) (rules : KeepsRules soap m) → MayBeSoap soap
        → IsEnvelope soap (message_text soap m) (message_envelope soap m rules) }
{
    addressing_is_good();
    header_is_good();
    lifecycle_is_good();
    node_is_read_back();
    content_is_read_back();
    closed_content_is_read_alike();
    frame_is_an_envelope();
}

/// The header blocks of a message are blocks of a frame.
pub fn header_blocks_are_read_back()
    ensures each { (soap : List ℕ) (m : Value) → HeaderKeepsRules m
        → AllByRecursion (IsBlock soap) (written_blocks soap m) }
    ensures bytes { (soap : List ℕ) (m : Value) → bytes_of (written_blocks soap m) ≡ blocks_text (header_blocks m) }
    ensures trees { (soap : List ℕ) (m : Value) → trees_of (written_blocks soap m) ≡ header_trees soap m }
{
    addressing_is_good();
    header_is_good();
    lifecycle_is_good();
    node_is_read_back();
    content_is_read_back();
    closed_content_is_read_alike();
    frame_is_an_envelope();
}

/// So it is with the text of a message in SOAP 1.1.
pub fn text11_is_an_envelope()
    ensures { (m : Value) (rules : KeepsRules soap11_space m) → IsEnvelope soap11_space (message11_text m)
        (framed_envelope soap11_space (map (node_tree soap11_space) (header11_blocks m)) (body11_text m.body)
        (body11_parts m.body rules.body)) }
{
    addressing_is_good();
    header_is_good();
    lifecycle_is_good();
    node_is_read_back();
    content_is_read_back();
    closed_content_is_read_alike();
    frame_is_an_envelope();
}
