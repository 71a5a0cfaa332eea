//! Laws of messages that are written and read, each the contract of a function that does nothing but to bring in the
//! laws that it stands on.
ghost use Rattle.std.specs.Prelude.{◌≡◌, ◌≢◌, ◌≤◌, ℕ, List, Option, None, Ok, false, IfSome, Contains, length};
ghost use Rattle.rm_base.specs.Limits.{envelope_bytes};
ghost use Rattle.rm_base.specs.declared.message.Binding.{Binding as Bound};
ghost use Rattle.soap_document.specs.Profile.Tree.{Parts};
ghost use Rattle.soap_envelope.specs.Frame.Framed.{MayBeSoap, sorted_scope};
ghost use Rattle.soap_envelope.specs.Frame.Tagged.{tagged_envelope};
ghost use Rattle.soap_envelope.specs.Soap.{soap_space, soap11_space, is_soap11};
ghost use Rattle.soap_writer.specs.Nodes.Node.{node_tree};
ghost use Rattle.wsa_headers.specs.Addressing.{first_of};
ghost use Rattle.soap_writer.specs.Frame.{addressing_space};
ghost use Rattle.rm_message.specs.declared.elements.header.AckBlock.{AckBlock as Acknowledgement};
ghost use Rattle.rm_message.specs.declared.message.Message.{Message as Value};
ghost use Rattle.rm_message.specs.declared.refusal.Refusal.{Refusal as Refused};
ghost use Rattle.rm_message.specs.declared.message.FaultBody.{FaultBody as Said};
ghost use Rattle.message_reader.specs.Faults11.{fault11_in};
ghost use Rattle.message_reader.specs.Headers.{sequence_fault_of};
ghost use Rattle.message_reader.specs.Message.{message_in};
ghost use Rattle.message_reader.specs.Refusals.{Spells, Refuses};
ghost use Rattle.message_writer.specs.Faults.{fault_of};
ghost use Rattle.message_writer.specs.Faults11.{fault11_node, ahead_nodes, IsFault11};
ghost use Rattle.message_writer.specs.Rules.{HeaderKeepsRules, KeepsRules, IsFaultWritable, header_trees};
ghost use Rattle.message_writer.specs.Rules.{protocol_actions, NoFaultFirst};
ghost use Rattle.message_writer.specs.Text.{message_text};
ghost use Rattle.message_writer.specs.Text11.{message11_text, KeepsRules11};
ghost use Rattle.rm_wire.specs.Payloads.{with_payload};
ghost use Rattle.rm_wire.specs.Told.{told_by};
ghost use Rattle.rm_wire.specs.Writable.{IsRefusalWritable};

use message_reader::laws::{a_message_is_not_refused, one_message};
use message_writer::{text_is_an_envelope, text11_is_an_envelope};
use rm_message::elements::laws::{
    header_is_foreign, header_is_good, header_is_read_back, lifecycle_is_read_back,
};
use soap_writer::laws::written_tree_is_the_tree;
use wsa_headers::{addressing_blocks_are_told, addressing_is_read_back};

/// The text of a message that keeps the rules spells this message, where it is no longer than a message may be: what
/// is written is read. So it is with SOAP 1.2, and wherever SOAP has another namespace than WS-Addressing and SOAP 1.1.
/// - `twelve`: decoding gives the message back in every part: addressing properties with their parameters, number,
///   acknowledgements, requests for one, MessagePending, the names that were not understood, and the body, be it empty,
///   a payload (to the byte, with the bindings of the frame), an element of a sequence's life, or a fault with its
///   codes, reason and detail.
pub fn what_is_written_is_read()
    ensures any { (soap : List ℕ) (m : Value) → KeepsRules soap m → MayBeSoap soap → is_soap11 soap ≡ false
        → soap ≢ addressing_space → length (message_text soap m) ≤ envelope_bytes
        → Spells soap (message_text soap m) m }
    ensures twelve { (m : Value) → KeepsRules soap_space m → length (message_text soap_space m) ≤ envelope_bytes
        → Spells soap_space (message_text soap_space m) m }
{
    text_is_an_envelope();
    addressing_is_read_back();
    addressing_blocks_are_told();
    header_is_read_back();
    header_is_foreign();
    lifecycle_is_read_back();
    written_tree_is_the_tree();
}

/// Behind the header blocks of a message that keeps their rules a payload is read as it is, whatever is bound around
/// it.
pub fn a_payload_is_read_behind_the_blocks()
    ensures { (soap : List ℕ) → is_soap11 soap ≡ false → soap ≢ addressing_space → (m : Value) → HeaderKeepsRules m
        → ¬ (Contains protocol_actions m.addressing.action) → (payload : List ℕ) (parts : Parts) (scope : List Bound)
        → (m.sequence ≡ None → NoFaultFirst soap parts)
        → message_in soap (tagged_envelope soap (header_trees soap m) payload parts scope)
        ≡ Ok (with_payload m payload scope) }
{
    addressing_is_read_back();
    addressing_blocks_are_told();
    header_is_read_back();
    header_is_foreign();
    lifecycle_is_read_back();
    written_tree_is_the_tree();
}

/// A fault that SOAP 1.1 tells apart is read there as it was written: the Fault, with what its SequenceFault told,
/// and the
/// SequenceFault, where there is one.
pub fn a_fault_of_soap11_is_read()
    ensures fault { (f : Said) → IsFaultWritable f → IsFault11 f
        → fault11_in soap11_space (told_by f.subcode f.detail) (sorted_scope soap11_space)
        (node_tree soap11_space (fault11_node f)) ≡ f }
    ensures header { (f : Said) → IsFaultWritable f → IsFault11 f
        → IfSome (first_of (ahead_nodes f.subcode f.detail))
        (λ node. sequence_fault_of (sorted_scope soap11_space) (node_tree soap11_space node)
        ≡ told_by f.subcode f.detail) }
{
    written_tree_is_the_tree();
}

/// The text of a message in SOAP 1.1 spells this message there, where SOAP 1.1 can say it and the text is no longer
/// than
/// a message may be. SOAP 1.1 can say it where it has no names that were not understood and its fault, if it has one,
/// is such as SOAP 1.1 tells apart.
pub fn what_is_lowered_is_read()
    ensures { (m : Value) → KeepsRules11 m → length (message11_text m) ≤ envelope_bytes
        → Spells soap11_space (message11_text m) m }
{
    text11_is_an_envelope();
    addressing_is_read_back();
    addressing_blocks_are_told();
    header_is_read_back();
    header_is_foreign();
    lifecycle_is_read_back();
    written_tree_is_the_tree();
}

/// So that text spells no other message, and is not refused.
pub fn what_is_written_has_one_message()
    ensures one { (m other : Value) → KeepsRules soap_space m → length (message_text soap_space m) ≤ envelope_bytes
        → Spells soap_space (message_text soap_space m) other → other ≡ m }
    ensures taken { (m : Value) (refusal : Refused) → KeepsRules soap_space m
        → length (message_text soap_space m) ≤ envelope_bytes
        → ¬ (Refuses soap_space (message_text soap_space m) refusal) }
{
    what_is_written_is_read();
    one_message();
    a_message_is_not_refused();
}

/// The fault that a refusal is answered with keeps the rules, so that it may be written, where what it takes from the
/// refusal may be. What it takes is the endpoint, the addresses, the names, the identifier and the acknowledgement.
pub fn a_fault_keeps_the_rules()
    ensures { (soap : List ℕ) (refusal : Refused) (block : Option Acknowledgement) → IsRefusalWritable refusal block
        → KeepsRules soap (fault_of refusal block) }
{
    header_is_good();
}
