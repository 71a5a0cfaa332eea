//! Laws of the gate, each the contract of a function that does nothing but to bring in the laws that it stands on.
ghost use Rattle.std.specs.Prelude.{◌≡◌, ◌≢◌, ◌≤◌, ◌++◌, ◌∷◌, [], ℕ, List, None, codes, length};
ghost use Rattle.rm_base.specs.Limits.{envelope_bytes};
ghost use Rattle.rm_base.specs.declared.message.Binding.{Binding as Bound};
ghost use Rattle.rm_base.specs.declared.message.Payload.{Payload as Held};
ghost use Rattle.soap_envelope.specs.Scope.{IsScope};
ghost use Rattle.soap_envelope.specs.Soap.{soap_space};
ghost use Rattle.soap_document.specs.Profile.Tree.{Element as Tree};
ghost use Rattle.soap_envelope.specs.Frame.BodyTag.{body_bindings};
ghost use Rattle.soap_writer.specs.Frame.{frame_scope};
ghost use Rattle.soap_writer.specs.Nodes.Node.{node_text};
ghost use Rattle.rm_message.specs.declared.message.Body.TheVariants as body;
ghost use Rattle.rm_message.specs.declared.message.Message.{Message as Value};
ghost use Rattle.rm_message.specs.declared.refusal.FaultKind.{FaultKind as Kind};
ghost use Rattle.rm_message.specs.declared.refusal.FaultKind.TheVariants as kinds;
ghost use Rattle.message_reader.specs.Refusals.{Spells};
ghost use Rattle.message_writer.specs.Faults.{fault_body, ident_element, table};
ghost use Rattle.message_writer.specs.Faults11.{sequence_fault_node, IsFault11};
ghost use Rattle.message_writer.specs.Rules.{NoFaultFirst};
ghost use Rattle.message_writer.specs.Text.{message_text};
ghost use Rattle.message_writer.specs.Text11.{message11_text};
ghost use Rattle.rm_wire.specs.Payloads.{with_payload};
ghost use Rattle.rm_wire.specs.Soap11.Lift.{
  numbered_prefix,
  IsFirstFree,
  lifted_text,
  HasNoPayload,
};
ghost use Rattle.rm_wire.specs.Soap11.Lower.{lowered, MayBeLowered};
ghost use Rattle.rm_wire.specs.Soap11.Spells11.{Spells11};

use crate::laws::{
    a_payload_is_read_behind_the_blocks, what_is_lowered_is_read, what_is_written_is_read,
};
use crate::read_laws::laws::{
    what_is_read_may_be_written, what_is_read_stands, what_was_read_keeps_the_rules,
};
use message_writer::header_blocks_are_read_back;
use soap_envelope::frame::laws::{
    content_is_read_where_more_is_bound, declaring_body_is_body, tagged_frame_is_an_envelope,
};

/// A message that bytes spell in SOAP 1.1 is read in SOAP 1.2 from its text there, unless it has a payload.
pub fn a_lifted_message_is_read()
    ensures { (bytes : List ℕ) (m : Value) → Spells11 bytes m → HasNoPayload m.body
        → length (message_text soap_space m) ≤ envelope_bytes → Spells soap_space (message_text soap_space m) m }
{
    what_is_read_may_be_written();
    what_was_read_keeps_the_rules();
    what_is_written_is_read();
}

/// And so is its payload, to the byte. Bound around it are what was bound, the prefix of Body, and of the frame those
/// prefixes that it doesn't bind itself. A payload without a number doesn't begin with a Fault of SOAP 1.2. It is said
/// of each payload but one without a number whose first element is a Fault of SOAP 1.2.
pub fn a_lifted_payload_is_read()
    ensures { (bytes : List ℕ) (m : Value) (spells : Spells11 bytes m) (p : Held) → m.body ≡ body.Payload p
        → (number : ℕ) → IsFirstFree number p.scope
        → (m.sequence ≡ None → NoFaultFirst soap_space spells.envelope.body) → (scope : List Bound)
        → IsScope (body_bindings soap_space (numbered_prefix number) p.scope ++ frame_scope soap_space) scope
        → length (lifted_text (numbered_prefix number) m p.bytes p.scope) ≤ envelope_bytes
        → Spells soap_space (lifted_text (numbered_prefix number) m p.bytes p.scope)
        (with_payload m p.bytes scope) }
{
    what_is_read_may_be_written();
    what_is_read_stands();
    a_payload_is_read_behind_the_blocks();
    header_blocks_are_read_back();
    content_is_read_where_more_is_bound();
    declaring_body_is_body();
    tagged_frame_is_an_envelope();
}

/// There is such a scope: bindings have one.
pub fn bindings_have_a_scope()
    ensures { (bindings : List Bound) → (scope : List Bound) × IsScope bindings scope }
{}

/// The text of a message in SOAP 1.1 spells it there, but that a payload's scope is that of its frame. The message may
/// be written, has no names that were not understood, and its fault, if it has one, is such as SOAP 1.1 tells apart. A
/// payload without a number doesn't begin with a Fault of SOAP 1.1.
pub fn a_lowered_message_is_read()
    ensures { (m : Value) → MayBeLowered m → length (message11_text m) ≤ envelope_bytes
        → Spells11 (message11_text m) (lowered m) }
{
    what_is_lowered_is_read();
}

/// Each fault that a node writes is told in SOAP 1.1, but Cardinality, whose inner subcode is not.
pub fn faults_of_a_node_are_told()
    ensures { (kind : Kind) (detail : List Tree) → kind ≢ kinds.Cardinality
        → IsFault11 (fault_body (table kind) detail) }
{}

/// How a fault that names a sequence stands in SOAP 1.1.
pub fn sequence_terminated_is_told()
    ensures { node_text (sequence_fault_node (codes "SequenceTerminated") (ident_element (codes "urn:q") ∷ []))
        ≡ codes "<r:SequenceFault><r:FaultCode>r:SequenceTerminated</r:FaultCode><r:Detail>"
        ++ codes "<n:Identifier xmlns:n=\"http://docs.oasis-open.org/ws-rx/wsrm/200702\">urn:q</n:Identifier>"
        ++ codes "</r:Detail></r:SequenceFault>" }
{}
