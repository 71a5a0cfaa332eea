//! Messages to bytes in SOAP 1.1. Each writer of a piece appends it, up to a want of memory.
ghost use Rattle.std.specs.Prelude.{◌≡◌, ◌++◌, IfOk, OnOk, option_map, codes, decimal};
ghost use Rattle.std.specs.Option.{option_to_list};
ghost use Rattle.soap_writer.specs.Frame.{of_soap};
ghost use Rattle.soap_writer.specs.Nodes.Node.{leaf, node_text, note_text, prefixed};
ghost use Rattle.rm_message.specs.Elements.Texts.{identifier_node, r};
ghost use Rattle.message_writer.specs.Steps.{other11_text};
ghost use Rattle.message_writer.specs.Text.{blocks_text};
ghost use Rattle.message_writer.specs.Text11.{
  sequence_marked,
  ahead_of,
  header11_blocks,
  body11_text,
  has_code11,
  message11_text,
  text11_if,
};
ghost use Rattle.message_writer.specs.Faults11.{fault11_node};

use crate::fault11_text::{push_ahead, push_fault11};
use crate::write::{push_acks, push_asks, push_body, push_pending_of};
use rm_base::{Blob, Ident, Memory};
use rm_message::elements::{SeqHeader, Tag as Messaging};
use rm_message::{Body, FaultBody, FaultCode, Message};
use soap_envelope::frame::{begin_body, begin_envelope11, end_envelope};
use soap_writer::nodes::{push_begin, push_close, push_leaf, push_number};
use soap_writer::push_bytes;
use std::alloc::Global;
use wsa_headers::write_addressing;

// That a block has to be understood.
#[tactic(auto, unfolding(soap_writer::specs::Nodes::Node::note_text))]
fn push_mark(out: &mut Vec<u8>) -> Result<(), Memory>
    ensures { OnOk result (out.new.items
        ≡ out.old.items ++ note_text (prefixed of_soap (codes "mustUnderstand") (codes "1"))) }
{
    push_bytes(b" s:mustUnderstand=\"1\"", out)
}

fn push_ident(ident: &Ident, out: &mut Vec<u8>) -> Result<(), Memory>
    ensures { OnOk result (out.new.items ≡ out.old.items ++ node_text (identifier_node ident.now)) }
{
    push_leaf(Messaging::Identifier.name(), ident.as_slice(), out)
}

fn push_message_number(number: u64, out: &mut Vec<u8>) -> Result<(), Memory>
    ensures { OnOk result (out.new.items
        ≡ out.old.items ++ node_text (leaf (r (codes "MessageNumber")) (decimal number))) }
{
    push_number(Messaging::MessageNumber.name(), number, out)
}

// A Sequence block, with the mark of SOAP 1.1.
fn push_sequence11(sequence: &SeqHeader, out: &mut Vec<u8>) -> Result<(), Memory>
    ensures { OnOk result (out.new.items
        ≡ out.old.items ++ node_text (sequence_marked (codes "1") sequence.now)) }
{
    push_begin(b"r:Sequence", out)?;
    push_mark(out)?;
    push_bytes(b">", out)?;
    push_ident(&sequence.ident, out)?;
    push_message_number(sequence.number, out)?;
    push_close(b"r:Sequence", out)?;
    Ok(())
}

fn push_sequence11_of(sequence: &Option<SeqHeader>, out: &mut Vec<u8>) -> Result<(), Memory>
    ensures { OnOk result (out.new.items ≡ out.old.items
        ++ blocks_text (option_to_list (option_map (sequence_marked (codes "1")) sequence.now))) }
{
    match sequence {
        Some(sequence) => push_sequence11(sequence, out),
        None => Ok(()),
    }
}

fn push_ahead_of(alloc: Global, body: &Body, out: &mut Vec<u8>) -> Result<(), Memory>
    ensures { OnOk result (out.new.items ≡ out.old.items ++ blocks_text (ahead_of body.now)) }
{
    match body {
        Body::Fault(fault) => push_ahead(alloc, fault, out),
        _ => Ok(()),
    }
}

// The blocks behind those of the addressing properties.
fn push_blocks11(alloc: Global, message: &Message, out: &mut Vec<u8>) -> Result<(), Memory>
    ensures { OnOk result (out.new.items ≡ out.old.items ++ other11_text message.now) }
{
    push_sequence11_of(&message.sequence, out)?;
    push_acks(message.acks.as_slice(), out)?;
    push_asks(message.asks.as_slice(), out)?;
    push_pending_of(message.pending, out)?;
    push_ahead_of(alloc, &message.body, out)?;
    Ok(())
}

fn write_blocks11(alloc: Global, message: &Message, out: &mut Blob) -> Result<(), Memory>
    ensures { OnOk result (out.new ≡ out.old ++ other11_text message.now) }
{
    let mut text = Vec::new(alloc);
    push_blocks11(alloc, message, &mut text)?;
    out.push_all(text.as_slice())?;
    Ok(())
}

fn push_header11(alloc: Global, message: &Message, out: &mut Blob) -> Result<(), Memory>
    ensures { OnOk result (out.new ≡ out.old ++ blocks_text (header11_blocks message.now)) }
{
    write_addressing(alloc, &message.addressing, out)?;
    write_blocks11(alloc, message, out)?;
    Ok(())
}

fn write_fault11(alloc: Global, fault: &FaultBody, out: &mut Blob) -> Result<(), Memory>
    ensures { OnOk result (out.new ≡ out.old ++ node_text (fault11_node fault.now)) }
{
    let mut text = Vec::new(alloc);
    push_fault11(alloc, fault, &mut text)?;
    out.push_all(text.as_slice())?;
    Ok(())
}

fn push_body11(alloc: Global, body: &Body, out: &mut Blob) -> Result<(), Memory>
    ensures { OnOk result (out.new ≡ out.old ++ body11_text body.now) }
{
    match body {
        Body::Fault(fault) => write_fault11(alloc, fault, out),
        _ => push_body(alloc, body, out),
    }
}

fn write_message11(alloc: Global, message: &Message) -> Result<Blob, Memory>
    ensures { IfOk result (λ bytes. bytes ≡ message11_text message.now) }
{
    let mut out = Blob::new(alloc);
    begin_envelope11(&mut out)?;
    push_header11(alloc, message, &mut out)?;
    begin_body(&mut out)?;
    push_body11(alloc, &message.body, &mut out)?;
    end_envelope(&mut out)?;
    Ok(out)
}

// Whether SOAP 1.1 has a code for this body.
fn has_code(body: &Body) -> bool
    ensures { result ≡ has_code11 body.now }
{
    match body {
        Body::Fault(fault) => !matches!(fault.code, FaultCode::DataEncodingUnknown),
        _ => true,
    }
}

/// The text of a message in SOAP 1.1; none where it is a fault whose code is DataEncodingUnknown, which SOAP 1.1 lacks.
/// It has the header blocks of SOAP 1.2, but `mustUnderstand="1"` and no NotUnderstood, and for a fault of
/// WS-ReliableMessaging a SequenceFault last; its Fault has faultcode, faultstring and detail.
pub fn encode11(alloc: Global, message: &Message) -> Result<Option<Blob>, Memory>
    ensures { IfOk result (λ bytes. bytes ≡ text11_if (has_code11 message.now.body) message.now) }
{
    if !has_code(&message.body) {
        return Ok(None);
    }
    Ok(Some(write_message11(alloc, message)?))
}
