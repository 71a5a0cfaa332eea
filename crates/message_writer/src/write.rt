//! Messages to bytes. Each writer of a piece appends it, up to a want of memory.
ghost use Rattle.std.specs.Prelude.{◌≡◌, ◌++◌, IfOk, OnOk, map, option_map};
ghost use Rattle.std.specs.Option.{option_to_list};
ghost use Rattle.soap_envelope.specs.Soap.{soap_space};
ghost use Rattle.soap_writer.specs.Nodes.Node.{node_text};
ghost use Rattle.rm_message.specs.Elements.Texts.{sequence_node, ack_node, ask_node, pending_node};
ghost use Rattle.message_writer.specs.Text.{
  not_understood_node,
  header_blocks,
  blocks_text,
  body_text,
  fault_node,
  message_text,
};
ghost use Rattle.message_writer.specs.Steps.{other_text};

use crate::fault_text::push_fault;
use crate::qname::{push_qname_declaration, qname};
use crate::tag::Tag;
use rm_base::{Blob, Ident, Memory};
use rm_message::elements::{
    AckBlock, SeqHeader, push_ack, push_ask, push_pending, push_sequence, write_lifecycle,
};
use rm_message::{Body, FaultBody, Message};
use soap_document::profile::Name;
use soap_envelope::frame::{begin_body, begin_envelope, end_envelope};
use soap_writer::nodes::{push_attribute, push_begin};
use soap_writer::push_bytes;
use std::alloc::Global;
use wsa_headers::write_addressing;

fn push_sequence_of(sequence: &Option<SeqHeader>, out: &mut Vec<u8>) -> Result<(), Memory>
    ensures { OnOk result (out.new.items
        ≡ out.old.items ++ blocks_text (option_to_list (option_map sequence_node sequence.now))) }
{
    match sequence {
        Some(sequence) => push_sequence(sequence, out),
        None => Ok(()),
    }
}

pub(crate) fn push_acks(acks: &[AckBlock], out: &mut Vec<u8>) -> Result<(), Memory>
    ensures { OnOk result (out.new.items ≡ out.old.items ++ blocks_text (map ack_node acks.now)) }
{
    for ack in acks {
        push_ack(ack, out)?;
    }
    Ok(())
}

pub(crate) fn push_asks(asks: &[Ident], out: &mut Vec<u8>) -> Result<(), Memory>
    ensures { OnOk result (out.new.items ≡ out.old.items ++ blocks_text (map ask_node asks.now)) }
{
    for ident in asks {
        push_ask(ident, out)?;
    }
    Ok(())
}

pub(crate) fn push_pending_of(pending: Option<bool>, out: &mut Vec<u8>) -> Result<(), Memory>
    ensures { OnOk result (out.new.items
        ≡ out.old.items ++ blocks_text (option_to_list (option_map pending_node pending))) }
{
    match pending {
        Some(pending) => push_pending(pending, out),
        None => Ok(()),
    }
}

fn push_not_understood(alloc: Global, name: &Name, out: &mut Vec<u8>) -> Result<(), Memory>
    ensures { OnOk result (out.new.items ≡ out.old.items ++ node_text (not_understood_node name.now)) }
{
    let value = qname(alloc, name)?;
    push_begin(Tag::NotUnderstood.name(), out)?;
    push_attribute(b"qname", value.as_slice(), out)?;
    push_qname_declaration(name, out)?;
    push_bytes(b"/>", out)?;
    Ok(())
}

fn push_names(alloc: Global, names: &[Name], out: &mut Vec<u8>) -> Result<(), Memory>
    ensures { OnOk result (out.new.items ≡ out.old.items ++ blocks_text (map not_understood_node names.now)) }
{
    for name in names {
        push_not_understood(alloc, name, out)?;
    }
    Ok(())
}

// The blocks behind those of the addressing properties.
fn push_blocks(alloc: Global, message: &Message, out: &mut Vec<u8>) -> Result<(), Memory>
    ensures { OnOk result (out.new.items ≡ out.old.items ++ other_text message.now) }
{
    push_sequence_of(&message.sequence, out)?;
    push_acks(message.acks.as_slice(), out)?;
    push_asks(message.asks.as_slice(), out)?;
    push_pending_of(message.pending, out)?;
    push_names(alloc, message.not_understood.as_slice(), out)?;
    Ok(())
}

fn write_blocks(alloc: Global, message: &Message, out: &mut Blob) -> Result<(), Memory>
    ensures { OnOk result (out.new ≡ out.old ++ other_text message.now) }
{
    let mut text = Vec::new(alloc);
    push_blocks(alloc, message, &mut text)?;
    out.push_all(text.as_slice())?;
    Ok(())
}

/// Appends the header blocks of a message, for which the prefixes of a frame have to be bound around them.
pub fn push_header(alloc: Global, message: &Message, out: &mut Blob) -> Result<(), Memory>
    ensures { OnOk result (out.new ≡ out.old ++ blocks_text (header_blocks message.now)) }
{
    write_addressing(alloc, &message.addressing, out)?;
    write_blocks(alloc, message, out)?;
    Ok(())
}

fn write_fault(alloc: Global, fault: &FaultBody, out: &mut Blob) -> Result<(), Memory>
    ensures { OnOk result (out.new ≡ out.old ++ node_text (fault_node fault.now)) }
{
    let mut text = Vec::new(alloc);
    push_fault(alloc, fault, &mut text)?;
    out.push_all(text.as_slice())?;
    Ok(())
}

pub(crate) fn push_body(alloc: Global, body: &Body, out: &mut Blob) -> Result<(), Memory>
    ensures { OnOk result (out.new ≡ out.old ++ body_text body.now) }
{
    match body {
        Body::Empty => Ok(()),
        Body::Payload(payload) => out.push_all(payload.bytes.as_slice()),
        Body::Lifecycle(lifecycle) => write_lifecycle(alloc, lifecycle, out),
        Body::Fault(fault) => write_fault(alloc, fault, out),
    }
}

/// The text of a message. It is the one text of a message, for every message: addressing headers in order, marked
/// parameters, Sequence, acknowledgements, requests, MessagePending, NotUnderstood blocks, and an empty Body, the
/// payload's bytes, the body element or the Fault.
pub fn encode(alloc: Global, message: &Message) -> Result<Blob, Memory>
    ensures { IfOk result (λ bytes. bytes ≡ message_text soap_space message.now) }
{
    let mut out = Blob::new(alloc);
    begin_envelope(&mut out)?;
    push_header(alloc, message, &mut out)?;
    begin_body(&mut out)?;
    push_body(alloc, &message.body, &mut out)?;
    end_envelope(&mut out)?;
    Ok(out)
}
