//! Faults to bytes: SOAP 1.2 Part 1, section 5.4. Each writer of a piece appends it, up to a want of memory.
ghost use Rattle.std.specs.Prelude.{◌≡◌, ◌++◌, [], ◌∷◌, OnOk, codes, map, false};
ghost use Rattle.soap_document.specs.Profile.View.{element_view};
ghost use Rattle.soap_writer.specs.Nodes.Node.{
  tag_name,
  begin_text,
  note_text,
  of_xml,
  node_text,
  nodes_text,
  nothing,
  whole,
};
ghost use Rattle.wsa_headers.specs.Texts.{params_nodes};
ghost use Rattle.message_writer.specs.Text.{
  tag_of,
  code_text,
  value_node,
  subcode_nodes,
  code_node,
  words_of,
  text_node,
  reason_node,
  detail_nodes,
  fault_node,
};

use crate::qname::{push_qname_declaration, qname};
use crate::tag::Tag;
use rm_base::{Blob, Memory};
use rm_message::{FaultBody, FaultCode};
use soap_document::profile::{Element, Elements, Name};
use soap_writer::nodes::{push_begin, push_close, push_leaf, push_start};
use soap_writer::{push_bytes, push_text, write_element};
use std::alloc::Global;

fn code_value(code: FaultCode) -> &'static [u8]
    ensures { result.now ≡ code_text code }
{
    match code {
        FaultCode::VersionMismatch => b"s:VersionMismatch",
        FaultCode::MustUnderstand => b"s:MustUnderstand",
        FaultCode::DataEncodingUnknown => b"s:DataEncodingUnknown",
        FaultCode::Sender => b"s:Sender",
        FaultCode::Receiver => b"s:Receiver",
    }
}

fn push_value(alloc: Global, name: &Name, out: &mut Vec<u8>) -> Result<(), Memory>
    ensures { OnOk result (out.new.items ≡ out.old.items ++ node_text (value_node name.now)) }
{
    let value = qname(alloc, name)?;
    push_begin(Tag::Value.name(), out)?;
    push_qname_declaration(name, out)?;
    push_bytes(b">", out)?;
    push_text(value.as_slice(), out)?;
    push_close(Tag::Value.name(), out)?;
    Ok(())
}

fn push_inner(alloc: Global, inner: &Option<Name>, out: &mut Vec<u8>) -> Result<(), Memory>
    ensures { OnOk result (out.new.items ≡ out.old.items ++ nodes_text (subcode_nodes inner.now nothing)) }
{
    let Some(name) = inner else {
        return Ok(());
    };
    push_start(Tag::Subcode.name(), out)?;
    push_value(alloc, name, out)?;
    push_close(Tag::Subcode.name(), out)?;
    Ok(())
}

fn push_subcode(
    alloc: Global,
    subcode: &Option<Name>,
    inner: &Option<Name>,
    out: &mut Vec<u8>,
) -> Result<(), Memory>
    ensures { OnOk result (out.new.items
        ≡ out.old.items ++ nodes_text (subcode_nodes subcode.now (subcode_nodes inner.now nothing))) }
{
    let Some(name) = subcode else {
        return Ok(());
    };
    push_start(Tag::Subcode.name(), out)?;
    push_value(alloc, name, out)?;
    push_inner(alloc, inner, out)?;
    push_close(Tag::Subcode.name(), out)?;
    Ok(())
}

fn push_code(alloc: Global, fault: &FaultBody, out: &mut Vec<u8>) -> Result<(), Memory>
    ensures { OnOk result (out.new.items ≡ out.old.items ++ node_text (code_node fault.now)) }
{
    push_start(Tag::Code.name(), out)?;
    push_leaf(Tag::Value.name(), code_value(fault.code), out)?;
    push_subcode(alloc, &fault.subcode, &fault.inner, out)?;
    push_close(Tag::Code.name(), out)?;
    Ok(())
}

// That a text is in English.
#[tactic(auto, unfolding(soap_writer::specs::Nodes::Node::note_text))]
fn push_english(out: &mut Vec<u8>) -> Result<(), Memory>
    ensures { OnOk result (out.new.items ≡ out.old.items ++ note_text (of_xml (codes "lang") (codes "en"))) }
{
    push_bytes(b" xml:lang=\"en\"", out)
}

#[tactic(auto, using(crate::proofs::TextLemmas::words_text))]
pub(crate) fn push_words(text: &[u8], out: &mut Vec<u8>) -> Result<(), Memory>
    ensures { OnOk result (out.new.items ≡ out.old.items ++ nodes_text (words_of text.now)) }
{
    push_text(text, out)
}

fn push_english_text(text: &[u8], out: &mut Vec<u8>) -> Result<(), Memory>
    ensures { OnOk result (out.new.items ≡ out.old.items ++ node_text (text_node text.now)) }
{
    push_begin(Tag::Text.name(), out)?;
    push_english(out)?;
    push_bytes(b">", out)?;
    push_words(text, out)?;
    push_close(Tag::Text.name(), out)?;
    Ok(())
}

fn push_reason(reason: &Blob, out: &mut Vec<u8>) -> Result<(), Memory>
    ensures { OnOk result (out.new.items ≡ out.old.items ++ node_text (reason_node reason.now)) }
{
    push_start(Tag::Reason.name(), out)?;
    push_english_text(reason.as_slice(), out)?;
    push_close(Tag::Reason.name(), out)?;
    Ok(())
}

fn push_element(alloc: Global, element: &Element, out: &mut Vec<u8>) -> Result<(), Memory>
    ensures { OnOk result (out.new.items ≡ out.old.items ++ node_text (whole false (element_view element.now))) }
{
    let mut text = Blob::new(alloc);
    write_element(alloc, element, false, &mut text)?;
    push_bytes(text.as_slice(), out)
}

pub(crate) fn push_elements(
    alloc: Global,
    elements: &[Element],
    out: &mut Vec<u8>,
) -> Result<(), Memory>
    ensures { OnOk result (out.new.items
        ≡ out.old.items ++ nodes_text (params_nodes false (map element_view elements.now))) }
{
    for element in elements {
        push_element(alloc, element, out)?;
    }
    Ok(())
}

fn push_detail(alloc: Global, detail: &Elements, out: &mut Vec<u8>) -> Result<(), Memory>
    ensures { OnOk result (out.new.items ≡ out.old.items ++ nodes_text (detail_nodes detail.now)) }
{
    if detail.is_empty() {
        return Ok(());
    }
    push_start(Tag::Detail.name(), out)?;
    push_elements(alloc, detail.as_slice(), out)?;
    push_close(Tag::Detail.name(), out)?;
    Ok(())
}

/// Appends a Fault, for which the prefixes of a frame have to be bound around it.
pub fn push_fault(alloc: Global, fault: &FaultBody, out: &mut Vec<u8>) -> Result<(), Memory>
    ensures { OnOk result (out.new.items ≡ out.old.items ++ node_text (fault_node fault.now)) }
{
    push_start(Tag::Fault.name(), out)?;
    push_code(alloc, fault, out)?;
    push_reason(&fault.reason, out)?;
    push_detail(alloc, &fault.detail, out)?;
    push_close(Tag::Fault.name(), out)?;
    Ok(())
}
