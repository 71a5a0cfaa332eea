//! Header blocks and endpoint references to bytes. Each writer of a piece appends it, up to a want of memory.
ghost use Rattle.std.specs.Prelude.{◌≡◌, ◌++◌, map, true, OnOk, OnErr};
ghost use Rattle.soap_document.specs.Profile.View.{element_view};
ghost use Rattle.soap_writer.specs.ElementText.{element_text};
ghost use Rattle.soap_writer.specs.Nodes.Node.{node_text, nodes_text, full, leaf, nothing};
ghost use Rattle.wsa_headers.specs.Texts.{
  tag_of,
  params_nodes,
  holder_nodes,
  epr_nodes,
  uri_before,
  epr_before,
  addressing_nodes,
};

use crate::addressing::Addressing;
use crate::endpoint::Epr;
use crate::tag::Tag;
use rm_base::{Blob, Memory, Uri};
use soap_document::profile::{Element, Elements};
use soap_writer::nodes::{push_close, push_leaf, push_start};
use soap_writer::write_element;
use std::alloc::Global;
use std::mem;

fn push_element(
    alloc: Global,
    element: &Element,
    marked: bool,
    out: &mut Vec<u8>,
) -> Result<(), Memory>
    ensures { OnOk result (out.new.items ≡ out.old.items ++ element_text marked (element_view element.now)) }
{
    let mut text = Blob::from_vec(mem::replace(out, Vec::new(alloc)));
    let written = write_element(alloc, element, marked, &mut text);
    *out = text.into_vec();
    written
}

fn push_params(
    alloc: Global,
    params: &[Element],
    marked: bool,
    out: &mut Vec<u8>,
) -> Result<(), Memory>
    ensures { OnOk result (out.new.items
        ≡ out.old.items ++ nodes_text (params_nodes marked (map element_view params.now))) }
{
    for param in params {
        push_element(alloc, param, marked, out)?;
    }
    Ok(())
}

fn push_text_of(tag: Tag, text: &Uri, out: &mut Vec<u8>) -> Result<(), Memory>
    ensures { OnOk result (out.new.items ≡ out.old.items ++ node_text (leaf (tag_of tag) text.now)) }
{
    push_leaf(tag.name(), text.as_slice(), out)
}

// The parameters of an endpoint reference, where there are some.
fn push_holder(alloc: Global, params: &Elements, out: &mut Vec<u8>) -> Result<(), Memory>
    ensures { OnOk result (out.new.items ≡ out.old.items ++ nodes_text (holder_nodes params.now)) }
{
    if params.is_empty() {
        return Ok(());
    }
    push_start(Tag::ReferenceParameters.name(), out)?;
    push_params(alloc, params.as_slice(), false, out)?;
    push_close(Tag::ReferenceParameters.name(), out)?;
    Ok(())
}

/// Appends what stands in an endpoint reference, up to a want of memory.
pub fn push_epr(alloc: Global, reference: &Epr, out: &mut Vec<u8>) -> Result<(), Memory>
    ensures { OnOk result (out.new.items ≡ out.old.items ++ nodes_text (epr_nodes reference.now)) }
{
    push_text_of(Tag::Address, &reference.address, out)?;
    push_holder(alloc, &reference.params, out)
}

fn push_uri(tag: Tag, uri: &Option<Uri>, out: &mut Vec<u8>) -> Result<(), Memory>
    ensures { OnOk result (out.new.items ≡ out.old.items ++ nodes_text (uri_before tag uri.now nothing)) }
{
    match uri {
        Some(uri) => push_text_of(tag, uri, out),
        None => Ok(()),
    }
}

fn push_reference(
    alloc: Global,
    tag: Tag,
    reference: &Option<Epr>,
    out: &mut Vec<u8>,
) -> Result<(), Memory>
    ensures { OnOk result (out.new.items ≡ out.old.items ++ nodes_text (epr_before tag reference.now nothing)) }
{
    let Some(reference) = reference else {
        return Ok(());
    };
    push_start(tag.name(), out)?;
    push_epr(alloc, reference, out)?;
    push_close(tag.name(), out)?;
    Ok(())
}

// Whom a reply and a fault go to, and the parameters that go with the message.
fn push_replies(alloc: Global, properties: &Addressing, out: &mut Vec<u8>) -> Result<(), Memory>
    ensures { OnOk result (out.new.items ≡ out.old.items ++ nodes_text (epr_before Tag.ReplyTo properties.now.reply_to
        (epr_before Tag.FaultTo properties.now.fault_to (params_nodes true properties.now.params)))) }
{
    push_reference(alloc, Tag::ReplyTo, &properties.reply_to, out)?;
    push_reference(alloc, Tag::FaultTo, &properties.fault_to, out)?;
    push_params(alloc, properties.params.as_slice(), true, out)?;
    Ok(())
}

fn push_addressing(alloc: Global, properties: &Addressing, out: &mut Vec<u8>) -> Result<(), Memory>
    ensures { OnOk result (out.new.items ≡ out.old.items ++ nodes_text (addressing_nodes properties.now)) }
{
    push_text_of(Tag::To, &properties.to, out)?;
    push_text_of(Tag::Action, &properties.action, out)?;
    push_uri(Tag::MessageID, &properties.message_id, out)?;
    push_uri(Tag::RelatesTo, &properties.relates, out)?;
    push_replies(alloc, properties, out)?;
    Ok(())
}

/// Appends what stands in an endpoint reference: its Address, and its parameters where there are some. The prefix `a`
/// has to be bound to WS-Addressing around it.
pub fn write_epr(alloc: Global, reference: &Epr, out: &mut Blob) -> Result<(), Memory>
    ensures ok { OnOk result (out.new ≡ out.old ++ nodes_text (epr_nodes reference.now)) }
    ensures err { OnErr result (out.new ≡ out.old) }
{
    let mut text = Vec::new(alloc);
    push_epr(alloc, reference, &mut text)?;
    out.push_all(text.as_slice())
}

/// Appends the header blocks of the addressing properties, and each parameter with its mark, for which the prefixes of
/// a frame have to be bound around them.
pub fn write_addressing(
    alloc: Global,
    properties: &Addressing,
    out: &mut Blob,
) -> Result<(), Memory>
    ensures ok { OnOk result (out.new ≡ out.old ++ nodes_text (addressing_nodes properties.now)) }
    ensures err { OnErr result (out.new ≡ out.old) }
{
    let mut text = Vec::new(alloc);
    push_addressing(alloc, properties, &mut text)?;
    out.push_all(text.as_slice())
}
