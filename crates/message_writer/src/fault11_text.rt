//! Faults to bytes in SOAP 1.1, section 4.4, and the header SequenceFault that goes ahead of them: WS-ReliableMessaging
//! 1.2, section 4. Each writer of a piece appends it, up to a want of memory.
ghost use Rattle.std.specs.Prelude.{◌≡◌, ◌++◌, [], OnOk, codes};
ghost use Rattle.soap_writer.specs.Nodes.Node.{bare, full, words, node_text, nodes_text};
ghost use Rattle.rm_message.specs.Elements.Texts.{r};
ghost use Rattle.message_writer.specs.Text.{qname as qname_text, qname_notes, blocks_text};
ghost use Rattle.message_writer.specs.Faults11.{
  code11,
  code11_text,
  goes_ahead as goes_ahead_name,
  is_told_ahead,
  plain_leaf,
  faultcode_node,
  held_in,
  detail11_nodes,
  fault11_node,
  sequence_fault_node,
  ahead_nodes,
};

use crate::fault_text::{push_elements, push_words};
use crate::qname::{push_qname_declaration, qname};
use rm_base::{Blob, Memory};
use rm_message::elements::MESSAGING;
use rm_message::{FaultBody, FaultCode};
use soap_document::profile::{Elements, Name};
use soap_writer::nodes::{push_begin, push_close, push_start};
use soap_writer::{push_bytes, push_text};
use std::alloc::Global;

// A code as a value; it is nothing where SOAP 1.1 has none.
fn code_value(code: FaultCode) -> &'static [u8]
    ensures { result.now ≡ code11_text (code11 code) }
{
    match code {
        FaultCode::VersionMismatch => b"s:VersionMismatch",
        FaultCode::MustUnderstand => b"s:MustUnderstand",
        FaultCode::DataEncodingUnknown => b"",
        FaultCode::Sender => b"s:Client",
        FaultCode::Receiver => b"s:Server",
    }
}

// Whether a subcode goes into the header.
fn goes_ahead(name: &Name) -> bool
    ensures { result ≡ goes_ahead_name name.now }
{
    name.space() == MESSAGING && name.local() != b"CreateSequenceRefused".as_slice()
}

// Whether a fault has a SequenceFault.
fn is_told(subcode: &Option<Name>) -> bool
    ensures { result ≡ is_told_ahead subcode.now }
{
    match subcode {
        Some(name) => goes_ahead(name),
        None => false,
    }
}

// An element of text in no namespace.
#[tactic(auto, unfolding(soap_writer::specs::Nodes::Node::tag_name))]
fn push_plain(local: &[u8], text: &[u8], out: &mut Vec<u8>) -> Result<(), Memory>
    ensures { OnOk result (out.new.items ≡ out.old.items ++ node_text (plain_leaf local.now text.now)) }
{
    push_start(local, out)?;
    push_words(text, out)?;
    push_close(local, out)?;
    Ok(())
}

// A faultcode that is the subcode itself.
#[tactic(auto, unfolding(soap_writer::specs::Nodes::Node::tag_name))]
fn push_named(alloc: Global, name: &Name, out: &mut Vec<u8>) -> Result<(), Memory>
    ensures { OnOk result (out.new.items ≡ out.old.items
        ++ node_text (full (bare (codes "faultcode")) (qname_notes name.now) (words (qname_text name.now)))) }
{
    let value = qname(alloc, name)?;
    push_begin(b"faultcode", out)?;
    push_qname_declaration(name, out)?;
    push_bytes(b">", out)?;
    push_text(value.as_slice(), out)?;
    push_close(b"faultcode", out)?;
    Ok(())
}

fn push_code(code: FaultCode, out: &mut Vec<u8>) -> Result<(), Memory>
    ensures { OnOk result (out.new.items
        ≡ out.old.items ++ node_text (plain_leaf (codes "faultcode") (code11_text (code11 code)))) }
{
    push_plain(b"faultcode", code_value(code), out)
}

fn push_faultcode(
    alloc: Global,
    code: FaultCode,
    subcode: &Option<Name>,
    out: &mut Vec<u8>,
) -> Result<(), Memory>
    ensures { OnOk result (out.new.items ≡ out.old.items ++ node_text (faultcode_node code subcode.now)) }
{
    match subcode {
        Some(name) => {
            if goes_ahead(name) {
                return push_code(code, out);
            }
            push_named(alloc, name, out)
        }
        None => push_code(code, out),
    }
}

#[tactic(auto, unfolding(soap_writer::specs::Nodes::Node::tag_name))]
fn push_detail(alloc: Global, detail: &Elements, out: &mut Vec<u8>) -> Result<(), Memory>
    ensures { OnOk result (out.new.items
        ≡ out.old.items ++ nodes_text (held_in (bare (codes "detail")) detail.now)) }
{
    if detail.is_empty() {
        return Ok(());
    }
    push_start(b"detail", out)?;
    push_elements(alloc, detail.as_slice(), out)?;
    push_close(b"detail", out)?;
    Ok(())
}

// The detail, unless it goes ahead with the subcode.
fn push_own_detail(alloc: Global, fault: &FaultBody, out: &mut Vec<u8>) -> Result<(), Memory>
    ensures { OnOk result (out.new.items
        ≡ out.old.items ++ nodes_text (detail11_nodes (is_told_ahead fault.now.subcode) fault.now.detail)) }
{
    if is_told(&fault.subcode) {
        return Ok(());
    }
    push_detail(alloc, &fault.detail, out)
}

fn push_faultstring(reason: &Blob, out: &mut Vec<u8>) -> Result<(), Memory>
    ensures { OnOk result (out.new.items
        ≡ out.old.items ++ node_text (plain_leaf (codes "faultstring") reason.now)) }
{
    push_plain(b"faultstring", reason.as_slice(), out)
}

/// Appends a Fault, for which the prefixes of a frame have to be bound around it.
pub(crate) fn push_fault11(
    alloc: Global,
    fault: &FaultBody,
    out: &mut Vec<u8>,
) -> Result<(), Memory>
    ensures { OnOk result (out.new.items ≡ out.old.items ++ node_text (fault11_node fault.now)) }
{
    push_start(b"s:Fault", out)?;
    push_faultcode(alloc, fault.code, &fault.subcode, out)?;
    push_faultstring(&fault.reason, out)?;
    push_own_detail(alloc, fault, out)?;
    push_close(b"s:Fault", out)?;
    Ok(())
}

// ---- SequenceFault

#[tactic(auto, unfolding(soap_writer::specs::Nodes::Node::tag_name))]
fn push_told_detail(alloc: Global, detail: &Elements, out: &mut Vec<u8>) -> Result<(), Memory>
    ensures { OnOk result (out.new.items
        ≡ out.old.items ++ nodes_text (held_in (r (codes "Detail")) detail.now)) }
{
    if detail.is_empty() {
        return Ok(());
    }
    push_start(b"r:Detail", out)?;
    push_elements(alloc, detail.as_slice(), out)?;
    push_close(b"r:Detail", out)?;
    Ok(())
}

// The name of a subcode of WS-ReliableMessaging.
#[tactic(auto, unfolding(soap_writer::specs::Nodes::Node::tag_name))]
fn push_fault_code(local: &[u8], out: &mut Vec<u8>) -> Result<(), Memory>
    ensures { OnOk result (out.new.items ≡ out.old.items
        ++ node_text (full (r (codes "FaultCode")) [] (words (codes "r:" ++ local.now)))) }
{
    push_start(b"r:FaultCode", out)?;
    push_bytes(b"r:", out)?;
    push_text(local, out)?;
    push_close(b"r:FaultCode", out)?;
    Ok(())
}

fn push_sequence_fault(
    alloc: Global,
    local: &[u8],
    detail: &Elements,
    out: &mut Vec<u8>,
) -> Result<(), Memory>
    ensures { OnOk result (out.new.items ≡ out.old.items ++ node_text (sequence_fault_node local.now detail.now)) }
{
    push_start(b"r:SequenceFault", out)?;
    push_fault_code(local, out)?;
    push_told_detail(alloc, detail, out)?;
    push_close(b"r:SequenceFault", out)?;
    Ok(())
}

/// Appends the SequenceFault of a fault, if it has one.
pub(crate) fn push_ahead(alloc: Global, fault: &FaultBody, out: &mut Vec<u8>) -> Result<(), Memory>
    ensures { OnOk result (out.new.items
        ≡ out.old.items ++ blocks_text (ahead_nodes fault.now.subcode fault.now.detail)) }
{
    match &fault.subcode {
        Some(name) => {
            if goes_ahead(name) {
                return push_sequence_fault(alloc, name.local(), &fault.detail, out);
            }
            Ok(())
        }
        None => Ok(()),
    }
}
