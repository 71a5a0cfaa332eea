//! The lines of a message.
ghost use Rattle.std.specs.Prelude.{◌≡◌, ◌++◌, IfOk, OnOk, codes, option_map};
ghost use Rattle.std.specs.List.{flat_map};
ghost use Rattle.rm_script.specs.MessageLines.Lines.{text_line_of, sequence_line, ack_line, ask_line, pending_line};
ghost use Rattle.rm_script.specs.MessageLines.Lines.{addressing_lines, header_lines, message_lines as lines_of};

use crate::message_lines::body::{push_body, word};
use crate::message_lines::values::{bool_word, push_escaped, push_final, push_kind, push_text};
use rm_base::{Blob, Ident, Memory, Uri, push_decimal};
use rm_message::Message;
use rm_message::elements::{AckBlock, SeqHeader};
use std::alloc::Global;

fn push_text_of(out: &mut Blob, word: &[u8], value: &Option<Uri>) -> Result<(), Memory>
    ensures { OnOk result (out.new ≡ out.old ++ text_line_of word.now value.now) }
{
    match value {
        Some(uri) => push_text(out, word, uri.as_slice()),
        None => Ok(()),
    }
}

fn push_sequence(out: &mut Blob, sequence: &Option<SeqHeader>) -> Result<(), Memory>
    ensures { OnOk result (out.new ≡ out.old ++ sequence_line sequence.now) }
{
    let Some(header) = sequence else {
        return Ok(());
    };
    out.push_all(b"sequence ")?;
    push_escaped(out, header.ident.as_slice())?;
    out.push_all(b" ")?;
    push_decimal(out, header.number)?;
    out.push_all(b"\n")
}

fn push_ack(out: &mut Blob, block: &AckBlock) -> Result<(), Memory>
    ensures { OnOk result (out.new ≡ out.old ++ ack_line block.now) }
{
    out.push_all(b"ack ")?;
    push_escaped(out, block.ident.as_slice())?;
    out.push_all(b" ")?;
    push_kind(out, &block.kind)?;
    push_final(out, block.last)?;
    out.push_all(b"\n")
}

fn push_acks(out: &mut Blob, blocks: &[AckBlock]) -> Result<(), Memory>
    ensures { OnOk result (out.new ≡ out.old ++ flat_map ack_line blocks.now) }
{
    for block in blocks {
        push_ack(out, block)?;
    }
    Ok(())
}

fn push_asks(out: &mut Blob, idents: &[Ident]) -> Result<(), Memory>
    ensures { OnOk result (out.new ≡ out.old ++ flat_map ask_line idents.now) }
{
    for ident in idents {
        push_text(out, b"ask", ident.as_slice())?;
    }
    Ok(())
}

fn push_pending(out: &mut Blob, pending: Option<bool>) -> Result<(), Memory>
    ensures { OnOk result (out.new ≡ out.old ++ pending_line pending) }
{
    let Some(more) = pending else {
        return Ok(());
    };
    out.push_all(b"pending ")?;
    out.push_all(bool_word(more))?;
    out.push_all(b"\n")
}

fn push_addressing(out: &mut Blob, message: &Message) -> Result<(), Memory>
    ensures { OnOk result (out.new ≡ out.old ++ addressing_lines message.now) }
{
    push_text(out, b"to", message.addressing.to.as_slice())?;
    push_text(out, b"action", message.addressing.action.as_slice())?;
    push_text_of(out, b"id", &message.addressing.message_id)?;
    push_text_of(out, b"relates", &message.addressing.relates)
}

fn push_header(out: &mut Blob, message: &Message) -> Result<(), Memory>
    ensures { OnOk result (out.new ≡ out.old ++ header_lines message.now) }
{
    push_sequence(out, &message.sequence)?;
    push_acks(out, message.acks.as_slice())?;
    push_asks(out, message.asks.as_slice())?;
    push_pending(out, message.pending)
}

/// The lines of a message: what it is, its addressing properties, its other header blocks, and what its body has. In
/// this order: what it is; To, Action, MessageID, what it relates to; number, acknowledgements, requests,
/// MessagePending; and of its body the payload with its bindings, the identifier and last number, or the fault's code.
pub fn message_lines(alloc: Global, message: &Message) -> Result<Blob, Memory>
    ensures { IfOk result (λ text. text ≡ lines_of message.now) }
{
    let mut out = Blob::from_slice(alloc, b"kind ")?;
    out.push_all(word(&message.body))?;
    out.push_all(b"\n")?;
    push_addressing(&mut out, message)?;
    push_header(&mut out, message)?;
    push_body(&mut out, &message.body)?;
    Ok(out)
}
