//! What stands in Body, as lines.
ghost use Rattle.std.specs.Prelude.{◌≡◌, ◌++◌, OnOk, codes};
ghost use Rattle.rm_script.specs.MessageLines.Lines.{lifecycle_word, body_word, payload_lines, scope_line, last_line};
ghost use Rattle.rm_script.specs.MessageLines.Lines.{finish_lines, lifecycle_lines, code_name, body_lines};

use crate::message_lines::values::{push_escaped, push_text};
use rm_base::{Binding, Blob, Memory, Payload, push_decimal, push_hex};
use rm_message::elements::{Finish, Lifecycle};
use rm_message::{Body, FaultCode};

/// What a message is, by its body.
pub(crate) fn word(body: &Body) -> &'static [u8]
    ensures { result.now ≡ body_word body.now }
{
    match body {
        Body::Empty => b"empty",
        Body::Payload(_) => b"payload",
        Body::Lifecycle(lifecycle) => lifecycle_name(lifecycle),
        Body::Fault(_) => b"fault",
    }
}

fn lifecycle_name(lifecycle: &Lifecycle) -> &'static [u8]
    ensures { result.now ≡ lifecycle_word lifecycle.now }
{
    match lifecycle {
        Lifecycle::Create(_) => b"create",
        Lifecycle::CreateResponse(_) => b"create-response",
        Lifecycle::Close(_) => b"close",
        Lifecycle::CloseResponse(_) => b"close-response",
        Lifecycle::Terminate(_) => b"terminate",
        Lifecycle::TerminateResponse(_) => b"terminate-response",
        Lifecycle::Make(_) => b"make",
    }
}

fn push_scope(out: &mut Blob, binding: &Binding) -> Result<(), Memory>
    ensures { OnOk result (out.new ≡ out.old ++ scope_line binding.now) }
{
    out.push_all(b"scope ")?;
    push_escaped(out, binding.prefix.as_slice())?;
    out.push_all(b" ")?;
    push_escaped(out, binding.space.as_slice())?;
    out.push_all(b"\n")
}

fn push_payload(out: &mut Blob, payload: &Payload) -> Result<(), Memory>
    ensures { OnOk result (out.new ≡ out.old ++ payload_lines payload.now) }
{
    out.push_all(b"payload ")?;
    push_hex(out, payload.bytes.as_slice())?;
    out.push_all(b"\n")?;
    for binding in payload.scope.as_slice() {
        push_scope(out, binding)?;
    }
    Ok(())
}

fn push_last(out: &mut Blob, last: Option<u64>) -> Result<(), Memory>
    ensures { OnOk result (out.new ≡ out.old ++ last_line last) }
{
    let Some(number) = last else {
        return Ok(());
    };
    out.push_all(b"last ")?;
    push_decimal(out, number)?;
    out.push_all(b"\n")
}

fn push_finish(out: &mut Blob, finish: &Finish) -> Result<(), Memory>
    ensures { OnOk result (out.new ≡ out.old ++ finish_lines finish.now) }
{
    push_text(out, b"ident", finish.ident.as_slice())?;
    push_last(out, finish.last_number)
}

fn push_lifecycle(out: &mut Blob, lifecycle: &Lifecycle) -> Result<(), Memory>
    ensures { OnOk result (out.new ≡ out.old ++ lifecycle_lines lifecycle.now) }
{
    match lifecycle {
        Lifecycle::Create(_) | Lifecycle::Make(_) => Ok(()),
        Lifecycle::CreateResponse(response) => push_text(out, b"ident", response.ident.as_slice()),
        Lifecycle::Close(finish) => push_finish(out, finish),
        Lifecycle::CloseResponse(ident) => push_text(out, b"ident", ident.as_slice()),
        Lifecycle::Terminate(finish) => push_finish(out, finish),
        Lifecycle::TerminateResponse(ident) => push_text(out, b"ident", ident.as_slice()),
    }
}

fn code_word(code: FaultCode) -> &'static [u8]
    ensures { result.now ≡ code_name code }
{
    match code {
        FaultCode::VersionMismatch => b"VersionMismatch",
        FaultCode::MustUnderstand => b"MustUnderstand",
        FaultCode::DataEncodingUnknown => b"DataEncodingUnknown",
        FaultCode::Sender => b"Sender",
        FaultCode::Receiver => b"Receiver",
    }
}

/// Appends what the body has.
pub(crate) fn push_body(out: &mut Blob, body: &Body) -> Result<(), Memory>
    ensures { OnOk result (out.new ≡ out.old ++ body_lines body.now) }
{
    match body {
        Body::Empty => Ok(()),
        Body::Payload(payload) => push_payload(out, payload),
        Body::Lifecycle(lifecycle) => push_lifecycle(out, lifecycle),
        Body::Fault(fault) => {
            out.push_all(b"code ")?;
            out.push_all(code_word(fault.code))?;
            out.push_all(b"\n")
        }
    }
}
