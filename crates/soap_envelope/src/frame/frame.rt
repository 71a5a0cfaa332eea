//! The three pieces of a frame, of SOAP 1.2, and the first of one of SOAP 1.1.
ghost use Rattle.std.specs.Prelude.{◌≡◌, ◌++◌, OnOk, OnErr};
ghost use Rattle.soap_envelope.specs.Soap.{soap_space, soap11_space};
ghost use Rattle.soap_envelope.specs.Frame.Framed.{envelope_start, body_start, envelope_end};

use rm_base::{Blob, Memory};

/// Appends the start of an envelope, up to where the blocks of its header go.
pub fn begin_envelope(out: &mut Blob) -> Result<(), Memory>
    ensures ok { OnOk result (out.new ≡ out.old ++ envelope_start soap_space) }
    ensures err { OnErr result (out.new ≡ out.old) }
{
    out.push_all(
        b"<s:Envelope xmlns:s=\"http://www.w3.org/2003/05/soap-envelope\" \
          xmlns:a=\"http://www.w3.org/2005/08/addressing\" \
          xmlns:r=\"http://docs.oasis-open.org/ws-rx/wsrm/200702\" \
          xmlns:c=\"http://docs.oasis-open.org/ws-rx/wsmc/200702\"><s:Header>",
    )
}

/// Appends the start of an envelope of SOAP 1.1.
pub fn begin_envelope11(out: &mut Blob) -> Result<(), Memory>
    ensures ok { OnOk result (out.new ≡ out.old ++ envelope_start soap11_space) }
    ensures err { OnErr result (out.new ≡ out.old) }
{
    out.push_all(
        b"<s:Envelope xmlns:s=\"http://schemas.xmlsoap.org/soap/envelope/\" \
          xmlns:a=\"http://www.w3.org/2005/08/addressing\" \
          xmlns:r=\"http://docs.oasis-open.org/ws-rx/wsrm/200702\" \
          xmlns:c=\"http://docs.oasis-open.org/ws-rx/wsmc/200702\"><s:Header>",
    )
}

/// Ends the header, up to where what the body holds goes.
pub fn begin_body(out: &mut Blob) -> Result<(), Memory>
    ensures ok { OnOk result (out.new ≡ out.old ++ body_start) }
    ensures err { OnErr result (out.new ≡ out.old) }
{
    out.push_all(b"</s:Header><s:Body>")
}

/// Ends the body and the envelope.
pub fn end_envelope(out: &mut Blob) -> Result<(), Memory>
    ensures ok { OnOk result (out.new ≡ out.old ++ envelope_end) }
    ensures err { OnErr result (out.new ≡ out.old) }
{
    out.push_all(b"</s:Body></s:Envelope>")
}
