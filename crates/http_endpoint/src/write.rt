//! Requests and responses, written to a sink (RFC 9112).
ghost use Rattle.std.specs.Prelude.{◌≡◌, ◌≤◌, ℕ, ◌⊎◌, ◌++◌, List, [], Ok, Err, IfOk, IfErr, OnOk, OnErr, length};
ghost use Rattle.std.specs.Prelude.{decimal, true};
ghost use Rattle.std.specs.Io.KnownBytes.{Appends};
ghost use Rattle.rm_base.specs.Outside.{AppendsFront};
ghost use Rattle.http_endpoint.specs.Texts.{IsWritten, action_line, allow_line, last_lines, phrase_of, type_line};
ghost use Rattle.http_endpoint.specs.Texts.{type_line_of, port_text, response_head, request_head, response_text};
ghost use Rattle.http_endpoint.specs.Texts.{response_text_as, request_text, request_text_as};
ghost use Rattle.http_endpoint.specs.Kept.{KeepsSink};

use crate::error::HttpError;
use crate::media::Media;
use crate::target::Target;
use rm_base::{Blob, Memory, Sink, push_decimal, write_all};
use std::alloc::Global;

// The phrase of a status that is written.
fn phrase_of(status: u16) -> &'static [u8]
    ensures { result.now ≡ phrase_of status }
{
    match status {
        200 => b"OK",
        202 => b"Accepted",
        400 => b"Bad Request",
        405 => b"Method Not Allowed",
        415 => b"Unsupported Media Type",
        500 => b"Internal Server Error",
        _ => b"Not Implemented",
    }
}

fn allow_line(status: u16) -> &'static [u8]
    ensures { result.now ≡ allow_line status }
{
    if status == 405 {
        b"Allow: POST\r\n"
    } else {
        b""
    }
}

fn type_line(media: Media) -> &'static [u8]
    ensures { result.now ≡ type_line media }
{
    match media {
        Media::Soap12 => b"Content-Type: application/soap+xml; charset=utf-8\r\n",
        Media::Soap11 => b"Content-Type: text/xml; charset=utf-8\r\n",
    }
}

fn type_line_of(media: Media, len: usize) -> &'static [u8]
    ensures { result.now ≡ type_line_of media len }
{
    if len == 0 { b"" } else { type_line(media) }
}

fn action_line(media: Media) -> &'static [u8]
    ensures { result.now ≡ action_line media }
{
    match media {
        Media::Soap12 => b"",
        Media::Soap11 => b"SOAPAction: \"\"\r\n",
    }
}

fn push_last_lines(head: &mut Blob, len: usize) -> Result<(), Memory>
    ensures { OnOk result (head.new ≡ head.old ++ last_lines len) }
{
    head.push_all(b"Content-Length: ")?;
    push_decimal(head, len as u64)?;
    head.push_all(b"\r\nConnection: close\r\n\r\n")
}

fn push_port(head: &mut Blob, port: u16) -> Result<(), Memory>
    ensures { OnOk result (head.new ≡ head.old ++ port_text port) }
{
    if port == 80 {
        return Ok(());
    }
    head.push_all(b":")?;
    push_decimal(head, u64::from(port))
}

fn response_head(alloc: Global, media: Media, status: u16, len: usize) -> Result<Blob, Memory>
    ensures { IfOk result (λ head. head ≡ response_head media status len) }
{
    let mut head = Blob::from_slice(alloc, b"HTTP/1.1 ")?;
    push_decimal(&mut head, u64::from(status))?;
    head.push_all(b" ")?;
    head.push_all(phrase_of(status))?;
    head.push_all(b"\r\n")?;
    head.push_all(allow_line(status))?;
    head.push_all(type_line_of(media, len))?;
    push_last_lines(&mut head, len)?;
    Ok(head)
}

fn request_head(alloc: Global, media: Media, target: &Target, len: usize) -> Result<Blob, Memory>
    ensures { IfOk result (λ head. head ≡ request_head media target.now len) }
{
    let mut head = Blob::from_slice(alloc, b"POST ")?;
    head.push_all(target.path.as_slice())?;
    head.push_all(b" HTTP/1.1\r\nHost: ")?;
    head.push_all(target.host.as_slice())?;
    push_port(&mut head, target.port)?;
    head.push_all(b"\r\n")?;
    head.push_all(type_line(media))?;
    head.push_all(action_line(media))?;
    push_last_lines(&mut head, len)?;
    Ok(head)
}

// Writes a head, and then a body.
fn write_both<K: Sink>(out: &mut K, head: &[u8], body: &[u8]) -> Result<(), HttpError>
    ensures ok { OnOk result (Appends (K.told out.old).held (K.told out.new).held (head.now ++ body.now)) }
    ensures err { OnErr result (AppendsFront (K.told out.old).held (K.told out.new).held (head.now ++ body.now)) }
    ensures keeps { KeepsSink result (K.told out.old) (K.told out.new) }
{
    write_all(out, head)?;
    write_all(out, body)?;
    Ok(())
}

/// Writes a response with this body, which may be empty. RFC 9112, section 4; RFC 9110, section 15.
pub fn write_response<K: Sink>(
    alloc: Global,
    out: &mut K,
    status: u16,
    body: &[u8],
) -> Result<(), HttpError>
    requires { IsWritten status }
    ensures ok { OnOk result (Appends (K.told out.old).held (K.told out.new).held (response_text status body.now)) }
    ensures err { OnErr result (AppendsFront (K.told out.old).held (K.told out.new).held
        (response_text status body.now)) }
    ensures keeps { KeepsSink result (K.told out.old) (K.told out.new) }
{
    write_response_as(alloc, out, status, body, Media::Soap12)
}

/// Writes a response of this media type with this body, which may be empty. RFC 9112, section 4; RFC 9110, section 15.
/// - `ok`, `err`: the whole text is written, or some first bytes of it where a write failed or memory was wanting.
pub fn write_response_as<K: Sink>(
    alloc: Global,
    out: &mut K,
    status: u16,
    body: &[u8],
    media: Media,
) -> Result<(), HttpError>
    requires { IsWritten status }
    ensures ok { OnOk result (Appends (K.told out.old).held (K.told out.new).held
        (response_text_as media status body.now)) }
    ensures err { OnErr result (AppendsFront (K.told out.old).held (K.told out.new).held
        (response_text_as media status body.now)) }
    ensures keeps { KeepsSink result (K.told out.old) (K.told out.new) }
{
    let head = response_head(alloc, media, status, body.len())?;
    write_both(out, head.as_slice(), body)
}

/// Writes a request to a target with this body. RFC 9112, section 3.
pub fn write_request<K: Sink>(
    alloc: Global,
    out: &mut K,
    target: &Target,
    body: &[u8],
) -> Result<(), HttpError>
    ensures ok { OnOk result (Appends (K.told out.old).held (K.told out.new).held (request_text target.now body.now)) }
    ensures err { OnErr result (AppendsFront (K.told out.old).held (K.told out.new).held
        (request_text target.now body.now)) }
    ensures keeps { KeepsSink result (K.told out.old) (K.told out.new) }
{
    write_request_as(alloc, out, target, body, Media::Soap12)
}

/// Writes a request of this media type to a target with this body. RFC 9112, section 3; SOAP 1.1, section 6.1.1.
/// - `ok`, `err`: the whole text is written, or some first bytes of it where a write failed or memory was wanting. For
///   SOAP 1.1 the type is `text/xml`, and `SOAPAction: ""` stands besides.
/// - WriteFault: only where the sink's count of faults rose (`keeps`).
pub fn write_request_as<K: Sink>(
    alloc: Global,
    out: &mut K,
    target: &Target,
    body: &[u8],
    media: Media,
) -> Result<(), HttpError>
    ensures ok { OnOk result (Appends (K.told out.old).held (K.told out.new).held
        (request_text_as media target.now body.now)) }
    ensures err { OnErr result (AppendsFront (K.told out.old).held (K.told out.new).held
        (request_text_as media target.now body.now)) }
    ensures keeps { KeepsSink result (K.told out.old) (K.told out.new) }
{
    let head = request_head(alloc, media, target, body.len())?;
    write_both(out, head.as_slice(), body)
}
