//! The heads of requests and responses, and what is done with them.
ghost use Rattle.std.specs.Prelude.{◌≡◌, codes, bytes_eq, IfErr};
ghost use Rattle.httparse.specs.Grammar.{MayBecomeRequest, MayBecomeResponse};
ghost use Rattle.http_endpoint.specs.Ends.{ends_head};
ghost use Rattle.http_endpoint.specs.Heads.{ReadsRequestFacts, ReadsResponseFacts, is_absent, is_misframed, is_bad};
ghost use Rattle.http_endpoint.specs.Heads.{is_of, is_otherwise_coded, framing_or, verdict};
ghost use Rattle.http_endpoint.specs.Heads.{response_framing, IsRefusal};
ghost use Rattle.http_endpoint.specs.HeadLaws.{request-grows, request-tells, response-grows, response-tells};

use crate::body::{FIELD_LIMIT, Framing};
use crate::error::HttpError;
use crate::fields::{is_plain, is_soap};
use crate::media::Media;
use crate::part::{Parsed, Part};
use crate::parts::{has_empty_line, room_for};
use http1::fields::{ContentLength, KnownFields, TransferEncoding};
use httparse::Status;
use httparse::spans::{parse_request, parse_response};
use rm_base::Memory;
use std::alloc::Global;

/// What a request's head says.
#[derive(Clone, Copy, Debug, PartialEq, Eq)]
pub struct RequestFacts {
    pub is_post: bool,
    pub field_count: usize,
    pub known: KnownFields,
    /// There is a media type, and none but that of SOAP 1.2.
    pub is_soap12: bool,
    /// There is a media type, and none but that of SOAP 1.1.
    pub is_soap11: bool,
    /// There is no content coding but identity.
    pub is_plain: bool,
}

/// What a response's head says.
#[derive(Clone, Copy, Debug, PartialEq, Eq)]
pub struct ResponseFacts {
    pub status: u16,
    pub field_count: usize,
    pub known: KnownFields,
}

/// The head of a request (RFC 9112, sections 3 and 5).
pub struct HeadOfRequest;

impl Part for HeadOfRequest {
    type Out = RequestFacts;

    ghost reads = { ReadsRequestFacts };

    ghost begun = { MayBecomeRequest };

    ghost ends = { ends_head };

    ghost tells = { request-tells };

    ghost grows = { request-grows };

    fn parse(alloc: Global, bytes: &[u8]) -> Result<Parsed<RequestFacts>, Memory> {
        let mut room = room_for(alloc, bytes)?;
        let headers = room.as_mut_slice();
        match parse_request(bytes, headers) {
            Ok(Status::Complete(head)) => {
                let found = headers.split_at(head.headers).0;
                let is_soap12 = is_soap(Media::Soap12, bytes, found);
                let is_soap11 = is_soap(Media::Soap11, bytes, found);
                let facts = RequestFacts {
                    is_post: is_post(head.method.of(bytes)),
                    field_count: head.headers,
                    known: KnownFields::from_spans(bytes, found),
                    is_soap12,
                    is_soap11,
                    is_plain: is_plain(bytes, found),
                };
                Ok(Parsed::Found(head.len, facts))
            }
            Ok(Status::Partial) => Ok(Parsed::Unfinished),
            Err(_) => Ok(Parsed::Refused),
        }
    }

    fn may_end(bytes: &[u8], from: usize) -> bool {
        has_empty_line(bytes, from)
    }
}

/// The head of a response (RFC 9112, sections 4 and 5).
pub struct HeadOfResponse;

impl Part for HeadOfResponse {
    type Out = ResponseFacts;

    ghost reads = { ReadsResponseFacts };

    ghost begun = { MayBecomeResponse };

    ghost ends = { ends_head };

    ghost tells = { response-tells };

    ghost grows = { response-grows };

    fn parse(alloc: Global, bytes: &[u8]) -> Result<Parsed<ResponseFacts>, Memory> {
        let mut room = room_for(alloc, bytes)?;
        let headers = room.as_mut_slice();
        match parse_response(bytes, headers) {
            Ok(Status::Complete(head)) => {
                let found = headers.split_at(head.headers).0;
                let facts = ResponseFacts {
                    status: head.code,
                    field_count: head.headers,
                    known: KnownFields::from_spans(bytes, found),
                };
                Ok(Parsed::Found(head.len, facts))
            }
            Ok(Status::Partial) => Ok(Parsed::Unfinished),
            Err(_) => Ok(Parsed::Refused),
        }
    }

    fn may_end(bytes: &[u8], from: usize) -> bool {
        has_empty_line(bytes, from)
    }
}

fn is_post(method: &[u8]) -> bool
    ensures { result ≡ bytes_eq method.now (codes "POST") }
{
    method == b"POST".as_slice()
}

fn is_absent(coding: TransferEncoding) -> bool
    ensures { result ≡ is_absent coding }
{
    match coding {
        TransferEncoding::Absent => true,
        TransferEncoding::Chunked => false,
        TransferEncoding::Other => false,
        TransferEncoding::Blank => false,
        TransferEncoding::Invalid => false,
    }
}

fn is_misframed(length: ContentLength, coding: TransferEncoding) -> bool
    ensures { result ≡ is_misframed length coding }
{
    match length {
        ContentLength::Absent => false,
        ContentLength::Value(n) => n > (1 << 63) - 1 || !is_absent(coding),
        ContentLength::Invalid => true,
    }
}

fn is_bad(field_count: usize, known: KnownFields) -> bool
    ensures { result ≡ is_bad field_count known }
{
    field_count > FIELD_LIMIT || is_misframed(known.content_length, known.transfer_encoding)
}

fn is_otherwise_coded(coding: TransferEncoding, other: bool) -> bool
    ensures { result ≡ is_otherwise_coded coding other }
{
    match coding {
        TransferEncoding::Absent => false,
        TransferEncoding::Chunked => other,
        TransferEncoding::Other => true,
        TransferEncoding::Blank => true,
        TransferEncoding::Invalid => true,
    }
}

fn framing_or(otherwise: Framing, length: ContentLength, coding: TransferEncoding) -> Framing
    ensures { result ≡ framing_or otherwise length coding }
{
    match length {
        ContentLength::Value(n) => Framing::Counted(n),
        ContentLength::Invalid => otherwise,
        ContentLength::Absent => match coding {
            TransferEncoding::Absent => otherwise,
            TransferEncoding::Chunked => Framing::Chunked,
            TransferEncoding::Other => otherwise,
            TransferEncoding::Blank => otherwise,
            TransferEncoding::Invalid => otherwise,
        },
    }
}

fn is_of(media: Media, facts: RequestFacts) -> bool
    ensures { result ≡ is_of media facts }
{
    match media {
        Media::Soap12 => facts.is_soap12,
        Media::Soap11 => facts.is_soap11,
    }
}

/// How the body of a request of this media type is read, or the first reason to refuse it.
pub fn verdict(media: Media, facts: RequestFacts) -> Result<Framing, HttpError>
    ensures is { result ≡ verdict media facts }
    ensures refusal { IfErr result IsRefusal }
{
    if is_bad(facts.field_count, facts.known) {
        return Err(HttpError::BadHead);
    }
    if !facts.is_post {
        return Err(HttpError::Unsupported { status: 405 });
    }
    if is_otherwise_coded(facts.known.transfer_encoding, facts.known.other_coding) {
        return Err(HttpError::Unsupported { status: 501 });
    }
    if !facts.is_plain {
        return Err(HttpError::Unsupported { status: 415 });
    }
    if !is_of(media, facts) {
        return Err(HttpError::Unsupported { status: 415 });
    }
    Ok(framing_or(
        Framing::Empty,
        facts.known.content_length,
        facts.known.transfer_encoding,
    ))
}

/// How the body of a response is read.
pub fn response_framing(facts: ResponseFacts) -> Result<Framing, HttpError>
    ensures { result ≡ response_framing facts }
{
    if is_bad(facts.field_count, facts.known) {
        return Err(HttpError::BadHead);
    }
    Ok(framing_or(
        Framing::ToEnd,
        facts.known.content_length,
        facts.known.transfer_encoding,
    ))
}
