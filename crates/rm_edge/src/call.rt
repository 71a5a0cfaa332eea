//! A request of an application over HTTP, as it is read and answered (RFC 9110, RFC 9112).

use crate::ask::{Ask, Refusal, Wish, ask_of};
use crate::status::{cut, is_passing, phrase_of, refusal_line, refusal_status, status_of};
use crate::tally::Tally;
use http1::text::eq_ignore_case;
use http1::{BodySize, Event, Header, Limits, Server};
use httparse::spans::{EMPTY_HEADER_SPAN, HeaderSpan, RequestSpans};
use rm_base::limits::PAYLOAD_BYTES;
use rm_base::{Blob, Memory};
use std::alloc::Global;
use std::mem;

/// The most fields of a head.
const MOST_FIELDS: usize = 64;

/// A request that was read: what the desk is told, or why it isn't.
#[derive(Drop)]
pub struct Call {
    server: Server,
    told: Result<Told, Refusal>,
}

// What the desk is told: a line, and a payload behind it.
#[derive(Drop)]
struct Told {
    bytes: Blob,
    wish: Wish,
    wait: u64,
}

/// The text of an answer, and whether the connection ends with it.
#[derive(Drop)]
pub struct Reply {
    pub text: Vec<u8>,
    pub closes: bool,
}

impl Call {
    /// Reads a whole request. What comes behind its first bytes that aren't one is not looked at.
    pub fn read(alloc: Global, message: &[u8]) -> Result<Call, Memory> {
        let mut server = Server::new(Limits::default());
        let told = read_all(alloc, &mut server, message)?;
        Ok(Call { server, told })
    }

    /// Why the desk isn't told, where it isn't.
    pub fn refusal(&self) -> Option<Refusal> {
        match &self.told {
            Ok(_) => None,
            Err(refusal) => Some(*refusal),
        }
    }

    /// How many bytes it holds for the desk.
    pub fn bytes(&self) -> usize {
        match &self.told {
            Ok(told) => told.bytes.len(),
            Err(_) => 0,
        }
    }

    /// For how many milliseconds the answer may be waited for.
    pub fn wait(&self) -> u64 {
        match &self.told {
            Ok(told) => told.wait.saturating_mul(1000),
            Err(_) => 0,
        }
    }

    /// What the desk is told. Where the answer may be waited for it can be told again.
    pub fn take_told(&mut self, alloc: Global) -> Result<Blob, Memory> {
        match &mut self.told {
            Ok(told) => {
                if told.wait > 0 {
                    told.bytes.copy()
                } else {
                    Ok(mem::replace(&mut told.bytes, Blob::new(alloc)))
                }
            }
            Err(_) => Ok(Blob::new(alloc)),
        }
    }

    /// Whether what the desk wrote says that there is nothing yet.
    pub fn is_vain(&self, text: &[u8]) -> bool {
        match &self.told {
            Ok(told) => {
                let status = status_of(told.wish, text);
                match told.wish {
                    Wish::Done => status == 503,
                    Wish::Item => status == 204,
                    Wish::Text => false,
                    Wish::Counts => false,
                }
            }
            Err(_) => false,
        }
    }

    /// The answer that what the desk wrote becomes.
    pub fn answer(self, alloc: Global, text: &[u8], tally: Tally) -> Result<Reply, Memory> {
        let wish = match &self.told {
            Ok(told) => told.wish,
            Err(refusal) => {
                let refusal = *refusal;
                return self.refuse(alloc, refusal);
            }
        };
        let status = status_of(wish, text);
        let Call { server, told: _ } = self;
        match wish {
            Wish::Item => {
                if status == 200 && text.starts_with(b"item ") {
                    return item_reply(alloc, server, text);
                }
                text_reply(alloc, server, status, text)
            }
            Wish::Counts => {
                let mut all = Blob::from_slice(alloc, text)?;
                if status == 200 {
                    tally.push_counts(&mut all)?;
                }
                text_reply(alloc, server, status, all.as_slice())
            }
            Wish::Done => text_reply(alloc, server, status, text),
            Wish::Text => text_reply(alloc, server, status, text),
        }
    }

    /// The answer that says why the desk isn't told.
    pub fn refuse(self, alloc: Global, refusal: Refusal) -> Result<Reply, Memory> {
        let Call { server, told: _ } = self;
        let status = refusal_status(refusal);
        let mut fields = Vec::new(alloc);
        fields.push(field(b"Content-Type", b"text/plain; charset=utf-8"))?;
        match refusal {
            Refusal::Method { allowed } => fields.push(field(b"Allow", allowed))?,
            Refusal::TooLong => fields.push(field(b"Connection", b"close"))?,
            Refusal::Stopping => fields.push(field(b"Retry-After", b"1"))?,
            _ => {}
        }
        reply_of(
            alloc,
            server,
            status,
            fields.as_slice(),
            refusal_line(refusal),
        )
    }
}

// Reads a request, of which the server keeps what its answer depends on.
fn read_all(
    alloc: Global,
    server: &mut Server,
    message: &[u8],
) -> Result<Result<Told, Refusal>, Memory> {
    let mut room = vec![in alloc; EMPTY_HEADER_SPAN; MOST_FIELDS]?;
    let fields = room.as_mut_slice();
    let progress = match server.read(message, fields) {
        Ok(progress) => progress,
        Err(error) => return Ok(Err(Refusal::BadHead(error.status()))),
    };
    let Event::Head(head) = progress.event else {
        return Ok(Err(Refusal::BadHead(400)));
    };
    let rest = message.split_at(progress.consumed.min(message.len())).1;
    let ask = match head_asks(alloc, server, message, head, fields)? {
        Ok(ask) => ask,
        Err(refusal) => return Ok(Err(refusal)),
    };
    let Ask {
        line,
        wish,
        has_payload,
        wait,
    } = ask;
    match read_body(server, fields, rest, line, has_payload)? {
        Ok(bytes) => Ok(Ok(Told { bytes, wish, wait })),
        Err(refusal) => Ok(Err(refusal)),
    }
}

// What a head asks for.
fn head_asks(
    alloc: Global,
    server: &Server,
    message: &[u8],
    head: RequestSpans,
    fields: &[HeaderSpan],
) -> Result<Result<Ask, Refusal>, Memory> {
    let found = fields.split_at(head.headers.min(fields.len())).0;
    for field in found {
        if eq_ignore_case(
            part_of(message, field.name.start, field.name.end),
            b"Origin",
        ) {
            return Ok(Err(Refusal::OfAPage));
        }
    }
    let method = part_of(message, head.method.start, head.method.end);
    let target = part_of(message, head.path.start, head.path.end);
    let ask = match ask_of(alloc, method, target)? {
        Ok(ask) => ask,
        Err(refusal) => return Ok(Err(refusal)),
    };
    if server.has_codings() {
        return Ok(Err(Refusal::Coded));
    }
    match server.unread_size() {
        BodySize::Known(size) => {
            if size > PAYLOAD_BYTES as u64 {
                return Ok(Err(Refusal::TooLong));
            }
        }
        BodySize::Unknown => {}
        BodySize::Empty => {}
    }
    Ok(Ok(ask))
}

fn part_of(bytes: &[u8], start: usize, end: usize) -> &[u8] {
    match bytes.get(start..end) {
        Some(part) => part,
        None => &[],
    }
}

// Reads a body, which goes behind a line where it is a payload.
fn read_body(
    server: &mut Server,
    fields: &mut [HeaderSpan],
    bytes: &[u8],
    line: Blob,
    has_payload: bool,
) -> Result<Result<Blob, Refusal>, Memory> {
    let mut told = line;
    let mut rest = bytes;
    let mut len: usize = 0;
    for _turn in 0..u64::MAX {
        let progress = match server.read(rest, fields) {
            Ok(progress) => progress,
            Err(error) => return Ok(Err(Refusal::BadHead(error.status()))),
        };
        match progress.event {
            Event::Data(span) => {
                let piece = part_of(rest, span.start, span.end);
                len = len.saturating_add(piece.len());
                if len > PAYLOAD_BYTES {
                    return Ok(Err(Refusal::TooLong));
                }
                if has_payload {
                    told.push_all(piece)?;
                }
            }
            Event::End(_) => return Ok(Ok(told)),
            _ => return Ok(Err(Refusal::TooLong)),
        }
        rest = rest.split_at(progress.consumed.min(rest.len())).1;
    }
    Ok(Err(Refusal::TooLong))
}

// The answer that one item is: its number as the tag, and the bytes behind its line.
fn item_reply(alloc: Global, server: Server, text: &[u8]) -> Result<Reply, Memory> {
    let (line, payload) = cut(text, b'\n');
    let (_, numbers) = cut(line, b' ');
    let (_, number) = cut(numbers, b' ');
    let mut tag = Blob::from_slice(alloc, b"\"")?;
    tag.push_all(number)?;
    tag.push_all(b"\"")?;
    let mut fields = Vec::new(alloc);
    fields.push(field(b"Content-Type", b"application/xml"))?;
    fields.push(field(b"ETag", tag.as_slice()))?;
    reply_of(alloc, server, 200, fields.as_slice(), payload)
}

// The answer that a text is.
fn text_reply(alloc: Global, server: Server, status: u16, text: &[u8]) -> Result<Reply, Memory> {
    let mut fields = Vec::new(alloc);
    if status != 204 {
        fields.push(field(b"Content-Type", b"text/plain; charset=utf-8"))?;
    }
    if is_passing(status) {
        fields.push(field(b"Retry-After", b"1"))?;
    }
    reply_of(alloc, server, status, fields.as_slice(), text)
}

fn field<'a>(name: &'a [u8], value: &'a [u8]) -> Header<'a> {
    Header { name, value }
}

// Writes an answer. One of status 204 has no content, and one to HEAD has none either.
fn reply_of(
    alloc: Global,
    mut server: Server,
    status: u16,
    fields: &[Header<'_>],
    content: &[u8],
) -> Result<Reply, Memory> {
    let mut text = Vec::new(alloc);
    let content = if status == 204 { &[] } else { content };
    let size = if status == 204 {
        BodySize::Empty
    } else {
        BodySize::Known(content.len() as u64)
    };
    let phrase = phrase_of(status);
    if server
        .write_response(&mut text, status, phrase, fields, size)
        .is_err()
    {
        return Err(Memory);
    }
    let _ = server.write_data(&mut text, content);
    match server.write_end(&mut text, &[]) {
        Ok(()) => Ok(Reply {
            text,
            closes: server.is_closed(),
        }),
        Err(_) => Err(Memory),
    }
}
