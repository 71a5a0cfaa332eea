//! The status of an answer, by the first words of what the desk wrote.
ghost use Rattle.std.specs.Prelude.{◌≡◌, ◌<◌, ◌==◌, bytes_eq, length, position, IfSome};
ghost use Rattle.std.specs.List.{after_first, before_first};
ghost use Rattle.rm_edge.specs.Statuses.{
  done_status,
  item_status,
  line_status,
  refused_status,
  said_status,
  status_of,
  word_status,
};

use crate::ask::{Refusal, Wish};

/// The bytes before the first that is `end`, and those behind it; all and none where there is none.
pub fn cut(bytes: &[u8], end: u8) -> (&[u8], &[u8])
    ensures before { result.0.now ≡ before_first (λ byte. byte == end) bytes.now }
    ensures after { result.1.now ≡ after_first (λ byte. byte == end) bytes.now }
{
    match place_of(bytes, end) {
        Some(place) => (&bytes[..place], &bytes[place + 1..]),
        None => (bytes, &[]),
    }
}

// Where the first byte stands that is `end`.
fn place_of(bytes: &[u8], end: u8) -> Option<usize>
    ensures within { IfSome result (λ place. place < length bytes.now) }
    ensures place { result ≡ position (λ byte. byte == end) bytes.now }
{
    bytes.iter().position(|byte| *byte == end)
}

fn is(word: &[u8], other: &[u8]) -> bool
    ensures { result ≡ bytes_eq word.now other.now }
{
    word == other
}

// The status of a call that the node refused, by the cause.
fn refused_status(cause: &[u8]) -> u16
    ensures { result ≡ refused_status cause.now }
{
    if is(cause, b"UnknownSequence") {
        return 404;
    }
    if is(cause, b"PayloadTooLong") {
        return 413;
    }
    if is(cause, b"BadPayload") {
        return 422;
    }
    if is(cause, b"WindowFull") {
        return 429;
    }
    if is(cause, b"NodeFull") {
        return 429;
    }
    if is(cause, b"StoreFull") {
        return 507;
    }
    if is(cause, b"TooManySequences") {
        return 507;
    }
    409
}

// The status of what came of a call, by its first word.
fn done_status(word: &[u8]) -> u16
    ensures { result ≡ done_status word.now }
{
    if is(word, b"opening") {
        return 503;
    }
    if is(word, b"next") {
        return 412;
    }
    200
}

// The status of what is said of an item, by its first word.
fn item_status(word: &[u8]) -> u16
    ensures { result ≡ item_status word.now }
{
    if is(word, b"none") {
        return 204;
    }
    if is(word, b"gone") {
        return 410;
    }
    200
}

fn word_status(wish: Wish, word: &[u8]) -> u16
    ensures { result ≡ word_status wish word.now }
{
    match wish {
        Wish::Done => done_status(word),
        Wish::Item => item_status(word),
        Wish::Text => 200,
        Wish::Counts => 200,
    }
}

// The status of a line, its first word, and what stands behind that.
fn said_status(wish: Wish, line: &[u8], word: &[u8], rest: &[u8]) -> u16
    ensures { result ≡ said_status wish line.now word.now rest.now }
{
    if is(word, b"") {
        return 500;
    }
    if is(word, b"refused") {
        return refused_status(rest);
    }
    if is(word, b"usage:") {
        return 400;
    }
    if is(line, b"too long") {
        return 413;
    }
    word_status(wish, word)
}

fn line_status(wish: Wish, line: &[u8]) -> u16
    ensures { result ≡ line_status wish line.now }
{
    let (word, rest) = cut(line, b' ');
    said_status(wish, line, word, rest)
}

/// The status of a text that the desk wrote. RFC 9110, section 15; RFC 6585, section 4; RFC 4918, section 11.
pub fn status_of(wish: Wish, text: &[u8]) -> u16
    ensures { result ≡ status_of wish text.now }
{
    let (line, _) = cut(text, b'\n');
    line_status(wish, line)
}

/// The status of a request that isn't told to the desk.
pub fn refusal_status(refusal: Refusal) -> u16 {
    match refusal {
        Refusal::BadHead(status) => status,
        Refusal::Coded => 501,
        Refusal::OfAPage => 403,
        Refusal::NoPlace => 404,
        Refusal::Method { .. } => 405,
        Refusal::BadQuery => 400,
        Refusal::TooLong => 413,
        Refusal::Stopping => 503,
    }
}

/// What is told of it.
pub fn refusal_line(refusal: Refusal) -> &'static [u8] {
    match refusal {
        Refusal::BadHead(_) => b"bad head\n",
        Refusal::Coded => b"unknown coding\n",
        Refusal::OfAPage => b"forbidden\n",
        Refusal::NoPlace => b"no such path\n",
        Refusal::Method { .. } => b"no such method\n",
        Refusal::BadQuery => b"bad query\n",
        Refusal::TooLong => b"too long\n",
        Refusal::Stopping => b"stopping\n",
    }
}

/// The phrase of a status.
pub fn phrase_of(status: u16) -> &'static [u8] {
    match status {
        200 => b"OK",
        204 => b"No Content",
        400 => b"Bad Request",
        403 => b"Forbidden",
        404 => b"Not Found",
        405 => b"Method Not Allowed",
        409 => b"Conflict",
        410 => b"Gone",
        412 => b"Precondition Failed",
        413 => b"Content Too Large",
        414 => b"URI Too Long",
        422 => b"Unprocessable Content",
        429 => b"Too Many Requests",
        431 => b"Request Header Fields Too Large",
        501 => b"Not Implemented",
        503 => b"Service Unavailable",
        507 => b"Insufficient Storage",
        _ => b"Internal Server Error",
    }
}

/// Whether the request may be made again in a second with another outcome.
pub fn is_passing(status: u16) -> bool {
    status == 429 || status == 503
}
