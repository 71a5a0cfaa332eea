//! What an application asks for: where its request goes, and the line that the desk is told.
ghost use Rattle.std.specs.Prelude.{◌≡◌, ◌++◌, IfOk};
ghost use Rattle.rm_edge.specs.Asks.{bare_line, inbox_line, one_line, poll_line, send_line, two_line};

use percent_encoding::percent_decode;
use rm_base::{Blob, Memory, push_decimal};
use std::alloc::Global;
use std::str;

/// For how many seconds an answer may be waited for.
pub const MOST_SECONDS: u64 = 60;

/// How many items are listed where it isn't said.
const ITEMS_LISTED: u64 = 100;

/// How what the desk writes becomes an answer.
#[derive(Clone, Copy, Debug, PartialEq, Eq)]
pub enum Wish {
    /// What came of a call, by its first words.
    Done,
    /// One item: its number, and the bytes behind its line.
    Item,
    /// A text.
    Text,
    /// Counts, behind which the edge's own are written.
    Counts,
}

/// Why a request is not told to the desk.
#[derive(Clone, Copy, Debug, PartialEq, Eq)]
pub enum Refusal {
    /// A head, or the framing of a body, that can't be read: 400, 414 or 431.
    BadHead(u16),
    /// A coding other than chunks: 501.
    Coded,
    /// A request of a page in a browser: 403.
    OfAPage,
    /// No such path: 404.
    NoPlace,
    /// Another method than the one that the path has: 405.
    Method { allowed: &'static [u8] },
    /// A query that the path doesn't have, or one that lacks what it must have: 400.
    BadQuery,
    /// A body of more bytes than a payload has: 413.
    TooLong,
    /// The service stops: 503.
    Stopping,
}

/// What is told to the desk: a line, with an LF at its end.
#[derive(Debug, Drop)]
pub struct Ask {
    pub line: Blob,
    pub wish: Wish,
    /// The body of the request goes behind the line.
    pub has_payload: bool,
    /// For how many seconds the answer may be waited for.
    pub wait: u64,
}

// Where a request goes: a path, with the number of a sequence and that of an item.
#[derive(Clone, Copy, Debug, PartialEq, Eq)]
enum Place {
    Send,
    Inbox(u64),
    Item(u64, u64),
    Next(u64),
    Consume(u64),
    Close(u64),
    End(u64),
    Poll,
    Show,
    Metrics,
    Health,
    Stop,
}

const GET: &[u8] = b"GET";

const POST: &[u8] = b"POST";

// The number whose digits these are.
fn number_of(digits: &str) -> Option<u64> {
    if !digits.bytes().all(|byte| byte.is_ascii_digit()) {
        return None;
    }
    digits.parse::<u64>().ok()
}

// Where a path goes.
fn place_of(path: &str) -> Option<Place> {
    let rest = path.strip_prefix('/')?;
    match rest.split_once('/') {
        None => place_of_node(rest),
        Some((name, rest)) => match rest.split_once('/') {
            None => place_of_sequence(name, number_of(rest)?),
            Some((seq, item)) => place_of_item(name, number_of(seq)?, item),
        },
    }
}

fn place_of_node(name: &str) -> Option<Place> {
    match name {
        "send" => Some(Place::Send),
        "poll" => Some(Place::Poll),
        "show" => Some(Place::Show),
        "metrics" => Some(Place::Metrics),
        "health" => Some(Place::Health),
        "stop" => Some(Place::Stop),
        _ => None,
    }
}

fn place_of_sequence(name: &str, seq: u64) -> Option<Place> {
    match name {
        "inbox" => Some(Place::Inbox(seq)),
        "consume" => Some(Place::Consume(seq)),
        "close" => Some(Place::Close(seq)),
        "end" => Some(Place::End(seq)),
        _ => None,
    }
}

fn place_of_item(name: &str, seq: u64, item: &str) -> Option<Place> {
    if name != "inbox" {
        return None;
    }
    if item == "next" {
        return Some(Place::Next(seq));
    }
    Some(Place::Item(seq, number_of(item)?))
}

impl Place {
    // The method that it has.
    fn method(self) -> &'static [u8] {
        match self {
            Place::Inbox(_) | Place::Item(_, _) | Place::Next(_) => GET,
            Place::Show | Place::Metrics | Place::Health => GET,
            Place::Send | Place::Consume(_) | Place::Close(_) | Place::End(_) => POST,
            Place::Poll | Place::Stop => POST,
        }
    }

    fn wish(self) -> Wish {
        match self {
            Place::Item(_, _) | Place::Next(_) => Wish::Item,
            Place::Inbox(_) | Place::Show | Place::Health => Wish::Text,
            Place::Metrics => Wish::Counts,
            Place::Send | Place::Consume(_) | Place::Close(_) | Place::End(_) => Wish::Done,
            Place::Poll | Place::Stop => Wish::Done,
        }
    }

    // Whether its query may have a word.
    fn has_word(self, name: &str) -> bool {
        match self {
            Place::Send => name == "to" || name == "seq" || name == "number" || name == "wait",
            Place::Inbox(_) => name == "from" || name == "max",
            Place::Next(_) => name == "wait",
            Place::Consume(_) => name == "upto",
            Place::Poll => name == "to",
            _ => false,
        }
    }
}

// What a query says.
#[derive(Drop)]
struct Query {
    to: Option<Blob>,
    seq: Option<u64>,
    number: Option<u64>,
    from: Option<u64>,
    max: Option<u64>,
    upto: Option<u64>,
    wait: Option<u64>,
}

impl Query {
    fn new() -> Query {
        Query {
            to: None,
            seq: None,
            number: None,
            from: None,
            max: None,
            upto: None,
            wait: None,
        }
    }

    // Takes in one pair; whether it is the first of its name, with a value as it must be.
    fn take(&mut self, alloc: Global, name: &str, value: &str) -> Result<bool, Memory> {
        if name == "to" {
            let is_first = self.to.is_none();
            self.to = address_in(alloc, value)?;
            return Ok(is_first && self.to.is_some());
        }
        let place = match name {
            "seq" => &mut self.seq,
            "number" => &mut self.number,
            "from" => &mut self.from,
            "max" => &mut self.max,
            "upto" => &mut self.upto,
            _ => &mut self.wait,
        };
        let is_first = place.is_none();
        *place = number_of(value);
        Ok(is_first && place.is_some())
    }
}

// The address that a value has behind its escapes: no space and no control byte is in it, so that it is one word.
fn address_in(alloc: Global, value: &str) -> Result<Option<Blob>, Memory> {
    let mut bytes = Vec::new(alloc);
    percent_decode(value.as_bytes()).append_to(&mut bytes)?;
    let is_word = !bytes.is_empty() && bytes.iter().all(|byte| *byte > b' ' && *byte != 127);
    if is_word {
        Ok(Some(Blob::from_vec(bytes)))
    } else {
        Ok(None)
    }
}

// What a query says, where it says only what its place has, each once.
fn query_of(alloc: Global, place: Place, text: &str) -> Result<Option<Query>, Memory> {
    let mut query = Query::new();
    if text.is_empty() {
        return Ok(Some(query));
    }
    for pair in text.split('&') {
        let (name, value) = match pair.split_once('=') {
            Some(both) => both,
            None => (pair, ""),
        };
        if !place.has_word(name) || !query.take(alloc, name, value)? {
            return Ok(None);
        }
    }
    Ok(Some(query))
}

// A word, and the end of the line.
fn bare_line(alloc: Global, word: &[u8]) -> Result<Blob, Memory>
    ensures { IfOk result (λ line. line ≡ bare_line word.now) }
{
    let mut line = Blob::from_slice(alloc, word)?;
    line.push_all(b"\n")?;
    Ok(line)
}

// A word, and a number behind it.
fn one_line(alloc: Global, word: &[u8], first: u64) -> Result<Blob, Memory>
    ensures { IfOk result (λ line. line ≡ one_line word.now first) }
{
    let mut line = Blob::from_slice(alloc, word)?;
    line.push_all(b" ")?;
    push_decimal(&mut line, first)?;
    line.push_all(b"\n")?;
    Ok(line)
}

// A word, and two numbers behind it.
fn two_line(alloc: Global, word: &[u8], first: u64, second: u64) -> Result<Blob, Memory>
    ensures { IfOk result (λ line. line ≡ two_line word.now first second) }
{
    let mut line = Blob::from_slice(alloc, word)?;
    line.push_all(b" ")?;
    push_decimal(&mut line, first)?;
    line.push_all(b" ")?;
    push_decimal(&mut line, second)?;
    line.push_all(b"\n")?;
    Ok(line)
}

// The numbers of the items that are listed of a sequence: from one on, so many at most.
fn inbox_line(alloc: Global, seq: u64, from: u64, most: u64) -> Result<Blob, Memory>
    ensures { IfOk result (λ line. line ≡ inbox_line seq from most) }
{
    let mut line = Blob::from_slice(alloc, b"inbox ")?;
    push_decimal(&mut line, seq)?;
    line.push_all(b" ")?;
    push_decimal(&mut line, from)?;
    line.push_all(b" ")?;
    push_decimal(&mut line, most)?;
    line.push_all(b"\n")?;
    Ok(line)
}

// A word, and an address behind it.
fn words_of(alloc: Global, word: &[u8], to: &[u8]) -> Result<Blob, Memory>
    ensures { IfOk result (λ words. words ≡ word.now ++ to.now) }
{
    let mut words = Blob::from_slice(alloc, word)?;
    words.push_all(to)?;
    Ok(words)
}

// `send ADDRESS`, and the number that must come next on a sequence where both are said.
fn send_line(
    alloc: Global,
    to: &[u8],
    seq: Option<u64>,
    number: Option<u64>,
) -> Result<Option<Blob>, Memory>
    ensures { IfOk result (λ line. line ≡ send_line to.now seq number) }
{
    let words = words_of(alloc, b"send ", to)?;
    match (seq, number) {
        (Some(seq), Some(number)) => {
            let line = two_line(alloc, words.as_slice(), seq, number)?;
            Ok(Some(line))
        }
        (None, None) => {
            let line = bare_line(alloc, words.as_slice())?;
            Ok(Some(line))
        }
        (Some(_), None) => Ok(None),
        (None, Some(_)) => Ok(None),
    }
}

fn poll_line(alloc: Global, to: &[u8]) -> Result<Blob, Memory>
    ensures { IfOk result (λ line. line ≡ poll_line to.now) }
{
    let words = words_of(alloc, b"poll ", to)?;
    bare_line(alloc, words.as_slice())
}

// The line of a place, where its query has what it must have.
fn place_line(alloc: Global, place: Place, query: &Query) -> Result<Option<Blob>, Memory> {
    let line = match place {
        Place::Send => {
            return match &query.to {
                Some(to) => send_line(alloc, to.as_slice(), query.seq, query.number),
                None => Ok(None),
            };
        }
        Place::Poll => match &query.to {
            Some(to) => poll_line(alloc, to.as_slice())?,
            None => return Ok(None),
        },
        Place::Consume(seq) => match query.upto {
            Some(upto) => two_line(alloc, b"consume", seq, upto)?,
            None => return Ok(None),
        },
        Place::Inbox(seq) => {
            let from = query.from.unwrap_or(1);
            inbox_line(alloc, seq, from, query.max.unwrap_or(ITEMS_LISTED))?
        }
        Place::Item(seq, number) => two_line(alloc, b"item", seq, number)?,
        Place::Next(seq) => one_line(alloc, b"next", seq)?,
        Place::Close(seq) => one_line(alloc, b"close", seq)?,
        Place::End(seq) => one_line(alloc, b"end", seq)?,
        Place::Show => bare_line(alloc, b"show")?,
        Place::Metrics => bare_line(alloc, b"metrics")?,
        Place::Health => bare_line(alloc, b"health")?,
        Place::Stop => bare_line(alloc, b"stop")?,
    };
    Ok(Some(line))
}

/// What a request of this method asks for, whose target is a path and a query behind `?`.
/// - NoPlace, Method, BadQuery: in this order.
pub fn ask_of(alloc: Global, method: &[u8], target: &[u8]) -> Result<Result<Ask, Refusal>, Memory> {
    let Ok(target) = str::from_utf8(target) else {
        return Ok(Err(Refusal::NoPlace));
    };
    let (path, query) = match target.split_once('?') {
        Some(both) => both,
        None => (target, ""),
    };
    let Some(place) = place_of(path) else {
        return Ok(Err(Refusal::NoPlace));
    };
    let allowed = place.method();
    if method != allowed {
        return Ok(Err(Refusal::Method { allowed }));
    }
    let Some(query) = query_of(alloc, place, query)? else {
        return Ok(Err(Refusal::BadQuery));
    };
    let wait = query.wait.unwrap_or(0).min(MOST_SECONDS);
    match place_line(alloc, place, &query)? {
        Some(line) => Ok(Ok(Ask {
            line,
            wish: place.wish(),
            has_payload: place == Place::Send,
            wait,
        })),
        None => Ok(Err(Refusal::BadQuery)),
    }
}
