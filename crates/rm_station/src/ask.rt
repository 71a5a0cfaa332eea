//! What an application asks.
ghost use Rattle.std.specs.Prelude.{◌≡◌, ◌<◌, ◌==◌, codes, length, position, IfSome};
ghost use Rattle.std.specs.List.{after_first, before_first};
ghost use Rattle.rm_station.specs.Asks.{AsksFor, Offered, OfferedBy, Polled, PolledBy, bare_in, close_in, consume_in};
ghost use Rattle.rm_station.specs.Asks.{end_in, inbox_behind, inbox_in, item_in, next_in, number_behind, pair_in};
ghost use Rattle.rm_station.specs.Asks.{plain_in, read_in, seq_in, understood, wanted_in};
ghost use Rattle.rm_script.specs.Reading.{behind as behind_of, behind_word, word_of};

use rm_base::{Blob, Uri};
use rm_host::End;
use rm_host::words::address_of;
use rm_script::word::{behind, cut_word, is_same, number};
use std::alloc::Global;

/// The greatest number of a sequence that can be asked for.
const MOST_SEQ: u64 = 4_294_967_295;

/// The greatest number of an item.
const MOST_NUMBER: u64 = 18_446_744_073_709_551_615;

/// A sequence, and the number of a message on it.
#[derive(Clone, Copy, Debug, PartialEq, Eq)]
pub struct Next {
    pub seq: u32,
    pub number: u64,
}

/// What an application asks of a node.
#[derive(Debug, Drop)]
pub enum Ask {
    /// It stops.
    Stops,
    /// A payload goes to an address; where numbers are said, under these alone.
    Offers {
        to: Uri,
        next: Option<Next>,
        payload: Blob,
    },
    /// The items of an inbox up to one were consumed.
    Consumes {
        seq: u32,
        upto: u64,
    },
    /// A sequence is closed.
    Closes {
        seq: u32,
    },
    /// A sequence is ended.
    Ends {
        seq: u32,
    },
    /// The node at an address is asked for what waits there.
    Polls {
        to: Uri,
    },
    /// The items of an inbox from one on, so many at most.
    Lists {
        seq: u32,
        from: u64,
        most: u64,
    },
    /// One item.
    Fetches {
        seq: u32,
        number: u64,
    },
    /// The first item that is not consumed.
    FetchesNext {
        seq: u32,
    },
    /// What the node has of each sequence.
    Shows,
    /// Counts of each sequence.
    Counts,
    /// Whether it is there.
    Health,
}

/// What a request asks for, by its first line. Behind the line of `send` stands the payload.
pub fn ask_of(alloc: Global, bytes: &[u8]) -> Result<Ask, End>
    ensures { AsksFor bytes.now result }
{
    let (line, payload) = cut(bytes, b'\n');
    match behind(line, b"send ") {
        Some(words) => send_of(alloc, words, payload),
        None => unsent_of(alloc, line),
    }
}

// What a line asks for that is none of a payload.
fn unsent_of(alloc: Global, line: &[u8]) -> Result<Ask, End>
    ensures { PolledBy line.now (behind_of (codes "poll ") line.now) result }
{
    match behind(line, b"poll ") {
        Some(word) => poll_of(alloc, word),
        None => understood(plain_of(line)),
    }
}

// What is asked for, or the line isn't understood.
fn understood(ask: Option<Ask>) -> Result<Ask, End>
    ensures { result ≡ understood ask }
{
    match ask {
        Some(ask) => Ok(ask),
        None => Err(End::Usage),
    }
}

// What a line asks for that has neither an address nor a payload.
fn plain_of(line: &[u8]) -> Option<Ask>
    ensures { result ≡ plain_in line.now }
{
    if let Some(words) = behind(line, b"consume ") {
        return consume_of(words);
    }
    if let Some(words) = behind(line, b"close ") {
        return close_of(words);
    }
    if let Some(words) = behind(line, b"end ") {
        return end_of(words);
    }
    read_of(line)
}

// What a line asks for that changes nothing, and how the node stops.
fn read_of(line: &[u8]) -> Option<Ask>
    ensures { result ≡ read_in line.now }
{
    if let Some(words) = behind(line, b"inbox ") {
        return inbox_of(words);
    }
    if let Some(words) = behind(line, b"item ") {
        return item_of(words);
    }
    if let Some(words) = behind(line, b"next ") {
        return next_of(words);
    }
    bare_of(line)
}

// What a line asks for that is one word.
fn bare_of(line: &[u8]) -> Option<Ask>
    ensures { result ≡ bare_in line.now }
{
    if is_same(line, b"stop") {
        return Some(Ask::Stops);
    }
    if is_same(line, b"show") {
        return Some(Ask::Shows);
    }
    if is_same(line, b"metrics") {
        return Some(Ask::Counts);
    }
    if is_same(line, b"health") {
        return Some(Ask::Health);
    }
    None
}

fn consume_of(words: &[u8]) -> Option<Ask>
    ensures { result ≡ consume_in words.now }
{
    let pair = pair_of(words)?;
    Some(Ask::Consumes {
        seq: pair.seq,
        upto: pair.number,
    })
}

fn close_of(words: &[u8]) -> Option<Ask>
    ensures { result ≡ close_in words.now }
{
    let seq = seq_of(words)?;
    Some(Ask::Closes { seq })
}

fn end_of(words: &[u8]) -> Option<Ask>
    ensures { result ≡ end_in words.now }
{
    let seq = seq_of(words)?;
    Some(Ask::Ends { seq })
}

fn inbox_of(words: &[u8]) -> Option<Ask>
    ensures { result ≡ inbox_in words.now }
{
    let (word, rest) = cut_word(words);
    let seq = seq_of(word)?;
    list_of(rest, seq)
}

// From which item on, and how many at most, behind a space.
fn list_of(words: &[u8], seq: u32) -> Option<Ask>
    ensures { result ≡ inbox_behind words.now seq }
{
    let rest = behind(words, b" ")?;
    let (word, more) = cut_word(rest);
    let from = number(word, 0, MOST_NUMBER)?;
    let most = number_after(more)?;
    Some(Ask::Lists { seq, from, most })
}

fn item_of(words: &[u8]) -> Option<Ask>
    ensures { result ≡ item_in words.now }
{
    let pair = pair_of(words)?;
    Some(Ask::Fetches {
        seq: pair.seq,
        number: pair.number,
    })
}

fn next_of(words: &[u8]) -> Option<Ask>
    ensures { result ≡ next_in words.now }
{
    let seq = seq_of(words)?;
    Some(Ask::FetchesNext { seq })
}

// The number of a sequence, a space, and another number.
fn pair_of(words: &[u8]) -> Option<Next>
    ensures { result ≡ pair_in words.now }
{
    let (word, rest) = cut_word(words);
    let seq = seq_of(word)?;
    let number = number_after(rest)?;
    Some(Next { seq, number })
}

// The number of a sequence whose digits these are.
fn seq_of(digits: &[u8]) -> Option<u32>
    ensures { result ≡ seq_in digits.now }
{
    let seq = number(digits, 0, MOST_SEQ)?;
    Some(seq as u32)
}

// A number behind a space.
fn number_after(bytes: &[u8]) -> Option<u64>
    ensures { result ≡ number_behind bytes.now }
{
    let digits = behind(bytes, b" ")?;
    number(digits, 0, MOST_NUMBER)
}

// A payload for the address that is the first word, under the numbers behind it, where there are some.
fn send_of(alloc: Global, words: &[u8], payload: &[u8]) -> Result<Ask, End>
    ensures { OfferedBy (word_of words.now) payload.now (wanted_in (behind_word words.now)) result }
{
    let (word, rest) = cut_word(words);
    match wanted_of(rest) {
        Some(next) => offer_of(alloc, word, next, payload),
        None => Err(End::Usage),
    }
}

// The numbers under which a payload goes, behind a space; none where nothing stands there.
fn wanted_of(words: &[u8]) -> Option<Option<Next>>
    ensures { result ≡ wanted_in words.now }
{
    if words.is_empty() {
        return Some(None);
    }
    let words = behind(words, b" ")?;
    let next = pair_of(words)?;
    Some(Some(next))
}

// A payload for the address that a word is.
fn offer_of(alloc: Global, word: &[u8], next: Option<Next>, payload: &[u8]) -> Result<Ask, End>
    ensures { Offered word.now payload.now next result }
{
    let word = Blob::from_slice(alloc, word)?;
    let to = address_of(alloc, &word)?;
    let payload = Blob::from_slice(alloc, payload)?;
    Ok(Ask::Offers { to, next, payload })
}

// A poll of the address that a word is.
fn poll_of(alloc: Global, word: &[u8]) -> Result<Ask, End>
    ensures { Polled word.now result }
{
    let word = Blob::from_slice(alloc, word)?;
    let to = address_of(alloc, &word)?;
    Ok(Ask::Polls { to })
}

// The bytes before the first that is `end`, and those behind it; all and none where there is none.
fn cut(bytes: &[u8], end: u8) -> (&[u8], &[u8])
    ensures before { result.0.now ≡ before_first (λ byte. byte == end) bytes.now }
    ensures after { result.1.now ≡ after_first (λ byte. byte == end) bytes.now }
{
    match place_of(bytes, end) {
        Some(place) => (&bytes[..place], &bytes[place + 1..]),
        None => (bytes, &[]),
    }
}

// Where the first byte stands that is `end`.
fn place_of(bytes: &[u8], end: u8) -> Option<usize>
    ensures within { IfSome result (λ place. place < length bytes.now) }
    ensures place { result ≡ position (λ byte. byte == end) bytes.now }
{
    bytes.iter().position(|byte| *byte == end)
}
