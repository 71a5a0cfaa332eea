//! What a line says.
ghost use Rattle.std.specs.Prelude.{◌≡◌, IfOk};
ghost use Rattle.rm_script.specs.Reading.{
  offer_in,
  polled_in,
  create_with,
  create_in,
  grant_in,
  send_in,
  tick_in,
  deliver_in,
  close_in,
  end_in,
  ask_in,
  nack_in,
  alone_in,
  poll_in,
  number_behind,
  consume_in,
  compact_in,
  arm_in,
  crash_in,
  noise_in,
  mishap_in,
  request_in,
  event_in,
  is_blank as is_blank_line,
};

use crate::event::{Event, Side};
use crate::word::{behaviour, behind, call, cut_word, node, number, numbered};
use hex::FromHexError;
use rm_base::limits::{MAX_NUMBER, MOST_PACKETS, MOST_SEQUENCES, NOW_MAX};
use rm_base::{Behaviour, Blob, Lapse, Memory};
use rm_message::elements::read_duration;
use std::alloc::Global;

/// The most device calls up to one that fails.
pub const MOST_CALLS: u64 = 1000;

/// The last of the ways in which a disk may keep what was not synced.
pub const LAST_CHOICE: u64 = 3;

/// What a line says, where it says something that a script may say.
pub(crate) fn event(alloc: Global, line: &[u8]) -> Result<Option<Event>, Memory>
    ensures { IfOk result (λ said. said ≡ event_in line.now) }
{
    if is_blank(line) {
        return Ok(Some(Event::Nothing));
    }
    request(alloc, line)
}

/// Whether a line is empty, or a comment.
pub fn is_blank(line: &[u8]) -> bool
    ensures { result ≡ is_blank_line line.now }
{
    match line {
        [] => true,
        [first, ..] => *first == b'#',
    }
}

// What a node is asked for.
fn request(alloc: Global, line: &[u8]) -> Result<Option<Event>, Memory>
    ensures { IfOk result (λ said. said ≡ request_in line.now) }
{
    if let Some(rest) = behind(line, b"create ") {
        return Ok(create(rest));
    }
    if let Some(rest) = behind(line, b"grant ") {
        return Ok(grant(rest));
    }
    if let Some(rest) = behind(line, b"send ") {
        return send(alloc, rest);
    }
    if let Some(rest) = behind(line, b"tick ") {
        return Ok(tick(rest));
    }
    if let Some(rest) = behind(line, b"close ") {
        return Ok(close(rest));
    }
    if let Some(rest) = behind(line, b"end ") {
        return Ok(end(rest));
    }
    if let Some(rest) = behind(line, b"ask ") {
        return Ok(ask(rest));
    }
    if let Some(rest) = behind(line, b"nack ") {
        return Ok(nack(rest));
    }
    if let Some(rest) = behind(line, b"poll ") {
        return Ok(poll(rest));
    }
    if let Some(rest) = behind(line, b"compact ") {
        return Ok(compact(rest));
    }
    if let Some(rest) = behind(line, b"consume ") {
        return Ok(consume(rest));
    }
    mishap(alloc, line)
}

// What befalls the nodes and the packets between them.
fn mishap(alloc: Global, line: &[u8]) -> Result<Option<Event>, Memory>
    ensures { IfOk result (λ said. said ≡ mishap_in line.now) }
{
    if let Some(rest) = behind(line, b"deliver ") {
        return Ok(deliver(rest));
    }
    if let Some(rest) = behind(line, b"arm ") {
        return Ok(arm(rest));
    }
    if let Some(rest) = behind(line, b"crash ") {
        return Ok(crash(rest));
    }
    if let Some(rest) = behind(line, b"noise ") {
        return noise(alloc, rest);
    }
    Ok(None)
}

fn create(bytes: &[u8]) -> Option<Event>
    ensures { result ≡ create_in bytes.now }
{
    let arguments = node(bytes)?;
    let Some(rest) = behind(arguments.rest, b" expires ") else {
        return create_offering(arguments.node, Lapse { months: 0, ms: 0 }, arguments.rest);
    };
    let (word, words) = cut_word(rest);
    let expires = read_duration(word)?;
    create_offering(arguments.node, expires, words)
}

fn create_offering(node: Side, expires: Lapse, words: &[u8]) -> Option<Event>
    ensures { result ≡ create_with node words.now expires }
{
    let (polled, words) = polled(words);
    let offer = offer(words)?;
    Some(Event::Create {
        node,
        expires,
        polled,
        offer,
    })
}

// Whether the word polled stands at the front, and what stands behind it.
fn polled(words: &[u8]) -> (bool, &[u8])
    ensures polled { result.0 ≡ (polled_in words.now).0 }
    ensures rest { result.1.now ≡ (polled_in words.now).1 }
{
    match behind(words, b" polled") {
        Some(rest) => (true, rest),
        None => (false, words),
    }
}

// The behaviour of a sequence that is offered for the other direction, where there is one.
fn offer(words: &[u8]) -> Option<Option<Behaviour>>
    ensures { result ≡ offer_in words.now }
{
    if words.is_empty() {
        return Some(None);
    }
    let word = behind(words, b" offer ")?;
    Some(Some(behaviour(word)?))
}

fn grant(bytes: &[u8]) -> Option<Event>
    ensures { result ≡ grant_in bytes.now }
{
    let arguments = call(bytes)?;
    let behaviour = behaviour(arguments.rest)?;
    Some(Event::Grant {
        node: arguments.node,
        behaviour,
    })
}

fn send(alloc: Global, bytes: &[u8]) -> Result<Option<Event>, Memory>
    ensures { IfOk result (λ said. said ≡ send_in bytes.now) }
{
    let Some(arguments) = call(bytes) else {
        return Ok(None);
    };
    let (word, rest) = cut_word(arguments.rest);
    let Some(seq) = number(word, 1, u64::from(MOST_SEQUENCES)) else {
        return Ok(None);
    };
    let Some(text) = behind(rest, b" ") else {
        return Ok(None);
    };
    if text.is_empty() {
        return Ok(None);
    }
    Ok(Some(Event::Send {
        node: arguments.node,
        seq: seq as u32,
        text: Blob::from_slice(alloc, text)?,
    }))
}

fn tick(bytes: &[u8]) -> Option<Event>
    ensures { result ≡ tick_in bytes.now }
{
    let (node, now) = numbered(bytes, 0, NOW_MAX)?;
    Some(Event::Tick { node, now })
}

fn deliver(bytes: &[u8]) -> Option<Event>
    ensures { result ≡ deliver_in bytes.now }
{
    let packet = number(bytes, 1, MOST_PACKETS as u64)?;
    Some(Event::Deliver { packet })
}

fn close(bytes: &[u8]) -> Option<Event>
    ensures { result ≡ close_in bytes.now }
{
    let (node, seq) = numbered(bytes, 1, u64::from(MOST_SEQUENCES))?;
    Some(Event::Close {
        node,
        seq: seq as u32,
    })
}

fn end(bytes: &[u8]) -> Option<Event>
    ensures { result ≡ end_in bytes.now }
{
    let (node, seq) = numbered(bytes, 1, u64::from(MOST_SEQUENCES))?;
    Some(Event::End {
        node,
        seq: seq as u32,
    })
}

fn ask(bytes: &[u8]) -> Option<Event>
    ensures { result ≡ ask_in bytes.now }
{
    let (node, seq) = numbered(bytes, 1, u64::from(MOST_SEQUENCES))?;
    Some(Event::Ask {
        node,
        seq: seq as u32,
    })
}

fn nack(bytes: &[u8]) -> Option<Event>
    ensures { result ≡ nack_in bytes.now }
{
    let (node, seq) = numbered(bytes, 1, u64::from(MOST_SEQUENCES))?;
    Some(Event::Nack {
        node,
        seq: seq as u32,
    })
}

// The number of a node, and nothing behind it.
fn alone(bytes: &[u8]) -> Option<Side>
    ensures { result ≡ alone_in bytes.now }
{
    let arguments = node(bytes)?;
    if !arguments.rest.is_empty() {
        return None;
    }
    Some(arguments.node)
}

fn poll(bytes: &[u8]) -> Option<Event>
    ensures { result ≡ poll_in bytes.now }
{
    let node = alone(bytes)?;
    Some(Event::Poll { node })
}

fn compact(bytes: &[u8]) -> Option<Event>
    ensures { result ≡ compact_in bytes.now }
{
    let node = alone(bytes)?;
    Some(Event::Compact { node })
}

fn consume(bytes: &[u8]) -> Option<Event>
    ensures { result ≡ consume_in bytes.now }
{
    let arguments = call(bytes)?;
    let (word, rest) = cut_word(arguments.rest);
    let seq = number(word, 1, u64::from(MOST_SEQUENCES))?;
    let upto = number_after(rest)?;
    Some(Event::Consume {
        node: arguments.node,
        seq: seq as u32,
        upto,
    })
}

// The number of a message, behind a space.
fn number_after(bytes: &[u8]) -> Option<u64>
    ensures { result ≡ number_behind bytes.now }
{
    let digits = behind(bytes, b" ")?;
    number(digits, 1, MAX_NUMBER)
}

fn arm(bytes: &[u8]) -> Option<Event>
    ensures { result ≡ arm_in bytes.now }
{
    let (node, calls) = numbered(bytes, 1, MOST_CALLS)?;
    Some(Event::Arm { node, calls })
}

fn crash(bytes: &[u8]) -> Option<Event>
    ensures { result ≡ crash_in bytes.now }
{
    let (node, choice) = numbered(bytes, 0, LAST_CHOICE)?;
    Some(Event::Crash {
        node,
        choice: choice as u8,
    })
}

fn noise(alloc: Global, bytes: &[u8]) -> Result<Option<Event>, Memory>
    ensures { IfOk result (λ said. said ≡ noise_in bytes.now) }
{
    let Some(arguments) = call(bytes) else {
        return Ok(None);
    };
    match hex::decode(alloc, arguments.rest) {
        Ok(bytes) => {
            if bytes.is_empty() {
                return Ok(None);
            }
            Ok(Some(Event::Noise {
                node: arguments.node,
                bytes: Blob::from_vec(bytes),
            }))
        }
        Err(FromHexError::OutOfMemory) => Err(Memory),
        Err(_) => Ok(None),
    }
}
