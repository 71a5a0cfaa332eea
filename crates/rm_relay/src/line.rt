//! What a line says.
ghost use Rattle.std.specs.Prelude.{◌≡◌, ◌≤◌, IfOk, IfSome, option_map};
ghost use Rattle.rm_relay.specs.Reading.{
  arm_in,
  close_in,
  compact_in,
  crash_in,
  create_in,
  deliver_in,
  end_in,
  event_in,
  mishap_in,
  numbered_in,
  request_in,
  send_in,
  station_in,
  tick_in,
  word_in,
};

use crate::event::Event;
use crate::word::Station;
use rm_base::limits::{MOST_PACKETS, MOST_SEQUENCES, NOW_MAX};
use rm_base::{Blob, Memory};
use rm_script::Side;
use rm_script::line::{LAST_CHOICE, MOST_CALLS, is_blank};
use rm_script::word::{behind, cut_word, is_same, number};
use std::alloc::Global;

/// The number of a node, and what stands behind it.
#[derive(Clone, Copy)]
struct Arguments<'a> {
    node: Station,
    rest: &'a [u8],
}

/// What a line says, where it says something that a script may say.
pub(crate) fn event(alloc: Global, line: &[u8]) -> Result<Option<Event>, Memory>
    ensures { IfOk result (λ event. event ≡ event_in line.now) }
{
    if is_blank(line) {
        return Ok(Some(Event::Nothing));
    }
    if let Some(rest) = behind(line, b"send 1 ") {
        return send(alloc, rest);
    }
    Ok(request(line))
}

// What the nodes do, but for the sending.
fn request(line: &[u8]) -> Option<Event>
    ensures { result ≡ request_in line.now }
{
    if let Some(rest) = behind(line, b"create ") {
        return create(rest);
    }
    if let Some(rest) = behind(line, b"tick ") {
        return tick(rest);
    }
    if let Some(rest) = behind(line, b"deliver ") {
        return deliver(rest);
    }
    if let Some(rest) = behind(line, b"close ") {
        return close(rest);
    }
    if let Some(rest) = behind(line, b"end ") {
        return end(rest);
    }
    mishap(line)
}

// What becomes of the disks.
fn mishap(line: &[u8]) -> Option<Event>
    ensures { result ≡ mishap_in line.now }
{
    if let Some(rest) = behind(line, b"compact ") {
        return compact(rest);
    }
    if let Some(rest) = behind(line, b"arm ") {
        return arm(rest);
    }
    if let Some(rest) = behind(line, b"crash ") {
        return crash(rest);
    }
    word(line)
}

// The lines of one word.
fn word(line: &[u8]) -> Option<Event>
    ensures { result ≡ word_in line.now }
{
    if is_same(line, b"forward") {
        return Some(Event::Forward);
    }
    if is_same(line, b"trim") {
        return Some(Event::Trim);
    }
    None
}

fn station(bytes: &[u8]) -> Option<Arguments<'_>>
    ensures { option_map (λ a. (a.node, a.rest.now)) result ≡ station_in bytes.now }
{
    match bytes {
        [b'1', rest @ ..] => Some(Arguments {
            node: Station::One,
            rest,
        }),
        [b'2', rest @ ..] => Some(Arguments {
            node: Station::Two,
            rest,
        }),
        [b'3', rest @ ..] => Some(Arguments {
            node: Station::Three,
            rest,
        }),
        _ => None,
    }
}

// The number of a node, and a number from `low` to `high` behind it.
fn numbered(bytes: &[u8], low: u64, high: u64) -> Option<(Station, u64)>
    ensures number { result ≡ numbered_in low high bytes.now }
    ensures within { IfSome result (λ n. n.1 ≤ high) }
{
    let arguments = station(bytes)?;
    let digits = behind(arguments.rest, b" ")?;
    let number = number(digits, low, high)?;
    Some((arguments.node, number))
}

fn create(bytes: &[u8]) -> Option<Event>
    ensures { result ≡ create_in bytes.now }
{
    if is_same(bytes, b"1") {
        return Some(Event::Create { node: Side::One });
    }
    if is_same(bytes, b"2") {
        return Some(Event::Create { node: Side::Two });
    }
    None
}

fn send(alloc: Global, bytes: &[u8]) -> Result<Option<Event>, Memory>
    ensures { IfOk result (λ event. event ≡ send_in bytes.now) }
{
    let (word, rest) = cut_word(bytes);
    let Some(seq) = number(word, 1, u64::from(MOST_SEQUENCES)) else {
        return Ok(None);
    };
    let Some(text) = behind(rest, b" ") else {
        return Ok(None);
    };
    if text.is_empty() {
        return Ok(None);
    }
    Ok(Some(Event::Send {
        seq: seq as u32,
        text: Blob::from_slice(alloc, text)?,
    }))
}

fn tick(bytes: &[u8]) -> Option<Event>
    ensures { result ≡ tick_in bytes.now }
{
    let (node, now) = numbered(bytes, 0, NOW_MAX)?;
    Some(Event::Tick { node, now })
}

fn deliver(bytes: &[u8]) -> Option<Event>
    ensures { result ≡ deliver_in bytes.now }
{
    let packet = number(bytes, 1, MOST_PACKETS as u64)?;
    Some(Event::Deliver { packet })
}

fn close(bytes: &[u8]) -> Option<Event>
    ensures { result ≡ close_in bytes.now }
{
    let (node, seq) = numbered(bytes, 1, u64::from(MOST_SEQUENCES))?;
    Some(Event::Close {
        node,
        seq: seq as u32,
    })
}

fn end(bytes: &[u8]) -> Option<Event>
    ensures { result ≡ end_in bytes.now }
{
    let (node, seq) = numbered(bytes, 1, u64::from(MOST_SEQUENCES))?;
    Some(Event::End {
        node,
        seq: seq as u32,
    })
}

fn compact(bytes: &[u8]) -> Option<Event>
    ensures { result ≡ compact_in bytes.now }
{
    let arguments = station(bytes)?;
    if !arguments.rest.is_empty() {
        return None;
    }
    Some(Event::Compact {
        node: arguments.node,
    })
}

fn arm(bytes: &[u8]) -> Option<Event>
    ensures { result ≡ arm_in bytes.now }
{
    let (node, calls) = numbered(bytes, 1, MOST_CALLS)?;
    Some(Event::Arm { node, calls })
}

fn crash(bytes: &[u8]) -> Option<Event>
    ensures { result ≡ crash_in bytes.now }
{
    let (node, choice) = numbered(bytes, 0, LAST_CHOICE)?;
    Some(Event::Crash {
        node,
        choice: choice as u8,
    })
}
