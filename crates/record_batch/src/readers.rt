//! What records hold, from the front of bytes: a value, and the bytes behind it.
ghost use Rattle.std.specs.Prelude.{◌≡◌, option_map, false, IfOk};
ghost use Rattle.std.specs.Str.{bytes_eq};
ghost use Rattle.soap_document.specs.Profile.View.{element_view};
ghost use Rattle.soap_writer.specs.Values.Outcome.{Gives};
ghost use Rattle.soap_writer.specs.ElementText.{element_text};
ghost use Rattle.record_batch.specs.Format.{first_byte, number32, number64, text, optional, read_items};
ghost use Rattle.record_batch.specs.Parts.{
  address as address_format,
  identifier as identifier_format,
  via as via_format,
  via_of,
  behaviour as behaviour_format,
  behaviour_of,
  cause as cause_format,
  cause_of,
  lapse as lapse_format,
  own_offer,
  range as range_format,
  ranges as ranges_format,
  canonical,
  is_from as is_from_first,
  binding as binding_format,
  payload as payload_format,
  tree_of,
  param_of,
  param as param_format,
  endpoint as endpoint_format,
  peer_offer,
};

use crate::record::{OwnOffer, PeerOffer, Via};
use rm_base::{
    Behaviour, Binding, Bindings, Blob, Cause, Ident, Items, Lapse, MAX_NUMBER, Memory, Payload,
    Uri,
};
use rm_sides::ranges::{Range, RangeSet};
use soap_document::laws::{document_is_read, document_is_utf8};
use soap_document::profile::{Element, Elements, EnvelopeError, read_element, strip};
use soap_writer::values::{Flaw, read_ident, read_uri};
use soap_writer::write_element;
use std::alloc::Global;
use wsa_headers::Epr;

pub(crate) fn take_byte(bytes: &[u8]) -> Result<(u8, &[u8]), Flaw>
    ensures { Gives (λ x. (x.0, x.1.now)) result (first_byte bytes.now) }
{
    match bytes {
        [] => Err(Flaw::Malformed),
        [first, rest @ ..] => Ok((*first, rest)),
    }
}

/// The number of four bytes at the front, where there are so many.
#[tactic(auto, unfolding(crate::specs::Format::number32))]
pub(crate) fn front_u32(bytes: &[u8]) -> Option<(u32, &[u8])>
    ensures { option_map (λ x. (x.0, x.1.now)) result ≡ number32.read bytes.now }
{
    if bytes.len() < 4 {
        return None;
    }
    let (front, rest) = bytes.split_at(4);
    let number = u32::from_be_bytes([front[0], front[1], front[2], front[3]]);
    Some((number, rest))
}

pub(crate) fn take_u32(bytes: &[u8]) -> Result<(u32, &[u8]), Flaw>
    ensures { Gives (λ x. (x.0, x.1.now)) result (number32.read bytes.now) }
{
    match front_u32(bytes) {
        Some(taken) => Ok(taken),
        None => Err(Flaw::Malformed),
    }
}

#[tactic(auto, unfolding(crate::specs::Format::number64))]
pub(crate) fn take_u64(bytes: &[u8]) -> Result<(u64, &[u8]), Flaw>
    ensures { Gives (λ x. (x.0, x.1.now)) result (number64.read bytes.now) }
{
    if bytes.len() < 8 {
        return Err(Flaw::Malformed);
    }
    let (front, rest) = bytes.split_at(8);
    let number = u64::from_be_bytes([
        front[0], front[1], front[2], front[3], front[4], front[5], front[6], front[7],
    ]);
    Ok((number, rest))
}

#[tactic(auto, unfolding(crate::specs::Format::text))]
fn take_slice(bytes: &[u8]) -> Result<(&[u8], &[u8]), Flaw>
    ensures { Gives (λ x. (x.0.now, x.1.now)) result (text.read bytes.now) }
{
    let (len, rest) = take_u32(bytes)?;
    let len = len as usize;
    if rest.len() < len {
        return Err(Flaw::Malformed);
    }
    Ok(rest.split_at(len))
}

pub(crate) fn take_text(alloc: Global, bytes: &[u8]) -> Result<(Blob, &[u8]), Flaw>
    ensures { Gives (λ x. (x.0, x.1.now)) result (text.read bytes.now) }
{
    let (text, rest) = take_slice(bytes)?;
    Ok((Blob::from_slice(alloc, text)?, rest))
}

pub(crate) fn take_uri(alloc: Global, bytes: &[u8]) -> Result<(Uri, &[u8]), Flaw>
    ensures { Gives (λ x. (x.0, x.1.now)) result (address_format.read bytes.now) }
{
    let (text, rest) = take_slice(bytes)?;
    Ok((read_uri(alloc, text)?, rest))
}

pub(crate) fn take_ident(alloc: Global, bytes: &[u8]) -> Result<(Ident, &[u8]), Flaw>
    ensures { Gives (λ x. (x.0, x.1.now)) result (identifier_format.read bytes.now) }
{
    let (text, rest) = take_slice(bytes)?;
    Ok((read_ident(alloc, text)?, rest))
}

fn via_from(byte: u8) -> Result<Via, Flaw>
    ensures { Gives (λ via. via) result (via_of byte) }
{
    match byte {
        0 => Ok(Via::Direct),
        1 => Ok(Via::Polled),
        2 => Ok(Via::Back),
        _ => Err(Flaw::Malformed),
    }
}

pub(crate) fn take_via(bytes: &[u8]) -> Result<(Via, &[u8]), Flaw>
    ensures { Gives (λ x. (x.0, x.1.now)) result (via_format.read bytes.now) }
{
    let (byte, rest) = take_byte(bytes)?;
    Ok((via_from(byte)?, rest))
}

fn behaviour_from(byte: u8) -> Result<Behaviour, Flaw>
    ensures { Gives (λ behaviour. behaviour) result (behaviour_of byte) }
{
    match byte {
        0 => Ok(Behaviour::NoDiscard),
        1 => Ok(Behaviour::EntireSequence),
        2 => Ok(Behaviour::FollowingFirstGap),
        _ => Err(Flaw::Malformed),
    }
}

pub(crate) fn take_behaviour(bytes: &[u8]) -> Result<(Behaviour, &[u8]), Flaw>
    ensures { Gives (λ x. (x.0, x.1.now)) result (behaviour_format.read bytes.now) }
{
    let (byte, rest) = take_byte(bytes)?;
    Ok((behaviour_from(byte)?, rest))
}

fn cause_from(byte: u8) -> Result<Cause, Flaw>
    ensures { Gives (λ cause. cause) result (cause_of byte) }
{
    match byte {
        0 => Ok(Cause::Peer),
        1 => Ok(Cause::Operator),
        2 => Ok(Cause::Expired),
        3 => Ok(Cause::NotTaken),
        _ => Err(Flaw::Malformed),
    }
}

pub(crate) fn take_cause(bytes: &[u8]) -> Result<(Cause, &[u8]), Flaw>
    ensures { Gives (λ x. (x.0, x.1.now)) result (cause_format.read bytes.now) }
{
    let (byte, rest) = take_byte(bytes)?;
    Ok((cause_from(byte)?, rest))
}

pub(crate) fn take_lapse(bytes: &[u8]) -> Result<(Lapse, &[u8]), Flaw>
    ensures { Gives (λ x. (x.0, x.1.now)) result (lapse_format.read bytes.now) }
{
    let (months, rest) = take_u64(bytes)?;
    let (ms, rest) = take_u64(rest)?;
    Ok((Lapse { months, ms }, rest))
}

pub(crate) fn take_own_offer(bytes: &[u8]) -> Result<(Option<OwnOffer>, &[u8]), Flaw>
    ensures { Gives (λ x. (x.0, x.1.now)) result ((optional own_offer).read bytes.now) }
{
    let (mark, rest) = take_byte(bytes)?;
    match mark {
        0 => Ok((None, rest)),
        1 => {
            let (counter, rest) = take_u64(rest)?;
            let (behaviour, rest) = take_behaviour(rest)?;
            Ok((Some(OwnOffer { counter, behaviour }), rest))
        }
        _ => Err(Flaw::Malformed),
    }
}

pub(crate) fn take_deadline(bytes: &[u8]) -> Result<(Option<u64>, &[u8]), Flaw>
    ensures { Gives (λ x. (x.0, x.1.now)) result ((optional number64).read bytes.now) }
{
    let (mark, rest) = take_byte(bytes)?;
    match mark {
        0 => Ok((None, rest)),
        1 => {
            let (number, rest) = take_u64(rest)?;
            Ok((Some(number), rest))
        }
        _ => Err(Flaw::Malformed),
    }
}

// ---- ranges

fn take_range(bytes: &[u8]) -> Result<(Range, &[u8]), Flaw>
    ensures { Gives (λ x. (x.0, x.1.now)) result (range_format.read bytes.now) }
{
    let (lower, rest) = take_u64(bytes)?;
    let (upper, rest) = take_u64(rest)?;
    Ok((Range { lower, upper }, rest))
}

fn take_each_range(alloc: Global, count: u32, bytes: &[u8]) -> Result<(Items<Range>, &[u8]), Flaw>
    ensures { Gives (λ x. (x.0, x.1.now)) result (read_items range_format count bytes.now) }
{
    let mut ranges = Items::new(alloc);
    let mut rest = bytes;
    for _ in 0..count {
        let (range, behind) = take_range(rest)?;
        ranges.push(range)?;
        rest = behind;
    }
    Ok((ranges, rest))
}

// Whether a range begins at `first` or later and has message numbers alone.
fn is_from(first: u64, range: Range) -> bool
    ensures { result ≡ is_from_first first range }
{
    first <= range.lower && range.lower <= range.upper && range.upper <= MAX_NUMBER
}

// The set of these ranges, where they are canonical.
fn set_of(alloc: Global, ranges: &[Range]) -> Result<RangeSet, Flaw>
    ensures { Gives (λ set. set.ranges) result (canonical ranges.now) }
{
    let mut set = RangeSet::new(alloc);
    let mut first = 1;
    for range in ranges {
        if !is_from(first, *range) {
            return Err(Flaw::Malformed);
        }
        set.insert_range(range.lower, range.upper)?;
        first = range.upper + 2;
    }
    Ok(set)
}

pub(crate) fn take_ranges(alloc: Global, bytes: &[u8]) -> Result<(RangeSet, &[u8]), Flaw>
    ensures { Gives (λ x. (x.0.ranges, x.1.now)) result (ranges_format.read bytes.now) }
{
    let (count, rest) = take_u32(bytes)?;
    let (ranges, rest) = take_each_range(alloc, count, rest)?;
    Ok((set_of(alloc, ranges.as_slice())?, rest))
}

// ---- payloads

fn take_binding(alloc: Global, bytes: &[u8]) -> Result<(Binding, &[u8]), Flaw>
    ensures { Gives (λ x. (x.0, x.1.now)) result (binding_format.read bytes.now) }
{
    let (prefix, rest) = take_text(alloc, bytes)?;
    let (space, rest) = take_text(alloc, rest)?;
    Ok((Binding { prefix, space }, rest))
}

fn take_scope(alloc: Global, count: u32, bytes: &[u8]) -> Result<(Bindings, &[u8]), Flaw>
    ensures { Gives (λ x. (x.0, x.1.now)) result (read_items binding_format count bytes.now) }
{
    let mut scope = Bindings::new(alloc);
    let mut rest = bytes;
    for _ in 0..count {
        let (binding, behind) = take_binding(alloc, rest)?;
        scope.push(binding)?;
        rest = behind;
    }
    Ok((scope, rest))
}

#[tactic(auto, unfolding(crate::specs::Parts::payload))]
pub(crate) fn take_payload(alloc: Global, bytes: &[u8]) -> Result<(Payload, &[u8]), Flaw>
    ensures { Gives (λ x. (x.0, x.1.now)) result (payload_format.read bytes.now) }
{
    let (bytes, rest) = take_text(alloc, bytes)?;
    let (count, rest) = take_u32(rest)?;
    let (scope, rest) = take_scope(alloc, count, rest)?;
    Ok((Payload { bytes, scope }, rest))
}

// ---- endpoint references

fn read_tree(alloc: Global, bytes: &[u8]) -> Result<Element, Flaw>
    ensures { Gives (λ tree. element_view tree) result (tree_of bytes.now) }
{
    document_is_read();
    document_is_utf8();
    match read_element(alloc, bytes) {
        Ok(tree) => Ok(tree),
        Err(EnvelopeError::Memory) => Err(Flaw::Memory),
        Err(EnvelopeError::TooLong { len: _ }) => Err(Flaw::Malformed),
        Err(EnvelopeError::NotUtf8 { valid_up_to: _ }) => Err(Flaw::Malformed),
        Err(EnvelopeError::NotProfile) => Err(Flaw::Malformed),
        Err(EnvelopeError::WrongVersion) => unreachable!(),
        Err(EnvelopeError::NotEnvelope) => unreachable!(),
    }
}

// Whether an element is written as these bytes.
fn is_written_as(alloc: Global, element: &Element, bytes: &[u8]) -> Result<bool, Memory>
    ensures { IfOk result (λ is. is ≡ bytes_eq (element_text false (element_view element.now)) bytes.now) }
{
    let mut written = Blob::new(alloc);
    write_element(alloc, element, false, &mut written)?;
    Ok(written.as_slice() == bytes)
}

#[tactic(auto, unfolding(crate::specs::Parts::param_of))]
fn read_param(alloc: Global, bytes: &[u8]) -> Result<Element, Flaw>
    ensures { Gives (λ param. element_view param) result (param_of bytes.now) }
{
    let tree = read_tree(alloc, bytes)?;
    let param = strip(alloc, &tree)?;
    if !is_written_as(alloc, &param, bytes)? {
        return Err(Flaw::Malformed);
    }
    Ok(param)
}

fn take_param(alloc: Global, bytes: &[u8]) -> Result<(Element, &[u8]), Flaw>
    ensures { Gives (λ x. (element_view x.0, x.1.now)) result (param_format.read bytes.now) }
{
    let (text, rest) = take_slice(bytes)?;
    Ok((read_param(alloc, text)?, rest))
}

fn take_params(alloc: Global, count: u32, bytes: &[u8]) -> Result<(Elements, &[u8]), Flaw>
    ensures { Gives (λ x. (x.0, x.1.now)) result (read_items param_format count bytes.now) }
{
    let mut params = Elements::new(alloc);
    let mut rest = bytes;
    for _ in 0..count {
        let (param, behind) = take_param(alloc, rest)?;
        params.push(param)?;
        rest = behind;
    }
    Ok((params, rest))
}

#[tactic(auto, unfolding(crate::specs::Parts::endpoint))]
pub(crate) fn take_endpoint(alloc: Global, bytes: &[u8]) -> Result<(Epr, &[u8]), Flaw>
    ensures { Gives (λ x. (x.0, x.1.now)) result (endpoint_format.read bytes.now) }
{
    let (address, rest) = take_uri(alloc, bytes)?;
    let (count, rest) = take_u32(rest)?;
    let (params, rest) = take_params(alloc, count, rest)?;
    Ok((Epr { address, params }, rest))
}

pub(crate) fn take_accept(alloc: Global, bytes: &[u8]) -> Result<(Option<Epr>, &[u8]), Flaw>
    ensures { Gives (λ x. (x.0, x.1.now)) result ((optional endpoint_format).read bytes.now) }
{
    let (mark, rest) = take_byte(bytes)?;
    match mark {
        0 => Ok((None, rest)),
        1 => {
            let (endpoint, rest) = take_endpoint(alloc, rest)?;
            Ok((Some(endpoint), rest))
        }
        _ => Err(Flaw::Malformed),
    }
}

pub(crate) fn take_peer_offer(
    alloc: Global,
    bytes: &[u8],
) -> Result<(Option<PeerOffer>, &[u8]), Flaw>
    ensures { Gives (λ x. (x.0, x.1.now)) result ((optional peer_offer).read bytes.now) }
{
    let (mark, rest) = take_byte(bytes)?;
    match mark {
        0 => Ok((None, rest)),
        1 => {
            let (ident, rest) = take_ident(alloc, rest)?;
            let (endpoint, rest) = take_endpoint(alloc, rest)?;
            Ok((Some(PeerOffer { ident, endpoint }), rest))
        }
        _ => Err(Flaw::Malformed),
    }
}
