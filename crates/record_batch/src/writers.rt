//! What records hold, to bytes. Each writer appends its piece, up to a want of memory.
ghost use Rattle.std.specs.Prelude.{◌≡◌, ◌++◌, map, OnOk, IfSome};
ghost use Rattle.std.specs.List.{flat_map, AllByRecursion};
ghost use Rattle.soap_document.specs.Profile.View.{element_view};
ghost use Rattle.record_batch.specs.Format.{number32, number64, text, optional};
ghost use Rattle.record_batch.specs.Parts.{
  behaviour_number,
  cause_number,
  via_number,
  lapse as lapse_format,
  own_offer,
  range as range_format,
  ranges as ranges_format,
  binding as binding_format,
  payload as payload_format,
  param as param_format,
  endpoint as endpoint_format,
  peer_offer,
};
ghost use Rattle.record_batch.specs.Writable.{
  IsShort,
  IsShortParam,
  IsShortEndpoint,
  IsShortOffer,
  IsShortBinding,
  IsShortPayload,
};

use crate::record::{OwnOffer, PeerOffer, Via};
use rm_base::{Behaviour, Binding, Blob, Cause, Lapse, Memory, Payload};
use rm_sides::ranges::{Range, RangeSet};
use soap_document::profile::Element;
use soap_writer::write_element;
use std::alloc::Global;
use wsa_headers::Epr;

#[tactic(auto, unfolding(crate::specs::Format::number32))]
pub(crate) fn put_u32(number: u32, out: &mut Vec<u8>) -> Result<(), Memory>
    ensures { OnOk result (out.new.items ≡ out.old.items ++ number32.written number) }
{
    out.extend_from_slice(&number.to_be_bytes())?;
    Ok(())
}

#[tactic(auto, unfolding(crate::specs::Format::number64))]
pub(crate) fn put_u64(number: u64, out: &mut Vec<u8>) -> Result<(), Memory>
    ensures { OnOk result (out.new.items ≡ out.old.items ++ number64.written number) }
{
    out.extend_from_slice(&number.to_be_bytes())?;
    Ok(())
}

#[tactic(auto, unfolding(crate::specs::Format::text))]
pub(crate) fn put_text(bytes: &[u8], out: &mut Vec<u8>) -> Result<(), Memory>
    requires { IsShort bytes.now }
    ensures { OnOk result (out.new.items ≡ out.old.items ++ text.written bytes.now) }
{
    put_u32(bytes.len() as u32, out)?;
    out.extend_from_slice(bytes)?;
    Ok(())
}

pub(crate) fn via_byte(via: Via) -> u8
    ensures { result ≡ via_number via }
{
    match via {
        Via::Direct => 0,
        Via::Polled => 1,
        Via::Back => 2,
    }
}

pub(crate) fn behaviour_byte(behaviour: Behaviour) -> u8
    ensures { result ≡ behaviour_number behaviour }
{
    match behaviour {
        Behaviour::NoDiscard => 0,
        Behaviour::EntireSequence => 1,
        Behaviour::FollowingFirstGap => 2,
    }
}

pub(crate) fn cause_byte(cause: Cause) -> u8
    ensures { result ≡ cause_number cause }
{
    match cause {
        Cause::Peer => 0,
        Cause::Operator => 1,
        Cause::Expired => 2,
        Cause::NotTaken => 3,
    }
}

pub(crate) fn put_lapse(lapse: Lapse, out: &mut Vec<u8>) -> Result<(), Memory>
    ensures { OnOk result (out.new.items ≡ out.old.items ++ lapse_format.written lapse) }
{
    put_u64(lapse.months, out)?;
    put_u64(lapse.ms, out)
}

pub(crate) fn put_own_offer(offer: Option<OwnOffer>, out: &mut Vec<u8>) -> Result<(), Memory>
    ensures { OnOk result (out.new.items ≡ out.old.items ++ (optional own_offer).written offer) }
{
    let Some(offer) = offer else {
        out.push(0)?;
        return Ok(());
    };
    out.push(1)?;
    put_u64(offer.counter, out)?;
    out.push(behaviour_byte(offer.behaviour))?;
    Ok(())
}

pub(crate) fn put_deadline(deadline: Option<u64>, out: &mut Vec<u8>) -> Result<(), Memory>
    ensures { OnOk result (out.new.items ≡ out.old.items ++ (optional number64).written deadline) }
{
    let Some(deadline) = deadline else {
        out.push(0)?;
        return Ok(());
    };
    out.push(1)?;
    put_u64(deadline, out)
}

// A parameter as the text of an element that isn't marked.
fn put_param(alloc: Global, param: &Element, out: &mut Vec<u8>) -> Result<(), Memory>
    requires { IsShortParam (element_view param.now) }
    ensures { OnOk result (out.new.items ≡ out.old.items ++ param_format.written (element_view param.now)) }
{
    let mut bytes = Blob::new(alloc);
    write_element(alloc, param, false, &mut bytes)?;
    put_text(bytes.as_slice(), out)
}

fn put_params(alloc: Global, params: &[Element], out: &mut Vec<u8>) -> Result<(), Memory>
    requires { AllByRecursion IsShortParam (map element_view params.now) }
    ensures { OnOk result (out.new.items
        ≡ out.old.items ++ flat_map param_format.written (map element_view params.now)) }
{
    for param in params {
        put_param(alloc, param, out)?;
    }
    Ok(())
}

#[tactic(auto, unfolding(crate::specs::Parts::endpoint))]
pub(crate) fn put_endpoint(alloc: Global, endpoint: &Epr, out: &mut Vec<u8>) -> Result<(), Memory>
    requires { IsShortEndpoint endpoint.now }
    ensures { OnOk result (out.new.items ≡ out.old.items ++ endpoint_format.written endpoint.now) }
{
    put_text(endpoint.address.as_slice(), out)?;
    put_u32(endpoint.params.len() as u32, out)?;
    put_params(alloc, endpoint.params.as_slice(), out)
}

pub(crate) fn put_accept(
    alloc: Global,
    accept: &Option<Epr>,
    out: &mut Vec<u8>,
) -> Result<(), Memory>
    requires { IfSome accept.now IsShortEndpoint }
    ensures { OnOk result (out.new.items ≡ out.old.items ++ (optional endpoint_format).written accept.now) }
{
    let Some(accept) = accept else {
        out.push(0)?;
        return Ok(());
    };
    out.push(1)?;
    put_endpoint(alloc, accept, out)
}

pub(crate) fn put_peer_offer(
    alloc: Global,
    offer: &Option<PeerOffer>,
    out: &mut Vec<u8>,
) -> Result<(), Memory>
    requires { IfSome offer.now IsShortOffer }
    ensures { OnOk result (out.new.items ≡ out.old.items ++ (optional peer_offer).written offer.now) }
{
    let Some(offer) = offer else {
        out.push(0)?;
        return Ok(());
    };
    out.push(1)?;
    put_text(offer.ident.as_slice(), out)?;
    put_endpoint(alloc, &offer.endpoint, out)
}

fn put_range(range: Range, out: &mut Vec<u8>) -> Result<(), Memory>
    ensures { OnOk result (out.new.items ≡ out.old.items ++ range_format.written range) }
{
    put_u64(range.lower, out)?;
    put_u64(range.upper, out)
}

fn put_each_range(ranges: &[Range], out: &mut Vec<u8>) -> Result<(), Memory>
    ensures { OnOk result (out.new.items ≡ out.old.items ++ flat_map range_format.written ranges.now) }
{
    for range in ranges {
        put_range(*range, out)?;
    }
    Ok(())
}

pub(crate) fn put_ranges(numbers: &RangeSet, out: &mut Vec<u8>) -> Result<(), Memory>
    requires { IsShort numbers.now.ranges }
    ensures { OnOk result (out.new.items ≡ out.old.items ++ ranges_format.written numbers.now.ranges) }
{
    let ranges = numbers.ranges();
    put_u32(ranges.len() as u32, out)?;
    put_each_range(ranges, out)
}

fn put_binding(binding: &Binding, out: &mut Vec<u8>) -> Result<(), Memory>
    requires { IsShortBinding binding.now }
    ensures { OnOk result (out.new.items ≡ out.old.items ++ binding_format.written binding.now) }
{
    put_text(binding.prefix.as_slice(), out)?;
    put_text(binding.space.as_slice(), out)
}

fn put_scope(scope: &[Binding], out: &mut Vec<u8>) -> Result<(), Memory>
    requires { AllByRecursion IsShortBinding scope.now }
    ensures { OnOk result (out.new.items ≡ out.old.items ++ flat_map binding_format.written scope.now) }
{
    for binding in scope {
        put_binding(binding, out)?;
    }
    Ok(())
}

#[tactic(auto, unfolding(crate::specs::Parts::payload))]
pub(crate) fn put_payload(payload: &Payload, out: &mut Vec<u8>) -> Result<(), Memory>
    requires { IsShortPayload payload.now }
    ensures { OnOk result (out.new.items ≡ out.old.items ++ payload_format.written payload.now) }
{
    put_text(payload.bytes.as_slice(), out)?;
    put_u32(payload.scope.len() as u32, out)?;
    put_scope(payload.scope.as_slice(), out)
}
