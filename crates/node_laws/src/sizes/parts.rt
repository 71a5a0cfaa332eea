//! How many bytes the values of records take. Sums stand still at the greatest number of 64 bits.
ghost use Rattle.std.specs.Prelude.{◌≡◌, ◌*◌, ◌<◌, false, length, map, IfOk, OnOk, IfSome};
ghost use Rattle.std.specs.List.{sum_by};
ghost use Rattle.rm_sides.specs.Ranges.Ranges.{IsCanonical};
ghost use Rattle.rm_base.specs.Text.{IsText};
ghost use Rattle.soap_document.specs.Profile.View.{element_view};
ghost use Rattle.soap_writer.specs.ElementText.{element_text};
ghost use Rattle.record_batch.specs.Writable.{IsLapseWritable, IsNumber32, IsNumber64, IsOwnOfferWritable};
ghost use Rattle.node_laws.specs.Sizes.Size.{
  capped,
  param_size,
  endpoint_size,
  accept_size,
  deadline_size,
  own_offer_size,
  peer_offer_size,
  binding_size,
  payload_size,
};
ghost use Rattle.node_laws.specs.Sizes.Typed.{IsPeerOfferTyped};

use record_batch::{OwnOffer, PeerOffer};
use rm_base::{Binding, Blob, Ident, Lapse, Memory, Payload, Uri};
use rm_sides::ranges::RangeSet;
use soap_document::profile::Element;
use soap_writer::write_element;
use std::alloc::Global;
use wsa_headers::Epr;

/// A number of four bytes.
pub fn u32_len(number: u32) -> u64
    ensures len { result ≡ 4 }
    ensures number { IsNumber32 number }
{
    let _number = number;
    4
}

/// A number of eight bytes.
pub fn u64_len(number: u64) -> u64
    ensures len { result ≡ 8 }
    ensures number { IsNumber64 number }
{
    let _number = number;
    8
}

/// A number of one byte.
pub fn u8_len(number: u8) -> u64
    ensures len { result ≡ 1 }
    ensures number { number < 256 }
{
    let _number = number;
    1
}

/// A duration.
pub fn lapse_len(lapse: Lapse) -> u64
    ensures len { result ≡ 16 }
    ensures numbers { IsLapseWritable lapse }
{
    u64_len(lapse.months) + u64_len(lapse.ms)
}

/// An address.
pub fn uri_len(uri: &Uri) -> u64
    ensures len { result ≡ length uri.now }
    ensures is_text { IsText 2048 uri.now }
{
    uri.as_slice().len() as u64
}

/// An identifier.
pub fn ident_len(ident: &Ident) -> u64
    ensures len { result ≡ length ident.now }
    ensures is_text { IsText 512 ident.now }
{
    ident.as_slice().len() as u64
}

/// Canonical ranges, 16 bytes each.
pub fn ranges_len(numbers: &RangeSet) -> u64
    ensures len { result ≡ capped (16 * length numbers.now.ranges) }
    ensures canonical { IsCanonical numbers.now.ranges }
{
    (numbers.ranges().len() as u64).saturating_mul(16)
}

/// A moment that may be absent.
pub fn deadline_len(deadline: Option<u64>) -> u64
    ensures len { result ≡ deadline_size deadline }
    ensures number { IfSome deadline IsNumber64 }
{
    match deadline {
        None => 1,
        Some(_moment) => 9,
    }
}

/// An offer of the node's own that may be absent.
pub fn own_offer_len(offer: Option<OwnOffer>) -> u64
    ensures len { result ≡ own_offer_size offer }
    ensures number { IfSome offer IsOwnOfferWritable }
{
    match offer {
        None => 1,
        Some(offer) => {
            let _counter = offer.counter;
            10
        }
    }
}

/// The text of an element that isn't marked.
pub fn element_len(alloc: Global, element: &Element) -> Result<u64, Memory>
    ensures { IfOk result (λ n. n ≡ length (element_text false (element_view element.now))) }
{
    let mut bytes = Blob::new(alloc);
    write_element(alloc, element, false, &mut bytes)?;
    Ok(bytes.len() as u64)
}

// A parameter, which is a text behind its length.
fn param_len(alloc: Global, param: &Element) -> Result<u64, Memory>
    ensures { IfOk result (λ n. n ≡ capped (param_size (element_view param.now))) }
{
    Ok(element_len(alloc, param)?.saturating_add(4))
}

fn params_len(alloc: Global, params: &[Element]) -> Result<u64, Memory>
    ensures { IfOk result (λ n. n ≡ capped (sum_by param_size (map element_view params.now))) }
{
    let mut total: u64 = 0;
    for param in params {
        total = total.saturating_add(param_len(alloc, param)?);
    }
    Ok(total)
}

/// An endpoint reference.
pub fn endpoint_len(alloc: Global, endpoint: &Epr) -> Result<u64, Memory>
    ensures { IfOk result (λ n. n ≡ capped (endpoint_size endpoint.now)) }
{
    let params = params_len(alloc, endpoint.params.as_slice())?;
    Ok((8 + uri_len(&endpoint.address)).saturating_add(params))
}

/// An endpoint reference that may be absent.
pub fn accept_len(alloc: Global, accept: &Option<Epr>) -> Result<u64, Memory>
    ensures { IfOk result (λ n. n ≡ capped (accept_size accept.now)) }
{
    match accept {
        None => Ok(1),
        Some(endpoint) => Ok(endpoint_len(alloc, endpoint)?.saturating_add(1)),
    }
}

/// An offer of the peer's that may be absent.
pub fn peer_offer_len(alloc: Global, offer: &Option<PeerOffer>) -> Result<u64, Memory>
    ensures len { IfOk result (λ n. n ≡ capped (peer_offer_size offer.now)) }
    ensures ident { OnOk result (IfSome offer.now IsPeerOfferTyped) }
{
    match offer {
        None => Ok(1),
        Some(offer) => {
            let ident = ident_len(&offer.ident);
            Ok(endpoint_len(alloc, &offer.endpoint)?.saturating_add(5 + ident))
        }
    }
}

fn binding_len(binding: &Binding) -> u64
    ensures { result ≡ capped (binding_size binding.now) }
{
    let prefix = binding.prefix.len() as u64;
    let space = binding.space.len() as u64;
    prefix.saturating_add(space).saturating_add(8)
}

fn scope_len(scope: &[Binding]) -> u64
    ensures { result ≡ capped (sum_by binding_size scope.now) }
{
    let mut total: u64 = 0;
    for binding in scope {
        total = total.saturating_add(binding_len(binding));
    }
    total
}

/// What a message carried.
pub fn payload_len(payload: &Payload) -> u64
    ensures { result ≡ capped (payload_size payload.now) }
{
    let scope = scope_len(payload.scope.as_slice());
    scope
        .saturating_add(payload.bytes.len() as u64)
        .saturating_add(8)
}
