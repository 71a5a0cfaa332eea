//! Whether an endpoint reference of a record may be written into a message: WS-Addressing 1.0 Core, section 2.
ghost use Rattle.std.specs.Prelude.{◌≡◌, ◌↔◌, ◌<◌, ◌^◌, ◌∷◌, [], IfOk, IsTrue, length, map, nat_le};
ghost use Rattle.std.specs.List.{list_all};
ghost use Rattle.rm_base.specs.Limits.{parameter_bytes};
ghost use Rattle.soap_document.specs.Profile.Namespaces.{is_new_name};
ghost use Rattle.soap_document.specs.Profile.Tree.{attrs_of};
ghost use Rattle.soap_document.specs.Profile.View.{attrs_view, element_view};
ghost use Rattle.record_batch.specs.Writable.{IsEndpointWritable};
ghost use Rattle.wsa_headers.specs.Endpoint.{mark_name, params_length};
ghost use Rattle.wsa_headers.specs.Writable.{IsEprWritable};
ghost use Rattle.node_store.specs.Endpoints.{is_plain, may_go};

use node_laws::sizes::parts::{endpoint_len, uri_len};
use rm_base::Memory;
use rm_base::limits::{CONTENT_DEPTH, PARAMETER_BYTES};
use soap_document::profile::{Element, Item, is_shallow};
use soap_writer::stripped::laws::elements_may_be_written;
use soap_writer::values::is_named;
use std::alloc::Global;
use wsa_headers::{ADDRESSING, Epr};

/// Whether an endpoint reference that was read from a record may be written into a message.
pub(crate) fn is_endpoint_kept(alloc: Global, endpoint: &Epr) -> Result<bool, Memory>
    requires { IsEndpointWritable endpoint.now }
    ensures { IfOk result (λ kept. IsTrue kept ↔ IsEprWritable endpoint.now) }
{
    elements_may_be_written();
    may_go(alloc, endpoint)
}

/// Whether its parameters keep their limits.
fn may_go(alloc: Global, endpoint: &Epr) -> Result<bool, Memory>
    requires { length endpoint.now.params < 2 ^ 32 }
    ensures { IfOk result (λ kept. kept ≡ may_go endpoint.now.params) }
{
    if !are_plain(endpoint.params.as_slice()) {
        return Ok(false);
    }
    is_short(alloc, endpoint)
}

/// Whether its parameters are together not too long.
fn is_short(alloc: Global, endpoint: &Epr) -> Result<bool, Memory>
    requires { length endpoint.now.params < 2 ^ 32 }
    ensures { IfOk result (λ short. short ≡ nat_le (params_length endpoint.now.params) parameter_bytes) }
{
    let len = endpoint_len(alloc, endpoint)?;
    let around = 8 + uri_len(&endpoint.address) + 4 * endpoint.params.len() as u64;
    Ok(len <= around + PARAMETER_BYTES as u64)
}

fn are_plain(params: &[Element]) -> bool
    ensures { result ≡ list_all is_plain (map element_view params.now) }
{
    for param in params {
        if !is_plain(param) {
            return false;
        }
    }
    true
}

fn is_plain(param: &Element) -> bool
    ensures { result ≡ is_plain (element_view param.now) }
{
    is_unmarked(param) && is_shallow(param, CONTENT_DEPTH)
}

// Whether it lacks the mark of a reference parameter in a header: SOAP Binding, section 3.3.
fn is_unmarked(param: &Element) -> bool
    ensures { result ≡ is_new_name mark_name (attrs_of (element_view param.now)) }
{
    are_no_marks(param.items.as_slice())
}

fn are_no_marks(items: &[Item]) -> bool
    ensures { result ≡ is_new_name mark_name (attrs_view items.now) }
{
    for item in items {
        if !is_no_mark(item) {
            return false;
        }
    }
    true
}

fn is_no_mark(item: &Item) -> bool
    ensures { result ≡ is_new_name mark_name (attrs_view (item.now ∷ [])) }
{
    match item {
        Item::Attribute(attr) => !is_named(&attr.name, ADDRESSING, b"IsReferenceParameter"),
        _ => true,
    }
}
