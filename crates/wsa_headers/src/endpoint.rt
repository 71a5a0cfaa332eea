//! Endpoint references: WS-Addressing 1.0 Core, section 2.
ghost use Rattle.std.specs.Prelude.{◌≡◌, ◌++◌, map, IfOk, Some};
ghost use Rattle.soap_document.specs.Profile.Tree.{name_of, children_of};
ghost use Rattle.soap_document.specs.Profile.View.{element_view, item_view, items_view, parts_view};
ghost use Rattle.soap_writer.specs.Values.Outcome.{Gives};
ghost use Rattle.soap_writer.specs.Values.Steps.{lent_trees};
ghost use Rattle.wsa_headers.specs.Addressing.{Answers, blamed};
ghost use Rattle.wsa_headers.specs.Endpoint.{uri_of, address_in, unmarked, param, params_among, params_in};
ghost use Rattle.wsa_headers.specs.Endpoint.{kept_params, epr_in, epr_of};
ghost use Rattle.wsa_headers.specs.Steps.{is_mark_item, unmarked_items};

use crate::error::AddressingError;
use crate::room::may_keep;
use rm_base::{Blob, Memory, Uri};
use soap_document::profile::{Element, Elements, Item, strip};
use soap_writer::values::{Flaw, find_all, find_single, is_named, read_trimmed, read_uri};
use std::alloc::Global;

/// The namespace of WS-Addressing 1.0: Core, section 1.2.
pub const ADDRESSING: &[u8] = b"http://www.w3.org/2005/08/addressing";

/// An endpoint reference: where messages go, and the reference parameters that go with each of them. The parameters
/// have no declarations and no mark; metadata is not kept.
#[derive(Debug)]
pub struct Epr {
    pub address: Uri,
    pub params: Elements,
}

impl Drop for Epr {
    fn drop(self) {
        let Epr {
            address: _,
            params: _,
        } = self;
    }
}

impl Epr {
    /// The same endpoint reference again.
    pub fn copy(&self, alloc: Global) -> Result<Self, Memory>
        ensures { IfOk result (λ copy. copy ≡ self.now) }
    {
        let address = self.address.copy()?;
        let params = self.params.copy(alloc)?;
        Ok(Epr { address, params })
    }

    /// Its address and its reference parameters, which are moved out.
    pub fn into_parts(self) -> (Uri, Elements)
        ensures address { result.0 ≡ self.address }
        ensures params { result.1 ≡ self.params }
    {
        let Epr { address, params } = self;
        (address, params)
    }
}

/// An endpoint reference again, where there is one.
pub fn copy_reference(alloc: Global, reference: &Option<Epr>) -> Result<Option<Epr>, Memory>
    ensures { IfOk result (λ copy. copy ≡ reference.now) }
{
    match reference {
        Some(endpoint) => Ok(Some(endpoint.copy(alloc)?)),
        None => Ok(None),
    }
}

/// An element of text that is an address. Malformed exactly where the element has no single Address that is an address.
pub fn read_address_of(alloc: Global, element: &Element) -> Result<Uri, Flaw>
    ensures { Gives (λ uri. uri) result (uri_of (element_view element.now)) }
{
    let bytes = read_trimmed(alloc, element)?;
    read_uri(alloc, bytes.as_slice())
}

#[tactic(auto, unfolding(crate::specs::Endpoint::address_in))]
fn read_address(alloc: Global, items: &[Item]) -> Result<Uri, Flaw>
    ensures { Gives (λ uri. uri) result (address_in (parts_view items.now)) }
{
    let child = find_single(items, ADDRESSING, b"Address")?;
    read_address_of(alloc, child)
}

/// An element without its declarations and its mark, as a reference parameter is kept.
pub fn unmark(alloc: Global, element: &Element) -> Result<Element, Memory>
    ensures { IfOk result (λ e. element_view e ≡ param (element_view element.now)) }
{
    let stripped = strip(alloc, element)?;
    without_mark(alloc, stripped)
}

#[tactic(auto, using(crate::proofs::Marks::unmarked_view))]
fn without_mark(alloc: Global, element: Element) -> Result<Element, Memory>
    ensures { IfOk result (λ e. element_view e ≡ unmarked (element_view element)) }
{
    let Element { name, items } = element;
    let items = unmarked_among(alloc, items)?;
    Ok(Element { name, items })
}

fn unmarked_among(alloc: Global, items: Vec<Item>) -> Result<Vec<Item>, Memory>
    ensures { IfOk result (λ v. items_view v.items ≡ unmarked_items (items_view items.items)) }
{
    let mut kept = Vec::with_capacity(alloc, items.len())?;
    for item in items {
        if !is_mark(&item) {
            kept.push(item)?;
        }
    }
    Ok(kept)
}

fn is_mark(item: &Item) -> bool
    ensures { result ≡ is_mark_item (item_view item.now) }
{
    match item {
        Item::Attribute(attr) => is_named(&attr.name, ADDRESSING, b"IsReferenceParameter"),
        _ => false,
    }
}

// The children of one element ReferenceParameters, behind those of others.
#[tactic(auto, using(soap_writer::specs::Values::ChildLaws::children_of_more))]
fn push_params(alloc: Global, items: &[Item], params: &mut Elements) -> Result<(), Flaw>
    ensures { Gives (λ _. params.new) result (Some (params.old ++ map param (children_of (parts_view items.now)))) }
{
    for item in items {
        if let Item::Child(child) = item {
            params.push(unmark(alloc, child)?)?;
        }
    }
    Ok(())
}

fn read_params(alloc: Global, holders: &[&Element]) -> Result<Elements, Flaw>
    ensures { Gives (λ e. e) result (Some (params_among (lent_trees holders.now))) }
{
    let mut params = Elements::new(alloc);
    for holder in holders {
        push_params(alloc, holder.items.as_slice(), &mut params)?;
    }
    Ok(params)
}

// The parameters, where they keep their limits.
fn keep(params: Elements) -> Result<Elements, Flaw>
    ensures { Gives (λ e. e) result (kept_params params) }
{
    if !may_keep(params.as_slice()) {
        return Err(Flaw::Malformed);
    }
    Ok(params)
}

#[tactic(auto, unfolding(crate::specs::Endpoint::epr_in))]
fn read_parts(alloc: Global, items: &[Item]) -> Result<Epr, Flaw>
    ensures { Gives (λ e. e) result (epr_in (parts_view items.now)) }
{
    let address = read_address(alloc, items)?;
    let holders = find_all(alloc, items, ADDRESSING, b"ReferenceParameters")?;
    let params = keep(read_params(alloc, holders.as_slice())?)?;
    Ok(Epr { address, params })
}

/// The endpoint reference that an element is, whatever the element's name.
pub fn read_reference(alloc: Global, element: &Element) -> Result<Epr, Flaw>
    ensures { Gives (λ e. e) result (epr_of (element_view element.now)) }
{
    read_parts(alloc, element.items.as_slice())
}

/// The same; where the element is none, it is a bad header of its own local name.
/// - BadHeader: exactly where the element is no endpoint reference within the limits, with the element's name. No other
///   answer but Memory comes.
pub fn read_epr(alloc: Global, element: &Element) -> Result<Epr, AddressingError>
    ensures { Answers result (blamed (name_of (element_view element.now)).local (epr_of (element_view element.now))) }
{
    match read_reference(alloc, element) {
        Ok(reference) => Ok(reference),
        Err(Flaw::Memory) => Err(AddressingError::Memory),
        Err(Flaw::Malformed) => Err(AddressingError::BadHeader {
            name: Blob::from_slice(alloc, element.name.local())?,
        }),
    }
}
