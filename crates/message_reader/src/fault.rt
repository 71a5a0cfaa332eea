//! Faults: SOAP 1.2 Part 1, section 5.4. None is refused: what can't be read is absent.
ghost use Rattle.std.specs.Prelude.{◌≡◌, ◌∷◌, [], ◌++◌, Option, map, option_map, IfOk, OnOk, Some};
ghost use Rattle.soap_document.specs.Profile.Tree.{children_of, without_declarations};
ghost use Rattle.soap_document.specs.Profile.View.{element_view, parts_view};
ghost use Rattle.soap_writer.specs.Values.Children.{name_in, children_named};
ghost use Rattle.soap_writer.specs.Values.Outcome.{Gives};
ghost use Rattle.soap_writer.specs.Values.Steps.{lent_trees};
ghost use Rattle.wsa_headers.specs.Addressing.{first_of};
ghost use Rattle.message_reader.specs.Faults.{
  first_named,
  value_name,
  code_called as code_of_local,
  code_named as code_of,
  spaced,
  subcode_name,
  inner_name,
  codes_with as codes_of,
  codes_below,
  codes_in,
  codes_or_receiver,
  reason_in,
  or_empty,
  stripped_in,
  detail_in,
  fault_in,
};

use rm_base::{Binding, Blob, Memory};
use rm_message::{FaultBody, FaultCode};
use soap_document::profile::{Element, Elements, Item, Name, strip};
use soap_writer::values::{Flaw, is_named, read_qname, read_trimmed};
use std::alloc::Global;

/// The code of a Fault, and the names of its Subcode and of the one within it.
#[derive(Debug, Drop)]
pub(crate) struct Codes {
    pub(crate) code: FaultCode,
    pub(crate) subcode: Option<Name>,
    pub(crate) inner: Option<Name>,
}

// The first child of a name.
#[tactic(auto, using(soap_writer::specs::Values::ChildLaws::children_more))]
pub(crate) fn find_first<'a>(items: &'a [Item], space: &[u8], local: &[u8]) -> Option<&'a Element>
    ensures { option_map (λ e. element_view e.now) result
        ≡ first_of (children_named (name_in space.now local.now) (parts_view items.now)) }
{
    for item in items {
        if let Item::Child(child) = item {
            if is_named(&child.name, space, local) {
                return Some(child);
            }
        }
    }
    None
}

fn find_part<'a>(element: &'a Element, soap: &[u8], local: &[u8]) -> Option<&'a Element>
    ensures { option_map (λ e. element_view e.now) result ≡ first_named soap.now local.now (element_view element.now) }
{
    find_first(element.items.as_slice(), soap, local)
}

// What was read, where it could be.
pub(crate) fn if_readable<T: Drop>(read: Result<T, Flaw>) -> Result<Option<T>, Memory>
    ensures { (pure : Option T) → Gives (λ x. x) read pure → IfOk result (λ found. found ≡ pure) }
{
    match read {
        Ok(value) => Ok(Some(value)),
        Err(Flaw::Memory) => Err(Memory),
        Err(Flaw::Malformed) => Ok(None),
    }
}

// The name in the Value of a Code or a Subcode, which stands in these elements, the innermost of which comes first.
#[tactic(auto, unfolding(crate::specs::Faults::value_name))]
fn read_value<'x>(
    alloc: Global,
    soap: &[u8],
    scope: &[Binding],
    holder: &'x Element,
    outer: &[&'x Element],
) -> Result<Name, Flaw>
    ensures { Gives (λ name. name) result
        (value_name soap.now scope.now (element_view holder.now) (lent_trees outer.now)) }
{
    let Some(value) = find_part(holder, soap, b"Value") else {
        return Err(Flaw::Malformed);
    };
    let bytes = read_trimmed(alloc, value)?;
    let mut around = Vec::new(alloc);
    around.push(value)?;
    around.push(holder)?;
    around.extend_from_slice(outer)?;
    read_qname(alloc, bytes.as_slice(), around.as_slice(), scope)
}

fn code_called(local: &[u8]) -> Option<FaultCode>
    ensures { result ≡ code_of_local local.now }
{
    if local == b"VersionMismatch".as_slice() {
        return Some(FaultCode::VersionMismatch);
    }
    if local == b"MustUnderstand".as_slice() {
        return Some(FaultCode::MustUnderstand);
    }
    if local == b"DataEncodingUnknown".as_slice() {
        return Some(FaultCode::DataEncodingUnknown);
    }
    if local == b"Sender".as_slice() {
        return Some(FaultCode::Sender);
    }
    if local == b"Receiver".as_slice() {
        return Some(FaultCode::Receiver);
    }
    None
}

fn code_named(name: &Name, soap: &[u8]) -> Option<FaultCode>
    ensures { result ≡ code_of soap.now name.now }
{
    if name.space() == soap {
        return code_called(name.local());
    }
    None
}

#[tactic(auto, unfolding(crate::specs::Faults::subcode_name))]
fn read_subcode<'x>(
    alloc: Global,
    soap: &[u8],
    scope: &[Binding],
    subcode: &'x Element,
    outer: &[&'x Element],
) -> Result<Name, Flaw>
    ensures { Gives (λ name. name) result
        (subcode_name soap.now scope.now (element_view subcode.now) (lent_trees outer.now)) }
{
    let name = read_value(alloc, soap, scope, subcode, outer)?;
    if name.space().is_empty() {
        return Err(Flaw::Malformed);
    }
    Ok(name)
}

#[tactic(auto, unfolding(crate::specs::Faults::inner_name))]
fn read_inner<'x>(
    alloc: Global,
    soap: &[u8],
    scope: &[Binding],
    subcode: &'x Element,
    outer: &[&'x Element],
) -> Result<Name, Flaw>
    ensures { Gives (λ name. name) result
        (inner_name soap.now scope.now (element_view subcode.now) (lent_trees outer.now)) }
{
    let Some(inner) = find_part(subcode, soap, b"Subcode") else {
        return Err(Flaw::Malformed);
    };
    let mut around = Vec::new(alloc);
    around.push(subcode)?;
    around.extend_from_slice(outer)?;
    read_subcode(alloc, soap, scope, inner, around.as_slice())
}

fn codes_with(code: FaultCode, subcode: Option<Name>, inner: Option<Name>) -> Codes
    ensures { result ≡ codes_of code subcode inner }
{
    let Some(name) = subcode else {
        return Codes {
            code,
            subcode: None,
            inner: None,
        };
    };
    Codes {
        code,
        subcode: Some(name),
        inner,
    }
}

// A code with what stands below it.
fn read_below<'x>(
    alloc: Global,
    soap: &[u8],
    scope: &[Binding],
    code: FaultCode,
    subcode: Option<&'x Element>,
    outer: &[&'x Element],
) -> Result<Codes, Memory>
    ensures { IfOk result (λ found. found ≡ codes_below soap.now scope.now code
        (option_map (λ e. element_view e.now) subcode.entry) (lent_trees outer.now)) }
{
    let Some(subcode) = subcode else {
        return Ok(Codes {
            code,
            subcode: None,
            inner: None,
        });
    };
    let name = if_readable(read_subcode(alloc, soap, scope, subcode, outer))?;
    let inner = if_readable(read_inner(alloc, soap, scope, subcode, outer))?;
    Ok(codes_with(code, name, inner))
}

#[tactic(auto, unfolding(crate::specs::Faults::codes_in))]
fn read_codes(alloc: Global, soap: &[u8], scope: &[Binding], fault: &Element) -> Result<Codes, Flaw>
    ensures { Gives (λ found. found) result (codes_in soap.now scope.now (element_view fault.now)) }
{
    let Some(holder) = find_part(fault, soap, b"Code") else {
        return Err(Flaw::Malformed);
    };
    let name = read_value(alloc, soap, scope, holder, &[fault])?;
    let Some(code) = code_named(&name, soap) else {
        return Err(Flaw::Malformed);
    };
    let subcode = find_part(holder, soap, b"Subcode");
    Ok(read_below(alloc, soap, scope, code, subcode, &[holder, fault])?)
}

fn or_receiver(found: Option<Codes>) -> Codes
    ensures { result ≡ codes_or_receiver found }
{
    match found {
        Some(found) => found,
        None => Codes {
            code: FaultCode::Receiver,
            subcode: None,
            inner: None,
        },
    }
}

#[tactic(auto, unfolding(crate::specs::Faults::reason_in))]
fn read_reason(alloc: Global, soap: &[u8], fault: &Element) -> Result<Blob, Flaw>
    ensures { Gives (λ reason. reason) result (reason_in soap.now (element_view fault.now)) }
{
    let Some(reason) = find_part(fault, soap, b"Reason") else {
        return Err(Flaw::Malformed);
    };
    let Some(text) = find_part(reason, soap, b"Text") else {
        return Err(Flaw::Malformed);
    };
    Ok(Blob::from_vec(read_trimmed(alloc, text)?))
}

pub(crate) fn blob_or_empty(alloc: Global, found: Option<Blob>) -> Blob
    ensures { result ≡ or_empty found }
{
    match found {
        Some(blob) => blob,
        None => Blob::new(alloc),
    }
}

// The elements among items, without declarations.
#[tactic(auto, using(soap_writer::specs::Values::ChildLaws::children_of_more))]
fn strip_each(alloc: Global, items: &[Item]) -> Result<Elements, Memory>
    ensures { IfOk result (λ elements. elements ≡ map without_declarations (children_of (parts_view items.now))) }
{
    let mut elements = Elements::new(alloc);
    for item in items {
        if let Item::Child(child) = item {
            elements.push(strip(alloc, child)?)?;
        }
    }
    Ok(elements)
}

pub(crate) fn read_stripped(alloc: Global, holder: Option<&Element>) -> Result<Elements, Memory>
    ensures { IfOk result (λ elements. elements ≡ stripped_in (option_map (λ e. element_view e.now) holder.entry)) }
{
    match holder {
        Some(holder) => strip_each(alloc, holder.items.as_slice()),
        None => Ok(Elements::new(alloc)),
    }
}

fn read_detail(alloc: Global, soap: &[u8], fault: &Element) -> Result<Elements, Memory>
    ensures { IfOk result (λ elements. elements ≡ detail_in soap.now (element_view fault.now)) }
{
    read_stripped(alloc, find_part(fault, soap, b"Detail"))
}

/// What a Fault says, where these bindings are in force around it.
pub(crate) fn read_fault(
    alloc: Global,
    soap: &[u8],
    scope: &[Binding],
    fault: &Element,
) -> Result<FaultBody, Memory>
    ensures { IfOk result (λ body. body ≡ fault_in soap.now scope.now (element_view fault.now)) }
{
    let Codes {
        code,
        subcode,
        inner,
    } = or_receiver(if_readable(read_codes(alloc, soap, scope, fault))?);
    let reason = blob_or_empty(alloc, if_readable(read_reason(alloc, soap, fault))?);
    Ok(FaultBody {
        code,
        subcode,
        inner,
        reason,
        detail: read_detail(alloc, soap, fault)?,
    })
}
