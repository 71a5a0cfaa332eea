//! Names in values, read by the bindings in force where they stand: Namespaces in XML 1.0, section 6.
ghost use Rattle.std.specs.Prelude.{◌≡◌, option_map};
ghost use Rattle.soap_document.specs.Profile.Namespaces.{split as split_of, bound as bound_by, element_space};
ghost use Rattle.soap_document.specs.Profile.View.{decls_view};
ghost use Rattle.soap_writer.specs.Values.Outcome.{Gives};
ghost use Rattle.soap_writer.specs.Values.QNames.{within, is_name_value as name_test, qname_in};
ghost use Rattle.soap_writer.specs.Values.Steps.{lent_trees};

use crate::values::flaw::Flaw;
use rm_base::Binding;
use soap_document::profile::{Element, Item, Name, Shared, XML_SPACE};
use soap_document::{cut, is_qname};
use std::alloc::Global;

/// The name that bytes are within these elements, the innermost of which comes first, around which the outer bindings
/// are in force. A name without a prefix is in the default namespace. Malformed exactly where the bytes are no name, or
/// one whose prefix is not bound there.
pub fn read_qname(
    alloc: Global,
    bytes: &[u8],
    elements: &[&Element],
    outer: &[Binding],
) -> Result<Name, Flaw>
    ensures { Gives (λ name. name) result (qname_in (within (lent_trees elements.now) outer.now) bytes.now) }
{
    if !is_name_value(bytes) {
        return Err(Flaw::Malformed);
    }
    let (prefix, local) = split(bytes);
    let Some(space) = find_space(prefix, elements, outer) else {
        return Err(Flaw::Malformed);
    };
    let space = Shared::from_slice(alloc, space)?;
    Ok(Name::new(alloc, space, local)?)
}

fn is_name_value(bytes: &[u8]) -> bool
    ensures { result ≡ name_test bytes.now }
{
    let (prefix, _local) = split(bytes);
    is_qname(bytes) && prefix != b"xmlns".as_slice()
}

// The prefix, empty where there is none, and the local name.
fn split(bytes: &[u8]) -> (&[u8], &[u8])
    ensures { (result.0.now, result.1.now) ≡ split_of bytes.now }
{
    match cut(b':', bytes) {
        Some(parts) => parts,
        None => (b"".as_slice(), bytes),
    }
}

// The namespace of names with this prefix.
fn find_space<'a>(prefix: &[u8], elements: &[&'a Element], outer: &'a [Binding]) -> Option<&'a [u8]>
    ensures { option_map (λ space. space.now) result
        ≡ element_space prefix.now (within (lent_trees elements.now) outer.now) }
{
    if prefix.is_empty() {
        return match find_bound(b"", elements, outer) {
            Some(space) => Some(space),
            None => Some(b"".as_slice()),
        };
    }
    if prefix == b"xml".as_slice() {
        return Some(XML_SPACE);
    }
    find_bound(prefix, elements, outer)
}

// What a prefix is bound to: the innermost binding counts.
fn find_bound<'a>(prefix: &[u8], elements: &[&'a Element], outer: &'a [Binding]) -> Option<&'a [u8]>
    ensures { option_map (λ space. space.now) result
        ≡ bound_by prefix.now (within (lent_trees elements.now) outer.now) }
{
    for element in elements {
        if let Some(space) = find_declared(prefix, element.items.as_slice()) {
            return Some(space);
        }
    }
    find_among(prefix, outer)
}

// What an element's own declarations bind it to.
fn find_declared<'a>(prefix: &[u8], items: &'a [Item]) -> Option<&'a [u8]>
    ensures { option_map (λ space. space.now) result ≡ bound_by prefix.now (decls_view items.now) }
{
    for item in items {
        if let Item::Declaration(declaration) = item {
            if declaration.prefix.as_slice() == prefix {
                return Some(declaration.space.as_slice());
            }
        }
    }
    None
}

fn find_among<'a>(prefix: &[u8], bindings: &'a [Binding]) -> Option<&'a [u8]>
    ensures { option_map (λ space. space.now) result ≡ bound_by prefix.now bindings.now }
{
    for binding in bindings {
        if binding.prefix.as_slice() == prefix {
            return Some(binding.space.as_slice());
        }
    }
    None
}
