//! The parts of an Envelope, taken apart: an optional Header, and a Body.
ghost use Rattle.std.specs.Prelude.{◌≡◌, ◌∷◌, [], ◌++◌, ◌↔◌, IsTrue, IfSome, IfOk, OnOk, Some, option_map};
ghost use Rattle.std.specs.Vec.Iter.{into_iter_items};
ghost use Rattle.soap_document.specs.Profile.Tree.{none, name_of, decls_of, parts_of, children_of};
ghost use Rattle.soap_document.specs.Profile.View.{element_view, decls_view, parts_view};
ghost use Rattle.soap_envelope.specs.Envelope.{IsSpaced, name_in};
ghost use Rattle.soap_envelope.specs.Steps.{BodyFound, Comes, Follows, IsSpacing, Outlined};

use rm_base::{Binding, Blob, Bytes, Memory};
use soap_document::is_white;
use soap_document::profile::{Element, Elements, Item, Name, Parts, is_part};
use std::alloc::Global;
use std::vec::IntoIter;

/// An element that is taken apart: its name, its declarations, and its parts among what it has.
#[derive(Debug, Drop)]
pub(crate) struct TakenApart {
    pub(crate) name: Name,
    pub(crate) decls: Vec<Binding>,
    pub(crate) items: Vec<Item>,
}

pub(crate) fn taken_apart(alloc: Global, element: Element) -> Result<TakenApart, Memory>
    ensures name { IfOk result (λ opened. opened.name ≡ name_of (element_view element)) }
    ensures decls { IfOk result (λ opened. opened.decls.items ≡ decls_of (element_view element)) }
    ensures parts { IfOk result (λ opened. parts_view opened.items.items ≡ parts_of (element_view element)) }
{
    let Element { name, items } = element;
    let decls = declarations(alloc, items.as_slice())?;
    Ok(TakenApart { name, decls, items })
}

fn declarations(alloc: Global, items: &[Item]) -> Result<Vec<Binding>, Memory>
    ensures { IfOk result (λ decls. decls.items ≡ decls_view items.now) }
{
    let mut decls = Vec::new(alloc);
    for item in items {
        declare(alloc, item, &mut decls)?;
    }
    Ok(decls)
}

fn declare(alloc: Global, item: &Item, decls: &mut Vec<Binding>) -> Result<(), Memory>
    ensures { OnOk result (decls.new.items ≡ decls.old.items ++ decls_view (item.now ∷ [])) }
{
    if let Item::Declaration(declaration) = item {
        let prefix = Blob::from_slice(alloc, declaration.prefix.as_slice())?;
        let space = Blob::from_slice(alloc, declaration.space.as_slice())?;
        decls.push(Binding { prefix, space })?;
    }
    Ok(())
}

/// The Header and the Body among an Envelope's parts, if they are those of one, where SOAP has this namespace.
pub(crate) fn outline(items: Vec<Item>, soap: &[u8]) -> Option<(Option<Element>, Element)>
    ensures { Outlined soap.now (parts_view items.items) result }
{
    let mut parts = items.into_iter();
    let Next::Child(first) = next_child(&mut parts) else {
        return None;
    };
    if is_named(&first, soap, b"Header") {
        return with_header(first, soap, &mut parts);
    }
    if is_named(&first, soap, b"Body") && is_end(&mut parts) {
        return Some((None, first));
    }
    None
}

fn with_header(
    header: Element,
    soap: &[u8],
    parts: &mut IntoIter<Item>,
) -> Option<(Option<Element>, Element)>
    ensures found { IfSome result (λ found. found.0 ≡ Some header) }
    ensures alone { BodyFound soap.now (parts_view (into_iter_items parts.old)) (option_map (λ found. found.1) result) }
{
    let Next::Child(body) = next_child(parts) else {
        return None;
    };
    if is_named(&body, soap, b"Body") && is_end(parts) {
        return Some((Some(header), body));
    }
    None
}

// Nothing is left but white space.
fn is_end(parts: &mut IntoIter<Item>) -> bool
    ensures { IsTrue result ↔ IsSpaced (parts_view (into_iter_items parts.old)) none }
{
    match next_child(parts) {
        Next::End => true,
        Next::Child(_) => false,
        Next::Text(_) => false,
    }
}

fn is_named(element: &Element, soap: &[u8], local: &[u8]) -> bool
    ensures { IsTrue result ↔ (name_of (element_view element.now) ≡ name_in soap.now local.now) }
{
    element.name.local() == local && element.name.space() == soap
}

// What comes next among parts.
#[derive(Debug, Drop)]
enum Next {
    Child(Element),
    Text(Bytes),
    End,
}

// The same, but for white space.
fn next_child(parts: &mut IntoIter<Item>) -> Next
    ensures { Follows (parts_view (into_iter_items parts.old)) result (parts_view (into_iter_items parts.new)) }
{
    let next = next_part(parts);
    if is_spacing(&next) {
        return next_part(parts);
    }
    next
}

fn next_part(parts: &mut IntoIter<Item>) -> Next
    ensures { Comes (parts_view (into_iter_items parts.old)) result (parts_view (into_iter_items parts.new)) }
{
    while let Some(item) = parts.next() {
        match item {
            Item::Child(child) => return Next::Child(child),
            Item::Text(text) => return Next::Text(text),
            Item::Declaration(_) => {}
            Item::Attribute(_) => {}
        }
    }
    Next::End
}

#[tactic(auto, using(crate::proofs::Outlines::white_is_tested))]
fn is_spacing(next: &Next) -> bool
    ensures { IsTrue result ↔ IsSpacing next.now }
{
    match next {
        Next::Text(text) => is_white(text.as_slice()),
        _ => false,
    }
}

/// The elements among what an element has.
pub(crate) fn children(alloc: Global, items: Vec<Item>) -> Result<Elements, Memory>
    ensures { IfOk result (λ children. children ≡ children_of (parts_view items.items)) }
{
    let mut children = Elements::new(alloc);
    for item in items {
        if let Item::Child(child) = item {
            children.push(child)?;
        }
    }
    Ok(children)
}

/// The parts among what an element has.
#[tactic(auto, using(crate::proofs::Parted::taken, crate::proofs::Parted::passed, crate::proofs::Parted::join_none))]
pub(crate) fn parts(alloc: Global, items: Vec<Item>) -> Result<Parts, Memory>
    ensures { IfOk result (λ parts. parts ≡ parts_view items.items) }
{
    let mut parts = Parts::new(alloc);
    for item in items {
        if is_part(&item) {
            parts.push(item)?;
        }
    }
    Ok(parts)
}
