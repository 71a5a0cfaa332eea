//! Names, declarations and attributes of a start tag.
ghost use Rattle.std.specs.Prelude.{◌≡◌, ℕ, List, [], ◌∷◌, ◌++◌, if◌then◌else◌, IfOk, OnOk, Some, None, map, true};
ghost use Rattle.std.specs.Prelude.{option_map, codes, not, ◌&&◌, ◌||◌};
ghost use Rattle.soap_lex.specs.Tests.{is_nil};
ghost use Rattle.std.specs.Str.{bytes_eq};
ghost use Rattle.soap_document.specs.Profile.Bare.{is_bare, are_bare};
ghost use Rattle.soap_document.specs.Profile.Items.{a_declaration, an_attribute};
ghost use Rattle.soap_document.specs.Profile.Namespaces.{
  split,
  xml_space,
  xmlns_space,
  declared_prefix,
  may_bind,
  declarations,
  prefix_space,
  element_space,
  attribute_space,
  element_name,
  expanded,
  attribute_name,
  are_distinct,
  are_distinct_names,
  is_new,
  is_new_name,
};
ghost use Rattle.soap_document.specs.Profile.Scope.{InForce, IsStacked};
ghost use Rattle.soap_document.specs.Profile.Steps.{Declares, Expands};
ghost use Rattle.rm_base.specs.declared.message.Binding.{Binding};
ghost use Rattle.soap_document.specs.Profile.View.{items_view, decls_view, attrs_view};

use crate::profile::keys::all_differ;
use crate::profile::name::Name;
use crate::profile::pool::Pool;
use crate::profile::recent::Recent;
use crate::profile::scope::Scope;
use crate::profile::shared::Shared;
use crate::profile::tree::{Attr, Declaration, Item};
use crate::{WrittenAttribute, cut};
use rm_base::{Bytes, Memory};
use std::alloc::Global;

/// The namespace that the prefix `xml` is bound to: Namespaces in XML 1.0, section 3.
pub const XML_SPACE: &[u8] = b"http://www.w3.org/XML/1998/namespace";

// Up to so many attributes are compared each with each.
const FEW: usize = 8;

const XMLNS_SPACE: &[u8] = b"http://www.w3.org/2000/xmlns/";

// The prefix, empty where there is none, and the local name.
fn split(name: &[u8]) -> (&[u8], &[u8])
    ensures { (result.0.now, result.1.now) ≡ split name.now }
{
    match cut(b':', name) {
        Some(parts) => parts,
        None => (b"".as_slice(), name),
    }
}

// The prefix that an attribute of this name declares.
fn declared_prefix(name: &[u8]) -> Option<&[u8]>
    ensures { option_map (λ x. x.now) result ≡ declared_prefix name.now }
{
    // Most names are no declarations, and their first letter says so.
    let [b'x', ..] = name else {
        return None;
    };
    if is_xmlns(name) {
        return Some(b"".as_slice());
    }
    let (prefix, local) = split(name);
    if is_xmlns(prefix) { Some(local) } else { None }
}

// Letter by letter: for a word that is so short, a comparison of slices takes many times as long.
#[inline]
fn is_xmlns(name: &[u8]) -> bool
    ensures { result ≡ bytes_eq name.now (codes "xmlns") }
{
    match name {
        [a, b, c, d, e] => { *a == b'x' && *b == b'm' && *c == b'l' && *d == b'n' && *e == b's' }
        _ => false,
    }
}

fn may_bind(prefix: &[u8], space: &[u8]) -> bool
    ensures { result ≡ may_bind prefix.now space.now }
{
    if prefix == b"xml".as_slice() {
        return space == XML_SPACE;
    }
    may_bind_other(prefix, space)
}

// The same of a prefix other than `xml`.
fn may_bind_other(prefix: &[u8], space: &[u8]) -> bool
    ensures { result ≡ (not (bytes_eq space.now xml_space) && (not (bytes_eq space.now xmlns_space)
        && (is_nil prefix.now || (not (is_nil space.now) && not (bytes_eq prefix.now (codes "xmlns")))))) }
{
    space != XML_SPACE && space != XMLNS_SPACE && may_declare(prefix, space)
}

// The prefix is empty, or it is bound to some namespace and is not `xmlns`.
fn may_declare(prefix: &[u8], space: &[u8]) -> bool
    ensures { result ≡ (is_nil prefix.now || (not (is_nil space.now) && not (bytes_eq prefix.now (codes "xmlns")))) }
{
    prefix.is_empty() || (!space.is_empty() && prefix != b"xmlns".as_slice())
}

/// Appends the declarations among attributes; whether each of them may stand.
pub(crate) fn declarations(
    alloc: Global,
    attributes: &[WrittenAttribute],
    items: &mut Vec<Item>,
    recent: &mut Recent,
) -> Result<bool, Memory>
    ensures { IfOk result (λ taken.
        option_map (λ decls. items_view items.old.items ++ map a_declaration decls) (declarations attributes.now)
        ≡ (if taken then Some (items_view items.new.items) else None)) }
{
    for attribute in attributes {
        if !declare(alloc, attribute, items, recent)? {
            return Ok(false);
        }
    }
    Ok(true)
}

// One attribute more; whether it may stand.
fn declare(
    alloc: Global,
    attribute: &WrittenAttribute,
    items: &mut Vec<Item>,
    recent: &mut Recent,
) -> Result<bool, Memory>
    ensures { IfOk result (Declares attribute.now (items_view items.old.items) (items_view items.new.items)) }
{
    let Some(prefix) = declared_prefix(attribute.name.as_slice()) else {
        return Ok(true);
    };
    let space = attribute.value.as_slice();
    if !may_bind(prefix, space) {
        return Ok(false);
    }
    items.push(Item::Declaration(Declaration {
        prefix: Bytes::from_slice(alloc, prefix)?,
        space: recent.shared(alloc, space)?,
    }))?;
    Ok(true)
}

fn prefix_space<'a>(prefix: &[u8], scope: &'a Scope) -> Option<&'a Shared>
    ensures { (bindings : List Binding) → IsStacked scope.now.stacks bindings
        → option_map (λ x. x.now) result ≡ prefix_space prefix.now bindings }
{
    if prefix == b"xml".as_slice() {
        Some(scope.xml())
    } else {
        scope.bound(prefix)
    }
}

// The same space, where there is one.
fn shared(space: Option<&Shared>) -> Result<Option<Shared>, Memory>
    ensures { IfOk result (λ found. found ≡ option_map (λ x. x.now) space.entry) }
{
    match space {
        Some(space) => Ok(Some(space.share()?)),
        None => Ok(None),
    }
}

fn element_space(prefix: &[u8], scope: &Scope) -> Result<Option<Shared>, Memory>
    ensures { (bindings : List Binding) → IsStacked scope.now.stacks bindings
        → IfOk result (λ found. found ≡ element_space prefix.now bindings) }
{
    if !prefix.is_empty() {
        return shared(prefix_space(prefix, scope));
    }
    match scope.bound(b"") {
        Some(space) => Ok(Some(space.share()?)),
        None => Ok(Some(scope.none().share()?)),
    }
}

fn attribute_space(prefix: &[u8], scope: &Scope) -> Result<Option<Shared>, Memory>
    ensures { (bindings : List Binding) → IsStacked scope.now.stacks bindings
        → IfOk result (λ found. found ≡ attribute_space prefix.now bindings) }
{
    if prefix.is_empty() {
        return Ok(Some(scope.none().share()?));
    }
    shared(prefix_space(prefix, scope))
}

// The name of these two parts, which may be one that was met before.
fn named(
    alloc: Global,
    written: &[u8],
    space: Shared,
    local: &[u8],
    pool: &Pool,
) -> Result<Name, Memory>
    ensures { IfOk result (λ name. name ≡ record { space = space; local = local.now }) }
{
    if let Some(name) = pool.same(written, space.as_slice(), local) {
        return name.share();
    }
    Name::new(alloc, space, local)
}

/// The expanded name of an element.
pub(crate) fn element_name(
    alloc: Global,
    written: &[u8],
    scope: &mut Scope,
) -> Result<Option<Name>, Memory>
    ensures name { (bindings : List Binding) → InForce scope.old bindings
        → IfOk result (λ found. found ≡ element_name bindings written.now) }
    ensures same { (bindings : List Binding) → InForce scope.old bindings → OnOk result (InForce scope.new bindings) }
{
    if let Some(name) = scope.elements.find(written) {
        return Ok(Some(name.share()?));
    }
    let (prefix, local) = split(written);
    let Some(space) = element_space(prefix, scope)? else {
        return Ok(None);
    };
    let name = named(alloc, written, space, local, &scope.elements)?;
    scope.elements.keep(alloc, written, &name)?;
    Ok(Some(name))
}

fn attribute_name(alloc: Global, written: &[u8], scope: &mut Scope) -> Result<Option<Name>, Memory>
    ensures name { (bindings : List Binding) → InForce scope.old bindings
        → IfOk result (λ found. found ≡ attribute_name bindings written.now) }
    ensures same { (bindings : List Binding) → InForce scope.old bindings → OnOk result (InForce scope.new bindings) }
{
    if let Some(name) = scope.attributes.find(written) {
        return Ok(Some(name.share()?));
    }
    let (prefix, local) = split(written);
    let Some(space) = attribute_space(prefix, scope)? else {
        return Ok(None);
    };
    let name = named(alloc, written, space, local, &scope.attributes)?;
    scope.attributes.keep(alloc, written, &name)?;
    Ok(Some(name))
}

/// Appends the attributes that are no declarations, with expanded names; whether all their prefixes are bound.
pub(crate) fn expanded(
    alloc: Global,
    attributes: &[WrittenAttribute],
    items: &mut Vec<Item>,
    scope: &mut Scope,
) -> Result<bool, Memory>
    ensures attrs { (bindings : List Binding) → InForce scope.old bindings → IfOk result (λ taken.
        option_map (λ attrs. items_view items.old.items ++ map an_attribute attrs)
        (expanded bindings attributes.now) ≡ (if taken then Some (items_view items.new.items) else None)) }
    ensures decls { OnOk result (decls_view items.new.items ≡ decls_view items.old.items) }
    ensures same { (bindings : List Binding) → InForce scope.old bindings → OnOk result (InForce scope.new bindings) }
{
    for attribute in attributes {
        if !expand(alloc, attribute, items, scope)? {
            return Ok(false);
        }
    }
    Ok(true)
}

// One attribute more; whether its prefix is bound.
fn expand(
    alloc: Global,
    attribute: &WrittenAttribute,
    items: &mut Vec<Item>,
    scope: &mut Scope,
) -> Result<bool, Memory>
    ensures attrs { (bindings : List Binding) → InForce scope.old bindings
        → IfOk result (Expands bindings attribute.now (items_view items.old.items) (items_view items.new.items)) }
    ensures decls { OnOk result (decls_view items.new.items ≡ decls_view items.old.items) }
    ensures same { (bindings : List Binding) → InForce scope.old bindings → OnOk result (InForce scope.new bindings) }
{
    if declared_prefix(attribute.name.as_slice()).is_some() {
        return Ok(true);
    }
    let Some(name) = attribute_name(alloc, attribute.name.as_slice(), scope)? else {
        return Ok(false);
    };
    let value = attribute.value.copy(alloc)?;
    items.push(Item::Attribute(Attr { name, value }))?;
    Ok(true)
}

/// No two attributes have the same written name.
pub(crate) fn are_distinct(alloc: Global, attributes: &[WrittenAttribute]) -> Result<bool, Memory>
    ensures { IfOk result (λ answer. answer ≡ are_distinct attributes.now) }
{
    if attributes.len() < 2 {
        return Ok(true);
    }
    if attributes.len() <= FEW {
        return Ok(few_are_distinct(attributes));
    }
    let mut keys = Vec::new(alloc);
    for attribute in attributes {
        keys.push((attribute.name.as_slice(), b"".as_slice()))?;
    }
    all_differ(keys)
}

// The same, each compared with each behind it.
fn few_are_distinct(attributes: &[WrittenAttribute]) -> bool
    ensures { result ≡ are_distinct attributes.now }
{
    let mut rest = attributes;
    while let [first, others @ ..] = rest {
        if !is_new(first.name.as_slice(), others) {
            return false;
        }
        rest = others;
    }
    true
}

fn is_new(name: &[u8], attributes: &[WrittenAttribute]) -> bool
    ensures { result ≡ is_new name.now attributes.now }
{
    attributes
        .iter()
        .all(|attribute| attribute.name.as_slice() != name)
}

/// These are more than a few attributes, none of which has a prefix.
pub(crate) fn are_many_bare(attributes: &[WrittenAttribute]) -> bool
    ensures { result ≡ true → are_bare attributes.now ≡ true }
{
    if attributes.len() <= FEW {
        return false;
    }
    are_bare(attributes)
}

fn are_bare(attributes: &[WrittenAttribute]) -> bool
    ensures { result ≡ are_bare attributes.now }
{
    attributes
        .iter()
        .all(|attribute| is_bare(attribute.name.as_slice()))
}

// A written name has no prefix.
fn is_bare(name: &[u8]) -> bool
    ensures { result ≡ is_bare name.now }
{
    match cut(b':', name) {
        Some(_) => false,
        None => true,
    }
}

/// No two attributes among these have the same expanded name.
pub(crate) fn are_distinct_names(alloc: Global, items: &[Item]) -> Result<bool, Memory>
    ensures { IfOk result (λ answer. answer ≡ are_distinct_names (attrs_view items.now)) }
{
    if items.len() < 2 {
        return Ok(true);
    }
    if items.len() <= FEW {
        return Ok(few_are_distinct_names(items));
    }
    let mut keys = Vec::new(alloc);
    for item in items {
        if let Item::Attribute(attr) = item {
            keys.push((attr.name.local(), attr.name.space()))?;
        }
    }
    all_differ(keys)
}

// The same, each compared with each behind it.
fn few_are_distinct_names(items: &[Item]) -> bool
    ensures { result ≡ are_distinct_names (attrs_view items.now) }
{
    let mut rest = items;
    while let [first, others @ ..] = rest {
        if let Item::Attribute(attr) = first
            && !is_new_name(&attr.name, others)
        {
            return false;
        }
        rest = others;
    }
    true
}

fn is_new_name(name: &Name, items: &[Item]) -> bool
    ensures { result ≡ is_new_name name.now (attrs_view items.now) }
{
    items.iter().all(|item| is_other(name, item))
}

// It is no attribute of this name.
fn is_other(name: &Name, item: &Item) -> bool
    ensures { result ≡ is_new_name name.now (attrs_view (item.now ∷ [])) }
{
    match item {
        Item::Attribute(attr) => {
            attr.name.local() != name.local() || attr.name.space() != name.space()
        }
        _ => true,
    }
}
