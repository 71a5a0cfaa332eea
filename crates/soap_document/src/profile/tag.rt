//! Start tags with their names resolved.
ghost use Rattle.std.specs.Prelude.{◌≡◌, ◌++◌, [], List, IfOk, OnOk, IfSome, map, option_map, true};
ghost use Rattle.soap_document.specs.Profile.Items.{a_declaration};
ghost use Rattle.soap_document.specs.Profile.Namespaces.{tag_of, resolved_with, element_name};
ghost use Rattle.soap_document.specs.Profile.Namespaces.{expanded, are_distinct};
ghost use Rattle.soap_document.specs.Profile.Opened.{start_tag};
ghost use Rattle.soap_document.specs.Profile.Scope.{InForce};
ghost use Rattle.rm_base.specs.declared.message.Binding.{Binding};
ghost use Rattle.soap_document.specs.Profile.View.{element_view, items_view, decls_view};

use crate::WrittenAttribute;
use crate::profile::names::{
    are_distinct, are_distinct_names, are_many_bare, declarations, element_name, expanded,
};
use crate::profile::scope::Scope;
use crate::profile::tree::{Element, Item};
use rm_base::Memory;
use std::alloc::Global;

/// Enters the element, which has no parts yet; what it has goes into the vector without items. None where a rule is
/// broken, and then the scope is of no more use.
pub(crate) fn resolved_tag(
    alloc: Global,
    name: &[u8],
    attributes: &[WrittenAttribute],
    items: Vec<Item>,
    scope: &mut Scope,
) -> Result<Option<Element>, Memory>
    requires { items.items ≡ [] }
    ensures tag { (bindings : List Binding) → InForce scope.old bindings → IfOk result (λ found.
        option_map element_view found ≡ option_map start_tag (tag_of bindings name.now attributes.now)) }
    ensures within { (bindings : List Binding) → InForce scope.old bindings → IfOk result (λ found. IfSome found (λ e.
        InForce scope.new (decls_view e.items.items ++ bindings))) }
{
    if attributes.is_empty() {
        return bare_tag(alloc, name, items, scope);
    }
    full_tag(alloc, name, attributes, items, scope)
}

// The tag of an element without attributes, which declares nothing.
fn bare_tag(
    alloc: Global,
    name: &[u8],
    items: Vec<Item>,
    scope: &mut Scope,
) -> Result<Option<Element>, Memory>
    requires { items.items ≡ [] }
    ensures tag { (bindings : List Binding) → InForce scope.old bindings → IfOk result (λ found.
        option_map element_view found ≡ option_map start_tag (tag_of bindings name.now [])) }
    ensures within { (bindings : List Binding) → InForce scope.old bindings → IfOk result (λ found. IfSome found (λ e.
        InForce scope.new (decls_view e.items.items ++ bindings))) }
{
    let Some(name) = element_name(alloc, name, scope)? else {
        return Ok(None);
    };
    Ok(Some(Element { name, items }))
}

// The tag of an element with attributes.
fn full_tag(
    alloc: Global,
    name: &[u8],
    attributes: &[WrittenAttribute],
    items: Vec<Item>,
    scope: &mut Scope,
) -> Result<Option<Element>, Memory>
    requires { items.items ≡ [] }
    ensures tag { (bindings : List Binding) → InForce scope.old bindings → IfOk result (λ found.
        option_map element_view found ≡ option_map start_tag (tag_of bindings name.now attributes.now)) }
    ensures within { (bindings : List Binding) → InForce scope.old bindings → IfOk result (λ found. IfSome found (λ e.
        InForce scope.new (decls_view e.items.items ++ bindings))) }
{
    if !are_distinct(alloc, attributes)? {
        return Ok(None);
    }
    let mut items = items;
    if !declarations(alloc, attributes, &mut items, &mut scope.recent)? {
        return Ok(None);
    }
    if !items.is_empty() {
        scope.enter(alloc, items.as_slice())?;
    }
    tag_within(alloc, name, attributes, items, scope)
}

// The tag whose declarations are these, and within which the scope is.
fn tag_within(
    alloc: Global,
    name: &[u8],
    attributes: &[WrittenAttribute],
    items: Vec<Item>,
    scope: &mut Scope,
) -> Result<Option<Element>, Memory>
    requires { are_distinct attributes.now ≡ true }
    ensures tag { (bindings decls : List Binding) → InForce scope.old bindings
        → items_view items.items ≡ map a_declaration decls → IfOk result (λ found. option_map element_view found
        ≡ option_map start_tag (resolved_with decls (element_name bindings name.now)
        (expanded bindings attributes.now))) }
    ensures decls { (decls : List Binding) → items_view items.items ≡ map a_declaration decls
        → IfOk result (λ found. IfSome found (λ e. decls_view e.items.items ≡ decls)) }
    ensures same { (bindings : List Binding) → InForce scope.old bindings → OnOk result (InForce scope.new bindings) }
{
    let Some(name) = element_name(alloc, name, scope)? else {
        return Ok(None);
    };
    let mut items = items;
    if !expanded(alloc, attributes, &mut items, scope)? {
        return Ok(None);
    }
    // Names without prefixes that are distinct as they are written are so as they are expanded.
    if are_many_bare(attributes) {
        return Ok(Some(Element { name, items }));
    }
    if !are_distinct_names(alloc, items.as_slice())? {
        return Ok(None);
    }
    Ok(Some(Element { name, items }))
}
