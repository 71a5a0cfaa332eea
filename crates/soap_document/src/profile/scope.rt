//! What the names of a document are resolved by.
ghost use Rattle.std.specs.Prelude.{◌≡◌, [], ◌∷◌, ◌++◌, IsTrue, ◌↔◌, ◌≢◌, List, IfOk, OnOk, option_map};
ghost use Rattle.soap_document.specs.Profile.Namespaces.{bound, element_name, attribute_name, xml_space};
ghost use Rattle.soap_document.specs.Profile.Pool.{Knows};
ghost use Rattle.soap_document.specs.Profile.Scope.{InForce, IsStacked};
ghost use Rattle.rm_base.specs.declared.message.Binding.{Binding};
ghost use Rattle.soap_document.specs.Profile.View.{decls_view};

use crate::profile::pool::Pool;
use crate::profile::predeclared::Predeclared;
use crate::profile::recent::Recent;
use crate::profile::shared::Shared;
use crate::profile::stacks::{Stacks, pop, push, top};
use crate::profile::tree::Item;
use rm_base::Memory;
use std::alloc::Global;
use std::collections::BTreeMap;

/// The bindings in force, and the names that were resolved by them.
pub(crate) struct Scope {
    stacks: Stacks,
    pub(crate) elements: Pool,
    pub(crate) attributes: Pool,
    predeclared: Predeclared,
    pub(crate) recent: Recent,
}

impl Drop for Scope {
    fn drop(self) {
        let Scope {
            stacks: _,
            elements: _,
            attributes: _,
            predeclared: _,
            recent: _,
        } = self;
    }
}

impl Scope {
    /// Around the root.
    pub(crate) fn new(alloc: Global) -> Result<Scope, Memory>
        ensures { IfOk result (λ scope. InForce scope []) }
    {
        Ok(Scope {
            stacks: BTreeMap::new(alloc),
            elements: Pool::new(alloc),
            attributes: Pool::new(alloc),
            predeclared: Predeclared::new(alloc)?,
            recent: Recent::new(),
        })
    }

    /// The namespace of the prefix `xml`, which needs no declaration.
    pub(crate) fn xml(&self) -> &Shared
        ensures { result.now ≡ xml_space }
    {
        self.predeclared.xml()
    }

    /// The space of the names that are in no namespace.
    pub(crate) fn none(&self) -> &Shared
        ensures { result.now ≡ [] }
    {
        self.predeclared.none()
    }

    /// What a prefix is bound to.
    pub(crate) fn bound(&self, prefix: &[u8]) -> Option<&Shared>
        ensures { (bindings : List Binding) → IsStacked self.now.stacks bindings
            → option_map (λ x. x.now) result ≡ bound prefix.now bindings }
    {
        top(&self.stacks, prefix)
    }

    /// Within an element that has these declarations.
    pub(crate) fn enter(&mut self, alloc: Global, items: &[Item]) -> Result<(), Memory>
        ensures { (bindings : List Binding) → InForce self.old bindings
            → OnOk result (InForce self.new (decls_view items.now ++ bindings)) }
    {
        bind_all(alloc, items, &mut self.stacks)?;
        self.forget();
        Ok(())
    }

    /// Behind an element that has these declarations.
    pub(crate) fn leave(&mut self, items: &[Item])
        ensures { (bindings : List Binding) → InForce self.old (decls_view items.now ++ bindings)
            → InForce self.new bindings }
    {
        if !declares(items) {
            return;
        }
        unbind_all(items, &mut self.stacks);
        self.forget();
    }

    // What was known of names holds no longer where bindings have changed.
    fn forget(&mut self)
        ensures { (before bindings : List Binding) → Knows (element_name before) self.old.elements
            → Knows (attribute_name before) self.old.attributes → IsStacked self.old.stacks bindings
            → InForce self.new bindings }
    {
        self.elements.forget();
        self.attributes.forget();
    }
}

// A declaration among items.
fn declares(items: &[Item]) -> bool
    ensures { IsTrue result ↔ (decls_view items.now ≢ []) }
{
    for item in items {
        if let Item::Declaration(_) = item {
            return true;
        }
    }
    false
}

// The first declaration is bound last: it is the innermost.
fn bind_all(alloc: Global, items: &[Item], stacks: &mut Stacks) -> Result<(), Memory>
    ensures { (bindings : List Binding) → IsStacked stacks.old bindings
        → OnOk result (IsStacked stacks.new (decls_view items.now ++ bindings)) }
{
    let mut left = items.len();
    while left > 0 {
        left -= 1;
        bind(alloc, &items[left], stacks)?;
    }
    Ok(())
}

fn bind(alloc: Global, item: &Item, stacks: &mut Stacks) -> Result<(), Memory>
    ensures { (bindings : List Binding) → IsStacked stacks.old bindings
        → OnOk result (IsStacked stacks.new (decls_view (item.now ∷ []) ++ bindings)) }
{
    if let Item::Declaration(declaration) = item {
        let space = declaration.space.share()?;
        push(alloc, stacks, declaration.prefix.as_slice(), space)?;
    }
    Ok(())
}

fn unbind_all(items: &[Item], stacks: &mut Stacks)
    ensures { (bindings : List Binding) → IsStacked stacks.old (decls_view items.now ++ bindings)
        → IsStacked stacks.new bindings }
{
    for item in items {
        unbind(item, stacks);
    }
}

fn unbind(item: &Item, stacks: &mut Stacks)
    ensures { (bindings : List Binding) → IsStacked stacks.old (decls_view (item.now ∷ []) ++ bindings)
        → IsStacked stacks.new bindings }
{
    if let Item::Declaration(declaration) = item {
        pop(stacks, declaration.prefix.as_slice());
    }
}
