//! The bindings in force at a place.
ghost use Rattle.std.specs.Prelude.{◌≡◌, ◌∷◌, [], ◌++◌, List, IfOk, OnOk};
ghost use Rattle.std.specs.BTreeMap.{IsOrdered};
ghost use Rattle.rm_base.specs.declared.message.Binding.{Binding as Bound};
ghost use Rattle.soap_envelope.specs.Scope.{IsScope};
ghost use Rattle.soap_envelope.specs.Steps.{Binds, kept, kept_one, lent_cmp};

use rm_base::{Binding, Bindings, Blob, Items, Memory};
use std::alloc::Global;
use std::collections::BTreeMap;

/// What is in force within the inner bindings and the outer, of which the inner count before.
pub(crate) fn in_force(
    alloc: Global,
    inner: &[Binding],
    outer: &[Binding],
) -> Result<Bindings, Memory>
    ensures { IfOk result (λ scope. IsScope (inner.now ++ outer.now) scope) }
{
    let mut known = BTreeMap::new(alloc);
    bind(inner, &mut known)?;
    bind(outer, &mut known)?;
    sorted(alloc, &known)
}

// Binds each prefix that is not bound so far.
fn bind<'a>(bindings: &'a [Binding], known: &mut BTreeMap<&'a [u8], &'a [u8]>) -> Result<(), Memory>
    ensures { OnOk result ((before : List Bound) → Binds known.old before → Binds known.new (before ++ bindings.now)) }
{
    for binding in bindings {
        bind_one(binding, known)?;
    }
    Ok(())
}

fn bind_one<'a>(
    binding: &'a Binding,
    known: &mut BTreeMap<&'a [u8], &'a [u8]>,
) -> Result<(), Memory>
    ensures { OnOk result ((before : List Bound) → Binds known.old before
        → Binds known.new (before ++ binding.now ∷ [])) }
{
    let prefix = binding.prefix.as_slice();
    if known.contains_key(&prefix) {
        return Ok(());
    }
    known.insert(prefix, binding.space.as_slice())?;
    Ok(())
}

// The bindings of a map in order, without xml and without an undeclared default.
fn sorted(alloc: Global, known: &BTreeMap<&[u8], &[u8]>) -> Result<Bindings, Memory>
    ensures kept { IfOk result (λ scope. scope ≡ kept known.now.entries) }
    ensures ordered { IsOrdered lent_cmp known.now }
{
    let mut scope = Items::new(alloc);
    for (prefix, space) in known {
        keep(alloc, prefix, space, &mut scope)?;
    }
    Ok(scope)
}

fn keep(alloc: Global, prefix: &[u8], space: &[u8], scope: &mut Bindings) -> Result<(), Memory>
    ensures { OnOk result (scope.new ≡ scope.old ++ kept_one prefix.now space.now) }
{
    if prefix == b"xml".as_slice() || space.is_empty() {
        return Ok(());
    }
    let prefix = Blob::from_slice(alloc, prefix)?;
    let space = Blob::from_slice(alloc, space)?;
    scope.push(Binding { prefix, space })?;
    Ok(())
}
