//! The spaces that each prefix was bound to, the innermost last.
ghost use Rattle.std.specs.Prelude.{◌≡◌, [], ◌∷◌, ◌++◌, ℕ, List, OnOk, option_map, if◌then◌else◌};
ghost use Rattle.std.specs.Str.{bytes_eq};
ghost use Rattle.soap_document.specs.Profile.Scope.{stack_at, last_of};

use crate::profile::shared::Shared;
use rm_base::Memory;
use std::alloc::Global;
use std::collections::BTreeMap;

pub(crate) type Stacks = BTreeMap<Vec<u8>, Vec<Shared>>;

/// The innermost space of a prefix.
pub(crate) fn top<'a>(stacks: &'a Stacks, prefix: &[u8]) -> Option<&'a Shared>
    ensures { option_map (λ x. x.now) result ≡ last_of (stack_at stacks.now prefix.now) }
{
    match stacks.get(prefix) {
        Some(stack) => stack.last(),
        None => None,
    }
}

/// Binds a prefix once more.
pub(crate) fn push(
    alloc: Global,
    stacks: &mut Stacks,
    prefix: &[u8],
    space: Shared,
) -> Result<(), Memory>
    ensures { OnOk result ((other : List ℕ) → stack_at stacks.new other
        ≡ (if bytes_eq prefix.now other then stack_at stacks.old other ++ space ∷ [] else stack_at stacks.old other)) }
{
    match stacks.get_mut(prefix) {
        Some(stack) => stack.push(space)?,
        None => begin(alloc, stacks, prefix, space)?,
    }
    Ok(())
}

// Binds a prefix that was not bound before.
fn begin(alloc: Global, stacks: &mut Stacks, prefix: &[u8], space: Shared) -> Result<(), Memory>
    ensures { OnOk result ((other : List ℕ) → stack_at stacks.new other
        ≡ (if bytes_eq prefix.now other then space ∷ [] else stack_at stacks.old other)) }
{
    let mut stack = Vec::new(alloc);
    stack.push(space)?;
    stacks.insert(Vec::from_slice(alloc, prefix)?, stack)?;
    Ok(())
}

/// Takes the innermost space of a prefix away.
pub(crate) fn pop(stacks: &mut Stacks, prefix: &[u8])
    ensures { (below : List (List ℕ)) (top : List ℕ) → stack_at stacks.old prefix.now ≡ below ++ top ∷ []
        → (other : List ℕ) → stack_at stacks.new other
        ≡ (if bytes_eq prefix.now other then below else stack_at stacks.old other) }
{
    if let Some(stack) = stacks.get_mut(prefix) {
        let _ = stack.pop();
    }
}
