//! Written names that stand in a document again and again, and what they are resolved to.
ghost use Rattle.std.specs.Prelude.{◌≡◌, ℕ, List, Option, Some, None, All, IfOk, IfSome, OnOk};
ghost use Rattle.soap_document.specs.Profile.Pool.{Knows};
ghost use Rattle.soap_document.specs.Profile.Tree.{Expanded};
ghost use Rattle.soap_document.specs.declared.profile.pool.Met.{Met};

use crate::profile::name::Name;
use rm_base::{Bytes, Memory};
use std::alloc::Global;

const SLOTS: usize = 64;

// So many names are resolved before there are slots: a short document has no use for them.
const FEW: u8 = 8;

/// Names that were met. A name has one slot, and each slot keeps the name that came last. It is known in the era in
/// which it was met, throughout which the bindings are the same. Where the bindings change the era goes on and no slot
/// is emptied, which took half of the time where each element declares a namespace.
#[derive(Drop)]
pub(crate) struct Pool {
    // None at first.
    slots: Vec<Option<Met>>,
    // How many names more are resolved before there are slots.
    few: u8,
    // How often all names were forgotten: what was met in an era before is known no longer.
    era: u64,
}

#[derive(Drop)]
pub(crate) struct Met {
    era: u64,
    written: Bytes,
    name: Name,
}

impl Pool {
    pub(crate) fn new(alloc: Global) -> Pool
        ensures { (resolve : List ℕ → Option Expanded) → Knows resolve result }
    {
        Pool {
            slots: Vec::new(alloc),
            few: FEW,
            era: 0,
        }
    }

    /// What a name is resolved to, where it is known.
    pub(crate) fn find(&self, written: &[u8]) -> Option<&Name>
        ensures { (resolve : List ℕ → Option Expanded) → Knows resolve self.now
            → IfSome result (λ name. resolve written.now ≡ Some name.now) }
    {
        let Some(Some(met)) = self.slots.get(slot_of(written)) else {
            return None;
        };
        if met.era != self.era {
            return None;
        }
        if met.written.as_slice() != written {
            return None;
        }
        Some(&met.name)
    }

    /// The name of these two parts, where it was met in any era and is still kept.
    pub(crate) fn same(&self, written: &[u8], space: &[u8], local: &[u8]) -> Option<&Name>
        ensures { IfSome result (λ name. name.now ≡ record { space = space.now; local = local.now }) }
    {
        let Some(Some(met)) = self.slots.get(slot_of(written)) else {
            return None;
        };
        if met.name.local() != local {
            return None;
        }
        if met.name.space() != space {
            return None;
        }
        Some(&met.name)
    }

    /// A name that was resolved may be known from now on.
    pub(crate) fn keep(&mut self, alloc: Global, written: &[u8], name: &Name) -> Result<(), Memory>
        ensures { (resolve : List ℕ → Option Expanded) → Knows resolve self.old → resolve written.now ≡ Some name.now
            → OnOk result (Knows resolve self.new) }
    {
        if self.slots.is_empty() {
            if self.few > 0 {
                self.few -= 1;
                return Ok(());
            }
            self.slots = empty_slots(alloc)?;
        }
        let met = Met {
            era: self.era,
            written: Bytes::from_slice(alloc, written)?,
            name: name.share()?,
        };
        if let Some(slot) = self.slots.get_mut(slot_of(written)) {
            *slot = Some(met);
        }
        Ok(())
    }

    /// Forgets all names, whatever they are resolved to from now on.
    pub(crate) fn forget(&mut self)
        ensures { (before after : List ℕ → Option Expanded) → Knows before self.old → Knows after self.new }
    {
        let Some(era) = self.era.checked_add(1) else {
            for slot in self.slots.iter_mut() {
                *slot = None;
            }
            return;
        };
        self.era = era;
    }
}

fn empty_slots(alloc: Global) -> Result<Vec<Option<Met>>, Memory>
    ensures { IfOk result (λ slots. All (λ (slot : Option Met). slot ≡ None) slots.items) }
{
    let mut slots = Vec::with_capacity(alloc, SLOTS)?;
    for _ in 0..SLOTS {
        slots.push(None)?;
    }
    Ok(slots)
}

// The slot of a name, by its length and three of its bytes.
fn slot_of(name: &[u8]) -> usize {
    if name.is_empty() {
        return 0;
    }
    let first = usize::from(name[0]);
    let middle = usize::from(name[name.len() / 2]);
    let last = usize::from(name[name.len() - 1]);
    (name.len() % SLOTS + first + 3 * middle + 5 * last) % SLOTS
}
