//! Masks that rise: sets of at most 64 listed terms, a bit for each.
ghost use Rattle.std.specs.Prelude.{◌≡◌, ◌≤◌, ◌∷◌, [], length, IfOk, OnOk};
ghost use Rattle.std.specs.List.{insert as inserted};
ghost use Rattle.rm_policy.specs.Alternatives.Masks.{AddAnswer};

use crate::alternatives::error::WspError;
use rm_base::Memory;
use std::alloc::Global;
use std::marker::Model;

/// How many alternatives an operator may have, and two policies in common.
pub(crate) const ALTERNATIVES: usize = 256;

/// Masks. Where each was added to others that rose, they rise.
#[derive(Debug, Drop)]
pub(crate) struct Masks {
    items: Vec<u64>,
}

impl Model for Masks {
    ghost use Rattle.std.specs.Prelude.{List, ℕ};

    ghost Value = { List ℕ };

    ghost view = { λ masks. masks.items.items };
}

impl Masks {
    /// No masks. It takes no memory.
    pub(crate) fn new(alloc: Global) -> Self
        ensures { result ≡ [] }
    {
        Masks {
            items: Vec::new(alloc),
        }
    }

    /// One mask.
    pub(crate) fn one(alloc: Global, mask: u64) -> Result<Self, Memory>
        ensures { IfOk result (λ masks. masks ≡ mask ∷ []) }
    {
        let mut items = Vec::new(alloc);
        items.push(mask)?;
        Ok(Masks { items })
    }

    /// The mask of no terms, and another one.
    pub(crate) fn none_and(alloc: Global, mask: u64) -> Result<Self, Memory>
        ensures { IfOk result (λ masks. masks ≡ 0 ∷ mask ∷ []) }
    {
        let mut items = Vec::new(alloc);
        items.push(0)?;
        items.push(mask)?;
        Ok(Masks { items })
    }

    /// All masks.
    pub(crate) fn as_slice(&self) -> &[u64]
        ensures { result.now ≡ self.now }
    {
        self.items.as_slice()
    }

    /// A mask more, unless it is there.
    pub(crate) fn add(&mut self, mask: u64) -> Result<(), WspError>
        ensures { AddAnswer self.old mask self.new result }
    {
        let masks = self.items.as_slice();
        let Err(place) = masks.binary_search(&mask) else {
            return Ok(());
        };
        if masks.len() >= ALTERNATIVES {
            return Err(WspError::TooManyAlternatives);
        }
        put(&mut self.items, place, mask)?;
        Ok(())
    }
}

fn put(masks: &mut Vec<u64>, place: usize, mask: u64) -> Result<(), Memory>
    requires { place ≤ length masks.old.items }
    ensures { OnOk result (masks.new.items ≡ inserted masks.old.items place mask) }
{
    masks.insert(place, mask)?;
    Ok(())
}
