//! The parts of content in order, which contracts see as they are in a tree.
ghost use Rattle.std.specs.Prelude.{◌≡◌, ◌∷◌, [], ◌↔◌, length, option_map, slice_get, IsTrue, OnOk, OnErr};
ghost use Rattle.soap_document.specs.Profile.Items.{is_part, listed};
ghost use Rattle.soap_document.specs.Profile.Steps.{join};
ghost use Rattle.soap_document.specs.Profile.Tree.{none};
ghost use Rattle.soap_document.specs.Profile.View.{item_view, items_view, parts_view};

use crate::profile::tree::Item;
use rm_base::Memory;
use std::alloc::Global;
use std::marker::Model;

/// What stands between the tags of an element, in order: texts that are not empty, and elements.
#[derive(Debug, Drop)]
pub struct Parts {
    items: Vec<Item>,
}

impl Model for Parts {
    ghost use Rattle.soap_document.specs.Profile.Tree.{Parts as Content};
    ghost use Rattle.soap_document.specs.Profile.TreeCode.{parts_code};
    ghost use Rattle.soap_document.specs.Profile.View.{AreParts, parts_view};

    ghost Value = { Content };

    ghost coded = { parts_code };

    ghost view = { λ p. parts_view p.items.items };

    ghost invariant = { λ p. AreParts p.items.items };
}

impl Parts {
    /// No parts. It takes no memory.
    pub fn new(alloc: Global) -> Self
        ensures { result ≡ none }
    {
        Parts {
            items: Vec::new(alloc),
        }
    }

    /// How many parts there are.
    pub fn len(&self) -> usize
        ensures { result ≡ length (listed self.now) }
    {
        self.items.len()
    }

    /// Whether there are none.
    pub fn is_empty(&self) -> bool
        ensures { IsTrue result ↔ (listed self.now ≡ []) }
    {
        self.items.is_empty()
    }

    /// The part at a place, counted from 0.
    pub fn get(&self, i: usize) -> Option<&Item>
        ensures { option_map (λ part. item_view part.now) result ≡ slice_get (listed self.now) i }
    {
        item_at(self.as_slice(), i)
    }

    /// The parts, in order.
    pub fn as_slice(&self) -> &[Item]
        ensures { items_view result.now ≡ listed self.now }
    {
        self.items.as_slice()
    }

    /// Puts a text or an element at the end.
    pub fn push(&mut self, part: Item) -> Result<(), Memory>
        requires { IsTrue (is_part (item_view part)) }
        ensures ok { OnOk result (self.new ≡ join self.old (parts_view (part ∷ []))) }
        ensures err { OnErr result (self.new ≡ self.old) }
    {
        self.items.push(part)?;
        Ok(())
    }
}

/// It is a text or an element, and may be pushed.
pub fn is_part(item: &Item) -> bool
    ensures { result ≡ is_part (item_view item.now) }
{
    match item {
        Item::Declaration(_) | Item::Attribute(_) => false,
        Item::Text(_) | Item::Child(_) => true,
    }
}

fn item_at(items: &[Item], i: usize) -> Option<&Item>
    ensures { option_map (λ item. item_view item.now) result ≡ slice_get (items_view items.now) i }
{
    items.get(i)
}
