//! Elements in order, which contracts see as a list of trees.
ghost use Rattle.std.specs.Prelude.{◌≡◌, [], ◌∷◌, ◌++◌, ◌↔◌, length, map, option_map, slice_get};
ghost use Rattle.std.specs.Prelude.{IsTrue, IfOk, OnOk, OnErr};
ghost use Rattle.soap_document.specs.Profile.View.{element_view};

use crate::profile::copies::copy_element;
use crate::profile::tree::Element;
use rm_base::Memory;
use std::alloc::Global;
use std::marker::Model;

/// Elements in order.
#[derive(Debug, Drop)]
pub struct Elements {
    items: Vec<Element>,
}

impl Model for Elements {
    ghost use Rattle.std.specs.Prelude.{List, map};
    ghost use Rattle.std.specs.Coded.{coded_list};
    ghost use Rattle.soap_document.specs.Profile.Tree.{Element as Tree};
    ghost use Rattle.soap_document.specs.Profile.TreeCode.{tree_code};
    ghost use Rattle.soap_document.specs.Profile.View.{element_view};

    ghost Value = { List Tree };

    ghost coded = { coded_list tree_code };

    ghost view = { λ e. map element_view e.items.items };
}

impl Elements {
    /// No elements. It takes no memory.
    pub fn new(alloc: Global) -> Self
        ensures { result ≡ [] }
    {
        Elements {
            items: Vec::new(alloc),
        }
    }

    /// How many elements there are.
    pub fn len(&self) -> usize
        ensures { result ≡ length self.now }
    {
        self.items.len()
    }

    /// Whether there are none.
    pub fn is_empty(&self) -> bool
        ensures { IsTrue result ↔ (self.now ≡ []) }
    {
        self.items.is_empty()
    }

    /// The element at a place, counted from 0.
    pub fn get(&self, i: usize) -> Option<&Element>
        ensures { option_map (λ e. element_view e.now) result ≡ slice_get self.now i }
    {
        self.items.get(i)
    }

    /// The elements, in order.
    pub fn as_slice(&self) -> &[Element]
        ensures { map element_view result.now ≡ self.now }
    {
        self.items.as_slice()
    }

    /// Puts an element at the end.
    pub fn push(&mut self, item: Element) -> Result<(), Memory>
        ensures ok { OnOk result (self.new ≡ self.old ++ element_view item ∷ []) }
        ensures err { OnErr result (self.new ≡ self.old) }
    {
        self.items.push(item)?;
        Ok(())
    }

    /// The same elements again, with their declarations.
    pub fn copy(&self, alloc: Global) -> Result<Self, Memory>
        ensures { IfOk result (λ copy. copy ≡ self.now) }
    {
        let mut copy = Elements::new(alloc);
        for element in self.as_slice() {
            copy.push(copy_element(alloc, element)?)?;
        }
        Ok(copy)
    }

    /// A vector's elements. It takes no memory.
    pub fn from_vec(items: Vec<Element>) -> Self
        ensures { result ≡ map element_view items.items }
    {
        Elements { items }
    }
}
