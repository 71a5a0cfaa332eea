//! Trees without declarations.
ghost use Rattle.std.specs.Prelude.{◌≡◌, ◌++◌, IfOk, OnOk};
ghost use Rattle.soap_document.specs.Profile.Items.{stripped_item, stripped_items};
ghost use Rattle.soap_document.specs.Profile.Tree.{without_declarations};
ghost use Rattle.soap_document.specs.Profile.View.{element_view, item_view, items_view};

use crate::profile::tree::{Attr, Element, Item};
use rm_base::Memory;
use std::alloc::Global;

/// The same element with no declarations, at every level.
#[cycle(stripping)]
pub fn strip(alloc: Global, element: &Element) -> Result<Element, Memory>
    ensures { IfOk result (λ stripped. element_view stripped ≡ without_declarations (element_view element.now)) }
{
    let name = element.name.share()?;
    let items = strip_items(alloc, element.items.as_slice())?;
    Ok(Element { name, items })
}

#[cycle(stripping)]
fn strip_items(alloc: Global, items: &[Item]) -> Result<Vec<Item>, Memory>
    ensures { IfOk result (λ stripped. items_view stripped.items ≡ stripped_items (items_view items.now)) }
{
    let mut stripped = Vec::with_capacity(alloc, items.len())?;
    for item in items {
        strip_onto(alloc, item, &mut stripped)?;
    }
    Ok(stripped)
}

#[cycle(stripping)]
fn strip_onto(alloc: Global, item: &Item, stripped: &mut Vec<Item>) -> Result<(), Memory>
    ensures { OnOk result (items_view stripped.new.items
        ≡ items_view stripped.old.items ++ stripped_item (item_view item.now)) }
{
    match item {
        Item::Declaration(_) => {}
        Item::Attribute(attr) => stripped.push(Item::Attribute(copied(alloc, attr)?))?,
        Item::Text(text) => stripped.push(Item::Text(text.copy(alloc)?))?,
        Item::Child(element) => stripped.push(Item::Child(strip(alloc, element)?))?,
    }
    Ok(())
}

fn copied(alloc: Global, attr: &Attr) -> Result<Attr, Memory>
    ensures { IfOk result (λ copy. copy ≡ attr.now) }
{
    let name = attr.name.share()?;
    let value = attr.value.copy(alloc)?;
    Ok(Attr { name, value })
}
