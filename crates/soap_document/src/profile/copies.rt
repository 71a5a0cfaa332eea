//! The same elements again.
ghost use Rattle.std.specs.Prelude.{◌≡◌, IfOk};
ghost use Rattle.soap_document.specs.Profile.View.{element_view, item_view, items_view};

use crate::profile::tree::{Attr, Declaration, Element, Item};
use rm_base::Memory;
use std::alloc::Global;

/// The same element again, with its declarations.
#[cycle(copying)]
pub(crate) fn copy_element(alloc: Global, element: &Element) -> Result<Element, Memory>
    ensures { IfOk result (λ copy. element_view copy ≡ element_view element.now) }
{
    let name = element.name.share()?;
    let items = copy_items(alloc, element.items.as_slice())?;
    Ok(Element { name, items })
}

#[cycle(copying)]
fn copy_items(alloc: Global, items: &[Item]) -> Result<Vec<Item>, Memory>
    ensures { IfOk result (λ copy. items_view copy.items ≡ items_view items.now) }
{
    let mut copy = Vec::with_capacity(alloc, items.len())?;
    for item in items {
        copy.push(copy_item(alloc, item)?)?;
    }
    Ok(copy)
}

#[cycle(copying)]
fn copy_item(alloc: Global, item: &Item) -> Result<Item, Memory>
    ensures { IfOk result (λ copy. item_view copy ≡ item_view item.now) }
{
    match item {
        Item::Declaration(declaration) => Ok(Item::Declaration(copy_declaration(
            alloc,
            declaration,
        )?)),
        Item::Attribute(attr) => Ok(Item::Attribute(copy_attr(alloc, attr)?)),
        Item::Text(text) => Ok(Item::Text(text.copy(alloc)?)),
        Item::Child(element) => Ok(Item::Child(copy_element(alloc, element)?)),
    }
}

fn copy_declaration(alloc: Global, declaration: &Declaration) -> Result<Declaration, Memory>
    ensures { IfOk result (λ copy. copy ≡ declaration.now) }
{
    let prefix = declaration.prefix.copy(alloc)?;
    let space = declaration.space.share()?;
    Ok(Declaration { prefix, space })
}

fn copy_attr(alloc: Global, attr: &Attr) -> Result<Attr, Memory>
    ensures { IfOk result (λ copy. copy ≡ attr.now) }
{
    let name = attr.name.share()?;
    let value = attr.value.copy(alloc)?;
    Ok(Attr { name, value })
}
