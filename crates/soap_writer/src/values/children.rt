//! The children of an element by name.
ghost use Rattle.std.specs.Prelude.{◌≡◌, ◌∷◌, [], option_map, Some};
ghost use Rattle.soap_document.specs.Profile.View.{element_view, parts_view};
ghost use Rattle.soap_writer.specs.Values.Children.{name_in, children_named, is_same};
ghost use Rattle.soap_writer.specs.Values.Outcome.{Gives, optional, single};
ghost use Rattle.soap_writer.specs.Values.Steps.{listed, lent_trees};

use crate::values::flaw::Flaw;
use soap_document::profile::{Element, Item, Name};
use std::alloc::Global;

/// Whether a name is this one.
pub fn is_named(name: &Name, space: &[u8], local: &[u8]) -> bool
    ensures { result ≡ is_same name.now (name_in space.now local.now) }
{
    name.local() == local && name.space() == space
}

// The item, where it is a child of the name.
fn named<'a>(item: &'a Item, space: &[u8], local: &[u8]) -> Option<&'a Element>
    ensures { listed result ≡ children_named (name_in space.now local.now) (parts_view (item.now ∷ [])) }
{
    match item {
        Item::Child(child) if is_named(&child.name, space, local) => Some(child),
        _ => None,
    }
}

/// The child of a name, of which there is one at most. It takes no memory. Malformed exactly where two children have
/// the name.
#[tactic(auto, using(crate::specs::Values::ChildLaws::children_more))]
pub fn find_optional<'a>(
    items: &'a [Item],
    space: &[u8],
    local: &[u8],
) -> Result<Option<&'a Element>, Flaw>
    ensures { Gives (λ found. option_map (λ e. element_view e.now) found) result
        (optional (children_named (name_in space.now local.now) (parts_view items.now))) }
{
    let mut found = None;
    for item in items {
        if let Some(child) = named(item, space, local) {
            if found.is_some() {
                return Err(Flaw::Malformed);
            }
            found = Some(child);
        }
    }
    Ok(found)
}

/// The one child of a name. It takes no memory. Malformed exactly where not exactly one child has the name.
pub fn find_single<'a>(items: &'a [Item], space: &[u8], local: &[u8]) -> Result<&'a Element, Flaw>
    ensures { Gives (λ e. element_view e.now) result
        (single (children_named (name_in space.now local.now) (parts_view items.now))) }
{
    match find_optional(items, space, local)? {
        Some(child) => Ok(child),
        None => Err(Flaw::Malformed),
    }
}

/// The children of a name, in order.
#[tactic(auto, using(crate::specs::Values::ChildLaws::children_more))]
pub fn find_all<'a>(
    alloc: Global,
    items: &'a [Item],
    space: &[u8],
    local: &[u8],
) -> Result<Vec<&'a Element>, Flaw>
    ensures { Gives (λ v. lent_trees v.items) result
        (Some (children_named (name_in space.now local.now) (parts_view items.now))) }
{
    let mut children = Vec::new(alloc);
    for item in items {
        if let Some(child) = named(item, space, local) {
            children.push(child)?;
        }
    }
    Ok(children)
}
